use crate::measurements::changed;
use mdf_num::{Bytes, Halt, Memory, Numbers, Rows, SliceSpan};
use mdf_port::MemorySink;
use std::alloc::Global;
use std::fmt::Debug;
use std::test::Fail;
use test_rig::{Told, all_are_told, is_told};
use tool_export::{ExportFault, export, export_in};

// The numbers of 8 bytes that are changed in a file of two groups, the number of the group, which call of the sink fails,
// and what is answered and given, of a file in memory and of a span of its bytes. No channel has a name, so the second field of the
// first line is empty.
const TABLES: &[(Table, &str)] = &[
    (Table(&[], 0, 9), "Ok(2) index,\n0,7\n1,8\n"),
    (Table(&[], 1, 9), "Ok(2) index,\n0,x616263\n1,x\n"),
    (Table(&[], 2, 9), "Err(NoGroup { said: 2, groups: 2 }) "),
    (
        Table(&[], 18446744073709551615, 9),
        "Err(NoGroup { said: 18446744073709551615, groups: 2 }) ",
    ),
    (Table(&[(0, 0)], 2, 9), "Err(Read(NotMdf)) "),
    // an offset that meets no value, and one that meets the last
    (
        Table(&[(1007, 8)], 1, 9),
        "Err(Read(Offset { channel: 0, row: 1, offset: 8 })) ",
    ),
    (
        Table(&[(1007, 0)], 1, 9),
        "Ok(2) index,\n0,x616263\n1,x616263\n",
    ),
    // all values of the first group's channel are invalid
    (Table(&[(708, 1)], 0, 9), "Ok(2) index,\n0,7?\n1,8?\n"),
    // they are signed
    (
        Table(&[(696, 0x20102), (952, 0xffff_fff9_ffff_fffb)], 0, 9),
        "Ok(2) index,\n0,-5\n1,-7\n",
    ),
    // its name is a text with a comma and a quotation mark
    (
        Table(
            &[
                (648, 1016),
                (1016, 0x5854_2323),
                (1024, 32),
                (1040, 0x63_2262_2c61),
            ],
            0,
            9,
        ),
        "Ok(2) index,\"a,b\"\"c\"\n0,7\n1,8\n",
    ),
    (Table(&[], 0, 1), "Err(Failed) index,\n"),
];

/// An answer, and the text that was given.
fn line<A: Debug>(alloc: Global, answer: &A, given: &[u8]) -> Result<String, Fail> {
    let text = std::str::from_utf8(given).unwrap_or("no text");
    Ok(format!(in alloc; "{answer:?} {text}")?)
}

/// The table of a group in a file, given behind an answer.
pub(crate) fn table_told<A: Debug>(
    alloc: Global,
    answer: &A,
    file: &[u8],
    group: u64,
) -> Result<String, Fail> {
    let file = Bytes::from_slice(alloc, file)?;
    let mut sink = MemorySink::new(alloc, Rows::empty(alloc));
    let _table = export(alloc, file, group, &mut sink);
    line(alloc, answer, sink.bytes())
}

/// The numbers that are changed, the number of the group, and which call of the sink fails.
struct Table(&'static [(usize, u64)], u64, u64);

impl Told for Table {
    fn told(&self, alloc: Global) -> Result<String, Fail> {
        let file = Bytes::from_vec(changed(alloc, self.0)?);
        let calls = Numbers::from_vec([self.2].to_vec(alloc)?);
        let mut sink = MemorySink::new(alloc, calls);
        let answer = export(alloc, file, self.1, &mut sink);
        line(alloc, &answer, sink.bytes())
    }
}

#[test]
fn tables_are_given(rt: HostRuntime) -> Result<(), Fail> {
    all_are_told(&rt, TABLES)
}

/// The answer of an export out of a span of bytes in memory, which never fails, as one of a file in memory.
fn as_in_memory(answer: Result<u64, Halt<ExportFault>>) -> Result<u64, ExportFault> {
    match answer {
        Ok(count) => Ok(count),
        Err(Halt::Fault(fault)) => Err(fault),
        Err(Halt::Failed | Halt::Memory) => Err(ExportFault::Memory),
    }
}

// What a row tells where the records are read out of a span of the file's bytes.
fn span_told(alloc: Global, table: &Table) -> Result<String, Fail> {
    let file = changed(alloc, table.0)?;
    let calls = Numbers::from_vec([table.2].to_vec(alloc)?);
    let mut sink = MemorySink::new(alloc, calls);
    let mut span = SliceSpan::new(file.as_slice());
    let answer = as_in_memory(export_in(alloc, &mut span, table.1, &mut sink));
    line(alloc, &answer, sink.bytes())
}

#[test]
fn tables_are_given_from_the_file(rt: HostRuntime) -> Result<(), Fail> {
    for (table, want) in TABLES {
        is_told(span_told(rt.alloc(), table), *want)?;
    }
    Ok(())
}
