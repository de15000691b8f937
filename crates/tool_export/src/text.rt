ghost use Rattle.std.specs.Prelude.{◌≡◌, ◌++◌, [], map, codes, OnOk};
ghost use Rattle.csv.specs.Writing.{default_writer, fields_text};
ghost use Rattle.hex.specs.Hex.{encode_lower};
ghost use Rattle.tool_export.specs.Table.{IsPlain, entry_text, name_text, sample_line, value_text};

use mdf_block::Note;
use mdf_layout::{Entry, Value};
use mdf_num::Memory;
use std::alloc::Global;

/// The text of a name, which is empty where there is none.
pub fn name_text(name: &Note) -> &[u8]
    ensures { result.now ≡ name_text name.now }
{
    match name {
        Note::Nothing => &[],
        Note::Plain(text) => text.as_slice(),
        Note::Xml(text) => text.as_slice(),
    }
}

/// Adds bytes at the end.
fn push_text(out: &mut Vec<u8>, text: &[u8]) -> Result<(), Memory>
    ensures { OnOk result (out.new.items ≡ out.old.items ++ text.now) }
{
    out.extend_from_slice(text)?;
    Ok(())
}

/// Adds `x` and two digits for each byte.
fn push_bytes(alloc: Global, out: &mut Vec<u8>, bytes: &[u8]) -> Result<(), Memory>
    ensures text { OnOk result (out.new.items ≡ out.old.items ++ (codes "x" ++ encode_lower bytes.now)) }
    ensures plain { OnOk result (IsPlain (codes "x" ++ encode_lower bytes.now)) }
{
    let digits = hex::encode(alloc, bytes)?;
    push_text(out, b"x")?;
    push_text(out, digits.as_bytes())
}

/// Adds a value.
fn push_value(alloc: Global, out: &mut Vec<u8>, value: &Value) -> Result<(), Memory>
    ensures text { OnOk result (out.new.items ≡ out.old.items ++ value_text value.now) }
    ensures plain { OnOk result (IsPlain (value_text value.now)) }
{
    let mut buffer = itoa::Buffer::new();
    match value {
        Value::Unsigned(number) => push_text(out, buffer.format(*number).as_bytes()),
        Value::Signed(number) => push_text(out, buffer.format(*number).as_bytes()),
        Value::Bytes(bytes) => push_bytes(alloc, out, bytes.as_slice()),
        Value::Index(number) => push_text(out, buffer.format(*number).as_bytes()),
    }
}

/// Adds the text of an entry.
fn push_entry(alloc: Global, out: &mut Vec<u8>, entry: &Entry) -> Result<(), Memory>
    ensures text { OnOk result (out.new.items ≡ out.old.items ++ entry_text entry.now) }
    ensures plain { OnOk result (IsPlain (entry_text entry.now)) }
{
    push_value(alloc, out, &entry.value)?;
    if !entry.valid {
        push_text(out, b"?")?;
    }
    Ok(())
}

/// Adds the texts of the entries, each behind a comma, as a CSV writer with its defaults writes them behind a first field.
fn push_entries(alloc: Global, out: &mut Vec<u8>, entries: &[Entry]) -> Result<(), Memory>
    ensures { OnOk result (out.new.items ≡ out.old.items ++ fields_text default_writer (map entry_text entries.now)) }
{
    for entry in entries {
        push_text(out, b",")?;
        push_entry(alloc, out, entry)?;
    }
    Ok(())
}

/// Adds the line of the sample with this index, as a CSV writer with its defaults writes it: no byte of a field calls for quotes.
pub(crate) fn push_sample(
    alloc: Global,
    out: &mut Vec<u8>,
    index: u64,
    entries: &[Entry],
) -> Result<(), Memory>
    ensures { OnOk result (out.new.items ≡ out.old.items ++ sample_line index entries.now) }
{
    push_text(out, itoa::Buffer::new().format(index).as_bytes())?;
    push_entries(alloc, out, entries)?;
    push_text(out, b"\n")
}
