ghost use Rattle.std.specs.Prelude.{◌≡◌, [], All, IfOk, length};
ghost use Rattle.mdf_layout.specs.Layout.{record_size};
ghost use Rattle.mdf_layout.specs.Written.{AreApart, AreEntriesOf};
ghost use Rattle.mdf_layout.specs.Stored.{IsStored};

use mdf_layout::{
    Entries, Entry, FieldKind, FieldRow, Sample, Samples, Shape, ShapeFault, Value, shape_of,
};
use mdf_num::{Memory, Rows};
use std::alloc::Global;
use std::test::Fail;

/// A channel of 64-bit unsigned numbers.
pub fn word_row(byte: u32) -> FieldRow
    ensures { IsStored result }
{
    FieldRow {
        kind: FieldKind::Unsigned,
        big: false,
        byte,
        bit: 0,
        bits: 64,
        inval: None,
        all_invalid: false,
    }
}

/// Two such channels.
fn two_rows(alloc: Global) -> Result<Rows<FieldRow>, Memory>
    ensures { IfOk result (λ rows. All IsStored rows) }
{
    let mut rows = Rows::empty(alloc);
    rows.push(word_row(0))?;
    rows.push(word_row(8))?;
    Ok(rows)
}

fn entries(alloc: Global, numbers: &[u64]) -> Result<Entries, Memory> {
    let mut entries = Rows::empty(alloc);
    for number in numbers {
        entries.push(Entry {
            value: Value::Unsigned(*number),
            valid: true,
        })?;
    }
    Ok(entries)
}

pub fn sample(alloc: Global, numbers: &[u64]) -> Result<Sample, Memory> {
    Ok(Sample {
        group: 0,
        values: entries(alloc, numbers)?,
    })
}

/// Writes a record of these values.
fn encode(shape: &Shape, values: &Entries, out: &mut [u8])
    requires stored { All IsStored shape.now.rows }
    requires apart { AreApart shape.now.rows }
    requires fits { AreEntriesOf shape.now.rows values.now }
    requires size { length out.old ≡ record_size shape.now }
{
    shape.encode(values, &[], out);
}

/// Writes the record of this sample of two channels, if it is one.
fn encoded(shape: &Shape, sample: &Sample) -> Option<[u8; 16]>
    requires stored { All IsStored shape.now.rows }
{
    let mut out = [0xFF; 16];
    if shape.record_size() != 16 || !shape.disjoint() || !shape.fits(sample) {
        return None;
    }
    encode(shape, &sample.values, &mut out);
    Some(out)
}

/// The layout of two channels.
fn two_fields(alloc: Global) -> Result<Shape, ShapeFault>
    ensures { IfOk result (λ shape. All IsStored shape.rows) }
{
    shape_of(alloc, &two_rows(alloc)?, 16, 0)
}

#[test]
fn a_record_of_two_fields(rt: HostRuntime) -> Result<(), Fail> {
    let two = sample(rt.alloc(), &[0x0807_0605_0403_0201, 9])?;
    let shape = two_fields(rt.alloc())?;
    assert_eq!(rt;
        encoded(&shape, &two),
        Some(*b"\x01\x02\x03\x04\x05\x06\x07\x08\x09\0\0\0\0\0\0\0")
    );
    Ok(())
}

/// The number of a sample of one.
fn number_of(sample: Option<&Sample>) -> Option<u64> {
    match sample?.values.get(0)?.value {
        Value::Unsigned(number) => Some(number),
        _ => None,
    }
}

/// The numbers of the first four samples.
fn numbers_of(samples: &Samples) -> [Option<u64>; 4] {
    [
        number_of(samples.get(0)),
        number_of(samples.get(1)),
        number_of(samples.get(2)),
        number_of(samples.get(3)),
    ]
}

/// A list of three samples.
fn three(alloc: Global) -> Result<Samples, Memory> {
    let mut samples = Samples::empty(alloc);
    for number in 1..4 {
        samples.push(sample(alloc, &[number])?.copy(alloc)?)?;
    }
    Ok(samples)
}

#[test]
fn samples_stand_in_order(rt: HostRuntime) -> Result<(), Fail> {
    let samples = three(rt.alloc())?;
    assert_eq!(rt; numbers_of(&samples), [Some(1), Some(2), Some(3), None]);
    Ok(())
}
