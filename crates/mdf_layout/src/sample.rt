ghost use Rattle.std.specs.Prelude.{◌≡◌, IfOk};

use mdf_num::{Bytes, Memory, Rows};
use std::alloc::Global;

/// The value of a channel.
#[derive(Debug, Drop)]
pub enum Value {
    /// An unsigned number, or the bit pattern of a float.
    Unsigned(u64),
    Signed(i64),
    /// A text or bytes, of fixed or of variable length.
    Bytes(Bytes),
    /// The index of the record, which is the value of a virtual channel.
    Index(u64),
}

/// The value of a channel in one sample, and whether it is valid.
#[derive(Debug, Drop)]
pub struct Entry {
    pub value: Value,
    pub valid: bool,
}

/// The values of one sample, one for each channel of its group.
pub type Entries = Rows<Entry>;

/// A sample of a channel group: one value for each of its channels.
#[derive(Debug, Drop)]
pub struct Sample {
    /// The number of the group, counted from 0.
    pub group: u16,
    pub values: Entries,
}

impl Value {
    /// An equal value.
    fn copy(&self) -> Result<Value, Memory>
        ensures { IfOk result (λ value. value ≡ self.now) }
    {
        Ok(match self {
            Value::Unsigned(number) => Value::Unsigned(*number),
            Value::Signed(number) => Value::Signed(*number),
            Value::Bytes(bytes) => Value::Bytes(bytes.copy()?),
            Value::Index(index) => Value::Index(*index),
        })
    }
}

/// Equal entries.
fn copy_all(alloc: Global, entries: &[Entry]) -> Result<Entries, Memory>
    ensures { IfOk result (λ copies. copies ≡ entries.now) }
{
    let mut copies = Rows::empty(alloc);
    for entry in entries {
        let value = entry.value.copy()?;
        copies.push(Entry {
            value,
            valid: entry.valid,
        })?;
    }
    Ok(copies)
}

impl Sample {
    /// An equal sample.
    pub fn copy(&self, alloc: Global) -> Result<Sample, Memory>
        ensures { IfOk result (λ sample. sample ≡ self.now) }
    {
        let values = copy_all(alloc, self.values.as_slice())?;
        Ok(Sample {
            group: self.group,
            values,
        })
    }
}
