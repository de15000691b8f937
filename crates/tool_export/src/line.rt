ghost use Rattle.std.specs.Prelude.{◌≡◌, ◌++◌, ◌∷◌, [], map, codes, IfOk, OnOk, OnErr};
ghost use Rattle.tool_export.specs.Table.{channel_text, line_of};

use crate::text::name_text;
use csv::{ByteRecord, Writer};
use mdf_group::ChannelRow;
use mdf_num::Memory;
use std::alloc::Global;
use std::marker::Model;

/// A line of a table. Contracts see it as its fields.
#[derive(Drop)]
pub(crate) struct Line {
    record: ByteRecord,
}

impl Model for Line {
    ghost use Rattle.std.specs.Prelude.{◌≡◌, [], List, ℕ};
    ghost use Rattle.csv.specs.Records.{fields_of, partial_of};

    ghost Value = { List (List ℕ) };

    ghost view = { λ line. fields_of line.record };

    ghost invariant = { λ line. partial_of line.record ≡ [] };
}

impl Line {
    /// A line without fields.
    pub(crate) fn new(alloc: Global) -> Line
        ensures { result ≡ [] }
    {
        Line {
            record: ByteRecord::new(alloc),
        }
    }

    /// Leaves a line without fields.
    fn clear(&mut self)
        ensures { self.new ≡ [] }
    {
        self.record.clear();
    }

    /// Adds a field at the end. After an error the line has no fields.
    fn push(&mut self, field: &[u8]) -> Result<(), Memory>
        ensures ok { OnOk result (self.new ≡ self.old ++ field.now ∷ []) }
        ensures err { OnErr result (self.new ≡ []) }
    {
        if self.record.push_field(field).is_err() {
            self.record.clear();
            return Err(Memory);
        }
        Ok(())
    }

    /// The bytes of the line, as the CSV writer writes it.
    #[tactic(auto, unfolding(crate::specs::Table::line_of))]
    pub(crate) fn bytes(&self, alloc: Global) -> Result<Vec<u8>, Memory>
        ensures { IfOk result (λ bytes. bytes.items ≡ line_of self.now) }
    {
        let mut writer = Writer::from_writer(Vec::new(alloc));
        let Ok(()) = writer.write_byte_record(&self.record) else {
            return Err(Memory);
        };
        let Ok(bytes) = writer.into_inner() else {
            return Err(Memory);
        };
        Ok(bytes)
    }

    /// Makes it the line of the names of channels.
    pub(crate) fn set_names(&mut self, channels: &[ChannelRow]) -> Result<(), Memory>
        ensures { OnOk result (self.new ≡ codes "index" ∷ map channel_text channels.now) }
    {
        self.clear();
        self.push(b"index")?;
        for channel in channels {
            self.push(name_text(&channel.name))?;
        }
        Ok(())
    }
}
