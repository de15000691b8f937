ghost use Rattle.std.specs.Prelude.{◌≡◌, ◌<◌, ℕ, List, length, Option, Some, IfOk, true};
ghost use Rattle.mdf_layout.specs.declared.sample.Entry.{Entry};
ghost use Rattle.mdf_num.specs.Halt.{StopCause};
ghost use Rattle.tool_export.specs.Table.{count_in, sample_in};

use mdf_layout::Entries;
use mdf_model::Measurement;
use mdf_num::{Span, Stop};
use std::alloc::Global;

/// What gives the samples of a channel group one by one. Their records may be in memory, or in the file of a span that each
/// call is handed.
pub(crate) trait SampleList {
    /// That they are read of a file of these bytes.
    ghost are_of: { Self → List ℕ → Type 0 };

    /// The sample of an index in such a file: the entries of its channels.
    ghost sample: { Self → List ℕ → ℕ → Option (List Entry) };

    /// What a file of so many bytes must have for them.
    ghost needs: { Self → ℕ → Type 0 };

    /// How many there are.
    ghost count: { Self → ℕ };

    /// How many there are.
    fn count(&self) -> u64
        ensures { result ≡ count self.now };

    /// The sample of an index, counted from 0. Its record may be read into the scratch, whose old content goes.
    ///
    /// # Errors
    /// The span's own; and want of memory.
    fn sample<P: Span>(
        &self,
        alloc: Global,
        span: &mut P,
        index: u64,
        scratch: &mut Vec<u8>,
    ) -> Result<Entries, Stop>
        requires needs { needs self.now (P.size span.old) }
        requires index { index < count self.now }
        ensures sample { (f : List ℕ) → P.bytes span.old ≡ Some f → are_of self.now f
            → IfOk result (λ entries. sample self.now f index ≡ Some entries) }
        ensures same { P.bytes span.new ≡ P.bytes span.old }
        ensures size { P.size span.new ≡ P.size span.old }
        ensures cause { StopCause true (P.faults span.old) (P.faults span.new) result };
}

/// The samples of a group of a measurement in memory.
#[derive(Drop)]
pub(crate) struct GroupSamples<'a> {
    found: &'a Measurement,
    group: u32,
    ghost there: { group < length found.now.groups },
}

impl<'a> GroupSamples<'a> {
    /// Those of the group of this number, counted from 0.
    pub(crate) fn new(found: &'a Measurement, group: u32) -> GroupSamples<'a>
        requires { group < length found.now.groups }
        ensures found { result.found.now ≡ found.now }
        ensures group { result.group ≡ group }
    {
        GroupSamples { found, group }
    }
}

impl SampleList for GroupSamples<'_> {
    ghost are_of = { λ _ _. Unit {0} };

    ghost sample = { λ list _. sample_in list.found.now list.group };

    ghost needs = { λ _ _. Unit {0} };

    ghost count = { λ list. count_in list.found.now list.group };

    fn count(&self) -> u64 {
        self.found.samples(self.group)
    }

    fn sample<P: Span>(
        &self,
        alloc: Global,
        _span: &mut P,
        index: u64,
        _scratch: &mut Vec<u8>,
    ) -> Result<Entries, Stop> {
        let Ok(entries) = self.found.sample(alloc, self.group, index) else {
            return Err(Stop::Memory);
        };
        Ok(entries)
    }
}
