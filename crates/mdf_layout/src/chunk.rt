ghost use Rattle.std.specs.Prelude.{◌≡◌, ◌≤◌, length, drop};

use crate::Sample;
use std::marker::Model;

/// A list of samples that does not change. Contracts see it as the list.
#[derive(Drop)]
pub struct Chunk {
    samples: Vec<Sample>,
}

impl Model for Chunk {
    ghost use Rattle.std.specs.Prelude.{List};
    ghost use Rattle.mdf_layout.specs.declared.sample.Sample.{Sample};

    ghost Value = { List Sample };

    ghost view = { λ chunk. chunk.samples.items };
}

impl Chunk {
    /// The samples of a vector. It takes no memory.
    pub(crate) fn of(samples: Vec<Sample>) -> Chunk
        ensures { result ≡ samples.items }
    {
        Chunk { samples }
    }

    /// The samples in order. It takes no memory.
    pub(crate) fn into_vec(self) -> Vec<Sample>
        ensures { result.items ≡ self }
    {
        let Chunk { samples } = self;
        samples
    }

    pub fn len(&self) -> u64
        ensures { result ≡ length self.now }
    {
        self.samples.len() as u64
    }

    pub fn as_slice(&self) -> &[Sample]
        ensures { result.now ≡ self.now }
    {
        self.samples.as_slice()
    }

    /// The part from sample `at` on.
    pub(crate) fn rest(&self, at: u64) -> &[Sample]
        requires { at ≤ length self.now }
        ensures { result.now ≡ drop at self.now }
    {
        &self.samples.as_slice()[at as usize..]
    }
}
