ghost use Rattle.std.specs.Prelude.{◌≡◌, OnOk};
ghost use Rattle.mdf_format.specs.Cause.{HasCause};

use mdf_num::Failed;
use mdf_port::{MemorySource, Source};

/// A source that can be waited for, and let go.
pub trait Input: Source {
    /// Waits until the next take need not wait, a tenth of a second at most, and answers whether it need not: something is
    /// there, or it is the end, or it would fail. It takes nothing.
    ///
    /// # Errors
    /// `Failed` where the source failed.
    fn wait(&mut self) -> Result<bool, Failed>
        ensures left { Self.left self.new ≡ Self.left self.old }
        ensures cause { HasCause (Self.faults self.old) (Self.faults self.new) result }
        ensures calm { OnOk result (Self.faults self.new ≡ Self.faults self.old) };

    /// Lets go of what the bytes come from, so that who sends them is told. Nothing is to be taken any more.
    fn close(&mut self)
        ensures left { Self.left self.new ≡ Self.left self.old }
        ensures faults { Self.faults self.new ≡ Self.faults self.old };
}

/// Bytes in memory are always there.
impl Input for MemorySource {
    fn wait(&mut self) -> Result<bool, Failed> {
        Ok(true)
    }

    fn close(&mut self) {}
}
