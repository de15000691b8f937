ghost use Rattle.std.specs.Prelude.{◌≡◌, ◌+◌, ◌^◌, ◌≤◌, ◌<◌, ℕ, List, false, length, take, All, IfSome};
ghost use Rattle.mdf_layout.specs.Layout.{Layout};
ghost use Rattle.mdf_layout.specs.declared.sample.Sample.{Sample};
ghost use Rattle.book_owned.specs.declared.mark.Mark.{Mark};
ghost use Rattle.book_owned.specs.BackHalf.{back_terms, BackKeeps, FileHolds, IsHanded, WriteKeeps, WriteAnswers};

use crate::{Mark, Written};
use mdf_disk::Disk;
use mdf_gate::{Block, GatedFile};
use std::marker::Model;

/// The file of a book whose front is elsewhere.
pub struct Back<D: Disk> {
    pub(crate) file: GatedFile<D>,
}

impl<D: Disk> Model for Back<D> {
    ghost use Rattle.mdf_gate.specs.Gated.{Gated};

    ghost Value = { Gated D };

    ghost view = { λ b. b.file };
}

impl<D: Disk> Back<D> {
    /// Writes a block that its front handed over, in four calls of the disk or fewer. It takes no memory. Of each list of samples
    /// and of marks that the file kept, and of which it held the samples before those of the block, it keeps them and the
    /// new mark, and holds the samples through that mark.
    pub fn write(&mut self, through: u64, mut block: Block) -> Written
        requires going { self.old.failed ≡ false }
        requires some { 1 ≤ length block.bytes }
        requires short { self.old.place + length block.bytes + 88 < 2 ^ 62 }
        ensures answer { WriteAnswers D.Disk self.old self.new through block result }
        ensures terms { back_terms D.Disk self.new ≡ back_terms D.Disk self.old }
        ensures later { D.faults self.old.disk ≤ D.faults self.new.disk }
        ensures clock { D.moment self.old.disk ≤ D.moment self.new.disk }
        ensures few { IfSome (D.story self.old.disk) (λ _. D.moment self.new.disk ≤ D.moment self.old.disk + 4) }
        ensures keeps { (layouts : List Layout) (most : ℕ) (samples : List Sample) (marks : List Mark) (from : ℕ)
            → BackKeeps D.Disk layouts self.old (take through samples) marks
            → FileHolds D.Disk layouts most self.old (take from samples)
            → IsHanded layouts most block samples from through
            → All (λ mark. mark.through ≤ from) marks
            → WriteKeeps D.Disk layouts most self.new samples marks through result }
    {
        let before = self.file.faults();
        let Ok(()) = self.file.append(&mut block) else {
            return Written::DiskFault {
                before,
                after: self.file.faults(),
                block,
            };
        };
        let mark = Mark {
            moment: self.file.moment(),
            through,
        };
        Written::Done { mark, block }
    }
}
