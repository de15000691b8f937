ghost use Rattle.std.specs.Prelude.{◌≡◌, ℕ, List, true};
ghost use Rattle.mdf_disk.specs.Crash.{Adds};
ghost use Rattle.mdf_disk.specs.State.{state_of};
ghost use Rattle.mdf_seal.specs.Seal.{IsBlank};
ghost use Rattle.mdf_make.specs.declared.said.Said.{Said as Told};
ghost use Rattle.mdf_command.specs.declared.fault.Fault.{Fault as Why};
ghost use Rattle.mdf_make.specs.Tool.{IsImage, ToolEnds};

use crate::said::Said;
use mdf_command::Fault;
use mdf_disk::Disk;
use mdf_num::Bytes;
use std::alloc::Global;

/// A tool that makes a file of another one.
pub(crate) trait Tool {
    /// What it makes of a file: bytes, and what is told of them.
    ghost makes: { Self → List ℕ → List ℕ → Told → Type 0 };

    /// For which fault it refuses a file.
    ghost refuses: { Self → List ℕ → Why → Type 0 };

    /// Writes what it makes of a file, on a disk that is attached with an empty file, and answers what is told of it.
    fn make<C: Disk>(self, alloc: Global, file: Bytes, out: &mut C) -> Result<Said, Fault>
        requires attached { C.attached out.old ≡ true }
        requires blank { IsBlank (C.content out.old) (C.story out.old) }
        ensures ends { ToolEnds (makes self file) (refuses self file) (state_of C.Disk out.old) (state_of C.Disk out.new) result }
        ensures any_moment { Adds (C.story out.old) (C.story out.new) (IsImage (makes self file)) }
        ensures asked { C.asked out.new ≡ C.asked out.old };
}
