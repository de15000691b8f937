ghost use Rattle.std.specs.Prelude.{◌≡◌, ℕ, List, Option, true, IfErr};
ghost use Rattle.mdf_disk.specs.Crash.{Adds};
ghost use Rattle.mdf_disk.specs.State.{state_of};
ghost use Rattle.mdf_seal.specs.Seal.{IsBlank};
ghost use Rattle.mdf_make.specs.declared.said.Said.{Said as Told};
ghost use Rattle.tool_concat.specs.Concat.{Joining};
ghost use Rattle.mdf_command.specs.declared.fault.Fault.{Fault as Why};
ghost use Rattle.mdf_make.specs.declared.blamed.Input.{Input as Which};
ghost use Rattle.mdf_make.specs.Blamed.{IsOfLoaded, joining_end};
ghost use Rattle.mdf_make.specs.Tool.{IsImage, ToolEnds};

use crate::joining::Unjoined;
use crate::said::Said;
use mdf_disk::Disk;
use mdf_num::Bytes;
use std::alloc::Global;

/// A tool that makes a file of two others.
pub(crate) trait PairTool {
    /// What it makes of two files: bytes, and what is told of them.
    ghost makes: { Self → Joining → List ℕ → Told → Type 0 };

    /// For which fault it refuses them.
    ghost refuses: { Self → Joining → Why → Type 0 };

    /// Which of them such a fault is of.
    ghost blames: { Self → Joining → Option Which → Why → Type 0 };

    /// Writes what it makes of two files, at a time in ns since 1970, on a disk that is attached with an empty file, and answers what
    /// is told of it.
    fn make<C: Disk>(
        self,
        alloc: Global,
        one: Bytes,
        two: Bytes,
        now_ns: u64,
        out: &mut C,
    ) -> Result<Said, Unjoined>
        requires attached { C.attached out.old ≡ true }
        requires blank { IsBlank (C.content out.old) (C.story out.old) }
        ensures ends { ToolEnds (makes self (record { first = one; second = two; now = now_ns })) (refuses self (record { first = one; second = two; now = now_ns }))
            (state_of C.Disk out.old) (state_of C.Disk out.new) (joining_end result) }
        ensures whose { IfErr result (λ unjoined. IsOfLoaded (blames self) (record { first = one; second = two; now = now_ns }) unjoined.blamed unjoined.fault) }
        ensures any_moment { Adds (C.story out.old) (C.story out.new) (IsImage (makes self (record { first = one; second = two; now = now_ns }))) }
        ensures asked { C.asked out.new ≡ C.asked out.old };
}
