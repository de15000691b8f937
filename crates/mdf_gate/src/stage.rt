ghost use Rattle.std.specs.Prelude.{◌≡◌, ◌+◌, ◌≤◌, ◌<◌, ◌^◌, ℕ, List, length, true, IfSome, OnOk, OnErr};
ghost use Rattle.std.specs.Option.{option_map};
ghost use Rattle.mdf_format.specs.Number.{patched};
ghost use Rattle.mdf_format.specs.Cause.{HasCause};
ghost use Rattle.mdf_disk.specs.Story.{settled};
ghost use Rattle.mdf_disk.specs.Crash.{Adds, NowHas};
ghost use Rattle.mdf_disk.specs.Goes.{GoesOn};
ghost use Rattle.mdf_seal.specs.Seal.{IsKept, synced};
ghost use Rattle.mdf_gate.specs.Images.{IsTorn, IsStage};
ghost use Rattle.mdf_gate.specs.Appended.{HasOpened, HasStaged};

use mdf_disk::Disk;
use mdf_num::Failed;

/// Writes bytes into a file that is kept, and syncs.
fn write_and_sync<D: Disk>(disk: &mut D, at: u64, bytes: &[u8]) -> Result<(), Failed>
    requires attached { D.attached disk.old ≡ true }
    requires within { IfSome (D.content disk.old) (λ file. at ≤ length file) }
    ensures content { OnOk result (D.content disk.new ≡ option_map (patched at bytes.now) (D.content disk.old)) }
    ensures kept { (kept : List ℕ) → NowHas (D.story disk.old) (λ moment. moment ≡ settled kept)
        → OnOk result (NowHas (D.story disk.new) (λ moment. moment ≡ settled (patched at bytes.now kept))) }
    ensures any_moment { (kept : List ℕ) → NowHas (D.story disk.old) (λ moment. moment ≡ settled kept)
        → Adds (D.story disk.old) (D.story disk.new) (IsTorn at (length bytes.now) kept) }
    ensures unsynced { OnErr result (synced (D.story disk.new) ≡ synced (D.story disk.old)) }
    ensures in_flight { (kept : List ℕ) → NowHas (D.story disk.old) (λ moment. moment ≡ settled kept)
        → OnErr result (NowHas (D.story disk.new) (λ moment. length moment.writes ≤ 1)) }
    ensures goes_on { GoesOn D.Disk disk.old disk.new }
    ensures calls { OnOk result (IfSome (D.story disk.old) (λ _. D.moment disk.new ≡ D.moment disk.old + 2)) }
    ensures few { IfSome (D.story disk.old) (λ _. D.moment disk.new ≤ D.moment disk.old + 2) }
    ensures cause { HasCause (D.faults disk.old) (D.faults disk.new) result }
{
    disk.write_at(at, bytes)?;
    disk.sync()
}

/// Writes a payload behind the last gate of a file that is kept, and syncs. Then it opens that gate, and syncs.
pub fn write_block<D: Disk>(disk: &mut D, place: u64, payload: &[u8]) -> Result<(), Failed>
    requires attached { D.attached disk.old ≡ true }
    requires small { place < 2 ^ 62 }
    requires ends { IfSome (D.content disk.old) (λ file. length file ≡ place + 1) }
    ensures ok { OnOk result (HasOpened D.Disk place payload.now disk.old disk.new) }
    ensures err { OnErr result (HasStaged D.Disk place payload.now disk.old disk.new) }
    ensures any_moment { (kept : List ℕ) → IsKept (D.content disk.old) (D.story disk.old) kept → length kept ≡ place + 1
        → Adds (D.story disk.old) (D.story disk.new) (IsStage place kept payload.now) }
    ensures goes_on { GoesOn D.Disk disk.old disk.new }
    ensures few { IfSome (D.story disk.old) (λ _. D.moment disk.new ≤ D.moment disk.old + 4) }
    ensures cause { HasCause (D.faults disk.old) (D.faults disk.new) result }
{
    // The payload, which holds the closed gate of the next place, has to be kept before this gate is opened.
    write_and_sync(disk, place + 1, payload)?;
    write_and_sync(disk, place, b"#")
}
