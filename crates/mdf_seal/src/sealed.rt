ghost use Rattle.std.specs.Prelude.{◌≡◌, ◌+◌, ◌≤◌, ◌<◌, ◌^◌, ◌++◌, ◌⊎◌, List, ℕ, [], ◌∷◌, length, None, true, IfSome, IfOk, OnOk, OnErr};
ghost use Rattle.std.specs.Option.{option_map};
ghost use Rattle.mdf_format.specs.Cause.{HasCause};
ghost use Rattle.mdf_disk.specs.Crash.{Adds, NowHas};
ghost use Rattle.mdf_disk.specs.Goes.{GoesOn};
ghost use Rattle.mdf_seal.specs.Images.{IsShut, IsClosed, IsWholeButFirst, closed};
ghost use Rattle.mdf_seal.specs.Seal.{synced};

use mdf_disk::Disk;
use mdf_num::Failed;

/// A file that is being written under a seal: its first byte, which is kept back, and how many bytes were given. The
/// disk stands beside it, and nobody else acts on that disk between two of its calls.
#[derive(Drop)]
pub struct Sealed {
    first: Option<u8>,
    length: u64,
}

/// Writes bytes at the end of a file, whose length is `at`. Where there are none it makes no call.
fn append<D: Disk>(disk: &mut D, at: u64, bytes: &[u8]) -> Result<(), Failed>
    requires attached { D.attached disk.old ≡ true }
    requires end { IfSome (D.content disk.old) (λ file. length file ≡ at) }
    requires some { 1 ≤ at }
    requires shut { NowHas (D.story disk.old) IsShut }
    ensures content { OnOk result (D.content disk.new ≡ option_map (λ file. file ++ bytes.now) (D.content disk.old)) }
    ensures shut { OnOk result (NowHas (D.story disk.new) IsShut) }
    ensures unsynced { synced (D.story disk.new) ≡ synced (D.story disk.old) }
    ensures calls { IfSome (D.story disk.old) (λ _. D.moment disk.new ≤ D.moment disk.old + 1) }
    ensures any_moment { Adds (D.story disk.old) (D.story disk.new) IsClosed }
    ensures none { bytes.now ≡ [] → disk.new ≡ disk.old }
    ensures cause { HasCause (D.faults disk.old) (D.faults disk.new) result }
    ensures goes_on { GoesOn D.Disk disk.old disk.new }
{
    if bytes.is_empty() {
        return Ok(());
    }
    disk.write_at(at, bytes)
}

impl Sealed {
    ghost use Rattle.mdf_seal.specs.Seal.{Seals, IsBlank, IsKept};

    /// Begins a file: writes a closed byte and syncs. The clock of a disk that tells its story rises by 2 at most.
    ///
    /// # Errors
    /// `Failed` where the disk failed. Then such a disk keeps no byte.
    pub fn begin<D: Disk>(disk: &mut D) -> Result<Sealed, Failed>
        requires attached { D.attached disk.old ≡ true }
        requires blank { IsBlank (D.content disk.old) (D.story disk.old) }
        ensures ok { IfOk result (λ seal. Seals seal (D.content disk.new) (D.story disk.new) []) }
        ensures any_moment { Adds (D.story disk.old) (D.story disk.new) (λ file. length file ≤ 1) }
        ensures closed { OnOk result (IfSome (synced (D.story disk.new)) (λ kept. kept ≡ 0 ∷ [])) }
        ensures unbegun { OnErr result (IfSome (synced (D.story disk.new)) (λ kept. kept ≡ [])) }
        ensures calls { IfSome (D.story disk.old) (λ _. D.moment disk.new ≤ D.moment disk.old + 2) }
        ensures cause { HasCause (D.faults disk.old) (D.faults disk.new) result }
        ensures goes_on { GoesOn D.Disk disk.old disk.new }
    {
        disk.write_at(0, &[0])?;
        disk.sync()?;
        Ok(Sealed {
            first: None,
            length: 0,
        })
    }

    /// Appends bytes, keeping the very first one back. Where there are none to write it makes no call. The clock of a disk
    /// that tells its story rises by 1 at most, and nothing is synced.
    ///
    /// # Errors
    /// `Failed` where the disk failed. Then the seal is as before.
    pub fn give<D: Disk>(&mut self, disk: &mut D, bytes: &[u8]) -> Result<(), Failed>
        requires attached { D.attached disk.old ≡ true }
        requires sealed { (given : List ℕ) × Seals self.old (D.content disk.old) (D.story disk.old) given
            × (length given + length bytes.now < 2 ^ 62) }
        ensures ok { (given : List ℕ) → Seals self.old (D.content disk.old) (D.story disk.old) given
            → OnOk result (Seals self.new (D.content disk.new) (D.story disk.new) (given ++ bytes.now)) }
        ensures err { OnErr result (self.new ≡ self.old) }
        ensures any_moment { Adds (D.story disk.old) (D.story disk.new) IsClosed }
        ensures unsynced { synced (D.story disk.new) ≡ synced (D.story disk.old) }
        ensures calls { IfSome (D.story disk.old) (λ _. D.moment disk.new ≤ D.moment disk.old + 1) }
        ensures none { bytes.now ≡ [] → disk.new ≡ disk.old }
        ensures held { self.old.first ≡ None → length bytes.now ≤ 1 → disk.new ≡ disk.old }
        ensures cause { HasCause (D.faults disk.old) (D.faults disk.new) result }
        ensures goes_on { GoesOn D.Disk disk.old disk.new }
    {
        let [first, rest @ ..] = bytes else {
            return Ok(());
        };
        if self.first.is_some() {
            append(disk, self.length, bytes)?;
        } else {
            append(disk, 1, rest)?;
            self.first = Some(*first);
        }
        self.length += bytes.len() as u64;
        Ok(())
    }

    /// Ends the file: syncs, writes the first byte, and syncs. The clock of a disk that tells its story rises by 3 at most.
    ///
    /// # Errors
    /// `Failed` where the disk failed. Then such a disk keeps what it kept before, or the bytes that were given with the
    /// first one closed.
    pub fn finish<D: Disk>(self, disk: &mut D) -> Result<(), Failed>
        requires attached { D.attached disk.old ≡ true }
        requires sealed { (given : List ℕ) × Seals self (D.content disk.old) (D.story disk.old) given
            × (1 ≤ length given) }
        ensures ok { (given : List ℕ) → Seals self (D.content disk.old) (D.story disk.old) given
            → OnOk result (IsKept (D.content disk.new) (D.story disk.new) given) }
        ensures any_moment { (given : List ℕ) → Seals self (D.content disk.old) (D.story disk.old) given
            → Adds (D.story disk.old) (D.story disk.new) (λ file. IsClosed file ⊎ IsWholeButFirst given file) }
        ensures unopened { (given : List ℕ) → Seals self (D.content disk.old) (D.story disk.old) given
            → OnErr result ((synced (D.story disk.new) ≡ synced (D.story disk.old)) ⊎ IfSome (synced (D.story disk.new)) (λ kept. kept ≡ closed given)) }
        ensures calls { IfSome (D.story disk.old) (λ _. D.moment disk.new ≤ D.moment disk.old + 3) }
        ensures cause { HasCause (D.faults disk.old) (D.faults disk.new) result }
        ensures goes_on { GoesOn D.Disk disk.old disk.new }
    {
        let Some(first) = self.first else {
            return Ok(());
        };
        // The rest has to be kept before the first byte is written.
        disk.sync()?;
        disk.write_at(0, &[first])?;
        disk.sync()
    }
}
