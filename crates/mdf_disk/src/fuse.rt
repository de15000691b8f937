ghost use Rattle.std.specs.Prelude.{◌≡◌, ◌+◌, ◌-◌, ◌^◌, ◌<◌, ◌↔◌, ◌≤◌, Option, Some, None, true, IsTrue, IsOk, IfOk, IfSome, OnOk, length, min};
ghost use Rattle.mdf_format.specs.Number.{bytes_at};
ghost use Rattle.mdf_format.specs.Cause.{HasCause};
ghost use Rattle.mdf_disk.specs.Stays.{Stays};
ghost use Rattle.mdf_disk.specs.Calls.{Attaches, Patches, Writes, Keeps, Syncs};
ghost use Rattle.mdf_disk.specs.Asked.{first_asked, unasked_below};

use crate::{Disk, Role};
use mdf_num::{Bytes, Failed, FaultCount};

/// A disk that passes so many calls on to the disk under it, and fails each later one itself.
#[derive(Drop)]
pub struct Fuse<D> {
    disk: D,
    left: u64,
    /// What an attach asked for that was not passed on.
    refused: Option<(Bytes, Role)>,
    faults: FaultCount,
}

/// Counts a call down, and says whether it is still passed on.
fn spend(left: &mut u64) -> bool
    ensures passed { IsTrue result ↔ (0 < left.old) }
    ensures counted { left.new ≡ left.old - 1 }
{
    if *left == 0 {
        return false;
    }
    *left -= 1;
    true
}

impl<D: Disk> Fuse<D> {
    ghost use Rattle.mdf_disk.specs.Fuse.{disk_of, left_of};

    /// Over this disk, passing on so many calls of `attach`, `size`, `read_at`, `write_at` and `sync`.
    pub fn new(disk: D, calls: u64) -> Fuse<D>
        ensures disk { disk_of result ≡ disk }
        ensures left { left_of result ≡ calls }
        ensures asked { ⟦<Fuse<D> as Disk>⟧.asked result ≡ D.asked disk }
        ensures attached { ⟦<Fuse<D> as Disk>⟧.attached result ≡ D.attached disk }
        ensures content { ⟦<Fuse<D> as Disk>⟧.content result ≡ D.content disk }
        ensures story { ⟦<Fuse<D> as Disk>⟧.story result ≡ D.story disk }
        ensures moment { ⟦<Fuse<D> as Disk>⟧.moment result ≡ D.moment disk }
        ensures faults { ⟦<Fuse<D> as Disk>⟧.faults result ≡ min (D.faults disk) (2 ^ 64 - 1) }
    {
        Fuse {
            disk,
            left: calls,
            refused: None,
            faults: FaultCount::zero(),
        }
    }

    /// The disk under it.
    pub fn disk(&self) -> &D
        ensures { result.now ≡ disk_of self.now }
    {
        &self.disk
    }
}

impl<D: Disk> Disk for Fuse<D> {
    ghost use Rattle.mdf_disk.specs.Fuse.{Burns};

    ghost asked = { λ f. first_asked f.refused (D.asked f.disk) };

    ghost attached = { λ f. D.attached f.disk };

    ghost content = { λ f. D.content f.disk };

    ghost story = { λ f. D.story f.disk };

    ghost moment = { λ f. D.moment f.disk };

    ghost faults = { λ f. min (f.faults + D.faults f.disk) (2 ^ 64 - 1) };

    ghost agrees = { λ f. D.agrees f.disk };

    ghost unasked = { λ f. unasked_below f.refused (D.asked f.disk) (D.attached f.disk) (D.unasked f.disk) };

    ghost unattached = { λ f. D.unattached f.disk };

    fn attach(&mut self, name: Bytes, role: Role) -> Result<(), Failed>
        requires { ⟦<Fuse<D> as Disk>⟧.asked self.old ≡ None }
        ensures asked { ⟦<Fuse<D> as Disk>⟧.asked self.new ≡ Some (name, role) }
        ensures attached { IsOk result ↔ (⟦<Fuse<D> as Disk>⟧.attached self.new ≡ true) }
        ensures content { Attaches role (⟦<Fuse<D> as Disk>⟧.content self.old) (⟦<Fuse<D> as Disk>⟧.content self.new) result }
        ensures story { ⟦<Fuse<D> as Disk>⟧.story self.new ≡ ⟦<Fuse<D> as Disk>⟧.story self.old }
        ensures moment { ⟦<Fuse<D> as Disk>⟧.moment self.old ≤ ⟦<Fuse<D> as Disk>⟧.moment self.new }
        ensures cause { HasCause (⟦<Fuse<D> as Disk>⟧.faults self.old) (⟦<Fuse<D> as Disk>⟧.faults self.new) result }
        ensures calm { OnOk result (⟦<Fuse<D> as Disk>⟧.faults self.new ≡ ⟦<Fuse<D> as Disk>⟧.faults self.old) }
        ensures burns { Burns D.faults self.old self.new result }
    {
        if !spend(&mut self.left) {
            self.refused = Some((name, role));
            return Err(self.faults.fail());
        }
        self.disk.attach(name, role)
    }

    fn size(&mut self) -> Result<u64, Failed>
        requires { ⟦<Fuse<D> as Disk>⟧.attached self.old ≡ true }
        ensures size { IfOk result (λ n. IfSome (⟦<Fuse<D> as Disk>⟧.content self.old) (λ file. n ≡ length file)) }
        ensures stays { Stays ⟦<Fuse<D> as Disk>⟧.asked ⟦<Fuse<D> as Disk>⟧.attached ⟦<Fuse<D> as Disk>⟧.moment self.old self.new }
        ensures content { ⟦<Fuse<D> as Disk>⟧.content self.new ≡ ⟦<Fuse<D> as Disk>⟧.content self.old }
        ensures story { ⟦<Fuse<D> as Disk>⟧.story self.new ≡ ⟦<Fuse<D> as Disk>⟧.story self.old }
        ensures cause { HasCause (⟦<Fuse<D> as Disk>⟧.faults self.old) (⟦<Fuse<D> as Disk>⟧.faults self.new) result }
        ensures calm { OnOk result (⟦<Fuse<D> as Disk>⟧.faults self.new ≡ ⟦<Fuse<D> as Disk>⟧.faults self.old) }
        ensures burns { Burns D.faults self.old self.new result }
    {
        if !spend(&mut self.left) {
            return Err(self.faults.fail());
        }
        self.disk.size()
    }

    fn read_at(&mut self, at: u64, buf: &mut [u8]) -> Result<(), Failed>
        requires attached { ⟦<Fuse<D> as Disk>⟧.attached self.old ≡ true }
        requires within { IfSome (⟦<Fuse<D> as Disk>⟧.content self.old) (λ file. at + length buf.old ≤ length file) }
        ensures bytes { OnOk result (IfSome (⟦<Fuse<D> as Disk>⟧.content self.old) (λ file. buf.new ≡ bytes_at (length buf.old) file at)) }
        ensures stays { Stays ⟦<Fuse<D> as Disk>⟧.asked ⟦<Fuse<D> as Disk>⟧.attached ⟦<Fuse<D> as Disk>⟧.moment self.old self.new }
        ensures content { ⟦<Fuse<D> as Disk>⟧.content self.new ≡ ⟦<Fuse<D> as Disk>⟧.content self.old }
        ensures story { ⟦<Fuse<D> as Disk>⟧.story self.new ≡ ⟦<Fuse<D> as Disk>⟧.story self.old }
        ensures cause { HasCause (⟦<Fuse<D> as Disk>⟧.faults self.old) (⟦<Fuse<D> as Disk>⟧.faults self.new) result }
        ensures calm { OnOk result (⟦<Fuse<D> as Disk>⟧.faults self.new ≡ ⟦<Fuse<D> as Disk>⟧.faults self.old) }
        ensures burns { Burns D.faults self.old self.new result }
    {
        if !spend(&mut self.left) {
            return Err(self.faults.fail());
        }
        self.disk.read_at(at, buf)
    }

    fn write_at(&mut self, at: u64, bytes: &[u8]) -> Result<(), Failed>
        requires attached { ⟦<Fuse<D> as Disk>⟧.attached self.old ≡ true }
        requires within { IfSome (⟦<Fuse<D> as Disk>⟧.content self.old) (λ file. at ≤ length file) }
        ensures stays { Stays ⟦<Fuse<D> as Disk>⟧.asked ⟦<Fuse<D> as Disk>⟧.attached ⟦<Fuse<D> as Disk>⟧.moment self.old self.new }
        ensures content { Patches (⟦<Fuse<D> as Disk>⟧.content self.old) (⟦<Fuse<D> as Disk>⟧.content self.new) at bytes.now result }
        ensures story { Writes (⟦<Fuse<D> as Disk>⟧.story self.old) (⟦<Fuse<D> as Disk>⟧.story self.new) at bytes.now result }
        ensures cause { HasCause (⟦<Fuse<D> as Disk>⟧.faults self.old) (⟦<Fuse<D> as Disk>⟧.faults self.new) result }
        ensures calm { OnOk result (⟦<Fuse<D> as Disk>⟧.faults self.new ≡ ⟦<Fuse<D> as Disk>⟧.faults self.old) }
        ensures burns { Burns D.faults self.old self.new result }
    {
        if !spend(&mut self.left) {
            return Err(self.faults.fail());
        }
        self.disk.write_at(at, bytes)
    }

    fn sync(&mut self) -> Result<(), Failed>
        requires { ⟦<Fuse<D> as Disk>⟧.attached self.old ≡ true }
        ensures stays { Stays ⟦<Fuse<D> as Disk>⟧.asked ⟦<Fuse<D> as Disk>⟧.attached ⟦<Fuse<D> as Disk>⟧.moment self.old self.new }
        ensures content { Keeps (⟦<Fuse<D> as Disk>⟧.content self.old) (⟦<Fuse<D> as Disk>⟧.content self.new) result }
        ensures story { Syncs (⟦<Fuse<D> as Disk>⟧.story self.old) (⟦<Fuse<D> as Disk>⟧.story self.new) result }
        ensures cause { HasCause (⟦<Fuse<D> as Disk>⟧.faults self.old) (⟦<Fuse<D> as Disk>⟧.faults self.new) result }
        ensures calm { OnOk result (⟦<Fuse<D> as Disk>⟧.faults self.new ≡ ⟦<Fuse<D> as Disk>⟧.faults self.old) }
        ensures burns { Burns D.faults self.old self.new result }
    {
        if !spend(&mut self.left) {
            return Err(self.faults.fail());
        }
        self.disk.sync()
    }

    fn moment(&self) -> u64 {
        self.disk.moment()
    }

    fn faults(&self) -> u64 {
        self.faults.get().saturating_add(self.disk.faults())
    }
}
