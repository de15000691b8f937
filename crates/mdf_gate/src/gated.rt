ghost use Rattle.std.specs.Prelude.{◌≡◌, ◌+◌, ◌%◌, ◌≤◌, ◌<◌, ◌^◌, ◌++◌, ℕ, List, [], ◌∷◌, length, true, false, IsSome, IfSome, IfOk, OnOk, OnErr};
ghost use Rattle.mdf_format.specs.Cause.{Rose, HasCause};
ghost use Rattle.mdf_disk.specs.Crash.{Adds, HoldsSince};
ghost use Rattle.mdf_disk.specs.Goes.{GoesOn};
ghost use Rattle.mdf_seal.specs.Seal.{IsBlank, IsKept, synced};
ghost use Rattle.mdf_seal.specs.Images.{IsUnopened};
ghost use Rattle.mdf_format.specs.Form.{form_of};
ghost use Rattle.mdf_gate.specs.Written.{room_of};
ghost use Rattle.mdf_gate.specs.Gated.{IsRecordingHead, RestsOn, disk_of};
ghost use Rattle.mdf_gate.specs.Images.{head_of, Opens, OpensEither, IsBegun};
ghost use Rattle.mdf_gate.specs.Appended.{FileGoesOn, IsAppended, IsCutShort, StartsFrom};

use crate::Block;
use crate::buffer::room_of;
use crate::recording::form_of;
use mdf_disk::Disk;
use mdf_format::Form;
use mdf_num::Failed;
use mdf_seal::Sealed;
use std::marker::Model;

/// A recording that is being written: a head, and units of its form behind it, each behind a gate that is opened last.
/// Numbers are places in the file, in bytes from its start, and how many bytes of data have been appended.
pub struct GatedFile<D: Disk> {
    disk: D,
    form: Form,
    first: u64,
    place: u64,
    offset: u64,
    start: u64,
    faults: u64,
    failed: bool,
}

impl<D: Disk> Model for GatedFile<D> {
    ghost use Rattle.std.specs.Prelude.{◌≡◌, true};
    ghost use Rattle.mdf_gate.specs.Gated.{Gated, IsGated};

    ghost Value = { Gated D };

    ghost view = { λ g. record { disk = g.disk; form = g.form; first = g.first; place = g.place; offset = g.offset; start = g.start; faults = g.faults; failed = g.failed } };

    ghost invariant = { λ g. (D.attached g.disk ≡ true) × IsGated (D.content g.disk) (D.story g.disk) (D.faults g.disk) g.form g.first g.place g.offset g.faults g.failed };
}

/// Writes a head and one closed gate behind it under a seal.
fn write_head<D: Disk>(disk: &mut D, head: &[u8]) -> Result<(), Failed>
    requires attached { D.attached disk.old ≡ true }
    requires blank { IsBlank (D.content disk.old) (D.story disk.old) }
    requires head { IsRecordingHead head.now }
    requires short { length head.now < 2 ^ 61 }
    ensures ok { OnOk result (IsKept (D.content disk.new) (D.story disk.new) (head.now ++ 0 ∷ [])) }
    ensures any_moment { Adds (D.story disk.old) (D.story disk.new) (IsBegun head.now) }
    ensures unopened { OnErr result (IfSome (synced (D.story disk.new)) (IsUnopened (head.now ++ 0 ∷ []))) }
    ensures calls { IfSome (D.story disk.old) (λ _. D.moment disk.new ≤ D.moment disk.old + 7) }
    ensures cause { HasCause (D.faults disk.old) (D.faults disk.new) result }
    ensures goes_on { GoesOn D.Disk disk.old disk.new }
{
    let mut seal = Sealed::begin(disk)?;
    seal.give(disk, head)?;
    seal.give(disk, &[0])?;
    seal.finish(disk)
}

impl<D: Disk> GatedFile<D> {
    /// Makes a recording of this head, on a disk that is attached with an empty file: the head, whose length is the
    /// first place and whose custom word names the form, and one closed byte, under a seal. It takes no memory. The clock of a
    /// disk that tells its story rises by 7 at most.
    ///
    /// # Errors
    /// `Failed` where the disk failed, with the disk. If that tells its story, it keeps no byte, a closed one, or all but the
    /// first byte behind a closed one.
    pub fn create(mut disk: D, head: &[u8]) -> Result<GatedFile<D>, (Failed, D)>
        requires attached { D.attached disk ≡ true }
        requires blank { IsBlank (D.content disk) (D.story disk) }
        requires head { IsRecordingHead head.now }
        requires short { length head.now < 2 ^ 61 }
        ensures created { IfOk result (StartsFrom D.Disk disk head.now) }
        ensures unopened { OnErr result (IfSome (synced (D.story (disk_of result))) (IsUnopened (head.now ++ 0 ∷ []))) }
        ensures any_moment { Adds (D.story disk) (D.story (disk_of result)) (IsBegun head.now) }
        ensures calls { IfSome (D.story disk) (λ _. D.moment (disk_of result) ≤ D.moment disk + 7) }
        ensures goes_on { GoesOn D.Disk disk (disk_of result) }
        ensures cause { HasCause (D.faults disk) (D.faults (disk_of result)) result }
    {
        let start = disk.moment();
        let faults = disk.faults();
        match write_head(&mut disk, head) {
            Ok(()) => {}
            Err(failed) => return Err((failed, disk)),
        }
        let first = head.len() as u64;
        Ok(GatedFile {
            disk,
            form: form_of(head),
            first,
            place: first,
            offset: 0,
            start,
            faults,
            failed: false,
        })
    }

    /// Appends the unit of a block in four calls of the disk: one write of all but its first byte and of the closed gate of
    /// the next place, a sync, the first byte, which opens its gate, and a sync. It takes no memory. After `Ok` the block
    /// is empty.
    ///
    /// # Errors
    /// `Failed` where the disk failed. The block is as it was, and the file has failed. A disk that tells its story keeps the
    /// file as it was, or with all but the first byte of the unit behind its closed gate, and at most one write is behind
    /// its last successful sync.
    pub fn append(&mut self, block: &mut Block) -> Result<(), Failed>
        requires going { self.old.failed ≡ false }
        requires some { 1 ≤ length block.old.bytes }
        requires short { self.old.place + length block.old.bytes + 88 < 2 ^ 62 }
        ensures ok { OnOk result (IsAppended D.Disk self.old self.new block.old block.new) }
        ensures err { OnErr result (IsCutShort D.Disk self.old self.new block.old block.new) }
        ensures any_moment { (blocks : List (List ℕ)) → RestsOn (D.content self.old.disk) (D.story self.old.disk) self.old.first blocks self.old.place
            → Adds (D.story self.old.disk) (D.story self.new.disk) (OpensEither (head_of (D.story self.old.disk) self.old.first) blocks block.old.bytes
            (self.old.place + room_of self.old.form (length block.old.bytes))) }
        ensures goes_on { FileGoesOn D.Disk self.old self.new }
        ensures limit { block.new.limit ≡ block.old.limit }
        ensures cause { HasCause (D.faults self.old.disk) (D.faults self.new.disk) result }
    {
        self.failed = true;
        block.write(&mut self.disk, self.form, self.place, self.offset)?;
        self.place += room_of(self.form, block.len());
        self.offset += u64::from(block.len());
        self.failed = false;
        block.clear();
        Ok(())
    }

    /// Whether an append answered `Failed`. From then on nothing is appended.
    pub fn failed(&self) -> bool
        ensures failed { result ≡ self.now.failed }
        ensures cause { self.now.failed ≡ true → Rose self.now.faults (D.faults self.now.disk) }
        ensures later { self.now.faults ≤ D.faults self.now.disk }
    {
        self.failed
    }

    /// The disk's clock.
    pub fn moment(&self) -> u64
        ensures moment { result ≡ D.moment self.now.disk }
        ensures leaves { (blocks : List (List ℕ)) → RestsOn (D.content self.now.disk) (D.story self.now.disk) self.now.first blocks self.now.place
            → HoldsSince (D.story self.now.disk) result (Opens (head_of (D.story self.now.disk) self.now.first) blocks self.now.place) }
    {
        self.disk.moment()
    }

    /// How often the disk has failed.
    pub fn faults(&self) -> u64
        ensures faults { result ≡ D.faults self.now.disk }
        ensures later { self.now.faults ≤ result }
    {
        self.disk.faults()
    }

    /// Where the next block is to stand, a multiple of 8.
    pub fn place(&self) -> u64
        ensures place { result ≡ self.now.place }
        ensures on_eight { result % 8 ≡ 0 }
        ensures behind { self.now.first ≤ result }
        ensures small { result < 2 ^ 62 }
    {
        self.place
    }

    /// Hands the disk back, attached.
    pub fn into_disk(self) -> D
        ensures disk { result ≡ self.disk }
        ensures attached { D.attached result ≡ true }
        ensures asked { IsSome (D.asked result) }
    {
        let GatedFile {
            disk,
            form: _,
            first: _,
            place: _,
            offset: _,
            start: _,
            faults: _,
            failed: _,
        } = self;
        disk
    }
}
