ghost use Rattle.std.specs.Prelude.{◌≡◌, ◌↔◌, ◌<◌, ◌≤◌, ◌+◌, IsSome, Some, None, true, false, is_ok, length, IfSome, IfOk, IsOk, OnOk};
ghost use Rattle.std.specs.Option.{option_map};
ghost use Rattle.mdf_format.specs.Number.{bytes_at};
ghost use Rattle.mdf_format.specs.Cause.{HasCause};
ghost use Rattle.mdf_disk.specs.Stays.{Stays};
ghost use Rattle.mdf_disk.specs.Calls.{Attaches, Patches, Writes, Keeps, Syncs};
ghost use Rattle.mdf_hostfile.specs.Call.{Opens, answer};
ghost use Rattle.mdf_hostfile.specs.Call.FileCall.{Size, ReadAt, WriteAll, SyncData};

use crate::{FileCalls, SystemFile};
use mdf_disk::{Disk, Role};
use mdf_num::{Bytes, Failed, SystemFaults};
use std::fs::File;
use std::io;
use std::rt::Files;

/// A disk over a real file. It tells neither content nor story: what a real file holds is trusted, not proved. Each of its calls makes
/// just the call of the system that is asked, with its arguments, and answers what the system answered.
///
/// Its clock counts its calls, up to the last u64.
#[derive(Drop)]
pub struct FileDisk<S> {
    system: S,
    asked: Option<(Bytes, Role)>,
    attached: bool,
    calls: u64,
    faults: SystemFaults,
    ghost unasked: { asked ≡ None → attached ≡ false },
}

/// Opens a file that is there to read it, or makes one under a name that is not taken, and keeps that name.
fn open<S: FileCalls>(system: &mut S, name: &[u8], role: Role) -> io::Result<()>
    ensures { Opens S.makes role name.now system.old system.new (is_ok result) }
{
    match role {
        Role::Read => system.open(name),
        Role::Create => {
            system.create_new(name)?;
            system.sync_folder(name)
        }
    }
}

impl<S: FileCalls> FileDisk<S> {
    ghost use Rattle.mdf_hostfile.specs.Disk.{system_of, faults_of};

    /// A disk over this file, which is not open yet.
    pub fn over(system: S) -> FileDisk<S>
        ensures system { system_of result ≡ system }
        ensures asked { ⟦<FileDisk<S> as Disk>⟧.asked result ≡ None }
        ensures attached { ⟦<FileDisk<S> as Disk>⟧.attached result ≡ false }
        ensures content { ⟦<FileDisk<S> as Disk>⟧.content result ≡ None }
        ensures faults { ⟦<FileDisk<S> as Disk>⟧.faults result ≡ 0 }
    {
        FileDisk {
            system,
            asked: None,
            attached: false,
            calls: 0,
            faults: SystemFaults::zero(),
        }
    }

    /// The name that it was asked for, if it was.
    pub fn name(&self) -> Option<&[u8]>
        ensures { option_map (λ name. name.now) result ≡ option_map (λ asked. asked.0) (⟦<FileDisk<S> as Disk>⟧.asked self.now) }
    {
        match &self.asked {
            Some((name, _)) => Some(name.as_slice()),
            None => None,
        }
    }

    /// What the system said of the last call that failed. There is something exactly where one failed.
    pub fn last_error(&self) -> Option<io::Error>
        ensures last { result ≡ (faults_of self.now).last }
        ensures met { IsSome result ↔ (0 < ⟦<FileDisk<S> as Disk>⟧.faults self.now) }
    {
        self.faults.last()
    }
}

impl<'a, R: Files<File = File>> FileDisk<SystemFile<'a, R>> {
    /// A disk over a file of the machine, without one yet.
    pub fn new(rt: &'a R) -> FileDisk<SystemFile<'a, R>>
        ensures asked { ⟦<FileDisk<SystemFile<'a, R>> as Disk>⟧.asked result ≡ None }
        ensures attached { ⟦<FileDisk<SystemFile<'a, R>> as Disk>⟧.attached result ≡ false }
        ensures content { ⟦<FileDisk<SystemFile<'a, R>> as Disk>⟧.content result ≡ None }
        ensures faults { ⟦<FileDisk<SystemFile<'a, R>> as Disk>⟧.faults result ≡ 0 }
    {
        FileDisk::over(SystemFile::new(rt))
    }
}

impl<S: FileCalls> Disk for FileDisk<S> {
    ghost use Rattle.std.specs.Prelude.{None};
    ghost use Rattle.mdf_hostfile.specs.Disk.{system_of};

    ghost asked = { λ d. d.asked };

    ghost attached = { λ d. d.attached };

    ghost content = { λ _. None };

    ghost story = { λ _. None };

    ghost moment = { λ d. d.calls };

    ghost faults = { λ d. d.faults.count };

    ghost agrees = { λ _. tt };

    ghost unasked = { λ d. d.unasked };

    ghost unattached = { λ _ _. tt };

    fn attach(&mut self, name: Bytes, role: Role) -> Result<(), Failed>
        requires { ⟦<FileDisk<S> as Disk>⟧.asked self.old ≡ None }
        ensures asked { ⟦<FileDisk<S> as Disk>⟧.asked self.new ≡ Some (name, role) }
        ensures attached { IsOk result ↔ (⟦<FileDisk<S> as Disk>⟧.attached self.new ≡ true) }
        ensures content { Attaches role (⟦<FileDisk<S> as Disk>⟧.content self.old) (⟦<FileDisk<S> as Disk>⟧.content self.new) result }
        ensures story { ⟦<FileDisk<S> as Disk>⟧.story self.new ≡ ⟦<FileDisk<S> as Disk>⟧.story self.old }
        ensures moment { ⟦<FileDisk<S> as Disk>⟧.moment self.old ≤ ⟦<FileDisk<S> as Disk>⟧.moment self.new }
        ensures cause { HasCause (⟦<FileDisk<S> as Disk>⟧.faults self.old) (⟦<FileDisk<S> as Disk>⟧.faults self.new) result }
        ensures calm { OnOk result (⟦<FileDisk<S> as Disk>⟧.faults self.new ≡ ⟦<FileDisk<S> as Disk>⟧.faults self.old) }
        ensures made { Opens S.makes role name (system_of self.old) (system_of self.new) (is_ok result) }
    {
        self.calls = self.calls.saturating_add(1);
        let opened = open(&mut self.system, name.as_slice(), role);
        self.asked = Some((name, role));
        self.faults.checked(opened)?;
        self.attached = true;
        Ok(())
    }

    fn size(&mut self) -> Result<u64, Failed>
        requires { ⟦<FileDisk<S> as Disk>⟧.attached self.old ≡ true }
        ensures size { IfOk result (λ n. IfSome (⟦<FileDisk<S> as Disk>⟧.content self.old) (λ file. n ≡ length file)) }
        ensures stays { Stays ⟦<FileDisk<S> as Disk>⟧.asked ⟦<FileDisk<S> as Disk>⟧.attached ⟦<FileDisk<S> as Disk>⟧.moment self.old self.new }
        ensures content { ⟦<FileDisk<S> as Disk>⟧.content self.new ≡ ⟦<FileDisk<S> as Disk>⟧.content self.old }
        ensures story { ⟦<FileDisk<S> as Disk>⟧.story self.new ≡ ⟦<FileDisk<S> as Disk>⟧.story self.old }
        ensures cause { HasCause (⟦<FileDisk<S> as Disk>⟧.faults self.old) (⟦<FileDisk<S> as Disk>⟧.faults self.new) result }
        ensures calm { OnOk result (⟦<FileDisk<S> as Disk>⟧.faults self.new ≡ ⟦<FileDisk<S> as Disk>⟧.faults self.old) }
        ensures made { S.makes (system_of self.old) (Size (answer result)) (system_of self.new) }
    {
        self.calls = self.calls.saturating_add(1);
        let size = self.system.size();
        self.faults.checked(size)
    }

    fn read_at(&mut self, at: u64, buf: &mut [u8]) -> Result<(), Failed>
        requires attached { ⟦<FileDisk<S> as Disk>⟧.attached self.old ≡ true }
        requires within { IfSome (⟦<FileDisk<S> as Disk>⟧.content self.old) (λ file. at + length buf.old ≤ length file) }
        ensures bytes { OnOk result (IfSome (⟦<FileDisk<S> as Disk>⟧.content self.old) (λ file. buf.new ≡ bytes_at (length buf.old) file at)) }
        ensures stays { Stays ⟦<FileDisk<S> as Disk>⟧.asked ⟦<FileDisk<S> as Disk>⟧.attached ⟦<FileDisk<S> as Disk>⟧.moment self.old self.new }
        ensures content { ⟦<FileDisk<S> as Disk>⟧.content self.new ≡ ⟦<FileDisk<S> as Disk>⟧.content self.old }
        ensures story { ⟦<FileDisk<S> as Disk>⟧.story self.new ≡ ⟦<FileDisk<S> as Disk>⟧.story self.old }
        ensures cause { HasCause (⟦<FileDisk<S> as Disk>⟧.faults self.old) (⟦<FileDisk<S> as Disk>⟧.faults self.new) result }
        ensures calm { OnOk result (⟦<FileDisk<S> as Disk>⟧.faults self.new ≡ ⟦<FileDisk<S> as Disk>⟧.faults self.old) }
        ensures made { S.makes (system_of self.old) (ReadAt at buf.new (is_ok result)) (system_of self.new) }
    {
        self.calls = self.calls.saturating_add(1);
        let read = self.system.read_at(at, buf);
        self.faults.checked(read)
    }

    fn write_at(&mut self, at: u64, bytes: &[u8]) -> Result<(), Failed>
        requires attached { ⟦<FileDisk<S> as Disk>⟧.attached self.old ≡ true }
        requires within { IfSome (⟦<FileDisk<S> as Disk>⟧.content self.old) (λ file. at ≤ length file) }
        ensures stays { Stays ⟦<FileDisk<S> as Disk>⟧.asked ⟦<FileDisk<S> as Disk>⟧.attached ⟦<FileDisk<S> as Disk>⟧.moment self.old self.new }
        ensures content { Patches (⟦<FileDisk<S> as Disk>⟧.content self.old) (⟦<FileDisk<S> as Disk>⟧.content self.new) at bytes.now result }
        ensures story { Writes (⟦<FileDisk<S> as Disk>⟧.story self.old) (⟦<FileDisk<S> as Disk>⟧.story self.new) at bytes.now result }
        ensures cause { HasCause (⟦<FileDisk<S> as Disk>⟧.faults self.old) (⟦<FileDisk<S> as Disk>⟧.faults self.new) result }
        ensures calm { OnOk result (⟦<FileDisk<S> as Disk>⟧.faults self.new ≡ ⟦<FileDisk<S> as Disk>⟧.faults self.old) }
        ensures made { S.makes (system_of self.old) (WriteAll at bytes.now (is_ok result)) (system_of self.new) }
    {
        self.calls = self.calls.saturating_add(1);
        let written = self.system.write_all(at, bytes);
        self.faults.checked(written)
    }

    fn sync(&mut self) -> Result<(), Failed>
        requires { ⟦<FileDisk<S> as Disk>⟧.attached self.old ≡ true }
        ensures stays { Stays ⟦<FileDisk<S> as Disk>⟧.asked ⟦<FileDisk<S> as Disk>⟧.attached ⟦<FileDisk<S> as Disk>⟧.moment self.old self.new }
        ensures content { Keeps (⟦<FileDisk<S> as Disk>⟧.content self.old) (⟦<FileDisk<S> as Disk>⟧.content self.new) result }
        ensures story { Syncs (⟦<FileDisk<S> as Disk>⟧.story self.old) (⟦<FileDisk<S> as Disk>⟧.story self.new) result }
        ensures cause { HasCause (⟦<FileDisk<S> as Disk>⟧.faults self.old) (⟦<FileDisk<S> as Disk>⟧.faults self.new) result }
        ensures calm { OnOk result (⟦<FileDisk<S> as Disk>⟧.faults self.new ≡ ⟦<FileDisk<S> as Disk>⟧.faults self.old) }
        ensures made { S.makes (system_of self.old) (SyncData (is_ok result)) (system_of self.new) }
    {
        self.calls = self.calls.saturating_add(1);
        let synced = self.system.sync_data();
        self.faults.checked(synced)
    }

    fn moment(&self) -> u64 {
        self.calls
    }

    fn faults(&self) -> u64 {
        self.faults.get()
    }
}
