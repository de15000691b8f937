ghost use Rattle.std.specs.Prelude.{◌≡◌, ◌≤◌, ◌<◌, ◌++◌, ◌∷◌, [], Some, None, true, false, length, IfOk, OnOk, OnErr};
ghost use Rattle.std.specs.Option.{ForNone};
ghost use Rattle.mdf_format.specs.Cause.{HasCause};
ghost use Rattle.mdf_disk.specs.Story.{MayLeave, LeftSince, settled};
ghost use Rattle.mdf_disk.specs.Image.{image_inside, pick_of, moment_inside, moment_before};
ghost use Rattle.mdf_disk.specs.Tape.{story_of, first_story, told_story, told_content, told_agrees, told_unattached, IsRecordable};

use crate::call::Call;
use crate::image::Pick;
use crate::tape::Tape;
use crate::{Disk, Role};
use mdf_num::{Bytes, Failed, FaultPlan, Memory, Numbers};
use std::alloc::Global;

/// A disk in memory. It records each call; where it finds no memory for that, it counts a fault.
#[derive(Drop)]
pub struct MemoryDisk {
    alloc: Global,
    /// The file that was there at first, which can be read.
    file: Option<Bytes>,
    /// The file that is made.
    tape: Tape,
    asked: Option<(Bytes, Role)>,
    attached: bool,
    plan: FaultPlan,
    ghost unasked: { asked ≡ None → attached ≡ false },
    ghost unused: { attached ≡ false → (story_of tape).now ≡ settled [] },
    ghost possible: { MayLeave (story_of tape).now (story_of tape).now.content },
}

/// Records a call.
fn log(tape: &mut Tape, plan: &mut FaultPlan, call: Call) -> Result<(), Failed>
    requires { IsRecordable call (story_of tape.old).now.content }
    ensures ok { OnOk result (tape.new ≡ tape.old ++ call ∷ []) }
    ensures err { OnErr result (tape.new ≡ tape.old) }
    ensures possible { OnOk result (MayLeave (story_of tape.new).now (story_of tape.new).now.content) }
    ensures cause { HasCause plan.old.faults plan.new.faults result }
    ensures calm { OnOk result (plan.new.faults ≡ plan.old.faults) }
    ensures failing { plan.new.failing ≡ plan.old.failing }
    ensures begun { plan.new.calls ≡ plan.old.calls }
{
    if tape.record(call).is_err() {
        return Err(plan.fail());
    }
    Ok(())
}

/// The pick of a number below 4.
fn pick_of(pick: u8) -> Pick
    ensures { result ≡ pick_of pick }
{
    match pick {
        0 => Pick::Stable,
        1 => Pick::Content,
        2 => Pick::Filled(0xFF),
        _ => Pick::Filled(b'#'),
    }
}

impl MemoryDisk {
    ghost use Rattle.mdf_disk.specs.Memory.{calls_of, file_of, plan_of};

    /// A disk without a file. It tells its story.
    pub fn new(alloc: Global) -> MemoryDisk
        ensures asked { ⟦<MemoryDisk as Disk>⟧.asked result ≡ None }
        ensures attached { ⟦<MemoryDisk as Disk>⟧.attached result ≡ false }
        ensures content { ⟦<MemoryDisk as Disk>⟧.content result ≡ Some [] }
        ensures story { ⟦<MemoryDisk as Disk>⟧.story result ≡ Some first_story }
        ensures faults { ⟦<MemoryDisk as Disk>⟧.faults result ≡ 0 }
        ensures calls { calls_of result ≡ [] }
        ensures file { file_of result ≡ None }
        ensures failing { (plan_of result).failing ≡ [] }
        ensures begun { (plan_of result).calls ≡ 0 }
    {
        MemoryDisk {
            alloc,
            file: None,
            tape: Tape::new(alloc),
            asked: None,
            attached: false,
            plan: FaultPlan::new(Numbers::empty(alloc)),
        }
    }

    /// A disk with a file of these bytes, to be read. It tells no story.
    pub fn holding(alloc: Global, bytes: Bytes) -> MemoryDisk
        ensures asked { ⟦<MemoryDisk as Disk>⟧.asked result ≡ None }
        ensures attached { ⟦<MemoryDisk as Disk>⟧.attached result ≡ false }
        ensures content { ⟦<MemoryDisk as Disk>⟧.content result ≡ Some bytes }
        ensures story { ⟦<MemoryDisk as Disk>⟧.story result ≡ None }
        ensures faults { ⟦<MemoryDisk as Disk>⟧.faults result ≡ 0 }
        ensures calls { calls_of result ≡ [] }
        ensures file { file_of result ≡ Some bytes }
        ensures failing { (plan_of result).failing ≡ [] }
        ensures begun { (plan_of result).calls ≡ 0 }
    {
        MemoryDisk {
            alloc,
            file: Some(bytes),
            tape: Tape::new(alloc),
            asked: None,
            attached: false,
            plan: FaultPlan::new(Numbers::empty(alloc)),
        }
    }

    /// From now on the calls with these numbers fail, counted from 0 over all calls of this disk.
    pub fn fail_at(&mut self, calls: Numbers)
        ensures asked { ⟦<MemoryDisk as Disk>⟧.asked self.new ≡ ⟦<MemoryDisk as Disk>⟧.asked self.old }
        ensures attached { ⟦<MemoryDisk as Disk>⟧.attached self.new ≡ ⟦<MemoryDisk as Disk>⟧.attached self.old }
        ensures story { ⟦<MemoryDisk as Disk>⟧.story self.new ≡ ⟦<MemoryDisk as Disk>⟧.story self.old }
        ensures faults { ⟦<MemoryDisk as Disk>⟧.faults self.new ≡ ⟦<MemoryDisk as Disk>⟧.faults self.old }
        ensures calls { calls_of self.new ≡ calls_of self.old }
        ensures file { file_of self.new ≡ file_of self.old }
        ensures failing { (plan_of self.new).failing ≡ calls }
        ensures begun { (plan_of self.new).calls ≡ (plan_of self.old).calls }
    {
        self.plan.fail_at(calls);
    }

    /// The content.
    pub fn bytes(&self) -> &[u8]
        ensures content { ⟦<MemoryDisk as Disk>⟧.content self.now ≡ Some result.now }
        ensures told { result.now ≡ told_content (file_of self.now) (calls_of self.now) }
    {
        match &self.file {
            Some(file) => file.as_slice(),
            None => self.tape.content(),
        }
    }

    /// A file that a crash inside a recorded call may leave: with none of what was written since the last sync
    /// (pick 0), with all of it (1), with 0xFF (2) or `#` (3) in the place of each byte of it. Of a disk that held a
    /// file at first it is that file.
    pub fn image(&self, call: u64, pick: u8) -> Result<Bytes, Memory>
        requires call { call < length (calls_of self.now) }
        requires pick { pick < 4 }
        ensures is { IfOk result
            (λ file. file ≡ image_inside (file_of self.now) (calls_of self.now) call (pick_of pick)) }

        // Of a disk that began without a file it is one of those that a crash might have left since the call began.
        ensures possible { ForNone (file_of self.now)
            (IfOk result (MayLeave (moment_inside (calls_of self.now) call))) }
        ensures since { ForNone (file_of self.now)
            (IfOk result (LeftSince (⟦<MemoryDisk as Disk>⟧.story self.now) (moment_before (calls_of self.now) call))) }
    {
        if let Some(file) = &self.file {
            return file.copy();
        }
        let image = self.tape.image(call as usize, pick_of(pick))?;
        Ok(Bytes::from_vec(image))
    }

    /// How many calls are recorded.
    pub fn calls(&self) -> u64
        ensures { result ≡ length (calls_of self.now) }
    {
        self.tape.calls().len() as u64
    }
}

impl Disk for MemoryDisk {
    ghost use Rattle.std.specs.Prelude.{◌↔◌, ◌+◌, IsOk, IfSome};
    ghost use Rattle.mdf_format.specs.Number.{bytes_at};
    ghost use Rattle.mdf_disk.specs.Stays.{Stays};
    ghost use Rattle.mdf_disk.specs.Calls.{Attaches, Patches, Writes, Keeps, Syncs};
    ghost use Rattle.mdf_disk.specs.Memory.{file_of, calls_of, plan_of, failed_write, CountsCall, Records, IsThere};
    ghost use Rattle.mdf_disk.specs.declared.call.Call.TheVariants.{Attach, Size, Read, Write, Sync};

    ghost asked = { λ d. d.asked };

    ghost attached = { λ d. d.attached };

    ghost content = { λ d. Some (told_content d.file d.tape) };

    ghost story = { λ d. told_story d.file d.tape };

    ghost moment = { λ d. length (story_of d.tape).past };

    ghost faults = { λ d. d.plan.faults };

    ghost agrees = { λ d. told_agrees d.file d.tape d.possible };

    ghost unasked = { λ d. d.unasked };

    ghost unattached = { λ d. told_unattached d.attached d.file d.tape d.unused };

    /// Attaches the file that is there to read it, or makes one where none is.
    fn attach(&mut self, name: Bytes, role: Role) -> Result<(), Failed>
        requires { ⟦<MemoryDisk as Disk>⟧.asked self.old ≡ None }
        ensures asked { ⟦<MemoryDisk as Disk>⟧.asked self.new ≡ Some (name, role) }
        ensures attached { IsOk result ↔ (⟦<MemoryDisk as Disk>⟧.attached self.new ≡ true) }
        ensures content { Attaches role (⟦<MemoryDisk as Disk>⟧.content self.old) (⟦<MemoryDisk as Disk>⟧.content self.new) result }
        ensures story { ⟦<MemoryDisk as Disk>⟧.story self.new ≡ ⟦<MemoryDisk as Disk>⟧.story self.old }
        ensures moment { ⟦<MemoryDisk as Disk>⟧.moment self.old ≤ ⟦<MemoryDisk as Disk>⟧.moment self.new }
        ensures cause { HasCause (⟦<MemoryDisk as Disk>⟧.faults self.old) (⟦<MemoryDisk as Disk>⟧.faults self.new) result }
        ensures calm { OnOk result (⟦<MemoryDisk as Disk>⟧.faults self.new ≡ ⟦<MemoryDisk as Disk>⟧.faults self.old) }
        ensures there { OnOk result (IsThere role (file_of self.old)) }
        ensures recorded { OnOk result (calls_of self.new ≡ calls_of self.old ++ Attach ∷ []) }
        ensures file { file_of self.new ≡ file_of self.old }
        ensures counted { CountsCall (plan_of self.old) (plan_of self.new) result }
    {
        self.asked = Some((name, role));
        let may = self.plan.call();
        log(&mut self.tape, &mut self.plan, Call::Attach)?;
        let there = self.file.is_some();
        let fits = match role {
            Role::Read => there,
            Role::Create => !there,
        };
        if !may || !fits {
            return Err(self.plan.fail());
        }
        self.attached = true;
        Ok(())
    }

    fn size(&mut self) -> Result<u64, Failed>
        requires { ⟦<MemoryDisk as Disk>⟧.attached self.old ≡ true }
        ensures size { IfOk result (λ n. IfSome (⟦<MemoryDisk as Disk>⟧.content self.old) (λ file. n ≡ length file)) }
        ensures stays { Stays ⟦<MemoryDisk as Disk>⟧.asked ⟦<MemoryDisk as Disk>⟧.attached ⟦<MemoryDisk as Disk>⟧.moment self.old self.new }
        ensures content { ⟦<MemoryDisk as Disk>⟧.content self.new ≡ ⟦<MemoryDisk as Disk>⟧.content self.old }
        ensures story { ⟦<MemoryDisk as Disk>⟧.story self.new ≡ ⟦<MemoryDisk as Disk>⟧.story self.old }
        ensures cause { HasCause (⟦<MemoryDisk as Disk>⟧.faults self.old) (⟦<MemoryDisk as Disk>⟧.faults self.new) result }
        ensures calm { OnOk result (⟦<MemoryDisk as Disk>⟧.faults self.new ≡ ⟦<MemoryDisk as Disk>⟧.faults self.old) }
        ensures recorded { Records (calls_of self.old) (calls_of self.new) Size Size result }
        ensures file { file_of self.new ≡ file_of self.old }
        ensures counted { CountsCall (plan_of self.old) (plan_of self.new) result }
    {
        let may = self.plan.call();
        log(&mut self.tape, &mut self.plan, Call::Size)?;
        if !may {
            return Err(self.plan.fail());
        }
        Ok(self.bytes().len() as u64)
    }

    fn read_at(&mut self, at: u64, buf: &mut [u8]) -> Result<(), Failed>
        requires attached { ⟦<MemoryDisk as Disk>⟧.attached self.old ≡ true }
        requires within { IfSome (⟦<MemoryDisk as Disk>⟧.content self.old) (λ file. at + length buf.old ≤ length file) }
        ensures bytes { OnOk result (IfSome (⟦<MemoryDisk as Disk>⟧.content self.old) (λ file. buf.new ≡ bytes_at (length buf.old) file at)) }
        ensures stays { Stays ⟦<MemoryDisk as Disk>⟧.asked ⟦<MemoryDisk as Disk>⟧.attached ⟦<MemoryDisk as Disk>⟧.moment self.old self.new }
        ensures content { ⟦<MemoryDisk as Disk>⟧.content self.new ≡ ⟦<MemoryDisk as Disk>⟧.content self.old }
        ensures story { ⟦<MemoryDisk as Disk>⟧.story self.new ≡ ⟦<MemoryDisk as Disk>⟧.story self.old }
        ensures cause { HasCause (⟦<MemoryDisk as Disk>⟧.faults self.old) (⟦<MemoryDisk as Disk>⟧.faults self.new) result }
        ensures calm { OnOk result (⟦<MemoryDisk as Disk>⟧.faults self.new ≡ ⟦<MemoryDisk as Disk>⟧.faults self.old) }
        ensures recorded { Records (calls_of self.old) (calls_of self.new) Read Read result }
        ensures file { file_of self.new ≡ file_of self.old }
        ensures counted { CountsCall (plan_of self.old) (plan_of self.new) result }
    {
        let may = self.plan.call();
        log(&mut self.tape, &mut self.plan, Call::Read)?;
        if !may {
            return Err(self.plan.fail());
        }
        let start = at as usize;
        buf.copy_from_slice(&self.bytes()[start..start + buf.len()]);
        Ok(())
    }

    fn write_at(&mut self, at: u64, bytes: &[u8]) -> Result<(), Failed>
        requires attached { ⟦<MemoryDisk as Disk>⟧.attached self.old ≡ true }
        requires within { IfSome (⟦<MemoryDisk as Disk>⟧.content self.old) (λ file. at ≤ length file) }
        ensures stays { Stays ⟦<MemoryDisk as Disk>⟧.asked ⟦<MemoryDisk as Disk>⟧.attached ⟦<MemoryDisk as Disk>⟧.moment self.old self.new }
        ensures content { Patches (⟦<MemoryDisk as Disk>⟧.content self.old) (⟦<MemoryDisk as Disk>⟧.content self.new) at bytes.now result }
        ensures story { Writes (⟦<MemoryDisk as Disk>⟧.story self.old) (⟦<MemoryDisk as Disk>⟧.story self.new) at bytes.now result }
        ensures cause { HasCause (⟦<MemoryDisk as Disk>⟧.faults self.old) (⟦<MemoryDisk as Disk>⟧.faults self.new) result }
        ensures calm { OnOk result (⟦<MemoryDisk as Disk>⟧.faults self.new ≡ ⟦<MemoryDisk as Disk>⟧.faults self.old) }
        ensures recorded { Records (calls_of self.old) (calls_of self.new) (Write at bytes.now true)
            (failed_write (file_of self.old) at bytes.now) result }
        ensures file { file_of self.new ≡ file_of self.old }
        ensures counted { CountsCall (plan_of self.old) (plan_of self.new) result }
    {
        let may = self.plan.call();
        if self.file.is_some() {
            log(&mut self.tape, &mut self.plan, Call::Refused)?;
            return Err(self.plan.fail());
        }
        let Ok(bytes) = Bytes::from_slice(self.alloc, bytes) else {
            return Err(self.plan.fail());
        };
        let call = Call::Write {
            at,
            bytes,
            done: may,
        };
        log(&mut self.tape, &mut self.plan, call)?;
        if !may {
            return Err(self.plan.fail());
        }
        Ok(())
    }

    fn sync(&mut self) -> Result<(), Failed>
        requires { ⟦<MemoryDisk as Disk>⟧.attached self.old ≡ true }
        ensures stays { Stays ⟦<MemoryDisk as Disk>⟧.asked ⟦<MemoryDisk as Disk>⟧.attached ⟦<MemoryDisk as Disk>⟧.moment self.old self.new }
        ensures content { Keeps (⟦<MemoryDisk as Disk>⟧.content self.old) (⟦<MemoryDisk as Disk>⟧.content self.new) result }
        ensures story { Syncs (⟦<MemoryDisk as Disk>⟧.story self.old) (⟦<MemoryDisk as Disk>⟧.story self.new) result }
        ensures cause { HasCause (⟦<MemoryDisk as Disk>⟧.faults self.old) (⟦<MemoryDisk as Disk>⟧.faults self.new) result }
        ensures calm { OnOk result (⟦<MemoryDisk as Disk>⟧.faults self.new ≡ ⟦<MemoryDisk as Disk>⟧.faults self.old) }
        ensures recorded { Records (calls_of self.old) (calls_of self.new) (Sync true) (Sync false) result }
        ensures file { file_of self.new ≡ file_of self.old }
        ensures counted { CountsCall (plan_of self.old) (plan_of self.new) result }
    {
        let may = self.plan.call();
        log(&mut self.tape, &mut self.plan, Call::Sync { done: may })?;
        if !may {
            return Err(self.plan.fail());
        }
        Ok(())
    }

    fn moment(&self) -> u64 {
        self.tape.clock()
    }

    fn faults(&self) -> u64 {
        self.plan.faults()
    }
}
