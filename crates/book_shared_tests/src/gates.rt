//! A gate, and a disk and a view that wait at it.

use book_owned::Shown;
use mdf_disk::{Disk, Role};
use mdf_layout::Chunk;
use mdf_num::{Bytes, Failed, Memory};
use std::alloc::Global;
use std::sync::atomic::AtomicBool;
use std::sync::atomic::Ordering::SeqCst;
use std::sync::{Arc, Wait};
use std::test::Fail;
use std::thread::{Threads, yield_now};

/// What waits at a gate.
#[derive(Clone, Copy)]
pub enum Step {
    /// A sync of the disk.
    Sync,
    /// A publishing of the view.
    Publish,
}

/// What two threads tell each other: that a step is to wait, that one does, and that it may go on.
#[derive(Drop)]
pub struct Gate {
    step: Step,
    /// How often it looks whether it may go on before it does all the same.
    looks: u64,
    shut: AtomicBool,
    entered: AtomicBool,
    answered: AtomicBool,
    in_vain: AtomicBool,
}

/// How often a thread looks for what another is to do before it goes on all the same.
pub const LOOKS: u64 = 2_000_000;

/// Waits until it is set, and says so; or until so many looks have passed.
pub fn wait_for(told: &AtomicBool, looks: u64) -> bool {
    for _ in 0..looks {
        if told.load(SeqCst) {
            return true;
        }
        yield_now();
    }
    false
}

impl Gate {
    /// A gate for this step, at which none waits yet.
    pub fn new(alloc: Global, step: Step, looks: u64) -> Result<Arc<Gate>, Fail> {
        let gate = Gate {
            step,
            looks,
            shut: AtomicBool::new(false),
            entered: AtomicBool::new(false),
            answered: AtomicBool::new(false),
            in_vain: AtomicBool::new(false),
        };
        Ok(Arc::new(alloc, gate)?)
    }

    /// Lets each later step wait.
    pub fn shut(&self) {
        self.shut.store(true, SeqCst);
    }

    /// Waits until one waits.
    pub fn wait_for_step(&self) {
        let _entered = wait_for(&self.entered, LOOKS);
    }

    /// Lets them go on.
    pub fn answer(&self) {
        self.answered.store(true, SeqCst);
    }

    /// Whether one went on that nobody let go on.
    pub fn waited_in_vain(&self) -> bool {
        self.in_vain.load(SeqCst)
    }

    /// A step that is to wait while the gate is shut.
    fn wait(&self) {
        if self.shut.load(SeqCst) {
            self.entered.store(true, SeqCst);
            if !wait_for(&self.answered, self.looks) {
                self.in_vain.store(true, SeqCst);
            }
        }
    }

    /// A sync passes.
    fn pass_sync(&self) {
        if let Step::Sync = self.step {
            self.wait();
        }
    }

    /// A publishing passes.
    fn pass_publish(&self) {
        if let Step::Publish = self.step {
            self.wait();
        }
    }
}

/// The disk under it, but a sync waits at the gate.
#[derive(Drop)]
pub struct Slow<D> {
    pub disk: D,
    pub gate: Arc<Gate>,
}

impl<D: Disk> Disk for Slow<D> {
    ghost asked = { λ slow. D.asked slow.disk };

    ghost attached = { λ slow. D.attached slow.disk };

    ghost content = { λ slow. D.content slow.disk };

    ghost story = { λ slow. D.story slow.disk };

    ghost moment = { λ slow. D.moment slow.disk };

    ghost faults = { λ slow. D.faults slow.disk };

    ghost agrees = { λ slow. D.agrees slow.disk };

    ghost unasked = { λ slow. D.unasked slow.disk };

    ghost unattached = { λ slow. D.unattached slow.disk };

    fn attach(&mut self, name: Bytes, role: Role) -> Result<(), Failed> {
        self.disk.attach(name, role)
    }

    fn size(&mut self) -> Result<u64, Failed> {
        self.disk.size()
    }

    fn read_at(&mut self, at: u64, buf: &mut [u8]) -> Result<(), Failed> {
        self.disk.read_at(at, buf)
    }

    fn write_at(&mut self, at: u64, bytes: &[u8]) -> Result<(), Failed> {
        self.disk.write_at(at, bytes)
    }

    fn sync(&mut self) -> Result<(), Failed> {
        self.gate.pass_sync();
        self.disk.sync()
    }

    fn moment(&self) -> u64 {
        self.disk.moment()
    }

    fn faults(&self) -> u64 {
        self.disk.faults()
    }
}

/// The view under it, but a publishing waits at the gate.
#[derive(Drop)]
pub struct SlowView<V> {
    pub view: V,
    pub gate: Arc<Gate>,
}

impl<V: Shown> Shown for SlowView<V> {
    type Note = V::Note;

    ghost may_want = { V.may_want };

    ghost shows = { λ slow. V.shows slow.view };

    ghost hands = { λ slow. V.hands slow.view };

    ghost count = { λ slow. V.count slow.view };

    ghost which = { λ slow. V.which slow.view };

    ghost tells = { V.tells };

    fn publish<R: Threads + Wait + Sync>(
        &mut self,
        rt: &R,
        chunk: &Arc<Chunk>,
    ) -> Result<(), Memory> {
        self.gate.pass_publish();
        self.view.publish(rt, chunk)
    }

    fn shown(&self) -> u64 {
        self.view.shown()
    }

    fn told(&mut self) -> V::Note {
        self.view.told()
    }
}
