ghost use Rattle.std.specs.Prelude.{◌≡◌, ◌≤◌, ◌<◌, ◌+◌, ◌^◌, Bool, true, Some};
ghost use Rattle.acq_lines.specs.Source.{unread};
ghost use Rattle.acq_lines.specs.Rules.{rules_of};
ghost use Rattle.acq_lines.specs.Wants.{wants_memory};

use crate::told::give_durable;
use crate::{LineFault, LineRules, LineSource, said_by};
use acq_run::{Fed, Feed};
use mdf_input::Input;
use mdf_num::Memory;
use mdf_port::{Sink, Source};
use std::alloc::Global;
use std::sync::Wait;
use std::sync::atomic::{AtomicBool, Ordering};

/// Why nothing more comes of a feed.
#[derive(Clone, Copy, Debug)]
pub enum Halt {
    /// The input is at its end.
    Input,
    /// A line said so.
    Line,
    /// The input failed.
    Failed,
    /// Want of memory, for a line.
    Memory,
    /// As much was handled and handed in as can be counted.
    Count,
    /// It was called off, since another source of the recording had to stop.
    Called,
}

/// The feed of a source over its input.
#[derive(Drop)]
pub struct LineFeed<'a, S: Source, K> {
    alloc: Global,
    lines: LineSource<S>,
    rules: LineRules<'a>,
    number: u8,
    called: &'a AtomicBool,
    first_faults: u64,
    pending: bool,
    pending_before: Option<bool>,
    over: bool,
    steps: u64,
    bad: u64,
    count: u64,
    flushed: Option<u64>,
    told: K,
    deaf: bool,
    /// Memory was wanted for the next line: no more is handled, and behind a flush that is due it ends.
    wanted: bool,
    halt: Option<Halt>,
    ghost since: { first_faults ≤ S.faults lines.source },
    ghost counted: { bad + count ≤ steps },
    ghost sampled: { (pending : Bool) → pending_before ≡ Some pending → 0 < count },
    ghost room: { pending ≡ true → steps + 1 < 2 ^ 64 },
    ghost wants: { wanted ≡ true → wants_memory (rules_of rules) (unread lines) ≡ true },
}

impl<'a, S: Input + Drop, K: Sink + Drop> LineFeed<'a, S, K> {
    ghost use Rattle.std.specs.Prelude.{◌≡◌, ◌<◌, ◌+◌, ◌^◌, [], ◌↔◌, Some, None, true, false, All, IfOk, IfErr, IsTrue, take};
    ghost use Rattle.mdf_port.specs.State.{sink_state, source_state};
    ghost use Rattle.acq_run.specs.declared.feed.Fed.TheVariants.{Flush as FlushFed};
    ghost use Rattle.acq_lines.specs.Lines.{FindsLf, IsCut, limited};
    ghost use Rattle.acq_lines.specs.Source.{unread};
    ghost use Rattle.acq_lines.specs.Rules.{MayCome, rules_of};
    ghost use Rattle.acq_lines.specs.Said.{LineFaultComes, feds_for, said_by};
    ghost use Rattle.acq_lines.specs.Spot.{fixed, spot, spot_before};
    ghost use Rattle.acq_lines.specs.declared.feed.Halt.TheVariants.{Memory as MemoryHalt};
    ghost use Rattle.acq_lines.specs.Handled.{Goes, HaltsAt, IsAsked, IsDue, IsFresh, Resumes};

    /// Of the source of this number. It finds the memory for its lines here, and takes nothing of its input yet. Feeds that are
    /// called off together share the flag.
    pub fn new(
        alloc: Global,
        input: S,
        told: K,
        rules: LineRules<'a>,
        number: u8,
        called: &'a AtomicBool,
    ) -> Result<LineFeed<'a, S, K>, Memory>
        ensures fresh { IfOk result (λ feed. IsFresh K.Sink rules.entry number input told feed) }
    {
        let first_faults = input.faults();
        Ok(LineFeed {
            alloc,
            lines: LineSource::new(alloc, input)?,
            rules,
            number,
            called,
            first_faults,
            pending: false,
            pending_before: None,
            over: false,
            steps: 0,
            bad: 0,
            count: 0,
            flushed: None,
            told,
            deaf: false,
            wanted: false,
            halt: None,
        })
    }

    /// Hands in a flush.
    fn flush(&mut self)
        requires asked { IsAsked self.old }
        requires pending { self.old.pending ≡ true }
        requires due { IsDue (fixed self.old) self.old.wanted (spot K.Sink self.old) }
        ensures { Goes K.Sink self.old (Some FlushFed) self.new }
    {
        self.pending = false;
        self.steps += 1;
        self.flushed = Some(self.count);
    }

    /// Hands in a flush, where a sample has none behind it, and else says that nothing more comes.
    fn halt(&mut self, halt: Halt) -> Fed
        requires asked { IsAsked self.old }
        requires cause { HaltsAt (fixed self.old) (spot K.Sink self.old) halt }
        requires wanted { halt ≡ MemoryHalt → self.old.wanted ≡ true }
        ensures { Goes K.Sink self.old (Some result) self.new }
    {
        if !self.pending {
            self.halt = Some(halt);
            return Fed::End;
        }
        self.flush();
        Fed::Flush
    }

    /// Goes on behind what was handed in last, which was done, since more is asked for: of a flush it tells. A sink that failed is told no more.
    fn tell(&mut self)
        requires running { self.old.halt ≡ None }
        ensures { Goes K.Sink self.old None self.new }
    {
        self.pending_before = None;
        let Some(count) = self.flushed.take() else {
            return;
        };
        if !self.deaf {
            self.deaf = give_durable(&mut self.told, self.number, count as u128).is_err();
        }
    }

    /// What the next line says, before whose LF so many bytes stand.
    fn said(&self, count: usize) -> Result<Option<Fed>, LineFault>
        requires { FindsLf (unread self.now.lines).bytes (Some count) }
        ensures said { IfOk result (λ fed. said_by (rules_of self.now.rules) self.now.number
            (limited (unread self.now.lines).long (take count (unread self.now.lines).bytes)) ≡ Some fed) }
        ensures may { IfOk result (λ fed. All (MayCome (rules_of self.now.rules) self.now.number) (feds_for (Some fed))) }
        ensures fault { IfErr result (LineFaultComes (rules_of self.now.rules) self.now.number
            (limited (unread self.now.lines).long (take count (unread self.now.lines).bytes))) }
    {
        said_by(self.alloc, &self.rules, self.number, self.lines.line(count))
    }

    /// Passes the next line, before whose LF so many bytes stand, and answers what is handed in for what it says, if something is.
    fn pass(&mut self, count: usize, said: Option<Fed>) -> Option<Fed>
        requires asked { IsAsked self.old }
        requires running { self.old.over ≡ false }
        requires calm { self.old.wanted ≡ false }
        requires room { self.old.steps + 2 < 2 ^ 64 }
        requires found { FindsLf (unread self.old.lines).bytes (Some count) }
        requires said { said_by (rules_of self.old.rules) self.old.number
            (limited (unread self.old.lines).long (take count (unread self.old.lines).bytes)) ≡ Some said }
        requires may { All (MayCome (rules_of self.old.rules) self.old.number) (feds_for (Some said)) }
        ensures { Goes K.Sink self.old result self.new }
    {
        self.lines.pass(count);
        self.steps += 1;
        match said {
            None => None,
            Some(Fed::Sample(sample)) => {
                self.pending_before = Some(self.pending);
                self.pending = true;
                self.count += 1;
                Some(Fed::Sample(sample))
            }
            Some(Fed::Flush) => {
                self.pending = false;
                self.flushed = Some(self.count);
                Some(Fed::Flush)
            }
            Some(Fed::End) => {
                self.over = true;
                None
            }
        }
    }

    /// Passes the next line, before whose LF so many bytes stand, as one that no rule admits.
    fn pass_bad(&mut self, count: usize)
        requires asked { IsAsked self.old }
        requires running { self.old.over ≡ false }
        requires calm { self.old.wanted ≡ false }
        requires room { self.old.steps + 2 < 2 ^ 64 }
        requires found { FindsLf (unread self.old.lines).bytes (Some count) }
        requires said { said_by (rules_of self.old.rules) self.old.number
            (limited (unread self.old.lines).long (take count (unread self.old.lines).bytes)) ≡ None }
        ensures { Goes K.Sink self.old None self.new }
    {
        self.lines.pass(count);
        self.steps += 1;
        self.bad += 1;
    }

    /// Handles the next line, before whose LF so many bytes stand.
    fn handle(&mut self, count: usize) -> Option<Fed>
        requires asked { IsAsked self.old }
        requires running { self.old.over ≡ false }
        requires calm { self.old.wanted ≡ false }
        requires room { self.old.steps + 2 < 2 ^ 64 }
        requires found { FindsLf (unread self.old.lines).bytes (Some count) }
        ensures { Goes K.Sink self.old result self.new }
    {
        match self.said(count) {
            Ok(said) => self.pass(count, said),
            Err(LineFault::Bad) => {
                self.pass_bad(count);
                None
            }
            Err(LineFault::Memory) => {
                self.wanted = true;
                Some(self.halt(Halt::Memory))
            }
        }
    }

    /// Reads more, where the input need not be waited for.
    fn fill(&mut self) -> Option<Fed>
        requires asked { IsAsked self.old }
        requires running { self.old.over ≡ false }
        requires calm { self.old.wanted ≡ false }
        requires committed { self.old.pending ≡ false }
        requires none { FindsLf (unread self.old.lines).bytes None }
        ensures { Goes K.Sink self.old result self.new }
    {
        match self.lines.fill() {
            Ok(0) => Some(self.halt(Halt::Input)),
            Ok(_) => None,
            Err(_) => {
                self.halt = Some(Halt::Failed);
                Some(Fed::End)
            }
        }
    }

    /// Waits for the input a while, and reads more where something came. What does not come holds up nobody who calls it off.
    fn read(&mut self) -> Option<Fed>
        requires asked { IsAsked self.old }
        requires running { self.old.over ≡ false }
        requires calm { self.old.wanted ≡ false }
        requires committed { self.old.pending ≡ false }
        requires none { FindsLf (unread self.old.lines).bytes None }
        ensures { Goes K.Sink self.old result self.new }
    {
        if self.called.load(Ordering::SeqCst) {
            return Some(self.halt(Halt::Called));
        }
        match self.lines.wait() {
            Ok(true) => self.fill(),
            Ok(false) => None,
            Err(_) => {
                self.halt = Some(Halt::Failed);
                Some(Fed::End)
            }
        }
    }

    /// Goes on by one line or one read, and answers what is handed in, if something is. Before a read it is a flush, where a sample has none
    /// behind it.
    fn step(&mut self) -> Option<Fed>
        requires { IsAsked self.old }
        ensures { Goes K.Sink self.old result self.new }
    {
        if self.over {
            return Some(self.halt(Halt::Line));
        }
        if self.wanted {
            return Some(self.halt(Halt::Memory));
        }
        if self.steps >= u64::MAX - 1 {
            return Some(self.halt(Halt::Count));
        }
        match self.lines.line_end() {
            Some(count) => self.handle(count),
            None if self.pending => {
                self.flush();
                Some(Fed::Flush)
            }
            None => self.read(),
        }
    }

    /// Puts back the sample that it handed in last, where that was the last.
    fn put_back(&mut self)
        ensures fixed { fixed self.new ≡ fixed self.old }
        ensures spot { spot K.Sink self.new ≡ spot_before K.Sink self.old }
        ensures halt { self.new.halt ≡ self.old.halt }
    {
        let Some(pending) = self.pending_before.take() else {
            return;
        };
        self.lines.put_back();
        self.wanted = false;
        self.pending = pending;
        self.steps -= 1;
        self.count -= 1;
    }

    /// Is to be asked again, in a next part: a sample that it handed in last, and that was not done, is put back; and one that was called off goes
    /// on. One that has ended by itself stays so.
    pub fn resume(&mut self)
        ensures { Resumes K.Sink self.old self.new }
    {
        match self.halt {
            None => self.put_back(),
            Some(Halt::Called) => self.halt = None,
            Some(_) => {}
        }
    }

    /// Its input, without what was read of it, and what it told of flushes.
    pub fn into_tap(self) -> (S, K)
        ensures input { source_state S.Source result.0 ≡ (spot K.Sink self.entry).input }
        ensures told { sink_state K.Sink result.1 ≡ (spot K.Sink self.entry).told }
    {
        let LineFeed { lines, told, .. } = self;
        (lines.into_source(), told)
    }

    /// Why nothing more comes, once that was answered.
    pub fn halted(&self) -> Option<Halt>
        ensures { result ≡ self.now.halt }
    {
        self.halt
    }

    /// How many lines no rule admitted.
    pub fn bad(&self) -> u64
        ensures { result ≡ (spot K.Sink self.now).bad }
    {
        self.bad
    }

    /// Whether its sink failed, and is told no more.
    pub fn is_deaf(&self) -> bool
        ensures { result ≡ (spot K.Sink self.now).deaf }
    {
        self.deaf
    }

    /// Whether what was read ends in the middle of a line, where no whole line is left of it.
    pub fn is_cut(&self) -> bool
        ensures { IsTrue result ↔ IsCut (spot K.Sink self.now).unread }
    {
        self.lines.is_cut()
    }
}

impl<'a, S: Input + Drop, K: Sink + Drop> Feed for LineFeed<'a, S, K> {
    ghost use Rattle.acq_lines.specs.Handled.{Halts, Hands, Waits};
    ghost use Rattle.acq_lines.specs.Steps.{hands_more, hands_none};

    ghost hands = { Hands K.Sink };

    ghost waits = { Waits };

    ghost ends = { Halts };

    ghost hands_none = { hands_none K.Sink };

    ghost hands_more = { hands_more K.Sink };

    fn next<R: Wait>(&mut self, rt: &R) -> Fed {
        if self.halt.is_some() {
            return Fed::End;
        }
        self.tell();
        for _ in rt.forever() {
            if let Some(task) = self.step() {
                return task;
            }
        }
        unreachable!()
    }

    /// Where its last was not done, it calls off all feeds that share its flag. It lets its input go where it has ended by itself; else it may
    /// be resumed.
    fn leave(&mut self) {
        match self.halt {
            None => self.called.store(true, Ordering::SeqCst),
            Some(Halt::Called) => {}
            Some(_) => self.lines.close(),
        }
    }
}
