//! The calls of a shared book that make one step at its table each, and those that work on what is out with a seat.
ghost use Rattle.std.specs.Prelude.{ℕ, ◌≡◌, ◌+◌, ◌%◌, ◌<◌, ◌≤◌, [], ◌∷◌, true, false, length, take, None, Some, unwrap_or, IfOk, IfErr};
ghost use Rattle.std.specs.Option.{option_copied};
ghost use mathlib.Core.Option.{none, some};
ghost use Rattle.atomic_table.specs.Table.{step, rest};
ghost use Rattle.mdf_gate.specs.Gated.{Gated};
ghost use Rattle.mdf_layout.specs.Record.{SampleFits, encoded_size};
ghost use Rattle.mdf_layout.specs.declared.sample.Sample.{Sample};
ghost use Rattle.book_owned.specs.BackHalf.{back_terms};
ghost use Rattle.book_owned.specs.FrontHalf.{FrontAccount, AreThroughs, HandTells, IsAwaited, FinishTells};
ghost use Rattle.book_owned.specs.Split.{back_part};
ghost use Rattle.book_shared.specs.Basis.{free, resting, handed, written, last_word};
ghost use Rattle.book_shared.specs.Plays.{looked, at_device, given, settled_by, Holds, Takes, BringsOut};
ghost use Rattle.book_shared.specs.Rounds.{wanted, TakesFor};
ghost use Rattle.book_shared.specs.Rule.{KeepsAll, IsWrittenBy};
ghost use Rattle.book_shared.specs.Chairs.{HasTurn, MayTakeDevice, MayTakeTurn, TakesNoTurn, WorksOn, WritesOn};
ghost use Rattle.book_shared.specs.Turns.{Took, IsBusy, MayTake, WritesOut, said_of, told_by};
ghost use Rattle.book_shared.specs.Told.{Puts, FlushesNow};
ghost use Rattle.book_shared.specs.declared.half.Answer.{Answer};
ghost use Rattle.book_shared.specs.declared.half.Half.TheVariants.{TheFront, TheBack, Told};

use crate::Try;
use crate::half::{Answer, Half};
use crate::rule::{BringIn, BringOut, Give, GiveAsked, GiveDevice, Look, Take, TakeDevice};
use crate::seat::Chair;
use crate::shared::SharedBook;
use book_owned::{Flush, Front, Handed, Shown, Written};
use mdf_disk::Disk;
use mdf_gate::Block;
use mdf_layout::Sample;
use std::snapshot::Snapshot;
use std::sync::Wait;
use std::sync::atomic::AtomicU64;
use std::sync::atomic::Ordering::SeqCst;
use std::thread::Threads;
use std::time::Duration;

/// How long a seat sleeps, in microseconds, that met the turn of another, before it looks again. An append takes far less than it, and wakes
/// nobody: so of several sources at work one at a time has the turn again and again, and the others sleep, and no system call is
/// made for each sample.
const NAP: u64 = 100;

/// How long it sleeps at most before it asks for the device again, in microseconds. A write takes far longer than `NAP`, and who gives the
/// device back wakes all.
const LONGEST_NAP: u64 = 5000;

/// How often a seat whose samples are not durable sleeps before it takes a device that others wait for too.
const NAPS: u64 = 2;

/// The greatest even turn word. From it no turn is taken any more.
const LAST: u64 = u64::MAX - 1;

/// Sleeps for so many microseconds, or until another wakes who sleeps on this word; not at all where it is no longer what was seen.
fn park<R: Wait>(rt: &R, word: &AtomicU64, seen: u64, nap: u64) {
    word.park_timeout(rt, (seen % 4294967296) as u32, Duration::from_micros(nap));
}

/// Puts a sample into the front where that needs no call of the disk.
#[inline(always)]
fn put_in<V: Shown>(front: &mut Front<V>, sample: Sample) -> Try
    requires fits { SampleFits front.old.terms.layouts sample }
    requires size { encoded_size front.old.terms.layouts sample ≤ front.old.terms.block_limit }
    ensures puts { Puts front.old front.new sample result }
{
    let size = front.size_of(&sample);
    if !front.passes_with(size) {
        return Try::Answered(front.put_sized(sample, size));
    }
    if let Some(answer) = front.refusal(&sample, size) {
        return Try::Answered(answer);
    }
    Try::NeedsFlush {
        held: front.pending(),
        size,
        limit: front.block_limit(),
        sample,
    }
}

/// Answers a flush of the first samples, so many or all, where that needs no write: the front is stopped, or they are durable. At
/// `Err` it needs one, and this is how many were accepted.
fn flush_in<V: Shown, R: Threads + Wait + Sync>(
    front: &mut Front<V>,
    rt: &R,
    through: Option<u64>,
) -> Result<Flush<V::Note>, u64>
    ensures flushes { FlushesNow V.Shown front.old front.new (unwrap_or through (length front.old.history)) result }
{
    if front.stopped() {
        return Ok(Flush::Stopped {
            mark: front.last_mark(),
        });
    }
    let accepted = front.history_len();
    if front.spare() && front.last_mark().through >= through.unwrap_or(accepted) {
        return Ok(front.finish(rt, Written::Nothing));
    }
    Err(accepted)
}

impl<D: Disk, V: Shown> SharedBook<D, V> {
    /// A load of the turn word.
    pub(crate) fn look(&self, seat: &mut Chair<D, V>) -> u64
        requires table { seat.old.table_id ≡ self.now.table }
        ensures table { seat.new.table_id ≡ seat.old.table_id }
        ensures looked { seat.new.me ≡ (looked seat.old.me.0 result, seat.old.me.1) }
        ensures later { seat.old.me.0.met ≤ result }
        ensures low { result ≤ last_word }
    {
        self.table.shared.load::<Look>(seat, 0)
    }

    /// An exchange of an even turn word for the next odd one, by a seat that has no block out to be written. Where it wins, the
    /// front is out with the seat.
    fn take_calm(&self, seat: &mut Chair<D, V>, word: u64) -> u64
        requires may { MayTakeTurn self.now.table seat.old None }
        requires even { word % 2 ≡ 0 }
        requires low { word < last_word }
        ensures table { seat.new.table_id ≡ seat.old.table_id }
        ensures takes { Takes (step 2 0 word (word + 1) none) seat.old.me result seat.new.me }
    {
        self.table
            .shared
            .compare_exchange::<Take>(seat, 0, word, word + 1)
    }

    /// The same by a seat that has the back out, and tells what its write led to.
    fn take_told(&self, seat: &mut Chair<D, V>, word: u64, answer: Answer) -> u64
        requires may { MayTakeTurn self.now.table seat.old (Some answer) }
        requires even { word % 2 ≡ 0 }
        requires low { word < last_word }
        ensures table { seat.new.table_id ≡ seat.old.table_id }
        ensures takes { Takes (step 2 0 word (word + 1) (some (Told answer))) seat.old.me result seat.new.me }
    {
        let said = Half::Told(answer);
        let found = self
            .table
            .shared
            .compare_exchange_with::<Take>(seat, 0, word, word + 1, &said);
        match said {
            Half::Told(_) => found,
            _ => unreachable!(),
        }
    }

    /// Either of them.
    fn take(&self, seat: &mut Chair<D, V>, word: u64, told: Option<Answer>) -> u64
        requires may { MayTakeTurn self.now.table seat.old told }
        requires even { word % 2 ≡ 0 }
        requires low { word < last_word }
        ensures table { seat.new.table_id ≡ seat.old.table_id }
        ensures takes { Takes (step 2 0 word (word + 1) (said_of told)) seat.old.me result seat.new.me }
    {
        match told {
            None => self.take_calm(seat, word),
            Some(answer) => self.take_told(seat, word, answer),
        }
    }

    /// Takes the turn by one load and at most one exchange, and answers the word that it made. At `Err` the turn was not
    /// taken, and this is the word that was met.
    pub(crate) fn try_take(&self, seat: &mut Chair<D, V>, told: Option<Answer>) -> Result<u64, u64>
        requires may { MayTakeTurn self.now.table seat.old told }
        ensures table { seat.new.table_id ≡ seat.old.table_id }
        ensures took { IfOk result (λ word. (word ≡ seat.new.me.0.met)
            × ((front : FrontAccount V) × (seat.new.me.1 ≡ (0, TheFront front) ∷ seat.old.me.1)
            × Took seat.old.me.0 seat.new.me.0 (told_by seat.old.me.0.device told) front)) }
        ensures steps { IfOk result (λ _. seat.new.me.0.steps ≡ seat.old.me.0.steps + 2) }
        ensures busy { IfErr result (λ word. (seat.new.me.1 ≡ seat.old.me.1)
            × IsBusy seat.old.me.0 seat.new.me.0 word) }
    {
        let word = self.look(seat);
        if word % 2 == 1 || word == LAST {
            return Err(word);
        }
        let found = self.take(seat, word, told);
        if found != word {
            return Err(found);
        }
        Ok(word + 1)
    }

    /// Sleeps for `NAP`, or until a seat gives the device back.
    pub(crate) fn sleep<R: Wait>(&self, rt: &R) {
        park(rt, &self.flushes, self.flushes.load(SeqCst), NAP);
    }

    /// Sleeps for `NAP`, whoever gives the device back meanwhile.
    fn nap<R: Wait>(&self, rt: &R) {
        park(rt, &self.waiting, self.waiting.load(SeqCst), NAP);
    }

    /// Wakes all who wait for the turn or the device.
    pub(crate) fn wake(&self) {
        self.flushes.fetch_add(1, SeqCst);
        self.flushes.wake_all();
    }

    /// Takes the turn, and waits for it where another seat has it. Answers the word that it made.
    pub(crate) fn seize<R: Wait>(&self, rt: &R, seat: &mut Chair<D, V>, told: Option<Answer>) -> u64
        requires may { MayTakeTurn self.now.table seat.old told }
        ensures table { seat.new.table_id ≡ seat.old.table_id }
        ensures word { result ≡ seat.new.me.0.met }
        ensures took { (front : FrontAccount V) × (seat.new.me.1 ≡ (0, TheFront front) ∷ seat.old.me.1)
            × Took seat.old.me.0 seat.new.me.0 (told_by seat.old.me.0.device told) front }
    {
        for _ in rt.forever() {
            match self.try_take(seat, told) {
                Ok(word) => return word,
                Err(word) if word % 2 == 1 => self.sleep(rt),
                Err(_word) => {}
            }
        }
        unreachable!()
    }

    /// Gives the front that is out with the seat back. Where a mark was made in the turn, it was asked for or not.
    pub(crate) fn give(&self, seat: &mut Chair<D, V>, word: u64, asked: bool)
        requires turn { HasTurn self.now.table seat.old word }
        requires low { word < last_word }
        requires returns { (front : FrontAccount V) × (seat.old.me.1 ≡ (0, TheFront front) ∷ [])
            × Holds asked seat.old.me.0 front }
        ensures table { seat.new.table_id ≡ seat.old.table_id }
        ensures given { (front : FrontAccount V) → seat.old.me.1 ≡ (0, TheFront front) ∷ []
            → seat.new.me ≡ (given asked seat.old.me.0 (word + 1) front, []) }
    {
        if asked {
            self.table.shared.store::<GiveAsked>(seat, 0, word + 1);
        } else {
            self.table.shared.store::<Give>(seat, 0, word + 1);
        }
    }

    /// An exchange of the device's word, for a flush.
    fn take_free(&self, seat: &mut Chair<D, V>) -> u64
        requires may { MayTakeDevice self.now.table seat.old }
        ensures table { seat.new.table_id ≡ seat.old.table_id }
        ensures takes { TakesFor None seat.old.me result seat.new.me }
    {
        self.table
            .shared
            .compare_exchange::<TakeDevice>(seat, 1, 0, 1)
    }

    /// The same for a sample that the seat has to append, and announces.
    fn take_due(&self, seat: &mut Chair<D, V>, sample: &Sample) -> u64
        requires may { MayTakeDevice self.now.table seat.old }
        ensures table { seat.new.table_id ≡ seat.old.table_id }
        ensures takes { TakesFor (Some sample.now) seat.old.me result seat.new.me }
    {
        let said = Half::Due(Snapshot::of(sample));
        let found = self
            .table
            .shared
            .compare_exchange_with::<TakeDevice>(seat, 1, 0, 1, &said);
        match said {
            Half::Due(_) => found,
            _ => unreachable!(),
        }
    }

    /// Either of them. True where the seat has the device then.
    fn take_device(&self, seat: &mut Chair<D, V>, due: Option<&Sample>) -> bool
        requires may { MayTakeDevice self.now.table seat.old }
        ensures table { seat.new.table_id ≡ seat.old.table_id }
        ensures took { result ≡ true
            → seat.new.me ≡ (at_device (wanted seat.old.me.0 (option_copied due.entry)) resting, seat.old.me.1) }
        ensures kept { result ≡ false → seat.new.me ≡ seat.old.me }
    {
        match due {
            None => self.take_free(seat) == 0,
            Some(sample) => self.take_due(seat, sample) == 0,
        }
    }

    /// Lets those go first whose samples the last write made durable, who need the device for no write. Meanwhile they and others
    /// append their next samples, which are then written with those of this seat.
    fn let_pass<R: Wait>(&self, rt: &R, accepted: u64) {
        if self.durable.load(SeqCst) < accepted {
            for _ in 0..NAPS {
                self.nap(rt);
            }
        }
    }

    /// Tells those who wait for the device through how many samples are durable now.
    pub(crate) fn tell_durable(&self, written: &Written) {
        if let Written::Done { mark, block: _ } = written {
            self.durable.store(mark.through, SeqCst);
        }
    }

    /// Takes the device, and waits for it where another seat has it. So many samples are to be durable: 0 lets nobody go first.
    pub(crate) fn seize_device<R: Wait>(
        &self,
        rt: &R,
        seat: &mut Chair<D, V>,
        due: Option<&Sample>,
        accepted: u64,
    )
        requires may { MayTakeDevice self.now.table seat.old }
        ensures table { seat.new.table_id ≡ seat.old.table_id }
        ensures seized { seat.new.me ≡ (at_device (wanted seat.old.me.0 (option_copied due.entry)) resting, seat.old.me.1) }
    {
        let mut given = self.waiting.fetch_add(1, SeqCst) > 0;
        let mut nap = NAP;
        for _ in rt.forever() {
            if given {
                self.let_pass(rt, accepted);
            }
            let seen = self.flushes.load(SeqCst);
            if self.take_device(seat, due) {
                self.waiting.fetch_sub(1, SeqCst);
                return;
            }
            park(rt, &self.flushes, seen, nap);
            nap = nap.saturating_mul(2).min(LONGEST_NAP);
            given = self.flushes.load(SeqCst) != seen;
        }
        unreachable!()
    }

    /// Gives the device back.
    pub(crate) fn give_device(&self, seat: &mut Chair<D, V>)
        requires table { seat.old.table_id ≡ self.now.table }
        requires at_rest { seat.old.me.0.device ≡ resting }
        requires no_turn { seat.old.me.1 ≡ [] }
        ensures table { seat.new.table_id ≡ seat.old.table_id }
        ensures gives { seat.new.me ≡ (at_device seat.old.me.0 free, seat.old.me.1) }
    {
        self.table.shared.store::<GiveDevice>(seat, 1, 0);
    }

    /// Takes the back out to write, after a block was handed out and the turn given back.
    pub(crate) fn bring_out(&self, seat: &mut Chair<D, V>)
        requires table { seat.old.table_id ≡ self.now.table }
        requires handed { seat.old.me.0.device ≡ handed }
        ensures table { seat.new.table_id ≡ seat.old.table_id }
        ensures out { (word : ℕ) × BringsOut D.Disk (step 2 1 0 0 none) seat.old.me word seat.new.me }
    {
        self.table.shared.load::<BringOut>(seat, 1);
    }

    /// Puts the back into its slot again, after the turn was taken with the answer of the write told.
    pub(crate) fn bring_in(&self, seat: &mut Chair<D, V>)
        requires table { seat.old.table_id ≡ self.now.table }
        requires back { (back : Gated D) × (front : FrontAccount V) × (answer : Answer)
            × (seat.old.me.1 ≡ (0, TheFront front) ∷ (1, TheBack back) ∷ []) × (seat.old.me.0.device ≡ written answer)
            × KeepsAll D.Disk seat.old.me.0.basis back seat.old.me.0.seen seat.old.me.0.kept
            × IsWrittenBy D.Disk seat.old.me.0.basis back seat.old.me.0.seen seat.old.me.0.kept answer
            × (back_terms D.Disk back ≡ back_part seat.old.me.0.basis.terms) }
        ensures table { seat.new.table_id ≡ seat.old.table_id }
        ensures counts { TakesNoTurn seat.old.me.0 seat.new.me.0 }
        ensures back_in { (back : Gated D) (front : FrontAccount V)
            → seat.old.me.1 ≡ (0, TheFront front) ∷ (1, TheBack back) ∷ []
            → seat.new.me ≡ (at_device seat.old.me.0 (settled_by seat.old.me.0.device), (0, TheFront front) ∷ []) }
    {
        seat.turn();
        self.table.shared.load::<BringIn>(seat, 1);
    }

    /// Tries to put a sample into the front that is out with the seat, where it lies.
    #[inline(always)]
    pub(crate) fn try_out(&self, seat: &mut Chair<D, V>, sample: Sample) -> Try
        requires table { seat.old.table_id ≡ self.now.table }
        requires front { (front : FrontAccount V) × (seat.old.me.1 ≡ (0, TheFront front) ∷ rest seat.old.me.1)
            × MayTake front sample }
        ensures works { WorksOn seat.old seat.new (λ old new. Puts old new sample result) }
    {
        let Half::TheFront(front) = seat.slot_mut(&self.table.shared, 0) else {
            unreachable!()
        };
        put_in(front, sample)
    }

    /// Answers a flush by the front that is out with the seat, where that needs no write.
    pub(crate) fn flush_out<R: Threads + Wait + Sync>(
        &self,
        rt: &R,
        seat: &mut Chair<D, V>,
        through: Option<u64>,
    ) -> Result<Flush<V::Note>, u64>
        requires table { seat.old.table_id ≡ self.now.table }
        requires front { (front : FrontAccount V) × (seat.old.me.1 ≡ (0, TheFront front) ∷ rest seat.old.me.1) }
        ensures works { WorksOn seat.old seat.new (λ old new. FlushesNow V.Shown old new (unwrap_or through (length old.history)) result) }
    {
        let Half::TheFront(front) = seat.slot_mut(&self.table.shared, 0) else {
            unreachable!()
        };
        flush_in(front, rt, through)
    }

    /// Hands the pending records of the front out that is out with the seat.
    pub(crate) fn hand_out(&self, seat: &mut Chair<D, V>) -> Handed
        requires table { seat.old.table_id ≡ self.now.table }
        requires front { (front : FrontAccount V) × (seat.old.me.1 ≡ (0, TheFront front) ∷ rest seat.old.me.1)
            × (front.spare ≡ true) }
        ensures works { WorksOn seat.old seat.new (λ old new. HandTells old new result) }
    {
        let Half::TheFront(front) = seat.slot_mut(&self.table.shared, 0) else {
            unreachable!()
        };
        front.hand_over()
    }

    /// Tells the front that is out with the seat what became of the block that it handed out.
    pub(crate) fn finish_out<R: Threads + Wait + Sync>(
        &self,
        rt: &R,
        seat: &mut Chair<D, V>,
        written: Written,
    ) -> Flush<V::Note>
        requires table { seat.old.table_id ≡ self.now.table }
        requires front { (front : FrontAccount V) × (seat.old.me.1 ≡ (0, TheFront front) ∷ rest seat.old.me.1)
            × IsAwaited front written }
        ensures works { WorksOn seat.old seat.new (λ old new. FinishTells V.Shown old new written result
            × AreThroughs new.marks) }
    {
        let Half::TheFront(front) = seat.slot_mut(&self.table.shared, 0) else {
            unreachable!()
        };
        front.finish(rt, written)
    }

    /// Writes a block by the back that is out with the seat.
    pub(crate) fn write_out(&self, seat: &mut Chair<D, V>, through: u64, block: Block) -> Written
        requires table { seat.old.table_id ≡ self.now.table }
        requires back { (back : Gated D) × (seat.old.me.1 ≡ (1, TheBack back) ∷ rest seat.old.me.1)
            × (back.failed ≡ false)
            × (1 ≤ length block.bytes) × (back.place + length block.bytes + 88 < 4611686018427387904) }
        ensures writes { WritesOn seat.old seat.new (λ old new. WritesOut D.Disk old new through block result) }
    {
        let Half::TheBack(back) = seat.slot_mut(&self.table.shared, 1) else {
            unreachable!()
        };
        back.write(through, block)
    }
}
