ghost use Rattle.std.specs.Prelude.{◌≡◌, ◌≤◌, ◌+◌, []};
ghost use Rattle.book_core.specs.Machine.{IsOrdered, begun, after, after_all, accepts, accepted_in};

use crate::Event;
use mdf_layout::Samples;
use mdf_num::Rows;
use std::marker::Model;

/// How far a book has come: the samples that it accepted, how many of them are durable and how many are shown, and
/// whether it is stopped. Contracts see also for how many samples more there is room.
#[derive(Drop)]
pub struct State {
    history: Samples,
    durable: u64,
    shown: u64,
    stopped: bool,
}

impl Model for State {
    ghost use Rattle.book_core.specs.Machine.{Held, IsOrdered};

    ghost Value = { Held };

    ghost view = { λ state. record {
      book = record { history = state.history.items; durable = state.durable; shown = state.shown; stopped = state.stopped };
      spare = state.history.spare;
    } };

    ghost invariant = { λ state. IsOrdered (record { history = state.history.items; durable = state.durable; shown = state.shown; stopped = state.stopped }) };
}

impl State {
    /// The beginning, with room for as many samples as the empty list has.
    pub fn begin(room: Samples) -> State
        requires { room.items ≡ [] }
        ensures book { result.book ≡ begun }
        ensures spare { result.spare ≡ room.spare }
    {
        State {
            history: room,
            durable: 0,
            shown: 0,
            stopped: false,
        }
    }

    /// The accepted samples, in order.
    pub fn history(&self) -> &Samples
        ensures history { result.now.items ≡ self.now.book.history }
        ensures spare { result.now.spare ≡ self.now.spare }
    {
        &self.history
    }

    /// How many of the first samples are durable.
    pub fn durable(&self) -> u64
        ensures durable { result ≡ self.now.book.durable }
        ensures ordered { IsOrdered self.now.book }
    {
        self.durable
    }

    /// How many of the first samples are shown.
    pub fn shown(&self) -> u64
        ensures shown { result ≡ self.now.book.shown }
        ensures ordered { IsOrdered self.now.book }
    {
        self.shown
    }

    /// Whether the disk has failed.
    pub fn stopped(&self) -> bool
        ensures { result ≡ self.now.book.stopped }
    {
        self.stopped
    }
}

/// Does one event. An event whose condition does not hold changes nothing, and its sample is dropped.
pub fn step(state: &mut State, event: Event)
    requires room { accepts event ≤ state.old.spare }
    ensures book { state.new.book ≡ after state.old.book event }
    ensures spare { state.old.spare ≤ state.new.spare + accepts event }
{
    match event {
        Event::Accept(sample) if !state.stopped => state.history.put(sample),
        Event::FlushTo(count)
            if !state.stopped && state.durable <= count && count <= state.history.len() => {
            state.durable = count
        }
        Event::FlushDone if !state.stopped => state.durable = state.history.len(),
        Event::FlushFailed => state.stopped = true,
        Event::Publish(count) if state.shown <= count && count <= state.durable => {
            state.shown = count
        }
        _ => {}
    }
}

/// Does these events, in order.
pub fn run_events(state: &mut State, events: Rows<Event>)
    requires room { accepted_in events ≤ state.old.spare }
    ensures book { state.new.book ≡ after_all state.old.book events }
    ensures spare { state.old.spare ≤ state.new.spare + accepted_in events }
{
    for event in events.into_vec() {
        step(state, event);
    }
}
