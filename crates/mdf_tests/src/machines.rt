ghost use Rattle.std.specs.Prelude.{◌≡◌, ◌≤◌, IfOk};
ghost use Rattle.book_core.specs.Machine.{accepted_in};

use crate::layouts::sample;
use book_core::{Event, State, run_events, step};
use mdf_layout::Samples;
use mdf_num::{Memory, Rows};
use std::alloc::Global;
use std::test::Fail;
use test_rig::is_told;

/// A book at its beginning, with room for a sample.
fn begun(alloc: Global) -> Result<State, Memory>
    ensures { IfOk result (λ state. 1 ≤ state.spare) }
{
    let mut room = Samples::empty(alloc);
    room.reserve(1)?;
    Ok(State::begin(room))
}

/// One sample is published too early, made durable and published; the disk fails, and a flush comes behind it.
fn events(alloc: Global) -> Result<Rows<Event>, Memory>
    ensures { IfOk result (λ events. accepted_in events ≡ 0) }
{
    let mut events = Rows::empty(alloc);
    events.push(Event::Publish(1))?;
    events.push(Event::FlushDone)?;
    events.push(Event::Refuse)?;
    events.push(Event::Publish(1))?;
    events.push(Event::FlushFailed)?;
    events.push(Event::FlushDone)?;
    Ok(events)
}

/// How many samples are accepted, durable and shown, and whether the book is stopped.
fn told(alloc: Global, state: &State) -> Result<String, Fail> {
    let counts = (
        state.history().len(),
        state.durable(),
        state.shown(),
        state.stopped(),
    );
    Ok(format!(in alloc; "{counts:?}")?)
}

#[test]
fn a_failed_disk_stops_the_book(rt: HostRuntime) -> Result<(), Fail> {
    let sample = sample(rt.alloc(), &[7])?;
    let events = events(rt.alloc())?;
    let mut state = begun(rt.alloc())?;
    step(&mut state, Event::Accept(sample));
    run_events(&mut state, events);
    is_told(told(rt.alloc(), &state), "(1, 1, 1, true)")
}
