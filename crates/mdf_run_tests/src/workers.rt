//! The sources of a recording at work at once.

use crate::runs::TWO_SOURCES;
use mdf_disk::MemoryDisk;
use mdf_num::Bytes;
use mdf_run::Gate;
use mdf_run_rig::{
    Part, all_stand, finalized, is_told, left_under, record, record_told, sorted, sorted_from,
    stands,
};
use std::process::Abort;
use std::sync::Wait;
use std::sync::atomic::Ordering::SeqCst;
use std::sync::atomic::{AtomicBool, AtomicU64};
use std::test::Fail;
use std::thread::{Threads, yield_now};

/// How often a source looks whether the other has begun before it goes on all the same.
const LOOKS: u64 = 2_000_000;

/// A gate at which two sources meet: the first pass of each waits until that of the other has begun.
#[derive(Drop)]
struct Meeting {
    first: AtomicBool,
    second: AtomicBool,
    in_vain: AtomicBool,
}

impl Gate for Meeting {
    fn pass(&self, source: u8) {
        let (mine, other) = if source == 0 {
            (&self.first, &self.second)
        } else {
            (&self.second, &self.first)
        };
        mine.store(true, SeqCst);
        for _ in 0..LOOKS {
            if other.load(SeqCst) {
                return;
            }
            yield_now();
        }
        self.in_vain.store(true, SeqCst);
    }
}

/// What is printed of a recording of two sources under this gate.
fn told_under<R>(rt: &R, meeting: &Meeting) -> Result<String, Fail>
where
    R: AllocGlobal + Threads + Wait + Sync,
{
    let alloc = rt.alloc();
    let left = left_under(
        rt,
        record(TWO_SOURCES, &[], &[]),
        MemoryDisk::new(alloc),
        MemoryDisk::new(alloc),
        meeting,
    )?;
    Ok(left.line)
}

#[test]
fn two_sources_record_at_once(rt: HostRuntime) -> Result<(), Fail> {
    let meeting = Meeting {
        first: AtomicBool::new(false),
        second: AtomicBool::new(false),
        in_vain: AtomicBool::new(false),
    };
    is_told(
        told_under(&rt, &meeting),
        "0 source 0 accepted 2\nsource 1 accepted 2\nsamples 4 durable 4\n",
    )?;
    assert!(rt; !meeting.in_vain.load(SeqCst));
    Ok(())
}

// Two samples of each of two sources, with a flush behind those of each.
const FLUSHED: &str =
    "group 0 a\nchannel x u8\ngroup 1 b\nchannel y u8\nbegin\n0 1\n0 2\n! 0\n1 7\n1 8\n! 1\nend\n";

/// The places of a source's two samples in the order of all, and how often it has passed.
#[derive(Drop)]
struct Turns {
    places: [u64; 2],
    passes: AtomicU64,
}

/// A gate that lets the samples of two sources pass in an order, each when those before it were accepted. That a sample was
/// accepted is known by the next pass of its source.
#[derive(Drop)]
struct Order {
    first: Turns,
    second: Turns,
    accepted: AtomicU64,
    in_vain: AtomicBool,
}

impl Order {
    /// Waits until so many samples were accepted.
    fn wait_for(&self, samples: u64) {
        for _ in 0..LOOKS {
            if self.accepted.load(SeqCst) >= samples {
                return;
            }
            yield_now();
        }
        self.in_vain.store(true, SeqCst);
    }
}

impl Gate for Order {
    fn pass(&self, source: u8) {
        let turns = if source == 0 {
            &self.first
        } else {
            &self.second
        };
        let pass = turns.passes.fetch_add(1, SeqCst);
        if pass > 0 {
            self.accepted.fetch_add(1, SeqCst);
        }
        if let Some(place) = turns.places.get(pass as usize) {
            self.wait_for(*place);
        }
    }
}

/// The places of the samples of the first source and of the second, and the records in that order, with the ids 1 and 2.
type Ordered = ([u64; 2], [u64; 2], &'static [u8]);

// The six orders. The records stand at 1328 in the finished file.
const ORDERS: &[Ordered] = &[
    ([0, 1], [2, 3], b"\x01\x01\x01\x02\x02\x07\x02\x08"),
    ([0, 2], [1, 3], b"\x01\x01\x02\x07\x01\x02\x02\x08"),
    ([0, 3], [1, 2], b"\x01\x01\x02\x07\x02\x08\x01\x02"),
    ([1, 2], [0, 3], b"\x02\x07\x01\x01\x01\x02\x02\x08"),
    ([1, 3], [0, 2], b"\x02\x07\x01\x01\x02\x08\x01\x02"),
    ([2, 3], [0, 1], b"\x02\x07\x02\x08\x01\x01\x01\x02"),
];

// The sorted file of each: the records of the one group in the DT at 1184, and those of the other in the DT at 1608.
const ORDERED: [Part; 4] = [
    (1184, b"##DT\0\0\0\0\x1A\0\0\0\0\0\0\0\0\0\0\0\0\0\0\0"),
    (1208, b"\x01\x02\0\0\0\0\0\0##DG"),
    (1608, b"##DT\0\0\0\0\x1A\0\0\0\0\0\0\0\0\0\0\0\0\0\0\0"),
    (1632, b"\x07\x08\0\0\0\0\0\0"),
];

/// The finished file of a recording under this gate.
fn finished_under<R>(rt: &R, order: &Order) -> Result<Bytes, Fail>
where
    R: AllocGlobal + Threads + Wait + Sync,
{
    let first = MemoryDisk::new(rt.alloc());
    let out = MemoryDisk::new(rt.alloc());
    let left = left_under(rt, record(FLUSHED, &[], &[]), first, out, order)?;
    finalized(rt, left.file)
}

/// A gate that has let nobody pass.
fn order_of(row: &Ordered) -> Order {
    Order {
        first: Turns {
            places: row.0,
            passes: AtomicU64::new(0),
        },
        second: Turns {
            places: row.1,
            passes: AtomicU64::new(0),
        },
        accepted: AtomicU64::new(0),
        in_vain: AtomicBool::new(false),
    }
}

/// The sorted file of a recording whose samples were accepted in this order.
fn sorted_in<R>(rt: &R, row: &Ordered) -> Result<Bytes, Fail>
where
    R: AllocGlobal + Threads + Wait + Sync + Abort,
{
    let order = order_of(row);
    let file = finished_under(rt, &order)?;
    assert!(rt; stands(file.as_slice(), (1328, row.2)) && !order.in_vain.load(SeqCst));
    sorted_from(rt, file)
}

/// Asserts that this is the sorted file of each order.
fn is_sorted<R>(rt: &R, want: &[u8]) -> Result<(), Fail>
where
    R: AllocGlobal + Threads + Wait + Sync + Abort,
{
    assert!(rt; want.len() == 1640);
    all_stand(want, &ORDERED)?;
    for row in ORDERS {
        assert!(rt; sorted_in(rt, row)?.as_slice() == want);
    }
    Ok(())
}

#[test]
fn six_orders_of_two_sources_have_one_sorted_file(rt: HostRuntime) -> Result<(), Fail> {
    is_sorted(&rt, sorted(&rt, TWO_SOURCES)?.as_slice())
}

// The first source has no room for its third sample, since each costs 145, but the second has room for its one, which costs
// 138 and has a record of 2 bytes among two of 9.
const FIRST_FULL: &str =
    "session 430\ngroup 0 a\nchannel x u64\ngroup 1 b\nchannel y u8\nbegin\n0 1\n0 2\n0 3\n1 7\nend\n";

// What is printed and left where the second source's sample comes behind the refusal, and where it comes before it.
const ENDS: [&str; 2] = [
    "5 source 0 accepted 2\nsource 1 accepted 1\nsamples 3 durable 3\nsession full 290 145 430\nfile 1145 history 3 marks [0, 3]",
    "5 source 0 accepted 2\nsource 1 accepted 1\nsamples 3 durable 3\nsession full 428 145 430\nfile 1145 history 3 marks [0, 3]",
];

/// Asserts that this is one of the two.
fn is_an_end<R: Abort>(rt: &R, text: &str) {
    assert!(rt; ENDS.contains(&text), "{text}");
}

#[test]
fn a_source_without_room_does_not_end_the_others(rt: HostRuntime) -> Result<(), Fail> {
    let out = MemoryDisk::new(rt.alloc());
    let text = record_told(&rt, record(FIRST_FULL, &[], &[]), out)?;
    is_an_end(&rt, text.as_str());
    Ok(())
}
