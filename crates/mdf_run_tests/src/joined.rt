//! The parts of a rotation, finalized and joined two at a time.

use crate::rotated::{ONE_A_PART, TWO_SOURCES, VALUES};
use crate::rotations::{Left, rotated, rotating};
use mdf_num::Bytes;
use mdf_run_rig::{FINALIZE, Given, asking, file_made, is_told, said};
use std::sync::Wait;
use std::test::Fail;
use std::thread::Threads;

/// The finalized file of a part.
fn finalized<R>(rt: &R, left: &Left, number: usize) -> Result<Bytes, Fail>
where
    R: AllocGlobal + Threads + Wait + Sync,
{
    let parts = left.rotated.parts.as_slice();
    if number >= parts.len() {
        return Err(Fail::new(number));
    }
    let file = Bytes::from_slice(rt.alloc(), parts[number].out.bytes())?;
    file_made(rt, FINALIZE, file)
}

/// The file of two that are joined.
fn joined<R>(rt: &R, first: Bytes, second: &Bytes) -> Result<Bytes, Fail>
where
    R: AllocGlobal + Threads + Wait + Sync,
{
    let given = Given {
        second: second.as_slice(),
        ..asking(&["concat", "in.mf4", "in.mf4", "out.mf4"], &[])
    };
    file_made(rt, given, first)
}

#[test]
fn three_parts_are_joined(rt: HostRuntime) -> Result<(), Fail> {
    let left = rotated(&rt, &rotating(ONE_A_PART, 3))?;
    let two = joined(&rt, finalized(&rt, &left, 0)?, &finalized(&rt, &left, 1)?)?;
    let all = joined(&rt, two, &finalized(&rt, &left, 2)?)?;
    is_told(
        said(&rt, &["export", "in.mf4", "0"], all),
        "0 index,t\n0,1\n1,2\n2,3\n",
    )
}

#[test]
fn parts_of_two_sources_are_joined(rt: HostRuntime) -> Result<(), Fail> {
    let left = rotated(&rt, &rotating(TWO_SOURCES, 2))?;
    let all = joined(&rt, finalized(&rt, &left, 0)?, &finalized(&rt, &left, 1)?)?;
    is_told(
        said(&rt, &["export", "in.mf4", "1"], all),
        "0 index,t\n0,1\n1,2\n2,3\n",
    )
}

#[test]
fn values_of_two_parts_are_joined(rt: HostRuntime) -> Result<(), Fail> {
    let left = rotated(&rt, &rotating(VALUES, 2))?;
    let all = joined(&rt, finalized(&rt, &left, 0)?, &finalized(&rt, &left, 1)?)?;
    let size = all.as_slice().len();
    if size != 1280 {
        return Err(Fail::new(size));
    }
    is_told(
        said(&rt, &["export", "in.mf4", "0"], all),
        "0 index,v\n0,x61\n1,x6263\n2,x646566\n",
    )
}
