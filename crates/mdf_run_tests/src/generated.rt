//! Recordings of the generated script.

use mdf_num::Bytes;
use mdf_run_rig::{Given, asking, file_made, finalized, is_told, record, said, sorted_from};
use std::sync::Wait;
use std::test::Fail;
use std::thread::Threads;

// The generated script of ten samples, as a source has it: the number of sample i is (1664525 i + 1013904223) mod 2^32.
const TEN: &str = "group 0 g0
channel t u64 master
channel v u32
group 1 g1
channel t u64 master
channel v u32
group 2 g2
channel t u64 master
channel v u32
group 3 g3
channel t u64 master
channel v u32
channel n var
begin
0 0 1013904223
1 1 1015568748
2 2 1017233273
3 3 1018897798 x030303
0 4 1020562323
1 5 1022226848
2 6 1023891373
3 7 1025555898 x0707
0 8 1027220423
1 9 1028884948
end
";

const TEN_TOLD: &str =
    "0 source 0 accepted 3\nsource 1 accepted 3\nsource 2 accepted 2\nsource 3 accepted 2\nsamples 10 durable 10\n";

const GEN_TEN: &[&str] = &["gen", "10", "out.mf4"];

// Behind each thousandth sample of a source stands a flush: of 4,004 samples each source has 1,001.
const FLUSHED: &str =
    "0 source 0 accepted 1001\nsource 1 accepted 1001\nsource 2 accepted 1001\nsource 3 accepted 1001\nsamples 4004 durable 4004\n";

// The words, and what is printed.
const GENERATED: &[(&[&str], &str)] = &[
    (GEN_TEN, TEN_TOLD),
    (&["gen", "4004", "out.mf4"], FLUSHED),
];

/// The sorted file of a recording. That is one whatever the order in which the sources ran.
fn sorted_of<R>(rt: &R, given: Given<'_>) -> Result<Bytes, Fail>
where
    R: AllocGlobal + Threads + Wait + Sync,
{
    let recording = file_made(rt, given, Bytes::empty(rt.alloc()))?;
    sorted_from(rt, finalized(rt, recording)?)
}

/// Whether the sorted file of the generated recording is this one.
fn is_generated<R>(rt: &R, file: &Bytes) -> Result<bool, Fail>
where
    R: AllocGlobal + Threads + Wait + Sync,
{
    Ok(sorted_of(rt, asking(GEN_TEN, &[]))?.as_slice() == file.as_slice())
}

/// Whether it is that of the script.
fn is_same<R>(rt: &R) -> Result<bool, Fail>
where
    R: AllocGlobal + Threads + Wait + Sync,
{
    is_generated(rt, &sorted_of(rt, record(TEN, &[], &[]))?)
}

#[test]
fn ten_samples_are_generated(rt: HostRuntime) -> Result<(), Fail> {
    assert!(rt; is_same(&rt)?);
    Ok(())
}

#[test]
fn generated_samples_are_recorded(rt: HostRuntime) -> Result<(), Fail> {
    for (words, want) in GENERATED {
        is_told(said(&rt, *words, Bytes::empty(rt.alloc())), *want)?;
    }
    Ok(())
}

const MILLION: &str =
    "0 source 0 accepted 250000\nsource 1 accepted 250000\nsource 2 accepted 250000\nsource 3 accepted 250000\nsamples 1000000 durable 1000000\n";

#[test]
fn a_million_samples_are_recorded(rt: HostRuntime) -> Result<(), Fail> {
    let words = ["gen", "1000000", "out.mf4"];
    is_told(said(&rt, &words, Bytes::empty(rt.alloc())), MILLION)
}
