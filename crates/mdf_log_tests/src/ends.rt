//! What a log prints at its end.
use crate::told::{numbers, printed};
use acq_lines::Halt;
use mdf_command::Fault;
use mdf_log::{LogEnd, SourceEnd, Stop, report};
use mdf_port::MemorySink;
use mdf_run_rig::is_told;
use std::alloc::Global;
use std::test::Fail;

// A source whose input came to its end.
const ENDED: SourceEnd = SourceEnd {
    accepted: 3,
    bad: 0,
    cut: false,
    deaf: false,
    stop: Stop::Halted(Halt::Input),
};

const SAID: SourceEnd = SourceEnd {
    stop: Stop::Halted(Halt::Line),
    ..ENDED
};

const LEFT: SourceEnd = SourceEnd { cut: true, ..SAID };

const BAD: SourceEnd = SourceEnd { bad: 2, ..SAID };

const CUT: SourceEnd = SourceEnd { cut: true, ..ENDED };

const DEAF: SourceEnd = SourceEnd {
    deaf: true,
    ..ENDED
};

const BROKEN: SourceEnd = SourceEnd {
    accepted: 0,
    cut: true,
    stop: Stop::Halted(Halt::Failed),
    ..ENDED
};

const SHORT: SourceEnd = SourceEnd {
    stop: Stop::Halted(Halt::Memory),
    ..ENDED
};

const COUNTED: SourceEnd = SourceEnd {
    accepted: 36_893_488_147_419_103_230,
    stop: Stop::Halted(Halt::Count),
    ..ENDED
};

const CALLED: SourceEnd = SourceEnd {
    stop: Stop::Halted(Halt::Called),
    ..ENDED
};

const REFUSED: SourceEnd = SourceEnd {
    stop: Stop::Refused,
    ..ENDED
};

const FULL: Fault = Fault::SessionFull {
    held: 0,
    size: 145,
    limit: 144,
};

// How the sources ended, how many samples are durable of so many, how many are shown, and what went wrong; and the status, and what is printed.
const ENDS: &[(&[SourceEnd], u128, u128, Option<u64>, Option<Fault>, &str)] = &[
    (
        &[ENDED],
        3,
        3,
        None,
        None,
        "0 source 0 accepted 3\nsamples 3 durable 3\n",
    ),
    (
        &[CUT, LEFT],
        6,
        6,
        Some(6),
        None,
        "0 source 0 accepted 3\nsource 0 cut\nsource 1 accepted 3\nsamples 6 durable 6\nlive 6\n",
    ),
    (
        &[ENDED, DEAF],
        6,
        6,
        None,
        None,
        "6 source 0 accepted 3\nsource 1 accepted 3\nsamples 6 durable 6\n",
    ),
    (
        &[DEAF, BAD],
        6,
        6,
        None,
        None,
        "8 source 0 accepted 3\nsource 1 accepted 3\nsource 1 refused 2\nsamples 6 durable 6\n",
    ),
    (
        &[BAD, BROKEN],
        3,
        3,
        None,
        None,
        "2 source 0 accepted 3\nsource 0 refused 2\nsource 1 accepted 0\nsource 1 failed\nsource 1 cut\nsamples 3 durable 3\n",
    ),
    (
        &[BROKEN, SHORT],
        3,
        3,
        None,
        None,
        "7 source 0 accepted 0\nsource 0 failed\nsource 0 cut\nsource 1 accepted 3\nsamples 3 durable 3\n",
    ),
    (
        &[COUNTED],
        36_893_488_147_419_103_230,
        18_446_744_073_709_551_616,
        None,
        None,
        "7 source 0 accepted 36893488147419103230\nsamples 36893488147419103230 durable 18446744073709551616\n",
    ),
    (
        &[CALLED],
        3,
        3,
        None,
        None,
        "7 source 0 accepted 3\nsamples 3 durable 3\n",
    ),
    (
        &[REFUSED],
        3,
        3,
        None,
        None,
        "7 source 0 accepted 3\nsamples 3 durable 3\n",
    ),
    (
        &[REFUSED, CALLED],
        6,
        6,
        None,
        Some(FULL),
        "5 source 0 accepted 3\nsource 1 accepted 3\nsamples 6 durable 6\nsession full 0 145 144\n",
    ),
    (
        &[BAD, SHORT],
        6,
        4,
        None,
        Some(Fault::Device),
        "4 source 0 accepted 3\nsource 0 refused 2\nsource 1 accepted 3\nsamples 6 durable 4\ndevice fault\n",
    ),
];

// What is printed of an end, where these calls of the sink fail.
fn told(alloc: Global, end: &LogEnd, failing: &[u64]) -> Result<String, Fail> {
    let mut sink = MemorySink::new(alloc, numbers(alloc, failing)?);
    let status = report(&mut sink, end);
    printed(alloc, status, &sink)
}

#[test]
fn ends_are_told(rt: HostRuntime) -> Result<(), Fail> {
    let alloc = rt.alloc();
    for (sources, samples, durable, live, fault, want) in ENDS {
        let end = LogEnd::Closed {
            sources: sources.to_vec(alloc)?,
            samples: *samples,
            durable: *durable,
            live: *live,
            fault: *fault,
        };
        is_told(told(alloc, &end, &[]), want)?;
    }
    Ok(())
}

// A sink that fails at its second call.
fn unwritten(alloc: Global) -> Result<String, Fail> {
    let end = LogEnd::Closed {
        sources: [ENDED].to_vec(alloc)?,
        samples: 3,
        durable: 3,
        live: None,
        fault: None,
    };
    told(alloc, &end, &[1])
}

#[test]
fn other_ends_are_told(rt: HostRuntime) -> Result<(), Fail> {
    let alloc = rt.alloc();
    is_told(
        told(alloc, &LogEnd::Inputs { sources: 2 }, &[]),
        "1 sources 2\n",
    )?;
    is_told(
        told(alloc, &LogEnd::Refused(Fault::Script { line: 3 }), &[]),
        "8 script line 3\n",
    )?;
    is_told(unwritten(alloc), "6 source 0 accepted 3\n")
}
