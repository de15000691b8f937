//! What logs print and tell, and what they leave.

use crate::runs::{Given, Left, logged, logging};
use mdf_run_rig::is_told;
use std::alloc::Global;
use std::sync::Wait;
use std::test::Fail;
use std::thread::Threads;

const ONE: &str = "group 0 g\nchannel t u64 master\nbegin\n";

const FLOATS: &str = "group 0 g\nchannel x f32\nchannel y f64\nbegin\n";

// A session has room for two samples, and for none.
const TWO_A_PART: &str = "session 290\ngroup 0 g\nchannel t u64 master\nbegin\n";

const NONE_A_PART: &str = "session 144\ngroup 0 g\nchannel t u64 master\nbegin\n";

const TWO_SOURCES: &str =
    "group 0 a\nchannel t u64 master\ngroup 1 b\nchannel t u64 master\nbegin\n";

const LIVE: &str = "live\ngroup 0 g\nchannel t u64 master\nbegin\n";

// What is said; the status and the printed text; what the source is told; and how many bytes the file of each part has.
const LOGGED: &[(&str, &str, &str, &str, &str)] = &[
    (
        ONE,
        "0 1\n0 2\n! 0\n0 3\n",
        "0 part 0 samples 3 durable 3\nsource 0 accepted 3\nsamples 3 durable 3\n",
        "source 0 durable 2\nsource 0 durable 3\n",
        " 857",
    ),
    (
        ONE,
        "",
        "0 part 0 samples 0 durable 0\nsource 0 accepted 0\nsamples 0 durable 0\n",
        "",
        " 769",
    ),
    (
        ONE,
        "0 1\n0 2\n0 34",
        "0 part 0 samples 2 durable 2\nsource 0 accepted 2\nsource 0 cut\nsamples 2 durable 2\n",
        "source 0 durable 2\n",
        " 817",
    ),
    (
        ONE,
        "0 1\nword\n1 1\n! 1\n0 1 2\n; 0 1\n\n0 2\nend\n0 3\n",
        "8 part 0 samples 2 durable 2\nsource 0 accepted 2\nsource 0 refused 4\nsamples 2 durable 2\n",
        "source 0 durable 2\n",
        " 817",
    ),
    (
        TWO_A_PART,
        "0 1\n0 2\n! 0\n0 3\n0 4\n0 5\n",
        "0 part 0 samples 2 durable 2\npart 1 samples 2 durable 2\npart 2 samples 1 durable 1\nsource 0 accepted 5\nsamples 5 durable 5\n",
        "source 0 durable 2\nsource 0 durable 5\n",
        " 817 817 809",
    ),
    (
        NONE_A_PART,
        "0 1\n",
        "5 part 0 samples 0 durable 0\nsource 0 accepted 0\nsamples 0 durable 0\nsession full 0 145 144\n",
        "",
        " 769",
    ),
    (
        LIVE,
        "0 1\n0 2\n",
        "0 part 0 samples 2 durable 2\nsource 0 accepted 2\nsamples 2 durable 2\nlive 2\n",
        "source 0 durable 2\n",
        " 817",
    ),
    (
        FLOATS,
        "0 1.5 -2e3\n0 x0000c03f 1\n0 nan 1\n0 1 x0000000000000000\n",
        "8 part 0 samples 3 durable 3\nsource 0 accepted 3\nsource 0 refused 1\nsamples 3 durable 3\n",
        "source 0 durable 3\n",
        " 1025",
    ),
    (
        "group 0 g\nchannel t u65\nbegin\n",
        "0 1\n",
        "8 script line 2\n",
        "",
        "",
    ),
    (TWO_SOURCES, "0 1\n", "1 sources 2\n", "", ""),
];

/// How many bytes the file of each part has.
fn sizes(alloc: Global, left: &Left) -> Result<String, Fail> {
    let mut line = String::new(alloc);
    for disk in &left.disks {
        let size = disk.bytes().len();
        let more = format!(in alloc; " {size}")?;
        line.push_str(more.as_str())?;
    }
    Ok(line)
}

/// Fails where a log of one input leaves anything else.
fn is_logged<R>(rt: &R, given: Given<'_>, want: &str, told: &str, files: &str) -> Result<(), Fail>
where
    R: AllocGlobal + Threads + Wait + Sync,
{
    let left = logged(rt, given)?;
    is_told(sizes(rt.alloc(), &left), files)?;
    let Left {
        line,
        told: told_each,
        ..
    } = left;
    is_told(Ok(line), want)?;
    for text in told_each {
        is_told(Ok(text), told)?;
    }
    Ok(())
}

#[test]
fn what_is_said_is_recorded_and_told(rt: HostRuntime) -> Result<(), Fail> {
    for (setup, text, want, told, files) in LOGGED {
        is_logged(&rt, logging(*setup, &[*text]), *want, *told, *files)?;
    }
    Ok(())
}

#[test]
fn what_fails_is_told(rt: HostRuntime) -> Result<(), Fail> {
    let given = logging(ONE, &["0 1\n0 2\n"]);
    let unread = Given {
        unread: &[0],
        ..given
    };
    is_logged(&rt, unread, "2 source fault\n", "", "")?;
    let broken = Given {
        broken: &[1],
        ..given
    };
    is_logged(
        &rt,
        broken,
        "2 part 0 samples 2 durable 2\nsource 0 accepted 2\nsource 0 failed\nsamples 2 durable 2\n",
        "source 0 durable 2\n",
        " 817",
    )?;
    let deaf = Given {
        deaf: &[0],
        ..given
    };
    is_logged(
        &rt,
        deaf,
        "6 part 0 samples 2 durable 2\nsource 0 accepted 2\nsamples 2 durable 2\n",
        "",
        " 817",
    )?;
    let failing = Given {
        failing: &[0],
        ..given
    };
    is_logged(&rt, failing, "6 ", "source 0 durable 2\n", " 817")
}

#[test]
fn sources_are_told_of_their_own(rt: HostRuntime) -> Result<(), Fail> {
    let left = logged(&rt, logging(TWO_SOURCES, &["0 1\n0 2\n0 3\n", "1 7\n"]))?;
    is_told(
        Ok(left.line),
        "0 part 0 samples 4 durable 4\nsource 0 accepted 3\nsource 1 accepted 1\nsamples 4 durable 4\n",
    )?;
    let mut told = String::new(rt.alloc());
    for text in left.told {
        told.push_str(text.as_str())?;
    }
    is_told(Ok(told), "source 0 durable 3\nsource 1 durable 1\n")
}

/// So many sample lines.
fn numbered(alloc: Global, count: u64) -> Result<String, Fail> {
    let mut text = String::new(alloc);
    for number in 1..=count {
        write!(text, "0 {number}\n")?;
    }
    Ok(text)
}

// Of 100,894 bytes the first read brings 65,536, which end in the middle of a line.
#[test]
fn a_line_of_two_reads_is_one(rt: HostRuntime) -> Result<(), Fail> {
    let text = numbered(rt.alloc(), 14_000)?;
    is_logged(
        &rt,
        logging(ONE, &[text.as_str()]),
        "0 part 0 samples 14000 durable 14000\nsource 0 accepted 14000\nsamples 14000 durable 14000\n",
        "source 0 durable 9520\nsource 0 durable 14000\n",
        " 126849",
    )
}
