//! Which words ask for a log.
use crate::told::{numbers, printed};
use mdf_log::{LogWords, is_standard, log_words, run_log_usage};
use mdf_num::{Bytes, Rows};
use mdf_port::MemorySink;
use mdf_run_rig::is_told;
use std::alloc::Global;
use std::test::Fail;

// Words, and which of them are the inputs, where they ask for a log; of standard input there stands `standard`.
const WORDS: &[(&[&str], &str)] = &[
    (&["out", "setup", "a"], "out of setup: a"),
    (&["out", "setup", "-"], "out of setup: standard"),
    (&["-", "setup", "-"], "- of setup: standard"),
    (&["out", "-", "a"], "out of -: a"),
    (&["out", "-", "-"], "none"),
    (&["out", "-", "a", "-"], "none"),
    (
        &["out", "setup", "a", "-", "b"],
        "out of setup: a standard b",
    ),
    (&["out", "setup", "--", "-"], "out of setup: -- standard"),
    (&["out", "setup", "a", "a"], "out of setup: a a"),
    (&["out", "setup", ""], "out of setup: "),
    (
        &[
            "out", "setup", "0", "1", "2", "3", "4", "5", "6", "7", "8", "9", "10", "11", "12",
            "13", "14", "15",
        ],
        "out of setup: 0 1 2 3 4 5 6 7 8 9 10 11 12 13 14 15",
    ),
    (
        &[
            "out", "setup", "0", "1", "2", "3", "4", "5", "6", "7", "8", "9", "10", "11", "12",
            "13", "14", "15", "16",
        ],
        "none",
    ),
    (&["out", "setup", "-", "a", "-"], "none"),
    (&["out", "setup"], "none"),
    (&["out"], "none"),
    (&[], "none"),
];

fn words_of(alloc: Global, texts: &[&str]) -> Result<Rows<Bytes>, Fail> {
    let mut words = Rows::empty(alloc);
    for text in texts {
        words.push(Bytes::from_slice(alloc, text.as_bytes())?)?;
    }
    Ok(words)
}

fn input_told(input: &Bytes) -> Result<&str, Fail> {
    if is_standard(input.as_slice()) {
        Ok("standard")
    } else {
        Ok(str::from_utf8(input.as_slice())?)
    }
}

// What a log is asked for with.
fn log_told(alloc: Global, log: LogWords<'_>) -> Result<String, Fail> {
    let output = str::from_utf8(log.output.as_slice())?;
    let setup = str::from_utf8(log.setup.as_slice())?;
    let mut told = format!(in alloc; "{output} of {setup}:")?;
    for input in log.inputs {
        told.push_str(" ")?;
        told.push_str(input_told(input)?)?;
    }
    Ok(told)
}

fn told(alloc: Global, texts: &[&str]) -> Result<String, Fail> {
    let words = words_of(alloc, texts)?;
    match log_words(&words) {
        Some(log) => log_told(alloc, log),
        None => Ok(String::from_str(alloc, "none")?),
    }
}

#[test]
fn words_ask_for_a_log(rt: HostRuntime) -> Result<(), Fail> {
    for (texts, want) in WORDS {
        is_told(told(rt.alloc(), texts), want)?;
    }
    Ok(())
}

fn usage(alloc: Global) -> Result<String, Fail> {
    let mut sink = MemorySink::new(alloc, numbers(alloc, &[])?);
    let status = run_log_usage(&mut sink);
    printed(alloc, status, &sink)
}

#[test]
fn other_words_are_told_the_usage(rt: HostRuntime) -> Result<(), Fail> {
    is_told(usage(rt.alloc()), "1 usage: mdf4log OUT SETUP IN..\n")
}
