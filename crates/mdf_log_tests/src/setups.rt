//! What a setup says, and which are refused.
use crate::told::{numbers, printed};
use acq_script::Plan;
use mdf_command::Fault;
use mdf_log::{floats_of, read_setup};
use mdf_num::{Bytes, Rows};
use mdf_port::{MemorySink, MemorySource};
use mdf_run_rig::is_told;
use script_line::Width;
use std::alloc::Global;
use std::test::Fail;

// Setups, and of each how many sources it has, and for each group which of its channels are floats of 32 and of 64 bits; or the status and
// the line with which it is refused.
const SETUPS: &[(&str, &str)] = &[
    (
        "group 0 g\nchannel t u64 master\nchannel x f32\nchannel y f64\nchannel z u32\nbegin\n",
        "1 -sd-",
    ),
    (
        "live\ngroup 1 a\nchannel x f64\ngroup 0 b\nchannel t u8\nbegin\n",
        "2 d -",
    ),
    (
        "group 0 g\nchannel t u64 master\nbegin\n; nothing\n\n",
        "1 -",
    ),
    (
        "group 0 g\nchannel t u64 master\nbegin\n0 1\n",
        "8 script line 0\n",
    ),
    (
        "group 0 g\nchannel t u64 master\nbegin\n! 0\n",
        "8 script line 0\n",
    ),
    (
        "group 0 g\nchannel t u64 master\nbegin\nend\n",
        "8 script line 5\n",
    ),
    (
        "group 0 g\nchannel t u64 master\nbegin",
        "8 script line 3\n",
    ),
    ("group 0 g\nchannel t u64 master\n", "8 script line 3\n"),
    ("group 0 g\nchannel t u65\nbegin\n", "8 script line 2\n"),
    ("", "8 script line 1\n"),
];

fn letter_of(width: &Option<Width>) -> &'static str {
    match width {
        Some(Width::Single) => "s",
        Some(Width::Double) => "d",
        None => "-",
    }
}

// Which channels of a group are floats.
fn push_widths(told: &mut String, widths: &Rows<Option<Width>>) -> Result<(), Fail> {
    told.push_str(" ")?;
    for width in widths.as_slice() {
        told.push_str(letter_of(width))?;
    }
    Ok(())
}

fn plan_told(alloc: Global, plan: &Plan) -> Result<String, Fail> {
    let mut told = format!(in alloc; "{}", plan.sources)?;
    let floats = floats_of(alloc, plan)?;
    for widths in floats.as_slice() {
        push_widths(&mut told, widths)?;
    }
    Ok(told)
}

fn fault_told(alloc: Global, fault: Fault) -> Result<String, Fail> {
    let mut sink = MemorySink::new(alloc, numbers(alloc, &[])?);
    if fault.give(&mut sink).is_err() {
        return Err(Fail::new("no text"));
    }
    printed(alloc, fault.status(), &sink)
}

fn told(alloc: Global, text: &str, failing: &[u64]) -> Result<String, Fail> {
    let text = Bytes::from_slice(alloc, text.as_bytes())?;
    let mut source = MemorySource::new(text, numbers(alloc, failing)?);
    match read_setup(alloc, &mut source) {
        Ok(plan) => plan_told(alloc, &plan),
        Err(fault) => fault_told(alloc, fault),
    }
}

#[test]
fn setups_are_told(rt: HostRuntime) -> Result<(), Fail> {
    for (text, want) in SETUPS {
        is_told(told(rt.alloc(), text, &[]), want)?;
    }
    Ok(())
}

#[test]
fn setup_of_a_failing_source(rt: HostRuntime) -> Result<(), Fail> {
    let setup = "group 0 g\nchannel t u64 master\nbegin\n";
    is_told(told(rt.alloc(), setup, &[1]), "2 source fault\n")
}
