use mdf_command::run_unread;
use mdf_disk::Disks;
use mdf_hostfile::{Told, now_ns, read_words, tell};
use mdf_input::Input;
use mdf_log::{LogWords, Logged, Tap, log_words, run_log, run_log_usage};
use mdf_num::{Bytes, Memory};
use mdf_port::Sink;
use std::alloc::Global;
use std::process::ExitCode;
use std::rt::{Clock, Env};
use std::str;
use std::sync::Wait;
use std::thread::Threads;

/// The taps that these words ask for, in order.
fn taps<S, K, F>(alloc: Global, words: &[Bytes], opener: &F) -> Result<Vec<Tap<S, K>>, Memory>
where
    S: Drop,
    K: Drop,
    F: Fn(Bytes) -> Result<Tap<S, K>, Memory>,
    requires { F.IsAlwaysCallable opener.now }
{
    let mut taps = Vec::new(alloc);
    for word in words {
        taps.push(opener(word.copy()?)?)?;
    }
    Ok(taps)
}

/// What a log begins with: what its setup is read from, and the taps of its inputs.
fn begun<S, K, F>(
    alloc: Global,
    log: &LogWords<'_>,
    opener: &F,
) -> Result<(Tap<S, K>, Vec<Tap<S, K>>), Memory>
where
    S: Drop,
    K: Drop,
    F: Fn(Bytes) -> Result<Tap<S, K>, Memory>,
    requires { F.IsAlwaysCallable opener.now }
{
    let setup = opener(log.setup.copy()?)?;
    let taps = taps(alloc, log.inputs, opener)?;
    Ok((setup, taps))
}

/// Says why the input of this name failed, if it did.
fn tell_input<R: Eprint, S: Told>(rt: &R, name: &Bytes, input: &S) {
    tell(
        rt,
        str::from_utf8(name.as_slice()).unwrap_or("an input"),
        input.error(),
    );
}

/// Records what the inputs say, and answers the status.
fn record<R, S, K, D, F>(rt: &R, log: &LogWords<'_>, sink: &mut K, disks: &mut D, opener: &F) -> u8
where
    R: AllocGlobal + Clock + Eprint + Threads + Wait + Sync,
    S: Input + Told + Send + Drop,
    K: Sink + Told + Send + Drop,
    D: Disks,
    F: Fn(Bytes) -> Result<Tap<S, K>, Memory>,
    requires { F.IsAlwaysCallable opener.now }
{
    let alloc = rt.alloc();
    let Ok((mut setup, taps)) = begun(alloc, log, opener) else {
        return run_unread(sink);
    };
    let Logged {
        status,
        end: _,
        taps,
    } = run_log(
        rt,
        alloc,
        log.output,
        now_ns(rt),
        &mut setup.input,
        taps,
        sink,
        disks,
    );
    tell_input(rt, log.setup, &setup.input);
    for (word, tap) in log.inputs.iter().zip(taps.iter()) {
        tell_input(rt, word, &tap.input);
        tell(rt, "standard output", tap.told.error());
    }
    status
}

/// Runs the program: its words, this output, the disks of the parts, and what opens an input and gives it the output to be told over. Answers
/// its status.
pub fn start<R, S, K, D, F>(rt: &R, sink: &mut K, disks: &mut D, opener: &F) -> ExitCode
where
    R: Env + AllocGlobal + Clock + Eprint + Threads + Wait + Sync,
    S: Input + Told + Send + Drop,
    K: Sink + Told + Send + Drop,
    D: Disks,
    F: Fn(Bytes) -> Result<Tap<S, K>, Memory>,
    requires { F.IsAlwaysCallable opener.now }
{
    let status = match read_words(rt) {
        Ok(words) => match log_words(&words) {
            Some(log) => record(rt, &log, sink, disks, opener),
            None => run_log_usage(sink),
        },
        Err(_) => run_unread(sink),
    };
    tell(rt, "standard output", sink.error());
    ExitCode::from(status)
}
