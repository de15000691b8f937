//! The program `mdf4log`.
#![tactic(auto)]

use log_program::{FileDisks, start};
use mdf_hostfile::hold_streams;
use mdf_input::InputFile;
use mdf_log::{Tap, is_standard};
use mdf_num::{Bytes, Memory};
use mdf_port::StdSink;
use std::fs::File;
use std::io::{self, ErrorKind, Stdout};
use std::process::ExitCode;
use std::rt::Files;
use std::{str, thread};

/// Opens the file of this name.
fn opened<R: Files<File = File>>(rt: &R, name: &Bytes) -> io::Result<File> {
    match str::from_utf8(name.as_slice()) {
        Ok(path) => File::open(rt, path),
        Err(_) => Err(io::Error::from(ErrorKind::InvalidInput)),
    }
}

fn main(rt: HostRuntime) -> ExitCode {
    let _held = hold_streams(&rt);
    let opener = |word: Bytes| -> Result<Tap<InputFile<HostRuntime>, StdSink<Stdout>>, Memory> {
        let (input, reading) = InputFile::new(rt, rt.alloc())?;
        let started = if is_standard(word.as_slice()) {
            thread::spawn(&rt, move || reading.run(&rt, || Ok(rt.stdin()))).is_ok()
        } else {
            thread::spawn(&rt, move || reading.run(&rt, || opened(&rt, &word))).is_ok()
        };
        let told = StdSink::new(rt.stdout());
        if started {
            Ok(Tap { input, told })
        } else {
            Err(Memory)
        }
    };
    let mut sink = StdSink::new(rt.stdout());
    start(&rt, &mut sink, &mut FileDisks::new(&rt), &opener)
}
