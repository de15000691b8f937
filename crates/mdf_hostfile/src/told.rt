// What is said on standard error. If that fails too, there is nobody left to tell.
use crate::file::FileDisk;
use crate::system::FileCalls;
use mdf_input::InputFile;
use mdf_port::StdSink;
use std::io::{Error, Write};
use std::str;
use std::sync::Wait;
use std::time::Clock;

/// A file, an input or an output of which standard error tells.
pub trait Told {
    /// What the system said of the last call that failed, if one did.
    fn error(&self) -> Option<Error>;
}

/// A file that was asked for by a name.
pub trait Named: Told {
    /// The name that was asked for, if one was.
    fn file(&self) -> Option<&[u8]>;
}

impl<S: FileCalls> Told for FileDisk<S> {
    fn error(&self) -> Option<Error> {
        self.last_error()
    }
}

impl<S: FileCalls> Named for FileDisk<S> {
    fn file(&self) -> Option<&[u8]> {
        self.name()
    }
}

impl<R: Wait + Clock> Told for InputFile<R> {
    fn error(&self) -> Option<Error> {
        self.last_error()
    }
}

impl<O: Write> Told for StdSink<O> {
    fn error(&self) -> Option<Error> {
        self.last_error()
    }
}

/// Says what the system said of the last call on the file or stream of this name that failed, if one did.
pub fn tell<R: Eprint>(rt: &R, name: &str, last: Option<Error>) {
    if let Some(error) = last {
        let _ = eprintln!(rt; "{name}: {error}");
    }
}

/// What standard error calls a file: its name, or `a file` if it has none that is text.
pub fn name_of<F: Named>(file: &F) -> &str {
    str::from_utf8(file.file().unwrap_or(b"a file")).unwrap_or("a file")
}

/// Says what the system said of the last call on this file that failed, if one did.
pub fn tell_file<R: Eprint, F: Named>(rt: &R, file: &F) {
    tell(rt, name_of(file), file.error());
}
