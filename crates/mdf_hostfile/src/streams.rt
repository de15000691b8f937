use std::fs::File;
use std::rt::Files;

/// What stands in the place of a standard stream that is closed.
const NOTHING: &str = "/dev/null";

/// Opens three files that are empty and can't be written. While they are held, no other file has the number of standard input, standard
/// output or standard error, though the program was begun with these closed: so what it prints is not written into a recording, but
/// fails.
pub fn hold_streams<R: Files<File = File>>(rt: &R) -> [Option<File>; 3] {
    [
        File::open(rt, NOTHING).ok(),
        File::open(rt, NOTHING).ok(),
        File::open(rt, NOTHING).ok(),
    ]
}
