use mdf_num::{Bytes, Memory, Rows};
use std::env;
use std::io::ErrorKind;
use std::rt::Env;

/// The command words of the process, after the program's name. Words that are no text count as none.
///
/// # Errors
/// `Memory` if memory runs out.
pub fn read_words<R: Env + AllocGlobal>(rt: &R) -> Result<Rows<Bytes>, Memory> {
    let alloc = rt.alloc();
    let mut words = Rows::empty(alloc);
    let args = match env::args(rt) {
        Ok(args) => args,
        Err(error) => {
            return match error.kind() {
                ErrorKind::OutOfMemory => Err(Memory),
                _ => Ok(words),
            };
        }
    };
    for word in args.skip(1) {
        words.push(Bytes::from_slice(alloc, word.as_bytes())?)?;
    }
    Ok(words)
}
