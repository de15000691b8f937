//! Parts of files, and the recording of two blocks.

use mdf_num::Bytes;
use std::alloc::Global;
use std::test::Fail;

/// Bytes that stand at a place of a file.
pub type Part = (usize, &'static [u8]);

// A recording without history: the header at 64, the data group at 168, the places from 232 on. A block of 10 bytes
// stands at 232, one of 16 at 272, and the place at 312 is closed. All other bytes are 0.
const TWO_BLOCKS: &[Part] = &[
    (0, b"UnFinMF 4.10    mdf4rec "),
    (28, b"\x9A\x01"),
    (60, b"\x21\x00\x01\x00"),
    (64, b"##HD"),
    (72, b"\x68"),
    (80, b"\x06"),
    (88, b"\xA8"),
    (168, b"##DG"),
    (176, b"\x40"),
    (184, b"\x04"),
    (208, b"\xE8"),
    (224, b"\x01"),
    (232, b"##DT"),
    (240, b"\x22"),
    (256, b"0123456789"),
    (272, b"##DT"),
    (280, b"\x28"),
];

// The same in form 2. List blocks stand at 232 and 328, and the data blocks behind them at 288 and 384; the place at 424 is
// closed.
const TWO_LISTED: &[Part] = &[
    (0, b"UnFinMF 4.10    mdf4rec "),
    (28, b"\x9A\x01"),
    (60, b"\x31\x00\x03\x00"),
    (64, b"##HD"),
    (72, b"\x68"),
    (80, b"\x06"),
    (88, b"\xA8"),
    (168, b"##DG"),
    (176, b"\x40"),
    (184, b"\x04"),
    (208, b"\xE8"),
    (224, b"\x01"),
    (232, b"##DL"),
    (240, b"\x38"),
    (248, b"\x02"),
    (256, b"\x48\x01"),
    (264, b"\x20\x01"),
    (276, b"\x01"),
    (288, b"##DT"),
    (296, b"\x22"),
    (312, b"0123456789"),
    (328, b"##DL"),
    (336, b"\x38"),
    (344, b"\x02"),
    (352, b"\xA8\x01"),
    (360, b"\x80\x01"),
    (372, b"\x01"),
    (376, b"\x0A"),
    (384, b"##DT"),
    (392, b"\x28"),
];

/// Puts a part into a file, where it has room for it.
pub fn put(file: &mut Vec<u8>, (at, part): Part) {
    if at <= file.len() && part.len() <= file.len() - at {
        file[at..at + part.len()].copy_from_slice(part);
    }
}

/// A file of zero bytes with these parts and another one put in, so many bytes of it.
fn file_of(
    alloc: Global,
    size: usize,
    parts: &[Part],
    length: usize,
    change: Part,
) -> Result<Bytes, Fail> {
    let mut file = vec![in alloc; 0u8; size]?;
    for part in parts {
        put(&mut file, *part);
    }
    put(&mut file, change);
    file.truncate(length);
    Ok(Bytes::from_vec(file))
}

/// The recording of two blocks, so many bytes of it, with another part put in.
pub fn recording(alloc: Global, length: usize, change: Part) -> Result<Bytes, Fail> {
    file_of(alloc, 313, TWO_BLOCKS, length, change)
}

/// The same in form 2.
pub fn listed_recording(alloc: Global, length: usize, change: Part) -> Result<Bytes, Fail> {
    file_of(alloc, 425, TWO_LISTED, length, change)
}

/// A file with these parts put in.
pub fn changed(alloc: Global, file: &Bytes, parts: &[Part]) -> Result<Bytes, Fail> {
    let mut bytes = Vec::from_slice(alloc, file.as_slice())?;
    for part in parts {
        put(&mut bytes, *part);
    }
    Ok(Bytes::from_vec(bytes))
}

/// Whether the part stands in the file.
pub fn stands(file: &[u8], (at, part): Part) -> bool {
    at <= file.len() && file[at..].starts_with(part)
}

/// Fails where one of these parts does not stand in the file.
pub fn all_stand(file: &[u8], parts: &[Part]) -> Result<(), Fail> {
    for part in parts {
        if !stands(file, *part) {
            return Err(Fail::new(part.0));
        }
    }
    Ok(())
}
