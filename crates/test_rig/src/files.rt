use std::alloc::Global;
use std::test::Fail;

/// A block of a file as a table gives it: where it stands, the four bytes of its name, its links, and its body.
pub type Piece = (usize, &'static [u8; 4], &'static [u64], &'static [u8]);

/// A block may have so many links, and so many bytes of body.
const MOST: usize = 1 << 20;

/// Copies the bytes to a place of the file, if they fit there.
pub fn put(file: &mut [u8], at: usize, part: &[u8]) {
    if at <= file.len() && part.len() <= file.len() - at {
        file[at..at + part.len()].copy_from_slice(part);
    }
}

/// Copies a number of 8 bytes to a place of the file, if it fits there.
pub fn put_number(file: &mut [u8], at: usize, number: u64) {
    put(file, at, &number.to_le_bytes());
}

/// Copies numbers of 8 bytes to their places.
pub fn put_numbers(file: &mut [u8], numbers: &[(usize, u64)]) {
    for (at, number) in numbers {
        put_number(file, *at, *number);
    }
}

/// Copies a block to its place, with its size and the number of its links.
pub fn put_block(file: &mut [u8], piece: &Piece) {
    let (at, name, links, body) = *piece;
    if at > MOST || links.len() > MOST || body.len() > MOST {
        return;
    }
    let front = at + 24 + 8 * links.len();
    put(file, at, name);
    put_number(file, at + 8, (front - at + body.len()) as u64);
    put_number(file, at + 16, links.len() as u64);
    for (k, link) in links.iter().enumerate() {
        put_number(file, at + 24 + 8 * k, *link);
    }
    put(file, front, body);
}

/// A file of so many bytes: zeros, and these blocks.
pub fn file_of(alloc: Global, size: usize, pieces: &[Piece]) -> Result<Vec<u8>, Fail> {
    let mut file = vec![in alloc; 0u8; size]?;
    for piece in pieces {
        put_block(file.as_mut_slice(), piece);
    }
    Ok(file)
}

/// A file of so many bytes: its identification, and the blocks of these tables.
pub fn marked_file(
    alloc: Global,
    size: usize,
    ident: &[u8],
    tables: &[&[Piece]],
) -> Result<Vec<u8>, Fail> {
    let mut file = file_of(alloc, size, &[])?;
    put(file.as_mut_slice(), 0, ident);
    for pieces in tables {
        for piece in *pieces {
            put_block(file.as_mut_slice(), piece);
        }
    }
    Ok(file)
}

/// Changes link `k` of the block at a place.
pub fn set_link(file: &mut [u8], at: usize, k: usize, to: u64) {
    if at <= MOST && k <= MOST {
        put_number(file, at + 24 + 8 * k, to);
    }
}
