ghost use Rattle.std.specs.Prelude.{◌≡◌, ◌+◌, ◌≤◌, ◌<◌, ◌++◌, length, take, drop};
ghost use Rattle.mdf_format.specs.Number.{bytes_at};
ghost use Rattle.mdf_stream.specs.Parts.{AreBehind, ArePartsInside, stream_of, stream_size};

use crate::DataView;
use mdf_num::Bytes;

/// Copies bytes to a place so far before them that they do not meet it.
fn move_down(bytes: &mut [u8], from: usize, to: usize, len: usize)
    requires apart { to + len ≤ from }
    requires within { from + len ≤ length bytes.old }
    ensures front { take (to + len) bytes.new ≡ take to bytes.old ++ bytes_at len bytes.old from }
    ensures rest { drop (to + len) bytes.new ≡ drop (to + len) bytes.old }
    ensures len { length bytes.new ≡ length bytes.old }
{
    let (front, back) = bytes.split_at_mut(from);
    front[to..to + len].copy_from_slice(&back[..len]);
}

/// Moves the bytes of the stream from a place on to that place of the file, as many of the next `most` as lie in one part and do
/// not meet that place, and answers how many. The search for them begins at part `near` of the stream.
fn move_part(bytes: &mut [u8], view: &DataView, at: u64, most: u64, near: &mut usize) -> u64
    requires inside { ArePartsInside (length bytes.old) view.now }
    requires behind { AreBehind 0 view.now }
    requires some { 0 < most }
    requires within { at + most ≤ stream_size view.now }
    ensures some { 0 < result }
    ensures most { result ≤ most }
    ensures front { take (at + result) bytes.new ≡ take at bytes.old ++ bytes_at result (stream_of bytes.old view.now) at }
    ensures rest { drop (at + result) bytes.new ≡ drop (at + result) bytes.old }
    ensures len { length bytes.new ≡ length bytes.old }
{
    let part = view.first_part(at, most, near);
    let shift = part.at - at;
    if shift == 0 {
        return part.len;
    }
    let len = part.len.min(shift);
    move_down(bytes, part.at as usize, at as usize, len as usize);
    len
}

/// Moves the first bytes of a stream, so many, to the front of the file. Each part of the stream stands at its place in it or
/// behind it: so whatever is still to be moved stands as it was.
fn move_front(bytes: &mut [u8], view: &DataView, size: u64)
    requires inside { ArePartsInside (length bytes.old) view.now }
    requires behind { AreBehind 0 view.now }
    requires within { size ≤ stream_size view.now }
    ensures front { take size bytes.new ≡ bytes_at size (stream_of bytes.old view.now) 0 }
    ensures len { length bytes.new ≡ length bytes.old }
{
    let mut at = 0;
    let mut near = 0;
    while at < size {
        at += move_part(bytes, view, at, size - at, &mut near);
    }
}

/// The first bytes of a stream of a file, so many, in the memory of the file itself. It takes no memory of its own.
pub fn moved_front(file: Bytes, view: &DataView, size: u64) -> Bytes
    requires inside { ArePartsInside (length file) view.now }
    requires behind { AreBehind 0 view.now }
    requires within { size ≤ stream_size view.now }
    ensures { result ≡ bytes_at size (stream_of file view.now) 0 }
{
    let mut bytes = file.into_vec();
    move_front(bytes.as_mut_slice(), view, size);
    bytes.truncate(size as usize);
    Bytes::from_vec(bytes)
}
