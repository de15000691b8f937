ghost use Rattle.std.specs.Prelude.{◌≡◌, ◌+◌, ◌-◌, ◌^◌, ◌≤◌, ◌<◌, ◌↔◌, ◌++◌, ◌∷◌, ℕ, List, length, drop, slice_index_or, IsTrue, IfOk, IfSome};
ghost use Rattle.std.specs.List.Sorted.{IsNonDecreasingBy};
ghost use Rattle.mdf_format.specs.Number.{le_number, bytes_at};
ghost use Rattle.mdf_block.specs.Reads.{Looks};
ghost use Rattle.mdf_stream.specs.declared.stretch.Stretch.{Stretch};
ghost use Rattle.mdf_stream.specs.Parts.{AreBehind, stream_of, ArePartsInside};
ghost use Rattle.mdf_stream.specs.Stretch.{parts_of, AreJoined, front_len, front_part};
ghost use Rattle.mdf_stream.specs.Range.{parts_between};

use crate::Part;
use mdf_num::{Span, Stop, number_of};

/// A part of a stream.
#[derive(Clone, Copy, Debug)]
pub(crate) struct Stretch {
    /// Where it stands in the file.
    pub(crate) part: Part,
    /// The place behind it in the stream.
    pub(crate) end: u64,
}

/// The number of the first part that ends behind a place of the stream, by a search over all.
#[inline(never)]
fn stretch_by_search(items: &[Stretch], at: u64) -> usize
    requires { IsNonDecreasingBy (λ (stretch : Stretch). stretch.end) items.now }
    ensures bound { result ≤ length items.now }
    ensures before { (k : ℕ) (d : Stretch) → k < result → (slice_index_or items.now k d).end ≤ at }
    ensures behind { (d : Stretch) → result < length items.now → at < (slice_index_or items.now result d).end }
{
    items.partition_point(|stretch| stretch.end <= at)
}

/// Whether part `k` is there and is the first that ends behind a place of the stream.
fn is_stretch_at(items: &[Stretch], at: u64, k: usize) -> bool
    requires { IsNonDecreasingBy (λ (stretch : Stretch). stretch.end) items.now }
    ensures there { IsTrue result → k < length items.now }
    ensures before { (j : ℕ) (d : Stretch) → IsTrue result → j < k → (slice_index_or items.now j d).end ≤ at }
    ensures behind { (d : Stretch) → IsTrue result → at < (slice_index_or items.now k d).end }
{
    k < items.len() && at < items[k].end && (k == 0 || items[k - 1].end <= at)
}

/// The number of the first part that ends behind a place of the stream. Part `near` and the next are tried first.
pub(crate) fn stretch_at(items: &[Stretch], at: u64, near: usize) -> usize
    requires { IsNonDecreasingBy (λ (stretch : Stretch). stretch.end) items.now }
    ensures bound { result ≤ length items.now }
    ensures before { (k : ℕ) (d : Stretch) → k < result → (slice_index_or items.now k d).end ≤ at }
    ensures behind { (d : Stretch) → result < length items.now → at < (slice_index_or items.now result d).end }
{
    if is_stretch_at(items, at, near) {
        return near;
    }
    if near < items.len() && is_stretch_at(items, at, near + 1) {
        return near + 1;
    }
    stretch_by_search(items, at)
}

/// The part that has a place of the stream. Part `near` and the next are tried first; it becomes the number of this one.
pub(crate) fn stretch_of(items: &[Stretch], end: u64, at: u64, near: &mut usize) -> Stretch
    requires joined { AreJoined 0 items.now end }
    requires within { at < end }
    ensures begins { result.end ≤ at + result.part.len }
    ensures behind { at < result.end }
    ensures fits { result.part.at + result.part.len < 2 ^ 64 }
    ensures inside { (size : ℕ) → ArePartsInside size (parts_of items.now) → result.part.at + result.part.len ≤ size }
    ensures bytes { (f : List ℕ) (n : ℕ) → ArePartsInside (length f) (parts_of items.now) → at + n ≤ result.end →
        bytes_at n (stream_of f (parts_of items.now)) at ≡ bytes_at n f (result.part.at + (result.part.len - (result.end - at))) }
    ensures range { (len : ℕ) → 0 < len → parts_between (parts_of items.now) at len
        ≡ front_part result at len ∷ parts_between (parts_of items.now) (at + front_len result at len) (len - front_len result at len) }
{
    let k = stretch_at(items, at, *near);
    *near = k;
    items[k]
}

/// The first part of the range of `len` bytes from a place of the stream on. Part `near` and the next are tried first; it becomes
/// the number of the part that has it.
pub(crate) fn front_of(items: &[Stretch], end: u64, at: u64, len: u64, near: &mut usize) -> Part
    requires joined { AreJoined 0 items.now end }
    requires some { 0 < len }
    requires within { at + len ≤ end }
    ensures some { 0 < result.len }
    ensures most { result.len ≤ len }
    ensures fits { result.at + result.len < 2 ^ 64 }
    ensures inside { (size : ℕ) → ArePartsInside size (parts_of items.now) → result.at + result.len ≤ size }
    ensures bytes { (f : List ℕ) → ArePartsInside (length f) (parts_of items.now) →
        bytes_at result.len (stream_of f (parts_of items.now)) at ≡ bytes_at result.len f result.at }
    ensures range { parts_between (parts_of items.now) at len
        ≡ result ∷ parts_between (parts_of items.now) (at + result.len) (len - result.len) }
{
    let stretch = stretch_of(items, end, at, near);
    let left = stretch.end - at;
    Part {
        at: stretch.part.at + (stretch.part.len - left),
        len: left.min(len),
    }
}

/// Fills the front of the buffer with the bytes of the stream from `at` on, as many as one part has, and answers how
/// many.
fn front_in<P: Span>(
    span: &mut P,
    items: &[Stretch],
    end: u64,
    at: u64,
    buf: &mut [u8],
    near: &mut usize,
) -> Result<usize, Stop>
    requires joined { AreJoined 0 items.now end }
    requires inside { ArePartsInside (P.size span.old) (parts_of items.now) }
    requires some { 0 < length buf.old }
    requires within { at + length buf.old ≤ end }
    ensures reads { Looks P.Span span.old span.new P.may_want result (λ file n. buf.new ≡ bytes_at n (stream_of file (parts_of items.now)) at ++ drop n buf.old) }
    ensures some { IfOk result (λ n. 0 < n) }
    ensures most { IfOk result (λ n. n ≤ length buf.old) }
{
    let part = front_of(items, end, at, buf.len() as u64, near);
    let count = part.len as usize;
    span.fill(part.at, &mut buf[..count])?;
    Ok(count)
}

/// Where the `count` bytes of the stream from `at` on stand in the file, where part `near` has them all.
#[inline(always)]
fn place_near(items: &[Stretch], end: u64, at: u64, count: u64, near: usize) -> Option<u64>
    requires joined { AreJoined 0 items.now end }
    ensures inside { (size : ℕ) → ArePartsInside size (parts_of items.now) → IfSome result (λ place. place + count ≤ size) }
    ensures bytes { (f : List ℕ) → ArePartsInside (length f) (parts_of items.now) →
        IfSome result (λ place. bytes_at count (stream_of f (parts_of items.now)) at ≡ bytes_at count f place) }
{
    if near >= items.len() {
        return None;
    }
    let stretch = items[near];
    if stretch.end <= at {
        return None;
    }
    let left = stretch.end - at;
    if left < count || stretch.part.len < left {
        return None;
    }
    Some(stretch.part.at + (stretch.part.len - left))
}

/// The same, where part `near` or the next has them all. `near` becomes the number of that part.
#[inline(always)]
fn place_here(items: &[Stretch], end: u64, at: u64, count: u64, near: &mut usize) -> Option<u64>
    requires joined { AreJoined 0 items.now end }
    ensures inside { (size : ℕ) → ArePartsInside size (parts_of items.now) → IfSome result (λ place. place + count ≤ size) }
    ensures bytes { (f : List ℕ) → ArePartsInside (length f) (parts_of items.now) →
        IfSome result (λ place. bytes_at count (stream_of f (parts_of items.now)) at ≡ bytes_at count f place) }
{
    if let Some(place) = place_near(items, end, at, count, *near) {
        return Some(place);
    }
    let next = near.saturating_add(1);
    let place = place_near(items, end, at, count, next)?;
    *near = next;
    Some(place)
}

/// As `fill_in`, part by part.
#[inline(never)]
fn fill_parts<P: Span>(
    span: &mut P,
    items: &[Stretch],
    end: u64,
    at: u64,
    buf: &mut [u8],
    near: &mut usize,
) -> Result<(), Stop>
    requires joined { AreJoined 0 items.now end }
    requires inside { ArePartsInside (P.size span.old) (parts_of items.now) }
    requires within { at + length buf.old ≤ end }
    ensures reads { Looks P.Span span.old span.new P.may_want result (λ file _. buf.new ≡ bytes_at (length buf.old) (stream_of file (parts_of items.now)) at) }
{
    let mut done = 0;
    while done < buf.len() {
        done += front_in(span, items, end, at + done as u64, &mut buf[done..], near)?;
    }
    Ok(())
}

/// Fills the buffer with the bytes of the stream from `at` on. Part `near` and the next are tried first; it becomes the number
/// of the part that was read last. The span is asked once where one of these has all the bytes.
#[inline]
pub(crate) fn fill_in<P: Span>(
    span: &mut P,
    items: &[Stretch],
    end: u64,
    at: u64,
    buf: &mut [u8],
    near: &mut usize,
) -> Result<(), Stop>
    requires joined { AreJoined 0 items.now end }
    requires inside { ArePartsInside (P.size span.old) (parts_of items.now) }
    requires within { at + length buf.old ≤ end }
    ensures reads { Looks P.Span span.old span.new P.may_want result (λ file _. buf.new ≡ bytes_at (length buf.old) (stream_of file (parts_of items.now)) at) }
{
    if let Some(place) = place_here(items, end, at, buf.len() as u64, near) {
        return span.fill(place, buf);
    }
    fill_parts(span, items, end, at, buf, near)
}

/// Whether each part stands in the file at its place in the stream or behind it.
pub(crate) fn are_behind(items: &[Stretch], end: u64) -> bool
    requires { AreJoined 0 items.now end }
    ensures { IsTrue result ↔ AreBehind 0 (parts_of items.now) }
{
    for item in items {
        if item.end > item.part.at + item.part.len {
            return false;
        }
    }
    true
}

/// As `number_in`, where the bytes may lie in several parts: they are read into a word.
#[cold]
fn number_across<P: Span>(
    span: &mut P,
    items: &[Stretch],
    end: u64,
    at: u64,
    count: u8,
    near: &mut usize,
) -> Result<u64, Stop>
    requires joined { AreJoined 0 items.now end }
    requires inside { ArePartsInside (P.size span.old) (parts_of items.now) }
    requires some { 0 < count }
    requires most { count ≤ 8 }
    requires within { at + count ≤ end }
    ensures reads { Looks P.Span span.old span.new P.may_want result (λ file n. n ≡ le_number (bytes_at count (stream_of file (parts_of items.now)) at)) }
    ensures fits { IfOk result (λ n. n < 256 ^ count) }
{
    let mut word = [0u8; 8];
    let bytes = &mut word[..count as usize];
    fill_parts(span, items, end, at, bytes, near)?;
    Ok(number_of(bytes))
}

/// As `number_in`, where the bytes may lie in any part.
#[inline(never)]
fn number_far<P: Span>(
    span: &mut P,
    items: &[Stretch],
    end: u64,
    at: u64,
    count: u8,
    near: &mut usize,
) -> Result<u64, Stop>
    requires joined { AreJoined 0 items.now end }
    requires inside { ArePartsInside (P.size span.old) (parts_of items.now) }
    requires some { 0 < count }
    requires most { count ≤ 8 }
    requires within { at + count ≤ end }
    ensures reads { Looks P.Span span.old span.new P.may_want result (λ file n. n ≡ le_number (bytes_at count (stream_of file (parts_of items.now)) at)) }
    ensures fits { IfOk result (λ n. n < 256 ^ count) }
{
    let part = front_of(items, end, at, count as u64, near);
    if part.len == count as u64 {
        return span.number(part.at, count);
    }
    number_across(span, items, end, at, count, near)
}

/// The number in the `count` bytes of the stream from `at` on. Part `near` and the next are tried first; it becomes the
/// number of the part that was read last. The span is asked for the number where one of these has all its bytes.
#[inline(always)]
pub(crate) fn number_in<P: Span>(
    span: &mut P,
    items: &[Stretch],
    end: u64,
    at: u64,
    count: u8,
    near: &mut usize,
) -> Result<u64, Stop>
    requires joined { AreJoined 0 items.now end }
    requires inside { ArePartsInside (P.size span.old) (parts_of items.now) }
    requires some { 0 < count }
    requires most { count ≤ 8 }
    requires within { at + count ≤ end }
    ensures reads { Looks P.Span span.old span.new P.may_want result (λ file n. n ≡ le_number (bytes_at count (stream_of file (parts_of items.now)) at)) }
    ensures fits { IfOk result (λ n. n < 256 ^ count) }
{
    if let Some(place) = place_here(items, end, at, count as u64, near) {
        return span.number(place, count);
    }
    number_far(span, items, end, at, count, near)
}
