ghost use Rattle.std.specs.Prelude.{◌≡◌, ◌+◌, ◌-◌, ◌%◌, ◌≤◌, ◌<◌, ◌^◌, ◌↔◌, ℕ, List, [], ◌∷◌, ◌++◌, length, take, drop, true, All, IsTrue, IfSome, IfOk, OnOk, OnErr};
ghost use Rattle.mdf_format.specs.Number.{bytes_at, patched};
ghost use Rattle.mdf_format.specs.Cause.{HasCause};
ghost use Rattle.mdf_disk.specs.Crash.{Adds};
ghost use Rattle.mdf_disk.specs.Goes.{GoesOn};
ghost use Rattle.mdf_layout.specs.Written.{AreApart};
ghost use Rattle.mdf_layout.specs.Stored.{IsStored};
ghost use Rattle.mdf_layout.specs.Record.{SampleFits, encoded_size};
ghost use Rattle.mdf_layout.specs.Behind.{first_id, IsEncodingBehind};
ghost use Rattle.mdf_layout.specs.Next.{AreNext};
ghost use Rattle.mdf_layout.specs.declared.sample.Sample.{Sample};
ghost use Rattle.mdf_seal.specs.Seal.{IsKept};
ghost use Rattle.mdf_format.specs.Form.{lead};
ghost use Rattle.mdf_gate.specs.Written.{block_header, lead_bytes, list_block, payload_of, room_of};
ghost use Rattle.mdf_gate.specs.Images.{IsStage};
ghost use Rattle.mdf_gate.specs.Appended.{HasOpened, HasStaged};

use crate::stage::write_block;
use mdf_disk::Disk;
use mdf_format::Form;
use mdf_layout::{NextValues, Sample, Shapes};
use mdf_num::{Failed, Memory, align8, put_u64};
use std::alloc::Global;
use std::marker::Model;

/// How many bytes of a list block follow its first one, and the first byte of the data block behind it.
const LEAD: usize = 56;

/// How many bytes of the header of a data block follow its first one.
const HEADER: usize = 23;

/// Where the data stand in a buffer.
const DATA: usize = LEAD + HEADER;

/// How many bytes at most follow the data, up to the next multiple of 8 and on it.
const BEHIND: usize = 8;

/// The buffer of a unit: the data of at most `limit` bytes of its data block (DTBLOCK), with room before them for what
/// follows the first byte of the unit in either form, a list block (DLBLOCK) and the header of the data block, and behind
/// them for the 1 to 8 zero bytes up to the next place and on it. It is reserved once.
#[derive(Debug, Drop)]
pub struct Block {
    limit: u32,
    used: u32,
    bytes: Vec<u8>,
}

impl Model for Block {
    ghost use Rattle.std.specs.Prelude.{◌≡◌, ◌+◌, ◌-◌, ◌≤◌, length};
    ghost use Rattle.mdf_gate.specs.Gated.{Buffered};
    ghost use Rattle.mdf_format.specs.Number.{bytes_at};

    ghost Value = { Buffered };

    ghost view = { λ b. record { limit = b.limit; bytes = bytes_at b.used b.bytes.items 79 } };

    ghost invariant = { λ b. (b.used ≤ b.limit) × (length b.bytes.items ≡ b.limit + 87) };
}

/// Writes bytes over those from a place on.
fn put(bytes: &mut [u8], at: usize, part: &[u8])
    requires { at + length part.now ≤ length bytes.old }
    ensures { bytes.new ≡ patched at part.now bytes.old }
{
    bytes[at..at + part.len()].copy_from_slice(part);
}

/// Writes the header of a data block but for its first byte: `#DT`, 4 reserved bytes, the length of the block and no links.
fn put_header(bytes: &mut [u8], count: u32)
    requires { 79 ≤ length bytes.old }
    ensures { bytes.new ≡ patched 56 (drop 1 (block_header count)) bytes.old }
{
    put(bytes, LEAD, b"#DT\0\0\0\0");
    put_u64(bytes, LEAD + 7, 24 + u64::from(count));
    put_u64(bytes, LEAD + 15, 0);
}

/// Writes a list block but for its first byte, and the first byte of the data block behind it.
fn put_list(bytes: &mut [u8], place: u64, next: u64, offset: u64)
    requires room { 56 ≤ length bytes.old }
    requires small { place < 2 ^ 62 }
    ensures { bytes.new ≡ patched 0 (drop 1 (list_block place next offset) ++ 35 ∷ []) bytes.old }
{
    put(bytes, 0, b"#DL\0\0\0\0");
    put_u64(bytes, 7, 56);
    put_u64(bytes, 15, 2);
    put_u64(bytes, 23, next);
    put_u64(bytes, 31, place + 56);
    put(bytes, 39, b"\0\0\0\0\x01\0\0\0");
    put_u64(bytes, 47, offset);
    put(bytes, 55, b"#");
}

/// How many bytes the unit of a block with so many bytes of data has, up to the next place.
pub(crate) fn room_of(form: Form, count: u32) -> u64
    ensures room { result ≡ room_of form count }
    ensures on_eight { result % 8 ≡ 0 }
    ensures more { count < result }
    ensures few { result ≤ count + 88 }
{
    align8(form.lead() + 24 + u64::from(count))
}

/// Writes what stands before the data block in the form, but for the first byte of the unit.
fn put_lead(bytes: &mut [u8], form: Form, place: u64, offset: u64, count: u32)
    requires room { 79 ≤ length bytes.old }
    requires small { place < 2 ^ 62 }
    ensures lead { bytes_at (lead form) bytes.new (56 - lead form) ≡ take (lead form) (drop 1 (lead_bytes form place offset count ++ block_header count)) }
    ensures behind { drop 56 bytes.new ≡ drop 56 bytes.old }
    ensures length { length bytes.new ≡ length bytes.old }
{
    match form {
        Form::Bare => {}
        Form::Listed => put_list(bytes, place, place + room_of(form, count), offset),
    }
}

/// Writes what stands before so many bytes of data, and zero bytes behind them. The data stay.
fn frame(bytes: &mut [u8], form: Form, place: u64, offset: u64, used: u32)
    requires room { 87 + used ≤ length bytes.old }
    requires small { place < 2 ^ 62 }
    ensures payload { bytes_at (room_of form used) bytes.new (56 - lead form) ≡ payload_of form place offset (bytes_at used bytes.old 79) }
    ensures data_bytes { bytes_at used bytes.new 79 ≡ bytes_at used bytes.old 79 }
    ensures length { length bytes.new ≡ length bytes.old }
{
    put_lead(bytes, form, place, offset, used);
    put_header(bytes, used);
    put(bytes, DATA + used as usize, &[0; BEHIND]);
}

/// Writes the records of a sample over the bytes from a place on, and answers their length.
fn put_records(
    bytes: &mut [u8],
    at: usize,
    next: &NextValues,
    shapes: &Shapes,
    sample: &Sample,
) -> usize
    requires fits { SampleFits shapes.now sample.now }
    requires ids { first_id shapes.now (length shapes.now) ≤ 255 }
    requires apart { All (λ layout. AreApart layout.rows) shapes.now }
    requires stored { All (λ layout. All IsStored layout.rows) shapes.now }
    requires next { (before : List Sample) × AreNext shapes.now before next.now }
    requires room { at + encoded_size shapes.now sample.now ≤ length bytes.old }
    ensures size { result ≡ encoded_size shapes.now sample.now }
    ensures before { take at bytes.new ≡ take at bytes.old }
    ensures record { (before : List Sample) → AreNext shapes.now before next.now
        → IsEncodingBehind shapes.now before (bytes_at result bytes.new at) sample.now }
    ensures length { length bytes.new ≡ length bytes.old }
{
    next.encode(shapes, sample, &mut bytes[at..])
}

impl Block {
    /// A buffer for blocks of at most `limit` bytes of data. It takes 87 bytes more than that.
    ///
    /// # Errors
    /// Want of memory.
    pub fn with_limit(alloc: Global, limit: u32) -> Result<Block, Memory>
        requires { 1 ≤ limit }
        ensures limit { IfOk result (λ block. block.limit ≡ limit) }
        ensures none { IfOk result (λ block. block.bytes ≡ []) }
    {
        let bytes = Vec::from_elem(alloc, 0, DATA + limit as usize + BEHIND)?;
        Ok(Block {
            limit,
            used: 0,
            bytes,
        })
    }

    /// Adds the records of a sample at the end, and answers how many bytes they have. They are its records behind each
    /// history behind which these values come next. It takes no memory.
    pub fn put_sample(&mut self, next: &NextValues, shapes: &Shapes, sample: &Sample) -> u64
        requires fits { SampleFits shapes.now sample.now }
        requires ids { first_id shapes.now (length shapes.now) ≤ 255 }
        requires apart { All (λ layout. AreApart layout.rows) shapes.now }
        requires stored { All (λ layout. All IsStored layout.rows) shapes.now }
        requires next { (before : List Sample) × AreNext shapes.now before next.now }
        requires room { length self.old.bytes + encoded_size shapes.now sample.now ≤ self.old.limit }
        ensures size { result ≡ encoded_size shapes.now sample.now }
        ensures record { (before : List Sample) → AreNext shapes.now before next.now
            → (added : List ℕ) × (self.new.bytes ≡ self.old.bytes ++ added) × IsEncodingBehind shapes.now before added sample.now }
        ensures limit { self.new.limit ≡ self.old.limit }
    {
        let at = DATA + self.used as usize;
        let size = put_records(&mut self.bytes, at, next, shapes, sample);
        self.used += size as u32;
        size as u64
    }

    /// How many bytes of data it has.
    pub fn len(&self) -> u32
        ensures len { result ≡ length self.now.bytes }
        ensures within { length self.now.bytes ≤ self.now.limit }
    {
        self.used
    }

    pub fn is_empty(&self) -> bool
        ensures { IsTrue result ↔ (self.now.bytes ≡ []) }
    {
        self.as_slice().is_empty()
    }

    /// How many bytes of data it holds at most.
    pub fn limit(&self) -> u32
        ensures limit { result ≡ self.now.limit }
        ensures within { length self.now.bytes ≤ self.now.limit }
    {
        self.limit
    }

    pub fn as_slice(&self) -> &[u8]
        ensures { result.now ≡ self.now.bytes }
    {
        &self.bytes[DATA..DATA + self.used as usize]
    }

    /// Drops all data. It keeps the buffer.
    pub fn clear(&mut self)
        ensures bytes { self.new.bytes ≡ [] }
        ensures limit { self.new.limit ≡ self.old.limit }
    {
        self.used = 0;
    }

    /// Writes the unit of these data at a place, which is the last of a file that is kept, behind so many bytes of data in the
    /// units before it. The data stay.
    pub(crate) fn write<D: Disk>(
        &mut self,
        disk: &mut D,
        form: Form,
        place: u64,
        offset: u64,
    ) -> Result<(), Failed>
        requires attached { D.attached disk.old ≡ true }
        requires small { place < 2 ^ 62 }
        requires ends { IfSome (D.content disk.old) (λ file. length file ≡ place + 1) }
        ensures same { self.new ≡ self.old }
        ensures ok { OnOk result (HasOpened D.Disk place (payload_of form place offset self.old.bytes) disk.old disk.new) }
        ensures err { OnErr result (HasStaged D.Disk place (payload_of form place offset self.old.bytes) disk.old disk.new) }
        ensures any_moment { (kept : List ℕ) → IsKept (D.content disk.old) (D.story disk.old) kept → length kept ≡ place + 1
            → Adds (D.story disk.old) (D.story disk.new) (IsStage place kept (payload_of form place offset self.old.bytes)) }
        ensures goes_on { GoesOn D.Disk disk.old disk.new }
        ensures few { IfSome (D.story disk.old) (λ _. D.moment disk.new ≤ D.moment disk.old + 4) }
        ensures cause { HasCause (D.faults disk.old) (D.faults disk.new) result }
    {
        let begin = LEAD - form.lead() as usize;
        let end = begin + room_of(form, self.used) as usize;
        frame(&mut self.bytes, form, place, offset, self.used);
        write_block(disk, place, &self.bytes[begin..end])
    }
}
