//! A book of two groups, whose records have 8 bytes behind the id, so that a block of 9 bytes holds one.
ghost use Rattle.std.specs.Prelude.{◌≡◌, ◌≤◌, true, [], All, IfOk, length};
ghost use Rattle.mdf_layout.specs.Stored.{IsStored};
ghost use Rattle.mdf_layout.specs.Written.{AreApart};
ghost use Rattle.mdf_layout.specs.Record.{SampleFits, encoded_size};
ghost use Rattle.mdf_gate.specs.Gated.{IsRecordingHead};
ghost use Rattle.book_owned.specs.Begun.{IsNewFile};
ghost use Rattle.book_shared_tests.specs.Words.{word_layout, word_layouts, AreGroups};

use crate::gates::{Gate, Slow, SlowView};
use book_owned::{Book, NoView};
use mdf_disk::{Disk, MemoryDisk, Role};
use mdf_gate::{GatedFile, opened};
use mdf_layout::{Entry, FieldKind, FieldRow, Sample, Shape, Shapes, Value, shape_of};
use mdf_num::{Bytes, Memory, Rows};
use std::alloc::Global;
use std::process::Abort;
use std::sync::Arc;
use std::test::Fail;

// A head without history: the header at 64, the data group at 168, and the first place at 232. All other bytes are 0.
const HEAD: [(usize, &[u8]); 13] = [
    (0, b"UnFinMF 4.10    mdf4rec "),
    (28, b"\x9A\x01"),
    (60, b"\x21\x00\x01\x00"),
    (64, b"##HD"),
    (72, b"\x68"),
    (80, b"\x06"),
    (88, b"\xA8"),
    (136, b"\x15\xCD\x5B\x07"),
    (168, b"##DG"),
    (176, b"\x40"),
    (184, b"\x04"),
    (208, b"\xE8"),
    (224, b"\x01"),
];

fn head() -> [u8; 232] {
    let mut head = [0; 232];
    for (at, part) in HEAD {
        if at <= 232 && part.len() <= 232 - at {
            head[at..at + part.len()].copy_from_slice(part);
        }
    }
    head
}

/// Whether it is a recording that ends at its first place.
fn is_head(bytes: &[u8]) -> bool
    requires { length bytes.now ≤ 1000 }
    ensures { result ≡ true → IsRecordingHead bytes.now }
{
    match opened(bytes) {
        Ok(count) => count.first == bytes.len() as u64,
        Err(_) => false,
    }
}

/// The disk of the tests.
pub type TestDisk = Slow<MemoryDisk>;

/// A recording of that head, on a disk whose syncs wait at the gate.
pub fn recording<R: AllocGlobal + Abort>(
    rt: &R,
    gate: Arc<Gate>,
) -> Result<GatedFile<TestDisk>, Fail>
    ensures { IfOk result (λ file. IsNewFile ⟦<TestDisk as Disk>⟧ file) }
{
    let head = head();
    assert!(rt; is_head(&head));
    let mut disk = Slow {
        disk: MemoryDisk::new(rt.alloc()),
        gate,
    };
    disk.attach(Bytes::from_slice(rt.alloc(), b"file")?, Role::Create)?;
    match GatedFile::create(disk, &head) {
        Ok(file) => Ok(file),
        Err((failed, _)) => Err(failed.into()),
    }
}

/// A channel of 64-bit unsigned numbers.
fn word(alloc: Global) -> Result<Rows<FieldRow>, Memory>
    ensures stored { IfOk result (λ rows. All IsStored rows) }
    ensures few { IfOk result (λ rows. length rows ≤ 64) }
{
    let mut rows = Rows::empty(alloc);
    rows.push(FieldRow {
        kind: FieldKind::Unsigned,
        big: false,
        byte: 0,
        bit: 0,
        bits: 64,
        inval: None,
        all_invalid: false,
    })?;
    Ok(rows)
}

/// The layout of these channels, which share no bit, in records of 8 bytes.
fn shape<R: AllocGlobal + Abort>(rt: &R, rows: &Rows<FieldRow>) -> Result<Shape, Fail>
    requires few { length rows.now ≤ 64 }
    ensures is { IfOk result (λ shape. shape ≡ word_layout rows.now) }
    ensures apart { IfOk result (λ shape. AreApart shape.rows) }
{
    let shape = shape_of(rt.alloc(), rows, 8, 0)?;
    assert!(rt; shape.disjoint());
    Ok(shape)
}

/// The list of this layout, once for each of two groups.
fn shapes<R: AllocGlobal + Abort>(rt: &R, rows: &Rows<FieldRow>) -> Result<Shapes, Fail>
    requires stored { All IsStored rows.now }
    requires few { length rows.now ≤ 64 }
    ensures is { IfOk result (λ shapes. shapes ≡ word_layouts rows.now) }
    ensures groups { IfOk result AreGroups }
{
    let mut shapes = Shapes::empty(rt.alloc());
    shapes.push(shape(rt, rows)?)?;
    shapes.push(shape(rt, rows)?)?;
    Ok(shapes)
}

/// The list of the layouts of the two groups.
pub fn listed<R: AllocGlobal + Abort>(rt: &R) -> Result<Shapes, Fail>
    ensures { IfOk result AreGroups }
{
    let rows = word(rt.alloc())?;
    shapes(rt, &rows)
}

/// That list twice: once to check samples by, and once for a book.
fn listed_twice<R: AllocGlobal + Abort>(rt: &R) -> Result<(Shapes, Shapes), Fail>
    ensures same { IfOk result (λ both. both.1 ≡ both.0) }
    ensures groups { IfOk result (λ both. AreGroups both.1) }
{
    let rows = word(rt.alloc())?;
    let checked_by = shapes(rt, &rows)?;
    Ok((checked_by, shapes(rt, &rows)?))
}

/// The view of the tests.
pub type TestView = SlowView<NoView>;

/// The book of the tests.
pub type TestBook = Book<TestDisk, TestView>;

/// A book over a new file, on a disk whose syncs wait at the gate, and with a view whose publishings do.
fn book<R: AllocGlobal + Abort>(rt: &R, shapes: Shapes, gate: Arc<Gate>) -> Result<TestBook, Fail>
    requires { AreGroups shapes }
    ensures layouts { IfOk result (λ book. book.terms.layouts ≡ shapes) }
    ensures limit { IfOk result (λ book. book.terms.block_limit ≡ 9) }
    ensures empty { IfOk result (λ book. book.history ≡ []) }
{
    let file = recording(rt, Arc::try_clone(&gate)?)?;
    let view = SlowView {
        view: NoView::new(),
        gate,
    };
    match Book::begin(rt.alloc(), file, shapes, 9, 4096, view) {
        Ok(book) => Ok(book),
        Err((memory, file, _)) => {
            drop(file.into_disk());
            Err(memory.into())
        }
    }
}

/// A book over a new file, on such a disk and with such a view, and the layouts that its samples are checked by.
pub fn checked_book<R: AllocGlobal + Abort>(
    rt: &R,
    gate: Arc<Gate>,
) -> Result<(Shapes, TestBook), Fail>
    ensures layouts { IfOk result (λ both. both.1.terms.layouts ≡ both.0) }
    ensures limit { IfOk result (λ both. both.1.terms.block_limit ≡ 9) }
    ensures empty { IfOk result (λ both. both.1.history ≡ []) }
{
    let (checked_by, listed) = listed_twice(rt)?;
    let book = book(rt, listed, gate)?;
    Ok((checked_by, book))
}

/// A sample of this group and number.
pub fn sample(alloc: Global, group: u16, number: u64) -> Result<Sample, Memory>
    ensures { IfOk result (λ sample. sample.group ≡ group) }
{
    let mut values = Rows::empty(alloc);
    values.push(Entry {
        value: Value::Unsigned(number),
        valid: true,
    })?;
    Ok(Sample { group, values })
}

/// Whether the sample is one of these layouts, and its record has room in an empty block.
pub fn fits(shapes: &Shapes, sample: &Sample) -> bool
    ensures fits { result ≡ true → SampleFits shapes.now sample.now }
    ensures size { result ≡ true → encoded_size shapes.now sample.now ≤ 9 }
{
    let Some(shape) = shapes.get(sample.group as u64) else {
        return false;
    };
    shape.fits(sample) && shapes.encoded_size(sample) <= 9
}
