ghost use Rattle.std.specs.Prelude.{◌≡◌, ◌≤◌, true, None, List, [], ◌∷◌, All, IfOk, length};
ghost use Rattle.mdf_layout.specs.declared.sample.Sample.{Sample};
ghost use Rattle.mdf_layout.specs.Layout.{Layout};
ghost use Rattle.mdf_layout.specs.Record.{SampleFits, encoded_size};
ghost use Rattle.mdf_layout.specs.Written.{AreApart};
ghost use Rattle.mdf_layout.specs.Stored.{IsStored};
ghost use Rattle.mdf_gate.specs.Gated.{IsRecordingHead};
ghost use Rattle.book_owned.specs.Begun.{IsNewFile};

use crate::disks::{failing_at, image, name};
use crate::layouts::{sample, word_row};
use crate::views::WantsOnce;
use book_owned::{Append, Book, Marks, NoView, Shown};
use mdf_disk::{Disk, MemoryDisk, Role};
use mdf_format::Form;
use mdf_gate::{GateFault, GatedFile, Opened, opened};
use mdf_layout::{FieldRow, Sample, Shape, ShapeFault, Shapes, shape_of};
use mdf_num::{Bytes, Failed, Memory, Rows};
use std::alloc::Global;
use std::process::Abort;
use std::sync::Wait;
use std::test::Fail;
use std::thread::Threads;
use test_rig::is_told;

// A head without history: the header at 64, the data group at 168, and the first place at 232. All other bytes are 0.
const HEAD: &[(usize, &[u8])] = &[
    (0, b"UnFinMF 4.10    mdf4rec "),
    (28, b"\x9A\x01"),
    (64, b"##HD"),
    (72, b"\x68"),
    (80, b"\x06"),
    (88, b"\xA8"),
    (136, b"\x15\xCD\x5B\x07"),
    (168, b"##DG"),
    (176, b"\x40"),
    (184, b"\x04"),
    (208, b"\xE8"),
    (224, b"\x01"),
];

fn head(form: Form) -> [u8; 232] {
    let mut head = [0; 232];
    for (at, part) in HEAD {
        if *at <= 232 && part.len() <= 232 - *at {
            head[*at..*at + part.len()].copy_from_slice(*part);
        }
    }
    head[60..62].copy_from_slice(&form.standard_word().to_le_bytes());
    head[62..64].copy_from_slice(&form.custom_word().to_le_bytes());
    head
}

/// Whether it is a recording that ends at its first place.
fn is_head(bytes: &[u8]) -> bool
    requires { length bytes.now ≤ 1000 }
    ensures { result ≡ true → IsRecordingHead bytes.now }
{
    match opened(bytes) {
        Ok(count) => count.first == bytes.len() as u64,
        Err(_) => false,
    }
}

/// A recording of that head on this disk.
fn created(
    name: Bytes,
    mut disk: MemoryDisk,
    head: &[u8; 232],
) -> Result<GatedFile<MemoryDisk>, Failed>
    requires asked { ⟦<MemoryDisk as Disk>⟧.asked disk ≡ None }
    requires head { IsRecordingHead head.now }
    ensures { IfOk result (λ file. IsNewFile ⟦<MemoryDisk as Disk>⟧ file) }
{
    disk.attach(name, Role::Create)?;
    match GatedFile::create(disk, head) {
        Ok(file) => Ok(file),
        Err((failed, _)) => Err(failed),
    }
}

/// A recording of that head in this form, on a disk that fails at these calls.
fn file_of_form<R: AllocGlobal + Abort>(
    rt: &R,
    form: Form,
    failing: &[u64],
) -> Result<GatedFile<MemoryDisk>, Fail>
    ensures { IfOk result (λ file. IsNewFile ⟦<MemoryDisk as Disk>⟧ file) }
{
    let head = head(form);
    assert!(rt; is_head(&head));
    let name = name(rt.alloc())?;
    let disk = failing_at(rt.alloc(), failing)?;
    Ok(created(name, disk, &head)?)
}

/// The same in form 1.
pub fn file_failing_at<R: AllocGlobal + Abort>(
    rt: &R,
    failing: &[u64],
) -> Result<GatedFile<MemoryDisk>, Fail>
    ensures { IfOk result (λ file. IsNewFile ⟦<MemoryDisk as Disk>⟧ file) }
{
    file_of_form(rt, Form::Bare, failing)
}

/// A channel of 64-bit unsigned numbers.
fn one_row(alloc: Global) -> Result<Rows<FieldRow>, Memory>
    ensures stored { IfOk result (λ rows. All IsStored rows) }
    ensures few { IfOk result (λ rows. length rows ≤ 128) }
{
    let mut rows = Rows::empty(alloc);
    rows.push(word_row(0))?;
    Ok(rows)
}

/// The layout of these channels, which share no bit, in records of 8 bytes.
fn shape_of_rows<R: AllocGlobal + Abort>(rt: &R, rows: &Rows<FieldRow>) -> Result<Shape, ShapeFault>
    ensures is { IfOk result (λ shape. shape ≡ record { rows = rows.now; data_bytes = 8; inval_bytes = 0 }) }
    ensures disjoint { IfOk result (λ shape. AreApart shape.rows) }
{
    let shape = shape_of(rt.alloc(), rows, 8, 0)?;
    assert!(rt; shape.disjoint());
    Ok(shape)
}

/// The list of just this layout.
fn listed(alloc: Global, shape: Shape) -> Result<Shapes, Memory>
    ensures { IfOk result (λ shapes. shapes ≡ shape ∷ []) }
{
    let mut shapes = Shapes::empty(alloc);
    shapes.push(shape)?;
    Ok(shapes)
}

/// The layout of a channel of 64 bits, and the list of just this layout.
pub fn shapes<R: AllocGlobal + Abort>(rt: &R) -> Result<(Shape, Shapes), Fail>
    ensures list { IfOk result (λ shapes. shapes.1 ≡ shapes.0 ∷ []) }
    ensures few { IfOk result (λ shapes. length shapes.0.rows ≤ 128) }
    ensures disjoint { IfOk result (λ shapes. AreApart shapes.0.rows) }
    ensures stored { IfOk result (λ shapes. All IsStored shapes.0.rows) }
{
    let rows = one_row(rt.alloc())?;
    let shapes = listed(rt.alloc(), shape_of_rows(rt, &rows)?)?;
    Ok((shape_of_rows(rt, &rows)?, shapes))
}

/// A recording: which calls of the disk fail, the limits of a block and of the session in bytes, and its tasks, a sample
/// of this number or a flush.
struct Recording {
    form: Form,
    failing: &'static [u64],
    block: u32,
    session: u64,
    tasks: &'static [Option<u64>],
}

/// A book of this layout over a new file, with these limits in bytes and this view.
fn begun<R: AllocGlobal + Abort, V: Shown + Drop>(
    rt: &R,
    file: GatedFile<MemoryDisk>,
    shapes: Shapes,
    block: u32,
    session: u64,
    view: V,
) -> Result<Book<MemoryDisk, V>, Fail>
    requires created { IsNewFile ⟦<MemoryDisk as Disk>⟧ file }
    requires one { (shape : Layout) × (shapes ≡ shape ∷ []) × (length shape.rows ≤ 128) × AreApart shape.rows × All IsStored shape.rows }
    requires nothing_shown { (V.shows view []) × (V.count view ≡ 0) }
    requires nothing_handed { (handed : List Sample) → V.hands view handed → handed ≡ [] }
    ensures { IfOk result (λ book. book.terms.layouts ≡ shapes) }
{
    assert!(rt; 1 <= block && block <= 16_777_216 && session <= 268_435_456);
    match Book::begin(rt.alloc(), file, shapes, block, session, view) {
        Ok(book) => Ok(book),
        Err((memory, file, _)) => {
            drop(file.into_disk());
            Err(memory.into())
        }
    }
}

/// Whether the sample is one of this layout, and its record has room in a block.
pub fn is_admitted<V: Shown>(shape: &Shape, book: &Book<MemoryDisk, V>, sample: &Sample) -> bool
    requires { book.now.terms.layouts ≡ shape.now ∷ [] }
    ensures fits { result ≡ true → SampleFits book.now.terms.layouts sample.now }
    ensures size { result ≡ true → encoded_size book.now.terms.layouts sample.now ≤ book.now.terms.block_limit }
{
    sample.group == 0 && shape.fits(sample) && book.size_of(sample) <= book.block_limit()
}

/// A sample of this number, whose record has room in a block.
fn sample_of<R: AllocGlobal + Abort, V: Shown>(
    rt: &R,
    shape: &Shape,
    book: &Book<MemoryDisk, V>,
    number: u64,
) -> Result<Sample, Fail>
    requires { book.now.terms.layouts ≡ shape.now ∷ [] }
    ensures fits { IfOk result (λ sample. SampleFits book.now.terms.layouts sample) }
    ensures size { IfOk result (λ sample. encoded_size book.now.terms.layouts sample ≤ book.now.terms.block_limit) }
{
    let sample = sample(rt.alloc(), &[number])?;
    assert!(rt; is_admitted(shape, book, &sample));
    Ok(sample)
}

/// Appends a sample of this number, or flushes, and tells the answer on a line of its own.
fn step<R, V: Shown<Note = ()>>(
    rt: &R,
    shape: &Shape,
    book: &mut Book<MemoryDisk, V>,
    task: Option<u64>,
    told: &mut String,
) -> Result<(), Fail>
where
    R: AllocGlobal + Abort + Threads + Wait + Sync,
    requires { book.old.terms.layouts ≡ shape.now ∷ [] }
    ensures { book.new.terms ≡ book.old.terms }
{
    match task {
        Some(number) => {
            let sample = sample_of(rt, shape, book, number)?;
            write!(told, "{:?}\n", book.append(rt, sample))?;
        }
        None => write!(told, "{:?}\n", book.flush(rt))?,
    }
    Ok(())
}

/// Does these tasks, and tells the answers.
fn feed<R, V: Shown<Note = ()>>(
    rt: &R,
    shape: &Shape,
    book: &mut Book<MemoryDisk, V>,
    tasks: &[Option<u64>],
) -> Result<String, Fail>
where
    R: AllocGlobal + Abort + Threads + Wait + Sync,
    requires { book.old.terms.layouts ≡ shape.now ∷ [] }
{
    let mut told = String::new(rt.alloc());
    for task in tasks {
        step(rt, shape, book, *task, &mut told)?;
    }
    Ok(told)
}

/// What a book left: how many bytes are pending, the disk, the marks, and how many samples are shown.
#[derive(Drop)]
struct Left {
    pending: u64,
    disk: MemoryDisk,
    marks: Marks,
    shown: u64,
}

fn handed_back<V: Shown + Drop>(book: Book<MemoryDisk, V>) -> Left {
    let pending = book.pending();
    let (disk, _, marks, view) = book.close();
    Left {
        pending,
        disk,
        marks,
        shown: view.shown(),
    }
}

/// The answers of a book, and what it left.
#[derive(Drop)]
struct Ended {
    answers: String,
    left: Left,
}

/// Closes a book that gave these answers.
fn closed<V: Shown + Drop>(
    answers: Result<String, Fail>,
    book: Book<MemoryDisk, V>,
) -> Result<Ended, Fail> {
    let left = handed_back(book);
    Ok(Ended {
        answers: answers?,
        left,
    })
}

/// Does the tasks of a recording, and closes its book.
fn record<R, V: Shown<Note = ()> + Drop>(
    rt: &R,
    recording: &Recording,
    view: V,
) -> Result<Ended, Fail>
where
    R: AllocGlobal + Abort + Threads + Wait + Sync,
    requires nothing_shown { (V.shows view []) × (V.count view ≡ 0) }
    requires nothing_handed { (handed : List Sample) → V.hands view handed → handed ≡ [] }
{
    let (shape, shapes) = shapes(rt)?;
    let file = file_of_form(rt, recording.form, recording.failing)?;
    let mut book = begun(rt, file, shapes, recording.block, recording.session, view)?;
    let answers = feed(rt, &shape, &mut book, recording.tasks);
    closed(answers, book)
}

/// What a session costs at most.
pub const SESSION: u64 = 268_435_456;

// The numbers 1 and 2, a flush, the number 3, and a flush. A record has 9 bytes, so the first block has 24 and 18 bytes
// at 232, the second 24 and 9 at 280, and the last place is 320.
const TWO_BLOCKS: Recording = Recording {
    form: Form::Bare,
    failing: &[],
    block: 65_536,
    session: SESSION,
    tasks: &[Some(1), Some(2), None, Some(3), None],
};

// The same in form 2.
const TWO_LISTED: Recording = Recording {
    form: Form::Listed,
    failing: &[],
    block: 65_536,
    session: SESSION,
    tasks: &[Some(1), Some(2), None, Some(3), None],
};

/// How many blocks of the recording a file has opened: a digit, or `x` for no MDF file.
fn blocks_in(file: &[u8]) -> char
    requires { length file.now ≤ 1000 }
{
    match opened(file) {
        Ok(
            Opened {
                blocks: 0,
                bytes: 0,
                first: 232,
                next: 232,
            },
        ) => '0',
        Ok(
            Opened {
                blocks: 1,
                bytes: 18,
                first: 232,
                next: 280 | 336,
            },
        ) => '1',
        Ok(
            Opened {
                blocks: 2,
                bytes: 27,
                first: 232,
                next: 320 | 432,
            },
        ) => '2',
        Ok(
            Opened {
                blocks: 3,
                bytes: 36,
                first: 232,
                next: 360 | 528,
            },
        ) => '3',
        Err(GateFault::NotMdf) => 'x',
        _ => '?',
    }
}

/// How many blocks of the recording a file has opened, if it is short.
fn blocks_of(file: &[u8]) -> char {
    if file.len() <= 1000 {
        blocks_in(file)
    } else {
        '?'
    }
}

/// Tells what a book left: of each mark the moment and how far it goes, how many samples are shown, how many bytes are
/// pending, how many calls the disk has had, how long the file is and how many blocks it has opened.
fn push_left(line: &mut String, left: &Left) -> Result<(), Fail> {
    for mark in left.marks.rest(0) {
        write!(line, "{}:{} ", mark.moment, mark.through)?;
    }
    let file = left.disk.bytes();
    write!(
        line,
        "shown {} pending {} calls {} bytes {} blocks {}",
        left.shown,
        left.pending,
        left.disk.calls(),
        file.len(),
        blocks_of(file)
    )?;
    Ok(())
}

/// The answers of a recording, and what it left, as text.
fn line(ended: Ended) -> Result<String, Fail> {
    let Ended {
        answers: mut line,
        left,
    } = ended;
    push_left(&mut line, &left)?;
    Ok(line)
}

impl Recording {
    fn told<R>(&self, rt: &R) -> Result<String, Fail>
    where
        R: AllocGlobal + Abort + Threads + Wait + Sync,
    {
        let ended = record(rt, self, NoView::new())?;
        line(ended)
    }
}

// Recordings and what is told of them. Calls 0 to 7 of the disk make the file, which is moment 7, and each hand-over
// makes four. In a block of 18 bytes the third record has no room: the append hands the first two over.
const TOLD: &[(Recording, &str)] = &[
    (
        TWO_BLOCKS,
        "Accepted { place: 0 }\nAccepted { place: 1 }\nDone { through: 2, shown: 2, note: () }\n\
         Accepted { place: 2 }\nDone { through: 3, shown: 3, note: () }\n\
         7:0 11:2 15:3 shown 3 pending 0 calls 16 bytes 321 blocks 2",
    ),
    (
        Recording {
            form: Form::Bare,
            failing: &[],
            block: 65_536,
            session: SESSION,
            tasks: &[None],
        },
        "Done { through: 0, shown: 0, note: () }\n7:0 shown 0 pending 0 calls 8 bytes 233 blocks 0",
    ),
    (
        Recording {
            form: Form::Bare,
            failing: &[],
            block: 65_536,
            session: 290,
            tasks: &[Some(1), Some(2), Some(3), None],
        },
        "Accepted { place: 0 }\nAccepted { place: 1 }\nSessionFull { held: 290, size: 145, limit: 290 }\n\
         Done { through: 2, shown: 2, note: () }\n7:0 11:2 shown 2 pending 0 calls 12 bytes 281 blocks 1",
    ),
    (
        Recording {
            form: Form::Bare,
            failing: &[15],
            block: 65_536,
            session: SESSION,
            tasks: &[Some(1), Some(2), None, Some(3), None, None, Some(4)],
        },
        "Accepted { place: 0 }\nAccepted { place: 1 }\nDone { through: 2, shown: 2, note: () }\n\
         Accepted { place: 2 }\nDiskFault { before: 0, after: 1 }\n\
         Stopped { mark: Mark { moment: 11, through: 2 } }\nStopped { mark: Mark { moment: 11, through: 2 } }\n\
         7:0 11:2 shown 2 pending 9 calls 16 bytes 321 blocks 2",
    ),
    (
        Recording {
            form: Form::Bare,
            failing: &[],
            block: 18,
            session: SESSION,
            tasks: &[Some(1), Some(2), Some(3)],
        },
        "Accepted { place: 0 }\nAccepted { place: 1 }\nAccepted { place: 2 }\n\
         7:0 11:2 shown 2 pending 9 calls 12 bytes 281 blocks 1",
    ),
    (
        Recording {
            form: Form::Bare,
            failing: &[],
            block: 18,
            session: SESSION,
            tasks: &[Some(1), Some(2), Some(3), None],
        },
        "Accepted { place: 0 }\nAccepted { place: 1 }\nAccepted { place: 2 }\nDone { through: 3, shown: 3, note: () }\n\
         7:0 11:2 15:3 shown 3 pending 0 calls 16 bytes 321 blocks 2",
    ),
    (
        Recording {
            form: Form::Bare,
            failing: &[11],
            block: 18,
            session: SESSION,
            tasks: &[Some(1), Some(2), Some(3), Some(4)],
        },
        "Accepted { place: 0 }\nAccepted { place: 1 }\nDiskFault { before: 0, after: 1 }\n\
         Stopped { mark: Mark { moment: 7, through: 0 } }\n7:0 shown 0 pending 18 calls 12 bytes 281 blocks 1",
    ),
];

#[test]
fn recordings_are_told(rt: HostRuntime) -> Result<(), Fail> {
    for (recording, want) in TOLD {
        is_told(recording.told(&rt), *want)?;
    }
    Ok(())
}

// The blocks that a crash inside each call leaves opened, by each of the four picks. The calls are the attach; a write of
// the closed byte and its sync, two writes of what follows and their sync, the first byte and its sync; and for each block
// the write behind its gate and its sync, the gate and its sync.
const LEFT: &str =
    "xxxx xxxx xxxx xxxx xxxx xxxx x0xx x0xx 0000 0000 0101 0101 1111 1111 1212 1212 ";

/// The blocks that a crash inside this call leaves opened, by this pick.
fn left_in(alloc: Global, disk: &MemoryDisk, call: u64, pick: u8) -> Result<char, Memory> {
    Ok(blocks_of(image(alloc, disk, call, pick)?.as_slice()))
}

/// Those of each call, by each pick.
fn left_of(alloc: Global, disk: &MemoryDisk) -> Result<String, Fail> {
    let mut left = String::new(alloc);
    for call in 0..disk.calls() {
        for pick in 0..4 {
            left.push(left_in(alloc, disk, call, pick)?)?;
        }
        left.push(' ')?;
    }
    Ok(left)
}

#[test]
fn crash_in_each_call(rt: HostRuntime) -> Result<(), Fail> {
    for recording in &[TWO_BLOCKS, TWO_LISTED] {
        let ended = record(&rt, recording, NoView::new())?;
        is_told(left_of(rt.alloc(), &ended.left.disk), LEFT)?;
    }
    Ok(())
}

/// Puts a sample of this number where its record has room in the block, and tells the answer, or that it has none.
fn put<R: AllocGlobal + Abort>(
    rt: &R,
    shape: &Shape,
    book: &mut Book<MemoryDisk, NoView>,
    number: u64,
) -> Result<Option<Append>, Fail>
    requires { book.old.terms.layouts ≡ shape.now ∷ [] }
    ensures { book.new.terms ≡ book.old.terms }
{
    let sample = sample_of(rt, shape, book, number)?;
    if book.refusal(&sample).is_some() || book.passes_block(&sample) {
        return Ok(None);
    }
    Ok(Some(book.put(sample)))
}

/// Puts the numbers 7 and 8, and tells both answers.
fn put_two<R: AllocGlobal + Abort>(
    rt: &R,
    shape: &Shape,
    book: &mut Book<MemoryDisk, NoView>,
) -> Result<String, Fail>
    requires { book.old.terms.layouts ≡ shape.now ∷ [] }
{
    let first = put(rt, shape, book, 7)?;
    let second = put(rt, shape, book, 8)?;
    Ok(format!(in rt.alloc(); "{first:?} {second:?} ")?)
}

// A record has 9 bytes, as the block has. The calls of the disk are the 8 of a new file.
#[test]
fn a_sample_is_put_where_it_has_room(rt: HostRuntime) -> Result<(), Fail> {
    let (shape, shapes) = shapes(&rt)?;
    let file = file_failing_at(&rt, &[])?;
    let mut book = begun(&rt, file, shapes, 9, SESSION, NoView::new())?;
    let answers = put_two(&rt, &shape, &mut book);
    let ended = closed(answers, book)?;
    is_told(
        line(ended),
        "Some(Accepted { place: 0 }) None 7:0 shown 0 pending 9 calls 8 bytes 233 blocks 0",
    )
}

// The second publishing finds no memory. The next flush, with or without a sample more, shows one chunk or two: where nothing is
// pending it makes no call of the disk and no mark. The file is made by eight calls, and each hand-over makes four.
const SHOWN_LATER: &[(Recording, &str)] = &[
    (
        Recording {
            form: Form::Bare,
            failing: &[],
            block: 65_536,
            session: SESSION,
            tasks: &[Some(1), Some(2), None, Some(3), None, None],
        },
        "Accepted { place: 0 }\nAccepted { place: 1 }\nDone { through: 2, shown: 2, note: () }\n\
         Accepted { place: 2 }\nDone { through: 3, shown: 2, note: () }\nDone { through: 3, shown: 3, note: () }\n\
         7:0 11:2 15:3 shown 3 pending 0 calls 16 bytes 321 blocks 2",
    ),
    (
        Recording {
            form: Form::Bare,
            failing: &[],
            block: 65_536,
            session: SESSION,
            tasks: &[Some(1), Some(2), None, Some(3), None, Some(4), None],
        },
        "Accepted { place: 0 }\nAccepted { place: 1 }\nDone { through: 2, shown: 2, note: () }\n\
         Accepted { place: 2 }\nDone { through: 3, shown: 2, note: () }\n\
         Accepted { place: 3 }\nDone { through: 4, shown: 4, note: () }\n\
         7:0 11:2 15:3 19:4 shown 4 pending 0 calls 20 bytes 361 blocks 3",
    ),
];

#[test]
fn refused_publish_is_made_up_later(rt: HostRuntime) -> Result<(), Fail> {
    for (recording, want) in SHOWN_LATER {
        let ended = record(&rt, recording, WantsOnce::new())?;
        is_told(line(ended), *want)?;
    }
    Ok(())
}
