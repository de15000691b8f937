use crate::finalized::IDENT;
use mdf_attach::{Attachment, Entry, list_in, read_attachments, verdict};
use mdf_block::Note;
use mdf_num::{Bytes, SliceSpan};
use std::alloc::Global;
use std::test::Fail;
use test_rig::{Piece, Told, all_are_told, marked_file, put_numbers, shown};

// A header whose fourth link names an attachment with a name, a MIME type, and three embedded bytes: the flags 5, the MD5
// of `abc` as md5sum prints it, the original size 3 and the embedded size 3.
const HEADER: Piece = (64, b"##HD", &[0, 0, 0, 168, 0, 0], &[0; 32]);

pub(crate) const ONE: &[Piece] = &[
    HEADER,
    (
        168,
        b"##AT",
        &[0, 272, 304, 0],
        &[
            5, 0, 0, 0, 0, 0, 0, 0, 144, 1, 80, 152, 60, 210, 79, 176, 214, 150, 63, 125, 40, 225,
            127, 114, 3, 0, 0, 0, 0, 0, 0, 0, 3, 0, 0, 0, 0, 0, 0, 0, 97, 98, 99,
        ],
    ),
    (272, b"##TX", &[], b"a.txt\0\0\0"),
    (304, b"##TX", &[], b"text/plain\0\0\0\0\0\0"),
];

// Two attachments: the first with a link more, a comment, eight embedded bytes and eight behind them; the second compressed,
// without texts.
pub(crate) const TWO: &[Piece] = &[
    HEADER,
    (
        168,
        b"##AT",
        &[288, 392, 424, 480, 0],
        &[
            5, 0, 1, 0, 0, 0, 0, 0, 37, 213, 90, 210, 131, 170, 64, 10, 244, 100, 199, 109, 113,
            60, 7, 173, 8, 0, 0, 0, 0, 0, 0, 0, 8, 0, 0, 0, 0, 0, 0, 0, 49, 50, 51, 52, 53, 54, 55,
            56, 9, 9, 9, 9, 9, 9, 9, 9,
        ],
    ),
    (
        288,
        b"##AT",
        &[0, 0, 0, 0],
        &[
            7, 0, 0, 0, 0, 0, 0, 0, 1, 2, 3, 4, 5, 6, 7, 8, 9, 10, 11, 12, 13, 14, 15, 16, 99, 0,
            0, 0, 0, 0, 0, 0, 5, 0, 0, 0, 0, 0, 0, 0, 120, 156, 1, 2, 3,
        ],
    ),
    (392, b"##TX", &[], b"m.bin\0\0\0"),
    (
        424,
        b"##TX",
        &[],
        b"application/octet-stream\0\0\0\0\0\0\0\0",
    ),
    (
        480,
        b"##MD",
        &[],
        b"<ATcomment><TX>x</TX></ATcomment>\0\0\0\0\0\0\0",
    ),
];

// An attachment of 10,000 bytes 0, which stand behind its blocks, with their MD5 as md5sum prints it.
const LONG: &[Piece] = &[
    HEADER,
    (
        168,
        b"##AT",
        &[0, 0, 0, 0],
        &[
            5, 0, 0, 0, 0, 0, 0, 0, 184, 93, 111, 185, 239, 66, 96, 220, 241, 206, 10, 27, 11, 255,
            128, 211, 16, 39, 0, 0, 0, 0, 0, 0, 16, 39, 0, 0, 0, 0, 0, 0,
        ],
    ),
];

// The blocks of a file, the numbers of 8 bytes that are changed in it, and what is told: of each attachment its name, its
// original size, how many bytes are embedded, and the verdict on its MD5.
const TOLD: &[(Attached, &str)] = &[
    (Attached(ONE, &[]), "a.txt 3 3 Ok\n"),
    // other flags
    (Attached(ONE, &[(224, 13)]), "a.txt 3 3 Ok\n"),
    (Attached(ONE, &[(224, 0xfffd)]), "a.txt 3 3 Ok\n"),
    (Attached(ONE, &[(224, 0)]), "a.txt 3 3 Unchecked\n"),
    (Attached(ONE, &[(224, 1)]), "a.txt 3 3 Unchecked\n"),
    (Attached(ONE, &[(224, 2)]), "a.txt 3 3 Unchecked\n"),
    (Attached(ONE, &[(224, 3)]), "a.txt 3 3 Unchecked\n"),
    (Attached(ONE, &[(224, 4)]), "a.txt 3 3 Unchecked\n"),
    (Attached(ONE, &[(224, 6)]), "a.txt 3 3 Unchecked\n"),
    (Attached(ONE, &[(224, 7)]), "a.txt 3 3 Unchecked\n"),
    // `abd`, and one byte of the MD5
    (Attached(ONE, &[(264, 0x64_6261)]), "a.txt 3 3 Differs\n"),
    (
        Attached(ONE, &[(232, 0xb04f_d23c_9850_0191)]),
        "a.txt 3 3 Differs\n",
    ),
    // other sizes
    (Attached(ONE, &[(256, 0)]), "a.txt 3 0 Differs\n"),
    (Attached(ONE, &[(256, 2)]), "a.txt 3 2 Differs\n"),
    (Attached(ONE, &[(256, 4)]), "Bad { at: 168, want: At }"),
    (
        Attached(ONE, &[(256, 0xffff_ffff_ffff_ffd8)]),
        "Bad { at: 168, want: At }",
    ),
    (
        Attached(ONE, &[(256, u64::MAX)]),
        "Bad { at: 168, want: At }",
    ),
    (
        Attached(ONE, &[(248, u64::MAX)]),
        "a.txt 18446744073709551615 3 Ok\n",
    ),
    (Attached(ONE, &[(176, 98)]), "Bad { at: 168, want: At }"),
    (Attached(ONE, &[(176, 100)]), "a.txt 3 3 Ok\n"),
    // other counts of links
    (Attached(ONE, &[(184, 3)]), "Bad { at: 168, want: At }"),
    (Attached(ONE, &[(184, 5)]), "Bad { at: 168, want: At }"),
    // other blocks as the next one; the texts come before it
    (Attached(ONE, &[(192, 64)]), "Bad { at: 64, want: At }"),
    (Attached(ONE, &[(192, 3)]), "Bad { at: 3, want: At }"),
    (
        Attached(ONE, &[(192, 64), (200, 168)]),
        "Bad { at: 168, want: Tx }",
    ),
    // other texts
    (Attached(ONE, &[(200, 0)]), "- 3 3 Ok\n"),
    (Attached(ONE, &[(200, 304)]), "text/plain 3 3 Ok\n"),
    (
        Attached(ONE, &[(208, 0xffff_ffff_ffff_fff8)]),
        "Bad { at: 18446744073709551608, want: Tx }",
    ),
    (Attached(ONE, &[(216, 1)]), "Bad { at: 1, want: Tx }"),
    // other links of the header, and none
    (Attached(ONE, &[(112, 0)]), ""),
    (Attached(ONE, &[(112, 272)]), "Bad { at: 272, want: At }"),
    (Attached(ONE, &[(88, 8)]), "a.txt 3 3 Ok\n"),
    (Attached(ONE, &[(64, 0)]), "Bad { at: 64, want: Hd }"),
    // other identifications: the flag words are those of an unfinalized file alone
    (Attached(ONE, &[(56, 0x9_0005_0000_0000)]), "a.txt 3 3 Ok\n"),
    (
        Attached(ONE, &[(0, 0x2046_4d6e_6946_6e55), (56, 0x9_0005_0000_0000)]),
        "Unfinalized { std: 5, custom: 9 }",
    ),
    (
        Attached(ONE, &[(24, 0x1a4_0000_0000)]),
        "Version { ver: 420 }",
    ),
    (Attached(ONE, &[(0, 0)]), "NotMdf"),
    (Attached(TWO, &[]), "m.bin 8 8 Ok\n- 99 5 Unchecked\n"),
];

/// The blocks of a file, and the numbers that are changed in it.
struct Attached(&'static [Piece], &'static [(usize, u64)]);

impl Attached {
    fn file(&self, alloc: Global) -> Result<Bytes, Fail> {
        let mut file = marked_file(alloc, 544, IDENT, &[self.0])?;
        put_numbers(file.as_mut_slice(), self.1);
        Ok(Bytes::from_vec(file))
    }
}

fn name_of(note: &Note) -> &str {
    match note {
        Note::Nothing => "-",
        Note::Plain(bytes) => std::str::from_utf8(bytes.as_slice()).unwrap_or("no text"),
        Note::Xml(bytes) => std::str::from_utf8(bytes.as_slice()).unwrap_or("no text"),
    }
}

fn line(alloc: Global, row: &Attachment) -> Result<String, Fail> {
    let (name, original) = (name_of(&row.name), row.original);
    let (len, says) = (row.content.as_slice().len(), verdict(row));
    Ok(format!(in alloc; "{name} {original} {len} {says:?}\n")?)
}

pub(crate) fn lines(alloc: Global, rows: &[Attachment]) -> Result<String, Fail> {
    let mut text = String::new(alloc);
    for row in rows {
        let told = line(alloc, row)?;
        text.push_str(told.as_str())?;
    }
    Ok(text)
}

impl Told for Attached {
    fn told(&self, alloc: Global) -> Result<String, Fail> {
        let file = self.file(alloc)?;
        match read_attachments(alloc, file.as_slice()) {
            Ok(rows) => lines(alloc, rows.as_slice()),
            Err(fault) => shown(alloc, &fault),
        }
    }
}

#[test]
fn attachments_are_told(rt: HostRuntime) -> Result<(), Fail> {
    all_are_told(&rt, TOLD)
}

// An attachment without texts that names itself as the next one, and two that name each other.
const LOOPS: &[(Attached, &str)] = &[
    (
        Attached(ONE, &[(192, 168), (200, 0), (208, 0)]),
        "TooMany { at: 168 }",
    ),
    (
        Attached(TWO, &[(200, 0), (208, 0), (216, 0), (312, 168)]),
        "TooMany { at: 288 }",
    ),
];

#[test]
fn loops_are_refused(rt: HostRuntime) -> Result<(), Fail> {
    all_are_told(&rt, LOOPS)
}

// All that is read of two attachments.
const WHOLE: &[(Whole, &str)] = &[(
    Whole,
    "Ok(Rows { items: [Attachment { at: 168, name: Plain(Bytes { items: [109, 46, 98, 105, 110] }), mime: Plain(Bytes { items: [97, 112, 112, 108, 105, 99, 97, 116, 105, 111, 110, 47, 111, 99, 116, 101, 116, 45, 115, 116, 114, 101, 97, 109] }), comment: Xml(Bytes { items: [60, 65, 84, 99, 111, 109, 109, 101, 110, 116, 62, 60, 84, 88, 62, 120, 60, 47, 84, 88, 62, 60, 47, 65, 84, 99, 111, 109, 109, 101, 110, 116, 62] }), flags: 5, creator: 1, md5: [37, 213, 90, 210, 131, 170, 64, 10, 244, 100, 199, 109, 113, 60, 7, 173], original: 8, content: Bytes { items: [49, 50, 51, 52, 53, 54, 55, 56] } }, Attachment { at: 288, name: Nothing, mime: Nothing, comment: Nothing, flags: 7, creator: 0, md5: [1, 2, 3, 4, 5, 6, 7, 8, 9, 10, 11, 12, 13, 14, 15, 16], original: 99, content: Bytes { items: [120, 156, 1, 2, 3] } }] })",
)];

/// The file of two attachments.
struct Whole;

impl Told for Whole {
    fn told(&self, alloc: Global) -> Result<String, Fail> {
        let file = Attached(TWO, &[]).file(alloc)?;
        shown(alloc, &read_attachments(alloc, file.as_slice()))
    }
}

#[test]
fn all_of_an_attachment_is_read(rt: HostRuntime) -> Result<(), Fail> {
    all_are_told(&rt, WHOLE)
}

/// What is listed of such a file, of so many bytes.
struct Listed(usize, Attached);

fn entry_lines(alloc: Global, rows: &[Entry]) -> Result<String, Fail> {
    let mut text = String::new(alloc);
    for row in rows {
        let (name, original) = (name_of(&row.name), row.original);
        let (embedded, says) = (row.embedded, row.verdict);
        let told = format!(in alloc; "{name} {original} {embedded} {says:?}\n")?;
        text.push_str(told.as_str())?;
    }
    Ok(text)
}

impl Told for Listed {
    fn told(&self, alloc: Global) -> Result<String, Fail> {
        let mut file = marked_file(alloc, self.0, IDENT, &[self.1.0])?;
        put_numbers(file.as_mut_slice(), self.1.1);
        match list_in(alloc, &mut SliceSpan::new(file.as_slice())) {
            Ok(rows) => entry_lines(alloc, rows.as_slice()),
            Err(halt) => shown(alloc, &halt),
        }
    }
}

// Embedded data of less than a piece, of more than two, and with its last byte changed; and what is refused.
const LISTED: &[(Listed, &str)] = &[
    (Listed(544, Attached(ONE, &[])), "a.txt 3 3 Ok\n"),
    (
        Listed(544, Attached(ONE, &[(264, 0x64_6261)])),
        "a.txt 3 3 Differs\n",
    ),
    (
        Listed(544, Attached(ONE, &[(224, 7)])),
        "a.txt 3 3 Unchecked\n",
    ),
    (
        Listed(544, Attached(TWO, &[])),
        "m.bin 8 8 Ok\n- 99 5 Unchecked\n",
    ),
    (
        Listed(10_264, Attached(LONG, &[(176, 10_096)])),
        "- 10000 10000 Ok\n",
    ),
    (
        Listed(
            10_264,
            Attached(LONG, &[(176, 10_096), (10_256, 0x0100_0000_0000_0000)]),
        ),
        "- 10000 10000 Differs\n",
    ),
    (
        Listed(544, Attached(ONE, &[(256, 4)])),
        "Fault(Bad { at: 168, want: At })",
    ),
    (
        Listed(
            544,
            Attached(ONE, &[(192, 168), (200, 0), (208, 0), (224, 0)]),
        ),
        "Fault(TooMany { what: Block, at: 168 })",
    ),
];

#[test]
fn what_is_listed_is_told(rt: HostRuntime) -> Result<(), Fail> {
    all_are_told(&rt, LISTED)
}
