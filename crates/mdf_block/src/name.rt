ghost use Rattle.std.specs.Prelude.{◌≡◌, MatchOption, Some, IfOk, IsTrue, []};
ghost use Rattle.mdf_format.specs.Block.{name_of, least_links, least_body};
ghost use Rattle.mdf_format.specs.declared.kind.Kind.{Kind};
ghost use Rattle.mdf_block.specs.Reads.{Looks};
ghost use Rattle.mdf_block.specs.Block.{has_name, is_data, is_compressed, IsKindAt};

use crate::word::is_there;
use mdf_format::Kind;
use mdf_num::{SliceSpan, Span, Stop};

/// Every kind of block.
const KINDS: [Kind; 13] = [
    Kind::Hd,
    Kind::Fh,
    Kind::Dg,
    Kind::Cg,
    Kind::Cn,
    Kind::Cc,
    Kind::Si,
    Kind::Tx,
    Kind::Md,
    Kind::Dt,
    Kind::Dl,
    Kind::Sd,
    Kind::At,
];

/// The first four bytes of a block of this kind.
pub fn name_of(kind: Kind) -> [u8; 4]
    ensures { result ≡ name_of kind }
{
    match kind {
        Kind::Hd => *b"##HD",
        Kind::Fh => *b"##FH",
        Kind::Dg => *b"##DG",
        Kind::Cg => *b"##CG",
        Kind::Cn => *b"##CN",
        Kind::Cc => *b"##CC",
        Kind::Si => *b"##SI",
        Kind::Tx => *b"##TX",
        Kind::Md => *b"##MD",
        Kind::Dt => *b"##DT",
        Kind::Dl => *b"##DL",
        Kind::Sd => *b"##SD",
        Kind::At => *b"##AT",
    }
}

/// How many links a block of this kind has at least.
pub(crate) fn least_links(kind: Kind) -> u64
    ensures { result ≡ least_links kind }
{
    match kind {
        Kind::Hd | Kind::Cg => 6,
        Kind::Fh => 2,
        Kind::Dg | Kind::Cc | Kind::At => 4,
        Kind::Cn => 8,
        Kind::Si => 3,
        Kind::Tx | Kind::Md | Kind::Dt | Kind::Sd => 0,
        Kind::Dl => 1,
    }
}

/// How many bytes the body of a block of this kind has at least, the values of a CCBLOCK left out.
pub(crate) fn least_body(kind: Kind) -> u64
    ensures { result ≡ least_body kind [] }
{
    match kind {
        Kind::Hd | Kind::Cg => 32,
        Kind::Fh => 16,
        Kind::Dg | Kind::Si => 8,
        Kind::Cn => 72,
        Kind::Cc => 24,
        Kind::Tx | Kind::Md | Kind::Dt | Kind::Dl | Kind::Sd => 0,
        Kind::At => 40,
    }
}

/// Whether blocks of this kind hold data, which a file may have compressed.
fn is_data(kind: Kind) -> bool
    ensures { result ≡ is_data kind }
{
    matches!(kind, Kind::Dt | Kind::Sd | Kind::Dl)
}

/// Whether these four bytes stand at `at`.
pub(crate) fn has_name_in<P: Span>(span: &mut P, at: u64, name: &[u8; 4]) -> Result<bool, Stop>
    ensures reads { Looks P.Span span.old span.new P.may_want result (λ file b. b ≡ has_name file at name.now) }
{
    if !is_there(span.len(), at, 4) {
        return Ok(false);
    }
    let mut there = [0u8; 4];
    span.fill(at, &mut there)?;
    Ok(there == *name)
}

/// Whether compressed data is named where a block of this kind is wanted.
pub(crate) fn is_compressed_in<P: Span>(span: &mut P, at: u64, want: Kind) -> Result<bool, Stop>
    ensures reads { Looks P.Span span.old span.new P.may_want result (λ file b. b ≡ is_compressed file at want) }
    ensures data { IfOk result (λ b. IsTrue b → IsTrue (is_data want)) }
{
    if !is_data(want) || at % 8 != 0 {
        return Ok(false);
    }
    if has_name_in(span, at, b"##DZ")? {
        return Ok(true);
    }
    has_name_in(span, at, b"##HL")
}

/// The kind whose first four bytes these are.
fn kind_of(name: [u8; 4]) -> Option<Kind>
    ensures { MatchOption result ((kind : Kind) → ¬ (name ≡ name_of kind)) (λ kind. name ≡ name_of kind) }
{
    for kind in KINDS {
        if name == name_of(kind) {
            return Some(kind);
        }
    }
    None
}

/// The kind whose first four bytes stand at `at`. None exactly where these are no kind's, as at the end of the file.
///
/// # Errors
/// The span's own. It is as before in what it tells.
pub fn kind_in<P: Span>(span: &mut P, at: u64) -> Result<Option<Kind>, Stop>
    ensures reads { Looks P.Span span.old span.new P.may_want result (λ file kind. IsKindAt file at kind) }
{
    if !is_there(span.len(), at, 4) {
        return Ok(None);
    }
    let mut there = [0u8; 4];
    span.fill(at, &mut there)?;
    Ok(kind_of(there))
}

/// The kind whose first four bytes stand at `at`. None exactly where these are no kind's, as at the end of the file.
pub fn kind_at(bytes: &[u8], at: u64) -> Option<Kind>
    ensures { IsKindAt bytes.now at result }
{
    match kind_in(&mut SliceSpan::new(bytes), at) {
        Ok(kind) => kind,
        Err(_) => unreachable!(),
    }
}
