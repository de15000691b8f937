ghost use Rattle.std.specs.Prelude.{◌≡◌, ◌≤◌, ◌<◌, ℕ, List, Some, Ok, length, slice_index_or, true, IfOk, IfErr, IfNone};
ghost use Rattle.mdf_format.specs.Number.{bytes_at};
ghost use Rattle.mdf_block.specs.Refusal.{Fails, GivesOf, Halts, HidesNone};
ghost use Rattle.mdf_block.specs.Reads.{Looks, Reads, Says};
ghost use Rattle.mdf_stream.specs.Parts.{ArePartsInside, stream_of, stream_size};
ghost use Rattle.mdf_head.specs.declared.identity.Ident.{Ident};
ghost use Rattle.mdf_content.specs.Fault.{read_refusal};
ghost use Rattle.mdf_group.specs.declared.row.DataRow.{DataRow};
ghost use Rattle.mdf_session.specs.Session.{HasFirst, recording, session};
ghost use Rattle.mdf_session.specs.Standing.{StandIn, session_from, session_with, with_content};

use crate::standing::{Standing, first_standing_in};
use mdf_content::ReadFault;
use mdf_format::Form;
use mdf_group::DataRow;
use mdf_head::{Head, History, Ident};
use mdf_model::{Tree, identity_in, tree_in};
use mdf_num::{Bytes, Halt, Rows, SliceSpan, Span, Stop};
use mdf_stream::{DataView, moved_front};
use mdf_vlsd::Streams;
use std::alloc::Global;
use std::marker::Model;

/// What the data group of a recording holds.
#[derive(Drop)]
struct Kept {
    content: Bytes,
    counts: Rows<u64>,
    totals: Rows<u64>,
    streams: Streams,
}

/// A recording that is read, with its records still in the file.
#[derive(Drop)]
struct Found {
    tree: Tree,
    standing: Standing,
}

/// The identification of a recording.
///
/// # Errors
/// `NotMdf`, then `Version`, as `ident`; then `NotRecording` exactly where the file is finalized or its custom word names no
/// form; and the span's own.
#[tactic(auto, unfolding(crate::specs::Session::recording))]
fn recording_in<P: Span>(span: &mut P) -> Result<Ident, Halt<ReadFault>>
    ensures reads { Reads P.Span span.old span.new P.may_want read_refusal result (λ file. recording file) }
{
    let id = identity_in(span)?;
    if id.finalized || !Form::is_word(id.custom_flags) {
        return Err(Halt::Fault(ReadFault::NotRecording {
            std: id.std_flags,
            custom: id.custom_flags,
        }));
    }
    Ok(id)
}

/// The first bytes of a stream, so many.
fn front_in<P: Span>(alloc: Global, span: &mut P, view: &DataView, size: u64) -> Result<Bytes, Stop>
    requires inside { ArePartsInside (P.size span.old) view.now }
    requires within { size ≤ stream_size view.now }
    ensures reads { Looks P.Span span.old span.new true result (λ file front. front ≡ bytes_at size (stream_of file view.now) 0) }
{
    let mut front = vec![in alloc; 0u8; size as usize]?;
    view.read_in(span, 0, front.as_mut_slice())?;
    Ok(Bytes::from_vec(front))
}

/// A recording that is read. Contracts see it as its parts.
#[derive(Drop)]
pub struct Session {
    tree: Tree,
    kept: Kept,
}

impl Model for Session {
    ghost use Rattle.mdf_session.specs.Session.{SessionParts, HasFirst};
    ghost use Rattle.std.specs.Coded.{codes};
    ghost use Rattle.mdf_conv.specs.contracts.row.Ref as refs;

    ghost Value = { SessionParts };

    ghost coded = { Prim.hlevel (codes, refs.the_row.coded) };

    ghost view = { λ s. record { tree = s.tree; kept = s.kept } };

    ghost invariant = { λ s. HasFirst s.tree.rows s.kept };
}

impl Session {
    /// The header.
    pub fn head(&self) -> &Head
        ensures { result.now ≡ self.now.tree.head }
    {
        &self.tree.head
    }

    /// The file history.
    pub fn history(&self) -> &Rows<History>
        ensures { result.now ≡ self.now.tree.history }
    {
        &self.tree.history
    }

    /// The data groups. There is one at least; what the first of them holds is read.
    pub fn rows(&self) -> &Rows<DataRow>
        ensures rows { result.now ≡ self.now.tree.rows }
        ensures first { 0 < length result.now }
    {
        &self.tree.rows
    }

    /// How many links that name something were passed over; it stays at the last u64.
    pub fn dropped(&self) -> u64
        ensures { result ≡ self.now.tree.dropped }
    {
        self.tree.dropped
    }

    /// The records of the opened blocks, one behind the other, with their ids.
    pub fn content(&self) -> &Bytes
        ensures { result.now ≡ self.now.kept.content }
    {
        &self.kept.content
    }

    /// The streams of the channels of variable length of the first data group, in order.
    pub fn streams(&self) -> &Streams
        ensures { result.now ≡ self.now.kept.streams }
    {
        &self.kept.streams
    }

    /// How many records each channel group of the first data group has, groups of values included.
    pub fn counts(&self) -> &[u64]
        ensures counts { result.now ≡ self.now.kept.counts }
        ensures each { (d : DataRow) → length result.now ≡ length (slice_index_or self.now.tree.rows 0 d).groups }
    {
        self.kept.counts.as_slice()
    }

    /// How many bytes the values of each channel group of the first data group have; 0 where it holds none.
    pub fn totals(&self) -> &[u64]
        ensures totals { result.now ≡ self.now.kept.totals }
        ensures each { (d : DataRow) → length result.now ≡ length (slice_index_or self.now.tree.rows 0 d).groups }
    {
        self.kept.totals.as_slice()
    }

    /// The records of the opened blocks and the streams of the channels of variable length, which are moved out of the session.
    /// It takes no memory.
    pub fn into_data(self) -> (Bytes, Streams)
        ensures content { result.0 ≡ self.kept.content }
        ensures streams { result.1 ≡ self.kept.streams }
    {
        let Session { tree: _, kept } = self;
        let Kept {
            content,
            counts: _,
            totals: _,
            streams,
        } = kept;
        (content, streams)
    }
}

/// The recording that a file is, with its records still in the file.
///
/// # Errors
/// As `session_in`.
#[tactic(auto, unfolding(crate::specs::Session::session))]
fn found_in<P: Span>(alloc: Global, span: &mut P) -> Result<Found, Halt<ReadFault>>
    ensures reads { Says P.Span span.old span.new true read_refusal result (λ file. IfOk result (λ found. session file ≡ Ok (session_from file found))) }
    ensures refused { (f : List ℕ) → P.bytes span.old ≡ Some f → IfErr result (λ halt. Halts read_refusal halt (session f)) }
    ensures first { (f : List ℕ) → P.bytes span.old ≡ Some f → HidesNone P.may_want result (recording f) }
    ensures stands { IfOk result (λ found. StandIn (P.size span.old) found.standing) }
    ensures counted { IfOk result (λ found. (content : List ℕ) → HasFirst found.tree.rows (with_content content found.standing)) }
{
    let id = recording_in(span)?;
    let form = Form::of_word(id.custom_flags);
    let tree = tree_in(alloc, span)?;
    let standing = first_standing_in(alloc, span, form, tree.rows.as_slice())?;
    Ok(Found { tree, standing })
}

/// The recording that these bytes are, with its records still in them.
///
/// # Errors
/// As `read_session`.
fn found_of(alloc: Global, bytes: &[u8]) -> Result<Found, ReadFault>
    ensures found { IfOk result (λ found. session bytes.now ≡ Ok (session_from bytes.now found)) }
    ensures refused { IfErr result (λ fault. Fails (read_refusal fault) (session bytes.now)) }
    ensures first { IfErr result (λ fault. IfNone (read_refusal fault) ((id : Ident) × (recording bytes.now ≡ Ok id))) }
    ensures stands { IfOk result (λ found. StandIn (length bytes.now) found.standing) }
    ensures counted { IfOk result (λ found. (content : List ℕ) → HasFirst found.tree.rows (with_content content found.standing)) }
{
    match found_in(alloc, &mut SliceSpan::new(bytes)) {
        Ok(found) => Ok(found),
        Err(Halt::Fault(fault)) => Err(fault),
        Err(Halt::Memory) => Err(ReadFault::Memory),
        Err(Halt::Failed) => unreachable!(),
    }
}

/// The recording that is found, with these records.
fn session_with(content: Bytes, found: Found) -> Session
    requires counted { HasFirst found.tree.rows (with_content content found.standing) }
    ensures { result ≡ session_with content found }
{
    let Found { tree, standing } = found;
    let Standing {
        view: _,
        size: _,
        counts,
        totals,
        streams,
    } = standing;
    let kept = Kept {
        content,
        counts,
        totals,
        streams,
    };
    Session { tree, kept }
}

/// The recording that a file is, read through a span.
///
/// # Errors
/// The first fault in this order: `NotMdf`, `Version` and `NotRecording`; of the header, its comment and the history; of the
/// data groups; `Block` with 0 and `Dg` where there is none; and of what the first of them holds: its layouts, its opened
/// blocks, its records, and its values. The span's own; and want of memory.
pub fn session_in<P: Span>(alloc: Global, span: &mut P) -> Result<Session, Halt<ReadFault>>
    ensures reads { Reads P.Span span.old span.new true read_refusal result (λ file. session file) }
    ensures first { (f : List ℕ) → P.bytes span.old ≡ Some f → HidesNone P.may_want result (recording f) }
{
    let found = found_in(alloc, span)?;
    let content = front_in(alloc, span, &found.standing.view, found.standing.size)?;
    Ok(session_with(content, found))
}

/// The recording that these bytes are.
///
/// # Errors
/// As `session_in`; and `Memory`.
pub fn read_session(alloc: Global, bytes: &[u8]) -> Result<Session, ReadFault>
    ensures exact { GivesOf read_refusal result (session bytes.now) }
    ensures first { IfErr result (λ fault. IfNone (read_refusal fault) ((id : Ident) × (recording bytes.now ≡ Ok id))) }
{
    match session_in(alloc, &mut SliceSpan::new(bytes)) {
        Ok(session) => Ok(session),
        Err(Halt::Fault(fault)) => Err(fault),
        Err(Halt::Memory) => Err(ReadFault::Memory),
        Err(Halt::Failed) => unreachable!(),
    }
}

/// The recording that a file is. Its records are moved to the front of the file's own bytes, and no others are taken for them.
///
/// # Errors
/// As `read_session`.
pub fn session_of(alloc: Global, file: Bytes) -> Result<Session, ReadFault>
    ensures exact { GivesOf read_refusal result (session file) }
    ensures first { IfErr result (λ fault. IfNone (read_refusal fault) ((id : Ident) × (recording file ≡ Ok id))) }
{
    let found = found_of(alloc, file.as_slice())?;
    let content = moved_front(file, &found.standing.view, found.standing.size);
    Ok(session_with(content, found))
}
