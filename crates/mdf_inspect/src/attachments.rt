ghost use Rattle.std.specs.Prelude.{◌≡◌, Some, None};
ghost use Rattle.mdf_content.specs.Fault.{read_refusal};
ghost use Rattle.mdf_attach.specs.Listed.{list_refusal};
ghost use Rattle.mdf_disk.specs.State.{state_of};
ghost use Rattle.mdf_port.specs.State.{sink_state};
ghost use Rattle.mdf_command.specs.Asked.{IsOnlyRead};
ghost use Rattle.mdf_command.specs.Texts.{Gives, numbered};
ghost use Rattle.mdf_inspect.specs.Attachments.{ListingComes, EndsListing, attachment_line, listing_fault, says_text, listing_text};

use crate::reading::{Reader, read_input};
use crate::shown::Shown;
use mdf_attach::{Entry, ListFault, Verdict, list_in};
use mdf_block::What;
use mdf_command::Piece::{Name, Number, Text};
use mdf_command::{Fault, INPUT_LIMIT, give_line, status_after, status_of};
use mdf_content::ReadFault;
use mdf_disk::Disk;
use mdf_model::finalized_in;
use mdf_num::{Bytes, Failed, Halt, Rows, Span};
use mdf_port::Sink;
use std::alloc::Global;
use tool_export::name_text;

/// The fault of a list of attachments, as one of a reader of files.
fn read_fault_of(fault: ListFault) -> ReadFault
    ensures { read_refusal result ≡ list_refusal fault }
{
    match fault {
        ListFault::Bad { at, want } => ReadFault::Block { at, want },
        ListFault::TooMany { what, at } => ReadFault::TooMany { what, at },
    }
}

/// What is listed of the attachments. Of the embedded data no more is in memory than the pages.
struct Listing;

impl Reader for Listing {
    ghost use Rattle.mdf_command.specs.Faults.{INPUT_LIMIT};
    ghost use Rattle.mdf_inspect.specs.Attachments.{entries};

    type Found = Rows<Entry>;

    ghost most = { INPUT_LIMIT };

    ghost found = { entries };

    fn most() -> u64 {
        INPUT_LIMIT
    }

    #[tactic(auto, unfolding(crate::specs::Attachments::entries))]
    fn read_in<P: Span>(alloc: Global, span: &mut P) -> Result<Rows<Entry>, Halt<ReadFault>> {
        finalized_in(span)?;
        match list_in(alloc, span) {
            Ok(rows) => Ok(rows),
            Err(Halt::Fault(fault)) => Err(Halt::Fault(read_fault_of(fault))),
            Err(Halt::Failed) => Err(Halt::Failed),
            Err(Halt::Memory) => Err(Halt::Memory),
        }
    }
}

/// The fault that is printed. Where a file is refused for too many blocks, these are attachments.
fn listing_fault(fault: Fault) -> Fault
    ensures { result ≡ listing_fault fault }
{
    match fault {
        Fault::Read(
            ReadFault::TooMany {
                what: What::Block,
                at,
            },
        ) => Fault::Attached { at },
        _ => fault,
    }
}

/// Reads what is listed of the attachments of the file of this name. The disk is handed back.
fn list<A: Disk>(alloc: Global, input: &Bytes, first: A) -> (Result<Rows<Entry>, Fault>, A)
    requires { A.asked first ≡ None }
    ensures comes { ListingComes (state_of A.Disk first) (state_of A.Disk result.1) result.0 }
    ensures input { IsOnlyRead A.Disk (Some input.now) first result.1 }
{
    let (end, first) = read_input::<A, Listing>(alloc, input, first);
    match end {
        Ok(entries) => (Ok(entries), first),
        Err(fault) => (Err(listing_fault(fault)), first),
    }
}

/// What is said of an MD5.
fn says_text(verdict: Verdict) -> &'static [u8]
    ensures { result.now ≡ says_text verdict }
{
    match verdict {
        Verdict::Ok => b"ok",
        Verdict::Differs => b"bad",
        Verdict::Unchecked => b"none",
    }
}

/// Gives the line of an attachment.
fn give_attachment<K: Sink>(sink: &mut K, number: u64, row: &Entry) -> Result<(), Failed>
    ensures { Gives (attachment_line number row.now) (sink_state K.Sink sink.old) (sink_state K.Sink sink.new) result }
{
    give_line(
        sink,
        &[
            Text(b"attachment "),
            Number(number),
            Text(b" "),
            Name(name_text(&row.name)),
            Text(b" size "),
            Number(row.original),
            Text(b" embedded "),
            Number(row.embedded),
            Text(b" md5 "),
            Text(says_text(row.verdict)),
        ],
    )
}

/// Gives the lines of the attachments.
fn give_attachments<K: Sink>(sink: &mut K, rows: &[Entry]) -> Result<(), Failed>
    ensures { Gives (numbered attachment_line 0 rows.now) (sink_state K.Sink sink.old) (sink_state K.Sink sink.new) result }
{
    for (i, row) in rows.iter().enumerate() {
        give_attachment(sink, i as u64, row)?;
    }
    Ok(())
}

/// Gives the lines with which the command ends.
fn give_end<K: Sink>(sink: &mut K, end: &Result<Rows<Entry>, Fault>) -> Result<(), Failed>
    ensures { Gives (listing_text end.now) (sink_state K.Sink sink.old) (sink_state K.Sink sink.new) result }
{
    match end {
        Ok(rows) => give_attachments(sink, rows.as_slice()),
        Err(fault) => fault.give(sink),
    }
}

/// `attachments IN`: prints the attachments of a finalized file, each with its sizes and whether its MD5 is right, or why they are not
/// read. The file is read through pages. Answers the program's status, with the disk.
pub fn run_attachments<K: Sink, A: Disk>(
    alloc: Global,
    input: &Bytes,
    sink: &mut K,
    first: A,
) -> Shown<A>
    requires { A.asked first ≡ None }
    ensures ends { EndsListing (state_of A.Disk first) (state_of A.Disk result.first)
        (sink_state K.Sink sink.old) (sink_state K.Sink sink.new) result.status }
    ensures input { IsOnlyRead A.Disk (Some input.now) first result.first }
{
    let (end, first) = list(alloc, input, first);
    let given = give_end(sink, &end);
    let status = status_after(given, status_of(&end));
    Shown { status, first }
}
