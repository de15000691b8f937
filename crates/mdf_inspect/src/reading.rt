ghost use Rattle.std.specs.Prelude.{◌≡◌, ◌≤◌, ℕ, List, length, true, IfSome, Some, None};
ghost use Rattle.mdf_num.specs.Halt.{HaltReason};
ghost use Rattle.mdf_block.specs.Refusal.{Read as Answer};
ghost use Rattle.mdf_block.specs.Reads.{Reads};
ghost use Rattle.mdf_content.specs.Fault.{read_refusal};
ghost use Rattle.mdf_disk.specs.State.{state_of};
ghost use Rattle.mdf_command.specs.Asked.{IsOnlyRead};
ghost use Rattle.mdf_inspect.specs.Paged.{HaltComes, PagedComes, StopComes};

use mdf_command::{Fault, READING_LIMIT, open};
use mdf_content::ReadFault;
use mdf_disk::Disk;
use mdf_num::{Bytes, Halt, Span, Stop};
use mdf_paged::PagedMeasurement;
use mdf_pages::{Asked, Kept};
use std::alloc::Global;
use std::marker::Brand;

/// What is read of a file through pages.
pub(crate) trait Reader {
    /// What is read.
    type Found;

    /// How many bytes the file has at most.
    ghost most: { ℕ };

    /// What is read of its bytes, or why they are refused.
    ghost found: { List ℕ → Answer Self.Found };

    /// How many bytes the file has at most.
    fn most() -> u64
        ensures { result ≡ most };

    /// What is read of the file.
    fn read_in<P: Span>(alloc: Global, span: &mut P) -> Result<Self::Found, Halt<ReadFault>>
        ensures reads { Reads P.Span span.old span.new true read_refusal result (λ file. found file) };
}

/// The measurement, with as much of its records as their numbers need.
pub(crate) struct Counted;

impl Reader for Counted {
    ghost use Rattle.mdf_command.specs.Faults.{READING_LIMIT};
    ghost use Rattle.mdf_model.specs.Kept.{found_kept};
    ghost use Rattle.mdf_content.specs.declared.wanted.Wanted.TheVariants as wants;

    type Found = PagedMeasurement;

    ghost most = { READING_LIMIT };

    ghost found = { found_kept wants.Values };

    fn most() -> u64 {
        READING_LIMIT
    }

    fn read_in<P: Span>(alloc: Global, span: &mut P) -> Result<PagedMeasurement, Halt<ReadFault>> {
        PagedMeasurement::read_counted(alloc, span)
    }
}

/// The fault where memory was wanted, and the count of faults of the disk was `before` and is `now`. A disk that failed goes
/// before want of memory.
pub(crate) fn fault_of_want(before: u64, now: u64) -> Fault
    requires { before ≤ now }
    ensures { StopComes before now result }
{
    if now == before {
        Fault::Memory
    } else {
        Fault::Device
    }
}

/// The fault of a file that was not read, where the count of faults of its disk was `before` and is `now`.
fn fault_of_halt(halt: Halt<ReadFault>, before: u64, now: u64) -> Fault
    requires later { before ≤ now }
    requires reason { HaltReason true before now halt }
    ensures { HaltComes before now halt result }
{
    match halt {
        Halt::Fault(fault) => Fault::Read(fault),
        Halt::Failed => Fault::Device,
        Halt::Memory => fault_of_want(before, now),
    }
}

/// Reads the attached file of a disk that was asked for `K`, through pages. The disk is handed back.
fn read_branded<A: Disk, K: Asked, R: Reader>(
    alloc: Global,
    first: A,
) -> (Result<R::Found, Fault>, A)
    requires attached { A.attached first ≡ true }
    requires asked { A.asked first ≡ K.asked }
    requires short { IfSome (A.content first) (λ file. length file ≤ R.most) }
    ensures comes { PagedComes R.most R.found (state_of A.Disk first) (state_of A.Disk result.1) result.0 }
    ensures asked { A.asked result.1 ≡ K.asked }
    ensures content { A.content result.1 ≡ A.content first }
{
    let before = first.faults();
    match Kept::<A, K>::begin(alloc, first) {
        Ok(kept) => {
            let mut kept = kept;
            let read = R::read_in(alloc, &mut kept);
            let first = kept.into_disk();
            match read {
                Ok(found) => (Ok(found), first),
                Err(halt) => {
                    let now = first.faults();
                    (Err(fault_of_halt(halt, before, now)), first)
                }
            }
        }
        Err((Stop::Failed, first)) => (Err(Fault::Device), first),
        Err((Stop::Memory, first)) => (Err(Fault::Memory), first),
    }
}

/// Reads the attached file of a disk through pages. The disk is handed back.
fn read_kept<A: Disk, R: Reader>(alloc: Global, first: A) -> (Result<R::Found, Fault>, A)
    requires attached { A.attached first ≡ true }
    requires short { IfSome (A.content first) (λ file. length file ≤ R.most) }
    ensures comes { PagedComes R.most R.found (state_of A.Disk first) (state_of A.Disk result.1) result.0 }
    ensures asked { A.asked result.1 ≡ A.asked first }
    ensures content { A.content result.1 ≡ A.content first }
{
    read_branded::<A, Brand, R>(alloc, first)
}

/// Reads the file of this name through pages. The disk is handed back.
pub(crate) fn read_input<A: Disk, R: Reader>(
    alloc: Global,
    input: &Bytes,
    first: A,
) -> (Result<R::Found, Fault>, A)
    requires { A.asked first ≡ None }
    ensures comes { PagedComes R.most R.found (state_of A.Disk first) (state_of A.Disk result.1) result.0 }
    ensures input { IsOnlyRead A.Disk (Some input.now) first result.1 }
{
    let mut first = first;
    match open(input, &mut first, R::most()) {
        Ok(()) => read_kept::<A, R>(alloc, first),
        Err(fault) => (Err(fault), first),
    }
}
