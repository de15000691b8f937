// How a run ended.
ghost use Rattle.std.specs.Prelude.{◌≡◌, [], None};

use book_owned::Marks;
use mdf_layout::Samples;
use mdf_make::{Input, Verdict};
use mdf_record::Recorded;
use std::alloc::Global;

/// How a run ended: the program's status, and the disks that were handed in, as the run left them.
#[derive(Drop)]
pub struct Finished<A, C> {
    pub status: u8,
    /// The input that is refused or too long, if the command ended for one.
    pub blamed: Option<Input>,
    pub first: A,
    pub out: C,
    /// The samples that a recording accepted, in order, and its marks; both empty for the other commands.
    pub history: Samples,
    pub marks: Marks,
}

/// What a command other than a recording leaves.
pub(crate) fn without_recording<A, C>(
    alloc: Global,
    verdict: Verdict,
    first: A,
    out: C,
) -> Finished<A, C>
    ensures status { result.status ≡ verdict.status }
    ensures blamed { result.blamed ≡ verdict.blamed }
    ensures first { result.first ≡ first }
    ensures out { result.out ≡ out }
    ensures history { result.history.items ≡ [] }
    ensures marks { result.marks.items ≡ [] }
{
    Finished {
        status: verdict.status,
        blamed: verdict.blamed,
        first,
        out,
        history: Samples::empty(alloc),
        marks: Marks::empty(alloc),
    }
}

/// What a recording leaves, beside the disk of an input, of which it asks nothing.
pub(crate) fn with_recording<A, C>(status: u8, first: A, recorded: Recorded<C>) -> Finished<A, C>
    ensures status { result.status ≡ status }
    ensures blamed { result.blamed ≡ None }
    ensures first { result.first ≡ first }
    ensures out { result.out ≡ recorded.out }
    ensures history { result.history ≡ recorded.history }
    ensures marks { result.marks ≡ recorded.marks }
{
    let Recorded {
        end: _,
        out,
        history,
        marks,
    } = recorded;
    Finished {
        status,
        blamed: None,
        first,
        out,
        history,
        marks,
    }
}
