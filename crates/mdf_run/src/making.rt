// The commands that make a file of another one: `finalize IN OUT`, `sort IN OUT` and `cut IN OUT FROM TO`.
ghost use Rattle.std.specs.Prelude.{◌≡◌, Some, None};
ghost use Rattle.mdf_port.specs.State.{sink_state};
ghost use Rattle.mdf_disk.specs.State.{state_of};
ghost use Rattle.mdf_command.specs.Words.{IsInRange, made};
ghost use Rattle.mdf_command.specs.Asked.{IsOnlyMade, IsOnlyRead};
ghost use Rattle.mdf_run.specs.Ends.{EndsMake, Leaves};

use mdf_command::Product;
use mdf_disk::Disk;
use mdf_make::{FromOne, run_cut, run_finalize, run_sort};
use mdf_port::Sink;

/// Makes the output of the input. Answers the program's status.
pub(crate) fn make<K: Sink, A: Disk, C: Disk>(
    product: Product,
    from: &FromOne<'_>,
    sink: &mut K,
    first: &mut A,
    out: &mut C,
) -> u8
    requires numbers { IsInRange (made from.now.input.now from.now.output.now product) }
    requires first { A.asked first.old ≡ None }
    requires out { C.asked out.old ≡ None }
    ensures ends { EndsMake product from.now.now_ns (state_of A.Disk first.old) (state_of A.Disk first.new) (state_of C.Disk out.old) (state_of C.Disk out.new)
        (sink_state K.Sink sink.old) (sink_state K.Sink sink.new) result }
    ensures any_moment { Leaves product from.now.now_ns (state_of A.Disk first.old) (state_of C.Disk out.old) (state_of C.Disk out.new) }
    ensures input { IsOnlyRead A.Disk (Some from.now.input.now) first.old first.new }
    ensures output { IsOnlyMade C.Disk (Some from.now.output.now) out.old out.new }
{
    match product {
        Product::Finalized => run_finalize(from, sink, first, out),
        Product::Sorted => run_sort(from, sink, first, out),
        Product::Cut { from: start, to } => run_cut(from, start, to, sink, first, out),
    }
}
