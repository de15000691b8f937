// What the words ask for is answered.
ghost use Rattle.std.specs.Prelude.{◌≡◌, None};
ghost use Rattle.mdf_port.specs.State.{sink_state};
ghost use Rattle.mdf_command.specs.Texts.{Prints, usage_line};
ghost use Rattle.mdf_command.specs.Words.{input_of, output_of, second_of};
ghost use Rattle.mdf_command.specs.Asked.{IsOnlyMade, IsOnlyRead};
ghost use Rattle.mdf_run.specs.Asked.{HasNumbers, TakesNothing, asked_by, file_asked};
ghost use Rattle.mdf_run.specs.Ends.{HasEnded};
ghost use Rattle.mdf_run.specs.Told.{told};

use crate::finished::{Finished, with_recording, without_recording};
use crate::making::make;
use crate::recording::record;
use crate::showing::show;
use crate::uniting::unite;
use mdf_command::{Command, run_usage};
use mdf_disk::Disk;
use mdf_inspect::Shown;
use mdf_make::{FromOne, FromTwo, Verdict};
use mdf_port::{Sink, Source};
use mdf_record::{Gate, Means};
use std::sync::Wait;
use std::thread::Threads;

/// Does what the words ask for, or prints the usage line where they ask for nothing.
pub(crate) fn answer<R, S, K, A, B, C, G>(
    means: &Means<'_, R, G>,
    command: Option<Command<'_>>,
    source: &mut S,
    sink: &mut K,
    first: A,
    second: &mut B,
    out: C,
) -> Finished<A, C>
where
    R: Threads + Wait + Sync,
    S: Source,
    K: Sink,
    A: Disk,
    B: Disk,
    C: Disk + Send,
    G: Gate + Sync,
    requires numbers { HasNumbers (asked_by command) }
    requires first { A.asked first ≡ None }
    requires second { B.asked second.old ≡ None }
    requires out { C.asked out ≡ None }
    ensures ended { HasEnded (asked_by command.entry)
        (told S.Source K.Sink A.Disk B.Disk C.Disk means.now.now_ns source.old source.new sink.old sink.new first second.old second.new out result) }
    ensures input { IsOnlyRead A.Disk (file_asked input_of (asked_by command.entry)) first result.first }
    ensures second { IsOnlyRead B.Disk (file_asked second_of (asked_by command.entry)) second.old second.new }
    ensures output { IsOnlyMade C.Disk (file_asked output_of (asked_by command.entry)) out result.out }
    ensures source { TakesNothing (asked_by command.entry) → source.new ≡ source.old }
{
    let alloc = means.alloc;
    let now_ns = means.now_ns;
    match command {
        Some(Command::Show { input, aspect }) => {
            let Shown { status, first } = show(alloc, aspect, input, sink, first);
            without_recording(alloc, Verdict::of_one(status), first, out)
        }
        Some(
            Command::Make {
                input,
                output,
                product,
            },
        ) => {
            let mut first = first;
            let mut out = out;
            let from = FromOne {
                alloc,
                input,
                output,
                now_ns,
            };
            let status = make(product, &from, sink, &mut first, &mut out);
            without_recording(alloc, Verdict::of_one(status), first, out)
        }
        Some(
            Command::Join {
                input,
                second: other,
                output,
                union,
            },
        ) => {
            let mut first = first;
            let mut out = out;
            let from = FromTwo {
                alloc,
                input,
                other,
                output,
                now_ns,
            };
            let verdict = unite(union, &from, sink, &mut first, second, &mut out);
            without_recording(alloc, verdict, first, out)
        }
        Some(Command::Record { output, origin }) => {
            let (status, recorded) = record(means, origin, output, source, sink, out);
            with_recording(status, first, recorded)
        }
        None => {
            let status = run_usage(sink);
            without_recording(alloc, Verdict::of_one(status), first, out)
        }
    }
}
