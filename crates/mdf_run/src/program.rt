ghost use Rattle.std.specs.Prelude.{◌≡◌, None};
ghost use Rattle.mdf_run.specs.Run.{
  RunBlames,
  RunKeeps,
  RunLeaves,
  RunPrints,
  RunRecovers,
  RunSucceeds,
  TouchesInput,
  TouchesOutput,
  TouchesSecond,
  TouchesSource,
};
ghost use Rattle.mdf_run.specs.Told.{told};

use crate::answer::answer;
use crate::finished::Finished;
use mdf_command::command_of;
use mdf_disk::Disk;
use mdf_num::{Bytes, Rows};
use mdf_port::{Sink, Source};
use mdf_record::{Gate, Means};
use std::alloc::Global;
use std::sync::Wait;
use std::thread::Threads;

/// Runs the command that the words name.
///
/// `now_ns` is the time in nanoseconds since 1970. The input file is read on `first`, a second one on `second`; a file
/// is made on `out`. Nothing was asked of these disks before.
///
/// What is promised of it stands in seven words: what it prints, what a recording keeps, what a reader recovers of one, which inputs
/// are sure to be made of and shown, what may be left of an output at any moment, which part or input has failed, and which disks
/// it touches.
pub fn run<R, S, K, A, B, C, G>(
    rt: &R,
    alloc: Global,
    words: &Rows<Bytes>,
    now_ns: u64,
    source: &mut S,
    sink: &mut K,
    first: A,
    second: &mut B,
    out: C,
    gate: &G,
) -> Finished<A, C>
where
    R: Threads + Wait + Sync,
    S: Source,
    K: Sink,
    A: Disk,
    B: Disk,
    C: Disk + Send,
    G: Gate + Sync,
    requires first { A.asked first ≡ None }
    requires second { B.asked second.old ≡ None }
    requires out { C.asked out ≡ None }
    ensures prints { RunPrints words.now
        (told S.Source K.Sink A.Disk B.Disk C.Disk now_ns source.old source.new sink.old sink.new first second.old second.new out result) }
    ensures keeps { RunKeeps words.now
        (told S.Source K.Sink A.Disk B.Disk C.Disk now_ns source.old source.new sink.old sink.new first second.old second.new out result) }
    ensures recovers { RunRecovers words.now
        (told S.Source K.Sink A.Disk B.Disk C.Disk now_ns source.old source.new sink.old sink.new first second.old second.new out result) }
    ensures succeeds { RunSucceeds words.now
        (told S.Source K.Sink A.Disk B.Disk C.Disk now_ns source.old source.new sink.old sink.new first second.old second.new out result) }
    ensures leaves { RunLeaves words.now
        (told S.Source K.Sink A.Disk B.Disk C.Disk now_ns source.old source.new sink.old sink.new first second.old second.new out result) }
    ensures blames { RunBlames words.now
        (told S.Source K.Sink A.Disk B.Disk C.Disk now_ns source.old source.new sink.old sink.new first second.old second.new out result) }
    ensures input { TouchesInput A.Disk words.now first result.first }
    ensures second { TouchesSecond B.Disk words.now second.old second.new }
    ensures output { TouchesOutput C.Disk words.now out result.out }
    ensures source { TouchesSource words.now source.old source.new }
{
    let command = command_of(words);
    let means = Means {
        rt,
        alloc,
        now_ns,
        gate,
    };
    answer(&means, command, source, sink, first, second, out)
}
