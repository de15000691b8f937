// The commands that record: `record OUT` and `gen N OUT`.
ghost use Rattle.std.specs.Prelude.{◌≡◌, ◌≢◌, ◌≤◌, List, ℕ, None, Some, Ok};
ghost use Rattle.mdf_format.specs.Cause.{Rose};
ghost use Rattle.mdf_port.specs.State.{sink_state, source_state};
ghost use Rattle.mdf_disk.specs.State.{state_of};
ghost use Rattle.acq_script.specs.Script.{script_of};
ghost use Rattle.acq_script.specs.declared.script.Script.{Script};
ghost use Rattle.acq_script.specs.Generated.{generated_script};
ghost use Rattle.mdf_record.specs.Record.{outcome};
ghost use Rattle.mdf_record.specs.Recorded.{EndsGenerated, EndsRecord};
ghost use Rattle.mdf_record.specs.Recovers.{AreRecovered};
ghost use Rattle.mdf_command.specs.Words.{IsInRange, recorded};
ghost use Rattle.mdf_command.specs.Asked.{IsOnlyMade};
ghost use Rattle.mdf_run.specs.Asked.{TakesNone};
ghost use Rattle.mdf_run.specs.Ends.{EndsRecording};
ghost use Rattle.mdf_run.specs.Kept.{IsDurable, Keeps};

use mdf_command::Origin;
use mdf_disk::Disk;
use mdf_num::Bytes;
use mdf_port::{Sink, Source};
use mdf_record::{Gate, Means, Recorded, run_generated, run_record};
use std::sync::Wait;
use std::thread::Threads;

/// Records the script of the source.
fn record_source<R, S, K, C, G>(
    means: &Means<'_, R, G>,
    output: &Bytes,
    source: &mut S,
    sink: &mut K,
    out: C,
) -> (u8, Recorded<C>)
where
    R: Threads + Wait + Sync,
    S: Source,
    K: Sink,
    C: Disk + Send,
    G: Gate + Sync,
    requires { C.asked out ≡ None }
    ensures ends { EndsRecord (source_state S.Source source.old) (source_state S.Source source.new) output.now means.now.now_ns (state_of C.Disk out)
        (outcome C.Disk result.1.out result.1.history.items result.1.marks.items)
        (sink_state K.Sink sink.old) (sink_state K.Sink sink.new) result.0 }
    ensures keeps { (text : List ℕ) → S.left source.old ≡ Some text → (script : Script) → script_of text ≡ Ok script
        → Keeps (C.moment out) means.now.now_ns script (state_of C.Disk result.1.out) result.1.history.items result.1.marks.items
        (sink_state K.Sink sink.old) (sink_state K.Sink sink.new) result.0 }
    ensures recovered { AreRecovered (C.moment out) (outcome C.Disk result.1.out result.1.history.items result.1.marks.items) }
    ensures durable { IsDurable result.0 result.1.history.items result.1.marks.items }
    ensures untouched { C.asked result.1.out ≡ None → result.1.out ≡ out }
    ensures usage { result.0 ≢ 1 }
    ensures source_fault { result.0 ≡ 2 → Rose (S.faults source.old) (S.faults source.new) }
    ensures device_fault { result.0 ≡ 4 → Rose (C.faults out) (C.faults result.1.out) }
    ensures sink_fault { result.0 ≡ 6 → Rose (K.faults sink.old) (K.faults sink.new) }
{
    run_record(means, output, source, sink, out)
}

/// Records the generated script of so many samples.
fn record_generated<R, K, C, G>(
    means: &Means<'_, R, G>,
    samples: u64,
    output: &Bytes,
    sink: &mut K,
    out: C,
) -> (u8, Recorded<C>)
where
    R: Threads + Wait + Sync,
    K: Sink,
    C: Disk + Send,
    G: Gate + Sync,
    requires asked { C.asked out ≡ None }
    requires samples { samples ≤ 1000000 }
    ensures ends { EndsGenerated samples output.now means.now.now_ns (state_of C.Disk out)
        (outcome C.Disk result.1.out result.1.history.items result.1.marks.items)
        (sink_state K.Sink sink.old) (sink_state K.Sink sink.new) result.0 }
    ensures keeps { Keeps (C.moment out) means.now.now_ns (generated_script samples) (state_of C.Disk result.1.out) result.1.history.items result.1.marks.items
        (sink_state K.Sink sink.old) (sink_state K.Sink sink.new) result.0 }
    ensures recovered { AreRecovered (C.moment out) (outcome C.Disk result.1.out result.1.history.items result.1.marks.items) }
    ensures durable { IsDurable result.0 result.1.history.items result.1.marks.items }
    ensures untouched { C.asked result.1.out ≡ None → result.1.out ≡ out }
    ensures usage { result.0 ≢ 1 }
    ensures source_fault { result.0 ≢ 2 }
    ensures device_fault { result.0 ≡ 4 → Rose (C.faults out) (C.faults result.1.out) }
    ensures sink_fault { result.0 ≡ 6 → Rose (K.faults sink.old) (K.faults sink.new) }
{
    run_generated(means, samples, output, sink, out)
}

/// Records the script of this origin into the output.
pub(crate) fn record<R, S, K, C, G>(
    means: &Means<'_, R, G>,
    origin: Origin,
    output: &Bytes,
    source: &mut S,
    sink: &mut K,
    out: C,
) -> (u8, Recorded<C>)
where
    R: Threads + Wait + Sync,
    S: Source,
    K: Sink,
    C: Disk + Send,
    G: Gate + Sync,
    requires asked { C.asked out ≡ None }
    requires numbers { IsInRange (recorded output.now origin) }
    ensures ends { EndsRecording origin output.now means.now.now_ns (source_state S.Source source.old) (source_state S.Source source.new) (state_of C.Disk out)
        (outcome C.Disk result.1.out result.1.history.items result.1.marks.items)
        (sink_state K.Sink sink.old) (sink_state K.Sink sink.new) result.0 }
    ensures output { IsOnlyMade C.Disk (Some output.now) out result.1.out }
    ensures source { TakesNone origin → source.new ≡ source.old }
{
    match origin {
        Origin::Source => record_source(means, output, source, sink, out),
        Origin::Generated { samples } => record_generated(means, samples, output, sink, out),
    }
}
