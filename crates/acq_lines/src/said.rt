ghost use Rattle.std.specs.Prelude.{◌≡◌, ◌<◌, [], length, All, Some, None, IfOk, IfErr, IfSome, OnErr};
ghost use Rattle.std.specs.List.{slice_index_or};
ghost use Rattle.std.specs.Option.{option_map};
ghost use Rattle.mdf_layout.specs.Record.{SampleFits};
ghost use Rattle.script_line.specs.Text.{words_left};
ghost use Rattle.acq_lines.specs.Rules.{MayCome, rules_of};
ghost use Rattle.acq_lines.specs.Said.{LineFaultComes, feds_for, logged_sample, said_by, sample_said};
ghost use Rattle.acq_lines.specs.declared.said.LineFault.TheVariants.{Bad};

use crate::LineRules;
use acq_run::Fed;
use acq_script::sample_of;
use mdf_layout::Sample;
use mdf_num::Memory;
use script_line::{Line, Width, line_of};
use std::alloc::Global;

/// Why a line says nothing to its source.
#[derive(Clone, Copy, Debug)]
pub enum LineFault {
    /// No rule admits it.
    Bad,
    /// Out of memory.
    Memory,
}

/// Which channels of a group take floats, and how wide they are.
fn widths_of<'a>(rules: &LineRules<'a>, group: u64) -> &'a [Option<Width>]
    ensures { result.now ≡ slice_index_or rules.now.floats.now group [] }
{
    match rules.floats.get(group as usize) {
        Some(widths) => widths.as_slice(),
        None => &[],
    }
}

/// The sample of this group of these values as a log has them, if they are admitted: a channel of floats has the number, and not its
/// bits.
fn logged_sample(
    alloc: Global,
    rules: &LineRules<'_>,
    group: u64,
    values: Option<&[u8]>,
) -> Result<Option<Sample>, Memory>
    ensures found { IfOk result (λ found. found ≡ logged_sample (rules_of rules.now) group (words_left values.entry)) }
    ensures fits { IfOk result (λ found. IfSome found (SampleFits rules.now.shapes.now)) }
    ensures wanted { OnErr result (group < length rules.now.shapes.now) }
{
    sample_of(alloc, rules.shapes, widths_of(rules, group), group, values)
}

/// What a sample says to a source: nothing good, if it is of a group of another source, or its records are longer than a block.
fn sample_said(rules: &LineRules<'_>, source: u8, sample: Sample) -> Result<Option<Fed>, LineFault>
    requires { SampleFits rules.now.shapes.now sample }
    ensures said { IfOk result (λ fed. sample_said (rules_of rules.now) source (Some sample) ≡ Some fed) }
    ensures may { IfOk result (λ fed. All (MayCome (rules_of rules.now) source) (feds_for (Some fed))) }
    ensures fault { IfErr result (λ fault. (fault ≡ Bad) × (sample_said (rules_of rules.now) source (Some sample) ≡ None)) }
{
    let owner = rules.owners[sample.group as usize];
    if owner != source || rules.shapes.encoded_size(&sample) > rules.block as u64 {
        return Err(LineFault::Bad);
    }
    Ok(Some(Fed::Sample(sample)))
}

/// What a line says to this source, which stands without its LF: a sample, a flush, the end, or nothing, if it is empty or a comment. None
/// is a line that is too long.
///
/// # Errors
/// `Bad` if no rule admits the line; `Memory`, and only for a sample of a group that there is.
pub fn said_by(
    alloc: Global,
    rules: &LineRules<'_>,
    source: u8,
    line: Option<&[u8]>,
) -> Result<Option<Fed>, LineFault>
    ensures said { IfOk result (λ fed. said_by (rules_of rules.now) source (option_map (λ bytes. bytes.now) line.entry) ≡ Some fed) }
    // What it hands in is the source's, and a book has room for it.
    ensures may { IfOk result (λ fed. All (MayCome (rules_of rules.now) source) (feds_for (Some fed))) }
    ensures fault { IfErr result (LineFaultComes (rules_of rules.now) source (option_map (λ bytes. bytes.now) line.entry)) }
{
    let Some(text) = line else {
        return Err(LineFault::Bad);
    };
    match line_of(text) {
        Some(Line::Passed) => Ok(None),
        Some(Line::Sample { group, values }) => match logged_sample(alloc, rules, group, values) {
            Ok(Some(sample)) => sample_said(rules, source, sample),
            Ok(None) => Err(LineFault::Bad),
            Err(Memory) => Err(LineFault::Memory),
        },
        Some(Line::Flush { source: number }) if number == u64::from(source) => Ok(Some(Fed::Flush)),
        Some(Line::End) => Ok(Some(Fed::End)),
        _ => Err(LineFault::Bad),
    }
}
