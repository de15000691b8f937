// The rules of a script: which line may stand behind which.
ghost use Rattle.std.specs.Prelude.{◌≡◌, IfOk, IsSome, OnErr};
ghost use Rattle.std.specs.Option.{option_map};
ghost use Rattle.script_line.specs.Text.{words_left};
ghost use Rattle.script_line.specs.Line as said;
ghost use Rattle.script_line.specs.Line.{IsSaid, IsForm};
ghost use Rattle.script_line.specs.View.{seen};
ghost use Rattle.acq_script.specs.declared.stage.Stage.TheVariants.{Planned, Running};
ghost use Rattle.acq_script.specs.Done.{done_as};
ghost use Rattle.acq_script.specs.Stage.{HasGroup, MayWant, Sound, first_stage, step};

use crate::script::Script;
use crate::sketch::{
    Preamble, Sketch, add_channel, add_group, add_unit, begun, first_sketch, opening_of,
};
use crate::task::{add_flush, add_sample};
use mdf_format::Form;
use mdf_num::Memory;
use script_line::{ChannelForm, Line};
use std::alloc::Global;
use std::mem::replace;

/// How many data bytes the limit of a block can be at most.
const MOST_BLOCK: u64 = 16_777_216;

/// What the limit of the samples' cost can be at most.
const MOST_SESSION: u64 = 268_435_456;

/// What the lines so far make.
#[derive(Drop)]
pub(crate) enum Stage {
    /// No group yet.
    Empty { preamble: Preamble },
    /// A plan whose groups are being named.
    Planned { sketch: Sketch },
    /// A plan that has ended, and what its sources do so far.
    Running { script: Script },
    /// The whole script.
    Ended { script: Script },
}

/// What there is before the first line.
pub(crate) fn first_stage() -> Stage
    ensures { result ≡ first_stage }
{
    Stage::Empty {
        preamble: Preamble {
            block: None,
            session: None,
            form: None,
            live: false,
        },
    }
}

/// What the line of a block's limit makes of a stage, if it is admitted.
fn with_block(stage: &Stage, limit: u64) -> Option<Stage>
    ensures { result ≡ step stage.now (said.Block limit) }
{
    let Stage::Empty { preamble } = stage else {
        return None;
    };
    if preamble.block.is_some() || limit < 1 || limit > MOST_BLOCK {
        return None;
    }
    Some(Stage::Empty {
        preamble: Preamble {
            block: Some(limit as u32),
            ..*preamble
        },
    })
}

/// What the line of the limit of the samples' cost makes of a stage, if it is admitted.
fn with_session(stage: &Stage, limit: u64) -> Option<Stage>
    ensures { result ≡ step stage.now (said.Session limit) }
{
    let Stage::Empty { preamble } = stage else {
        return None;
    };
    if preamble.session.is_some() || limit < 1 || limit > MOST_SESSION {
        return None;
    }
    Some(Stage::Empty {
        preamble: Preamble {
            session: Some(limit),
            ..*preamble
        },
    })
}

/// What the line of the form makes of a stage, if it is admitted.
fn with_form(stage: &Stage, number: u64) -> Option<Stage>
    ensures { result ≡ step stage.now (said.Form number) }
{
    let Stage::Empty { preamble } = stage else {
        return None;
    };
    if preamble.form.is_some() {
        return None;
    }
    let form = Form::numbered(number)?;
    Some(Stage::Empty {
        preamble: Preamble {
            form: Some(form),
            ..*preamble
        },
    })
}

/// What the line `live` makes of a stage, if it is admitted.
fn with_live(stage: &Stage) -> Option<Stage>
    ensures { result ≡ step stage.now said.Live }
{
    let Stage::Empty { preamble } = stage else {
        return None;
    };
    if preamble.live {
        return None;
    }
    Some(Stage::Empty {
        preamble: Preamble {
            live: true,
            ..*preamble
        },
    })
}

/// The plan as a stage, if it is admitted.
fn planned_by(found: Option<Sketch>) -> Option<Stage>
    ensures { result ≡ option_map Planned found }
{
    match found {
        Some(sketch) => Some(Stage::Planned { sketch }),
        None => None,
    }
}

/// The script as a stage, if it is admitted.
fn running_by(found: Option<Script>) -> Option<Stage>
    ensures { result ≡ option_map Running found }
{
    match found {
        Some(script) => Some(Stage::Running { script }),
        None => None,
    }
}

/// Puts a stage in the place of another, and answers whether there is one.
fn put(stage: &mut Stage, found: Option<Stage>) -> bool
    ensures { found ≡ done_as result stage.new }
{
    match found {
        Some(next) => {
            *stage = next;
            true
        }
        None => false,
    }
}

/// Takes a stage out of its place.
fn taken(stage: &mut Stage) -> Stage
    ensures { result ≡ stage.old }
{
    replace(stage, first_stage())
}

/// Whether an empty line or a comment is admitted behind the lines so far.
fn pass(stage: &Stage) -> bool
    ensures { step stage.now said.Passed ≡ done_as result stage.now }
{
    match stage {
        Stage::Ended { .. } => false,
        _ => true,
    }
}

/// Makes of a stage what the line of a block's limit makes of it.
fn limit_block(stage: &mut Stage, limit: u64) -> bool
    ensures { step stage.old (said.Block limit) ≡ done_as result stage.new }
{
    let found = with_block(stage, limit);
    put(stage, found)
}

/// Makes of a stage what the line of the limit of the samples' cost makes of it.
fn limit_session(stage: &mut Stage, limit: u64) -> bool
    ensures { step stage.old (said.Session limit) ≡ done_as result stage.new }
{
    let found = with_session(stage, limit);
    put(stage, found)
}

/// Makes of a stage what the line of the form makes of it.
fn choose_form(stage: &mut Stage, number: u64) -> bool
    ensures { step stage.old (said.Form number) ≡ done_as result stage.new }
{
    let found = with_form(stage, number);
    put(stage, found)
}

/// Makes of a stage what the line `live` makes of it.
fn show_live(stage: &mut Stage) -> bool
    ensures { step stage.old said.Live ≡ done_as result stage.new }
{
    let found = with_live(stage);
    put(stage, found)
}

/// Makes of a stage what the line of a group makes of it.
fn begin_group(alloc: Global, stage: &mut Stage, source: u64, name: &[u8]) -> Result<bool, Memory>
    requires { Sound stage.old }
    ensures found { IfOk result (λ done. step stage.old (said.Group source name.now) ≡ done_as done stage.new) }
    ensures wanted { OnErr result (IsSome (step stage.old (said.Group source name.now))) }
{
    match stage {
        Stage::Empty { preamble } => {
            let opening = opening_of(*preamble);
            let found = first_sketch(alloc, opening, source, name)?;
            Ok(put(stage, planned_by(found)))
        }
        Stage::Planned { sketch } => add_group(alloc, sketch, source, name),
        _ => Ok(false),
    }
}

/// Makes of a stage what the line of a channel makes of it.
fn name_channel(
    alloc: Global,
    stage: &mut Stage,
    name: &[u8],
    form: ChannelForm,
) -> Result<bool, Memory>
    requires stage { Sound stage.old }
    requires form { IsForm form }
    ensures found { IfOk result (λ done. step stage.old (said.Channel name.now form) ≡ done_as done stage.new) }
    ensures wanted { OnErr result (IsSome (step stage.old (said.Channel name.now form))) }
{
    match stage {
        Stage::Planned { sketch } => add_channel(alloc, sketch, name, form),
        _ => Ok(false),
    }
}

/// Makes of a stage what the line of a unit makes of it.
fn name_unit(alloc: Global, stage: &mut Stage, unit: &[u8]) -> Result<bool, Memory>
    ensures found { IfOk result (λ done. step stage.old (said.Measured unit.now) ≡ done_as done stage.new) }
    ensures wanted { OnErr result (IsSome (step stage.old (said.Measured unit.now))) }
{
    match stage {
        Stage::Planned { sketch } => add_unit(alloc, sketch, unit),
        _ => Ok(false),
    }
}

/// Makes of a stage what the line `begin` makes of it.
fn begin(alloc: Global, stage: &mut Stage) -> Result<bool, Memory>
    requires { Sound stage.old }
    ensures found { IfOk result (λ done. step stage.old said.Begin ≡ done_as done stage.new) }
    ensures wanted { OnErr result (IsSome (step stage.old said.Begin)) }
{
    match taken(stage) {
        Stage::Planned { sketch } => {
            let found = begun(alloc, sketch)?;
            Ok(put(stage, running_by(found)))
        }
        _ => Ok(false),
    }
}

/// Makes of a stage what the line of a sample makes of it: the sample is added to the script where that stands.
fn hand_in(
    alloc: Global,
    stage: &mut Stage,
    group: u64,
    values: Option<&[u8]>,
) -> Result<bool, Memory>
    requires { Sound stage.old }
    ensures found { IfOk result (λ done. step stage.old (said.Sample group (words_left values.entry)) ≡ done_as done stage.new) }
    ensures wanted { OnErr result (HasGroup stage.old group) }
{
    match stage {
        Stage::Running { script } => add_sample(alloc, script, group, values),
        _ => Ok(false),
    }
}

/// Makes of a stage what the line of a flush makes of it.
fn flush(alloc: Global, stage: &mut Stage, source: u64) -> Result<bool, Memory>
    requires { Sound stage.old }
    ensures found { IfOk result (λ done. step stage.old (said.Flush source) ≡ done_as done stage.new) }
    ensures wanted { OnErr result (IsSome (step stage.old (said.Flush source))) }
{
    match stage {
        Stage::Running { script } => add_flush(alloc, script, source),
        _ => Ok(false),
    }
}

/// The script of a running stage as one that has ended.
fn ended_by(stage: Stage) -> Option<Stage>
    ensures { result ≡ step stage said.End }
{
    match stage {
        Stage::Running { script } => Some(Stage::Ended { script }),
        _ => None,
    }
}

/// Makes of a stage what the line `end` makes of it.
fn end(stage: &mut Stage) -> bool
    ensures { step stage.old said.End ≡ done_as result stage.new }
{
    let found = ended_by(taken(stage));
    put(stage, found)
}

/// Makes of the lines before it, of which this stage was made, what the line makes of them, and answers whether a rule
/// admits it there. A stage that a line is not admitted behind is of no further use.
///
/// # Errors
/// `Memory`, only for a line that is admitted there, or for a sample of a group that there is.
pub(crate) fn step(alloc: Global, stage: &mut Stage, line: Line<'_>) -> Result<bool, Memory>
    requires stage { Sound stage.old }
    requires line { IsSaid (seen line) }
    ensures found { IfOk result (λ done. step stage.old (seen line.entry) ≡ done_as done stage.new) }
    ensures wanted { OnErr result (MayWant stage.old (seen line.entry)) }
{
    match line {
        Line::Sample { group, values } => hand_in(alloc, stage, group, values),
        Line::Passed => Ok(pass(stage)),
        Line::Flush { source } => flush(alloc, stage, source),
        Line::Block { limit } => Ok(limit_block(stage, limit)),
        Line::Session { limit } => Ok(limit_session(stage, limit)),
        Line::Form { number } => Ok(choose_form(stage, number)),
        Line::Live => Ok(show_live(stage)),
        Line::Group { source, name } => begin_group(alloc, stage, source, name),
        Line::Channel { name, form } => name_channel(alloc, stage, name, form),
        Line::Unit { name } => name_unit(alloc, stage, name),
        Line::Begin => begin(alloc, stage),
        Line::End => Ok(end(stage)),
    }
}
