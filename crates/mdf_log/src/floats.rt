// The rules of the lines of a plan's inputs.
ghost use Rattle.std.specs.Prelude.{◌≡◌, IfOk};
ghost use Rattle.acq_script.specs.Plan.{IsPlan};
ghost use Rattle.acq_lines.specs.Rules.{rules_of};
ghost use Rattle.mdf_log.specs.Setup.{floats_in, rules_in, width_of, widths_of};

use acq_lines::LineRules;
use acq_script::Plan;
use mdf_group::{ChannelRow, GroupRow};
use mdf_num::{Memory, Rows};
use script_line::Width;
use std::alloc::Global;

/// How wide the floats of a channel are, if it has floats.
fn width_of(channel: &ChannelRow) -> Option<Width>
    ensures { result ≡ width_of channel.now }
{
    match (channel.data_type, channel.bits) {
        (4, 32) => Some(Width::Single),
        (4, 64) => Some(Width::Double),
        _ => None,
    }
}

/// How wide the floats of each channel of a group are.
fn widths_of(alloc: Global, row: &GroupRow) -> Result<Rows<Option<Width>>, Memory>
    ensures { IfOk result (λ widths. widths ≡ widths_of row.now) }
{
    let mut widths = Rows::empty(alloc);
    for channel in row.channels.as_slice() {
        widths.push(width_of(channel))?;
    }
    Ok(widths)
}

/// Which channels of each group of a plan have floats.
pub fn floats_of(alloc: Global, plan: &Plan) -> Result<Rows<Rows<Option<Width>>>, Memory>
    ensures { IfOk result (λ floats. floats ≡ floats_in plan.now) }
{
    let mut floats = Rows::empty(alloc);
    for row in plan.rows.as_slice() {
        floats.push(widths_of(alloc, row)?)?;
    }
    Ok(floats)
}

/// The rules of the lines of a plan's inputs, of whose channels these are floats.
pub fn rules_of<'a>(plan: &'a Plan, floats: &'a Rows<Rows<Option<Width>>>) -> LineRules<'a>
    requires plan { IsPlan plan.now }
    requires floats { floats.now ≡ floats_in plan.now }
    ensures { rules_of result ≡ rules_in plan.now }
{
    LineRules {
        shapes: &plan.shapes,
        floats: floats.as_slice(),
        owners: plan.owners.as_slice(),
        block: plan.block,
    }
}
