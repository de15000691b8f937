ghost use Rattle.std.specs.Prelude.{◌≡◌, length, All, Ok, IfOk, IfErr, OnOk};
ghost use Rattle.acq_script.specs.Plan.{IsPlan, TaskFits};
ghost use Rattle.acq_script.specs.Stage.{IsScript, Sound};
ghost use Rattle.acq_script.specs.Script.{GivesScript, FaultIs, MayWantFor, WantComes, WantsIn, after, ended, script_of};

use crate::ScriptFault;
use crate::script::Script;
use crate::stage::{Stage, first_stage, step};
use script_line::{cut, line_of};
use std::alloc::Global;

/// Makes of a stage what a line makes of it.
///
/// # Errors
/// `Line` exactly where no rule admits it there, with the number handed in; `Memory`, only for a line for which it may be
/// wanted there.
fn after(alloc: Global, stage: &mut Stage, line: u64, text: &[u8]) -> Result<(), ScriptFault>
    requires { Sound stage.old }
    ensures found { OnOk result (after stage.old line text.now ≡ Ok stage.new) }
    ensures sound { OnOk result (Sound stage.new) }
    ensures fault { IfErr result (λ fault. FaultIs fault (after stage.old line text.now)) }
    ensures wanted { IfErr result (WantComes (MayWantFor stage.old text.now)) }
{
    let Some(said) = line_of(text) else {
        return Err(ScriptFault::Line { line });
    };
    if step(alloc, stage, said)? {
        Ok(())
    } else {
        Err(ScriptFault::Line { line })
    }
}

/// The script, where it has ended and nothing stands behind its last LF.
///
/// # Errors
/// `Line` exactly where it has not or something does, with the number handed in.
fn ended(stage: Stage, line: u64, rest: &[u8]) -> Result<Script, ScriptFault>
    requires { Sound stage }
    ensures found { GivesScript result (ended stage line rest.now) }
    ensures sound { IfOk result IsScript }
    ensures wanted { IfErr result (WantComes ⊥) }
{
    match stage {
        Stage::Ended { script } if rest.is_empty() => Ok(script),
        _ => Err(ScriptFault::Line { line }),
    }
}

/// The script that bytes are.
fn script_of(alloc: Global, bytes: &[u8]) -> Result<Script, ScriptFault>
    ensures found { GivesScript result (script_of bytes.now) }
    ensures sound { IfOk result IsScript }
    ensures wanted { IfErr result (WantComes (WantsIn bytes.now)) }
{
    let mut stage = first_stage();
    let mut line = 1;
    let (mut text, mut rest) = cut(bytes, b'\n');
    while let Some(behind) = rest {
        after(alloc, &mut stage, line, text)?;
        line += 1;
        (text, rest) = cut(behind, b'\n');
    }
    ended(stage, line, text)
}

/// Reads a script: a plan of groups of channels, and for each source what it does.
///
/// # Errors
/// `Line` exactly where that line, counted from 1, is the first that no rule admits after the lines before it, a
/// missing `end` being the line after the last one; `Memory`, only for a line before which each line is admitted, and which
/// is admitted too or a sample of a group that there is.
pub fn read_script(alloc: Global, bytes: &[u8]) -> Result<Script, ScriptFault>
    // What is read is the script that the bytes are, and a line that is refused is the first that no rule admits.
    ensures found { GivesScript result (script_of bytes.now) }
    // The rows can be recorded, and the layouts are theirs.
    ensures plan { IfOk result (λ script. IsPlan script.plan) }
    // Each sample fits, and its records are no longer than a block.
    ensures samples { IfOk result (λ script. All (λ tasks. All (TaskFits script.plan) tasks) script.lists) }
    // There is a list for each source, and its samples are of the source's groups.
    ensures lists { IfOk result (λ script. length script.lists ≡ script.plan.sources) }
    ensures script { IfOk result IsScript }
    // Want of memory stands for no fault of an earlier line, for no line of no form, and for no end that is missing.
    ensures wanted { IfErr result (WantComes (WantsIn bytes.now)) }
{
    script_of(alloc, bytes)
}
