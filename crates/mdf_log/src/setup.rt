// The setup of a log.
ghost use Rattle.std.specs.Prelude.{◌≡◌, ◌++◌, ◌↔◌, true, [], Ok, length, replicate, IfOk, IfErr};
ghost use Rattle.mdf_port.specs.State.{source_state};
ghost use Rattle.acq_script.specs.Plan.{IsPlan};
ghost use Rattle.acq_script.specs.Script.{script_of};
ghost use Rattle.acq_script.specs.Stage.{IsScript};
ghost use Rattle.mdf_log.specs.Setup.{END, IsNoSetup, IsSetup, SaysSetup, SetupFaultComes, idle_script};

use acq_script::{Plan, Script, Task, read_script};
use mdf_command::{Fault, SCRIPT_LIMIT};
use mdf_num::{Bytes, Rows};
use mdf_port::{Source, take_all};
use std::alloc::Global;

/// Whether no source does anything.
fn is_idle(lists: &Rows<Rows<Task>>) -> bool
    ensures { (result ≡ true) ↔ (lists.now ≡ replicate (length lists.now) []) }
{
    lists.as_slice().iter().all(|tasks| tasks.is_empty())
}

/// The script that a text is with an end behind it.
fn script_in(alloc: Global, mut text: Bytes) -> Result<Script, Fault>
    ensures says { IfOk result (λ script. script_of (text ++ END) ≡ Ok script) }
    ensures script { IfOk result IsScript }
    ensures fault { IfErr result (IsNoSetup text) }
{
    text.push_slice(b"end\n")?;
    Ok(read_script(alloc, text.as_slice())?)
}

/// The plan of a script in which no source does anything.
fn idle_plan(script: Script) -> Result<Plan, Fault>
    requires { IsScript script }
    ensures idle { IfOk result (λ plan. script ≡ idle_script plan) }
    ensures busy { IfErr result (λ fault. (fault ≡ Fault.Script 0) × ¬ (script ≡ idle_script script.plan)) }
{
    let Script { plan, lists } = script;
    if !is_idle(&lists) {
        return Err(Fault::Script { line: 0 });
    }
    Ok(plan)
}

/// The plan of a setup.
fn setup_in(alloc: Global, text: Bytes) -> Result<Plan, Fault>
    ensures says { IfOk result (IsSetup text) }
    ensures plan { IfOk result IsPlan }
    ensures fault { IfErr result (IsNoSetup text) }
{
    let script = script_in(alloc, text)?;
    idle_plan(script)
}

/// Reads the setup of a source, which is taken whole: the front of a script up to its `begin`, of at most 67,108,864 bytes.
///
/// # Errors
/// `Source`, `ScriptOver` and `Memory` as of a script; `Script` with the number of the first line that no rule admits, or with 0
/// where all lines are admitted and one of them says that a source does something.
pub fn read_setup<S: Source>(alloc: Global, source: &mut S) -> Result<Plan, Fault>
    ensures says { IfOk result (SaysSetup (source_state S.Source source.old) (source_state S.Source source.new)) }
    ensures plan { IfOk result IsPlan }
    ensures fault { IfErr result (SetupFaultComes (source_state S.Source source.old) (source_state S.Source source.new)) }
{
    let text = take_all(alloc, source, SCRIPT_LIMIT)?;
    setup_in(alloc, text)
}
