ghost use Rattle.std.specs.Prelude.{◌≡◌, ◌⊎◌, ℕ, List};
ghost use mathlib.Core.List.{IsPrefix};
ghost use Rattle.acq_script.specs.declared.script.Script.{Script};
ghost use Rattle.mdf_format.specs.declared.form.Form.{Form};
ghost use Rattle.mdf_group.specs.declared.row.GroupRow.{GroupRow};
ghost use Rattle.mdf_group.specs.Recordable.{AreRecordable};
ghost use Rattle.mdf_layout.specs.declared.sample.Sample.{Sample};
ghost use Rattle.mdf_carried.specs.Recovers.{IsReadHead};
ghost use Rattle.mdf_gate.specs.Images.{IsNotMdf};
ghost use Rattle.mdf_tool.specs.declared.made.Report.{Report};
ghost use Rattle.tool_final.specs.Finalize.{IsFinalizedOf};
ghost use Rattle.mdf_schedule.specs.Forms.{HaveSameData};
ghost use Rattle.mdf_schedule.specs.Outcomes.{IsLeftBy};
ghost use Rattle.mdf_schedule.specs.Schedules.{IsLeftOf};

use mdf_carried::{recoveries_agree, what_is_read_is_recovered};
use mdf_layout::rules_are_tested;

/// A law: two recordings of the same rows and start time, each of either form, whose opened blocks have the same data, give the
/// same bytes where both are finalized at one time.
pub fn one_finalized_file_of_both_forms()
    ensures { (form also : Form) (start : ℕ) (rows : List GroupRow) (samples others : List Sample) (file second : List ℕ) (now : ℕ)
        (final last : List ℕ) (of_final of_last : Report)
        → AreRecordable rows → IsReadHead form start rows → IsReadHead also start rows
        → IsLeftOf form start rows samples file → IsLeftOf also start rows others second → HaveSameData file second
        → IsFinalizedOf file now final of_final → IsFinalizedOf second now last of_last → final ≡ last }
{
    rules_are_tested();
    recoveries_agree();
    what_is_read_is_recovered();
}

/// A law: what a crash leaves of what the command `record` writes is no MDF file, or what a recording leaves of a beginning of its
/// samples.
pub fn what_record_leaves()
    ensures { (script : Script) (start : ℕ) (file : List ℕ) (is : IsLeftBy script start file)
        → IsNotMdf file ⊎ ((samples : List Sample) × IsPrefix samples is.left.history × IsLeftOf script.plan.form start script.plan.rows samples file) }
{}

/// A law: of two files that a crash left of what the command `record` wrote, of scripts with the same rows and at one start time, each in
/// either form, whose opened blocks have the same data, one finalized file is made at one time.
pub fn one_finalized_file_of_what_record_leaves()
    ensures { (script other : Script) (start : ℕ) (file second : List ℕ) (now : ℕ) (final last : List ℕ) (of_final of_last : Report)
        → script.plan.rows ≡ other.plan.rows → IsLeftBy script start file → IsLeftBy other start second → HaveSameData file second
        → IsFinalizedOf file now final of_final → IsFinalizedOf second now last of_last → final ≡ last }
{
    one_finalized_file_of_both_forms();
    what_record_leaves();
    what_is_read_is_recovered();
}
