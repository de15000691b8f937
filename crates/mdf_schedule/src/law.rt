ghost use Rattle.std.specs.Prelude.{◌≡◌, ℕ, List};
ghost use Rattle.acq_script.specs.Stage.{IsScript};
ghost use Rattle.acq_script.specs.declared.script.Script.{Script};
ghost use Rattle.mdf_carried.specs.Recovers.{IsReadHead};
ghost use Rattle.mdf_tool.specs.declared.made.Report.{Report};
ghost use Rattle.tool_final.specs.Finalize.{IsFinalizedOf};
ghost use Rattle.tool_sort.specs.Sort.{IsSorting};
ghost use Rattle.mdf_record.specs.Record.{Outcome};
ghost use Rattle.mdf_schedule.specs.Outcomes.{AgreeScripts, IsRecordedTo, LeavesWhole};

use crate::histories::one_sorted_file_of_each_schedule;

/// A law: two scripts of one plan that hand in the same samples of each group were recorded at one time, each whole. Then both
/// recordings give the same bytes where both are finalized at one time and then sorted at one time, however the sources were
/// served. So do two recordings of one script.
pub fn scripts_that_agree_give_one_sorted_file()
    ensures { (script other : Script) (start : ℕ) (left right : Outcome) (file second : List ℕ) (now later : ℕ)
        (final last sorted resorted : List ℕ) (of_final of_last of_sorted of_resorted : Report)
        → IsScript script → IsScript other → AgreeScripts script other → IsReadHead script.plan.form start script.plan.rows
        → LeavesWhole script start left file → LeavesWhole other start right second
        → IsFinalizedOf file now final of_final → IsFinalizedOf second now last of_last
        → IsSorting final later sorted of_sorted → IsSorting last later resorted of_resorted → sorted ≡ resorted }
{
    one_sorted_file_of_each_schedule();
}

/// A law: the same of what the command `record` says where it ended with no fault. Then the scripts are such, and their heads
/// are read, since the command says so.
pub fn recordings_that_agree_give_one_sorted_file()
    ensures { (script other : Script) (start : ℕ) (left right : Outcome) (file second : List ℕ) (now later : ℕ)
        (final last sorted resorted : List ℕ) (of_final of_last of_sorted of_resorted : Report)
        → AgreeScripts script other
        → IsRecordedTo script start left file → IsRecordedTo other start right second
        → IsFinalizedOf file now final of_final → IsFinalizedOf second now last of_last
        → IsSorting final later sorted of_sorted → IsSorting last later resorted of_resorted → sorted ≡ resorted }
{
    scripts_that_agree_give_one_sorted_file();
}
