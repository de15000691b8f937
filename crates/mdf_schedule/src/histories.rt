ghost use Rattle.std.specs.Prelude.{◌≡◌, ℕ, List, length};
ghost use Rattle.mdf_format.specs.declared.form.Form.{Form};
ghost use Rattle.mdf_group.specs.declared.row.GroupRow.{GroupRow};
ghost use Rattle.mdf_group.specs.Recordable.{AreRecordable};
ghost use Rattle.mdf_layout.specs.declared.sample.Sample.{Sample};
ghost use Rattle.mdf_model.specs.Measurement.{Measured};
ghost use Rattle.mdf_model.specs.InWords.{IsMeasurement};
ghost use Rattle.mdf_carried.specs.Recovers.{IsReadHead};
ghost use Rattle.mdf_tool.specs.declared.made.Report.{Report};
ghost use Rattle.tool_sort.specs.Same.{SameMeasured};
ghost use Rattle.tool_final.specs.Keeping.{IsFinalizedRecording};
ghost use Rattle.tool_final.specs.Finalize.{IsFinalizedOf};
ghost use Rattle.tool_sort.specs.Sort.{IsSorting};
ghost use Rattle.mdf_schedule.specs.Schedules.{IsRecordingOf, AgreeByGroup};

use mdf_carried::recoveries_agree;
use mdf_layout::rules_are_tested;
use mdf_model::{measurements_agree, what_is_read_is_the_measurement};
use tool_sort::one_sorted_file;

/// A law: two recordings of the same rows and start time, each of either form, whose histories have the same samples of each
/// group, say the same once they are finalized at one time.
pub fn one_measurement_of_each_schedule()
    ensures { (form also : Form) (start : ℕ) (rows : List GroupRow) (history other : List Sample) (file second : List ℕ) (now : ℕ) (final last : List ℕ) (m n : Measured)
        → AreRecordable rows → IsReadHead form start rows → IsReadHead also start rows
        → IsRecordingOf form start rows history file → IsRecordingOf also start rows other second
        → AgreeByGroup (length rows) history other
        → IsFinalizedRecording file now final → IsFinalizedRecording second now last
        → IsMeasurement final m.head m.history m.groups → IsMeasurement last n.head n.history n.groups → SameMeasured m n }
{
    rules_are_tested();
    recoveries_agree();
    measurements_agree();
}

/// A law: two recordings of the same rows and start time, each of either form, whose histories have the same samples of each
/// group, give the same bytes where both are finalized at one time and then sorted at one time, in whatever order the samples of the groups came.
pub fn one_sorted_file_of_each_schedule()
    ensures { (form also : Form) (start : ℕ) (rows : List GroupRow) (history other : List Sample) (file second : List ℕ) (now later : ℕ)
        (final last sorted resorted : List ℕ) (of_final of_last of_sorted of_resorted : Report)
        → AreRecordable rows → IsReadHead form start rows → IsReadHead also start rows
        → IsRecordingOf form start rows history file → IsRecordingOf also start rows other second
        → AgreeByGroup (length rows) history other
        → IsFinalizedOf file now final of_final → IsFinalizedOf second now last of_last
        → IsSorting final later sorted of_sorted → IsSorting last later resorted of_resorted → sorted ≡ resorted }
{
    one_measurement_of_each_schedule();
    what_is_read_is_the_measurement();
    one_sorted_file();
}
