ghost use Rattle.std.specs.Prelude.{ℕ, List, ◌++◌, flat_map};
ghost use Rattle.std.specs.List.{AllZip};
ghost use Rattle.mdf_group.specs.declared.row.GroupRow.{GroupRow};
ghost use Rattle.mdf_group.specs.Recordable.{AreRecordable};
ghost use Rattle.mdf_layout.specs.declared.sample.Sample.{Sample};
ghost use Rattle.mdf_model.specs.Measurement.{Measured};
ghost use Rattle.tool_final.specs.Keeping.{HaveOwn};
ghost use Rattle.mdf_record.specs.Record.{Outcome};
ghost use Rattle.mdf_schedule.specs.Joined.{AreJoinedTo, IsFinished, IsFinishedOf, IsFinishedSince};

use mdf_carried::{recovered_is_carried, recoveries_agree};
use mdf_layout::rules_are_tested;
use mdf_model::measurements_agree;

/// A law: recordings of the same rows and start time are finished, and the measurements of their files joined, one behind the
/// other. Then each group of what is joined has just the samples of the group in all histories, one behind the other.
pub fn joined_recordings_have_the_whole_history()
    ensures { (start : ℕ) (rows : List GroupRow) (first : List Sample) (histories : List (List Sample)) (one : Measured) (later : List Measured) (whole : Measured)
        → AreRecordable rows → IsFinished start rows first one → AllZip (IsFinished start rows) histories later
        → AreJoinedTo one later whole → HaveOwn whole.groups (first ++ flat_map (λ history. history) histories) }
{
    rules_are_tested();
    recoveries_agree();
    recovered_is_carried();
    measurements_agree();
}

/// A law: the same of what the command `record` says where it ended with no fault, each time for a script of these rows, as it does
/// for the parts of one script.
pub fn recordings_of_one_plan_are_joined_whole()
    ensures { (start : ℕ) (rows : List GroupRow) (first : Outcome) (lefts : List Outcome) (one : Measured) (later : List Measured) (whole : Measured)
        → IsFinishedOf start rows first one → AllZip (IsFinishedOf start rows) lefts later
        → AreJoinedTo one later whole → HaveOwn whole.groups (first.history ++ flat_map (λ left. left.history) lefts) }
{
    joined_recordings_have_the_whole_history();
}

/// A law: the same of recordings that are all durable, whatever a crash since their last marks left of them, so of the parts of a
/// rotation that recorded its whole script.
pub fn durable_recordings_are_joined_whole()
    ensures { (start : ℕ) (rows : List GroupRow) (first : Outcome) (lefts : List Outcome) (one : Measured) (later : List Measured) (whole : Measured)
        → IsFinishedSince start rows first one → AllZip (IsFinishedSince start rows) lefts later
        → AreJoinedTo one later whole → HaveOwn whole.groups (first.history ++ flat_map (λ left. left.history) lefts) }
{
    joined_recordings_have_the_whole_history();
}
