ghost use Rattle.std.specs.Prelude.{◌≡◌, ℕ, List, map, Ok};
ghost use Rattle.mdf_format.specs.declared.form.Form.{Form};
ghost use Rattle.mdf_group.specs.declared.row.GroupRow.{GroupRow};
ghost use Rattle.mdf_group.specs.Recordable.{AreRecordable};
ghost use Rattle.mdf_layout.specs.Layout.{Layout};
ghost use Rattle.mdf_layout.specs.declared.sample.Sample.{Sample};
ghost use Rattle.mdf_content.specs.Layouts.{layout_of};
ghost use Rattle.mdf_session.specs.Session.{SessionParts, session};
ghost use Rattle.mdf_spell.specs.Recording.{head_file, FindsHead, FindsGroups, IsRecordingTree};
ghost use Rattle.mdf_gate.specs.Carried.{Carries, IsCarried};
ghost use Rattle.mdf_carried.specs.Recovered.{Recovery, IsRecovery, AreIdsApart};
ghost use Rattle.mdf_carried.specs.Samples.{IsRecovered};
ghost use Rattle.mdf_carried.specs.Recovers.{IsReadHead, Recovers};

use mdf_layout::rules_are_tested;

/// A law: of a file in which the tree of a recording of these rows stands, just the samples are recovered that its opened
/// blocks carry by the layouts of the rows.
pub fn recovered_is_carried()
    ensures { (start : ℕ) (rows : List GroupRow) (file : List ℕ) (samples : List Sample) → AreRecordable rows
        → IsRecordingTree file start rows → IsCarried (map layout_of rows) file samples → IsRecovered file samples }
{
    rules_are_tested();
}

/// A law: of a file in which the tree of a recording of these rows stands, nothing is recovered in which a record id stands
/// twice.
pub fn recovered_ids_are_apart()
    ensures { (start : ℕ) (rows : List GroupRow) (file : List ℕ) (found : Recovery) → AreRecordable rows
        → IsRecordingTree file start rows → IsRecovery file found → AreIdsApart found }
{
    rules_are_tested();
}

/// A law: a file in which the tree of a recording of these rows stands and is found, and whose opened blocks carry samples by
/// the layouts of the rows, is read as a recording.
pub fn what_is_carried_is_read()
    ensures { (start : ℕ) (rows : List GroupRow) (file : List ℕ) (samples : List Sample) → AreRecordable rows
        → IsRecordingTree file start rows → FindsHead file start rows → FindsGroups file start rows
        → IsCarried (map layout_of rows) file samples → (found : SessionParts) × (session file ≡ Ok found) }
{
    rules_are_tested();
}

/// A law: a file that begins with the head of these rows, and carries a beginning of a history by their layouts, is read as a
/// recording, that beginning is recovered of it, and no record id stands twice in it.
pub fn what_is_carried_is_recovered()
    ensures { (form : Form) (start : ℕ) (rows : List GroupRow) (layouts : List Layout) (history : List Sample) (through : ℕ) (file : List ℕ)
        → AreRecordable rows → IsReadHead form start rows → layouts ≡ map layout_of rows
        → Carries layouts (head_file form start rows) history through file → Recovers history through file }
{
    recovered_is_carried();
    what_is_carried_is_read();
    recovered_ids_are_apart();
}
