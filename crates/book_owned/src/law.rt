ghost use Rattle.std.specs.Prelude.{ℕ, ◌*◌, ◌≤◌, ◌↔◌, List, drop, Option};
ghost use mathlib.Core.List.{IsPrefix};
ghost use Rattle.mdf_disk.specs.Story.{Story};
ghost use Rattle.mdf_disk.specs.State.{DiskState};
ghost use Rattle.mdf_layout.specs.Layout.{Layout};
ghost use Rattle.mdf_layout.specs.Record.{history_size};
ghost use Rattle.mdf_layout.specs.declared.sample.Sample.{Sample};
ghost use Rattle.book_owned.specs.Marks.{durable};
ghost use Rattle.book_owned.specs.Account.{Terms};
ghost use Rattle.book_owned.specs.Kept.{IsKept};
ghost use Rattle.book_owned.specs.BackHalf.{Keeps};
ghost use Rattle.book_owned.specs.FrontHalf.{AreThroughs};
ghost use Rattle.book_owned.specs.declared.mark.Mark.{Mark};

/// A law: what a file keeps of samples and marks it keeps of every longer list of samples and of every beginning of the
/// marks. What a book keeps is what its file keeps of its history and marks, beside that each mark has more samples than
/// the one before it, and what is pending.
pub fn keeps_law()
    ensures longer { (layouts : List Layout) (head : List ℕ) (start : ℕ) (story : Option Story) (clock : ℕ) (samples longer : List Sample) (marks : List Mark)
        → IsPrefix samples longer → Keeps layouts head start story clock samples marks → Keeps layouts head start story clock longer marks }
    ensures fewer { (layouts : List Layout) (head : List ℕ) (start : ℕ) (story : Option Story) (clock : ℕ) (samples : List Sample) (marks fewer : List Mark)
        → IsPrefix fewer marks → Keeps layouts head start story clock samples marks → Keeps layouts head start story clock samples fewer }
    ensures book { (terms : Terms) (disk : DiskState) (history : List Sample) (marks : List Mark)
        → IsKept terms disk history marks ↔ (Keeps terms.layouts terms.head terms.start disk.story disk.moment history marks × AreThroughs marks
        × (history_size terms.layouts (drop (durable marks) history) ≤ 2 * terms.block_limit)) }
{}
