ghost use Rattle.std.specs.Prelude.{◌≡◌, ◌≢◌, ◌≤◌, ◌<◌, ◌^◌, ℕ, List, length, Ok, Some, true};
ghost use Rattle.mdf_format.specs.Identification.{standard_flags};
ghost use Rattle.mdf_group.specs.declared.row.DataRow.{DataRow};
ghost use Rattle.mdf_spell.specs.Standing.{AreBytes};
ghost use Rattle.mdf_model.specs.declared.tree.Tree.{Tree};
ghost use Rattle.mdf_model.specs.Tree.{tree};
ghost use Rattle.tool_complete.specs.Completed.{Split, completed_file, split_of};
ghost use Rattle.tool_complete.specs.Ended.{last_block, marked};
ghost use Rattle.tool_complete.specs.Flags.{has_bit};
ghost use Rattle.tool_complete.specs.InWords.{AreNumbers, AreSetIn, IsCountOfSplit, IsLastBlock, IsNamedIn, changes};
ghost use Rattle.tool_complete.specs.Settings.{AreFieldsIn};

/// Where the length of the last DTBLOCK is to be set and the data groups are found, it is the last that a data link of theirs names, or a
/// DLBLOCK of the chain from one lists; and where there is none, no data link leads to any.
pub fn what_is_the_last_block()
    ensures last { (file : List ℕ) (found : Tree) → 64 ≤ length file → has_bit (standard_flags file) 2 ≡ true → tree (marked file) ≡ Ok found
        → last_block file ≢ 0 → IsLastBlock (marked file) found.rows (last_block file) }
    ensures none { (file : List ℕ) (found : Tree) (at : ℕ) → 64 ≤ length file → has_bit (standard_flags file) 2 ≡ true → tree (marked file) ≡ Ok found
        → last_block file ≡ 0 → ¬ IsNamedIn (marked file) found.rows at }
{}

/// The completed file is the one that is marked as finalized with its changes, which lie in it: each byte outside of these is as before,
/// and where no two of them share a byte each number is read. A file of fewer than 2^44 bytes has no number that is too great for its field.
pub fn what_is_completed()
    ensures inside { (file : List ℕ) → 64 ≤ length file → AreFieldsIn (length file) (changes file) }
    ensures numbers { (file : List ℕ) → 64 ≤ length file → length file < 2 ^ 44 → AreBytes file → AreNumbers (changes file) }
    ensures set { (file : List ℕ) → 64 ≤ length file → AreSetIn (marked file) (changes file) (completed_file file) }
{}

/// What is counted of the stream of a data group is of its split into records and a rest: the whole records are those of the split, and
/// of each channel group as many as it has there.
pub fn what_is_counted()
    ensures { (file : List ℕ) (row : DataRow) (split : Split) → split_of file row ≡ Some split → IsCountOfSplit file row split }
{}
