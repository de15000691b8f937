ghost use Rattle.std.specs.Prelude.{◌≡◌, ◌≤◌, ◌∷◌, ℕ, List, [], Ok, Err, length, map, drop};
ghost use Rattle.mdf_block.specs.Refusal.{Refusal};
ghost use Rattle.mdf_data.specs.declared.known.Known.{Known};
ghost use Rattle.mdf_data.specs.declared.known.Piece.{Piece};
ghost use Rattle.mdf_data.specs.Places.{pieces, places_alone};
ghost use Rattle.mdf_data.specs.Split.{Record, IsRecordSplit, record_of, alone_at, IsRefusedAt};

/// A stream has one split into records and a rest.
pub fn record_splits_agree()
    ensures { (stream : List ℕ) (id_size : ℕ) (known : List Known) (empties : ℕ) (xs ys : List Record) (a b : List ℕ)
        → IsRecordSplit stream id_size known empties xs a → IsRecordSplit stream id_size known empties ys b → (xs ≡ ys) × (a ≡ b) }
{}

/// The records that are found in a whole stream are its split, and nothing is left.
pub fn records_are_the_split()
    ensures { (stream : List ℕ) (id_size : ℕ) (known : List Known) (found : List Piece) → 1 ≤ id_size
        → pieces stream (length stream) id_size known ≡ Ok found → IsRecordSplit stream id_size known 0 (map (record_of stream) found) [] }
{}

/// A refusal names the place where the rest of the split begins.
pub fn a_refusal_leaves_the_rest()
    ensures { (stream : List ℕ) (id_size : ℕ) (known : List Known) (refusal : Refusal) → 1 ≤ id_size
        → pieces stream (length stream) id_size known ≡ Err refusal
        → (place : ℕ) × (records : List Record) × IsRefusedAt refusal place × IsRecordSplit stream id_size known 0 records (drop place stream) }
{}

/// The records of a group that stands alone in a stream without ids, at the places that are told, are the split.
pub fn places_alone_are_the_split()
    ensures { (stream : List ℕ) (group : Known) (known : List Known) (empties : ℕ)
        → (rest : List ℕ) × IsRecordSplit stream 0 (group ∷ known) empties
        (map (alone_at stream group.size) (places_alone (length stream) empties group.size)) rest }
{}
