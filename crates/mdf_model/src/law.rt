ghost use Rattle.std.specs.Prelude.{◌≡◌, ◌↔◌, ℕ, List, ◌∷◌, Ok, Err, IsTrue};
ghost use Rattle.mdf_block.specs.Refusal.{Refusal};
ghost use Rattle.mdf_head.specs.Ident.{identify};
ghost use Rattle.mdf_head.specs.declared.entry.Head.{Head};
ghost use Rattle.mdf_head.specs.declared.entry.History.{History};
ghost use Rattle.mdf_group.specs.declared.row.ChannelRow.{ChannelRow};
ghost use Rattle.mdf_group.specs.declared.row.GroupRow.{GroupRow};
ghost use Rattle.mdf_model.specs.declared.part.Measure.{Measure};
ghost use Rattle.mdf_model.specs.Measurement.{Measured, measurement, found_measurement};
ghost use Rattle.mdf_model.specs.InWords.{IsMeasurement, IsValidFile};
ghost use Rattle.mdf_model.specs.declared.tree.Tree.{Tree};
ghost use Rattle.mdf_model.specs.Tree.{tree};
ghost use Rattle.mdf_model.specs.Limits.{IsWithinLimits};
ghost use Rattle.mdf_model.specs.Passed.{links_passed_over};
ghost use Rattle.mdf_model.specs.Same.{plain_flags, plain_channel, SameHead, SameRows};
ghost use Rattle.mdf_model.specs.Truth.{IsAboutData, IsTrueOfFile};

/// What is read of a file is its measurement.
pub fn what_is_read_is_the_measurement()
    ensures { (file : List ℕ) (m : Measured) → measurement file ≡ Ok m → IsMeasurement file m.head m.history m.groups }
{}

/// The measurement of a file is what is found of it, with the bytes there; and what is refused is so with the same fault.
pub fn what_is_found_is_read()
    ensures { (file : List ℕ) → measurement file ≡ found_measurement file }
{}

/// A file has one measurement.
pub fn measurements_agree()
    ensures { (file : List ℕ) (head other : Head) (history others : List History) (groups more : List Measure)
        → IsMeasurement file head history groups → IsMeasurement file other others more
        → (head ≡ other) × (history ≡ others) × (groups ≡ more) }
{}

/// A measurement that is read is strict exactly where its file is valid.
pub fn strict_is_valid()
    ensures { (file : List ℕ) (m : Measured) → measurement file ≡ Ok m → IsTrue m.strict ↔ IsValidFile file }
{}

/// A refusal is true of the file: of its identification, of a block at the address, or of one of its data groups.
pub fn a_refusal_is_true()
    ensures measured { (file : List ℕ) (refusal : Refusal) → measurement file ≡ Err refusal → IsTrueOfFile file refusal }
    ensures identified { (file : List ℕ) (refusal : Refusal) → identify file ≡ Err refusal → IsTrueOfFile file refusal }
{}

/// A file that has a measurement is read, where it is within the limits of the reader.
pub fn what_is_measured_is_read()
    ensures { (file : List ℕ) (head : Head) (history : List History) (groups : List Measure) → (is : IsMeasurement file head history groups)
        → IsWithinLimits file head history is.rows → (m : Measured) × (measurement file ≡ Ok m) }
{}

/// The count of links that were passed over is that of the file, be it a finalized one or a recording.
pub fn links_passed_over_are_counted()
    ensures tree { (file : List ℕ) (t : Tree) → tree file ≡ Ok t → t.dropped ≡ links_passed_over file t.rows }
    ensures measurement { (file : List ℕ) (m : Measured) (is : IsMeasurement file m.head m.history m.groups) → measurement file ≡ Ok m
        → m.dropped ≡ links_passed_over file is.rows }
{}

/// A file whose layouts, records, counts or values are refused has no measurement.
pub fn refused_data_has_no_measurement()
    ensures { (file : List ℕ) (refusal : Refusal) (head : Head) (history : List History) (groups : List Measure)
        → measurement file ≡ Err refusal → IsAboutData refusal → ¬ IsMeasurement file head history groups }
{}

/// A header says the same wherever its data groups stand, and so do channel groups, whatever their record ids and counts are.
pub fn what_is_placed_anew_is_the_same()
    ensures head { (head : Head) (at : ℕ) → SameHead head (record head { first_dg = at }) }
    ensures channel { (row : ChannelRow) (at values : ℕ) →
        plain_channel row ≡ plain_channel (record row { at = at; values = values; extra = 0; flags = plain_flags row }) }
    ensures rows { (row : GroupRow) (rows others : List GroupRow) (at id cycles : ℕ) → SameRows rows others
        → SameRows (row ∷ rows) (record row { at = at; id = id; cycles = cycles } ∷ others) }
{}
