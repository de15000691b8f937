ghost use Rattle.std.specs.Prelude.{ℕ, ◌≡◌, List};
ghost use Rattle.mdf_model.specs.declared.part.Measure.{Measure};
ghost use Rattle.mdf_model.specs.Measurement.{Measured, with_content};
ghost use Rattle.mdf_content.specs.Samples.{AreSamples};
ghost use Rattle.mdf_group.specs.Standing.{AreDataGroups};
ghost use Rattle.mdf_spell.specs.Standing.{AreBytes};
ghost use Rattle.mdf_model.specs.InWords.{IsMeasurement};
ghost use Rattle.tool_sort.specs.Kept.{IsMeasureIn, StandsIn};
ghost use Rattle.tool_sort.specs.Same.{SameMeasured};
ghost use Rattle.tool_sort.specs.Sorted.{sorted_file};

/// The measurement of a file stands in it, where no conversion is the fifth that is open at once.
pub fn a_measurement_stands()
    ensures { (file : List ℕ) (m : Measured) → AreBytes file → (is : IsMeasurement file m.head m.history m.groups)
        → AreDataGroups file m.head.first_dg is.rows → StandsIn file m }
{}

/// A group stands in a file whatever records of its layout it has.
pub fn other_records_stand()
    ensures { (file : List ℕ) (m : Measure) (count : ℕ) (content : List ℕ) (streams : List (List ℕ))
        → IsMeasureIn file m → AreSamples m.shape count content streams → IsMeasureIn file (with_content m count content streams) }
{}

/// Measurements that say the same have the same sorted file, byte by byte, whatever files they were read of.
pub fn one_sorted_file()
    ensures { (m other : Measured) (title : List ℕ) (now : ℕ) → SameMeasured m other → sorted_file m title now ≡ sorted_file other title now }
{}
