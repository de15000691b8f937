ghost use Rattle.std.specs.Prelude.{◌≡◌, ℕ, List, []};
ghost use Rattle.mdf_layout.specs.Layout.{Layout};
ghost use Rattle.mdf_layout.specs.Behind.{AreEncodingsBehind};
ghost use Rattle.mdf_layout.specs.Read.{AreRead};
ghost use Rattle.mdf_layout.specs.declared.sample.Sample.{Sample};

/// A law: for layouts of all kinds, bytes are the records of one list of samples, and are read as one list; the records
/// of samples are read as these samples.
pub fn records_are_of_one_list()
    ensures written { (layouts : List Layout) (before : List Sample) (bytes : List ℕ) (samples others : List Sample)
        → AreEncodingsBehind layouts before bytes samples → AreEncodingsBehind layouts before bytes others → samples ≡ others }
    ensures read { (layouts : List Layout) (bytes : List ℕ) (samples others : List Sample)
        → AreRead layouts bytes samples → AreRead layouts bytes others → samples ≡ others }
    ensures both { (layouts : List Layout) (bytes : List ℕ) (samples : List Sample)
        → AreEncodingsBehind layouts [] bytes samples → AreRead layouts bytes samples }
{}
