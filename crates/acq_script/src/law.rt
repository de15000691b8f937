ghost use Rattle.std.specs.Prelude.{◌≡◌, Ok};
ghost use Rattle.acq_script.specs.Script.{script_of};
ghost use Rattle.acq_script.specs.Spelled.{Spelling, IsSpellable, spelled, script_said};

/// A law: the text that is spelled for some limits, a group with its channels, and what its source does is read as just
/// these.
pub fn spelled_is_read()
    ensures { (s : Spelling) → IsSpellable s → script_of (spelled s) ≡ Ok (script_said s) }
{}
