ghost use Rattle.std.specs.Prelude.{◌≡◌, ℕ, List, Ok};
ghost use Rattle.mdf_layout.specs.declared.sample.Sample.{Sample};
ghost use Rattle.mdf_session.specs.Session.{SessionParts, session};
ghost use Rattle.mdf_carried.specs.Recovered.{Recovery, IsRecovery, IsSessionOf};
ghost use Rattle.mdf_carried.specs.Limits.{IsWithinRecording};
ghost use Rattle.mdf_carried.specs.Samples.{HaveSamples, IsRecovered};

/// What is read of a recording is what it holds.
pub fn what_is_read_is_recovered()
    ensures { (file : List ℕ) (read : SessionParts) → session file ≡ Ok read
        → (found : Recovery) × IsRecovery file found × IsSessionOf found read }
{}

/// A file that holds a recording is read as that, where it is within the limits of the reader.
pub fn what_is_recovered_is_read()
    ensures { (file : List ℕ) (found : Recovery) → IsRecovery file found → IsWithinRecording file found
        → (read : SessionParts) × (session file ≡ Ok read) × IsSessionOf found read }
{}

/// Samples are recovered of each recording.
pub fn recordings_have_samples()
    ensures { (file : List ℕ) (found : Recovery) → IsRecovery file found → (samples : List Sample) × IsRecovered file samples }
{}

/// Of the samples that are recovered each group has its own, in their order.
pub fn groups_have_their_samples()
    ensures { (file : List ℕ) (samples : List Sample) → (is : IsRecovered file samples) → HaveSamples is.found samples }
{}

/// A recording holds one thing, and one list of samples is recovered of it.
pub fn recoveries_agree()
    ensures found { (file : List ℕ) (found other : Recovery) → IsRecovery file found → IsRecovery file other → found ≡ other }
    ensures samples { (file : List ℕ) (samples others : List Sample) → IsRecovered file samples → IsRecovered file others → samples ≡ others }
{}
