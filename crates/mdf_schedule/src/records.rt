ghost use Rattle.std.specs.Prelude.{◌≡◌, ℕ, List, [], slice_get, Some};
ghost use Rattle.mdf_layout.specs.Layout.{Layout};
ghost use Rattle.mdf_layout.specs.History.{group_samples};
ghost use Rattle.mdf_layout.specs.Behind.{IsEncodingBehind, AreEncodingsBehind};
ghost use Rattle.mdf_layout.specs.Read.{Piece};
ghost use Rattle.mdf_layout.specs.declared.sample.Sample.{Sample};
ghost use Rattle.mdf_schedule.specs.Records.{AreBytes, AreStored, AreRecords, IsIdOf, records_with};

/// A law: the records of a sample, with the bits of no channel 0, are one. They follow from the sample and from the earlier
/// samples of its group, whatever samples of other groups stand before it.
pub fn a_sample_has_one_record()
    ensures { (layouts : List Layout) (before others : List Sample) (bytes more : List ℕ) (sample : Sample) (layout : Layout)
        → slice_get layouts sample.group ≡ Some layout → AreStored layout → AreBytes bytes → AreBytes more
        → group_samples before sample.group ≡ group_samples others sample.group
        → IsEncodingBehind layouts before bytes sample → IsEncodingBehind layouts others more sample → bytes ≡ more }
{}

/// A law: in the records of two histories that agree on the samples of a group, the records with each of its ids are the same
/// ones in the same order: its own records, and those of the values of each of its channels of variable length.
pub fn groups_have_one_content()
    ensures { (layouts : List Layout) (bytes more : List ℕ) (history other : List Sample) (records others : List Piece) (k : ℕ) (layout : Layout)
        → slice_get layouts k ≡ Some layout → AreStored layout → AreBytes bytes → AreBytes more
        → AreEncodingsBehind layouts [] bytes history → AreEncodingsBehind layouts [] more other
        → AreRecords layouts bytes records → AreRecords layouts more others
        → group_samples history k ≡ group_samples other k
        → (id : ℕ) → IsIdOf layouts k layout id → records_with id records ≡ records_with id others }
{}
