ghost use Rattle.std.specs.Prelude.{◌≡◌, ◌-◌, ◌⊎◌, ℕ, List, length, min};
ghost use Rattle.mdf_format.specs.Number.{bytes_at};
ghost use Rattle.mdf_format.specs.declared.kind.Kind.{Kind};
ghost use Rattle.mdf_format.specs.declared.kind.Kind.TheVariants.{Dt, Sd};
ghost use Rattle.mdf_stream.specs.declared.part.Part.{Part};
ghost use Rattle.mdf_stream.specs.Parts.{stream_of, stream_size, ArePartsInside};
ghost use Rattle.mdf_stream.specs.Range.{parts_between};
ghost use Rattle.mdf_stream.specs.Stream.{IsStream};

/// A link to data has one stream.
pub fn streams_agree()
    ensures { (file : List ℕ) (link : ℕ) (kind : Kind) (xs ys : List ℕ) → (kind ≡ Dt) ⊎ (kind ≡ Sd)
        → IsStream file link kind xs → IsStream file link kind ys → xs ≡ ys }
{}

/// The parts of a range of a stream have the bytes of that range, as many as the stream has there.
pub fn a_range_has_its_bytes()
    ensures bytes { (file : List ℕ) (parts : List Part) (at len : ℕ) → ArePartsInside (length file) parts
        → stream_of file (parts_between parts at len) ≡ bytes_at len (stream_of file parts) at }
    ensures size { (parts : List Part) (at len : ℕ) → stream_size (parts_between parts at len) ≡ min (stream_size parts - at) len }
{}
