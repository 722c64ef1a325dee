//! Reading and writing a checkpoint relative to a base are inverse. Each law is the contract of a function that does nothing.

ghost use Rattle.save_format.specs.ByteFields.Law.{IsReadAsEncoded};
ghost use Rattle.save_format.specs.DeltaText.DeltaText.{IsDelta, delta_at, text_of_delta};
ghost use Rattle.save_format.specs.SaveText.{SaveText};
ghost use Rattle.save_format.specs.Encoded.{IsSaveText};

/// Parsing an encoded delta returns it, and every accepted text is the encoding of its delta, for each base.
pub fn deltas_are_read_as_encoded()
    ensures { (base : SaveText) → IsSaveText base → IsReadAsEncoded (delta_at base) (text_of_delta base) (IsDelta base) }
{}
