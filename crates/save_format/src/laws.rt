//! Reading and writing a save are inverse, in each format. Each law is the contract of a function that does nothing.

ghost use Rattle.save_format.specs.ByteFields.Law.{IsReadInForms};
ghost use Rattle.save_format.specs.SaveText.{save_at};
ghost use Rattle.save_format.specs.Encoded.{IsSaveText, save_text_in};
ghost use Rattle.save_format.specs.StateText.Encoded.{HasFieldIn};

/// Parsing an encoded save returns it, and every accepted text is the encoding of its save, in either format.
pub fn saves_are_read_as_encoded()
    ensures { IsReadInForms save_at save_text_in (λ form save. IsSaveText save × HasFieldIn form save.state.reservation) }
{}
