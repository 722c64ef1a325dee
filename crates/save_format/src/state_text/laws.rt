//! Reading and writing a state are inverse, in each format. Each law is the contract of a function that does nothing.

ghost use Rattle.save_format.specs.ByteFields.Law.{IsReadInForms};
ghost use Rattle.save_format.specs.StateText.StateText.{state_at};
ghost use Rattle.save_format.specs.StateText.Encoded.{HasFieldIn, IsStateText, state_text_in};

/// Parsing an encoded state returns it, and every accepted text is the encoding of its state, in either format.
pub fn states_are_read_as_encoded()
    ensures { IsReadInForms state_at state_text_in (λ form s. IsStateText s × HasFieldIn form s.reservation) }
{}
