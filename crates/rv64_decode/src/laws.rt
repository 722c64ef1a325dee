//! Laws of words and instructions alone. Each law is the contract of a function that does nothing.

ghost use Rattle.rv64_decode.specs.Laws.{HasOneWord, HasWordInForm};

/// No two words decode to one instruction.
pub fn no_instruction_has_two_words()
    ensures { HasOneWord }
{}

/// An instruction has a word exactly if its fields are valid in its operation's form.
pub fn the_instructions_in_form_have_words()
    ensures { HasWordInForm }
{}
