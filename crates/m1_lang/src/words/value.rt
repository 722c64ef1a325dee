//! The values of definitions.

ghost use Rattle.std.specs.Prelude.{◌≡◌, IfSome, is_some};
ghost use Rattle.m1_lang.specs.Words.Forms.{value_tokens};
ghost use Rattle.m1_lang.specs.Words.Meanings.{MeansTokens};

use crate::words::meaning::{WordMeaning, value_meaning};
use hex_langs::items::Token;
use std::marker::Model;

/// The value of a definition, borrowed from the source. Contracts see its text. A field's four bytes are read only once.
#[derive(Drop)]
pub struct Value<'s> {
    text: &'s [u8],
    field: Option<u32>,
}

impl<'s> Model for Value<'s> {
    ghost use Rattle.std.specs.Prelude.{ℕ, List};
    ghost use Rattle.m1_lang.specs.Words.Representation.Meanings.{IsFieldOf};

    ghost Value = { List ℕ };

    ghost view = { λ v. v.text.now };

    ghost invariant = { λ v. IsFieldOf v.text.now v.field };
}

impl<'s> Value<'s> {
    /// The value that a text is: digits alone, or `.` and 8 digits; `None` for other texts.
    pub fn new(text: &'s [u8]) -> Option<Value<'s>>
        ensures some { is_some result ≡ is_some (value_tokens text.now) }
        ensures text { IfSome result (λ value. value ≡ text.now) }
    {
        match value_meaning(text) {
            None => None,
            Some(WordMeaning::One(Token::Field(mask))) => Some(Value {
                text,
                field: Some(mask),
            }),
            Some(_) => Some(Value { text, field: None }),
        }
    }

    /// The value's meaning.
    pub fn meaning(&self) -> Option<WordMeaning<'s>>
        ensures { MeansTokens result (value_tokens self.now) }
    {
        match self.field {
            Some(mask) => Some(WordMeaning::One(Token::Field(mask))),
            None => value_meaning(self.text),
        }
    }
}
