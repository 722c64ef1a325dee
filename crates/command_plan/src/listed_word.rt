ghost use Rattle.std.specs.Prelude.{◌≡◌, IfOk, IsTrue, string_bytes};
ghost use Rattle.std.specs.List.{list_all};
ghost use Rattle.command_plan.specs.Lists.{is_listed_word, is_listed_byte, listed_word};

use crate::file_name::FileName;
use ddc_base::OutOfMemory;
use std::alloc::Global;
use std::marker::Model;
use std::str;

/// A word of a list: 1 to 255 bytes, each from `!` to `~`. Contracts see these bytes.
#[derive(Drop)]
pub struct ListedWord {
    text: String,
}

impl Model for ListedWord {
    ghost use Rattle.std.specs.Prelude.{List, ℕ, IsTrue, string_bytes};
    ghost use Rattle.command_plan.specs.Lists.{is_listed_word};

    ghost Value = { List ℕ };

    ghost view = { λ word. string_bytes word.text };

    ghost invariant = { λ word. IsTrue (is_listed_word (string_bytes word.text)) };
}

impl ListedWord {
    /// The text as a listed word; `None` if it is not one. Error: out of memory.
    pub fn read(alloc: Global, text: &[u8]) -> Result<Option<ListedWord>, OutOfMemory>
        ensures { IfOk result (λ word. word ≡ listed_word text.now) }
    {
        if !is_listed_word(text) {
            return Ok(None);
        }
        match str::from_utf8(text) {
            Ok(text) => Ok(Some(ListedWord::keep(alloc, text)?)),
            // The bytes are ASCII.
            Err(_) => unreachable!(),
        }
    }

    /// A copy of a listed word's text.
    fn keep(alloc: Global, text: &str) -> Result<ListedWord, OutOfMemory>
        requires { IsTrue (is_listed_word text.now) }
        ensures { IfOk result (λ word. word ≡ text.now) }
    {
        Ok(ListedWord {
            text: String::from_str(alloc, text)?,
        })
    }

    /// The word as text.
    pub fn as_str(&self) -> &str
        ensures value { result.now ≡ self.now }
        ensures word { IsTrue (is_listed_word self.now) }
    {
        self.text.as_str()
    }

    /// Proves that the word is a listed word; does nothing else.
    pub fn show_listed(&self)
        ensures { IsTrue (is_listed_word self.now) }
    {
        let _ = &self.text;
    }

    /// The word as the name of a file.
    #[tactic(auto, using(crate::proofs::Listing::word_names))]
    pub fn name(&self) -> FileName<'_>
        ensures { result ≡ self.now }
    {
        FileName::of(self.as_str())
    }
}

/// Whether a text is a listed word.
#[tactic(auto, unfolding(crate::specs::Lists::is_listed_word))]
fn is_listed_word(text: &[u8]) -> bool
    ensures { result ≡ is_listed_word text.now }
{
    !text.is_empty() && text.len() <= 255 && are_word_bytes(text)
}

/// Whether every byte is allowed in a listed word.
fn are_word_bytes(text: &[u8]) -> bool
    ensures { result ≡ list_all is_listed_byte text.now }
{
    text.iter().all(|byte| matches!(*byte, 0x21..=0x7E))
}
