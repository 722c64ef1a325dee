ghost use Rattle.std.specs.Prelude.{◌≡◌, IfOk, IsTrue, string_bytes};
ghost use Rattle.std.specs.List.{list_all};
ghost use Rattle.recipe.specs.Text.Reading.{is_path, is_path_byte};

use ddc_base::OutOfMemory;
use std::alloc::Global;
use std::marker::Model;

/// A path of a file outside: 1 to 255 bytes from space to `~`. Contracts see these bytes.
#[derive(Drop)]
pub struct Path {
    text: String,
}

impl Model for Path {
    ghost use Rattle.std.specs.Prelude.{List, ℕ, IsTrue, string_bytes};
    ghost use Rattle.recipe.specs.Text.Reading.{is_path};

    ghost Value = { List ℕ };

    ghost view = { λ path. string_bytes path.text };

    ghost invariant = { λ path. IsTrue (is_path (string_bytes path.text)) };
}

impl Path {
    /// A path with a copy of this text. Error: out of memory.
    pub(crate) fn keep(alloc: Global, text: &str) -> Result<Path, OutOfMemory>
        requires { IsTrue (is_path text.now) }
        ensures { IfOk result (λ path. path ≡ text.now) }
    {
        Ok(Path {
            text: String::from_str(alloc, text)?,
        })
    }

    /// The path as text, by which a file store (`Shelf`) loads.
    pub fn as_str(&self) -> &str
        ensures value { result.now ≡ self.now }
        ensures path { IsTrue (is_path self.now) }
    {
        self.text.as_str()
    }
}

/// Whether a text is a path.
#[tactic(auto, unfolding(crate::specs::Text::Reading::is_path))]
pub fn is_path(text: &[u8]) -> bool
    ensures { result ≡ is_path text.now }
{
    !text.is_empty() && text.len() <= 255 && are_path_bytes(text)
}

/// Whether every byte is allowed in a path.
fn are_path_bytes(text: &[u8]) -> bool
    ensures { result ≡ list_all is_path_byte text.now }
{
    text.iter().all(|byte| matches!(*byte, 0x20..=0x7E))
}
