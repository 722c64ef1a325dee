//! One line of a list of files.

ghost use Rattle.std.specs.Prelude.{◌≡◌, IsTrue, bytes_eq};
ghost use Rattle.std.specs.List.{list_any};
ghost use Rattle.mem_files.specs.Names.{is_file_name, stripped};
ghost use Rattle.tool_commands.specs.Scripts.{names_another};

use command_plan::lists::Listed;
use command_plan::{FileName, ListedWord};
use ddc_base::OutOfMemory;
use mem_files::strip;
use std::alloc::Global;
use std::marker::Model;

/// The word of a line. It names a file by its text without leading `./`. Contracts see its bytes.
#[derive(Drop)]
pub struct FileLine {
    word: ListedWord,
}

impl Model for FileLine {
    ghost use Rattle.std.specs.Prelude.{List, ℕ, IsTrue};
    ghost use Rattle.mem_files.specs.Names.{is_file_name, stripped};

    ghost Value = { List ℕ };

    ghost view = { λ line. line.word };

    ghost invariant = { λ line. IsTrue (is_file_name (stripped line.word)) };
}

impl Listed for FileLine {
    ghost use Rattle.tool_commands.specs.Scripts.{file_line};

    ghost form = { file_line };

    #[tactic(auto, unfolding(crate::specs::Scripts::file_line))]
    fn read(
        alloc: Global,
        earlier: &[FileLine],
        line: &[u8],
    ) -> Result<Option<FileLine>, OutOfMemory> {
        if !names_another(earlier, line) {
            return Ok(None);
        }
        match ListedWord::read(alloc, line)? {
            Some(word) => {
                word.show_listed();
                Ok(Some(FileLine { word }))
            }
            None => Ok(None),
        }
    }
}

impl FileLine {
    /// The word as text, with its leading `./`.
    pub fn as_str(&self) -> &str
        ensures { result.now ≡ self.now }
    {
        self.word.as_str()
    }

    /// The word as a file name, to load that file.
    pub fn name(&self) -> FileName<'_>
        ensures value { result ≡ self.now }
        ensures file { IsTrue (is_file_name (stripped self.now)) }
    {
        self.word.name()
    }
}

/// Whether a word names a file, and none of the earlier words names the same one.
fn names_another(earlier: &[FileLine], word: &[u8]) -> bool
    ensures { result ≡ names_another earlier.now word.now }
{
    let name = strip(word);
    !name.is_empty() && !is_named(earlier, name)
}

/// Whether one of these words names the file of this name.
fn is_named(words: &[FileLine], name: &[u8]) -> bool
    ensures { result ≡ list_any (λ word. bytes_eq (stripped word) name.now) words.now }
{
    words.iter().any(|word| denotes(word, name))
}

/// Whether a word names the file of this name.
fn denotes(word: &FileLine, name: &[u8]) -> bool
    ensures { result ≡ bytes_eq (stripped word.now) name.now }
{
    strip(word.as_str().as_bytes()) == name
}
