//! FILE of the commands `left` and `kaem-left`: a stream, or a file of the guest.

ghost use Rattle.std.specs.Prelude.{◌≡◌, IsTrue};
ghost use Rattle.std.specs.List.{list_any};
ghost use Rattle.std.specs.Option.{option_copied};
ghost use Rattle.mem_files.specs.Names.{is_stripped_name, stripped};
ghost use Rattle.tool_commands.specs.GuestFiles.{as_guest_file, bytes_left_at, fits_one_line, is_control, is_left_word};

use command_plan::FileName;
use mem_files::{Files, is_stripped_name, strip};
use std::marker::Model;

/// A word that, without leading `./`, is a guest's file name and that fits one line. Contracts see its bytes.
#[derive(Drop)]
pub struct GuestFile<'w> {
    text: &'w str,
}

impl<'w> Model for GuestFile<'w> {
    ghost use Rattle.std.specs.Prelude.{List, ℕ, IsTrue};
    ghost use Rattle.mem_files.specs.Names.{is_stripped_name, stripped};

    ghost Value = { List ℕ };

    ghost view = { λ word. word.text.now };

    ghost invariant = { λ word. IsTrue (is_stripped_name (stripped word.text.now)) };
}

impl<'w> GuestFile<'w> {
    /// Reads a word as FILE; `None` where it is not a guest's file name that fits one line.
    pub fn read(word: &'w str) -> Option<GuestFile<'w>>
        ensures { result ≡ as_guest_file word.now }
    {
        if is_left_word(word) {
            Some(GuestFile { text: word })
        } else {
            None
        }
    }

    /// The word, with its leading `./`.
    pub fn text(&self) -> &'w str
        ensures value { result.now ≡ self.now }
        ensures name { IsTrue (is_stripped_name (stripped self.now)) }
    {
        self.text
    }
}

/// FILE, whose bytes are asked for, and OUT, under which they are saved.
#[derive(Drop)]
pub struct Wanted<'w> {
    pub file: GuestFile<'w>,
    pub out: FileName<'w>,
}

/// Whether FILE is a guest's file name that fits one line.
#[tactic(auto, unfolding(crate::specs::GuestFiles::is_left_word))]
fn is_left_word(file: &str) -> bool
    ensures value { result ≡ is_left_word file.now }
    ensures name { IsTrue result → IsTrue (is_stripped_name (stripped file.now)) }
{
    is_stripped_name(strip(file.as_bytes())) && fits_one_line(file)
}

/// Whether a word can be printed in one line: no byte of it is below 0x20 or is 0x7F.
fn fits_one_line(word: &str) -> bool
    ensures { result ≡ fits_one_line word.now }
{
    !has_control(word.as_bytes())
}

/// Whether one of the bytes is a control character of ASCII.
fn has_control(bytes: &[u8]) -> bool
    ensures { result ≡ list_any is_control bytes.now }
{
    bytes.iter().any(|byte| is_control(*byte))
}

/// Whether a byte is a control character of ASCII.
#[tactic(auto, unfolding(crate::specs::GuestFiles::is_control))]
fn is_control(byte: u8) -> bool
    ensures { result ≡ is_control byte }
{
    byte < 32 || byte == 127
}

/// The bytes left at FILE; `None` where there is no such file. `1` and `2` are the streams, any other word is a file's name.
#[tactic(auto, unfolding(crate::specs::GuestFiles::bytes_left_at))]
pub fn bytes_left_at<'a>(files: &'a Files, file: &GuestFile<'_>) -> Option<&'a [u8]>
    ensures { option_copied result ≡ bytes_left_at files.now file.now }
{
    let file = file.text();
    match file {
        "1" => Some(files.stream(1)),
        "2" => Some(files.stream(2)),
        _ => files.content(strip(file.as_bytes())),
    }
}
