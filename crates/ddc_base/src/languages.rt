//! The languages that ddc defines, by their names in recipes, reports and command lines.

ghost use Rattle.std.specs.Prelude.{◌≡◌, Some};
ghost use Rattle.ddc_base.specs.Languages.Words.{language_named, language_word};
ghost use Rattle.ddc_base.specs.declared.languages.Language.{Language};

pub mod laws;

/// A language of a bootstrap chain's first stages that ddc defines, so a source in it needs no trust in a program.
///
/// Public source: the languages of these names of stage0-posix and mescc-tools. docs/reference/ has the rules of each.
#[derive(Clone, Copy, PartialEq, Eq)]
pub enum Language {
    /// Hexadecimal digits with comments.
    Hex0,
    /// Hex0 with labels of one byte.
    Hex1,
    /// Hex1 with labels of any length.
    Hex2,
    /// A macro assembler whose output is hex2: definitions, numbers and texts.
    M1,
}

impl Language {
    /// The language that a word names (`hex0`, `hex1`, `hex2` or `m1`); `None` for every other word.
    #[tactic(auto, unfolding(crate::specs::Languages::Words::language_named))]
    pub fn named(word: &[u8]) -> Option<Language>
        ensures { result ≡ language_named word.now }
    {
        match word {
            b"hex0" => Some(Language::Hex0),
            b"hex1" => Some(Language::Hex1),
            b"hex2" => Some(Language::Hex2),
            b"m1" => Some(Language::M1),
            _ => None,
        }
    }

    /// The name of the language.
    #[tactic(auto, unfolding(crate::specs::Languages::Words::language_word))]
    pub fn word(self) -> &'static str
        ensures { result.now ≡ language_word self }
    {
        match self {
            Language::Hex0 => "hex0",
            Language::Hex1 => "hex1",
            Language::Hex2 => "hex2",
            Language::M1 => "m1",
        }
    }
}
