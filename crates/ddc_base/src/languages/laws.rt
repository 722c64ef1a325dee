//! Laws of the definitions of languages.

ghost use Rattle.std.specs.Prelude.{◌≡◌, ℕ, List, Some};
ghost use Rattle.ddc_base.specs.Languages.Words.{language_named, language_word};
ghost use Rattle.ddc_base.specs.declared.languages.Language.{Language};

/// The name of a language names that language.
pub fn a_word_names_its_language()
    ensures { (language : Language) → language_named (language_word language) ≡ Some language }
{}

/// A word that names a language is the name of that language.
pub fn one_word_a_language()
    ensures { (word : List ℕ) (language : Language) → language_named word ≡ Some language → word ≡ language_word language }
{}
