ghost use Rattle.std.specs.Prelude.{◌≡◌, Some};
ghost use Rattle.recipe.specs.Text.Keys.{key_word, table_word};

use std::fmt;

/// A kind of table of a recipe.
#[derive(Clone, Copy, Debug)]
pub enum Table {
    /// The whole text.
    Top,
    Input,
    Source,
    Stage,
    Compare,
}

/// A key of a recipe's tables.
#[derive(Clone, Copy, Debug)]
pub enum Key {
    Format,
    Input,
    Source,
    Stage,
    Compare,
    Name,
    Path,
    Implements,
    Lang,
    Base,
    Files,
    Program,
    Args,
    Env,
    From,
    Output,
    Steps,
    Heap,
    Check,
    Becomes,
    Stages,
    Binary,
}

/// A table of a recipe: its kind and its number from 1, or 0 for the top and for compare.
#[derive(Clone, Copy, Debug)]
pub struct Place {
    pub table: Table,
    pub number: u32,
}

impl Table {
    /// The table's word in lower case, which `Display` prints.
    pub fn word(self) -> &'static str
        ensures { result.now ≡ table_word self }
    {
        match self {
            Table::Top => "top",
            Table::Input => "input",
            Table::Source => "source",
            Table::Stage => "stage",
            Table::Compare => "compare",
        }
    }
}

impl Key {
    /// The key as a recipe spells it, which `Display` prints.
    pub fn word(self) -> &'static str
        ensures { result.now ≡ key_word self }
    {
        match self {
            Key::Format => "format",
            Key::Input => "input",
            Key::Source => "source",
            Key::Stage => "stage",
            Key::Compare => "compare",
            Key::Name => "name",
            Key::Path => "path",
            Key::Implements => "implements",
            Key::Lang => "lang",
            Key::Base => "base",
            Key::Files => "files",
            Key::Program => "program",
            Key::Args => "args",
            Key::Env => "env",
            Key::From => "from",
            Key::Output => "output",
            Key::Steps => "steps",
            Key::Heap => "heap",
            Key::Check => "check",
            Key::Becomes => "becomes",
            Key::Stages => "stages",
            Key::Binary => "binary",
        }
    }
}

impl fmt::Display for Table {
    ghost output = { λ table. Some (table_word table) };

    fn fmt<W: fmt::Write>(&self, f: &mut fmt::Formatter<W>) -> fmt::Result {
        f.write_str(self.word())
    }
}

impl fmt::Display for Key {
    ghost output = { λ key. Some (key_word key) };

    fn fmt<W: fmt::Write>(&self, f: &mut fmt::Formatter<W>) -> fmt::Result {
        f.write_str(self.word())
    }
}
