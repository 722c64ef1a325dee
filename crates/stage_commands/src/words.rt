//! The arguments of the commands on one stage, one type for each set of them.

ghost use Rattle.std.specs.Prelude.{◌≡◌, ◌≤◌, IsTrue, map};
ghost use Rattle.ddc_base.specs.Limits.{most_states};
ghost use Rattle.stage_commands.specs.Inside.Words.{as_prefix, as_stage_word, cut_words, ends_words, left_words, named_left, named_stage, segment_words, stage_words};
ghost use Rattle.stage_commands.specs.Names.{as_states, is_prefix};

use crate::names::{is_prefix, states_of};
use command_plan::words::has_no_zero_byte;
use command_plan::{FileName, StepCount, two_files};
use std::marker::Model;
use tool_commands::guest_file::{GuestFile, Wanted};

/// STAGE: a word without a zero byte. Contracts see its bytes.
#[derive(Drop)]
pub(crate) struct StageWord<'w> {
    text: &'w str,
}

impl<'w> Model for StageWord<'w> {
    ghost use Rattle.std.specs.Prelude.{List, ℕ, IsTrue};
    ghost use Rattle.command_plan.specs.Words.{has_no_zero_byte};

    ghost Value = { List ℕ };

    ghost view = { λ word. word.text.now };

    ghost invariant = { λ word. IsTrue (has_no_zero_byte word.text.now) };
}

impl<'w> StageWord<'w> {
    /// Reads a word as STAGE; `None` where it has a zero byte.
    pub(crate) fn read(word: &'w str) -> Option<StageWord<'w>>
        ensures { result ≡ as_stage_word word.now }
    {
        if has_no_zero_byte(word) {
            Some(StageWord { text: word })
        } else {
            None
        }
    }

    /// The word.
    pub(crate) fn text(&self) -> &'w str
        ensures { result.now ≡ self.now }
    {
        self.text
    }
}

/// PREFIX, with which the names of states begin: 1 to 250 bytes, none of them zero. Contracts see the bytes.
#[derive(Drop)]
pub(crate) struct NamePrefix<'w> {
    text: &'w str,
}

impl<'w> Model for NamePrefix<'w> {
    ghost use Rattle.std.specs.Prelude.{List, ℕ, IsTrue};
    ghost use Rattle.stage_commands.specs.Names.{is_prefix};

    ghost Value = { List ℕ };

    ghost view = { λ word. word.text.now };

    ghost invariant = { λ word. IsTrue (is_prefix word.text.now) };
}

impl<'w> NamePrefix<'w> {
    /// Reads a word as PREFIX; `None` for all other words.
    pub(crate) fn read(word: &'w str) -> Option<NamePrefix<'w>>
        ensures { result ≡ as_prefix word.now }
    {
        if is_prefix(word) {
            Some(NamePrefix { text: word })
        } else {
            None
        }
    }

    /// The word.
    pub(crate) fn text(&self) -> &'w str
        ensures value { result.now ≡ self.now }
        ensures prefix { IsTrue (is_prefix self.now) }
    {
        self.text
    }
}

/// A number of states, from 1 to 1,000, both included. Contracts see the number.
#[derive(Clone, Copy)]
pub(crate) struct StateCount {
    count: u32,
}

impl Model for StateCount {
    ghost use Rattle.std.specs.Prelude.{ℕ, ◌≤◌};
    ghost use Rattle.ddc_base.specs.Limits.{most_states};

    ghost Value = { ℕ };

    ghost view = { λ states. states.count };

    ghost invariant = { λ states. (1 ≤ states.count) × (states.count ≤ most_states) };

    ghost inverse = { λ count. record { count = count } };
}

impl StateCount {
    /// Reads a number of states; `None` for all other words.
    pub(crate) fn read(word: &str) -> Option<StateCount>
        ensures { result ≡ as_states word.now }
    {
        let count = states_of(word)?;
        Some(StateCount { count })
    }

    /// The number.
    pub(crate) fn count(self) -> u32
        ensures value { result ≡ self }
        ensures some { 1 ≤ self }
        ensures most { self ≤ most_states }
    {
        self.count
    }
}

/// Reads the arguments `FROM TO` of `segment`; `None` for all others.
pub(crate) fn segment_words<'w>(words: &[&'w str]) -> Option<(FileName<'w>, FileName<'w>)>
    ensures { result ≡ segment_words (map (λ w. w.now) words.now) }
{
    let [from, to] = words else {
        return None;
    };
    two_files(from, to)
}

/// The arguments of `step`: a recipe, and the name of one of its stages.
#[derive(Drop)]
pub(crate) struct StageWords<'w> {
    pub recipe: FileName<'w>,
    pub stage: StageWord<'w>,
}

impl<'w> StageWords<'w> {
    /// Reads the arguments `RECIPE STAGE`; `None` for all others.
    pub(crate) fn read(words: &[&'w str]) -> Option<StageWords<'w>>
        ensures { result ≡ stage_words (map (λ w. w.now) words.now) }
    {
        let [recipe, stage] = words else {
            return None;
        };
        StageWords::of(recipe, stage)
    }

    /// Reads RECIPE and STAGE; `None` where one of them is not valid.
    fn of(recipe: &'w str, stage: &'w str) -> Option<StageWords<'w>>
        ensures { result ≡ named_stage recipe.now stage.now }
    {
        let recipe = FileName::read(recipe)?;
        let stage = StageWord::read(stage)?;
        Some(StageWords { recipe, stage })
    }
}

/// The arguments of `left`: a stage of a recipe, and FILE and OUT.
#[derive(Drop)]
pub(crate) struct LeftWords<'w> {
    pub target: StageWords<'w>,
    pub wanted: Wanted<'w>,
}

impl<'w> LeftWords<'w> {
    /// Reads the arguments `RECIPE STAGE FILE OUT`; `None` for all others.
    pub(crate) fn read(words: &[&'w str]) -> Option<LeftWords<'w>>
        ensures { result ≡ left_words (map (λ w. w.now) words.now) }
    {
        let [recipe, stage, file, out] = words else {
            return None;
        };
        LeftWords::of(recipe, stage, file, out)
    }

    /// Reads RECIPE, STAGE, FILE and OUT; `None` where one of them is not valid.
    #[tactic(auto, unfolding(crate::specs::Inside::Words::named_left))]
    fn of(recipe: &'w str, stage: &'w str, file: &'w str, out: &'w str) -> Option<LeftWords<'w>>
        ensures { result ≡ named_left recipe.now stage.now file.now out.now }
    {
        let (recipe, out) = two_files(recipe, out)?;
        let stage = StageWord::read(stage)?;
        let file = GuestFile::read(file)?;
        let target = StageWords { recipe, stage };
        let wanted = Wanted { file, out };
        Some(LeftWords { target, wanted })
    }
}

/// EVERY, the steps between two saved states, and PREFIX, the beginning of their names.
#[derive(Drop)]
pub(crate) struct Spacing<'w> {
    pub every: StepCount,
    pub prefix: NamePrefix<'w>,
}

/// The arguments of `cut`: a stage of a recipe, and EVERY and PREFIX.
#[derive(Drop)]
pub(crate) struct CutWords<'w> {
    pub target: StageWords<'w>,
    pub spacing: Spacing<'w>,
}

impl<'w> CutWords<'w> {
    /// Reads the arguments `RECIPE STAGE EVERY PREFIX`; `None` for all others.
    pub(crate) fn read(words: &[&'w str]) -> Option<CutWords<'w>>
        ensures { result ≡ cut_words (map (λ w. w.now) words.now) }
    {
        let [recipe, stage, every, prefix] = words else {
            return None;
        };
        let every = StepCount::read(every)?;
        let target = StageWords::of(recipe, stage)?;
        let prefix = NamePrefix::read(prefix)?;
        let spacing = Spacing { every, prefix };
        Some(CutWords { target, spacing })
    }
}

/// The arguments of `ends`: a stage of a recipe, the beginning of its states' names, and their number.
#[derive(Drop)]
pub(crate) struct EndsWords<'w> {
    pub target: StageWords<'w>,
    pub prefix: NamePrefix<'w>,
    pub states: StateCount,
}

impl<'w> EndsWords<'w> {
    /// Reads the arguments `RECIPE STAGE PREFIX COUNT`; `None` for all others.
    pub(crate) fn read(words: &[&'w str]) -> Option<EndsWords<'w>>
        ensures { result ≡ ends_words (map (λ w. w.now) words.now) }
    {
        let [recipe, stage, prefix, count] = words else {
            return None;
        };
        let states = StateCount::read(count)?;
        let target = StageWords::of(recipe, stage)?;
        let prefix = NamePrefix::read(prefix)?;
        Some(EndsWords {
            target,
            prefix,
            states,
        })
    }
}
