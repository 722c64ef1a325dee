ghost use Rattle.std.specs.Prelude.{◌≡◌, ◌<◌, ◌==◌, IfSome, length};
ghost use Rattle.std.specs.List.{after_first, before_first, position};

use command_plan::ListedWord;
use command_plan::lists::Listed;
use ddc_base::OutOfMemory;
use std::alloc::Global;

/// A line of a list of audits: the names of a recipe and of its report.
#[derive(Drop)]
pub struct Pair {
    /// The name of a recipe's file.
    pub recipe: ListedWord,
    /// The name of its report's file.
    pub report: ListedWord,
}

impl Listed for Pair {
    ghost use Rattle.verify_commands.specs.Chain.{pair_of};

    ghost form = { pair_of };

    #[tactic(auto, unfolding(crate::specs::Chain::pair_of))]
    fn read(alloc: Global, _earlier: &[Pair], line: &[u8]) -> Result<Option<Pair>, OutOfMemory> {
        let (recipe, report) = cut_at_blank(line);
        match ListedWord::read(alloc, recipe)? {
            Some(recipe) => match ListedWord::read(alloc, report)? {
                Some(report) => Ok(Some(Pair { recipe, report })),
                None => Ok(None),
            },
            None => Ok(None),
        }
    }
}

/// The bytes before the first blank of a line, and those after it; all of the line and nothing where there is no blank.
fn cut_at_blank(line: &[u8]) -> (&[u8], &[u8])
    ensures before { result.0.now ≡ before_first (λ byte. byte == 32) line.now }
    ensures after { result.1.now ≡ after_first (λ byte. byte == 32) line.now }
{
    match blank_at(line) {
        Some(at) => (&line[..at], &line[at + 1..]),
        None => (line, &[]),
    }
}

/// The index of the first blank; `None` where there is no blank.
fn blank_at(line: &[u8]) -> Option<usize>
    ensures index { result ≡ position (λ byte. byte == 32) line.now }
    ensures within { IfSome result (λ at. at < length line.now) }
{
    line.iter().position(|byte| *byte == b' ')
}
