//! A command that saves what it loaded under two names.

ghost use Rattle.command_plan.specs.Performs.{Performs};
ghost use Rattle.command_plan.specs.Plan.{answers, sets};
ghost use Rattle.app_tests.specs.Copying.{copied_twice, kept_twice};

use command_plan::{Answer, FileName, Status, Stop, fetch, keep, store, texts};
use ddc_base::{Bytes, Shelf};
use std::alloc::Global;

/// Loads a file of at most four bytes, and saves it under two names.
#[tactic(auto, using(command_plan::proofs::Performing::performing), unfolding(crate::specs::Copying::copied_twice))]
pub fn copy_twice<S: Shelf>(
    alloc: Global,
    shelf: &mut S,
    source: &FileName<'_>,
    first: &FileName<'_>,
    second: &FileName<'_>,
) -> Result<Answer, Stop>
    ensures { Performs (copied_twice source.now first.now second.now) (S.state shelf.old) (S.state shelf.new) result }
{
    let content = fetch(alloc, shelf, source, 4)?;
    keep_twice(alloc, shelf, first, second, &content)
}

/// Saves a content under two names.
#[tactic(auto, using(command_plan::proofs::Performing::saving), unfolding(crate::specs::Copying::kept_twice))]
fn keep_twice<S: Shelf>(
    alloc: Global,
    shelf: &mut S,
    first: &FileName<'_>,
    second: &FileName<'_>,
    content: &Bytes,
) -> Result<Answer, Stop>
    ensures { Performs (kept_twice first.now second.now content.now) (S.state shelf.old) (S.state shelf.new) result }
{
    let answer = Answer {
        status: Status::Yes,
        text: texts::equal(alloc, content.len())?,
    };
    save_both(alloc, shelf, first, second, content, answer)
}

/// Saves a content under one name and then under the other, and gives the answer.
#[tactic(auto, using(command_plan::proofs::Performing::saving))]
fn save_both<S: Shelf>(
    alloc: Global,
    shelf: &mut S,
    first: &FileName<'_>,
    second: &FileName<'_>,
    content: &Bytes,
    answer: Answer,
) -> Result<Answer, Stop>
    ensures { Performs (sets first.now content.now (sets second.now content.now (answers answer.status answer.text)))
        (S.state shelf.old) (S.state shelf.new) result }
{
    store(alloc, shelf, first, content.as_slice())?;
    keep(alloc, shelf, second, content.as_slice(), answer)
}
