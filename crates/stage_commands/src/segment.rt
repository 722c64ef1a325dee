//! `segment FROM TO`: checks that the state in TO is reached from that in FROM.

ghost use Rattle.std.specs.Prelude.{map};
ghost use Rattle.command_plan.specs.Performs.{Performs};
ghost use Rattle.command_plan.specs.Steps.{Says};
ghost use Rattle.stage_commands.specs.Segment.{piece_reported, segment_plan};
ghost use Rattle.stage_commands.specs.States.{piece_of};

use crate::texts;
use crate::words::segment_words;
use command_plan::{Answer, Status, Stop, fetch, usage};
use ddc_base::Shelf;
use ddc_base::limits::MOST_STATE;
use segments::{SegmentAnswer, SegmentFault, check};
use std::alloc::Global;

/// `segment FROM TO`: checks a segment of a run. Statuses 0, 1, 2, 10, 11, 13.
pub fn perform<S: Shelf>(alloc: Global, shelf: &mut S, words: &[&str]) -> Result<Answer, Stop>
    ensures { Performs (segment_plan (map (λ w. w.now) words.now)) (S.state shelf.old) (S.state shelf.new) result }
{
    let Some((from, to)) = segment_words(words) else {
        return usage(alloc);
    };
    let former = fetch(alloc, shelf, &from, MOST_STATE)?;
    let latter = fetch(alloc, shelf, &to, MOST_STATE)?;
    tell(alloc, former.as_slice(), latter.as_slice())
}

/// The answer on two texts: of how many steps their segment is, or why they are not one.
fn tell(alloc: Global, from: &[u8], to: &[u8]) -> Result<Answer, Stop>
    ensures { Says (piece_reported (piece_of from.now to.now)) result }
{
    match check(alloc, from, to) {
        SegmentAnswer::Yes(steps) => Ok(Answer {
            status: Status::Yes,
            text: texts::segment(alloc, steps)?,
        }),
        SegmentAnswer::No(why) => refuted(alloc, why),
        SegmentAnswer::OutOfMemory => Err(Stop::OutOfMemory),
    }
}

/// The answer to two texts that are not a segment.
fn refuted(alloc: Global, why: SegmentFault) -> Result<Answer, Stop>
    ensures { Says (piece_reported (Err why)) result }
{
    Ok(Answer {
        status: Status::Refuted,
        text: texts::refuted_segment(alloc, why)?,
    })
}
