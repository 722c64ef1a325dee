//! Why a stage's replay stops.

use crate::part::Part;

/// What stops the replay of a stage.
#[derive(Clone, Copy)]
pub(crate) enum JudgingStop {
    /// This part is not true.
    Refuted(Part),
    /// Memory ran out in this part.
    OutOfMemory(Part),
}
