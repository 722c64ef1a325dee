use crate::meaning::Meaning;
use crate::semantics::Semantics;
use std::marker::PhantomData;

/// The semantics of a meaning: what it prescribes, without what it compiles.
pub struct OfMeaning<M> {
    meaning: PhantomData<M>,
}

impl<M: Meaning> Semantics for OfMeaning<M> {
    ghost prescribes = { M.prescribes };

    ghost fixed = { M.fixed };

    ghost literal = { M.literal };
}
