ghost use Rattle.wheeler.specs.Largest.{AllImplement};
ghost use Rattle.wheeler.specs.Inside.LargestLaws.{carry-all};

use crate::meaning::Meaning;
use crate::semantics::Semantics;
use std::marker::PhantomData;

/// The meaning of a deterministic semantics: a source compiles another one if all that it prescribes implements the other.
pub struct Deterministic<S> {
    semantics: PhantomData<S>,
}

impl<S: Semantics> Meaning for Deterministic<S> {
    ghost prescribes = { S.prescribes };

    ghost compiles = { AllImplement S.prescribes };

    ghost fixed = { S.fixed };

    ghost carry = { carry-all S.prescribes };

    ghost literal = { S.literal };
}
