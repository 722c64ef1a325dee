use ddc_base::ListOf;
use recipe::{Inputs, Recipe};
use wheeler::Assumption;

/// An audit: a recipe, and the contents of its inputs in the recipe's order.
#[derive(Drop)]
pub struct Link {
    pub recipe: Recipe,
    pub inputs: Inputs,
}

/// A list of audits.
pub type ChainLinks = ListOf<Link>;

/// An assumption that is left.
#[derive(Drop)]
pub struct ChainLine {
    /// The number of its audit, from 1.
    pub audit: u32,
    pub line: Assumption,
}

/// A list of assumptions that are left.
pub type ChainLines = ListOf<ChainLine>;
