use recipe::Recipe;
use report::Report;

/// A recipe and its report.
#[derive(Clone, Copy)]
pub struct Reported<'a> {
    pub recipe: &'a Recipe,
    pub report: &'a Report,
}
