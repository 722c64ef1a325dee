/// What a command prints of a true report.
#[derive(Clone, Copy)]
pub enum Explanation {
    /// Each comparison, and the assumptions about programs: `verify`.
    Assumptions,
    /// The recipe's digest, and each comparison with the dependencies of its artefact by length and digest: `provenance`.
    Provenance,
}
