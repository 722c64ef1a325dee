/// How a stage's artefact depends on a name.
#[derive(Clone, Copy)]
pub enum Meeting {
    /// The name is read: by a program, or as a file of a check's source.
    Read,
    /// The name is run.
    Run,
}
