/// The format of a text, 1 or 2. Format 1 has no reservation. New texts are written in format 2.
#[derive(Clone, Copy, PartialEq, Eq)]
pub enum TextForm {
    First,
    Second,
}
