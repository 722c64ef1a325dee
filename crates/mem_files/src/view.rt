//! A file as lists show it.

/// A file of a guest: its number, its name unless that was removed, and its bytes.
#[derive(Clone, Copy)]
pub struct FileView<'a> {
    pub number: u32,
    pub name: Option<&'a [u8]>,
    pub content: &'a [u8],
}
