use linux_calls::Heap;
use mem_files::OpenFile;
use paged_mem::Width;

/// The reserved bytes of a state.
#[derive(Clone, Copy)]
pub struct Reserved {
    /// How many bytes: 4 or 8.
    pub width: Width,
    /// The address of the first reserved byte.
    pub at: u64,
}

/// Consecutive mapped pages. The page before and the page after them are not mapped.
#[derive(Clone, Copy, PartialEq, Eq)]
pub struct Run {
    /// The number of its first page: its address divided by 4,096.
    pub first: u32,
    /// How many pages it has, at least 1.
    pub pages: u32,
}

/// A page that is not all zeros.
#[derive(Clone, Copy)]
pub struct Page<'a> {
    /// The page number: its address divided by 4,096.
    pub number: u32,
    /// Its 4,096 bytes.
    pub bytes: &'a [u8],
}

/// A file of the guest.
#[derive(Clone, Copy)]
pub struct File<'a> {
    pub number: u32,
    /// `None` if its name was removed.
    pub name: Option<&'a [u8]>,
    pub content: &'a [u8],
}

/// An open descriptor of the guest, and its open file.
#[derive(Clone, Copy)]
pub struct NumberedDescriptor {
    pub fd: u32,
    pub open_file: OpenFile,
}

/// The numbers before the lists of a state.
#[derive(Clone, Copy)]
pub(crate) struct HeaderNumbers {
    pub steps: u64,
    pub pc: u64,
    pub registers: [u64; 31],
    pub reservation: Option<Reserved>,
    pub heap: Heap,
}

/// The fields of a state. Contents are borrowed.
#[derive(Drop)]
pub struct StateParts<'a> {
    /// How many steps were taken.
    pub steps: u64,
    pub pc: u64,
    /// x1 to x31.
    pub registers: [u64; 31],
    /// `None` in a text of format 1.
    pub reservation: Option<Reserved>,
    pub heap: Heap,
    /// Ascending. Any two of them have a gap between them.
    pub runs: Vec<Run>,
    /// Ascending by number.
    pub pages: Vec<Page<'a>>,
    /// Ascending by number.
    pub files: Vec<File<'a>>,
    /// Ascending by number.
    pub descriptors: Vec<NumberedDescriptor>,
    pub stream1: &'a [u8],
    pub stream2: &'a [u8],
}
