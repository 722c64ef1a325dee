//! The limits, which this project chose. A limit is inclusive unless its comment says otherwise. For people: docs/limits.md.

ghost use Rattle.ddc_base.specs.Limits.{address_end, file_number_end, most_address, most_artefacts, most_audits, most_commands, most_content, most_demo, most_descriptors, most_files, most_heap, most_inputs, most_items, most_lines, most_list, most_listed, most_loaded, most_name, most_names, most_pages, most_pages_apart, most_recipe, most_report, most_save, most_script, most_source, most_state, most_states, most_steps, most_texts, most_total, most_words, page_number_end, stack_size, usual_heap};
ghost use Rattle.std.specs.Prelude.{◌≡◌, ◌+◌, ◌*◌};

/// Bytes of a file name.
pub const MOST_NAME: usize = 255;
/// File names of a guest.
pub const MOST_NAMES: usize = 4_096;
/// Open descriptors of a guest, including 0, 1 and 2.
pub const MOST_DESCRIPTORS: usize = 1_024;
/// The end of file numbers, exclusive. Each file has a name or an open descriptor.
pub const FILE_NUMBER_END: u32 = 5_120;
/// Bytes of a file or a stream, and so of an input: 2^28.
pub const MOST_CONTENT: u64 = 268_435_456;
/// Bytes of all files and both streams of a guest: 2^29.
pub const MOST_TOTAL: u64 = 536_870_912;

/// Instructions of a run.
pub const MOST_STEPS: u64 = 1 << 48;
/// The end of a guest's addresses, exclusive.
pub const ADDRESS_END: u64 = 1 << 38;
/// The end of page numbers, exclusive. A page has 4,096 bytes.
pub const PAGE_NUMBER_END: u64 = 1 << 26;
/// The highest end of a program's segment, and the highest base address of a source.
pub const MOST_ADDRESS: u64 = 1 << 37;
/// Bytes of the pages of all segments of a program: 2^28.
pub const MOST_LOADED: u64 = 268_435_456;
/// Bytes of the stack: 2^23.
pub const STACK_SIZE: u64 = 8_388_608;
/// Bytes of arguments and environment with their addresses on the stack: 2^17.
pub const MOST_TEXTS: u64 = 131_072;
/// Bytes of a heap.
pub const MOST_HEAP: u64 = 1 << 30;
/// Bytes of the heap where nothing names another size: 2^29.
pub const USUAL_HEAP: u64 = 536_870_912;
/// Pages of a guest outside its heap: those of the largest program and of the stack.
pub const MOST_PAGES_APART: u64 = 67_584;
/// Pages of a guest.
pub const MOST_PAGES: u64 = 329_728;

/// Bytes of a source in hex1, hex2 or M1: 2^26.
pub const MOST_SOURCE: usize = 67_108_864;
/// Items of a source in hex1, hex2 or M1: 2^25.
pub const MOST_ITEMS: usize = 33_554_432;

/// Bytes of a recipe: 2^20.
pub const MOST_RECIPE: u64 = 1_048_576;
/// Bytes of all inputs of an audit, or of all audits of a chain: 2^30.
pub const MOST_INPUTS: u64 = 1_073_741_824;
/// Bytes of all artefacts of an audit: 2^30.
pub const MOST_ARTEFACTS: u64 = 1_073_741_824;
/// Bytes of a report: 2^30.
pub const MOST_REPORT: u64 = 1_073_741_824;
/// Bytes of a save or a patch: 2^32.
pub const MOST_SAVE: u64 = 4_294_967_296;
/// Bytes of a state: 2^32.
pub const MOST_STATE: u64 = 4_294_967_296;

/// Bytes of a list of names: 2^20.
pub const MOST_LIST: u64 = 1_048_576;
/// Bytes of the file that `list` prints: 2^24.
pub const MOST_LISTED: u64 = 16_777_216;
/// Bytes that `demo` generates: 2^24.
pub const MOST_DEMO: u64 = 16_777_216;
/// Audits of a chain.
pub const MOST_AUDITS: u32 = 64;
/// States of a run that is cut into segments.
pub const MOST_STATES: u32 = 1_000;
/// Lines of a session.
pub const MOST_LINES: u32 = 65_536;

/// Bytes of a script: 2^20.
pub const MOST_SCRIPT: u64 = 1_048_576;
/// Words of a command of a script.
pub const MOST_WORDS: usize = 64;
/// Commands of a script.
pub const MOST_COMMANDS: usize = 4_096;
/// Files listed for a script.
pub const MOST_FILES: usize = 4_096;

/// The numbers in the code are the defined limits.
pub fn limits_are_those_written()
    ensures files { (MOST_NAME ≡ most_name) × (MOST_NAMES ≡ most_names) × (MOST_DESCRIPTORS ≡ most_descriptors)
        × (FILE_NUMBER_END ≡ file_number_end) × (MOST_CONTENT ≡ most_content) × (MOST_TOTAL ≡ most_total) }
    ensures runs { (MOST_STEPS ≡ most_steps) × (MOST_LOADED ≡ most_loaded) × (STACK_SIZE ≡ stack_size) × (MOST_TEXTS ≡ most_texts)
        × (MOST_HEAP ≡ most_heap) × (USUAL_HEAP ≡ usual_heap) }
    ensures addresses { (ADDRESS_END ≡ address_end) × (MOST_ADDRESS ≡ most_address) × (PAGE_NUMBER_END ≡ page_number_end)
        × (MOST_PAGES_APART ≡ most_pages_apart) × (MOST_PAGES ≡ most_pages) }
    ensures sources { (MOST_SOURCE ≡ most_source) × (MOST_ITEMS ≡ most_items) }
    ensures audits { (MOST_RECIPE ≡ most_recipe) × (MOST_INPUTS ≡ most_inputs) × (MOST_ARTEFACTS ≡ most_artefacts)
        × (MOST_REPORT ≡ most_report) × (MOST_SAVE ≡ most_save) × (MOST_STATE ≡ most_state) }
    ensures commands { (MOST_LIST ≡ most_list) × (MOST_LISTED ≡ most_listed) × (MOST_DEMO ≡ most_demo)
        × (MOST_AUDITS ≡ most_audits) × (MOST_STATES ≡ most_states) × (MOST_LINES ≡ most_lines) }
    ensures scripts { (MOST_SCRIPT ≡ most_script) × (MOST_WORDS ≡ most_words) × (MOST_COMMANDS ≡ most_commands) × (MOST_FILES ≡ most_files) }
{}

/// The limits that follow from others: file numbers from names and descriptors, and pages from bytes.
pub fn limits_that_follow()
    ensures files { file_number_end ≡ most_names + most_descriptors }
    ensures numbers { page_number_end * 4096 ≡ address_end }
    ensures apart { most_pages_apart * 4096 ≡ most_loaded + stack_size }
    ensures pages { most_pages * 4096 ≡ most_loaded + stack_size + most_heap }
{}
