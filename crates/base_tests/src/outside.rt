use ddc_base::{
    Bytes, Call, DirShelf, LoadFail, Loaded, MemShelf, MemSink, OutOfMemory, PutFail, SaveFail,
    Shelf, Sink, WriterSink,
};
use std::alloc::{AllocError, Global};
use std::rt::Files;
use std::test::Fail;
use std::{fs, io};

/// What a load gave, as a text.
fn shown(given: &Result<Loaded, LoadFail>) -> &str {
    match given {
        Ok(Loaded::Bytes(_)) => "bytes",
        Ok(Loaded::Absent) => "absent",
        Ok(Loaded::TooLong) => "too long",
        Err(LoadFail::Failed) => "failed",
        Err(LoadFail::OutOfMemory) => "out of memory",
    }
}

/// A name, a limit, and what their load gives.
type Load = (&'static str, u64, &'static str);

/// Whether a load gives this. A name is 1 to 255 bytes.
fn gives<S: Shelf>(alloc: Global, shelf: &mut S, load: &Load) -> bool {
    let (name, limit, answer) = *load;
    if name.is_empty() || name.len() > 255 {
        return false;
    }
    shown(&shelf.load(alloc, name, limit)) == answer
}

fn give<S: Shelf>(alloc: Global, shelf: &mut S, loads: &[Load]) -> bool {
    for load in loads {
        if !gives(alloc, shelf, load) {
            return false;
        }
    }
    true
}

/// Whether a name holds this content.
fn holds(shelf: &MemShelf, name: &str, content: &[u8]) -> bool {
    shelf.get(name) == Some(content)
}

static LOADS: [Load; 5] = [
    ("a", 4, "bytes"),
    ("a", 4, "failed"),
    ("a", 3, "too long"),
    ("b", 5, "bytes"),
    ("c", 5, "absent"),
];

fn is_load(alloc: Global, call: &Call, wanted: (&str, u64)) -> Result<bool, OutOfMemory> {
    let name = Bytes::from_slice(alloc, wanted.0.as_bytes())?;
    let load = Call::Load {
        name,
        limit: wanted.1,
    };
    Ok(*call == load)
}

/// The failed call is not among those that were answered.
fn are_loads(alloc: Global, calls: &[Call]) -> Result<bool, OutOfMemory> {
    match calls {
        [first, second, third, fourth] => Ok(
            is_load(alloc, first, ("a", 4))?
                && is_load(alloc, second, ("a", 3))?
                && is_load(alloc, third, ("b", 5))?
                && is_load(alloc, fourth, ("c", 5))?,
        ),
        _ => Ok(false),
    }
}

fn put_files(shelf: &mut MemShelf) -> Result<(), OutOfMemory> {
    shelf.set("a", b"one")?;
    shelf.set("b", b"three")?;
    shelf.set("a", b"four")?;
    shelf.fail_load(2)
}

fn loads(alloc: Global, shelf: &mut MemShelf) -> Result<bool, OutOfMemory> {
    put_files(shelf)?;
    let is_set = holds(shelf, "a", b"four") && shelf.get("c").is_none();
    let is_given = give(alloc, shelf, &LOADS);
    Ok(is_set && is_given && are_loads(alloc, shelf.calls())?)
}

fn memory_loads(alloc: Global) -> Result<bool, OutOfMemory> {
    let mut shelf = MemShelf::new(alloc);
    loads(alloc, &mut shelf)
}

#[test]
fn loads_in_memory(rt: HostRuntime) -> Result<(), Fail> {
    assert!(rt; memory_loads(rt.alloc())?);
    Ok(())
}

fn is_save(alloc: Global, call: &Call, content: &[u8]) -> Result<bool, OutOfMemory> {
    let name = Bytes::from_slice(alloc, b"a")?;
    let content = Bytes::from_slice(alloc, content)?;
    let save = Call::Save { name, content };
    Ok(*call == save)
}

fn are_saves(alloc: Global, calls: &[Call]) -> Result<bool, OutOfMemory> {
    match calls {
        [first, second] => {
            Ok(is_save(alloc, first, b"first")? && is_save(alloc, second, b"third")?)
        }
        _ => Ok(false),
    }
}

fn are_saved(shelf: &mut MemShelf) -> bool {
    shelf.save("a", b"first").is_ok()
        && shelf.save("a", b"second") == Err(SaveFail::Failed)
        && holds(shelf, "a", b"sec")
        && shelf.save("a", b"third").is_ok()
        && holds(shelf, "a", b"third")
        && holds(shelf, "b", b"kept")
}

fn saves(alloc: Global, shelf: &mut MemShelf) -> Result<bool, OutOfMemory> {
    shelf.set("b", b"kept")?;
    shelf.fail_save(2)?;
    Ok(are_saved(shelf) && are_saves(alloc, shelf.calls())?)
}

fn memory_saves(alloc: Global) -> Result<bool, OutOfMemory> {
    let mut shelf = MemShelf::new(alloc);
    saves(alloc, &mut shelf)
}

#[test]
fn saves_in_memory(rt: HostRuntime) -> Result<(), Fail> {
    assert!(rt; memory_saves(rt.alloc())?);
    Ok(())
}

fn are_pieces(pieces: &[Bytes]) -> bool {
    match pieces {
        [first, second] => first.as_slice() == b"ab".as_slice()
            && second.as_slice() == b"g".as_slice(),
        _ => false,
    }
}

fn puts(sink: &mut MemSink) -> Result<bool, OutOfMemory> {
    sink.fail_put(2)?;
    Ok(
        sink.put(b"ab").is_ok()
            && sink.put(b"cdef") == Err(PutFail::Failed)
            && sink.put(b"g").is_ok()
            && sink.written() == b"abcdg".as_slice()
            && are_pieces(sink.pieces()),
    )
}

fn memory_puts(alloc: Global) -> Result<bool, OutOfMemory> {
    let mut sink = MemSink::new(alloc);
    puts(&mut sink)
}

#[test]
fn puts_in_memory(rt: HostRuntime) -> Result<(), Fail> {
    assert!(rt; memory_puts(rt.alloc())?);
    Ok(())
}

static HOST_LOADS: [Load; 7] = [
    ("four", 4, "bytes"),
    ("four", 3, "too long"),
    ("./four", 18_446_744_073_709_551_615, "bytes"),
    ("five", 9, "absent"),
    ("none/four", 9, "absent"),
    (".", 9, "failed"),
    ("four/five", 9, "failed"),
];

fn host_loads<R: Files>(rt: &R, alloc: Global) -> bool {
    let mut shelf = DirShelf::new(rt);
    give(alloc, &mut shelf, &HOST_LOADS)
}

/// Whether a file of the host is written.
pub(crate) fn is_written<R: Files>(rt: &R, name: &str, content: &[u8]) -> bool {
    fs::write(rt, name, content).is_ok()
}

/// Whether a file of the host is removed.
pub(crate) fn is_removed<R: Files>(rt: &R, name: &str) -> bool {
    fs::remove_file(rt, name).is_ok()
}

fn loads_written<R: Files>(rt: &R, alloc: Global) -> bool {
    is_written(rt, "four", b"1234") && host_loads(rt, alloc) && is_removed(rt, "four")
}

#[test]
fn loads_of_the_host(rt: HostRuntime) {
    assert!(rt; loads_written(&rt, rt.alloc()));
}

/// Whether a file of the host has this content.
pub(crate) fn is_content<R: Files + AllocGlobal>(rt: &R, name: &str, content: &[u8]) -> bool {
    match fs::read(rt, name) {
        Ok(held) => held.as_slice() == content,
        Err(_) => false,
    }
}

/// Adds 80,000 bytes.
fn put_numbers(content: &mut Vec<u8>) -> Result<(), AllocError> {
    for number in 0..20_000u32 {
        content.extend_from_slice(&number.to_le_bytes())?;
    }
    Ok(())
}

/// Whether the large file is given where the limit has room for it.
fn is_within<S: Shelf>(alloc: Global, shelf: &mut S, limit: u64, content: &[u8]) -> bool {
    match shelf.load(alloc, "large", limit) {
        Ok(Loaded::Bytes(bytes)) => limit >= 80_000 && bytes.as_slice() == content,
        Ok(Loaded::TooLong) => limit == 79_999,
        _ => false,
    }
}

fn are_within<S: Shelf>(alloc: Global, shelf: &mut S, content: &[u8]) -> bool {
    is_within(alloc, shelf, 79_999, content)
        && is_within(alloc, shelf, 80_000, content)
        && is_within(alloc, shelf, 80_001, content)
}

/// A shorter content leaves nothing of the longer one.
fn replaces<R: Files + AllocGlobal, S: Shelf>(rt: &R, shelf: &mut S, content: &[u8]) -> bool {
    shelf.save("large", content).is_ok()
        && is_content(rt, "large", content)
        && are_within(rt.alloc(), shelf, content)
        && shelf.save("large", b"short").is_ok()
        && is_content(rt, "large", b"short")
}

fn is_refused<S: Shelf>(shelf: &mut S) -> bool {
    shelf.save(".", b"x") == Err(SaveFail::Failed)
        && shelf.save("none/x", b"x") == Err(SaveFail::Failed)
}

fn host_replaces<R: Files + AllocGlobal>(rt: &R, content: &[u8]) -> bool {
    let mut shelf = DirShelf::new(rt);
    replaces(rt, &mut shelf, content) && is_refused(&mut shelf)
}

fn host_saves<R: Files + AllocGlobal>(rt: &R) -> Result<bool, AllocError> {
    let mut content = Vec::new(rt.alloc());
    put_numbers(&mut content)?;
    Ok(host_replaces(rt, &content) && is_removed(rt, "large"))
}

#[test]
fn large_files_of_the_host(rt: HostRuntime) -> Result<(), Fail> {
    assert!(rt; host_saves(&rt)?);
    Ok(())
}

fn writes<S: Sink>(out: &mut S) -> bool {
    out.put(b"written by a test\n").is_ok() && out.put(b"").is_ok()
}

#[test]
fn standard_output(rt: HostRuntime) {
    let mut out = WriterSink::new(io::writer(&rt));
    assert!(rt; writes(&mut out));
}
