ghost use Rattle.std.specs.Prelude.{◌≡◌, ◌≢◌, ◌+◌, ◌-◌, ◌^◌, ◌<◌, ◌≤◌, ℕ, List, None, Option, IfOk, OnOk, length};
ghost use Rattle.std.specs.Io.KnownBytes.{Appends, Consumes, IsAtEnd, Keeps};
ghost use Rattle.ddc_base.specs.Outside.{IsWithin};
ghost use Rattle.ddc_base.specs.Streams.{GivesAll, HasDelivered, TakesAtMost};
ghost use Rattle.ddc_base.specs.Inside.Passing.{PassesOver};

use crate::byte_list::Bytes;
use crate::outside::Loaded;
use std::alloc::Global;
use std::io;
use std::io::{ErrorKind, Read, Write};

/// A writer for which contracts may know which bytes have reached their destination.
pub trait Deliver: Write {
    /// The bytes that have reached it, if they are known.
    ghost delivered: { Self → Option (List ℕ) } = { λ _. None };

    /// Sends all buffered bytes to the destination, as `flush` does.
    fn deliver(&mut self) -> io::Result<()>
        ensures keeps { Keeps (Self.contents self.old) (Self.contents self.new) }
        ensures delivers { OnOk result (HasDelivered (Self.contents self.new) (delivered self.new)) };
}

/// A writer that delivers by its `flush`. Contracts know nothing of what was delivered.
#[derive(Drop)]
pub(crate) struct ByFlush<W> {
    pub(crate) writer: W,
}

impl<W: Write> Write for ByFlush<W> {
    ghost contents = { λ by. W.contents by.writer };

    fn write(&mut self, buf: &[u8]) -> io::Result<usize> {
        self.writer.write(buf)
    }

    fn flush(&mut self) -> io::Result<()> {
        self.writer.flush()
    }

    fn write_all(&mut self, buf: &[u8]) -> io::Result<()> {
        self.writer.write_all(buf)
    }
}

impl<W: Write> Deliver for ByFlush<W> {
    fn deliver(&mut self) -> io::Result<()> {
        self.writer.flush()
    }
}

/// The bytes of a reader up to its end, but at most `limit` + 1 of them.
fn read_past<R: Read>(
    alloc: Global,
    reader: &mut R,
    budget: usize,
    limit: u64,
) -> io::Result<Vec<u8>>
    ensures given { IfOk result (λ content. Consumes (R.remaining reader.old) (R.remaining reader.new) content.items) }
    ensures few { IfOk result (λ content. length content.items ≤ limit + 1) }
    ensures end { IfOk result (λ content. length content.items ≤ limit → IsAtEnd (R.remaining reader.new)) }
{
    let mut content = Vec::with_capacity(alloc, budget)?;
    let mut buffer = [0; 32_768];
    for _ in 0..u64::MAX {
        let held = content.len() as u64;
        if held > limit {
            return Ok(content);
        }
        let most = usize::try_from(limit - held).map_or(
            buffer.len(),
            |left| left.saturating_add(1).min(buffer.len()),
        );
        match reader.read(&mut buffer[..most]) {
            Ok(0) => return Ok(content),
            Ok(count) => content.extend_from_slice(&buffer[..count])?,
            Err(error) if error.kind() == ErrorKind::Interrupted => {}
            Err(error) => return Err(error),
        }
    }
    Err(io::Error::from(ErrorKind::TimedOut))
}

/// Skips `count` bytes. It is an error if fewer are left.
fn pass_over<R: Read>(reader: &mut R, count: u64) -> io::Result<()>
    ensures { OnOk result (PassesOver (R.remaining reader.old) (R.remaining reader.new) count) }
{
    let mut buffer = [0; 4096];
    for _ in 0..count / 4096 {
        reader.read_exact(&mut buffer)?;
    }
    let rest = (count % 4096) as usize;
    reader.read_exact(&mut buffer[..rest])
}

/// Returns `TooLong` if a reader has more than `limit` bytes left. Skips `limit` + 1 of them, and keeps none.
/// It is an error if fewer are left.
fn too_long<R: Read>(reader: &mut R, limit: u64) -> io::Result<Loaded>
    requires { limit < 2 ^ 64 - 1 }
    ensures all { IfOk result (GivesAll R.remaining reader.old limit) }
    ensures asked { OnOk result (TakesAtMost (R.remaining reader.old) (R.remaining reader.new) (limit + 1)) }
    ensures too_long { IfOk result (λ given. given ≡ Loaded.TooLong) }
{
    pass_over(reader, limit + 1)?;
    Ok(Loaded::TooLong)
}

/// All that a reader has left, if that is at most `limit` bytes; otherwise `TooLong`.
///
/// An error of the reader is this call's error. `expected` is how many bytes are expected. Up to the limit, there is
/// capacity for one more at first, so that the end is found without growing. Above the limit, none is kept, and it is
/// an error if they are not there.
pub fn read_within<R: Read>(
    alloc: Global,
    reader: &mut R,
    expected: u64,
    limit: u64,
) -> io::Result<Loaded>
    ensures all { IfOk result (GivesAll R.remaining reader.old limit) }
    // At most one byte past the limit is requested.
    ensures asked { OnOk result (TakesAtMost (R.remaining reader.old) (R.remaining reader.new) (limit + 1)) }
    ensures within { IfOk result (IsWithin limit) }
    ensures held { IfOk result (λ given. given ≢ Loaded.Absent) }
{
    if expected > limit {
        return too_long(reader, limit);
    }
    let budget = expected.saturating_add(1);
    let content = read_past(alloc, reader, usize::try_from(budget).unwrap_or(0), limit)?;
    if content.len() as u64 > limit {
        return Ok(Loaded::TooLong);
    }
    Ok(Loaded::Bytes(Bytes::from_vec(content)))
}

/// Writes a whole segment and delivers it. An error of the writer is this call's error.
pub fn write_whole<W: Deliver>(writer: &mut W, piece: &[u8]) -> io::Result<()>
    ensures whole { OnOk result (Appends (W.contents writer.old) (W.contents writer.new) piece.now) }
    ensures delivered { OnOk result (HasDelivered (W.contents writer.new) (W.delivered writer.new)) }
{
    writer.write_all(piece)?;
    writer.deliver()
}
