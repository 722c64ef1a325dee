ghost use Rattle.std.specs.Prelude.{◌≡◌, ◌<◌, ◌^◌, ◌++◌, OnErr, OnOk};
ghost use Rattle.std.specs.Io.{StartsWith};
ghost use Rattle.save_format.specs.Encoded.{IsShortStage, mark_text, stage_text};

use crate::byte_fields::{all_or_none, put_blob32, put_u64};
use crate::fields::{put_left, put_mark};
use ddc_base::{Bytes, OutOfMemory};
use report::{LeftLine, Mark};

/// Appends the marks of a stage's two streams. Out of memory: a part may have been appended.
#[tactic(auto, using(crate::proofs::Written::written, crate::proofs::ByteFieldsLemmas::Kept::kept))]
fn put_streams(out: &mut Bytes, first: Mark, second: Mark) -> Result<(), OutOfMemory>
    requires first { first.length < 2 ^ 32 }
    requires second { second.length < 2 ^ 32 }
    ensures ok { OnOk result (out.new ≡ out.old ++ (mark_text first ++ mark_text second)) }
    ensures err { OnErr result (StartsWith out.new out.old) }
{
    put_mark(out, first)?;
    put_mark(out, second)
}

/// Appends a finished stage. Out of memory: a part may have been appended.
#[tactic(auto, using(crate::proofs::Written::written, crate::proofs::ByteFieldsLemmas::Kept::kept), unfolding(crate::specs::Encoded::stage_text))]
fn add_stage(
    out: &mut Bytes,
    steps: u64,
    streams: (Mark, Mark),
    left: &[LeftLine],
    made: &[u8],
) -> Result<(), OutOfMemory>
    requires { IsShortStage (record { steps = steps; stream1 = streams.0; stream2 = streams.1; left = left.now; made = made.now }) }
    ensures ok { OnOk result (out.new ≡ out.old
        ++ stage_text (record { steps = steps; stream1 = streams.0; stream2 = streams.1; left = left.now; made = made.now })) }
    ensures err { OnErr result (StartsWith out.new out.old) }
{
    put_u64(out, steps)?;
    put_streams(out, streams.0, streams.1)?;
    put_left(out, left)?;
    put_blob32(out, made)
}

/// Appends a finished stage, all or none: its steps, the marks of its two streams, the files that it left, and its artefact.
pub fn put_stage(
    out: &mut Bytes,
    steps: u64,
    streams: (Mark, Mark),
    left: &[LeftLine],
    made: &[u8],
) -> Result<(), OutOfMemory>
    requires { IsShortStage (record { steps = steps; stream1 = streams.0; stream2 = streams.1; left = left.now; made = made.now }) }
    ensures ok { OnOk result (out.new ≡ out.old
        ++ stage_text (record { steps = steps; stream1 = streams.0; stream2 = streams.1; left = left.now; made = made.now })) }
    ensures err { OnErr result (out.new ≡ out.old) }
{
    let len = out.len();
    let added = add_stage(out, steps, streams, left, made);
    all_or_none(out, len, added)
}
