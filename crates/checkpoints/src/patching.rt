//! A guest's state as a patch relative to a base, and back.

ghost use Rattle.std.specs.Prelude.{◌≡◌, ◌<◌, ◌≤◌, ◌^◌, ◌↔◌, ◌++◌, Err, IfOk, IsOk, IsTrue, OnErr, OnOk, length};
ghost use Rattle.ddc_base.specs.Limits.{page_number_end};
ghost use Rattle.guest_run.specs.State.{GuestState};
ghost use Rattle.guest_run.specs.Valid.{IsValid};
ghost use Rattle.save_format.specs.PatchText.PatchText.{parsed_patch};
ghost use Rattle.save_format.specs.PatchText.Encoded.{IsPatched, text_of_patch};
ghost use Rattle.save_format.specs.StateText.Seen.{state_view};
ghost use Rattle.save_format.specs.StateText.Encoded.{IsStateText};
ghost use Rattle.save_format.specs.StateText.StateText.{StateText};
ghost use Rattle.checkpoints.specs.Checkpoint.{Becomes, IsReadAs, state_of};
ghost use Rattle.checkpoints.specs.Patching.{AppliesPatch, AppliesPatchTo};

use crate::file_parts::RestoreRefusal;
use crate::reading::StateRefusal;
use crate::restoring::{guest_of, may_be_made};
use crate::writing::parts_of;
use ddc_base::{Bytes, OutOfMemory};
use guest_run::Guest;
use paged_mem::Ram;
use save_format::patch_text::{header_of, put_patch, read};
use save_format::state_text::{StateParts, TextRefusal};
use std::alloc::Global;

/// The only patch of a guest's state against a base. Pages and contents are compared without serializing a state. Error: out of memory.
pub fn write_patch<R: Ram>(
    alloc: Global,
    base: &Guest<R>,
    now: &Guest<R>,
) -> Result<Bytes, OutOfMemory>
    ensures { IfOk result (λ text. text ≡ text_of_patch (state_of base.now) (state_of now.now)) }
{
    let mut out = Bytes::new(alloc);
    let known = known_of(alloc, base)?;
    put_patch_of(alloc, &mut out, &known, now)?;
    Ok(out)
}

/// The contents of a guest's state as the base of patches, with at most 2^26 pages. Error: out of memory.
pub fn known_of<R: Ram>(alloc: Global, base: &Guest<R>) -> Result<StateParts<'_>, OutOfMemory>
    ensures seen { IfOk result (λ parts. state_view parts ≡ state_of base.now) }
    ensures text { IfOk result (λ parts. IsStateText (state_view parts)) }
    ensures few { IfOk result (λ parts. length (state_view parts).pages ≤ page_number_end) }
{
    parts_of(alloc, base)
}

/// Adds the patch of a guest's state against a listed base. Error: out of memory; `out` is unchanged.
pub fn put_patch_of<R: Ram>(
    alloc: Global,
    out: &mut Bytes,
    base: &StateParts<'_>,
    guest: &Guest<R>,
) -> Result<(), OutOfMemory>
    requires base { IsStateText (state_view base.now) }
    requires few { length (state_view base.now).pages ≤ page_number_end }
    ensures ok { OnOk result (out.new ≡ out.old ++ text_of_patch (state_view base.now) (state_of guest.now)) }
    ensures err { OnErr result (out.new ≡ out.old) }
{
    let parts = parts_of(alloc, guest)?;
    put_patch(alloc, out, base, &parts)
}

/// The guest that a patch makes of a base. The base is listed first, so that memory may run out whatever the patch is.
pub fn apply_patch<R: Ram>(
    alloc: Global,
    base: &Guest<R>,
    text: &[u8],
) -> Result<Guest<R>, StateRefusal>
    // The result has this patch against the base.
    ensures found { IfOk result (λ guest. text.now ≡ text_of_patch (state_of base.now) (state_of guest)) }
    // The patch of a valid state is read as the guest in that state, unless memory runs out.
    ensures only { (g : GuestState) → IsValid g → g.steps < 2 ^ 64 → text.now ≡ text_of_patch (state_of base.now) (state_of g) → IsReadAs g result }
    // When each refusal occurs.
    ensures exact { AppliesPatchTo (state_of base.now) text.now result }
{
    match known_of(alloc, base) {
        Ok(known) => guest_relative(alloc, &known, text),
        Err(OutOfMemory) => Err(StateRefusal::OutOfMemory),
    }
}

/// The guest that a patch makes of a listed base.
pub fn guest_relative<'a, R: Ram>(
    alloc: Global,
    base: &StateParts<'a>,
    text: &'a [u8],
) -> Result<Guest<R>, StateRefusal>
    requires base { IsStateText (state_view base.now) }
    requires few { length (state_view base.now).pages ≤ page_number_end }
    // The result has this patch against the base.
    ensures found { IfOk result (λ guest. text.now ≡ text_of_patch (state_view base.now) (state_of guest)) }
    // The patch of a valid state is read as the guest in that state, unless memory runs out.
    ensures only { (g : GuestState) → IsValid g → g.steps < 2 ^ 64 → text.now ≡ text_of_patch (state_view base.now) (state_of g) → IsReadAs g result }
    // When each refusal occurs.
    ensures exact { AppliesPatch (state_view base.now) text.now result }
{
    applied(alloc, base, text)
}

fn applied<'a, R: Ram>(
    alloc: Global,
    base: &StateParts<'a>,
    text: &'a [u8],
) -> Result<Guest<R>, StateRefusal>
    requires { IsStateText (state_view base.now) }
    ensures { AppliesPatch (state_view base.now) text.now result }
{
    let parts = match read(alloc, base, text) {
        Ok(parts) => parts,
        Err(TextRefusal::Form(offset)) => return Err(StateRefusal::Form(offset)),
        Err(TextRefusal::OutOfMemory) => return Err(wanting(base, text)),
    };
    match patched_guest_of(alloc, &parts) {
        Ok(guest) => Ok(guest),
        Err(RestoreRefusal::Range) => Err(StateRefusal::Range),
        Err(RestoreRefusal::FileRef) => Err(StateRefusal::FileRef),
        Err(RestoreRefusal::OutOfMemory) => Err(StateRefusal::OutOfMemory),
    }
}

/// Why a text of the right form is not a guest, after memory ran out for the lists of its parts.
fn wanting(base: &StateParts<'_>, text: &[u8]) -> StateRefusal
    requires { IsOk (parsed_patch (state_view base.now) text.now) }
    ensures { AppliesPatch (state_view base.now) text.now (Err result) }
{
    let header = header_of(base, text);
    if may_be_made(&header) {
        StateRefusal::OutOfMemory
    } else {
        StateRefusal::Range
    }
}

/// Whether the number of pages fits a count of 4 bytes.
fn are_countable(parts: &StateParts<'_>) -> bool
    ensures { IsTrue result ↔ (length (state_view parts.now).pages < 2 ^ 32) }
{
    (parts.pages.as_slice().len() as u64) < 1 << 32
}

/// The guest of a parsed patch. `Range` and `FileRef` are as for a state's text.
pub fn patched_guest_of<R: Ram>(
    alloc: Global,
    parts: &StateParts<'_>,
) -> Result<Guest<R>, RestoreRefusal>
    requires { (base : StateText) × IsPatched base (state_view parts.now) }
    ensures { Becomes (state_view parts.now) result }
{
    if !are_countable(parts) {
        return Err(RestoreRefusal::Range);
    }
    guest_of(alloc, parts)
}
