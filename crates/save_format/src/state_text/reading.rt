ghost use Rattle.std.specs.Prelude.{option_map, IfOk, Ok, Err};
ghost use Rattle.save_format.specs.ByteFields.Reader.{Finds, GivesField, alike, begun, u64};
ghost use Rattle.save_format.specs.StateText.StateText.{StateText, body_at, parsed_state, heap_at, reservation_at, state_at, state_in, state_magic};
ghost use Rattle.save_format.specs.StateText.Encoded.{IsStateText, IsTextOfState};
ghost use Rattle.save_format.specs.StateText.Seen.{ReadsStateText, reserved_view, state_view};
ghost use Rattle.save_format.specs.Inside.Passing.{GoesPast, JudgesForm};
ghost use Rattle.save_format.specs.Inside.Headers.{ReadsHeader, lists_at};

use crate::byte_fields::{Cursor, ReadStop, TextForm, WrongField, counted, pass_counted};
use crate::state_text::parts::{
    File, HeaderNumbers, NumberedDescriptor, Page, Reserved, Run, StateParts,
};
use linux_calls::Heap;
use paged_mem::Width;
use std::alloc::Global;

/// The eight bytes that begin the text of a state.
pub const MAGIC: [u8; 8] = *b"ddcstat2";

/// The eight bytes that begin the text of a state of format 1.
pub(crate) const OLD_MAGIC: [u8; 8] = *b"ddcstat1";

/// Why a text is refused.
#[derive(Clone, Copy)]
pub enum TextRefusal {
    /// The offset of the first wrong field, or of the first byte after the last field.
    Form(u64),
    OutOfMemory,
}

pub(crate) fn registers_of(cursor: &mut Cursor<'_>) -> Result<[u64; 31], WrongField>
    ensures { Finds (λ x. x) result cursor.new (alike u64 31 cursor.old) }
{
    let mut registers = [0; 31];
    for index in 0..31usize {
        registers[index] = cursor.u64()?;
    }
    Ok(registers)
}

/// The reservation in a text of this format.
#[tactic(auto, unfolding(crate::specs::StateText::StateText::reservation_at, crate::specs::StateText::StateText::reserved_at))]
pub(crate) fn reservation_of(
    cursor: &mut Cursor<'_>,
    form: TextForm,
) -> Result<Option<Reserved>, WrongField>
    ensures { Finds (option_map reserved_view) result cursor.new (reservation_at form cursor.old) }
{
    if form == TextForm::First {
        return Ok(None);
    }
    let remaining = cursor.len();
    let width = match cursor.byte()? {
        0 => return Ok(None),
        4 => Width::W4,
        8 => Width::W8,
        _ => return Err(WrongField { remaining }),
    };
    let at = cursor.u64()?;
    Ok(Some(Reserved { width, at }))
}

#[tactic(auto, unfolding(crate::specs::StateText::StateText::heap_at))]
pub(crate) fn heap_of(cursor: &mut Cursor<'_>) -> Result<Heap, WrongField>
    ensures { Finds (λ x. x) result cursor.new (heap_at cursor.old) }
{
    let first = cursor.u64()?;
    let now = cursor.u64()?;
    let limit = cursor.u64()?;
    Ok(Heap { first, now, limit })
}

/// The numbers after the magic of a format.
#[tactic(auto, unfolding(crate::specs::StateText::StateText::body_at, crate::specs::Inside::Headers::lists_at))]
pub(crate) fn numbers_of(
    cursor: &mut Cursor<'_>,
    form: TextForm,
) -> Result<HeaderNumbers, WrongField>
    ensures { ReadsHeader lists_at result cursor.new (body_at form cursor.old) }
{
    let steps = cursor.u64()?;
    let pc = cursor.u64()?;
    let registers = registers_of(cursor)?;
    let reservation = reservation_of(cursor, form)?;
    let heap = heap_of(cursor)?;
    Ok(HeaderNumbers {
        steps,
        pc,
        registers,
        reservation,
        heap,
    })
}

/// All fields after the magic of a format.
#[tactic(auto, unfolding(crate::specs::Inside::Headers::lists_at))]
fn body_of<'a>(
    alloc: Global,
    cursor: &mut Cursor<'a>,
    form: TextForm,
) -> Result<StateParts<'a>, ReadStop>
    ensures { GivesField state_view result cursor.new (body_at form cursor.old) }
{
    let numbers = numbers_of(cursor, form)?;
    let registers = numbers.registers;
    let runs = counted(alloc, cursor)?;
    let pages = counted(alloc, cursor)?;
    let files = counted(alloc, cursor)?;
    let descriptors = counted(alloc, cursor)?;
    let stream1 = cursor.blob32()?;
    let stream2 = cursor.blob32()?;
    Ok(StateParts {
        steps: numbers.steps,
        pc: numbers.pc,
        registers,
        reservation: numbers.reservation,
        heap: numbers.heap,
        runs,
        pages,
        files,
        descriptors,
        stream1,
        stream2,
    })
}

/// The eight bytes that begin a text of this format.
pub(crate) fn begin(cursor: &mut Cursor<'_>, form: TextForm) -> Result<(), WrongField>
    ensures { Finds (λ x. x) result cursor.new (begun (state_magic form) cursor.old) }
{
    match form {
        TextForm::First => cursor.begins_with(&OLD_MAGIC),
        TextForm::Second => cursor.begins_with(&MAGIC),
    }
}

/// A state in this format at the start of the remaining bytes. The other format is wrong at its first byte.
#[tactic(auto, unfolding(crate::specs::StateText::StateText::state_in))]
pub(crate) fn parts_in<'a>(
    alloc: Global,
    cursor: &mut Cursor<'a>,
    form: TextForm,
) -> Result<StateParts<'a>, ReadStop>
    ensures { GivesField state_view result cursor.new (state_in form cursor.old) }
{
    begin(cursor, form)?;
    body_of(alloc, cursor, form)
}

/// A state in either format at the start of the remaining bytes.
#[tactic(auto, unfolding(crate::specs::StateText::StateText::state_at))]
fn parts_at<'a>(alloc: Global, cursor: &mut Cursor<'a>) -> Result<StateParts<'a>, ReadStop>
    ensures { GivesField state_view result cursor.new (state_at cursor.old) }
{
    let form = cursor.begins_with_either(&OLD_MAGIC, &MAGIC)?;
    body_of(alloc, cursor, form)
}

/// Skips all fields after the magic of a format.
#[tactic(auto, unfolding(crate::specs::Inside::Headers::lists_at))]
fn pass_body(cursor: &mut Cursor<'_>, form: TextForm) -> Result<(), WrongField>
    ensures { GoesPast result cursor.new (body_at form cursor.old) }
{
    let _numbers = numbers_of(cursor, form)?;
    pass_counted::<Run>(cursor)?;
    pass_counted::<Page<'_>>(cursor)?;
    pass_counted::<File<'_>>(cursor)?;
    pass_counted::<NumberedDescriptor>(cursor)?;
    let _stream1 = cursor.blob32()?;
    let _stream2 = cursor.blob32()?;
    Ok(())
}

/// Skips a state in this format at the start of the remaining bytes.
#[tactic(auto, unfolding(crate::specs::StateText::StateText::state_in))]
pub(crate) fn pass_state_in(cursor: &mut Cursor<'_>, form: TextForm) -> Result<(), WrongField>
    ensures { GoesPast result cursor.new (state_in form cursor.old) }
{
    begin(cursor, form)?;
    pass_body(cursor, form)
}

/// Skips a state in either format at the start of the remaining bytes.
#[tactic(auto, unfolding(crate::specs::StateText::StateText::state_at))]
fn pass_state(cursor: &mut Cursor<'_>) -> Result<(), WrongField>
    ensures { GoesPast result cursor.new (state_at cursor.old) }
{
    let form = cursor.begins_with_either(&OLD_MAGIC, &MAGIC)?;
    pass_body(cursor, form)
}

/// Checks that the whole text is a well-formed state.
#[tactic(auto, unfolding(crate::specs::StateText::StateText::parsed_state))]
fn judge(text: &[u8]) -> Result<(), TextRefusal>
    ensures { JudgesForm result (parsed_state text.now) }
{
    let mut cursor = Cursor::new(text);
    match pass_state(&mut cursor) {
        Ok(()) => {}
        Err(field) => return Err(TextRefusal::Form((text.len() - field.remaining) as u64)),
    }
    match cursor.len() {
        0 => Ok(()),
        remaining => Err(TextRefusal::Form((text.len() - remaining) as u64)),
    }
}

/// Parses a state of either format. Errors: `Form` with the offset of the first wrong field, `OutOfMemory`.
/// Each field is judged given those before it. The format is checked first, without allocation.
pub fn read(alloc: Global, text: &[u8]) -> Result<StateParts<'_>, TextRefusal>
    // A parsed state has this text, in one of the two formats.
    ensures found { IfOk result (λ p. IsStateText (state_view p) × IsTextOfState (state_view p) text.now) }
    // Every such text is parsed, unless memory runs out.
    ensures only { (s : StateText) → IsStateText s → IsTextOfState s text.now → ReadsStateText result (Ok s) }
    // The offset is that of the first wrong field.
    ensures exact { ReadsStateText result (parsed_state text.now) }
{
    all(alloc, text)
}

#[tactic(auto, unfolding(crate::specs::StateText::StateText::parsed_state))]
fn all(alloc: Global, text: &[u8]) -> Result<StateParts<'_>, TextRefusal>
    ensures { ReadsStateText result (parsed_state text.now) }
{
    judge(text)?;
    let mut cursor = Cursor::new(text);
    match parts_at(alloc, &mut cursor) {
        Ok(parts) => Ok(parts),
        Err(ReadStop::OutOfMemory) => Err(TextRefusal::OutOfMemory),
        Err(ReadStop::Wrong(_)) => unreachable!(),
    }
}
