//! Reads the fields in front of the pages without allocation.

ghost use Rattle.std.specs.Prelude.{◌≡◌, ◌++◌, ◌∷◌, [], ◌↔◌, IsOk, IsTrue, List, Ok};
ghost use Rattle.save_format.specs.ByteFields.Reader.{counted};
ghost use Rattle.save_format.specs.Inside.Mapping.{IsRemainingAfter, PassesRuns, Tells};
ghost use Rattle.save_format.specs.StateText.Mappable.{AreMappable, IsHeaderOf};
ghost use Rattle.save_format.specs.StateText.StateText.{StateText, after_run, body_at, parsed_state, run_at, state_at, state_in};
ghost use Rattle.save_format.specs.declared.state_text.parts.Run.{Run as RunText};

use crate::byte_fields::{Cursor, TextForm, TextItem, WrongField};
use crate::state_text::parts::{HeaderNumbers, Reserved, Run};
use crate::state_text::reading::{MAGIC, OLD_MAGIC, begin, numbers_of};
use ddc_base::limits::{MOST_PAGES, PAGE_NUMBER_END};
use linux_calls::Heap;

/// The fields of a state in front of its pages.
#[derive(Clone, Copy)]
pub struct StateHeader {
    /// How many steps were taken.
    pub steps: u64,
    pub pc: u64,
    pub reservation: Option<Reserved>,
    pub heap: Heap,
    /// Whether its runs can be mapped.
    pub mappable: bool,
}

impl HeaderNumbers {
    /// These numbers, with whether the runs after them can be mapped.
    pub(crate) fn header(&self, mappable: bool) -> StateHeader
        ensures { result ≡ record { steps = self.now.steps; pc = self.now.pc; reservation = self.now.reservation; heap = self.now.heap; mappable = mappable } }
    {
        StateHeader {
            steps: self.steps,
            pc: self.pc,
            reservation: self.reservation,
            heap: self.heap,
            mappable,
        }
    }
}

/// How many of the most pages are left after one more run. `None` if there are too many, or if a run ends past the end of memory.
fn remaining_after(remaining: Option<u64>, run: &Run) -> Option<u64>
    ensures { (runs : List RunText) → IsRemainingAfter remaining runs → IsRemainingAfter result (runs ++ run.now ∷ []) }
{
    let pages = u64::from(run.pages);
    match remaining {
        None => None,
        Some(remaining) => {
            if u64::from(run.first) + pages > PAGE_NUMBER_END || pages > remaining {
                return None;
            }
            Some(remaining - pages)
        }
    }
}

/// Skips a count of 4 bytes and that many runs. Returns whether the runs can be mapped.
pub(crate) fn runs_mappable(cursor: &mut Cursor<'_>) -> Result<bool, WrongField>
    ensures { PassesRuns result cursor.new (counted run_at after_run 0 cursor.old) }
{
    let count = cursor.u32()?;
    let mut least = 0;
    let mut remaining = Some(MOST_PAGES);
    for _ in 0..count {
        let run = Run::take(cursor, least)?;
        least = run.least_after();
        remaining = remaining_after(remaining, &run);
    }
    Ok(remaining.is_some())
}

/// The fields between the magic of a format and the pages.
fn body_header(cursor: &mut Cursor<'_>, form: TextForm) -> Result<StateHeader, WrongField>
    ensures { Tells IsHeaderOf result (body_at form cursor.old) }
{
    let numbers = numbers_of(cursor, form)?;
    let mappable = runs_mappable(cursor)?;
    Ok(numbers.header(mappable))
}

/// The fields in front of the pages, from a state in this format at the start of the remaining bytes.
#[tactic(auto, unfolding(crate::specs::StateText::StateText::state_in))]
pub(crate) fn state_header(
    cursor: &mut Cursor<'_>,
    form: TextForm,
) -> Result<StateHeader, WrongField>
    ensures { Tells IsHeaderOf result (state_in form cursor.old) }
{
    begin(cursor, form)?;
    body_header(cursor, form)
}

/// The fields in front of the pages, from a state in either format at the start of the remaining bytes.
#[tactic(auto, unfolding(crate::specs::StateText::StateText::state_at))]
fn either_header(cursor: &mut Cursor<'_>) -> Result<StateHeader, WrongField>
    ensures { Tells IsHeaderOf result (state_at cursor.old) }
{
    let form = cursor.begins_with_either(&OLD_MAGIC, &MAGIC)?;
    body_header(cursor, form)
}

/// The fields of a well-formed state in front of its pages. Allocates nothing.
pub fn header_of(text: &[u8]) -> StateHeader
    requires { IsOk (parsed_state text.now) }
    ensures { (s : StateText) → parsed_state text.now ≡ Ok s → IsHeaderOf result s }
{
    let mut cursor = Cursor::new(text);
    match either_header(&mut cursor) {
        Ok(header) => header,
        Err(_) => unreachable!(),
    }
}
