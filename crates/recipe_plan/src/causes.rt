//! The texts of causes.

ghost use Rattle.std.specs.Prelude.{◌≡◌, ◌∷◌, [], IfOk, decimal, string_bytes};
ghost use Rattle.command_plan.specs.Causes.Texts.{spaced};
ghost use Rattle.recipe_plan.specs.NotDone.{start_cause_text, run_cause_text, check_cause_text};

use audit_rules::source_check::CheckCause;
use audit_rules::{RunCause, StartCause};
use ddc_base::OutOfMemory;
use std::alloc::Global;

/// The text of a run that made no artefact. Error: out of memory.
pub fn run_cause(alloc: Global, cause: RunCause) -> Result<String, OutOfMemory>
    ensures { IfOk result (λ text. string_bytes text ≡ run_cause_text cause) }
{
    match cause {
        RunCause::Start(cause) => start_cause(alloc, cause),
        RunCause::Trap(cause) => command_plan::causes::trap(alloc, cause),
        RunCause::Call(number) => command_plan::causes::call(alloc, number),
        RunCause::Status(status) => command_plan::causes::status(alloc, status),
        RunCause::NoOutput => Ok(String::from_str(alloc, "no-output")?),
        RunCause::Spent => Ok(String::from_str(alloc, command_plan::causes::spent())?),
        RunCause::Crowded => Ok(String::from_str(alloc, "crowded")?),
    }
}

/// The text of a start that failed.
fn start_cause(alloc: Global, cause: StartCause) -> Result<String, OutOfMemory>
    ensures { IfOk result (λ text. string_bytes text ≡ start_cause_text cause) }
{
    match cause {
        StartCause::Elf(refusal) => command_plan::causes::elf(alloc, refusal),
        StartCause::ArgsTooLong => Ok(String::from_str(alloc, command_plan::causes::args())?),
        StartCause::BoxTooLarge => Ok(String::from_str(alloc, command_plan::causes::box_files())?),
    }
}

/// The text of an artefact that is not what its source stands for. Error: out of memory.
pub fn check_cause(alloc: Global, cause: CheckCause) -> Result<String, OutOfMemory>
    ensures { IfOk result (λ text. string_bytes text ≡ check_cause_text cause) }
{
    match cause {
        CheckCause::Hex(cause) => numbered(alloc, "hex", cause.number(), cause.place()),
        CheckCause::M1(cause) => numbered(alloc, "m1", cause.number(), cause.place()),
        CheckCause::NotItems(cause) => numbered(alloc, "items", cause.number(), cause.place()),
        CheckCause::Differs(offset) => Ok(format!(in alloc; "differs {offset}")?),
    }
}

/// The text of a refusal of a language, with its number and its place.
fn numbered(alloc: Global, language: &str, number: u8, place: u64) -> Result<String, OutOfMemory>
    ensures { IfOk result (λ text. string_bytes text ≡ spaced (language.now ∷ decimal number ∷ decimal place ∷ [])) }
{
    Ok(format!(in alloc; "{language} {number} {place}")?)
}
