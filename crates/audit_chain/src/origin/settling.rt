//! Which assumptions lengths and digests settle.

ghost use Rattle.audit_chain.specs.Chain.{given_contents, given_text_named, input_bytes};
ghost use Rattle.ddc_base.specs.Limits.{most_address};
ghost use Rattle.audit_chain.specs.Settled.{given_audit, is_of_program, is_own_program, is_settled_line};
ghost use Rattle.audit_chain.specs.Inside.Programs.{program_at};
ghost use Rattle.verifier.specs.Inside.Refusing.{RefusesHex, RefusesM1};
ghost use Rattle.audit_rules.specs.Contents.{text_of};
ghost use Rattle.audit_rules.specs.SourceCheck.Checks.{joined_files};
ghost use Rattle.hex_langs.specs.declared.items.reader.HexRefusal.{HexRefusal as Refusal};
ghost use Rattle.hex_langs.specs.Link.Link.{Links};
ghost use Rattle.std.specs.Prelude.{◌≡◌, ◌≤◌, ◌&&◌, ℕ, IfOk, IfSome, List, Result, map, option_map};
ghost use Rattle.wheeler.specs.AllContents.{stage_named};
ghost use Rattle.wheeler.specs.MacroAssembly.{linked_bytes, program_of_text};

use crate::giving::{are_inputs, at};
use crate::origin::marks::mark_named;
use ddc_base::languages::Language;
use ddc_base::{Bytes, Name, OutOfMemory};
use hex_langs::items::HexRefusal;
use hex_langs::link::{HexLanguage, link, value};
use m1_lang::{M1Refusal, expand};
use recipe::{Content, Recipe, Source, SourceLanguage, Stage};
use report::{Mark, Report};
use std::alloc::Global;
use wheeler::Assumption;

/// A recipe, the contents of its inputs, and its report.
#[derive(Clone, Copy)]
pub struct Replayed<'a> {
    pub recipe: &'a Recipe,
    pub inputs: &'a [Bytes],
    pub report: &'a Report,
}

/// Whether lengths and digests settle a line: the programs that it is about are those of their sources.
#[tactic(auto, unfolding(crate::specs::Settled::is_settled_line))]
pub fn is_settled_line(
    alloc: Global,
    audit: &Replayed<'_>,
    line: &Assumption,
) -> Result<bool, OutOfMemory>
    ensures { IfOk result (λ settled. settled ≡ is_settled_line audit.now.recipe.now audit.now.inputs.now audit.now.report.now line.now) }
{
    match line {
        Assumption::Implements { made, source } => is_own_program(alloc, audit, made, source),
        Assumption::Compiles {
            source,
            stage,
            becomes,
        } => match stage_named(audit.recipe, stage) {
            Some(stage) => makes_own_program(alloc, audit, source, becomes, stage),
            None => Ok(false),
        },
    }
}

/// The stage of a name.
fn stage_named<'a>(recipe: &'a Recipe, name: &Name) -> Option<&'a Stage>
    ensures { option_map (λ x. x.now) result ≡ stage_named recipe.now.stages name.now }
{
    recipe
        .stages()
        .as_slice()
        .iter()
        .find(|stage| stage.name == *name)
}

/// Whether a stage runs the program of the former source and makes that of the latter.
fn makes_own_program(
    alloc: Global,
    audit: &Replayed<'_>,
    source: &Name,
    becomes: &Name,
    stage: &Stage,
) -> Result<bool, OutOfMemory>
    ensures { IfOk result (λ own. own ≡ (is_own_program audit.now.recipe.now audit.now.inputs.now audit.now.report.now stage.now.program source.now
        && is_own_program audit.now.recipe.now audit.now.inputs.now audit.now.report.now stage.now.name becomes.now)) }
{
    if is_own_program(alloc, audit, &stage.program, source)? {
        is_own_program(alloc, audit, &stage.name, becomes)
    } else {
        Ok(false)
    }
}

/// Whether the report has the length and digest of the program of a source for a name.
#[tactic(auto, unfolding(crate::specs::Settled::is_own_program))]
fn is_own_program(
    alloc: Global,
    audit: &Replayed<'_>,
    name: &Name,
    source: &Name,
) -> Result<bool, OutOfMemory>
    ensures { IfOk result (λ own. own ≡ is_own_program audit.now.recipe.now audit.now.inputs.now audit.now.report.now name.now source.now) }
{
    match mark_named(audit.recipe, audit.report, name) {
        Some(mark) => match source_given(audit, source) {
            Some(source) => is_program(alloc, audit, source, &mark),
            None => Ok(false),
        },
        None => Ok(false),
    }
}

/// The source of a name, where all its files are inputs.
#[tactic(auto, unfolding(crate::specs::Chain::given_text))]
fn source_given<'a>(audit: &Replayed<'a>, name: &Name) -> Option<&'a Source>
    ensures text { option_map (λ source. text_of audit.now.recipe.now (given_contents (given_audit audit.now.recipe.now audit.now.inputs.now)) source.now) result
        ≡ given_text_named (given_audit audit.now.recipe.now audit.now.inputs.now) name.now }
    ensures base { IfSome result (λ source. source.now.base ≤ most_address) }
{
    audit.recipe.show_rules();
    match audit.recipe.source(name) {
        Some(source) => {
            if are_inputs(audit.recipe, source.files.as_slice()) {
                Some(source)
            } else {
                None
            }
        }
        None => None,
    }
}

/// Whether a length and a digest are those of the program of a source whose files are inputs.
fn is_program(
    alloc: Global,
    audit: &Replayed<'_>,
    source: &Source,
    mark: &Mark,
) -> Result<bool, OutOfMemory>
    requires { source.now.base ≤ most_address }
    ensures { IfOk result (λ own. own ≡ is_of_program mark.now
        (program_of_text (text_of audit.now.recipe.now (given_contents (given_audit audit.now.recipe.now audit.now.inputs.now)) source.now))) }
{
    match source.lang {
        SourceLanguage::Defined(language) => {
            let text = joined(alloc, audit, source.files.as_slice())?;
            is_program_at(alloc, language, source.base, text.as_slice(), mark)
        }
        SourceLanguage::Other => Ok(false),
    }
}

/// The text of files that are inputs, with one LF between neighbours.
fn joined(alloc: Global, audit: &Replayed<'_>, files: &[Name]) -> Result<Bytes, OutOfMemory>
    ensures { IfOk result (λ text. text ≡ joined_files (map (input_bytes (given_audit audit.now.recipe.now audit.now.inputs.now)) files.now)) }
{
    let [first, others @ ..] = files else {
        return Ok(Bytes::new(alloc));
    };
    let mut text = Bytes::from_slice(alloc, bytes_given(audit, first))?;
    for name in others {
        text.push(b'\n')?;
        text.extend(bytes_given(audit, name))?;
    }
    Ok(text)
}

/// The bytes of the input of a name; none where it is no input's.
#[tactic(auto, unfolding(audit_rules::specs::Contents::content))]
fn bytes_given<'a>(audit: &Replayed<'a>, name: &Name) -> &'a [u8]
    ensures { result.now ≡ input_bytes (given_audit audit.now.recipe.now audit.now.inputs.now) name.now }
{
    match audit.recipe.content(name) {
        Some(Content::Input(index)) => at(audit.inputs, index),
        Some(Content::Stage(_)) => &[],
        None => &[],
    }
}

/// Whether a length and a digest are those of the program of a text in a language at a base.
fn is_program_at(
    alloc: Global,
    language: Language,
    base: u64,
    text: &[u8],
    mark: &Mark,
) -> Result<bool, OutOfMemory>
    requires { base ≤ most_address }
    ensures { IfOk result (λ own. own ≡ is_of_program mark.now (program_at language base text.now)) }
{
    match language {
        Language::Hex0 => is_value(value(alloc, HexLanguage::Hex0, base, text), mark),
        Language::Hex1 => is_value(value(alloc, HexLanguage::Hex1, base, text), mark),
        Language::Hex2 => is_value(value(alloc, HexLanguage::Hex2, base, text), mark),
        Language::M1 => match expand(alloc, text) {
            Ok(items) => is_value(link(alloc, &items, base), mark),
            Err(refusal) => m1_refused(refusal),
        },
    }
}

/// Whether a length and a digest are those of a value, if there is one.
fn is_value(value: Result<Bytes, HexRefusal>, mark: &Mark) -> Result<bool, OutOfMemory>
    ensures { (meant : Result (List ℕ) Refusal) → Links value meant → IfOk result (λ own. own ≡ is_of_program mark.now (linked_bytes meant)) }
{
    match value {
        Ok(bytes) => Ok(mark.is_of(bytes.as_slice())),
        Err(refusal) => hex_refused(refusal),
    }
}

/// No, unless the refusal is out of memory.
fn hex_refused(refusal: HexRefusal) -> Result<bool, OutOfMemory>
    ensures { RefusesHex refusal result }
{
    match refusal {
        HexRefusal::OutOfMemory => Err(OutOfMemory),
        _ => Ok(false),
    }
}

/// No, unless the refusal is out of memory.
fn m1_refused(refusal: M1Refusal) -> Result<bool, OutOfMemory>
    ensures { RefusesM1 refusal result }
{
    match refusal {
        M1Refusal::OutOfMemory => Err(OutOfMemory),
        _ => Ok(false),
    }
}
