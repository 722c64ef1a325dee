//! Finding the dependencies of a stage.

ghost use Rattle.audit_chain.specs.Rests.Walk.{bytes_meet, file_part, files_meet, is_bytes, is_file, is_part_named, is_program, meets, parts_of, runs_meet, source_parts, walk, walk_from};
ghost use Rattle.audit_chain.specs.declared.rests.basis_part.BasisPart.TheVariants.{Reads};
ghost use Rattle.std.specs.Prelude.{◌≡◌, ◌++◌, IfOk, OnOk, map};

use crate::rests::basis_part::{BasisPart, BasisParts};
use ddc_base::languages::Language;
use ddc_base::{ListOf, Name, OutOfMemory};
use recipe::{Recipe, Source, SourceLanguage, Stage, StageFile};
use std::alloc::Global;

/// All dependencies of the stage of a name, as parts. Error: out of memory.
#[tactic(auto, unfolding(crate::specs::Rests::Walk::walk))]
pub(crate) fn walk(alloc: Global, recipe: &Recipe, name: &Name) -> Result<BasisParts, OutOfMemory>
    ensures { IfOk result (λ parts. parts ≡ walk recipe.now name.now) }
{
    let stages = recipe.stages().as_slice();
    let mut parts = ListOf::new(alloc);
    parts.push(BasisPart::Links(name.copy()))?;
    let mut before = stages.len();
    while before > 0 {
        before -= 1;
        let stage = &stages[before];
        if meets(parts.as_slice(), &stage.name) {
            push_parts(&mut parts, recipe, stage)?;
        }
    }
    Ok(parts)
}

/// Adds a stage's parts.
#[tactic(auto, unfolding(crate::specs::Rests::Walk::parts_of))]
fn push_parts(parts: &mut BasisParts, recipe: &Recipe, stage: &Stage) -> Result<(), OutOfMemory>
    ensures { OnOk result (parts.new ≡ parts.old ++ parts_of recipe.now stage.now) }
{
    match &stage.check {
        Some(check) => match recipe.source(check) {
            Some(source) => push_source(parts, source),
            None => Ok(()),
        },
        None => {
            parts.push(BasisPart::Runs(stage.program.copy()))?;
            push_files(parts, stage.files.as_slice())
        }
    }
}

/// Adds the files of an unchecked stage's program.
fn push_files(parts: &mut BasisParts, files: &[StageFile]) -> Result<(), OutOfMemory>
    ensures { OnOk result (parts.new ≡ parts.old ++ map file_part files.now) }
{
    for file in files {
        parts.push(BasisPart::Reads(file.from.copy()))?;
    }
    Ok(())
}

/// Adds the files of a check's source.
fn push_source(parts: &mut BasisParts, source: &Source) -> Result<(), OutOfMemory>
    ensures { OnOk result (parts.new ≡ parts.old ++ source_parts source.now.lang source.now.files) }
{
    let files = source.files.as_slice();
    match source.lang {
        SourceLanguage::Defined(Language::Hex2) => {
            if files.len() == 1 {
                parts.push(BasisPart::Links(files[0].copy()))
            } else {
                push_names(parts, files)
            }
        }
        SourceLanguage::Defined(Language::Hex0 | Language::Hex1 | Language::M1) => {
            push_names(parts, files)
        }
        SourceLanguage::Other => push_names(parts, files),
    }
}

/// Adds files that are read.
fn push_names(parts: &mut BasisParts, names: &[Name]) -> Result<(), OutOfMemory>
    ensures { OnOk result (parts.new ≡ parts.old ++ map Reads names.now) }
{
    for name in names {
        parts.push(BasisPart::Reads(name.copy()))?;
    }
    Ok(())
}

/// Whether a name is among these parts.
pub(crate) fn meets(parts: &[BasisPart], name: &Name) -> bool
    ensures { result ≡ meets parts.now name.now }
{
    parts.iter().any(|part| is_part_named(part, name))
}

/// Whether a name is read.
pub(crate) fn files_meet(parts: &[BasisPart], name: &Name) -> bool
    ensures { result ≡ files_meet parts.now name.now }
{
    parts.iter().any(|part| is_file(part, name))
}

/// Whether the bytes of a name matter.
pub(crate) fn bytes_meet(parts: &[BasisPart], name: &Name) -> bool
    ensures { result ≡ bytes_meet parts.now name.now }
{
    parts.iter().any(|part| is_bytes(part, name))
}

/// Whether a name is run.
pub(crate) fn runs_meet(parts: &[BasisPart], name: &Name) -> bool
    ensures { result ≡ runs_meet parts.now name.now }
{
    parts.iter().any(|part| is_program(part, name))
}

/// Whether a part has this name.
fn is_part_named(part: &BasisPart, name: &Name) -> bool
    ensures { result ≡ is_part_named name.now part.now }
{
    match part {
        BasisPart::Reads(other) => *other == *name,
        BasisPart::Links(other) => *other == *name,
        BasisPart::Runs(other) => *other == *name,
    }
}

/// Whether a part is read and has this name.
fn is_file(part: &BasisPart, name: &Name) -> bool
    ensures { result ≡ is_file name.now part.now }
{
    match part {
        BasisPart::Reads(other) => *other == *name,
        BasisPart::Links(other) => *other == *name,
        BasisPart::Runs(_) => false,
    }
}

/// Whether a part's bytes matter and it has this name.
fn is_bytes(part: &BasisPart, name: &Name) -> bool
    ensures { result ≡ is_bytes name.now part.now }
{
    match part {
        BasisPart::Reads(other) => *other == *name,
        BasisPart::Links(_) => false,
        BasisPart::Runs(other) => *other == *name,
    }
}

/// Whether a part is run and has this name.
fn is_program(part: &BasisPart, name: &Name) -> bool
    ensures { result ≡ is_program name.now part.now }
{
    match part {
        BasisPart::Reads(_) => false,
        BasisPart::Links(_) => false,
        BasisPart::Runs(other) => *other == *name,
    }
}
