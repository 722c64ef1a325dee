//! What `provenance` prints.

ghost use Rattle.audit_chain.specs.Provenance.{mark_named, names_source};
ghost use Rattle.audit_chain.specs.Rests.Basis.{layouts, lines, own_layout, ran, texts};
ghost use Rattle.ddc_base.specs.Lines.{line};
ghost use Rattle.recipe.specs.Lookups.{content_named};
ghost use Rattle.report.specs.Lines.{mark_words};
ghost use Rattle.std.specs.List.{list_any};
ghost use Rattle.std.specs.Prelude.{◌≡◌, ◌++◌, [], ◌∷◌, IfOk, OnOk, codes, decimal, flat_map};
ghost use Rattle.verify_commands.specs.Inside.FoundTexts.{found_believed, found_met, found_settling};
ghost use Rattle.verify_commands.specs.Provenance.{block_text, compared_by, source_file_line, file_word, marked_line, marked_text, name_line, origin_text, provenance_text, recipe_digest_line, run_line, settled_line, source_text, mark_words_of};
ghost use Rattle.verify_commands.specs.Texts.{headline, holds_line};

use crate::rests::{put_name, put_names};
use crate::texts::{assumed, put_claim, put_word};
use audit_chain::origin::{Origin, Replayed, is_settled_line, mark_named, names_source, origin_of};
use audit_chain::rests::{Basis, basis_of};
use audit_rules::all_equal;
use ddc_base::{Bytes, Name, OutOfMemory, put_decimal, put_hex};
use recipe::{Content, Recipe, Source};
use report::{CompareLine, Compared, Mark, Report};
use std::alloc::Global;
use wheeler::Assumption;

/// The text for a true report: a yes where all comparisons say equal, the recipe's digest, and the block of each compared stage.
#[tactic(auto, using(crate::proofs::Written::written))]
pub(crate) fn accepted(alloc: Global, audit: &Replayed<'_>) -> Result<Bytes, OutOfMemory>
    ensures { IfOk result (λ text. text ≡ provenance_text audit.now.recipe.now audit.now.inputs.now audit.now.report.now) }
{
    let mut text = Bytes::new(alloc);
    put_headline(&mut text, audit.report.compare.as_slice())?;
    put_recipe(&mut text, audit.recipe)?;
    put_blocks(alloc, &mut text, audit, audit.report.compare.as_slice())?;
    Ok(text)
}

/// Adds a yes, where all comparisons say equal.
#[tactic(auto, unfolding(crate::specs::Texts::yes_line))]
fn put_headline(text: &mut Bytes, lines: &[CompareLine]) -> Result<(), OutOfMemory>
    ensures { OnOk result (text.new ≡ text.old ++ headline lines.now) }
{
    if all_equal(lines) {
        text.extend(b"yes\n")
    } else {
        Ok(())
    }
}

/// Adds the recipe's digest.
#[tactic(auto, using(crate::proofs::Written::written), unfolding(crate::specs::Provenance::recipe_digest_line))]
fn put_recipe(text: &mut Bytes, recipe: &Recipe) -> Result<(), OutOfMemory>
    ensures { OnOk result (text.new ≡ text.old ++ recipe_digest_line recipe.now) }
{
    text.extend(b"recipe ")?;
    put_hex(text, &recipe.digest().0)?;
    text.push(b'\n')
}

/// Adds the blocks of these comparisons.
fn put_blocks(
    alloc: Global,
    text: &mut Bytes,
    audit: &Replayed<'_>,
    lines: &[CompareLine],
) -> Result<(), OutOfMemory>
    ensures { OnOk result (text.new ≡ text.old ++ flat_map (block_text audit.now.recipe.now audit.now.inputs.now audit.now.report.now) lines.now) }
{
    for line in lines {
        put_block(alloc, text, audit, line)?;
    }
    Ok(())
}

/// Adds the block of a comparison.
#[tactic(auto, using(crate::proofs::Written::written), unfolding(crate::specs::Provenance::block_text))]
fn put_block(
    alloc: Global,
    text: &mut Bytes,
    audit: &Replayed<'_>,
    line: &CompareLine,
) -> Result<(), OutOfMemory>
    ensures { OnOk result (text.new ≡ text.old ++ block_text audit.now.recipe.now audit.now.inputs.now audit.now.report.now line.now) }
{
    put_compared(text, audit.recipe, audit.report, line)?;
    let origin = origin_text(alloc, audit, &line.stage)?;
    text.extend(origin.as_slice())
}

/// Adds how the artefact and the audited binary compare.
fn put_compared(
    text: &mut Bytes,
    recipe: &Recipe,
    report: &Report,
    line: &CompareLine,
) -> Result<(), OutOfMemory>
    ensures { OnOk result (text.new ≡ text.old ++ compared_by recipe.now report.now line.now.stage line.now.binary line.now.result) }
{
    match line.result {
        Compared::Equal(_) => put_equal(text, recipe, report, &line.stage, &line.binary),
        Compared::Differs(offset, ours, theirs) => { put_differs(text, line, offset, ours, theirs) }
    }
}

/// Adds that they are equal.
#[tactic(auto, using(crate::proofs::Written::written))]
fn put_equal(
    text: &mut Bytes,
    recipe: &Recipe,
    report: &Report,
    stage: &Name,
    binary: &Name,
) -> Result<(), OutOfMemory>
    ensures { OnOk result (text.new ≡ text.old ++ line (codes "equal" ∷ stage.now ∷ binary.now ∷ mark_words_of (mark_named recipe.now report.now binary.now))) }
{
    text.extend(b"equal ")?;
    put_word(text, stage)?;
    put_marked_name(text, binary, mark_named(recipe, report, binary))
}

/// Adds that they differ.
#[tactic(auto, using(crate::proofs::Written::written))]
fn put_differs(
    text: &mut Bytes,
    compare: &CompareLine,
    offset: u64,
    ours: u64,
    theirs: u64,
) -> Result<(), OutOfMemory>
    ensures { OnOk result (text.new ≡ text.old ++ line (codes "differs" ∷ compare.now.stage ∷ compare.now.binary ∷ decimal offset ∷ decimal ours ∷ decimal theirs ∷ [])) }
{
    text.extend(b"differs ")?;
    put_word(text, &compare.stage)?;
    put_word(text, &compare.binary)?;
    put_decimal(text, offset)?;
    text.push(b' ')?;
    put_lengths(text, ours, theirs)
}

/// Adds two lengths, at the end of a line.
#[tactic(auto, using(crate::proofs::Written::written))]
fn put_lengths(text: &mut Bytes, ours: u64, theirs: u64) -> Result<(), OutOfMemory>
    ensures { OnOk result (text.new ≡ text.old ++ line (decimal ours ∷ decimal theirs ∷ [])) }
{
    put_decimal(text, ours)?;
    text.push(b' ')?;
    put_decimal(text, theirs)?;
    text.push(b'\n')
}

/// Adds a name with its length and digest, at the end of a line.
#[tactic(auto, using(crate::proofs::Written::written))]
fn put_marked_name(text: &mut Bytes, name: &Name, mark: Option<Mark>) -> Result<(), OutOfMemory>
    ensures { OnOk result (text.new ≡ text.old ++ line (name.now ∷ mark_words_of mark)) }
{
    text.extend(name.bytes())?;
    match mark {
        Some(mark) => {
            text.push(b' ')?;
            put_mark(text, &mark)
        }
        None => text.push(b'\n'),
    }
}

/// Adds a length and a digest, at the end of a line.
#[tactic(auto, using(crate::proofs::Written::written))]
fn put_mark(text: &mut Bytes, mark: &Mark) -> Result<(), OutOfMemory>
    ensures { OnOk result (text.new ≡ text.old ++ line (mark_words mark.now)) }
{
    put_decimal(text, mark.length)?;
    text.push(b' ')?;
    put_hex(text, &mark.digest.0)?;
    text.push(b'\n')
}

/// The dependencies of the artefact of the stage of a name.
fn origin_text(alloc: Global, audit: &Replayed<'_>, name: &Name) -> Result<Bytes, OutOfMemory>
    ensures { IfOk result (λ text. text ≡ origin_text audit.now.recipe.now audit.now.inputs.now audit.now.report.now name.now) }
{
    let basis = basis_of(alloc, audit.recipe, name)?;
    with_origin(alloc, audit, name, &basis)
}

/// The same, with the basis, which its caller drops.
#[tactic(auto, unfolding(crate::specs::Provenance::origin_text))]
fn with_origin(
    alloc: Global,
    audit: &Replayed<'_>,
    name: &Name,
    basis: &Basis,
) -> Result<Bytes, OutOfMemory>
    requires texts { basis.now.texts ≡ texts audit.now.recipe.now name.now }
    requires layouts { basis.now.layouts ≡ layouts audit.now.recipe.now name.now }
    requires own_layout { basis.now.own_layout ≡ own_layout audit.now.recipe.now name.now }
    requires ran { basis.now.ran ≡ ran audit.now.recipe.now name.now }
    requires lines { basis.now.lines ≡ lines audit.now.recipe.now name.now }
    ensures { IfOk result (λ text. text ≡ origin_text audit.now.recipe.now audit.now.inputs.now audit.now.report.now name.now) }
{
    let origin = origin_of(alloc, audit.recipe, audit.report, name)?;
    written(alloc, audit, name, basis, &origin)
}

/// The text of what was found.
#[tactic(auto, using(crate::proofs::Written::written))]
fn written(
    alloc: Global,
    audit: &Replayed<'_>,
    own: &Name,
    basis: &Basis,
    origin: &Origin,
) -> Result<Bytes, OutOfMemory>
    ensures { IfOk result (λ text. text ≡ found_settling audit.now.recipe.now audit.now.report.now basis.now origin.now
        ++ (found_believed audit.now.recipe.now audit.now.inputs.now audit.now.report.now own.now basis.now ++ found_met origin.now)) }
{
    let mut text = Bytes::new(alloc);
    put_settling(&mut text, audit.recipe, audit.report, basis, origin)?;
    put_believed(alloc, &mut text, audit, own, basis)?;
    put_met(&mut text, origin)?;
    Ok(text)
}

/// Adds what settles the artefact.
#[tactic(auto, using(crate::proofs::Written::written))]
fn put_settling(
    text: &mut Bytes,
    recipe: &Recipe,
    report: &Report,
    basis: &Basis,
    origin: &Origin,
) -> Result<(), OutOfMemory>
    ensures { OnOk result (text.new ≡ text.old ++ found_settling recipe.now report.now basis.now origin.now) }
{
    put_marked(text, recipe, report, b"text", basis.texts.as_slice())?;
    put_marked(text, recipe, report, b"program", origin.programs.as_slice())?;
    put_marked(text, recipe, report, b"layout", basis.layouts.as_slice())
}

/// Adds the free layout of the stage itself, the runs, and what is assumed or holds of programs.
#[tactic(auto, using(crate::proofs::Written::written))]
fn put_believed(
    alloc: Global,
    text: &mut Bytes,
    audit: &Replayed<'_>,
    own: &Name,
    basis: &Basis,
) -> Result<(), OutOfMemory>
    ensures { OnOk result (text.new ≡ text.old ++ found_believed audit.now.recipe.now audit.now.inputs.now audit.now.report.now own.now basis.now) }
{
    put_names(text, b"layout", basis.own_layout.as_slice())?;
    put_runs(text, audit.recipe, audit.report, own, basis.ran.as_slice())?;
    put_settled(alloc, text, audit, basis.lines.as_slice())?;
    put_sources(
        text,
        audit.recipe,
        audit.report,
        basis.lines.as_slice(),
        audit.recipe.sources().as_slice(),
    )
}

/// Adds a line for each assumption: whether it holds by lengths and digests, or is assumed.
fn put_settled(
    alloc: Global,
    text: &mut Bytes,
    audit: &Replayed<'_>,
    lines: &[Assumption],
) -> Result<(), OutOfMemory>
    ensures { OnOk result (text.new ≡ text.old ++ flat_map (settled_line audit.now.recipe.now audit.now.inputs.now audit.now.report.now) lines.now) }
{
    for line in lines {
        put_line(alloc, text, audit, line)?;
    }
    Ok(())
}

/// Adds the line of an assumption.
#[tactic(auto, unfolding(crate::specs::Provenance::settled_line))]
fn put_line(
    alloc: Global,
    text: &mut Bytes,
    audit: &Replayed<'_>,
    line: &Assumption,
) -> Result<(), OutOfMemory>
    ensures { OnOk result (text.new ≡ text.old ++ settled_line audit.now.recipe.now audit.now.inputs.now audit.now.report.now line.now) }
{
    if is_settled_line(alloc, audit, line)? {
        let line = held(alloc, line)?;
        text.extend(line.as_slice())
    } else {
        let line = assumed(alloc, line)?;
        text.extend(line.as_slice())
    }
}

/// An assumption that holds.
#[tactic(auto, using(crate::proofs::Claims::begun), unfolding(crate::specs::Texts::holds_line))]
fn held(alloc: Global, line: &Assumption) -> Result<Bytes, OutOfMemory>
    ensures { IfOk result (λ text. text ≡ holds_line line.now) }
{
    let mut text = Bytes::from_slice(alloc, b"holds ")?;
    put_claim(&mut text, line)?;
    Ok(text)
}

/// Adds where the audited binary itself is met.
#[tactic(auto, using(crate::proofs::Written::written))]
fn put_met(text: &mut Bytes, origin: &Origin) -> Result<(), OutOfMemory>
    ensures { OnOk result (text.new ≡ text.old ++ found_met origin.now) }
{
    put_names(text, b"audited read", origin.audited_read.as_slice())?;
    put_names(text, b"audited run", origin.audited_run.as_slice())?;
    put_names(text, b"same read", origin.same_read.as_slice())?;
    put_names(text, b"same run", origin.same_run.as_slice())
}

/// Adds a line for each unchecked stage among the dependencies.
fn put_runs(
    text: &mut Bytes,
    recipe: &Recipe,
    report: &Report,
    own: &Name,
    names: &[Name],
) -> Result<(), OutOfMemory>
    ensures { OnOk result (text.new ≡ text.old ++ flat_map (run_line recipe.now report.now own.now) names.now) }
{
    for name in names {
        put_run(text, recipe, report, own, name)?;
    }
    Ok(())
}

/// Adds the line of an unchecked stage: that of the compared stage itself has no length and no digest.
fn put_run(
    text: &mut Bytes,
    recipe: &Recipe,
    report: &Report,
    own: &Name,
    name: &Name,
) -> Result<(), OutOfMemory>
    ensures { OnOk result (text.new ≡ text.old ++ run_line recipe.now report.now own.now name.now) }
{
    if *name == *own {
        put_name(text, b"run", name)
    } else {
        put_marked_line(text, recipe, report, b"run", name)
    }
}

/// Adds a line for each name with its length and digest, after the kind of the fact.
fn put_marked(
    text: &mut Bytes,
    recipe: &Recipe,
    report: &Report,
    what: &[u8],
    names: &[Name],
) -> Result<(), OutOfMemory>
    ensures { OnOk result (text.new ≡ text.old ++ marked_text recipe.now report.now what.now names.now) }
{
    for name in names {
        put_marked_line(text, recipe, report, what, name)?;
    }
    Ok(())
}

/// Adds the line of a name with its length and digest.
#[tactic(auto, using(crate::proofs::Written::written))]
fn put_marked_line(
    text: &mut Bytes,
    recipe: &Recipe,
    report: &Report,
    what: &[u8],
    name: &Name,
) -> Result<(), OutOfMemory>
    ensures { OnOk result (text.new ≡ text.old ++ marked_line recipe.now report.now what.now name.now) }
{
    text.extend(what)?;
    text.push(b' ')?;
    put_marked_name(text, name, mark_named(recipe, report, name))
}

/// Adds the files of the sources that assumptions name.
fn put_sources(
    text: &mut Bytes,
    recipe: &Recipe,
    report: &Report,
    lines: &[Assumption],
    sources: &[Source],
) -> Result<(), OutOfMemory>
    ensures { OnOk result (text.new ≡ text.old ++ flat_map (source_text recipe.now report.now lines.now) sources.now) }
{
    for source in sources {
        put_source(text, recipe, report, lines, source)?;
    }
    Ok(())
}

/// Adds the files of a source, if an assumption names it.
#[tactic(auto, unfolding(crate::specs::Provenance::source_text))]
fn put_source(
    text: &mut Bytes,
    recipe: &Recipe,
    report: &Report,
    lines: &[Assumption],
    source: &Source,
) -> Result<(), OutOfMemory>
    ensures { OnOk result (text.new ≡ text.old ++ source_text recipe.now report.now lines.now source.now) }
{
    if is_named(lines, &source.name) {
        put_files(text, recipe, report, &source.name, source.files.as_slice())
    } else {
        Ok(())
    }
}

/// Whether one of the assumptions names a source.
fn is_named(lines: &[Assumption], name: &Name) -> bool
    ensures { result ≡ list_any (names_source name.now) lines.now }
{
    lines.iter().any(|line| names_source(name, line))
}

/// Adds a line for each file of a source.
fn put_files(
    text: &mut Bytes,
    recipe: &Recipe,
    report: &Report,
    source: &Name,
    files: &[Name],
) -> Result<(), OutOfMemory>
    ensures { OnOk result (text.new ≡ text.old ++ flat_map (source_file_line recipe.now report.now source.now) files.now) }
{
    for file in files {
        put_file(text, recipe, report, source, file)?;
    }
    Ok(())
}

/// Adds the line of a file.
#[tactic(auto, using(crate::proofs::Written::written))]
fn put_file(
    text: &mut Bytes,
    recipe: &Recipe,
    report: &Report,
    source: &Name,
    file: &Name,
) -> Result<(), OutOfMemory>
    ensures { OnOk result (text.new ≡ text.old ++ source_file_line recipe.now report.now source.now file.now) }
{
    text.extend(file_word(recipe, file))?;
    text.push(b' ')?;
    put_word(text, source)?;
    put_marked_name(text, file, mark_named(recipe, report, file))
}

/// The word for a file of a source: an input is to be read, an artefact to be asked after.
fn file_word(recipe: &Recipe, file: &Name) -> &'static [u8]
    ensures { result.now ≡ file_word (content_named recipe.now.inputs recipe.now.stages file.now) }
{
    match recipe.content(file) {
        Some(Content::Stage(_)) => b"speaks",
        Some(Content::Input(_)) => b"source",
        None => b"source",
    }
}
