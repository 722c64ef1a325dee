//! What recipes say, in words, and the sources of programs.

use crate::texts::GOOD;
use ddc_base::{Bytes, ListOf, Name, OutOfMemory};
use recipe::{Content, Input, Output, Recipe, Source, SourceLanguage, Stage, read};
use std::alloc::Global;
use std::test::Fail;

/// In the manner of a bootstrap chain: programs that go on under `./` names.
const CHAIN: &str = r#"format = 1
input = [
    { name = "seed", path = "./bootstrap-seeds/hex0-seed", implements = "hex0_src" },
    { name = "hex0_text", path = "riscv64/hex0_riscv64.hex0" },
    { name = "hex1_text", path = "riscv64/hex1_riscv64.hex0" },
    { name = "want", path = "hex1.bin" },
]
source = [
    { name = "hex0_src", lang = "hex0", files = ["hex0_text"] },
    { name = "hex1_src", lang = "hex1", base = 0, files = ["hex0_text", "hex1_text"] },
]
[[stage]]
name = "hex0"
program = "seed"
args = ["./hex0", "./hex0.hex0", "././artifact/hex0"]
files = [{ path = "./hex0.hex0", from = "hex0_text" }, { path = "././x", from = "seed" }]
output = "./artifact/hex0"
steps = 281474976710656
check = "hex0_src"
[[stage]]
name = "hex1"
program = "hex0"
args = ["./artifact/hex0"]
env = ["ARCH=riscv64", ""]
output = "-"
steps = 1
heap = 0
becomes = "hex1_src"
[compare]
stage = "hex1"
binary = "want"
"#;

fn optional(name: &Option<Name>) -> &str {
    match name {
        Some(name) => text(name.bytes()),
        None => "none",
    }
}

fn text(bytes: &[u8]) -> &str {
    std::str::from_utf8(bytes).unwrap_or("no text")
}

fn language(source: &Source) -> &'static str {
    match source.lang {
        SourceLanguage::Defined(language) => language.word(),
        SourceLanguage::Other => "other",
    }
}

fn put(lines: &mut String, text: &str) -> Result<(), OutOfMemory> {
    Ok(lines.push_str(text)?)
}

/// Adds texts, a blank before each.
fn put_texts(lines: &mut String, texts: &ListOf<Bytes>) -> Result<(), OutOfMemory> {
    for bytes in texts.as_slice() {
        put(lines, " ")?;
        put(lines, text(bytes.as_slice()))?;
    }
    Ok(())
}

/// Adds names, a blank before each.
fn put_names(lines: &mut String, names: &ListOf<Name>) -> Result<(), OutOfMemory> {
    for name in names.as_slice() {
        put(lines, " ")?;
        put(lines, text(name.bytes()))?;
    }
    Ok(())
}

fn put_input(alloc: Global, lines: &mut String, input: &Input) -> Result<(), OutOfMemory> {
    let name = text(input.name.bytes());
    let path = input.path.as_str();
    let implements = optional(&input.implements);
    let line = format!(in alloc; "input {name} {path} {implements}\n")?;
    put(lines, line.as_str())
}

fn put_source_head(alloc: Global, lines: &mut String, source: &Source) -> Result<(), OutOfMemory> {
    let name = text(source.name.bytes());
    let head = format!(in alloc; "source {name} {} {}", language(source), source.base)?;
    put(lines, head.as_str())
}

fn put_source(alloc: Global, lines: &mut String, source: &Source) -> Result<(), OutOfMemory> {
    put_source_head(alloc, lines, source)?;
    put_names(lines, &source.files)?;
    put(lines, "\n")
}

fn put_stage_head(alloc: Global, lines: &mut String, stage: &Stage) -> Result<(), OutOfMemory> {
    let name = text(stage.name.bytes());
    let program = text(stage.program.bytes());
    let head = format!(in alloc; "stage {name} {program} {} {}", stage.steps, stage.heap)?;
    put(lines, head.as_str())
}

fn put_files(lines: &mut String, stage: &Stage) -> Result<(), OutOfMemory> {
    for file in stage.files.as_slice() {
        put(lines, " ")?;
        put(lines, text(file.path.as_slice()))?;
        put(lines, "=")?;
        put(lines, text(file.from.bytes()))?;
    }
    Ok(())
}

fn put_stage_end(alloc: Global, lines: &mut String, stage: &Stage) -> Result<(), OutOfMemory> {
    let output = match &stage.output {
        Output::Stream => "the stream",
        Output::File(path) => text(path.as_slice()),
    };
    let check = optional(&stage.check);
    let becomes = optional(&stage.becomes);
    let end = format!(in alloc; " > {output} {check} {becomes}\n")?;
    put(lines, end.as_str())
}

fn put_stage(alloc: Global, lines: &mut String, stage: &Stage) -> Result<(), OutOfMemory> {
    put_stage_head(alloc, lines, stage)?;
    put_texts(lines, &stage.args)?;
    put(lines, " |")?;
    put_texts(lines, &stage.env)?;
    put_files(lines, stage)?;
    put_stage_end(alloc, lines, stage)
}

fn put_compare(alloc: Global, lines: &mut String, recipe: &Recipe) -> Result<(), OutOfMemory> {
    put(lines, "compare")?;
    put_names(lines, &recipe.compare().stages)?;
    let binary = text(recipe.compare().binary.bytes());
    let end = format!(in alloc; " {binary}, format {}\n", recipe.format())?;
    put(lines, end.as_str())
}

/// Adds a line for each table.
fn put_recipe(alloc: Global, lines: &mut String, recipe: &Recipe) -> Result<(), OutOfMemory> {
    for input in recipe.inputs().as_slice() {
        put_input(alloc, lines, input)?;
    }
    for source in recipe.sources().as_slice() {
        put_source(alloc, lines, source)?;
    }
    for stage in recipe.stages().as_slice() {
        put_stage(alloc, lines, stage)?;
    }
    put_compare(alloc, lines, recipe)
}

/// Whether a recipe's lines are these.
fn has_lines(alloc: Global, recipe: &Recipe, wanted: &str) -> Result<bool, OutOfMemory> {
    let mut lines = String::new(alloc);
    put_recipe(alloc, &mut lines, recipe)?;
    Ok(lines.as_str() == wanted)
}

/// Whether a text is a recipe that says this.
fn says(alloc: Global, recipe: &str, wanted: &str) -> Result<bool, OutOfMemory> {
    match read(alloc, recipe.as_bytes()) {
        Ok(recipe) => has_lines(alloc, &recipe, wanted),
        Err(_) => Ok(false),
    }
}

static GOOD_LINES: &str =
    "input prog copy.elf copy_src\ninput text copy.hex0 none\ninput bin b.bin none\n\
source copy_src hex0 65536 text\nsource rest_src other 6291456 text one\n\
stage one prog 100000 4096 copy | A=1 in=prog > out copy_src none\nstage two one 5 536870912 first | > the stream none rest_src\n\
stage three two 6 536870912 second | > - none none\ncompare three bin, format 1\n";

#[test]
fn every_key(rt: HostRuntime) -> Result<(), Fail> {
    assert!(rt; says(rt.alloc(), GOOD, GOOD_LINES)?);
    Ok(())
}

static CHAIN_LINES: &str =
    "input seed ./bootstrap-seeds/hex0-seed hex0_src\ninput hex0_text riscv64/hex0_riscv64.hex0 none\n\
input hex1_text riscv64/hex1_riscv64.hex0 none\ninput want hex1.bin none\n\
source hex0_src hex0 6291456 hex0_text\nsource hex1_src hex1 0 hex0_text hex1_text\n\
stage hex0 seed 281474976710656 536870912 ./hex0 ./hex0.hex0 ././artifact/hex0 | hex0.hex0=hex0_text x=seed > artifact/hex0 hex0_src none\n\
stage hex1 hex0 1 0 ./artifact/hex0 | ARCH=riscv64  > the stream none hex1_src\ncompare hex1 want, format 1\n";

#[test]
fn in_the_manner_of_a_chain(rt: HostRuntime) -> Result<(), Fail> {
    assert!(rt; says(rt.alloc(), CHAIN, CHAIN_LINES)?);
    Ok(())
}

/// A name, what it stands for, the language of the source of that name, and the source of the program of that name.
type Row = (&'static str, Option<Content>, &'static str, &'static str);

static NAMES: [Row; 7] = [
    ("prog", Some(Content::Input(0)), "no source", "copy_src"),
    ("bin", Some(Content::Input(2)), "no source", "none"),
    ("one", Some(Content::Stage(0)), "no source", "copy_src"),
    ("two", Some(Content::Stage(1)), "no source", "rest_src"),
    ("three", Some(Content::Stage(2)), "no source", "none"),
    ("rest_src", None, "other", "none"),
    ("gone", None, "no source", "none"),
];

/// The digest of the good recipe, by sha256sum.
const DIGEST: [u8; 32] = [
    0x5d, 0xd5, 0x52, 0x12, 0x23, 0xa1, 0xdc, 0x1a, 0xe2, 0xf9, 0x4f, 0xae, 0xbb, 0x10, 0x92, 0x3b,
    0xad, 0x18, 0xf2, 0x95, 0x77, 0x65, 0x23, 0xb1, 0xf4, 0x36, 0x13, 0x48, 0x9d, 0xae, 0x2a, 0x47,
];

fn source_language(recipe: &Recipe, name: &Name) -> &'static str {
    match recipe.source(name) {
        Some(source) => language(source),
        None => "no source",
    }
}

fn source_of<'r>(recipe: &'r Recipe, name: &Name) -> &'r str {
    match recipe.source_of(name) {
        Some(name) => text(name.bytes()),
        None => "none",
    }
}

fn is_looked_up(recipe: &Recipe, name: &Name, row: &Row) -> bool {
    recipe.content(name) == row.1
        && source_language(recipe, name) == row.2
        && source_of(recipe, name) == row.3
}

fn looks_up(recipe: &Recipe, row: &Row) -> bool {
    match Name::read(row.0.as_bytes()) {
        Some(name) => is_looked_up(recipe, &name, row),
        None => false,
    }
}

fn looks_up_all(recipe: &Recipe) -> bool {
    NAMES.iter().all(|row| looks_up(recipe, row))
}

/// Whether the second stage's content is there only after it.
fn has_before(recipe: &Recipe, name: &Name) -> bool {
    recipe.stages().len() == 3
        && recipe.content_before(1, name).is_none()
        && recipe.content_before(2, name) == Some(Content::Stage(1))
}

fn has_second_before(recipe: &Recipe) -> bool {
    match Name::read(b"two") {
        Some(name) => has_before(recipe, &name),
        None => false,
    }
}

fn is_good(alloc: Global) -> bool {
    match read(alloc, GOOD.as_bytes()) {
        Ok(recipe) => {
            looks_up_all(&recipe) && recipe.digest().0 == DIGEST && has_second_before(&recipe)
        }
        Err(_) => false,
    }
}

#[test]
fn names_and_digest(rt: HostRuntime) {
    assert!(rt; is_good(rt.alloc()));
    recipe::laws::a_name_keeps_its_content();
}
