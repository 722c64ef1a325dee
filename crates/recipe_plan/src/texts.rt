//! The lines about recipes and comparisons.

ghost use Rattle.std.specs.Prelude.{◌≡◌, ◌∷◌, ◌++◌, [], codes, decimal, IfOk, OnOk};
ghost use Rattle.ddc_base.specs.Lines.{line};
ghost use Rattle.recipe.specs.Text.Keys.{key_word, table_word};
ghost use Rattle.recipe_plan.specs.Texts.{recipe_line, compared_line, compared_lines};

use ddc_base::{Bytes, Name, OutOfMemory};
use recipe::{Key, Place, RecipeRefusal};
use report::{CompareLine, Compared};
use std::alloc::Global;

/// A copy of `prefix` and then `text`. Error: out of memory.
pub fn after(alloc: Global, prefix: &[u8], text: &[u8]) -> Result<Bytes, OutOfMemory>
    ensures { IfOk result (λ whole. whole ≡ prefix.now ++ text.now) }
{
    let mut whole = Bytes::from_slice(alloc, prefix)?;
    whole.extend(text)?;
    Ok(whole)
}

/// The line about a file that is not a recipe. Error: out of memory.
#[tactic(auto, unfolding(crate::specs::Texts::recipe_line))]
pub fn recipe_line(alloc: Global, refusal: RecipeRefusal) -> Result<Bytes, OutOfMemory>
    ensures { IfOk result (λ text. text ≡ recipe_line refusal) }
{
    let number = refusal.number();
    match (refusal.place(), refusal.key()) {
        (None, _) => refused(alloc, number),
        (Some(place), None) => refused_at(alloc, number, place),
        (Some(place), Some(key)) => refused_key(alloc, number, place, key),
    }
}

/// The line of a refusal of the whole text.
fn refused(alloc: Global, number: u8) -> Result<Bytes, OutOfMemory>
    ensures { IfOk result (λ text. text ≡ line (codes "recipe" ∷ codes "refused" ∷ decimal number ∷ [])) }
{
    Ok(Bytes::from_vec(format!(in alloc; "recipe refused {number}\n")?.into_bytes()))
}

/// The line of a refusal of a table.
fn refused_at(alloc: Global, number: u8, place: Place) -> Result<Bytes, OutOfMemory>
    ensures { IfOk result (λ text. text ≡ line (codes "recipe" ∷ codes "refused" ∷ decimal number ∷ table_word place.table ∷ decimal place.number ∷ [])) }
{
    let table = place.table.word();
    let item = place.number;
    Ok(Bytes::from_vec(format!(in alloc; "recipe refused {number} {table} {item}\n")?.into_bytes()))
}

/// The line of a refusal of a key.
fn refused_key(alloc: Global, number: u8, place: Place, key: Key) -> Result<Bytes, OutOfMemory>
    ensures { IfOk result (λ text. text ≡ line (codes "recipe" ∷ codes "refused" ∷ decimal number ∷ table_word place.table ∷ decimal place.number
        ∷ key_word key ∷ [])) }
{
    let table = place.table.word();
    let item = place.number;
    let key = key.word();
    Ok(Bytes::from_vec(format!(in alloc;
        "recipe refused {number} {table} {item} {key}\n"
    )?.into_bytes()))
}

/// One line for each comparison, in order. Error: out of memory.
#[tactic(auto, unfolding(crate::specs::Texts::compared_lines))]
pub fn compared_lines(alloc: Global, lines: &[CompareLine]) -> Result<Bytes, OutOfMemory>
    ensures { IfOk result (λ text. text ≡ compared_lines lines.now) }
{
    let mut text = Bytes::new(alloc);
    for line in lines {
        put_compared(alloc, &mut text, line)?;
    }
    Ok(text)
}

/// Adds how a compared artefact and the binary compare: if equal the length, else the first offset that differs and both lengths.
#[tactic(auto, using(crate::proofs::Written::written), unfolding(crate::specs::Texts::compared_line))]
fn put_compared(alloc: Global, text: &mut Bytes, line: &CompareLine) -> Result<(), OutOfMemory>
    ensures { OnOk result (text.new ≡ text.old ++ compared_line line.now) }
{
    match line.result {
        Compared::Equal(size) => {
            text.extend(b"equal ")?;
            put_names(text, line)?;
            text.extend(format!(in alloc; "{size}\n")?.as_bytes())
        }
        Compared::Differs(offset, made, given) => {
            text.extend(b"differs ")?;
            put_names(text, line)?;
            text.extend(format!(in alloc; "{offset} {made} {given}\n")?.as_bytes())
        }
    }
}

/// Adds the names of the stage and of the binary, each with a blank after it.
#[tactic(auto, using(crate::proofs::Written::written))]
fn put_names(text: &mut Bytes, names: &CompareLine) -> Result<(), OutOfMemory>
    ensures { OnOk result (text.new ≡ text.old ++ names.now.stage ++ 32 ∷ names.now.binary ++ 32 ∷ []) }
{
    text.extend(names.stage.bytes())?;
    text.push(b' ')?;
    text.extend(names.binary.bytes())?;
    text.push(b' ')
}
