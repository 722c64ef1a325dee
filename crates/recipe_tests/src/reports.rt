//! Tests of `report` and of `report::script`, by their public calls.

ghost use Rattle.std.specs.Prelude.{◌≡◌, ◌++◌, OnOk};
ghost use Rattle.std.specs.List.{flat_map};
ghost use Rattle.recipe_tests.specs.Reports.Texts.{encoded_byte};

use ddc_base::{Bytes, OutOfMemory};

#[cfg(test)]
mod reports;
#[cfg(test)]
mod scripts;

/// Adds a text in which `*` stands for the SHA-256 digest of no bytes.
pub fn put_text(out: &mut Bytes, text: &[u8]) -> Result<(), OutOfMemory>
    ensures { OnOk result (out.new ≡ out.old ++ flat_map encoded_byte text.now) }
{
    for byte in text {
        put_byte(out, *byte)?;
    }
    Ok(())
}

#[tactic(auto, unfolding(crate::specs::Reports::Texts::encoded_byte))]
fn put_byte(out: &mut Bytes, byte: u8) -> Result<(), OutOfMemory>
    ensures { OnOk result (out.new ≡ out.old ++ encoded_byte byte) }
{
    if byte == b'*' {
        out.extend(b"e3b0c44298fc1c149afbf4c8996fb92427ae41e4649b934ca495991b7852b855")
    } else {
        out.push(byte)
    }
}
