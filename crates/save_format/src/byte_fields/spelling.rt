ghost use Rattle.std.specs.Prelude.{◌≡◌, ◌<◌, ◌^◌, ◌++◌, length, take, OnErr, OnOk};
ghost use Rattle.std.specs.Int.{w16, w32, w64};
ghost use Rattle.save_format.specs.ByteFields.Spelling.{blob_text, number_text};

use ddc_base::{Bytes, OutOfMemory};

/// Restores a text of `len` bytes if appending to it ran out of memory, and returns the result of appending.
pub(crate) fn all_or_none(
    out: &mut Bytes,
    len: usize,
    added: Result<(), OutOfMemory>,
) -> Result<(), OutOfMemory>
    ensures answer { result ≡ added }
    ensures ok { OnOk result (out.new ≡ out.old) }
    ensures err { OnErr result (out.new ≡ take len out.old) }
{
    if added.is_err() {
        out.truncate(len);
    }
    added
}

/// Appends a number of 2 bytes, or nothing.
#[tactic(auto, unfolding(crate::specs::ByteFields::Spelling::number_text))]
pub fn put_u16(out: &mut Bytes, number: u16) -> Result<(), OutOfMemory>
    ensures ok { OnOk result (out.new ≡ out.old ++ number_text w16 number) }
    ensures err { OnErr result (out.new ≡ out.old) }
{
    out.extend(&number.to_le_bytes())
}

/// Appends a number of 4 bytes, or nothing.
#[tactic(auto, unfolding(crate::specs::ByteFields::Spelling::number_text))]
pub fn put_u32(out: &mut Bytes, number: u32) -> Result<(), OutOfMemory>
    ensures ok { OnOk result (out.new ≡ out.old ++ number_text w32 number) }
    ensures err { OnErr result (out.new ≡ out.old) }
{
    out.extend(&number.to_le_bytes())
}

/// Appends a number of 8 bytes, or nothing.
#[tactic(auto, unfolding(crate::specs::ByteFields::Spelling::number_text))]
pub fn put_u64(out: &mut Bytes, number: u64) -> Result<(), OutOfMemory>
    ensures ok { OnOk result (out.new ≡ out.old ++ number_text w64 number) }
    ensures err { OnErr result (out.new ≡ out.old) }
{
    out.extend(&number.to_le_bytes())
}

/// Appends a length of 2 bytes, and these bytes, all or none.
pub fn put_blob16(out: &mut Bytes, bytes: &[u8]) -> Result<(), OutOfMemory>
    requires { length bytes.now < 2 ^ 16 }
    ensures ok { OnOk result (out.new ≡ out.old ++ blob_text w16 bytes.now) }
    ensures err { OnErr result (out.new ≡ out.old) }
{
    let len = out.len();
    put_u16(out, bytes.len() as u16)?;
    let added = out.extend(bytes);
    all_or_none(out, len, added)
}

/// Appends a length of 4 bytes, and these bytes, all or none.
pub fn put_blob32(out: &mut Bytes, bytes: &[u8]) -> Result<(), OutOfMemory>
    requires { length bytes.now < 2 ^ 32 }
    ensures ok { OnOk result (out.new ≡ out.old ++ blob_text w32 bytes.now) }
    ensures err { OnErr result (out.new ≡ out.old) }
{
    let len = out.len();
    put_u32(out, bytes.len() as u32)?;
    let added = out.extend(bytes);
    all_or_none(out, len, added)
}
