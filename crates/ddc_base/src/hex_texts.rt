ghost use Rattle.std.specs.Prelude.{◌≡◌, ℕ, List, IfOk, IsErrOf};
ghost use Rattle.ddc_base.specs.HexTexts.{IsHexOf, is_lower_digit};
ghost use Rattle.ddc_base.specs.Inside.HexTests as test;
ghost use Rattle.std.specs.List.{list_all};

use crate::byte_list::Bytes;
use hex::FromHexError;
use std::alloc::Global;

/// Why a hexadecimal text was not read.
#[derive(Clone, Copy, Debug, PartialEq, Eq)]
pub enum HexFail {
    /// It is not an even number of digits `0` to `9` and `a` to `f`.
    Bad,
    OutOfMemory,
}

/// The bytes of a hexadecimal text with two lower-case digits for each. Errors: `Bad` for any other text, `OutOfMemory`.
#[tactic(auto, using(crate::proofs::HexTexts::hex_texts))]
pub fn read_hex(alloc: Global, text: &[u8]) -> Result<Bytes, HexFail>
    ensures value { IfOk result (IsHexOf text.now) }
    ensures bad { IsErrOf result HexFail.Bad → (bytes : List ℕ) → ¬ IsHexOf text.now bytes }
    ensures want { IsErrOf result HexFail.OutOfMemory → (bytes : List ℕ) × IsHexOf text.now bytes }
{
    if !is_lower_hex(text) {
        return Err(HexFail::Bad);
    }
    match hex::decode(alloc, text) {
        Ok(bytes) => Ok(Bytes::from_vec(bytes)),
        Err(FromHexError::OutOfMemory) => Err(HexFail::OutOfMemory),
        Err(_) => Err(HexFail::Bad),
    }
}

/// Whether a text is an even number of lower-case hexadecimal digits.
fn is_lower_hex(text: &[u8]) -> bool
    ensures { result ≡ test.is_lower_hex text.now }
{
    text.len() % 2 == 0 && are_lower_digits(text)
}

/// Whether every byte is a lower-case digit, `0` to `9` or `a` to `f`.
pub fn are_lower_digits(text: &[u8]) -> bool
    ensures { result ≡ list_all is_lower_digit text.now }
{
    text.iter().all(|byte| is_lower_digit(*byte))
}

fn is_lower_digit(byte: u8) -> bool
    ensures { result ≡ is_lower_digit byte }
{
    matches!(byte, b'0'..=b'9' | b'a'..=b'f')
}
