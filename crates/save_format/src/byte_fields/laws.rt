//! Reading and writing a field are inverse. Each law is the contract of a function that does nothing.

ghost use Rattle.std.specs.Prelude.{◌≡◌, ℕ, ◌^◌, ◌<◌, List, [], ◌∷◌, length};
ghost use Rattle.std.specs.Int.{w16, w32, w64};
ghost use Rattle.save_format.specs.ByteFields.Law.{IsReadAsEncoded};
ghost use Rattle.save_format.specs.ByteFields.Reader.{begun, blob, byte, bytes, u16, u32, u64};
ghost use Rattle.save_format.specs.ByteFields.Spelling.{IsBlob, blob_text, number_text};

/// Numbers of 2, 4 and 8 bytes read as they are written.
pub fn numbers_are_read_as_encoded()
    ensures two { IsReadAsEncoded u16 (number_text w16) (λ number. number < 2 ^ 16) }
    ensures four { IsReadAsEncoded u32 (number_text w32) (λ number. number < 2 ^ 32) }
    ensures eight { IsReadAsEncoded u64 (number_text w64) (λ number. number < 2 ^ 64) }
{}

/// These fields read as they are written: one byte, a fixed number of bytes, a length with that many bytes, and the magic of a text.
pub fn bytes_are_read_as_encoded()
    ensures one { IsReadAsEncoded byte (λ value. value ∷ []) (λ value. value < 256) }
    ensures many { (count : ℕ) → IsReadAsEncoded (bytes count) (λ values. values) (λ values. length values ≡ count) }
    ensures counted_by_two { IsReadAsEncoded (blob w16) (blob_text w16) (IsBlob (2 ^ 16)) }
    ensures counted_by_four { IsReadAsEncoded (blob w32) (blob_text w32) (IsBlob (2 ^ 32)) }
    ensures beginning { (magic : List ℕ) → length magic ≡ 8 → IsReadAsEncoded (begun magic) (λ _. magic) (λ _. Unit {0}) }
{}
