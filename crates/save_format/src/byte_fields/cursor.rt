ghost use Rattle.std.specs.Prelude.{◌≡◌, ℕ, List, length, IfOk};
ghost use Rattle.std.specs.Int.{w16, w32};
ghost use Rattle.save_format.specs.declared.byte_fields.cursor.ReadStop.TheVariants.{OutOfMemory, Wrong};
ghost use Rattle.save_format.specs.ByteFields.Reader.{Finds, begun, begun_in, byte, bytes, blob, number_of_width, u16, u32, u32_from, u64};

use crate::byte_fields::form::TextForm;
use std::alloc::{AllocError, AllocFailed};
use std::marker::Model;

/// A wrong field. `left` is how many bytes were left at its first byte.
#[derive(Clone, Copy)]
pub struct WrongField {
    pub remaining: usize,
}

/// Why a reader that allocates stops.
#[derive(Clone, Copy)]
pub enum ReadStop {
    /// A wrong field, with how many bytes were left at its first byte.
    Wrong(usize),
    OutOfMemory,
}

impl From<WrongField> for ReadStop {
    ghost from_gives = { λ field e. e ≡ Wrong field.remaining };

    fn from(field: WrongField) -> ReadStop {
        ReadStop::Wrong(field.remaining)
    }
}

impl From<AllocError> for ReadStop {
    ghost from_gives = { λ _ e. e ≡ OutOfMemory };

    fn from(_e: AllocError) -> ReadStop {
        ReadStop::OutOfMemory
    }
}

impl From<ddc_base::OutOfMemory> for ReadStop {
    ghost from_gives = { λ _ e. e ≡ OutOfMemory };

    fn from(_e: ddc_base::OutOfMemory) -> ReadStop {
        ReadStop::OutOfMemory
    }
}

impl<T: Drop> From<AllocFailed<T>> for ReadStop {
    ghost from_gives = { λ _ e. e ≡ OutOfMemory };

    fn from(_e: AllocFailed<T>) -> ReadStop {
        ReadStop::OutOfMemory
    }
}

/// The rest of a text that is being read. Each reader takes a field from its start. After an error, which reports how
/// many bytes were left at the field's first byte, the cursor may be anywhere in the text.
#[derive(Drop)]
pub struct Cursor<'a> {
    remaining: &'a [u8],
}

impl<'a> Model for Cursor<'a> {
    ghost Value = { List ℕ };

    ghost view = { λ c. c.remaining.now };
}

impl<'a> Cursor<'a> {
    /// A cursor at the start of a text.
    pub fn new(remaining: &'a [u8]) -> Cursor<'a>
        ensures { result ≡ remaining.now }
    {
        Cursor { remaining }
    }

    /// How many bytes are left.
    pub fn len(&self) -> usize
        ensures { result ≡ length self.now }
    {
        self.remaining.len()
    }

    /// The next byte.
    #[tactic(auto, unfolding(crate::specs::ByteFields::Reader::byte))]
    pub fn byte(&mut self) -> Result<u8, WrongField>
        ensures { Finds (λ x. x) result self.new (byte self.old) }
    {
        if self.remaining.len() < 1 {
            return Err(WrongField {
                remaining: self.remaining.len(),
            });
        }
        let value = self.remaining[0];
        self.remaining = &self.remaining[1..];
        Ok(value)
    }

    /// The next `count` bytes.
    #[tactic(auto, unfolding(crate::specs::ByteFields::Reader::bytes))]
    pub fn bytes(&mut self, count: usize) -> Result<&'a [u8], WrongField>
        ensures read { Finds (λ x. x.now) result self.new (bytes count self.old) }
        ensures long { IfOk result (λ x. length x.now ≡ count) }
    {
        if self.remaining.len() < count {
            return Err(WrongField {
                remaining: self.remaining.len(),
            });
        }
        let (prefix, rest) = self.remaining.split_at(count);
        self.remaining = rest;
        Ok(prefix)
    }

    /// The eight bytes that begin each text of a format.
    pub fn begins_with(&mut self, magic: &[u8; 8]) -> Result<(), WrongField>
        ensures { Finds (λ x. x) result self.new (begun magic.now self.old) }
    {
        let start = self.len();
        let found = self.bytes(8)?;
        if found != magic.as_slice() {
            return Err(WrongField { remaining: start });
        }
        Ok(())
    }

    /// The eight bytes that begin a text of one of two formats. Returns which format it is.
    pub fn begins_with_either(
        &mut self,
        first: &[u8; 8],
        second: &[u8; 8],
    ) -> Result<TextForm, WrongField>
        ensures { Finds (λ x. x) result self.new (begun_in first.now second.now self.old) }
    {
        let start = self.len();
        let found = self.bytes(8)?;
        if found == first.as_slice() {
            return Ok(TextForm::First);
        }
        if found == second.as_slice() {
            return Ok(TextForm::Second);
        }
        Err(WrongField { remaining: start })
    }

    /// A number of 2 bytes.
    #[tactic(auto, unfolding(crate::specs::ByteFields::Reader::number_of_width))]
    pub fn u16(&mut self) -> Result<u16, WrongField>
        ensures { Finds (λ x. x) result self.new (u16 self.old) }
    {
        if self.remaining.len() < 2 {
            return Err(WrongField {
                remaining: self.remaining.len(),
            });
        }
        let (f, rest) = self.remaining.split_at(2);
        let number = u16::from_le_bytes([f[0], f[1]]);
        self.remaining = rest;
        Ok(number)
    }

    /// A number of 4 bytes.
    #[tactic(auto, unfolding(crate::specs::ByteFields::Reader::number_of_width))]
    pub fn u32(&mut self) -> Result<u32, WrongField>
        ensures { Finds (λ x. x) result self.new (u32 self.old) }
    {
        if self.remaining.len() < 4 {
            return Err(WrongField {
                remaining: self.remaining.len(),
            });
        }
        let (f, rest) = self.remaining.split_at(4);
        let number = u32::from_le_bytes([f[0], f[1], f[2], f[3]]);
        self.remaining = rest;
        Ok(number)
    }

    /// A number of 4 bytes that is at least `least`.
    pub fn u32_from(&mut self, least: u64) -> Result<u32, WrongField>
        ensures { Finds (λ x. x) result self.new (u32_from least self.old) }
    {
        let at = self.len();
        let number = self.u32()?;
        if u64::from(number) < least {
            return Err(WrongField { remaining: at });
        }
        Ok(number)
    }

    /// A number of 8 bytes.
    #[tactic(auto, unfolding(crate::specs::ByteFields::Reader::number_of_width))]
    pub fn u64(&mut self) -> Result<u64, WrongField>
        ensures { Finds (λ x. x) result self.new (u64 self.old) }
    {
        if self.remaining.len() < 8 {
            return Err(WrongField {
                remaining: self.remaining.len(),
            });
        }
        let (f, rest) = self.remaining.split_at(8);
        let number = u64::from_le_bytes([f[0], f[1], f[2], f[3], f[4], f[5], f[6], f[7]]);
        self.remaining = rest;
        Ok(number)
    }

    /// A length of 2 bytes, and that many bytes.
    #[tactic(auto, unfolding(crate::specs::ByteFields::Reader::blob))]
    pub fn blob16(&mut self) -> Result<&'a [u8], WrongField>
        ensures { Finds (λ x. x.now) result self.new (blob w16 self.old) }
    {
        let count = self.u16()?;
        self.bytes(count as usize)
    }

    /// A length of 4 bytes, and that many bytes.
    #[tactic(auto, unfolding(crate::specs::ByteFields::Reader::blob))]
    pub fn blob32(&mut self) -> Result<&'a [u8], WrongField>
        ensures { Finds (λ x. x.now) result self.new (blob w32 self.old) }
    {
        let count = self.u32()?;
        self.bytes(count as usize)
    }
}
