//! Reads and writes each item of a list.

ghost use Rattle.std.specs.Prelude.{◌≡◌, ◌++◌, ◌∷◌, ◌==◌, OnErr, OnOk, nat_le};
ghost use Rattle.std.specs.Io.{StartsWith};
ghost use Rattle.std.specs.List.{list_all};
ghost use Rattle.save_format.specs.ByteFields.Reader.{Finds, byte, bytes, that};
ghost use Rattle.save_format.specs.StateText.StateText.{access_at, are_flags, is_page, mode_of_code, open_file_at};
ghost use Rattle.save_format.specs.StateText.Encoded.{flags_of, kind_of, open_file_text};

use crate::byte_fields::{Cursor, TextItem, WrongField, put_blob16, put_blob32, put_u32, put_u64};
use crate::state_text::parts::{File, NumberedDescriptor, Page, Run};
use ddc_base::{Bytes, OutOfMemory};
use mem_files::{Access, Mode, OpenFile};

impl<'a> TextItem<'a> for Run {
    ghost use Rattle.save_format.specs.declared.state_text.parts.Run.{Run};
    ghost use Rattle.save_format.specs.StateText.StateText.{after_run, run_at};
    ghost use Rattle.save_format.specs.StateText.Encoded.{run_text};

    ghost Seen = { Run };

    ghost seen = { λ run. run };

    ghost read_from = { run_at };

    ghost next_least = { after_run };

    ghost text = { run_text };

    ghost IsShort = { λ _. Unit {0} };

    #[tactic(auto, unfolding(crate::specs::StateText::StateText::run_at))]
    fn take(cursor: &mut Cursor<'a>, least: u64) -> Result<Run, WrongField> {
        let first = cursor.u32_from(least)?;
        let pages = cursor.u32_from(1)?;
        Ok(Run { first, pages })
    }

    fn least_after(&self) -> u64 {
        u64::from(self.first) + u64::from(self.pages) + 1
    }

    #[tactic(auto, using(crate::proofs::ByteFieldsLemmas::Kept::kept))]
    fn add(&self, out: &mut Bytes) -> Result<(), OutOfMemory> {
        put_u32(out, self.first)?;
        put_u32(out, self.pages)
    }
}

impl<'a> TextItem<'a> for Page<'a> {
    ghost use Rattle.save_format.specs.StateText.StateText.{PageText, after_page, page_at};
    ghost use Rattle.save_format.specs.StateText.Encoded.{page_text};
    ghost use Rattle.save_format.specs.StateText.Seen.{page_view};

    ghost Seen = { PageText };

    ghost seen = { page_view };

    ghost read_from = { page_at };

    ghost next_least = { after_page };

    ghost text = { page_text };

    ghost IsShort = { λ _. Unit {0} };

    #[tactic(auto, unfolding(crate::specs::StateText::StateText::page_at))]
    fn take(cursor: &mut Cursor<'a>, least: u64) -> Result<Page<'a>, WrongField> {
        let number = cursor.u32_from(least)?;
        let at = cursor.len();
        let bytes = cursor.bytes(4096)?;
        if is_zero(bytes) {
            return Err(WrongField { remaining: at });
        }
        Ok(Page { number, bytes })
    }

    fn least_after(&self) -> u64 {
        u64::from(self.number) + 1
    }

    #[tactic(auto, using(crate::proofs::ByteFieldsLemmas::Kept::kept))]
    fn add(&self, out: &mut Bytes) -> Result<(), OutOfMemory> {
        put_u32(out, self.number)?;
        out.extend(self.bytes)
    }
}

/// Whether all bytes are zero.
pub(crate) fn is_zero(bytes: &[u8]) -> bool
    ensures { result ≡ list_all (λ b. b == 0) bytes.now }
{
    bytes.iter().all(|byte| *byte == 0)
}

impl<'a> TextItem<'a> for File<'a> {
    ghost use Rattle.mem_files.specs.Lists.{ListedFile};
    ghost use Rattle.save_format.specs.StateText.StateText.{after_file, file_at};
    ghost use Rattle.save_format.specs.StateText.Encoded.{IsShortFile, file_text};
    ghost use Rattle.save_format.specs.StateText.Seen.{file_view};

    ghost Seen = { ListedFile };

    ghost seen = { file_view };

    ghost read_from = { file_at };

    ghost next_least = { after_file };

    ghost text = { file_text };

    ghost IsShort = { IsShortFile };

    #[tactic(auto, unfolding(crate::specs::StateText::StateText::file_at))]
    fn take(cursor: &mut Cursor<'a>, least: u64) -> Result<File<'a>, WrongField> {
        let number = cursor.u32_from(least)?;
        let name = cursor.blob16()?;
        let content = cursor.blob32()?;
        Ok(File {
            number,
            name: name_of(name),
            content,
        })
    }

    fn least_after(&self) -> u64 {
        u64::from(self.number) + 1
    }

    #[tactic(auto, using(crate::proofs::ByteFieldsLemmas::Kept::kept))]
    fn add(&self, out: &mut Bytes) -> Result<(), OutOfMemory> {
        put_u32(out, self.number)?;
        put_blob16(out, self.name.unwrap_or(&[]))?;
        put_blob32(out, self.content)
    }
}

ghost use Rattle.std.specs.Option.{option_copied};
ghost use Rattle.save_format.specs.StateText.StateText.{optional_name};

/// The name of a file; `None` for no bytes.
pub(crate) fn name_of(bytes: &[u8]) -> Option<&[u8]>
    ensures { option_copied result ≡ optional_name bytes.now }
{
    match bytes {
        [] => None,
        [..] => Some(bytes),
    }
}

impl<'a> TextItem<'a> for NumberedDescriptor {
    ghost use Rattle.std.specs.Prelude.{ℕ};
    ghost use Rattle.mem_files.specs.declared.open_file.OpenFile.{OpenFile};
    ghost use Rattle.save_format.specs.StateText.StateText.{after_descriptor, descriptor_at};
    ghost use Rattle.save_format.specs.StateText.Encoded.{descriptor_text};
    ghost use Rattle.save_format.specs.StateText.Seen.{descriptor_view};

    ghost Seen = { ℕ × OpenFile };

    ghost seen = { descriptor_view };

    ghost read_from = { descriptor_at };

    ghost next_least = { after_descriptor };

    ghost text = { descriptor_text };

    ghost IsShort = { λ _. Unit {0} };

    #[tactic(auto, unfolding(crate::specs::StateText::StateText::descriptor_at))]
    fn take(cursor: &mut Cursor<'a>, least: u64) -> Result<NumberedDescriptor, WrongField> {
        let fd = cursor.u32_from(least)?;
        let at = cursor.len();
        let kind = cursor.byte()?;
        if kind > 3 {
            return Err(WrongField { remaining: at });
        }
        let open_file = open_file_of(cursor, kind)?;
        Ok(NumberedDescriptor { fd, open_file })
    }

    fn least_after(&self) -> u64 {
        u64::from(self.fd) + 1
    }

    #[tactic(auto, using(crate::proofs::ByteFieldsLemmas::Kept::kept))]
    fn add(&self, out: &mut Bytes) -> Result<(), OutOfMemory> {
        put_u32(out, self.fd)?;
        put_open_file(out, self.open_file)
    }
}

/// The open file of a descriptor of this kind.
#[tactic(auto, unfolding(crate::specs::StateText::StateText::open_file_at))]
fn open_file_of(cursor: &mut Cursor<'_>, kind: u8) -> Result<OpenFile, WrongField>
    ensures { Finds (λ x. x) result cursor.new (open_file_at kind cursor.old) }
{
    match kind {
        0 => Ok(OpenFile::Input),
        1 => Ok(OpenFile::Stream1),
        2 => Ok(OpenFile::Stream2),
        _ => {
            let number = cursor.u32()?;
            let offset = cursor.u64()?;
            let access = access_of(cursor)?;
            Ok(OpenFile::File {
                number,
                file_offset: offset,
                access,
            })
        }
    }
}

/// How a file may be used.
#[tactic(auto, unfolding(crate::specs::StateText::StateText::access_at))]
fn access_of(cursor: &mut Cursor<'_>) -> Result<Access, WrongField>
    ensures { Finds (λ x. x) result cursor.new (access_at cursor.old) }
{
    let at = cursor.len();
    let flags = cursor.byte()?;
    if flags < 8 && flags % 4 != 0 {
        let mode = match flags % 4 {
            1 => Mode::Read,
            2 => Mode::Write,
            _ => Mode::ReadWrite,
        };
        Ok(Access {
            mode,
            appends: flags >= 4,
        })
    } else {
        Err(WrongField { remaining: at })
    }
}

fn flags_of(access: Access) -> u8
    ensures { result ≡ flags_of access }
{
    let mode = match access.mode {
        Mode::Read => 1,
        Mode::Write => 2,
        Mode::ReadWrite => 3,
    };
    if access.appends { mode + 4 } else { mode }
}

#[tactic(auto, using(crate::proofs::ByteFieldsLemmas::Kept::kept))]
fn put_open_file(out: &mut Bytes, open_file: OpenFile) -> Result<(), OutOfMemory>
    ensures ok { OnOk result (out.new ≡ out.old ++ kind_of open_file ∷ open_file_text open_file) }
    ensures err { OnErr result (StartsWith out.new out.old) }
{
    match open_file {
        OpenFile::Input => out.push(0),
        OpenFile::Stream1 => out.push(1),
        OpenFile::Stream2 => out.push(2),
        OpenFile::File {
            number,
            file_offset,
            access,
        } => {
            out.push(3)?;
            put_u32(out, number)?;
            put_u64(out, file_offset)?;
            out.push(flags_of(access))
        }
    }
}
