//! Texts as the fields that they are made of.

use crate::texts::put_digest;
use std::alloc::{AllocError, Global};
use std::process::Abort;

/// A field of a text.
#[derive(Clone, Copy, Debug)]
pub enum Piece {
    N1(u8),
    N2(u16),
    N4(u32),
    N8(u64),
    Text(&'static [u8]),
    /// 4,096 bytes, of which the last one is this and all others are zero.
    Page(u8),
    /// 32 bytes, each of them this.
    Digest(u8),
}

/// A field's number, what replaces the field, and the number of the field that is then the first wrong one. It is `None` if the text is
/// right, and the count of the fields if the text has bytes after its last field.
pub type Change = (usize, Piece, Option<usize>);

fn put(out: &mut Vec<u8>, piece: Piece) -> Result<(), AllocError> {
    match piece {
        Piece::N1(number) => out.extend_from_slice(&[number]),
        Piece::N2(number) => out.extend_from_slice(&number.to_le_bytes()),
        Piece::N4(number) => out.extend_from_slice(&number.to_le_bytes()),
        Piece::N8(number) => out.extend_from_slice(&number.to_le_bytes()),
        Piece::Text(bytes) => out.extend_from_slice(bytes),
        Piece::Page(byte) => {
            out.extend_from_slice(&[0; 4095])?;
            out.extend_from_slice(&[byte])
        }
        Piece::Digest(byte) => put_digest(out, byte),
    }
}

fn len(piece: Piece) -> usize {
    match piece {
        Piece::N1(_) => 1,
        Piece::N2(_) => 2,
        Piece::N4(_) => 4,
        Piece::N8(_) => 8,
        Piece::Text(bytes) => bytes.len(),
        Piece::Page(_) => 4096,
        Piece::Digest(_) => 32,
    }
}

/// Puts a piece in the place of one.
pub fn set(pieces: &mut [Piece], slot: usize, piece: Piece) {
    if let Some(at) = pieces.get_mut(slot) {
        *at = piece;
    }
}

/// The pieces with one of them changed.
pub fn changed(alloc: Global, pieces: &[Piece], change: Change) -> Result<Vec<Piece>, AllocError> {
    let mut list = Vec::from_slice(alloc, pieces)?;
    set(&mut list, change.0, change.1);
    Ok(list)
}

/// The pieces with others in place of one of them.
pub fn replaced(
    alloc: Global,
    pieces: &[Piece],
    index: usize,
    others: &[Piece],
) -> Result<Vec<Piece>, AllocError> {
    let mut list = Vec::from_slice(alloc, pieces.get(..index).unwrap_or(&[]))?;
    list.extend_from_slice(others)?;
    for piece in pieces.iter().skip(index).skip(1) {
        list.push(*piece)?;
    }
    Ok(list)
}

/// Adds the text of these pieces.
pub fn put_all(out: &mut Vec<u8>, pieces: &[Piece]) -> Result<(), AllocError> {
    for piece in pieces {
        put(out, *piece)?;
    }
    Ok(())
}

/// The text of these pieces.
pub fn text_of(alloc: Global, pieces: &[Piece]) -> Result<Vec<u8>, AllocError> {
    let mut out = Vec::new(alloc);
    put_all(&mut out, pieces)?;
    Ok(out)
}

/// The text of the pieces with others in place of one of them.
pub fn text_of_replaced(
    alloc: Global,
    pieces: &[Piece],
    index: usize,
    others: &[Piece],
) -> Result<Vec<u8>, AllocError> {
    let list = replaced(alloc, pieces, index, others)?;
    text_of(alloc, &list)
}

/// Where a field begins.
pub fn start(pieces: &[Piece], index: usize) -> u64 {
    let mut at = 0usize;
    let mut slot = 0usize;
    for piece in pieces {
        if slot == index {
            return at as u64;
        }
        slot = slot.saturating_add(1);
        at = at.saturating_add(len(*piece));
    }
    at as u64
}

/// Where the field begins in which a text that ends before this byte is cut.
pub fn cut(pieces: &[Piece], byte: usize) -> u64 {
    let mut at = 0usize;
    for piece in pieces {
        let end = at.saturating_add(len(*piece));
        if byte < end {
            return at as u64;
        }
        at = end;
    }
    at as u64
}

/// A kind of texts.
pub trait Form {
    /// The offset at which the first wrong field begins; `None` if the text is right. Out of memory has an offset that no field has.
    fn wrong(alloc: Global, text: &[u8]) -> Option<u64>;
}

/// Where the first wrong field of the pieces' text begins.
pub fn wrong_of<F: Form>(alloc: Global, pieces: &[Piece]) -> Result<Option<u64>, AllocError> {
    let text = text_of(alloc, pieces)?;
    Ok(F::wrong(alloc, &text))
}

/// Whether the text of the pieces is wrong where a field begins: none where it is right.
pub fn is_wrong_at<F: Form>(
    alloc: Global,
    pieces: &[Piece],
    field: Option<usize>,
) -> Result<bool, AllocError> {
    let wrong = wrong_of::<F>(alloc, pieces)?;
    Ok(match field {
        Some(index) => wrong == Some(start(pieces, index)),
        None => wrong.is_none(),
    })
}

fn is_named<F: Form>(alloc: Global, pieces: &[Piece], change: Change) -> Result<bool, AllocError> {
    let pieces = changed(alloc, pieces, change)?;
    is_wrong_at::<F>(alloc, &pieces, change.2)
}

/// Asserts that each change leads to the field that it names.
pub fn check_changes<F: Form>(
    rt: &impl Abort,
    alloc: Global,
    pieces: &[Piece],
    changes: &[Change],
) -> Result<(), AllocError> {
    for change in changes {
        assert!(rt; is_named::<F>(alloc, pieces, *change)?, "{change:?}");
    }
    Ok(())
}

fn is_wrong_cut<F: Form>(alloc: Global, text: &[u8], byte: usize, begin: u64) -> bool {
    F::wrong(alloc, text.get(..byte).unwrap_or(text)) == Some(begin)
}

/// Asserts that a text is right, and wherever it is cut wrong at the field that is cut: after the first 300 bytes of a field each byte of a
/// multiple of this is enough.
pub fn check_cuts<F: Form>(
    rt: &impl Abort,
    alloc: Global,
    pieces: &[Piece],
    multiple: usize,
) -> Result<(), AllocError> {
    let text = text_of(alloc, pieces)?;
    assert_cuts::<F>(rt, alloc, pieces, &text, multiple);
    Ok(())
}

fn assert_cuts<F: Form>(
    rt: &impl Abort,
    alloc: Global,
    pieces: &[Piece],
    text: &[u8],
    multiple: usize,
) {
    assert_eq!(rt; F::wrong(alloc, text), None);
    for byte in 0..text.len() {
        let begin = cut(pieces, byte);
        if begin.saturating_add(300) > byte as u64 || byte.checked_rem(multiple) == Some(0) {
            assert!(rt; is_wrong_cut::<F>(alloc, text, byte, begin), "{byte}");
        }
    }
}
