//! The cut of bytes as the rules have it, told by trying each form that a frame of at most 32 bytes
//! can have. No contract ties it to the definition, and none of its code is the crate's.

use crate::feeding::OwnedPiece;
use crate::texts::row_bytes;
use gate_io::Bytes;
use std::alloc::{AllocError, Global};

/// The most bytes of a frame.
pub(crate) const LIMIT: usize = 32;

/// The forms of frames of at most `LIMIT` bytes, in which `?` stands for any byte and `#` for a digit:
/// each number of digits of a length, from 1 to 9, and each length from 4 on.
pub(crate) fn forms(alloc: Global) -> Result<Vec<Vec<u8>>, AllocError> {
    let mut forms = Vec::new(alloc);
    for digits in 1..10 {
        for size in 4..13 {
            let form = form_of(alloc, digits, size)?;
            if form.len() <= LIMIT {
                forms.push(form)?;
            }
        }
    }
    Ok(forms)
}

/// The form of a frame whose length has so many digits and is `size`, of at most 12.
fn form_of(alloc: Global, digits: usize, size: usize) -> Result<Vec<u8>, AllocError> {
    let mut form = row_bytes(alloc, "8=FIX.4.4|9=")?;
    let shown = format!(in alloc; "{size}")?;
    for _ in shown.len()..digits {
        form.push(b'0')?;
    }
    form.extend_from_slice(shown.as_bytes())?;
    form.extend_from_slice(&row_bytes(alloc, "|35=")?)?;
    for _ in 4..size {
        form.push(b'?')?;
    }
    form.extend_from_slice(&row_bytes(alloc, "|10=###|")?)?;
    Ok(form)
}

/// Whether the bytes agree with the form, as far as both go.
fn agree(form: &[u8], bytes: &[u8]) -> bool {
    form.iter().zip(bytes.iter()).all(|(want, byte)| match *want {
        b'?' => true,
        b'#' => byte.is_ascii_digit(),
        exact => *byte == exact,
    })
}

/// What stands at the beginning of some bytes.
#[derive(Clone, Copy)]
enum Front {
    Whole { size: usize },
    Rest,
    Stray,
}

fn front_of(forms: &[Vec<u8>], bytes: &[u8]) -> Front {
    let mut front = Front::Stray;
    for form in forms {
        if agree(form, bytes) {
            if form.len() <= bytes.len() {
                return Front::Whole { size: form.len() };
            }
            front = Front::Rest;
        }
    }
    front
}

/// The piece that a whole stretch is.
fn piece_of(alloc: Global, stretch: &[u8]) -> Result<OwnedPiece, AllocError> {
    let garbled = OwnedPiece::Garbled {
        length: stretch.len(),
    };
    let Some((summed, trailer)) = stretch.split_at_checked(stretch.len().saturating_sub(7)) else {
        return Ok(garbled);
    };
    let sum = summed.iter().fold(0u8, |sum, byte| sum.wrapping_add(*byte));
    let wanted = row_bytes(alloc, format!(in alloc; "10={sum:03}|")?.as_str())?;
    if trailer != wanted.as_slice() {
        return Ok(garbled);
    }
    Ok(OwnedPiece::Good(Bytes::of(body_of(alloc, summed)?)))
}

/// What stands behind the second SOH.
fn body_of(alloc: Global, summed: &[u8]) -> Result<Vec<u8>, AllocError> {
    let mut ends = 0u8;
    let mut body = Vec::new(alloc);
    for byte in summed {
        if ends == 2 {
            body.push(*byte)?;
        } else if *byte == 1 {
            ends = ends.saturating_add(1);
        }
    }
    Ok(body)
}

/// The pieces of bytes that are all there, and after them how many bytes are the rest.
pub(crate) fn cut_plainly(
    alloc: Global,
    forms: &[Vec<u8>],
    bytes: &[u8],
) -> Result<(Vec<OwnedPiece>, usize), AllocError> {
    let mut pieces = Vec::new(alloc);
    let mut left = bytes;
    for _ in 0..bytes.len() {
        let size = match front_of(forms, left) {
            _ if left.is_empty() => break,
            Front::Rest => break,
            Front::Stray => 1,
            Front::Whole { size } => size,
        };
        let Some((taken, behind)) = left.split_at_checked(size) else {
            break;
        };
        pieces.push(if size == 1 {
            OwnedPiece::Garbled { length: 1 }
        } else {
            piece_of(alloc, taken)?
        })?;
        left = behind;
    }
    Ok((pieces, left.len()))
}
