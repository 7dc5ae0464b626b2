//! The fields of a body as the rules have them, told by places in it. No contract ties it to the
//! definition, and none of its code is the gateway's.

use std::alloc::{AllocError, Global};

/// The length fields and their data fields.
const PAIRS: [(u32, u32); 16] = [
    (95, 96),
    (90, 91),
    (93, 89),
    (212, 213),
    (348, 349),
    (350, 351),
    (352, 353),
    (354, 355),
    (356, 357),
    (358, 359),
    (360, 361),
    (362, 363),
    (364, 365),
    (445, 446),
    (618, 619),
    (621, 622),
];

/// A field: its tag and its value.
#[derive(Clone, Copy, Debug)]
pub struct Field<'a> {
    pub tag: u32,
    pub value: &'a [u8],
}

/// What decimal digits write, where there are at most so many of them and nothing else.
pub fn digits(bytes: &[u8], most: usize) -> Option<u64> {
    if bytes.is_empty() || bytes.len() > most {
        return None;
    }
    let mut number = 0u64;
    for byte in bytes {
        if !byte.is_ascii_digit() {
            return None;
        }
        let digit = u64::from(byte.wrapping_sub(b'0'));
        number = number.checked_mul(10)?.checked_add(digit)?;
    }
    Some(number)
}

/// The place of the first such byte.
fn find(bytes: &[u8], wanted: u8) -> Option<usize> {
    (0..bytes.len()).find(|at| bytes[*at] == wanted)
}

fn tag_of(text: &[u8]) -> Option<u32> {
    if text.first() == Some(&b'0') {
        return None;
    }
    u32::try_from(digits(text, 9)?).ok()
}

/// How many bytes the value has that stands at the front, of a field with this tag behind another.
fn length_of(before: Option<Field>, tag: u32, rest: &[u8]) -> Option<usize> {
    let Some(before) = before.filter(|before| PAIRS.contains(&(before.tag, tag))) else {
        return find(rest, 1);
    };
    let stated = u32::try_from(digits(before.value, 20)?).ok()?;
    usize::try_from(stated).ok()
}

/// The field at the front of the bytes, directly behind another, and what stands behind it.
fn next_field<'a>(before: Option<Field<'a>>, bytes: &'a [u8]) -> Option<(Field<'a>, &'a [u8])> {
    let equals = find(bytes, b'=')?;
    let tag = tag_of(bytes.get(..equals)?)?;
    let rest = bytes.get(equals.checked_add(1)?..)?;
    let length = length_of(before, tag, rest)?;
    let value = rest.get(..length)?;
    if value.is_empty() || rest.get(length) != Some(&1) {
        return None;
    }
    Some((Field { tag, value }, rest.get(length.checked_add(1)?..)?))
}

/// The fields of a body, if they can be read.
pub fn fields_of<'a>(alloc: Global, body: &'a [u8]) -> Result<Option<Vec<Field<'a>>>, AllocError> {
    let mut fields = Vec::new(alloc);
    let mut before = None;
    let mut rest = body;
    for _ in 0..body.len() {
        if rest.is_empty() {
            break;
        }
        let Some((field, behind)) = next_field(before, rest) else {
            return Ok(None);
        };
        fields.push(field)?;
        before = Some(field);
        rest = behind;
    }
    Ok(Some(fields))
}
