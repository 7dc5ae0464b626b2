//! The fields of a body.

use gate_io::NoMemory;
use std::alloc::Global;

/// A length field and the data field whose length it says.
const DATA_FIELDS: [(u64, u64); 16] = [
    (95, 96),
    (90, 91),
    (93, 89),
    (212, 213),
    (348, 349),
    (350, 351),
    (352, 353),
    (354, 355),
    (356, 357),
    (358, 359),
    (360, 361),
    (362, 363),
    (364, 365),
    (445, 446),
    (618, 619),
    (621, 622),
];

const MOST_NUMBER: u64 = 4_294_967_295;

const MOST_SEQUENCE: u64 = 999_999_999;

#[derive(Drop)]
pub(crate) struct Field {
    /// Where it begins.
    at: usize,
    tag: u64,
    value: Vec<u8>,
}

/// The fields up to the first fault, and where the field begins that has it.
#[derive(Drop)]
pub(crate) struct Fields {
    fields: Vec<Field>,
    pub(crate) fault: Option<usize>,
}

impl Fields {
    /// The first field with a tag.
    pub(crate) fn first(&self, tag: u64) -> Option<&[u8]> {
        for field in &self.fields {
            if field.tag == tag {
                return Some(field.value.as_slice());
            }
        }
        None
    }

    pub(crate) fn is(&self, tag: u64, value: &[u8]) -> bool {
        match self.first(tag) {
            Some(found) => found == value,
            None => false,
        }
    }

    pub(crate) fn number(&self, tag: u64) -> Option<u64> {
        match self.first(tag) {
            Some(value) => number_of(value),
            None => None,
        }
    }

    /// The field as a MsgSeqNum or NewSeqNo.
    pub(crate) fn sequence(&self, tag: u64) -> Option<u64> {
        match self.number(tag) {
            Some(n) if n >= 1 && n <= MOST_SEQUENCE => Some(n),
            _ => None,
        }
    }
}

/// One to twenty digits.
fn number_of(bytes: &[u8]) -> Option<u64> {
    if bytes.is_empty() || bytes.len() > 20 {
        return None;
    }
    let mut number = 0u64;
    for byte in bytes {
        if !byte.is_ascii_digit() {
            return None;
        }
        let digit = u64::from(byte.wrapping_sub(b'0'));
        number = number.saturating_mul(10).saturating_add(digit);
    }
    if number > MOST_NUMBER {
        return None;
    }
    Some(number)
}

fn position_of(bytes: &[u8], from: usize, wanted: u8) -> Option<usize> {
    for i in from..bytes.len() {
        if bytes.get(i) == Some(&wanted) {
            return Some(i);
        }
    }
    None
}

pub(crate) fn copy_of(
    alloc: Global,
    bytes: &[u8],
    from: usize,
    to: usize,
) -> Result<Vec<u8>, NoMemory> {
    let mut copy = Vec::new(alloc);
    for i in from..to {
        if let Some(byte) = bytes.get(i) {
            copy.push(*byte)?;
        }
    }
    Ok(copy)
}

/// One to nine digits without a leading zero.
fn tag_of(bytes: &[u8]) -> Option<u64> {
    if bytes.len() > 9 || bytes.first() == Some(&b'0') {
        return None;
    }
    number_of(bytes)
}

/// The tag of the data field that stands behind this field, and its length.
fn data_behind(field: Option<&Field>) -> Option<(u64, Option<u64>)> {
    let Some(field) = field else {
        return None;
    };
    for (length_tag, data_tag) in DATA_FIELDS {
        if field.tag == length_tag {
            return Some((data_tag, number_of(&field.value)));
        }
    }
    None
}

/// Where the value ends that begins at a place. None where it doesn't.
fn end_of_value(
    body: &[u8],
    from: usize,
    tag: u64,
    data: Option<(u64, Option<u64>)>,
) -> Option<usize> {
    let Some((data_tag, length)) = data else {
        return position_of(body, from, 1);
    };
    if data_tag != tag {
        return position_of(body, from, 1);
    }
    let Some(length) = length else {
        return None;
    };
    let end = from.saturating_add(length as usize);
    if body.get(end) == Some(&1) {
        return Some(end);
    }
    None
}

/// The field that begins at a place, and where the next one does. None where it has a fault.
fn read_field(
    alloc: Global,
    body: &[u8],
    at: usize,
    before: Option<&Field>,
) -> Result<Option<(Field, usize)>, NoMemory> {
    let Some(equals) = position_of(body, at, b'=') else {
        return Ok(None);
    };
    let tag_text = copy_of(alloc, body, at, equals)?;
    let Some(tag) = tag_of(&tag_text) else {
        return Ok(None);
    };
    let from = equals.saturating_add(1);
    let Some(end) = end_of_value(body, from, tag, data_behind(before)) else {
        return Ok(None);
    };
    let value = copy_of(alloc, body, from, end)?;
    if value.is_empty() {
        return Ok(None);
    }
    Ok(Some((Field { at, tag, value }, end.saturating_add(1))))
}

/// Reads a body from left to right.
pub(crate) fn read_fields(alloc: Global, body: &[u8]) -> Result<Fields, NoMemory> {
    let mut fields: Vec<Field> = Vec::new(alloc);
    let mut at = 0usize;
    for _ in 0..body.len() {
        if at >= body.len() {
            break;
        }
        match read_field(alloc, body, at, fields.last())? {
            Some((field, next)) => {
                fields.push(field)?;
                at = next;
            }
            None => {
                let fault = Some(at);
                return Ok(Fields { fields, fault });
            }
        }
    }
    let fault = None;
    Ok(Fields { fields, fault })
}

/// The types of session messages.
fn is_session_type(kind: &[u8]) -> bool {
    for session_type in b"012345A" {
        if kind == [*session_type].as_slice() {
            return true;
        }
    }
    false
}

/// The tags that a library's body may not have behind its type.
fn is_header_tag(tag: u64) -> bool {
    [8, 9, 10, 34, 35, 43, 49, 52, 56, 122].contains(&tag)
}

/// Where the first field begins that a library may not send, None where it may send the body.
pub(crate) fn unfit_at(alloc: Global, body: &[u8]) -> Result<Option<usize>, NoMemory> {
    let read = read_fields(alloc, body)?;
    if read.fault.is_some() || body.is_empty() {
        return Ok(Some(read.fault.unwrap_or(0)));
    }
    for (i, field) in read.fields.iter().enumerate() {
        let unfit = if i == 0 {
            field.tag != 35 || is_session_type(&field.value)
        } else {
            is_header_tag(field.tag)
        };
        if unfit {
            return Ok(Some(field.at));
        }
    }
    Ok(None)
}
