//! The fields of a body as the rules have them, told by places in it. No contract ties it to the
//! definition, and none of its code is the crate's.

use fix_fields::FieldError;
use std::alloc::{AllocError, Global};

/// The length fields and their data fields.
const PAIRS: [(u32, u32); 16] = [
    (95, 96),
    (90, 91),
    (93, 89),
    (212, 213),
    (348, 349),
    (350, 351),
    (352, 353),
    (354, 355),
    (356, 357),
    (358, 359),
    (360, 361),
    (362, 363),
    (364, 365),
    (445, 446),
    (618, 619),
    (621, 622),
];

/// A field by its places: its tag, where its value begins, and where its SOH stands.
#[derive(Clone, Copy)]
pub(crate) struct Place {
    pub(crate) tag: u32,
    pub(crate) start: usize,
    pub(crate) end: usize,
}

/// The place of the first such byte from a place on.
fn find(body: &[u8], from: usize, wanted: u8) -> Option<usize> {
    (from..body.len()).find(|at| body[*at] == wanted)
}

/// The bytes from a place up to another.
fn between(body: &[u8], start: usize, end: usize) -> &[u8] {
    body.get(start..end).unwrap_or(&[])
}

/// What decimal digits write, where there are at most so many of them and nothing else.
fn digits(bytes: &[u8], most: usize) -> Option<u64> {
    let text = std::str::from_utf8(bytes).ok()?;
    let plain = !text.is_empty() && text.len() <= most && !text.starts_with('+');
    if plain {
        text.parse::<u64>().ok()
    } else {
        None
    }
}

/// Where the value of a field ends that begins at a place, directly behind the field before.
fn end_of(body: &[u8], before: Option<Place>, tag: u32, start: usize) -> Option<usize> {
    let before = before.unwrap_or(Place {
        tag: 0,
        start: 0,
        end: 0,
    });
    if !PAIRS.contains(&(before.tag, tag)) {
        return find(body, start, 1);
    }
    let stated = digits(between(body, before.start, before.end), 20)?;
    if stated > 4_294_967_295 {
        return None;
    }
    let end = start.checked_add(usize::try_from(stated).ok()?)?;
    if body.get(end) == Some(&1) {
        Some(end)
    } else {
        None
    }
}

/// The field that begins at a place, or what is wrong with it.
fn field_at(body: &[u8], before: Option<Place>, at: usize) -> Result<Place, FieldError> {
    let soh = find(body, at, 1).unwrap_or(body.len());
    let Some(equals) = find(body, at, b'=').filter(|equals| *equals < soh) else {
        return Err(FieldError::NoEquals { at });
    };
    let text = between(body, at, equals);
    let tag = match digits(text, 9) {
        Some(tag) if !text.starts_with(b"0") => u32::try_from(tag).unwrap_or(0),
        _ => return Err(FieldError::BadTag { at }),
    };
    let start = equals.saturating_add(1);
    let data = before.is_some_and(|before| PAIRS.contains(&(before.tag, tag)));
    match end_of(body, before, tag, start) {
        None if data => Err(FieldError::BadDataLength { at }),
        None => Err(FieldError::NoEnd { at }),
        Some(end) if end == start => Err(FieldError::EmptyValue { at }),
        Some(end) => Ok(Place { tag, start, end }),
    }
}

/// The fields of a body by their places, or the first fault.
pub(crate) fn read_plainly(
    alloc: Global,
    body: &[u8],
) -> Result<Result<Vec<Place>, FieldError>, AllocError> {
    let mut places = Vec::new(alloc);
    let mut before = None;
    let mut at = 0usize;
    for _ in 0..body.len() {
        if at >= body.len() {
            break;
        }
        match field_at(body, before, at) {
            Err(fault) => return Ok(Err(fault)),
            Ok(place) => {
                places.push(place)?;
                before = Some(place);
                at = place.end.saturating_add(1);
            }
        }
    }
    Ok(Ok(places))
}
