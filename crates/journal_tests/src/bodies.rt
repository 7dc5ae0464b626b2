//! The bodies that records have, as the rules have them. No contract ties it to the definition.

use crate::fields::{Field, digits, fields_of};
use std::alloc::{AllocError, Global};

/// The most bytes of a body whose frame isn't too long.
const LONGEST_INBOUND: usize = 65_511;

/// The most bytes of a body that a library sends.
const LONGEST_SENT: usize = 8_192;

/// The most bytes of a text in a session message.
const LONGEST_TEXT: usize = 256;

/// The fields that the gateway writes itself.
const OWN: [u32; 10] = [8, 9, 10, 34, 35, 43, 49, 52, 56, 122];

/// The types of session messages.
const SESSION_TYPES: [&[u8]; 7] = [b"0", b"1", b"2", b"3", b"4", b"5", b"A"];

/// The body of a frame that came, whose fields can be read.
pub fn is_inbound(alloc: Global, body: &[u8]) -> Result<bool, AllocError> {
    let framed = body.starts_with(b"35=") && body.last() == Some(&1);
    Ok(framed && body.len() <= LONGEST_INBOUND && fields_of(alloc, body)?.is_some())
}

fn may_be_sent(fields: &[Field]) -> bool {
    let Some((first, others)) = fields.split_first() else {
        return false;
    };
    let of_session = SESSION_TYPES.iter().any(|kind| *kind == first.value);
    first.tag == 35 && !of_session && !others.iter().any(|field| OWN.contains(&field.tag))
}

/// A body that a library may send.
pub fn is_sent(alloc: Global, body: &[u8]) -> Result<bool, AllocError> {
    let Some(fields) = fields_of(alloc, body)? else {
        return Ok(false);
    };
    Ok(body.len() <= LONGEST_SENT && may_be_sent(&fields))
}

/// A number without leading zeros, of at most so much.
fn is_number(field: Field, most: u64) -> bool {
    let leads = field.value.len() > 1 && field.value.first() == Some(&b'0');
    !leads && digits(field.value, 20).is_some_and(|n| n <= most)
}

/// A number of 32 bits.
fn is_word(field: Field) -> bool {
    is_number(field, 4_294_967_295)
}

fn is_logon(fields: &[Field]) -> bool {
    let resets = match fields.get(3) {
        None => true,
        Some(reset) => reset.tag == 141 && reset.value == b"Y".as_slice(),
    };
    let [_, encryption, heart, ..] = fields else {
        return false;
    };
    let encrypted = encryption.tag != 98 || encryption.value != b"0".as_slice();
    !encrypted && heart.tag == 108 && is_word(*heart) && resets && fields.len() <= 4
}

/// No more fields, or one with this tag, whose text isn't long.
fn has_text(fields: &[Field], tag: u32) -> bool {
    match fields {
        [_] => true,
        [_, text] => text.tag == tag && text.value.len() <= LONGEST_TEXT,
        _ => false,
    }
}

fn is_test_request(fields: &[Field], number: u64) -> bool {
    let [_, test] = fields else {
        return false;
    };
    test.tag == 112 && is_number(*test, u64::MAX) && digits(test.value, 20) == Some(number)
}

fn is_resend_request(fields: &[Field]) -> bool {
    let [_, begin, last] = fields else {
        return false;
    };
    begin.tag == 7 && last.tag == 16 && is_word(*begin) && is_word(*last)
}

fn is_reject(fields: &[Field]) -> bool {
    let (seq, tag, reason) = match fields {
        [_, seq, tag, reason] => (seq, tag, reason),
        [_, seq, tag, kind, reason] if kind.tag == 372 && kind.value.len() <= 32 => {
            (seq, tag, reason)
        }
        _ => return false,
    };
    let numbers = is_word(*seq) && is_word(*tag) && is_number(*reason, 255);
    seq.tag == 45 && tag.tag == 371 && reason.tag == 373 && numbers
}

fn is_of_session(fields: &[Field], number: u64) -> bool {
    let Some(first) = fields.first() else {
        return false;
    };
    match first.value {
        b"A" => is_logon(fields),
        b"0" => has_text(fields, 112),
        b"1" => is_test_request(fields, number),
        b"2" => is_resend_request(fields),
        b"3" => is_reject(fields),
        b"5" => has_text(fields, 58),
        _ => false,
    }
}

/// The body of a session message that was sent under this number.
pub fn is_admin(alloc: Global, number: u64, body: &[u8]) -> Result<bool, AllocError> {
    let Some(fields) = fields_of(alloc, body)? else {
        return Ok(false);
    };
    let typed = fields.first().is_some_and(|first| first.tag == 35);
    Ok(typed && is_of_session(&fields, number))
}
