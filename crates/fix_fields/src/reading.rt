//! One field read, at the beginning of what is left of a body.

ghost use Rattle.std.specs.Prelude.{◌≡◌};
ghost use Rattle.std.specs.Option.{option_and_then};
ghost use Rattle.fix_fields.specs.Number.{number_of};
ghost use Rattle.fix_fields.specs.Reading.{fault_at, field_at, value_at, split_at_equals, split_at_soh, split_after, tag_at, tag_fault, lent, lent_tag, lent_value, lent_field};

use crate::entry::Entry;
use crate::error::FieldError;
use crate::number::{MOST_TAG_DIGITS, read_number};
use crate::pairs::data_tag_of;

/// The byte that closes a field.
pub(crate) const SOH: u8 = 1;

/// What is wrong with a field, wherever it stands.
#[derive(Clone, Copy, Debug)]
pub(crate) enum Fault {
    NoEquals,
    BadTag,
    BadDataLength,
    NoEnd,
    EmptyValue,
}

impl Fault {
    /// The fault of a field that begins at this place.
    pub(crate) fn at(self, at: usize) -> FieldError
        ensures { result ≡ fault_at at self }
    {
        match self {
            Fault::NoEquals => FieldError::NoEquals { at },
            Fault::BadTag => FieldError::BadTag { at },
            Fault::BadDataLength => FieldError::BadDataLength { at },
            Fault::NoEnd => FieldError::NoEnd { at },
            Fault::EmptyValue => FieldError::EmptyValue { at },
        }
    }
}

/// The field at the front of `rest`, directly behind the field `before`, and the bytes after it.
/// At a body's front `before` has tag 0.
// It and what it calls are always inlined: each field of each message is read by it, and a call would hand the
// field over in memory.
#[inline(always)]
#[tactic(auto, using(crate::proofs::Tags::field_at_no_tag))]
pub(crate) fn next_field<'a>(
    rest: &'a [u8],
    before: &Entry<'a>,
) -> Result<(Entry<'a>, &'a [u8]), Fault>
    ensures { lent_field result ≡ field_at before.now rest.now }
{
    let Some((tag, tail)) = split_tag(rest) else {
        return Err(tag_fault(rest));
    };
    let (value, after) = read_value(before, tag, tail)?;
    if value.is_empty() {
        return Err(Fault::EmptyValue);
    }
    Ok((Entry::new(tag, value), after))
}

/// The value at the front of `tail`, of a field of this tag behind the field `before`, and the bytes
/// after its SOH.
#[inline(always)]
#[tactic(auto, unfolding(crate::specs::Reading::value_at))]
fn read_value<'a>(
    before: &Entry<'a>,
    tag: u32,
    tail: &'a [u8],
) -> Result<(&'a [u8], &'a [u8]), Fault>
    ensures { lent_value result ≡ value_at before.now tag tail.now }
{
    if data_tag_of(before.tag()) == Some(tag) {
        split_data(before.value(), tail).ok_or(Fault::BadDataLength)
    } else {
        split_at_soh(tail).ok_or(Fault::NoEnd)
    }
}

/// The tag at the front, and the bytes behind its `=`; none where no tag with `=` behind it is there.
#[inline(always)]
#[tactic(auto, unfolding(crate::specs::Reading::tag_at))]
fn split_tag(rest: &[u8]) -> Option<(u32, &[u8])>
    ensures { lent_tag result ≡ tag_at rest.now }
{
    let mut tag = 0u32;
    for (i, byte) in rest.iter().enumerate() {
        if *byte == b'=' {
            if i == 0 || rest[0] == b'0' {
                return None;
            }
            return Some((tag, &rest[i + 1..]));
        }
        if i == MOST_TAG_DIGITS || !byte.is_ascii_digit() {
            return None;
        }
        tag = tag * 10 + (*byte - b'0') as u32;
    }
    None
}

/// What is wrong where no tag with `=` behind it is at the front.
fn tag_fault(rest: &[u8]) -> Fault
    ensures { result ≡ tag_fault rest.now }
{
    match split_at_equals(rest) {
        None => Fault::NoEquals,
        Some(_) => Fault::BadTag,
    }
}

/// The bytes before the first `=` and those behind it; none where SOH or the end stands before.
fn split_at_equals(rest: &[u8]) -> Option<(&[u8], &[u8])>
    ensures { lent result ≡ split_at_equals rest.now }
{
    for (i, byte) in rest.iter().enumerate() {
        if *byte == b'=' {
            return Some((&rest[..i], &rest[i + 1..]));
        }
        if *byte == SOH {
            return None;
        }
    }
    None
}

/// The bytes before the first SOH and those behind it.
#[inline(always)]
fn split_at_soh(tail: &[u8]) -> Option<(&[u8], &[u8])>
    ensures { lent result ≡ split_at_soh tail.now }
{
    for (i, byte) in tail.iter().enumerate() {
        if *byte == SOH {
            return Some((&tail[..i], &tail[i + 1..]));
        }
    }
    None
}

/// As many bytes as the length field's value says, and those behind the SOH that follows them.
fn split_data<'a>(stated: &[u8], tail: &'a [u8]) -> Option<(&'a [u8], &'a [u8])>
    ensures { lent result ≡ option_and_then (λ n. split_after n tail.now) (number_of stated.now) }
{
    let length = read_number(stated)? as usize;
    if length < tail.len() && tail[length] == SOH {
        Some((&tail[..length], &tail[length + 1..]))
    } else {
        None
    }
}
