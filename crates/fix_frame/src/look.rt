//! What stands at the beginning of the bytes that a `Cutter` holds.

ghost use Rattle.std.specs.Prelude.{◌≡◌, ℕ, ◌+◌, ◌*◌, ◌^◌, ◌<◌, ◌≤◌, ◌∷◌, [], ◌++◌, codes, replicate, length, drop};
ghost use Rattle.fix_frame.specs.Frame.{number_of};
ghost use Rattle.fix_frame.specs.Cut.{agrees, exactly, can_become, digits_at, fits, trailer};
ghost use Rattle.fix_frame.specs.Look.{IsBehind, IsFront};

use crate::layout::{BODY_END, BODY_START, HEAD, MOST_DIGITS, SOH, TRAILER};
use crate::two_slices::TwoSlices;

/// What stands at the beginning of some bytes.
pub(crate) enum Front {
    /// Nothing yet, and nothing before at least `quiet` bytes are there.
    Rest { quiet: usize },
    /// A byte with which no frame begins.
    Stray,
    /// A stretch of `length` bytes with the form of a frame, whose body begins at `body`.
    Shaped { body: usize, length: usize },
}

/// The digits of a length, as far as they are there.
#[derive(Clone, Copy)]
struct LengthField {
    count: usize,
    value: usize,
}

/// What stands at the beginning of the bytes, where a frame has at most `limit` bytes.
pub(crate) fn front_of(limit: usize, held: &TwoSlices) -> Front
    ensures { IsFront limit held.now result }
{
    if !agrees(held, 0, HEAD) {
        return Front::Stray;
    }
    let field = length_field(held, HEAD.len());
    let end = HEAD.len() + field.count;
    if end >= held.len() {
        if can_become(limit, field) {
            return Front::Rest { quiet: 0 };
        }
        return Front::Stray;
    }
    if held.at(end) != SOH || !fits(limit, field.count, field.value) {
        return Front::Stray;
    }
    behind_head(held, end + 1, field.value)
}

/// The same for a body of `size` bytes that begins at `body`.
fn behind_head(held: &TwoSlices, body: usize, size: usize) -> Front
    requires least { 4 ≤ size }
    requires small { body + size < 2 ^ 32 }
    requires whole_head { body ≤ length held.now }
    ensures { IsBehind held.now body size result }
{
    let end = body + size;
    if !agrees(held, body, BODY_START)
        || !agrees(held, end - 1, BODY_END)
        || !checksum_agrees(held, end + BODY_END.len() - 1)
    {
        return Front::Stray;
    }
    if held.len() >= end + TRAILER {
        return Front::Shaped {
            body,
            length: end + TRAILER,
        };
    }
    let quiet = if held.len() < body + BODY_START.len() {
        0
    } else {
        end
    };
    Front::Rest { quiet }
}

/// Whether the bytes from `at` on agree with the text, as far as both go.
#[tactic(auto, using(crate::proofs::Agrees::begins_agrees))]
fn agrees(held: &TwoSlices, at: usize, text: &[u8]) -> bool
    requires { at + length text.now < 2 ^ 64 }
    ensures { result ≡ agrees (exactly text.now) (drop at held.now) }
{
    held.has_in_front(at, text) || agrees_by_bytes(held, at, text)
}

/// The same, where they may go on in the other slice, or end.
fn agrees_by_bytes(held: &TwoSlices, at: usize, text: &[u8]) -> bool
    requires { at + length text.now < 2 ^ 64 }
    ensures { result ≡ agrees (exactly text.now) (drop at held.now) }
{
    for k in 0..text.len() {
        if at + k >= held.len() {
            return true;
        }
        if held.at(at + k) != text[k] {
            return false;
        }
    }
    true
}

/// Whether three digits and the byte that ends the field stand at `at`, as far as the bytes go.
fn checksum_agrees(held: &TwoSlices, at: usize) -> bool
    requires { at < 2 ^ 33 }
    ensures { result ≡ agrees trailer (drop at held.now) }
{
    for k in 0..3 {
        if at + k >= held.len() {
            return true;
        }
        if !held.at(at + k).is_ascii_digit() {
            return false;
        }
    }
    agrees(held, at + 3, &[SOH])
}

/// The digits that stand at `at`, at most nine.
fn length_field(held: &TwoSlices, at: usize) -> LengthField
    requires { at < 2 ^ 32 }
    ensures count { result.count ≡ length (digits_at 9 (drop at held.now)) }
    ensures value { result.value ≡ number_of (digits_at 9 (drop at held.now)) }
    ensures most { result.count ≤ 9 }
    ensures small { result.value < 10 ^ 9 }
{
    let mut field = LengthField { count: 0, value: 0 };
    for k in 0..MOST_DIGITS {
        if at + k >= held.len() {
            return field;
        }
        let byte = held.at(at + k);
        if !byte.is_ascii_digit() {
            return field;
        }
        field.count += 1;
        field.value = 10 * field.value + (byte - b'0') as usize;
    }
    field
}

/// Whether a length of so many digits and this value belongs to a frame.
fn fits(limit: usize, count: usize, value: usize) -> bool
    requires count { count ≤ 10 }
    requires value { value < 10 ^ 10 }
    ensures { result ≡ fits limit count value }
{
    1 <= count
        && count <= MOST_DIGITS
        && BODY_START.len() + 1 <= value
        && HEAD.len() + 1 + TRAILER + count + value <= limit
}

/// Whether the digits can become such a length. One more digit is enough where any number is.
fn can_become(limit: usize, field: LengthField) -> bool
    requires count { field.count ≤ 9 }
    requires value { field.value < 10 ^ 9 }
    ensures { result ≡ can_become limit field.count field.value }
{
    if fits(limit, field.count, field.value) {
        return true;
    }
    for digit in 0..10 {
        if fits(limit, field.count + 1, 10 * field.value + digit) {
            return true;
        }
    }
    false
}
