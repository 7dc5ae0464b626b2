//! What stands before the body of a record: numbers of a fixed size, big-endian.

ghost use Rattle.std.specs.Prelude.{◌≡◌, ◌≤◌, ◌+◌, ◌<◌, ◌^◌, ◌++◌, ◌∷◌, length};
ghost use Rattle.std.specs.Int.{to_be_bytes, w16, w32, w64};
ghost use Rattle.std.specs.Vec.{vec_len, vec_capacity};
ghost use Rattle.durable_journal.specs.RecordText.{head_text, numbers_text, HeadHasTypes, NumbersHaveTypes};

use crate::numbers::Numbers;

/// How many bytes a record has before its body.
pub const RECORD_HEAD: usize = 59;

/// How many bytes the numbers of an entry take.
const NUMBERS: usize = 41;

/// The numbers of a record: the session, the entry's, the moment, the session's expected number
/// behind it, and how long the body is.
#[derive(Clone, Copy, Debug)]
pub(crate) struct Head {
    pub(crate) s: u16,
    pub(crate) numbers: Numbers,
    pub(crate) at: u64,
    pub(crate) expected: u32,
    pub(crate) length: u32,
}

/// Writes a head at the end of a text that has room for it.
#[tactic(auto, unfolding(crate::specs::RecordText::head_text))]
pub(crate) fn put_head(text: &mut Vec<u8>, head: Head)
    requires { vec_len text.old + RECORD_HEAD ≤ vec_capacity text.old }
    ensures text { text.new.items ≡ text.old.items ++ head_text head }
    ensures types { HeadHasTypes head }
    ensures len { vec_len text.new ≡ vec_len text.old + RECORD_HEAD }
    ensures capacity { vec_capacity text.old ≤ vec_capacity text.new }
{
    put_u16(text, head.s);
    put_numbers(text, head.numbers);
    put_u64(text, head.at);
    put_u32(text, head.expected);
    put_u32(text, head.length);
}

#[tactic(auto, unfolding(crate::specs::RecordText::numbers_text))]
fn put_numbers(text: &mut Vec<u8>, n: Numbers)
    requires { vec_len text.old + NUMBERS ≤ vec_capacity text.old }
    ensures text { text.new.items ≡ text.old.items ++ numbers_text n }
    ensures types { NumbersHaveTypes n }
    ensures len { vec_len text.new ≡ vec_len text.old + NUMBERS }
    ensures capacity { vec_capacity text.old ≤ vec_capacity text.new }
{
    put(text, &[n.kind]);
    put_u64(text, n.a);
    put_u64(text, n.b);
    put_u64(text, n.c);
    put_u64(text, n.d);
    put_u64(text, n.e);
}

fn put_u16(text: &mut Vec<u8>, n: u16)
    requires { vec_len text.old + 2 ≤ vec_capacity text.old }
    ensures text { text.new.items ≡ text.old.items ++ to_be_bytes w16 n }
    ensures len { vec_len text.new ≡ vec_len text.old + 2 }
    ensures capacity { vec_capacity text.old ≤ vec_capacity text.new }
{
    put(text, &n.to_be_bytes());
}

fn put_u32(text: &mut Vec<u8>, n: u32)
    requires { vec_len text.old + 4 ≤ vec_capacity text.old }
    ensures text { text.new.items ≡ text.old.items ++ to_be_bytes w32 n }
    ensures len { vec_len text.new ≡ vec_len text.old + 4 }
    ensures capacity { vec_capacity text.old ≤ vec_capacity text.new }
{
    put(text, &n.to_be_bytes());
}

fn put_u64(text: &mut Vec<u8>, n: u64)
    requires { vec_len text.old + 8 ≤ vec_capacity text.old }
    ensures text { text.new.items ≡ text.old.items ++ to_be_bytes w64 n }
    ensures len { vec_len text.new ≡ vec_len text.old + 8 }
    ensures capacity { vec_capacity text.old ≤ vec_capacity text.new }
{
    put(text, &n.to_be_bytes());
}

/// Writes bytes at the end of a text that has room for them.
pub(crate) fn put(text: &mut Vec<u8>, bytes: &[u8])
    requires { vec_len text.old + length bytes.now ≤ vec_capacity text.old }
    ensures text { text.new.items ≡ text.old.items ++ bytes.now }
    ensures len { vec_len text.new ≡ vec_len text.old + length bytes.now }
    ensures capacity { vec_capacity text.old ≤ vec_capacity text.new }
{
    text.extend_from_slice(bytes).unwrap();
}

/// The head at the front, and what stands behind it.
#[tactic(auto, unfolding(crate::specs::RecordText::head_text))]
pub(crate) fn read_head(bytes: &[u8]) -> (Head, &[u8])
    requires { RECORD_HEAD ≤ length bytes.now }
    ensures text { bytes.now ≡ head_text result.0 ++ result.1.now }
    ensures types { HeadHasTypes result.0 }
{
    let (s, rest) = read_u16(bytes);
    let (numbers, rest) = read_numbers(rest);
    let (at, rest) = read_u64(rest);
    let (expected, rest) = read_u32(rest);
    let (length, rest) = read_u32(rest);
    let head = Head {
        s,
        numbers,
        at,
        expected,
        length,
    };
    (head, rest)
}

#[tactic(auto, unfolding(crate::specs::RecordText::numbers_text))]
fn read_numbers(bytes: &[u8]) -> (Numbers, &[u8])
    requires { NUMBERS ≤ length bytes.now }
    ensures text { bytes.now ≡ numbers_text result.0 ++ result.1.now }
    ensures types { NumbersHaveTypes result.0 }
    ensures len { length result.1.now + NUMBERS ≡ length bytes.now }
{
    let (kind, rest) = read_u8(bytes);
    let (a, rest) = read_u64(rest);
    let (b, rest) = read_u64(rest);
    let (c, rest) = read_u64(rest);
    let (d, rest) = read_u64(rest);
    let (e, rest) = read_u64(rest);
    let numbers = Numbers {
        kind,
        a,
        b,
        c,
        d,
        e,
    };
    (numbers, rest)
}

fn read_u8(bytes: &[u8]) -> (u8, &[u8])
    requires { 1 ≤ length bytes.now }
    ensures text { bytes.now ≡ result.0 ∷ result.1.now }
    ensures range { result.0 < 2 ^ 8 }
    ensures len { length result.1.now + 1 ≡ length bytes.now }
{
    (bytes[0], &bytes[1..])
}

fn read_u16(bytes: &[u8]) -> (u16, &[u8])
    requires { 2 ≤ length bytes.now }
    ensures text { bytes.now ≡ to_be_bytes w16 result.0 ++ result.1.now }
    ensures range { result.0 < 2 ^ 16 }
    ensures len { length result.1.now + 2 ≡ length bytes.now }
{
    let (front, rest) = bytes.split_at(2);
    (u16::from_be_bytes([front[0], front[1]]), rest)
}

pub(crate) fn read_u32(bytes: &[u8]) -> (u32, &[u8])
    requires { 4 ≤ length bytes.now }
    ensures text { bytes.now ≡ to_be_bytes w32 result.0 ++ result.1.now }
    ensures range { result.0 < 2 ^ 32 }
    ensures len { length result.1.now + 4 ≡ length bytes.now }
{
    let (front, rest) = bytes.split_at(4);
    let number = u32::from_be_bytes([front[0], front[1], front[2], front[3]]);
    (number, rest)
}

fn read_u64(bytes: &[u8]) -> (u64, &[u8])
    requires { 8 ≤ length bytes.now }
    ensures text { bytes.now ≡ to_be_bytes w64 result.0 ++ result.1.now }
    ensures range { result.0 < 2 ^ 64 }
    ensures len { length result.1.now + 8 ≡ length bytes.now }
{
    let (front, rest) = bytes.split_at(8);
    let number = u64::from_be_bytes([
        front[0], front[1], front[2], front[3], front[4], front[5], front[6], front[7],
    ]);
    (number, rest)
}
