//! Bytes as they are printed in scripts and reports: `|` is byte 1, and `\` with two hexadecimal
//! digits is the byte with that value.

ghost use Rattle.std.specs.Prelude.{◌≡◌, ◌<◌, ◌++◌, IfOk, IfSome, OnErr, OnOk, length, take};
ghost use Rattle.script_text.specs.Printed.{printed_text, printed_byte, escaped_byte, front_of_digits, hex_digit_of, hex_value, is_printable, front_of, lent_front, bytes_of_text};

use gate_io::{Bytes, NoMemory};
use std::alloc::{AllocError, Global};

/// SOH, which ends each field.
const SOH: u8 = 1;

/// Whether the byte is one from a space to `~`.
pub(crate) fn is_printable(b: u8) -> bool
    ensures { result ≡ is_printable b }
{
    b' ' <= b && b <= b'~'
}

/// Puts bytes behind `out` as they are printed. Without memory it is as it was.
pub fn push_printed(out: &mut Vec<u8>, bytes: &[u8]) -> Result<(), NoMemory>
    ensures ok { OnOk result (out.new.items ≡ out.old.items ++ printed_text bytes.now) }
    ensures err { OnErr result (out.new.items ≡ out.old.items) }
{
    let before = out.len();
    let done = push_each(out, bytes);
    if done.is_err() {
        out.truncate(before);
    }
    done
}

/// Puts them there one by one. Without memory a part of what they are printed as is there.
fn push_each(out: &mut Vec<u8>, bytes: &[u8]) -> Result<(), NoMemory>
    ensures ok { OnOk result (out.new.items ≡ out.old.items ++ printed_text bytes.now) }
    ensures begins { take (length out.old.items) out.new.items ≡ out.old.items }
{
    for b in bytes {
        push_printed_byte(out, *b)?;
    }
    Ok(())
}

fn push_printed_byte(out: &mut Vec<u8>, b: u8) -> Result<(), AllocError>
    ensures ok { OnOk result (out.new.items ≡ out.old.items ++ printed_byte b) }
    ensures err { OnErr result (out.new.items ≡ out.old.items) }
{
    match b {
        SOH => out.push(b'|')?,
        b'|' | b'\\' => push_escaped(out, b)?,
        0x20..=0x7e => out.push(b)?,
        _ => push_escaped(out, b)?,
    }
    Ok(())
}

fn push_escaped(out: &mut Vec<u8>, b: u8) -> Result<(), AllocError>
    ensures ok { OnOk result (out.new.items ≡ out.old.items ++ escaped_byte b) }
    ensures err { OnErr result (out.new.items ≡ out.old.items) }
{
    out.extend_from_slice(&[b'\\', hex_digit(b / 16), hex_digit(b % 16)])
}

/// The lower-case hexadecimal digit of a number below 16.
fn hex_digit(n: u8) -> u8
    requires { n < 16 }
    ensures { result ≡ hex_digit_of n }
{
    if n < 10 { b'0' + n } else { b'a' + (n - 10) }
}

/// The bytes that a printed text stands for; none where a `\` has no two lower-case hexadecimal
/// digits behind it.
pub fn read_text(alloc: Global, text: &[u8]) -> Result<Option<Bytes>, NoMemory>
    ensures { IfOk result (λ bytes. bytes ≡ bytes_of_text text.now) }
{
    let mut bytes = Vec::new(alloc);
    let mut rest = text;
    while !rest.is_empty() {
        let Some((b, left)) = split_front(rest) else {
            return Ok(None);
        };
        bytes.push(b)?;
        rest = left;
    }
    Ok(Some(Bytes::of(bytes)))
}

/// The byte for which the front of a text stands, and the rest of the text.
#[tactic(auto, unfolding(crate::specs::Printed::front_of))]
fn split_front(text: &[u8]) -> Option<(u8, &[u8])>
    ensures { lent_front result ≡ front_of text.now }
{
    match text {
        [] => None,
        [b'|', left @ ..] => Some((SOH, left)),
        [b'\\', left @ ..] => split_escaped(left),
        [b, left @ ..] => Some((*b, left)),
    }
}

/// The byte that two digits at the front of a text stand for, and the rest of the text.
fn split_escaped(text: &[u8]) -> Option<(u8, &[u8])>
    ensures { lent_front result ≡ front_of_digits text.now }
{
    let [high, low, left @ ..] = text else {
        return None;
    };
    let high = hex_value(*high)?;
    let low = hex_value(*low)?;
    Some((high * 16 + low, left))
}

/// The value of a lower-case hexadecimal digit.
fn hex_value(digit: u8) -> Option<u8>
    ensures value { result ≡ hex_value digit }
    ensures small { IfSome result (λ n. n < 16) }
{
    match digit {
        b'0'..=b'9' => Some(digit - b'0'),
        b'a'..=b'f' => Some(digit - b'a' + 10),
        _ => None,
    }
}
