//! Putting a body into a frame.

ghost use Rattle.std.specs.Prelude.{◌≡◌, ◌≢◌, ◌+◌, ◌*◌, ◌^◌, ◌<◌, ◌≤◌, ◌↔◌, ◌++◌, ◌∷◌, [], List, ℕ, Some, IfOk, OnErr, OnOk, IsTrue, decimal, length};
ghost use Rattle.fix_frame.specs.declared.write.FrameError.TheVariants.{OutOfMemory};
ghost use Rattle.fix_frame.specs.Frame.{IsBody, checksum as sum_before_trailer, frame_of, three_digits};
ghost use Rattle.fix_frame.specs.Cut.{cut, good, onto};
ghost use Rattle.fix_frame.specs.Printed.{text_of};

use crate::layout::{
    BODY_END, BODY_START, HEAD, LONGEST_BODY, LONGEST_FRAME, SOH, TRAILER, checksum,
};
use itoa::Buffer;
use std::alloc::{AllocError, AllocFailed, Global};
use std::error::Error;
use std::fmt;

/// Why a frame wasn't written.
#[derive(Clone, Copy, Debug, PartialEq, Eq)]
pub enum FrameError {
    /// The frame would have `length` bytes, more than `LONGEST_FRAME`.
    TooLong { length: usize },
    /// There is no memory for the frame.
    OutOfMemory,
}

impl fmt::Display for FrameError {
    ghost output = { λ e. Some (text_of e) };

    fn fmt<W: fmt::Write>(&self, f: &mut fmt::Formatter<W>) -> fmt::Result {
        match self {
            FrameError::TooLong { length } => { write!(f, "a frame of {length} bytes is too long") }
            FrameError::OutOfMemory => write!(f, "out of memory"),
        }
    }
}

impl Error for FrameError {}

impl From<AllocError> for FrameError {
    ghost from_gives = { λ _ e. e ≡ OutOfMemory };

    fn from(_e: AllocError) -> FrameError {
        FrameError::OutOfMemory
    }
}

impl<T: Drop> From<AllocFailed<T>> for FrameError {
    ghost from_gives = { λ _ e. e ≡ OutOfMemory };

    fn from(_e: AllocFailed<T>) -> FrameError {
        FrameError::OutOfMemory
    }
}

/// Whether the bytes can be the body of a frame: they begin with `35=`, and end with the byte that
/// ends a field.
pub fn is_body(bytes: &[u8]) -> bool
    ensures { IsTrue result ↔ IsBody bytes.now }
{
    bytes.len() > BODY_START.len()
        && bytes[..BODY_START.len()] == BODY_START[..]
        && bytes[bytes.len() - 1] == SOH
}

/// How many bytes the frame of a body has.
pub fn frame_len(body: &[u8]) -> usize
    ensures { result ≡ length (frame_of body.now) }
{
    let mut buffer = Buffer::new();
    len_with(buffer.format(body.len()), body)
}

/// The same, where these are the digits of the body's length.
fn len_with(digits: &str, body: &[u8]) -> usize
    requires digits { digits.now ≡ decimal (length body.now) }
    requires short { length digits.now ≤ 40 }
    ensures { result ≡ length (frame_of body.now) }
{
    HEAD.len() + digits.len() + 1 + body.len() + TRAILER
}

/// The frame of a body: `8=FIX.4.4|9=len|body10=ccc|`, where `|` is byte 1, `len` is the body's
/// length without leading zeros, and `ccc` is the sum of all bytes before `10=`, modulo 256, in
/// three digits. FIX 4.4, volume 1, "Message format".
pub fn write_frame(alloc: Global, body: &[u8]) -> Result<Vec<u8>, FrameError>
    requires { IsBody body.now }
    ensures frame { IfOk result (λ frame. frame.items ≡ frame_of body.now) }
    ensures too_long { (n : ℕ) → (result ≡ Err (FrameError.TooLong n)) ↔ ((n ≡ length (frame_of body.now)) × (LONGEST_FRAME < n)) }
    ensures fits { length body.now ≤ LONGEST_BODY → (n : ℕ) → result ≢ Err (FrameError.TooLong n) }
    // Whatever bytes stand behind it, the cut of them begins with this body.
    ensures cut { IfOk result (λ frame. (more : List ℕ) → cut LONGEST_FRAME (frame.items ++ more) ≡ onto (good body.now) (cut LONGEST_FRAME more)) }
{
    let mut buffer = Buffer::new();
    let digits = buffer.format(body.len());
    let length = len_with(digits, body);
    if length > LONGEST_FRAME {
        return Err(FrameError::TooLong { length });
    }
    Ok(framed(alloc, digits, body, length)?)
}

/// The frame of a body, whose length has these digits, in a vector with room for so many bytes.
fn framed(alloc: Global, digits: &str, body: &[u8], room: usize) -> Result<Vec<u8>, AllocError>
    requires digits { digits.now ≡ decimal (length body.now) }
    requires short { length digits.now ≤ 40 }
    ensures { IfOk result (λ frame. frame.items ≡ frame_of body.now) }
{
    let mut frame = Vec::with_capacity(alloc, room)?;
    put_framed(&mut frame, digits, body)?;
    Ok(frame)
}

/// The frame of a body, as `write_frame` has it, at the end of a text. It asks for all the memory first, so
/// where no frame is written the text is as it was.
pub fn put_frame(text: &mut Vec<u8>, body: &[u8]) -> Result<(), FrameError>
    requires { IsBody body.now }
    ensures frame { OnOk result (text.new.items ≡ text.old.items ++ frame_of body.now) }
    ensures unchanged { OnErr result (text.new.items ≡ text.old.items) }
    ensures short { OnOk result (length (frame_of body.now) ≤ LONGEST_FRAME) }
    ensures too_long { (n : ℕ) → (result ≡ Err (FrameError.TooLong n)) ↔ ((n ≡ length (frame_of body.now)) × (LONGEST_FRAME < n)) }
    ensures fits { length body.now ≤ LONGEST_BODY → (n : ℕ) → result ≢ Err (FrameError.TooLong n) }
{
    let mut buffer = Buffer::new();
    let digits = buffer.format(body.len());
    let length = len_with(digits, body);
    if length <= LONGEST_FRAME {
        put_framed(text, digits, body)?;
        return Ok(());
    }
    Err(FrameError::TooLong { length })
}

/// The frame of a body, whose length has these digits, at the end of a text.
fn put_framed(text: &mut Vec<u8>, digits: &str, body: &[u8]) -> Result<(), AllocError>
    requires digits { digits.now ≡ decimal (length body.now) }
    requires short { length digits.now ≤ 40 }
    ensures ok { OnOk result (text.new.items ≡ text.old.items ++ frame_of body.now) }
    ensures err { OnErr result (text.new.items ≡ text.old.items) }
{
    let sum = sum_of(digits, body);
    text.reserve(len_with(digits, body))?;
    text.extend_from_slice(HEAD)?;
    text.extend_from_slice(digits.as_bytes())?;
    text.push(SOH)?;
    text.extend_from_slice(body)?;
    text.extend_from_slice(&BODY_END[1..])?;
    text.extend_from_slice(&three_digits(sum))?;
    text.push(SOH)?;
    Ok(())
}

/// The sum of all bytes of a frame before `10=`, modulo 256, where these are the digits of the body's length.
fn sum_of(digits: &str, body: &[u8]) -> u8
    ensures { result ≡ sum_before_trailer digits.now body.now }
{
    let before = checksum(HEAD).wrapping_add(checksum(digits.as_bytes()));
    before.wrapping_add(SOH).wrapping_add(checksum(body))
}

/// Three decimal digits.
fn three_digits(number: u8) -> [u8; 3]
    ensures { result ≡ three_digits number }
{
    [
        b'0' + number / 100,
        b'0' + number / 10 % 10,
        b'0' + number % 10,
    ]
}
