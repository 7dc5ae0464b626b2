//! The fixed parts of a frame, its checksum, and the limits of frames, bodies and cutters.

ghost use Rattle.std.specs.Prelude.{◌≡◌, ◌%◌, sum};

/// The most bytes that a frame has, read or written.
pub const LONGEST_FRAME: usize = 65_536;

/// The most bytes that a frame of at most `LONGEST_FRAME` bytes has beside its body, where it is
/// written. One that is read may have four more: leading zeros of its length.
pub const FRAMING: usize = 25;

/// The most bytes of a body whose frame isn't too long.
pub const LONGEST_BODY: usize = LONGEST_FRAME - FRAMING;

/// The least limit that a `Cutter` takes. The greatest is `LONGEST_FRAME`.
pub const LEAST_LIMIT: usize = 32;

/// How many bytes a `Cutter` has room for at least, once it has no further piece.
pub const LEAST_ROOM: usize = 4_096;

/// The byte that ends each field.
pub(crate) const SOH: u8 = 1;

/// What stands before the digits of the body's length.
pub(crate) const HEAD: &[u8] = b"8=FIX.4.4\x019=";

/// How a body begins: with the type of the message.
pub(crate) const BODY_START: &[u8] = b"35=";

/// The end of a body, and what stands between it and the digits of the checksum.
pub(crate) const BODY_END: &[u8] = b"\x0110=";

/// How many bytes stand behind a body.
pub(crate) const TRAILER: usize = 7;

/// The most digits of a length.
pub(crate) const MOST_DIGITS: usize = 9;

/// The sum of the bytes, modulo 256.
pub(crate) fn checksum(bytes: &[u8]) -> u8
    ensures { result ≡ sum bytes.now % 256 }
{
    let mut sum = 0u8;
    for byte in bytes {
        sum = sum.wrapping_add(*byte);
    }
    sum
}
