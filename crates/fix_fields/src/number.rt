//! The numbers in fields.

ghost use Rattle.std.specs.Prelude.{◌≡◌};
ghost use Rattle.fix_fields.specs.Number.{number_of};

/// The most digits of a number, leading zeros among them.
const MOST_DIGITS: usize = 20;

/// The greatest number.
const MOST_NUMBER: u64 = 4_294_967_295;

/// The most digits of a tag.
pub(crate) const MOST_TAG_DIGITS: usize = 9;

/// The number that the bytes are: one to twenty digits, leading zeros allowed, with a value of at
/// most 4,294,967,295.
pub fn read_number(bytes: &[u8]) -> Option<u32>
    ensures { result ≡ number_of bytes.now }
{
    if bytes.is_empty() || bytes.len() > MOST_DIGITS {
        return None;
    }
    let mut value = 0u64;
    for byte in bytes {
        if !byte.is_ascii_digit() {
            return None;
        }
        value = value * 10 + (*byte - b'0') as u64;
        if value > MOST_NUMBER {
            return None;
        }
    }
    Some(value as u32)
}
