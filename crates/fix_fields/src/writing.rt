//! One field written behind a text.

ghost use Rattle.std.specs.Prelude.{◌≡◌, ◌<◌, ◌^◌, ◌++◌, length, OnOk, OnErr};
ghost use Rattle.fix_fields.specs.Field.{field_text, tagged_text};

use crate::reading::SOH;
use gate_io::NoMemory;
use itoa::Buffer;

/// Writes the text of a field at the end, whatever its tag and its value are. It asks for all the
/// memory first, so without memory the text is as it was.
pub fn put_field(text: &mut Vec<u8>, tag: u32, value: &[u8]) -> Result<(), NoMemory>
    ensures ok { OnOk result (text.new.items ≡ text.old.items
        ++ field_text (record { tag = tag; value = value.now })) }
    ensures err { OnErr result (text.new.items ≡ text.old.items) }
{
    let mut digits = Buffer::new();
    put_tagged(text, digits.format(tag).as_bytes(), value)
}

/// The same with a tag that is handed in as it is written, as a constant one can be.
#[inline(always)]
pub fn put_tagged(text: &mut Vec<u8>, tag: &[u8], value: &[u8]) -> Result<(), NoMemory>
    requires { length tag.now < 2 ^ 32 }
    ensures ok { OnOk result (text.new.items ≡ text.old.items ++ tagged_text tag.now value.now) }
    ensures err { OnErr result (text.new.items ≡ text.old.items) }
{
    text.reserve(tag.len() + value.len() + 2)?;
    text.extend_from_slice(tag)?;
    text.push(b'=')?;
    text.extend_from_slice(value)?;
    text.push(SOH)?;
    Ok(())
}
