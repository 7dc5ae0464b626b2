//! One field of a body: its tag and its value.

ghost use Rattle.std.specs.Prelude.{◌≡◌};

use std::marker::Model;

/// A field where it stands in a body. Contracts see its tag and the bytes of its value.
#[derive(Debug, Drop)]
pub(crate) struct Entry<'a> {
    tag: u32,
    value: &'a [u8],
}

impl<'a> Model for Entry<'a> {
    ghost use Rattle.fix_fields.specs.Field.{Field};

    ghost Value = { Field };

    ghost view = { λ e. record { tag = e.tag; value = e.value.now } };
}

impl<'a> Entry<'a> {
    ghost use Rattle.fix_fields.specs.Field.{no_field};

    pub(crate) fn new(tag: u32, value: &'a [u8]) -> Entry<'a>
        ensures { result ≡ record { tag = tag; value = value.now } }
    {
        Entry { tag, value }
    }

    /// What stands before a body's first field: its tag is 0.
    pub(crate) fn none() -> Entry<'a>
        ensures { result ≡ no_field }
    {
        Entry { tag: 0, value: &[] }
    }

    pub(crate) fn tag(&self) -> u32
        ensures { result ≡ self.now.tag }
    {
        self.tag
    }

    pub(crate) fn value(&self) -> &'a [u8]
        ensures { result.now ≡ self.now.value }
    {
        self.value
    }

    /// The same field once more. The value's bytes are not copied.
    pub(crate) fn again(&self) -> Entry<'a>
        ensures { result ≡ self.now }
    {
        Entry {
            tag: self.tag,
            value: self.value,
        }
    }
}
