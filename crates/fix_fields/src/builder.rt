//! A body as it is written, field by field.

ghost use Rattle.std.specs.Prelude.{◌≡◌, ◌<◌, ◌≤◌, [], ◌∷◌, ◌++◌, List, length, false, Ok, OnOk, OnErr};
ghost use Rattle.fix_fields.specs.Field.{Field, no_field, has_soh};
ghost use Rattle.fix_fields.specs.Pairs.{is_data_of};
ghost use Rattle.fix_fields.specs.declared.limits.TheConstants.{LAST_TAG};

use crate::limits::LAST_TAG;
use crate::writing::put_field;
use gate_io::NoMemory;
use std::alloc::Global;
use std::marker::Model;

/// A body that is written field by field. Contracts see its text so far and the tag of its last
/// field.
#[derive(Debug, Drop)]
pub struct Builder {
    text: Vec<u8>,
    last: u32,
}

impl Model for Builder {
    ghost use Rattle.fix_fields.specs.Builder.{Draft};

    ghost Value = { Draft };

    ghost view = { λ b. record { text = b.text.items; last = b.last } };
}

impl Builder {
    ghost use Rattle.fix_fields.specs.Body.{HasStatedLength, AllAfter};
    ghost use Rattle.fix_fields.specs.Builder.{Holds, with_field};
    ghost use Rattle.fix_fields.specs.Reading.{fields_of};

    /// A body with no field. It takes no memory.
    pub fn new(alloc: Global) -> Builder
        ensures empty { result ≡ record { text = []; last = 0 } }
        ensures fields { Holds result [] }
    {
        Builder {
            text: Vec::new(alloc),
            last: 0,
        }
    }

    /// Writes a field at the end. Its tag is from 1 to `LAST_TAG`, and its value has at least one
    /// byte. Only the value of a data field that stands directly behind its length field may have
    /// SOH in it. How long the body gets isn't bounded. Without memory it is as it was.
    pub fn field(&mut self, _alloc: Global, tag: u32, value: &[u8]) -> Result<(), NoMemory>
        requires tag_from { 1 ≤ tag }
        requires tag_to { tag ≤ LAST_TAG }
        requires filled { 0 < length value.now }
        requires plain { is_data_of self.old.last tag ≡ false → has_soh value.now ≡ false }
        ensures ok { OnOk result (self.new ≡ with_field self.old (record { tag = tag; value = value.now })) }
        ensures fields { OnOk result ((fields : List Field) → Holds self.old fields
            → Holds self.new (fields ++ record { tag = tag; value = value.now } ∷ [])) }
        ensures err { OnErr result (self.new ≡ self.old) }
    {
        put_field(&mut self.text, tag, value)?;
        self.last = tag;
        Ok(())
    }

    /// The body's bytes. They are read as the fields that were put in, where each data field that
    /// was put in directly behind its length field has just the length that this says.
    pub fn finish(self) -> Vec<u8>
        ensures text { result.items ≡ self.text }
        ensures read { (fields : List Field) → Holds self fields
            → AllAfter HasStatedLength no_field fields → fields_of result.items ≡ Ok fields }
    {
        self.text
    }
}
