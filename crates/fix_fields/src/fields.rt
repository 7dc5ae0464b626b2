//! The fields of a body, read once and then looked up by tag.

ghost use Rattle.std.specs.Prelude.{◌≡◌, ◌≢◌, ◌<◌, ◌↔◌, [], length, IsTrue, IfOk, OnOk, IfErr, slice_get, option_copied};

use crate::entry::Entry;
use crate::error::FieldError;
use crate::reading::next_field;
use std::alloc::Global;
use std::marker::Model;

/// How many fields a list has room for at first: those of most messages of a session.
const FIRST_ROOM: usize = 16;

/// The fields of a body, in order, with each value lent from the body. Contracts see the list of
/// the fields.
#[derive(Debug, Drop)]
pub struct Fields<'a> {
    entries: Vec<Entry<'a>>,
}

impl<'a> Model for Fields<'a> {
    ghost use Rattle.std.specs.Prelude.{List};
    ghost use Rattle.fix_fields.specs.Field.{Field};

    ghost Value = { List Field };

    ghost view = { λ f. f.entries.items };
}

impl<'a> Fields<'a> {
    ghost use Rattle.fix_fields.specs.Body.{EndsWithSoh, IsFields};
    ghost use Rattle.fix_fields.specs.Reading.{fields_of, first_value, IsFaultOf};

    /// Reads a body from left to right. A value goes up to the next SOH, but for a data field that
    /// stands directly behind its length field: its value has as many bytes as that field says, of
    /// any kind. The fault is the first one.
    pub fn read(alloc: Global, body: &'a [u8]) -> Result<Fields<'a>, FieldError>
        ensures ok { IfOk result (λ fields. fields_of body.now ≡ Ok fields) }
        ensures spelled { IfOk result (λ fields. IsFields body.now fields) }
        ensures end { OnOk result (body.now ≢ [] → EndsWithSoh body.now) }
        ensures fault { IfErr result (λ fault. IsFaultOf fault body.now) }
    {
        let mut entries = Vec::with_capacity(alloc, FIRST_ROOM)?;
        let mut before = Entry::none();
        let mut rest = body;
        while !rest.is_empty() {
            let (entry, after) = match next_field(rest, &before) {
                Ok(found) => found,
                Err(fault) => return Err(fault.at(body.len() - rest.len())),
            };
            before = entry.again();
            rest = after;
            entries.push(entry)?;
        }
        Ok(Fields { entries })
    }

    pub fn len(&self) -> usize
        ensures { result ≡ length self.now }
    {
        self.entries.len()
    }

    pub fn is_empty(&self) -> bool
        ensures { IsTrue result ↔ (length self.now ≡ 0) }
    {
        self.entries.is_empty()
    }

    /// The tag and the value of a field, by its place in the list, from 0.
    pub fn at(&self, i: usize) -> (u32, &'a [u8])
        requires { i < length self.now }
        ensures { slice_get self.now i ≡ Some (record { tag = result.0; value = result.1.now }) }
    {
        let entry = &self.entries[i];
        (entry.tag(), entry.value())
    }

    /// The value of the first field with the tag. The body isn't read again.
    pub fn first(&self, tag: u32) -> Option<&'a [u8]>
        ensures { option_copied result ≡ first_value tag self.now }
    {
        let found = self.entries.iter().find(|entry| entry.tag() == tag);
        found.map(|entry| entry.value())
    }
}
