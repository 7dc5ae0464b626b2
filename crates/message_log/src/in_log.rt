//! The log of accepted messages.

ghost use Rattle.std.specs.Prelude.{◌≡◌, ◌+◌, ◌^◌, ◌<◌, ◌≤◌, ◌↔◌, [], ◌∷◌, ◌++◌, length, slice_get, IfOk, OnOk, OnErr, IsOk, IsNone};
ghost use Rattle.std.specs.Option.{option_copied};

use crate::pages::Paged;
use crate::shelf::Steps;
use gate_io::{Bytes, NoMemory};
use std::alloc::Global;
use std::marker::{Brand, Model};
use std::sync::ledger::{Blank, Ledger};

/// The bodies of accepted messages. A body's position is its place in the log, from 0. Contracts see
/// the list of the bodies, and how many more are taken with no memory asked for.
#[derive(Debug)]
pub struct InLog {
    bodies: Paged<Bytes>,
}

impl Drop for InLog {
    fn drop(self) {
        let InLog { bodies: _ } = self;
    }
}

impl Model for InLog {
    ghost use Rattle.std.specs.Prelude.{ℕ, List};
    ghost use Rattle.message_log.specs.Stored.{Stored};

    ghost Value = { Stored (List ℕ) };

    ghost view = { λ l. l.bodies };
}

impl InLog {
    /// The empty log. It takes no memory.
    pub fn new(alloc: Global) -> InLog
        ensures { result ≡ record { items = []; spare = 0 } }
    {
        InLog {
            bodies: Paged::new(alloc),
        }
    }

    /// Makes room for n more bodies.
    pub fn reserve(&mut self, alloc: Global, n: usize) -> Result<(), NoMemory>
        ensures items { self.new.items ≡ self.old.items }
        ensures room { OnOk result (n ≤ self.new.spare) }
        ensures with_room { n ≤ self.old.spare → IsOk result }
        ensures kept { self.old.spare ≤ self.new.spare }
    {
        self.bodies.reserve(alloc, n)
    }

    /// Puts a body at the end, and answers its position. With spare places it takes no memory;
    /// without memory the body is dropped.
    pub fn push(&mut self, alloc: Global, body: Vec<u8>) -> Result<u64, NoMemory>
        ensures ok { OnOk result (self.new.items ≡ self.old.items ++ body.items ∷ []) }
        ensures position { IfOk result (λ pos. pos ≡ length self.old.items) }
        ensures err { OnErr result (self.new.items ≡ self.old.items) }
        ensures with_spare { 0 < self.old.spare → IsOk result }
        ensures kept { self.old.spare ≤ self.new.spare + 1 }
    {
        let position = self.bodies.len();
        self.bodies.push(alloc, Bytes::of(body))?;
        Ok(position)
    }

    /// How many bodies there are.
    pub fn len(&self) -> u64
        ensures length { result ≡ length self.now.items }
        ensures few { result ≤ 2 ^ 63 }
    {
        self.bodies.len()
    }

    /// The body at a position.
    pub fn body(&self, pos: u64) -> Option<&[u8]>
        ensures body { option_copied result ≡ slice_get self.now.items pos }
        ensures none { IsNone result ↔ (length self.now.items ≤ pos) }
    {
        self.get_in::<Brand>(pos, Blank::new(1))
    }

    fn get_in<L: Ledger>(&self, pos: u64, blank: Blank) -> Option<&[u8]>
        requires name { blank.name ≡ L.name }
        requires parts { blank.parts ≡ L.parts }
        requires some { 0 < blank.parts }
        ensures body { option_copied result ≡ slice_get self.now.items pos }
        ensures none { IsNone result ↔ (length self.now.items ≤ pos) }
    {
        let mut steps = Steps::<L>::new(blank);
        self.get(pos, &mut steps)
    }

    /// The body at a position, by at most 3 look-ups.
    pub fn get<L: Ledger>(&self, pos: u64, steps: &mut Steps<L>) -> Option<&[u8]>
        ensures body { option_copied result ≡ slice_get self.now.items pos }
        ensures none { IsNone result ↔ (length self.now.items ≤ pos) }
        ensures forward { steps.old ≤ steps.new }
        ensures cost { steps.new ≤ steps.old + 3 }
    {
        let body = self.bodies.get(pos, steps)?;
        Some(body.as_slice())
    }
}
