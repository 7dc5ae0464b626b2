//! What the libraries know of a session's orders, whichever of them has the session.

ghost use Rattle.std.specs.Prelude.{◌≡◌, ◌≢◌, ◌<◌, ℕ, OnOk, Some, Vec};
ghost use Rattle.std.specs.Global.{Global as TheGlobal};
ghost use Rattle.std.specs.HashMap.{IsEmpty, spare};
ghost use Rattle.example_broker.specs.Books.{Keeps, fill_of, next_fill};

use gate_io::NoMemory;
use std::alloc::Global;
use std::collections::HashMap;

/// The book of a session: where its reading goes on, and which orders were filled. One library has it at a time, from
/// before it looks whether an order was filled until its answer was sent, so no order is filled twice.
pub struct Book {
    /// The position of the first message of the inbound log that wasn't answered.
    pub(crate) next: u64,
    /// The ClOrdID (11) of each order that was filled, with the number of its fill.
    pub(crate) filled: HashMap<Vec<u8>, u64>,
}

impl Drop for Book {
    fn drop(self) {
        let Book { next: _, filled: _ } = self;
    }
}

impl Book {
    /// No message came yet.
    pub(crate) fn new(alloc: Global) -> Book
        ensures next { result.next ≡ 0 }
        ensures filled { IsEmpty result.filled }
    {
        Book {
            next: 0,
            filled: HashMap::new(alloc),
        }
    }

    /// The number of the fill of an order, if it was filled.
    pub(crate) fn fill_of(&self, id: &[u8]) -> Option<u64>
        ensures { result ≡ fill_of self.now id.now }
    {
        self.filled.get(id).copied()
    }

    /// The number of the next fill.
    pub(crate) fn next_fill(&self) -> u64
        ensures { result ≡ next_fill self.now }
    {
        (self.filled.len() as u64).saturating_add(1)
    }

    /// Room for one order more.
    pub(crate) fn make_room(&mut self) -> Result<(), NoMemory>
        ensures keeps { Keeps self.old self.new }
        ensures room { OnOk result (0 < spare self.new.filled) }
        ensures number { next_fill self.new ≡ next_fill self.old }
    {
        self.filled.reserve(1)?;
        Ok(())
    }

    /// An order was filled, by the fill of this number. There is room for it.
    pub(crate) fn note(&mut self, id: Vec<u8>, number: u64)
        requires { 0 < spare self.old.filled }
        ensures filled { fill_of self.new id.items ≡ Some number }
        ensures others { (other : Vec ℕ TheGlobal) → other.items ≢ id.items → fill_of self.new other.items ≡ fill_of self.old other.items }
        ensures next { self.new.next ≡ self.old.next }
    {
        match self.filled.insert(id, number) {
            Ok(_old) => {}
            Err(_) => unreachable!(),
        }
    }
}
