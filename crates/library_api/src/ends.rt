//! What a library holds of the lease table and of its rings, and what it is lent in each call.
use lease_core::{Command, Notice};
use lease_words::{Leases, LibrarySeat};
use ring_links::{Head, Ring, Tail};
use std::marker::Model;

/// The lease table and the two rings of a library. Its own seat and ends belong to them.
#[derive(Clone, Copy)]
pub struct Links<'a> {
    pub leases: &'a Leases,
    pub commands: &'a Ring<Command>,
    pub notices: &'a Ring<Notice>,
}

/// A library's number, which is its seat's own, its seat at the lease table, the end by which it
/// pushes commands and the end by which it pops notices.
#[derive(Drop)]
pub struct LibraryEnds2 {
    pub number: u8,
    pub seat: LibrarySeat,
    pub tail: Tail<Command>,
    pub head: Head<Notice>,
}

impl Model for LibraryEnds2 {
    ghost use Rattle.library_api.specs.Ends.{EndsView};

    ghost Value = { EndsView };

    ghost use Rattle.std.specs.Prelude.{◌≡◌};

    ghost view = { λ e. record { seat = e.seat; tail = e.tail; head = e.head } };

    ghost invariant = { λ e. e.number ≡ e.seat.knows.number };
}
