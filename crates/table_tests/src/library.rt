//! A library's side of a table, as rows and threads play it.
ghost use Rattle.std.specs.Prelude.{◌≡◌, ◌≢◌, ◌<◌, ◌≤◌, true, IfOk, IfSome};
ghost use Rattle.lease_words.specs.Leases.{held_lease};
ghost use Rattle.lease_words.specs.Views.{library_at};

use fix_fields::{LONGEST_APPLICATION_BODY, check_body};
use gate_io::{Bytes, NoMemory};
use lease_core::Word;
use lease_words::{Item, Leases, LibrarySeat, Lost, SendError, Sent};
use std::alloc::Global;

/// What came of a send.
#[derive(Clone, Copy, Debug, PartialEq, Eq)]
pub(crate) enum Sending {
    Made(Sent),
    Refused(SendError),
    /// The library holds no lease, by its last look.
    NotHeld,
    /// The body is none that an application may send.
    Unfit,
    /// It was refused, and what came back is not what was sent.
    AnotherBack,
}

/// A library's seat, with its table.
#[derive(Drop)]
pub(crate) struct Library<'a> {
    pub(crate) leases: &'a Leases,
    pub(crate) seat: LibrarySeat,
    ghost at_table: { seat.table ≡ leases.now },
}

// An item, where the body is one that may be sent.
fn item(alloc: Global, lease: u32, body: &[u8]) -> Result<Option<Item>, NoMemory>
    ensures { IfOk result (λ item. IfSome item (λ i. i.lease ≡ lease)) }
{
    if body.len() > LONGEST_APPLICATION_BODY || check_body(body).is_err() {
        return Ok(None);
    }
    let body = Bytes::of(Vec::from_slice(alloc, body)?);
    Ok(Some(Item { lease, body }))
}

// Sends an item by the lease that is held.
fn send_item(
    leases: &Leases,
    seat: &mut LibrarySeat,
    s: u16,
    item: Item,
) -> Result<Sent, (SendError, Item)>
    requires table { seat.old.table ≡ leases.now }
    requires session { s < leases.now.shape.sessions }
    requires held { (0 < item.lease) × (held_lease (library_at seat.old s).leases ≡ item.lease) }
    ensures table { seat.new.table ≡ seat.old.table }
{
    leases.send(seat, s, item)
}

// What came of a send of this body by this lease.
fn outcome(answer: Result<Sent, (SendError, Item)>, lease: u32, body: &[u8]) -> Sending {
    match answer {
        Ok(sent) => Sending::Made(sent),
        Err((why, back)) if back.lease == lease && back.body.as_slice() == body => {
            Sending::Refused(why)
        }
        Err(_) => Sending::AnotherBack,
    }
}

impl<'a> Library<'a> {
    pub(crate) fn new(leases: &'a Leases, seat: LibrarySeat) -> Library<'a>
        requires { seat.table ≡ leases.now }
        ensures { result.leases ≡ leases.entry }
    {
        Library { leases, seat }
    }

    /// Its number.
    pub(crate) fn number(&self) -> u8 {
        self.seat.number()
    }

    /// Looks at a session's word.
    pub(crate) fn see(&mut self, s: u16) -> Word
        ensures { self.new.leases ≡ self.old.leases }
    {
        self.leases.see(&mut self.seat, s)
    }

    /// The lease that it holds by its last look, or 0.
    pub(crate) fn held(&self, s: u16) -> u32 {
        self.leases.held(&self.seat, s)
    }

    /// The lease that a look shows to be held.
    pub(crate) fn hold(&mut self, s: u16) -> Option<u32>
        ensures { self.new.leases ≡ self.old.leases }
    {
        self.see(s);
        let lease = self.held(s);
        if lease > 0 { Some(lease) } else { None }
    }

    /// Sends a body by the lease that it holds by its last look.
    pub(crate) fn send(&mut self, alloc: Global, s: u16, body: &[u8]) -> Result<Sending, NoMemory>
        ensures { self.new.leases ≡ self.old.leases }
    {
        let lease = self.leases.held(&self.seat, s);
        if lease == 0 {
            return Ok(Sending::NotHeld);
        }
        let Some(item) = item(alloc, lease, body)? else {
            return Ok(Sending::Unfit);
        };
        let answer = send_item(self.leases, &mut self.seat, s, item);
        Ok(outcome(answer, lease, body))
    }

    /// Gives back the lease that it holds by its last look; None where it holds none.
    pub(crate) fn release(&mut self, s: u16) -> Option<Result<u32, Lost>>
        ensures { self.new.leases ≡ self.old.leases }
    {
        let lease = self.leases.held(&self.seat, s);
        if lease == 0 {
            return None;
        }
        Some(self.leases.release(&mut self.seat, s, lease))
    }

    /// Gives it back for another library to take; None where it holds none, or the other one can't be an heir.
    pub(crate) fn release_to(&mut self, s: u16, heir: u8) -> Option<Result<u32, Lost>>
        ensures { self.new.leases ≡ self.old.leases }
    {
        let lease = self.leases.held(&self.seat, s);
        if lease == 0 || !self.may_inherit(heir) {
            return None;
        }
        Some(self.leases.release_to(&mut self.seat, s, lease, heir))
    }

    // Whether this is another library of the table.
    fn may_inherit(&self, heir: u8) -> bool
        ensures { result ≡ true → (1 ≤ heir) × (heir ≤ self.now.leases.now.shape.libraries) × (heir ≢ self.now.seat.knows.number) }
    {
        1 <= heir && heir <= self.leases.libraries() && heir != self.seat.number()
    }

    /// How many messages were published of a session.
    pub(crate) fn arrived(&mut self, s: u16) -> u64
        ensures { self.new.leases ≡ self.old.leases }
    {
        self.leases.arrived(&mut self.seat, s)
    }

    pub(crate) fn beat(&mut self)
        ensures { self.new.leases ≡ self.old.leases }
    {
        self.leases.beat(&mut self.seat);
    }
}
