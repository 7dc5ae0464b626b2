//! A library with what it is lent in each call, and its events as values that can be compared.

ghost use Rattle.std.specs.Prelude.{◌≡◌};

use gate_io::{Bytes, NoMemory};
use lease_core::{Command, Why, Word};
use lease_words::{LibrarySeat, Sent};
use library_api::{
    AskError, Event, HandRefusal, Library, LibraryEnds2, Links, ReleaseRefusal, Released,
    SendRefusal, WaitKind,
};
use ring_links::Full;
use std::alloc::Global;

/// An event without a message's bytes.
#[derive(Clone, Copy, Debug, PartialEq, Eq)]
pub enum Seen {
    Nothing,
    NotYet {
        s: u16,
        pos: u64,
        published: u64,
    },
    Granted {
        nr: u32,
        s: u16,
        lease: u32,
        from: u64,
        start: u64,
    },
    Refused {
        nr: u32,
        s: u16,
        why: Why,
    },
    Message {
        s: u16,
        lease: u32,
        pos: u64,
    },
    Stale {
        s: u16,
        lease: u32,
        pos: u64,
    },
    LeaseLost {
        s: u16,
        lease: u32,
        seen: Word,
    },
}

/// A library, what it is lent in each call, and the bytes of the last message.
#[derive(Drop)]
pub struct Application<'a> {
    pub links: Links<'a>,
    library: Library,
    bytes: Bytes,
    ghost at_table: { library.ends.seat.table ≡ links.leases.now },
    ghost at_commands: { library.ends.tail.ring ≡ links.commands.now },
    ghost at_notices: { library.ends.head.ring ≡ links.notices.now },
}

impl<'a> Application<'a> {
    /// A library that has done nothing, and that may make as many requests as `asks` says.
    pub fn new(alloc: Global, links: Links<'a>, ends: LibraryEnds2, asks: u32) -> Application<'a>
        requires seat { ends.seat.table ≡ links.leases.now }
        requires tail { ends.tail.ring ≡ links.commands.now }
        requires head { ends.head.ring ≡ links.notices.now }
        ensures { result.links ≡ links.entry }
    {
        Application {
            links,
            library: Library::new(ends, asks),
            bytes: Bytes::of(Vec::new(alloc)),
        }
    }

    /// Requests a session from a position on, and answers the request's number.
    pub fn request(&mut self, s: u16, from: u64) -> Result<u32, AskError>
        ensures { self.new.links ≡ self.old.links }
    {
        self.library.request(&self.links, s, from)
    }

    /// The number of the request that is unanswered.
    pub fn asking(&self) -> Option<u32> {
        self.library.asking()
    }

    pub fn poll(&mut self) -> Seen
        ensures { self.new.links ≡ self.old.links }
    {
        match self.library.poll(&self.links) {
            Event::Nothing => Seen::Nothing,
            Event::NotYet { s, pos, published } => Seen::NotYet { s, pos, published },
            Event::Granted {
                nr,
                s,
                lease,
                from,
                start,
            } => Seen::Granted {
                nr,
                s,
                lease,
                from,
                start,
            },
            Event::Refused { nr, s, why } => Seen::Refused { nr, s, why },
            Event::Message {
                s,
                lease,
                pos,
                bytes,
            } => {
                self.bytes = bytes;
                Seen::Message { s, lease, pos }
            }
            Event::Stale { s, lease, pos } => Seen::Stale { s, lease, pos },
            Event::LeaseLost { s, lease, seen } => Seen::LeaseLost { s, lease, seen },
        }
    }

    /// The bytes of the message that was polled last.
    pub fn bytes(&self) -> &[u8] {
        self.bytes.as_slice()
    }

    /// Sends a body. It is `None` where another body comes back.
    pub fn send(
        &mut self,
        alloc: Global,
        s: u16,
        body: &[u8],
    ) -> Result<Option<Result<Sent, SendRefusal>>, NoMemory>
        ensures { self.new.links ≡ self.old.links }
    {
        let copy = Vec::from_slice(alloc, body)?;
        Ok(match self.library.send(&self.links, s, copy) {
            Ok(sent) => Some(Ok(sent)),
            Err((why, back)) if back.as_slice() == body => Some(Err(why)),
            Err(_) => None,
        })
    }

    pub fn release(&mut self, s: u16) -> Result<Released, ReleaseRefusal>
        ensures { self.new.links ≡ self.old.links }
    {
        self.library.release(&self.links, s)
    }

    pub fn release_to(&mut self, s: u16, heir: u8) -> Result<Released, HandRefusal>
        ensures { self.new.links ≡ self.old.links }
    {
        self.library.release_to(&self.links, s, heir)
    }

    pub fn beat(&mut self)
        ensures { self.new.links ≡ self.old.links }
    {
        self.library.beat(&self.links);
    }

    /// Tells that it asks nothing more.
    pub fn done(&mut self, finished: bool) -> Result<(), Full<Command>>
        ensures { self.new.links ≡ self.old.links }
    {
        self.library.done(&self.links, finished)
    }

    /// What its last call waited for, and how many calls in a row.
    pub fn waited(&self) -> (WaitKind, u64) {
        let waited = self.library.waited();
        (waited.kind(), waited.count())
    }

    /// Its seat at the lease table, to be taken in.
    pub fn into_seat(self) -> LibrarySeat
        ensures { result.table ≡ self.entry.links.leases.now }
    {
        self.library.seat()
    }
}
