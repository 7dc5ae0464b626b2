//! What is kept of a session for the lines behind its entries, and for the calls of libraries.

ghost use Rattle.std.specs.Prelude.{◌≡◌, ◌==◌, ◌++◌, ◌∷◌, [], drop, length, replicate, slice_get, IfOk, OnOk, IsTrue};
ghost use Rattle.std.specs.List.{list_all};
ghost use Rattle.journal_audit.specs.Sessions.{no_session, with_mark, with_deed, session_after, with_holding, is_session_body, is_fit_body, fits_mark, fits_series, next_mark, has_bytes, is_next_for, is_read, session_after_read, fits_sent, is_sent, fits_release, is_given_back, session_after_deed, is_told, all_told, owed_by};

use fix_fields::{check_body, is_session_type};
use gate_io::{Bytes, NoMemory};
use lease_core::{Entry, Holding};
use std::alloc::Global;
use std::collections::VecDeque;
use std::marker::Model;

/// How many places a list by libraries has: library 1 is at place 1.
pub(crate) const LIBRARY_PLACES: usize = 17;

/// An entry that has an `out` line, or the `series` line of a reset.
#[derive(Clone, Copy, Debug)]
pub(crate) enum Mark {
    Admin { number: u64 },
    Send { number: u64 },
    Series { series: u32 },
}

/// A send or a release of a library. A send has the place of its `out` line among the marks.
#[derive(Clone, Copy, Debug)]
pub(crate) enum Deed {
    Sent {
        lease: u32,
        ordinal: u32,
        place: usize,
    },
    GaveBack {
        lease: u32,
        count: u32,
        heir: u8,
    },
}

/// Who reads by a lease, the position that comes next, and where the holding ends.
#[derive(Clone, Copy, Debug)]
pub(crate) struct Reader {
    pub library: u8,
    pub next: u64,
    pub end: u64,
}

/// The sends and releases of a library that no call has told yet, in order.
#[derive(Drop)]
struct Owed {
    deeds: VecDeque<Deed>,
}

impl Model for Owed {
    ghost use Rattle.std.specs.Prelude.{List};
    ghost use Rattle.journal_audit.specs.declared.session.Deed.{Deed};

    ghost Value = { List Deed };

    ghost view = { λ a. a.deeds.items };
}

impl Owed {
    fn new(alloc: Global) -> Owed
        ensures { result ≡ [] }
    {
        Owed {
            deeds: VecDeque::new(alloc),
        }
    }

    fn push(&mut self, deed: Deed) -> Result<(), NoMemory>
        ensures { OnOk result (self.new ≡ self.old ++ deed ∷ []) }
    {
        self.deeds.push_back(deed)?;
        Ok(())
    }

    fn first(&self) -> Option<Deed>
        ensures { result ≡ slice_get self.now 0 }
    {
        self.deeds.front().copied()
    }

    fn pop(&mut self)
        ensures { self.new ≡ drop 1 self.old }
    {
        let _told = self.deeds.pop_front();
    }

    fn is_told(&self) -> bool
        ensures { result ≡ is_told self.now }
    {
        self.deeds.is_empty()
    }
}

#[derive(Drop)]
pub(crate) struct Session {
    inbound: Vec<Bytes>,
    marks: Vec<Mark>,
    bodies: Vec<Bytes>,
    readers: Vec<Reader>,
    owed: Vec<Owed>,
}

impl Model for Session {
    ghost use Rattle.journal_audit.specs.Sessions.{SessionSeen};

    ghost Value = { SessionSeen };

    ghost view = { λ a. record { inbound = a.inbound.items; marks = a.marks.items; bodies = a.bodies.items; readers = a.readers.items; owed = a.owed.items } };
}

impl Session {
    /// Before the first entry.
    pub(crate) fn new(alloc: Global) -> Result<Session, NoMemory>
        ensures { IfOk result (λ session. session ≡ no_session) }
    {
        Ok(Session {
            inbound: Vec::new(alloc),
            marks: Vec::new(alloc),
            bodies: Vec::new(alloc),
            readers: Vec::new(alloc),
            owed: nothing_owed(alloc)?,
        })
    }

    /// Notes an entry.
    #[tactic(auto, unfolding(crate::specs::Sessions::session_after))]
    pub(crate) fn put_entry(&mut self, entry: Entry) -> Result<(), NoMemory>
        ensures { OnOk result (self.new ≡ session_after self.old entry) }
    {
        match entry {
            Entry::Admin { number } => self.put_mark(Mark::Admin { number }),
            Entry::Reset { series } => self.put_mark(Mark::Series { series }),
            Entry::Send {
                lease,
                library,
                ordinal,
                number,
            } => {
                let place = self.marks.len();
                self.put_deed(
                    library,
                    Deed::Sent {
                        lease,
                        ordinal,
                        place,
                    },
                )?;
                self.put_mark(Mark::Send { number })
            }
            Entry::Release {
                lease,
                library,
                count,
                heir,
            } => self.put_deed(library, Deed::GaveBack { lease, count, heir }),
            _ => Ok(()),
        }
    }

    fn put_mark(&mut self, mark: Mark) -> Result<(), NoMemory>
        ensures { OnOk result (self.new ≡ with_mark mark self.old) }
    {
        self.marks.push(mark)?;
        Ok(())
    }

    fn put_deed(&mut self, library: u8, deed: Deed) -> Result<(), NoMemory>
        ensures { OnOk result (self.new ≡ with_deed library deed self.old) }
    {
        let place = usize::from(library);
        if place < self.owed.len() {
            self.owed[place].push(deed)?;
        }
        Ok(())
    }

    /// Notes a holding.
    #[tactic(auto, unfolding(crate::specs::Sessions::with_holding))]
    pub(crate) fn put_holding(&mut self, holding: Holding) -> Result<(), NoMemory>
        ensures { OnOk result (self.new ≡ with_holding holding self.old) }
    {
        if holding.library != 0 {
            self.readers.push(Reader {
                library: holding.library,
                next: holding.from,
                end: holding.end,
            })?;
        }
        Ok(())
    }

    /// How many `in` lines came.
    pub(crate) fn in_len(&self) -> usize
        ensures { result ≡ length (self.now).inbound }
    {
        self.inbound.len()
    }

    pub(crate) fn put_message(&mut self, body: Bytes) -> Result<(), NoMemory>
        ensures { OnOk result (self.new ≡ record (self.old) { inbound = (self.old).inbound ++ body ∷ [] }) }
    {
        self.inbound.push(body)?;
        Ok(())
    }

    /// Whether each entry that has an `out` or a `series` line got it.
    pub(crate) fn has_all_bodies(&self) -> bool
        ensures { result ≡ (length (self.now).bodies == length (self.now).marks) }
    {
        self.bodies.len() == self.marks.len()
    }

    /// The entry whose `out` or `series` line comes next.
    fn next_mark(&self) -> Option<Mark>
        ensures { result ≡ next_mark self.now }
    {
        self.marks.get(self.bodies.len()).copied()
    }

    /// Whether this is the `out` line of that entry.
    pub(crate) fn fits_mark(&self, number: u64, body: &[u8]) -> bool
        ensures { result ≡ fits_mark (next_mark self.now) number body.now }
    {
        match self.next_mark() {
            Some(Mark::Admin { number: n }) => number == n && is_session_body(body),
            Some(Mark::Send { number: n }) => number == n && is_fit_body(body),
            Some(Mark::Series { .. }) | None => false,
        }
    }

    /// Whether this is its `series` line.
    pub(crate) fn fits_series(&self, series: u32) -> bool
        ensures { result ≡ fits_series (next_mark self.now) series }
    {
        match self.next_mark() {
            Some(Mark::Series { series: n }) => series == n,
            _ => false,
        }
    }

    pub(crate) fn put_body(&mut self, body: Bytes) -> Result<(), NoMemory>
        ensures { OnOk result (self.new ≡ record (self.old) { bodies = (self.old).bodies ++ body ∷ [] }) }
    {
        self.bodies.push(body)?;
        Ok(())
    }

    /// Whether the message is the next one of this lease, which is the library's. If so, it is read.
    #[tactic(auto, unfolding(crate::specs::Sessions::is_read, crate::specs::Sessions::session_after_read))]
    pub(crate) fn read(&mut self, library: u8, lease: u32, pos: u64, body: &[u8]) -> bool
        ensures right { result ≡ is_read self.old library lease pos body.now }
        ensures after { IsTrue result → self.new ≡ session_after_read lease pos self.old }
    {
        if lease == 0 {
            return false;
        }
        let place = lease as usize - 1;
        if place >= self.readers.len() {
            return false;
        }
        let reader = self.readers[place];
        let next = reader.library == library && reader.next == pos && pos < reader.end;
        if !next || !has_bytes(&self.inbound, pos as usize, body) {
            return false;
        }
        self.readers[place].next = pos + 1;
        true
    }

    /// The library's next send or release.
    fn first_owed(&self, library: u8) -> Option<Deed>
        ensures { result ≡ slice_get (owed_by (self.now).owed library) 0 }
    {
        let place = usize::from(library);
        if place < self.owed.len() {
            self.owed[place].first()
        } else {
            None
        }
    }

    /// It was told.
    #[tactic(auto, unfolding(crate::specs::Sessions::session_after_deed))]
    fn pop_owed(&mut self, library: u8)
        ensures { self.new ≡ session_after_deed library self.old }
    {
        let place = usize::from(library);
        if place < self.owed.len() {
            self.owed[place].pop();
        }
    }

    /// Whether the library's next send or release is this send. If so, it was told.
    #[tactic(auto, unfolding(crate::specs::Sessions::is_sent))]
    pub(crate) fn tell_sent(&mut self, library: u8, lease: u32, ordinal: u32, body: &[u8]) -> bool
        ensures right { result ≡ is_sent self.old library lease ordinal body.now }
        ensures after { IsTrue result → self.new ≡ session_after_deed library self.old }
    {
        let right = match self.first_owed(library) {
            Some(
                Deed::Sent {
                    lease: l,
                    ordinal: o,
                    place,
                },
            ) => l == lease && o == ordinal && has_bytes(&self.bodies, place, body),
            _ => false,
        };
        if right {
            self.pop_owed(library);
        }
        right
    }

    /// Whether the library's next send or release is this release. If so, it was told.
    #[tactic(auto, unfolding(crate::specs::Sessions::is_given_back))]
    pub(crate) fn tell_release(&mut self, library: u8, lease: u32, count: u32, heir: u8) -> bool
        ensures right { result ≡ is_given_back self.old library lease count heir }
        ensures after { IsTrue result → self.new ≡ session_after_deed library self.old }
    {
        let right = match self.first_owed(library) {
            Some(
                Deed::GaveBack {
                    lease: l,
                    count: c,
                    heir: h,
                },
            ) => l == lease && c == count && h == heir,
            _ => false,
        };
        if right {
            self.pop_owed(library);
        }
        right
    }

    /// Whether each send and release was told.
    #[tactic(auto, unfolding(crate::specs::Sessions::all_told))]
    pub(crate) fn all_told(&self) -> bool
        ensures { result ≡ all_told self.now }
    {
        self.owed.iter().all(|owed| owed.is_told())
    }
}

fn nothing_owed(alloc: Global) -> Result<Vec<Owed>, NoMemory>
    ensures { IfOk result (λ owed. owed.items ≡ replicate LIBRARY_PLACES []) }
{
    let mut owed = Vec::with_capacity(alloc, LIBRARY_PLACES)?;
    for library in 0..LIBRARY_PLACES {
        owed.push(Owed::new(alloc))?;
    }
    Ok(owed)
}

/// Whether the list has these bytes at the place.
fn has_bytes(list: &[Bytes], place: usize, bytes: &[u8]) -> bool
    ensures { result ≡ has_bytes list.now place bytes.now }
{
    match list.get(place) {
        Some(found) => found.as_slice() == bytes,
        None => false,
    }
}

/// Whether a body is that of a session message.
#[tactic(auto, unfolding(crate::specs::Sessions::is_session_body))]
fn is_session_body(body: &[u8]) -> bool
    ensures { result ≡ is_session_body body.now }
{
    if body.len() < 5 {
        return false;
    }
    &body[..3] == b"35=".as_slice() && is_session_type(&body[3..4]) && body[4] == 1
}

/// Whether a library may send a body.
#[tactic(auto, unfolding(crate::specs::Sessions::is_fit_body))]
fn is_fit_body(body: &[u8]) -> bool
    ensures { result ≡ is_fit_body body.now }
{
    check_body(body).is_ok()
}
