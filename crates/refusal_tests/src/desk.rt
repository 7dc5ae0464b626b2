//! A session's book with its connection, of which each call is made only where it may be.
ghost use Rattle.std.specs.Prelude.{◌≡◌, ◌≤◌, IfOk, IsSome, None, OnOk, false, length, true};
ghost use Rattle.std.specs.List.{All};
ghost use Rattle.lease_core.specs.State.{state_of};
ghost use Rattle.resend_plan.specs.Fit.{IsFit};
ghost use Rattle.session_core.specs.Runs.{binds};
ghost use Rattle.session_book.specs.Records.{HasNoted, HasNotedAll};

use crate::states::State;
use crate::texts::T;
use book_desk::can_show;
use connection_core::{Connection, MOST_WRITTEN, OwnedPiece, items_stay_queued};
use fix_fields::{FieldError, Fields};
use fix_frame::{LEAST_ROOM, LONGEST_FRAME};
use gate_io::{Bytes, LAST_MOMENT, NoMemory};
use lease_core::{MOST_LIBRARIES, Standing, Word};
use session_book::{Revival, SessionBook, Unkept};
use session_core::{Cause, MOST_SESSIONS, Names, route};
use std::alloc::Global;
use std::collections::VecDeque;
use std::marker::Model;

/// How long the session waits for an heir, in milliseconds.
const HOLD: u64 = 2_000;

/// The HeartBtInt of a session that dials, in seconds.
const HEART: u32 = 30;

/// The session GATE/BUYER with a connection. It can be granted twice.
#[derive(Drop)]
pub struct Desk {
    book: SessionBook,
    dials: bool,
    connection: Connection,
    stands: bool,
}

impl Model for Desk {
    ghost use Rattle.refusal_tests.specs.Shop.{Shop, IsShop};
    ghost use Rattle.std.specs.Coded.{codes};
    ghost use Rattle.seq_gaps.specs.Line.{line_code};
    ghost use Rattle.session_core.specs.contracts.tasks.Task as task;

    ghost Value = { Shop };

    ghost coded = { Prim.hlevel (codes, line_code task.the_row.coded) };

    ghost view = { λ d. record { book = d.book.book; dials = d.dials; connection = d.connection; stands = d.stands } };

    ghost invariant = { λ d. IsShop (record { book = d.book.book; dials = d.dials; connection = d.connection; stands = d.stands }) };
}

impl Desk {
    /// A session that accepts, and a connection that was accepted.
    pub fn accepting(alloc: Global) -> Result<Desk, NoMemory> {
        items_stay_queued();
        let us = Vec::from_slice(alloc, b"GATE")?;
        let them = Vec::from_slice(alloc, b"BUYER")?;
        Ok(Desk {
            book: SessionBook::new(alloc, us, them, 2)?,
            dials: false,
            connection: Connection::accepted(alloc, 0, T)?,
            stands: false,
        })
    }

    /// A session that dials, and a connection that was dialled for it.
    pub fn dialling(alloc: Global) -> Result<Desk, NoMemory> {
        items_stay_queued();
        let us = Vec::from_slice(alloc, b"GATE")?;
        let them = Vec::from_slice(alloc, b"BUYER")?;
        let nothing = Revival::new(alloc, 2)?;
        Ok(Desk {
            book: SessionBook::resume(alloc, nothing, us, them, Some(HEART), 1, 0)?,
            dials: true,
            connection: Connection::dialled(alloc, 0, T, 0)?,
            stands: false,
        })
    }

    /// A session that goes on behind what was read, and a connection that was accepted.
    pub fn resuming(alloc: Global, revival: Revival) -> Result<Desk, NoMemory> {
        items_stay_queued();
        let us = Vec::from_slice(alloc, b"GATE")?;
        let them = Vec::from_slice(alloc, b"BUYER")?;
        Ok(Desk {
            book: SessionBook::resume(alloc, revival, us, them, None, 2, T + HOLD)?,
            dials: false,
            connection: Connection::accepted(alloc, 1, T)?,
            stands: false,
        })
    }

    /// What the session and its connection have.
    pub fn state(&self) -> State {
        let log = self.book.outbound();
        let series = log.series();
        State {
            entries: self.book.entries().len(),
            inbound: self.book.inbound().len(),
            series,
            outbound: log.len_of(series).unwrap_or(0),
            expected: self.book.expected(),
            waiting: self.connection.waiting_items(),
            text: self.connection.waiting(MOST_WRITTEN).len(),
            held: (LONGEST_FRAME + LEAST_ROOM).saturating_sub(self.connection.room()),
        }
    }

    /// Bytes come, if there is room for them.
    pub fn take_in(&mut self, bytes: &[u8]) -> Result<bool, NoMemory> {
        if self.connection.has_ended() || bytes.len() > self.connection.room() {
            return Ok(false);
        }
        self.connection.take_in(bytes)?;
        Ok(true)
    }

    /// The next piece, if there is one.
    pub fn next(&mut self, alloc: Global) -> Result<Option<OwnedPiece>, NoMemory> {
        if self.connection.has_ended() {
            return Ok(None);
        }
        let piece = self.connection.next(alloc)?;
        Ok(piece)
    }

    /// The texts of what waits are made.
    pub fn prepare(&mut self) -> Result<(), NoMemory> {
        book_desk::prepare(&self.book, &mut self.connection, MOST_WRITTEN)
    }

    /// The texts that were made.
    pub fn waiting(&self) -> &[u8] {
        self.connection.waiting(MOST_WRITTEN)
    }

    /// A Logon binds the session to the connection, if it may.
    pub fn bind(&mut self, alloc: Global, body: Vec<u8>) -> Result<bool, NoMemory> {
        let names = names(alloc)?;
        if why_refused(alloc, body.as_slice(), names.as_slice())?.is_some() {
            return Ok(false);
        }
        if self.dials || self.stands || self.book.bound().is_some() {
            return Ok(false);
        }
        self.bind_routed(alloc, body, names)
    }

    fn bind_routed(
        &mut self,
        alloc: Global,
        body: Vec<u8>,
        names: Vec<Names>,
    ) -> Result<bool, NoMemory>
        requires unbound { (state_of self.old.book.entries).bound ≡ None }
        requires accepts { self.old.dials ≡ false }
        requires routed { binds names.items body.items ≡ true }
        requires before { self.old.stands ≡ false }
    {
        let out = self.connection.outbox();
        let end = book_desk::bind(alloc, &mut self.book, out, 0, body, T)?;
        self.stands = end.is_none();
        Ok(self.stands)
    }

    /// The session asks for a Logon on the connection, if it dials and is bound to none.
    pub fn dial(&mut self, alloc: Global) -> Result<bool, NoMemory> {
        if !self.dials || self.book.bound().is_some() {
            return Ok(false);
        }
        self.stands = false;
        let out = self.connection.outbox();
        book_desk::dial(alloc, &mut self.book, out, 0, T)?;
        self.stands = true;
        Ok(true)
    }

    /// A message comes, if the session is bound and on.
    pub fn receive(&mut self, alloc: Global, body: Vec<u8>) -> Result<bool, NoMemory> {
        if !self.stands {
            return Ok(false);
        }
        let out = self.connection.outbox();
        let _end = book_desk::receive(alloc, &mut self.book, out, body, T)?;
        Ok(true)
    }

    /// The clock stands so many milliseconds past the morning's beginning.
    pub fn tick(&mut self, alloc: Global, past: u64) -> Result<bool, NoMemory> {
        let at = T.saturating_add(past).min(LAST_MOMENT);
        let out = self.connection.outbox();
        let _end = book_desk::tick(alloc, &mut self.book, out, at)?;
        Ok(true)
    }

    /// The connection ends, if the session is bound to one.
    pub fn leave(&mut self) -> Result<bool, NoMemory> {
        self.stands = false;
        let Some(c) = self.book.bound() else {
            return Ok(false);
        };
        book_desk::leave(&mut self.book, c)?;
        Ok(true)
    }

    /// A library asks for the session.
    pub fn request(&mut self, library: u8) -> Result<bool, NoMemory> {
        if library < 1 || library > MOST_LIBRARIES {
            return Ok(false);
        }
        let _reply = book_desk::request(&mut self.book, library, 1, 0)?;
        Ok(true)
    }

    /// The heir didn't come, if one is waited for.
    pub fn lapse(&mut self) -> Result<bool, NoMemory> {
        if self.book.reserved().is_none() {
            return Ok(false);
        }
        book_desk::lapse(&mut self.book)?;
        Ok(true)
    }

    /// The session is gathered, if the word may be shown and has so many sends.
    pub fn show(
        &mut self,
        alloc: Global,
        w: Word,
        mut bodies: VecDeque<Bytes>,
    ) -> Result<bool, NoMemory>
        requires { All IsFit bodies.items }
    {
        let sends = w.count.saturating_sub(self.book.word().count);
        if !can_show(&self.book, w) || bodies.len() != sends as usize {
            return Ok(false);
        }
        let out = self.connection.outbox();
        book_desk::reserve(alloc, &mut self.book, out, sends)?;
        let _shown = book_desk::show(alloc, &mut self.book, out, w, &mut bodies, T, T + HOLD);
        Ok(true)
    }

    /// The session is taken back, if the old word can have stood there and has so many sends.
    pub fn time_out(
        &mut self,
        alloc: Global,
        old: Word,
        mut bodies: VecDeque<Bytes>,
    ) -> Result<bool, NoMemory>
        requires { All IsFit bodies.items }
    {
        let sends = old.count.saturating_sub(self.book.word().count);
        if !can_show(&self.book, old) || bodies.len() != sends as usize {
            return Ok(false);
        }
        if matches!(old.standing, Standing::Revoked) {
            return Ok(false);
        }
        let out = self.connection.outbox();
        book_desk::reserve(alloc, &mut self.book, out, sends)?;
        let _shown = book_desk::time_out(alloc, &mut self.book, out, old, &mut bodies, T, T + HOLD);
        Ok(true)
    }

    /// The records of all entries are made. Says whether there are as many.
    pub fn keep(&self, alloc: Global) -> Result<bool, NoMemory> {
        Ok(records(alloc, &self.book)? == self.book.entries().len())
    }
}

/// The records of all entries. Answers how many there are.
fn records(alloc: Global, book: &SessionBook) -> Result<usize, NoMemory> {
    let mut unkept = Unkept::new(alloc, 0);
    note(&mut unkept, book)?;
    Ok(unkept.records(alloc, 0, book)?.len())
}

/// Notes all entries, and once more where that wants memory.
fn note(unkept: &mut Unkept, book: &SessionBook) -> Result<(), NoMemory>
    requires { HasNoted unkept.old book.now.book }
    ensures { OnOk result (HasNotedAll unkept.new book.now.book) }
{
    match unkept.note_bind(book, 1) {
        Ok(()) => Ok(()),
        Err(NoMemory::OutOfMemory) => unkept.note_bind(book, 1),
    }
}

/// Why a first message binds no session of these names.
fn why_refused(alloc: Global, body: &[u8], names: &[Names]) -> Result<Option<Cause>, NoMemory>
    requires { length names.now ≤ MOST_SESSIONS }
    ensures { IfOk result (λ why. why ≡ None → binds names.now body.now ≡ true) }
{
    match Fields::read(alloc, body) {
        Ok(fields) => Ok(route(&fields, names).err()),
        Err(FieldError::OutOfMemory) => Err(NoMemory::OutOfMemory),
        Err(_) => Ok(Some(Cause::NotLogon)),
    }
}

fn names(alloc: Global) -> Result<Vec<Names>, NoMemory>
    ensures { IfOk result (λ names. length names.items ≡ 1) }
{
    let mut names = Vec::new(alloc);
    names.push(Names {
        us: Bytes::of(Vec::from_slice(alloc, b"GATE")?),
        them: Bytes::of(Vec::from_slice(alloc, b"BUYER")?),
    })?;
    Ok(names)
}
