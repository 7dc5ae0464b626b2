//! A session's book with the last connection and the one before that, of which each call is made
//! only where it may be.
ghost use Rattle.std.specs.Prelude.{◌≡◌, ◌≤◌, ◌<◌, IfOk, IfSome, IsSome, None, false, length, true};
ghost use Rattle.std.specs.List.{All};
ghost use Rattle.lease_core.specs.State.{state_of};
ghost use Rattle.resend_plan.specs.Fit.{IsFit};
ghost use Rattle.session_core.specs.Runs.{binds};
ghost use Rattle.session_book.specs.Waiting.{CanBeWritten};
ghost use Rattle.connection_core.specs.Outgoing.{no_outgoing};

use crate::texts::{T, soh};
use book_desk::can_show;
use connection_core::{ConnRecord, Connection, OwnedPiece, items_stay_queued};
use fix_fields::{FieldError, Fields};
use gate_io::{Bytes, LAST_MOMENT, NoMemory};
use lease_core::{MOST_LIBRARIES, Reply, Shown, Standing, Word};
use seq_gaps::MAX_NUMBER;
use session_book::{Revival, SessionBook};
use session_core::{Cause, MOST_SESSIONS, Names, route};
use std::alloc::Global;
use std::collections::VecDeque;
use std::marker::Model;
use std::mem;

/// How long the session waits for an heir, in milliseconds.
const HOLD: u64 = 2_000;

/// The HeartBtInt of a session that dials, in seconds.
const HEART: u32 = 30;

/// The session GATE/BUYER with its connections, of which the session is bound to the last where that
/// stands.
#[derive(Drop)]
pub struct Desk {
    book: SessionBook,
    dials: bool,
    connection: Connection,
    past: Connection,
    stands: bool,
    moment: u64,
    count: u32,
    records: Vec<ConnRecord>,
}

impl Model for Desk {
    ghost use Rattle.book_tests.specs.Shop.{Shop, IsShop};
    ghost use Rattle.std.specs.Coded.{codes};
    ghost use Rattle.seq_gaps.specs.Line.{line_code};
    ghost use Rattle.session_core.specs.contracts.tasks.Task as task;

    ghost Value = { Shop };

    ghost coded = { Prim.hlevel (codes, line_code task.the_row.coded) };

    ghost view = { λ d. record { book = d.book.book; dials = d.dials; connection = d.connection; past = d.past; stands = d.stands; moment = d.moment } };

    ghost invariant = { λ d. IsShop (record { book = d.book.book; dials = d.dials; connection = d.connection; past = d.past; stands = d.stands; moment = d.moment }) };
}

impl Desk {
    /// A session that accepts connections. It can be granted `leases` times.
    pub fn new(alloc: Global, leases: u32) -> Result<Desk, NoMemory> {
        let us = Vec::from_slice(alloc, b"GATE")?;
        let them = Vec::from_slice(alloc, b"BUYER")?;
        let connection = Connection::accepted(alloc, 0, T)?;
        let past = Connection::accepted(alloc, 0, T)?;
        let book = SessionBook::new(alloc, us, them, leases)?;
        Ok(Desk::with_book(alloc, book, false, connection, past))
    }

    /// A session that dials, and expects this number.
    pub fn dialling(alloc: Global, leases: u32, expected: u32) -> Result<Desk, NoMemory>
        requires from { 1 ≤ expected }
        requires to { expected ≤ MAX_NUMBER }
    {
        let us = Vec::from_slice(alloc, b"GATE")?;
        let them = Vec::from_slice(alloc, b"BUYER")?;
        let connection = Connection::accepted(alloc, 0, T)?;
        let past = Connection::accepted(alloc, 0, T)?;
        let nothing = Revival::new(alloc, leases)?;
        let book = SessionBook::resume(alloc, nothing, us, them, Some(HEART), expected, 0)?;
        Ok(Desk::with_book(alloc, book, true, connection, past))
    }

    /// Nothing waits on the two connections.
    fn with_book(
        alloc: Global,
        book: SessionBook,
        dials: bool,
        connection: Connection,
        past: Connection,
    ) -> Desk
        requires accepts { dials ≡ false → book.book.machine.dials ≡ None }
        requires asks { dials ≡ true → IsSome book.book.machine.dials }
        requires here { connection.out.outgoing ≡ no_outgoing }
        requires there { past.out.outgoing ≡ no_outgoing }
    {
        items_stay_queued();
        Desk {
            book,
            dials,
            connection,
            past,
            stands: false,
            moment: T,
            count: 0,
            records: Vec::new(alloc),
        }
    }

    pub fn book(&self) -> &SessionBook {
        &self.book
    }

    /// The last connection.
    pub fn connection(&self) -> &Connection {
        &self.connection
    }

    /// The clock stands at so many milliseconds past the morning's beginning.
    pub fn set(&mut self, past: u64) {
        self.moment = T.saturating_add(past).min(LAST_MOMENT);
    }

    /// The next connection is accepted, if the session is bound to none.
    pub fn connect(&mut self, alloc: Global) -> Result<bool, NoMemory> {
        if self.book.bound().is_some() {
            return Ok(false);
        }
        let next = Connection::accepted(alloc, self.count, self.moment)?;
        self.put(next)?;
        Ok(true)
    }

    /// The session dials the next connection, if it is one that dials and is bound to none.
    pub fn dial(&mut self, alloc: Global) -> Result<bool, NoMemory> {
        if !self.dials || self.book.bound().is_some() {
            return Ok(false);
        }
        let number = self.count;
        let next = Connection::dialled(alloc, number, self.moment, 0)?;
        self.put(next)?;
        let out = self.connection.outbox();
        book_desk::dial(alloc, &mut self.book, out, number, self.moment)?;
        self.stands = true;
        Ok(true)
    }

    /// Puts a connection on which nothing waits behind the others.
    fn put(&mut self, next: Connection) -> Result<(), NoMemory>
        requires { next.out.outgoing ≡ no_outgoing }
        ensures book { self.new.book ≡ self.old.book }
        ensures dials { self.new.dials ≡ self.old.dials }
    {
        items_stay_queued();
        self.records.reserve(1)?;
        let last = mem::replace(&mut self.connection, next);
        let gone = mem::replace(&mut self.past, last);
        self.records.push(gone.into_record())?;
        self.stands = false;
        self.count = self.count.saturating_add(1);
        Ok(())
    }

    /// Bytes come on the last connection, if it stands and has room for them.
    pub fn take(&mut self, alloc: Global, bytes: &[u8]) -> Result<bool, NoMemory> {
        if self.connection.has_ended() || bytes.len() > self.connection.room() {
            return Ok(false);
        }
        self.connection.take_in(bytes)?;
        self.handle_all(alloc)?;
        Ok(true)
    }

    /// Each piece that is there is handled, until the connection ends.
    fn handle_all(&mut self, alloc: Global) -> Result<(), NoMemory> {
        while let Some(piece) = self.next(alloc)? {
            if let OwnedPiece::Good(body) = piece {
                self.handle(alloc, body)?;
            }
        }
        Ok(())
    }

    /// The next piece of the last connection, or None where it ended.
    fn next(&mut self, alloc: Global) -> Result<Option<OwnedPiece>, NoMemory>
        ensures { IfOk result (λ given. IfSome given (λ piece. length self.new.connection.held < length self.old.connection.held)) }
    {
        if self.connection.has_ended() {
            return Ok(None);
        }
        let piece = self.connection.next(alloc)?;
        Ok(piece)
    }

    /// A good piece comes.
    fn handle(&mut self, alloc: Global, body: Vec<u8>) -> Result<(), NoMemory>
        ensures held { self.new.connection.held ≡ self.old.connection.held }
    {
        let end = if self.stands {
            self.receive(alloc, body)?
        } else {
            self.first(alloc, body)?
        };
        if let Some(cause) = end {
            self.end(cause)?;
        }
        Ok(())
    }

    fn receive(&mut self, alloc: Global, body: Vec<u8>) -> Result<Option<Cause>, NoMemory>
        requires { self.old.stands ≡ true }
        ensures held { self.new.connection.held ≡ self.old.connection.held }
    {
        let out = self.connection.outbox();
        let end = book_desk::receive(alloc, &mut self.book, out, body, self.moment)?;
        // Of a dialled connection it is the answer, unless another cause than a low number ends that.
        if matches!(end, None | Some(Cause::LowNumber { .. })) {
            self.connection.answer();
        }
        Ok(end)
    }

    /// The first good piece of a connection that was accepted binds it to the session, or ends it.
    fn first(&mut self, alloc: Global, body: Vec<u8>) -> Result<Option<Cause>, NoMemory>
        requires { self.old.stands ≡ false }
        ensures held { self.new.connection.held ≡ self.old.connection.held }
    {
        if self.dials {
            return Ok(Some(Cause::NoSuchSession));
        }
        let names = names(alloc)?;
        let why = why_refused(alloc, body.as_slice(), names.as_slice())?;
        if why.is_some() {
            return Ok(why);
        }
        if let Some(connection) = self.book.bound() {
            return Ok(Some(Cause::Duplicate { connection }));
        }
        self.own();
        self.bind(alloc, body, names)
    }

    /// The last connection is the session's.
    fn own(&mut self)
        ensures { self.new ≡ record self.old { connection = record self.old.connection { session = self.new.connection.session } } }
    {
        if self.connection.session().is_none() {
            self.connection.bind(0);
        }
    }

    fn bind(
        &mut self,
        alloc: Global,
        body: Vec<u8>,
        names: Vec<Names>,
    ) -> Result<Option<Cause>, NoMemory>
        requires unbound { (state_of self.old.book.entries).bound ≡ None }
        requires accepts { self.old.dials ≡ false }
        requires routed { binds names.items body.items ≡ true }
        requires before { self.old.stands ≡ false }
        ensures held { self.new.connection.held ≡ self.old.connection.held }
    {
        let out = self.connection.outbox();
        let number = self.count.saturating_sub(1);
        let end = book_desk::bind(alloc, &mut self.book, out, number, body, self.moment)?;
        self.stands = end.is_none();
        Ok(end)
    }

    /// The last connection ends.
    pub fn end(&mut self, cause: Cause) -> Result<(), NoMemory>
        ensures held { self.new.connection.held ≡ self.old.connection.held }
    {
        self.connection.end(cause);
        self.stands = false;
        if let Some(c) = self.book.bound() {
            book_desk::leave(&mut self.book, c)?;
        }
        Ok(())
    }

    /// The clock asks the session what is due.
    pub fn tick(&mut self, alloc: Global) -> Result<(), NoMemory> {
        let out = self.connection.outbox();
        let end = book_desk::tick(alloc, &mut self.book, out, self.moment)?;
        if let Some(cause) = end {
            self.end(cause)?;
        }
        Ok(())
    }

    /// A library asks for the session.
    pub fn request(&mut self, library: u8, nr: u32, from: u64) -> Result<Option<Reply>, NoMemory> {
        if library < 1 || library > MOST_LIBRARIES {
            return Ok(None);
        }
        Ok(Some(book_desk::request(&mut self.book, library, nr, from)?))
    }

    /// The heir didn't come, if one is waited for.
    pub fn lapse(&mut self) -> Result<bool, NoMemory> {
        if self.book.reserved().is_none() {
            return Ok(false);
        }
        book_desk::lapse(&mut self.book)?;
        Ok(true)
    }

    fn until(&self) -> u64 {
        self.moment.saturating_add(HOLD).min(LAST_MOMENT)
    }

    /// The session is gathered, if the word may be shown and has so many sends.
    pub fn show(
        &mut self,
        alloc: Global,
        w: Word,
        mut bodies: VecDeque<Bytes>,
    ) -> Result<Option<Shown>, NoMemory>
        requires { All IsFit bodies.items }
    {
        let until = self.until();
        let sends = w.count.saturating_sub(self.book.word().count);
        if !can_show(&self.book, w) || bodies.len() != sends as usize {
            return Ok(None);
        }
        let out = self.connection.outbox();
        book_desk::reserve(alloc, &mut self.book, out, sends)?;
        let shown = book_desk::show(
            alloc,
            &mut self.book,
            out,
            w,
            &mut bodies,
            self.moment,
            until,
        );
        Ok(Some(shown))
    }

    /// The session is taken back, if the old word can have stood there.
    pub fn time_out(
        &mut self,
        alloc: Global,
        old: Word,
        mut bodies: VecDeque<Bytes>,
    ) -> Result<Option<Shown>, NoMemory>
        requires { All IsFit bodies.items }
    {
        let until = self.until();
        let sends = old.count.saturating_sub(self.book.word().count);
        if !can_show(&self.book, old) || bodies.len() != sends as usize {
            return Ok(None);
        }
        if matches!(old.standing, Standing::Revoked) {
            return Ok(None);
        }
        let out = self.connection.outbox();
        book_desk::reserve(alloc, &mut self.book, out, sends)?;
        let shown = book_desk::time_out(
            alloc,
            &mut self.book,
            out,
            old,
            &mut bodies,
            self.moment,
            until,
        );
        Ok(Some(shown))
    }

    /// At most n bytes of what waits on the last connection are written. They are answered.
    pub fn write(&mut self, alloc: Global, n: usize) -> Result<Vec<u8>, NoMemory> {
        write(alloc, &self.book, &mut self.connection, n)
    }

    /// The same of the connection before it.
    pub fn write_past(&mut self, alloc: Global, n: usize) -> Result<Vec<u8>, NoMemory> {
        write(alloc, &self.book, &mut self.past, n)
    }

    pub fn finish(self) -> Left {
        Left {
            records: self.records,
            past: self.past.into_record(),
            last: self.connection.into_record(),
            book: self.book,
        }
    }
}

/// What a run leaves: the session's book, and the records of its connections.
pub struct Left {
    pub book: SessionBook,
    records: Vec<ConnRecord>,
    past: ConnRecord,
    last: ConnRecord,
}

impl Drop for Left {
    fn drop(self) {
        let Left {
            book: _,
            records: _,
            past: _,
            last: _,
        } = self;
    }
}

impl Left {
    /// How many connections there were. The first two were there before any that came.
    pub fn connections(&self) -> usize {
        self.records.len().saturating_add(2)
    }

    /// The record of the connection at this place.
    pub fn record(&self, place: usize) -> Option<&ConnRecord> {
        match place.checked_sub(self.records.len()) {
            None => self.records.get(place),
            Some(0) => Some(&self.past),
            Some(1) => Some(&self.last),
            Some(_) => None,
        }
    }
}

/// Why a first message binds no session of these names.
fn why_refused(alloc: Global, body: &[u8], names: &[Names]) -> Result<Option<Cause>, NoMemory>
    requires { length names.now ≤ MOST_SESSIONS }
    ensures { IfOk result (λ why. why ≡ None → binds names.now body.now ≡ true) }
{
    match Fields::read(alloc, body) {
        Ok(fields) => Ok(route(&fields, names).err()),
        Err(FieldError::OutOfMemory) => Err(NoMemory::OutOfMemory),
        Err(_) => Ok(Some(Cause::NotLogon)),
    }
}

fn names(alloc: Global) -> Result<Vec<Names>, NoMemory>
    ensures { IfOk result (λ names. length names.items ≡ 1) }
{
    let mut names = Vec::new(alloc);
    names.push(Names {
        us: Bytes::of(soh(alloc, "GATE")?),
        them: Bytes::of(soh(alloc, "BUYER")?),
    })?;
    Ok(names)
}

/// At most n bytes of what waits on a connection are written. They are answered.
fn write(
    alloc: Global,
    book: &SessionBook,
    connection: &mut Connection,
    n: usize,
) -> Result<Vec<u8>, NoMemory>
    requires written { CanBeWritten book.now.book connection.old.out.outgoing }
    ensures written { CanBeWritten book.now.book connection.new.out.outgoing }
    ensures out { connection.new ≡ record connection.old { out = connection.new.out } }
{
    book_desk::prepare(book, connection, n)?;
    let bytes = Vec::from_slice(alloc, connection.outbox().waiting(n))?;
    book_desk::write(book, connection, n);
    Ok(bytes)
}
