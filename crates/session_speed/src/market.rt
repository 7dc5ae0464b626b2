//! The steps of an order: its bytes are cut, what it asks for is carried out, a report is queued, and
//! what waits is written.

ghost use Rattle.std.specs.Prelude.{◌≡◌, ◌≤◌, [], length, false, true, IfOk, None, OnOk, IsNone};
ghost use Rattle.session_core.specs.Runs.{binds as is_logon};
ghost use Rattle.session_core.specs.declared.routing.TheConstants.{MOST_SESSIONS};
ghost use Rattle.switchboard.specs.Board.{Board, book_at, connection_at};
ghost use Rattle.switchboard.specs.Going.{is_coming};
ghost use Rattle.switchboard.specs.Happenings.{Happening, Happens};
ghost use Rattle.switchboard.specs.Sound.{bound_of};
ghost use Rattle.session_speed.specs.Market.{IsOpen};

use crate::texts::{MORNING, REPORT};
use crate::trouble::Trouble;
use book_desk::can_show;
use connection_core::{MOST_WRITTEN, OwnedPiece};
use fix_fields::{FieldError, Fields};
use fix_frame::is_body;
use gate_io::{Bytes, NoMemory};
use lease_core::{Reply, Standing, Word};
use resend_plan::LONGEST_APPLICATION_BODY;
use session_book::SessionBook;
use session_core::{Cause, MOST_SESSIONS, Names, route};
use std::alloc::Global;
use std::collections::VecDeque;
use switchboard::Switchboard;
use switchboard::laws::{boards_go_on, boards_stay_ready, ready_boards_allow};

/// The session GATE/BUYER, bound to no connection, and a connection on which nothing came.
pub fn open(alloc: Global) -> Result<Switchboard, NoMemory>
    ensures { IfOk result IsOpen }
{
    boards_stay_ready();
    let us = Vec::from_slice(alloc, b"GATE")?;
    let them = Vec::from_slice(alloc, b"BUYER")?;
    let mut board = Switchboard::new(alloc);
    board.add(SessionBook::new(alloc, us, them, 1)?)?;
    board.accept(alloc, 0, MORNING)?;
    Ok(board)
}

/// Whatever happens but that a connection comes, session and connection stay there.
fn markets_stay_open()
    ensures stays { (happening : Happening) (old new : Board) → is_coming happening ≡ false → Happens happening old new → IsOpen old → IsOpen new }
{
    boards_stay_ready();
    boards_go_on();
}

/// Library 1 gets the session.
pub fn take_session(board: &mut Switchboard) -> Result<(), Trouble>
    requires market { IsOpen board.old }
    ensures market { OnOk result (IsOpen board.new) }
{
    markets_stay_open();
    let reply = board.request(0, 1, 1, 0)?;
    if !matches!(reply, Reply::Granted { .. }) {
        return Err(Trouble::NotGranted);
    }
    Ok(())
}

/// The library that has the session and answers each order by the same report, and the engine's steps
/// around it.
#[derive(Drop)]
pub struct Answerer {
    names: Vec<Names>,
    /// The reports that are about to be shown. It is kept for its room.
    bodies: VecDeque<Bytes>,
    /// How many orders were answered.
    pub answered: u32,
    /// How many bytes were written.
    pub written: u64,
    ghost few: { length names.items ≤ MOST_SESSIONS },
    ghost none: { bodies.items ≡ [] },
}

impl Answerer {
    /// One that answered no order.
    pub fn new(alloc: Global) -> Result<Answerer, NoMemory> {
        Ok(Answerer {
            names: names(alloc)?,
            bodies: VecDeque::new(alloc),
            answered: 0,
            written: 0,
        })
    }

    /// Bytes come, and what they ask for is carried out, answered and written.
    pub fn bring(
        &mut self,
        alloc: Global,
        board: &mut Switchboard,
        bytes: &[u8],
    ) -> Result<(), Trouble>
        requires market { IsOpen board.old }
        ensures market { OnOk result (IsOpen board.new) }
    {
        take_in(board, bytes)?;
        for _piece in 0..bytes.len() {
            if !self.handle_next(alloc, board)? {
                break;
            }
        }
        self.write(alloc, board)
    }

    /// Handles the next piece, if there is one.
    fn handle_next(&mut self, alloc: Global, board: &mut Switchboard) -> Result<bool, Trouble>
        requires market { IsOpen board.old }
        ensures market { OnOk result (IsOpen board.new) }
    {
        match next(alloc, board)? {
            None => Ok(false),
            Some(OwnedPiece::Garbled { .. }) => Err(Trouble::Garbled),
            Some(OwnedPiece::Good(body)) => {
                self.handle(alloc, board, body)?;
                Ok(true)
            }
        }
    }

    /// The first message binds the session, and each later one is answered.
    fn handle(
        &mut self,
        alloc: Global,
        board: &mut Switchboard,
        body: Vec<u8>,
    ) -> Result<(), Trouble>
        requires market { IsOpen board.old }
        ensures market { OnOk result (IsOpen board.new) }
    {
        if board.connection(0).session().is_none() {
            return self.greet(alloc, board, body);
        }
        hear(alloc, board, body)?;
        self.report(alloc, board)
    }

    /// The first message binds the session.
    fn greet(
        &mut self,
        alloc: Global,
        board: &mut Switchboard,
        body: Vec<u8>,
    ) -> Result<(), Trouble>
        requires market { IsOpen board.old }
        ensures market { OnOk result (IsOpen board.new) }
    {
        let connection = board.connection(0);
        if connection.has_ended() || connection.session().is_some() {
            return Err(Trouble::NotBound);
        }
        let names = self.names.as_slice();
        if board.session(0).bound().is_some() || why_refused(alloc, &body, names)?.is_some() {
            return Err(Trouble::NotBound);
        }
        bind(alloc, board, names, body)
    }

    /// A report is shown, and waits on the connection.
    fn report(&mut self, alloc: Global, board: &mut Switchboard) -> Result<(), Trouble>
        requires market { IsOpen board.old }
        ensures market { OnOk result (IsOpen board.new) }
    {
        ready_boards_allow();
        markets_stay_open();
        let w = Word {
            lease: 1,
            owner: 1,
            standing: Standing::Active,
            count: self.answered.saturating_add(1),
        };
        let book = board.session(0);
        if !can_show(book, w) || w.count.saturating_sub(book.word().count) != 1 {
            return Err(Trouble::NotShown);
        }
        if !is_body(REPORT) || REPORT.len() > LONGEST_APPLICATION_BODY {
            return Err(Trouble::NotShown);
        }
        board.reserve(alloc, 0, 3)?;
        let body = Vec::from_slice(alloc, REPORT)?;
        self.bodies.push_back(Bytes::of(body))?;
        board.show(alloc, 0, w, &mut self.bodies, MORNING, MORNING);
        self.answered = w.count;
        Ok(())
    }

    /// What waits is written.
    fn write(&mut self, alloc: Global, board: &mut Switchboard) -> Result<(), Trouble>
        requires market { IsOpen board.old }
        ensures market { OnOk result (IsOpen board.new) }
    {
        prepare(board)?;
        let n = wrote(board);
        self.written = self.written.saturating_add(n as u64);
        Ok(())
    }
}

/// Bytes come, if the connection stands and has room for them.
fn take_in(board: &mut Switchboard, bytes: &[u8]) -> Result<(), Trouble>
    requires market { IsOpen board.old }
    ensures market { OnOk result (IsOpen board.new) }
{
    markets_stay_open();
    let connection = board.connection(0);
    if connection.has_ended() || bytes.len() > connection.room() {
        return Err(Trouble::NoRoom);
    }
    board.take_in(0, bytes)?;
    Ok(())
}

/// The next piece, if there is one and the connection stands.
fn next(alloc: Global, board: &mut Switchboard) -> Result<Option<OwnedPiece>, Trouble>
    requires market { IsOpen board.old }
    ensures market { OnOk result (IsOpen board.new) }
{
    markets_stay_open();
    if board.connection(0).has_ended() {
        return Err(Trouble::Ended);
    }
    let piece = board.next(alloc, 0)?;
    Ok(piece)
}

/// A message comes on the connection to which the session is bound.
fn hear(alloc: Global, board: &mut Switchboard, body: Vec<u8>) -> Result<(), Trouble>
    requires market { IsOpen board.old }
    ensures market { OnOk result (IsOpen board.new) }
{
    ready_boards_allow();
    markets_stay_open();
    let Some(k) = board.place(0) else {
        return Err(Trouble::NotBound);
    };
    let end = board.receive(alloc, 0, k, body, MORNING)?;
    match end {
        None => Ok(()),
        Some(_) => Err(Trouble::Ended),
    }
}

/// The session is bound to the connection.
fn bind(
    alloc: Global,
    board: &mut Switchboard,
    _names: &[Names],
    body: Vec<u8>,
) -> Result<(), Trouble>
    requires market { IsOpen board.old }
    requires logon { is_logon _names.now body.items ≡ true }
    requires stands { IsNone (connection_at board.old 0).cause }
    requires unbound { IsNone (connection_at board.old 0).session }
    requires free { bound_of (book_at board.old 0) ≡ None }
    ensures market { OnOk result (IsOpen board.new) }
{
    markets_stay_open();
    let end = board.bind(alloc, 0, 0, body, MORNING)?;
    match end {
        None => Ok(()),
        Some(_) => Err(Trouble::Ended),
    }
}

/// The texts of what waits are made.
fn prepare(board: &mut Switchboard) -> Result<(), Trouble>
    requires market { IsOpen board.old }
    ensures market { OnOk result (IsOpen board.new) }
{
    ready_boards_allow();
    markets_stay_open();
    let Some(k) = board.place(0) else {
        return Err(Trouble::NotBound);
    };
    board.prepare(0, k, MOST_WRITTEN)?;
    Ok(())
}

/// What waits was written. Answers how many bytes.
fn wrote(board: &mut Switchboard) -> usize
    requires market { IsOpen board.old }
    ensures market { IsOpen board.new }
{
    markets_stay_open();
    let n = board.connection(0).waiting(MOST_WRITTEN).len();
    board.wrote(0, n);
    n
}

/// Why a first message binds no session of these names.
fn why_refused(alloc: Global, body: &[u8], names: &[Names]) -> Result<Option<Cause>, NoMemory>
    requires { length names.now ≤ MOST_SESSIONS }
    ensures { IfOk result (λ why. why ≡ None → is_logon names.now body.now ≡ true) }
{
    match Fields::read(alloc, body) {
        Ok(fields) => Ok(route(&fields, names).err()),
        Err(FieldError::OutOfMemory) => Err(NoMemory::OutOfMemory),
        Err(_) => Ok(Some(Cause::NotLogon)),
    }
}

fn names(alloc: Global) -> Result<Vec<Names>, NoMemory>
    ensures { IfOk result (λ names. length names.items ≡ 1) }
{
    let mut names = Vec::new(alloc);
    names.push(Names {
        us: Bytes::of(Vec::from_slice(alloc, b"GATE")?),
        them: Bytes::of(Vec::from_slice(alloc, b"BUYER")?),
    })?;
    Ok(names)
}
