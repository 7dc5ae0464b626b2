//! The engine, and what an operator can ask of it.

ghost use Rattle.std.specs.Prelude.{◌≡◌, ◌-◌, ◌<◌, ◌≤◌, Some, length, slice_get};
ghost use Rattle.engine_loop.specs.Engines.{until_of};
ghost use Rattle.lease_core.specs.State.{lease_of, state_of};
ghost use Rattle.lease_desk.specs.Desk.{owner_at};
ghost use Rattle.library_desk.specs.declared.ends.EngineEnds.{EngineEnds};
ghost use Rattle.switchboard.specs.Board.{book_at, connection_at};
ghost use Rattle.switchboard.specs.Sound.{bound_of};

use engine_end::RecordRoom;
use gate_io::LAST_MOMENT;
use library_desk::LibraryDesk;
use session_core::Cause;
use wire_desk::{Dialler, WireDesk};

/// The engine: its sessions with their leases and libraries, and its connections at the wire.
#[derive(Drop)]
pub struct Engine {
    pub(crate) sessions: LibraryDesk,
    pub(crate) lines: WireDesk,
    pub(crate) dialler: Dialler,
    /// How many connections are accepted at most, and how many were.
    pub(crate) connections: u32,
    pub(crate) accepted: u32,
    /// How long an heir is waited for, in milliseconds.
    pub(crate) hold: u64,
    /// The moment of the last turn; before the first one that at which the engine began.
    pub(crate) moment: u64,
    /// Room for what the run leaves, where there is no memory for it at its end.
    pub(crate) spare: RecordRoom,
    /// Memory was wanting in a turn: nothing more is done, but that the end hands out what is there.
    pub(crate) failed: bool,
}

impl Engine {
    /// How many sessions there are.
    pub fn sessions(&self) -> usize
        ensures { result ≡ length self.now.sessions.desk.board.sessions }
    {
        self.sessions.desk.board.sessions()
    }

    /// The connection to which a session is bound, by its number.
    pub fn bound(&self, s: u16) -> Option<u32>
        requires { s < length self.now.sessions.desk.board.sessions }
        ensures { result ≡ bound_of (book_at self.now.sessions.desk.board s) }
    {
        self.sessions.desk.board.session(s as usize).bound()
    }

    /// The library that has a session, or 0 for the engine, and the number of the session's last lease,
    /// or 0 where none was granted.
    pub fn owner(&self, s: u16) -> (u8, u32)
        requires { s < length self.now.sessions.desk.board.sessions }
        ensures owner { result.0 ≡ owner_at self.now.sessions.desk.board s }
        ensures lease { result.1 ≡ lease_of (state_of (book_at self.now.sessions.desk.board s).entries) }
    {
        self.sessions.desk.board.session(s as usize).owner()
    }

    /// How many notices a library was told in all, by its number from 1 on.
    pub fn told(&self, library: u8) -> u64
        requires one { 1 ≤ library }
        requires known { library ≤ length self.now.sessions.ends.items }
        ensures { (ends : EngineEnds) → slice_get self.now.sessions.ends.items (library - 1) ≡ Some ends → result ≡ length ends.tail.pushed }
    {
        self.sessions.ends[usize::from(library - 1)].tail.pushed()
    }

    /// How many connections came, accepted or dialled.
    pub fn connections(&self) -> usize
        ensures { result ≡ length self.now.sessions.desk.board.connections }
    {
        self.sessions.desk.board.connections()
    }

    /// The number of a connection, and why it ended, if it did: of the k-th of those that came, k from 0.
    pub fn connection(&self, k: usize) -> (u32, Option<Cause>)
        requires { k < length self.now.sessions.desk.board.connections }
        ensures number { result.0 ≡ (connection_at self.now.sessions.desk.board k).number }
        ensures cause { result.1 ≡ (connection_at self.now.sessions.desk.board k).cause }
    {
        let connection = self.sessions.desk.board.connection(k);
        (connection.number(), connection.cause())
    }

    /// The moment of the last turn, in milliseconds; before the first one that at which the engine began.
    pub fn moment(&self) -> u64
        ensures { result ≡ self.now.moment }
    {
        self.moment
    }

    /// The moment until which an heir is waited for that is named now, at most `LAST_MOMENT`.
    pub(crate) fn until(&self) -> u64
        ensures { result ≡ until_of self.now }
    {
        self.moment.saturating_add(self.hold).min(LAST_MOMENT)
    }
}
