//! What an engine leaves.

ghost use Rattle.std.specs.Prelude.{◌≡◌, ◌≤◌, ◌↔◌, [], IfOk, IsTrue, length, map, vec_capacity};
ghost use Rattle.std.specs.List.{All};
ghost use Rattle.engine_end.specs.Room.{HasRoomFor};
ghost use Rattle.engine_end.specs.Records.{HasLawfulJournal, IsLeftBy, connection_records, left_in, left_of};

use connection_core::{ConnRecord, Connection};
use gate_io::{NoMemory, Rows};
use lease_core::Record;
use lease_desk::LeaseDesk;
use library_desk::{LibraryDesk, Stray};
use session_book::{SessionBook, SessionRecord};
use std::alloc::Global;
use std::marker::Model;

/// What a run of the engine leaves.
#[derive(Debug, Drop)]
pub struct EngineRecord {
    /// The sessions, in the order of their numbers.
    pub sessions: Rows<SessionRecord>,
    /// The accepted connections in the order in which they came, and behind them the dialled ones.
    pub connections: Rows<ConnRecord>,
    /// The requests for sessions that weren't configured, in order.
    pub strays: Rows<Stray>,
    /// How many connections were accepted.
    pub accepted: u32,
    /// The records of the entries that weren't handed out before, by session and in order.
    pub added: Rows<Record>,
}

/// Room for the records of sessions and connections. An engine makes it as it begins, so that handing
/// them out takes no memory.
#[derive(Drop)]
pub struct RecordRoom {
    sessions: Vec<SessionRecord>,
    connections: Vec<ConnRecord>,
    // Those of the dialled connections, until all accepted ones have their records.
    dialled: Vec<ConnRecord>,
}

impl Model for RecordRoom {
    ghost use Rattle.std.specs.Prelude.{◌≡◌, [], min, vec_capacity};
    ghost use Rattle.engine_end.specs.Room.{Room};

    ghost Value = { Room };

    ghost view = { λ r. record { sessions = vec_capacity r.sessions; connections = min (vec_capacity r.connections) (vec_capacity r.dialled) } };

    ghost invariant = { λ r. (r.sessions.items ≡ []) × (r.connections.items ≡ []) × (r.dialled.items ≡ []) };
}

impl RecordRoom {
    /// Room for the records of so many sessions and so many connections, accepted and dialled ones together.
    pub fn new(alloc: Global, sessions: usize, connections: usize) -> Result<RecordRoom, NoMemory>
        ensures { IfOk result (λ room. room ≡ record { sessions = sessions; connections = connections }) }
    {
        Ok(RecordRoom {
            sessions: Vec::with_capacity(alloc, sessions)?,
            connections: Vec::with_capacity(alloc, connections)?,
            dialled: Vec::with_capacity(alloc, connections)?,
        })
    }

    /// Whether there is room for the records of so many sessions and connections.
    fn holds(&self, sessions: usize, connections: usize) -> bool
        ensures { IsTrue result ↔ ((sessions ≤ self.now.sessions) × (connections ≤ self.now.connections)) }
    {
        sessions <= self.sessions.capacity()
            && connections <= self.connections.capacity()
            && connections <= self.dialled.capacity()
    }

    /// What sessions and connections leave as they stand, without a record of a new entry. Where there is
    /// no room for them it has none of them, nor a stray.
    pub(crate) fn fill_as_it_holds(
        self,
        alloc: Global,
        desk: LibraryDesk,
        accepted: u32,
    ) -> EngineRecord
        ensures left { HasRoomFor desk.desk.board self → IsLeftBy desk.desk.board desk.strays.items accepted [] result }
        ensures journals { All HasLawfulJournal result.sessions }
    {
        let board = &desk.desk.board;
        if !self.holds(board.sessions(), board.connections()) {
            return EngineRecord {
                sessions: Rows::of(Vec::new(alloc)),
                connections: Rows::of(Vec::new(alloc)),
                strays: Rows::of(Vec::new(alloc)),
                accepted,
                added: Rows::of(Vec::new(alloc)),
            };
        }
        self.fill(desk, accepted, Vec::new(alloc))
    }

    /// What sessions and connections leave as they stand, with the number of accepted connections and the
    /// records of the new entries. It takes no memory.
    pub fn fill(self, desk: LibraryDesk, accepted: u32, added: Vec<Record>) -> EngineRecord
        requires sessions { length desk.desk.board.sessions ≤ self.sessions }
        requires connections { length desk.desk.board.connections ≤ self.connections }
        ensures left { IsLeftBy desk.desk.board desk.strays.items accepted added.items result }
        ensures journals { All HasLawfulJournal result.sessions }
    {
        let RecordRoom {
            sessions,
            connections,
            dialled,
        } = self;
        let LibraryDesk { desk, strays, .. } = desk;
        let LeaseDesk { board, .. } = desk;
        let (books, lines) = board.into_parts();
        EngineRecord {
            sessions: Rows::of(session_records(sessions, books)),
            connections: Rows::of(connection_records(connections, dialled, lines)),
            strays: Rows::of(strays),
            accepted,
            added: Rows::of(added),
        }
    }
}

/// The records of sessions, in a list that has room for them.
fn session_records(mut records: Vec<SessionRecord>, books: Vec<SessionBook>) -> Vec<SessionRecord>
    requires empty { records.items ≡ [] }
    requires room { length books.items ≤ vec_capacity records }
    ensures left { map left_in result.items ≡ map left_of books.items }
    ensures journals { All HasLawfulJournal result.items }
{
    for book in books {
        records.push(session_record(book)).unwrap();
    }
    records
}

/// The record of a session.
fn session_record(book: SessionBook) -> SessionRecord
    ensures left { left_in result ≡ left_of book }
    ensures journal { HasLawfulJournal result }
{
    let _ = book.entries();
    book.into_record()
}

/// The records of connections, of the accepted ones first, in lists that have room for all of them.
fn connection_records(
    mut records: Vec<ConnRecord>,
    mut dialled: Vec<ConnRecord>,
    connections: Vec<Connection>,
) -> Vec<ConnRecord>
    requires empty { (records.items ≡ []) × (dialled.items ≡ []) }
    requires room { (length connections.items ≤ vec_capacity records) × (length connections.items ≤ vec_capacity dialled) }
    ensures { result.items ≡ connection_records connections.items }
{
    for connection in connections {
        if connection.is_dialled() {
            dialled.push(connection.into_record()).unwrap();
        } else {
            records.push(connection.into_record()).unwrap();
        }
    }
    records.append(&mut dialled).unwrap();
    records
}
