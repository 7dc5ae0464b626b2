//! The sessions and the connections, and what can be read of them.

ghost use Rattle.std.specs.Prelude.{◌≡◌, ◌≤◌, ◌<◌, ◌+◌, ◌++◌, ◌∷◌, [], length, None, OnOk, OnErr, IfOk};
ghost use Rattle.std.specs.Vec.{vec_len, vec_capacity};
ghost use Rattle.connection_core.specs.Connection.{fresh, room};
ghost use Rattle.connection_core.specs.Outgoing.{no_outgoing};
ghost use Rattle.connection_core.specs.declared.limits.TheConstants.{MOST_READ};
ghost use Rattle.lease_core.specs.State.{state_of};
ghost use Rattle.switchboard.specs.Board.{connection_at, place_at, session_at, with_connections, with_session_more};
ghost use Rattle.switchboard.specs.Happenings.{Happens, IsNewNumber, accepts};
ghost use Rattle.switchboard.specs.Sound.{IsLawful};

use connection_core::{Connection, Outbox};
use gate_io::NoMemory;
use session_book::SessionBook;
use std::alloc::Global;
use std::marker::Model;

/// The sessions, the connections, and for each session the place of the connection to which it is
/// bound.
pub struct Switchboard {
    pub(crate) sessions: Vec<SessionBook>,
    pub(crate) places: Vec<Option<usize>>,
    pub(crate) connections: Vec<Connection>,
    /// Where the items of a session go that is bound to none: there are none.
    pub(crate) nowhere: Outbox,
}

impl Drop for Switchboard {
    fn drop(self) {
        let Switchboard {
            sessions: _,
            places: _,
            connections: _,
            nowhere: _,
        } = self;
    }
}

impl Model for Switchboard {
    ghost use Rattle.std.specs.Prelude.{◌≡◌, length};
    ghost use Rattle.switchboard.specs.Board.{Board};
    ghost use Rattle.std.specs.Coded.{codes};
    ghost use Rattle.session_book.specs.Line.{line_code};
    ghost use Rattle.session_core.specs.contracts.tasks.Task as task;

    ghost Value = { Board };

    ghost coded = { Prim.hlevel (codes, line_code task.the_row.coded) };

    ghost view = { λ b. record { sessions = b.sessions.items; places = b.places.items; connections = b.connections.items; nowhere = b.nowhere } };

    ghost invariant = { λ b. length b.places.items ≡ length b.sessions.items };
}

impl Switchboard {
    /// No session and no connection. It takes no memory.
    pub fn new(alloc: Global) -> Switchboard
        ensures sessions { result.sessions ≡ [] }
        ensures places { result.places ≡ [] }
        ensures connections { result.connections ≡ [] }
        ensures nowhere { result.nowhere.outgoing ≡ no_outgoing }
    {
        Switchboard {
            sessions: Vec::new(alloc),
            places: Vec::new(alloc),
            connections: Vec::new(alloc),
            nowhere: Outbox::new(alloc),
        }
    }

    /// Adds the next session, which is bound to no connection.
    pub fn add(&mut self, book: SessionBook) -> Result<(), NoMemory>
        requires { (state_of book.book.entries).bound ≡ None }
        ensures ok { OnOk result (self.new ≡ with_session_more book self.old) }
        ensures lawful { IsLawful book.book }
        ensures err { OnErr result (self.new ≡ self.old) }
    {
        is_lawful(&book);
        room_for_one(&mut self.places, &mut self.sessions)?;
        self.places.push(None).unwrap();
        self.sessions.push(book).unwrap();
        Ok(())
    }

    /// A connection was accepted, with its number and the moment in milliseconds. Answers its place.
    pub fn accept(&mut self, alloc: Global, number: u32, moment: u64) -> Result<usize, NoMemory>
        ensures place { IfOk result (λ k. k ≡ length self.old.connections) }
        ensures ok { IfOk result (λ k. self.new ≡ with_connections (self.old.connections ++ fresh number moment (connection_at self.new k).out ∷ []) self.old) }
        ensures none_waits { IfOk result (λ k. (connection_at self.new k).out.outgoing ≡ no_outgoing) }
        ensures room { IfOk result (λ k. MOST_READ ≤ room (connection_at self.new k)) }
        ensures happens { OnOk result (IsNewNumber self.old number → Happens (accepts number moment) self.old self.new) }
        ensures err { OnErr result (self.new ≡ self.old) }
    {
        self.connections.reserve(1)?;
        let connection = Connection::accepted(alloc, number, moment)?;
        self.connections.push(connection).unwrap();
        Ok(self.connections.len() - 1)
    }

    /// How many sessions there are.
    pub fn sessions(&self) -> usize
        ensures sessions { result ≡ length self.now.sessions }
        ensures places { result ≡ length self.now.places }
    {
        self.sessions.len()
    }

    /// How many connections there are.
    pub fn connections(&self) -> usize
        ensures { result ≡ length self.now.connections }
    {
        self.connections.len()
    }

    /// A session by its number.
    pub fn session(&self, s: usize) -> &SessionBook
        requires { s < length self.now.sessions }
        ensures { result.now ≡ session_at self.now s }
    {
        &self.sessions[s]
    }

    /// A connection by its place.
    pub fn connection(&self, k: usize) -> &Connection
        requires { k < length self.now.connections }
        ensures { result.now ≡ connection_at self.now k }
    {
        &self.connections[k]
    }

    /// The place of the connection to which a session is bound.
    pub fn place(&self, s: usize) -> Option<usize>
        requires { s < length self.now.sessions }
        ensures { result ≡ place_at self.now s }
    {
        self.places[s]
    }

    /// The sessions and the connections, in order.
    pub fn into_parts(self) -> (Vec<SessionBook>, Vec<Connection>)
        ensures sessions { result.0.items ≡ self.sessions }
        ensures connections { result.1.items ≡ self.connections }
    {
        let Switchboard {
            sessions,
            places: _,
            connections,
            nowhere: _,
        } = self;
        (sessions, connections)
    }
}

/// What holds of every session holds of this one.
pub(crate) fn is_lawful(session: &SessionBook)
    ensures { IsLawful session.now.book }
{
    let _ = session.expected();
}

// Room for one more session.
fn room_for_one(
    places: &mut Vec<Option<usize>>,
    sessions: &mut Vec<SessionBook>,
) -> Result<(), NoMemory>
    ensures places { places.new.items ≡ places.old.items }
    ensures sessions { sessions.new.items ≡ sessions.old.items }
    ensures room_of_places { OnOk result (vec_len places.new < vec_capacity places.new) }
    ensures room_of_sessions { OnOk result (vec_len sessions.new < vec_capacity sessions.new) }
{
    places.reserve(1)?;
    sessions.reserve(1)?;
    Ok(())
}
