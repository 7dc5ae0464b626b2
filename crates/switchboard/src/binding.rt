//! Which connection a session is bound to.

ghost use Rattle.std.specs.Prelude.{◌≡◌, ◌≢◌, ◌<◌, ◌≤◌, ◌+◌, ◌^◌, ◌⊎◌, ◌∷◌, ◌++◌, [], length, None, Some, IsNone, IsSome, IfOk, OnOk, OnErr, List, slice_set, take, true};
ghost use Rattle.connection_core.specs.Connection.{after_end, fresh_dial};
ghost use Rattle.connection_core.specs.Outgoing.{no_outgoing};
ghost use Rattle.lease_core.specs.State.{state_of};
ghost use Rattle.lease_core.specs.declared.event.Event.TheVariants.{Binds};
ghost use Rattle.session_book.specs.Acts.{IsBegun, after_binding, after_dial, after_end as after_leaving};
ghost use Rattle.session_book.specs.Book.{with_event, with_machine, with_outbox};
ghost use Rattle.session_core.specs.Ask.{ask, after_ask};
ghost use Rattle.session_core.specs.Receive.{receive, after_receive};
ghost use Rattle.session_core.specs.Runs.{binds as is_logon};
ghost use Rattle.session_core.specs.declared.names.Names.{Names};
ghost use Rattle.session_core.specs.declared.phases.Phase.TheVariants as Phase;
ghost use Rattle.switchboard.specs.Board.{DeskChanges, PlugChanges, book_at, connection_at, desk_with, outgoing_at, place_at, session_at, with_connection};
ghost use Rattle.switchboard.specs.Happenings.{BindsTo, Happens, IsNewNumber, answers, binds, dials, ends_bound, ends_unbound};
ghost use Rattle.switchboard.specs.Stops.{NothingIsTold, StopsIn};

use crate::board::{Switchboard, is_lawful};
use connection_core::Connection;
use gate_io::{LAST_MOMENT, NoMemory};
use session_core::Cause;
use std::alloc::Global;

impl Switchboard {
    /// A session is bound to a connection by its first message, a Logon that was routed to it.
    /// Answers the cause by which the connection ends, if it does. Without memory either nothing
    /// happened, or the session is bound by its journal and some of the acts were carried out, and
    /// neither place nor connection says so.
    pub fn bind(
        &mut self,
        alloc: Global,
        s: usize,
        k: usize,
        body: Vec<u8>,
        at: u64,
    ) -> Result<Option<Cause>, NoMemory>
        requires moment { at ≤ LAST_MOMENT }
        requires session { s < length self.old.sessions }
        requires few { s < 2 ^ 16 }
        requires connection { k < length self.old.connections }
        requires unbound { IsNone (connection_at self.old k).session }
        requires free { (state_of (book_at self.old s).entries).bound ≡ None }
        ensures ok { OnOk result (desk_with self.new s (Some k) ≡ after_binding at (connection_at self.old k).number body.items (desk_with self.old s (Some k))) }
        ensures end { IfOk result (λ end. end ≡ (receive (book_at self.old s).machine body.items at).end) }
        ensures plugged { OnOk result (PlugChanges s k (Some k) self.old self.new) }
        ensures connection { OnOk result (connection_at self.new k ≡ record (connection_at self.old k) { session = Some s; out = (connection_at self.new k).out }) }
        ensures on { IfOk result (λ end. (names : List Names) → (book_at self.old s).machine.dials ≡ None → is_logon names body.items ≡ true → end ≡ None → (book_at self.new s).machine.phase ≢ Phase.Off) }
        ensures bound { OnOk result ((state_of (book_at self.new s).entries).bound ≡ Some (connection_at self.old k).number) }
        // As a happening: of a session that accepts, on a connection that stands.
        ensures binds { OnOk result ((names : List Names) → is_logon names body.items ≡ true → (book_at self.old s).machine.dials ≡ None → IsNone (connection_at self.old k).cause → BindsTo s k body.items at self.old self.new) }
        ensures happens { IfOk result (λ end. (names : List Names) → is_logon names body.items ≡ true → (book_at self.old s).machine.dials ≡ None → IsNone (connection_at self.old k).cause → end ≡ None → Happens (binds s k body.items at) self.old self.new) }
        // Without memory it didn't happen, or was begun.
        ensures stops { OnErr result ((names : List Names) → is_logon names body.items ≡ true → (book_at self.old s).machine.dials ≡ None → IsNone (connection_at self.old k).cause → StopsIn (binds s k body.items at) self.old self.new) }
        ensures err { OnErr result (DeskChanges s (Some k) self.old self.new) }
        ensures begun { OnErr result ((desk_with self.new s (Some k) ≡ desk_with self.old s (Some k)) ⊎ IsBegun at (receive (book_at self.old s).machine body.items at).acts (with_outbox (with_machine (after_receive (book_at self.old s).machine body.items at) (with_event (Binds (connection_at self.old k).number) (book_at self.old s))) (outgoing_at self.old (Some k))) (desk_with self.new s (Some k))) }
    {
        let connection = &mut self.connections[k];
        let number = connection.number();
        let end = self.sessions[s].bind(alloc, number, body, at, connection.outbox())?;
        connection.bind(s as u16);
        self.places[s] = Some(k);
        is_lawful(&self.sessions[s]);
        Ok(end)
    }

    /// A connection was dialled for a session, which is bound to it and asks for a Logon. Answers the
    /// connection's place. Without memory the connection may stand behind the others, and the session
    /// may be bound by its journal, and no place says so.
    pub fn dial(&mut self, alloc: Global, s: usize, number: u32, at: u64) -> Result<usize, NoMemory>
        requires moment { at ≤ LAST_MOMENT }
        requires session { s < length self.old.sessions }
        requires few { s < 2 ^ 16 }
        requires dials { IsSome (book_at self.old s).machine.dials }
        requires free { (state_of (book_at self.old s).entries).bound ≡ None }
        ensures place { IfOk result (λ k. k ≡ length self.old.connections) }
        ensures ok { IfOk result (λ k. desk_with self.new s (Some k) ≡ after_dial at number (with_outbox (book_at self.old s) no_outgoing)) }
        ensures connection { IfOk result (λ k. self.new.connections ≡ self.old.connections ++ fresh_dial number at s (connection_at self.new k).out ∷ []) }
        ensures sessions { self.new.sessions ≡ slice_set self.old.sessions s (session_at self.new s) }
        ensures places { IfOk result (λ k. self.new.places ≡ slice_set self.old.places s (Some k)) }
        ensures nowhere { self.new.nowhere ≡ self.old.nowhere }
        ensures on { OnOk result ((book_at self.new s).machine.phase ≢ Phase.Off) }
        ensures bound { OnOk result ((state_of (book_at self.new s).entries).bound ≡ Some number) }
        ensures happens { OnOk result (IsNewNumber self.old number → Happens (dials s number at) self.old self.new) }
        // Without memory it didn't happen, or was begun.
        ensures stops { OnErr result (IsNewNumber self.old number → StopsIn (dials s number at) self.old self.new) }
        ensures begun { OnErr result ((book_at self.new s ≡ book_at self.old s) ⊎ IsBegun at (ask (book_at self.old s).machine).acts (with_outbox (with_machine (after_ask (book_at self.old s).machine at) (with_event (Binds number) (book_at self.old s))) no_outgoing) (desk_with self.new s (Some (length self.old.connections)))) }
        ensures err_places { OnErr result (self.new.places ≡ self.old.places) }
        ensures err_connections { OnErr result (take (length self.old.connections) self.new.connections ≡ self.old.connections) }
        ensures err_few { OnErr result (length self.new.connections ≤ length self.old.connections + 1) }
    {
        self.connections.reserve(1)?;
        let k = self.connections.len();
        let mut connection = Connection::dialled(alloc, number, at, s as u16)?;
        let dialled = self.sessions[s].dial(alloc, number, at, connection.outbox());
        self.connections.push(connection).unwrap();
        dialled?;
        self.places[s] = Some(k);
        is_lawful(&self.sessions[s]);
        Ok(k)
    }

    /// The Logon of a dialled connection is answered: until then its first item alone is written.
    pub fn answer(&mut self, k: usize)
        requires { k < length self.old.connections }
        ensures connection { self.new ≡ with_connection k (record (connection_at self.old k) { answered = true }) self.old }
        ensures happens { Happens (answers k) self.old self.new }
    {
        self.connections[k].answer();
    }

    /// A connection to which no session is bound ends by a cause. The first cause stays.
    pub fn end_unbound(&mut self, k: usize, cause: Cause)
        requires { k < length self.old.connections }
        ensures connection { self.new ≡ with_connection k (after_end cause (connection_at self.old k)) self.old }
        ensures happens { IsNone (connection_at self.old k).session → Happens (ends_unbound k cause) self.old self.new }
    {
        self.connections[k].end(cause);
    }

    /// A connection to which session `s` is bound ends by a cause, and the session leaves it.
    pub fn end_bound(&mut self, s: usize, k: usize, cause: Cause) -> Result<(), NoMemory>
        requires session { s < length self.old.sessions }
        requires connection { k < length self.old.connections }
        requires bound { (state_of (book_at self.old s).entries).bound ≡ Some (connection_at self.old k).number }
        ensures book { OnOk result (book_at self.new s ≡ after_leaving (connection_at self.old k).number (book_at self.old s)) }
        ensures connection { OnOk result (connection_at self.new k ≡ after_end cause (connection_at self.old k)) }
        ensures unplugged { OnOk result (PlugChanges s k None self.old self.new) }
        ensures bound { OnOk result ((state_of (book_at self.new s).entries).bound ≡ None) }
        ensures happens { OnOk result (place_at self.old s ≡ Some k → Happens (ends_bound s k cause) self.old self.new) }
        ensures nothing { OnErr result (NothingIsTold self.old self.new) }
        ensures err { OnErr result ((book_at self.new s ≡ book_at self.old s) × DeskChanges s None self.old self.new) }
    {
        let number = self.connections[k].number();
        self.sessions[s].leave(number)?;
        self.places[s] = None;
        self.connections[k].end(cause);
        is_lawful(&self.sessions[s]);
        Ok(())
    }
}
