//! What comes on the connections, and what the clock asks.

ghost use Rattle.std.specs.Prelude.{◌≡◌, ◌≢◌, ◌<◌, ◌≤◌, ◌⊎◌, ◌↔◌, ◌++◌, ◌∷◌, [], length, None, Some, IsNone, IfSome, IsSome, IfNone, IfOk, OnOk, OnErr, MatchOption, List, option_map};
ghost use Rattle.connection_core.specs.Connection.{IsGiven, after_end, after_next, after_taking, room};
ghost use Rattle.connection_core.specs.declared.limits.TheConstants.{MOST_READ};
ghost use Rattle.fix_frame.specs.Cut.{CutPiece, IsPiece, cut, piece_at};
ghost use Rattle.fix_frame.specs.Owned.{cut_piece};
ghost use Rattle.fix_frame.specs.declared.layout.TheConstants.{LONGEST_FRAME};
ghost use Rattle.lease_core.specs.State.{state_of};
ghost use Rattle.session_book.specs.Acts.{IsBegun, IsBoundIn, after_binding, after_end as after_leaving, after_message, after_ticking};
ghost use Rattle.session_book.specs.Book.{with_machine, with_outbox};
ghost use Rattle.session_core.specs.Receive.{after_receive, receive};
ghost use Rattle.session_core.specs.Tick.{after_tick, tick};
ghost use Rattle.session_core.specs.declared.phases.Phase.TheVariants as Phase;
ghost use Rattle.switchboard.specs.Board.{DeskChanges, book_at, connection_at, desk_at, desk_with, outgoing_at, place_at, session_at, with_connection};
ghost use Rattle.switchboard.specs.Happenings.{Happens, gives, receives, takes, ticks};
ghost use Rattle.switchboard.specs.Stops.{StopsIn};

use crate::board::{Switchboard, is_lawful};
use connection_core::OwnedPiece;
use gate_io::{LAST_MOMENT, NoMemory};
use session_core::Cause;
use std::alloc::Global;

impl Switchboard {
    /// Takes the next bytes that came on a connection.
    pub fn take_in(&mut self, k: usize, bytes: &[u8]) -> Result<(), NoMemory>
        requires connection { k < length self.old.connections }
        requires stands { IsNone (connection_at self.old k).cause }
        requires room { length bytes.now ≤ room (connection_at self.old k) }
        ensures ok { OnOk result (self.new ≡ with_connection k (after_taking bytes.now (connection_at self.old k)) self.old) }
        ensures given { (pieces : List CutPiece) → IsGiven (connection_at self.old k) pieces → IsGiven (connection_at self.new k) pieces }
        ensures happens { OnOk result (Happens (takes k bytes.now) self.old self.new) }
        ensures err { OnErr result (self.new ≡ self.old) }
    {
        self.connections[k].take_in(bytes)
    }

    /// The next piece of what was taken on a connection, or None where more bytes are wanted.
    pub fn next(&mut self, alloc: Global, k: usize) -> Result<Option<OwnedPiece>, NoMemory>
        requires connection { k < length self.old.connections }
        requires stands { IsNone (connection_at self.old k).cause }
        ensures ok { OnOk result (self.new ≡ with_connection k (after_next (connection_at self.old k)) self.old) }
        ensures piece { IfOk result (λ given. option_map cut_piece given ≡ option_map (λ found. found.piece) (piece_at LONGEST_FRAME (connection_at self.old k).held)) }
        ensures none { IfOk result (λ given. IsNone given ↔ ((cut LONGEST_FRAME (connection_at self.old k).held).pieces ≡ [])) }
        ensures lawful { IfOk result (λ given. IfSome given (λ piece. IsPiece LONGEST_FRAME (cut_piece piece))) }
        ensures room { IfOk result (λ given. IfNone given (MOST_READ ≤ room (connection_at self.new k))) }
        ensures fewer { IfOk result (λ given. IfSome given (λ piece. length (connection_at self.new k).held < length (connection_at self.old k).held)) }
        ensures given { (pieces : List CutPiece) → IsGiven (connection_at self.old k) pieces → IfOk result (λ given. MatchOption given
            (IsGiven (connection_at self.new k) pieces × ((cut LONGEST_FRAME (connection_at self.old k).taken).pieces ≡ pieces))
            (λ piece. IsGiven (connection_at self.new k) (pieces ++ cut_piece piece ∷ []))) }
        ensures happens { OnOk result (Happens (gives k) self.old self.new) }
        ensures err { OnErr result (self.new ≡ self.old) }
    {
        self.connections[k].next(alloc)
    }

    /// A message comes on a connection, to which session `s` is bound. Answers the cause by which it
    /// ends the connection, if it does.
    pub fn receive(
        &mut self,
        alloc: Global,
        s: usize,
        k: usize,
        body: Vec<u8>,
        at: u64,
    ) -> Result<Option<Cause>, NoMemory>
        requires moment { at ≤ LAST_MOMENT }
        requires session { s < length self.old.sessions }
        requires connection { k < length self.old.connections }
        requires bound { IsBoundIn (book_at self.old s) }
        requires on { (book_at self.old s).machine.phase ≢ Phase.Off }
        ensures ok { OnOk result (desk_with self.new s (Some k) ≡ after_message at body.items (desk_with self.old s (Some k))) }
        ensures end { IfOk result (λ end. end ≡ (receive (book_at self.old s).machine body.items at).end) }
        // Without memory it didn't happen, or was begun.
        ensures stops { OnErr result (place_at self.old s ≡ Some k → StopsIn (receives s k body.items at) self.old self.new) }
        // Without memory nothing happened, or the message was counted and some of the acts were carried out.
        ensures begun { OnErr result ((desk_with self.new s (Some k) ≡ desk_with self.old s (Some k)) ⊎ IsBegun at (receive (book_at self.old s).machine body.items at).acts (with_outbox (with_machine (after_receive (book_at self.old s).machine body.items at) (book_at self.old s)) (outgoing_at self.old (Some k))) (desk_with self.new s (Some k))) }
        ensures others { DeskChanges s (Some k) self.old self.new }
        ensures on { (book_at self.new s).machine.phase ≢ Phase.Off }
        ensures bound { (state_of (book_at self.new s).entries).bound ≡ (state_of (book_at self.old s).entries).bound }
        ensures happens { OnOk result (place_at self.old s ≡ Some k → Happens (receives s k body.items at) self.old self.new) }
    {
        let end = self.sessions[s].receive(alloc, body, at, self.connections[k].outbox())?;
        is_lawful(&self.sessions[s]);
        Ok(end)
    }

    /// The clock stands at a moment. Answers the cause by which the connection ends to which the
    /// session is bound, if it does.
    pub fn tick(&mut self, alloc: Global, s: usize, at: u64) -> Result<Option<Cause>, NoMemory>
        requires moment { at ≤ LAST_MOMENT }
        requires session { s < length self.old.sessions }
        requires place { IfSome (place_at self.old s) (λ k. k < length self.old.connections) }
        ensures ok { OnOk result (desk_at self.new s ≡ after_ticking at (desk_at self.old s)) }
        ensures end { IfOk result (λ end. end ≡ (tick (book_at self.old s).machine at).end) }
        // Without memory it didn't happen, or was begun.
        ensures stops { OnErr result (StopsIn (ticks s at) self.old self.new) }
        ensures begun { OnErr result ((desk_at self.new s ≡ desk_at self.old s) ⊎ IsBegun at (tick (book_at self.old s).machine at).acts (with_outbox (with_machine (after_tick (book_at self.old s).machine at) (book_at self.old s)) (outgoing_at self.old (place_at self.old s))) (desk_at self.new s)) }
        ensures others { DeskChanges s (place_at self.old s) self.old self.new }
        ensures phase { (book_at self.new s).machine.phase ≡ (book_at self.old s).machine.phase }
        ensures bound { (state_of (book_at self.new s).entries).bound ≡ (state_of (book_at self.old s).entries).bound }
        ensures happens { OnOk result (Happens (ticks s at) self.old self.new) }
    {
        let end = match self.places[s] {
            Some(k) => self.sessions[s].tick(alloc, at, self.connections[k].outbox()),
            None => self.sessions[s].tick(alloc, at, &mut self.nowhere),
        }?;
        is_lawful(&self.sessions[s]);
        Ok(end)
    }
}
