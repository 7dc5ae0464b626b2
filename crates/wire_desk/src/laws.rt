//! Laws of connections at the wire: places stay apart and in order, and what is written begins the outbound
//! texts. Each is the contract of a function that does nothing.

ghost use Rattle.std.specs.Prelude.{◌≡◌, ◌+◌, ◌<◌, ◌≤◌, ◌++◌, ◌∷◌, [], ℕ, List, Option, false, true, length, None};
ghost use Rattle.connection_core.specs.Connection.{ConnectionState, room};
ghost use Rattle.connection_core.specs.declared.limits.TheConstants.{MOST_READ};
ghost use Rattle.gate_io.specs.MemWire.{ChangesLink, LinkState, SameButRoom, WireState, new_link, state_at};
ghost use Rattle.gate_io.specs.Wire.{Door, Link, OthersStay};
ghost use Rattle.gate_io.specs.declared.dials.Dialled.{Dialled};
ghost use Rattle.gate_io.specs.declared.wires.Accepted.{Accepted};
ghost use Rattle.gate_io.specs.declared.wires.TheConstants.{FIRST_DIALLED};
ghost use Rattle.lease_core.specs.declared.entry.Entry.{Entry};
ghost use Rattle.lease_desk.specs.declared.desk.LeaseDesk.{LeaseDesk};
ghost use Rattle.lease_words.specs.Views.{TableRef};
ghost use Rattle.session_book.specs.Records.{Pending};
ghost use Rattle.session_desk.specs.Steps.{AreNoted, IsSteady, Proceeds};
ghost use Rattle.switchboard.specs.Board.{Board, connection_at};
ghost use Rattle.switchboard.specs.Going.{GoesOnTo, KeepsBytes};
ghost use Rattle.switchboard.specs.Happenings.{Happening, Happens, IsNewNumber, Reaches};
ghost use Rattle.switchboard.specs.Ready.{IsReady};
ghost use Rattle.wire_desk.specs.Dials.{IsDialling};
ghost use Rattle.wire_desk.specs.Lines.{IsOnWire, IsSetUp, IsWired, KnowsAsBefore, StaysKnown, standing};
ghost use Rattle.wire_desk.specs.Places.{AreRising, dialled_behind, listed_behind};
ghost use Rattle.wire_desk.specs.declared.desk.WireDesk.{WireDesk};
ghost use Rattle.wire_desk.specs.declared.dialling.Dialler.{Dialler};
ghost use Rattle.wire_desk.specs.Steps.{AreApart, Progresses, WritesInTurn, WrittenSoFar};
ghost use Rattle.wire_desk.specs.Texts.{HaveTextsFrom};

use connection_core::items_stay_queued;
use session_desk::laws::sessions_proceed;
use switchboard::laws::boards_go_on;

/// Sessions and connections progress, whatever one connection brings, and stay on the wire as they are on
/// the board.
pub fn lines_progress()
    ensures itself { (board : Board) (k : ℕ) → Progresses k board board }
    ensures further { (k : ℕ) (first second third : Board) → Progresses k first second → Progresses k second third → Progresses k first third }
    // What a session does in a turn.
    ensures proceeds { (k : ℕ) (old new : Board) → length new.connections ≡ length old.connections → k < length old.connections → Proceeds old new → Progresses k old new }
    // The wire was read on this connection.
    ensures wired { (k : ℕ) (old new : Board) (places : List ℕ) (door : Door) (before after : ℕ → Link) → k < length old.connections → Progresses k old new
        → OthersStay before after (connection_at old k).number → (after (connection_at old k).number).closed ≡ false → (after (connection_at old k).number).written ≡ (before (connection_at old k).number).written
        → ((connection_at new k).cause ≡ None → MOST_READ ≤ room (connection_at new k)) → IsWired old places door before → IsWired new places door after }
    // Nothing came, was cut or written.
    ensures still { (old new : Board) (places : List ℕ) (door : Door) (links : ℕ → Link) → GoesOnTo old new → length new.connections ≡ length old.connections
        → ((k : ℕ) → k < length old.connections → KeepsBytes (connection_at old k) (connection_at new k)) → IsWired old places door links → IsWired new places door links }
    // Routes and notes stay those of the sessions.
    ensures set_up { (leases : TableRef) (old new : LeaseDesk) (w_old w_new : WireDesk) → GoesOnTo old.board new.board → new.seat.table ≡ old.seat.table → w_new.routes ≡ w_old.routes
        → length w_new.buffer.items ≡ length w_old.buffer.items → AreNoted w_new.unkept.items new.board → IsSteady new.board new.seat → IsSetUp leases old w_old → IsSetUp leases new w_new }
    ensures noted { (old new : Board) (unkept : List Pending) → GoesOnTo old new → AreNoted unkept old → AreNoted unkept new }
    // The next number that the wire gives is no connection's.
    ensures accepted_is_new { (board : Board) (places : List ℕ) (door : Door) (links : ℕ → Link) → door.accepted < FIRST_DIALLED → IsWired board places door links → IsNewNumber board door.accepted }
    ensures dialled_is_new { (board : Board) (places : List ℕ) (door : Door) (links : ℕ → Link) → IsWired board places door links → IsNewNumber board (FIRST_DIALLED + door.dialled) }
    // The wire was asked for a connection, and gave none.
    ensures none_came { (board : Board) (places : List ℕ) (door after_door : Door) (before after : ℕ → Link) (n : ℕ) → door.accepted ≤ after_door.accepted → door.dialled ≤ after_door.dialled
        → IsNewNumber board n → OthersStay before after n → IsWired board places door before → IsWired board places after_door after }
    // It gave one, which is listed behind the accepted ones, or behind the dialled ones.
    ensures came_first { (old new : Board) (c : ConnectionState) (first last : List ℕ) (door after_door : Door) (before after : ℕ → Link) → new.connections ≡ old.connections ++ c ∷ [] → door.accepted ≤ after_door.accepted
        → door.dialled ≤ after_door.dialled → IsNewNumber old c.number → OthersStay before after c.number → IsOnWire after_door after c → (after c.number).closed ≡ false
        → IsWired old (first ++ last) door before → IsWired new ((first ++ length old.connections ∷ []) ++ last) after_door after }
    ensures came_last { (old new : Board) (c : ConnectionState) (first last : List ℕ) (door after_door : Door) (before after : ℕ → Link) → new.connections ≡ old.connections ++ c ∷ [] → door.accepted ≤ after_door.accepted
        → door.dialled ≤ after_door.dialled → IsNewNumber old c.number → OthersStay before after c.number → IsOnWire after_door after c → (after c.number).closed ≡ false
        → IsWired old (first ++ last) door before → IsWired new (first ++ (last ++ length old.connections ∷ [])) after_door after }
{
    sessions_proceed();
    boards_go_on();
}

/// Each place is listed once, which writes in turn ask: so it stays where the place of a connection that
/// came, accepted or dialled, is listed behind those of its kind.
pub fn places_stay_apart()
    ensures first { AreApart [] }
    ensures accepted { (answer : Accepted) (board : Board) (first last : List ℕ) (door : Door) (links : ℕ → Link) → IsWired board (first ++ last) door links → AreApart (first ++ last)
        → AreApart (listed_behind answer (length board.connections) first ++ last) }
    ensures dialled { (answer : Option Dialled) (board : Board) (first last : List ℕ) (door : Door) (links : ℕ → Link) → IsWired board (first ++ last) door links → AreApart (first ++ last)
        → AreApart (first ++ dialled_behind answer (length board.connections) last) }
    // Not more are listed where some are listed no longer.
    ensures fewer { (board : Board) (places : List ℕ) → length (standing board places) ≤ length places }
{}

/// Connections are listed in the order in which they came, the accepted ones and the dialled ones: so it
/// stays where the next one is listed last, and where those that have ended are listed no longer.
pub fn places_stay_in_order()
    ensures first { AreRising [] }
    ensures accepted { (answer : Accepted) (board : Board) (first last : List ℕ) (door : Door) (links : ℕ → Link) → IsWired board (first ++ last) door links → AreRising first
        → AreRising (listed_behind answer (length board.connections) first) }
    ensures dialled { (answer : Option Dialled) (board : Board) (first last : List ℕ) (door : Door) (links : ℕ → Link) → IsWired board (first ++ last) door links → AreRising last
        → AreRising (dialled_behind answer (length board.connections) last) }
    ensures standing { (board : Board) (places : List ℕ) → AreRising places → AreRising (standing board places) }
{}

/// What is written in a turn begins the text that the journals told before it: a connection that ends behind a
/// write fault, or because too many items wait, is asked for no byte more.
pub fn writes_begin_texts()
    ensures { (before : ℕ → List Entry) (places : List ℕ) (count : ℕ) (old new : WrittenSoFar) → WritesInTurn places count old new → IsReady before old.sessions.desk.board
        → HaveTextsFrom before old.sessions.desk.board new.sessions.desk.board }
{
    items_stay_queued();
}

/// What comes to a wire between two calls leaves its connections on it: so does what a script changes of a
/// wire in memory.
pub fn wires_stay_known()
    ensures wired { (board : Board) (places : List ℕ) (before after : Door) (old new : ℕ → Link) → KnowsAsBefore before after old new → IsWired board places before old → IsWired board places after new }
    ensures dialling { (board : Board) (d : Dialler) (before after : Door) (old new : ℕ → Link) → KnowsAsBefore before after old new → IsDialling board before d → IsDialling board after d }
    // One connection more waits to be accepted, or to be dialled.
    ensures connected { (w : WireState) → StaysKnown w (record w { links = w.links ++ new_link ∷ [] }) }
    ensures taken { (w : WireState) → StaysKnown w (record w { taken = w.taken ++ new_link ∷ [] }) }
    // Something else of a connection changes, the next accept fails, or room is made.
    ensures changed { (old new : WireState) (c : ℕ) (link : LinkState) → ChangesLink old c link new → link.closed ≡ (state_at old c).closed → link.written ≡ (state_at old c).written → StaysKnown old new }
    ensures accept_fails { (w : WireState) → StaysKnown w (record w { accept_fails = true }) }
    ensures reserved { (old new : WireState) → SameButRoom old new → StaysKnown old new }
{}
