//! Laws of boards: what holds of sessions and connections behind every list of happenings. Each is the contract
//! of a function that does nothing.

ghost use Rattle.std.specs.Prelude.{◌≡◌, ◌≢◌, ℕ, ◌<◌, ◌≤◌, true, false, List, [], ◌∷◌, ◌++◌, length, slice_set, Option, None, Some, IfSome};
ghost use Rattle.std.specs.List.{All};
ghost use Rattle.connection_core.specs.Connection.{ConnectionState};
ghost use Rattle.lease_core.specs.declared.entry.Entry.{Entry};
ghost use Rattle.session_book.specs.Wire.{NamesEntry};
ghost use Rattle.session_core.specs.Receive.{receive};
ghost use Rattle.session_core.specs.State.{State};
ghost use Rattle.session_core.specs.declared.causes.Cause.{Cause};
ghost use Rattle.session_core.specs.declared.phases.Phase.TheVariants as Phase;
ghost use Rattle.session_book.specs.Acts.{IsBoundIn};
ghost use Rattle.session_book.specs.Kept.{Kept};
ghost use Rattle.switchboard.specs.Board.{Board, DeskChanges, PlugChanges, book_at, connection_at, place_at, session_at, with_connection, with_connections, with_session, with_session_more};
ghost use Rattle.switchboard.specs.Brought.{Brought, IsBrought, TakeWhatIsInHand, TakesWhatIsInHand, brought_after, brought_over, nothing_brought};
ghost use Rattle.switchboard.specs.Going.{GoesOnTo, IsHeldAsBefore, IsWrittenAsBefore, KeepsBytes, is_coming, is_quiet, is_writing};
ghost use Rattle.switchboard.specs.Happenings.{BindsTo, Happening, Happens, Reaches, binds, binds_and_ends, ends_bound, receives, ticks};
ghost use Rattle.switchboard.specs.Ready.{IsFirst, IsReady, entries_of};
ghost use Rattle.switchboard.specs.Sound.{IsLawful, IsPlugged, IsSameLine, IsSound, bound_of};
ghost use Rattle.switchboard.specs.Stops.{HaveSameSessions, NothingIsTold, StopsIn, is_untold};
ghost use Rattle.switchboard.specs.Told.{ComeInOrder, History, IsTold, history_after, history_over, machines_of, moment_after, moment_over, no_history};

use connection_core::items_stay_queued;
pub use session_book::laws::{leases_stay, sessions_go_on};
use session_book::laws::{beats_come_in_time, sends_are_told, texts_are_told, texts_stay};

/// Sessions and connections stay sound: each session is bound to a connection just where it has a
/// place, and that stands and names it.
pub fn boards_stay_sound()
    // A connection takes bytes, gives a piece, is answered or written to.
    ensures connection { (board : Board) (k : ℕ) (c : ConnectionState) → k < length board.connections → IsSameLine (connection_at board k) c → IsSound board → IsSound (with_connection k c board) }
    // A session is asked for, or lapses.
    ensures session { (board : Board) (s : ℕ) (kept : Kept) → s < length board.sessions → bound_of kept.book ≡ bound_of (book_at board s) → IsSound board → IsSound (with_session s kept board) }
    // A message comes, the clock ticks, a word is shown, a lease times out.
    ensures desk { (s : ℕ) (place : Option ℕ) (old new : Board) → s < length old.sessions → ((k : ℕ) → place ≡ Some k → k < length old.connections) → DeskChanges s place old new
        → bound_of (book_at new s) ≡ bound_of (book_at old s) → IsSound old → IsSound new }
    // A session or a connection more.
    ensures add { (board : Board) (kept : Kept) → bound_of kept.book ≡ None → IsSound board → IsSound (with_session_more kept board) }
    ensures accept { (board : Board) (c : ConnectionState) → c.session ≡ None → IsSound board → IsSound (with_connections (board.connections ++ c ∷ []) board) }
    // A session is bound to a connection, also to one that it dialled, and leaves it.
    ensures bind { (s k : ℕ) (old new : Board) → s < length old.sessions → k < length old.connections → PlugChanges s k (Some k) old new → place_at old s ≡ None
        → (connection_at old k).session ≡ None → (connection_at new k).session ≡ Some s → (connection_at new k).cause ≡ None
        → bound_of (book_at new s) ≡ Some (connection_at new k).number → IsSound old → IsSound new }
    ensures dial { (s : ℕ) (c : ConnectionState) (old new : Board) → s < length old.sessions → place_at old s ≡ None → new.sessions ≡ slice_set old.sessions s (session_at new s)
        → new.places ≡ slice_set old.places s (Some (length old.connections)) → new.connections ≡ old.connections ++ c ∷ [] → new.nowhere ≡ old.nowhere
        → c.session ≡ Some s → c.cause ≡ None → bound_of (book_at new s) ≡ Some c.number → IsSound old → IsSound new }
    ensures end_bound { (s k : ℕ) (old new : Board) → s < length old.sessions → PlugChanges s k None old new → place_at old s ≡ Some k → (connection_at new k).cause ≢ None
        → bound_of (book_at new s) ≡ None → IsSound old → IsSound new }
    // A connection ends to which no session is bound.
    ensures end_unbound { (board : Board) (k : ℕ) (c : ConnectionState) → k < length board.connections → (connection_at board k).session ≡ None → c.session ≡ None
        → IsSound board → IsSound (with_connection k c board) }
    // What the calls ask of a session's place.
    ensures place { (board : Board) (s k : ℕ) → IsSound board → s < length board.sessions → place_at board s ≡ Some k → k < length board.connections }
{}

/// What holds of sessions and connections at first, and behind whatever happened.
pub fn boards_stay_ready()
    ensures first { (before : ℕ → List Entry) (board : Board) → IsFirst before board → IsReady before board }
    // Such a board has sessions that were added one by one.
    ensures none { (board : Board) → board.sessions ≡ [] → board.places ≡ [] → board.connections ≡ [] → IsFirst (entries_of board) board }
    ensures add { (board : Board) (kept : Kept) → bound_of kept.book ≡ None → IsLawful kept.book → IsFirst (entries_of board) board
        → IsFirst (entries_of (with_session_more kept board)) (with_session_more kept board) }
    // Whatever happens, one call or many.
    ensures happening { (before : ℕ → List Entry) (happening : Happening) (old new : Board) → Happens happening old new → IsReady before old → IsReady before new }
    ensures run { (before : ℕ → List Entry) (happenings : List Happening) (old new : Board) → Reaches happenings old new → IsReady before old → IsReady before new }
    // One run behind another.
    ensures one { (happening : Happening) (old new : Board) → Happens happening old new → Reaches (happening ∷ []) old new }
    ensures further { (first second : List Happening) (old between new : Board) → Reaches first old between → Reaches second between new → Reaches (first ++ second) old new }
    // A bind whose Logon ends the connection, and that end, are one happening.
    ensures ends { (s k : ℕ) (body : List ℕ) (at : ℕ) (cause : Cause) (old between new : Board) → BindsTo s k body at old between → (receive (book_at old s).machine body at).end ≡ Some cause
        → Happens (ends_bound s k cause) between new → Happens (binds_and_ends s k body at cause) old new }
{
    texts_are_told();
    texts_stay();
    sends_are_told();
    items_stay_queued();
}

/// Whatever happens, one call or many, sessions and connections go on: no journal, log or record of
/// what came loses anything, and a connection stays bound to its session and keeps the cause of its
/// end. On a ready board what is written changes by a write alone.
pub fn boards_go_on()
    ensures happening { (happening : Happening) (old new : Board) → Happens happening old new → GoesOnTo old new }
    ensures run { (happenings : List Happening) (old new : Board) → Reaches happenings old new → GoesOnTo old new }
    // Nothing happened, and one run behind another.
    ensures itself { (board : Board) → GoesOnTo board board }
    ensures further { (first second third : Board) → GoesOnTo first second → GoesOnTo second third → GoesOnTo first third }
    // Nothing but a write writes.
    ensures written { (before : ℕ → List Entry) (happening : Happening) (old new : Board) → is_writing happening ≡ false → Happens happening old new → IsReady before old
        → (k : ℕ) → k < length old.connections → IsWrittenAsBefore (connection_at old k) (connection_at new k) }
    // Where no bytes come, are cut or written, those of each connection stay.
    ensures quiet { (before : ℕ → List Entry) (happening : Happening) (old new : Board) → is_quiet happening ≡ true → Happens happening old new → IsReady before old
        → (k : ℕ) → k < length old.connections → KeepsBytes (connection_at old k) (connection_at new k) }
    // Of a connection that has ended nothing more is taken, held or garbled: so garbled is the sum before
    // the piece that ended it.
    ensures ended { (happenings : List Happening) (old new : Board) → Reaches happenings old new → (k : ℕ) → k < length old.connections → (cause : Cause) → (connection_at old k).cause ≡ Some cause
        → IsHeldAsBefore (connection_at old k) (connection_at new k) }
    // Where no connection comes there are as many as before.
    ensures count { (happening : Happening) (old new : Board) → is_coming happening ≡ false → Happens happening old new → length new.connections ≡ length old.connections }
{
    sessions_go_on();
}

/// What each session's journal tells of its connections, of the time and of its libraries' sends is
/// what happened to it, over every list of happenings in the order of their moments.
pub fn boards_stay_told()
    // At first nothing was handled, and nothing sent that is told.
    ensures first { (before : ℕ → List Entry) (moment : ℕ) (board : Board) → IsFirst before board → ((s : ℕ) → s < length board.sessions → (book_at board s).machine.sent ≤ moment)
        → IsTold before (machines_of board) no_history moment board }
    ensures happening { (before : ℕ → List Entry) (start : ℕ → State) (happening : Happening) (history : History) (moment : ℕ) (old new : Board) → Happens happening old new → IsReady before old
        → moment ≤ moment_after happening moment → IsTold before start history moment old → IsTold before start (history_after happening old history) (moment_after happening moment) new }
    ensures run { (before : ℕ → List Entry) (start : ℕ → State) (happenings : List Happening) (history : History) (moment : ℕ) (old new : Board) (reached : Reaches happenings old new) → IsReady before old
        → ComeInOrder moment happenings → IsTold before start history moment old → IsTold before start (history_over happenings old new reached history) (moment_over happenings moment) new }
{
    boards_stay_ready();
    beats_come_in_time();
    sends_are_told();
}

/// The messages that a session handled of a connection are those of the pieces that were handed out
/// of it, over every list of happenings in which a session handles what is in hand.
pub fn pieces_are_handled()
    ensures first { (before : ℕ → List Entry) (board : Board) → IsFirst before board → IsBrought no_history (λ k. nothing_brought) board }
    ensures happening { (before : ℕ → List Entry) (happening : Happening) (history : History) (brought : ℕ → Brought) (old new : Board) → Happens happening old new → IsReady before old
        → TakesWhatIsInHand happening brought → IsBrought history brought old → IsBrought (history_after happening old history) (brought_after happening old brought) new }
    ensures run { (before : ℕ → List Entry) (happenings : List Happening) (history : History) (brought : ℕ → Brought) (old new : Board) (reached : Reaches happenings old new) → IsReady before old
        → TakeWhatIsInHand happenings old new reached brought → IsBrought history brought old → IsBrought (history_over happenings old new reached history) (brought_over happenings old new reached brought) new }
{
    boards_stay_ready();
}

/// What the calls ask holds on a board that is ready.
pub fn ready_boards_allow()
    ensures place { (before : ℕ → List Entry) (board : Board) (s : ℕ) → IsReady before board → s < length board.sessions → IfSome (place_at board s) (λ k. k < length board.connections) }
    // Of a session that is bound.
    ensures plugged { (before : ℕ → List Entry) (board : Board) (s k : ℕ) → IsReady before board → s < length board.sessions → place_at board s ≡ Some k → IsPlugged board s k }
    ensures bound { (before : ℕ → List Entry) (board : Board) (s k : ℕ) → IsReady before board → s < length board.sessions → place_at board s ≡ Some k → IsBoundIn (book_at board s) }
    ensures on { (before : ℕ → List Entry) (board : Board) (s k : ℕ) → IsReady before board → s < length board.sessions → place_at board s ≡ Some k → (book_at board s).machine.phase ≢ Phase.Off }
    // Of one that isn't.
    ensures free { (before : ℕ → List Entry) (board : Board) (s : ℕ) → IsReady before board → s < length board.sessions → place_at board s ≡ None → bound_of (book_at board s) ≡ None }
    // Of a connection that names a session, also once it has ended.
    ensures there { (before : ℕ → List Entry) (board : Board) (s k : ℕ) → IsReady before board → k < length board.connections → (connection_at board k).session ≡ Some s → s < length board.sessions }
    ensures named { (before : ℕ → List Entry) (board : Board) (s k : ℕ) → IsReady before board → k < length board.connections → (connection_at board k).session ≡ Some s
        → All (NamesEntry (book_at board s).outbound) (connection_at board k).out.outgoing.unmade }
    // Of a connection that stands and names a session.
    ensures alone { (before : ℕ → List Entry) (board : Board) (k s : ℕ) → IsReady before board → k < length board.connections → (connection_at board k).session ≡ Some s
        → (connection_at board k).cause ≡ None → (s < length board.sessions) × (place_at board s ≡ Some k) }
{
    texts_are_told();
}

/// Of what nothing is told in a record, and what is told where memory was wanting.
pub fn stops_are_told()
    // Nothing happened; one thing behind another; and what changes only room and what is to be written.
    ensures itself { (board : Board) → NothingIsTold board board }
    ensures further { (first second third : Board) → NothingIsTold first second → NothingIsTold second third → NothingIsTold first third }
    ensures happening { (happening : Happening) (old new : Board) → is_untold happening ≡ true → Happens happening old new → NothingIsTold old new }
    // Something happened whole, or was begun, and behind it nothing is told.
    ensures receives { (s k : ℕ) (body : List ℕ) (at : ℕ) (old between new : Board) → Happens (receives s k body at) old between → NothingIsTold between new → StopsIn (receives s k body at) old new }
    ensures binds { (s k : ℕ) (body : List ℕ) (at : ℕ) (old between new : Board) → BindsTo s k body at old between → NothingIsTold between new → StopsIn (binds s k body at) old new }
    ensures ticks { (s at : ℕ) (old between new : Board) → Happens (ticks s at) old between → NothingIsTold between new → StopsIn (ticks s at) old new }
    // Where it stops no session comes or goes, and each has the names and the leases that it had.
    ensures sessions { (happening : Happening) (old new : Board) → StopsIn happening old new → HaveSameSessions old new }
{
    leases_stay();
}
