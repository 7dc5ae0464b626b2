//! Laws of the account of a turn, from what happens to a session up to turns and stops. Each is the contract of
//! a function that does nothing.

ghost use Rattle.std.specs.Prelude.{◌≡◌, ◌≢◌, ℕ, ◌<◌, ◌≤◌, List, [], ◌∷◌, length, Option, None, Some, Result};
ghost use Rattle.std.specs.List.{All};
ghost use Rattle.engine_config.specs.declared.config.Config.{Config};
ghost use Rattle.engine_laws.specs.Account.{IsAccountedFor, IsAside, KeepsAccount, Progress, StaysAccountedFor, all_done, cutting, handling, only};
ghost use Rattle.engine_laws.specs.Stopped.{IsAccountedInPart, StopsAccountedFor};
ghost use Rattle.engine_laws.specs.Turns.{EngineStaysAccountedFor, board_of};
ghost use Rattle.engine_loop.specs.Stops.{StopsTurn};
ghost use Rattle.engine_loop.specs.Turns.{AcceptsNext, AtWire, DialsSession, HandsOut, MakesTurn, NotesSession, PublishesSession, Reading, ReadsIfStands, ServesOne, Serving, TakesTurn, TicksSession, WritesAll};
ghost use Rattle.engine_loop.specs.declared.engine.Engine.{Engine};
ghost use Rattle.engine_loop.specs.declared.records.Taken.{Taken};
ghost use Rattle.engine_loop.specs.declared.records.Turn.{Turn};
ghost use Rattle.engine_loop.specs.Starts.{StartsSessions};
ghost use Rattle.fix_frame.specs.Cut.{cut};
ghost use Rattle.fix_frame.specs.declared.layout.TheConstants.{LONGEST_FRAME};
ghost use Rattle.gate_io.specs.Wire.{Link};
ghost use Rattle.gate_io.specs.declared.dials.Dialled.{Dialled};
ghost use Rattle.gate_io.specs.declared.wires.Accepted.{Accepted};
ghost use Rattle.gate_io.specs.declared.wires.WireGot.{WireGot};
ghost use Rattle.lease_core.specs.declared.entry.Entry.{Entry};
ghost use Rattle.lease_core.specs.declared.record.Record.{Record};
ghost use Rattle.lease_desk.specs.Desk.{Gathers, TakesBackSome};
ghost use Rattle.lease_desk.specs.declared.desk.LeaseDesk.{LeaseDesk};
ghost use Rattle.library_desk.specs.Happening.{RunsFor};
ghost use Rattle.library_desk.specs.Serving.{Serves};
ghost use Rattle.library_desk.specs.Stops.{StopsServing};
ghost use Rattle.library_desk.specs.declared.desk.LibraryDesk.{LibraryDesk};
ghost use Rattle.library_desk.specs.declared.serving.LibTurn.{LibTurn};
ghost use Rattle.session_book.specs.Records.{Pending};
ghost use Rattle.session_core.specs.State.{State};
ghost use Rattle.session_core.specs.declared.causes.Cause.{Cause};
ghost use Rattle.session_desk.specs.Steps.{DialsTo, GreetsAs, Hears, Ticks, parting};
ghost use Rattle.session_desk.specs.Stops.{StopsDialling, StopsGreeting, StopsHearing, StopsTicking};
ghost use Rattle.session_desk.specs.declared.routes.Routes.{Routes};
ghost use Rattle.switchboard.specs.Board.{Board, book_at, connection_at};
ghost use Rattle.switchboard.specs.Brought.{HasHandled, good_bodies};
ghost use Rattle.switchboard.specs.Happenings.{Happening, Happens, Reaches, accepts, binds, binds_and_ends, dials, ends_unbound, gives, next_pieces, receives, takes, ticks};
ghost use Rattle.switchboard.specs.Ready.{IsFirst, IsReady, entries_of};
ghost use Rattle.switchboard.specs.Sound.{bound_of};
ghost use Rattle.switchboard.specs.Stops.{HaveSameSessions, NothingIsTold, StopsIn};
ghost use Rattle.switchboard.specs.Told.{machines_of};
ghost use Rattle.wire_desk.specs.Dials.{DialsAs};
ghost use Rattle.wire_desk.specs.Steps.{AcceptsAs, HandlesAll, HandlesBody, HandlesNext, PartsIfNeeded, Reads, Sessions, Writes, WritesInTurn, WrittenSoFar};
ghost use Rattle.wire_desk.specs.Stops.{StopsCalling, StopsReading, StopsWriting};
ghost use Rattle.wire_desk.specs.declared.dialling.Dialler.{Dialler};
ghost use Rattle.wire_desk.specs.declared.written.Written.{Written};

use library_desk::laws::serving_happens;
use session_book::laws::runs_are_begun;
use switchboard::laws::{
    boards_go_on, boards_stay_ready, boards_stay_told, pieces_are_handled, stops_are_told,
};

/// Whatever happens at a moment is accounted for, where each message that is handed out is the next that
/// is handled.
pub fn happenings_are_accounted_for()
    // As a run begins nothing happened.
    ensures first { (before : ℕ → List Entry) (at : ℕ) (board : Board) → IsFirst before board → ((s : ℕ) → s < length board.sessions → (book_at board s).machine.sent ≤ at)
        → IsAccountedFor before (machines_of board) at board }
    // Time goes by; and one thing behind another.
    ensures itself { (progress : ℕ → Progress) (at : ℕ) (board : Board) → KeepsAccount progress progress at board board }
    ensures further { (one two three : ℕ → Progress) (at : ℕ) (first second third : Board) → KeepsAccount one two at first second → KeepsAccount two three at second third
        → KeepsAccount one three at first third }
    // Neither a connection comes, nor do bytes, nor is a piece handed out or a message handled.
    ensures aside { (progress : ℕ → Progress) (at : ℕ) (happenings : List Happening) (old new : Board) → All (IsAside at) happenings → Reaches happenings old new
        → KeepsAccount progress progress at old new }
    // A connection comes.
    ensures accepts { (number at : ℕ) (old new : Board) → Happens (accepts number at) old new → StaysAccountedFor at old new }
    ensures dials { (s number at : ℕ) (old new : Board) → Happens (dials s number at) old new → StaysAccountedFor at old new }
    // Bytes come; the next piece is handed out, in which there is no message, or one; and there is no further piece, or
    // none wants it.
    ensures takes { (k : ℕ) (bytes : List ℕ) (at : ℕ) (old new : Board) → Happens (takes k bytes) old new → KeepsAccount all_done (only k cutting) at old new }
    ensures gives_none { (k at : ℕ) (old new : Board) → Happens (gives k) old new → good_bodies (next_pieces (connection_at old k)) ≡ [] → KeepsAccount (only k cutting) (only k cutting) at old new }
    ensures gives_one { (k at : ℕ) (body : List ℕ) (old new : Board) → Happens (gives k) old new → good_bodies (next_pieces (connection_at old k)) ≡ body ∷ []
        → KeepsAccount (only k cutting) (only k (handling body)) at old new }
    ensures gives_last { (k at : ℕ) (old new : Board) → Happens (gives k) old new → next_pieces (connection_at old k) ≡ [] → KeepsAccount (only k cutting) all_done at old new }
    ensures stops { (k at : ℕ) (board : Board) → (connection_at board k).cause ≢ None → KeepsAccount (only k cutting) all_done at board board }
    // The session of the connection handles the message, or a session that it binds does, or it is refused.
    ensures receives { (s k : ℕ) (body : List ℕ) (at : ℕ) (old new : Board) → Happens (receives s k body at) old new → KeepsAccount (only k (handling body)) (only k cutting) at old new }
    ensures binds { (s k : ℕ) (body : List ℕ) (at : ℕ) (old new : Board) → Happens (binds s k body at) old new → KeepsAccount (only k (handling body)) (only k cutting) at old new }
    ensures binds_and_ends { (s k : ℕ) (body : List ℕ) (at : ℕ) (cause : Cause) (old new : Board) → Happens (binds_and_ends s k body at cause) old new
        → KeepsAccount (only k (handling body)) (only k cutting) at old new }
    ensures refuses { (k : ℕ) (body : List ℕ) (at : ℕ) (cause : Cause) (old new : Board) → Happens (ends_unbound k cause) old new → KeepsAccount (only k (handling body)) (only k cutting) at old new }
{
    boards_stay_ready();
    boards_go_on();
    boards_stay_told();
    pieces_are_handled();
}

/// What an account says of one connection.
pub fn accounts_are_whole()
    // The pieces that were handed out of a connection that stands are all those of the cut of what came on it.
    ensures stands { (before : ℕ → List Entry) (start : ℕ → State) (at : ℕ) (board : Board) (accounted : IsAccountedFor before start at board) (k : ℕ) → k < length board.connections
        → (connection_at board k).cause ≡ None → (accounted.brought k).pieces ≡ (cut LONGEST_FRAME (connection_at board k).taken).pieces }
    // The session that a connection names handled the good ones that were handed out of it, and no others.
    ensures named { (before : ℕ → List Entry) (start : ℕ → State) (at : ℕ) (board : Board) (accounted : IsAccountedFor before start at board) (k s : ℕ) → k < length board.connections
        → (connection_at board k).session ≡ Some s
        → HasHandled (bound_of (book_at board s)) (connection_at board k).number (good_bodies (accounted.brought k).pieces) (accounted.history.handled s) }
    // Of a connection that names none at most one was handed out, and none where it stands.
    ensures unbound { (before : ℕ → List Entry) (start : ℕ → State) (at : ℕ) (board : Board) (accounted : IsAccountedFor before start at board) (k : ℕ) → k < length board.connections
        → (connection_at board k).session ≡ None → length (good_bodies (accounted.brought k).pieces) ≤ 1 }
    ensures waiting { (before : ℕ → List Entry) (start : ℕ → State) (at : ℕ) (board : Board) (accounted : IsAccountedFor before start at board) (k : ℕ) → k < length board.connections
        → (connection_at board k).session ≡ None → (connection_at board k).cause ≡ None → good_bodies (accounted.brought k).pieces ≡ [] }
{}

/// What a session does in a turn is accounted for, and so is the end of a connection.
pub fn sessions_are_accounted_for()
    ensures gathers { (progress : ℕ → Progress) (s at until : ℕ) (old new : LeaseDesk) → Gathers s at until old new → KeepsAccount progress progress at old.board new.board }
    // A message was handed out of a connection, and its session hears it, or the connection is greeted or refused.
    ensures hears { (s k : ℕ) (body : List ℕ) (at until : ℕ) (old new : LeaseDesk) (unkept_old unkept_new : List Pending) (end : Option Cause) → Hears s k body at until old new unkept_old unkept_new end
        → KeepsAccount (only k (handling body)) (only k cutting) at old.board new.board }
    ensures greets { (found : Result ℕ Cause) (k : ℕ) (body : List ℕ) (at until : ℕ) (old new : LeaseDesk) (unkept_old unkept_new : List Pending) (end : Option Cause)
        → GreetsAs found k body at until old new unkept_old unkept_new end → KeepsAccount (only k (handling body)) (only k cutting) at old.board new.board }
    ensures ticks { (s at until : ℕ) (old new : LeaseDesk) (end : Option Cause) → Ticks s at until old new end → StaysAccountedFor at old.board new.board }
    ensures dials_to { (s number at until : ℕ) (old new : LeaseDesk) → DialsTo s number at until old new → StaysAccountedFor at old.board new.board }
    ensures parts { (session : Option ℕ) (k : ℕ) (cause : Cause) (at : ℕ) (old new : Board) → Happens (parting session k cause) old new → StaysAccountedFor at old new }
{
    happenings_are_accounted_for();
}

/// What follows from the wire's answers is accounted for: of connections that come, are read and written,
/// and whose messages are handled.
pub fn lines_are_accounted_for()
    ensures accepts { (answer : Accepted) (at : ℕ) (old new : LeaseDesk) → AcceptsAs answer at old new → StaysAccountedFor at old.board new.board }
    ensures dials { (answer : Option Dialled) (s at until : ℕ) (old new : LeaseDesk) (d_old d_new : Dialler) → DialsAs answer s at until old new d_old d_new → StaysAccountedFor at old.board new.board }
    // The message in hand is handled; the next piece is handed out and handled; and so are all.
    ensures handles_body { (session : Option ℕ) (routes : Routes) (k : ℕ) (body : List ℕ) (at until : ℕ) (old new : Sessions) → HandlesBody session routes k body at until old new
        → KeepsAccount (only k (handling body)) (only k cutting) at old.desk.board new.desk.board }
    ensures handles_next { (routes : Routes) (k at until : ℕ) (old new : Sessions) → HandlesNext routes k at until old new → KeepsAccount (only k cutting) (only k cutting) at old.desk.board new.desk.board }
    ensures handles_all { (routes : Routes) (k at until : ℕ) (old new : Sessions) → HandlesAll routes k at until old new → KeepsAccount (only k cutting) all_done at old.desk.board new.desk.board }
    // A connection is read once, and all that its bytes bring is handled.
    ensures reads { (answer : WireGot) (routes : Routes) (k : ℕ) (buffer : List ℕ) (at until : ℕ) (old new : Sessions) → Reads answer routes k buffer at until old new
        → StaysAccountedFor at old.desk.board new.desk.board }
    // Writing has no moment of its own.
    ensures parts_if_needed { (cause : Option Cause) (k at : ℕ) (old new : Board) → PartsIfNeeded cause k old new → StaysAccountedFor at old new }
    ensures writes { (written : Written) (k : ℕ) (link_old link_new : Link) (at : ℕ) (old new : Sessions) → Writes written k link_old link_new old new → StaysAccountedFor at old.desk.board new.desk.board }
    ensures writes_in_turn { (places : List ℕ) (count at : ℕ) (old new : WrittenSoFar) → WritesInTurn places count old new → StaysAccountedFor at old.sessions.desk.board new.sessions.desk.board }
{
    happenings_are_accounted_for();
}

/// What is done for a library in a turn is accounted for.
pub fn libraries_are_accounted_for()
    ensures runs { (at : ℕ) (old new : Board) → RunsFor at old new → StaysAccountedFor at old new }
    ensures serves { (library at until : ℕ) (old new : LibraryDesk) (turn : LibTurn) → Serves library at until old new turn → StaysAccountedFor at old.desk.board new.desk.board }
{
    serving_happens();
    happenings_are_accounted_for();
}

/// An engine that started is ready and accounted for, with the empty journals and the session machines that
/// it began with.
pub fn starts_are_accounted_for()
    ensures ready { (config : Config) (board : Board) → StartsSessions config board → IsReady (entries_of board) board }
    ensures account { (config : Config) (at : ℕ) (board : Board) → StartsSessions config board → IsAccountedFor (entries_of board) (machines_of board) at board }
{
    boards_stay_ready();
    happenings_are_accounted_for();
}

/// Each step of a turn is accounted for at the moment of the turn.
pub fn steps_are_accounted_for()
    ensures accepts { (answer : Accepted) (old new : AtWire) → AcceptsNext answer old new → EngineStaysAccountedFor old.engine new.engine }
    ensures dials { (s : ℕ) (old new : AtWire) → DialsSession s old new → EngineStaysAccountedFor old.engine new.engine }
    ensures reads { (k : ℕ) (old new : Reading) → ReadsIfStands k old new → EngineStaysAccountedFor old.engine new.engine }
    ensures ticks { (s : ℕ) (old new : Engine) → TicksSession s old new → EngineStaysAccountedFor old new }
    ensures serves { (library : ℕ) (old new : Serving) → ServesOne library old new → EngineStaysAccountedFor old.engine new.engine }
    ensures notes { (s : ℕ) (old new : Engine) → NotesSession s old new → EngineStaysAccountedFor old new }
    ensures publishes { (s : ℕ) (old new : Engine) → PublishesSession s old new → EngineStaysAccountedFor old new }
    ensures writes { (links_old links_new : ℕ → Link) (old new : Engine) (bytes : ℕ) → WritesAll links_old links_new old new bytes → EngineStaysAccountedFor old new }
    // Behind a turn the records of new entries are handed out.
    ensures hands_out { (old new : Engine) (records : List Record) → HandsOut old new records → EngineStaysAccountedFor old new }
    // One step behind another.
    ensures further { (first second third : Engine) → EngineStaysAccountedFor first second → EngineStaysAccountedFor second third → EngineStaysAccountedFor first third }
{
    serving_happens();
    happenings_are_accounted_for();
}

/// The moment of a turn is no earlier than that of the turn before. Behind it sessions and connections are
/// ready, and all that happened up to then is accounted for, where it was so before.
pub fn turns_are_accounted_for()
    // The first half of a turn.
    ensures takes_moment { (reading : ℕ) (old new : AtWire) (taken : Taken) → TakesTurn reading old new taken → (new.engine.moment ≡ taken.moment) × (old.engine.moment ≤ new.engine.moment) }
    ensures takes_ready { (before : ℕ → List Entry) (reading : ℕ) (old new : AtWire) (taken : Taken) → TakesTurn reading old new taken → IsReady before (board_of old.engine)
        → IsReady before (board_of new.engine) }
    ensures takes_account { (before : ℕ → List Entry) (start : ℕ → State) (reading : ℕ) (old new : AtWire) (taken : Taken) → TakesTurn reading old new taken → IsReady before (board_of old.engine)
        → IsAccountedFor before start old.engine.moment (board_of old.engine) → IsAccountedFor before start new.engine.moment (board_of new.engine) }
    // The whole.
    ensures moment { (reading : ℕ) (old new : AtWire) (turn : Turn) → MakesTurn reading old new turn → (new.engine.moment ≡ turn.moment) × (old.engine.moment ≤ new.engine.moment) }
    ensures ready { (before : ℕ → List Entry) (reading : ℕ) (old new : AtWire) (turn : Turn) → MakesTurn reading old new turn → IsReady before (board_of old.engine) → IsReady before (board_of new.engine) }
    ensures account { (before : ℕ → List Entry) (start : ℕ → State) (reading : ℕ) (old new : AtWire) (turn : Turn) → MakesTurn reading old new turn → IsReady before (board_of old.engine)
        → IsAccountedFor before start old.engine.moment (board_of old.engine) → IsAccountedFor before start new.engine.moment (board_of new.engine) }
{
    serving_happens();
    happenings_are_accounted_for();
}

/// Where a turn stops for want of memory, all that happened is accounted for up to a beginning of the last
/// acts, where it was so before.
pub fn stops_are_accounted_for()
    // Nothing stopped; and a stop behind what is accounted for.
    ensures whole { (before : ℕ → List Entry) (start : ℕ → State) (at : ℕ) (board : Board) → IsReady before board → IsAccountedFor before start at board → IsAccountedInPart before start board }
    ensures further { (one two : ℕ → Progress) (at : ℕ) (first second third : Board) → KeepsAccount one two at first second → StopsAccountedFor two at second third → StopsAccountedFor one at first third }
    // Nothing is told, or what a message, a bind, a dial or the clock asks for is begun.
    ensures untold { (progress : ℕ → Progress) (at : ℕ) (old new : Board) → NothingIsTold old new → StopsAccountedFor progress at old new }
    ensures receives { (s k : ℕ) (body : List ℕ) (at : ℕ) (old new : Board) → StopsIn (receives s k body at) old new → StopsAccountedFor (only k (handling body)) at old new }
    ensures binds { (s k : ℕ) (body : List ℕ) (at : ℕ) (old new : Board) → StopsIn (binds s k body at) old new → StopsAccountedFor (only k (handling body)) at old new }
    ensures dials { (progress : ℕ → Progress) (s number at : ℕ) (old new : Board) → StopsIn (dials s number at) old new → StopsAccountedFor progress at old new }
    ensures ticks { (progress : ℕ → Progress) (s at : ℕ) (old new : Board) → StopsIn (ticks s at) old new → StopsAccountedFor progress at old new }
    // What a session does in a turn.
    ensures hearing { (s k : ℕ) (body : List ℕ) (at until : ℕ) (old new : LeaseDesk) → StopsHearing s k body at until old new → StopsAccountedFor (only k (handling body)) at old.board new.board }
    ensures greeting { (k : ℕ) (body : List ℕ) (at until : ℕ) (old new : LeaseDesk) → StopsGreeting k body at until old new → StopsAccountedFor (only k (handling body)) at old.board new.board }
    ensures ticking { (progress : ℕ → Progress) (s at until : ℕ) (old new : LeaseDesk) → StopsTicking s at until old new → StopsAccountedFor progress at old.board new.board }
    ensures dialling { (progress : ℕ → Progress) (s number at until : ℕ) (old new : LeaseDesk) → StopsDialling s number at until old new → StopsAccountedFor progress at old.board new.board }
    // What is done at the wire.
    ensures reading { (routes : Routes) (k at until : ℕ) (old : Sessions) (new : LeaseDesk) → StopsReading routes k at until old new → StopsAccountedFor all_done at old.desk.board new.board }
    ensures calling { (progress : ℕ → Progress) (dialled s at until : ℕ) (old new : LeaseDesk) → StopsCalling dialled s at until old new → StopsAccountedFor progress at old.board new.board }
    ensures writing { (places : List ℕ) (at : ℕ) (old : WrittenSoFar) (new : LeaseDesk) → StopsWriting places old new → StopsAccountedFor all_done at old.sessions.desk.board new.board }
    // What is done for a library.
    ensures taking_back { (library at until : ℕ) (old new : LeaseDesk) → TakesBackSome library at until old new → StopsAccountedFor all_done at old.board new.board }
    ensures serving { (library at until : ℕ) (old new : LibraryDesk) → StopsServing library at until old new → StopsAccountedFor all_done at old.desk.board new.desk.board }
    // A turn. No session comes or goes in it, and each has the names and the leases that it had.
    ensures turn { (before : ℕ → List Entry) (start : ℕ → State) (reading : ℕ) (old : AtWire) (new : Engine) → StopsTurn reading old new → IsReady before (board_of old.engine)
        → IsAccountedFor before start old.engine.moment (board_of old.engine) → IsAccountedInPart before start (board_of new) }
    ensures sessions { (reading : ℕ) (old : AtWire) (new : Engine) → StopsTurn reading old new → HaveSameSessions (board_of old.engine) (board_of new) }
{
    serving_happens();
    happenings_are_accounted_for();
    boards_go_on();
    stops_are_told();
    runs_are_begun();
}
