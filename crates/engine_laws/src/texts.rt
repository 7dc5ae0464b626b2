//! Laws of outbound texts over turns. Each is the contract of a function that does nothing.

ghost use Rattle.std.specs.Prelude.{◌≡◌, ◌≢◌, ◌<◌, ◌⊎◌, ℕ, List, length, None, Some, false};
ghost use Rattle.std.specs.List.{Contains};
ghost use Rattle.engine_end.specs.Finishing.{GathersAll, after_settling};
ghost use Rattle.engine_loop.specs.Engines.{IsAtWork, IsOnline};
ghost use Rattle.engine_loop.specs.Turns.{AtWire, GivesTurn, HandsOut, MakesTurn, TakesTurn};
ghost use Rattle.engine_loop.specs.declared.engine.Engine.{Engine};
ghost use Rattle.engine_loop.specs.declared.records.Taken.{Taken};
ghost use Rattle.engine_loop.specs.declared.records.Turn.{Turn};
ghost use Rattle.gate_io.specs.Wire.{Link, LinkGoesOn};
ghost use Rattle.lease_core.specs.declared.entry.Entry.{Entry};
ghost use Rattle.lease_core.specs.declared.record.Record.{Record};
ghost use Rattle.lease_desk.specs.declared.desk.LeaseDesk.{LeaseDesk};
ghost use Rattle.lease_words.specs.Views.{LibraryView};
ghost use Rattle.library_desk.specs.declared.shared.Shared.{Shared};
ghost use Rattle.switchboard.specs.Board.{Board, connection_at};
ghost use Rattle.switchboard.specs.Ready.{HasTextOf, IsFirst, IsReady};
ghost use Rattle.engine_laws.specs.texts.Answered.{DialledAreSo};
ghost use Rattle.engine_laws.specs.texts.Taken.{BeginsFirstOfText, FirstsComeAlone, IsCutShort, IsWrittenIn, RestsIn, TookAsAnswered, TookTextOf, TookTheirTexts, TookTheirTextsSoFar};
ghost use Rattle.wire_desk.specs.Places.{open_places};

use library_desk::laws::serving_happens;
use session_core::laws::sameness_laws;
use switchboard::laws::{boards_go_on, boards_stay_ready, ready_boards_allow};

/// Each turn writes to every connection that isn't closed, also to one that ended in that turn, and it takes
/// its text whole, unless the wire counted that a write of it failed or was blocked, or more waited on it
/// than a turn writes at most. A connection that had ended before rests.
pub fn turns_write_texts()
    // The second half of a turn.
    ensures gives { (shared : Shared) (before : ℕ → List Entry) (old new : AtWire) (taken : Taken) (turn : Turn) → GivesTurn old new taken turn → IsAtWork shared old.engine → IsOnline old.engine old.door old.links
        → IsReady before old.engine.sessions.desk.board → FirstsComeAlone old.engine.sessions.desk.board → (k : ℕ) → Contains (open_places old.engine.lines) k → IsWrittenIn old new k }
    // The whole: what the wire counted is counted from the middle on, where the turn begins to write.
    ensures turn { (shared : Shared) (before : ℕ → List Entry) (reading : ℕ) (old new : AtWire) (turn : Turn) (made : MakesTurn reading old new turn) → IsAtWork shared old.engine → IsOnline old.engine old.door old.links
        → IsReady before old.engine.sessions.desk.board → FirstsComeAlone old.engine.sessions.desk.board
        → (k : ℕ) → k < length new.engine.sessions.desk.board.connections → IsWrittenIn made.middle new k ⊎ RestsIn old new k }
{
    boards_go_on();
    boards_stay_ready();
    ready_boards_allow();
    serving_happens();
}

/// Each connection that has ended took its text whole, unless at some time the wire counted that a write of
/// it failed or was blocked, or as many bytes are written on it as a turn writes at most, or more, and some
/// is left: so it is where an engine starts, and behind each turn.
pub fn texts_are_taken()
    // There is no connection yet.
    ensures first { (before : ℕ → List Entry) (board : Board) (links : ℕ → Link) → IsFirst before board → TookTheirTexts board links }
    // The first half of a turn, the second, and the whole.
    ensures takes { (shared : Shared) (before : ℕ → List Entry) (reading : ℕ) (old new : AtWire) (taken : Taken) → TakesTurn reading old new taken → IsAtWork shared old.engine → IsOnline old.engine old.door old.links
        → IsReady before old.engine.sessions.desk.board → TookTheirTexts old.engine.sessions.desk.board old.links → TookTheirTextsSoFar new.engine.sessions.desk.board (open_places new.engine.lines) new.links }
    ensures gives { (shared : Shared) (before : ℕ → List Entry) (old new : AtWire) (taken : Taken) (turn : Turn) → GivesTurn old new taken turn → IsAtWork shared old.engine → IsOnline old.engine old.door old.links
        → IsReady before old.engine.sessions.desk.board → TookTheirTextsSoFar old.engine.sessions.desk.board (open_places old.engine.lines) old.links → TookTheirTexts new.engine.sessions.desk.board new.links }
    ensures turn { (shared : Shared) (before : ℕ → List Entry) (reading : ℕ) (old new : AtWire) (turn : Turn) → MakesTurn reading old new turn → IsAtWork shared old.engine → IsOnline old.engine old.door old.links
        → IsReady before old.engine.sessions.desk.board → TookTheirTexts old.engine.sessions.desk.board old.links → TookTheirTexts new.engine.sessions.desk.board new.links }
    // Records are handed out, what comes to the wire between two calls, where no count of it falls, and the last gathering
    // of a run.
    ensures hands_out { (links : ℕ → Link) (old new : Engine) (records : List Record) → HandsOut old new records → TookTheirTexts old.sessions.desk.board links → TookTheirTexts new.sessions.desk.board links }
    ensures known { (board : Board) (old new : ℕ → Link) → ((c : ℕ) → LinkGoesOn (old c) (new c)) → TookTheirTexts board old → TookTheirTexts board new }
    ensures gathers { (before : ℕ → List Entry) (seats : List LibraryView) (links : ℕ → Link) (at until : ℕ) (old gathered : LeaseDesk) → GathersAll at until (after_settling seats old) gathered → IsReady before old.board
        → TookTheirTexts old.board links → TookTheirTexts gathered.board links }
    // In the words of the journals: what is written on a connection that has ended is the whole outbound text that the journal
    // of its session tells of it. Of a dialled one whose Logon wasn't answered it is the text of the first item, and of one
    // that names no session nothing.
    ensures text { (before : ℕ → List Entry) (board : Board) (links : ℕ → Link) → IsReady before board → TookTheirTexts board links → (k : ℕ) → k < length board.connections → (connection_at board k).cause ≢ None
        → TookTextOf before board k (connection_at board k).session ⊎ IsCutShort (links (connection_at board k).number) (connection_at board k) }
    // What is written on one whose Logon wasn't answered begins the text of the first item, also where it was cut short.
    ensures unanswered { (before : ℕ → List Entry) (board : Board) (links : ℕ → Link) → IsReady before board → TookTheirTexts board links → (s k : ℕ) → k < length board.connections
        → (connection_at board k).session ≡ Some s → (connection_at board k).answered ≡ false → BeginsFirstOfText before board s k }
    // Both by each text that the journal tells.
    ensures answers { (before : ℕ → List Entry) (board : Board) (links : ℕ → Link) → IsReady before board → TookTheirTexts board links → (s k : ℕ) → k < length board.connections
        → (told : HasTextOf before board s k) → TookAsAnswered before board links s k told }
{
    boards_go_on();
    boards_stay_ready();
    ready_boards_allow();
    serving_happens();
}

/// Of a dialled connection the Logon counts as answered just where the first message that was handled of it answers
/// it: it is a Logon of the counterparty with this HeartBtInt and with a number, also a low one. And the session that
/// it names is one that dials. So it is where an engine starts, and behind each turn.
pub fn logons_are_answered()
    // There is no connection yet.
    ensures first { (before : ℕ → List Entry) (board : Board) → IsFirst before board → DialledAreSo board }
    // The first half of a turn, the second, and the whole.
    ensures takes { (before : ℕ → List Entry) (reading : ℕ) (old new : AtWire) (taken : Taken) → TakesTurn reading old new taken → IsReady before old.engine.sessions.desk.board
        → DialledAreSo old.engine.sessions.desk.board → DialledAreSo new.engine.sessions.desk.board }
    ensures gives { (before : ℕ → List Entry) (old new : AtWire) (taken : Taken) (turn : Turn) → GivesTurn old new taken turn → IsReady before old.engine.sessions.desk.board
        → DialledAreSo old.engine.sessions.desk.board → DialledAreSo new.engine.sessions.desk.board }
    ensures turn { (before : ℕ → List Entry) (reading : ℕ) (old new : AtWire) (turn : Turn) → MakesTurn reading old new turn → IsReady before old.engine.sessions.desk.board
        → DialledAreSo old.engine.sessions.desk.board → DialledAreSo new.engine.sessions.desk.board }
    // Records are handed out, and the last gathering of a run.
    ensures hands_out { (before : ℕ → List Entry) (old new : Engine) (records : List Record) → HandsOut old new records → IsReady before old.sessions.desk.board
        → DialledAreSo old.sessions.desk.board → DialledAreSo new.sessions.desk.board }
    ensures gathers { (before : ℕ → List Entry) (seats : List LibraryView) (at until : ℕ) (old gathered : LeaseDesk) → GathersAll at until (after_settling seats old) gathered → IsReady before old.board
        → DialledAreSo old.board → DialledAreSo gathered.board }
{
    boards_go_on();
    boards_stay_ready();
    sameness_laws();
    serving_happens();
}
