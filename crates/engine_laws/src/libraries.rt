//! Laws of libraries over turns. Each is the contract of a function that does nothing.

ghost use Rattle.std.specs.Prelude.{◌≡◌, ◌<◌, ◌≤◌, ℕ, List, length, true};
ghost use Rattle.std.specs.List.{Contains};
ghost use Rattle.engine_config.specs.declared.config.Config.{Config};
ghost use Rattle.engine_end.specs.Finishing.{Finishes, GathersAll, after_settling};
ghost use Rattle.engine_end.specs.Meeting.{RingsMeet, SeatsMeet};
ghost use Rattle.engine_end.specs.declared.records.EngineRecord.{EngineRecord};
ghost use Rattle.engine_loop.specs.Turns.{AtWire, HandsOut, MakesTurn, TakesTurn};
ghost use Rattle.engine_loop.specs.declared.engine.Engine.{Engine};
ghost use Rattle.engine_loop.specs.declared.records.Taken.{Taken};
ghost use Rattle.engine_loop.specs.declared.records.Turn.{Turn};
ghost use Rattle.engine_loop.specs.Starts.{StartsDesk, StartsEngine, StartsSessions, StartsTable};
ghost use Rattle.lease_core.specs.declared.entry.Entry.{Entry};
ghost use Rattle.lease_core.specs.declared.messages.Command.{Command};
ghost use Rattle.lease_core.specs.declared.messages.Notice.{Notice};
ghost use Rattle.lease_core.specs.declared.record.Record.{Record};
ghost use Rattle.lease_desk.specs.Desk.{owner_at};
ghost use Rattle.lease_desk.specs.declared.desk.LeaseDesk.{LeaseDesk};
ghost use Rattle.lease_words.specs.Views.{LibraryView, library_at};
ghost use Rattle.library_desk.specs.Serving.{Serves};
ghost use Rattle.library_desk.specs.declared.desk.LibraryDesk.{LibraryDesk};
ghost use Rattle.library_desk.specs.declared.serving.LibTurn.{LibTurn};
ghost use Rattle.library_desk.specs.declared.shared.Shared.{Shared};
ghost use Rattle.engine_laws.specs.libraries.Feeds.{AreFed};
ghost use Rattle.engine_laws.specs.libraries.Going.{GoingLaws};
ghost use Rattle.engine_laws.specs.libraries.Replies.{AreAnswered, KeepsReplies, is_unasked};
ghost use Rattle.engine_laws.specs.libraries.Sends.{AreLogged, AreTaken};
ghost use Rattle.engine_laws.specs.libraries.Spans.{AllLieWithin};
ghost use Rattle.ring_links.specs.Ends.{HeadView, TailView};
ghost use Rattle.session_book.specs.Records.{Pending};
ghost use Rattle.switchboard.specs.Board.{Board, book_at};
ghost use Rattle.switchboard.specs.Happenings.{Happening, Happens};
ghost use Rattle.switchboard.specs.Ready.{IsReady, entries_of};

use lease_core::laws::{
    entries_decide_one_by_one, holdings_adjoin, last_lines_are_last, lines_go_on,
    lines_tell_the_owner, words_raise_lines,
};
use lease_desk::laws::{boards_stay_in_step, others_stay};
use lease_words::settled_lanes_are_taken;
use session_book::laws::{leases_stay, sends_are_told};
use switchboard::laws::{boards_go_on, boards_stay_ready};

/// Where no library asks for a session, no journal tells another reply.
pub fn replies_stay()
    ensures happening { (happening : Happening) (old new : Board) → is_unasked happening ≡ true → Happens happening old new → KeepsReplies old new }
{
    others_stay();
    boards_go_on();
}

/// Each request that the engine popped is answered once, in order, and the replies are those that the journals
/// and the strays tell: so it is where a run begins, and behind each turn.
pub fn requests_are_answered()
    // Behind whatever entries there are as it begins.
    ensures first { (config : Config) (moment : ℕ) (shared : Shared) (d : LibraryDesk) → StartsDesk config moment shared d → StartsEngine config shared d.ends.items → AreAnswered (entries_of d.desk.board) d }
    ensures serves { (before : ℕ → List Entry) (library at until : ℕ) (old new : LibraryDesk) (turn : LibTurn) → 1 ≤ library → Serves library at until old new turn → AreAnswered before old → AreAnswered before new }
    // The first half of a turn, the whole, and records that are handed out.
    ensures takes { (before : ℕ → List Entry) (reading : ℕ) (old new : AtWire) (taken : Taken) → TakesTurn reading old new taken → AreAnswered before old.engine.sessions → AreAnswered before new.engine.sessions }
    ensures turn { (before : ℕ → List Entry) (reading : ℕ) (old new : AtWire) (turn : Turn) → MakesTurn reading old new turn → AreAnswered before old.engine.sessions → AreAnswered before new.engine.sessions }
    ensures hands_out { (before : ℕ → List Entry) (old new : Engine) (records : List Record) → HandsOut old new records → AreAnswered before old.sessions → AreAnswered before new.sessions }
    // The engine and a library meet, and the last gathering of a run.
    ensures meets { (before : ℕ → List Entry) (library : ℕ) (old new : LibraryDesk) (tail_old tail_new : TailView Command) (head_old head_new : HeadView Notice) → 1 ≤ library
        → RingsMeet library old new tail_old tail_new head_old head_new → new ≡ record old { desk = record (old.desk) { seat = new.desk.seat }; ends = new.ends } → AreAnswered before old → AreAnswered before new }
    ensures gathers { (before : ℕ → List Entry) (seats : List LibraryView) (at until : ℕ) (old : LibraryDesk) (gathered : LeaseDesk) → GathersAll at until (after_settling seats old.desk) gathered
        → AreAnswered before old → AreAnswered before (record old { desk = gathered }) }
{
    boards_stay_ready();
    others_stay();
    replies_stay();
}

/// A session's owner keeps it by the same lease while the engine goes on, as the crates below say: what the two laws
/// behind this one need of them.
fn owners_go_on()
    ensures { GoingLaws }
{
    boards_go_on();
    boards_stay_in_step();
    lines_go_on();
    lines_tell_the_owner();
    others_stay();
    words_raise_lines();
}

/// What is pushed to a library of a session is of each lease the grant, once, and then the messages of the
/// session's inbound log from the grant's replay position on, in order and without a gap: so it is where
/// a run begins, and behind each turn.
pub fn messages_are_in_order()
    // Where nobody has a session as it begins.
    ensures first { (config : Config) (moment : ℕ) (shared : Shared) (d : LibraryDesk) → StartsDesk config moment shared d → StartsEngine config shared d.ends.items → length d.cursors.items ≡ length d.desk.board.sessions
        → ((s : ℕ) → s < length d.desk.board.sessions → owner_at d.desk.board s ≡ 0) → AreFed d }
    ensures serves { (library at until : ℕ) (old new : LibraryDesk) (turn : LibTurn) → 1 ≤ library → Serves library at until old new turn → AreFed old → AreFed new }
    // The first half of a turn, the whole, and records that are handed out.
    ensures takes { (reading : ℕ) (old new : AtWire) (taken : Taken) → TakesTurn reading old new taken → AreFed old.engine.sessions → AreFed new.engine.sessions }
    ensures turn { (reading : ℕ) (old new : AtWire) (turn : Turn) → MakesTurn reading old new turn → AreFed old.engine.sessions → AreFed new.engine.sessions }
    ensures hands_out { (old new : Engine) (records : List Record) → HandsOut old new records → AreFed old.sessions → AreFed new.sessions }
    // The engine and a library meet, and the last gathering of a run.
    ensures meets { (library : ℕ) (old new : LibraryDesk) (tail_old tail_new : TailView Command) (head_old head_new : HeadView Notice) → 1 ≤ library
        → RingsMeet library old new tail_old tail_new head_old head_new → new ≡ record old { desk = record (old.desk) { seat = new.desk.seat }; ends = new.ends } → AreFed old → AreFed new }
    ensures gathers { (seats : List LibraryView) (at until : ℕ) (old : LibraryDesk) (gathered : LeaseDesk) → GathersAll at until (after_settling seats old.desk) gathered
        → AreFed old → AreFed (record old { desk = gathered }) }
{
    boards_stay_ready();
    last_lines_are_last();
    lines_tell_the_owner();
    owners_go_on();
}

/// Each message of a lease that is pushed to a library lies below the end of what the library holds of the session by
/// that lease, where the session's journal is lawful: a lease's messages are pushed while it runs, up to the
/// log's length then, and as it ends what it held ends at that length or behind it. So it is where a run
/// begins, and behind each turn.
pub fn messages_lie_within_holdings()
    // Nothing was pushed yet.
    ensures first { (config : Config) (shared : Shared) (d : LibraryDesk) → StartsEngine config shared d.ends.items → AllLieWithin d }
    // A library is served. The board is ready, as it stays whatever happens, and what was pushed is in order.
    ensures serves { (before : ℕ → List Entry) (library at until : ℕ) (old new : LibraryDesk) (turn : LibTurn) → 1 ≤ library → Serves library at until old new turn → IsReady before old.desk.board → AreFed old
        → AllLieWithin old → AllLieWithin new }
    // The first half of a turn, the whole, and records that are handed out.
    ensures takes { (before : ℕ → List Entry) (reading : ℕ) (old new : AtWire) (taken : Taken) → TakesTurn reading old new taken → IsReady before old.engine.sessions.desk.board → AreFed old.engine.sessions
        → AllLieWithin old.engine.sessions → AllLieWithin new.engine.sessions }
    ensures turn { (before : ℕ → List Entry) (reading : ℕ) (old new : AtWire) (turn : Turn) → MakesTurn reading old new turn → IsReady before old.engine.sessions.desk.board → AreFed old.engine.sessions
        → AllLieWithin old.engine.sessions → AllLieWithin new.engine.sessions }
    ensures hands_out { (old new : Engine) (records : List Record) → HandsOut old new records → AllLieWithin old.sessions → AllLieWithin new.sessions }
    // The engine and a library meet, and the last gathering of a run.
    ensures meets { (library : ℕ) (old new : LibraryDesk) (tail_old tail_new : TailView Command) (head_old head_new : HeadView Notice) → 1 ≤ library
        → RingsMeet library old new tail_old tail_new head_old head_new → new ≡ record old { desk = record (old.desk) { seat = new.desk.seat }; ends = new.ends } → AllLieWithin old → AllLieWithin new }
    ensures gathers { (seats : List LibraryView) (at until : ℕ) (old : LibraryDesk) (gathered : LeaseDesk) → GathersAll at until (after_settling seats old.desk) gathered
        → AllLieWithin old → AllLieWithin (record old { desk = gathered }) }
{
    boards_go_on();
    boards_stay_ready();
    entries_decide_one_by_one();
    holdings_adjoin();
    last_lines_are_last();
    lines_tell_the_owner();
    owners_go_on();
}

/// The sends that a session's journal has of a library, behind the entries before, are what was taken of the
/// library's lane at the lease table: each item's body stands in the outbound log once, in the order in
/// which they were taken, and nothing else does that the journal has as a send of that library. So it is
/// where an engine starts, and behind each turn.
pub fn sends_are_taken()
    // Nothing was taken yet, and no journal has an entry.
    ensures first { (config : Config) (moment : ℕ) (shared : Shared) (d : LibraryDesk) → StartsDesk config moment shared d → StartsTable config shared → StartsSessions config d.desk.board
        → AreTaken (entries_of d.desk.board) d.desk }
    // A library is served. The board is ready, as it stays whatever happens.
    ensures serves { (before : ℕ → List Entry) (library at until : ℕ) (old new : LibraryDesk) (turn : LibTurn) → 1 ≤ library → Serves library at until old new turn → IsReady before old.desk.board
        → AreTaken before old.desk → AreTaken before new.desk }
    // The first half of a turn, the whole, and records that are handed out.
    ensures takes { (before : ℕ → List Entry) (reading : ℕ) (old new : AtWire) (taken : Taken) → TakesTurn reading old new taken → IsReady before old.engine.sessions.desk.board
        → AreTaken before old.engine.sessions.desk → AreTaken before new.engine.sessions.desk }
    ensures turn { (before : ℕ → List Entry) (reading : ℕ) (old new : AtWire) (turn : Turn) → MakesTurn reading old new turn → IsReady before old.engine.sessions.desk.board
        → AreTaken before old.engine.sessions.desk → AreTaken before new.engine.sessions.desk }
    ensures hands_out { (before : ℕ → List Entry) (old new : Engine) (records : List Record) → HandsOut old new records → AreTaken before old.sessions.desk → AreTaken before new.sessions.desk }
    // The engine and a library meet, and the last gathering of a run.
    ensures meets { (before : ℕ → List Entry) (library_old library_new : LibraryView) (old new : LeaseDesk) → SeatsMeet old.seat new.seat library_old library_new → new.board ≡ old.board
        → AreTaken before old → AreTaken before new }
    ensures gathers { (before : ℕ → List Entry) (seats : List LibraryView) (at until : ℕ) (old gathered : LeaseDesk) → GathersAll at until (after_settling seats old) gathered → IsReady before old.board
        → AreTaken before old → AreTaken before gathered }
    // Behind that, what the log has of a library whose seat was taken in is all that it sent, in order.
    ensures finishes { (before : ℕ → List Entry) (seats : List LibraryView) (unkept : List Pending) (accepted at until : ℕ) (old : LibraryDesk) (left : EngineRecord) (finished : Finishes seats unkept accepted at until old left)
        → IsReady before old.desk.board → AreTaken before old.desk → (s : ℕ) (seat : LibraryView) → s < length old.desk.board.sessions → Contains seats seat → 1 ≤ seat.knows.number
        → seat.knows.number ≤ old.desk.seat.table.shape.libraries → AreLogged seat.knows.number (before s) (book_at finished.gathered.board s) (library_at seat s).items }
{
    boards_go_on();
    boards_stay_ready();
    last_lines_are_last();
    leases_stay();
    lines_go_on();
    others_stay();
    sends_are_told();
    settled_lanes_are_taken();
    words_raise_lines();
}
