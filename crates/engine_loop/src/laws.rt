//! Laws of engines over turns: what stays of one in order, what is written, and what it leaves. Each is the
//! contract of a function that does nothing.

ghost use Rattle.std.specs.Prelude.{◌≡◌, ◌<◌, ℕ, List, [], false, length, true};
ghost use Rattle.engine_end.specs.Finishing.{Finishes, FinishesShort};
ghost use Rattle.engine_end.specs.Records.{IsLeftBy};
ghost use Rattle.engine_end.specs.declared.records.EngineRecord.{EngineRecord};
ghost use Rattle.engine_loop.specs.Engines.{IsAtWork, IsEngine, IsOnline, until_of};
ghost use Rattle.engine_loop.specs.Leaving.{LeavesAsItStood};
ghost use Rattle.engine_loop.specs.Turns.{AtWire, GivesTurn};
ghost use Rattle.engine_loop.specs.declared.engine.Engine.{Engine};
ghost use Rattle.engine_loop.specs.declared.records.Taken.{Taken};
ghost use Rattle.engine_loop.specs.declared.records.Turn.{Turn};
ghost use Rattle.gate_io.specs.Wire.{Door, Link};
ghost use Rattle.lease_core.specs.declared.entry.Entry.{Entry};
ghost use Rattle.lease_desk.specs.Desk.{GoesOn};
ghost use Rattle.lease_words.specs.Views.{LibraryView};
ghost use Rattle.library_desk.specs.declared.shared.Shared.{Shared};
ghost use Rattle.session_desk.specs.Steps.{AreNoted};
ghost use Rattle.switchboard.specs.Board.{connection_at};
ghost use Rattle.switchboard.specs.Going.{GoesOnTo, KeepsBytes};
ghost use Rattle.switchboard.specs.Ready.{IsReady};
ghost use Rattle.wire_desk.specs.Lines.{IsSetUp, KnowsAsBefore};
ghost use Rattle.wire_desk.specs.Texts.{HaveTextsFrom};

use library_desk::laws::cursors_stay;
use wire_desk::dialling_goes_on;
pub use wire_desk::laws::wires_stay_known;
use wire_desk::laws::{lines_progress, writes_begin_texts};

/// An engine stays at work, and its connections on the wire.
pub fn engines_stay()
    // Sessions and connections go on by no new lease.
    ensures work { (shared : Shared) (old new : Engine) → new ≡ record old { sessions = record (old.sessions) { desk = new.sessions.desk }; lines = new.lines; dialler = new.dialler } → GoesOnTo old.sessions.desk.board new.sessions.desk.board
        → ((s : ℕ) → GoesOn old.sessions.desk.board new.sessions.desk.board s) → IsSetUp shared.leases new.sessions.desk new.lines → IsAtWork shared old → IsAtWork shared new }
    // Nothing came, was cut or written.
    ensures still { (old new : Engine) (door : Door) (links : ℕ → Link) → GoesOnTo old.sessions.desk.board new.sessions.desk.board → length new.sessions.desk.board.connections ≡ length old.sessions.desk.board.connections
        → ((k : ℕ) → k < length old.sessions.desk.board.connections → KeepsBytes (connection_at old.sessions.desk.board k) (connection_at new.sessions.desk.board k))
        → new.lines.accepted.items ≡ old.lines.accepted.items → new.lines.dialled.items ≡ old.lines.dialled.items → new.dialler ≡ old.dialler → new.accepted ≡ old.accepted → new.connections ≡ old.connections → new.spare ≡ old.spare → IsOnline old door links → IsOnline new door links }
    // What comes to the wire between two calls.
    ensures known { (shared : Shared) (e : Engine) (before after : Door) (old new : ℕ → Link) → KnowsAsBefore before after old new → IsEngine shared e before old → IsEngine shared e after new }
    // Entries are noted, or their records handed out.
    ensures noted { (shared : Shared) (old new : Engine) → new ≡ record old { lines = record (old.lines) { unkept = new.lines.unkept } } → AreNoted new.lines.unkept.items new.sessions.desk.board → IsAtWork shared old → IsAtWork shared new }
    ensures noted_online { (old new : Engine) (door : Door) (links : ℕ → Link) → new ≡ record old { lines = record (old.lines) { unkept = new.lines.unkept } } → IsOnline old door links → IsOnline new door links }
{
    cursors_stay();
    lines_progress();
    dialling_goes_on();
    wires_stay_known();
}

/// What the second half of a turn writes begins the text that the journals told before it: it writes of no
/// entry that it makes itself.
pub fn gives_begin_texts()
    ensures { (before : ℕ → List Entry) (old new : AtWire) (taken : Taken) (turn : Turn) → GivesTurn old new taken turn → IsReady before old.engine.sessions.desk.board
        → HaveTextsFrom before old.engine.sessions.desk.board new.engine.sessions.desk.board }
{
    writes_begin_texts();
}

/// What an engine leaves at its end is what one leaves for which memory was wanting.
pub fn engines_leave_as_they_stood()
    // Where memory was wanting at its end, or in a turn before.
    ensures short { (seats : List LibraryView) (engine : Engine) (left : EngineRecord) → (engine.failed ≡ true → IsLeftBy engine.sessions.desk.board engine.sessions.strays.items engine.accepted [] left)
        → (engine.failed ≡ false → FinishesShort seats engine.accepted engine.moment (until_of engine) engine.sessions left) → LeavesAsItStood seats engine left }
    // Where it wasn't.
    ensures whole { (seats : List LibraryView) (engine : Engine) (left : EngineRecord) → (engine.failed ≡ true → ⊥) → Finishes seats engine.lines.unkept.items engine.accepted engine.moment (until_of engine) engine.sessions left
        → LeavesAsItStood seats engine left }
{}
