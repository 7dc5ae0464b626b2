//! The new entries of each session are noted, and their records handed out.

ghost use Rattle.std.specs.Prelude.{◌≡◌, ◌<◌, ◌≤◌, ℕ, length, IfOk, IsErr, OnOk, true, false};
ghost use Rattle.engine_loop.specs.Turns.{HandsOut, NotesSession};
ghost use Rattle.engine_loop.specs.Engines.{IsEngine};
ghost use Rattle.gate_io.specs.Wire.{Door, Link};
ghost use Rattle.lease_desk.specs.Desk.{InTurn};
ghost use Rattle.library_desk.specs.declared.shared.Shared.{Shared};
ghost use Rattle.session_book.specs.Records.{HasNotedAll};
ghost use Rattle.session_core.specs.declared.routing.TheConstants.{MOST_SESSIONS};
ghost use Rattle.session_desk.specs.Steps.{AreNoted, pending_at};
ghost use Rattle.switchboard.specs.Board.{book_at};
ghost use Rattle.wire_desk.specs.Fresh.{AreAllNoted};

use crate::engine::Engine;
use crate::laws::engines_stay;
use gate_io::NoMemory;
use lease_core::Record;
use std::alloc::Global;

impl Engine {
    /// Hands out the records of the entries that came since the last call, by session and in order.
    /// Without memory none is handed out: the next call has them.
    pub fn fresh(&mut self, alloc: Global) -> Result<Vec<Record>, NoMemory>
        requires noted { self.old.failed ≡ false → AreNoted self.old.lines.unkept.items self.old.sessions.desk.board }
        requires few { self.old.failed ≡ false → length self.old.sessions.desk.board.sessions ≤ MOST_SESSIONS }
        ensures hands_out { IfOk result (λ records. HandsOut self.old self.new records.items) }
        ensures noted { self.new.failed ≡ false → AreNoted self.new.lines.unkept.items self.new.sessions.desk.board }
        ensures rest { self.new ≡ record self.old { lines = record (self.old.lines) { unkept = self.new.lines.unkept } } }
        ensures engine { (shared : Shared) (door : Door) (links : ℕ → Link) → IsEngine shared self.old door links → IsEngine shared self.new door links }
        // An engine for which memory was wanting in a turn does nothing.
        ensures stands_still { self.old.failed ≡ true → IsErr result }
    {
        engines_stay();
        if self.failed {
            return Err(NoMemory::OutOfMemory);
        }
        self.note_all()?;
        let records = self.lines.fresh(alloc, &self.sessions.desk)?;
        Ok(records)
    }

    /// The new entries of each session are noted.
    pub(crate) fn note_all(&mut self) -> Result<(), NoMemory>
        requires noted { AreNoted self.old.lines.unkept.items self.old.sessions.desk.board }
        ensures notes { OnOk result (InTurn NotesSession (length self.old.sessions.desk.board.sessions) self.old self.new) }
        ensures all { OnOk result (AreAllNoted self.new.lines.unkept.items self.new.sessions.desk.board) }
        ensures noted { AreNoted self.new.lines.unkept.items self.new.sessions.desk.board }
        ensures rest { self.new ≡ record self.old { lines = record (self.old.lines) { unkept = self.new.lines.unkept } } }
    {
        for s in 0..self.sessions.desk.board.sessions() {
            self.note_session(s)?;
        }
        Ok(())
    }

    /// The new entries of a session are noted, with the number that it expects.
    fn note_session(&mut self, s: usize) -> Result<(), NoMemory>
        requires noted { AreNoted self.old.lines.unkept.items self.old.sessions.desk.board }
        requires session { s < length self.old.sessions.desk.board.sessions }
        ensures notes { OnOk result (NotesSession s self.old self.new) }
        ensures all { OnOk result (HasNotedAll (pending_at self.new.lines.unkept.items s) (book_at self.new.sessions.desk.board s)) }
        ensures noted { AreNoted self.new.lines.unkept.items self.new.sessions.desk.board }
        ensures rest { self.new ≡ record self.old { lines = record (self.old.lines) { unkept = self.new.lines.unkept } } }
    {
        let book = self.sessions.desk.board.session(s);
        self.lines.unkept[s].note(book)
    }
}
