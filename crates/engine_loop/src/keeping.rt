//! The second half of a turn, once all that was found in the first is on a disk.

ghost use Rattle.std.specs.Prelude.{◌≡◌, [], ℕ, List, IfOk, IsErr, OnErr, OnOk, true, false};
ghost use Rattle.engine_loop.specs.Stops.{StopsGiving};
ghost use Rattle.durable_journal.specs.Journal.{Keeps};
ghost use Rattle.engine_loop.specs.Engines.{IsEngine};
ghost use Rattle.engine_loop.specs.Kept.{HaveEntriesOf, HaveKeptTexts};
ghost use Rattle.engine_loop.specs.Turns.{GivesTurn, at_wire};
ghost use Rattle.lease_core.specs.declared.entry.Entry.{Entry};
ghost use Rattle.lease_core.specs.declared.record.Record.{Record};
ghost use Rattle.switchboard.specs.Ready.{IsReady};

use crate::engine::Engine;
use crate::laws::gives_begin_texts;
use crate::records::{Taken, Turn};
use durable_journal::{Disk, Journal};
use gate_io::{Dial, NoMemory};
use library_desk::Shared;

impl Engine {
    /// The second half of a turn, as `give`, over a journal that keeps each entry of each session and in which
    /// nothing waits: so each entry of which a connection took a byte is on the disk before.
    pub fn give_kept<W: Dial, D: Disk>(
        &mut self,
        shared: &Shared,
        wire: &mut W,
        taken: Taken,
        journal: &Journal<D>,
    ) -> Result<Turn, NoMemory>
        requires engine { IsEngine shared.now self.old (W.door wire.old) (W.link wire.old) }
        requires synced { journal.now.batch ≡ [] }
        requires kept { (kept : List Record) → Keeps D.history journal.now kept → HaveEntriesOf self.old.sessions.desk.board kept }
        ensures gives { IfOk result (λ turn. GivesTurn (at_wire self.old (W.door wire.old) (W.link wire.old)) (at_wire self.new (W.door wire.new) (W.link wire.new)) taken turn) }
        ensures engine { IsEngine shared.now self.new (W.door wire.new) (W.link wire.new) }
        ensures goes_on { OnOk result (self.new.failed ≡ false) }
        ensures failed { OnErr result (self.new.failed ≡ true) }
        ensures stops { self.old.failed ≡ false → OnErr result (StopsGiving (at_wire self.old (W.door wire.old) (W.link wire.old)) self.new) }
        // Behind a run from the entries before: what is written is of the text that the kept entries tell.
        ensures kept { OnOk result ((before : ℕ → List Entry) (kept : List Record) → IsReady before self.old.sessions.desk.board → Keeps D.history journal.now kept
            → HaveKeptTexts before kept self.old.sessions.desk.board self.new.sessions.desk.board) }
        // An engine for which memory was wanting does nothing.
        ensures stands_still { self.old.failed ≡ true → IsErr result }
        ensures engine_stays { self.old.failed ≡ true → self.new ≡ self.old }
        ensures wire_stays { self.old.failed ≡ true → wire.new ≡ wire.old }
    {
        gives_begin_texts();
        let turn = self.give(shared, wire, taken)?;
        Ok(turn)
    }
}
