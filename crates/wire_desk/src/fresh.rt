//! The records of new entries are handed out.

ghost use Rattle.std.specs.Prelude.{◌≡◌, ◌≤◌, length, IfOk, OnErr, OnOk};
ghost use Rattle.session_core.specs.declared.routing.TheConstants.{MOST_SESSIONS};
ghost use Rattle.session_desk.specs.Steps.{AreNoted};
ghost use Rattle.wire_desk.specs.Fresh.{AreAllNoted, AreHandedOut, fresh_records};

use crate::desk::WireDesk;
use gate_io::NoMemory;
use lease_core::Record;
use lease_desk::LeaseDesk;
use std::alloc::Global;

impl WireDesk {
    /// Hands out the records of the entries that came since the last call, by session and in order. All
    /// of them were noted. Without memory none is handed out: the next call has them.
    pub fn fresh(&mut self, alloc: Global, desk: &LeaseDesk) -> Result<Vec<Record>, NoMemory>
        requires few { length desk.now.board.sessions ≤ MOST_SESSIONS }
        requires noted { AreAllNoted self.old.unkept.items desk.now.board }
        ensures records { IfOk result (λ records. records.items ≡ fresh_records desk.now.board self.old.unkept.items (length desk.now.board.sessions)) }
        ensures handed { OnOk result (AreHandedOut desk.now.board (length desk.now.board.sessions) self.old.unkept.items self.new.unkept.items) }
        ensures noted { OnOk result (AreAllNoted self.new.unkept.items desk.now.board) }
        ensures stays { OnErr result (self.new ≡ self.old) }
        ensures rest { self.new ≡ record self.old { unkept = self.new.unkept } }
    {
        let records = self.records(alloc, desk)?;
        self.hand_out(desk);
        Ok(records)
    }

    /// The records of the entries that weren't handed out.
    fn records(&self, alloc: Global, desk: &LeaseDesk) -> Result<Vec<Record>, NoMemory>
        requires few { length desk.now.board.sessions ≤ MOST_SESSIONS }
        requires noted { AreAllNoted self.now.unkept.items desk.now.board }
        ensures { IfOk result (λ records. records.items ≡ fresh_records desk.now.board self.now.unkept.items (length desk.now.board.sessions)) }
    {
        let mut records = Vec::new(alloc);
        for s in 0..desk.board.sessions() {
            let book = desk.board.session(s);
            let mut more = self.unkept[s].records(alloc, s as u16, book)?;
            records.append(&mut more)?;
        }
        Ok(records)
    }

    /// These records were handed out.
    fn hand_out(&mut self, desk: &LeaseDesk)
        requires noted { AreAllNoted self.old.unkept.items desk.now.board }
        ensures handed { AreHandedOut desk.now.board (length desk.now.board.sessions) self.old.unkept.items self.new.unkept.items }
        ensures rest { self.new ≡ record self.old { unkept = self.new.unkept } }
    {
        for s in 0..desk.board.sessions() {
            self.unkept[s].hand_out(desk.board.session(s));
        }
    }
}
