//! The messages of the sessions that a library has.

ghost use Rattle.std.specs.Prelude.{◌≡◌, ◌≤◌, ◌<◌, length, OnOk};
ghost use Rattle.lease_desk.specs.Desk.{InTurn, owner_at};
ghost use Rattle.library_desk.specs.Owners.{AreOwners};
ghost use Rattle.library_desk.specs.Serving.{IsLinked, IsInOrder, PumpsTo};

use crate::desk::LibraryDesk;
use crate::owners::Owners;
use crate::shared::Shared;
use catchup_pump::pump;
use gate_io::NoMemory;
use std::alloc::Global;

impl LibraryDesk {
    /// Pumps each session that a library has, in the order of their numbers.
    pub(crate) fn pump_all(
        &mut self,
        alloc: Global,
        shared: &Shared,
        owners: &Owners,
        library: u8,
    ) -> Result<(), NoMemory>
        requires linked { IsLinked shared.now self.old }
        requires library { (1 ≤ library) × (library ≤ length self.old.ends.items) }
        requires ready { IsInOrder self.old }
        requires owners { AreOwners self.old.desk.board owners.now }
        ensures pumps { OnOk result (InTurn (PumpsTo library) (length self.old.desk.board.sessions) self.old self.new) }
        ensures desk { self.new.desk ≡ self.old.desk }
        ensures linked { IsLinked shared.now self.new }
        ensures ready { IsInOrder self.new }
    {
        let sessions = self.desk.board.sessions();
        let mut from = 0;
        while let Some(s) = owners.next(library, from, sessions) {
            self.pump_to(alloc, shared, library, s)?;
            from = s + 1;
        }
        Ok(())
    }

    // Pumps a session that this library has.
    fn pump_to(
        &mut self,
        alloc: Global,
        shared: &Shared,
        library: u8,
        s: usize,
    ) -> Result<(), NoMemory>
        requires linked { IsLinked shared.now self.old }
        requires library { (1 ≤ library) × (library ≤ length self.old.ends.items) }
        requires session { s < length self.old.desk.board.sessions }
        requires owner { owner_at self.old.desk.board s ≡ library }
        requires ready { IsInOrder self.old }
        ensures pumps { OnOk result (PumpsTo library s self.old self.new) }
        ensures desk { self.new.desk ≡ self.old.desk }
        ensures linked { IsLinked shared.now self.new }
        ensures ready { IsInOrder self.new }
    {
        let session = self.desk.board.session(s);
        let place = usize::from(library - 1);
        pump(
            alloc,
            session.inbound(),
            &mut self.cursors[s],
            &shared.notices[place],
            &mut self.ends[place].tail,
        )?;
        Ok(())
    }
}
