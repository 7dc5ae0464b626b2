//! Which library fell silent, and what becomes of its sessions.

ghost use Rattle.std.specs.Prelude.{◌≡◌, ◌≤◌, ◌↔◌, ℕ, length, IsTrue, OnErr, OnOk};
ghost use Rattle.lease_desk.specs.Desk.{InTurn, TakesBackFrom, TakesBackSome};
ghost use Rattle.lease_words.specs.Views.{heard_of};
ghost use Rattle.library_desk.specs.Owners.{AreOwners};
ghost use Rattle.library_desk.specs.Serving.{Hears, IsLinked, IsInOrder, IsSilent};

use crate::desk::LibraryDesk;
use crate::owners::Owners;
use crate::shared::Shared;
use gate_io::{LAST_MOMENT, NoMemory};
use lease_desk::laws::agreement_stays;
use std::alloc::Global;

impl LibraryDesk {
    /// Loads a library's beat and notes it. Answers whether the library fell silent: its beat stood still
    /// for the timeout.
    pub fn hear(&mut self, shared: &Shared, library: u8, at: u64) -> bool
        requires linked { IsLinked shared.now self.old }
        requires library { (1 ≤ library) × (library ≤ length self.old.ends.items) }
        requires ready { IsInOrder self.old }
        ensures hears { Hears library at (heard_of self.new.desk.seat.knows library).count self.old self.new }
        ensures silent { IsTrue result ↔ IsSilent self.old.watch library at (heard_of self.new.desk.seat.knows library).count }
        ensures linked { IsLinked shared.now self.new }
        ensures ready { IsInOrder self.new }
        ensures none_comes { length self.new.desk.board.connections ≡ length self.old.desk.board.connections }
    {
        agreement_stays();
        let beat = shared.leases.beats(&mut self.desk.seat, library);
        self.watch.note(library, beat, at).is_some()
    }

    /// Takes back each session that a silent library has, in the order of their numbers.
    pub fn take_back_all(
        &mut self,
        alloc: Global,
        shared: &Shared,
        owners: &mut Owners,
        library: u8,
        at: u64,
        until: u64,
    ) -> Result<(), NoMemory>
        requires linked { IsLinked shared.now self.old }
        requires library { (1 ≤ library) × (library ≤ length self.old.ends.items) }
        requires moment { at ≤ LAST_MOMENT }
        requires ready { IsInOrder self.old }
        ensures taken_back { OnOk result (InTurn (TakesBackFrom library at until) (length self.old.desk.board.sessions) self.old.desk self.new.desk) }
        ensures stops { OnErr result (TakesBackSome library at until self.old.desk self.new.desk) }
        ensures owners { OnOk result (AreOwners self.new.desk.board owners.new) }
        ensures rest { self.new ≡ record self.old { desk = self.new.desk } }
        ensures linked { IsLinked shared.now self.new }
        ensures ready { IsInOrder self.new }
        ensures none_comes { length self.new.desk.board.connections ≡ length self.old.desk.board.connections }
    {
        self.desk
            .take_back_all(alloc, &shared.leases, library, at, until)?;
        *owners = Owners::of(&self.desk.board);
        Ok(())
    }
}
