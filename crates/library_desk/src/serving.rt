//! One library in a turn.

ghost use Rattle.std.specs.Prelude.{◌≡◌, ◌≤◌, length, IfOk, OnOk, OnErr};
ghost use Rattle.library_desk.specs.Owners.{AreOwners};
ghost use Rattle.library_desk.specs.Stops.{StopsServing};
ghost use Rattle.library_desk.specs.Serving.{Answers, HasRoomFor, IsLinked, IsInOrder, LooksAt, OnPopped, Serves, TellsTo};
ghost use Rattle.switchboard.specs.Stops.{NothingIsTold};

use crate::desk::LibraryDesk;
use crate::ends::Next;
use crate::owners::Owners;
use crate::shared::Shared;
use gate_io::{LAST_MOMENT, NoMemory};
use lease_core::{Command, Notice};
use std::alloc::Global;

/// What became of a library's command in a turn.
#[derive(Clone, Copy, Debug, PartialEq, Eq)]
pub enum LibTurn {
    /// The library's notice ring had no room by these counts, so no command was popped.
    NoRoom { pushed: u64, taken: u64 },
    /// There was no command.
    NoCommand,
    /// The request with this number was answered.
    Answered { nr: u32 },
    /// The library asks nothing more, and says whether all its work was done.
    Ended { finished: bool },
}

impl LibraryDesk {
    /// Serves a library in a turn: its beat is heard; where it fell silent, its sessions are taken back;
    /// where its ring of notices has room, its next command is popped if there is one, and answered if
    /// it is a request; and the sessions that it has are pumped. A hold that a taking back makes lapses
    /// at the moment `until`. Behind Ok `owners` tells who has each session then. Without memory what
    /// was done stays, each event whole, and a request that was popped may have no answer.
    pub fn serve(
        &mut self,
        alloc: Global,
        shared: &Shared,
        owners: &mut Owners,
        library: u8,
        at: u64,
        until: u64,
    ) -> Result<LibTurn, NoMemory>
        requires linked { IsLinked shared.now self.old }
        requires library { (1 ≤ library) × (library ≤ length self.old.ends.items) }
        requires moment { at ≤ LAST_MOMENT }
        requires ready { IsInOrder self.old }
        requires owners { AreOwners self.old.desk.board owners.old }
        ensures serves { IfOk result (λ turn. Serves library at until self.old self.new turn) }
        ensures stops { OnErr result (StopsServing library at until self.old self.new) }
        ensures owners { OnOk result (AreOwners self.new.desk.board owners.new) }
        ensures linked { IsLinked shared.now self.new }
        ensures ready { IsInOrder self.new }
        ensures none_comes { length self.new.desk.board.connections ≡ length self.old.desk.board.connections }
    {
        if self.hear(shared, library, at) {
            self.take_back_all(alloc, shared, owners, library, at, until)?;
        }
        let turn = self.answer(shared, owners, library)?;
        self.pump_all(alloc, shared, owners, library)?;
        Ok(turn)
    }

    // Pops a library's next command, where there is room for a notice, and answers a request.
    fn answer(
        &mut self,
        shared: &Shared,
        owners: &mut Owners,
        library: u8,
    ) -> Result<LibTurn, NoMemory>
        requires linked { IsLinked shared.now self.old }
        requires library { (1 ≤ library) × (library ≤ length self.old.ends.items) }
        requires ready { IsInOrder self.old }
        requires owners { AreOwners self.old.desk.board owners.old }
        ensures answers { IfOk result (λ turn. Answers library self.old self.new turn) }
        ensures owners { OnOk result (AreOwners self.new.desk.board owners.new) }
        ensures nothing { OnErr result (NothingIsTold self.old.desk.board self.new.desk.board) }
        ensures linked { IsLinked shared.now self.new }
        ensures ready { IsInOrder self.new }
        ensures none_comes { length self.new.desk.board.connections ≡ length self.old.desk.board.connections }
    {
        match self.look(shared, library) {
            Next::Full { pushed, taken } => Ok(LibTurn::NoRoom { pushed, taken }),
            Next::Nothing => Ok(LibTurn::NoCommand),
            Next::Popped(Command::Done { finished }) => Ok(LibTurn::Ended { finished }),
            Next::Popped(Command::Request { nr, s, from }) => {
                let notice = self.reply(shared, library, nr, s, from)?;
                *owners = Owners::of(&self.desk.board);
                self.tell(shared, library, notice);
                Ok(LibTurn::Answered { nr })
            }
        }
    }

    // Pops a library's next command, where there is room for a notice.
    fn look(&mut self, shared: &Shared, library: u8) -> Next
        requires linked { IsLinked shared.now self.old }
        requires library { (1 ≤ library) × (library ≤ length self.old.ends.items) }
        requires ready { IsInOrder self.old }
        ensures looks { LooksAt library result self.old self.new }
        ensures room { OnPopped result (HasRoomFor library self.new) }
        ensures linked { IsLinked shared.now self.new }
        ensures ready { IsInOrder self.new }
        ensures none_comes { length self.new.desk.board.connections ≡ length self.old.desk.board.connections }
    {
        let place = usize::from(library - 1);
        self.ends[place].next(&shared.commands[place], &shared.notices[place])
    }

    // Tells a library something, for which its ring has room.
    fn tell(&mut self, shared: &Shared, library: u8, notice: Notice)
        requires linked { IsLinked shared.now self.old }
        requires library { (1 ≤ library) × (library ≤ length self.old.ends.items) }
        requires ready { IsInOrder self.old }
        requires room { HasRoomFor library self.old }
        ensures tells { TellsTo library notice self.old self.new }
        ensures linked { IsLinked shared.now self.new }
        ensures ready { IsInOrder self.new }
        ensures none_comes { length self.new.desk.board.connections ≡ length self.old.desk.board.connections }
    {
        let place = usize::from(library - 1);
        self.ends[place].tell(&shared.notices[place], notice);
    }
}
