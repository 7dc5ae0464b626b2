//! What a library asks, and what it is told.

ghost use Rattle.std.specs.Prelude.{◌≡◌, ◌≤◌, length, IfOk, OnErr};
ghost use Rattle.library_desk.specs.Serving.{IsLinked, IsInOrder, RepliesTo};
ghost use Rattle.switchboard.specs.Stops.{NothingIsTold};

use crate::desk::{LibraryDesk, Stray};
use crate::shared::Shared;
use catchup_pump::Cursor;
use gate_io::NoMemory;
use lease_core::laws::lines_tell_the_owner;
use lease_core::{Notice, Reply, Why};

impl LibraryDesk {
    /// Answers a request. A granted session's pump begins where the replay is to begin.
    pub(crate) fn reply(
        &mut self,
        shared: &Shared,
        library: u8,
        nr: u32,
        s: u16,
        from: u64,
    ) -> Result<Notice, NoMemory>
        requires linked { IsLinked shared.now self.old }
        requires library { (1 ≤ library) × (library ≤ length self.old.ends.items) }
        requires ready { IsInOrder self.old }
        ensures replies { IfOk result (λ notice. RepliesTo library nr s from self.old self.new notice) }
        ensures nothing { OnErr result (NothingIsTold self.old.desk.board self.new.desk.board) }
        ensures linked { IsLinked shared.now self.new }
        ensures ready { IsInOrder self.new }
        ensures none_comes { length self.new.desk.board.connections ≡ length self.old.desk.board.connections }
        ensures ends { self.new.ends ≡ self.old.ends }
    {
        if usize::from(s) >= self.desk.board.sessions() {
            self.strays.push(Stray { library, nr, s })?;
            let why = Why::UnknownSession { s };
            return Ok(Notice::Refused { nr, s, why });
        }
        lines_tell_the_owner();
        let reply = self.desk.request(&shared.leases, s, library, nr, from)?;
        match reply {
            Reply::Granted { lease, start } => {
                self.cursors[usize::from(s)] = Cursor { s, lease, at: from };
                Ok(Notice::Granted {
                    nr,
                    s,
                    lease,
                    from,
                    start,
                })
            }
            Reply::Refused(why) => Ok(Notice::Refused { nr, s, why }),
        }
    }
}
