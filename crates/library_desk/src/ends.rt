//! The engine's ends of a library's two rings.

ghost use Rattle.std.specs.Prelude.{◌≡◌, length};
ghost use Rattle.library_desk.specs.Serving.{Finds, Looks, Tells};
ghost use Rattle.ring_links.specs.Ends.{HasRoom};

use lease_core::{Command, Notice};
use ring_links::{Head, Ring, Tail};

/// The engine's ends of a library's two rings: that at which it pops the library's commands, and that at
/// which it pushes notices.
#[derive(Debug, Drop)]
pub struct EngineEnds {
    pub head: Head<Command>,
    pub tail: Tail<Notice>,
}

/// What the engine finds at a library's rings.
#[derive(Clone, Copy, Debug, PartialEq, Eq)]
pub(crate) enum Next {
    /// The ring of notices has no room by these counts, so no command was popped.
    Full { pushed: u64, taken: u64 },
    /// There is no command.
    Nothing,
    /// The oldest command.
    Popped(Command),
}

impl EngineEnds {
    /// Pops the library's next command, where there is room for the notice that answers it.
    pub(crate) fn next(&mut self, commands: &Ring<Command>, notices: &Ring<Notice>) -> Next
        requires commands { self.old.head.ring ≡ commands.now }
        requires notices { self.old.tail.ring ≡ notices.now }
        ensures finds { Finds notices.now.capacity self.old self.new result }
        ensures looks { Looks self.old self.new }
    {
        let room = notices.room(&mut self.tail);
        if room.pushed - room.taken == notices.capacity() || room.pushed == u64::MAX {
            return Next::Full {
                pushed: room.pushed,
                taken: room.taken,
            };
        }
        match commands.pop(&mut self.head) {
            Some(command) => Next::Popped(command),
            None => Next::Nothing,
        }
    }

    /// Pushes a notice into the ring, which has room for it.
    pub(crate) fn tell(&mut self, notices: &Ring<Notice>, notice: Notice)
        requires notices { self.old.tail.ring ≡ notices.now }
        requires room { HasRoom notices.now.capacity (length self.old.tail.pushed) self.old.tail.taken }
        ensures { Tells notice self.old self.new }
    {
        let Ok(()) = notices.push(&mut self.tail, notice) else {
            unreachable!()
        };
    }
}
