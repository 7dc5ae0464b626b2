//! The engine and a library meet.

ghost use Rattle.std.specs.Prelude.{◌≡◌, ◌<◌, ◌+◌, ℕ, false, length};
ghost use Rattle.engine_loop.specs.Engines.{IsEngine};
ghost use Rattle.gate_io.specs.Wire.{Door, Link};
ghost use Rattle.script_run.specs.Runs.{IsCaller, MeetsCaller};

use crate::callers::Caller;
use engine_loop::Engine;
use library_desk::Shared;

/// Tells the engine and the library at a place what the other has done.
pub(crate) fn meet(engine: &mut Engine, shared: &Shared, caller: &mut Caller, _place: usize)
    requires engine { (door : Door) × (links : ℕ → Link) × IsEngine shared.now engine.old door links }
    requires stands { engine.old.failed ≡ false }
    requires caller { IsCaller shared.now _place caller.old }
    requires place { _place < length shared.now.commands.items }
    ensures meets { MeetsCaller engine.old engine.new caller.old caller.new }
    ensures engine { (door : Door) (links : ℕ → Link) → IsEngine shared.now engine.old door links → IsEngine shared.now engine.new door links }
    ensures stands { engine.new.failed ≡ false }
    ensures caller { IsCaller shared.now _place caller.new }
{
    let number = caller.number;
    let ends = caller.library.ends();
    engine.meet(
        shared,
        number,
        &mut ends.seat,
        &mut ends.tail,
        &mut ends.head,
    );
}
