//! The engine's side of a run: its turns, one after another.

ghost use Rattle.std.specs.Prelude.{◌≡◌, [], IfOk, OnErr, OnOk, false, true};
ghost use Rattle.engine_loop.specs.Engines.{IsEngine};
ghost use Rattle.engine_loop.specs.Turns.{at_wire};
ghost use Rattle.gate_io.specs.Clock.{TakesReadings};
ghost use Rattle.serve_run.specs.Drives.{DrivesToEnd};
ghost use Rattle.serve_run.specs.Ended.{Awaits};
ghost use Rattle.serve_run.specs.Stops.{DrivesInPart};

use crate::awaited::Awaited;
use engine_loop::Engine;
use gate_io::{Clock, Dial, Gate, NoMemory};
use library_desk::Shared;
use std::alloc::Global;

/// Makes turns until all that the run waits for has come, or as many were made, and answers whether it has come.
/// Behind an idle turn the wire may wait. The gate is told of each turn, and behind the last one that there is none.
pub(crate) fn drive<W: Dial, C: Clock, G: Gate>(
    alloc: Global,
    shared: &Shared,
    turns: u64,
    awaited: &mut Awaited,
    engine: &mut Engine,
    wire: &mut W,
    clock: &mut C,
    gate: &G,
) -> Result<bool, NoMemory>
    requires engine { IsEngine shared.now engine.old (W.door wire.old) (W.link wire.old) }
    requires stands { engine.old.failed ≡ false }
    requires awaits { Awaits awaited.old.connections awaited.old.libraries [] awaited.old }
    ensures drives { IfOk result (λ over. DrivesToEnd awaited.old.connections awaited.old.libraries turns over (λ readings. TakesReadings C.has_read clock.old readings clock.new) (at_wire engine.old (W.door wire.old) (W.link wire.old)) (at_wire engine.new (W.door wire.new) (W.link wire.new))) }
    // Without memory a turn stops.
    ensures stops { OnErr result (DrivesInPart awaited.old.connections awaited.old.libraries turns (at_wire engine.old (W.door wire.old) (W.link wire.old)) engine.new) }
    ensures engine { IsEngine shared.now engine.new (W.door wire.new) (W.link wire.new) }
    ensures stands { OnOk result (engine.new.failed ≡ false) }
    ensures failed { OnErr result (engine.new.failed ≡ true) }
{
    let ended = drive_all(alloc, shared, turns, awaited, engine, wire, clock, gate);
    gate.end();
    ended
}

// Makes the turns.
fn drive_all<W: Dial, C: Clock, G: Gate>(
    alloc: Global,
    shared: &Shared,
    turns: u64,
    awaited: &mut Awaited,
    engine: &mut Engine,
    wire: &mut W,
    clock: &mut C,
    gate: &G,
) -> Result<bool, NoMemory>
    requires engine { IsEngine shared.now engine.old (W.door wire.old) (W.link wire.old) }
    requires stands { engine.old.failed ≡ false }
    requires awaits { Awaits awaited.old.connections awaited.old.libraries [] awaited.old }
    ensures drives { IfOk result (λ over. DrivesToEnd awaited.old.connections awaited.old.libraries turns over (λ readings. TakesReadings C.has_read clock.old readings clock.new) (at_wire engine.old (W.door wire.old) (W.link wire.old)) (at_wire engine.new (W.door wire.new) (W.link wire.new))) }
    // Without memory a turn stops.
    ensures stops { OnErr result (DrivesInPart awaited.old.connections awaited.old.libraries turns (at_wire engine.old (W.door wire.old) (W.link wire.old)) engine.new) }
    ensures engine { IsEngine shared.now engine.new (W.door wire.new) (W.link wire.new) }
    ensures stands { OnOk result (engine.new.failed ≡ false) }
    ensures failed { OnErr result (engine.new.failed ≡ true) }
{
    for _made in 0..turns {
        if awaited.is_over(engine) {
            return Ok(true);
        }
        let turn = engine.turn_and_pause(alloc, shared, wire, clock, gate)?;
        awaited.hear(turn.libs.as_slice());
    }
    Ok(awaited.is_over(engine))
}
