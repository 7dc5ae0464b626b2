//! The engine's thread.

ghost use Rattle.std.specs.Prelude.{◌≡◌, OnErr, OnOk, false};
ghost use Rattle.engine_loop.specs.Engines.{IsEngine};
ghost use Rattle.engine_loop.specs.Turns.{at_wire};
ghost use Rattle.example_broker.specs.Turns.{Drives, DrivesShort};

use crate::floor::Floor;
use crate::watching::Watch;
use engine_loop::Engine;
use gate_io::{Clock, Dial, NoMemory};
use library_desk::{LibTurn, Shared};
use std::alloc::Global;
use std::rt;
use std::sync::Wait;
use thread_bells::BellGate;

/// Makes turns until so many connections came and have ended, and each library said that it is done.
pub(crate) fn drive<R: Eprint + Wait + rt::Clock, W: Dial, C: Clock>(
    rt: &R,
    alloc: Global,
    shared: &Shared,
    floor: &Floor,
    connections: usize,
    watch: &mut Watch,
    engine: &mut Engine,
    wire: &mut W,
    clock: &mut C,
) -> Result<(), NoMemory>
    requires engine { IsEngine shared.now engine.old (W.door wire.old) (W.link wire.old) }
    requires stands { engine.old.failed ≡ false }
    ensures drives { OnOk result (Drives (at_wire engine.old (W.door wire.old) (W.link wire.old)) (at_wire engine.new (W.door wire.new) (W.link wire.new))) }
    ensures short { OnErr result (DrivesShort (at_wire engine.old (W.door wire.old) (W.link wire.old)) (at_wire engine.new (W.door wire.new) (W.link wire.new))) }
    ensures engine { IsEngine shared.now engine.new (W.door wire.new) (W.link wire.new) }
    ensures stands { OnOk result (engine.new.failed ≡ false) }
{
    let outcome = drive_all(
        rt,
        alloc,
        shared,
        floor,
        connections,
        watch,
        engine,
        wire,
        clock,
    );
    floor.stop();
    outcome
}

fn drive_all<R: Eprint + Wait + rt::Clock, W: Dial, C: Clock>(
    rt: &R,
    alloc: Global,
    shared: &Shared,
    floor: &Floor,
    connections: usize,
    watch: &mut Watch,
    engine: &mut Engine,
    wire: &mut W,
    clock: &mut C,
) -> Result<(), NoMemory>
    requires engine { IsEngine shared.now engine.old (W.door wire.old) (W.link wire.old) }
    requires stands { engine.old.failed ≡ false }
    ensures drives { OnOk result (Drives (at_wire engine.old (W.door wire.old) (W.link wire.old)) (at_wire engine.new (W.door wire.new) (W.link wire.new))) }
    ensures short { OnErr result (DrivesShort (at_wire engine.old (W.door wire.old) (W.link wire.old)) (at_wire engine.new (W.door wire.new) (W.link wire.new))) }
    ensures engine { IsEngine shared.now engine.new (W.door wire.new) (W.link wire.new) }
    ensures stands { OnOk result (engine.new.failed ≡ false) }
{
    let gate = BellGate::new(rt, floor.bells());
    let mut working = shared.commands.len();
    'turning: for _turn in 0..u64::MAX {
        let turn = engine.turn_and_pause(alloc, shared, wire, clock, &gate)?;
        watch.look(rt, engine, floor)?;
        working = working.saturating_sub(ended_in(turn.libs.as_slice()));
        if is_over(watch, floor, connections, working) {
            return Ok(());
        }
    }
    Ok(())
}

/// Tells the libraries, once so many connections came and have ended. Answers whether each library is done then.
fn is_over(watch: &Watch, floor: &Floor, connections: usize, working: usize) -> bool {
    if watch.connections() != (connections, false) {
        return false;
    }
    floor.close();
    working == 0
}

/// How many libraries said in a turn that they are done.
fn ended_in(libs: &[LibTurn]) -> usize {
    libs.iter()
        .filter(|turn| matches!(turn, LibTurn::Ended { .. }))
        .count()
}
