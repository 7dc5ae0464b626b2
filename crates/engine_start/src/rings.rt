//! The two rings of a library.

ghost use Rattle.std.specs.Prelude.{◌≡◌, IfOk};
ghost use Rattle.engine_start.specs.Sides.{AreNewRings};

use gate_io::NoMemory;
use lease_core::{Command, Notice};
use library_desk::EngineEnds;
use ring_links::{Head, Ring, Tail, ring};
use std::alloc::Global;

/// For how many commands, and for how many notices, a library's rings have room.
pub const RING_SLOTS: u64 = 256;

/// The two rings of a library with both sides' ends.
#[derive(Drop)]
pub(crate) struct Rings {
    pub(crate) commands: Ring<Command>,
    pub(crate) notices: Ring<Notice>,
    pub(crate) engine: EngineEnds,
    pub(crate) tail: Tail<Command>,
    pub(crate) head: Head<Notice>,
}

pub(crate) fn make_rings(alloc: Global) -> Result<Rings, NoMemory>
    ensures { IfOk result AreNewRings }
{
    let (commands, tail, engine_head) = ring(alloc, RING_SLOTS)?;
    let (notices, engine_tail, head) = ring(alloc, RING_SLOTS)?;
    let engine = EngineEnds {
        head: engine_head,
        tail: engine_tail,
    };
    Ok(Rings {
        commands,
        notices,
        engine,
        tail,
        head,
    })
}
