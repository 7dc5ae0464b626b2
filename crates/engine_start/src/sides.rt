//! The rings of all libraries, and the ends of both sides.

ghost use Rattle.std.specs.Prelude.{◌≡◌, [], ◌∷◌, ◌++◌, IfOk, OnOk};
ghost use Rattle.engine_start.specs.Sides.{AreNewRings, AreSides, Adds};

use crate::ends::LibraryEnds;
use crate::rings::{Rings, make_rings};
use gate_io::NoMemory;
use lease_core::{Command, Notice};
use lease_words::LibrarySeat;
use library_desk::EngineEnds;
use ring_links::Ring;
use std::alloc::Global;

/// The rings of the libraries and the ends of both sides, in the order of the libraries' numbers.
#[derive(Drop)]
pub(crate) struct Sides {
    pub(crate) commands: Vec<Ring<Command>>,
    pub(crate) notices: Vec<Ring<Notice>>,
    pub(crate) engine: Vec<EngineEnds>,
    pub(crate) libraries: Vec<LibraryEnds>,
}

impl Sides {
    fn new(alloc: Global) -> Sides
        ensures { AreSides [] result }
    {
        Sides {
            commands: Vec::new(alloc),
            notices: Vec::new(alloc),
            engine: Vec::new(alloc),
            libraries: Vec::new(alloc),
        }
    }

    // The rings of the next library, whose seat this is.
    fn add(&mut self, seat: LibrarySeat, rings: Rings) -> Result<(), NoMemory>
        ensures { OnOk result (Adds seat rings self.old self.new) }
    {
        let Rings {
            commands,
            notices,
            engine,
            tail,
            head,
        } = rings;
        self.commands.push(commands)?;
        self.notices.push(notices)?;
        self.engine.push(engine)?;
        self.libraries.push(LibraryEnds {
            number: seat.number(),
            seat,
            tail,
            head,
        })?;
        Ok(())
    }
}

/// The rings of the libraries whose seats these are.
#[tactic(auto, using(crate::proofs::NewEnds::sides_more))]
pub(crate) fn make_sides(alloc: Global, seats: Vec<LibrarySeat>) -> Result<Sides, NoMemory>
    ensures { IfOk result (AreSides seats.items) }
{
    let mut sides = Sides::new(alloc);
    for seat in seats {
        sides.add(seat, make_rings(alloc)?)?;
    }
    Ok(sides)
}
