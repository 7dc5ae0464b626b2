//! The two libraries of a run begin.

ghost use Rattle.std.specs.Prelude.{◌≡◌, ℕ, IfOk, Some, slice_get};
ghost use Rattle.engine_start.specs.Starts.{AreLibraryEnds};
ghost use Rattle.engine_start.specs.declared.ends.LibraryEnds.{LibraryEnds as TheEnds};
ghost use Rattle.example_broker.specs.Traders.{AreNewTraders, AreTraders, IsNewTrader, IsTrader};

use crate::trading::{Desk, Trader};
use engine_start::LibraryEnds;
use gate_io::NoMemory;
use library_api::{Library, LibraryEnds2};
use library_desk::Shared;
use std::alloc::Global;

/// Both libraries.
#[derive(Drop)]
pub struct Traders {
    pub(crate) first: Trader,
    pub(crate) second: Trader,
}

/// The libraries with these ends, which have done nothing.
pub(crate) fn make_traders(
    alloc: Global,
    shared: &Shared,
    ends: Vec<LibraryEnds>,
    asks: u32,
    sessions: usize,
) -> Result<Traders, NoMemory>
    requires each { (j : ℕ) (e : TheEnds) → slice_get ends.items j ≡ Some e → AreLibraryEnds shared.now j e }
    ensures traders { IfOk result (AreTraders shared.now) }
    ensures new { IfOk result (AreNewTraders shared.now asks sessions) }
{
    let mut ends = ends.into_iter();
    let first = ends.next().ok_or(NoMemory::OutOfMemory)?;
    let second = ends.next().ok_or(NoMemory::OutOfMemory)?;
    Ok(Traders {
        first: trader(alloc, shared, 0, first, asks, sessions)?,
        second: trader(alloc, shared, 1, second, asks, sessions)?,
    })
}

/// The library at a place.
fn trader(
    alloc: Global,
    _shared: &Shared,
    _place: usize,
    ends: LibraryEnds,
    asks: u32,
    sessions: usize,
) -> Result<Trader, NoMemory>
    requires { AreLibraryEnds _shared.now _place ends }
    ensures trader { IfOk result (IsTrader _shared.now) }
    ensures new { IfOk result (IsNewTrader _shared.now _place asks sessions) }
{
    let number = ends.number;
    let leases = vec![in alloc; 0u32; sessions]?;
    let ends = LibraryEnds2 {
        number,
        seat: ends.seat,
        tail: ends.tail,
        head: ends.head,
    };
    Ok(Trader {
        number,
        library: Library::new(ends, asks),
        desk: Desk {
            number,
            leases,
            rounds: 0,
            reads: 0,
        },
        short: false,
    })
}
