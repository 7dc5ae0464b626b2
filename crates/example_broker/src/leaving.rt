//! What a run leaves.

ghost use Rattle.std.specs.Prelude.{ℕ, ◌≡◌, [], ◌∷◌, IfOk};
ghost use Rattle.std.specs.List.{All};
ghost use Rattle.engine_end.specs.Records.{HasLawfulJournal};
ghost use Rattle.engine_loop.specs.Engines.{IsEngine};
ghost use Rattle.gate_io.specs.Wire.{Door, Link};
ghost use Rattle.example_broker.specs.Leaves.{Leaves, report_of};
ghost use Rattle.example_broker.specs.Traders.{AreTraders};

use crate::starting::Traders;
use crate::trading::Trader;
use engine_loop::Engine;
use gate_io::{NoMemory, Rows};
use lease_words::LibrarySeat;
use library_desk::Shared;
use run_report::{LibReport, RunRecord};
use std::alloc::Global;

/// Ends a run: hands out what engine and libraries leave.
pub(crate) fn leave(
    alloc: Global,
    engine: Engine,
    shared: &Shared,
    traders: Traders,
) -> Result<RunRecord, NoMemory>
    requires engine { (door : Door) × (links : ℕ → Link) × IsEngine shared.now engine door links }
    requires traders { AreTraders shared.now traders }
    ensures leaves { IfOk result (Leaves engine traders) }
    ensures journals { IfOk result (λ left. All HasLawfulJournal left.engine.sessions) }
{
    let Traders { first, second } = traders;
    let (first_seat, first) = parts(alloc, first);
    let (second_seat, second) = parts(alloc, second);
    let libraries = Rows::of(Vec::from_array(alloc, [first, second])?);
    let seats = seats(alloc, first_seat, second_seat)?;
    match engine.finish(alloc, shared, seats) {
        Ok(engine) => Ok(RunRecord { engine, libraries }),
        Err((why, _left)) => Err(why),
    }
}

/// Both libraries' seats.
fn seats(
    alloc: Global,
    first: LibrarySeat,
    second: LibrarySeat,
) -> Result<Vec<LibrarySeat>, NoMemory>
    ensures { IfOk result (λ seats. seats.items ≡ first ∷ second ∷ []) }
{
    Ok(Vec::from_array(alloc, [first, second])?)
}

/// A library's seat, and its report: how many messages it read. Its calls aren't kept.
fn parts(alloc: Global, trader: Trader) -> (LibrarySeat, LibReport)
    ensures seat { result.0 ≡ trader.library.ends.seat }
    ensures report { result.1 ≡ report_of trader }
{
    let Trader {
        number,
        library,
        desk,
        short,
    } = trader;
    let report = LibReport {
        number,
        calls: Rows::of(Vec::new(alloc)),
        reads: desk.reads,
        finished: !short,
        waited: library.waited(),
    };
    (library.seat(), report)
}
