//! The libraries of a run begin.

ghost use Rattle.std.specs.Prelude.{◌≡◌, ◌≤◌, ℕ, [], IfOk, Some, length, slice_get};
ghost use Rattle.engine_loop.specs.Starts.{AreLibraryEnds};
ghost use Rattle.engine_loop.specs.LibraryEnds.{LibraryEnds as TheEnds};
ghost use Rattle.serve_run.specs.Workers.{StartsWorker, StartsWorkers};

use crate::workers::Worker;
use engine_loop::LibraryEnds;
use gate_io::{NoMemory, Rows};
use library_api::{Library, LibraryEnds2};
use library_desk::Shared;
use run_report::LibReport;
use std::alloc::Global;

/// The libraries with these ends, which have done nothing and have no line to carry out yet. Each may make so many
/// requests.
pub(crate) fn workers(
    alloc: Global,
    _shared: &Shared,
    ends: Vec<LibraryEnds>,
    asks: u32,
) -> Result<Vec<Worker>, NoMemory>
    requires each { (j : ℕ) (e : TheEnds) → slice_get ends.items j ≡ Some e → AreLibraryEnds _shared.now j e }
    ensures { IfOk result (λ workers. StartsWorkers asks (length ends.items) _shared.now [] workers.items) }
{
    let mut workers = Vec::with_capacity(alloc, ends.len())?;
    for one in ends {
        let place = count_of(workers.as_slice());
        workers.push(worker(alloc, _shared, place, one, asks))?;
    }
    Ok(workers)
}

/// A library with its ends, which has done nothing.
fn worker(alloc: Global, _shared: &Shared, _place: usize, ends: LibraryEnds, asks: u32) -> Worker
    requires { AreLibraryEnds _shared.now _place ends }
    ensures { StartsWorker asks _shared.now [] _place result }
{
    let number = ends.number;
    let ends = LibraryEnds2 {
        number,
        seat: ends.seat,
        tail: ends.tail,
        head: ends.head,
    };
    let library = Library::new(ends, asks);
    let report = LibReport {
        number,
        calls: Rows::of(Vec::new(alloc)),
        reads: 0,
        finished: false,
        waited: library.waited(),
    };
    Worker {
        number,
        library,
        plan: Vec::new(alloc),
        report,
        short: false,
    }
}

/// How many libraries there are so far.
fn count_of(workers: &[Worker]) -> usize
    ensures { result ≡ length workers.now }
{
    workers.len()
}
