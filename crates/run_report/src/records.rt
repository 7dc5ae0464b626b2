//! What a run leaves.

ghost use Rattle.std.specs.Prelude.{◌≡◌};
ghost use Rattle.run_report.specs.Records.{no_run};

use crate::calls::Call;
use engine_end::EngineRecord;
use gate_io::Rows;
use library_api::Waited;
use std::alloc::Global;

/// What a run leaves of a library.
#[derive(Debug, Drop)]
pub struct LibReport {
    pub number: u8,
    /// Its calls in order. Of a served run those are left out whose answer has them made again, and the
    /// calls that tell the engine that all is done.
    pub calls: Rows<Call>,
    /// How many messages its polls gave.
    pub reads: u64,
    /// Of a served run, whether the library carried out its whole plan. Of a run on one thread it is
    /// always true, also where that stopped for want of memory.
    pub finished: bool,
    /// How long it had waited at the end, and of a served run before the engine was told.
    pub waited: Waited,
}

/// What a run leaves.
#[derive(Debug, Drop)]
pub struct RunRecord {
    pub engine: EngineRecord,
    /// The libraries, in the order of their numbers.
    pub libraries: Rows<LibReport>,
}

impl RunRecord {
    /// The record of a run that didn't begin.
    pub fn none(alloc: Global) -> RunRecord
        ensures { result ≡ no_run }
    {
        RunRecord {
            engine: EngineRecord {
                sessions: Rows::of(Vec::new(alloc)),
                connections: Rows::of(Vec::new(alloc)),
                strays: Rows::of(Vec::new(alloc)),
                accepted: 0,
                added: Rows::of(Vec::new(alloc)),
            },
            libraries: Rows::of(Vec::new(alloc)),
        }
    }
}
