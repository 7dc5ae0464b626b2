//! All that an engine and its libraries begin with.

ghost use Rattle.std.specs.Prelude.{IfOk};
ghost use Rattle.engine_config.specs.Config.{IsConfig};
ghost use Rattle.engine_start.specs.Starts.{StartsDesk, StartsEngine, StartsLibraries, StartsSessions, StartsTable};
ghost use Rattle.library_desk.specs.Serving.{IsInOrder, IsLinked};

use crate::assembling::assemble;
use crate::ends::LibraryEnds;
use crate::sessions::board;
use engine_config::Config;
use gate_io::NoMemory;
use lease_words::Leases;
use library_desk::{LibraryDesk, Shared};
use std::alloc::Global;
use switchboard::laws::boards_stay_ready;

/// Makes the sessions, the lease table and the rings of a configuration, with the engine's side and that of
/// each library, in the order of their numbers from 1. The libraries' beats stand since the moment, in
/// milliseconds.
pub fn start(
    alloc: Global,
    config: &Config,
    moment: u64,
) -> Result<(LibraryDesk, Shared, Vec<LibraryEnds>), NoMemory>
    requires config { IsConfig config.now }
    ensures linked { IfOk result (λ made. IsLinked made.1 made.0) }
    ensures in_order { IfOk result (λ made. IsInOrder made.0) }
    ensures sessions { IfOk result (λ made. StartsSessions config.now made.0.desk.board) }
    ensures table { IfOk result (λ made. StartsTable config.now made.1) }
    ensures desk { IfOk result (λ made. StartsDesk config.now moment made.1 made.0) }
    ensures engine { IfOk result (λ made. StartsEngine config.now made.1 made.0.ends.items) }
    ensures libraries { IfOk result (λ made. StartsLibraries config.now made.1 made.2.items) }
{
    boards_stay_ready();
    let sessions = board(alloc, config)?;
    let (leases, seat, seats) = Leases::new(
        alloc,
        config.names.as_slice().len() as u16,
        config.libraries,
        config.lane,
        config.sends,
    )?;
    let (desk, shared, libraries) = assemble(alloc, config, moment, sessions, leases, seat, seats)?;
    Ok((desk, shared, libraries))
}
