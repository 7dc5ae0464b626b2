//! All that an engine and its libraries go on with, behind records that were read back.

ghost use Rattle.std.specs.Prelude.{◌≡◌, ℕ, ◌<◌, IfOk, length};
ghost use Rattle.engine_config.specs.Config.{IsConfig};
ghost use Rattle.engine_start.specs.Restarts.{AreRecordsOf, NotesClosing, RestartsSessions, ResumesLeases, ResumesTable, hold_until};
ghost use Rattle.engine_start.specs.Revived.{CanGoOn, GoOnBehind};
ghost use Rattle.engine_start.specs.Starts.{StartsDesk, StartsEngine, StartsLibraries};
ghost use Rattle.library_desk.specs.Serving.{IsInOrder, IsLinked};

use crate::assembling::assemble;
use crate::closing::restart;
use crate::ends::LibraryEnds;
use crate::resuming::resume_table;
use crate::reviving::{Revived, revive};
use engine_config::Config;
use gate_io::{LAST_MOMENT, NoMemory};
use lease_core::Record;
use library_desk::{LibraryDesk, Shared};
use session_book::Unkept;
use std::alloc::Global;
use switchboard::Switchboard;
use switchboard::laws::boards_stay_ready;

/// Makes what `start` makes, behind the records of the runs before: each session goes on with its
/// journal, its logs and the number that it expected behind its last record, and the lease table behind
/// the last leases. A journal that a run left open is closed first. Where it ends in a release with an
/// heir, its hold follows, until the configured time behind the moment, in milliseconds, at most
/// `LAST_MOMENT`; an active lease is taken back, and a bound connection is left. What was recovered is
/// kept already, and these entries are noted as new for each session. Beside the time of `start` it
/// takes time in proportion to the records, and it moves their bodies.
///
/// Each record is of a session of the configuration, its expected number is from 1 to one more than
/// seq_gaps' `MAX_NUMBER`, and one of a message that was numbered has a body that can be written. Each
/// session's entries are a run, in which it can be granted as often as is configured.
pub fn start_from(
    alloc: Global,
    config: &Config,
    moment: u64,
    records: Vec<Record>,
) -> Result<(LibraryDesk, Shared, Vec<LibraryEnds>, Vec<Unkept>), NoMemory>
    requires config { IsConfig config.now }
    requires records { AreRecordsOf config.now records.items }
    ensures linked { IfOk result (λ made. IsLinked made.1 made.0) }
    ensures in_order { IfOk result (λ made. IsInOrder made.0) }
    ensures sessions { IfOk result (λ made. RestartsSessions config.now (hold_until config.now moment) records.items made.0.desk.board) }
    ensures table { IfOk result (λ made. ResumesTable config.now made.0.desk.board made.1) }
    ensures leases { IfOk result (λ made. (s : ℕ) → s < length config.now.names → ResumesLeases made.0.desk.board made.0.desk.seat s) }
    ensures desk { IfOk result (λ made. StartsDesk config.now moment made.1 made.0) }
    ensures engine { IfOk result (λ made. StartsEngine config.now made.1 made.0.ends.items) }
    ensures libraries { IfOk result (λ made. StartsLibraries config.now made.1 made.2.items) }
    ensures unkept { IfOk result (λ made. NotesClosing config.now records.items made.0.desk.board made.3.items) }
{
    boards_stay_ready();
    let until = hold_until(config, moment);
    let revived = revive(alloc, config, records)?;
    let (board, unkept) = restart_sessions(alloc, config, until, revived)?;
    let (leases, seat, seats) = resume_table(alloc, config, &board)?;
    let (desk, shared, libraries) = assemble(alloc, config, moment, board, leases, seat, seats)?;
    Ok((desk, shared, libraries, unkept))
}

// The moment until which the heirs are waited for whose holds were missing, at most `LAST_MOMENT`.
fn hold_until(config: &Config, moment: u64) -> u64
    ensures { result ≡ hold_until config.now moment }
{
    moment.saturating_add(config.hold).min(LAST_MOMENT)
}

// The sessions behind what was read back of each, and what of their journals is to be kept.
fn restart_sessions(
    alloc: Global,
    config: &Config,
    until: u64,
    revived: Vec<Revived>,
) -> Result<(Switchboard, Vec<Unkept>), NoMemory>
    requires config { IsConfig config.now }
    requires revived { CanGoOn (length config.now.names) revived.items }
    ensures { IfOk result (λ made. GoOnBehind config.now until revived.items (length config.now.names) made.0 made.1.items) }
{
    boards_stay_ready();
    let names = config.names.as_slice();
    let dialled = config.dialled.as_slice();
    let mut board = Switchboard::new(alloc);
    let mut unkept = Vec::new(alloc);
    for one in revived {
        let s = board.sessions();
        let (book, new) = restart(alloc, &names[s], &dialled[s], until, one)?;
        board.add(book)?;
        unkept.push(new)?;
    }
    Ok((board, unkept))
}
