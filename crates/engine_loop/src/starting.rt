//! An engine begins.

ghost use Rattle.std.specs.Prelude.{◌≡◌, ◌+◌, ◌<◌, ◌≤◌, ℕ, length, replicate, IfOk, OnOk};
ghost use Rattle.std.specs.Option.{is_none};
ghost use Rattle.connection_core.specs.declared.limits.TheConstants.{MOST_READ};
ghost use Rattle.engine_config.specs.Config.{IsConfig, dial_of, names_of};
ghost use Rattle.engine_loop.specs.Engines.{IsAtWork, IsOnline};
ghost use Rattle.engine_loop.specs.Starts.{HasNoLines, StartsDials, StartsFigures, StartsLines, StartsRoutes, dialler_of, library_desk_of, room_of, wire_desk_of};
ghost use Rattle.engine_start.specs.Restarts.{AreRecordsOf, NotesClosing, RestartsSessions, ResumesLeases, ResumesTable, hold_until};
ghost use Rattle.engine_start.specs.Starts.{StartsDesk, StartsEngine, StartsLibraries, StartsSessions, StartsTable};
ghost use Rattle.gate_io.specs.Wire.{Door, Link};
ghost use Rattle.session_desk.specs.Steps.{nothing_noted};

use crate::engine::Engine;
use connection_core::MOST_READ;
use engine_config::Config;
use engine_end::RecordRoom;
use engine_start::LibraryEnds;
use gate_io::{Bytes, LAST_MOMENT, NoMemory};
use lease_core::Record;
use library_desk::{LibraryDesk, Shared};
use session_book::Unkept;
use session_core::Names;
use session_desk::Routes;
use std::alloc::Global;
use switchboard::laws::boards_stay_ready;
use wire_desk::laws::{places_stay_apart, places_stay_in_order};
use wire_desk::{Dialler, WireDesk};

/// An engine that made no turn, what it shares with its libraries, and their ends, in the order of their
/// numbers from 1. It begins at the moment, in milliseconds since 1970-01-01, at most `LAST_MOMENT`.
pub fn start(
    alloc: Global,
    config: Config,
    moment: u64,
) -> Result<(Engine, Shared, Vec<LibraryEnds>), NoMemory>
    requires config { IsConfig config }
    requires moment { moment ≤ LAST_MOMENT }
    ensures work { IfOk result (λ made. IsAtWork made.1 made.0) }
    // On each wire of which nothing was accepted or dialled.
    ensures online { IfOk result (λ made. (door : Door) (links : ℕ → Link) → door.accepted ≡ 0 → door.dialled ≡ 0 → IsOnline made.0 door links) }
    ensures sessions { IfOk result (λ made. StartsSessions config (library_desk_of made.0).desk.board) }
    ensures table { IfOk result (λ made. StartsTable config made.1) }
    ensures desk { IfOk result (λ made. StartsDesk config moment made.1 (library_desk_of made.0)) }
    ensures engine { IfOk result (λ made. StartsEngine config made.1 (library_desk_of made.0).ends.items) }
    ensures libraries { IfOk result (λ made. StartsLibraries config made.1 made.2.items) }
    ensures routes { IfOk result (λ made. StartsRoutes config (length config.names) (wire_desk_of made.0).routes) }
    ensures lines { IfOk result (λ made. StartsLines config (wire_desk_of made.0)) }
    ensures dials { IfOk result (λ made. StartsDials config (dialler_of made.0)) }
    ensures figures { IfOk result (λ made. StartsFigures config moment made.0) }
{
    boards_stay_ready();
    places_stay_apart();
    places_stay_in_order();
    let (sessions, shared, ends) = engine_start::start(alloc, &config, moment)?;
    let unkept = unkept(alloc, config.names.as_slice().len())?;
    let engine = outset(alloc, config, moment, sessions, unkept)?;
    Ok((engine, shared, ends))
}

/// An engine as `start` makes it, behind the records of the runs before: each session goes on with its
/// journal, its logs and the number that it expected behind its last record, and the lease table behind the
/// last leases. A journal that a run left open is closed first: by the hold of a last release with an heir,
/// until the configured time behind the moment, at most `LAST_MOMENT`; by the end of an active lease; by
/// the end of a bound connection. `fresh` hands these entries out, of each session before its later ones.
/// Beside the time of `start` it takes time in proportion to the records.
///
/// Each record is of a session of the configuration, its expected number is from 1 to one more than
/// seq_gaps' `MAX_NUMBER`, and one of a message that was numbered has a body that can be written. Each
/// session's entries are a run, in which it can be granted as often as is configured.
pub fn start_from(
    alloc: Global,
    config: Config,
    moment: u64,
    records: Vec<Record>,
) -> Result<(Engine, Shared, Vec<LibraryEnds>), NoMemory>
    requires config { IsConfig config }
    requires moment { moment ≤ LAST_MOMENT }
    requires records { AreRecordsOf config records.items }
    ensures work { IfOk result (λ made. IsAtWork made.1 made.0) }
    // On each wire of which nothing was accepted or dialled.
    ensures online { IfOk result (λ made. (door : Door) (links : ℕ → Link) → door.accepted ≡ 0 → door.dialled ≡ 0 → IsOnline made.0 door links) }
    ensures sessions { IfOk result (λ made. RestartsSessions config (hold_until config moment) records.items (library_desk_of made.0).desk.board) }
    ensures table { IfOk result (λ made. ResumesTable config (library_desk_of made.0).desk.board made.1) }
    ensures leases { IfOk result (λ made. (s : ℕ) → s < length config.names → ResumesLeases (library_desk_of made.0).desk.board (library_desk_of made.0).desk.seat s) }
    ensures desk { IfOk result (λ made. StartsDesk config moment made.1 (library_desk_of made.0)) }
    ensures engine { IfOk result (λ made. StartsEngine config made.1 (library_desk_of made.0).ends.items) }
    ensures libraries { IfOk result (λ made. StartsLibraries config made.1 made.2.items) }
    ensures unkept { IfOk result (λ made. NotesClosing config records.items (library_desk_of made.0).desk.board (wire_desk_of made.0).unkept.items) }
    ensures routes { IfOk result (λ made. StartsRoutes config (length config.names) (wire_desk_of made.0).routes) }
    ensures lines { IfOk result (λ made. HasNoLines (wire_desk_of made.0)) }
    ensures dials { IfOk result (λ made. StartsDials config (dialler_of made.0)) }
    ensures figures { IfOk result (λ made. StartsFigures config moment made.0) }
{
    boards_stay_ready();
    places_stay_apart();
    places_stay_in_order();
    let (sessions, shared, ends, unkept) = engine_start::start_from(
        alloc, &config, moment, records,
    )?;
    let engine = outset(alloc, config, moment, sessions, unkept)?;
    Ok((engine, shared, ends))
}

/// An engine that made no turn, with these sessions, of whose entries this is noted.
fn outset(
    alloc: Global,
    config: Config,
    moment: u64,
    sessions: LibraryDesk,
    unkept: Vec<Unkept>,
) -> Result<Engine, NoMemory>
    requires config { IsConfig config }
    ensures sessions { IfOk result (λ engine. library_desk_of engine ≡ sessions) }
    ensures unkept { IfOk result (λ engine. (wire_desk_of engine).unkept.items ≡ unkept.items) }
    ensures routes { IfOk result (λ engine. StartsRoutes config (length config.names) (wire_desk_of engine).routes) }
    ensures lines { IfOk result (λ engine. HasNoLines (wire_desk_of engine)) }
    ensures dials { IfOk result (λ engine. StartsDials config (dialler_of engine)) }
    ensures figures { IfOk result (StartsFigures config moment) }
{
    Ok(Engine {
        sessions,
        lines: lines(alloc, &config, unkept)?,
        connections: config.connections,
        accepted: 0,
        hold: config.hold,
        moment,
        spare: spare(alloc, &config)?,
        failed: false,
        dialler: dialler(alloc, config)?,
    })
}

/// Room for what a run leaves: of each session, and of as many connections as can be accepted and dialled.
fn spare(alloc: Global, config: &Config) -> Result<RecordRoom, NoMemory>
    requires config { IsConfig config.now }
    ensures { IfOk result (λ room. room ≡ room_of config.now) }
{
    let sessions = config.names.as_slice().len();
    RecordRoom::new(
        alloc,
        sessions,
        config.connections as usize + config.dials as usize,
    )
}

/// What is kept of the connections while there is none, beside what was noted of the sessions' entries.
fn lines(alloc: Global, config: &Config, unkept: Vec<Unkept>) -> Result<WireDesk, NoMemory>
    requires config { IsConfig config.now }
    ensures routes { IfOk result (λ made. StartsRoutes config.now (length config.now.names) made.routes) }
    ensures unkept { IfOk result (λ made. made.unkept.items ≡ unkept.items) }
    ensures lines { IfOk result HasNoLines }
{
    Ok(WireDesk {
        routes: routes(alloc, config)?,
        unkept,
        accepted: Vec::new(alloc),
        dialled: Vec::new(alloc),
        buffer: buffer(alloc)?,
    })
}

/// Each session that dials may do so at once, and no dial was made.
fn dialler(alloc: Global, config: Config) -> Result<Dialler, NoMemory>
    requires config { IsConfig config }
    ensures { IfOk result (StartsDials config) }
{
    let count = config.dialled.as_slice().len();
    Ok(Dialler {
        next: vec![in alloc; 0u64; count]?,
        made: 0,
        most: config.dials,
        plans: config.dialled.into_inner(),
    })
}

/// The routes to the sessions that accept.
fn routes(alloc: Global, config: &Config) -> Result<Routes, NoMemory>
    requires config { IsConfig config.now }
    ensures { IfOk result (StartsRoutes config.now (length config.now.names)) }
{
    let count = config.names.as_slice().len() as u16;
    let mut routes = Routes {
        names: Vec::new(alloc),
        sessions: Vec::new(alloc),
    };
    for s in 0..count {
        add_route(alloc, config, s, &mut routes)?;
    }
    Ok(routes)
}

/// The route to the session behind those that were looked at, if it accepts.
fn add_route(alloc: Global, config: &Config, s: u16, routes: &mut Routes) -> Result<(), NoMemory>
    requires config { IsConfig config.now }
    requires session { s < length config.now.names }
    requires routes { StartsRoutes config.now s routes.old }
    ensures { OnOk result (StartsRoutes config.now (s + 1) routes.new) }
{
    if accepts(config, s) {
        routes.names.push(copy_names(alloc, config, s)?)?;
        routes.sessions.push(s)?;
    }
    Ok(())
}

/// Whether a session accepts.
#[tactic(auto, using(std::proofs::lemmas::List::get_or_default))]
fn accepts(config: &Config, s: u16) -> bool
    requires config { IsConfig config.now }
    requires session { s < length config.now.names }
    ensures { result ≡ is_none (dial_of config.now s) }
{
    config.dialled.as_slice()[s as usize].is_none()
}

/// The names of a session.
#[tactic(auto, using(std::proofs::lemmas::List::get_or_default))]
fn copy_names(alloc: Global, config: &Config, s: u16) -> Result<Names, NoMemory>
    requires session { s < length config.now.names }
    ensures { IfOk result (λ names. names ≡ names_of config.now s) }
{
    let names = &config.names.as_slice()[s as usize];
    Ok(Names {
        us: Bytes::of(Vec::from_slice(alloc, names.us.as_slice())?),
        them: Bytes::of(Vec::from_slice(alloc, names.them.as_slice())?),
    })
}

/// For each of so many sessions that none of its entries was noted.
fn unkept(alloc: Global, sessions: usize) -> Result<Vec<Unkept>, NoMemory>
    ensures { IfOk result (λ made. made.items ≡ replicate sessions nothing_noted) }
{
    let mut unkept = Vec::with_capacity(alloc, sessions)?;
    for _s in 0..sessions {
        unkept.push(Unkept::new(alloc, 0))?;
    }
    Ok(unkept)
}

/// Room for one read.
fn buffer(alloc: Global) -> Result<Vec<u8>, NoMemory>
    ensures { IfOk result (λ made. length made.items ≡ MOST_READ) }
{
    Ok(vec![in alloc; 0u8; MOST_READ]?)
}
