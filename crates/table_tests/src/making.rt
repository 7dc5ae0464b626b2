//! How a row's table is made, and what comes with it.
ghost use Rattle.std.specs.Prelude.{◌≡◌, ◌≤◌};
ghost use Rattle.std.specs.Option.{ForSome};
ghost use Rattle.lease_core.specs.declared.limits.TheConstants.{MOST_LIBRARIES};
ghost use Rattle.lease_words.specs.Tokens.{new_engine_seat, new_library_seats};
ghost use Rattle.lease_words.specs.Views.{engine_at};

use crate::journals::{journal, taken_back};
use anyhow::Result;
use lease_core::MOST_LIBRARIES;
use lease_words::{EngineSeat, Leases, LibrarySeat};
use row_text::Words;
use std::alloc::Global;

/// What the table of a row is for, and whether it goes on from journals.
#[derive(Drop)]
pub(crate) struct Outset {
    sessions: u16,
    libraries: u8,
    depth: u8,
    sends: u32,
    is_resumed: bool,
    ghost few_sessions: { sessions ≤ 64 },
    ghost few_libraries: { libraries ≤ MOST_LIBRARIES },
    ghost deep: { (1 ≤ depth) × (depth ≤ 16) },
    ghost some_sends: { 1 ≤ sends },
}

// The outset with these numbers, if there can be such a table. A resumed one has the two sessions of the journals.
fn possible(
    is_resumed: bool,
    sessions: u16,
    libraries: u8,
    depth: u8,
    sends: u32,
) -> Option<Outset> {
    if sessions > 64 || libraries > MOST_LIBRARIES || (is_resumed && sessions != 2) {
        return None;
    }
    if depth == 0 || depth > 16 || sends == 0 {
        return None;
    }
    Some(Outset {
        sessions,
        libraries,
        depth,
        sends,
        is_resumed,
    })
}

/// The outset that a line says: `table SESSIONS LIBRARIES DEPTH SENDS` of a new table, whose lanes are so deep and whose
/// leases make so many sends at most; `resumed ..` of one that goes on from two journals.
pub(crate) fn outset_of(line: &str) -> Option<Outset> {
    let mut words = Words::of(line);
    let is_resumed = match words.word()? {
        "table" => false,
        "resumed" => true,
        _ => return None,
    };
    let sessions = words.u16()?;
    let libraries = words.u8()?;
    let depth = words.u8()?;
    let sends = words.u32()?;
    if !words.is_over() {
        return None;
    }
    possible(is_resumed, sessions, libraries, depth, sends)
}

/// A table for so many sessions, with its engine's seat, and of the libraries' seats how many there are and that of the
/// first.
#[derive(Drop)]
pub(crate) struct Made {
    pub(crate) leases: Leases,
    pub(crate) sessions: u16,
    pub(crate) engine: EngineSeat,
    pub(crate) seats: usize,
    pub(crate) first: Option<LibrarySeat>,
    ghost sessions_are: { leases.shape.sessions ≡ sessions },
    ghost engine_is: { engine.table ≡ leases },
    ghost unpublished: { (engine_at engine 0).published ≡ 0 },
    ghost first_is: { ForSome first (λ seat. seat.table ≡ leases) },
}

// The first library's seat, where there is one, is at the new table too.
#[tactic(auto, using(crate::proofs::Seats::first_seat))]
fn first_of(_leases: &Leases, _libraries: u8, seats: Vec<LibrarySeat>) -> Option<LibrarySeat>
    requires { seats.items ≡ new_library_seats _leases.now 1 _libraries }
    ensures { ForSome result (λ seat. seat.table ≡ _leases.now) }
{
    seats.into_iter().next()
}

// A new engine's seat has published nothing.
#[tactic(auto, using(crate::proofs::Seats::new_unpublished))]
fn nothing_is_published(_leases: &Leases, _engine: &EngineSeat)
    requires { _engine.now ≡ new_engine_seat _leases.now }
    ensures { (engine_at _engine.now 0).published ≡ 0 }
{}

impl Made {
    fn of(
        leases: Leases,
        sessions: u16,
        libraries: u8,
        engine: EngineSeat,
        seats: Vec<LibrarySeat>,
    ) -> Made
        requires sessions { leases.shape.sessions ≡ sessions }
        requires engine { engine ≡ new_engine_seat leases }
        requires libraries { seats.items ≡ new_library_seats leases 1 libraries }
    {
        nothing_is_published(&leases, &engine);
        let count = seats.len();
        let first = first_of(&leases, libraries, seats);
        Made {
            leases,
            sessions,
            engine,
            seats: count,
            first,
        }
    }
}

fn new_table(alloc: Global, outset: &Outset) -> Result<Made> {
    let Outset {
        sessions,
        libraries,
        depth,
        sends,
        is_resumed: _,
    } = *outset;
    let (leases, engine, seats) = Leases::new(alloc, sessions, libraries, depth, sends)?;
    Ok(Made::of(leases, sessions, libraries, engine, seats))
}

// A table for two sessions, of which the second never had a lease.
fn resumed_table(alloc: Global, outset: &Outset) -> Result<Made> {
    let Outset {
        sessions: _,
        libraries,
        depth,
        sends,
        is_resumed: _,
    } = *outset;
    let journals = [journal(alloc, &taken_back())?, journal(alloc, &[])?];
    let (leases, engine, seats) = Leases::resume(alloc, &journals, libraries, depth, sends)?;
    Ok(Made::of(leases, 2, libraries, engine, seats))
}

/// The table of an outset.
pub(crate) fn make(alloc: Global, outset: &Outset) -> Result<Made> {
    if outset.is_resumed {
        resumed_table(alloc, outset)
    } else {
        new_table(alloc, outset)
    }
}
