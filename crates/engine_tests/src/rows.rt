//! Rows, each from its outset to its end.

ghost use Rattle.std.specs.Prelude.{◌≡◌, ◌≤◌, OnOk, false, length};
ghost use Rattle.std.specs.List.{All};
ghost use Rattle.engine_end.specs.Room.{HasRoomFor};
ghost use Rattle.engine_loop.specs.Engines.{IsAtWork};
ghost use Rattle.engine_tests.specs.Outside.{AreEnds, IsOver};
ghost use Rattle.lease_words.specs.Views.{LibraryView};

use crate::following::{follow, follow_left};
use crate::gateway::Gateway;
use crate::libraries::Libraries;
use crate::limits::{Limits, limits_of};
use crate::making::{NotMade, Sides, make};
use anyhow::{Context, Error};
use engine_end::EngineRecord;
use engine_loop::Engine;
use gate_io::{MOST_CONNECTIONS, MOST_DIALLED, NoMemory};
use lease_core::MOST_LEASES;
use lease_words::LibrarySeat;
use library_desk::Shared;
use row_text::{Course, Player, Row, Step as Line, Words};
use std::alloc::Global;

/// The line at which a run ends.
const ENDS: &str = "ends";

/// The engines, as what plays rows: each row has one of its own, with its libraries.
pub(crate) struct Engines {}

impl Player for Engines {
    fn play<'a>(&self, alloc: Global, row: &Row<'a>) -> Result<Course<'a>, Error> {
        let mut words = Words::of(row.name);
        let _name = words.word();
        let limits = limits_of(words).context("no such limits")?;
        let course = play_row(alloc, limits, row.steps.as_slice())?;
        Ok(course)
    }
}

/// Plays the lines of a row from the outset, within these limits.
fn play_row<'a>(alloc: Global, limits: Limits, lines: &[Line<'a>]) -> Result<Course<'a>, NotMade>
    requires connections { limits.connections ≤ MOST_CONNECTIONS }
    requires dials { limits.dials ≤ MOST_DIALLED }
    requires leases { (1 ≤ limits.leases) × (limits.leases ≤ MOST_LEASES) }
    requires sends { 1 ≤ limits.sends }
{
    let (shared, sides) = make(alloc, limits)?;
    play_sides(alloc, &shared, sides, lines).map_err(NotMade::from)
}

// Plays them at this table. The engine and the libraries are handed on here, and no step gives up: each way out
// of what owns them is proved to let all of them go.
fn play_sides<'a>(
    alloc: Global,
    shared: &Shared,
    sides: Sides,
    lines: &[Line<'a>],
) -> Result<Course<'a>, NoMemory>
    requires running { IsOver shared.now sides.gateway.engine sides.gateway.wire.wire }
    requires first { AreEnds shared.now 0 sides.first }
    requires second { AreEnds shared.now 1 sides.second }
    requires third { AreEnds shared.now 2 sides.third }
{
    let Sides {
        mut gateway,
        first,
        second,
        third,
    } = sides;
    let mut libraries = Libraries::new(alloc, shared, first, second, third);
    let (steps, rest) = lines.split_at(before_the_end(lines));
    let course = follow(alloc, shared, &mut gateway, &mut libraries, steps);
    end_row(alloc, shared, gateway, libraries, course, rest)
}

// Ends the run where its steps came to what they say and its end stands behind them, and compares what it left.
fn end_row<'a>(
    alloc: Global,
    shared: &Shared,
    gateway: Gateway,
    libraries: Libraries<'_>,
    course: Result<Course<'a>, NoMemory>,
    rest: &[Line<'a>],
) -> Result<Course<'a>, NoMemory>
    requires running { OnOk course (IsOver shared.now gateway.engine gateway.wire.wire) }
    requires first { libraries.first.links.leases.now ≡ shared.now.leases }
    requires second { libraries.second.links.leases.now ≡ shared.now.leases }
    requires third { libraries.third.links.leases.now ≡ shared.now.leases }
{
    match (course, rest.split_first()) {
        (Ok(Course { steps, fault: None }), Some((_ends, behind))) => {
            let left = finish(alloc, shared, gateway, libraries)?;
            follow_left(alloc, &left, behind, steps.saturating_add(1))
        }
        (course, _) => course,
    }
}

// How many lines stand before the run's end.
fn before_the_end(lines: &[Line<'_>]) -> usize
    ensures { result ≤ length lines.now }
{
    let steps = lines.iter().take_while(|line| line.text != ENDS).count();
    steps.min(lines.len())
}

// The run ends, once the libraries' seats were taken in.
fn finish(
    alloc: Global,
    shared: &Shared,
    gateway: Gateway,
    libraries: Libraries<'_>,
) -> Result<EngineRecord, NoMemory>
    requires running { IsOver shared.now gateway.engine gateway.wire.wire }
    requires first { libraries.first.links.leases.now ≡ shared.now.leases }
    requires second { libraries.second.links.leases.now ≡ shared.now.leases }
    requires third { libraries.third.links.leases.now ≡ shared.now.leases }
{
    match libraries.into_seats(alloc, shared) {
        Ok(seats) => finish_engine(alloc, shared, gateway.into_engine(), seats),
        Err(no_memory) => Err(no_memory),
    }
}

// The engine ends, in a function of its own: it has nothing else to let go of.
fn finish_engine(
    alloc: Global,
    shared: &Shared,
    engine: Engine,
    seats: Vec<LibrarySeat>,
) -> Result<EngineRecord, NoMemory>
    requires work { engine.failed ≡ false → IsAtWork shared.now engine }
    requires room { HasRoomFor engine.sessions.desk.board engine.spare }
    requires seats { All (λ (seat : LibraryView). seat.table ≡ shared.now.leases) seats.items }
{
    match engine.finish(alloc, shared, seats) {
        Ok(left) => Ok(left),
        Err((no_memory, _)) => Err(no_memory),
    }
}
