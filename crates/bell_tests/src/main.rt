//! Tests of the bells by which threads wake each other, by their public calls alone and with threads of their own.
//!
//! Stands on `thread_bells` (what is tried), `wire_edge` (a thread that sleeps in the poll of its sockets), `gate_io`
//! (what a library lacks, and a wire's calls), `row_text` (checks) and `anyhow` (errors). Told in docs/tests.md.
//!
//! Read `alone` (what a bell does with one thread), `paces`, `rounds` (a wake at each moment around a sleep), `polls`
//! (the same for a thread that sleeps in a poll) and `runs` (an engine and libraries).
#![tactic(auto)]

mod alone;
mod paces;
mod polls;
mod rounds;
mod runs;

use anyhow::{Result, bail};
use row_text::Checks;
use thread_bells::Bell;
use wire_edge::NetWire;

fn main(rt: HostRuntime) -> Result<()> {
    let alloc = rt.alloc();
    let mut checks = Checks::new();
    checks.tell(
        &rt,
        "a ring is kept until it is taken",
        alone::a_ring_is_kept(&rt),
    )?;
    checks.tell(&rt, "a sleep ends by itself", alone::a_sleep_ends(&rt))?;
    checks.tell(
        &rt,
        "a pace looks again where that is worth it",
        paces::a_pace_looks_again(),
    )?;
    checks.tell(&rt, "a pace rests where it isn't", paces::a_pace_rests())?;
    checks.tell(
        &rt,
        "no wake is lost between two threads",
        rounds::none_is_lost(&rt),
    )?;
    let bell = Bell::new();
    let mut first = NetWire::new(rt, alloc, &bell);
    let mut second = NetWire::new(rt, alloc, &bell);
    let polls = polls::none_is_lost(&rt, &mut first, &bell);
    checks.tell(&rt, "nor where one sleeps in a poll", polls)?;
    let alone = polls::one_poll_alone(&mut second);
    checks.tell(&rt, "a bell wakes one poll alone", alone)?;
    checks.tell(
        &rt,
        "a library is woken for news",
        runs::news_come(&rt, alloc),
    )?;
    checks.tell(&rt, "and for room", runs::room_comes(&rt, alloc))?;
    checks.tell(&rt, "it beats in time", runs::it_beats_in_time(&rt, alloc))?;
    checks.tell(
        &rt,
        "one library wakes another",
        runs::one_wakes_another(&rt, alloc),
    )?;
    checks.tell(
        &rt,
        "nobody waits for an engine that ended",
        runs::nobody_waits(&rt, alloc),
    )?;
    if checks.failed() > 0 {
        bail!("{} checks failed", checks.failed());
    }
    Ok(())
}
