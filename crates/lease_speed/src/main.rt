//! Sends items from four libraries to an engine through a table of leases, each library by a lease
//! of its own, and checks that they come in order. With two arguments as many libraries as the
//! second says, 1 or 4, send as many items each as the first says, and it prints how many
//! nanoseconds it took.
//!
//! Stands on `lease_words` (the lease table, which is measured), `lease_core` (standings of a lease), `fix_fields`
//! (which bodies are fit), `gate_io` (bytes) and `anyhow` (errors). Told in docs/threads.md.
#![tactic(auto)]

ghost use Rattle.std.specs.Prelude.{◌≡◌, ◌<◌, ◌≤◌, IfSome};

mod items;
mod threads;

use anyhow::{Context, bail};
use items::{are_in_order, new_items};
use lease_words::{EngineSeat, Item, Leases, LibrarySeat};
use std::alloc::Global;
use std::env;
use std::time::Instant;
use threads::{Job, Jobs, run_four, run_one};

const FEW: u32 = 5_000;

// Grants a session to a library, which is its first lease, and says whether it could.
fn grant(leases: &Leases, engine: &mut EngineSeat, s: u16, library: u8) -> bool
    requires table { engine.old.table ≡ leases.now }
    requires session { s < leases.now.shape.sessions }
    requires library { (1 ≤ library) × (library ≤ leases.now.shape.libraries) }
    ensures table { engine.new.table ≡ engine.old.table }
{
    let word = leases.look(engine, s);
    if word.lease > 0 || leases.take(engine, s).is_some() {
        return false;
    }
    leases.grant(engine, s, library);
    true
}

// Grants the session to the library, which then has as many items to send.
fn new_job(
    alloc: Global,
    leases: &Leases,
    engine: &mut EngineSeat,
    seat: LibrarySeat,
    number: u8,
    count: u32,
) -> Option<Job>
    requires table { engine.old.table ≡ leases.now }
    requires session { number ≤ leases.now.shape.sessions }
    requires library { (1 ≤ number) × (number ≤ leases.now.shape.libraries) }
    requires number { seat.knows.number ≡ number }
    ensures table { engine.new.table ≡ engine.old.table }
    ensures job { IfSome result (λ job. (job.seat.table ≡ seat.table) × (job.s < leases.now.shape.sessions)) }
{
    let s = u16::from(number) - 1;
    if !grant(leases, engine, s, number) {
        return None;
    }
    let items = new_items(alloc, 1, number, count)?;
    Some(Job {
        seat,
        number,
        s,
        items,
    })
}

/// The seats of four libraries.
#[derive(Drop)]
struct Seats {
    first: LibrarySeat,
    second: LibrarySeat,
    third: LibrarySeat,
    fourth: LibrarySeat,
    ghost one: { first.knows.number ≡ 1 },
    ghost two: { second.knows.number ≡ 2 },
    ghost three: { third.knows.number ≡ 3 },
    ghost four: { fourth.knows.number ≡ 4 },
}

// A table for four sessions and four libraries.
fn open(alloc: Global) -> Option<(Leases, EngineSeat, Seats)>
    ensures sessions { IfSome result (λ r. 4 ≤ r.0.shape.sessions) }
    ensures libraries { IfSome result (λ r. 4 ≤ r.0.shape.libraries) }
    ensures engine { IfSome result (λ r. r.1.table ≡ r.0) }
    ensures first { IfSome result (λ r. r.2.first.table ≡ r.0) }
    ensures second { IfSome result (λ r. r.2.second.table ≡ r.0) }
    ensures third { IfSome result (λ r. r.2.third.table ≡ r.0) }
    ensures fourth { IfSome result (λ r. r.2.fourth.table ≡ r.0) }
{
    let Ok((leases, engine, seats)) = Leases::new(alloc, 4, 4, 16, u32::MAX) else {
        return None;
    };
    let mut seats = seats.into_iter();
    let first = seats.next()?;
    let second = seats.next()?;
    let third = seats.next()?;
    let fourth = seats.next()?;
    let seats = Seats {
        first,
        second,
        third,
        fourth,
    };
    Some((leases, engine, seats))
}

/// A table with a session for each of four libraries, and who is at it.
#[derive(Drop)]
struct Setting {
    leases: Leases,
    engine: EngineSeat,
    jobs: Jobs,
    ghost at_table: { (engine.table ≡ leases) × (4 ≤ leases.shape.sessions) },
    ghost first_at: { (jobs.first.seat.table ≡ leases) × (jobs.first.s < leases.shape.sessions) },
    ghost second_at: { (jobs.second.seat.table ≡ leases) × (jobs.second.s < leases.shape.sessions) },
    ghost third_at: { (jobs.third.seat.table ≡ leases) × (jobs.third.s < leases.shape.sessions) },
    ghost fourth_at: { (jobs.fourth.seat.table ≡ leases) × (jobs.fourth.s < leases.shape.sessions) },
}

// The first library has `count` items to send, and each of the others as many as `others` says.
fn set_up(alloc: Global, count: u32, others: u32) -> Option<Setting> {
    let (leases, mut engine, seats) = open(alloc)?;
    let Seats {
        first: a,
        second: b,
        third: c,
        fourth: d,
    } = seats;
    let first = new_job(alloc, &leases, &mut engine, a, 1, count)?;
    let second = new_job(alloc, &leases, &mut engine, b, 2, others)?;
    let third = new_job(alloc, &leases, &mut engine, c, 3, others)?;
    let fourth = new_job(alloc, &leases, &mut engine, d, 4, others)?;
    let jobs = Jobs {
        first,
        second,
        third,
        fourth,
    };
    Some(Setting {
        leases,
        engine,
        jobs,
    })
}

// How many items each library sends, and how many libraries there are, where the words say so.
fn asked(rt: &HostRuntime) -> Result<Option<(u32, u8)>, anyhow::Error> {
    let mut words = env::args(rt)?;
    let _program = words.next();
    let Some(count) = words.next() else {
        return Ok(None);
    };
    let Some(libraries) = words.next() else {
        bail!("say how many libraries there are");
    };
    Ok(Some((count.as_str().parse()?, libraries.as_str().parse()?)))
}

fn main(rt: HostRuntime) -> Result<(), anyhow::Error> {
    let asked = asked(&rt)?;
    let (count, libraries) = asked.unwrap_or((FEW, 4));
    if libraries != 1 && libraries != 4 {
        bail!("there are 1 or 4 libraries");
    }
    let others = if libraries == 4 { count } else { 0 };
    let setting = set_up(rt.alloc(), count, others).context("making the table")?;
    let Setting {
        leases,
        engine,
        jobs,
    } = setting;
    let total = count as usize * libraries as usize;
    let room = Vec::with_capacity(rt.alloc(), total)?;
    let start = Instant::now(&rt)?;
    let taken = if libraries == 4 {
        run_four(&rt, &leases, engine, jobs, total, room)
    } else {
        run_one(&rt, &leases, engine, jobs, total, room)
    };
    let time = start.elapsed(&rt)?;
    for library in 1..libraries + 1 {
        if !are_in_order(taken.as_slice(), library, count) {
            bail!("the items of library {library} came in another order");
        }
    }
    match asked {
        Some(_) => println!(rt; "{}", time.as_nanos())?,
        None => println!(rt; "{} items came in order", taken.len())?,
    }
    Ok(())
}
