//! Makes turns of an engine over a wire in memory. It checks that each order is answered and that each
//! session is logged on. With two arguments it prints how many nanoseconds it took: `rest N` a thousand turns
//! with one session, one library and N connections that rest, `sessions N` a thousand turns with N sessions
//! that are logged on and 16 libraries, all of which rest, `orders N` to answer N orders in one thread, and
//! `apart N` to answer N orders with the library in a thread of its own.
//!
//! Stands on `engine_loop` (turns, which are measured), `engine_start` (libraries' ends), `engine_end` (what a run
//! leaves), `engine_config` and `script_text` (configurations), `library_api` and `library_desk` (a library, and
//! what is shared), `connection_core` (a connection's state, in a proof), `session_core` (names, and how many
//! sessions), `gate_io` (wire and clock in memory) and `anyhow` (errors). Told in docs/engine.md.
//!
//! Read `texts`, `gateway` (engine, wire and clock) and `application` (the library's side); then `answering`
//! (orders in one thread), `apart` (two threads), `crowd` (many sessions) and `resting` (turns that rest).
#![tactic(auto)]

ghost use Rattle.std.specs.Prelude.{◌≡◌, ◌<◌, ◌≤◌};

mod answering;
mod apart;
mod application;
mod crowd;
mod gateway;
mod resting;
mod texts;

use answering::orders;
use anyhow::{Context, bail};
use apart::orders_apart;
use gate_io::MOST_CONNECTIONS;
use resting::{rest, rest_in_crowd};
use session_core::MOST_SESSIONS;
use std::alloc::Global;
use std::env;
use std::thread::Threads;
use std::time::Clock;

const FEW: u64 = 2_000;

/// What is measured.
#[derive(Clone, Copy)]
enum Kind {
    Rest,
    Sessions,
    Orders,
    Apart,
}

// How many nanoseconds so much of the kind takes.
fn measure<R: Clock + Threads + Sync>(
    rt: &R,
    alloc: Global,
    kind: Kind,
    count: u64,
) -> Result<u128, anyhow::Error> {
    match kind {
        Kind::Rest => {
            if count == 0 || count > u64::from(MOST_CONNECTIONS) {
                bail!("say 1 to {MOST_CONNECTIONS} connections");
            }
            rest(rt, alloc, count as u32)
        }
        Kind::Sessions => {
            if count > MOST_SESSIONS as u64 {
                bail!("say at most {MOST_SESSIONS} sessions");
            }
            rest_in_crowd(rt, alloc, count as u32)
        }
        Kind::Orders => orders(rt, alloc, count),
        Kind::Apart => orders_apart(rt, alloc, count),
    }
}

// What the words ask for, if there are any.
fn asked(rt: &HostRuntime) -> Result<Option<(Kind, u64)>, anyhow::Error> {
    let mut words = env::args(rt)?;
    let _program = words.next();
    let Some(kind) = words.next() else {
        return Ok(None);
    };
    let kind = match kind.as_str() {
        "rest" => Kind::Rest,
        "sessions" => Kind::Sessions,
        "orders" => Kind::Orders,
        "apart" => Kind::Apart,
        _ => bail!("say rest, sessions, orders or apart"),
    };
    let count = words.next().context("say how many")?;
    Ok(Some((kind, count.as_str().parse()?)))
}

fn main(rt: HostRuntime) -> Result<(), anyhow::Error> {
    if let Some((kind, count)) = asked(&rt)? {
        let time = measure(&rt, rt.alloc(), kind, count)?;
        println!(rt; "{time}")?;
        return Ok(());
    }
    measure(&rt, rt.alloc(), Kind::Rest, 64)?;
    measure(&rt, rt.alloc(), Kind::Sessions, MOST_SESSIONS as u64)?;
    measure(&rt, rt.alloc(), Kind::Orders, FEW)?;
    measure(&rt, rt.alloc(), Kind::Apart, FEW)?;
    println!(rt; "{MOST_SESSIONS} sessions were logged on")?;
    println!(rt; "{FEW} orders were answered in one thread, and {FEW} in two")?;
    Ok(())
}
