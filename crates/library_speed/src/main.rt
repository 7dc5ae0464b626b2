//! Reads the messages of a log as a library does, the engine in a thread of its own, and then makes
//! rounds in one thread: a message arrives, is pumped, polled, sent back and taken. It checks that
//! all come in order. With two arguments it does what the first says, `messages` or `rounds`, with
//! as many messages as the second says, and prints how many nanoseconds that took.
//!
//! Stands on `library_api` (the library) and `catchup_pump` (the pump), which are measured, `message_log` (the
//! inbound log), `ring_links` (rings), `lease_words` (the lease table), `lease_core` (commands and notices),
//! `gate_io` (bytes, want of memory) and `anyhow` (errors). Told in docs/libraries.md.
#![tactic(auto)]

ghost use Rattle.std.specs.Prelude.{◌≡◌, ◌<◌, ◌≤◌, IfOk};
ghost use Rattle.lease_words.specs.Views.{engine_at};

mod engine;
mod reader;

use anyhow::{Context, bail};
use engine::Engine;
use lease_core::{Command, Notice};
use lease_words::{EngineSeat, Leases};
use library_api::{LibraryEnds2, Links};
use reader::Reader;
use ring_links::{Ring, Tail, ring};
use std::alloc::Global;
use std::sync::Wait;
use std::thread::Threads;
use std::time::{Clock, Instant};
use std::{env, thread};

const FEW: u64 = 20_000;

// What each message says, without its number.
const BODY: &[u8] = b"35=D\x0111=order-1\x0155=ACME\x0154=1\x0138=100\x0140=2\x0144=12.50\x01";

/// A table for session 0 and one library, and the library's rings.
#[derive(Drop)]
struct Shared {
    leases: Leases,
    commands: Ring<Command>,
    notices: Ring<Notice>,
    ghost sessions: { leases.shape.sessions ≡ 1 },
    ghost libraries: { leases.shape.libraries ≡ 1 },
}

/// What belongs to the two sides.
#[derive(Drop)]
struct Ends {
    seat: EngineSeat,
    tail: Tail<Notice>,
    library: LibraryEnds2,
}

fn open(alloc: Global) -> Result<(Shared, Ends), anyhow::Error>
    ensures seat { IfOk result (λ r. r.1.seat.table ≡ r.0.leases) }
    ensures published { IfOk result (λ r. (engine_at r.1.seat 0).published ≡ 0) }
    ensures tail { IfOk result (λ r. r.1.tail.ring ≡ r.0.notices) }
    ensures library_seat { IfOk result (λ r. r.1.library.seat.table ≡ r.0.leases) }
    ensures library_tail { IfOk result (λ r. r.1.library.tail.ring ≡ r.0.commands) }
    ensures library_head { IfOk result (λ r. r.1.library.head.ring ≡ r.0.notices) }
{
    let (leases, seat, seats) = Leases::new(alloc, 1, 1, 16, u32::MAX)?;
    let first = seats.into_iter().next().context("a seat")?;
    let (commands, library_tail, _head) = ring(alloc, 256)?;
    let (notices, tail, library_head) = ring(alloc, 256)?;
    let library = LibraryEnds2 {
        number: first.number(),
        seat: first,
        tail: library_tail,
        head: library_head,
    };
    let shared = Shared {
        leases,
        commands,
        notices,
    };
    let ends = Ends {
        seat,
        tail,
        library,
    };
    Ok((shared, ends))
}

impl Shared {
    // The two sides.
    fn sides<'a>(&'a self, alloc: Global, ends: Ends) -> (Engine<'a>, Reader<'a>)
        requires seat { ends.seat.table ≡ self.now.leases }
        requires published { (engine_at ends.seat 0).published ≡ 0 }
        requires tail { ends.tail.ring ≡ self.now.notices }
        requires library_seat { ends.library.seat.table ≡ self.now.leases }
        requires library_tail { ends.library.tail.ring ≡ self.now.commands }
        requires library_head { ends.library.head.ring ≡ self.now.notices }
    {
        let links = Links {
            leases: &self.leases,
            commands: &self.commands,
            notices: &self.notices,
        };
        let Ends {
            seat,
            tail,
            library,
        } = ends;
        (
            Engine::new(alloc, links, seat, tail),
            Reader::new(links, library),
        )
    }
}

// The library holds the session.
fn hold(engine: &mut Engine, reader: &mut Reader) -> Result<(), anyhow::Error> {
    if !reader.request() || !engine.grant() || !reader.is_granted() {
        bail!("the session was not granted");
    }
    Ok(())
}

// Reads as many messages, which stand in the log before the clock is started, and answers how many
// nanoseconds that took.
fn messages<R: Clock + Threads + Wait + Sync>(
    rt: &R,
    alloc: Global,
    mut engine: Engine,
    mut reader: Reader,
    count: u64,
) -> Result<u128, anyhow::Error> {
    hold(&mut engine, &mut reader)?;
    for _ in 0..count {
        engine.arrive(alloc, BODY)?;
    }
    let total = count.wrapping_mul(BODY.len() as u64);
    let start = Instant::now(rt)?;
    let (pumped, read) = thread::join(
        rt,
        move || engine.pump_all(rt, alloc),
        move || reader.read_all(rt, count, total),
    );
    let time = start.elapsed(rt)?;
    if !pumped || !read {
        bail!("the messages came in another order");
    }
    Ok(time.as_nanos())
}

// A message arrives and is pumped, polled, sent back and taken.
fn round(alloc: Global, engine: &mut Engine, reader: &mut Reader) -> Result<bool, anyhow::Error> {
    engine.arrive(alloc, BODY)?;
    Ok(engine.pump(alloc) == Some((1, true)) && reader.answer() && engine.take())
}

// Makes as many rounds, and answers how many nanoseconds that took.
fn rounds<R: Clock + Threads + Wait + Sync>(
    rt: &R,
    alloc: Global,
    mut engine: Engine,
    mut reader: Reader,
    count: u64,
) -> Result<u128, anyhow::Error> {
    hold(&mut engine, &mut reader)?;
    let start = Instant::now(rt)?;
    for _ in 0..count {
        if !round(alloc, &mut engine, &mut reader)? {
            bail!("a round went wrong");
        }
    }
    Ok(start.elapsed(rt)?.as_nanos())
}

/// What is measured.
#[derive(Clone, Copy)]
enum Kind {
    Messages,
    Rounds,
}

// Does so many of the kind, and answers how many nanoseconds that took.
fn measure<R: Clock + Threads + Wait + Sync>(
    rt: &R,
    alloc: Global,
    kind: Kind,
    count: u64,
) -> Result<u128, anyhow::Error> {
    let (shared, ends) = open(alloc)?;
    let (engine, reader) = shared.sides(alloc, ends);
    match kind {
        Kind::Messages => messages(rt, alloc, engine, reader, count),
        Kind::Rounds => rounds(rt, alloc, engine, reader, count),
    }
}

// What the words ask for, if there are any.
fn asked(rt: &HostRuntime) -> Result<Option<(Kind, u64)>, anyhow::Error> {
    let mut words = env::args(rt)?;
    let _program = words.next();
    let Some(kind) = words.next() else {
        return Ok(None);
    };
    let kind = match kind.as_str() {
        "messages" => Kind::Messages,
        "rounds" => Kind::Rounds,
        _ => bail!("say messages or rounds"),
    };
    let count = words.next().context("say how many")?;
    Ok(Some((kind, count.as_str().parse()?)))
}

fn main(rt: HostRuntime) -> Result<(), anyhow::Error> {
    if let Some((kind, count)) = asked(&rt)? {
        let time = measure(&rt, rt.alloc(), kind, count)?;
        println!(rt; "{time}")?;
        return Ok(());
    }
    measure(&rt, rt.alloc(), Kind::Messages, FEW)?;
    measure(&rt, rt.alloc(), Kind::Rounds, FEW)?;
    println!(rt; "{FEW} messages and {FEW} rounds came in order")?;
    Ok(())
}
