//! Pushes entries into an outbound log and into a plain `Vec`, and plans resends over both.
//!
//! Without words it does so with 5,000 entries, and prints what was planned. With the word of a count
//! it takes so many, and prints for the log and for the `Vec` the nanoseconds of all pushes and of a
//! plan, and how many items that has.
//!
//! Stands on `message_log` (the outbound log) and `resend_plan` (plans), which are measured, `gate_io` (bytes, want
//! of memory) and `anyhow` (errors). Told in docs/measuring.md.
#![tactic(auto)]

use anyhow::bail;
use gate_io::{Bytes, NoMemory};
use message_log::{OutEntry, OutLog};
use resend_plan::{WireItem, plan};
use std::alloc::Global;
use std::env;
use std::time::Instant;

/// The most entries.
const MOST: u64 = 10_000_000;

/// What a log consists of.
#[derive(Clone, Copy, Debug, PartialEq, Eq)]
enum Mix {
    OneStretch,
    Alternating,
}

impl Mix {
    fn is_session(self, at: u64) -> bool {
        match self {
            Mix::OneStretch => true,
            Mix::Alternating => at % 2 == 0,
        }
    }
}

fn entries(alloc: Global, count: u64, mix: Mix) -> Result<Vec<OutEntry>, NoMemory> {
    let mut entries = Vec::new(alloc);
    for at in 0..count {
        let admin = mix.is_session(at);
        let body = if admin { b"35=0\x01" } else { b"35=8\x01" };
        entries.push(OutEntry {
            at,
            admin,
            body: Bytes::of(Vec::from_slice(alloc, body)?),
        })?;
    }
    Ok(entries)
}

fn push_to_log(alloc: Global, entries: Vec<OutEntry>) -> Result<OutLog, NoMemory> {
    let mut log = OutLog::new(alloc);
    for entry in entries {
        log.push(alloc, entry)?;
    }
    Ok(log)
}

fn push_to_vec(alloc: Global, entries: Vec<OutEntry>) -> Result<Vec<OutEntry>, NoMemory> {
    let mut list = Vec::new(alloc);
    for entry in entries {
        list.push(entry)?;
    }
    Ok(list)
}

/// The plan for all entries of a list, by going over each of them.
fn plan_of_vec(alloc: Global, list: &[OutEntry]) -> Result<Vec<WireItem>, NoMemory> {
    let mut items = Vec::new(alloc);
    let mut first = None;
    let mut number = 0u64;
    for entry in list {
        number = number.saturating_add(1);
        if entry.admin {
            first = Some(first.unwrap_or(number));
            continue;
        }
        if let Some(from) = first {
            items.push(fill(from, number))?;
        }
        first = None;
        items.push(WireItem::Again {
            series: 1,
            number,
            at: 0,
        })?;
    }
    if let Some(from) = first {
        items.push(fill(from, number.saturating_add(1)))?;
    }
    Ok(items)
}

fn fill(number: u64, to: u64) -> WireItem {
    WireItem::GapFill {
        series: 1,
        number,
        to,
        at: 0,
    }
}

fn plan_of_log(alloc: Global, log: &OutLog) -> Result<Vec<WireItem>, NoMemory> {
    plan(alloc, log, log.series(), 1, 0, 0)
}

/// A value, and how many nanoseconds it took to make.
#[derive(Drop)]
struct Timed<T> {
    value: T,
    taken: u128,
}

fn time_log(rt: &HostRuntime, entries: Vec<OutEntry>) -> Result<Timed<OutLog>, anyhow::Error> {
    let start = Instant::now(rt)?;
    let value = push_to_log(rt.alloc(), entries)?;
    let taken = start.elapsed(rt)?.as_nanos();
    Ok(Timed { value, taken })
}

fn time_vec(
    rt: &HostRuntime,
    entries: Vec<OutEntry>,
) -> Result<Timed<Vec<OutEntry>>, anyhow::Error> {
    let start = Instant::now(rt)?;
    let value = push_to_vec(rt.alloc(), entries)?;
    let taken = start.elapsed(rt)?.as_nanos();
    Ok(Timed { value, taken })
}

fn time_log_plan(rt: &HostRuntime, log: &OutLog) -> Result<Timed<usize>, anyhow::Error> {
    let start = Instant::now(rt)?;
    let items = plan_of_log(rt.alloc(), log)?;
    let taken = start.elapsed(rt)?.as_nanos();
    let value = items.len();
    Ok(Timed { value, taken })
}

fn time_vec_plan(rt: &HostRuntime, list: &[OutEntry]) -> Result<Timed<usize>, anyhow::Error> {
    let start = Instant::now(rt)?;
    let items = plan_of_vec(rt.alloc(), list)?;
    let taken = start.elapsed(rt)?.as_nanos();
    let value = items.len();
    Ok(Timed { value, taken })
}

/// Times the log's tasks, one line each: nanoseconds, and what came of it.
fn measure_log(rt: &HostRuntime, count: u64, mix: Mix) -> Result<(), anyhow::Error> {
    let entries = entries(rt.alloc(), count, mix)?;
    let log = time_log(rt, entries)?;
    let plan = time_log_plan(rt, &log.value)?;
    print_row(rt, "log", mix, [log.taken, plan.taken], plan.value)
}

/// The same of the `Vec`.
fn measure_vec(rt: &HostRuntime, count: u64, mix: Mix) -> Result<(), anyhow::Error> {
    let entries = entries(rt.alloc(), count, mix)?;
    let list = time_vec(rt, entries)?;
    let plan = time_vec_plan(rt, list.value.as_slice())?;
    print_row(rt, "vec", mix, [list.taken, plan.taken], plan.value)
}

fn print_row(
    rt: &HostRuntime,
    name: &str,
    mix: Mix,
    taken: [u128; 2],
    items: usize,
) -> Result<(), anyhow::Error> {
    let [push, plan] = taken;
    println!(rt; "{mix:?} {name} push {push} plan {plan} items {items}")?;
    Ok(())
}

/// How many items both plans have, of a small log.
fn count_items(alloc: Global, mix: Mix) -> Result<(usize, usize), NoMemory> {
    let log = push_to_log(alloc, entries(alloc, 5_000, mix)?)?;
    let list = push_to_vec(alloc, entries(alloc, 5_000, mix)?)?;
    let planned = plan_of_log(alloc, &log)?;
    let scanned = plan_of_vec(alloc, list.as_slice())?;
    Ok((planned.len(), scanned.len()))
}

fn run(rt: &HostRuntime, words: &[String], mix: Mix) -> Result<(), anyhow::Error> {
    let [word] = words else {
        let (planned, scanned) = count_items(rt.alloc(), mix)?;
        println!(rt; "{mix:?} items {planned} {scanned}")?;
        return Ok(());
    };
    let Ok(count) = word.as_str().parse::<u64>() else {
        bail!("wanted: COUNT");
    };
    measure_log(rt, count.min(MOST), mix)?;
    measure_vec(rt, count.min(MOST), mix)
}

fn main(rt: HostRuntime) -> Result<(), anyhow::Error> {
    let mut args = env::args(&rt)?;
    let _program = args.next();
    let words: Vec<String> = args.collect(rt.alloc())?;
    run(&rt, words.as_slice(), Mix::OneStretch)?;
    run(&rt, words.as_slice(), Mix::Alternating)
}
