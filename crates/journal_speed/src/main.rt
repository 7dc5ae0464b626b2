//! Appends records to a journal and syncs, so many of them a batch.
//!
//! Without words it does so on a disk that keeps nothing, and prints what was asked of that. With the
//! words of a file, of how many records a batch has, and of how many batches there are, it does so on
//! that file, and prints how many nanoseconds that took.
//!
//! Stands on `durable_journal` (what is measured), `session_core` (the text of a Heartbeat), `lease_core` (records
//! and their entries), `gate_io` (bytes, want of memory) and `anyhow` (errors). Told in docs/durable-journal.md.
#![tactic(auto)]

ghost use Rattle.std.specs.Prelude.{◌≡◌, None};

mod counted;
mod events;

use anyhow::{Context, bail};
use counted::Counted;
use durable_journal::{Disk, FileDisk, Journal, recover};
use events::{Event, events};
use std::alloc::Global;
use std::env;
use std::time::Instant;

/// The most records, and the most that the journal's limit has room for.
const MOST: u64 = 10_000_000;

fn synced<D: Disk + Drop>(journal: Journal<D>) -> Result<Journal<D>, anyhow::Error> {
    match journal.sync() {
        Ok(journal) => Ok(journal),
        Err(_) => bail!("the disk failed"),
    }
}

/// Appends the events, and syncs behind so many of them.
fn write<D: Disk + Drop>(
    journal: Journal<D>,
    events: Vec<Event>,
    batch: u64,
) -> Result<Journal<D>, anyhow::Error>
    requires untold { (disk : D) → D.history disk ≡ None }
{
    let mut journal = journal;
    let mut waiting = 0u64;
    for event in events {
        journal.append(event.into_record())?;
        waiting = waiting.saturating_add(1);
        if waiting == batch {
            journal = synced(journal)?;
            waiting = 0;
        }
    }
    synced(journal)
}

/// An empty journal on a disk without bytes.
fn open<D: Disk + Drop>(alloc: Global, disk: D) -> Result<Journal<D>, anyhow::Error> {
    let Ok((journal, records)) = recover(alloc, disk, 1, 0) else {
        bail!("the journal wasn't opened");
    };
    if !records.is_empty() {
        bail!("the file has records");
    }
    Ok(journal)
}

/// Writes a small journal to a disk that keeps nothing, and prints what was asked of that.
fn count(rt: &HostRuntime, batch: u64) -> Result<(), anyhow::Error> {
    let journal = open(rt.alloc(), Counted::new())?;
    let events = events(rt.alloc(), 4_096)?;
    let disk = write(journal, events, batch)?.into_disk();
    let (writes, bytes, syncs) = disk.counts();
    println!(rt; "4096 records by {batch}: {writes} writes of {bytes} bytes, {syncs} syncs")?;
    Ok(())
}

/// Writes a journal to a file, and prints how many nanoseconds that took.
fn measure(rt: HostRuntime, path: &str, batch: u64, count: u64) -> Result<(), anyhow::Error> {
    let alloc = rt.alloc();
    let disk = FileDisk::new(rt, String::from_str(alloc, path)?);
    let journal = open(alloc, disk)?;
    let events = events(alloc, batch.saturating_mul(count).min(MOST))?;
    let start = Instant::now(&rt)?;
    let _journal = write(journal, events, batch)?;
    println!(&rt; "{}", start.elapsed(&rt)?.as_nanos())?;
    Ok(())
}

fn main(rt: HostRuntime) -> Result<(), anyhow::Error> {
    let mut words = env::args(&rt)?;
    let _program = words.next();
    let Some(path) = words.next() else {
        count(&rt, 1)?;
        count(&rt, 64)?;
        return count(&rt, 1_024);
    };
    let batch = words.next().context("say how many records a batch has")?;
    let count = words.next().context("say how many batches")?;
    let batch = batch.as_str().parse()?;
    measure(rt, path.as_str(), batch, count.as_str().parse()?)
}
