//! The logs of a row, and the look-ups that are made in them.
ghost use Rattle.std.specs.Prelude.{◌≡◌, ◌<◌};

use crate::both::Both;
use gate_io::{Bytes, NoMemory};
use message_log::{InLog, OutLog, Steps};
use resend_plan::Names2;
use row_text::soh;
use std::alloc::Global;
use std::marker::Brand;
use std::sync::ledger::{Blank, Ledger};

/// What was sent and what was accepted, and the CompIDs of what is written.
#[derive(Drop)]
pub struct Desk {
    pub both: Both,
    pub inbound: InLog,
    pub names: Names2,
}

impl Desk {
    pub fn new(alloc: Global) -> Result<Desk, NoMemory> {
        let names = names(alloc, "GATE", "BUYER")?;
        Ok(Desk {
            both: Both::new(alloc),
            inbound: InLog::new(alloc),
            names,
        })
    }
}

pub fn names(alloc: Global, us: &str, them: &str) -> Result<Names2, NoMemory> {
    Ok(Names2 {
        us: Bytes::of(soh(alloc, us)?),
        them: Bytes::of(soh(alloc, them)?),
    })
}

/// Pushes as many bodies as are wanted, each of which is its position. Answers how many got that.
pub fn receive(alloc: Global, log: &mut InLog, count: u64) -> Result<u64, NoMemory> {
    let mut right = 0u64;
    for wanted in 0..count {
        let body = Vec::from_slice(alloc, &wanted.to_le_bytes())?;
        if log.push(alloc, body)? == wanted {
            right = right.saturating_add(1);
        }
    }
    Ok(right)
}

/// How many of the positions below `count` have the body that was pushed there, by both look-ups.
pub fn found_bodies(log: &InLog, count: u64) -> u64 {
    found_in::<Brand>(log, count, Blank::new(1))
}

fn found_in<L: Ledger>(log: &InLog, count: u64, blank: Blank) -> u64
    requires name { blank.name ≡ L.name }
    requires parts { blank.parts ≡ L.parts }
    requires some { 0 < blank.parts }
{
    let mut steps = Steps::<L>::new(blank);
    let mut found = 0u64;
    for pos in 0..count {
        let bytes = pos.to_le_bytes();
        let body = Some(bytes.as_slice());
        if log.body(pos) == body && log.get(pos, &mut steps) == body {
            found = found.saturating_add(1);
        }
    }
    found
}

/// The ends of the stretches at the numbers from 1 to 5.
pub fn first_ends(log: &OutLog, series: u32) -> [Option<u64>; 5] {
    ends_in::<Brand>(log, series, Blank::new(1))
}

fn ends_in<L: Ledger>(log: &OutLog, series: u32, blank: Blank) -> [Option<u64>; 5]
    requires name { blank.name ≡ L.name }
    requires parts { blank.parts ≡ L.parts }
    requires some { 0 < blank.parts }
{
    let mut steps = Steps::<L>::new(blank);
    let mut ends = [None; 5];
    for (i, end) in ends.iter_mut().enumerate() {
        *end = log.stretch_end(series, i as u64 + 1, &mut steps);
    }
    ends
}

/// The moment of an entry.
pub fn moment_of(log: &OutLog, series: u32, number: u64) -> Option<u64> {
    let entry = log.entry(series, number)?;
    Some(entry.at)
}
