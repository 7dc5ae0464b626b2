//! A log, and plain lists that got the same entries.

use draws::Draw;
use gate_io::{Bytes, NoMemory};
use message_log::{LAST_SERIES, OutEntry, OutLog, PAGE};
use row_text::soh;
use std::alloc::Global;

pub fn entry(alloc: Global, at: u64, admin: bool, body: &str) -> Result<OutEntry, NoMemory> {
    Ok(OutEntry {
        at,
        admin,
        body: Bytes::of(soh(alloc, body)?),
    })
}

/// Begins the next series of a log. Answers its number; None behind the last series.
pub fn turn_over(alloc: Global, log: &mut OutLog) -> Result<Option<u32>, NoMemory> {
    if log.series() >= LAST_SERIES {
        return Ok(None);
    }
    Ok(Some(log.turn_over(alloc)?))
}

/// A log, and plain lists of its series, which got the same entries.
#[derive(Drop)]
pub struct Both {
    pub log: OutLog,
    pub past: Vec<Vec<OutEntry>>,
    pub present: Vec<OutEntry>,
}

impl Both {
    pub fn new(alloc: Global) -> Both {
        Both {
            log: OutLog::new(alloc),
            past: Vec::new(alloc),
            present: Vec::new(alloc),
        }
    }

    fn push(&mut self, alloc: Global, at: u64, admin: bool) -> Result<(), NoMemory> {
        let body = if admin { "35=0|" } else { "35=8|" };
        self.present.push(entry(alloc, at, admin, body)?)?;
        self.log.push(alloc, entry(alloc, at, admin, body)?)?;
        Ok(())
    }

    fn turn_over(&mut self, alloc: Global) -> Result<(), NoMemory> {
        if turn_over(alloc, &mut self.log)?.is_some() {
            let past = std::mem::replace(&mut self.present, Vec::new(alloc));
            self.past.push(past)?;
        }
        Ok(())
    }

    /// Draws an entry of this moment, and whether the series ends behind it.
    fn grow(
        &mut self,
        alloc: Global,
        at: u64,
        rule: Rule,
        draw: &mut Draw,
    ) -> Result<(), NoMemory> {
        self.push(alloc, at, draw.below(100) < rule.sessions)?;
        if draw.below(1000) < rule.turns {
            self.turn_over(alloc)?;
        }
        Ok(())
    }
}

/// How a log is drawn: from which seed, how many entries of a hundred are session entries, and
/// behind how many of a thousand the series ends.
#[derive(Clone, Copy, Debug)]
pub struct Rule {
    pub seed: u64,
    pub sessions: u32,
    pub turns: u32,
}

/// A log of so many entries, whose moments are 0, 1, 2 and so on.
pub fn generated(alloc: Global, count: u64, rule: Rule) -> Result<Both, NoMemory> {
    let mut both = Both::new(alloc);
    let mut draw = Draw::new(rule.seed);
    for at in 0..count {
        both.grow(alloc, at, rule, &mut draw)?;
    }
    Ok(both)
}

/// Pushes the entry of a moment, of which each third is a session entry. A series begins behind each
/// so many.
fn push_risen(alloc: Global, log: &mut OutLog, at: u64, each: u64) -> Result<(), NoMemory> {
    if at > 0 && each > 0 && at % each == 0 {
        turn_over(alloc, log)?;
    }
    log.push(alloc, entry(alloc, at, at % 3 == 0, "35=8|")?)?;
    Ok(())
}

/// A log with room from the first, and with so many entries of the moments from 0 on, in series of `each`.
pub fn risen(alloc: Global, count: u64, each: u64) -> Result<OutLog, NoMemory> {
    let mut log = OutLog::new(alloc);
    log.reserve(alloc, 2 * PAGE)?;
    for at in 0..count {
        push_risen(alloc, &mut log, at, each)?;
    }
    Ok(log)
}
