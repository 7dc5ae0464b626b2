//! Entries that are read back: which may stand next, as the plain program has it, and what goes on behind them.
ghost use Rattle.std.specs.Prelude.{◌≡◌, ◌<◌, IfOk, IfSome};

use crate::draw::{some_library, some_place};
use crate::plain::{GiveUp, may_follow, state_of};
use crate::random::{Both, play_drawn};
use anyhow::{Result, ensure};
use draws::Draw;
use gate_io::NoMemory;
use lease_core::{Entry, Recovery, Registry, Why};
use std::alloc::Global;

// Takes the entries one by one. It is None where one isn't accepted.
fn read_back(alloc: Global, limit: u32, entries: &[Entry]) -> Result<Option<Recovery>, NoMemory>
    ensures { IfOk result (λ r. IfSome r (λ recovery. 0 < recovery.spare)) }
{
    let mut recovery = Recovery::new(alloc, limit)?;
    for entry in entries {
        recovery.reserve(1)?;
        if !recovery.accepts(entry) {
            return Ok(None);
        }
        recovery.record(*entry);
    }
    recovery.reserve(1)?;
    Ok(Some(recovery))
}

/// An entry that is the next one of its kind, or nearly.
fn draw_entry(both: &mut Both, draw: &mut Draw) -> Entry {
    let old = both.entries.get(draw.below(64) as usize).copied();
    let (owner, lease) = both.registry.owner();
    let number = both
        .registry
        .series()
        .1
        .saturating_add(some_place(draw) % 3);
    match draw.below(12) {
        0 => Entry::Arrive {
            pos: both.registry.in_len().saturating_add(some_place(draw) % 2),
        },
        1 => Entry::Admin { number },
        2 => Entry::Send {
            lease,
            library: owner,
            ordinal: both.registry.word().count.saturating_add(1),
            number,
        },
        3 => Entry::Release {
            lease,
            library: owner,
            count: both.registry.word().count,
            heir: some_library(draw),
        },
        4 => Entry::Timeout {
            lease,
            library: owner,
            count: both.registry.word().count,
        },
        5 => Entry::Granted {
            library: some_library(draw),
            nr: 1,
            lease: lease.saturating_add(1),
            from: 0,
            start: both.registry.in_len(),
        },
        6 => Entry::Refused {
            library: some_library(draw),
            nr: 1,
            why: draw_why(both, draw),
        },
        7 => Entry::Lapse { lease },
        8 => Entry::Reset {
            series: both.registry.series().0.saturating_add(1),
        },
        9 => Entry::Leave { c: draw.below(3) },
        _ => old.unwrap_or(Entry::Bind { c: 1 }),
    }
}

fn draw_why(both: &Both, draw: &mut Draw) -> Why {
    let (owner, lease) = both.registry.owner();
    match draw.below(4) {
        0 => Why::OtherOwner { owner, lease },
        1 => Why::LeasesSpent { lease },
        2 => Why::MissingMessages {
            asked: some_place(draw),
            logged: both.registry.in_len(),
        },
        _ => match both.registry.reserved() {
            Some((for_library, until)) => Why::Reserved { for_library, until },
            None => Why::UnknownSession { s: 1 },
        },
    }
}

// Whether a drawn entry may stand next, as the plain program has it. It is None where it is accepted otherwise.
fn compare(
    alloc: Global,
    limit: u32,
    both: &mut Both,
    draw: &mut Draw,
) -> Result<Option<bool>, GiveUp> {
    let entry = draw_entry(both, draw);
    let Some(recovery) = read_back(alloc, limit, &both.entries)? else {
        return Ok(None);
    };
    let state = state_of(alloc, &both.entries)?;
    let may = may_follow(limit, &state, entry)?;
    Ok(if recovery.accepts(&entry) == may {
        Some(may)
    } else {
        None
    })
}

// A list of calls, with an entry behind each. It says how many may stand next, or None where one is accepted otherwise
// than the plain program has it.
fn play_list(alloc: Global, draw: &mut Draw) -> Result<Option<u64>, GiveUp> {
    let mut both = Both::new(alloc, 3)?;
    let mut count = 0u64;
    for _ in 0..40u32 {
        if !play_drawn(&mut both, draw, 1)? {
            return Ok(None);
        }
        match compare(alloc, 3, &mut both, draw)? {
            Some(true) => count = count.saturating_add(1),
            Some(false) => {}
            None => return Ok(None),
        }
    }
    Ok(Some(count))
}

/// Drawn entries are accepted as the plain program has it.
pub(crate) fn play_entries(alloc: Global) -> Result<()> {
    let mut draw = Draw::new(17);
    let mut may = 0u64;
    for list in 0..60u32 {
        let count = play_list(alloc, &mut draw)?;
        ensure!(count.is_some(), "list {list}");
        may = may.saturating_add(count.unwrap_or(0));
    }
    ensure!(300 < may && may < 2100, "{may}");
    Ok(())
}

// A registry that is read back in mid-course. It says whether it goes on as the plain program has it.
fn go_on(alloc: Global, draw: &mut Draw) -> Result<bool, GiveUp> {
    let mut both = Both::new(alloc, 6)?;
    if !play_drawn(&mut both, draw, 40)? {
        return Ok(false);
    }
    let Some(recovery) = read_back(alloc, 6, both.registry.entries())? else {
        return Ok(false);
    };
    both.registry = Registry::resume(recovery, 9);
    play_drawn(&mut both, draw, 10)
}

/// A registry goes on as the one before.
pub(crate) fn play_resumed(alloc: Global) -> Result<()> {
    let mut draw = Draw::new(44);
    for list in 0..40u32 {
        ensure!(go_on(alloc, &mut draw)?, "list {list}");
    }
    Ok(())
}
