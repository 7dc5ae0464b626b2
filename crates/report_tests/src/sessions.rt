//! What a run leaves of a session, made entry by entry.

use gate_io::{Bytes, LAST_MOMENT};
use lease_core::{Entry, Recovery, Registry};
use message_log::{InLog, LAST_SERIES, OutEntry, OutLog};
use row_text::soh;
use session_book::SessionRecord;
use session_core::Names;
use std::alloc::Global;
use std::test::Fail;

/// How often a session can be granted.
const LEASES: u32 = 3;

/// A numbered message: its moment, and its text, in which `|` stands for SOH.
pub type Numbered<'a> = (u64, &'a str);

/// GATE's session with a counterparty: its journal, the texts that it accepted, and by series what it
/// numbered.
pub fn session(
    alloc: Global,
    them: &str,
    entries: &[Entry],
    inbound: &[&str],
    outbound: &[&[Numbered<'_>]],
) -> Result<SessionRecord, Fail> {
    Ok(SessionRecord {
        names: Names {
            us: Bytes::of(soh(alloc, "GATE")?),
            them: Bytes::of(soh(alloc, them)?),
        },
        registry: registry(alloc, entries)?,
        inbound: in_log(alloc, inbound)?,
        outbound: out_log(alloc, outbound)?,
    })
}

fn registry(alloc: Global, entries: &[Entry]) -> Result<Registry, Fail> {
    let mut recovery = Recovery::new(alloc, LEASES)?;
    for entry in entries {
        record(&mut recovery, *entry)?;
    }
    recovery.reserve(1)?;
    Ok(Registry::resume(recovery, LAST_MOMENT))
}

fn record(recovery: &mut Recovery, entry: Entry) -> Result<(), Fail> {
    recovery.reserve(1)?;
    if recovery.accepts(&entry) {
        recovery.record(entry);
        Ok(())
    } else {
        Err(Fail::new("an entry that can't follow"))
    }
}

fn in_log(alloc: Global, texts: &[&str]) -> Result<InLog, Fail> {
    let mut log = InLog::new(alloc);
    for text in texts {
        log.push(alloc, soh(alloc, text)?)?;
    }
    Ok(log)
}

fn out_log(alloc: Global, series: &[&[Numbered<'_>]]) -> Result<OutLog, Fail> {
    let mut log = OutLog::new(alloc);
    for (k, entries) in series.iter().enumerate() {
        if k > 0 {
            turn_over(alloc, &mut log)?;
        }
        push_all(alloc, &mut log, entries)?;
    }
    Ok(log)
}

fn turn_over(alloc: Global, log: &mut OutLog) -> Result<(), Fail> {
    if log.series() < LAST_SERIES {
        log.turn_over(alloc)?;
        Ok(())
    } else {
        Err(Fail::new("no series is left"))
    }
}

fn push_all(alloc: Global, log: &mut OutLog, entries: &[Numbered<'_>]) -> Result<(), Fail> {
    for (at, text) in entries {
        let entry = OutEntry {
            at: *at,
            admin: true,
            body: Bytes::of(soh(alloc, text)?),
        };
        log.push(alloc, entry)?;
    }
    Ok(())
}
