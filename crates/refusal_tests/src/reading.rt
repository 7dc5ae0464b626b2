//! A session that is read back from records, one after another.

ghost use Rattle.std.specs.Prelude.{◌≡◌, true};
ghost use Rattle.session_book.specs.Reviving.{CanBeSent};

use crate::desk::Desk;
use crate::states::State;
use crate::texts::{T, soh};
use fix_frame::is_body;
use gate_io::{Bytes, NoMemory};
use lease_core::Entry;
use resend_plan::LONGEST_APPLICATION_BODY;
use session_book::Revival;
use std::alloc::Global;
use std::test::Fail;

/// The entries of a session, each with its body. Library 1 gave the session back for library 2, and the
/// run ended before the hold.
const RECORDS: [(Entry, &str); 9] = [
    (Entry::Bind { c: 0 }, ""),
    (Entry::Admin { number: 1 }, "35=A|98=0|108=30|"),
    (Entry::Arrive { pos: 0 }, "35=D|(2)11=A1|"),
    (
        Entry::Granted {
            library: 1,
            nr: 1,
            lease: 1,
            from: 0,
            start: 1,
        },
        "",
    ),
    (Entry::Leave { c: 0 }, ""),
    (Entry::Bind { c: 1 }, ""),
    (Entry::Reset { series: 2 }, ""),
    (
        Entry::Send {
            lease: 1,
            library: 1,
            ordinal: 1,
            number: 1,
        },
        "35=8|37=O1|",
    ),
    (
        Entry::Release {
            lease: 1,
            library: 1,
            count: 1,
            heir: 2,
        },
        "",
    ),
];

/// The session that goes on behind them.
const RESUMED: State = State {
    entries: 10,
    inbound: 1,
    series: 2,
    outbound: 1,
    expected: 2,
    waiting: 0,
    text: 0,
    held: 0,
};

/// Takes the next record, if it may come next.
fn take(alloc: Global, revival: &mut Revival, entry: Entry, text: &str) -> Result<bool, NoMemory> {
    let body = soh(alloc, text)?;
    if !revival.accepts(&entry) || !can_be_sent(&entry, body.as_slice()) {
        return Ok(false);
    }
    revival.take(alloc, entry, T, Bytes::of(body))?;
    Ok(true)
}

/// Whether the entry has no number, or its body can be written.
fn can_be_sent(entry: &Entry, body: &[u8]) -> bool
    ensures { result ≡ true → CanBeSent entry.now body.now }
{
    match entry {
        Entry::Admin { .. } | Entry::Send { .. } => {
            is_body(body) && body.len() <= LONGEST_APPLICATION_BODY
        }
        _ => true,
    }
}

/// Takes the next record, and once more where an allocation is refused, which has to leave the entries that
/// were read.
fn take_again(
    alloc: Global,
    revival: &mut Revival,
    entry: Entry,
    text: &str,
) -> Result<bool, NoMemory> {
    let read = revival.entries().len();
    match take(alloc, revival, entry, text) {
        Ok(taken) => Ok(taken),
        Err(NoMemory::OutOfMemory) if revival.entries().len() == read => {
            take(alloc, revival, entry, text)
        }
        Err(NoMemory::OutOfMemory) => Ok(false),
    }
}

/// Reads the records back. Answers the session behind them, or None where one couldn't be taken.
fn read_back(alloc: Global) -> Result<Option<Desk>, NoMemory> {
    let mut revival = Revival::new(alloc, 2)?;
    for (entry, text) in RECORDS {
        if !take_again(alloc, &mut revival, entry, text)? {
            return Ok(None);
        }
    }
    Ok(Some(Desk::resuming(alloc, revival)?))
}

#[test]
fn records_are_read_back(rt: HostRuntime) -> Result<(), Fail> {
    match read_back(rt.alloc()) {
        Ok(Some(desk)) => assert!(rt; desk.state() == RESUMED, "another state"),
        Ok(None) => assert!(rt; false, "a record can't be taken"),
        // refused before the session was made
        Err(NoMemory::OutOfMemory) => {}
    }
    Ok(())
}
