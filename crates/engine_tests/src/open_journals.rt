//! Journals that a run left open, and the entries that close them.

ghost use Rattle.std.specs.Prelude.{◌≡◌, IfOk, map};
ghost use Rattle.engine_tests.specs.Journals.{CanBegin, record_of};
ghost use Rattle.session_book.specs.Records.{HasNotedAll};

use crate::limits::FEW;
use crate::making::{HOLD, config};
use anyhow::Result;
use engine_start::start_from;
use gate_io::{Bytes, NoMemory};
use lease_core::{Entry, Record};
use row_text::same;
use session_book::{SessionBook, Unkept};
use std::alloc::Global;

/// The number that the session expected behind its last record.
const EXPECTED: u32 = 5;

/// The moment at which the engine goes on.
const MOMENT: u64 = 1_000;

/// Connection 0 is bound.
const BIND: Entry = Entry::Bind { c: 0 };

/// Library 1 gets the session.
const GRANTED: Entry = Entry::Granted {
    library: 1,
    nr: 7,
    lease: 1,
    from: 0,
    start: 0,
};

/// It gives the session back, to library 2.
const RELEASE: Entry = Entry::Release {
    lease: 1,
    library: 1,
    count: 0,
    heir: 2,
};

/// Library 2 is waited for from the moment on.
const HELD: Entry = Entry::Hold {
    lease: 1,
    until: MOMENT + HOLD,
};

const TIMEOUT: Entry = Entry::Timeout {
    lease: 1,
    library: 1,
    count: 0,
};

const LEAVE: Entry = Entry::Leave { c: 0 };

/// The records of these entries of the first session, none of which has a moment or a body.
#[tactic(auto, using(crate::proofs::Journals::one_record_more, crate::proofs::Journals::all_records))]
fn records(alloc: Global, entries: &[Entry]) -> Result<Vec<Record>, NoMemory>
    ensures { IfOk result (λ made. made.items ≡ map record_of entries.now) }
{
    let mut records = Vec::new(alloc);
    for entry in entries {
        records.push(Record {
            s: 0,
            entry: *entry,
            at: 0,
            body: Bytes::of(Vec::new(alloc)),
            expected: EXPECTED,
        })?;
    }
    Ok(records)
}

/// The session goes on behind these entries, and those that close its journal are the ones that are to be
/// kept, each with the number that it expected.
#[tactic(auto, using(crate::proofs::Journals::can_begin))]
fn closes(alloc: Global, before: &[Entry], closing: &[Entry]) -> Result<()>
    requires { CanBegin before.now }
{
    let config = config(alloc, FEW)?;
    let read = records(alloc, before)?;
    let (engine, _, _, unkept) = start_from(alloc, &config, MOMENT, read)?;
    is_closed(
        alloc,
        engine.desk.board.session(0),
        &unkept[0],
        before,
        closing,
    )
}

/// The session has both in its journal, and what closes it is to be kept.
fn is_closed(
    alloc: Global,
    session: &SessionBook,
    unkept: &Unkept,
    before: &[Entry],
    closing: &[Entry],
) -> Result<()>
    requires { HasNotedAll unkept.now session.now.book }
{
    let mut entries = Vec::from_slice(alloc, before)?;
    entries.extend_from_slice(closing)?;
    same("entries", &session.entries(), &entries.as_slice())?;
    same("expected number", &session.expected(), &EXPECTED)?;
    let new = unkept.records(alloc, 0, session)?;
    are_records_of(new.as_slice(), closing)
}

/// The records have these entries, and the number that the session expects.
fn are_records_of(records: &[Record], entries: &[Entry]) -> Result<()> {
    same("records to be kept", &records.len(), &entries.len())?;
    for (record, entry) in records.iter().zip(entries) {
        same("entry to be kept", &record.entry, entry)?;
        same("expected number of it", &record.expected, &EXPECTED)?;
    }
    Ok(())
}

#[tactic(auto, using(crate::proofs::Journals::bind))]
pub(crate) fn an_open_bind_is_left(alloc: Global) -> Result<()> {
    closes(alloc, &[BIND], &[LEAVE])
}

#[tactic(auto, using(crate::proofs::Journals::grant))]
pub(crate) fn an_active_lease_is_taken_back(alloc: Global) -> Result<()> {
    closes(alloc, &[GRANTED], &[TIMEOUT])
}

#[tactic(auto, using(crate::proofs::Journals::release))]
pub(crate) fn a_release_whose_hold_is_missing_gets_it(alloc: Global) -> Result<()> {
    closes(alloc, &[GRANTED, RELEASE], &[HELD])
}

#[tactic(auto, using(crate::proofs::Journals::bound_grant))]
pub(crate) fn a_lease_ends_before_the_bind(alloc: Global) -> Result<()> {
    closes(alloc, &[BIND, GRANTED], &[TIMEOUT, LEAVE])
}
