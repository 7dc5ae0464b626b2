//! The records of the entries that are new, to be kept beyond the run.

ghost use Rattle.std.specs.Prelude.{◌≡◌, ◌≤◌, ◌+◌, ◌<◌, ◌^◌, [], IfOk, OnErr, OnOk, drop, length, slice_index_or, take};
ghost use Rattle.lease_core.specs.State.{series_of, state_of};
ghost use Rattle.resend_plan.specs.Wire.{entry_of};
ghost use Rattle.session_book.specs.Records.{HasNoted, HasNotedAll, after_bind_note, after_note, after_records, body_of, entry_moment, new_records, record_of, records_from, series_behind, series_over};

use crate::book::SessionBook;
use gate_io::{Bytes, NoMemory};
use lease_core::laws::entries_decide_one_by_one;
use lease_core::{Entry, Record};
use message_log::OutEntry;
use std::alloc::Global;
use std::marker::Model;

/// Which entries of a session's journal were handed out as records, and the expected number of each
/// that was noted since. It stands beside one `SessionBook`, and each of its calls is given that one.
#[derive(Debug, Drop)]
pub struct Unkept {
    handed: usize,
    expected: Vec<u32>,
}

impl Model for Unkept {
    ghost use Rattle.session_book.specs.Records.{Pending};

    ghost Value = { Pending };

    ghost view = { λ u. record { handed = u.handed; expected = u.expected.items } };
}

impl Unkept {
    /// The first `handed` entries are kept already: those that were read back.
    pub fn new(alloc: Global, handed: usize) -> Unkept
        ensures { result ≡ record { handed = handed; expected = [] } }
    {
        Unkept {
            handed,
            expected: Vec::new(alloc),
        }
    }

    /// Notes that the entries that came were made by calls behind which the session expects the number
    /// that it expects now. It is for every call but `SessionBook::bind`.
    pub fn note(&mut self, book: &SessionBook) -> Result<(), NoMemory>
        requires { HasNoted self.old book.now.book }
        ensures ok { OnOk result (self.new ≡ after_note book.now.book self.old) }
        ensures all { OnOk result (HasNotedAll self.new book.now.book) }
        ensures err { OnErr result (self.new ≡ self.old) }
    {
        let behind = book.entries().len() - self.handed;
        self.expected.resize(behind, book.expected())?;
        Ok(())
    }

    /// Notes what `SessionBook::bind` made: the Bind, while the session expected the number `before`,
    /// and then the entries of the Logon's acts.
    pub fn note_bind(&mut self, book: &SessionBook, before: u32) -> Result<(), NoMemory>
        requires { HasNoted self.old book.now.book }
        ensures ok { OnOk result (self.new ≡ after_bind_note before book.now.book self.old) }
        ensures all { OnOk result (HasNotedAll self.new book.now.book) }
        ensures err { OnErr result (self.new ≡ self.old) }
    {
        let first = self.expected.len();
        let behind = book.entries().len() - self.handed;
        self.expected.resize(behind, book.expected())?;
        if first < behind {
            self.expected[first] = before;
        }
        Ok(())
    }

    /// The record of each entry that wasn't handed out, in order, for session `s`. All entries that
    /// there are have to be noted. It takes time in proportion to those that it records, and their
    /// bodies.
    pub fn records(
        &self,
        alloc: Global,
        s: u16,
        book: &SessionBook,
    ) -> Result<Vec<Record>, NoMemory>
        requires { HasNotedAll self.now book.now.book }
        ensures { IfOk result (λ records. records.items ≡ new_records s book.now.book self.now) }
    {
        let entries = book.entries();
        make_records(
            alloc,
            s,
            book,
            book.series_behind(self.handed),
            &entries[self.handed..],
            self.expected.as_slice(),
        )
    }

    /// The records of all entries that there are were handed out.
    pub fn hand_out(&mut self, book: &SessionBook)
        ensures { self.new ≡ after_records book.now.book }
    {
        let entries = book.entries();
        self.handed = entries.len();
        self.expected.clear();
    }
}

impl SessionBook {
    /// The series behind so many entries of the journal. It takes time in proportion to the others.
    fn series_behind(&self, count: usize) -> u32
        requires { count ≤ length self.now.book.entries }
        ensures series { result ≡ series_of (state_of (take count self.now.book.entries)) }
        ensures few { series_over result (drop count self.now.book.entries) < 2 ^ 32 }
    {
        entries_decide_one_by_one();
        let entries = self.registry.entries();
        self.outbound.series() - resets(&entries[count..])
    }
}

/// How many of the entries are resets.
fn resets(entries: &[Entry]) -> u32
    requires { series_over 0 entries.now < 2 ^ 32 }
    ensures { result ≡ series_over 0 entries.now }
{
    let mut series = 0;
    for entry in entries {
        series = series_behind(series, entry);
    }
    series
}

/// The series behind an entry that was made in this one.
fn series_behind(series: u32, entry: &Entry) -> u32
    requires { series_behind series entry.now < 2 ^ 32 }
    ensures { result ≡ series_behind series entry.now }
{
    match entry {
        Entry::Reset { .. } => series + 1,
        _ => series,
    }
}

/// The records of entries with their expected numbers, of which the first was made in this series.
fn make_records(
    alloc: Global,
    s: u16,
    book: &SessionBook,
    series: u32,
    entries: &[Entry],
    expected: &[u32],
) -> Result<Vec<Record>, NoMemory>
    requires same { length entries.now ≡ length expected.now }
    requires few { series_over series entries.now < 2 ^ 32 }
    ensures { IfOk result (λ records. records.items ≡ records_from s book.now.book series entries.now expected.now) }
{
    let mut present = series;
    let mut records = Vec::with_capacity(alloc, entries.len())?;
    for (k, entry) in entries.iter().enumerate() {
        records.push(make_record(alloc, s, book, present, entry, expected[k])?)?;
        present = series_behind(present, entry);
    }
    Ok(records)
}

/// The record of an entry that was made in this series.
fn make_record(
    alloc: Global,
    s: u16,
    book: &SessionBook,
    series: u32,
    entry: &Entry,
    expected: u32,
) -> Result<Record, NoMemory>
    ensures { IfOk result (λ made. made ≡ record_of s book.now.book series entry.now expected) }
{
    let (at, body) = moment_and_body(book, series, entry);
    Ok(Record {
        s,
        entry: *entry,
        at,
        body: Bytes::of(Vec::from_slice(alloc, body)?),
        expected,
    })
}

/// The moment and the body of an entry that was made in this series.
fn moment_and_body<'a>(book: &'a SessionBook, series: u32, entry: &Entry) -> (u64, &'a [u8])
    ensures at { result.0 ≡ entry_moment book.now.book series entry.now }
    ensures body { result.1.now ≡ body_of book.now.book series entry.now }
{
    match *entry {
        Entry::Arrive { pos } => (0, accepted(book, pos)),
        Entry::Admin { number } | Entry::Send { number, .. } => logged(book, series, number),
        Entry::Plan { at, .. } => (at, &[]),
        _ => (0, &[]),
    }
}

/// The body that the inbound log has at this position.
fn accepted(book: &SessionBook, pos: u64) -> &[u8]
    ensures { result.now ≡ slice_index_or book.now.book.inbound pos [] }
{
    match book.inbound().body(pos) {
        Some(body) => body,
        None => &[],
    }
}

/// The moment and the body that the outbound log has with this number of the series.
fn logged(book: &SessionBook, series: u32, number: u64) -> (u64, &[u8])
    ensures at { result.0 ≡ (entry_of book.now.book.outbound series number).at }
    ensures body { result.1.now ≡ (entry_of book.now.book.outbound series number).body }
{
    match book.outbound().entry(series, number) {
        Some(OutEntry { at, body, .. }) => (*at, body.as_slice()),
        None => (0, &[]),
    }
}
