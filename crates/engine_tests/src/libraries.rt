//! The three libraries, and what they do.

ghost use Rattle.std.specs.Prelude.{◌≡◌, ◌<◌, IfOk, Some, length, slice_get};
ghost use Rattle.std.specs.List.{All};
ghost use Rattle.engine_tests.specs.Outside.{AreEnds};
ghost use Rattle.lease_words.specs.Views.{LibraryView};

use crate::steps::Act;
use crate::texts::{ORDER, longest, numbered, soh};
use crate::told::{Instead, unless_bytes, unless_so, unless_told};
use gate_io::NoMemory;
use lease_words::{LibrarySeat, Sent};
use library_api::{LibraryEnds2, Links};
use library_desk::Shared;
use library_play::{Application, Seen};
use std::alloc::Global;

/// The three libraries.
#[derive(Drop)]
pub(crate) struct Libraries<'a> {
    first: Application<'a>,
    second: Application<'a>,
    third: Application<'a>,
}

impl<'a> Libraries<'a> {
    /// The libraries' side of the table and of the rings.
    pub(crate) fn new(
        alloc: Global,
        shared: &'a Shared,
        first: LibraryEnds2,
        second: LibraryEnds2,
        third: LibraryEnds2,
    ) -> Libraries<'a>
        requires first { AreEnds shared.now 0 first }
        requires second { AreEnds shared.now 1 second }
        requires third { AreEnds shared.now 2 third }
        ensures first { result.first.links.leases.now ≡ shared.now.leases }
        ensures second { result.second.links.leases.now ≡ shared.now.leases }
        ensures third { result.third.links.leases.now ≡ shared.now.leases }
    {
        Libraries {
            first: Application::new(alloc, links(shared, 0), first, u32::MAX),
            second: Application::new(alloc, links(shared, 1), second, u32::MAX),
            third: Application::new(alloc, links(shared, 2), third, u32::MAX),
        }
    }

    /// What a library does comes to this in place of what is said.
    pub(crate) fn play(
        &mut self,
        alloc: Global,
        library: u8,
        act: Act<'_>,
    ) -> Result<Instead, NoMemory>
        ensures first { self.new.first.links ≡ self.old.first.links }
        ensures second { self.new.second.links ≡ self.old.second.links }
        ensures third { self.new.third.links ≡ self.old.third.links }
    {
        match library {
            1 => play_one(alloc, &mut self.first, act),
            2 => play_one(alloc, &mut self.second, act),
            3 => play_one(alloc, &mut self.third, act),
            _ => unless_so(alloc, false, "no such library"),
        }
    }

    /// The libraries' seats at the table, to be taken in.
    pub(crate) fn into_seats(
        self,
        alloc: Global,
        _shared: &Shared,
    ) -> Result<Vec<LibrarySeat>, NoMemory>
        requires first { self.first.links.leases.now ≡ _shared.now.leases }
        requires second { self.second.links.leases.now ≡ _shared.now.leases }
        requires third { self.third.links.leases.now ≡ _shared.now.leases }
        ensures { IfOk result (λ seats. All (λ (seat : LibraryView). seat.table ≡ _shared.now.leases) seats.items) }
    {
        let first = self.first.into_seat();
        let second = self.second.into_seat();
        let third = self.third.into_seat();
        Ok(Vec::from_array(alloc, [first, second, third])?)
    }
}

// What a library at this place is lent.
fn links(shared: &Shared, place: usize) -> Links<'_>
    requires commands { place < length shared.now.commands.items }
    requires notices { place < length shared.now.notices.items }
    ensures leases { result.leases.now ≡ shared.now.leases }
    ensures commands { slice_get shared.now.commands.items place ≡ Some result.commands.now }
    ensures notices { slice_get shared.now.notices.items place ≡ Some result.notices.now }
{
    Links {
        leases: &shared.leases,
        commands: &shared.commands[place],
        notices: &shared.notices[place],
    }
}

// What a library does.
fn play_one(alloc: Global, library: &mut Application<'_>, act: Act<'_>) -> Result<Instead, NoMemory>
    ensures { library.new.links ≡ library.old.links }
{
    match act {
        Act::Sends(s, text, wanted) => {
            let body = soh(alloc, text)?;
            sends(alloc, library, s, body.as_slice(), wanted)
        }
        Act::SendsLongest(s, lease, first, last) => {
            sends_longest(alloc, library, s, lease, first, last)
        }
        Act::Reads(lease, first, end) => reads(alloc, library, lease, first, end),
        Act::Passes(lease, first, end) => passes(alloc, library, lease, first, end),
        Act::Holds(text) => unless_bytes(alloc, soh(alloc, text)?.as_slice(), library.bytes()),
        Act::Polls(wanted) => unless_told(alloc, wanted, &library.poll()),
        _ => asks(alloc, library, act),
    }
}

// What a library asks and gives back.
fn asks(alloc: Global, library: &mut Application<'_>, act: Act<'_>) -> Result<Instead, NoMemory>
    ensures { library.new.links ≡ library.old.links }
{
    match act {
        Act::Requests(s, from, wanted) => unless_told(alloc, wanted, &library.request(s, from)),
        Act::GivesBack(s, wanted) => unless_told(alloc, wanted, &library.release(s)),
        Act::HandsOn(s, heir, wanted) => unless_told(alloc, wanted, &library.release_to(s, heir)),
        Act::Beats => {
            library.beat();
            Ok(None)
        }
        Act::IsDone(finished, wanted) => unless_told(alloc, wanted, &library.done(finished)),
        _ => unless_so(alloc, false, "nothing that it asks"),
    }
}

// A library sends a body, which comes to this in place of what is said.
fn sends(
    alloc: Global,
    library: &mut Application<'_>,
    s: u16,
    body: &[u8],
    wanted: &str,
) -> Result<Instead, NoMemory>
    ensures { library.new.links ≡ library.old.links }
{
    match library.send(alloc, s, body)? {
        Some(answer) => unless_told(alloc, wanted, &answer),
        None => unless_so(alloc, false, "another body that came back"),
    }
}

// It sends the longest body, from one time to another.
fn sends_longest(
    alloc: Global,
    library: &mut Application<'_>,
    s: u16,
    lease: u32,
    first: u32,
    last: u32,
) -> Result<Instead, NoMemory>
    ensures { library.new.links ≡ library.old.links }
{
    let body = longest(alloc)?;
    for ordinal in first..last.saturating_add(1) {
        let answer = library.send(alloc, s, body.as_slice())?;
        if answer != Some(Ok(Sent { lease, ordinal })) {
            return Ok(Some(format!(in alloc; "{answer:?} the time {ordinal}")?));
        }
    }
    Ok(None)
}

// A library polls BUYER's orders of these positions, each once and in order.
fn reads(
    alloc: Global,
    library: &mut Application<'_>,
    lease: u32,
    first: u64,
    end: u64,
) -> Result<Instead, NoMemory>
    ensures { library.new.links ≡ library.old.links }
{
    for pos in first..end {
        let seen = library.poll();
        if seen != (Seen::Message { s: 0, lease, pos }) {
            return Ok(Some(format!(in alloc; "{seen:?} at {pos}")?));
        }
        let wanted = numbered(alloc, ORDER, pos.saturating_add(2))?;
        if library.bytes() != wanted.as_slice() {
            return unless_bytes(alloc, wanted.as_slice(), library.bytes());
        }
    }
    Ok(None)
}

// A library polls messages of these positions that its lease doesn't read any more.
fn passes(
    alloc: Global,
    library: &mut Application<'_>,
    lease: u32,
    first: u64,
    end: u64,
) -> Result<Instead, NoMemory>
    ensures { library.new.links ≡ library.old.links }
{
    for pos in first..end {
        let seen = library.poll();
        if seen != (Seen::Stale { s: 0, lease, pos }) {
            return Ok(Some(format!(in alloc; "{seen:?} at {pos}")?));
        }
    }
    Ok(None)
}
