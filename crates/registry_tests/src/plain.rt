//! What a journal comes to, told again from the whole list of its entries each time: slow, and
//! plainly what is meant. No clause ties it to the definitions. It gives up where a number would
//! not fit.

use gate_io::NoMemory;
use lease_core::{Ending, Entry, Event, Holding, Lease, Line, MOST_LIBRARIES, Standing, Why, Word};
use std::alloc::{AllocError, AllocFailed, Global};
use std::error::Error;
use std::fmt;

/// Why the plain program has no answer.
#[derive(Clone, Copy, Debug, PartialEq, Eq)]
pub enum GiveUp {
    OutOfMemory,
    TooMany,
}

impl fmt::Display for GiveUp {
    fn fmt<W: fmt::Write>(&self, f: &mut fmt::Formatter<W>) -> fmt::Result {
        write!(f, "no memory, or too many")
    }
}

impl Error for GiveUp {}

impl From<AllocError> for GiveUp {
    fn from(_e: AllocError) -> GiveUp {
        GiveUp::OutOfMemory
    }
}

impl<T: Drop> From<AllocFailed<T>> for GiveUp {
    fn from(_e: AllocFailed<T>) -> GiveUp {
        GiveUp::OutOfMemory
    }
}

impl From<NoMemory> for GiveUp {
    fn from(_e: NoMemory) -> GiveUp {
        GiveUp::OutOfMemory
    }
}

/// What the entries come to.
#[derive(Debug, Drop)]
pub struct PlainState {
    leases: Vec<Lease>,
    holdings: Vec<Holding>,
    inbound: u64,
    series: Vec<u64>,
    reserved: Option<(u8, u64)>,
    bound: Option<u32>,
    latest: Option<Entry>,
}

/// What these entries come to.
pub fn state_of(alloc: Global, entries: &[Entry]) -> Result<PlainState, GiveUp> {
    let mut state = PlainState::opening(alloc)?;
    for entry in entries {
        state.record(*entry)?;
    }
    Ok(state)
}

impl PlainState {
    fn opening(alloc: Global) -> Result<PlainState, GiveUp> {
        let mut holdings = Vec::new(alloc);
        holdings.push(engine_from(0))?;
        let mut series = Vec::new(alloc);
        series.push(0)?;
        Ok(PlainState {
            leases: Vec::new(alloc),
            holdings,
            inbound: 0,
            series,
            reserved: None,
            bound: None,
            latest: None,
        })
    }

    /// The connection to which the session is bound.
    pub fn bound(&self) -> Option<u32> {
        self.bound
    }

    pub fn holdings(&self) -> &[Holding] {
        self.holdings.as_slice()
    }

    pub fn inbound(&self) -> u64 {
        self.inbound
    }

    /// The length of each series.
    pub fn series(&self) -> &[u64] {
        self.series.as_slice()
    }

    pub fn reserved(&self) -> Option<(u8, u64)> {
        self.reserved
    }

    /// The library that has the session, or 0.
    pub fn owner(&self) -> u8 {
        owner_of(last_lease(&self.leases))
    }

    /// The number that the next send gets.
    pub fn next_number(&self) -> Result<u64, GiveUp> {
        one_more(last_number(&self.series))
    }

    /// Whether a library has the session.
    pub fn is_active(&self) -> bool {
        owner_of(last_lease(&self.leases)) > 0
    }

    /// How many sends of the last lease the word shows beyond those recorded.
    pub fn missing(&self, w: Word) -> u32 {
        w.count.saturating_sub(last_lease(&self.leases).sends)
    }

    fn record(&mut self, entry: Entry) -> Result<(), GiveUp> {
        self.reserved = reserved_after(self.reserved, last_lease(&self.leases), entry);
        record_holding(&mut self.holdings, self.inbound, entry)?;
        record_lease(&mut self.leases, entry)?;
        record_number(&mut self.series, entry)?;
        self.inbound = inbound_after(self.inbound, entry)?;
        self.bound = bound_after(self.bound, entry);
        self.latest = Some(entry);
        Ok(())
    }
}

fn engine_from(at: u64) -> Holding {
    Holding {
        library: 0,
        lease: 0,
        from: at,
        start: at,
        end: at,
        sends: 0,
    }
}

fn last_lease(leases: &[Lease]) -> Lease {
    let mut last = Lease::NONE;
    for lease in leases {
        last = *lease;
    }
    last
}

fn one_more(n: u64) -> Result<u64, GiveUp> {
    n.checked_add(1).ok_or(GiveUp::TooMany)
}

fn inbound_after(inbound: u64, entry: Entry) -> Result<u64, GiveUp> {
    match entry {
        Entry::Arrive { .. } => one_more(inbound),
        _ => Ok(inbound),
    }
}

fn bound_after(bound: Option<u32>, entry: Entry) -> Option<u32> {
    match entry {
        Entry::Bind { c } => Some(c),
        Entry::Leave { .. } => None,
        _ => bound,
    }
}

fn reserved_after(reserved: Option<(u8, u64)>, last: Lease, entry: Entry) -> Option<(u8, u64)> {
    match entry {
        Entry::Hold { until, .. } => match last.ending {
            Ending::GivenBack { heir } => Some((heir, until)),
            _ => Some((0, until)),
        },
        Entry::Granted { .. } | Entry::Lapse { .. } => None,
        _ => reserved,
    }
}

fn record_lease(leases: &mut Vec<Lease>, entry: Entry) -> Result<(), GiveUp> {
    if let Entry::Granted {
        library,
        from,
        start,
        ..
    } = entry
    {
        leases.push(Lease {
            library,
            from,
            start,
            ..Lease::NONE
        })?;
        return Ok(());
    }
    match entry {
        Entry::Send { .. } => {
            if let Some(last) = leases.pop() {
                let sends = last.sends.checked_add(1).ok_or(GiveUp::TooMany)?;
                leases.push(Lease { sends, ..last })?;
            }
        }
        Entry::Release { heir, .. } => end_lease(leases, Ending::GivenBack { heir })?,
        Entry::Timeout { .. } => end_lease(leases, Ending::TakenBack)?,
        _ => {}
    }
    Ok(())
}

fn end_lease(leases: &mut Vec<Lease>, ending: Ending) -> Result<(), GiveUp> {
    if let Some(last) = leases.pop() {
        leases.push(Lease { ending, ..last })?;
    }
    Ok(())
}

fn record_holding(holdings: &mut Vec<Holding>, inbound: u64, entry: Entry) -> Result<(), GiveUp> {
    match entry {
        Entry::Granted {
            library,
            lease,
            from,
            start,
            ..
        } => holdings.push(Holding {
            library,
            lease,
            from,
            start,
            end: start,
            sends: 0,
        })?,
        Entry::Release { .. } | Entry::Timeout { .. } => holdings.push(engine_from(inbound))?,
        Entry::Arrive { .. } => {
            if let Some(last) = holdings.pop() {
                let end = one_more(inbound)?;
                holdings.push(Holding { end, ..last })?;
            }
        }
        Entry::Send { .. } => {
            if let Some(last) = holdings.pop() {
                let sends = last.sends.checked_add(1).ok_or(GiveUp::TooMany)?;
                holdings.push(Holding { sends, ..last })?;
            }
        }
        _ => {}
    }
    Ok(())
}

fn record_number(series: &mut Vec<u64>, entry: Entry) -> Result<(), GiveUp> {
    match entry {
        Entry::Reset { .. } => series.push(0)?,
        Entry::Admin { .. } | Entry::Send { .. } => {
            if let Some(last) = series.pop() {
                series.push(one_more(last)?)?;
            }
        }
        _ => {}
    }
    Ok(())
}

/// The leases in order, as the lease word can show them.
pub fn lines_of(alloc: Global, entries: &[Entry]) -> Result<Vec<Line>, GiveUp> {
    let state = state_of(alloc, entries)?;
    let mut lines = Vec::new(alloc);
    for lease in &state.leases {
        lines.push(Line {
            library: lease.library,
            sends: lease.sends,
            ending: lease.ending,
        })?;
    }
    Ok(lines)
}

/// The word that lines of leases stand for.
pub fn word_of(lines: &[Line]) -> Result<Word, GiveUp> {
    let lease = small(lines.len())?;
    let line = last_line(lines);
    let library = line.library;
    let (owner, standing) = match line.ending {
        Ending::Running => (library, Standing::Active),
        Ending::TakenBack => (library, Standing::Revoked),
        Ending::GivenBack { heir: 0 } => (library, Standing::Released),
        Ending::GivenBack { heir } => (heir, Standing::Released),
    };
    Ok(Word {
        lease,
        owner,
        standing,
        count: line.sends,
    })
}

fn last_line(lines: &[Line]) -> Line {
    let mut last = Line {
        library: 0,
        sends: 0,
        ending: Ending::Running,
    };
    for line in lines {
        last = *line;
    }
    last
}

/// The entry of an event, where a session can be granted `limit` times.
pub fn step(limit: u32, s: &PlainState, event: Event) -> Result<Entry, GiveUp> {
    let leases = small(s.leases.len())?;
    let last = last_lease(&s.leases);
    let library = last.library;
    let number = one_more(last_number(&s.series))?;
    Ok(match event {
        Event::Arrives => Entry::Arrive { pos: s.inbound },
        Event::AdminSent => Entry::Admin { number },
        Event::Binds { c } => Entry::Bind { c },
        Event::Plans { begin, last, at } => Entry::Plan { begin, last, at },
        Event::Leaves { c } => Entry::Leave { c },
        Event::Resets => Entry::Reset {
            series: next(small(s.series.len())?)?,
        },
        Event::Requests { library, nr, from } => match why_refused(limit, s, library, from)? {
            Some(why) => Entry::Refused { library, nr, why },
            None => Entry::Granted {
                library,
                nr,
                lease: next(leases)?,
                from,
                start: s.inbound,
            },
        },
        Event::Sends => Entry::Send {
            lease: leases,
            library,
            ordinal: next(last.sends)?,
            number,
        },
        Event::Releases { heir } => Entry::Release {
            lease: leases,
            library,
            count: last.sends,
            heir,
        },
        Event::TimesOut => Entry::Timeout {
            lease: leases,
            library,
            count: last.sends,
        },
        Event::Holds { until } => Entry::Hold {
            lease: leases,
            until,
        },
        Event::Lapses => Entry::Lapse { lease: leases },
    })
}

fn why_refused(limit: u32, s: &PlainState, library: u8, from: u64) -> Result<Option<Why>, GiveUp> {
    let lease = small(s.leases.len())?;
    let owner = owner_of(last_lease(&s.leases));
    if owner > 0 {
        return Ok(Some(Why::OtherOwner { owner, lease }));
    }
    if let Some((for_library, until)) = s.reserved {
        if for_library != library {
            return Ok(Some(Why::Reserved { for_library, until }));
        }
    }
    if lease == limit {
        return Ok(Some(Why::LeasesSpent { lease }));
    }
    if s.inbound < from {
        return Ok(Some(Why::MissingMessages {
            asked: from,
            logged: s.inbound,
        }));
    }
    Ok(None)
}

fn owner_of(last: Lease) -> u8 {
    match last.ending {
        Ending::Running => last.library,
        Ending::GivenBack { .. } | Ending::TakenBack => 0,
    }
}

fn last_number(series: &[u64]) -> u64 {
    let mut last = 0;
    for number in series {
        last = *number;
    }
    last
}

fn small(n: usize) -> Result<u32, GiveUp> {
    if n > 0xffff_ffff {
        return Err(GiveUp::TooMany);
    }
    Ok(n as u32)
}

fn next(n: u32) -> Result<u32, GiveUp> {
    n.checked_add(1).ok_or(GiveUp::TooMany)
}

/// Whether the entry may stand behind those that came to this: an event that can happen gives it,
/// and it stands where it may.
pub fn may_follow(limit: u32, s: &PlainState, entry: Entry) -> Result<bool, GiveUp> {
    if s.owes_hold() != matches!(entry, Entry::Hold { .. }) || !s.fits_connection(entry) {
        return Ok(false);
    }
    let event = event_of(entry);
    Ok(s.can_happen(event) && step(limit, s, event)? == entry)
}

/// The only event of which the entry can come.
fn event_of(entry: Entry) -> Event {
    match entry {
        Entry::Arrive { .. } => Event::Arrives,
        Entry::Admin { .. } => Event::AdminSent,
        Entry::Bind { c } => Event::Binds { c },
        Entry::Plan { begin, last, at } => Event::Plans { begin, last, at },
        Entry::Leave { c } => Event::Leaves { c },
        Entry::Reset { .. } => Event::Resets,
        Entry::Granted {
            library,
            nr,
            from,
            ..
        } => Event::Requests { library, nr, from },
        Entry::Refused { library, nr, why } => Event::Requests {
            library,
            nr,
            from: asked_in(why),
        },
        Entry::Send { .. } => Event::Sends,
        Entry::Release { heir, .. } => Event::Releases { heir },
        Entry::Timeout { .. } => Event::TimesOut,
        Entry::Hold { until, .. } => Event::Holds { until },
        Entry::Lapse { .. } => Event::Lapses,
    }
}

fn asked_in(why: Why) -> u64 {
    match why {
        Why::MissingMessages { asked, .. } => asked,
        _ => 0,
    }
}

impl PlainState {
    fn owes_hold(&self) -> bool {
        matches!(self.latest, Some(Entry::Release { heir, .. }) if heir > 0)
    }

    fn fits_connection(&self, entry: Entry) -> bool {
        match entry {
            Entry::Bind { .. } => self.bound.is_none(),
            Entry::Plan { .. } => self.bound.is_some(),
            Entry::Leave { c } => self.bound == Some(c),
            Entry::Reset { .. } => matches!(self.latest, Some(Entry::Bind { .. })),
            _ => true,
        }
    }

    fn can_happen(&self, event: Event) -> bool {
        match event {
            Event::Requests { library, .. } => 1 <= library && library <= MOST_LIBRARIES,
            Event::Sends | Event::TimesOut => self.is_active(),
            Event::Releases { heir } => self.is_active()
                && heir <= MOST_LIBRARIES
                && heir != self.owner(),
            Event::Lapses => self.reserved.is_some(),
            _ => true,
        }
    }
}
