//! What the lines so far have told, and whether the next one is right behind them.

ghost use Rattle.std.specs.Prelude.{◌≡◌, ◌↔◌, ◌+◌, ◌&&◌, ◌==◌, [], length, slice_get, IfOk, OnOk, IsTrue};
ghost use Rattle.std.specs.List.{list_all};
ghost use Rattle.journal_audit.specs.Cut.{cut_of};
ghost use Rattle.journal_audit.specs.Lines.{line_of};
ghost use Rattle.journal_audit.specs.Rules.{limit_by, limit_in, is_start, IsNextEntry, noted, after_entry, place_with_logs, same_header, same_holding, is_holding, is_logs, is_next_holding, after_holding, all_held, all_in, all_out, is_next_in, after_in, is_next_out, is_next_series, after_out, may_end, before_strays, before_connections, before_libraries, closed, at_place, is_next_session, after_session, is_stray, after_stray, is_next_connection, after_connection, is_written, after_wrote, is_next_library, after_library, is_calls, one_fewer, is_right_call, after_call, is_end, IsRightLine, after_line, with_session, with_one_fewer, is_read_of, is_sent_of, is_given_back_of};
ghost use Rattle.journal_audit.specs.Seen.{nothing_seen, bare_place};
ghost use Rattle.journal_audit.specs.Sessions.{all_told, session_after_read, session_after_deed};
ghost use Rattle.journal_audit.specs.Verdicts.{IsRightRead, after_read, is_done};
ghost use Rattle.journal_audit.specs.declared.place.Part.TheVariants as part;

use crate::entry_lines::read_entry;
use crate::line::{Call, Header, Line, Outcome, Reply};
use crate::line_reading::read_line;
use crate::place::{Part, Place};
use crate::replies::{Binds, Replies};
use crate::session::Session;
use crate::split::split_line;
use gate_io::{Bytes, NoMemory};
use lease_core::{Entry, Holding, MOST_LEASES, Recovery, Why};
use std::alloc::Global;
use std::marker::Model;
use std::mem;

/// What the lines so far have told.
pub(crate) struct Auditor {
    place: Place,
    number: u16,
    header: Header,
    held: usize,
    current: Session,
    sessions: Vec<Session>,
    binds: Binds,
    replies: Replies,
    least: u64,
    unwritten: u64,
    library: u8,
    asked: u32,
    unread: Option<u64>,
}

impl Drop for Auditor {
    fn drop(self) {
        let Auditor {
            place: _,
            number: _,
            header: _,
            held: _,
            current: _,
            sessions: _,
            binds: _,
            replies: _,
            least: _,
            unwritten: _,
            library: _,
            asked: _,
            unread: _,
        } = self;
    }
}

impl Model for Auditor {
    ghost use Rattle.journal_audit.specs.Seen.{Seen, place_seen};

    ghost Value = { Seen };

    ghost view = { λ a. record {
      place = place_seen a.place;
      number = a.number;
      header = a.header;
      held = a.held;
      current = a.current;
      sessions = a.sessions.items;
      binds = a.binds;
      replies = a.replies;
      least = a.least;
      unwritten = a.unwritten;
      library = a.library;
      asked = a.asked;
      unread = a.unread;
    } };
}

impl Auditor {
    /// Before the first line.
    pub(crate) fn new(alloc: Global) -> Result<Auditor, NoMemory>
        ensures { IfOk result (λ auditor. auditor ≡ nothing_seen) }
    {
        Ok(Auditor {
            place: Place::Start,
            number: 0,
            header: Header {
                owner: 0,
                lease: 0,
                inbound: 0,
                outbound: 0,
            },
            held: 0,
            current: Session::new(alloc)?,
            sessions: Vec::new(alloc),
            binds: Binds::new(alloc),
            replies: Replies::new(alloc),
            least: 0,
            unwritten: 0,
            library: 0,
            asked: 0,
            unread: None,
        })
    }

    /// Whether the report's end was met.
    pub(crate) fn is_done(&self) -> bool
        ensures { result ≡ is_done (self.now).place.part }
    {
        matches!(self.place.part(), Part::Done)
    }

    /// Whether a line of text is right with that text behind it. If so, what it tells is noted.
    pub(crate) fn read_line(
        &mut self,
        alloc: Global,
        line: &[u8],
        behind: &[u8],
    ) -> Result<bool, NoMemory>
        ensures right { IfOk result (λ right. IsTrue right ↔ IsRightRead self.old (length behind.now == 0) (line_of line.now)) }
        ensures after { IfOk result (λ right. IsTrue right → self.new ≡ after_read (limit_in (cut_of behind.now).lines) (line_of line.now) self.old) }
    {
        match read_line(alloc, line)? {
            Some(line) => self.take(alloc, line, behind),
            None => Ok(false),
        }
    }

    /// The same of a line that was read.
    fn take(&mut self, alloc: Global, line: Line, behind: &[u8]) -> Result<bool, NoMemory>
        ensures right { IfOk result (λ right. IsTrue right ↔ IsRightLine self.old (length behind.now == 0) line) }
        ensures after { IfOk result (λ right. IsTrue right → self.new ≡ after_line (limit_in (cut_of behind.now).lines) line self.old) }
    {
        match line {
            Line::Entry(entry) => self.entry(entry),
            Line::Call(call) => self.call(call),
            Line::In { pos, body } => self.message(pos, body),
            Line::Out { number, body } => self.sent(number, body),
            Line::Series { series } => self.series(alloc, series),
            Line::Holding(holding) => self.holding(holding),
            Line::Wrote { bytes } => Ok(self.wrote(bytes)),
            Line::Connection { c, s, written } => self.connection(alloc, c, s, written),
            Line::Session { s, header } => self.session(alloc, s, header, behind),
            Line::Stray { library, nr, s } => self.stray(alloc, library, nr, s),
            Line::Library { library, reads } => self.library(alloc, library, reads),
            Line::Head => Ok(self.head()),
            Line::End => self.end(alloc, behind),
        }
    }

    fn head(&mut self) -> bool
        ensures right { result ≡ is_start (self.old).place.part }
        ensures after { IsTrue result → self.new ≡ at_place (bare_place part.Head) self.old }
    {
        let right = matches!(self.place, Place::Start);
        self.place = Place::Head;
        right
    }

    fn entry(&mut self, entry: Entry) -> Result<bool, NoMemory>
        ensures right { IfOk result (λ right. IsTrue right ↔ IsNextEntry (self.old).place entry) }
        ensures after { IfOk result (λ right. IsTrue right → self.new ≡ after_entry entry self.old) }
    {
        if !self.place.put_entry(entry)? {
            return Ok(false);
        }
        self.current.put_entry(entry)?;
        self.note(entry)?;
        Ok(true)
    }

    /// Notes what an entry tells all parts that follow.
    fn note(&mut self, entry: Entry) -> Result<(), NoMemory>
        ensures { OnOk result (self.new ≡ noted entry self.old) }
    {
        let s = self.number;
        match entry {
            Entry::Bind { c } => self.binds.put(c, s),
            Entry::Granted {
                library,
                nr,
                lease,
                from,
                start,
            } => {
                let outcome = Outcome::Granted { lease, from, start };
                self.replies.put(library, nr, Reply { s, outcome })
            }
            Entry::Refused { library, nr, why } => {
                let outcome = Outcome::Refused(why);
                self.replies.put(library, nr, Reply { s, outcome })
            }
            _ => Ok(()),
        }
    }

    /// The holding's line ends the entries, if they were still told.
    fn holding(&mut self, holding: Holding) -> Result<bool, NoMemory>
        ensures right { IfOk result (λ right. right ≡ is_next_holding self.old (place_with_logs (self.old).place) holding) }
        ensures after { IfOk result (λ right. IsTrue right → self.new ≡ after_holding holding self.old) }
    {
        let place = mem::replace(&mut self.place, Place::Done);
        self.place = place.end_entries()?;
        let right = self.is_logs()
            && same_header(self.header, self.place.summary())
            && is_holding(self.place.holdings(), self.held, holding);
        if right {
            self.held += 1;
            self.current.put_holding(holding)?;
        }
        Ok(right)
    }

    fn is_logs(&self) -> bool
        ensures { result ≡ is_logs (self.now).place.part }
    {
        matches!(self.place.part(), Part::Logs)
    }

    /// Whether all holdings were told.
    fn all_held(&self) -> bool
        ensures { result ≡ all_held self.now }
    {
        self.is_logs() && self.held == self.place.holdings().len()
    }

    /// Whether all messages of the inbound log were told as well.
    fn all_in(&self) -> bool
        ensures { result ≡ all_in self.now }
    {
        self.all_held() && self.current.in_len() as u64 == self.header.inbound
    }

    /// Whether all of the outbound log was told as well.
    fn all_out(&self) -> bool
        ensures { result ≡ all_out self.now }
    {
        self.all_in() && self.current.has_all_bodies()
    }

    fn message(&mut self, pos: u64, body: Bytes) -> Result<bool, NoMemory>
        ensures right { IfOk result (λ right. right ≡ is_next_in self.old pos) }
        ensures after { IfOk result (λ right. IsTrue right → self.new ≡ after_in body self.old) }
    {
        let right = self.all_held()
            && pos == self.current.in_len() as u64
            && pos < self.header.inbound;
        if right {
            self.current.put_message(body)?;
        }
        Ok(right)
    }

    fn sent(&mut self, number: u64, body: Bytes) -> Result<bool, NoMemory>
        ensures right { IfOk result (λ right. right ≡ is_next_out self.old number body) }
        ensures after { IfOk result (λ right. IsTrue right → self.new ≡ after_out body self.old) }
    {
        let right = self.all_in() && self.current.fits_mark(number, body.as_slice());
        if right {
            self.current.put_body(body)?;
        }
        Ok(right)
    }

    fn series(&mut self, alloc: Global, series: u32) -> Result<bool, NoMemory>
        ensures right { IfOk result (λ right. right ≡ is_next_series self.old series) }
        ensures after { IfOk result (λ right. IsTrue right → self.new ≡ after_out [] self.old) }
    {
        let right = self.all_in() && self.current.fits_series(series);
        if right {
            self.current.put_body(Bytes::of(Vec::new(alloc)))?;
        }
        Ok(right)
    }

    /// Whether what was last may end here.
    fn may_end(&self) -> bool
        ensures { result ≡ may_end self.now }
    {
        match self.place.part() {
            Part::Head | Part::Strays => true,
            Part::Logs => self.all_out(),
            Part::Connections => self.unwritten == 0,
            Part::Calls => self.unread == Some(0),
            Part::Start | Part::Entries | Part::Done => false,
        }
    }

    /// The session whose lines came, if one did, becomes one of those before.
    fn close(&mut self, alloc: Global) -> Result<(), NoMemory>
        ensures { OnOk result (self.new ≡ closed self.old) }
    {
        if self.is_logs() {
            let session = mem::replace(&mut self.current, Session::new(alloc)?);
            self.sessions.push(session)?;
            self.held = 0;
        }
        Ok(())
    }

    fn session(
        &mut self,
        alloc: Global,
        s: u16,
        header: Header,
        behind: &[u8],
    ) -> Result<bool, NoMemory>
        ensures right { IfOk result (λ right. right ≡ is_next_session self.old s) }
        ensures after { IfOk result (λ right. IsTrue right → self.new ≡ after_session s header (limit_in (cut_of behind.now).lines) self.old) }
    {
        let placed = before_strays(self.place.part()) && self.may_end();
        self.close(alloc)?;
        let right = placed && usize::from(s) == self.sessions.len();
        if right {
            self.place = Place::Entries(Recovery::new(alloc, limit_in(behind))?);
            self.number = s;
            self.header = header;
        }
        Ok(right)
    }

    fn stray(&mut self, alloc: Global, library: u8, nr: u32, s: u16) -> Result<bool, NoMemory>
        ensures right { IfOk result (λ right. right ≡ is_stray self.old) }
        ensures after { IfOk result (λ right. IsTrue right → self.new ≡ after_stray library nr s self.old) }
    {
        let right = before_connections(self.place.part()) && self.may_end();
        self.close(alloc)?;
        self.place = Place::Strays;
        let outcome = Outcome::Refused(Why::UnknownSession { s });
        self.replies.put(library, nr, Reply { s, outcome })?;
        Ok(right)
    }

    fn connection(
        &mut self,
        alloc: Global,
        c: u32,
        s: Option<u16>,
        written: u64,
    ) -> Result<bool, NoMemory>
        ensures right { IfOk result (λ right. right ≡ is_next_connection self.old c s) }
        ensures after { IfOk result (λ right. IsTrue right → self.new ≡ after_connection c written self.old) }
    {
        let right = before_libraries(self.place.part())
            && self.may_end()
            && self.least <= u64::from(c)
            && self.binds.fits(c, s);
        self.close(alloc)?;
        self.place = Place::Connections;
        self.least = u64::from(c) + 1;
        self.unwritten = written;
        Ok(right)
    }

    fn wrote(&mut self, bytes: Bytes) -> bool
        ensures right { result ≡ is_written self.old bytes }
        ensures after { IsTrue result → self.new ≡ after_wrote self.old }
    {
        let right = matches!(self.place.part(), Part::Connections)
            && 0 < self.unwritten
            && bytes.as_slice().len() as u64 == self.unwritten;
        self.unwritten = 0;
        right
    }

    fn library(&mut self, alloc: Global, library: u8, reads: u64) -> Result<bool, NoMemory>
        ensures right { IfOk result (λ right. right ≡ is_next_library self.old library) }
        ensures after { IfOk result (λ right. IsTrue right → self.new ≡ after_library library reads self.old) }
    {
        let right = self.may_end() && u32::from(library) == u32::from(self.library) + 1;
        self.close(alloc)?;
        self.place = Place::Calls;
        self.library = library;
        self.asked = 0;
        self.unread = Some(reads);
        Ok(right)
    }

    fn call(&mut self, call: Call) -> Result<bool, NoMemory>
        ensures right { IfOk result (λ right. right ≡ (is_calls (self.old).place.part && is_right_call self.old call)) }
        ensures after { IfOk result (λ right. IsTrue right → self.new ≡ after_call call self.old) }
    {
        if !matches!(self.place.part(), Part::Calls) {
            return Ok(false);
        }
        Ok(self.right_call(call))
    }

    fn right_call(&mut self, call: Call) -> bool
        ensures right { result ≡ is_right_call self.old call }
        ensures after { IsTrue result → self.new ≡ after_call call self.old }
    {
        match call {
            Call::Asked { nr } => self.asked(nr),
            Call::Replied { nr, reply } => self.replies.take(self.library, nr, reply),
            Call::Read {
                s,
                lease,
                pos,
                body,
            } => self.read(s, lease, pos, body),
            Call::Sent {
                s,
                lease,
                ordinal,
                body,
            } => self.told_sent(s, lease, ordinal, body),
            Call::GaveBack {
                s,
                lease,
                count,
                heir,
            } => self.told_release(s, lease, count, heir),
            Call::Other => true,
        }
    }

    fn asked(&mut self, nr: u32) -> bool
        ensures right { result ≡ (nr == (self.old).asked + 1) }
        ensures after { self.new ≡ record (self.old) { asked = nr } }
    {
        let right = u64::from(nr) == u64::from(self.asked) + 1;
        self.asked = nr;
        right
    }

    fn read(&mut self, s: u16, lease: u32, pos: u64, body: Bytes) -> bool
        ensures right { result ≡ is_read_of (slice_get (self.old).sessions s) (self.old).library lease pos body }
        ensures after { IsTrue result → self.new ≡ with_one_fewer (with_session s (session_after_read lease pos) self.old) }
    {
        let place = usize::from(s);
        if place >= self.sessions.len() {
            return false;
        }
        let right = self.sessions[place].read(self.library, lease, pos, body.as_slice());
        self.unread = one_fewer(self.unread);
        right
    }

    fn told_sent(&mut self, s: u16, lease: u32, ordinal: u32, body: Bytes) -> bool
        ensures right { result ≡ is_sent_of (slice_get (self.old).sessions s) (self.old).library lease ordinal body }
        ensures after { IsTrue result → self.new ≡ with_session s (session_after_deed (self.old).library) self.old }
    {
        let place = usize::from(s);
        if place >= self.sessions.len() {
            return false;
        }
        self.sessions[place].tell_sent(self.library, lease, ordinal, body.as_slice())
    }

    fn told_release(&mut self, s: u16, lease: u32, count: u32, heir: u8) -> bool
        ensures right { result ≡ is_given_back_of (slice_get (self.old).sessions s) (self.old).library lease count heir }
        ensures after { IsTrue result → self.new ≡ with_session s (session_after_deed (self.old).library) self.old }
    {
        let place = usize::from(s);
        if place >= self.sessions.len() {
            return false;
        }
        self.sessions[place].tell_release(self.library, lease, count, heir)
    }

    fn end(&mut self, alloc: Global, behind: &[u8]) -> Result<bool, NoMemory>
        ensures right { IfOk result (λ right. right ≡ ((length behind.now == 0) && is_end self.old)) }
        ensures after { IfOk result (λ right. IsTrue right → self.new ≡ at_place (bare_place part.Done) (closed self.old)) }
    {
        let placed = behind.is_empty() && self.may_end();
        self.close(alloc)?;
        self.place = Place::Done;
        Ok(placed && self.all_told())
    }

    /// Whether each send and release of each session was told.
    fn all_told(&self) -> bool
        ensures { result ≡ list_all all_told (self.now).sessions }
    {
        self.sessions.iter().all(|session| session.all_told())
    }
}

/// How many leases a session can be given, by the lines behind its head.
fn limit_in(behind: &[u8]) -> u32
    ensures { result ≡ limit_in (cut_of behind.now).lines }
{
    let mut rest = behind;
    while let Some((line, later)) = split_line(rest) {
        let Some(entry) = read_entry(line) else {
            return MOST_LEASES;
        };
        if let Some(limit) = limit_by(entry) {
            return limit;
        }
        rest = later;
    }
    MOST_LEASES
}

fn limit_by(entry: Entry) -> Option<u32>
    ensures { result ≡ limit_by entry }
{
    match entry {
        Entry::Refused {
            why: Why::LeasesSpent { lease },
            ..
        } => Some(lease),
        _ => None,
    }
}

fn same_header(a: Header, b: Header) -> bool
    ensures { result ≡ same_header a b }
{
    a.owner == b.owner && a.lease == b.lease && a.inbound == b.inbound && a.outbound == b.outbound
}

fn same_holding(a: Holding, b: Holding) -> bool
    ensures { result ≡ same_holding a b }
{
    a.library == b.library
        && a.lease == b.lease
        && a.from == b.from
        && a.start == b.start
        && a.end == b.end
        && a.sends == b.sends
}

/// Whether this is the holding at the place.
fn is_holding(holdings: &[Holding], place: usize, holding: Holding) -> bool
    ensures { result ≡ is_holding (slice_get holdings.now place) holding }
{
    match holdings.get(place) {
        Some(kept) => same_holding(*kept, holding),
        None => false,
    }
}

fn before_strays(part: Part) -> bool
    ensures { result ≡ before_strays part }
{
    matches!(part, Part::Head | Part::Logs)
}

fn before_connections(part: Part) -> bool
    ensures { result ≡ before_connections part }
{
    matches!(part, Part::Head | Part::Logs | Part::Strays)
}

fn before_libraries(part: Part) -> bool
    ensures { result ≡ before_libraries part }
{
    matches!(
        part,
        Part::Head | Part::Logs | Part::Strays | Part::Connections
    )
}

/// One message fewer is to be told, or it is too many already.
fn one_fewer(unread: Option<u64>) -> Option<u64>
    ensures { result ≡ one_fewer unread }
{
    match unread {
        Some(n) if 0 < n => Some(n - 1),
        _ => None,
    }
}
