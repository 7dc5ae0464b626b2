//! A run told plainly, from all that happened at once: the whole journal, both logs, and of each
//! connection its pieces and its whole text. The acts of messages and ticks are those of the session
//! machine; all else is told by rules of its own, which no clause ties to the definitions.

use crate::plain_cut::{PlainPiece, cut};
use crate::plain_text::{again_text, fill_text, new_text};
use fix_fields::Fields;
use gate_io::{Bytes, LAST_MOMENT, NoMemory};
use lease_core::{Entry, Standing, Why, Word};
use session_core::{Act, Admin, Cause, Effects, Names, Session, admin_body, route};
use std::alloc::Global;

/// What happens to a session and to the last of its connections.
#[derive(Drop)]
pub enum Happening {
    Connects,
    Comes(Vec<u8>),
    Ends(Cause),
    Ticks,
    Requests { library: u8, nr: u32, from: u64 },
    Shows { w: Word, bodies: Vec<Vec<u8>> },
    TimesOut { old: Word, bodies: Vec<Vec<u8>> },
    Lapses,
}

/// A connection: what came, of how many pieces of it was decided what they mean, what is to be
/// written, and where its messages end.
#[derive(Drop)]
pub struct PlainConnection {
    pub taken: Vec<u8>,
    pub garbled: u64,
    pub text: Vec<u8>,
    pub ends: Vec<usize>,
    pub cause: Option<Cause>,
    pub bound: bool,
    handled: usize,
}

/// An entry of the outbound log.
#[derive(Drop)]
pub struct PlainEntry {
    pub at: u64,
    pub body: Vec<u8>,
}

impl PlainEntry {
    /// Whether a gap fill stands for it: it is a session message, and no Reject.
    pub fn is_filled(&self) -> bool {
        match self.body.as_slice() {
            [b'3', b'5', b'=', kind, 1, ..] => {
                matches!(*kind, b'A' | b'0' | b'1' | b'2' | b'4' | b'5')
            }
            _ => false,
        }
    }
}

pub struct PlainRun {
    pub journal: Vec<Entry>,
    pub inbound: Vec<Vec<u8>>,
    pub series: Vec<Vec<PlainEntry>>,
    pub connections: Vec<PlainConnection>,
    machine: Session,
    leases: u32,
    lease: u32,
    library: u8,
    owned: bool,
    sends: u32,
    reserved: Option<(u8, u64)>,
}

impl Drop for PlainRun {
    fn drop(self) {
        let PlainRun {
            journal: _,
            inbound: _,
            series: _,
            connections: _,
            machine: _,
            leases: _,
            lease: _,
            library: _,
            owned: _,
            sends: _,
            reserved: _,
        } = self;
    }
}

fn text(alloc: Global, text: &str) -> Result<Vec<u8>, NoMemory> {
    Ok(Vec::from_slice(alloc, text.as_bytes())?)
}

/// How many items a list has.
fn count<T>(list: &[T]) -> u64 {
    list.len() as u64
}

impl PlainRun {
    pub fn new(alloc: Global, leases: u32) -> Result<PlainRun, NoMemory> {
        let mut series = Vec::new(alloc);
        series.push(Vec::new(alloc))?;
        Ok(PlainRun {
            journal: Vec::new(alloc),
            inbound: Vec::new(alloc),
            series,
            connections: Vec::new(alloc),
            machine: Session::new(alloc, text(alloc, "GATE")?, text(alloc, "BUYER")?)?,
            leases,
            lease: 0,
            library: 0,
            owned: false,
            sends: 0,
            reserved: None,
        })
    }

    /// Tells what happened in order, each at its moment.
    pub fn tell(&mut self, alloc: Global, all: &[(u64, Happening)]) -> Result<(), NoMemory> {
        for (at, happening) in all {
            self.tell_one(alloc, (*at).min(LAST_MOMENT), happening)?;
        }
        Ok(())
    }

    fn tell_one(&mut self, alloc: Global, at: u64, happening: &Happening) -> Result<(), NoMemory> {
        match happening {
            Happening::Connects => self.connects(alloc),
            Happening::Comes(bytes) => self.comes(alloc, bytes, at),
            Happening::Ends(cause) => self.ends(*cause),
            Happening::Ticks => {
                let effects = self.machine.tick(alloc, at.min(LAST_MOMENT))?;
                self.carry(alloc, effects, at)
            }
            Happening::Requests { library, nr, from } => self.requests(*library, *nr, *from),
            Happening::Shows { w, bodies } => self.shows(alloc, *w, bodies, at),
            Happening::TimesOut { old, bodies } => self.times_out(alloc, *old, bodies, at),
            Happening::Lapses => {
                self.reserved = None;
                self.note(Entry::Lapse { lease: self.lease })
            }
        }
    }

    /// How many messages were accepted.
    fn accepted(&self) -> u64 {
        self.inbound.len() as u64
    }

    fn note(&mut self, entry: Entry) -> Result<(), NoMemory> {
        self.journal.push(entry)?;
        Ok(())
    }

    fn connects(&mut self, alloc: Global) -> Result<(), NoMemory> {
        self.connections.push(PlainConnection {
            taken: Vec::new(alloc),
            garbled: 0,
            text: Vec::new(alloc),
            ends: Vec::new(alloc),
            cause: None,
            bound: false,
            handled: 0,
        })?;
        Ok(())
    }

    /// The number of the last connection, and whether it is bound and stands.
    fn last(&self) -> (u32, bool) {
        let number = self
            .connections
            .len()
            .saturating_sub(1)
            .min(u32::MAX as usize) as u32;
        match self.connections.last() {
            Some(c) => (number, c.bound && c.cause.is_none()),
            None => (number, false),
        }
    }

    /// The pieces of all that came on the last connection, of which some were handled before.
    fn pieces(
        &mut self,
        alloc: Global,
        bytes: &[u8],
    ) -> Result<(Vec<PlainPiece>, usize), NoMemory> {
        let Some(c) = self.connections.last_mut() else {
            return Ok((Vec::new(alloc), 0));
        };
        c.taken.extend_from_slice(bytes)?;
        let pieces = cut(alloc, c.taken.as_slice())?;
        let handled = c.handled;
        c.handled = pieces.len();
        Ok((pieces, handled))
    }

    fn comes(&mut self, alloc: Global, bytes: &[u8], at: u64) -> Result<(), NoMemory> {
        let (pieces, handled) = self.pieces(alloc, bytes)?;
        for piece in pieces.iter().skip(handled) {
            if self.connections.last().is_some_and(|c| c.cause.is_none()) {
                self.handle(alloc, piece, at)?;
            }
        }
        Ok(())
    }

    fn handle(&mut self, alloc: Global, piece: &PlainPiece, at: u64) -> Result<(), NoMemory> {
        match piece {
            PlainPiece::Garbled(length) => {
                if let Some(c) = self.connections.last_mut() {
                    c.garbled = c.garbled.wrapping_add(*length as u64);
                }
                Ok(())
            }
            PlainPiece::Good(body) => self.message(alloc, body, at),
        }
    }

    fn message(&mut self, alloc: Global, body: &[u8], at: u64) -> Result<(), NoMemory> {
        let (number, stands) = self.last();
        if !stands {
            if let Some(cause) = why_refused(alloc, body)? {
                return self.ends(cause);
            }
            if let Some(c) = self.connections.last_mut() {
                c.bound = true;
            }
            self.note(Entry::Bind { c: number })?;
        }
        let effects = self
            .machine
            .receive(alloc, Vec::from_slice(alloc, body)?, at.min(LAST_MOMENT))?;
        self.carry(alloc, effects, at)
    }

    /// The acts of the session machine, in order, and the end.
    fn carry(&mut self, alloc: Global, effects: Effects, at: u64) -> Result<(), NoMemory> {
        for act in effects.acts.as_slice() {
            match act {
                Act::Accept(body) => {
                    let pos = self.accepted();
                    self.note(Entry::Arrive { pos })?;
                    self.inbound.push(Vec::from_slice(alloc, body.as_slice())?)?;
                }
                Act::Send(admin) => self.send_admin(alloc, admin, at)?,
                Act::Resend { begin, last } => self.resend(alloc, *begin, *last, at)?,
                Act::Reset => {
                    self.series.push(Vec::new(alloc))?;
                    let series = self.series.len().min(u32::MAX as usize) as u32;
                    self.note(Entry::Reset { series })?;
                }
            }
        }
        match effects.end {
            Some(cause) => self.ends(cause),
            None => Ok(()),
        }
    }

    /// The next number of the present series.
    fn next_number(&self) -> u64 {
        match self.series.last() {
            Some(series) => count(series).saturating_add(1),
            None => 1,
        }
    }

    fn send_admin(&mut self, alloc: Global, admin: &Admin, at: u64) -> Result<(), NoMemory> {
        let number = self.next_number();
        let body = admin_body(alloc, admin, number)?;
        self.note(Entry::Admin { number })?;
        self.log(alloc, body.as_slice(), at)
    }

    /// A body takes the next number, and its text waits where the session is bound.
    fn log(&mut self, alloc: Global, body: &[u8], at: u64) -> Result<(), NoMemory> {
        let written = new_text(alloc, body, self.next_number(), at)?;
        if let Some(series) = self.series.last_mut() {
            series.push(PlainEntry {
                at,
                body: Vec::from_slice(alloc, body)?,
            })?;
        }
        self.wait(written.as_slice(), at)
    }

    /// A text waits on the last connection, if the session is bound to it.
    fn wait(&mut self, written: &[u8], at: u64) -> Result<(), NoMemory> {
        if !self.last().1 {
            return Ok(());
        }
        if let Some(c) = self.connections.last_mut() {
            c.text.extend_from_slice(written)?;
            c.ends.push(c.text.len())?;
        }
        self.machine.sent(at.min(LAST_MOMENT));
        Ok(())
    }

    fn resend(&mut self, alloc: Global, begin: u64, last: u64, at: u64) -> Result<(), NoMemory> {
        self.note(Entry::Plan { begin, last, at })?;
        let texts = match self.series.last() {
            Some(series) => answers(alloc, series.as_slice(), begin, last, at)?,
            None => Vec::new(alloc),
        };
        for text in &texts {
            self.wait(text.as_slice(), at)?;
        }
        Ok(())
    }

    /// The last connection ends, if it stands.
    fn ends(&mut self, cause: Cause) -> Result<(), NoMemory> {
        let (c, stands) = self.last();
        if let Some(connection) = self.connections.last_mut() {
            if connection.cause.is_none() {
                connection.cause = Some(cause);
            }
        }
        if stands {
            self.machine.leave();
            self.note(Entry::Leave { c })?;
        }
        Ok(())
    }

    fn why_not(&self, library: u8, from: u64) -> Option<Why> {
        if self.owned {
            return Some(Why::OtherOwner {
                owner: self.library,
                lease: self.lease,
            });
        }
        if let Some((for_library, until)) = self.reserved {
            if for_library != library {
                return Some(Why::Reserved { for_library, until });
            }
        }
        if self.lease == self.leases {
            return Some(Why::LeasesSpent { lease: self.lease });
        }
        if from > self.accepted() {
            return Some(Why::MissingMessages {
                asked: from,
                logged: self.accepted(),
            });
        }
        None
    }

    fn requests(&mut self, library: u8, nr: u32, from: u64) -> Result<(), NoMemory> {
        if let Some(why) = self.why_not(library, from) {
            return self.note(Entry::Refused { library, nr, why });
        }
        self.lease = self.lease.wrapping_add(1);
        self.library = library;
        self.owned = true;
        self.sends = 0;
        self.reserved = None;
        let start = self.accepted();
        self.note(Entry::Granted {
            library,
            nr,
            lease: self.lease,
            from,
            start,
        })
    }

    fn shows(
        &mut self,
        alloc: Global,
        w: Word,
        bodies: &[Vec<u8>],
        at: u64,
    ) -> Result<(), NoMemory> {
        let mut number = self.next_number();
        for _ in bodies {
            self.sends = self.sends.wrapping_add(1);
            self.note(Entry::Send {
                lease: self.lease,
                library: self.library,
                ordinal: self.sends,
                number,
            })?;
            number = number.wrapping_add(1);
        }
        if matches!(w.standing, Standing::Released) {
            self.release(w.owner, at)?;
        }
        for body in bodies {
            self.log(alloc, body.as_slice(), at)?;
        }
        Ok(())
    }

    /// The session is given back, to an heir where the word's owner is another library.
    fn release(&mut self, owner: u8, at: u64) -> Result<(), NoMemory> {
        let heir = if owner == self.library { 0 } else { owner };
        let lease = self.lease;
        self.owned = false;
        self.note(Entry::Release {
            lease,
            library: self.library,
            count: self.sends,
            heir,
        })?;
        if heir == 0 {
            return Ok(());
        }
        let until = at.saturating_add(2_000);
        self.reserved = Some((heir, until));
        self.note(Entry::Hold { lease, until })
    }

    fn times_out(
        &mut self,
        alloc: Global,
        old: Word,
        bodies: &[Vec<u8>],
        at: u64,
    ) -> Result<(), NoMemory> {
        self.shows(alloc, old, bodies, at)?;
        if !self.owned {
            return Ok(());
        }
        self.owned = false;
        self.note(Entry::Timeout {
            lease: self.lease,
            library: self.library,
            count: self.sends,
        })
    }
}

/// What answers a request for the numbers from `begin` to `last` of a series.
fn answers(
    alloc: Global,
    series: &[PlainEntry],
    begin: u64,
    last: u64,
    now: u64,
) -> Result<Vec<Vec<u8>>, NoMemory> {
    let mut texts = Vec::new(alloc);
    let mut run = None;
    let mut number = 0u64;
    let most = if last == 0 {
        count(series)
    } else {
        last.min(count(series))
    };
    for entry in series {
        number = number.wrapping_add(1);
        if begin == 0 || number < begin || number > most {
            continue;
        }
        if entry.is_filled() {
            run = Some(run.unwrap_or(number));
            continue;
        }
        if let Some(from) = run {
            texts.push(fill_text(alloc, from, number, now)?)?;
        }
        run = None;
        texts.push(again_text(alloc, entry.body.as_slice(), number, entry.at, now)?)?;
    }
    if let Some(from) = run {
        texts.push(fill_text(alloc, from, most.wrapping_add(1), now)?)?;
    }
    Ok(texts)
}

/// Why a first message doesn't bind the session.
fn why_refused(alloc: Global, body: &[u8]) -> Result<Option<Cause>, NoMemory> {
    let names = [Names {
        us: Bytes::of(text(alloc, "GATE")?),
        them: Bytes::of(text(alloc, "BUYER")?),
    }];
    match Fields::read(alloc, body) {
        Ok(fields) => Ok(route(&fields, &names).err()),
        Err(_) => Ok(Some(Cause::NotLogon)),
    }
}
