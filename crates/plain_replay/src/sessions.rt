//! What is kept of a session.

use crate::ownership::Ownership;
use gate_io::NoMemory;
use std::alloc::Global;

/// A message that came before its number.
#[derive(Drop)]
pub(crate) struct Early {
    pub(crate) number: u64,
    /// Empty where nothing is left to do on its number.
    pub(crate) body: Vec<u8>,
}

/// An entry of the outbound log.
#[derive(Drop)]
pub(crate) struct Logged {
    pub(crate) series: u64,
    pub(crate) number: u64,
    pub(crate) at: u64,
    pub(crate) body: Vec<u8>,
}

impl Logged {
    /// Whether a gap fill passes over it: session messages but a Reject.
    pub(crate) fn is_passed_over(&self) -> bool {
        match self.body.get(..5) {
            Some([b'3', b'5', b'=', kind, 1]) => b"01245A".contains(kind),
            _ => false,
        }
    }
}

pub(crate) struct Session {
    pub(crate) alloc: Global,
    pub(crate) us: Vec<u8>,
    pub(crate) them: Vec<u8>,
    /// For one that dials its HeartBtInt, and how long it waits.
    pub(crate) dials: Option<(u64, u64)>,
    pub(crate) next_dial: u64,
    /// The place of the connection to which it is bound, and its number.
    pub(crate) bound: Option<(usize, u64)>,
    /// Whether a Logon was answered on that connection.
    pub(crate) is_on: bool,
    pub(crate) heart: u64,
    pub(crate) expected: u64,
    pub(crate) horizon: u64,
    pub(crate) early: Vec<Early>,
    pub(crate) last_receipt: u64,
    pub(crate) last_sending: u64,
    /// Since when a TestRequest waits for an answer.
    pub(crate) tested: Option<u64>,
    /// Its journal, as the report has it.
    pub(crate) journal: String,
    pub(crate) inbound: Vec<Vec<u8>>,
    pub(crate) outbound: Vec<Logged>,
    pub(crate) series: u64,
    /// How many messages the present series has.
    pub(crate) numbered: u64,
    pub(crate) owned: Ownership,
    /// Frames for its connection.
    pub(crate) queued: Vec<Vec<u8>>,
    /// Why its connection ends.
    pub(crate) ends: Option<String>,
}

impl Drop for Session {
    fn drop(self) {
        let Session {
            alloc: _,
            us: _,
            them: _,
            dials: _,
            next_dial: _,
            bound: _,
            is_on: _,
            heart: _,
            expected: _,
            horizon: _,
            early: _,
            last_receipt: _,
            last_sending: _,
            tested: _,
            journal: _,
            inbound: _,
            outbound: _,
            series: _,
            numbered: _,
            owned: _,
            queued: _,
            ends: _,
        } = self;
    }
}

impl Session {
    pub(crate) fn new(
        alloc: Global,
        us: Vec<u8>,
        them: Vec<u8>,
        dials: Option<(u64, u64)>,
    ) -> Result<Session, NoMemory> {
        Ok(Session {
            alloc,
            us,
            them,
            dials,
            next_dial: 0,
            bound: None,
            is_on: false,
            heart: 0,
            expected: 1,
            horizon: 0,
            early: Vec::new(alloc),
            last_receipt: 0,
            last_sending: 0,
            tested: None,
            journal: String::new(alloc),
            inbound: Vec::new(alloc),
            outbound: Vec::new(alloc),
            series: 1,
            numbered: 0,
            owned: Ownership::new(alloc)?,
            queued: Vec::new(alloc),
            ends: None,
        })
    }

    /// A line of the journal.
    pub(crate) fn note(&mut self, line: &str) -> Result<(), NoMemory> {
        self.journal.push(' ')?;
        self.journal.push_str(line)?;
        self.journal.push('\n')?;
        Ok(())
    }

    /// The connection ends behind what was queued.
    pub(crate) fn end(&mut self, cause: &str) -> Result<(), NoMemory> {
        self.ends = Some(String::from_str(self.alloc, cause)?);
        Ok(())
    }

    pub(crate) fn bind(&mut self, place: usize, number: u64) -> Result<(), NoMemory> {
        self.bound = Some((place, number));
        self.is_on = false;
        self.tested = None;
        let line = format!(in self.alloc; "bind {number}")?;
        self.note(&line)
    }

    /// The connection to which it was bound has ended.
    pub(crate) fn leave(&mut self, moment: u64) -> Result<(), NoMemory> {
        if let Some((_place, number)) = self.bound {
            let line = format!(in self.alloc; "leave {number}")?;
            self.note(&line)?;
        }
        self.bound = None;
        self.is_on = false;
        self.tested = None;
        self.horizon = 0;
        self.early.clear();
        if let Some((_heart, wait)) = self.dials {
            self.next_dial = moment.saturating_add(wait);
        }
        Ok(())
    }

    /// An application message is accepted.
    pub(crate) fn accept(&mut self, body: &[u8]) -> Result<(), NoMemory> {
        let pos = self.inbound.len();
        let line = format!(in self.alloc; "arrive {pos}")?;
        self.note(&line)?;
        let body = Vec::from_slice(self.alloc, body)?;
        self.inbound.push(body)?;
        self.owned.arrived(self.inbound.len() as u64);
        Ok(())
    }
}
