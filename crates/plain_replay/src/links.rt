//! What is kept of a connection.

use crate::fields::copy_of;
use crate::frames::{Piece, piece_at};
use gate_io::NoMemory;
use std::alloc::Global;

/// The most bytes that are read of a connection in a turn.
const MOST_READ: usize = 4096;

/// The number of the first connection that is dialled.
pub(crate) const FIRST_DIALLED: u64 = 1024;

pub(crate) struct Link {
    alloc: Global,
    pub(crate) number: u64,
    /// Whether it came: it was accepted, or a dial got it.
    pub(crate) came: bool,
    pub(crate) since: u64,
    /// What the script gave, and how much of it was read.
    given: Vec<u8>,
    pub(crate) finished: bool,
    pub(crate) fails_read: bool,
    /// The place in what is written at which a write fails, and at which one is blocked.
    pub(crate) fails_at: Option<u64>,
    pub(crate) blocked_at: Option<u64>,
    /// All bytes that were read, and how far they were cut.
    pub(crate) taken: Vec<u8>,
    cut: usize,
    pub(crate) garbled: u64,
    /// The session to which it was bound.
    pub(crate) session: Option<usize>,
    /// Whether the Logon by which a dialled session began isn't answered yet.
    pub(crate) unanswered: bool,
    pub(crate) cause: Option<String>,
    pub(crate) closed: bool,
    /// The texts of all items, where each ends, and how much of them was written.
    pub(crate) texts: Vec<u8>,
    pub(crate) ends: Vec<u64>,
    pub(crate) written: u64,
}

impl Drop for Link {
    fn drop(self) {
        let Link {
            alloc: _,
            number: _,
            came: _,
            since: _,
            given: _,
            finished: _,
            fails_read: _,
            fails_at: _,
            blocked_at: _,
            taken: _,
            cut: _,
            garbled: _,
            session: _,
            unanswered: _,
            cause: _,
            closed: _,
            texts: _,
            ends: _,
            written: _,
        } = self;
    }
}

impl Link {
    pub(crate) fn new(alloc: Global, number: u64) -> Link {
        Link {
            alloc,
            number,
            came: false,
            since: 0,
            given: Vec::new(alloc),
            finished: false,
            fails_read: false,
            fails_at: None,
            blocked_at: None,
            taken: Vec::new(alloc),
            cut: 0,
            garbled: 0,
            session: None,
            unanswered: false,
            cause: None,
            closed: false,
            texts: Vec::new(alloc),
            ends: Vec::new(alloc),
            written: 0,
        }
    }

    pub(crate) fn is_dialled(&self) -> bool {
        self.number >= FIRST_DIALLED
    }

    /// Whether it came and hasn't ended.
    pub(crate) fn stands(&self) -> bool {
        self.came && self.cause.is_none()
    }

    /// The script gives bytes that can be read.
    pub(crate) fn give(&mut self, bytes: &[u8]) -> Result<(), NoMemory> {
        if !self.finished {
            self.given.extend_from_slice(bytes)?;
        }
        Ok(())
    }

    /// Reads what waits, as much as a turn has. Answers whether something did.
    pub(crate) fn read(&mut self) -> Result<bool, NoMemory> {
        let from = self.taken.len();
        let to = self.given.len().min(from.saturating_add(MOST_READ));
        let bytes = copy_of(self.alloc, &self.given, from, to)?;
        self.taken.extend_from_slice(&bytes)?;
        Ok(!bytes.is_empty())
    }

    /// The body of the next frame. The garbled bytes before it are counted.
    pub(crate) fn next_body(&mut self) -> Result<Option<Vec<u8>>, NoMemory> {
        for _ in 0..self.taken.len() {
            match piece_at(&self.taken, self.cut) {
                Piece::Rest => return Ok(None),
                Piece::Garbled { length } => {
                    self.cut = self.cut.saturating_add(length);
                    self.garbled = self.garbled.saturating_add(length as u64);
                }
                Piece::Good { from, to, length } => {
                    self.cut = self.cut.saturating_add(length);
                    let body = copy_of(self.alloc, &self.taken, from, to)?;
                    return Ok(Some(body));
                }
            }
        }
        Ok(None)
    }

    pub(crate) fn queue(&mut self, frame: &[u8]) -> Result<(), NoMemory> {
        self.texts.extend_from_slice(frame)?;
        self.ends.push(self.texts.len() as u64)?;
        Ok(())
    }

    /// It ends. The first cause stays.
    pub(crate) fn end(&mut self, cause: String) {
        if self.cause.is_none() {
            self.cause = Some(cause);
        }
    }
}
