//! What is kept of a library, and what the engine does for it.

use crate::world::World;
use gate_io::NoMemory;
use std::alloc::Global;

/// How many notices a library's ring holds.
const RING: usize = 256;

/// What a library is told.
#[derive(Drop)]
pub(crate) enum Notice {
    Granted {
        nr: u64,
        s: usize,
        lease: u64,
        from: u64,
        start: u64,
    },
    Refused {
        nr: u64,
        s: usize,
        why: String,
    },
    Message {
        s: usize,
        lease: u64,
        pos: u64,
    },
}

/// What a library holds of a session.
#[derive(Clone, Copy, Debug)]
pub(crate) struct Held {
    pub(crate) s: usize,
    pub(crate) lease: u64,
    /// Its sends under the lease.
    pub(crate) count: u64,
}

pub(crate) struct Library {
    /// From 1.
    pub(crate) number: u64,
    pub(crate) asked: u64,
    /// The request that is open.
    pub(crate) open: Option<u64>,
    /// The request that the engine hasn't taken yet: its number, session and position.
    pub(crate) command: Option<(u64, usize, u64)>,
    /// What it was told and hasn't polled yet.
    pub(crate) notices: Vec<Notice>,
    pub(crate) held: Vec<Held>,
    /// For each session to which it sent, how often.
    pub(crate) committed: Vec<(usize, u64)>,
    pub(crate) beats: u64,
    /// The beats that the engine saw last, and since when it saw them.
    seen_beats: u64,
    since: u64,
    pub(crate) reads: u64,
    /// The lines of its calls.
    pub(crate) calls: String,
}

impl Drop for Library {
    fn drop(self) {
        let Library {
            number: _,
            asked: _,
            open: _,
            command: _,
            notices: _,
            held: _,
            committed: _,
            beats: _,
            seen_beats: _,
            since: _,
            reads: _,
            calls: _,
        } = self;
    }
}

impl Library {
    /// The library at a place, from 0.
    pub(crate) fn new(alloc: Global, place: u64, moment: u64) -> Result<Library, NoMemory> {
        Ok(Library {
            number: place.saturating_add(1),
            asked: 0,
            open: None,
            command: None,
            notices: Vec::new(alloc),
            held: Vec::new(alloc),
            committed: Vec::new(alloc),
            beats: 0,
            seen_beats: 0,
            since: moment,
            reads: 0,
            calls: String::new(alloc),
        })
    }

    fn has_room(&self) -> bool {
        self.notices.len() < RING
    }

    /// Notes its beats. Answers whether it fell silent: they stand since the timeout.
    fn note_beats(&mut self, moment: u64, timeout: u64) -> bool {
        if self.beats == self.seen_beats {
            return moment >= self.since.saturating_add(timeout);
        }
        self.seen_beats = self.beats;
        self.since = moment;
        false
    }
}

impl World {
    /// What the engine does for a library in a turn.
    pub(crate) fn serve(&mut self, place: usize) -> Result<(), NoMemory> {
        let Some(library) = self.libraries.get_mut(place) else {
            return Ok(());
        };
        let number = library.number;
        if library.note_beats(self.moment, self.limits.timeout) {
            // Each was gathered in this turn, and no library called since.
            for session in &mut self.sessions {
                if session.owned.owner() == number {
                    session.time_out()?;
                }
            }
        }
        self.answer(place)?;
        self.pump(place)
    }

    /// Answers a library's request, if there is room for the answer.
    fn answer(&mut self, place: usize) -> Result<(), NoMemory> {
        let Some(library) = self.libraries.get_mut(place) else {
            return Ok(());
        };
        if !library.has_room() {
            return Ok(());
        }
        let Some((nr, s, from)) = library.command.take() else {
            return Ok(());
        };
        let number = library.number;
        let notice = self.reply(number, nr, s, from)?;
        if let Some(library) = self.libraries.get_mut(place) {
            library.notices.push(notice)?;
        }
        Ok(())
    }

    fn reply(&mut self, number: u64, nr: u64, s: usize, from: u64) -> Result<Notice, NoMemory> {
        let Some(session) = self.sessions.get_mut(s) else {
            let line = format!(in self.alloc; "stray {number} {nr} {s}\n")?;
            self.strays.push_str(&line)?;
            let why = format!(in self.alloc; "unknown-session {s}")?;
            return Ok(Notice::Refused { nr, s, why });
        };
        match session.request(number, nr, from, self.limits.leases)? {
            Some(why) => Ok(Notice::Refused { nr, s, why }),
            None => Ok(Notice::Granted {
                nr,
                s,
                lease: session.owned.lease,
                from,
                start: session.inbound.len() as u64,
            }),
        }
    }

    /// Hands a library the messages of its sessions, as long as there is room.
    fn pump(&mut self, place: usize) -> Result<(), NoMemory> {
        let Some(library) = self.libraries.get_mut(place) else {
            return Ok(());
        };
        for (s, session) in self.sessions.iter_mut().enumerate() {
            if session.owned.owner() != library.number {
                continue;
            }
            let first = session.owned.cursor;
            for pos in first..session.inbound.len() as u64 {
                if !library.has_room() {
                    break;
                }
                let lease = session.owned.lease;
                library.notices.push(Notice::Message { s, lease, pos })?;
                session.owned.cursor = pos.saturating_add(1);
            }
        }
        Ok(())
    }
}
