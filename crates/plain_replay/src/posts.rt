//! A library's sends.

use crate::calls::word_of_holder;
use crate::fields::unfit_at;
use crate::libraries::{Held, Library};
use crate::world::World;
use gate_io::NoMemory;

/// The longest body that a library may send.
const LONGEST_BODY: usize = 8192;

impl World {
    /// What a send is answered.
    pub(crate) fn send(&mut self, place: usize, s: usize, body: &[u8]) -> Result<String, NoMemory> {
        let alloc = self.alloc;
        let Some(held) = self.held(place, s) else {
            return Ok(String::from_str(alloc, "not-held")?);
        };
        let length = body.len();
        if length > LONGEST_BODY {
            return Ok(format!(in alloc; "too-long {length}")?);
        }
        if let Some(at) = unfit_at(alloc, body)? {
            return Ok(format!(in alloc; "bad-body {at}")?);
        }
        let (committed, taken) = self.lane_of(place, s);
        if committed.saturating_sub(taken) >= self.limits.lane {
            return Ok(format!(in alloc; "lane-full {committed} {taken}")?);
        }
        let count = held.count;
        if count >= self.limits.sends {
            return Ok(format!(in alloc; "sends-spent {count}")?);
        }
        self.exchange(place, held, body)
    }

    /// How many sends of a session went into the library's lane, and how many were taken out.
    fn lane_of(&self, place: usize, s: usize) -> (u64, u64) {
        let mut committed = 0u64;
        if let Some(library) = self.libraries.get(place) {
            for (session, sends) in &library.committed {
                if *session == s {
                    committed = *sends;
                }
            }
        }
        let own = (place as u64).saturating_add(1);
        let waits = match self.sessions.get(s) {
            Some(session) if session.owned.library == own => session.owned.unseen.len() as u64,
            _ => 0,
        };
        (committed, committed.saturating_sub(waits))
    }

    /// The send goes out where the word is as the library left it.
    fn exchange(&mut self, place: usize, held: Held, body: &[u8]) -> Result<String, NoMemory> {
        let alloc = self.alloc;
        let word = self.word_of(held.s);
        if word != word_of_holder(place, held) {
            self.drop_held(place, held.s);
            return Ok(format!(in alloc; "lost {word}")?);
        }
        if let Some(session) = self.sessions.get_mut(held.s) {
            session.owned.unseen.push(Vec::from_slice(alloc, body)?)?;
        }
        if let Some(library) = self.libraries.get_mut(place) {
            library.committed(held.s)?;
        }
        let lease = held.lease;
        let ordinal = held.count.saturating_add(1);
        Ok(format!(in alloc; "sent {lease} {ordinal}")?)
    }
}

impl Library {
    /// One more send of a session went out.
    fn committed(&mut self, s: usize) -> Result<(), NoMemory> {
        for held in &mut self.held {
            if held.s == s {
                held.count = held.count.saturating_add(1);
            }
        }
        for (session, sends) in &mut self.committed {
            if *session == s {
                *sends = sends.saturating_add(1);
                return Ok(());
            }
        }
        self.committed.push((s, 1))?;
        Ok(())
    }
}
