//! What a library calls, and what it is answered.

use crate::libraries::{Held, Library};
use crate::ownership::{Standing, Word};
use crate::texts::push_printed;
use crate::world::World;
use gate_io::NoMemory;
use script_text::LibStep;

impl World {
    /// A library makes a call, and its line is written.
    pub(crate) fn call(&mut self, place: usize, act: &LibStep) -> Result<(), NoMemory> {
        let Some(library) = self.libraries.get_mut(place) else {
            return Ok(());
        };
        let line = match act {
            LibStep::Request { s, from } => self.call_request(place, usize::from(*s), *from)?,
            LibStep::Poll => self.call_poll(place)?,
            LibStep::Send { s, body } => {
                self.call_send(place, usize::from(*s), body.as_slice())?
            }
            LibStep::Release { s } => self.call_release(place, usize::from(*s))?,
            LibStep::Hand { s, heir } => {
                self.call_hand(place, usize::from(*s), u64::from(*heir))?
            }
            LibStep::Beat => {
                library.beat();
                format!(in self.alloc; "beat: beaten")?
            }
            LibStep::Answer | LibStep::Read { .. } => return Ok(()),
        };
        if let Some(library) = self.libraries.get_mut(place) {
            library.note(&line)?;
        }
        Ok(())
    }

    fn call_request(&mut self, place: usize, s: usize, from: u64) -> Result<String, NoMemory> {
        let alloc = self.alloc;
        let asks = self.limits.asks;
        let Some(library) = self.libraries.get_mut(place) else {
            return Ok(String::new(alloc));
        };
        let head = format!(in alloc; "request {s} {from}:")?;
        if let Some(nr) = library.open {
            return Ok(format!(in alloc; "{head} outstanding {nr}")?);
        }
        let asked = library.asked;
        if asked >= asks {
            return Ok(format!(in alloc; "{head} asks-spent {asked}")?);
        }
        let nr = asked.saturating_add(1);
        library.asked = nr;
        library.open = Some(nr);
        library.command = Some((nr, s, from));
        Ok(format!(in alloc; "{head} asked {nr}")?)
    }

    fn call_send(&mut self, place: usize, s: usize, body: &[u8]) -> Result<String, NoMemory> {
        let answer = self.send(place, s, body)?;
        let mut line = format!(in self.alloc; "send {s} ")?;
        push_printed(&mut line, body)?;
        line.push_str(": ")?;
        line.push_str(&answer)?;
        Ok(line)
    }

    fn call_release(&mut self, place: usize, s: usize) -> Result<String, NoMemory> {
        let head = format!(in self.alloc; "release {s}:")?;
        let Some(held) = self.held(place, s) else {
            return Ok(format!(in self.alloc; "{head} not-held")?);
        };
        self.give_back(place, held, 0, &head, "released")
    }

    fn call_hand(&mut self, place: usize, s: usize, heir: u64) -> Result<String, NoMemory> {
        let head = format!(in self.alloc; "hand {s} {heir}:")?;
        let Some(held) = self.held(place, s) else {
            return Ok(format!(in self.alloc; "{head} not-held")?);
        };
        let libraries = self.libraries.len() as u64;
        let own = (place as u64).saturating_add(1);
        if heir == 0 || heir > libraries || heir == own {
            return Ok(format!(in self.alloc; "{head} bad-heir {heir}")?);
        }
        self.give_back(place, held, heir, &head, "handed")
    }

    /// Gives a session back, for an heir or 0.
    fn give_back(
        &mut self,
        place: usize,
        held: Held,
        heir: u64,
        head: &str,
        done: &str,
    ) -> Result<String, NoMemory> {
        self.drop_held(place, held.s);
        let word = self.word_of(held.s);
        if word != word_of_holder(place, held) {
            return Ok(format!(in self.alloc; "{head} lost {word}")?);
        }
        if let Some(session) = self.sessions.get_mut(held.s) {
            session.owned.given_back = Some(heir);
        }
        let Held { lease, count, .. } = held;
        Ok(format!(in self.alloc; "{head} {done} {lease} {count}")?)
    }

    /// What a library holds of a session.
    pub(crate) fn held(&self, place: usize, s: usize) -> Option<Held> {
        let Some(library) = self.libraries.get(place) else {
            return None;
        };
        for held in &library.held {
            if held.s == s {
                return Some(*held);
            }
        }
        None
    }

    pub(crate) fn drop_held(&mut self, place: usize, s: usize) {
        if let Some(library) = self.libraries.get_mut(place) {
            library.held.retain(|held| held.s != s);
        }
    }

    /// The word of a session, as a library loads it.
    pub(crate) fn word_of(&self, s: usize) -> Word {
        match self.sessions.get(s) {
            Some(session) => session.owned.word(),
            None => Word {
                lease: 0,
                owner: 0,
                standing: Standing::Active,
                count: 0,
            },
        }
    }
}

/// The word as the library at a place, which holds a lease, left it.
pub(crate) fn word_of_holder(place: usize, held: Held) -> Word {
    Word {
        lease: held.lease,
        owner: (place as u64).saturating_add(1),
        standing: Standing::Active,
        count: held.count,
    }
}

impl Library {
    pub(crate) fn beat(&mut self) {
        self.beats = self.beats.saturating_add(1);
    }

    /// A line of a call.
    fn note(&mut self, line: &str) -> Result<(), NoMemory> {
        self.calls.push(' ')?;
        self.calls.push_str(line)?;
        self.calls.push('\n')?;
        Ok(())
    }
}
