//! A library's polls.
//!
//! In a replay a message is published in the turn that hands it on, so no poll comes too early for one.

use crate::libraries::{Held, Notice};
use crate::ownership::{Standing, Word};
use crate::texts::push_printed;
use crate::world::World;
use gate_io::NoMemory;

impl World {
    /// The line of a poll.
    pub(crate) fn call_poll(&mut self, place: usize) -> Result<String, NoMemory> {
        let event = match self.next_notice(place) {
            None => String::from_str(self.alloc, "nothing")?,
            Some(Notice::Message { s, lease, pos }) => self.poll_message(place, s, lease, pos)?,
            Some(Notice::Refused { nr, s, why }) => {
                self.close_request(place);
                format!(in self.alloc; "refused {nr} {s} {why}")?
            }
            Some(
                Notice::Granted {
                    nr,
                    s,
                    lease,
                    from,
                    start,
                },
            ) => {
                self.close_request(place);
                let grant = format!(in self.alloc;
                    "granted {nr} {s} lease {lease} from {from} start {start}"
                )?;
                self.poll_grant(place, s, lease, grant)?
            }
        };
        Ok(format!(in self.alloc; "poll: {event}")?)
    }

    fn next_notice(&mut self, place: usize) -> Option<Notice> {
        let Some(library) = self.libraries.get_mut(place) else {
            return None;
        };
        library.beat();
        if library.notices.is_empty() {
            return None;
        }
        Some(library.notices.remove(0))
    }

    fn close_request(&mut self, place: usize) {
        if let Some(library) = self.libraries.get_mut(place) {
            library.open = None;
        }
    }

    /// The library holds the lease from now on, unless it is lost already.
    fn poll_grant(
        &mut self,
        place: usize,
        s: usize,
        lease: u64,
        grant: String,
    ) -> Result<String, NoMemory> {
        self.drop_held(place, s);
        if let Some(word) = self.lost_word(place, s, lease) {
            return Ok(format!(in self.alloc; "lease-lost {s} lease {lease} {word}")?);
        }
        if let Some(library) = self.libraries.get_mut(place) {
            let count = 0;
            library.held.push(Held { s, lease, count })?;
        }
        Ok(grant)
    }

    fn poll_message(
        &mut self,
        place: usize,
        s: usize,
        lease: u64,
        pos: u64,
    ) -> Result<String, NoMemory> {
        let holds = match self.held(place, s) {
            Some(held) => held.lease == lease,
            None => false,
        };
        if !holds {
            return Ok(format!(in self.alloc; "stale {s} lease {lease} pos {pos}")?);
        }
        if let Some(word) = self.lost_word(place, s, lease) {
            self.drop_held(place, s);
            return Ok(format!(in self.alloc; "lease-lost {s} lease {lease} {word}")?);
        }
        if let Some(library) = self.libraries.get_mut(place) {
            library.reads = library.reads.saturating_add(1);
        }
        let mut line = format!(in self.alloc; "message {s} lease {lease} pos {pos} ")?;
        if let Some(session) = self.sessions.get(s) {
            if let Some(body) = session.inbound.get(pos as usize) {
                push_printed(&mut line, body)?;
            }
        }
        Ok(line)
    }

    /// The word of a session, where it doesn't show the lease as the library's.
    fn lost_word(&self, place: usize, s: usize, lease: u64) -> Option<Word> {
        let word = self.word_of(s);
        let own = (place as u64).saturating_add(1);
        let stands = word.standing == Standing::Active;
        if stands && word.lease == lease && word.owner == own {
            return None;
        }
        Some(word)
    }
}
