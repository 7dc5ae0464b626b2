//! What becomes of a session's leases.

use crate::ownership::Ending;
use crate::sessions::Session;
use crate::texts::stamp;
use gate_io::NoMemory;
use std::mem;

/// The last moment that there is.
const LAST_MOMENT: u64 = 253_402_300_799_999;

impl Session {
    /// Records what the library that has the session did since.
    pub(crate) fn gather(&mut self, moment: u64, hold: u64) -> Result<(), NoMemory> {
        let unseen = mem::replace(&mut self.owned.unseen, Vec::new(self.alloc));
        for body in &unseen {
            let body = Vec::from_slice(self.alloc, body)?;
            self.record_send(body, moment)?;
        }
        if let Some(heir) = self.owned.given_back {
            self.record_release(heir)?;
            if heir > 0 {
                self.record_hold(heir, LAST_MOMENT.min(moment.saturating_add(hold)))?;
            }
        }
        Ok(())
    }

    fn record_send(&mut self, body: Vec<u8>, moment: u64) -> Result<(), NoMemory> {
        self.owned.sent();
        let number = self.send_new(body, moment)?;
        let lease = self.owned.lease;
        let library = self.owned.library;
        let ordinal = self.owned.sends;
        let line = format!(in self.alloc; "send {lease} {library} {ordinal} {number}")?;
        self.note(&line)
    }

    fn record_release(&mut self, heir: u64) -> Result<(), NoMemory> {
        let lease = self.owned.lease;
        let library = self.owned.library;
        let count = self.owned.sends;
        let line = if heir == 0 {
            format!(in self.alloc; "release {lease} {library} {count}")?
        } else {
            format!(in self.alloc; "hand {lease} {library} {count} {heir}")?
        };
        self.note(&line)?;
        let inbound = self.inbound.len() as u64;
        self.owned.end(Ending::GivenBack { heir }, inbound)
    }

    fn record_hold(&mut self, heir: u64, until: u64) -> Result<(), NoMemory> {
        let lease = self.owned.lease;
        let at = stamp(self.alloc, until)?;
        let line = format!(in self.alloc; "hold {lease} {at}")?;
        self.owned.reserved = Some((heir, until));
        self.note(&line)
    }

    /// The reservation ends where its moment has come.
    pub(crate) fn lapse(&mut self, moment: u64) -> Result<(), NoMemory> {
        match self.owned.reserved {
            Some((_heir, until)) if moment >= until => {
                let lease = self.owned.lease;
                let line = format!(in self.alloc; "lapse {lease}")?;
                self.owned.reserved = None;
                self.note(&line)
            }
            _ => Ok(()),
        }
    }

    /// The engine takes the session back.
    pub(crate) fn time_out(&mut self) -> Result<(), NoMemory> {
        let lease = self.owned.lease;
        let library = self.owned.library;
        let count = self.owned.sends;
        let line = format!(in self.alloc; "timeout {lease} {library} {count}")?;
        self.note(&line)?;
        let inbound = self.inbound.len() as u64;
        self.owned.end(Ending::TakenBack, inbound)
    }

    /// Answers a request: why it is refused, or None where it is granted.
    pub(crate) fn request(
        &mut self,
        library: u64,
        nr: u64,
        from: u64,
        leases: u64,
    ) -> Result<Option<String>, NoMemory> {
        let refusal = self.refusal(library, from, leases)?;
        match &refusal {
            Some(why) => {
                let line = format!(in self.alloc; "refused {library} {nr} {why}")?;
                self.note(&line)?;
            }
            None => {
                let start = self.inbound.len() as u64;
                self.owned.grant(library, from, start)?;
                let lease = self.owned.lease;
                let line = format!(in self.alloc;
                    "granted {library} {nr} lease {lease} from {from} start {start}"
                )?;
                self.note(&line)?;
            }
        }
        Ok(refusal)
    }

    fn refusal(&self, library: u64, from: u64, leases: u64) -> Result<Option<String>, NoMemory> {
        let owner = self.owned.owner();
        let lease = self.owned.lease;
        let logged = self.inbound.len() as u64;
        if owner > 0 {
            let why = format!(in self.alloc; "other-owner {owner} {lease}")?;
            return Ok(Some(why));
        }
        if let Some((heir, until)) = self.owned.reserved {
            if heir != library {
                let until = stamp(self.alloc, until)?;
                let why = format!(in self.alloc; "reserved {heir} {until}")?;
                return Ok(Some(why));
            }
        }
        if lease >= leases {
            let why = format!(in self.alloc; "leases-spent {lease}")?;
            return Ok(Some(why));
        }
        if from > logged {
            let why = format!(in self.alloc; "missing-messages {from} {logged}")?;
            return Ok(Some(why));
        }
        Ok(None)
    }
}
