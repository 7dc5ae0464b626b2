//! Connections that come, and what they bring.

use crate::fields::{Fields, read_fields};
use crate::logons::LOGON_WAIT;
use crate::texts::stamp;
use crate::world::World;
use gate_io::NoMemory;

/// The longest HeartBtInt, in seconds.
const LONGEST_HEARTBEAT: u64 = 86_400;

impl World {
    /// The next connection comes, of those that are dialled or of the others. Answers its place.
    fn next_link(&mut self, dialled: bool) -> Option<usize> {
        for (c, link) in self.links.iter_mut().enumerate() {
            if !link.came && link.is_dialled() == dialled {
                link.came = true;
                link.since = self.moment;
                return Some(c);
            }
        }
        None
    }

    pub(crate) fn accept(&mut self) {
        let _came = self.next_link(false);
    }

    /// A session dials, where that is due.
    pub(crate) fn dial(&mut self, s: usize) -> Result<(), NoMemory> {
        let moment = self.moment;
        let Some((heart, wait)) = self.due_dial(s) else {
            return Ok(());
        };
        let Some(c) = self.next_link(true) else {
            if let Some(session) = self.sessions.get_mut(s) {
                session.next_dial = moment.saturating_add(wait);
            }
            return Ok(());
        };
        self.gather(s)?;
        self.bind(s, c)?;
        if let Some(session) = self.sessions.get_mut(s) {
            session.ask(heart, moment)?;
        }
        self.settle(s)
    }

    /// The HeartBtInt and the wait of a session that is to dial now.
    fn due_dial(&self, s: usize) -> Option<(u64, u64)> {
        match self.sessions.get(s) {
            Some(session) if session.bound.is_none() && self.moment >= session.next_dial => {
                session.dials
            }
            _ => None,
        }
    }

    fn bind(&mut self, s: usize, c: usize) -> Result<(), NoMemory> {
        let Some(link) = self.links.get_mut(c) else {
            return Ok(());
        };
        link.session = Some(s);
        match self.sessions.get_mut(s) {
            Some(session) => session.bind(c, link.number),
            None => Ok(()),
        }
    }

    /// One read of a connection, and what follows from it.
    pub(crate) fn read(&mut self, c: usize) -> Result<(), NoMemory> {
        let Some(link) = self.links.get_mut(c) else {
            return Ok(());
        };
        if link.fails_read {
            return self.end_link(c, "read-fault");
        }
        let finished = link.finished;
        if link.read()? {
            self.handle_all(c)?;
        } else if finished {
            return self.end_link(c, "end");
        }
        self.end_late(c)
    }

    /// Handles the frames that were read, until the connection ends.
    fn handle_all(&mut self, c: usize) -> Result<(), NoMemory> {
        let most = match self.links.get(c) {
            Some(link) => link.taken.len(),
            None => 0,
        };
        for _ in 0..most {
            match self.next_body(c)? {
                Some(body) => self.handle(c, &body)?,
                None => return Ok(()),
            }
        }
        Ok(())
    }

    fn next_body(&mut self, c: usize) -> Result<Option<Vec<u8>>, NoMemory> {
        match self.links.get_mut(c) {
            Some(link) if link.stands() => link.next_body(),
            _ => Ok(None),
        }
    }

    fn handle(&mut self, c: usize, body: &[u8]) -> Result<(), NoMemory> {
        let session = match self.links.get(c) {
            Some(link) => link.session,
            None => None,
        };
        let Some(s) = session else {
            return self.handle_first(c, body);
        };
        self.gather(s)?;
        if let Some(session) = self.sessions.get_mut(s) {
            session.receive(body, self.moment)?;
        }
        self.settle(s)
    }

    /// The first message of a connection.
    fn handle_first(&mut self, c: usize, body: &[u8]) -> Result<(), NoMemory> {
        let fields = read_fields(self.alloc, body)?;
        if fields.fault.is_some() || !fields.is(35, b"A") {
            return self.end_link(c, "not-logon");
        }
        let Some(s) = self.session_of(&fields) else {
            return self.end_link(c, "no-such-session");
        };
        if let Some(number) = self.bound_to(s) {
            let cause = format!(in self.alloc; "duplicate {number}")?;
            return self.end_link(c, &cause);
        }
        if let Some(cause) = fault_of_logon(&fields) {
            return self.end_link(c, cause);
        }
        self.gather(s)?;
        self.bind(s, c)?;
        if let Some(session) = self.sessions.get_mut(s) {
            session.log_on(&fields, self.moment)?;
        }
        self.settle(s)
    }

    /// The session that accepts and has the names of a message.
    fn session_of(&self, fields: &Fields) -> Option<usize> {
        for (s, session) in self.sessions.iter().enumerate() {
            if session.dials.is_none() && session.wrong_name(fields).is_none() {
                return Some(s);
            }
        }
        None
    }

    fn bound_to(&self, s: usize) -> Option<u64> {
        match self.sessions.get(s) {
            Some(session) => match session.bound {
                Some((_place, number)) => Some(number),
                None => None,
            },
            None => None,
        }
    }

    /// An accepted connection ends where no Logon came in time.
    fn end_late(&mut self, c: usize) -> Result<(), NoMemory> {
        let Some(link) = self.links.get(c) else {
            return Ok(());
        };
        let late = self.moment >= link.since.saturating_add(LOGON_WAIT);
        if link.is_dialled() || link.session.is_some() || !late {
            return Ok(());
        }
        let since = stamp(self.alloc, link.since)?;
        let cause = format!(in self.alloc; "silent {since}")?;
        self.end_link(c, &cause)
    }
}

/// What is wrong with a Logon whose session is known.
fn fault_of_logon(fields: &Fields) -> Option<&'static str> {
    let heart = fields
        .number(108)
        .unwrap_or(LONGEST_HEARTBEAT.wrapping_add(1));
    let resets = fields.is(141, b"Y");
    if !fields.is(98, b"0") {
        return Some("bad-logon 98");
    }
    if heart > LONGEST_HEARTBEAT {
        return Some("bad-logon 108");
    }
    if fields.first(141).is_some() && !resets && !fields.is(141, b"N") {
        return Some("bad-logon 141");
    }
    match fields.sequence(34) {
        None => Some("no-number"),
        Some(n) if resets && n != 1 => Some("bad-logon 34"),
        Some(_n) => None,
    }
}
