//! All that a run has.

use crate::libraries::Library;
use crate::links::Link;
use crate::sessions::Session;
use gate_io::NoMemory;
use script_text::Script;
use std::alloc::Global;
use std::mem;

/// The numbers of the configuration.
#[derive(Clone, Copy, Debug)]
pub(crate) struct Limits {
    pub(crate) lane: u64,
    pub(crate) leases: u64,
    pub(crate) sends: u64,
    pub(crate) asks: u64,
    pub(crate) timeout: u64,
    pub(crate) hold: u64,
}

pub(crate) struct World {
    pub(crate) alloc: Global,
    pub(crate) limits: Limits,
    pub(crate) clock: u64,
    /// The moment of the last turn.
    pub(crate) moment: u64,
    pub(crate) sessions: Vec<Session>,
    pub(crate) links: Vec<Link>,
    pub(crate) libraries: Vec<Library>,
    /// The lines of requests for sessions that there aren't.
    pub(crate) strays: String,
}

impl Drop for World {
    fn drop(self) {
        let World {
            alloc: _,
            limits: _,
            clock: _,
            moment: _,
            sessions: _,
            links: _,
            libraries: _,
            strays: _,
        } = self;
    }
}

impl World {
    /// A run as it begins, at a moment.
    pub(crate) fn new(alloc: Global, script: &Script, moment: u64) -> Result<World, NoMemory> {
        let config = &script.config;
        let mut libraries = Vec::new(alloc);
        for number in 0..config.libraries {
            libraries.push(Library::new(alloc, u64::from(number), moment)?)?;
        }
        Ok(World {
            alloc,
            limits: Limits {
                lane: u64::from(config.lane),
                leases: u64::from(config.leases),
                sends: u64::from(config.sends),
                asks: u64::from(config.asks),
                timeout: config.timeout,
                hold: config.hold,
            },
            clock: 0,
            moment,
            sessions: sessions_of(alloc, script)?,
            links: Vec::new(alloc),
            libraries,
            strays: String::new(alloc),
        })
    }

    /// What a session queued goes to its connection, and the connection ends where the session says so.
    pub(crate) fn settle(&mut self, s: usize) -> Result<(), NoMemory> {
        let Some(session) = self.sessions.get_mut(s) else {
            return Ok(());
        };
        let queued = mem::replace(&mut session.queued, Vec::new(self.alloc));
        let Some((place, _number)) = session.bound else {
            return Ok(());
        };
        let Some(link) = self.links.get_mut(place) else {
            return Ok(());
        };
        for frame in &queued {
            link.queue(frame)?;
        }
        link.unanswered = session.dials.is_some() && !session.is_on;
        if let Some(cause) = session.ends.take() {
            link.end(cause);
            session.leave(self.moment)?;
        }
        Ok(())
    }

    /// A connection ends, and the session that is bound to it leaves it.
    pub(crate) fn end_link(&mut self, c: usize, cause: &str) -> Result<(), NoMemory> {
        let cause = String::from_str(self.alloc, cause)?;
        let Some(link) = self.links.get_mut(c) else {
            return Ok(());
        };
        if !link.stands() {
            return Ok(());
        }
        link.end(cause);
        let Some(s) = link.session else {
            return Ok(());
        };
        match self.sessions.get_mut(s) {
            Some(session) => session.leave(self.moment),
            None => Ok(()),
        }
    }

    /// The engine sees what the session's library did.
    pub(crate) fn gather(&mut self, s: usize) -> Result<(), NoMemory> {
        if let Some(session) = self.sessions.get_mut(s) {
            session.gather(self.moment, self.limits.hold)?;
        }
        self.settle(s)
    }
}

fn sessions_of(alloc: Global, script: &Script) -> Result<Vec<Session>, NoMemory> {
    let mut sessions = Vec::new(alloc);
    let dialled = script.config.dialled.as_slice();
    for (i, names) in script.config.names.as_slice().iter().enumerate() {
        let dials = match dialled.get(i) {
            Some(Some(to)) => Some((u64::from(to.heart), to.wait)),
            _ => None,
        };
        let us = Vec::from_slice(alloc, names.us.as_slice())?;
        let them = Vec::from_slice(alloc, names.them.as_slice())?;
        sessions.push(Session::new(alloc, us, them, dials)?)?;
    }
    Ok(sessions)
}
