//! Who owns a session, and by which lease.

use gate_io::NoMemory;
use std::alloc::Global;
use std::fmt;

/// What a library sees of a session's last lease.
#[derive(Clone, Copy, Debug, PartialEq, Eq)]
pub(crate) struct Word {
    pub(crate) lease: u64,
    pub(crate) owner: u64,
    pub(crate) standing: Standing,
    pub(crate) count: u64,
}

#[derive(Clone, Copy, Debug, PartialEq, Eq)]
pub(crate) enum Standing {
    Active,
    Released,
    Revoked,
}

impl fmt::Display for Word {
    fn fmt<W: fmt::Write>(&self, f: &mut fmt::Formatter<W>) -> fmt::Result {
        let Word {
            lease,
            owner,
            standing,
            count,
        } = *self;
        let standing = match standing {
            Standing::Active => "active",
            Standing::Released => "released",
            Standing::Revoked => "revoked",
        };
        write!(f, "{lease} {owner} {standing} {count}")
    }
}

/// A span of ownership.
#[derive(Clone, Copy, Debug)]
pub(crate) struct Holding {
    pub(crate) library: u64,
    pub(crate) lease: u64,
    pub(crate) from: u64,
    pub(crate) start: u64,
    pub(crate) end: u64,
    pub(crate) sends: u64,
}

/// How a lease ended.
#[derive(Clone, Copy, Debug, PartialEq, Eq)]
pub(crate) enum Ending {
    Running,
    /// To an heir, or 0.
    GivenBack { heir: u64 },
    TakenBack,
}

/// The owner of a session. The last lease is told as the engine recorded it, and beside it what its library did since
/// the engine looked last.
pub(crate) struct Ownership {
    pub(crate) lease: u64,
    pub(crate) library: u64,
    pub(crate) sends: u64,
    pub(crate) ending: Ending,
    /// The heir, and until when it is waited for.
    pub(crate) reserved: Option<(u64, u64)>,
    pub(crate) holdings: Vec<Holding>,
    /// The bodies that the library sent since.
    pub(crate) unseen: Vec<Vec<u8>>,
    /// The heir, or 0, where it gave the session back since.
    pub(crate) given_back: Option<u64>,
    /// The position that the engine hands to the library next.
    pub(crate) cursor: u64,
}

impl Drop for Ownership {
    fn drop(self) {
        let Ownership {
            lease: _,
            library: _,
            sends: _,
            ending: _,
            reserved: _,
            holdings: _,
            unseen: _,
            given_back: _,
            cursor: _,
        } = self;
    }
}

impl Ownership {
    pub(crate) fn new(alloc: Global) -> Result<Ownership, NoMemory> {
        let mut holdings = Vec::new(alloc);
        holdings.push(engine_from(0))?;
        Ok(Ownership {
            lease: 0,
            library: 0,
            sends: 0,
            ending: Ending::TakenBack,
            reserved: None,
            holdings,
            unseen: Vec::new(alloc),
            given_back: None,
            cursor: 0,
        })
    }

    /// The library that has the session, 0 for the engine.
    pub(crate) fn owner(&self) -> u64 {
        match self.ending {
            Ending::Running => self.library,
            _ => 0,
        }
    }

    /// The word that a library would load now.
    pub(crate) fn word(&self) -> Word {
        let sent = self.sends.saturating_add(self.unseen.len() as u64);
        let ending = match self.given_back {
            Some(heir) => Ending::GivenBack { heir },
            None => self.ending,
        };
        let (owner, standing) = match ending {
            Ending::Running => (self.library, Standing::Active),
            Ending::TakenBack => (self.library, Standing::Revoked),
            Ending::GivenBack { heir: 0 } => (self.library, Standing::Released),
            Ending::GivenBack { heir } => (heir, Standing::Released),
        };
        Word {
            lease: self.lease,
            owner,
            standing,
            count: sent,
        }
    }

    /// The next lease, which is the library's.
    pub(crate) fn grant(&mut self, library: u64, from: u64, start: u64) -> Result<(), NoMemory> {
        self.lease = self.lease.saturating_add(1);
        self.library = library;
        self.sends = 0;
        self.ending = Ending::Running;
        self.reserved = None;
        self.cursor = from;
        self.holdings.push(Holding {
            library,
            lease: self.lease,
            from,
            start,
            end: start,
            sends: 0,
        })?;
        Ok(())
    }

    /// The session is the engine's again.
    pub(crate) fn end(&mut self, ending: Ending, inbound: u64) -> Result<(), NoMemory> {
        self.ending = ending;
        self.given_back = None;
        self.holdings.push(engine_from(inbound))?;
        Ok(())
    }

    pub(crate) fn arrived(&mut self, inbound: u64) {
        if let Some(last) = self.holdings.last_mut() {
            last.end = inbound;
        }
    }

    /// One more send of the last lease was seen.
    pub(crate) fn sent(&mut self) {
        self.sends = self.sends.saturating_add(1);
        if let Some(last) = self.holdings.last_mut() {
            last.sends = self.sends;
        }
    }
}

fn engine_from(start: u64) -> Holding {
    Holding {
        library: 0,
        lease: 0,
        from: start,
        start,
        end: start,
        sends: 0,
    }
}
