//! The answers to requests, and the connections to which sessions were bound, as the journals have them.

ghost use Rattle.std.specs.Prelude.{◌≡◌, [], OnOk};
ghost use Rattle.journal_audit.specs.Seen.{reply_in, replies_with, replies_without, binds_with, fits_binds, same_why, same_outcome, same_reply, is_reply};

use crate::line::{Outcome, Reply};
use gate_io::NoMemory;
use lease_core::Why;
use std::alloc::Global;
use std::collections::{BTreeMap, BTreeSet};
use std::marker::Model;

/// The answers to requests, each by the library and the number of its request.
#[derive(Drop)]
pub(crate) struct Replies {
    by_request: BTreeMap<(u8, u32), Reply>,
}

impl Model for Replies {
    ghost use Rattle.journal_audit.specs.Seen.{Replies};

    ghost Value = { Replies };

    ghost view = { λ a. a.by_request.entries };
}

impl Replies {
    pub(crate) fn new(alloc: Global) -> Replies
        ensures { result ≡ [] }
    {
        Replies {
            by_request: BTreeMap::new(alloc),
        }
    }

    /// Notes an answer.
    pub(crate) fn put(&mut self, library: u8, nr: u32, reply: Reply) -> Result<(), NoMemory>
        ensures { OnOk result (self.new ≡ replies_with library nr reply self.old) }
    {
        let _before = self.by_request.insert((library, nr), reply)?;
        Ok(())
    }

    /// Takes the answer to a request away. Answers whether it was this one.
    pub(crate) fn take(&mut self, library: u8, nr: u32, reply: Reply) -> bool
        ensures right { result ≡ is_reply reply (reply_in self.old library nr) }
        ensures after { self.new ≡ replies_without library nr self.old }
    {
        let kept = self.by_request.remove(&(library, nr));
        is_reply(reply, kept)
    }
}

/// The connections to which sessions were bound.
#[derive(Drop)]
pub(crate) struct Binds {
    pairs: BTreeSet<(u32, u16)>,
    connections: BTreeSet<u32>,
}

impl Model for Binds {
    ghost use Rattle.journal_audit.specs.Seen.{Binds};

    ghost Value = { Binds };

    ghost view = { λ a. record { pairs = a.pairs.keys; connections = a.connections.keys } };
}

impl Binds {
    pub(crate) fn new(alloc: Global) -> Binds
        ensures { result ≡ record { pairs = []; connections = [] } }
    {
        Binds {
            pairs: BTreeSet::new(alloc),
            connections: BTreeSet::new(alloc),
        }
    }

    /// Notes that a session was bound.
    pub(crate) fn put(&mut self, c: u32, s: u16) -> Result<(), NoMemory>
        ensures { OnOk result (self.new ≡ binds_with c s self.old) }
    {
        let _new = self.pairs.insert((c, s))?;
        let _new = self.connections.insert(c)?;
        Ok(())
    }

    /// Whether this session's journal has a bind of the connection; without a session, whether no
    /// journal has.
    pub(crate) fn fits(&self, c: u32, s: Option<u16>) -> bool
        ensures { result ≡ fits_binds self.now c s }
    {
        match s {
            Some(s) => self.pairs.contains(&(c, s)),
            None => !self.connections.contains(&c),
        }
    }
}

/// Whether this answer is there.
#[tactic(auto, unfolding(crate::specs::Seen::is_reply))]
fn is_reply(reply: Reply, kept: Option<Reply>) -> bool
    ensures { result ≡ is_reply reply kept }
{
    match kept {
        Some(kept) => same_reply(kept, reply),
        None => false,
    }
}

fn same_reply(a: Reply, b: Reply) -> bool
    ensures { result ≡ same_reply a b }
{
    a.s == b.s && same_outcome(a.outcome, b.outcome)
}

fn same_outcome(a: Outcome, b: Outcome) -> bool
    ensures { result ≡ same_outcome a b }
{
    match (a, b) {
        (
            Outcome::Granted { lease, from, start },
            Outcome::Granted {
                lease: l,
                from: f,
                start: s,
            },
        ) => lease == l && from == f && start == s,
        (Outcome::Refused(why), Outcome::Refused(other)) => same_why(why, other),
        _ => false,
    }
}

fn same_why(a: Why, b: Why) -> bool
    ensures { result ≡ same_why a b }
{
    match (a, b) {
        (Why::UnknownSession { s }, Why::UnknownSession { s: t }) => s == t,
        (Why::OtherOwner { owner, lease }, Why::OtherOwner { owner: o, lease: l }) => owner == o
            && lease == l,
        (
            Why::Reserved { for_library, until },
            Why::Reserved {
                for_library: f,
                until: u,
            },
        ) => for_library == f && until == u,
        (Why::LeasesSpent { lease }, Why::LeasesSpent { lease: l }) => lease == l,
        (
            Why::MissingMessages { asked, logged },
            Why::MissingMessages {
                asked: a,
                logged: l,
            },
        ) => asked == a && logged == l,
        _ => false,
    }
}
