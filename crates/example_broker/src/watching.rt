//! What an operator is told while the engine runs: a line for each thing that happened.

ghost use Rattle.std.specs.Prelude.{◌<◌, length};

use crate::floor::{Floor, Parting};
use engine_loop::Engine;
use gate_io::NoMemory;
use session_core::Cause;
use std::alloc::Global;

/// What was told so far of the sessions and connections.
pub struct Watch {
    /// For each session the connection to which it was bound.
    bound: Vec<Option<u32>>,
    /// For each session the library that had it, or 0, and its last lease.
    owners: Vec<(u8, u32)>,
    /// How many connections came.
    came: usize,
    /// The places of those that stood.
    standing: Vec<usize>,
}

impl Drop for Watch {
    fn drop(self) {
        let Watch {
            bound: _,
            owners: _,
            came: _,
            standing: _,
        } = self;
    }
}

impl Watch {
    /// Nothing was told of so many sessions.
    pub(crate) fn new(alloc: Global, sessions: usize) -> Result<Watch, NoMemory> {
        Ok(Watch {
            bound: vec![in alloc; None; sessions]?,
            owners: vec![in alloc; (0, 0); sessions]?,
            came: 0,
            standing: Vec::new(alloc),
        })
    }

    /// How many connections came, and whether one of them stands.
    pub(crate) fn connections(&self) -> (usize, bool) {
        (self.came, !self.standing.is_empty())
    }

    /// Tells what happened since the last look.
    pub(crate) fn look<R: Eprint>(
        &mut self,
        rt: &R,
        engine: &Engine,
        floor: &Floor,
    ) -> Result<(), NoMemory> {
        self.look_at_new(rt, engine)?;
        for s in 0..floor.sessions() {
            if usize::from(s) < engine.sessions() {
                self.look_at_owner(rt, engine, floor, s);
                self.look_at_bound(rt, engine, s);
            }
        }
        self.look_at_standing(rt, engine);
        Ok(())
    }

    fn look_at_new<R: Eprint>(&mut self, rt: &R, engine: &Engine) -> Result<(), NoMemory> {
        for k in self.came..engine.connections() {
            let (number, _cause) = engine.connection(k);
            self.standing.push(k)?;
            self.came = k + 1;
            let _ = eprintln!(rt; "connection {number} accepted");
        }
        Ok(())
    }

    /// A lease ended or began.
    fn look_at_owner<R: Eprint>(&mut self, rt: &R, engine: &Engine, floor: &Floor, s: u16)
        requires { s < length engine.now.sessions.desk.board.sessions }
    {
        let (has, new) = engine.owner(s);
        let Some(seen) = self.owners.get_mut(usize::from(s)) else {
            return;
        };
        let (had, old) = *seen;
        if had == has && old == new {
            return;
        }
        *seen = (has, new);
        if had > 0 {
            tell_end(rt, floor, s, had, old);
        }
        if has > 0 {
            let _ = eprintln!(rt; "session {s} granted to library {has}, lease {new}");
        }
    }

    /// The session was bound to a connection.
    fn look_at_bound<R: Eprint>(&mut self, rt: &R, engine: &Engine, s: u16)
        requires { s < length engine.now.sessions.desk.board.sessions }
    {
        let bound = engine.bound(s);
        let Some(seen) = self.bound.get_mut(usize::from(s)) else {
            return;
        };
        if *seen == bound {
            return;
        }
        *seen = bound;
        if let Some(c) = bound {
            let _ = eprintln!(rt; "session {s} bound to connection {c}");
        }
    }

    /// Connections ended, or were refused.
    fn look_at_standing<R: Eprint>(&mut self, rt: &R, engine: &Engine) {
        let mut at = 0usize;
        for _ in 0..self.standing.len() {
            if at < self.standing.len() && has_ended(rt, engine, self.standing[at]) {
                let _ = self.standing.swap_remove(at);
            } else {
                at = at.saturating_add(1);
            }
        }
    }
}

/// How a library lost a session.
fn tell_end<R: Eprint>(rt: &R, floor: &Floor, s: u16, library: u8, lease: u32) {
    let how = match floor.place(s).parting(lease) {
        Parting::HandedOver => "handed over by",
        Parting::GivenBack => "given back by",
        Parting::TakenBack => "taken back from silent",
    };
    let _ = eprintln!(rt; "session {s} {how} library {library}, lease {lease}");
}

/// Whether a connection has ended, of which that is told.
fn has_ended<R: Eprint>(rt: &R, engine: &Engine, k: usize) -> bool {
    if k >= engine.connections() {
        return false;
    }
    let (number, cause) = engine.connection(k);
    let Some(cause) = cause else {
        return false;
    };
    let word = if is_refusal(&cause) {
        "refused"
    } else {
        "ended"
    };
    let _ = eprintln!(rt; "connection {number} {word}: {cause:?}");
    true
}

/// Whether the cause is one of a first message.
fn is_refusal(cause: &Cause) -> bool {
    matches!(
        cause,
        Cause::NotLogon | Cause::NoSuchSession | Cause::Duplicate { .. } | Cause::BadLogon { .. }
    )
}
