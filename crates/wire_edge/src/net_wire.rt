//! The wire over TCP.

ghost use Rattle.std.specs.Prelude.{◌≡◌, ◌<◌, ◌≤◌, ◌+◌, ℕ, None, true, length};
ghost use Rattle.gate_io.specs.Wire.{LinkGoesOn, OthersStay, IsOpen};
ghost use Rattle.wire_edge.specs.NetWire.{NetState, ChangesLink, new_wire, is_of_dial, link_at, state_at, door_of, link_after_read, link_after_write, wire_after_listen, wire_after_accept, wire_after_dial};

use crate::counts::LinkCounts;
use crate::sockets::Sockets;
use crate::watch::Came;
use gate_io::{
    Accepted, Dial, Dialled, FIRST_DIALLED, Listened, MOST_CONNECTIONS, MOST_DIALLED, NoMemory,
    Wire, WireGot, WireWrote,
};
use std::alloc::Global;
use std::marker::Model;
use std::net::Net;
use std::rt;
use thread_bells::Bell;

/// The connections of a run over TCP. Nothing is told of their bytes. No call but a pause and `finish` waits for a
/// counterparty, though a host name is looked up by the system, which may take its time.
///
/// The poll and the lists for all connections are made at the first `listen`, and before it nothing is accepted and
/// each dial fails. A connection that isn't known to be ready answers `Blocked` with no call at its socket.
#[derive(Drop)]
pub struct NetWire<'a, R: Net + rt::Clock> {
    sockets: Sockets<'a, R>,
    accepted: Vec<LinkCounts>,
    dialled: Vec<LinkCounts>,
    listen_faults: u64,
    accept_faults: u64,
    dial_faults: u64,
    idle_accepts: u64,
}

impl<'a, R: Net + rt::Clock> Model for NetWire<'a, R> {
    ghost use Rattle.wire_edge.specs.NetWire.{NetState};

    ghost Value = { NetState };

    ghost view = { λ w. record { accepted = w.accepted.items; dialled = w.dialled.items; listen_faults = w.listen_faults; accept_faults = w.accept_faults; dial_faults = w.dial_faults; idle_accepts = w.idle_accepts } };
}

impl<'a, R: Net + rt::Clock> NetWire<'a, R> {
    /// A wire that doesn't listen yet. A pause of it may sleep beside the bell, so whoever has something to do for the
    /// thread that pauses rings that.
    pub fn new(net: R, alloc: Global, bell: &'a Bell) -> NetWire<'a, R>
        ensures { result ≡ new_wire }
    {
        NetWire {
            sockets: Sockets::new(net, alloc, bell),
            accepted: Vec::new(alloc),
            dialled: Vec::new(alloc),
            listen_faults: 0,
            accept_faults: 0,
            dial_faults: 0,
            idle_accepts: 0,
        }
    }

    /// The TCP port at which it listens, where it does and the system tells it. An address with port 0 lets the
    /// system choose one.
    pub fn port(&self) -> Option<u16> {
        self.sockets.port()
    }

    /// Room for the counts of every connection of a run.
    fn reserve(&mut self) -> Result<(), NoMemory>
        ensures { self.new ≡ self.old }
    {
        let begun = self.accepted.len().min(MOST_CONNECTIONS as usize);
        self.accepted.reserve(MOST_CONNECTIONS as usize - begun)?;
        let begun = self.dialled.len().min(MOST_DIALLED as usize);
        self.dialled.reserve(MOST_DIALLED as usize - begun)?;
        Ok(())
    }
}

impl<'a, R: Net + rt::Clock + Drop> NetWire<'a, R> {
    /// Ends the run: shuts the writing side of each connection down, and reads and drops what still comes until each
    /// counterparty has ended too. It waits for that at most `END_ROUNDS` times `END_WAIT` milliseconds, and drains
    /// each connection with at most `DRAIN_READS` reads with bytes. So bytes that were written last aren't lost to a
    /// reset, unless a counterparty goes on for longer. What is left then is closed.
    pub fn finish(mut self) {
        self.sockets.finish();
    }
}

/// Whether a number is one of those of dialled connections.
fn is_of_dial(c: u32) -> bool
    ensures { result ≡ is_of_dial c }
{
    FIRST_DIALLED <= c
}

impl<'a, R: Net + rt::Clock> Wire for NetWire<'a, R> {
    ghost link = { link_at };

    ghost door = { door_of };

    ghost read_gives = { λ before c _ answer after. ChangesLink before c (link_after_read (state_at before c) answer) after };

    ghost write_gives = { λ before c _ answer after. ChangesLink before c (link_after_write (state_at before c) answer) after };

    ghost accept_gives = { λ before answer after. after ≡ wire_after_accept before answer };

    ghost listen_gives = { λ before _ answer after. after ≡ wire_after_listen before answer };

    ghost close_gives = { λ before c after. ChangesLink before c (record (state_at before c) { closed = true }) after };

    ghost pause_gives = { λ before _ after. after ≡ before };

    fn listen(&mut self, address: &str) -> Listened {
        if self.reserve().is_err() {
            return Listened::OutOfMemory;
        }
        let answer = self.sockets.listen(address);
        if let Listened::Failed = answer {
            self.listen_faults = self.listen_faults.saturating_add(1);
        }
        answer
    }

    fn accept(&mut self) -> Accepted {
        let c = self.accepted.len() as u32;
        let came = self.sockets.accept(c);
        if came == Came::New && self.accepted.push(LinkCounts::new()).is_ok() {
            return Accepted::New(c);
        }
        if came == Came::Nothing {
            self.idle_accepts = self.idle_accepts.saturating_add(1);
            return Accepted::Nothing;
        }
        self.accept_faults = self.accept_faults.saturating_add(1);
        Accepted::Failed
    }

    fn read(&mut self, c: u32, buf: &mut [u8]) -> WireGot {
        let got = self.sockets.read(c, buf);
        if is_of_dial(c) {
            let link = &mut self.dialled[(c - FIRST_DIALLED) as usize];
            link.read(got);
        } else {
            let link = &mut self.accepted[c as usize];
            link.read(got);
        }
        got
    }

    fn write(&mut self, c: u32, piece: &[u8]) -> WireWrote {
        let wrote = self.sockets.write(c, piece);
        if is_of_dial(c) {
            let link = &mut self.dialled[(c - FIRST_DIALLED) as usize];
            link.write(wrote);
        } else {
            let link = &mut self.accepted[c as usize];
            link.write(wrote);
        }
        wrote
    }

    fn close(&mut self, c: u32) {
        self.sockets.close(c);
        if is_of_dial(c) {
            let link = &mut self.dialled[(c - FIRST_DIALLED) as usize];
            link.close();
        } else {
            let link = &mut self.accepted[c as usize];
            link.close();
        }
    }

    fn pause(&mut self, ms: u32) {
        self.sockets.pause(ms);
    }
}

impl<'a, R: Net + rt::Clock> Dial for NetWire<'a, R> {
    ghost dial_gives = { λ before _ answer after. after ≡ wire_after_dial before answer };

    fn dial(&mut self, address: &str) -> Dialled {
        if self.dialled.len() < MOST_DIALLED as usize {
            let c = FIRST_DIALLED + self.dialled.len() as u32;
            if self.sockets.dial(c, address) && self.dialled.push(LinkCounts::new()).is_ok() {
                return Dialled::New(c);
            }
        }
        self.dial_faults = self.dial_faults.saturating_add(1);
        Dialled::Failed
    }
}
