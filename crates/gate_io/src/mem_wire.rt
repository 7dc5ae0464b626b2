//! The wire in memory: its connections, those that wait to be accepted, and those that it dials.

ghost use Rattle.std.specs.Prelude.{◌≡◌, ◌<◌, ◌≤◌, ◌+◌, ℕ, [], ◌∷◌, ◌++◌, None, Some, true, false, map, length, OnOk, OnErr, IfOk};
ghost use Rattle.gate_io.specs.Wire.{LinkGoesOn, OthersStay, IsOpen};
ghost use Rattle.gate_io.specs.MemWire.{LinkState, WireState, ChangesLink, IsMade, new_link, new_wire, is_of_dial, link_given, link_reserved, link_gives, link_after_read, link_takes, link_after_write, link_at, door_of, wire_listens, wire_after_listen, wire_accepts, wire_after_accept, wire_dials, wire_after_dial, wire_reserved, state_at, with_link, without_room, SameButRoom};

use crate::dials::{Dial, Dialled};
use crate::mem_link::MemLink;
use crate::no_memory::NoMemory;
use crate::wires::{
    Accepted, FIRST_DIALLED, Listened, MOST_CONNECTIONS, MOST_DIALLED, Wire, WireGot, WireWrote,
};
use std::alloc::Global;
use std::marker::Model;

/// A wire in memory: connections whose bytes are given beforehand, which keep what is written to
/// them, and of which calls fail or are blocked as they are told. The room of a connection is how
/// many more written bytes it takes, none at first: `reserve` makes it, and a write with none left
/// fails.
#[derive(Debug, Drop)]
pub struct MemWire {
    links: Vec<MemLink>,
    accepted: u32,
    taken: Vec<MemLink>,
    dialled: u32,
    listen_fails: bool,
    accept_fails: bool,
    listen_faults: u64,
    accept_faults: u64,
    dial_faults: u64,
    idle_accepts: u64,
}

impl Model for MemWire {
    ghost use Rattle.gate_io.specs.MemWire.{WireState, AreLinks};
    ghost use Rattle.gate_io.specs.declared.wires.TheConstants.{MOST_CONNECTIONS, MOST_DIALLED};

    ghost Value = { WireState };

    ghost view = { λ w. record { links = w.links.items; accepted = w.accepted; taken = w.taken.items; dialled = w.dialled; listen_fails = w.listen_fails; accept_fails = w.accept_fails; listen_faults = w.listen_faults; accept_faults = w.accept_faults; dial_faults = w.dial_faults; idle_accepts = w.idle_accepts } };

    ghost invariant = { λ w. AreLinks w.links.items w.accepted MOST_CONNECTIONS × AreLinks w.taken.items w.dialled MOST_DIALLED };
}

impl MemWire {
    /// A wire without connections.
    pub fn new(alloc: Global) -> MemWire
        ensures { result ≡ new_wire }
    {
        MemWire {
            links: Vec::new(alloc),
            accepted: 0,
            taken: Vec::new(alloc),
            dialled: 0,
            listen_fails: false,
            accept_fails: false,
            listen_faults: 0,
            accept_faults: 0,
            dial_faults: 0,
            idle_accepts: 0,
        }
    }

    /// One more connection, which waits to be accepted. Answers its number.
    pub fn connect(&mut self, alloc: Global) -> Result<u32, NoMemory>
        requires { length (self.old).links < MOST_CONNECTIONS }
        ensures number { IfOk result (λ c. c ≡ length (self.old).links) }
        ensures ok { OnOk result (self.new ≡ record self.old { links = (self.old).links ++ new_link ∷ [] }) }
        ensures err { OnErr result (self.new ≡ self.old) }
    {
        let c = self.links.len() as u32;
        self.links.push(MemLink::new(alloc))?;
        Ok(c)
    }

    /// One more connection for a dial, which then succeeds. The first of them has the number
    /// `FIRST_DIALLED`, already before it is dialled.
    pub fn take(&mut self, alloc: Global) -> Result<(), NoMemory>
        requires { length (self.old).taken < MOST_DIALLED }
        ensures ok { OnOk result (self.new ≡ record self.old { taken = (self.old).taken ++ new_link ∷ [] }) }
        ensures err { OnErr result (self.new ≡ self.old) }
    {
        self.taken.push(MemLink::new(alloc))?;
        Ok(())
    }

    /// Bytes that can be read from a connection behind those given before. Behind the end of its
    /// input, or once it is closed, they are dropped.
    pub fn give(&mut self, _alloc: Global, c: u32, bytes: &[u8]) -> Result<(), NoMemory>
        requires { IsMade self.old c }
        ensures ok { OnOk result (ChangesLink self.old c (link_given (state_at self.old c) bytes.now) self.new) }
        ensures err { OnErr result (self.new ≡ self.old) }
    {
        if is_of_dial(c) {
            let link = &mut self.taken[(c - FIRST_DIALLED) as usize];
            link.give(bytes)
        } else {
            let link = &mut self.links[c as usize];
            link.give(bytes)
        }
    }

    /// The input of a connection ends behind the bytes that it was given.
    pub fn finish(&mut self, c: u32)
        requires { IsMade self.old c }
        ensures { ChangesLink self.old c (record (state_at self.old c) { finished = true }) self.new }
    {
        if is_of_dial(c) {
            let link = &mut self.taken[(c - FIRST_DIALLED) as usize];
            link.finish();
        } else {
            let link = &mut self.links[c as usize];
            link.finish();
        }
    }

    /// The next read of a connection fails.
    pub fn fail_read(&mut self, c: u32)
        requires { IsMade self.old c }
        ensures { ChangesLink self.old c (record (state_at self.old c) { read_fails = true }) self.new }
    {
        if is_of_dial(c) {
            let link = &mut self.taken[(c - FIRST_DIALLED) as usize];
            link.fail_read();
        } else {
            let link = &mut self.links[c as usize];
            link.fail_read();
        }
    }

    /// A connection takes so many more bytes, and then the next write fails. An earlier such place
    /// that wasn't met is forgotten.
    pub fn fail_write(&mut self, c: u32, after: u64)
        requires { IsMade self.old c }
        ensures { ChangesLink self.old c (record (state_at self.old c) { fails_after = Some after }) self.new }
    {
        if is_of_dial(c) {
            let link = &mut self.taken[(c - FIRST_DIALLED) as usize];
            link.fail_write(after);
        } else {
            let link = &mut self.links[c as usize];
            link.fail_write(after);
        }
    }

    /// A connection takes so many more bytes, and then writes are blocked until `unblock`. An
    /// earlier block is forgotten.
    pub fn block(&mut self, c: u32, after: u64)
        requires { IsMade self.old c }
        ensures { ChangesLink self.old c (record (state_at self.old c) { blocks_after = Some after }) self.new }
    {
        if is_of_dial(c) {
            let link = &mut self.taken[(c - FIRST_DIALLED) as usize];
            link.block(after);
        } else {
            let link = &mut self.links[c as usize];
            link.block(after);
        }
    }

    /// Ends the block of a connection, also one that isn't reached yet.
    pub fn unblock(&mut self, c: u32)
        requires { IsMade self.old c }
        ensures { ChangesLink self.old c (record (state_at self.old c) { blocks_after = None }) self.new }
    {
        if is_of_dial(c) {
            let link = &mut self.taken[(c - FIRST_DIALLED) as usize];
            link.unblock();
        } else {
            let link = &mut self.links[c as usize];
            link.unblock();
        }
    }

    /// The next listen fails.
    pub fn fail_listen(&mut self)
        ensures { self.new ≡ record self.old { listen_fails = true } }
    {
        self.listen_fails = true;
    }

    /// The next accept fails.
    pub fn fail_accept(&mut self)
        ensures { self.new ≡ record self.old { accept_fails = true } }
    {
        self.accept_fails = true;
    }

    /// Room for at least so many more written bytes in every connection that was made and isn't
    /// closed. After an error some of them may have it.
    pub fn reserve(&mut self, _alloc: Global, n: usize) -> Result<(), NoMemory>
        ensures ok { OnOk result (self.new ≡ wire_reserved n self.old) }
        ensures kept { SameButRoom self.old self.new }
        ensures stay_open { (c : ℕ) → IsOpen (door_of self.old) (link_at self.old) c → IsOpen (door_of self.new) (link_at self.new) c }
    {
        reserve_each(self.links.as_mut_slice(), n)?;
        reserve_each(self.taken.as_mut_slice(), n)
    }
}

/// Whether a number is one of those of dialled connections.
fn is_of_dial(c: u32) -> bool
    ensures { result ≡ is_of_dial c }
{
    FIRST_DIALLED <= c
}

/// Room for at least so many more written bytes in each connection that isn't closed.
fn reserve_each(links: &mut [MemLink], n: usize) -> Result<(), NoMemory>
    ensures ok { OnOk result (links.new ≡ map (link_reserved n) links.old) }
    ensures kept { map without_room links.new ≡ map without_room links.old }
{
    for link in links.iter_mut() {
        link.reserve(n)?;
    }
    Ok(())
}

impl Wire for MemWire {
    ghost link = { link_at };

    ghost door = { door_of };

    ghost read_gives = { λ before c room answer after. (answer ≡ link_gives (state_at before c) room) × ChangesLink before c (link_after_read (state_at before c) answer) after };

    ghost write_gives = { λ before c piece answer after. (answer ≡ link_takes (state_at before c) (length piece)) × ChangesLink before c (link_after_write (state_at before c) piece answer) after };

    ghost accept_gives = { λ before answer after. (answer ≡ wire_accepts before) × (after ≡ wire_after_accept before answer) };

    ghost listen_gives = { λ before _ answer after. (answer ≡ wire_listens before) × (after ≡ wire_after_listen before answer) };

    ghost close_gives = { λ before c after. ChangesLink before c (record (state_at before c) { closed = true }) after };

    ghost pause_gives = { λ before _ after. after ≡ before };

    fn listen(&mut self, _address: &str) -> Listened {
        if self.listen_fails {
            self.listen_fails = false;
            self.listen_faults = self.listen_faults.saturating_add(1);
            return Listened::Failed;
        }
        Listened::Ready
    }

    fn accept(&mut self) -> Accepted {
        if self.accept_fails {
            self.accept_fails = false;
            self.accept_faults = self.accept_faults.saturating_add(1);
            return Accepted::Failed;
        }
        if self.accepted as usize == self.links.len() {
            self.idle_accepts = self.idle_accepts.saturating_add(1);
            return Accepted::Nothing;
        }
        let c = self.accepted;
        self.accepted += 1;
        Accepted::New(c)
    }

    fn read(&mut self, c: u32, buf: &mut [u8]) -> WireGot {
        if is_of_dial(c) {
            let link = &mut self.taken[(c - FIRST_DIALLED) as usize];
            link.read(buf)
        } else {
            let link = &mut self.links[c as usize];
            link.read(buf)
        }
    }

    fn write(&mut self, c: u32, piece: &[u8]) -> WireWrote {
        if is_of_dial(c) {
            let link = &mut self.taken[(c - FIRST_DIALLED) as usize];
            link.write(piece)
        } else {
            let link = &mut self.links[c as usize];
            link.write(piece)
        }
    }

    fn close(&mut self, c: u32) {
        if is_of_dial(c) {
            let link = &mut self.taken[(c - FIRST_DIALLED) as usize];
            link.close();
        } else {
            let link = &mut self.links[c as usize];
            link.close();
        }
    }

    fn pause(&mut self, _ms: u32) {}
}

impl Dial for MemWire {
    ghost dial_gives = { λ before _ answer after. (answer ≡ wire_dials before) × (after ≡ wire_after_dial before answer) };

    fn dial(&mut self, _address: &str) -> Dialled {
        if self.dialled as usize == self.taken.len() {
            self.dial_faults = self.dial_faults.saturating_add(1);
            return Dialled::Failed;
        }
        let c = FIRST_DIALLED + self.dialled;
        self.dialled += 1;
        Dialled::New(c)
    }
}
