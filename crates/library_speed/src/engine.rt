//! The engine's side: a log of session 0, which is pumped to library 1.
ghost use Rattle.std.specs.Prelude.{◌≡◌, ◌<◌, ◌≤◌, length};
ghost use Rattle.lease_words.specs.Views.{engine_at};

use catchup_pump::{Cursor, Stop, pump};
use gate_io::NoMemory;
use lease_core::Notice;
use lease_words::{EngineSeat, Leases};
use library_api::Links;
use message_log::InLog;
use ring_links::Tail;
use std::alloc::Global;
use std::sync::Wait;
use std::thread;

// Grants session 0 to library 1, which is its first lease, and says whether it could.
fn grant(leases: &Leases, seat: &mut EngineSeat) -> bool
    requires table { seat.old.table ≡ leases.now }
    requires session { 0 < leases.now.shape.sessions }
    requires library { 1 ≤ leases.now.shape.libraries }
    ensures table { seat.new.table ≡ seat.old.table }
    ensures published { (engine_at seat.new 0).published ≡ (engine_at seat.old 0).published }
{
    let word = leases.look(seat, 0);
    if word.lease > 0 || leases.take(seat, 0).is_some() {
        return false;
    }
    leases.grant(seat, 0, 1);
    true
}

// Looks, and takes the next item that was sent. It says whether there was one.
fn take(leases: &Leases, seat: &mut EngineSeat) -> bool
    requires table { seat.old.table ≡ leases.now }
    requires session { 0 < leases.now.shape.sessions }
    ensures table { seat.new.table ≡ seat.old.table }
    ensures published { (engine_at seat.new 0).published ≡ (engine_at seat.old 0).published }
{
    leases.look(seat, 0);
    let Some(_item) = leases.take(seat, 0) else {
        return false;
    };
    true
}

/// An engine with the log of session 0, and the cursor of its lease.
#[derive(Drop)]
pub struct Engine<'a> {
    links: Links<'a>,
    seat: EngineSeat,
    tail: Tail<Notice>,
    log: InLog,
    cursor: Cursor,
    ghost at_table: { seat.table ≡ links.leases.now },
    ghost sessions: { 0 < links.leases.now.shape.sessions },
    ghost libraries: { 1 ≤ links.leases.now.shape.libraries },
    ghost at_notices: { tail.ring ≡ links.notices.now },
    ghost published: { (engine_at seat 0).published ≤ length log.items },
    ghost within: { cursor.at ≤ length log.items },
}

impl<'a> Engine<'a> {
    pub fn new(alloc: Global, links: Links<'a>, seat: EngineSeat, tail: Tail<Notice>) -> Engine<'a>
        requires table { seat.table ≡ links.leases.now }
        requires sessions { 0 < links.leases.now.shape.sessions }
        requires libraries { 1 ≤ links.leases.now.shape.libraries }
        requires tail { tail.ring ≡ links.notices.now }
        requires published { (engine_at seat 0).published ≡ 0 }
    {
        Engine {
            links,
            seat,
            tail,
            log: InLog::new(alloc),
            cursor: Cursor {
                s: 0,
                lease: 1,
                at: 0,
            },
        }
    }

    /// Grants the session as lease 1, tells the library so, and says whether it could.
    pub fn grant(&mut self) -> bool {
        let granted = Notice::Granted {
            nr: 1,
            s: 0,
            lease: 1,
            from: 0,
            start: 0,
        };
        grant(self.links.leases, &mut self.seat)
            && self.links.notices.push(&mut self.tail, granted).is_ok()
    }

    /// A message arrives, and is published.
    pub fn arrive(&mut self, alloc: Global, body: &[u8]) -> Result<(), NoMemory> {
        self.log.push(alloc, Vec::from_slice(alloc, body)?)?;
        self.links.leases.publish(&mut self.seat, 0, self.log.len());
        Ok(())
    }

    /// Pumps what the ring has room for. It says how many messages that were, and whether the log
    /// has no more, or nothing where there is no memory.
    pub fn pump(&mut self, alloc: Global) -> Option<(u64, bool)> {
        let notices = self.links.notices;
        let pumped = pump(alloc, &self.log, &mut self.cursor, notices, &mut self.tail).ok()?;
        Some((pumped.pushed, matches!(pumped.stop, Stop::LogEnd)))
    }

    /// Pumps the whole log, and says whether there was memory for it.
    pub fn pump_all<R: Wait>(mut self, rt: &R, alloc: Global) -> bool {
        for _ in rt.forever() {
            match self.pump(alloc) {
                None => return false,
                Some((_, true)) => return true,
                Some((0, false)) => thread::yield_now(),
                Some((_, false)) => {}
            }
        }
        unreachable!()
    }

    /// Looks, and takes the next item that was sent. It says whether there was one.
    pub fn take(&mut self) -> bool {
        take(self.links.leases, &mut self.seat)
    }
}
