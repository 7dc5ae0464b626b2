//! The engine's side, made by hand.
ghost use Rattle.std.specs.Prelude.{◌≡◌, ◌≤◌, length};
ghost use Rattle.lease_words.specs.Views.{engine_at};

use crate::shared::LIBRARIES;
use crate::steps;
use catchup_pump::{Cursor, Pumped, pump};
use gate_io::{Bytes, NoMemory};
use lease_core::{Command, Notice, Why, Word};
use lease_words::{EngineSeat, Item};
use library_api::Links;
use message_log::InLog;
use ring_links::{Head, Room, Tail};
use std::alloc::Global;

/// An engine for session 0 and its log, which talks to library 1. The cursor is where the next
/// pump begins.
#[derive(Drop)]
pub struct Engine<'a> {
    links: Links<'a>,
    seat: EngineSeat,
    head: Head<Command>,
    tail: Tail<Notice>,
    log: InLog,
    cursor: Cursor,
    ghost at_table: { seat.table ≡ links.leases.now },
    ghost sessions: { links.leases.now.shape.sessions ≡ 1 },
    ghost libraries: { links.leases.now.shape.libraries ≡ 2 },
    ghost at_commands: { head.ring ≡ links.commands.now },
    ghost at_notices: { tail.ring ≡ links.notices.now },
    ghost published: { (engine_at seat 0).published ≤ length log.items },
    ghost within: { cursor.at ≤ length log.items },
}

impl<'a> Engine<'a> {
    pub fn new(
        alloc: Global,
        links: Links<'a>,
        seat: EngineSeat,
        head: Head<Command>,
        tail: Tail<Notice>,
    ) -> Engine<'a>
        requires table { seat.table ≡ links.leases.now }
        requires sessions { links.leases.now.shape.sessions ≡ 1 }
        requires libraries { links.leases.now.shape.libraries ≡ 2 }
        requires head { head.ring ≡ links.commands.now }
        requires tail { tail.ring ≡ links.notices.now }
        requires published { (engine_at seat 0).published ≡ 0 }
    {
        Engine {
            links,
            seat,
            head,
            tail,
            log: InLog::new(alloc),
            cursor: Cursor {
                s: 0,
                lease: 0,
                at: 0,
            },
        }
    }

    /// Grants the session, where no lease is active and all is taken.
    pub fn grant(&mut self, library: u8) -> Option<u32> {
        steps::grant(self.links.leases, &mut self.seat, library)
    }

    /// Takes the session back, where a lease is active.
    pub fn revoke(&mut self) -> Option<Word> {
        steps::revoke(self.links.leases, &mut self.seat)
    }

    /// The word of the session, and whether a lease is active.
    pub fn look(&mut self) -> (Word, bool) {
        steps::look(self.links.leases, &mut self.seat)
    }

    /// Takes the next item that was sent by the last look.
    pub fn take(&mut self) -> Option<Item> {
        steps::take(self.links.leases, &mut self.seat)
    }

    /// How often a library has beaten.
    pub fn beats(&mut self, library: u8) -> Option<u64> {
        if library == 0 || library > LIBRARIES {
            return None;
        }
        Some(self.links.leases.beats(&mut self.seat, library))
    }

    pub fn command(&mut self) -> Option<Command> {
        self.links.commands.pop(&mut self.head)
    }

    /// Tells the library something, and says whether there was room.
    pub fn tell(&mut self, notice: Notice) -> bool {
        self.links.notices.push(&mut self.tail, notice).is_ok()
    }

    pub fn room(&mut self) -> Room {
        self.links.notices.room(&mut self.tail)
    }

    /// Tells of a grant of session s.
    pub fn tell_granted(&mut self, nr: u32, s: u16, lease: u32, from: u64) -> bool {
        let start = self.log.len();
        self.tell(Notice::Granted {
            nr,
            s,
            lease,
            from,
            start,
        })
    }

    pub fn tell_refused(&mut self, nr: u32, s: u16, why: Why) -> bool {
        self.tell(Notice::Refused { nr, s, why })
    }

    /// Tells of a message that stands in no log.
    pub fn tell_message(
        &mut self,
        alloc: Global,
        s: u16,
        lease: u32,
        pos: u64,
    ) -> Result<bool, NoMemory> {
        let bytes = Bytes::of(Vec::from_slice(alloc, b"35=8\x01")?);
        Ok(self.tell(Notice::Message {
            s,
            lease,
            pos,
            bytes,
        }))
    }

    /// A message arrives in the log.
    pub fn arrive(&mut self, alloc: Global, body: &[u8]) -> Result<u64, NoMemory> {
        self.log.push(alloc, Vec::from_slice(alloc, body)?)
    }

    pub fn log(&self) -> &InLog {
        &self.log
    }

    /// Sets the cursor, where the log comes so far.
    pub fn point(&mut self, lease: u32, at: u64) -> bool {
        if at > self.log.len() {
            return false;
        }
        self.cursor = Cursor { s: 0, lease, at };
        true
    }

    pub fn cursor(&self) -> Cursor {
        self.cursor
    }

    pub fn pump(&mut self, alloc: Global) -> Result<Pumped, NoMemory> {
        pump(
            alloc,
            &self.log,
            &mut self.cursor,
            self.links.notices,
            &mut self.tail,
        )
    }

    /// Publishes the length of the log.
    pub fn publish(&mut self) {
        let count = self.log.len();
        self.links.leases.publish(&mut self.seat, 0, count);
    }
}
