//! What an engine and a library share, and how the two sides are made.
ghost use Rattle.std.specs.Prelude.{◌≡◌, ◌<◌, ◌≤◌, [], IfOk};
ghost use Rattle.lease_words.specs.Views.{engine_at};

use crate::engine::Engine;
use anyhow::{Context, Result};
use lease_core::{Command, Notice};
use lease_words::{EngineSeat, Leases};
use library_api::{LibraryEnds2, Links};
use library_play::Application;
use ring_links::{Head, Ring, Tail, ring};
use std::alloc::Global;

/// How many libraries the table is for. The first of them is there.
pub const LIBRARIES: u8 = 2;

// For how many sends a lane has room, and for how many commands the ring of commands.
const DEPTH: u8 = 16;

const COMMANDS: u64 = 256;

/// How many requests the library may make, how many sends each lease may, and for how many notices the
/// ring has room.
#[derive(Drop)]
pub struct Limits {
    pub asks: u32,
    pub sends: u32,
    pub notices: u64,
    ghost some_sends: { 1 ≤ sends },
    ghost some_notices: { 0 < notices },
    ghost few_notices: { notices ≤ 256 },
}

impl Limits {
    /// As they are where nothing else is said.
    pub fn usual() -> Limits {
        Limits {
            asks: 9,
            sends: 9,
            notices: 256,
        }
    }

    pub fn of_requests(most: u32) -> Limits {
        Limits {
            asks: most,
            sends: 9,
            notices: 256,
        }
    }

    pub fn of_sends(most: u32) -> Limits
        requires { 0 < most }
    {
        Limits {
            asks: 9,
            sends: most,
            notices: 256,
        }
    }

    pub fn of_notices(most: u32) -> Limits
        requires some { 0 < most }
        requires few { most ≤ 256 }
    {
        Limits {
            asks: 9,
            sends: 9,
            notices: u64::from(most),
        }
    }
}

/// A table for session 0 and two libraries, and the two rings of the first.
#[derive(Drop)]
pub struct Shared {
    leases: Leases,
    commands: Ring<Command>,
    notices: Ring<Notice>,
    ghost sessions: { leases.shape.sessions ≡ 1 },
    ghost libraries: { leases.shape.libraries ≡ 2 },
}

/// What belongs to the two sides.
#[derive(Drop)]
pub struct Ends {
    seat: EngineSeat,
    head: Head<Command>,
    tail: Tail<Notice>,
    library: LibraryEnds2,
}

impl Shared {
    /// A table whose leases make as many sends, and a ring of notices for as many, as the limits say.
    pub fn new(alloc: Global, limits: &Limits) -> Result<(Shared, Ends)>
        ensures seat { IfOk result (λ r. r.1.seat.table ≡ r.0.leases) }
        ensures published { IfOk result (λ r. (engine_at r.1.seat 0).published ≡ 0) }
        ensures head { IfOk result (λ r. r.1.head.ring ≡ r.0.commands) }
        ensures tail { IfOk result (λ r. r.1.tail.ring ≡ r.0.notices) }
        ensures library_seat { IfOk result (λ r. r.1.library.seat.table ≡ r.0.leases) }
        ensures library_tail { IfOk result (λ r. r.1.library.tail.ring ≡ r.0.commands) }
        ensures library_head { IfOk result (λ r. r.1.library.head.ring ≡ r.0.notices) }
    {
        let (leases, seat, seats) = Leases::new(alloc, 1, LIBRARIES, DEPTH, limits.sends)?;
        let first = seats.into_iter().next().context("a seat")?;
        let (commands, library_tail, head) = ring(alloc, COMMANDS)?;
        let (notices, tail, library_head) = ring(alloc, limits.notices)?;
        let library = LibraryEnds2 {
            number: first.number(),
            seat: first,
            tail: library_tail,
            head: library_head,
        };
        let shared = Shared {
            leases,
            commands,
            notices,
        };
        let ends = Ends {
            seat,
            head,
            tail,
            library,
        };
        Ok((shared, ends))
    }

    /// The engine and the library, which may make as many requests as `asks` says.
    pub fn sides<'a>(
        &'a self,
        alloc: Global,
        ends: Ends,
        asks: u32,
    ) -> (Engine<'a>, Application<'a>)
        requires seat { ends.seat.table ≡ self.now.leases }
        requires published { (engine_at ends.seat 0).published ≡ 0 }
        requires head { ends.head.ring ≡ self.now.commands }
        requires tail { ends.tail.ring ≡ self.now.notices }
        requires library_seat { ends.library.seat.table ≡ self.now.leases }
        requires library_tail { ends.library.tail.ring ≡ self.now.commands }
        requires library_head { ends.library.head.ring ≡ self.now.notices }
    {
        let links = Links {
            leases: &self.leases,
            commands: &self.commands,
            notices: &self.notices,
        };
        let Ends {
            seat,
            head,
            tail,
            library,
        } = ends;
        let engine = Engine::new(alloc, links, seat, head, tail);
        (engine, Application::new(alloc, links, library, asks))
    }
}
