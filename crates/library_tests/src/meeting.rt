//! How the two sides meet, and how a library's seat is settled.
ghost use Rattle.std.specs.Prelude.{◌≡◌, ◌<◌, ◌≤◌, IfOk};

use anyhow::{Context, Result, ensure};
use lease_core::{Command, Notice, Why};
use lease_words::{EngineSeat, Leases};
use library_api::{Event, Library, LibraryEnds2, Links};
use ring_links::{Head, Tail, ring};
use std::alloc::Global;

const WHY: Why = Why::LeasesSpent { lease: 7 };

/// An engine's ends, and a library at the same table and rings.
#[derive(Drop)]
struct Sides<'a> {
    links: Links<'a>,
    engine: EngineSeat,
    head: Head<Command>,
    tail: Tail<Notice>,
    library: Library,
    ghost engine_at_table: { engine.table ≡ links.leases.now },
    ghost head_at_commands: { head.ring ≡ links.commands.now },
    ghost tail_at_notices: { tail.ring ≡ links.notices.now },
    ghost at_table: { library.ends.seat.table ≡ links.leases.now },
    ghost at_commands: { library.ends.tail.ring ≡ links.commands.now },
    ghost at_notices: { library.ends.head.ring ≡ links.notices.now },
}

impl Sides<'_> {
    /// Each side pushes something.
    fn begin(&mut self) -> Result<()> {
        ensure!(self.library.request(&self.links, 0, 0) == Ok(1));
        let refused = Notice::Refused {
            nr: 1,
            s: 0,
            why: WHY,
        };
        ensure!(self.links.notices.push(&mut self.tail, refused).is_ok());
        Ok(())
    }

    /// What the library lends meets the engine's ends.
    fn meet(&mut self) -> Result<()> {
        let lent = self.library.ends();
        let number = lent.number;
        self.links.leases.meet(&mut self.engine, &mut lent.seat);
        self.links.commands.meet(&mut lent.tail, &mut self.head);
        self.links.notices.meet(&mut self.tail, &mut lent.head);
        ensure!(number == 1);
        Ok(())
    }

    /// What was pushed before the meeting comes after it, and both sides go on.
    fn go_on(&mut self) -> Result<()> {
        let asked = Command::Request {
            nr: 1,
            s: 0,
            from: 0,
        };
        ensure!(self.links.commands.pop(&mut self.head) == Some(asked));
        let event = self.library.poll(&self.links);
        ensure!(matches!(event, Event::Refused { nr: 1, s: 0, .. }));
        ensure!(self.library.request(&self.links, 0, 0) == Ok(2));
        Ok(())
    }

    fn play(&mut self) -> Result<()> {
        self.begin()?;
        self.meet()?;
        self.go_on()
    }

    /// The library's seat is settled.
    fn settle(self) -> Result<()> {
        let Sides {
            links,
            mut engine,
            library,
            ..
        } = self;
        links.leases.settle(&mut engine, library.seat());
        ensure!(links.leases.beats(&mut engine, 1) == 1);
        Ok(())
    }
}

/// What a library lends meets the engine, and its seat is settled.
pub(crate) fn meet(alloc: Global) -> Result<()> {
    let (leases, engine, seats) = Leases::new(alloc, 1, 1, 16, 9)?;
    let seat = seats.into_iter().next().context("a seat")?;
    let (commands, library_tail, head) = ring(alloc, 4)?;
    let (notices, tail, library_head) = ring(alloc, 4)?;
    let ends = LibraryEnds2 {
        number: seat.number(),
        seat,
        tail: library_tail,
        head: library_head,
    };
    let mut sides = Sides {
        links: Links {
            leases: &leases,
            commands: &commands,
            notices: &notices,
        },
        engine,
        head,
        tail,
        library: Library::new(ends, 3),
    };
    sides.play()?;
    sides.settle()
}
