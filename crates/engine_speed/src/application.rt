//! A library that answers orders: what it polls and sends.

ghost use Rattle.std.specs.Prelude.{◌≡◌};
ghost use Rattle.engine_start.specs.Starts.{AreLibraryEnds};

use crate::texts::REPORT;
use engine_start::LibraryEnds;
use gate_io::NoMemory;
use library_api::{Event, Library, LibraryEnds2, Links};
use library_desk::Shared;
use std::alloc::Global;

/// A library that answers each order with a report.
#[derive(Drop)]
pub struct Application<'a> {
    links: Links<'a>,
    library: Library,
    /// The report of an order, where the lane had no room for it.
    unsent: Option<Vec<u8>>,
    /// How many orders it answered.
    pub answered: u64,
    ghost at_table: { library.ends.seat.table ≡ links.leases.now },
    ghost at_commands: { library.ends.tail.ring ≡ links.commands.now },
    ghost at_notices: { library.ends.head.ring ≡ links.notices.now },
}

/// The library of these ends, the first of those that there are.
pub fn library<'a>(shared: &'a Shared, ends: LibraryEnds) -> Application<'a>
    requires { AreLibraryEnds shared.now 0 ends }
{
    let links = Links {
        leases: &shared.leases,
        commands: &shared.commands[0],
        notices: &shared.notices[0],
    };
    let ends = LibraryEnds2 {
        number: ends.number,
        seat: ends.seat,
        tail: ends.tail,
        head: ends.head,
    };
    Application::new(links, ends)
}

impl<'a> Application<'a> {
    fn new(links: Links<'a>, ends: LibraryEnds2) -> Application<'a>
        requires seat { ends.seat.table ≡ links.leases.now }
        requires tail { ends.tail.ring ≡ links.commands.now }
        requires head { ends.head.ring ≡ links.notices.now }
    {
        Application {
            links,
            library: Library::new(ends, 1),
            unsent: None,
            answered: 0,
        }
    }

    /// Requests session 0, and says whether it could.
    pub fn request(&mut self) -> bool {
        self.library.request(&self.links, 0, 0).is_ok()
    }

    /// Whether a poll finds that the session was granted.
    pub fn is_granted(&mut self) -> bool {
        matches!(self.library.poll(&self.links), Event::Granted { .. })
    }

    /// Answers the next order, if one came and the lane has room. Says whether it could.
    pub fn answer(&mut self, alloc: Global) -> Result<bool, NoMemory> {
        let report = match self.unsent.take() {
            Some(report) => report,
            None => {
                let Event::Message { .. } = self.library.poll(&self.links) else {
                    return Ok(false);
                };
                Vec::from_slice(alloc, REPORT)?
            }
        };
        if let Err((_why, report)) = self.library.send(&self.links, 0, report) {
            self.unsent = Some(report);
            return Ok(false);
        }
        self.answered = self.answered.wrapping_add(1);
        Ok(true)
    }
}
