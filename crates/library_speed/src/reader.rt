//! A library that reads what is pumped to it.
ghost use Rattle.std.specs.Prelude.{◌≡◌};

use gate_io::Bytes;
use library_api::{Event, Library, LibraryEnds2, Links};
use std::sync::Wait;
use std::thread;

/// A library, and how many messages it read.
#[derive(Drop)]
pub struct Reader<'a> {
    links: Links<'a>,
    library: Library,
    count: u64,
    ghost at_table: { library.ends.seat.table ≡ links.leases.now },
    ghost at_commands: { library.ends.tail.ring ≡ links.commands.now },
    ghost at_notices: { library.ends.head.ring ≡ links.notices.now },
}

/// What a poll found: nothing yet, the next message, or something else.
#[derive(Drop)]
enum Next {
    Nothing,
    Message(Bytes),
    Wrong,
}

impl<'a> Reader<'a> {
    pub fn new(links: Links<'a>, ends: LibraryEnds2) -> Reader<'a>
        requires seat { ends.seat.table ≡ links.leases.now }
        requires tail { ends.tail.ring ≡ links.commands.now }
        requires head { ends.head.ring ≡ links.notices.now }
    {
        Reader {
            links,
            library: Library::new(ends, 1),
            count: 0,
        }
    }

    /// Requests session 0, and says whether it could.
    pub fn request(&mut self) -> bool {
        self.library.request(&self.links, 0, 0).is_ok()
    }

    /// Whether a poll finds that the session was granted.
    pub fn is_granted(&mut self) -> bool {
        matches!(self.library.poll(&self.links), Event::Granted { .. })
    }

    /// Polls the next message.
    fn next(&mut self) -> Next {
        match self.library.poll(&self.links) {
            Event::Nothing => Next::Nothing,
            Event::Message { pos, bytes, .. } if pos == self.count => {
                self.count = pos.wrapping_add(1);
                Next::Message(bytes)
            }
            _ => Next::Wrong,
        }
    }

    /// Reads as many messages, and says whether they came in order and have so many bytes.
    pub fn read_all<R: Wait>(mut self, rt: &R, count: u64, total: u64) -> bool {
        let mut length = 0u64;
        for _ in rt.forever() {
            if self.count == count {
                return length == total;
            }
            match self.next() {
                Next::Nothing => thread::yield_now(),
                Next::Message(bytes) => {
                    length = length.wrapping_add(bytes.as_slice().len() as u64);
                }
                Next::Wrong => return false,
            }
        }
        unreachable!()
    }

    /// Reads a message, sends its bytes, and says whether it could.
    pub fn answer(&mut self) -> bool {
        let Next::Message(bytes) = self.next() else {
            return false;
        };
        let sent = self.library.send(&self.links, 0, bytes.into_inner());
        sent.is_ok()
    }
}
