//! The connections at the wire, in the order in which they came.

ghost use Rattle.std.specs.Prelude.{◌≡◌, ◌<◌, length, slice_index_or};
ghost use Rattle.wire_desk.specs.Places.{open_places};

use gate_io::NoMemory;
use session_book::Unkept;
use session_desk::Routes;
use std::alloc::Global;

/// What the engine keeps of its connections beside what the switchboard has: which sessions their first
/// messages are routed to, which entries of the journals were handed out as records, and which
/// connections aren't closed.
#[derive(Drop)]
pub struct WireDesk {
    pub routes: Routes,
    pub unkept: Vec<Unkept>,
    /// The places of the accepted connections that aren't closed, in the order of their numbers.
    pub accepted: Vec<usize>,
    /// And those of the dialled ones.
    pub dialled: Vec<usize>,
    /// What is read goes here first. It is kept for its room.
    pub buffer: Vec<u8>,
}

impl WireDesk {
    /// How many connections aren't closed.
    pub fn open_count(&self) -> usize
        ensures { result ≡ length (open_places self.now) }
    {
        self.accepted.len() + self.dialled.len()
    }

    /// The place of the i-th connection that isn't closed, in the order of their numbers.
    pub fn open_place(&self, i: usize) -> usize
        requires { i < length (open_places self.now) }
        ensures { result ≡ slice_index_or (open_places self.now) i 0 }
    {
        let accepted = self.accepted.len();
        if i < accepted {
            self.accepted[i]
        } else {
            self.dialled[i - accepted]
        }
    }
}
