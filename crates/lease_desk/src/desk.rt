//! The sessions and the engine's seat together.

ghost use Rattle.std.specs.Prelude.{◌≡◌, ◌<◌, ◌≤◌, length};
ghost use Rattle.lease_desk.specs.Desk.{Agrees, IsInStep};
ghost use Rattle.lease_words.specs.Sees.{after_publish};
ghost use Rattle.lease_words.specs.Views.{engine_at, with_engine_at};
ghost use Rattle.switchboard.specs.Board.{book_at};

use gate_io::Bytes;
use lease_words::{EngineSeat, Leases};
use std::alloc::Global;
use std::collections::VecDeque;
use switchboard::Switchboard;

/// How many entries a gathering makes at most, and for how many it makes room: a send for each slot of
/// a lane, the end of the lease, and a hold.
pub const GATHERED: usize = 18;

/// The sessions with their connections, and the engine's seat at the lease table. What the sessions do
/// besides is done on `board`; the calls here are those that touch both.
#[derive(Drop)]
pub struct LeaseDesk {
    pub board: Switchboard,
    pub seat: EngineSeat,
    // The bodies that are being gathered. It is kept for its room.
    pub(crate) bodies: VecDeque<Bytes>,
}

impl LeaseDesk {
    /// Sessions that begin at a table. It takes no memory.
    pub fn new(alloc: Global, board: Switchboard, seat: EngineSeat) -> LeaseDesk
        ensures board { result.board ≡ board }
        ensures seat { result.seat ≡ seat }
    {
        LeaseDesk {
            board,
            seat,
            bodies: VecDeque::new(alloc),
        }
    }

    /// Publishes the length of a session's inbound log to the libraries.
    pub fn publish(&mut self, leases: &Leases, s: u16)
        requires table { self.old.seat.table ≡ leases.now }
        requires session { s < length self.old.board.sessions }
        requires seated { s < leases.now.shape.sessions }
        requires agrees { Agrees self.old.board self.old.seat s }
        ensures board { self.new.board ≡ self.old.board }
        ensures seat { self.new.seat ≡ with_engine_at self.old.seat s (after_publish (engine_at self.old.seat s) (length (book_at self.old.board s).inbound)) }
        ensures agrees { Agrees self.new.board self.new.seat s }
        ensures table { self.new.seat.table ≡ self.old.seat.table }
        ensures in_step { IsInStep self.old.board self.old.seat → IsInStep self.new.board self.new.seat }
    {
        let count = self.board.session(s as usize).inbound().len();
        leases.publish(&mut self.seat, s, count);
    }
}
