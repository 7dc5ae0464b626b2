//! How much of each session's inbound log there is, is published.

ghost use Rattle.std.specs.Prelude.{◌≡◌, ◌<◌, ℕ, length};
ghost use Rattle.engine_end.specs.Room.{HasRoomFor};
ghost use Rattle.engine_loop.specs.Engines.{IsAtWork, IsOnline};
ghost use Rattle.engine_loop.specs.Turns.{PublishesSession};
ghost use Rattle.gate_io.specs.Wire.{Door, Link};
ghost use Rattle.lease_desk.specs.Desk.{AllAgree, InTurn};

use crate::engine::Engine;
use library_desk::Shared;

impl Engine {
    /// The length of each session's inbound log is published, in the order of their numbers.
    pub(crate) fn publish_all(&mut self, shared: &Shared)
        requires work { IsAtWork shared.now self.old }
        requires room { HasRoomFor self.old.sessions.desk.board self.old.spare }
        ensures publishes { InTurn PublishesSession (length self.old.sessions.desk.board.sessions) self.old self.new }
        ensures work { IsAtWork shared.now self.new }
        ensures failed { self.new.failed ≡ self.old.failed }
        ensures online { (door : Door) (links : ℕ → Link) → IsOnline self.old door links → IsOnline self.new door links }
        ensures agree { AllAgree self.new.sessions.desk.board self.new.sessions.desk.seat }
        ensures room { HasRoomFor self.new.sessions.desk.board self.new.spare }
    {
        for s in 0..self.sessions.desk.board.sessions() {
            self.publish_session(shared, s as u16);
        }
    }

    /// The length of a session's inbound log is published.
    fn publish_session(&mut self, shared: &Shared, s: u16)
        requires work { IsAtWork shared.now self.old }
        requires session { s < length self.old.sessions.desk.board.sessions }
        requires room { HasRoomFor self.old.sessions.desk.board self.old.spare }
        ensures publishes { PublishesSession s self.old self.new }
        ensures work { IsAtWork shared.now self.new }
        ensures failed { self.new.failed ≡ self.old.failed }
        ensures online { (door : Door) (links : ℕ → Link) → IsOnline self.old door links → IsOnline self.new door links }
        ensures agree { AllAgree self.new.sessions.desk.board self.new.sessions.desk.seat }
        ensures room { HasRoomFor self.new.sessions.desk.board self.new.spare }
        ensures board { self.new.sessions.desk.board ≡ self.old.sessions.desk.board }
    {
        self.sessions.desk.publish(&shared.leases, s);
    }
}
