//! What is to be written on the connections.

ghost use Rattle.std.specs.Prelude.{◌≡◌, ◌<◌, ◌≤◌, length, take, Some, OnErr, OnOk, true, false};
ghost use Rattle.std.specs.List.{All};
ghost use Rattle.connection_core.specs.Outgoing.{HasMore, after_preparing, after_preparing_first, after_writing, waiting_text};
ghost use Rattle.session_book.specs.Wire.{NamesEntry};
ghost use Rattle.switchboard.specs.Board.{book_at, connection_at, names_at, with_connection};
ghost use Rattle.switchboard.specs.Happenings.{Happens, prepares, writes};

use crate::board::Switchboard;
use gate_io::NoMemory;
use std::alloc::Global;

impl Switchboard {
    /// Makes the texts of items of a connection, whose session is `s`, until at least `limit` bytes
    /// wait, or each item has one; of a dialled connection whose Logon isn't answered, that of the
    /// first item alone.
    pub fn prepare(&mut self, s: usize, k: usize, limit: usize) -> Result<(), NoMemory>
        requires session { s < length self.old.sessions }
        requires connection { k < length self.old.connections }
        requires named { All (NamesEntry (book_at self.old s).outbound) (connection_at self.old k).out.outgoing.unmade }
        ensures others { self.new ≡ with_connection k (record (connection_at self.old k) { out = (connection_at self.new k).out }) self.old }
        ensures answered { (connection_at self.old k).answered ≡ true → OnOk result ((connection_at self.new k).out.outgoing ≡ after_preparing (names_at self.old s) (book_at self.old s).outbound limit (connection_at self.old k).out.outgoing) }
        ensures unanswered { (connection_at self.old k).answered ≡ false → OnOk result ((connection_at self.new k).out.outgoing ≡ after_preparing_first (names_at self.old s) (book_at self.old s).outbound (connection_at self.old k).out.outgoing) }
        ensures more { HasMore (names_at self.old s) (book_at self.old s).outbound (connection_at self.old k).out.outgoing (connection_at self.new k).out.outgoing }
        ensures happens { (connection_at self.old k).session ≡ Some s → Happens (prepares s k) self.old self.new }
        // Without memory no text is made that wasn't asked for.
        ensures unanswered_err { (connection_at self.old k).answered ≡ false → OnErr result ((connection_at self.new k).out.outgoing ≡ (connection_at self.old k).out.outgoing) }
        ensures again { (connection_at self.old k).answered ≡ true
            → after_preparing (names_at self.old s) (book_at self.old s).outbound limit (connection_at self.new k).out.outgoing
            ≡ after_preparing (names_at self.old s) (book_at self.old s).outbound limit (connection_at self.old k).out.outgoing }
    {
        let session = &self.sessions[s];
        self.connections[k].prepare(session.outbound(), session.written_names(), limit)
    }

    /// The next n bytes of those that wait on a connection were written.
    pub fn wrote(&mut self, k: usize, n: usize)
        requires connection { k < length self.old.connections }
        requires within { n ≤ length (waiting_text (connection_at self.old k).out.outgoing) }
        ensures others { self.new ≡ with_connection k (record (connection_at self.old k) { out = (connection_at self.new k).out }) self.old }
        ensures outgoing { (connection_at self.new k).out.outgoing ≡ after_writing n (connection_at self.old k).out.outgoing }
        ensures happens { Happens (writes k n) self.old self.new }
    {
        self.connections[k].outbox().wrote(n);
    }
}
