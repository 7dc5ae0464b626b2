//! What a library asks of a session.

ghost use Rattle.std.specs.Prelude.{◌≡◌, ◌<◌, ◌≤◌, length, OnErr, OnOk, IfOk};
ghost use Rattle.lease_core.specs.declared.limits.TheConstants.{MOST_LEASES};
ghost use Rattle.lease_core.specs.Lines.{lines_after_reply, lines_of};
ghost use Rattle.lease_core.specs.State.{state_of};
ghost use Rattle.lease_core.specs.Steps.{IsLibrary, reply_to};
ghost use Rattle.lease_desk.specs.Desk.{Agrees, IsGrant, IsInStep, OnGranted, seat_after_reply};
ghost use Rattle.switchboard.specs.Acts.{after_request};
ghost use Rattle.switchboard.specs.Happenings.{Happens, requests};
ghost use Rattle.switchboard.specs.Board.{book_at, session_at, with_session};
ghost use Rattle.switchboard.specs.Stops.{NothingIsTold};

use crate::desk::LeaseDesk;
use gate_io::NoMemory;
use lease_core::Reply;
use lease_core::laws::{entries_decide_one_by_one, grants_find_nobody};
use lease_words::Leases;
use switchboard::laws::boards_stay_sound;

impl LeaseDesk {
    /// Answers a library that asks for a session, with the inbound log from `from` on replayed to it:
    /// by what the last look showed. A granted session is the library's from here on. Without memory
    /// the request is as if it hadn't come.
    pub fn request(
        &mut self,
        leases: &Leases,
        s: u16,
        library: u8,
        nr: u32,
        from: u64,
    ) -> Result<Reply, NoMemory>
        requires table { self.old.seat.table ≡ leases.now }
        requires session { s < length self.old.board.sessions }
        requires seated { s < leases.now.shape.sessions }
        requires library { (1 ≤ library) × (library ≤ leases.now.shape.libraries) }
        requires known { IsLibrary library }
        requires few { (book_at self.old.board s).leases ≤ MOST_LEASES }
        requires agrees { Agrees self.old.board self.old.seat s }
        ensures reply { IfOk result (λ reply. reply ≡ reply_to (book_at self.old.board s).leases (state_of (book_at self.old.board s).entries) library from) }
        ensures granted { IfOk result (λ reply. OnGranted reply (IsGrant self.old.board s from)) }
        ensures book { OnOk result (book_at self.new.board s ≡ after_request library nr from (book_at self.old.board s)) }
        ensures lines { IfOk result (λ reply. lines_of (book_at self.new.board s).entries ≡ lines_after_reply (lines_of (book_at self.old.board s).entries) library reply) }
        ensures others { self.new.board ≡ with_session s (session_at self.new.board s) self.old.board }
        ensures happens { OnOk result (Happens (requests s library nr from) self.old.board self.new.board) }
        ensures seat { IfOk result (λ reply. self.new.seat ≡ seat_after_reply s library reply self.old.seat) }
        ensures nothing { OnErr result (NothingIsTold self.old.board self.new.board) }
        ensures err_book { OnErr result (book_at self.new.board s ≡ book_at self.old.board s) }
        ensures err_seat { OnErr result (self.new.seat ≡ self.old.seat) }
        ensures agrees { Agrees self.new.board self.new.seat s }
        ensures table { self.new.seat.table ≡ self.old.seat.table }
        ensures in_step { IsInStep self.old.board self.old.seat → IsInStep self.new.board self.new.seat }
        ensures none_comes { length self.new.board.connections ≡ length self.old.board.connections }
    {
        boards_stay_sound();
        entries_decide_one_by_one();
        grants_find_nobody();
        // The journal is lawful, and the log as long as it tells: what a grant asks and tells rests on that.
        let book = self.board.session(s as usize);
        let _journal = book.entries();
        let _expected = book.expected();
        let reply = self.board.request(s as usize, library, nr, from)?;
        if let Reply::Granted { .. } = reply {
            leases.grant(&mut self.seat, s, library);
        }
        Ok(reply)
    }
}
