//! What the leases of a session do.

ghost use Rattle.std.specs.Prelude.{◌≡◌, ◌<◌, ◌≤◌, ◌+◌, ◌&&◌, [], length, IfSome, IsSome, IsTrue, IfOk, OnOk, OnErr};
ghost use Rattle.std.specs.List.{All};
ghost use Rattle.lease_core.specs.Lines.{is_released, lines_after_reply, lines_of, missing_sends, raised, raises, taken_back};
ghost use Rattle.lease_core.specs.Showable.{CanTimeOut, IsShowable};
ghost use Rattle.lease_core.specs.State.{state_of};
ghost use Rattle.lease_core.specs.Steps.{IsLibrary, reply_to};
ghost use Rattle.session_book.specs.Fit.{IsFit};
ghost use Rattle.session_book.specs.Acts.{after_lapse, after_request};
ghost use Rattle.session_book.specs.Book.{next_number};
ghost use Rattle.session_book.specs.Words.{after_timeout, after_word, shown_sends};
ghost use Rattle.switchboard.specs.Board.{DeskChanges, book_at, desk_at, outlet_at, place_at, session_at, with_session};
ghost use Rattle.switchboard.specs.Happenings.{Happens, lapses, requests, reserves, shows, times_out};
ghost use Rattle.switchboard.specs.Stops.{NothingIsTold};

use crate::board::{Switchboard, is_lawful};
use gate_io::{Bytes, LAST_MOMENT, NoMemory};
use lease_core::{Reply, Shown, Word};
use std::alloc::Global;
use std::collections::VecDeque;

impl Switchboard {
    /// Makes room for n more entries of a session, and as many items on its connection.
    pub fn reserve(&mut self, alloc: Global, s: usize, n: usize) -> Result<(), NoMemory>
        requires session { s < length self.old.sessions }
        requires place { IfSome (place_at self.old s) (λ k. k < length self.old.connections) }
        ensures desk { desk_at self.new s ≡ desk_at self.old s }
        ensures others { DeskChanges s (place_at self.old s) self.old self.new }
        ensures room { OnOk result (n ≤ (session_at self.new s).spare) }
        ensures outbox { OnOk result (n ≤ (outlet_at self.new (place_at self.old s)).spare) }
        ensures happens { Happens (reserves s) self.old self.new }
    {
        is_lawful(&self.sessions[s]);
        self.sessions[s].reserve(alloc, n)?;
        match self.places[s] {
            Some(k) => self.connections[k].outbox().reserve(n),
            None => self.nowhere.reserve(n),
        }
    }

    /// A library asks for a session, with the inbound log from `from` on replayed to it.
    pub fn request(&mut self, s: usize, library: u8, nr: u32, from: u64) -> Result<Reply, NoMemory>
        requires session { s < length self.old.sessions }
        requires library { IsLibrary library }
        ensures book { OnOk result (book_at self.new s ≡ after_request library nr from (book_at self.old s)) }
        ensures reply { IfOk result (λ reply. reply ≡ reply_to (book_at self.old s).leases (state_of (book_at self.old s).entries) library from) }
        ensures lines { IfOk result (λ reply. lines_of (book_at self.new s).entries ≡ lines_after_reply (lines_of (book_at self.old s).entries) library reply) }
        ensures others { self.new ≡ with_session s (session_at self.new s) self.old }
        ensures happens { OnOk result (Happens (requests s library nr from) self.old self.new) }
        ensures err { OnErr result (book_at self.new s ≡ book_at self.old s) }
        ensures nothing { OnErr result (NothingIsTold self.old self.new) }
    {
        let reply = self.sessions[s].request(library, nr, from)?;
        is_lawful(&self.sessions[s]);
        Ok(reply)
    }

    /// The heir didn't come: a session waits for it no longer.
    pub fn lapse(&mut self, s: usize) -> Result<(), NoMemory>
        requires session { s < length self.old.sessions }
        requires reserved { IsSome (state_of (book_at self.old s).entries).reserved }
        ensures book { OnOk result (book_at self.new s ≡ after_lapse (book_at self.old s)) }
        ensures lines { lines_of (book_at self.new s).entries ≡ lines_of (book_at self.old s).entries }
        ensures others { self.new ≡ with_session s (session_at self.new s) self.old }
        ensures happens { OnOk result (Happens (lapses s) self.old self.new) }
        ensures err { OnErr result (book_at self.new s ≡ book_at self.old s) }
        ensures nothing { OnErr result (NothingIsTold self.old self.new) }
    {
        self.sessions[s].lapse()?;
        is_lawful(&self.sessions[s]);
        Ok(())
    }

    /// Records what a word of a session's last lease shows, with the bodies that were taken for its
    /// sends. On a bound session each send waits on the connection. It takes no memory.
    pub fn show(
        &mut self,
        alloc: Global,
        s: usize,
        w: Word,
        bodies: &mut VecDeque<Bytes>,
        at: u64,
        until: u64,
    ) -> Shown
        requires moment { at ≤ LAST_MOMENT }
        requires session { s < length self.old.sessions }
        requires place { IfSome (place_at self.old s) (λ k. k < length self.old.connections) }
        requires showable { IsShowable (lines_of (book_at self.old s).entries) w }
        requires bodies { length bodies.old.items ≡ shown_sends (book_at self.old s).entries w }
        requires fit { All IsFit bodies.old.items }
        requires room { missing_sends (lines_of (book_at self.old s).entries) w + 2 ≤ (session_at self.old s).spare }
        requires outbox { length bodies.old.items ≤ (outlet_at self.old (place_at self.old s)).spare }
        ensures news { desk_at self.new s ≡ after_word at until w bodies.old.items (desk_at self.old s) }
        ensures lines { lines_of (book_at self.new s).entries ≡ raised (lines_of (book_at self.old s).entries) w }
        ensures sends { result.sends ≡ length bodies.old.items }
        ensures first { result.first ≡ next_number (book_at self.old s) }
        ensures ended { result.ended ≡ (raises (lines_of (book_at self.old s).entries) w && is_released w.standing) }
        ensures taken { bodies.new.items ≡ [] }
        ensures others { DeskChanges s (place_at self.old s) self.old self.new }
        ensures bound { (state_of (book_at self.new s).entries).bound ≡ (state_of (book_at self.old s).entries).bound }
        ensures phase { (book_at self.new s).machine.phase ≡ (book_at self.old s).machine.phase }
        ensures happens { Happens (shows s w bodies.old.items at until) self.old self.new }
    {
        let shown = match self.places[s] {
            Some(k) => {
                self.sessions[s].show(alloc, w, bodies, at, until, self.connections[k].outbox())
            }
            None => self.sessions[s].show(alloc, w, bodies, at, until, &mut self.nowhere),
        };
        is_lawful(&self.sessions[s]);
        shown
    }

    /// The engine took a session back: records what the old word shows, and then that the lease was
    /// taken back, unless its library gave the session back before. It takes no memory.
    pub fn time_out(
        &mut self,
        alloc: Global,
        s: usize,
        old: Word,
        bodies: &mut VecDeque<Bytes>,
        at: u64,
        until: u64,
    ) -> Shown
        requires moment { at ≤ LAST_MOMENT }
        requires session { s < length self.old.sessions }
        requires place { IfSome (place_at self.old s) (λ k. k < length self.old.connections) }
        requires can { CanTimeOut (lines_of (book_at self.old s).entries) old }
        requires bodies { length bodies.old.items ≡ missing_sends (lines_of (book_at self.old s).entries) old }
        requires fit { All IsFit bodies.old.items }
        requires room { missing_sends (lines_of (book_at self.old s).entries) old + 2 ≤ (session_at self.old s).spare }
        requires outbox { length bodies.old.items ≤ (outlet_at self.old (place_at self.old s)).spare }
        ensures news { desk_at self.new s ≡ after_timeout at until old bodies.old.items (desk_at self.old s) }
        ensures lines { lines_of (book_at self.new s).entries ≡ taken_back old.standing (raised (lines_of (book_at self.old s).entries) old) }
        ensures sends { result.sends ≡ length bodies.old.items }
        ensures first { result.first ≡ next_number (book_at self.old s) }
        ensures ended { IsTrue result.ended }
        ensures taken { bodies.new.items ≡ [] }
        ensures others { DeskChanges s (place_at self.old s) self.old self.new }
        ensures bound { (state_of (book_at self.new s).entries).bound ≡ (state_of (book_at self.old s).entries).bound }
        ensures phase { (book_at self.new s).machine.phase ≡ (book_at self.old s).machine.phase }
        ensures happens { Happens (times_out s old bodies.old.items at until) self.old self.new }
    {
        let shown = match self.places[s] {
            Some(k) => {
                self.sessions[s].time_out(
                    alloc,
                    old,
                    bodies,
                    at,
                    until,
                    self.connections[k].outbox(),
                )
            }
            None => self.sessions[s].time_out(alloc, old, bodies, at, until, &mut self.nowhere),
        };
        is_lawful(&self.sessions[s]);
        shown
    }
}
