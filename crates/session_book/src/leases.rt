//! What the leases of the session do: what a word shows, what a library asks for, and an heir that
//! doesn't come.

ghost use Rattle.std.specs.Prelude.{◌≡◌, ◌≤◌, ◌<◌, ◌+◌, ◌^◌, ◌&&◌, [], OnOk, OnErr, IfOk, IsSome, IsTrue, length, if◌then◌else◌};
ghost use Rattle.std.specs.List.{All};
ghost use Rattle.lease_core.specs.Lines.{lines_of, missing_sends, raises, raised, taken_back, lines_after_reply, is_released};
ghost use Rattle.lease_core.specs.Showable.{CanTimeOut, IsShowable};
ghost use Rattle.lease_core.specs.State.{state_of};
ghost use Rattle.lease_core.specs.Steps.{IsLibrary, reply_to};
ghost use Rattle.resend_plan.specs.Fit.{IsFit};
ghost use Rattle.session_book.specs.Acts.{after_lapse, after_request};
ghost use Rattle.session_book.specs.Book.{IsSameSession, after_sending, next_number, with_outbox};
ghost use Rattle.connection_core.specs.Outgoing.{with_items};
ghost use Rattle.session_book.specs.Words.{after_timeout, after_word, items_behind, new_items, shown_sends, with_sends};

use crate::book::SessionBook;
use connection_core::Outbox;
use gate_io::{Bytes, LAST_MOMENT, NoMemory};
use lease_core::laws::entries_decide_one_by_one;
use lease_core::{Reply, Shown, Word};
use message_log::{OutEntry, OutLog};
use resend_plan::{WireItem, logs_stay_fit};
use session_core::Session;
use std::alloc::Global;
use std::collections::VecDeque;

impl SessionBook {
    /// A library asks for the session, with the inbound log from `from` on replayed to it.
    pub fn request(&mut self, library: u8, nr: u32, from: u64) -> Result<Reply, NoMemory>
        requires { IsLibrary library }
        ensures ok { OnOk result (self.new.book ≡ after_request library nr from self.old.book) }
        ensures reply { IfOk result (λ reply. reply ≡ reply_to self.old.book.leases (state_of self.old.book.entries) library from) }
        ensures lines { IfOk result (λ reply. lines_of self.new.book.entries ≡ lines_after_reply (lines_of self.old.book.entries) library reply) }
        ensures err { OnErr result (self.new.book ≡ self.old.book) }
        // What the next call asks for.
        ensures bound { (state_of self.new.book.entries).bound ≡ (state_of self.old.book.entries).bound }
        ensures session { IsSameSession self.old.book self.new.book }
        ensures phase { self.new.book.machine.phase ≡ self.old.book.machine.phase }
    {
        self.registry.reserve(1)?;
        Ok(self.registry.request(library, nr, from))
    }

    /// The heir didn't come: the session waits for it no longer.
    pub fn lapse(&mut self) -> Result<(), NoMemory>
        requires { IsSome (state_of self.old.book.entries).reserved }
        ensures ok { OnOk result (self.new.book ≡ after_lapse self.old.book) }
        ensures lines { lines_of self.new.book.entries ≡ lines_of self.old.book.entries }
        ensures err { OnErr result (self.new.book ≡ self.old.book) }
        // What the next call asks for.
        ensures bound { (state_of self.new.book.entries).bound ≡ (state_of self.old.book.entries).bound }
        ensures session { IsSameSession self.old.book self.new.book }
        ensures phase { self.new.book.machine.phase ≡ self.old.book.machine.phase }
    {
        self.registry.reserve(1)?;
        self.registry.lapse();
        Ok(())
    }

    /// Records what a word of the last lease shows: the sends that it shows, with the bodies that were
    /// taken for them, in order, and the end, with a hold until the moment `until` behind a release
    /// with an heir. On a bound session each send waits on the connection. It takes no memory.
    pub fn show(
        &mut self,
        alloc: Global,
        w: Word,
        bodies: &mut VecDeque<Bytes>,
        at: u64,
        until: u64,
        out: &mut Outbox,
    ) -> Shown
        requires moment { at ≤ LAST_MOMENT }
        requires showable { IsShowable (lines_of self.old.book.entries) w }
        requires bodies { length bodies.old.items ≡ shown_sends self.old.book.entries w }
        requires fit { All IsFit bodies.old.items }
        requires room { missing_sends (lines_of self.old.book.entries) w + 2 ≤ self.old.spare }
        requires outbox { length bodies.old.items ≤ out.old.spare }
        ensures news { with_outbox self.new.book out.new.outgoing ≡ after_word at until w bodies.old.items (with_outbox self.old.book out.old.outgoing) }
        ensures lines { lines_of self.new.book.entries ≡ raised (lines_of self.old.book.entries) w }
        ensures sends { result.sends ≡ length bodies.old.items }
        ensures first { result.first ≡ next_number self.old.book }
        ensures ended { result.ended ≡ (raises (lines_of self.old.book.entries) w && is_released w.standing) }
        ensures taken { bodies.new.items ≡ [] }
        // What the next call asks for.
        ensures bound { (state_of self.new.book.entries).bound ≡ (state_of self.old.book.entries).bound }
        ensures session { IsSameSession self.old.book self.new.book }
        ensures phase { self.new.book.machine.phase ≡ self.old.book.machine.phase }
    {
        entries_decide_one_by_one();
        logs_stay_fit();
        let shown = self.registry.show(w, until);
        let bound = self.registry.bound();
        record_sends(
            alloc,
            &mut self.machine,
            &mut self.outbound,
            out,
            bound,
            bodies,
            at,
        );
        shown
    }

    /// The engine took the session back from a library that fell silent: records what the old word
    /// shows, with the bodies that were taken for its sends, and then that the lease was taken back,
    /// unless its library gave the session back before. It takes no memory.
    pub fn time_out(
        &mut self,
        alloc: Global,
        old: Word,
        bodies: &mut VecDeque<Bytes>,
        at: u64,
        until: u64,
        out: &mut Outbox,
    ) -> Shown
        requires moment { at ≤ LAST_MOMENT }
        requires can { CanTimeOut (lines_of self.old.book.entries) old }
        requires bodies { length bodies.old.items ≡ missing_sends (lines_of self.old.book.entries) old }
        requires fit { All IsFit bodies.old.items }
        requires room { missing_sends (lines_of self.old.book.entries) old + 2 ≤ self.old.spare }
        requires outbox { length bodies.old.items ≤ out.old.spare }
        ensures news { with_outbox self.new.book out.new.outgoing ≡ after_timeout at until old bodies.old.items (with_outbox self.old.book out.old.outgoing) }
        ensures lines { lines_of self.new.book.entries ≡ taken_back old.standing (raised (lines_of self.old.book.entries) old) }
        ensures sends { result.sends ≡ length bodies.old.items }
        ensures first { result.first ≡ next_number self.old.book }
        ensures ended { IsTrue result.ended }
        ensures taken { bodies.new.items ≡ [] }
        // What the next call asks for.
        ensures bound { (state_of self.new.book.entries).bound ≡ (state_of self.old.book.entries).bound }
        ensures session { IsSameSession self.old.book self.new.book }
        ensures phase { self.new.book.machine.phase ≡ self.old.book.machine.phase }
    {
        entries_decide_one_by_one();
        logs_stay_fit();
        let shown = self.registry.timeout(old, until);
        let bound = self.registry.bound();
        record_sends(
            alloc,
            &mut self.machine,
            &mut self.outbound,
            out,
            bound,
            bodies,
            at,
        );
        shown
    }
}

/// Puts the bodies of sends behind the outbound log, in order. On a session that is bound each of
/// them waits on the connection.
fn record_sends(
    alloc: Global,
    machine: &mut Session,
    log: &mut OutLog,
    out: &mut Outbox,
    bound: Option<u32>,
    bodies: &mut VecDeque<Bytes>,
    at: u64,
)
    requires moment { at ≤ LAST_MOMENT }
    requires room { length bodies.old.items ≤ log.old.spare }
    requires outbox { length bodies.old.items ≤ out.old.spare }
    ensures series { log.new.series ≡ with_sends at bodies.old.items log.old.series }
    ensures machine { machine.new ≡ after_sending at (items_behind bound (length bodies.old.items) log.old.series) machine.old }
    ensures queued { out.new.outgoing ≡ with_items (items_behind bound (length bodies.old.items) log.old.series) out.old.outgoing }
    ensures taken { bodies.new.items ≡ [] }
{
    let sends = bodies.len();
    if sends == 0 {
        return;
    }
    let series = log.series();
    let first = log.len_of(series).unwrap_or(0) + 1;
    push_sends(alloc, log, bodies, at);
    if bound.is_some() {
        queue_sends(out, series, first, sends);
        machine.sent(at);
    }
}

/// Puts the bodies of sends behind the outbound log, in order.
fn push_sends(alloc: Global, log: &mut OutLog, bodies: &mut VecDeque<Bytes>, at: u64)
    requires { length bodies.old.items ≤ log.old.spare }
    ensures series { log.new.series ≡ with_sends at bodies.old.items log.old.series }
    ensures taken { bodies.new.items ≡ [] }
{
    while let Some(body) = bodies.pop_front() {
        let entry = OutEntry {
            at,
            admin: false,
            body,
        };
        log.push(alloc, entry).unwrap();
    }
}

/// So many sends wait on the connection, from this number of the series on.
fn queue_sends(out: &mut Outbox, series: u32, first: u64, sends: usize)
    requires room { sends ≤ out.old.spare }
    requires few { first ≤ 2 ^ 63 + 1 }
    requires within { sends < 2 ^ 63 }
    ensures { out.new.outgoing ≡ with_items (new_items series first sends) out.old.outgoing }
{
    for k in 0..sends {
        let number = first + k as u64;
        out.queue(WireItem::New { series, number });
    }
}
