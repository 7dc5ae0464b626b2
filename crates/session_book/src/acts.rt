//! Carrying out what the session machine asks for, one act after another.

ghost use Rattle.std.specs.Prelude.{◌≡◌, ◌≤◌, ◌<◌, ◌+◌, ◌^◌, ◌∷◌, [], OnOk, OnErr, IsTrue, length};
ghost use Rattle.connection_core.specs.Outgoing.{with_items};
ghost use Rattle.lease_core.specs.Runs.{is_bind};
ghost use Rattle.lease_core.specs.State.{state_of};
ghost use Rattle.session_core.specs.Tasks.{HasShortTexts};
ghost use Rattle.session_book.specs.Acts.{CanCarry, IsBegun, IsBoundIn, after_accept, after_act, after_acts, after_reset, after_resend, after_send, next_item, plan_items};
ghost use Rattle.session_book.specs.Book.{IsSameSession, next_number, present_series, with_outbox};

use crate::book::SessionBook;
use connection_core::Outbox;
use gate_io::{Bytes, LAST_MOMENT, NoMemory};
use message_log::{LAST_SERIES, OutEntry};
use resend_plan::{WireItem, logs_stay_fit, plan};
use session_core::{Act, Admin, admin_body, is_session_entry};
use std::alloc::Global;

impl SessionBook {
    /// Carries out an act at a moment, whole or not at all.
    pub(crate) fn carry(
        &mut self,
        alloc: Global,
        act: Act,
        at: u64,
        out: &mut Outbox,
    ) -> Result<(), NoMemory>
        requires moment { at ≤ LAST_MOMENT }
        requires can { CanCarry self.old.book (act ∷ []) }
        ensures ok { OnOk result (with_outbox self.new.book out.new.outgoing ≡ after_act at act (with_outbox self.old.book out.old.outgoing)) }
        ensures err { OnErr result (with_outbox self.new.book out.new.outgoing ≡ with_outbox self.old.book out.old.outgoing) }
        ensures bound { (state_of self.new.book.entries).bound ≡ (state_of self.old.book.entries).bound }
        ensures session { IsSameSession self.old.book self.new.book }
        ensures phase { self.new.book.machine.phase ≡ self.old.book.machine.phase }
    {
        match act {
            Act::Accept(body) => self.accept(alloc, body),
            Act::Send(admin) => self.send(alloc, &admin, at, out),
            Act::Resend { begin, last } => self.resend(alloc, begin, last, at, out),
            Act::Reset => self.reset(alloc),
        }
    }

    /// An application message is accepted.
    fn accept(&mut self, alloc: Global, body: Bytes) -> Result<(), NoMemory>
        ensures ok { OnOk result (self.new.book ≡ after_accept body self.old.book) }
        ensures err { OnErr result (self.new.book ≡ self.old.book) }
        ensures bound { (state_of self.new.book.entries).bound ≡ (state_of self.old.book.entries).bound }
        ensures session { IsSameSession self.old.book self.new.book }
        ensures phase { self.new.book.machine.phase ≡ self.old.book.machine.phase }
    {
        self.registry.reserve(1)?;
        self.inbound.push(alloc, body.into_inner())?;
        self.registry.arrive();
        Ok(())
    }

    /// The present series of the outbound log, and the number of its next entry.
    pub(crate) fn next_number(&self) -> (u32, u64)
        ensures series { result.0 ≡ present_series self.now.book }
        ensures number { result.1 ≡ next_number self.now.book }
        ensures few { result.1 ≤ 2 ^ 63 + 1 }
    {
        let series = self.outbound.series();
        let sent = self.outbound.len_of(series).unwrap_or(0);
        (series, sent + 1)
    }

    /// A session message is sent with the next number.
    fn send(
        &mut self,
        alloc: Global,
        admin: &Admin,
        at: u64,
        out: &mut Outbox,
    ) -> Result<(), NoMemory>
        requires moment { at ≤ LAST_MOMENT }
        requires short { HasShortTexts admin.now }
        ensures ok { OnOk result (self.new.book ≡ after_send at admin.now self.old.book) }
        ensures queued { OnOk result (out.new.outgoing ≡ with_items (next_item self.old.book) out.old.outgoing) }
        ensures err { OnErr result (self.new.book ≡ self.old.book) }
        ensures bound { (state_of self.new.book.entries).bound ≡ (state_of self.old.book.entries).bound }
        ensures session { IsSameSession self.old.book self.new.book }
        ensures phase { self.new.book.machine.phase ≡ self.old.book.machine.phase }
        ensures err_queued { OnErr result (out.new.outgoing ≡ out.old.outgoing) }
    {
        logs_stay_fit();
        let (series, number) = self.next_number();
        let body = admin_body(alloc, admin, number)?;
        self.registry.reserve(1)?;
        out.reserve(1)?;
        let entry = OutEntry {
            at,
            admin: is_session_entry(admin),
            body: Bytes::of(body),
        };
        self.outbound.push(alloc, entry)?;
        self.registry.admin();
        out.queue(WireItem::New { series, number });
        self.machine.sent(at);
        Ok(())
    }

    /// A ResendRequest is answered by a plan over the log as it is now.
    fn resend(
        &mut self,
        alloc: Global,
        begin: u64,
        last: u64,
        at: u64,
        out: &mut Outbox,
    ) -> Result<(), NoMemory>
        requires moment { at ≤ LAST_MOMENT }
        requires bound { IsBoundIn self.old.book }
        ensures ok { OnOk result (self.new.book ≡ after_resend at begin last self.old.book) }
        ensures queued { OnOk result (out.new.outgoing ≡ with_items (plan_items at begin last self.old.book) out.old.outgoing) }
        ensures err { OnErr result (self.new.book ≡ self.old.book) }
        ensures bound { (state_of self.new.book.entries).bound ≡ (state_of self.old.book.entries).bound }
        ensures session { IsSameSession self.old.book self.new.book }
        ensures phase { self.new.book.machine.phase ≡ self.old.book.machine.phase }
        ensures err_queued { OnErr result (out.new.outgoing ≡ out.old.outgoing) }
    {
        let items = plan(
            alloc,
            &self.outbound,
            self.outbound.series(),
            begin,
            last,
            at,
        )?;
        self.registry.reserve(1)?;
        out.reserve(items.len())?;
        self.registry.plan(begin, last, at);
        out.queue_all(items.as_slice());
        if !items.is_empty() {
            self.machine.sent(at);
        }
        Ok(())
    }

    /// Both sides' numbers begin again at 1.
    fn reset(&mut self, alloc: Global) -> Result<(), NoMemory>
        requires { IsTrue (is_bind (state_of self.old.book.entries).latest) }
        ensures ok { OnOk result (self.new.book ≡ after_reset self.old.book) }
        ensures err { OnErr result (self.new.book ≡ self.old.book) }
        ensures bound { (state_of self.new.book.entries).bound ≡ (state_of self.old.book.entries).bound }
        ensures session { IsSameSession self.old.book self.new.book }
        ensures phase { self.new.book.machine.phase ≡ self.old.book.machine.phase }
    {
        logs_stay_fit();
        // More series than a number can name are more than memory holds.
        if self.outbound.series() == LAST_SERIES {
            return Err(NoMemory::OutOfMemory);
        }
        self.registry.reserve(1)?;
        self.outbound.turn_over(alloc)?;
        self.registry.reset();
        Ok(())
    }
}
