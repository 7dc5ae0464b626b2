//! What happens on the connection to which the session is bound, and what the clock asks.

ghost use Rattle.std.specs.Prelude.{◌≡◌, ◌≢◌, ◌≤◌, ◌⊎◌, List, [], true, IfOk, IsOk, OnOk, OnErr, IsSome, None, Some};
ghost use Rattle.session_core.specs.declared.phases.Phase.TheVariants as Phase;
ghost use Rattle.lease_core.specs.State.{state_of};
ghost use Rattle.session_core.specs.Ask.{ask, after_ask};
ghost use Rattle.session_core.specs.Receive.{receive, after_receive};
ghost use Rattle.session_core.specs.Runs.{binds};
ghost use Rattle.session_core.specs.declared.names.Names.{Names};
ghost use Rattle.session_core.specs.Tick.{tick, after_tick, does_nothing_at};
ghost use Rattle.session_core.specs.State.{heart_in};
ghost use Rattle.lease_core.specs.declared.event.Event.TheVariants.{Binds};
ghost use Rattle.session_book.specs.Acts.{CanCarry, IsBegun, IsBoundIn, after_acts, after_binding, after_dial, after_end, after_message, after_ticking};
ghost use Rattle.session_book.specs.Book.{IsSameSession, with_outbox, with_event, with_machine};

use crate::book::SessionBook;
use connection_core::Outbox;
use gate_io::{LAST_MOMENT, NoMemory};
use lease_core::laws::entries_decide_one_by_one;
use session_core::laws::{phases_follow, sameness_laws};
use session_core::{Act, Cause};
use std::alloc::Global;

impl SessionBook {
    /// Carries out acts in order. Without memory some were carried out, from the first on, each
    /// whole.
    fn carry_all(
        &mut self,
        alloc: Global,
        acts: Vec<Act>,
        at: u64,
        out: &mut Outbox,
    ) -> Result<(), NoMemory>
        requires moment { at ≤ LAST_MOMENT }
        requires can { CanCarry self.old.book acts.items }
        ensures ok { OnOk result (with_outbox self.new.book out.new.outgoing ≡ after_acts at acts.items (with_outbox self.old.book out.old.outgoing)) }
        ensures err { OnErr result (IsBegun at acts.items (with_outbox self.old.book out.old.outgoing) (with_outbox self.new.book out.new.outgoing)) }
        ensures none { acts.items ≡ [] → IsOk result }
        ensures bound { (state_of self.new.book.entries).bound ≡ (state_of self.old.book.entries).bound }
        ensures session { IsSameSession self.old.book self.new.book }
        ensures phase { self.new.book.machine.phase ≡ self.old.book.machine.phase }
    {
        entries_decide_one_by_one();
        if acts.is_empty() {
            return Ok(());
        }
        for act in acts {
            self.carry(alloc, act, at, out)?;
        }
        Ok(())
    }

    /// The session is bound to a connection by its first message, a Logon that `route` gave to this
    /// session. Answers the cause by which the connection ends, if it does. Without memory either
    /// nothing happened, or the session is bound and some of the acts were carried out, each whole.
    /// FIX 4.4, volume 2, "Logon".
    pub fn bind(
        &mut self,
        alloc: Global,
        c: u32,
        body: Vec<u8>,
        at: u64,
        out: &mut Outbox,
    ) -> Result<Option<Cause>, NoMemory>
        requires moment { at ≤ LAST_MOMENT }
        requires free { (state_of self.old.book.entries).bound ≡ None }
        ensures ok { OnOk result (with_outbox self.new.book out.new.outgoing ≡ after_binding at c body.items (with_outbox self.old.book out.old.outgoing)) }
        ensures end { IfOk result (λ end. end ≡ (receive self.old.book.machine body.items at).end) }
        ensures err { OnErr result ((with_outbox self.new.book out.new.outgoing ≡ with_outbox self.old.book out.old.outgoing) ⊎ IsBegun at (receive self.old.book.machine body.items at).acts (with_outbox (with_machine (after_receive self.old.book.machine body.items at) (with_event (Binds c) self.old.book)) out.old.outgoing) (with_outbox self.new.book out.new.outgoing)) }
        // What the next call asks for.
        ensures bound { OnOk result ((state_of self.new.book.entries).bound ≡ Some c) }
        ensures session { IsSameSession self.old.book self.new.book }
        ensures on { IfOk result (λ end. (names : List Names) → self.old.book.machine.dials ≡ None → binds names body.items ≡ true → end ≡ None → self.new.book.machine.phase ≢ Phase.Off) }
    {
        phases_follow();
        self.registry.reserve(1)?;
        let effects = self.machine.receive(alloc, body, at)?;
        self.registry.bind(c);
        self.carry_all(alloc, effects.acts.into_inner(), at, out)?;
        Ok(effects.end)
    }

    /// A message comes on the connection to which the session is bound. Answers the cause by which it
    /// ends the connection, if it does. Without memory either nothing happened, or the message was
    /// counted and some of the acts were carried out, each whole.
    pub fn receive(
        &mut self,
        alloc: Global,
        body: Vec<u8>,
        at: u64,
        out: &mut Outbox,
    ) -> Result<Option<Cause>, NoMemory>
        requires moment { at ≤ LAST_MOMENT }
        requires bound { IsBoundIn self.old.book }
        requires on { self.old.book.machine.phase ≢ Phase.Off }
        ensures ok { OnOk result (with_outbox self.new.book out.new.outgoing ≡ after_message at body.items (with_outbox self.old.book out.old.outgoing)) }
        ensures end { IfOk result (λ end. end ≡ (receive self.old.book.machine body.items at).end) }
        ensures err { OnErr result ((with_outbox self.new.book out.new.outgoing ≡ with_outbox self.old.book out.old.outgoing) ⊎ IsBegun at (receive self.old.book.machine body.items at).acts (with_outbox (with_machine (after_receive self.old.book.machine body.items at) self.old.book) out.old.outgoing) (with_outbox self.new.book out.new.outgoing)) }
        // What the next call asks for.
        ensures bound { (state_of self.new.book.entries).bound ≡ (state_of self.old.book.entries).bound }
        ensures session { IsSameSession self.old.book self.new.book }
        ensures on { self.new.book.machine.phase ≢ Phase.Off }
    {
        phases_follow();
        let effects = self.machine.receive(alloc, body, at)?;
        self.carry_all(alloc, effects.acts.into_inner(), at, out)?;
        Ok(effects.end)
    }

    /// The clock stands at a moment. Answers the cause by which the connection ends, if it does.
    /// FIX 4.4, volume 2, "Heartbeat", "Test Request".
    pub fn tick(
        &mut self,
        alloc: Global,
        at: u64,
        out: &mut Outbox,
    ) -> Result<Option<Cause>, NoMemory>
        requires moment { at ≤ LAST_MOMENT }
        ensures ok { OnOk result (with_outbox self.new.book out.new.outgoing ≡ after_ticking at (with_outbox self.old.book out.old.outgoing)) }
        ensures end { IfOk result (λ end. end ≡ (tick self.old.book.machine at).end) }
        ensures err { OnErr result ((with_outbox self.new.book out.new.outgoing ≡ with_outbox self.old.book out.old.outgoing) ⊎ IsBegun at (tick self.old.book.machine at).acts (with_outbox (with_machine (after_tick self.old.book.machine at) self.old.book) out.old.outgoing) (with_outbox self.new.book out.new.outgoing)) }
        // Where nothing is due it takes no memory.
        ensures quiet { does_nothing_at self.old.book.machine at ≡ true → IsOk result }
        // What the next call asks for.
        ensures bound { (state_of self.new.book.entries).bound ≡ (state_of self.old.book.entries).bound }
        ensures session { IsSameSession self.old.book self.new.book }
        ensures phase { self.new.book.machine.phase ≡ self.old.book.machine.phase }
    {
        sameness_laws();
        let effects = self.machine.tick(alloc, at)?;
        self.carry_all(alloc, effects.acts.into_inner(), at, out)?;
        Ok(effects.end)
    }

    /// The session is bound to a connection that it dialled, and asks for a Logon.
    pub fn dial(&mut self, alloc: Global, c: u32, at: u64, out: &mut Outbox) -> Result<(), NoMemory>
        requires moment { at ≤ LAST_MOMENT }
        requires dials { IsSome self.old.book.machine.dials }
        requires free { (state_of self.old.book.entries).bound ≡ None }
        ensures ok { OnOk result (with_outbox self.new.book out.new.outgoing ≡ after_dial at c (with_outbox self.old.book out.old.outgoing)) }
        ensures err { OnErr result ((with_outbox self.new.book out.new.outgoing ≡ with_outbox self.old.book out.old.outgoing) ⊎ IsBegun at (ask self.old.book.machine).acts (with_outbox (with_machine (after_ask self.old.book.machine at) (with_event (Binds c) self.old.book)) out.old.outgoing) (with_outbox self.new.book out.new.outgoing)) }
        // What the next call asks for.
        ensures bound { OnOk result ((state_of self.new.book.entries).bound ≡ Some c) }
        ensures session { IsSameSession self.old.book self.new.book }
        ensures on { OnOk result (self.new.book.machine.phase ≢ Phase.Off) }
    {
        self.registry.reserve(1)?;
        let effects = self.machine.ask(alloc, at)?;
        self.registry.bind(c);
        self.carry_all(alloc, effects.acts.into_inner(), at, out)
    }

    /// The connection to which the session is bound ended.
    pub fn leave(&mut self, c: u32) -> Result<(), NoMemory>
        requires { (state_of self.old.book.entries).bound ≡ Some c }
        ensures ok { OnOk result (self.new.book ≡ after_end c self.old.book) }
        ensures err { OnErr result (self.new.book ≡ self.old.book) }
        // What the next call asks for.
        ensures bound { OnOk result ((state_of self.new.book.entries).bound ≡ None) }
        ensures session { IsSameSession self.old.book self.new.book }
    {
        self.registry.reserve(1)?;
        self.registry.leave(c);
        self.machine.leave();
        Ok(())
    }
}
