//! A session, which is bound by a connection that comes or by one that it dials itself.

ghost use Rattle.std.specs.Prelude.{◌≡◌, ◌≢◌, ℕ, ◌+◌, ◌≤◌, nat_le, nat_lt, true, IsSome, IsNone, IsOk, [], ◌∷◌, if◌then◌else◌, None, Some, IfOk, IfSome, IfNone, OnOk, OnErr};
ghost use Rattle.std.specs.List.{All, list_any};
ghost use Rattle.seq_gaps.specs.Line.{IsLine, fresh_line, after_fill};
ghost use Rattle.session_core.specs.Ask.{ask, after_ask};
ghost use Rattle.session_core.specs.Laws.{AreActs};
ghost use Rattle.session_core.specs.Receive.{receive, after_receive, is_send, no_effects};
ghost use Rattle.session_core.specs.State.{IsState, IsDialHeart, new_state, after_leave, heart_in};
ghost use Rattle.session_core.specs.Tasks.{IsReply, is_tick_act};
ghost use Rattle.session_core.specs.Tick.{tick, after_tick, tick_of, does_nothing_at};

use crate::acts::{Act, Admin, Effects};
use crate::carry::{OWN_ACTS, carry_step};
use crate::causes::Cause;
use crate::inbound::Inbound;
use crate::laws::line_laws;
use crate::logons::{log_on, take_answer};
use crate::names::Names;
use crate::phases::Phase;
use crate::reading::{read_answer, read_step, read_terms};
use crate::ticks::{ANSWER_WAIT, Tick};
use gate_io::{Bytes, LAST_MOMENT, NoMemory, Rows};
use seq_gaps::MAX_NUMBER;
use std::alloc::Global;
use std::marker::Model;

/// A session: its names, the HeartBtInt with which it dials, if it does, how far the Logons of a
/// connection that stands have come, its number line, and the moments by which its clock goes, in
/// milliseconds since 1970-01-01.
#[derive(Debug)]
pub struct Session {
    names: Names,
    dials: Option<u32>,
    phase: Phase,
    line: Inbound,
    received: u64,
    sent: u64,
    waiting: Option<u64>,
}

impl Drop for Session {
    fn drop(self) {
        let Session {
            names: _,
            dials: _,
            phase: _,
            line: _,
            received: _,
            sent: _,
            waiting: _,
        } = self;
    }
}

impl Model for Session {
    ghost use Rattle.std.specs.Coded.{codes};
    ghost use Rattle.seq_gaps.specs.Line.{line_code};
    ghost use Rattle.session_core.specs.State.{State, IsState};
    ghost use Rattle.session_core.specs.contracts.tasks.Task as task;

    ghost Value = { State };

    ghost coded = { Prim.hlevel (codes, line_code task.the_row.coded) };

    ghost view = { λ s. record { names = s.names; dials = s.dials; phase = s.phase; line = s.line; received = s.received; sent = s.sent; waiting = s.waiting } };

    ghost invariant = { λ s. IsState (record { names = s.names; dials = s.dials; phase = s.phase; line = s.line; received = s.received; sent = s.sent; waiting = s.waiting }) };
}

impl Session {
    /// A session of which nothing was heard: it expects number 1.
    pub fn new(alloc: Global, us: Vec<u8>, them: Vec<u8>) -> Result<Session, NoMemory>
        ensures { IfOk result (λ session. session ≡ new_state us.items them.items None fresh_line) }
    {
        line_laws();
        let line = Inbound::new(alloc)?;
        Ok(Session::with_line(us, them, None, line))
    }

    /// A session that accepts and goes on from a record: it is off, and expects this number, from 1 to
    /// `MAX_NUMBER` + 1.
    pub fn resume(
        alloc: Global,
        us: Vec<u8>,
        them: Vec<u8>,
        expected: u32,
    ) -> Result<Session, NoMemory>
        requires from { 1 ≤ expected }
        requires to { expected ≤ MAX_NUMBER + 1 }
        ensures { IfOk result (λ session. session ≡ new_state us.items them.items None (after_fill fresh_line expected)) }
    {
        line_laws();
        let line = Inbound::expecting(alloc, expected)?;
        Ok(Session::with_line(us, them, None, line))
    }

    /// A session that dials with this HeartBtInt, in seconds from 1 to `LONGEST_HEARTBEAT`: it is off,
    /// and expects this number, from 1 to `MAX_NUMBER` + 1.
    pub fn dialling(
        alloc: Global,
        us: Vec<u8>,
        them: Vec<u8>,
        heart: u32,
        expected: u32,
    ) -> Result<Session, NoMemory>
        requires heart { IsDialHeart heart }
        requires from { 1 ≤ expected }
        requires to { expected ≤ MAX_NUMBER + 1 }
        ensures { IfOk result (λ session. session ≡ new_state us.items them.items (Some heart) (after_fill fresh_line expected)) }
    {
        line_laws();
        let line = Inbound::expecting(alloc, expected)?;
        Ok(Session::with_line(us, them, Some(heart), line))
    }

    fn with_line(us: Vec<u8>, them: Vec<u8>, dials: Option<u32>, line: Inbound) -> Session
        requires { IsState (new_state us.items them.items dials line) }
        ensures { result ≡ new_state us.items them.items dials line }
    {
        let us = Bytes::of(us);
        let them = Bytes::of(them);
        Session {
            names: Names { us, them },
            dials,
            phase: Phase::Off,
            line,
            received: 0,
            sent: 0,
            waiting: None,
        }
    }

    /// The number that is expected next, with which `resume` goes on.
    pub fn expected(&self) -> u32
        ensures number { result ≡ self.now.line.expected }
        ensures from { 1 ≤ result }
        ensures to { result ≤ MAX_NUMBER + 1 }
        // What holds of every session.
        ensures state { IsState self.now }
    {
        self.line.next_number()
    }

    pub fn names(&self) -> &Names
        ensures { result.now ≡ self.now.names }
    {
        &self.names
    }

    /// An item for the connection was queued at this moment.
    pub fn sent(&mut self, moment: u64)
        requires { moment ≤ LAST_MOMENT }
        ensures { self.new ≡ record self.old { sent = moment } }
    {
        self.sent = moment;
    }

    /// The connection ended.
    pub fn leave(&mut self)
        ensures { self.new ≡ after_leave self.old }
    {
        line_laws();
        self.phase = Phase::Off;
        self.line.clear();
        self.waiting = None;
    }

    /// The session dialled, and its connection was made at this moment: the Logon with which it begins.
    /// FIX 4.4, volume 2, "Logon".
    pub fn ask(&mut self, alloc: Global, moment: u64) -> Result<Effects, NoMemory>
        requires dials { IsSome self.old.dials }
        requires off { self.old.phase ≡ Phase.Off }
        requires moment { moment ≤ LAST_MOMENT }
        ensures effects { IfOk result (λ effects. effects ≡ ask self.old) }
        ensures state { OnOk result (self.new ≡ after_ask self.old moment) }
        ensures err { OnErr result (self.new ≡ self.old) }
    {
        let Some(heart) = self.dials else {
            return Ok(nothing(alloc));
        };
        let logon = Admin::Logon {
            heart,
            reset: false,
        };
        let effects = send_one(alloc, logon)?;
        self.phase = Phase::Asked { heart };
        self.received = moment;
        self.sent = moment;
        self.waiting = None;
        Ok(effects)
    }

    /// A message with this body came at this moment. On a session that accepts and is off it is taken
    /// for the Logon of the connection that is bound now: EncryptMethod (98), HeartBtInt (108),
    /// ResetSeqNumFlag (141) and MsgSeqNum (34) are looked at as by `route`, and where one of them
    /// refuses it, it counts for nothing. MsgType (35) and the CompIDs (49, 56) aren't looked at: that
    /// is the caller's, by `route`. On a session that dials and is off any message counts for nothing.
    /// Behind the Logon of `ask` it is the answer, of which all of these are looked at, and one that is
    /// refused ends the connection. On a session whose Logon was answered 98, 108 and 141 of a further
    /// one aren't looked at. A body whose fields can't be read is refused as an answer, and else counts
    /// for nothing. What is sent sets the moment of the last sending; for the items of a `Resend` the
    /// caller calls `sent`.
    pub fn receive(
        &mut self,
        alloc: Global,
        body: Vec<u8>,
        moment: u64,
    ) -> Result<Effects, NoMemory>
        requires { moment ≤ LAST_MOMENT }

        // The acts and the end, and the session behind them, exactly.
        ensures effects { IfOk result (λ effects. effects ≡ receive self.old body.items moment) }
        ensures state { OnOk result (self.new ≡ after_receive self.old body.items moment) }
        ensures err { OnErr result (self.new ≡ self.old) }

        // The texts that are sent are within their bounds, and what the clock sends isn't among them.
        // A reset comes first, and only with the Logon that binds.
        ensures acts { IfOk result (λ effects. AreActs effects.acts) }
        ensures replies { IfOk result (λ effects. self.old.phase ≢ Phase.Off → All IsReply effects.acts) }
    {
        line_laws();
        match self.phase {
            Phase::Off => self.receive_first(alloc, body.as_slice(), moment),
            Phase::Asked { heart } => self.receive_answer(alloc, heart, body.as_slice(), moment),
            Phase::On { .. } => self.receive_next(alloc, body, moment),
        }
    }

    #[tactic(auto, unfolding(crate::specs::Receive::outcome), using(crate::proofs::Heard::logged_on_heard))]
    fn receive_first(
        &mut self,
        alloc: Global,
        body: &[u8],
        moment: u64,
    ) -> Result<Effects, NoMemory>
        requires off { self.old.phase ≡ Phase.Off }
        requires moment { moment ≤ LAST_MOMENT }
        ensures effects { IfOk result (λ effects. effects ≡ receive self.old body.now moment) }
        ensures state { OnOk result (self.new ≡ after_receive self.old body.now moment) }
        ensures err { OnErr result (self.new ≡ self.old) }
    {
        if self.dials.is_some() {
            return Ok(nothing(alloc));
        }
        let Some(terms) = read_terms(alloc, body)? else {
            return Ok(nothing(alloc));
        };
        line_laws();
        let (phase, effects) = log_on(alloc, &mut self.line, terms)?;
        self.phase = phase;
        self.received = moment;
        self.sent = last_sending(effects.acts.as_slice(), self.sent, moment);
        self.waiting = None;
        Ok(effects)
    }

    #[tactic(auto, unfolding(crate::specs::Receive::outcome), using(crate::proofs::Heard::answer_heard))]
    fn receive_answer(
        &mut self,
        alloc: Global,
        heart: u32,
        body: &[u8],
        moment: u64,
    ) -> Result<Effects, NoMemory>
        requires asked { self.old.phase ≡ Phase.Asked heart }
        requires moment { moment ≤ LAST_MOMENT }
        ensures effects { IfOk result (λ effects. effects ≡ receive self.old body.now moment) }
        ensures state { OnOk result (self.new ≡ after_receive self.old body.now moment) }
        ensures err { OnErr result (self.new ≡ self.old) }
    {
        match read_answer(alloc, &self.names, heart, body)? {
            Ok(number) => {
                line_laws();
                let effects = take_answer(alloc, &mut self.line, heart, number)?;
                self.phase = Phase::On { heart };
                self.received = moment;
                self.sent = last_sending(effects.acts.as_slice(), self.sent, moment);
                self.waiting = None;
                Ok(effects)
            }
            Err(cause) => Ok(end_with(alloc, cause)),
        }
    }

    #[tactic(auto, unfolding(crate::specs::Receive::outcome))]
    fn receive_next(
        &mut self,
        alloc: Global,
        body: Vec<u8>,
        moment: u64,
    ) -> Result<Effects, NoMemory>
        requires on { self.old.phase ≡ Phase.On (heart_in self.old.phase) }
        requires moment { moment ≤ LAST_MOMENT }
        ensures effects { IfOk result (λ effects. effects ≡ receive self.old body.items moment) }
        ensures state { OnOk result (self.new ≡ after_receive self.old body.items moment) }
        ensures err { OnErr result (self.new ≡ self.old) }
    {
        let expected = self.line.next_number();
        let Some(step) = read_step(alloc, &self.names, expected, body.as_slice())? else {
            return Ok(nothing(alloc));
        };
        line_laws();
        let mut acts = Vec::with_capacity(alloc, OWN_ACTS + self.line.most_held())?;
        let end = carry_step(&mut self.line, &mut acts, step, body);
        self.received = moment;
        self.sent = last_sending(acts.as_slice(), self.sent, moment);
        self.waiting = None;
        Ok(Effects {
            acts: Rows::of(acts),
            end,
        })
    }

    /// The clock stands at this moment. FIX 4.4, volume 2, "Heartbeat", "Test Request".
    pub fn tick(&mut self, alloc: Global, moment: u64) -> Result<Effects, NoMemory>
        requires { moment ≤ LAST_MOMENT }
        ensures effects { IfOk result (λ effects. effects ≡ tick self.old moment) }
        ensures state { OnOk result (self.new ≡ after_tick self.old moment) }
        ensures err { OnErr result (self.new ≡ self.old) }

        // Where nothing is due it takes no memory.
        ensures quiet { does_nothing_at self.old moment ≡ true → IsOk result }
        // It sends what the clock alone sends, and what it tells of silence is a moment.
        ensures ticks { IfOk result (λ effects. All (λ act. is_tick_act act ≡ true) effects.acts) }
        ensures since { IfOk result (λ effects. (since : ℕ) → effects.end ≡ Some (Cause.Silent since) → since ≤ LAST_MOMENT) }
    {
        match self.tick_at(moment) {
            Tick::Quiet => Ok(nothing(alloc)),
            Tick::Beat => {
                let effects = send_one(alloc, Admin::Heartbeat { test: None })?;
                self.sent = moment;
                Ok(effects)
            }
            Tick::Test => {
                let effects = send_one(alloc, Admin::TestRequest)?;
                self.sent = moment;
                self.waiting = Some(moment);
                Ok(effects)
            }
            Tick::Expire => {
                let since = self.received;
                Ok(end_with(alloc, Cause::Silent { since }))
            }
        }
    }

    /// The least moment at which a tick does something, as long as nothing else happens; None where
    /// there is none.
    pub fn due(&self) -> Option<u64>
        ensures some { IfSome result (λ due. (moment : ℕ) → does_nothing_at self.now moment ≡ nat_lt moment due) }
        ensures none { IfNone result ((moment : ℕ) → moment ≤ LAST_MOMENT → does_nothing_at self.now moment ≡ true) }
        ensures limit { IfSome result (λ due. due ≤ LAST_MOMENT) }
    {
        let due = self.next_due()?;
        if due <= LAST_MOMENT { Some(due) } else { None }
    }

    /// The same, also where that number lies past the last moment.
    #[tactic(auto, unfolding(crate::specs::Tick::tick_of), using(crate::proofs::Dues::quiet_before))]
    fn next_due(&self) -> Option<u64>
        ensures some { IfSome result (λ due. (moment : ℕ) → does_nothing_at self.now moment ≡ nat_lt moment due) }
        ensures none { IfNone result ((moment : ℕ) → does_nothing_at self.now moment ≡ true) }
    {
        let heart = match self.phase {
            Phase::Off => return None,
            Phase::Asked { .. } => return Some(self.received + ANSWER_WAIT),
            Phase::On { heart } => heart as u64,
        };
        if heart == 0 {
            return None;
        }
        let beat = self.sent + 1000 * heart;
        match self.waiting {
            Some(since) => Some(beat.min(since + 1000 * heart)),
            None => Some(beat.min(self.received + 1200 * heart)),
        }
    }

    /// Which rule of the clock applies at this moment.
    #[tactic(auto, unfolding(crate::specs::Tick::tick_of))]
    fn tick_at(&self, moment: u64) -> Tick
        ensures { result ≡ tick_of self.now moment }
    {
        let heart = match self.phase {
            Phase::Off => return Tick::Quiet,
            Phase::Asked { .. } => return self.answer_tick(moment),
            Phase::On { heart } => heart as u64,
        };
        if heart == 0 {
            return Tick::Quiet;
        }
        match self.waiting {
            Some(since) if since + 1000 * heart <= moment => Tick::Expire,
            None if self.received + 1200 * heart <= moment => Tick::Test,
            _ if self.sent + 1000 * heart <= moment => Tick::Beat,
            _ => Tick::Quiet,
        }
    }

    /// The same where the session waits for the answer to its Logon.
    fn answer_tick(&self, moment: u64) -> Tick
        ensures { result ≡ (if nat_le (self.now.received + ANSWER_WAIT) moment then Tick.Expire else Tick.Quiet) }
    {
        if self.received + ANSWER_WAIT <= moment {
            Tick::Expire
        } else {
            Tick::Quiet
        }
    }
}

/// Nothing follows. It takes no memory.
fn nothing(alloc: Global) -> Effects
    ensures { result ≡ no_effects }
{
    Effects {
        acts: Rows::of(Vec::new(alloc)),
        end: None,
    }
}

/// One session message is sent.
fn send_one(alloc: Global, admin: Admin) -> Result<Effects, NoMemory>
    ensures { IfOk result (λ effects. effects ≡ record { acts = Act.Send admin ∷ []; end = None }) }
{
    let mut acts = Vec::with_capacity(alloc, 1)?;
    acts.push_reserved(Act::Send(admin));
    Ok(Effects {
        acts: Rows::of(acts),
        end: None,
    })
}

/// The connection is dropped with nothing sent.
fn end_with(alloc: Global, cause: Cause) -> Effects
    ensures { result ≡ record { acts = []; end = Some cause } }
{
    Effects {
        acts: Rows::of(Vec::new(alloc)),
        end: Some(cause),
    }
}

/// The moment of the last sending behind acts of this moment.
fn last_sending(acts: &[Act], before: u64, moment: u64) -> u64
    requires before { before ≤ LAST_MOMENT }
    requires moment { moment ≤ LAST_MOMENT }
    ensures sent { result ≡ (if list_any is_send acts.now then moment else before) }
    ensures limit { result ≤ LAST_MOMENT }
{
    if sends(acts) { moment } else { before }
}

/// Whether one of the acts sends a session message.
fn sends(acts: &[Act]) -> bool
    ensures { result ≡ list_any is_send acts.now }
{
    acts.iter().any(is_send)
}

fn is_send(act: &Act) -> bool
    ensures { result ≡ is_send act.now }
{
    match act {
        Act::Send(_) => true,
        Act::Accept(_) | Act::Resend { .. } | Act::Reset => false,
    }
}
