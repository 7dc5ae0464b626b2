//! A session dials.

ghost use Rattle.std.specs.List.{All};
ghost use Rattle.std.specs.Prelude.{◌≡◌, ◌+◌, ◌<◌, ◌≤◌, ◌↔◌, ℕ, length, IfNone, IfOk, IfSome, IsSome, IsTrue, OnErr, OnOk};
ghost use Rattle.engine_config.specs.declared.config.TheConstants.{MOST_WAIT};
ghost use Rattle.gate_io.specs.Wire.{Dials as TheWireDials, DialsAsPlanned, Door, OthersStay};
ghost use Rattle.gate_io.specs.declared.wires.TheConstants.{FIRST_DIALLED};
ghost use Rattle.lease_desk.specs.Desk.{AllAgree};
ghost use Rattle.session_desk.specs.Steps.{IsSteady, Proceeds};
ghost use Rattle.switchboard.specs.Board.{Board};
ghost use Rattle.switchboard.specs.Going.{GoesOnTo};
ghost use Rattle.wire_desk.specs.Dials.{DialsAs, IsDialDue, IsDialling, IsScheduled, WaitBehindEnded, WaitsBy, WaitsIfEnded, plan_at};
ghost use Rattle.wire_desk.specs.Lines.{IsSetUp, IsWired};
ghost use Rattle.wire_desk.specs.Places.{dialled_behind, open_places};
ghost use Rattle.wire_desk.specs.Stops.{StopsCalling};
ghost use Rattle.wire_desk.specs.declared.dialling.Dialler.{Dialler};

use crate::desk::WireDesk;
use crate::laws::lines_progress;
use engine_config::DialTo;
use gate_io::{Dial, Dialled, LAST_MOMENT, NoMemory};
use lease_desk::LeaseDesk;
use lease_words::Leases;
use session_book::laws::what_is_told_is_queued;
use session_desk::dial as dial_session;
use session_desk::laws::sessions_proceed;
use std::alloc::Global;
use switchboard::laws::{boards_go_on, boards_stay_ready, ready_boards_allow, stops_are_told};

/// The sessions that dial: where to, and when next.
#[derive(Drop)]
pub struct Dialler {
    /// For each session where it dials, or None where it accepts.
    pub plans: Vec<Option<DialTo>>,
    /// For each session the least moment of its next dial, in milliseconds.
    pub next: Vec<u64>,
    /// How many dials succeeded, and how many may.
    pub made: u32,
    pub most: u32,
}

impl Dialler {
    /// Dials for a session where that is due: it dials, is bound to no connection, its moment has come and
    /// not all dials were made. A connection binds the session, which asks for a Logon, behind what its
    /// library did: that is gathered. Behind a dial that failed the session waits, as `wait` says.
    /// Answers what the wire answered, or None where nothing was dialled. A hold that the gathering makes
    /// lapses at the moment `until`.
    pub fn dial<W: Dial>(
        &mut self,
        alloc: Global,
        desk: &mut LeaseDesk,
        leases: &Leases,
        lines: &mut WireDesk,
        wire: &mut W,
        s: u16,
        at: u64,
        until: u64,
    ) -> Result<Option<Dialled>, NoMemory>
        requires moment { at ≤ LAST_MOMENT }
        requires session { s < length desk.old.board.sessions }
        requires set_up { IsSetUp leases.now desk.old lines.old }
        requires wired { IsWired desk.old.board (open_places lines.old) (W.door wire.old) (W.link wire.old) }
        requires dialling { IsDialling desk.old.board (W.door wire.old) self.old }
        ensures unasked { IfOk result (λ answer. IfNone answer (wire.new ≡ wire.old)) }
        ensures answer { IfOk result (λ answer. IfSome answer (λ dialled. TheWireDials (W.door wire.old) (W.door wire.new) (W.link wire.new) dialled)) }
        ensures planned { IfOk result (λ answer. IfSome answer (λ dialled. DialsAsPlanned (W.door wire.old) (W.door wire.new) (W.link wire.old) (W.link wire.new) dialled)) }
        ensures others { OthersStay (W.link wire.old) (W.link wire.new) (FIRST_DIALLED + (W.door wire.old).dialled) }
        ensures address { IfOk result (λ answer. IfSome answer (λ dialled. IfSome (plan_at self.old s) (λ plan. W.dial_gives wire.old plan.address dialled wire.new))) }
        ensures dials { IfOk result (λ answer. DialsAs answer s at until desk.old desk.new self.old self.new) }
        ensures stops { OnErr result (StopsCalling (W.door wire.old).dialled s at until desk.old desk.new) }
        ensures proceeds { OnOk result (Proceeds desk.old.board desk.new.board) }
        ensures set_up { OnOk result (IsSetUp leases.now desk.new lines.new) }
        ensures wired { OnOk result (IsWired desk.new.board (open_places lines.new) (W.door wire.new) (W.link wire.new)) }
        ensures dialling { OnOk result (IsDialling desk.new.board (W.door wire.new) self.new) }
        ensures agree { AllAgree desk.new.board desk.new.seat }
        ensures one_comes { length desk.new.board.connections ≤ length desk.old.board.connections + 1 }
        // Memory is asked for only where a dial is due.
        ensures err_due { OnErr result (IsDialDue desk.old.board self.old s at) }
        ensures sessions_stay { length desk.new.board.sessions ≡ length desk.old.board.sessions }
        ensures lines { lines.new ≡ record lines.old { dialled = lines.new.dialled } }
        ensures listed { IfOk result (λ answer. lines.new.dialled.items ≡ dialled_behind answer (length desk.old.board.connections) lines.old.dialled.items) }
    {
        lines_progress();
        dialling_goes_on();
        sessions_proceed();
        boards_go_on();
        boards_stay_ready();
        what_is_told_is_queued();
        stops_are_told();
        if !self.is_due(desk, s, at) {
            return Ok(None);
        }
        lines.dialled.reserve(1)?;
        let dialled = self.call_up(wire, s);
        match dialled {
            Dialled::New(number) => {
                let k = dial_session(alloc, desk, leases, s, number, at, until)?;
                lines.dialled.push(k).unwrap();
                self.made += 1;
            }
            Dialled::Failed => self.wait(s, at),
        }
        Ok(Some(dialled))
    }

    /// A connection of a session that dials has ended, or its dial failed: the least moment of its next
    /// dial is the `wait` of its plan behind this one. Of a session that accepts nothing changes.
    pub fn wait(&mut self, s: u16, at: u64)
        requires moment { at ≤ LAST_MOMENT }
        requires session { s < length self.old.plans.items }
        requires next { length self.old.next.items ≡ length self.old.plans.items }
        requires short { IfSome (plan_at self.old s) (λ plan. plan.wait ≤ MOST_WAIT) }
        ensures { WaitsBy (plan_at self.old s) s at self.old self.new }
    {
        let s = usize::from(s);
        if let Some(plan) = &self.plans[s] {
            self.next[s] = at + plan.wait;
        }
    }

    /// The session of each dialled connection that has ended waits: of those that are listed.
    pub(crate) fn wait_behind_ended(&mut self, desk: &LeaseDesk, lines: &WireDesk, at: u64)
        requires moment { at ≤ LAST_MOMENT }
        requires steady { IsSteady desk.now.board desk.now.seat }
        requires listed { All (λ k. k < length desk.now.board.connections) lines.now.dialled.items }
        requires scheduled { IsScheduled desk.now.board self.old }
        ensures waits { WaitBehindEnded desk.now.board lines.now.dialled.items at self.old self.new }
        ensures scheduled { IsScheduled desk.now.board self.new }
        ensures rest { self.new ≡ record self.old { next = self.new.next } }
    {
        for i in 0..lines.dialled.len() {
            self.wait_if_ended(desk, lines.dialled[i], at);
        }
    }

    /// The session of a connection waits, if that has ended.
    fn wait_if_ended(&mut self, desk: &LeaseDesk, k: usize, at: u64)
        requires moment { at ≤ LAST_MOMENT }
        requires steady { IsSteady desk.now.board desk.now.seat }
        requires connection { k < length desk.now.board.connections }
        requires scheduled { IsScheduled desk.now.board self.old }
        ensures waits { WaitsIfEnded desk.now.board at k self.old self.new }
        ensures scheduled { IsScheduled desk.now.board self.new }
        ensures rest { self.new ≡ record self.old { next = self.new.next } }
    {
        ready_boards_allow();
        dialling_goes_on();
        let connection = desk.board.connection(k);
        if !connection.has_ended() {
            return;
        }
        if let Some(s) = connection.session() {
            self.wait(s, at);
        }
    }

    /// Whether a dial is due for a session.
    fn is_due(&self, desk: &LeaseDesk, s: u16, at: u64) -> bool
        requires session { s < length desk.now.board.sessions }
        requires plans { s < length self.now.plans.items }
        requires next { s < length self.now.next.items }
        ensures { IsTrue result ↔ IsDialDue desk.now.board self.now s at }
    {
        let s = usize::from(s);
        self.plans[s].is_some()
            && desk.board.place(s).is_none()
            && self.next[s] <= at
            && self.made < self.most
    }

    /// Calls up the address to which a session dials.
    fn call_up<W: Dial>(&self, wire: &mut W, s: u16) -> Dialled
        requires session { s < length self.now.plans.items }
        requires dials { IsSome (plan_at self.now s) }
        ensures dials { TheWireDials (W.door wire.old) (W.door wire.new) (W.link wire.new) result }
        ensures planned { DialsAsPlanned (W.door wire.old) (W.door wire.new) (W.link wire.old) (W.link wire.new) result }
        ensures address { IfSome (plan_at self.now s) (λ plan. W.dial_gives wire.old plan.address result wire.new) }
        ensures others { OthersStay (W.link wire.old) (W.link wire.new) (FIRST_DIALLED + (W.door wire.old).dialled) }
    {
        let plan = self.plans[usize::from(s)].as_ref().unwrap();
        wire.dial(plan.address.as_str())
    }
}

/// The sessions that dial stay those, whatever happens on the board, and whichever of them waits.
pub fn dialling_goes_on()
    ensures boards { (old new : Board) (before after : Door) (d : Dialler) → GoesOnTo old new → after.dialled ≡ before.dialled → IsDialling old before d → IsDialling new after d }
    ensures waits { (board : Board) (door : Door) (s at : ℕ) (old new : Dialler) → WaitsBy (plan_at old s) s at old new → IsDialling board door old → IsDialling board door new }
    ensures waits_on { (board : Board) (s at : ℕ) (old new : Dialler) → WaitsBy (plan_at old s) s at old new → IsScheduled board old → IsScheduled board new }
{}
