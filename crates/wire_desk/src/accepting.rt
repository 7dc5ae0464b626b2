//! A connection is accepted.

ghost use Rattle.std.specs.Prelude.{◌≡◌, ◌+◌, ◌<◌, ◌≤◌, length, IfOk, OnOk, OnErr};
ghost use Rattle.gate_io.specs.Wire.{Accepts as TheWireAccepts, AcceptsAsPlanned, OthersStay};
ghost use Rattle.gate_io.specs.declared.wires.TheConstants.{MOST_CONNECTIONS};
ghost use Rattle.connection_core.specs.Connection.{room};
ghost use Rattle.connection_core.specs.declared.limits.TheConstants.{MOST_READ};
ghost use Rattle.lease_desk.specs.Desk.{AllAgree};
ghost use Rattle.session_desk.specs.Steps.{IsSteady};
ghost use Rattle.switchboard.specs.Board.{connection_at};
ghost use Rattle.switchboard.specs.Going.{GoesOnTo};
ghost use Rattle.switchboard.specs.Happenings.{Happens, IsNewNumber, accepts};
ghost use Rattle.switchboard.specs.Stops.{NothingIsTold};
ghost use Rattle.wire_desk.specs.Lines.{IsSetUp, IsWired};
ghost use Rattle.wire_desk.specs.Places.{listed_behind, open_places};
ghost use Rattle.wire_desk.specs.Steps.{AcceptsAs};

use crate::desk::WireDesk;
use crate::laws::lines_progress;
use gate_io::{Accepted, LAST_MOMENT, NoMemory, Wire};
use lease_desk::LeaseDesk;
use lease_desk::laws::boards_stay_in_step;
use lease_words::Leases;
use session_desk::laws::sessions_proceed;
use std::alloc::Global;
use switchboard::laws::{boards_go_on, boards_stay_ready, stops_are_told};

impl WireDesk {
    /// Takes the next connection that waits at the wire, if one does.
    pub fn accept<W: Wire>(
        &mut self,
        alloc: Global,
        desk: &mut LeaseDesk,
        leases: &Leases,
        wire: &mut W,
        at: u64,
    ) -> Result<Accepted, NoMemory>
        requires few { (W.door wire.old).accepted < MOST_CONNECTIONS }
        requires moment { at ≤ LAST_MOMENT }
        requires set_up { IsSetUp leases.now desk.old self.old }
        requires wired { IsWired desk.old.board (open_places self.old) (W.door wire.old) (W.link wire.old) }
        ensures answer { IfOk result (λ accepted. TheWireAccepts (W.door wire.old) (W.door wire.new) (W.link wire.new) accepted) }
        ensures accepts { IfOk result (λ accepted. AcceptsAs accepted at desk.old desk.new) }
        ensures nothing { OnErr result (NothingIsTold desk.old.board desk.new.board) }
        ensures set_up { OnOk result (IsSetUp leases.now desk.new self.new) }
        ensures wired { OnOk result (IsWired desk.new.board (open_places self.new) (W.door wire.new) (W.link wire.new)) }
        ensures agree { AllAgree desk.new.board desk.new.seat }
        ensures one_comes { length desk.new.board.connections ≤ length desk.old.board.connections + 1 }
        ensures sessions_stay { length desk.new.board.sessions ≡ length desk.old.board.sessions }
        ensures exact { IfOk result (λ accepted. W.accept_gives wire.old accepted wire.new) }
        ensures planned { IfOk result (λ accepted. AcceptsAsPlanned (W.door wire.old) (W.door wire.new) (W.link wire.old) (W.link wire.new) accepted) }
        ensures others { OthersStay (W.link wire.old) (W.link wire.new) (W.door wire.old).accepted }
        ensures rest { self.new ≡ record self.old { accepted = self.new.accepted } }
        ensures listed { IfOk result (λ accepted. self.new.accepted.items ≡ listed_behind accepted (length desk.old.board.connections) self.old.accepted.items) }
    {
        lines_progress();
        stops_are_told();
        self.accepted.reserve(1)?;
        let accepted = wire.accept();
        if let Accepted::New(number) = accepted {
            let k = add(alloc, desk, number, at)?;
            self.accepted.push(k).unwrap();
        }
        Ok(accepted)
    }
}

/// A connection comes, under a number that no other has.
fn add(alloc: Global, desk: &mut LeaseDesk, number: u32, at: u64) -> Result<usize, NoMemory>
    requires moment { at ≤ LAST_MOMENT }
    requires new_number { IsNewNumber desk.old.board number }
    requires steady { IsSteady desk.old.board desk.old.seat }
    ensures nothing { OnErr result (NothingIsTold desk.old.board desk.new.board) }
    ensures accepts { OnOk result (Happens (accepts number at) desk.old.board desk.new.board) }
    ensures place { IfOk result (λ k. k ≡ length desk.old.board.connections) }
    ensures room { IfOk result (λ k. MOST_READ ≤ room (connection_at desk.new.board k)) }
    ensures goes_on { OnOk result (GoesOnTo desk.old.board desk.new.board) }
    ensures steady { IsSteady desk.new.board desk.new.seat }
    ensures agree { AllAgree desk.new.board desk.new.seat }
    ensures one_comes { length desk.new.board.connections ≤ length desk.old.board.connections + 1 }
    ensures sessions_stay { length desk.new.board.sessions ≡ length desk.old.board.sessions }
    ensures seat { desk.new.seat ≡ desk.old.seat }
{
    boards_stay_ready();
    boards_stay_in_step();
    boards_go_on();
    stops_are_told();
    let k = desk.board.accept(alloc, number, at)?;
    Ok(k)
}
