//! A turn, of which each library is told by the gate, and behind which the wire may wait.

ghost use Rattle.std.specs.Prelude.{◌≡◌, ◌≤◌, ℕ, [], ◌∷◌, IfOk, IsErr, OnErr, OnOk, false, length, true};
ghost use Rattle.std.specs.List.{list_any};
ghost use Rattle.engine_loop.specs.Due.{IsQuietFor};
ghost use Rattle.engine_loop.specs.Engines.{IsEngine};
ghost use Rattle.engine_loop.specs.Pausing.{MakesAndWaits, has_bytes, is_answer, is_idle, is_new};
ghost use Rattle.engine_loop.specs.Stops.{StopsTurn};
ghost use Rattle.engine_loop.specs.Turns.{MakesTurn, at_wire};
ghost use Rattle.gate_io.specs.Clock.{TakesReadings};
ghost use Rattle.gate_io.specs.Counts.{HasRisen};
ghost use Rattle.lease_core.specs.declared.limits.TheConstants.{MOST_LIBRARIES};

use crate::engine::Engine;
use crate::laws::engines_stay;
use crate::records::Turn;
use gate_io::{Accepted, Clock, Dial, Gate, NoMemory, WireGot};
use library_desk::{LibTurn, Shared};
use std::alloc::Global;

impl Engine {
    /// A turn. Each library is told of by the gate, so that one that waits can be woken. Behind an idle turn the wire
    /// pauses, until something can be done or is due. So a thread that makes turn after turn rests while nothing comes.
    pub fn turn_and_pause<W: Dial, C: Clock, G: Gate>(
        &mut self,
        alloc: Global,
        shared: &Shared,
        wire: &mut W,
        clock: &mut C,
        gate: &G,
    ) -> Result<Turn, NoMemory>
        requires engine { IsEngine shared.now self.old (W.door wire.old) (W.link wire.old) }
        ensures makes { IfOk result (λ turn. MakesAndWaits (C.last clock.new) turn (at_wire self.old (W.door wire.old) (W.link wire.old)) (at_wire self.new (W.door wire.new) (W.link wire.new))) }
        // Behind an idle turn the wire pauses, for as long as nothing is due.
        ensures pauses { IfOk result (λ turn. is_idle turn ≡ true → (made : W) × (ms : ℕ) × MakesTurn (C.last clock.new) (at_wire self.old (W.door wire.old) (W.link wire.old)) (at_wire self.new (W.door made) (W.link made)) turn × IsQuietFor self.new ms × W.pause_gives made ms wire.new) }
        ensures clock { OnOk result (HasRisen (C.readings clock.old) (C.readings clock.new)) }
        // The clock was read once.
        ensures reading { OnOk result (C.now_gives clock.old (C.last clock.new) clock.new) }
        ensures readings { OnOk result (TakesReadings C.has_read clock.old (C.last clock.new ∷ []) clock.new) }
        ensures engine { IsEngine shared.now self.new (W.door wire.new) (W.link wire.new) }
        ensures goes_on { OnOk result (self.new.failed ≡ false) }
        ensures failed { OnErr result (self.new.failed ≡ true) }
        // Without memory the steps before one are made, and of that a beginning.
        ensures stops { self.old.failed ≡ false → OnErr result (StopsTurn (C.last clock.new) (at_wire self.old (W.door wire.old) (W.link wire.old)) self.new) }
        // An engine for which memory was wanting does nothing.
        ensures stands_still { self.old.failed ≡ true → IsErr result }
        ensures engine_stays { self.old.failed ≡ true → self.new ≡ self.old }
        ensures wire_stays { self.old.failed ≡ true → wire.new ≡ wire.old }
        ensures clock_stays { self.old.failed ≡ true → clock.new ≡ clock.old }
    {
        engines_stay();
        let turn = self.turn(alloc, shared, wire, clock)?;
        self.tell_gate(gate);
        if turn.is_idle() {
            wire.pause(self.quiet_for());
        }
        Ok(turn)
    }

    /// The gate is told of each library, in the order of their numbers, how many notices it was told in all.
    fn tell_gate<G: Gate>(&self, gate: &G)
        requires { length self.now.sessions.ends.items ≤ MOST_LIBRARIES }
    {
        for i in 0..self.sessions.ends.len() {
            let library = i as u8 + 1;
            gate.turned(u32::from(library), self.told(library));
        }
    }
}

impl Turn {
    /// Whether in the turn no connection was accepted, no byte read or written, and no request answered. Dials, ends and
    /// faults of connections don't count, and neither do sends that were gathered.
    pub fn is_idle(&self) -> bool
        ensures { result ≡ is_idle self.now }
    {
        !is_new(&self.accepted)
            && self.written == 0
            && !any_bytes(self.reads.as_slice())
            && !any_answer(self.libs.as_slice())
    }
}

fn is_new(accepted: &Accepted) -> bool
    ensures { result ≡ is_new accepted.now }
{
    matches!(accepted, Accepted::New(_))
}

fn any_bytes(reads: &[(u32, WireGot)]) -> bool
    ensures { result ≡ list_any has_bytes reads.now }
{
    reads.iter().any(has_bytes)
}

fn has_bytes(read: &(u32, WireGot)) -> bool
    ensures { result ≡ has_bytes read.now }
{
    matches!(read.1, WireGot::Bytes(_))
}

fn any_answer(turns: &[LibTurn]) -> bool
    ensures { result ≡ list_any is_answer turns.now }
{
    turns.iter().any(is_answer)
}

fn is_answer(turn: &LibTurn) -> bool
    ensures { result ≡ is_answer turn.now }
{
    matches!(turn, LibTurn::Answered { .. })
}
