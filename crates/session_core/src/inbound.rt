//! The number line of what comes in, with what is left to do for each early message.

ghost use Rattle.std.specs.Prelude.{◌≡◌, ◌+◌, ◌≤◌, if◌then◌else◌, is_some, IfOk};
ghost use Rattle.std.specs.FinMap as map;
ghost use Rattle.seq_gaps.specs.Line.{IsNumber, IsLine, fresh_line, after_fill, after_taking, after_clear};
ghost use Rattle.seq_gaps.specs.Offers.{answer_to_offer, after_offer, more_held};
ghost use Rattle.session_core.specs.Carry.{after_fill_to};
ghost use Rattle.session_core.specs.Holding.{is_held};

use crate::tasks::Task;
use gate_io::NoMemory;
use seq_gaps::{Expect, HELD_LIMIT, MAX_NUMBER, Offered, Place};
use std::alloc::Global;
use std::marker::Model;

/// A number line that knows how many messages it holds at most, so that their acts find room before
/// anything changes. Contracts see the line.
#[derive(Debug, Drop)]
pub(crate) struct Inbound {
    line: Expect<Task>,
    most_held: usize,
}

impl Model for Inbound {
    ghost use Rattle.seq_gaps.specs.Line.{Line, line_code};
    ghost use Rattle.session_core.specs.declared.tasks.Task.{Task};
    ghost use Rattle.session_core.specs.contracts.tasks.Task as task;
    ghost use Rattle.session_core.specs.Holding.{HoldsAtMost};

    ghost Value = { Line Task };

    ghost coded = { line_code task.the_row.coded };

    ghost view = { λ a. a.line };

    ghost invariant = { λ a. HoldsAtMost a.line a.most_held };
}

impl Inbound {
    /// A line that expects this number, with nothing held.
    pub(crate) fn expecting(alloc: Global, expected: u32) -> Result<Inbound, NoMemory>
        requires from { 1 ≤ expected }
        requires to { expected ≤ MAX_NUMBER + 1 }
        ensures { IfOk result (λ line. line ≡ after_fill fresh_line expected) }
    {
        let mut line = Expect::new(alloc)?;
        line.fill(expected);
        Ok(Inbound { line, most_held: 0 })
    }

    /// A line that expects number 1, with nothing held.
    pub(crate) fn new(alloc: Global) -> Result<Inbound, NoMemory>
        ensures { IfOk result (λ line. line ≡ fresh_line) }
    {
        let line = Expect::new(alloc)?;
        Ok(Inbound { line, most_held: 0 })
    }

    pub(crate) fn next_number(&self) -> u32
        ensures number { result ≡ self.now.expected }
        ensures line { IsLine self.now }
    {
        self.line.next_number()
    }

    /// No fewer than it holds, and no more than it can.
    pub(crate) fn most_held(&self) -> usize
        ensures held { map.len self.now.held ≤ result }
        ensures limit { result ≤ HELD_LIMIT }
    {
        self.most_held
    }

    pub(crate) fn offer(&mut self, n: u32, task: Task) -> Offered<Task>
        requires { IsNumber n }
        ensures answer { result ≡ answer_to_offer self.old n task }
        ensures line { self.new ≡ after_offer self.old n task }
        ensures held { map.len self.new.held ≤ map.len self.old.held + more_held result.place }
    {
        let answer = self.line.offer(n, task);
        if is_held(&answer.place) {
            self.most_held = HELD_LIMIT.min(self.most_held + 1);
        }
        answer
    }

    /// Takes what is held of the expected number, which is counted then.
    pub(crate) fn take_ready(&mut self) -> Option<Task>
        ensures item { result ≡ map.get self.old.held self.old.expected }
        ensures line { self.new ≡ after_taking self.old }
        ensures held { map.len self.new.held + (if is_some result then 1 else 0) ≤ map.len self.old.held }
    {
        let task = self.line.take_ready()?;
        self.most_held -= 1;
        Some(task)
    }

    /// Counts the numbers below `to`, where that goes forward.
    #[tactic(auto, unfolding(crate::specs::Carry::after_fill_to))]
    pub(crate) fn fill_to(&mut self, to: u32)
        ensures line { self.new ≡ after_fill_to self.old to }
        ensures held { map.len self.new.held ≤ map.len self.old.held }
    {
        if self.line.next_number() <= to && to <= MAX_NUMBER + 1 {
            self.line.fill(to);
        }
    }

    /// The connection ended.
    pub(crate) fn clear(&mut self)
        ensures { self.new ≡ after_clear self.old }
    {
        self.line.clear();
        self.most_held = 0;
    }

    /// The numbers begin again at 1.
    pub(crate) fn restart(&mut self)
        ensures line { self.new ≡ fresh_line }
        ensures held { map.len self.new.held ≡ 0 }
    {
        self.line.restart();
        self.most_held = 0;
    }
}

fn is_held(place: &Place<Task>) -> bool
    ensures { result ≡ is_held place.now }
{
    match place {
        Place::Held => true,
        Place::Now(_) | Place::Known(_) | Place::NoRoom(_) => false,
    }
}
