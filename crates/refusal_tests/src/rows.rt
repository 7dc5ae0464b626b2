//! Events with the states in which they may leave a session, and how they are tried.

use crate::desk::Desk;
use crate::events::Event;
use crate::states::State;
use gate_io::NoMemory;
use std::alloc::Global;

/// An event behind others, and the states that it may leave.
#[derive(Clone, Copy)]
pub struct Row {
    pub name: &'static str,
    pub before: &'static [Event],
    pub event: Event,
    /// From the one before it to the one behind it, in which it leaves the session where no allocation is
    /// refused. Where one is, it leaves one of the others. One that takes no memory has the last alone.
    pub states: &'static [State],
}

impl Row {
    /// Whether the event comes to what it should, whichever allocation is refused. Where one is refused
    /// before it, that is not asked.
    pub fn holds(&self, alloc: Global, made: Result<Desk, NoMemory>) -> bool {
        match made {
            Ok(mut desk) => self.follows(alloc, &mut desk),
            Err(NoMemory::OutOfMemory) => true,
        }
    }

    /// The event happens behind the others.
    fn follows(&self, alloc: Global, desk: &mut Desk) -> bool {
        match happen_all(alloc, desk, self.before) {
            Ok(true) => self.happens(alloc, desk),
            Ok(false) => false,
            Err(NoMemory::OutOfMemory) => true,
        }
    }

    /// The event happens.
    fn happens(&self, alloc: Global, desk: &mut Desk) -> bool {
        match desk.happen(alloc, self.event) {
            Ok(right) => right && self.ends_at(desk.state()),
            Err(NoMemory::OutOfMemory) => self.stops(alloc, desk),
        }
    }

    /// The event didn't happen. One that is whole or not at all happens once more.
    fn stops(&self, alloc: Global, desk: &mut Desk) -> bool {
        if !self.stops_at(desk.state()) {
            return false;
        }
        self.event.may_begin() || self.happens_again(alloc, desk)
    }

    fn happens_again(&self, alloc: Global, desk: &mut Desk) -> bool {
        match desk.happen(alloc, self.event) {
            Ok(right) => right && self.ends_at(desk.state()),
            Err(NoMemory::OutOfMemory) => false,
        }
    }

    /// Whether this is the state behind the event.
    fn ends_at(&self, state: State) -> bool {
        self.states.last() == Some(&state)
    }

    /// Whether the event may stop in this state where an allocation is refused.
    fn stops_at(&self, state: State) -> bool {
        match self.states.split_last() {
            Some((_behind, others)) => others.contains(&state),
            None => false,
        }
    }
}

/// The events happen, one behind another. Says whether each could, and handed out what it should.
fn happen_all(alloc: Global, desk: &mut Desk, events: &[Event]) -> Result<bool, NoMemory> {
    for event in events {
        if !desk.happen(alloc, *event)? {
            return Ok(false);
        }
    }
    Ok(true)
}
