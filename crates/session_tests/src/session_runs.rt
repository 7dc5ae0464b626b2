//! Generated runs of messages and ticks, each beside the plain telling of the rules.

use crate::desk::Desk;
use crate::draw_text::{draw_logon, draw_message};
use crate::plain_session::PlainSession;
use crate::texts::soh;
use crate::unlike::{Unlike, same};
use draws::Draw;
use gate_io::{LAST_MOMENT, NoMemory};
use std::alloc::Global;

/// The seed of all draws.
const SEED: u64 = 2027;

/// How many runs are made, each of so many messages and ticks.
const RUNS: u32 = 300;

const STEPS: u32 = 120;

/// The machine and the plain telling, which get the same calls.
#[derive(Drop)]
struct Both {
    fast: Desk,
    plain: PlainSession,
}

impl Both {
    fn new(alloc: Global) -> Result<Both, NoMemory> {
        Ok(Both {
            fast: Desk::new(alloc)?,
            plain: PlainSession::new(alloc),
        })
    }

    /// When a tick does something: it does so from that moment on, and not before.
    fn compare_due(&self, alloc: Global, place: &str) -> Result<(), Unlike> {
        match self.fast.due() {
            Some(due) => {
                let before = self.plain.is_due(due.wrapping_sub(1));
                let plain = (before, self.plain.is_due(due));
                same(alloc, &(false, true), &plain, &(place, "due", due))
            }
            None => {
                let plain = self.plain.is_due(LAST_MOMENT);
                same(alloc, &false, &plain, &(place, "never due"))
            }
        }
    }

    /// What followed on both, and what both are then. Where the connection is over, both leave it.
    fn compare(&mut self, alloc: Global, found: &str) -> Result<(), Unlike> {
        let (plain, over) = self.plain.told(alloc)?;
        let plain = plain.as_str();
        same(alloc, &found, &plain, &self.fast.moment())?;
        let expected = self.fast.expected();
        same(alloc, &expected, &self.plain.expected, &(plain, "expects"))?;
        self.compare_due(alloc, plain)?;
        if over {
            self.fast.leave();
            self.plain.leave();
        }
        Ok(())
    }

    fn tick(&mut self, alloc: Global, by: u32) -> Result<(), Unlike> {
        self.fast
            .set(self.fast.moment().saturating_add(u64::from(by)));
        let found = self.fast.tick(alloc)?;
        self.plain.tick(alloc, self.fast.moment())?;
        self.compare(alloc, found.as_str())
    }

    fn receive(&mut self, alloc: Global, draw: &mut Draw) -> Result<(), Unlike> {
        let text = draw_body(alloc, draw, self.plain.is_on(), self.plain.expected)?;
        let found = self.fast.receive(alloc, text.as_str())?;
        let body = soh(alloc, text.as_str())?;
        let moment = self.fast.moment();
        self.plain.receive(alloc, body.as_slice(), moment)?;
        self.compare(alloc, found.as_str())
    }

    fn step(&mut self, alloc: Global, draw: &mut Draw) -> Result<(), Unlike> {
        if draw.below(5) == 0 {
            return self.tick(alloc, draw.below(9_000));
        }
        self.receive(alloc, draw)
    }
}

// A message, or a Logon where the session isn't bound.
fn draw_body(
    alloc: Global,
    draw: &mut Draw,
    is_on: bool,
    expected: u32,
) -> Result<String, NoMemory> {
    if is_on {
        draw_message(alloc, draw, expected)
    } else {
        draw_logon(alloc, draw, expected)
    }
}

fn try_run(alloc: Global, draw: &mut Draw) -> Result<(), Unlike> {
    let mut both = Both::new(alloc)?;
    for _ in 0..STEPS {
        both.step(alloc, draw)?;
    }
    Ok(())
}

/// Makes the runs, and compares each with a plain telling of it. Says how many it made.
pub fn compare_all(alloc: Global) -> Result<u32, Unlike> {
    let mut draw = Draw::new(SEED);
    for _ in 0..RUNS {
        try_run(alloc, &mut draw)?;
    }
    Ok(RUNS)
}
