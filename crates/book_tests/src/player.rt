//! The session of a row, with which its steps are made.

use crate::comings::come;
use crate::desk::Desk;
use crate::facts::what_is;
use crate::leases::perform;
use crate::steps::{Step, read_step};
use gate_io::NoMemory;
use row_text::{Course, Fault, Step as Line, done, fault_of, legible, said, shown};
use std::alloc::Global;

/// A desk, and how many of its entries were told.
#[derive(Drop)]
pub struct Player {
    desk: Desk,
    told: usize,
}

impl Player {
    pub fn new(desk: Desk) -> Player {
        Player { desk, told: 0 }
    }

    // Makes a step. Answers what it comes to.
    fn make(&mut self, alloc: Global, step: Step<'_>) -> Result<Option<String>, NoMemory> {
        let desk = &mut self.desk;
        match step {
            Step::At(past) => {
                desk.set(past);
                Ok(None)
            }
            Step::Ticks => {
                desk.tick(alloc)?;
                Ok(None)
            }
            Step::Comes(coming) => done(alloc, come(alloc, desk, coming)?),
            Step::OfLease(act) => perform(alloc, desk, act),
            Step::Writes(most) => written(alloc, desk.write(alloc, most)?.as_slice()),
            Step::WritesPast(most) => written(alloc, desk.write_past(alloc, most)?.as_slice()),
            Step::Tells => self.news(alloc),
            Step::Is(fact) => what_is(alloc, desk, fact),
        }
    }

    // The entries that came since the last call.
    fn news(&mut self, alloc: Global) -> Result<Option<String>, NoMemory> {
        let all = self.desk.book().entries();
        let Some((_, news)) = all.split_at_checked(self.told) else {
            return said(alloc, "fewer entries than before");
        };
        self.told = all.len();
        shown(alloc, &news)
    }

    // Makes the step on a line. Answers what isn't as it says.
    fn follow<'a>(&mut self, alloc: Global, line: Line<'a>) -> Result<Option<Fault<'a>>, NoMemory> {
        let Some((step, wanted)) = read_step(line.text) else {
            return Ok(Some(Fault::Unclear(line)));
        };
        let found = self.make(alloc, step)?;
        Ok(fault_of(line.line, wanted, found))
    }

    /// Makes the steps in order, up to the first fault.
    pub fn follow_on<'a>(
        &mut self,
        alloc: Global,
        lines: &[Line<'a>],
    ) -> Result<Course<'a>, NoMemory> {
        let mut steps = 0u64;
        for line in lines {
            if let Some(fault) = self.follow(alloc, *line)? {
                let fault = Some(fault);
                return Ok(Course { steps, fault });
            }
            steps = steps.saturating_add(1);
        }
        Ok(Course { steps, fault: None })
    }
}

// What was written.
fn written(alloc: Global, bytes: &[u8]) -> Result<Option<String>, NoMemory> {
    if bytes.is_empty() {
        return said(alloc, "nothing");
    }
    Ok(Some(legible(alloc, bytes)?))
}
