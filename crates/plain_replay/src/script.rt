//! A script, carried out line by line.

use crate::frames::frame_of;
use crate::links::{FIRST_DIALLED, Link};
use crate::world::World;
use gate_io::NoMemory;
use script_text::{Script, Step};
use std::alloc::Global;

/// The report of a script that was read as one of `replay`.
pub fn plain_report(alloc: Global, script: &Script) -> Result<String, NoMemory> {
    let mut world = World::new(alloc, script, first_moment(script))?;
    for step in script.steps.as_slice() {
        world.carry_out(step)?;
    }
    world.finish()?;
    world.report()
}

/// The moment of the first `at` line.
fn first_moment(script: &Script) -> u64 {
    for step in script.steps.as_slice() {
        if let Step::At { moment } = step {
            return *moment;
        }
    }
    0
}

impl World {
    fn carry_out(&mut self, step: &Step) -> Result<(), NoMemory> {
        match step {
            Step::At { moment } => self.clock = *moment,
            Step::Connect => self.make_link(false)?,
            Step::Take => self.make_link(true)?,
            Step::Turn => self.turn()?,
            Step::Lib { library, act } => {
                let place = usize::from(*library).saturating_sub(1);
                self.call(place, act)?;
            }
            _ => self.carry_out_at(step)?,
        }
        Ok(())
    }

    /// The next connection that comes of itself, or that a dial gets.
    fn make_link(&mut self, dialled: bool) -> Result<(), NoMemory> {
        let first = if dialled { FIRST_DIALLED } else { 0 };
        let same = |link: &&Link| link.is_dialled() == dialled;
        let before = self.links.iter().filter(same).count() as u64;
        let link = Link::new(self.alloc, first.saturating_add(before));
        self.links.push(link)?;
        Ok(())
    }

    /// A line that names a connection.
    fn carry_out_at(&mut self, step: &Step) -> Result<(), NoMemory> {
        let c = match step {
            Step::Bytes { c, .. }
            | Step::Frame { c, .. }
            | Step::Finish { c }
            | Step::FailRead { c }
            | Step::FailWrite { c, .. }
            | Step::Block { c, .. }
            | Step::Unblock { c } => u64::from(*c),
            _ => return Ok(()),
        };
        let alloc = self.alloc;
        for link in &mut self.links {
            if link.number == c {
                link.carry_out(alloc, step)?;
            }
        }
        Ok(())
    }
}

impl Link {
    fn carry_out(&mut self, alloc: Global, step: &Step) -> Result<(), NoMemory> {
        match step {
            Step::Bytes { bytes, .. } => self.give(bytes.as_slice())?,
            Step::Frame { body, .. } => {
                let frame = frame_of(alloc, body.as_slice())?;
                self.give(&frame)?;
            }
            Step::Finish { .. } => self.finished = true,
            Step::FailRead { .. } => self.fails_read = true,
            Step::FailWrite { after, .. } => {
                self.fails_at = Some(self.written.saturating_add(*after));
            }
            Step::Block { after, .. } => {
                self.blocked_at = Some(self.written.saturating_add(*after));
            }
            Step::Unblock { .. } => self.blocked_at = None,
            _ => {}
        }
        Ok(())
    }
}
