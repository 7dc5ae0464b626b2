//! Steps on a desk as data, and how they are made one after another.

use crate::checks::holds;
use crate::desk::Desk;
use crate::texts::{MORNING, is_text};
use connection_core::{ConnRecord, Connection};
use gate_io::NoMemory;
use resend_plan::WireItem;
use session_core::Cause;
use std::alloc::Global;
use std::process::Abort;

/// What happens to a session's log and to the connection on which its items wait.
#[derive(Clone, Copy, Debug)]
pub enum Step {
    /// An entry of this morning is pushed; whether it is a session entry, and its body.
    Push(bool, &'static str),
    /// The numbers begin again.
    TurnOver,
    Queue(WireItem),
    /// Prepared up to so many bytes, this text waits.
    Waits(usize, &'static str),
    /// At most so many bytes were written, and so many items wait then.
    Wrote(usize, u64),
    /// The Logon is answered.
    Answer,
    End(Cause),
}

/// Makes a step, and says whether all is as it should be.
fn play(alloc: Global, desk: &mut Desk, step: Step) -> Result<bool, NoMemory> {
    match step {
        Step::Push(admin, body) => desk.push(alloc, admin, body)?,
        Step::TurnOver => desk.turn_over(alloc)?,
        Step::Queue(item) => desk.queue(item)?,
        Step::Waits(limit, text) => {
            let waiting = desk.waiting(alloc, limit)?;
            return Ok(is_text(waiting.as_slice(), text));
        }
        Step::Wrote(bytes, waiting) => {
            desk.write(bytes);
            return Ok(desk.waiting_items() == waiting);
        }
        Step::Answer => desk.answer(),
        Step::End(cause) => desk.end(cause),
    }
    Ok(true)
}

fn play_all(
    rt: &impl Abort,
    alloc: Global,
    mut desk: Desk,
    steps: &[Step],
) -> Result<ConnRecord, NoMemory> {
    for step in steps {
        let is_right = play(alloc, &mut desk, *step)?;
        holds(rt, is_right, &step);
    }
    Ok(desk.into_record())
}

/// Makes the steps in order on a connection that was accepted. What it leaves is answered.
pub fn follow(rt: &impl Abort, alloc: Global, steps: &[Step]) -> Result<ConnRecord, NoMemory> {
    let desk = Desk::new(alloc, Connection::accepted(alloc, 0, MORNING)?)?;
    play_all(rt, alloc, desk, steps)
}

/// The same on one that was dialled.
pub fn follow_dialled(
    rt: &impl Abort,
    alloc: Global,
    steps: &[Step],
) -> Result<ConnRecord, NoMemory> {
    let desk = Desk::new(alloc, Connection::dialled(alloc, 0, MORNING, 3)?)?;
    play_all(rt, alloc, desk, steps)
}
