//! Carrying out a step: what it does to the number line, and which acts follow. Nothing here wants
//! memory: the acts have their room before.

ghost use Rattle.std.specs.Prelude.{◌≡◌, ◌+◌, ◌<◌, ◌≤◌, [], if◌then◌else◌, vec_len, vec_capacity};
ghost use Rattle.std.specs.FinMap as map;
ghost use Rattle.seq_gaps.specs.Line.{IsNumber, after_clear};
ghost use Rattle.session_core.specs.Carry.{after_fill_to, after_carrying, after_draining, with_request, after_handling, closing_acts, after_step, end_of, IsNumbered};

use crate::acts::{Act, Admin};
use crate::causes::Cause;
use crate::inbound::Inbound;
use crate::steps::Step;
use crate::tasks::Task;
use gate_io::Bytes;
use seq_gaps::{Gap, HELD_LIMIT, Place};

/// The most acts that follow from a message, beside those of the messages held before.
pub(crate) const OWN_ACTS: usize = 3;

/// Carries out a step for a message with this body, and answers the cause by which it ends the
/// connection.
pub(crate) fn carry_step(
    line: &mut Inbound,
    acts: &mut Vec<Act>,
    step: Step,
    body: Vec<u8>,
) -> Option<Cause>
    requires empty { acts.old.items ≡ [] }
    requires room { OWN_ACTS + map.len line.old.held ≤ vec_capacity acts.old }
    requires number { IsNumbered step }
    ensures progress { record { line = line.new; acts = acts.new.items } ≡ after_step line.old step body.items }
    ensures end { result ≡ end_of step }
{
    match step {
        Step::Ignore => None,
        Step::Refuse(admin) => {
            acts.push_reserved(Act::Send(admin));
            None
        }
        Step::Close {
            first,
            last,
            cause,
            counts,
        } => {
            close(line, acts, first, last, counts);
            Some(cause)
        }
        Step::Move { to } => {
            line.fill_to(to);
            drain(line, acts);
            None
        }
        Step::Deliver { number } => {
            handle(line, acts, number, Task::Do(Act::Accept(Bytes::of(body))));
            None
        }
        Step::Handle {
            number,
            at_once,
            task,
        } => {
            if let Some(act) = at_once {
                acts.push_reserved(act);
            }
            handle(line, acts, number, task);
            None
        }
    }
}

/// The connection ends behind one message or two. The number is counted, or not, and what is held is
/// dropped.
fn close(line: &mut Inbound, acts: &mut Vec<Act>, first: Option<Admin>, last: Admin, counts: bool)
    requires empty { acts.old.items ≡ [] }
    requires room { OWN_ACTS ≤ vec_capacity acts.old }
    ensures line { line.new ≡ after_clear (if counts then after_fill_to line.old (line.old.expected + 1) else line.old) }
    ensures acts { acts.new.items ≡ closing_acts first last }
{
    if counts {
        let next = line.next_number() + 1;
        line.fill_to(next);
    }
    line.clear();
    if let Some(first) = first {
        acts.push_reserved(Act::Send(first));
    }
    acts.push_reserved(Act::Send(last));
}

/// Offers a message to the line with its number and what it asks for: on its number it is carried
/// out, and then those held behind it; an early one is held while there is room, and a gap that it
/// shows then is asked for. FIX 4.4, volume 2, "Ordered Message Processing", "Message Recovery".
#[tactic(auto, unfolding(crate::specs::Carry::after_handling))]
pub(crate) fn handle(line: &mut Inbound, acts: &mut Vec<Act>, number: u32, task: Task)
    requires number { IsNumber number }
    requires room { vec_len acts.old + map.len line.old.held + 1 ≤ vec_capacity acts.old }
    ensures { record { line = line.new; acts = acts.new.items } ≡ after_handling (record { line = line.old; acts = acts.old.items }) number task }
{
    let answer = line.offer(number, task);
    match answer.place {
        Place::Now(task) => {
            carry(line, acts, task);
            drain(line, acts);
        }
        Place::Held => ask(acts, answer.gap),
        Place::Known(_) | Place::NoRoom(_) => {}
    }
}

/// Asks for a gap. FIX 4.4, volume 2, "Resend Request".
fn ask(acts: &mut Vec<Act>, gap: Option<Gap>)
    requires { vec_len acts.old < vec_capacity acts.old }
    ensures { acts.new.items ≡ with_request acts.old.items gap }
{
    if let Some(gap) = gap {
        acts.push_reserved(Act::Send(Admin::ResendRequest {
            begin: gap.from,
            last: gap.to,
        }));
    }
}

/// Carries out each held message whose number is the expected one, in order.
fn drain(line: &mut Inbound, acts: &mut Vec<Act>)
    requires { vec_len acts.old + map.len line.old.held ≤ vec_capacity acts.old }
    ensures { record { line = line.new; acts = acts.new.items } ≡ after_draining HELD_LIMIT (record { line = line.old; acts = acts.old.items }) }
{
    for i in 0..HELD_LIMIT {
        match line.take_ready() {
            Some(task) => carry(line, acts, task),
            None => return,
        }
    }
}

/// Carries out what a message asks for on its number.
fn carry(line: &mut Inbound, acts: &mut Vec<Act>, task: Task)
    requires { vec_len acts.old < vec_capacity acts.old }
    ensures progress { record { line = line.new; acts = acts.new.items } ≡ after_carrying (record { line = line.old; acts = acts.old.items }) task }
    ensures len { vec_len acts.new ≤ vec_len acts.old + 1 }
    ensures capacity { vec_capacity acts.new ≡ vec_capacity acts.old }
    ensures held { map.len line.new.held ≤ map.len line.old.held }
{
    match task {
        Task::Nothing => {}
        Task::Do(act) => acts.push_reserved(act),
        Task::Fill { to } => line.fill_to(to),
    }
}
