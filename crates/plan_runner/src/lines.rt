//! What a line of a plan is.

ghost use Rattle.std.specs.Prelude.{◌≡◌};
ghost use Rattle.plan_runner.specs.Lines.{IsLineOf, call_of, is_idle_poll, has_no_room, is_vain, lack_of, left_after, left_first, left_to_read};
ghost use Rattle.script_text.specs.declared.steps.Step.TheVariants as step;

use gate_io::Lack;
use library_api::{AskError, Event, SendRefusal};
use run_report::Call;
use script_text::{LibStep, Step};

/// What a line of a library of this number says.
pub(crate) fn act_of(line: &Step, _number: u8) -> &LibStep
    requires { IsLineOf _number line.now }
    ensures { line.now ≡ step.Lib _number result.now }
{
    match line {
        Step::Lib { act, .. } => act,
        _ => unreachable!(),
    }
}

/// Whether a line makes this call again.
pub(crate) fn is_vain(line: &LibStep, call: &Call) -> bool
    ensures { result ≡ is_vain line.now call.now }
{
    match line {
        LibStep::Answer | LibStep::Read { .. } => is_idle_poll(call),
        _ => has_no_room(call),
    }
}

/// What a library lacks whose call of this line was in vain.
pub(crate) fn lack_of(line: &LibStep) -> Lack
    ensures { result ≡ lack_of line.now }
{
    match line {
        LibStep::Answer | LibStep::Read { .. } => Lack::News,
        _ => Lack::Room,
    }
}

// Whether a poll found nothing to take up.
fn is_idle_poll(call: &Call) -> bool
    ensures { result ≡ is_idle_poll call.now }
{
    matches!(
        call,
        Call::Poll {
            event: Event::Nothing | Event::NotYet { .. }
        }
    )
}

// Whether the ring or the lane had no room.
fn has_no_room(call: &Call) -> bool
    ensures { result ≡ has_no_room call.now }
{
    matches!(
        call,
        Call::Request {
            answer: Err(AskError::RingFull { .. }),
            ..
        } | Call::Send {
            answer: Err(SendRefusal::LaneFull { .. }),
            ..
        }
    )
}

/// How much of a line is left as it begins.
pub(crate) fn left_first(line: &LibStep, unanswered: Option<u32>) -> u64
    ensures { result ≡ left_first line.now unanswered }
{
    match line {
        LibStep::Answer => u64::from(unanswered.is_some()),
        LibStep::Read { count } => *count,
        _ => 1,
    }
}

/// How much of it is left behind a reported call.
pub(crate) fn left_after(line: &LibStep, call: &Call, unanswered: Option<u32>, left: u64) -> u64
    ensures { result ≡ left_after line.now call.now unanswered left }
{
    match line {
        LibStep::Answer => u64::from(unanswered.is_some()),
        LibStep::Read { .. } => left_to_read(call, left),
        _ => 0,
    }
}

// How many messages are still to come.
fn left_to_read(call: &Call, left: u64) -> u64
    ensures { result ≡ left_to_read call.now left }
{
    match call {
        Call::Poll {
            event: Event::Message { .. },
        } => left.saturating_sub(1),
        Call::Poll {
            event: Event::LeaseLost { .. },
        } => 0,
        _ => left,
    }
}
