//! Which rule a message on a bound session comes under: one function for each row, and all that
//! wants memory is made here, before anything changes.

ghost use Rattle.std.specs.Prelude.{◌≡◌, IfOk};
ghost use Rattle.seq_gaps.specs.Line.{IsNumber};
ghost use Rattle.session_core.specs.Carry.{IsNumbered};
ghost use Rattle.session_core.specs.Steps.{no_number, wrong_name, wrong_comp_id, is_reset, reset, low, asks_nothing, in_order, early, on_time, by_number, step_of};

use crate::acts::{Act, Admin};
use crate::causes::Cause;
use crate::names::Names;
use crate::replies::{
    gap_fill, low_logout, new_number, no_number_logout, reject, resend_answer, test_answer,
};
use crate::said::{has_value, seq_num_of};
use crate::tasks::Task;
use fix_fields::Fields;
use gate_io::NoMemory;
use std::alloc::Global;

/// SessionRejectReason (373): a CompID isn't the session's.
const COMP_ID_PROBLEM: u8 = 9;

/// What a message on a bound session asks for.
#[derive(Debug, Drop)]
pub(crate) enum Step {
    /// Nothing follows.
    Ignore,
    /// It is rejected, and its number is ignored.
    Refuse(Admin),
    /// These are sent, its number is counted or not, and the connection ends.
    Close {
        first: Option<Admin>,
        last: Admin,
        cause: Cause,
        counts: bool,
    },
    /// The expected number becomes this one, whatever its own is.
    Move {
        to: u32,
    },
    /// An application message, which is accepted on its number.
    Deliver {
        number: u32,
    },
    /// A session message, with what follows at once and what is left to do on its number.
    Handle {
        number: u32,
        at_once: Option<Act>,
        task: Task,
    },
}

/// The first rule that applies, in the order: a number that is none, a CompID that isn't the
/// session's, a reset, and then by its number.
#[tactic(auto, unfolding(crate::specs::Steps::step_of))]
pub(crate) fn step_of(
    alloc: Global,
    names: &Names,
    expected: u32,
    fields: &Fields<'_>,
) -> Result<Step, NoMemory>
    ensures step { IfOk result (λ step. step ≡ step_of names.now expected fields.now) }
    ensures numbered { IfOk result IsNumbered }
{
    let Some(n) = seq_num_of(fields) else {
        return no_number(alloc);
    };
    if let Some(tag) = wrong_name(names, fields) {
        return wrong_comp_id(alloc, expected, n, fields, tag);
    }
    if is_reset(fields) {
        return reset(alloc, expected, n, fields);
    }
    by_number(alloc, expected, n, fields)
}

/// MsgSeqNum (34) isn't a number from 1 to 999,999,999: a Logout, and the connection ends.
#[tactic(auto, unfolding(crate::specs::Steps::no_number))]
fn no_number(alloc: Global) -> Result<Step, NoMemory>
    ensures step { IfOk result (λ step. step ≡ no_number) }
    ensures numbered { IfOk result IsNumbered }
{
    Ok(Step::Close {
        first: None,
        last: no_number_logout(alloc)?,
        cause: Cause::NoNumber,
        counts: false,
    })
}

/// SenderCompID (49) or TargetCompID (56) that isn't the session's, the first of them.
#[tactic(auto, unfolding(crate::specs::Steps::wrong_name))]
fn wrong_name(names: &Names, fields: &Fields<'_>) -> Option<u32>
    ensures { result ≡ wrong_name names.now fields.now }
{
    if !has_value(fields, 49, names.them.as_slice()) {
        return Some(49);
    }
    if !has_value(fields, 56, names.us.as_slice()) {
        return Some(56);
    }
    None
}

/// A wrong CompID: a Reject, a Logout, and the connection ends. The number is counted where it is
/// the expected one, with nothing carried out.
#[tactic(auto, unfolding(crate::specs::Steps::wrong_comp_id))]
fn wrong_comp_id(
    alloc: Global,
    expected: u32,
    n: u32,
    fields: &Fields<'_>,
    tag: u32,
) -> Result<Step, NoMemory>
    ensures step { IfOk result (λ step. step ≡ wrong_comp_id expected n fields.now tag) }
    ensures numbered { IfOk result IsNumbered }
{
    Ok(Step::Close {
        first: Some(reject(alloc, n, fields, tag, COMP_ID_PROBLEM)?),
        last: Admin::Logout { text: None },
        cause: Cause::CompId { tag },
        counts: n == expected,
    })
}

/// Whether the message is a SequenceReset (type 4) in reset mode, without GapFillFlag (123) Y.
#[tactic(auto, unfolding(crate::specs::Steps::is_reset))]
fn is_reset(fields: &Fields<'_>) -> bool
    ensures { result ≡ is_reset fields.now }
{
    has_value(fields, 35, b"4") && !has_value(fields, 123, b"Y")
}

/// A reset: the expected number becomes NewSeqNo (36), which doesn't go back. Its own number is
/// ignored. FIX 4.4, volume 2, "Sequence Reset", reset mode.
#[tactic(auto, unfolding(crate::specs::Steps::reset))]
fn reset(alloc: Global, expected: u32, n: u32, fields: &Fields<'_>) -> Result<Step, NoMemory>
    ensures step { IfOk result (λ step. step ≡ reset expected n fields.now) }
    ensures numbered { IfOk result IsNumbered }
{
    match new_number(alloc, expected, n, fields)? {
        Ok(to) => Ok(Step::Move { to }),
        Err(admin) => Ok(Step::Refuse(admin)),
    }
}

/// By its number: low, early or on time.
#[tactic(auto, unfolding(crate::specs::Steps::by_number))]
fn by_number(alloc: Global, expected: u32, n: u32, fields: &Fields<'_>) -> Result<Step, NoMemory>
    requires { IsNumber n }
    ensures step { IfOk result (λ step. step ≡ by_number expected n fields.now) }
    ensures numbered { IfOk result IsNumbered }
{
    if n < expected {
        low(alloc, expected, n, fields)
    } else if n > expected {
        early(alloc, n, fields)
    } else {
        on_time(alloc, n, fields)
    }
}

/// A low number: ignored with PossDupFlag (43) Y, else a Logout, and the connection ends. FIX 4.4,
/// volume 2, "Logout".
#[tactic(auto, unfolding(crate::specs::Steps::low))]
fn low(alloc: Global, expected: u32, n: u32, fields: &Fields<'_>) -> Result<Step, NoMemory>
    ensures step { IfOk result (λ step. step ≡ low expected n fields.now) }
    ensures numbered { IfOk result IsNumbered }
{
    if has_value(fields, 43, b"Y") {
        return Ok(Step::Ignore);
    }
    Ok(Step::Close {
        first: None,
        last: low_logout(alloc, expected, n)?,
        cause: Cause::LowNumber { expected, got: n },
        counts: false,
    })
}

/// An early number: a Logout is answered and not counted, a ResendRequest is answered at once, and
/// any other message waits, where there is room.
#[tactic(auto, unfolding(crate::specs::Steps::early))]
fn early(alloc: Global, n: u32, fields: &Fields<'_>) -> Result<Step, NoMemory>
    requires { IsNumber n }
    ensures step { IfOk result (λ step. step ≡ early n fields.now) }
    ensures numbered { IfOk result IsNumbered }
{
    if has_value(fields, 35, b"5") {
        return Ok(answer_logout(false));
    }
    if has_value(fields, 35, b"2") {
        let act = resend_answer(alloc, n, fields)?;
        return Ok(Step::Handle {
            number: n,
            at_once: Some(act),
            task: Task::Nothing,
        });
    }
    in_order(alloc, n, fields)
}

/// The expected number: it is counted, and the message is carried out.
#[tactic(auto, unfolding(crate::specs::Steps::on_time))]
fn on_time(alloc: Global, n: u32, fields: &Fields<'_>) -> Result<Step, NoMemory>
    requires { IsNumber n }
    ensures step { IfOk result (λ step. step ≡ on_time n fields.now) }
    ensures numbered { IfOk result IsNumbered }
{
    if has_value(fields, 35, b"5") {
        return Ok(answer_logout(true));
    }
    if has_value(fields, 35, b"2") {
        let act = resend_answer(alloc, n, fields)?;
        return Ok(handle(n, Task::Do(act)));
    }
    in_order(alloc, n, fields)
}

/// A Logout is answered by a Logout, and the connection ends. FIX 4.4, volume 2, "Logout".
fn answer_logout(counts: bool) -> Step
    ensures { result ≡ Step.Close None (Admin.Logout None) Cause.LoggedOut counts }
{
    Step::Close {
        first: None,
        last: Admin::Logout { text: None },
        cause: Cause::LoggedOut,
        counts,
    }
}

fn handle(number: u32, task: Task) -> Step
    ensures { result ≡ Step.Handle number None task }
{
    Step::Handle {
        number,
        at_once: None,
        task,
    }
}

/// A message that is carried out on its number: Heartbeat, Reject and a further Logon ask for
/// nothing, a TestRequest for its answer, a gap fill for the numbers up to its NewSeqNo, and an
/// application message to be accepted.
#[tactic(auto, unfolding(crate::specs::Steps::in_order))]
fn in_order(alloc: Global, n: u32, fields: &Fields<'_>) -> Result<Step, NoMemory>
    requires { IsNumber n }
    ensures step { IfOk result (λ step. step ≡ in_order n fields.now) }
    ensures numbered { IfOk result IsNumbered }
{
    if asks_nothing(fields) {
        return Ok(handle(n, Task::Nothing));
    }
    if has_value(fields, 35, b"1") {
        let answer = test_answer(alloc, n, fields)?;
        return Ok(handle(n, Task::Do(Act::Send(answer))));
    }
    if has_value(fields, 35, b"4") {
        return Ok(handle(n, gap_fill(alloc, n, fields)?));
    }
    Ok(Step::Deliver { number: n })
}

/// Whether the message is a Heartbeat, a Reject or a Logon.
#[tactic(auto, unfolding(crate::specs::Steps::asks_nothing))]
fn asks_nothing(fields: &Fields<'_>) -> bool
    ensures { result ≡ asks_nothing fields.now }
{
    has_value(fields, 35, b"0") || has_value(fields, 35, b"3") || has_value(fields, 35, b"A")
}
