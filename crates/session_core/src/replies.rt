//! What a session message asks for, from its fields and its number, and the texts of Logouts.

ghost use Rattle.std.specs.Prelude.{◌≡◌, ◌≤◌, IfOk};
ghost use Rattle.seq_gaps.specs.Line.{IsNumber};
ghost use Rattle.session_core.specs.Replies.{reject_for, test_answer, number_in, resend_answer, new_number, gap_fill, low_text, no_number_text};

use crate::acts::{Act, Admin};
use crate::said::{new_seq_no_of, type_of};
use crate::tasks::Task;
use fix_fields::{Fields, read_number};
use gate_io::{Bytes, NoMemory};
use itoa::Buffer;
use std::alloc::Global;

/// The most bytes of a TestReqID (112) that is sent back.
pub const LONGEST_TEST: usize = 256;

/// The most bytes of the text (58) of a Logout.
pub const LONGEST_LOGOUT_TEXT: usize = 63;

/// SessionRejectReason (373): a required field is missing.
const MISSING: u8 = 1;
/// A value is out of range.
const OUT_OF_RANGE: u8 = 5;
/// A value's format is wrong.
const BAD_FORMAT: u8 = 6;

/// The Reject of message n for its field `tag`. FIX 4.4, volume 2, "Reject".
pub(crate) fn reject(
    alloc: Global,
    n: u32,
    fields: &Fields<'_>,
    tag: u32,
    reason: u8,
) -> Result<Admin, NoMemory>
    ensures { IfOk result (λ admin. admin ≡ reject_for n fields.now tag reason) }
{
    let kind = Vec::from_slice(alloc, type_of(fields))?;
    Ok(Admin::Reject {
        seq: n,
        tag,
        kind: Bytes::of(kind),
        reason,
    })
}

/// A TestRequest is answered by a Heartbeat with its TestReqID (112). FIX 4.4, volume 2, "Test
/// Request".
#[tactic(auto, unfolding(crate::specs::Replies::test_answer))]
pub(crate) fn test_answer(alloc: Global, n: u32, fields: &Fields<'_>) -> Result<Admin, NoMemory>
    ensures { IfOk result (λ admin. admin ≡ test_answer n fields.now) }
{
    let Some(test) = fields.first(112) else {
        return reject(alloc, n, fields, 112, MISSING);
    };
    if test.len() > LONGEST_TEST {
        return reject(alloc, n, fields, 112, OUT_OF_RANGE);
    }
    let test = Vec::from_slice(alloc, test)?;
    Ok(Admin::Heartbeat {
        test: Some(Bytes::of(test)),
    })
}

/// A ResendRequest is answered where BeginSeqNo (7) and EndSeqNo (16) are there and are numbers.
/// FIX 4.4, volume 2, "Resend Request".
#[tactic(auto, unfolding(crate::specs::Replies::resend_answer))]
pub(crate) fn resend_answer(alloc: Global, n: u32, fields: &Fields<'_>) -> Result<Act, NoMemory>
    ensures { IfOk result (λ act. act ≡ resend_answer n fields.now) }
{
    if fields.first(7).is_none() {
        return Ok(Act::Send(reject(alloc, n, fields, 7, MISSING)?));
    }
    if fields.first(16).is_none() {
        return Ok(Act::Send(reject(alloc, n, fields, 16, MISSING)?));
    }
    let Some(begin) = number_in(7, fields) else {
        return Ok(Act::Send(reject(alloc, n, fields, 7, BAD_FORMAT)?));
    };
    let Some(last) = number_in(16, fields) else {
        return Ok(Act::Send(reject(alloc, n, fields, 16, BAD_FORMAT)?));
    };
    Ok(Act::Resend {
        begin: begin as u64,
        last: last as u64,
    })
}

/// The number that the field is.
#[tactic(auto, unfolding(crate::specs::Replies::number_in))]
fn number_in(tag: u32, fields: &Fields<'_>) -> Option<u32>
    ensures { result ≡ number_in tag fields.now }
{
    read_number(fields.first(tag)?)
}

/// NewSeqNo (36) of message n, which is at least `least`, or the Reject. FIX 4.4, volume 2,
/// "Sequence Reset".
#[tactic(auto, unfolding(crate::specs::Replies::new_number))]
pub(crate) fn new_number(
    alloc: Global,
    least: u32,
    n: u32,
    fields: &Fields<'_>,
) -> Result<Result<u32, Admin>, NoMemory>
    ensures { IfOk result (λ found. found ≡ new_number least n fields.now) }
{
    if fields.first(36).is_none() {
        return Ok(Err(reject(alloc, n, fields, 36, MISSING)?));
    }
    let Some(to) = new_seq_no_of(fields) else {
        return Ok(Err(reject(alloc, n, fields, 36, BAD_FORMAT)?));
    };
    if to < least {
        return Ok(Err(reject(alloc, n, fields, 36, OUT_OF_RANGE)?));
    }
    Ok(Ok(to))
}

/// A gap fill: the numbers up to NewSeqNo (36) hold nothing that is sent again. FIX 4.4, volume 2,
/// "Sequence Reset", gap fill mode.
#[tactic(auto, unfolding(crate::specs::Replies::gap_fill))]
pub(crate) fn gap_fill(alloc: Global, n: u32, fields: &Fields<'_>) -> Result<Task, NoMemory>
    requires { IsNumber n }
    ensures { IfOk result (λ task. task ≡ gap_fill n fields.now) }
{
    match new_number(alloc, n + 1, n, fields)? {
        Ok(to) => Ok(Task::Fill { to }),
        Err(admin) => Ok(Task::Do(Act::Send(admin))),
    }
}

/// The Logout that answers a number below the expected one. FIX 4.4, volume 2, "Logout".
#[tactic(auto, unfolding(crate::specs::Replies::low_text))]
pub(crate) fn low_logout(alloc: Global, expected: u32, got: u32) -> Result<Admin, NoMemory>
    ensures { IfOk result (λ admin. admin ≡ Admin.Logout (Some (low_text expected got))) }
{
    let mut digits = Buffer::new();
    let mut text = Vec::new(alloc);
    text.extend_from_slice(b"MsgSeqNum too low, expecting ")?;
    text.extend_from_slice(digits.format(expected).as_bytes())?;
    text.extend_from_slice(b" but received ")?;
    text.extend_from_slice(digits.format(got).as_bytes())?;
    Ok(Admin::Logout {
        text: Some(Bytes::of(text)),
    })
}

/// The Logout that answers a message without a number.
#[tactic(auto, unfolding(crate::specs::Replies::no_number_text))]
pub(crate) fn no_number_logout(alloc: Global) -> Result<Admin, NoMemory>
    ensures { IfOk result (λ admin. admin ≡ Admin.Logout (Some no_number_text)) }
{
    let text = Vec::from_slice(alloc, b"MsgSeqNum missing")?;
    Ok(Admin::Logout {
        text: Some(Bytes::of(text)),
    })
}
