//! The bodies of the session messages that are sent: the type field, and what follows the header.

ghost use Rattle.std.specs.Prelude.{◌≡◌, ◌<◌, ◌≤◌, ◌^◌, ◌++◌, decimal, length, IfOk, OnOk};
ghost use Rattle.fix_fields.specs.Field.{tagged_text};
ghost use Rattle.fix_fields.specs.Frame.{IsBody};
ghost use Rattle.session_core.specs.Tasks.{HasShortTexts, is_tick};
ghost use Rattle.session_core.specs.Admin.{admin_text, is_tick_text, logon_text, heartbeat_text, test_request_text, resend_request_text, reject_text, logout_text};

use crate::acts::Admin;
use fix_fields::put_tagged;
use gate_io::{Bytes, NoMemory};
use itoa::Buffer;
use std::alloc::Global;

/// A type with more bytes isn't named in a Reject.
pub const LONGEST_KIND: usize = 32;

/// The most bytes of the body of a session message.
pub const LONGEST_ADMIN: usize = 266;

/// The body of a session message that is sent with this number.
pub fn admin_body(alloc: Global, admin: &Admin, number: u64) -> Result<Vec<u8>, NoMemory>
    ensures text { IfOk result (λ body. body.items ≡ admin_text admin.now number) }
    // It is a frame's body behind header fields, and short where its own texts are.
    ensures body { IfOk result (λ body. IsBody body.items) }
    ensures short { HasShortTexts admin.now → IfOk result (λ body. length body.items ≤ LONGEST_ADMIN) }
    // It tells whether the clock alone sends it.
    ensures tick { IfOk result (λ body. is_tick_text body.items ≡ is_tick admin.now) }
{
    match admin {
        Admin::Logon { heart, reset } => logon_body(alloc, *heart, *reset),
        Admin::Heartbeat { test } => heartbeat_body(alloc, test),
        Admin::TestRequest => test_request_body(alloc, number),
        Admin::ResendRequest { begin, last } => resend_request_body(alloc, *begin, *last),
        Admin::Reject {
            seq,
            tag,
            kind,
            reason,
        } => reject_body(alloc, *seq, *tag, kind, *reason),
        Admin::Logout { text } => logout_body(alloc, text),
    }
}

#[tactic(auto, unfolding(crate::specs::Admin::logon_text))]
fn logon_body(alloc: Global, heart: u32, reset: bool) -> Result<Vec<u8>, NoMemory>
    ensures text { IfOk result (λ body. body.items ≡ logon_text heart reset) }
    ensures range { heart < 2 ^ 32 }
{
    let mut body = Vec::new(alloc);
    put_tagged(&mut body, b"35", b"A")?;
    put_tagged(&mut body, b"98", b"0")?;
    put_number(&mut body, b"108", heart as u64)?;
    if reset {
        put_tagged(&mut body, b"141", b"Y")?;
    }
    Ok(body)
}

#[tactic(auto, unfolding(crate::specs::Admin::heartbeat_text))]
fn heartbeat_body(alloc: Global, test: &Option<Bytes>) -> Result<Vec<u8>, NoMemory>
    ensures { IfOk result (λ body. body.items ≡ heartbeat_text test.now) }
{
    let mut body = Vec::new(alloc);
    put_tagged(&mut body, b"35", b"0")?;
    if let Some(test) = test {
        put_tagged(&mut body, b"112", test.as_slice())?;
    }
    Ok(body)
}

#[tactic(auto, unfolding(crate::specs::Admin::test_request_text))]
fn test_request_body(alloc: Global, number: u64) -> Result<Vec<u8>, NoMemory>
    ensures text { IfOk result (λ body. body.items ≡ test_request_text number) }
    ensures range { number < 2 ^ 64 }
{
    let mut body = Vec::new(alloc);
    put_tagged(&mut body, b"35", b"1")?;
    put_number(&mut body, b"112", number)?;
    Ok(body)
}

#[tactic(auto, unfolding(crate::specs::Admin::resend_request_text))]
fn resend_request_body(alloc: Global, begin: u32, last: u32) -> Result<Vec<u8>, NoMemory>
    ensures text { IfOk result (λ body. body.items ≡ resend_request_text begin last) }
    ensures begin { begin < 2 ^ 32 }
    ensures last { last < 2 ^ 32 }
{
    let mut body = Vec::new(alloc);
    put_tagged(&mut body, b"35", b"2")?;
    put_number(&mut body, b"7", begin as u64)?;
    put_number(&mut body, b"16", last as u64)?;
    Ok(body)
}

#[tactic(auto, unfolding(crate::specs::Admin::reject_text))]
fn reject_body(
    alloc: Global,
    seq: u32,
    tag: u32,
    kind: &Bytes,
    reason: u8,
) -> Result<Vec<u8>, NoMemory>
    ensures text { IfOk result (λ body. body.items ≡ reject_text seq tag kind.now reason) }
    ensures seq { seq < 2 ^ 32 }
    ensures tag { tag < 2 ^ 32 }
    ensures reason { reason < 2 ^ 32 }
{
    let kind = kind.as_slice();
    let mut body = Vec::new(alloc);
    put_tagged(&mut body, b"35", b"3")?;
    put_number(&mut body, b"45", seq as u64)?;
    put_number(&mut body, b"371", tag as u64)?;
    if kind.len() <= LONGEST_KIND {
        put_tagged(&mut body, b"372", kind)?;
    }
    put_number(&mut body, b"373", reason as u64)?;
    Ok(body)
}

#[tactic(auto, unfolding(crate::specs::Admin::logout_text))]
fn logout_body(alloc: Global, text: &Option<Bytes>) -> Result<Vec<u8>, NoMemory>
    ensures { IfOk result (λ body. body.items ≡ logout_text text.now) }
{
    let mut body = Vec::new(alloc);
    put_tagged(&mut body, b"35", b"5")?;
    if let Some(text) = text {
        put_tagged(&mut body, b"58", text.as_slice())?;
    }
    Ok(body)
}

/// Writes a field at the end whose value is a number.
fn put_number(body: &mut Vec<u8>, tag: &[u8], n: u64) -> Result<(), NoMemory>
    requires { length tag.now < 2 ^ 32 }
    ensures { OnOk result (body.new.items ≡ body.old.items ++ tagged_text tag.now (decimal n)) }
{
    let mut digits = Buffer::new();
    put_tagged(body, tag, digits.format(n).as_bytes())
}
