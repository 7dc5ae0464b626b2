//! Records as text: one is written, and they are read back.

ghost use Rattle.std.specs.Prelude.{◌≡◌, ◌≤◌, ◌+◌, ◌<◌, ◌^◌, ◌++◌, [], length, true, false, IfOk, IfSome, IfNone};
ghost use Rattle.std.specs.Vec.{vec_len, vec_capacity};
ghost use Rattle.durable_journal.specs.Numbers.{HasTypes};
ghost use Rattle.durable_journal.specs.RecordText.{record_text, head_of, HeadHasTypes};
ghost use Rattle.durable_journal.specs.Recovered.{IsFront, HasNoFront, GoesOn, GoesNowhere};

use crate::head::{Head, RECORD_HEAD, put, put_head, read_head};
use crate::numbers::{entry_of, numbers_of};
use crate::records::is_record;
use crate::recovered::Recovered;
use gate_io::{Bytes, NoMemory};
use lease_core::Record;
use std::alloc::Global;

/// Writes a record at the end of a text that has room for it.
pub(crate) fn put_record(text: &mut Vec<u8>, event: &Record)
    requires room { vec_len text.old + RECORD_HEAD + length event.now.body ≤ vec_capacity text.old }
    requires short { length event.now.body < 2 ^ 32 }
    ensures text { text.new.items ≡ text.old.items ++ record_text event.now }
    ensures len { vec_len text.new ≡ vec_len text.old + RECORD_HEAD + length event.now.body }
    ensures capacity { vec_capacity text.old ≤ vec_capacity text.new }
    ensures entry_types { HasTypes event.now.entry }
    ensures head_types { HeadHasTypes (head_of event.now) }
{
    let body = event.body.as_slice();
    let head = Head {
        s: event.s,
        numbers: numbers_of(event.entry),
        at: event.at,
        expected: event.expected,
        length: body.len() as u32,
    };
    put_head(text, head);
    put(text, body);
}

/// The record at the front of the bytes, and what stands behind it.
pub(crate) fn read_record(alloc: Global, bytes: &[u8]) -> Result<Option<(Record, &[u8])>, NoMemory>
    ensures found { IfOk result (λ found. IfSome found (λ f. IsFront bytes.now f.0 f.1.now)) }
    ensures none { IfOk result (λ found. IfNone found (HasNoFront bytes.now)) }
{
    if bytes.len() < RECORD_HEAD {
        return Ok(None);
    }
    let (head, rest) = read_head(bytes);
    if rest.len() < head.length as usize {
        return Ok(None);
    }
    let Some(entry) = entry_of(head.numbers, head.at) else {
        return Ok(None);
    };
    let (body, rest) = rest.split_at(head.length as usize);
    let event = Record {
        s: head.s,
        entry,
        at: head.at,
        body: Bytes::of(body.to_vec(alloc)?),
        expected: head.expected,
    };
    if !is_record(alloc, &event)? {
        return Ok(None);
    }
    Ok(Some((event, rest)))
}

/// Reads bytes as records that go on from those before, and takes them. Where they aren't, some of
/// them may have been taken.
pub(crate) fn read_records(
    alloc: Global,
    bytes: &[u8],
    recovered: &mut Recovered,
) -> Result<bool, NoMemory>
    ensures taken { IfOk result (λ taken. taken ≡ true → GoesOn bytes.now recovered.old recovered.new) }
    ensures refused { IfOk result (λ taken. taken ≡ false → GoesNowhere bytes.now recovered.old) }
    ensures sessions { (recovered.new).sessions ≡ (recovered.old).sessions }
    ensures leases { (recovered.new).leases ≡ (recovered.old).leases }
{
    let mut rest = bytes;
    'record: while !rest.is_empty() {
        let Some((event, behind)) = read_record(alloc, rest)? else {
            return Ok(false);
        };
        if !recovered.take(event)? {
            return Ok(false);
        }
        rest = behind;
    }
    Ok(true)
}
