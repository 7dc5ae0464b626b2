//! The body of a message as it is written. FIX 4.4, volume 1, "Message format", on the order of the
//! first fields; volume 2, "Standard header".

ghost use Rattle.std.specs.Prelude.{◌≡◌, ◌≤◌, ◌++◌, ◌∷◌, [], length, IfOk, OnOk, Some, codes, decimal};
ghost use Rattle.fix_frame.specs.Frame.{IsBody, frame_of};
ghost use Rattle.resend_plan.specs.Fit.{AreShort, HasFitBodies, HasFrameBody, HasNumbersInRange, longest_text};
ghost use Rattle.resend_plan.specs.Wire.{NamesEntry, body_of, type_field, behind_type, times, stamp, header, message, reset_type, field_of};

use crate::item::{Names2, WireItem};
use crate::kept::KeptTexts;
use crate::names::KeptNames;
use crate::stamps::KeptStamp;
use fix_fields::{put_field, put_tagged};
use fix_frame::LONGEST_FRAME;
use gate_io::NoMemory;
use itoa::Buffer;
use message_log::{OutEntry, OutLog};
use std::alloc::Global;

const SOH: u8 = 1;

/// The room that most bodies of session messages, and most headers, need.
const ROOM: usize = 256;

/// The body of an item as it is written: its type field, then sender, target, number and times, then
/// the rest. Of an entry that is the rest of the logged body as it is. A gap fill has no entry: its type
/// is SequenceReset (35=4), and its rest GapFillFlag (123) and NewSeqNo (36).
pub fn wire_body(
    alloc: Global,
    item: &WireItem,
    log: &OutLog,
    names: &Names2,
) -> Result<Vec<u8>, NoMemory>
    requires { NamesEntry log.now.series item.now }
    ensures text { IfOk result (λ body. body.items ≡ body_of names.now log.now.series item.now) }
    ensures is_body { HasFrameBody log.now.series item.now → IfOk result (λ body. IsBody body.items) }
    ensures length { IfOk result (λ body. length body.items ≤ longest_text names.now log.now.series item.now) }
    // Within the limits of names and logged bodies, `write_frame` takes it and doesn't find it too long.
    ensures frame { AreShort names.now → HasFitBodies log.now.series
        → IfOk result (λ body. IsBody body.items × (length (frame_of body.items) ≤ LONGEST_FRAME)) }
{
    let mut body = Vec::with_capacity(alloc, ROOM)?;
    let mut kept = KeptTexts::new(alloc);
    fill_item_body(&mut body, &mut kept, item, log, names)?;
    Ok(body)
}

/// The same in a vector that is kept for its room: the body takes the place of what it held. Without
/// memory it may hold anything.
pub fn fill_wire_body(
    body: &mut Vec<u8>,
    kept: &mut KeptTexts,
    item: &WireItem,
    log: &OutLog,
    names: &Names2,
) -> Result<(), NoMemory>
    requires { NamesEntry log.now.series item.now }
    ensures text { OnOk result (body.new.items ≡ body_of names.now log.now.series item.now) }
    // Within the limits of names and logged bodies, `put_frame` takes it and doesn't find it too long.
    ensures frame { AreShort names.now → HasFitBodies log.now.series
        → OnOk result (IsBody body.new.items × (length (frame_of body.new.items) ≤ LONGEST_FRAME)) }
{
    fill_item_body(body, kept, item, log, names)
}

fn fill_item_body(
    body: &mut Vec<u8>,
    kept: &mut KeptTexts,
    item: &WireItem,
    log: &OutLog,
    names: &Names2,
) -> Result<(), NoMemory>
    requires { NamesEntry log.now.series item.now }
    ensures text { OnOk result (body.new.items ≡ body_of names.now log.now.series item.now) }
    ensures in_range { HasNumbersInRange item.now }
{
    match *item {
        WireItem::New { series, number } => {
            let entry = log.entry(series, number).unwrap();
            fill_entry_body(body, kept, names, entry, number, entry.at, None)
        }
        WireItem::Again { series, number, at } => {
            let entry = log.entry(series, number).unwrap();
            fill_entry_body(body, kept, names, entry, number, at, Some(entry.at))
        }
        WireItem::GapFill { number, to, at, .. } => fill_reset_body(
            body, kept, names, number, to, at,
        ),
    }
}

fn fill_entry_body(
    body: &mut Vec<u8>,
    kept: &mut KeptTexts,
    names: &Names2,
    entry: &OutEntry,
    number: u64,
    at: u64,
    original: Option<u64>,
) -> Result<(), NoMemory>
    ensures { OnOk result (body.new.items ≡ message names.now (type_field entry.now.body) number
        (times at original) (behind_type entry.now.body)) }
{
    let (kind, rest) = split_type(entry.body.as_slice());
    fill_header(body, &mut kept.names, names, kind, number)?;
    push_times(body, &mut kept.stamp, at, original)?;
    body.extend_from_slice(rest)?;
    Ok(())
}

/// A SequenceReset that fills a gap, from a number on and up to the next number behind it.
fn fill_reset_body(
    body: &mut Vec<u8>,
    kept: &mut KeptTexts,
    names: &Names2,
    number: u64,
    to: u64,
    at: u64,
) -> Result<(), NoMemory>
    ensures { OnOk result (body.new.items ≡ message names.now reset_type number
        (times at (Some at)) (field_of 123 (codes "Y") ++ field_of 36 (decimal to))) }
{
    let mut digits = Buffer::new();
    fill_header(body, &mut kept.names, names, b"35=4\x01", number)?;
    push_times(body, &mut kept.stamp, at, Some(at))?;
    put_field(body, 123, b"Y")?;
    put_field(body, 36, digits.format(to).as_bytes())?;
    Ok(())
}

/// The type field, and the fields up to the number, in place of what the body held.
fn fill_header(
    body: &mut Vec<u8>,
    kept: &mut KeptNames,
    names: &Names2,
    kind: &[u8],
    number: u64,
) -> Result<(), NoMemory>
    ensures { OnOk result (body.new.items ≡ header names.now kind.now number) }
{
    let mut digits = Buffer::new();
    kept.keep(names)?;
    body.clear();
    body.extend_from_slice(kind)?;
    body.extend_from_slice(kept.text())?;
    body.extend_from_slice(digits.format(number).as_bytes())?;
    body.push(SOH)?;
    Ok(())
}

/// The moment of sending, and for what is sent again the mark of that and the first one.
#[tactic(auto, unfolding(crate::specs::Wire::times))]
fn push_times(
    body: &mut Vec<u8>,
    kept: &mut KeptStamp,
    at: u64,
    original: Option<u64>,
) -> Result<(), NoMemory>
    ensures { OnOk result (body.new.items ≡ body.old.items ++ times at original) }
{
    match original {
        None => put_sending_time(body, kept, at),
        Some(original) => {
            put_field(body, 43, b"Y")?;
            put_sending_time(body, kept, at)?;
            put_field(body, 122, &kept.at(original))
        }
    }
}

fn put_sending_time(body: &mut Vec<u8>, kept: &mut KeptStamp, at: u64) -> Result<(), NoMemory>
    ensures { OnOk result (body.new.items ≡ body.old.items ++ field_of 52 (stamp at)) }
{
    put_tagged(body, b"52", &kept.at(at))
}

/// A body up to the end of its first field, which is its type, and what lies behind.
fn split_type(body: &[u8]) -> (&[u8], &[u8])
    ensures kind { result.0.now ≡ type_field body.now }
    ensures behind { result.1.now ≡ behind_type body.now }
{
    for (i, b) in body.iter().enumerate() {
        if *b == SOH {
            return body.split_at(i + 1);
        }
    }
    body.split_at(body.len())
}
