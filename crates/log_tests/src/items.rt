//! The text of an item, and its frame.

use crate::desk::Desk;
use fix_frame::{FrameError, is_body, write_frame};
use gate_io::NoMemory;
use message_log::OutLog;
use resend_plan::{Names2, WireItem, wire_body};
use row_text::{Words, legible, said, shown};
use std::alloc::Global;

/// An item: `new SERIES NUMBER`, `again SERIES NUMBER MOMENT`, `fill SERIES NUMBER TO MOMENT`.
pub fn item_of(words: &mut Words<'_>) -> Option<WireItem> {
    Some(match words.word()? {
        "new" => WireItem::New {
            series: words.u32()?,
            number: words.number()?,
        },
        "again" => WireItem::Again {
            series: words.u32()?,
            number: words.number()?,
            at: words.number()?,
        },
        "fill" => WireItem::GapFill {
            series: words.u32()?,
            number: words.number()?,
            to: words.number()?,
            at: words.number()?,
        },
        _ => return None,
    })
}

// The body of an item, if the log has the entry that it names.
fn body_in(
    alloc: Global,
    item: &WireItem,
    log: &OutLog,
    names: &Names2,
) -> Result<Option<Vec<u8>>, NoMemory> {
    match *item {
        WireItem::New { series, number } | WireItem::Again { series, number, .. } => {
            if log.entry(series, number).is_none() {
                return Ok(None);
            }
        }
        WireItem::GapFill { .. } => {}
    }
    Ok(Some(wire_body(alloc, item, log, names)?))
}

/// The body of an item.
pub fn text(alloc: Global, desk: &Desk, item: WireItem) -> Result<Option<String>, NoMemory> {
    match body_in(alloc, &item, &desk.both.log, &desk.names)? {
        Some(body) => Ok(Some(legible(alloc, &body)?)),
        None => said(alloc, "no such entry"),
    }
}

/// How long the body of an item is, and its frame.
pub fn sizes(alloc: Global, desk: &Desk, item: WireItem) -> Result<Option<String>, NoMemory> {
    match body_in(alloc, &item, &desk.both.log, &desk.names)? {
        Some(body) => framed(alloc, &body),
        None => said(alloc, "no such entry"),
    }
}

fn framed(alloc: Global, body: &[u8]) -> Result<Option<String>, NoMemory> {
    if !is_body(body) {
        return said(alloc, "no body");
    }
    match write_frame(alloc, body) {
        Ok(frame) => shown(alloc, &(body.len(), frame.len())),
        Err(FrameError::OutOfMemory) => Err(NoMemory::OutOfMemory),
        Err(FrameError::TooLong { length }) => shown(alloc, &FrameError::TooLong { length }),
    }
}
