//! What can be asked of the logs of a row.
//!
//! | step | what it asks |
//! |---|---|
//! | `series`, `len` | the number of the present series; how many entries all series have |
//! | `len_of SERIES` | how many entries one has |
//! | `moment_of SERIES NUMBER` | the moment of an entry |
//! | `ends SERIES` | where the stretches end that the numbers from 1 to 5 are in |
//! | `plan SERIES BEGIN LAST` | what is sent again: `1:2` for number 2 of series 1, `1:3-4` for a gap fill from 3 up to 4; or `nothing` |
//! | `text ITEM` | the body that an item has (`items.rt`) |
//! | `sizes ITEM` | how many bytes that body has, and its frame |
//! | `looked_up_alike` | whether each look-up gives what the plain lists have |
//! | `planned_alike` | whether plans all over each series are those of the plain lists |
//! | `received` | how many bodies were accepted |
//! | `body POSITION` | the body at a position |
//! | `found COUNT` | how many of the positions below it have their body, by both look-ups |

use crate::acts::Answer;
use crate::alike::are_looked_up_alike;
use crate::desk::{Desk, first_ends, found_bodies, moment_of};
use crate::items::{item_of, sizes, text};
use crate::plans::{Asked, first_differing, plan_text};
use gate_io::NoMemory;
use message_log::{InLog, OutLog};
use row_text::{Words, said, shown};
use std::alloc::Global;

/// What is so.
pub fn fact(alloc: Global, desk: &Desk, name: &str, words: &mut Words<'_>) -> Answer {
    match name {
        "plan" => Some(plan(alloc, desk, asked_of(words)?)),
        "text" => Some(text(alloc, desk, item_of(words)?)),
        "sizes" => Some(sizes(alloc, desk, item_of(words)?)),
        "looked_up_alike" => Some(looked_up_alike(alloc, desk)),
        "planned_alike" => Some(planned_alike(alloc, desk)),
        "received" | "body" | "found" => of_bodies(alloc, &desk.inbound, name, words),
        _ => of_log(alloc, &desk.both.log, name, words),
    }
}

fn of_log(alloc: Global, log: &OutLog, name: &str, words: &mut Words<'_>) -> Answer {
    Some(match name {
        "series" => shown(alloc, &log.series()),
        "len" => shown(alloc, &log.len()),
        "len_of" => shown(alloc, &log.len_of(words.u32()?)),
        "moment_of" => shown(alloc, &moment_of(log, words.u32()?, words.number()?)),
        "ends" => shown(alloc, &first_ends(log, words.u32()?)),
        _ => return None,
    })
}

fn of_bodies(alloc: Global, log: &InLog, name: &str, words: &mut Words<'_>) -> Answer {
    Some(match name {
        "received" => shown(alloc, &log.len()),
        "body" => shown(alloc, &log.body(words.number()?)),
        "found" => shown(alloc, &found_bodies(log, words.number()?)),
        _ => return None,
    })
}

fn asked_of(words: &mut Words<'_>) -> Option<Asked> {
    Some(Asked {
        series: words.u32()?,
        begin: words.number()?,
        last: words.number()?,
    })
}

fn plan(alloc: Global, desk: &Desk, asked: Asked) -> Result<Option<String>, NoMemory> {
    match plan_text(alloc, &desk.both.log, asked)? {
        Some(text) if text.is_empty() => said(alloc, "nothing"),
        Some(text) => Ok(Some(text)),
        None => said(alloc, "no such series"),
    }
}

fn looked_up_alike(alloc: Global, desk: &Desk) -> Result<Option<String>, NoMemory> {
    if are_looked_up_alike(&desk.both) {
        return Ok(None);
    }
    said(alloc, "another answer")
}

// The first range whose plan is another.
fn planned_alike(alloc: Global, desk: &Desk) -> Result<Option<String>, NoMemory> {
    match first_differing(alloc, &desk.both)? {
        Some(asked) => shown(alloc, &asked),
        None => Ok(None),
    }
}
