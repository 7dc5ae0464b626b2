//! What is done with the logs of a row.
//!
//! | step | what it does | what it comes to |
//! |---|---|---|
//! | `push session BODY`, `push application BODY` | an entry of the morning, 2026-01-05 09:30:00.000 | its number |
//! | `push_long LENGTH` | an application entry of the morning, whose body has so many bytes | its number |
//! | `turn_over` | the next series begins | its number |
//! | `rise COUNT EACH` | the log is a new one, with room from the first and with so many entries of the moments from 0 on, in series of `EACH` | |
//! | `draw COUNT SEED SESSIONS TURNS` | the log is one that is drawn, and so are the plain lists | |
//! | `call US THEM` | the CompIDs are these | |
//! | `reserve COUNT` | there is room for so many bodies that are accepted | |
//! | `receive COUNT` | so many bodies are accepted, each of which is its position in eight bytes | how many got that position |

use crate::both::{Rule, entry, generated, risen, turn_over};
use crate::desk::{Desk, names, receive};
use crate::facts::fact;
use crate::texts::long_body;
use gate_io::{Bytes, NoMemory};
use message_log::OutEntry;
use row_text::{Words, said, shown};
use std::alloc::Global;

/// 2026-01-05 09:30:00.000
const MORNING: u64 = 1_767_605_400_000;

/// What a step came to, if it was understood.
pub type Answer = Option<Result<Option<String>, NoMemory>>;

/// Does what a step says, or answers what it asks (`facts.rt`).
pub fn play_step(alloc: Global, desk: &mut Desk, name: &str, words: &mut Words<'_>) -> Answer {
    match name {
        "push" => {
            let admin = is_session(words.word()?)?;
            Some(push(alloc, desk, admin, words.word()?))
        }
        "push_long" => Some(push_long(alloc, desk, words.place()?)),
        "turn_over" => Some(begin_series(alloc, desk)),
        "rise" => Some(rise(alloc, desk, words.number()?, words.number()?)),
        "draw" => Some(draw(alloc, desk, words.number()?, rule_of(words)?)),
        "call" => Some(call(alloc, desk, words.word()?, words.word()?)),
        "reserve" => Some(reserve(alloc, desk, words.place()?)),
        "receive" => Some(take(alloc, desk, words.number()?)),
        _ => fact(alloc, desk, name, words),
    }
}

fn is_session(word: &str) -> Option<bool> {
    match word {
        "session" => Some(true),
        "application" => Some(false),
        _ => None,
    }
}

fn rule_of(words: &mut Words<'_>) -> Option<Rule> {
    Some(Rule {
        seed: words.number()?,
        sessions: words.u32()?,
        turns: words.u32()?,
    })
}

fn push_entry(alloc: Global, desk: &mut Desk, entry: OutEntry) -> Result<Option<String>, NoMemory> {
    let number = desk.both.log.push(alloc, entry)?;
    shown(alloc, &number)
}

fn push(
    alloc: Global,
    desk: &mut Desk,
    admin: bool,
    body: &str,
) -> Result<Option<String>, NoMemory> {
    push_entry(alloc, desk, entry(alloc, MORNING, admin, body)?)
}

fn push_long(alloc: Global, desk: &mut Desk, length: usize) -> Result<Option<String>, NoMemory> {
    let body = Bytes::of(long_body(alloc, length)?);
    let entry = OutEntry {
        at: MORNING,
        admin: false,
        body,
    };
    push_entry(alloc, desk, entry)
}

fn begin_series(alloc: Global, desk: &mut Desk) -> Result<Option<String>, NoMemory> {
    match turn_over(alloc, &mut desk.both.log)? {
        Some(series) => shown(alloc, &series),
        None => said(alloc, "no further series"),
    }
}

fn rise(alloc: Global, desk: &mut Desk, count: u64, each: u64) -> Result<Option<String>, NoMemory> {
    desk.both.log = risen(alloc, count, each)?;
    Ok(None)
}

fn draw(
    alloc: Global,
    desk: &mut Desk,
    count: u64,
    rule: Rule,
) -> Result<Option<String>, NoMemory> {
    desk.both = generated(alloc, count, rule)?;
    Ok(None)
}

fn call(alloc: Global, desk: &mut Desk, us: &str, them: &str) -> Result<Option<String>, NoMemory> {
    desk.names = names(alloc, us, them)?;
    Ok(None)
}

fn reserve(alloc: Global, desk: &mut Desk, count: usize) -> Result<Option<String>, NoMemory> {
    desk.inbound.reserve(alloc, count)?;
    Ok(None)
}

fn take(alloc: Global, desk: &mut Desk, count: u64) -> Result<Option<String>, NoMemory> {
    shown(alloc, &receive(alloc, &mut desk.inbound, count)?)
}
