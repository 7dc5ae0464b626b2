//! What happens to a row's session.

use crate::desk::Desk;
use crate::steps::Answer;
use crate::texts::T;
use gate_io::{Bytes, LAST_MOMENT, NoMemory};
use row_text::{Words, done, legible, said, shown};
use session_core::Act;
use std::alloc::Global;
use std::fmt::Write;

/// The word for no acts and no end.
const NOTHING: &str = "nothing";

/// Does what a step of this name says. It is None where no act has the name, or the words are others.
///
///     at PAST                        the clock stands at so many milliseconds past the morning's beginning,
///                                    or at the `last` moment that there is
///     hears BODY                     a message comes, and its effects
///     hears_test NUMBER LENGTH       a TestRequest comes whose ID has so many characters, and its effects, or
///                                    that they are `its Heartbeat`
///     hears_tests FIRST LAST         TestRequests come, one with each of these numbers, which is its ID too
///     frees_tests FIRST LAST BODY    a message comes, and its effects are the Heartbeats of these TestRequests
///     asks                           the session dialled: the acts as `Debug` prints them, and the effects
///     ticks                          whether something is due by `due`, and the effects
///     sent                           an item for the connection is queued
///     leaves                         the connection ended
pub fn perform(
    alloc: Global,
    desk: &mut Desk,
    name: &str,
    words: &mut Words<'_>,
) -> Option<Answer> {
    Some(match name {
        "at" => at(alloc, desk, words.word()?),
        "hears" => hears(alloc, desk, words.word()?),
        "hears_test" => hears_test(alloc, desk, words.u32()?, words.u32()?),
        "hears_tests" => hears_tests(alloc, desk, words.u32()?, words.u32()?),
        "frees_tests" => frees_tests(alloc, desk, words.u32()?, words.u32()?, words.word()?),
        _ => return plain_act(alloc, desk, name),
    })
}

// An act that has no words.
fn plain_act(alloc: Global, desk: &mut Desk, name: &str) -> Option<Answer> {
    match name {
        "asks" => Some(asks(alloc, desk)),
        "ticks" => Some(ticks(alloc, desk)),
        "sent" => {
            desk.sent();
            Some(Ok(None))
        }
        "leaves" => {
            desk.leave();
            Some(Ok(None))
        }
        _ => None,
    }
}

fn at(alloc: Global, desk: &mut Desk, word: &str) -> Answer {
    if word == "last" {
        desk.set(LAST_MOMENT);
        return Ok(None);
    }
    match word.parse::<u64>() {
        Ok(past) => {
            desk.set(T.saturating_add(past));
            Ok(None)
        }
        Err(_) => said(alloc, "no moment"),
    }
}

// What effects come to.
fn told(alloc: Global, effects: String) -> Answer {
    if effects.is_empty() {
        return said(alloc, NOTHING);
    }
    Ok(Some(effects))
}

fn hears(alloc: Global, desk: &mut Desk, body: &str) -> Answer {
    let effects = desk.receive(alloc, body)?;
    told(alloc, effects)
}

// A TestRequest with this number and this ID.
fn test_request(alloc: Global, number: u32, id: &str) -> Result<String, NoMemory> {
    Ok(format!(in alloc; "35=1|({number})112={id}|")?)
}

fn hears_test(alloc: Global, desk: &mut Desk, number: u32, length: u32) -> Answer {
    let mut id = String::new(alloc);
    for _ in 0..length {
        id.push('t')?;
    }
    let request = test_request(alloc, number, id.as_str())?;
    let effects = desk.receive(alloc, request.as_str())?;
    let answer = format!(in alloc; "[send 35=0|112={id}|]")?;
    if effects.as_str() == answer.as_str() {
        return said(alloc, "its Heartbeat");
    }
    told(alloc, effects)
}

fn hears_tests(alloc: Global, desk: &mut Desk, first: u32, last: u32) -> Answer {
    for number in first..=last {
        let id = format!(in alloc; "{number}")?;
        let request = test_request(alloc, number, id.as_str())?;
        desk.receive(alloc, request.as_str())?;
    }
    Ok(None)
}

fn frees_tests(alloc: Global, desk: &mut Desk, first: u32, last: u32, body: &str) -> Answer {
    let effects = desk.receive(alloc, body)?;
    let mut answers = String::new(alloc);
    for number in first..=last {
        write!(answers, "[send 35=0|112={number}|]")?;
    }
    if effects.as_str() == answers.as_str() {
        return Ok(None);
    }
    told(alloc, effects)
}

fn asks(alloc: Global, desk: &mut Desk) -> Answer {
    let Some(effects) = desk.ask(alloc)? else {
        return done(alloc, false);
    };
    let text = desk.tell(alloc, &effects)?;
    with_text(alloc, effects.acts.as_slice(), text.as_str())
}

// Acts as `Debug` prints them, and their text.
fn with_text(alloc: Global, acts: &[Act], text: &str) -> Answer {
    Ok(Some(format!(in alloc; "{acts:?} {text}")?))
}

fn ticks(alloc: Global, desk: &mut Desk) -> Answer {
    let is_due = desk.due().is_some_and(|due| due <= desk.moment());
    let effects = desk.tick(alloc)?;
    let word = if is_due { "due" } else { "not due" };
    let effects = if effects.is_empty() {
        NOTHING
    } else {
        effects.as_str()
    };
    Ok(Some(format!(in alloc; "{word}, {effects}")?))
}

/// What is so of the session. It is None where no question has the name.
///
///     expects                        the number that it expects
///     due                            when the next tick does something, in milliseconds past the morning's
///                                    beginning
///     us                             the gateway's name
///     them                           the counterparty's
pub fn what_is(alloc: Global, desk: &Desk, name: &str) -> Option<Answer> {
    Some(match name {
        "expects" => shown(alloc, &desk.expected()),
        "due" => shown(alloc, &desk.due().map(|due| due.wrapping_sub(T))),
        "us" => name_of(alloc, &desk.names().us),
        "them" => name_of(alloc, &desk.names().them),
        _ => return None,
    })
}

fn name_of(alloc: Global, name: &Bytes) -> Answer {
    Ok(Some(legible(alloc, name.as_slice())?))
}
