//! The acts of the engine.

use crate::engine::Engine;
use crate::many;
use lease_core::Why;
use row_text::Words;
use row_text::answers::{Answer, body_of, lease, made, shown, text, with_body};
use std::alloc::Global;

/// An act of the engine, or many of one kind.
#[derive(Clone, Copy)]
pub(crate) enum Act {
    // `Hear` pops a command.
    Hear,
    Grant,
    Revoke,
    Look,
    Take,
    Beats,
    Arrive,
    Cursor,
    Pump,
    Publish,
    // An item is taken whose body is the long one of so many bytes; messages arrive and are published;
    // and two pumps push so many messages.
    TakeLong,
    Arrivals,
    PumpTwice,
}

pub(crate) const ACTS: [(&str, Act); 13] = [
    ("hear", Act::Hear),
    ("grant", Act::Grant),
    ("revoke", Act::Revoke),
    ("look", Act::Look),
    ("take", Act::Take),
    ("beats", Act::Beats),
    ("arrive", Act::Arrive),
    ("cursor", Act::Cursor),
    ("pump", Act::Pump),
    ("publish", Act::Publish),
    ("take_long", Act::TakeLong),
    ("arrivals", Act::Arrivals),
    ("pump_twice", Act::PumpTwice),
];

/// What the engine tells the library.
#[derive(Clone, Copy)]
pub(crate) enum Tale {
    Granted,
    Refused,
    Message,
}

pub(crate) const TALES: [(&str, Tale); 3] = [
    ("tell_granted", Tale::Granted),
    ("tell_refused", Tale::Refused),
    ("tell_message", Tale::Message),
];

fn take(alloc: Global, engine: &mut Engine) -> Answer {
    match engine.take() {
        Some(item) => with_body(lease(alloc, Some(item.lease))?, item.body.as_slice()),
        None => lease(alloc, None),
    }
}

fn take_long(alloc: Global, engine: &mut Engine, length: usize) -> Answer {
    let body = many::long_body(alloc, length)?;
    match engine.take() {
        Some(item) if item.body.as_slice() == body.as_slice() => lease(alloc, Some(item.lease)),
        Some(_) => text(alloc, "another body"),
        None => lease(alloc, None),
    }
}

fn arrive(alloc: Global, engine: &mut Engine, word: &str) -> Answer {
    let body = body_of(alloc, word)?;
    let pos = engine.arrive(alloc, body.as_slice())?;
    shown(alloc, &pos)
}

fn arrivals(alloc: Global, engine: &mut Engine, count: u64) -> Answer {
    made(alloc, many::arrivals(alloc, engine, count)?)
}

fn pump(alloc: Global, engine: &mut Engine) -> Answer {
    let pumped = engine.pump(alloc)?;
    shown(alloc, &pumped)
}

fn pump_twice(alloc: Global, engine: &mut Engine, count: u64) -> Answer {
    made(alloc, many::pump_twice(alloc, engine, count)?)
}

/// Does an act with what the words say. It is None where they are others.
pub(crate) fn play_act(
    alloc: Global,
    engine: &mut Engine,
    act: Act,
    words: &mut Words<'_>,
) -> Option<Answer> {
    Some(match act {
        Act::Hear => shown(alloc, &engine.command()),
        Act::Grant => lease(alloc, engine.grant(words.u8()?)),
        Act::Revoke => shown(alloc, &engine.revoke()),
        Act::Look => shown(alloc, &engine.look()),
        Act::Take => take(alloc, engine),
        Act::Beats => shown(alloc, &engine.beats(words.u8()?)),
        Act::Arrive => arrive(alloc, engine, words.word()?),
        Act::Cursor => shown(alloc, &engine.cursor()),
        Act::Pump => pump(alloc, engine),
        Act::Publish => {
            engine.publish();
            made(alloc, true)
        }
        Act::TakeLong => take_long(alloc, engine, words.place()?),
        Act::Arrivals => arrivals(alloc, engine, words.number()?),
        Act::PumpTwice => pump_twice(alloc, engine, words.number()?),
    })
}

// Why a request is refused.
fn why(words: &mut Words<'_>) -> Option<Why> {
    let name = words.word()?;
    if name == "other_owner" {
        let owner = words.u8()?;
        let lease = words.u32()?;
        return Some(Why::OtherOwner { owner, lease });
    }
    if name == "unknown_session" {
        let s = words.u16()?;
        return Some(Why::UnknownSession { s });
    }
    None
}

fn tell_message(alloc: Global, engine: &mut Engine, s: u16, lease: u32, pos: u64) -> Answer {
    made(alloc, engine.tell_message(alloc, s, lease, pos)?)
}

/// Tells the library what the words say. It is None where they are others.
pub(crate) fn play_tale(
    alloc: Global,
    engine: &mut Engine,
    tale: Tale,
    words: &mut Words<'_>,
) -> Option<Answer> {
    Some(match tale {
        Tale::Granted => {
            let nr = words.u32()?;
            let s = words.u16()?;
            made(
                alloc,
                engine.tell_granted(nr, s, words.u32()?, words.number()?),
            )
        }
        Tale::Refused => {
            let nr = words.u32()?;
            let s = words.u16()?;
            made(alloc, engine.tell_refused(nr, s, why(words)?))
        }
        Tale::Message => {
            let s = words.u16()?;
            tell_message(alloc, engine, s, words.u32()?, words.number()?)
        }
    })
}
