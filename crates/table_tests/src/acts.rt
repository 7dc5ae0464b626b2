//! What the engine does in a row.
ghost use Rattle.std.specs.Prelude.{◌≡◌};

use crate::engine::Engine;
use lease_core::{Word, write_word};
use lease_words::Item;
use row_text::Words;
use row_text::answers::{Answer, lease, made, shown, shown_some, text, with_body};
use std::alloc::Global;

/// An act of the engine, mostly on a session.
#[derive(Clone, Copy)]
pub(crate) enum Act {
    // Its word, and its word as a number.
    Look(u16),
    Number(u16),
    // A look, and a grant to a library.
    Grant(u16, u8),
    Revoke(u16),
    Take(u16),
    // A count of the first session.
    Publish(u64),
    Beats(u8),
}

/// The act of this name. It is None where there is none, or the words are others.
pub(crate) fn act_of(name: &str, words: &mut Words<'_>) -> Option<Act> {
    Some(match name {
        "look" => Act::Look(words.u16()?),
        "number" => Act::Number(words.u16()?),
        "grant" => Act::Grant(words.u16()?, words.u8()?),
        "revoke" => Act::Revoke(words.u16()?),
        "take" => Act::Take(words.u16()?),
        "publish" => Act::Publish(words.number()?),
        "beats" => Act::Beats(words.u8()?),
        _ => return None,
    })
}

// The word as a number, where it has its place in one.
fn number(alloc: Global, word: Option<Word>) -> Answer {
    match word {
        Some(word) if word.lease < 1 << 24 && word.owner < 64 => shown(alloc, &write_word(word)),
        _ => text(alloc, "no number"),
    }
}

fn shown_item(alloc: Global, item: Option<Item>) -> Answer {
    match item {
        Some(item) => with_body(lease(alloc, Some(item.lease))?, item.body.as_slice()),
        None => lease(alloc, None),
    }
}

/// Does it, and says what it came to.
pub(crate) fn do_act(alloc: Global, engine: &mut Engine<'_>, act: Act) -> Answer
    ensures { engine.new.leases ≡ engine.old.leases }
{
    match act {
        Act::Look(s) => shown_some(alloc, engine.look(s).as_ref()),
        Act::Number(s) => number(alloc, engine.look(s)),
        Act::Grant(s, library) => {
            engine.look(s);
            lease(alloc, engine.grant(s, library))
        }
        Act::Revoke(s) => shown_some(alloc, engine.revoke(s).as_ref()),
        Act::Take(s) => shown_item(alloc, engine.take(s)),
        Act::Publish(count) => made(alloc, engine.publish(count)),
        Act::Beats(library) => shown_some(alloc, engine.beats(library).as_ref()),
    }
}
