//! What both sides do together.

use crate::engine::Engine;
use crate::many;
use library_play::Application;
use row_text::Words;
use row_text::answers::{Answer, lease, made};
use std::alloc::Global;

#[derive(Clone, Copy)]
pub(crate) enum Pair {
    // A request from a position on that is granted, with the poll of that.
    Hold,
    // Requests of the numbers to this one, each refused; and polls of the log's messages from one
    // position to before another.
    Requests,
    Reads,
}

pub(crate) const PAIRS: [(&str, Pair); 3] = [
    ("hold", Pair::Hold),
    ("requests", Pair::Requests),
    ("reads", Pair::Reads),
];

/// Does what the words say. It is None where they are others.
pub(crate) fn play_pair(
    alloc: Global,
    engine: &mut Engine,
    library: &mut Application,
    pair: Pair,
    words: &mut Words<'_>,
) -> Option<Answer> {
    Some(match pair {
        Pair::Hold => lease(alloc, many::hold(engine, library, words.number()?)),
        Pair::Requests => made(alloc, many::requests(engine, library, words.u32()?)),
        Pair::Reads => {
            let first = words.number()?;
            let end = words.number()?;
            made(alloc, many::reads(engine, library, first, end))
        }
    })
}
