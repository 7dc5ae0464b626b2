//! What the command of a line comes to.

use crate::acts::{ACTS, TALES, play_act, play_tale};
use crate::calls::{CALLS, play_call};
use crate::engine::Engine;
use crate::pairs::{PAIRS, play_pair};
use library_play::Application;
use row_text::Words;
use row_text::answers::Answer;
use std::alloc::Global;

// What a table has under a name.
fn named<T: Copy>(table: &[(&str, T)], name: &str) -> Option<T> {
    for row in table {
        if row.0 == name {
            return Some(row.1);
        }
    }
    None
}

// What comes of the command with this name and these words.
fn play(
    alloc: Global,
    engine: &mut Engine,
    library: &mut Application,
    name: &str,
    words: &mut Words<'_>,
) -> Option<Answer> {
    if let Some(known) = named(&CALLS, name) {
        return play_call(alloc, library, known, words);
    }
    if let Some(known) = named(&ACTS, name) {
        return play_act(alloc, engine, known, words);
    }
    if let Some(known) = named(&TALES, name) {
        return play_tale(alloc, engine, known, words);
    }
    play_pair(alloc, engine, library, named(&PAIRS, name)?, words)
}

/// Plays a command, and answers what it came to. It is None where the command isn't known, or has
/// a word too few or too many.
pub(crate) fn answer(
    alloc: Global,
    engine: &mut Engine,
    library: &mut Application,
    command: &str,
) -> Option<Answer> {
    let mut words = Words::of(command);
    let name = words.word()?;
    let answer = play(alloc, engine, library, name, &mut words)?;
    if words.is_over() { Some(answer) } else { None }
}
