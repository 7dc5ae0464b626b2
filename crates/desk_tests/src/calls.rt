//! What libraries do.

use crate::texts::{order, soh};
use gate_io::NoMemory;
use library_play::{Application, Seen};
use row_text::{Words, done, said, shown};
use std::alloc::Global;

/// What a library does. Its number stands before the other words.
#[derive(Clone, Copy)]
pub enum Call<'a> {
    /// `requests LIBRARY S FROM`: it requests a session from a position on, by a number.
    Requests(u16, u64),
    /// `polls LIBRARY`
    Polls,
    /// `reads LIBRARY S LEASE FIRST END`: it polls the session's messages by this lease, from one position
    /// to before another. The order with number 2 has position 0.
    Reads(u16, u32, u64, u64),
    /// `sends LIBRARY S BODY`: the lease, and the so-many-th time, or why not. The body has no blanks.
    Sends(u16, &'a str),
    /// `gives_back LIBRARY S HEIR`: it gives a session back to an heir or, where that is 0, to nobody, by a
    /// lease and behind so many sends.
    GivesBack(u16, u8),
    /// `beats LIBRARY`
    Beats,
    /// `is_done LIBRARY FINISHED`: it tells that it asks nothing more, and whether its work was done.
    IsDone(bool),
}

pub fn call_of<'a>(name: &str, words: &mut Words<'a>) -> Option<Call<'a>> {
    Some(match name {
        "requests" => Call::Requests(words.u16()?, words.number()?),
        "polls" => Call::Polls,
        "reads" => Call::Reads(words.u16()?, words.u32()?, words.number()?, words.number()?),
        "sends" => Call::Sends(words.u16()?, words.word()?),
        "gives_back" => Call::GivesBack(words.u16()?, words.u8()?),
        "beats" => Call::Beats,
        "is_done" => Call::IsDone(truth_of(words.word()?)?),
        _ => return None,
    })
}

fn truth_of(word: &str) -> Option<bool> {
    match word {
        "true" => Some(true),
        "false" => Some(false),
        _ => None,
    }
}

/// Makes it. Answers what it comes to.
pub fn make_call(
    alloc: Global,
    library: &mut Application<'_>,
    call: Call<'_>,
) -> Result<Option<String>, NoMemory> {
    match call {
        Call::Requests(s, from) => shown(alloc, &library.request(s, from)),
        Call::Polls => shown(alloc, &library.poll()),
        Call::Reads(s, lease, first, end) => reads(alloc, library, s, lease, first, end),
        Call::Sends(s, text) => send(alloc, library, s, text),
        Call::GivesBack(s, 0) => shown(alloc, &library.release(s)),
        Call::GivesBack(s, heir) => shown(alloc, &library.release_to(s, heir)),
        Call::Beats => {
            library.beat();
            Ok(None)
        }
        Call::IsDone(finished) => done(alloc, library.done(finished).is_ok()),
    }
}

fn send(
    alloc: Global,
    library: &mut Application<'_>,
    s: u16,
    text: &str,
) -> Result<Option<String>, NoMemory> {
    match library.send(alloc, s, soh(alloc, text)?.as_slice())? {
        Some(sent) => shown(alloc, &sent),
        None => said(alloc, "that another body came back"),
    }
}

// What a library polls first in place of the orders of these positions, each once and in order.
fn reads(
    alloc: Global,
    library: &mut Application<'_>,
    s: u16,
    lease: u32,
    first: u64,
    end: u64,
) -> Result<Option<String>, NoMemory> {
    for pos in first..end {
        let wanted = order(alloc, s, pos.saturating_add(2))?;
        let seen = library.poll();
        if seen != (Seen::Message { s, lease, pos }) {
            return shown(alloc, &seen);
        }
        if library.bytes() != wanted.as_slice() {
            return said(alloc, "that a message has other bytes");
        }
    }
    Ok(None)
}
