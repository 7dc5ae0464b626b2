//! The calls of library 1.

use crate::many;
use library_play::{Application, Seen};
use row_text::Words;
use row_text::answers::{Answer, body_of, made, shown, text, with_body};
use std::alloc::Global;

/// A call of library 1, or many of one kind.
#[derive(Clone, Copy)]
pub(crate) enum Call {
    Request,
    Asking,
    Poll,
    Send,
    Release,
    ReleaseTo,
    Beat,
    Done,
    Waited,
    // Bodies of so many bytes that are sent, of one field or of none; sends; and words that all is done.
    SendLong,
    SendNoise,
    Sends,
    Dones,
}

pub(crate) const CALLS: [(&str, Call); 13] = [
    ("request", Call::Request),
    ("asking", Call::Asking),
    ("poll", Call::Poll),
    ("send", Call::Send),
    ("release", Call::Release),
    ("release_to", Call::ReleaseTo),
    ("beat", Call::Beat),
    ("done", Call::Done),
    ("waited", Call::Waited),
    ("send_long", Call::SendLong),
    ("send_noise", Call::SendNoise),
    ("sends", Call::Sends),
    ("dones", Call::Dones),
];

// What a poll found, with the bytes of a message.
fn poll(alloc: Global, library: &mut Application) -> Answer {
    let seen = library.poll();
    let words = shown(alloc, &seen)?;
    match seen {
        Seen::Message { .. } => with_body(words, library.bytes()),
        _ => Ok(words),
    }
}

fn send(alloc: Global, library: &mut Application, s: u16, body: &[u8]) -> Answer {
    match library.send(alloc, s, body)? {
        Some(answer) => shown(alloc, &answer),
        None => text(alloc, "another body came back"),
    }
}

fn send_word(alloc: Global, library: &mut Application, s: u16, word: &str) -> Answer {
    let body = body_of(alloc, word)?;
    send(alloc, library, s, body.as_slice())
}

fn send_long(alloc: Global, library: &mut Application, length: usize) -> Answer {
    let body = many::long_body(alloc, length)?;
    send(alloc, library, 0, body.as_slice())
}

fn send_noise(alloc: Global, library: &mut Application, length: usize) -> Answer {
    let body = vec![in alloc; b'x'; length]?;
    send(alloc, library, 0, body.as_slice())
}

fn sends(alloc: Global, library: &mut Application, count: u32) -> Answer {
    made(alloc, many::sends(alloc, library, count)?)
}

/// Makes a call with what the words say. It is None where they are others.
pub(crate) fn play_call(
    alloc: Global,
    library: &mut Application,
    call: Call,
    words: &mut Words<'_>,
) -> Option<Answer> {
    Some(match call {
        Call::Request => shown(alloc, &library.request(words.u16()?, words.number()?)),
        Call::Asking => shown(alloc, &library.asking()),
        Call::Poll => poll(alloc, library),
        Call::Send => send_word(alloc, library, words.u16()?, words.word()?),
        Call::Release => shown(alloc, &library.release(words.u16()?)),
        Call::ReleaseTo => shown(alloc, &library.release_to(words.u16()?, words.u8()?)),
        Call::Beat => {
            library.beat();
            made(alloc, true)
        }
        Call::Done => shown(alloc, &library.done(words.word()?.parse::<bool>().ok()?)),
        Call::Waited => shown(alloc, &library.waited()),
        Call::SendLong => send_long(alloc, library, words.place()?),
        Call::SendNoise => send_noise(alloc, library, words.place()?),
        Call::Sends => sends(alloc, library, words.u32()?),
        Call::Dones => made(alloc, many::dones(library, words.u32()?)),
    })
}
