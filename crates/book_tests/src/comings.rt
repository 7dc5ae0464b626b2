//! What comes from outside on the session's connections.

use crate::desk::Desk;
use crate::texts::{frame, soh};
use gate_io::NoMemory;
use row_text::Words;
use session_core::Cause;
use std::alloc::Global;

/// What comes. A text has no blanks.
#[derive(Clone, Copy)]
pub enum Coming<'a> {
    /// `connect`: the next connection is accepted.
    Connect,
    /// `dials`: the session dials the next connection.
    Dials,
    /// `hears BODY`: the frame of a body comes on the last connection.
    Hears(&'a str),
    /// `hears_bytes TEXT`: bytes come on it.
    HearsBytes(&'a str),
    /// `ends CAUSE`: it ends. Behind `SlowConsumer` stands how many items wait.
    Ends(Cause),
}

pub fn coming_of<'a>(name: &str, words: &mut Words<'a>) -> Option<Coming<'a>> {
    Some(match name {
        "connect" => Coming::Connect,
        "dials" => Coming::Dials,
        "hears" => Coming::Hears(words.word()?),
        "hears_bytes" => Coming::HearsBytes(words.word()?),
        "ends" => Coming::Ends(cause_of(words)?),
        _ => return None,
    })
}

// The cause by which the outside ends a connection.
fn cause_of(words: &mut Words<'_>) -> Option<Cause> {
    Some(match words.word()? {
        "End" => Cause::End,
        "ReadFault" => Cause::ReadFault,
        "WriteFault" => Cause::WriteFault,
        "SlowConsumer" => Cause::SlowConsumer {
            waiting: words.number()?,
        },
        _ => return None,
    })
}

/// It comes. Says whether it could.
pub fn come(alloc: Global, desk: &mut Desk, coming: Coming<'_>) -> Result<bool, NoMemory> {
    match coming {
        Coming::Connect => desk.connect(alloc),
        Coming::Dials => desk.dial(alloc),
        Coming::Hears(text) => {
            let body = soh(alloc, text)?;
            desk.take(alloc, frame(alloc, body.as_slice())?.as_slice())
        }
        Coming::HearsBytes(text) => desk.take(alloc, soh(alloc, text)?.as_slice()),
        Coming::Ends(cause) => {
            desk.end(cause)?;
            Ok(true)
        }
    }
}
