//! How first messages find their session, and which session messages a gap fill passes over.

use crate::steps::Answer;
use crate::texts::soh;
use fix_fields::Fields;
use gate_io::{Bytes, NoMemory};
use row_text::{Words, said, shown};
use session_core::{Admin, MOST_SESSIONS, Names, is_session_entry, route, session_of};
use std::alloc::Global;

/// The counterparties of the sessions among which a first message is routed. The last two are the same.
const COUNTERPARTIES: [&str; 3] = ["DESK", "BUYER", "BUYER"];

/// Asks what a step of this name says. It is None where no question has the name, or the words are others.
///
///     routes BODY                    the session to which a first message binds its connection, or why to none
///     session_of BODY                the session that the message's names are
///     is_session_entry KIND          whether a gap fill passes over such a message
pub fn ask(alloc: Global, name: &str, words: &mut Words<'_>) -> Option<Answer> {
    Some(match name {
        "routes" => ask_of(alloc, Question::Route, words.word()?),
        "session_of" => ask_of(alloc, Question::Session, words.word()?),
        "is_session_entry" => shown(alloc, &is_session_entry(&admin_of(alloc, words.word()?)?)),
        _ => return None,
    })
}

// The names of all sessions.
fn names(alloc: Global) -> Result<Vec<Names>, NoMemory> {
    let mut names = Vec::new(alloc);
    for them in COUNTERPARTIES {
        names.push(names_with(alloc, them)?)?;
    }
    Ok(names)
}

// GATE's names with a counterparty.
fn names_with(alloc: Global, them: &str) -> Result<Names, NoMemory> {
    let us = Bytes::of(soh(alloc, "GATE")?);
    let them = Bytes::of(soh(alloc, them)?);
    Ok(Names { us, them })
}

// What is asked of a first message.
#[derive(Clone, Copy)]
enum Question {
    Route,
    Session,
}

// The answer for a message among the sessions.
fn answer(alloc: Global, question: Question, fields: &Fields<'_>, names: &[Names]) -> Answer {
    if names.len() > MOST_SESSIONS {
        return said(alloc, "too many sessions");
    }
    match question {
        Question::Route => shown(alloc, &route(fields, names)),
        Question::Session => shown(alloc, &session_of(fields, names)),
    }
}

fn ask_of_body(alloc: Global, question: Question, body: &[u8], names: &[Names]) -> Answer {
    match Fields::read(alloc, body) {
        Ok(fields) => answer(alloc, question, &fields, names),
        Err(error) => shown(alloc, &error),
    }
}

fn ask_of(alloc: Global, question: Question, text: &str) -> Answer {
    let names = names(alloc)?;
    let body = soh(alloc, text)?;
    ask_of_body(alloc, question, body.as_slice(), names.as_slice())
}

// A session message of a kind.
fn admin_of(alloc: Global, kind: &str) -> Option<Admin> {
    Some(match kind {
        "Logon" => Admin::Logon {
            heart: 30,
            reset: false,
        },
        "Heartbeat" => Admin::Heartbeat { test: None },
        "TestRequest" => Admin::TestRequest,
        "ResendRequest" => Admin::ResendRequest { begin: 1, last: 0 },
        "Reject" => Admin::Reject {
            seq: 1,
            tag: 49,
            kind: Bytes::of(Vec::new(alloc)),
            reason: 9,
        },
        "Logout" => Admin::Logout { text: None },
        _ => return None,
    })
}
