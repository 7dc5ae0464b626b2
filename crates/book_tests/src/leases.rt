//! What libraries do with the session, and what becomes of its leases.

ghost use Rattle.std.specs.Prelude.{IfOk};
ghost use Rattle.std.specs.List.{All};
ghost use Rattle.resend_plan.specs.Fit.{IsFit};

use crate::desk::Desk;
use crate::texts::soh;
use book_desk::put_body;
use gate_io::{Bytes, NoMemory};
use lease_core::{Shown, Standing, Word};
use row_text::{Words, done, said, shown};
use std::alloc::Global;
use std::collections::VecDeque;

/// What is done. A lease word is written LEASE OWNER STANDING COUNT, and the bodies of its sends
/// `[BODY,BODY]`, with no blanks.
#[derive(Clone, Copy)]
pub enum Act<'a> {
    /// `requests LIBRARY NR FROM`: a library asks for the session from a position on, by a number.
    Requests(u8, u32, u64),
    /// `shows WORD BODIES`: the word is gathered with the sends that it has beyond the last one.
    Shows(Word, &'a str),
    /// `takes_back WORD BODIES`: the session is taken back, and this word stood there.
    TakesBack(Word, &'a str),
    /// `lapses`: the heir didn't come.
    Lapses,
}

pub fn act_of<'a>(name: &str, words: &mut Words<'a>) -> Option<Act<'a>> {
    Some(match name {
        "requests" => Act::Requests(words.u8()?, words.u32()?, words.number()?),
        "shows" => Act::Shows(word_of(words)?, texts_of(words.word()?)?),
        "takes_back" => Act::TakesBack(word_of(words)?, texts_of(words.word()?)?),
        "lapses" => Act::Lapses,
        _ => return None,
    })
}

fn word_of(words: &mut Words<'_>) -> Option<Word> {
    Some(Word {
        lease: words.u32()?,
        owner: words.u8()?,
        standing: standing_of(words.word()?)?,
        count: words.u32()?,
    })
}

fn standing_of(word: &str) -> Option<Standing> {
    Some(match word {
        "Active" => Standing::Active,
        "Released" => Standing::Released,
        "Revoked" => Standing::Revoked,
        _ => return None,
    })
}

// What stands between the brackets.
fn texts_of(word: &str) -> Option<&str> {
    word.strip_prefix("[")?.strip_suffix("]")
}

// Bodies that can be sent.
fn bodies_of(alloc: Global, texts: &str) -> Result<VecDeque<Bytes>, NoMemory>
    ensures { IfOk result (λ bodies. All IsFit bodies.items) }
{
    let mut bodies = VecDeque::new(alloc);
    if texts.is_empty() {
        return Ok(bodies);
    }
    for text in texts.split(',') {
        put_body(&mut bodies, soh(alloc, text)?)?;
    }
    Ok(bodies)
}

/// Does it. Answers what it comes to.
pub fn perform(alloc: Global, desk: &mut Desk, act: Act<'_>) -> Result<Option<String>, NoMemory> {
    match act {
        Act::Requests(library, nr, from) => match desk.request(library, nr, from)? {
            Some(reply) => shown(alloc, &reply),
            None => said(alloc, "no such library"),
        },
        Act::Shows(w, texts) => {
            let bodies = bodies_of(alloc, texts)?;
            what_is_shown(alloc, desk.show(alloc, w, bodies)?)
        }
        Act::TakesBack(w, texts) => {
            let bodies = bodies_of(alloc, texts)?;
            what_is_shown(alloc, desk.time_out(alloc, w, bodies)?)
        }
        Act::Lapses => done(alloc, desk.lapse()?),
    }
}

// What a word added to the journal, if it may be shown.
fn what_is_shown(alloc: Global, added: Option<Shown>) -> Result<Option<String>, NoMemory> {
    match added {
        Some(added) => shown(alloc, &added),
        None => said(alloc, "that it can't be shown"),
    }
}
