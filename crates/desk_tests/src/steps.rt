//! The steps of a row between its outset and its requests past the rings.

use crate::calls::{Call, call_of};
use crate::comings::{Coming, coming_of};
use crate::deeds::{Deed, deed_of};
use crate::facts::{Fact, fact_of};
use row_text::Words;

/// What is done or asked.
#[derive(Clone, Copy)]
pub enum Step<'a> {
    /// `at PAST`: the clock stands at so many milliseconds past the morning's beginning.
    At(u64),
    Comes(Coming<'a>),
    Does(Deed),
    /// A library is named by its number, 1 or 2.
    Calls(u8, Call<'a>),
    /// `tells S`: the entries that came to the session's journal since the last of these steps.
    Tells(usize),
    /// `keeps S`: the expected numbers with which the entries are kept that came to the session since the
    /// last of these steps.
    Keeps(u16),
    Is(Fact),
}

impl Step<'_> {
    // Whether it comes to something, which its line has to say.
    fn has_result(self) -> bool {
        match self {
            Step::At(_) | Step::Comes(_) => false,
            Step::Does(deed) => matches!(deed, Deed::Ticks(_) | Deed::Serves(_)),
            Step::Calls(_, call) => {
                !matches!(call, Call::Reads(..) | Call::Beats | Call::IsDone(_))
            }
            Step::Tells(_) | Step::Keeps(_) | Step::Is(_) => true,
        }
    }
}

/// The step on a line, and what it has to come to, if that is something.
pub fn read_step(line: &str) -> Option<(Step<'_>, Option<&str>)> {
    let mut words = Words::of(line);
    let name = words.word()?;
    if name == "hears" {
        let k = words.place()?;
        let body = rest_of(words)?;
        return Some((Step::Comes(Coming::Hears(k, body)), None));
    }
    let step = step_of(name, &mut words)?;
    let wanted = rest_of(words);
    if step.has_result() != wanted.is_some() {
        return None;
    }
    Some((step, wanted))
}

/// The words that are left, if there are some.
pub fn rest_of(words: Words<'_>) -> Option<&str> {
    if words.is_over() {
        return None;
    }
    Some(words.rest())
}

fn step_of<'a>(name: &str, words: &mut Words<'a>) -> Option<Step<'a>> {
    Some(match name {
        "at" => Step::At(words.number()?),
        "tells" => Step::Tells(words.place()?),
        "keeps" => Step::Keeps(words.u16()?),
        "connect" | "orders" | "ends" | "writes" => Step::Comes(coming_of(name, words)?),
        "gathers" | "ticks" | "dials" | "takes_back" | "publishes" | "serves" => {
            Step::Does(deed_of(name, words)?)
        }
        "requests" | "polls" | "reads" | "sends" | "gives_back" | "beats" | "is_done" => {
            Step::Calls(words.u8()?, call_of(name, words)?)
        }
        _ => Step::Is(fact_of(name, words)?),
    })
}
