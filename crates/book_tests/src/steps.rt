//! The steps of a row.

use crate::comings::{Coming, coming_of};
use crate::facts::{Fact, fact_of};
use crate::leases::{Act, act_of};
use row_text::Words;

/// What is done or asked.
#[derive(Clone, Copy)]
pub enum Step<'a> {
    /// `at PAST`: the clock stands at so many milliseconds past the morning's beginning.
    At(u64),
    /// `ticks`: the clock asks the session what is due.
    Ticks,
    Comes(Coming<'a>),
    OfLease(Act<'a>),
    /// `writes MOST`: so many bytes of what waits on the last connection are written, or what there is.
    /// It comes to these bytes.
    Writes(usize),
    /// `writes_past MOST`: the same of the connection before it.
    WritesPast(usize),
    /// `tells`: the entries that came to the journal since the last of these steps.
    Tells,
    Is(Fact),
}

/// How many bytes the word `all` stands for, which are more than ever wait in a row.
const ALL: usize = 1_048_576;

impl Step<'_> {
    // Whether it comes to something, which its line has to say.
    fn has_result(self) -> bool {
        match self {
            Step::At(_) | Step::Ticks | Step::Comes(_) => false,
            Step::OfLease(act) => !matches!(act, Act::Lapses),
            Step::Writes(_) | Step::WritesPast(_) | Step::Tells => true,
            Step::Is(fact) => !matches!(fact, Fact::Stands),
        }
    }
}

/// The step on a line, and what it has to come to, if that is something.
pub fn read_step(line: &str) -> Option<(Step<'_>, Option<&str>)> {
    let mut words = Words::of(line);
    let name = words.word()?;
    let step = step_of(name, &mut words)?;
    let wanted = rest_of(words);
    if step.has_result() != wanted.is_some() {
        return None;
    }
    Some((step, wanted))
}

// The words that are left, if there are some.
fn rest_of(words: Words<'_>) -> Option<&str> {
    if words.is_over() {
        return None;
    }
    Some(words.rest())
}

fn step_of<'a>(name: &str, words: &mut Words<'a>) -> Option<Step<'a>> {
    Some(match name {
        "at" => Step::At(words.number()?),
        "ticks" => Step::Ticks,
        "writes" => Step::Writes(most_of(words.word()?)?),
        "writes_past" => Step::WritesPast(most_of(words.word()?)?),
        "tells" => Step::Tells,
        _ => return other_step(name, words),
    })
}

// A step of a name that another file has.
fn other_step<'a>(name: &str, words: &mut Words<'a>) -> Option<Step<'a>> {
    if let Some(coming) = coming_of(name, words) {
        return Some(Step::Comes(coming));
    }
    if let Some(act) = act_of(name, words) {
        return Some(Step::OfLease(act));
    }
    Some(Step::Is(fact_of(name, words)?))
}

// How many bytes are written at most.
fn most_of(word: &str) -> Option<usize> {
    if word == "all" {
        return Some(ALL);
    }
    word.parse::<usize>().ok()
}
