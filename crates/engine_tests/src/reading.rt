//! Lines are read as steps.

use crate::facts::Fact;
use crate::left::Left;
use crate::steps::{Act, Step};
use row_text::Words;

/// The step that a line tells. It is None where there is no such step, and where words are missing or too
/// many.
pub(crate) fn step_of(line: &str) -> Option<Step<'_>> {
    let mut words = Words::of(line);
    let name = words.word()?;
    if let Some(step) = step_with_text(name, words) {
        return Some(step);
    }
    if let Some(fact) = fact_of(name, words) {
        return Some(Step::Is(fact));
    }
    if let Some(step) = act_of(name, words) {
        return Some(step);
    }
    let step = step_of_numbers(name, &mut words)?;
    if words.is_over() { Some(step) } else { None }
}

// All that is left of a line, which has to be something.
fn text(words: Words<'_>) -> Option<&str> {
    let text = words.rest();
    if text.is_empty() { None } else { Some(text) }
}

// A step without a text.
fn step_of_numbers<'a>(name: &str, words: &mut Words<'a>) -> Option<Step<'a>> {
    Some(match name {
        "at" => Step::At(words.number()?),
        "connect" => Step::Connect,
        "answers" => Step::Answers,
        "orders" => Step::Orders(words.u32()?, words.number()?, words.number()?),
        "finishes" => Step::Finishes(words.u32()?),
        "fails_read" => Step::FailsRead(words.u32()?),
        "fails_write" => Step::FailsWrite(words.u32()?, words.number()?),
        "fails_accept" => Step::FailsAccept,
        "blocks" => Step::Blocks(words.u32()?, words.number()?),
        "unblocks" => Step::Unblocks(words.u32()?),
        "turn" => Step::Turn,
        "turns" => Step::Turns(words.u32()?),
        "took_nothing" => Step::Is(Fact::TookNothing(words.u32()?)),
        _ => Step::OfLibrary(words.u8()?, act_of_numbers(name, words)?),
    })
}

// What a library does, without a text.
fn act_of_numbers<'a>(name: &str, words: &mut Words<'a>) -> Option<Act<'a>> {
    Some(match name {
        "reads" => Act::Reads(words.u32()?, words.number()?, words.number()?),
        "passes" => Act::Passes(words.u32()?, words.number()?, words.number()?),
        "sends_longest" => {
            Act::SendsLongest(words.u16()?, words.u32()?, words.u32()?, words.u32()?)
        }
        "beats" => Act::Beats,
        _ => return None,
    })
}

// A step with a text at its end.
fn step_with_text<'a>(name: &str, mut words: Words<'a>) -> Option<Step<'a>> {
    Some(match name {
        "hears" => Step::Hears(words.u32()?, text(words)?),
        "hears_each" => {
            let c = words.u32()?;
            Step::HearsEach(c, words.number()?, words.number()?, text(words)?)
        }
        "trickles" => Step::Trickles(words.u32()?, text(words)?),
        "tells" => Step::Tells(words.u16()?, text(words)?),
        _ => return None,
    })
}

// What a library does, with a text at its end.
fn act_of<'a>(name: &str, mut words: Words<'a>) -> Option<Step<'a>> {
    let library = words.u8()?;
    let act = match name {
        "requests" => Act::Requests(words.u16()?, words.number()?, text(words)?),
        "polls" => Act::Polls(text(words)?),
        "holds" => Act::Holds(text(words)?),
        "sends" => Act::Sends(words.u16()?, words.word()?, text(words)?),
        "gives_back" => Act::GivesBack(words.u16()?, text(words)?),
        "hands_on" => Act::HandsOn(words.u16()?, words.u8()?, text(words)?),
        "is_done" => Act::IsDone(yes_or_no(words.word()?)?, text(words)?),
        _ => return None,
    };
    Some(Step::OfLibrary(library, act))
}

fn yes_or_no(word: &str) -> Option<bool> {
    match word {
        "true" => Some(true),
        "false" => Some(false),
        _ => None,
    }
}

// What is so, of the engine, its last turn and its wire.
fn fact_of<'a>(name: &str, words: Words<'a>) -> Option<Fact<'a>> {
    match fact_of_text(name, text(words)?) {
        None => fact_at(name, words),
        fact => fact,
    }
}

// What is so, where a text alone says it.
fn fact_of_text<'a>(name: &str, text: &'a str) -> Option<Fact<'a>> {
    Some(match name {
        "accepts" => Fact::Accepts(text),
        "reads_are" => Fact::Reads(text),
        "serves" => Fact::Serves(text),
        "writes" => Fact::Writes(text),
        "connections" => Fact::Connections(text),
        "moment" => Fact::Moment(text),
        "closed" => Fact::Closed(text),
        "asked" => Fact::Asked(text),
        "dialled" => Fact::Dialled(text),
        _ => return None,
    })
}

// What is so of the session or connection with a number, or at a place.
fn fact_at<'a>(name: &str, mut words: Words<'a>) -> Option<Fact<'a>> {
    Some(match name {
        "bound" => Fact::Bound(words.u16()?, text(words)?),
        "owner" => Fact::Owner(words.u16()?, text(words)?),
        "connection" => Fact::Connection(words.place()?, text(words)?),
        "took" => Fact::Took(words.u32()?, text(words)?),
        "took_text" => Fact::TookText(words.u32()?, text(words)?),
        _ => return None,
    })
}

/// What a line tells of what a run left. It is None where there is no such line, and where words are missing
/// or too many.
pub(crate) fn left_of(line: &str) -> Option<Left<'_>> {
    let mut words = Words::of(line);
    Some(match words.word()? {
        "journal" => Left::Journal(words.u16()?, text(words)?),
        "lengths" => Left::Lengths(words.u16()?, text(words)?),
        "connections" => Left::Connections(text(words)?),
        "took" => Left::Took(words.place()?, text(words)?),
        "took_nothing" => {
            let k = words.place()?;
            if !words.is_over() {
                return None;
            }
            Left::TookNothing(k)
        }
        "strays" => Left::Strays(text(words)?),
        "accepted" => Left::Accepted(text(words)?),
        "added" => Left::Added(text(words)?),
        _ => return None,
    })
}
