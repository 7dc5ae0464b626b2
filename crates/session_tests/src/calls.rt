//! The calls of a row's number line, whose items are numbers.
ghost use Rattle.std.specs.Prelude.{◌≡◌, IfOk, IfSome, true};
ghost use Rattle.std.specs.List.{All};
ghost use Rattle.seq_gaps.specs.Line.{IsNumber};
ghost use Rattle.session_tests.specs.Offers.{IsOfferOrTaking};

use crate::steps::Answer;
use gate_io::NoMemory;
use row_text::{Words, done, said, shown};
use seq_gaps::{Answer as LineAnswer, Call, Expect, MAX_NUMBER, make_calls};
use std::alloc::Global;

/// Makes the call that a step of this name says. It is None where no call has the name, or the words are
/// others.
///
///     offers NUMBER ITEM             the item is offered that came with this number, and where it stands
///     offers_each FIRST LAST         each of these numbers is offered, with itself as the item
///     ready                          the item that is held with the expected number
///     fills TO                       the numbers below this one are counted as a whole
///     clears                         the connection ended
///     restarts                       the numbers begin again at 1
///     next                           the number that is expected next
///     list CALL,..                   a new line gets a list of calls, `NUMBER=ITEM` for an offer or `ready`:
///                                    the answers to all, and the number that is expected behind them
pub fn call(
    alloc: Global,
    line: &mut Expect<u32>,
    name: &str,
    words: &mut Words<'_>,
) -> Option<Answer> {
    Some(match name {
        "offers" => offer(alloc, line, words.u32()?, words.u32()?),
        "offers_each" => offer_each(alloc, line, words.u32()?, words.u32()?),
        "fills" => fill(alloc, line, words.u32()?),
        "list" => list(alloc, words.word()?),
        _ => return plain_call(alloc, line, name),
    })
}

// A call that has no words.
fn plain_call(alloc: Global, line: &mut Expect<u32>, name: &str) -> Option<Answer> {
    match name {
        "ready" => Some(shown(alloc, &line.take_ready())),
        "next" => Some(shown(alloc, &line.next_number())),
        "clears" => {
            line.clear();
            Some(Ok(None))
        }
        "restarts" => {
            line.restart();
            Some(Ok(None))
        }
        _ => None,
    }
}

// Whether it is a MsgSeqNum.
fn is_number(n: u32) -> bool
    ensures { result ≡ true → IsNumber n }
{
    n >= 1 && n <= MAX_NUMBER
}

fn offer(alloc: Global, line: &mut Expect<u32>, n: u32, item: u32) -> Answer {
    if !is_number(n) {
        return done(alloc, false);
    }
    shown(alloc, &line.offer(n, item))
}

fn offer_each(alloc: Global, line: &mut Expect<u32>, first: u32, last: u32) -> Answer {
    for n in first..=last {
        offer(alloc, line, n, n)?;
    }
    Ok(None)
}

fn fill(alloc: Global, line: &mut Expect<u32>, to: u32) -> Answer {
    if to < line.next_number() || to > MAX_NUMBER + 1 {
        return done(alloc, false);
    }
    line.fill(to);
    Ok(None)
}

fn list(alloc: Global, word: &str) -> Answer {
    match calls_of(alloc, word)? {
        Some(calls) => make_all(alloc, calls),
        None => said(alloc, "no such calls"),
    }
}

// Makes calls on a new line.
fn make_all(alloc: Global, calls: Vec<Call<char>>) -> Answer
    requires { All IsOfferOrTaking calls.items }
{
    let mut line = Expect::new(alloc)?;
    answers_of(alloc, &mut line, calls)
}

#[tactic(auto, using(crate::proofs::Allowed::all_allowed))]
fn answers_of(alloc: Global, line: &mut Expect<char>, calls: Vec<Call<char>>) -> Answer
    requires { All IsOfferOrTaking calls.items }
{
    let answers = make_calls(alloc, line, calls)?;
    with_next(alloc, answers.as_slice(), line.next_number())
}

// Answers, and the number that is expected behind them.
fn with_next(alloc: Global, answers: &[LineAnswer<char>], next: u32) -> Answer {
    Ok(Some(format!(in alloc; "{answers:?}, then {next}")?))
}

// The calls that stand in a word.
fn calls_of(alloc: Global, word: &str) -> Result<Option<Vec<Call<char>>>, NoMemory>
    ensures { IfOk result (λ read. IfSome read (λ calls. All IsOfferOrTaking calls.items)) }
{
    let mut calls = Vec::new(alloc);
    for text in word.split(',') {
        let Some(call) = call_of(text) else {
            return Ok(None);
        };
        calls.push(call)?;
    }
    Ok(Some(calls))
}

fn call_of(text: &str) -> Option<Call<char>>
    ensures { IfSome result IsOfferOrTaking }
{
    if text == "ready" {
        return Some(Call::TakeReady);
    }
    let (number, item) = text.split_once('=')?;
    let number = number.parse::<u32>().ok()?;
    let item = item.chars().next()?;
    if !is_number(number) {
        return None;
    }
    Some(Call::Offer { number, item })
}
