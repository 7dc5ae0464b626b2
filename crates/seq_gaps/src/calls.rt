//! The calls of a number line as data, carried out in order.

ghost use Rattle.std.specs.Prelude.{◌≡◌, ℕ, IfOk, OnOk, OnErr, take, drop};
ghost use Rattle.seq_gaps.specs.Calls.{IsAllowed, AreAllowed, line_after, line_after_all, answer_to, answers_to, IsPlainRun, AreFirstOffers, items_handed_on};

use super::{Expect, Offered};
use gate_io::NoMemory;
use std::alloc::Global;
use std::collections::VecDeque;

/// A call on an `Expect`, as data.
#[derive(Debug, PartialEq, Eq, Drop)]
pub enum Call<T> {
    Offer { number: u32, item: T },
    Fill { to: u32 },
    TakeReady,
    Clear,
    Restart,
}

/// The answer to a `Call`.
#[derive(Debug, PartialEq, Eq, Drop)]
pub enum Answer<T> {
    ToOffer(Offered<T>),
    Taken(Option<T>),
    Done,
}

/// Makes a whole list of calls in order, as a recorded session made them, and answers each.
pub fn make_calls<T: Drop>(
    alloc: Global,
    line: &mut Expect<T>,
    calls: Vec<Call<T>>,
) -> Result<Vec<Answer<T>>, NoMemory>
    requires { AreAllowed line.old calls.items }
    ensures answers { IfOk result (λ answers. answers.items ≡ answers_to line.old calls.items) }
    ensures line { OnOk result (line.new ≡ line_after_all line.old calls.items) }

    // From any call on before which nothing is held, as at the beginning, behind a clearing and
    // behind a restart: where the calls from there on only offer and take, no offer finds no room
    // and the expected number isn't held at the end, what they hand on is, for each number from the
    // first expected one up to the first number without an offer, the item offered first with it.
    ensures in_order { IfOk result (λ answers. (k : ℕ) →
        IsPlainRun (line_after_all line.old (take k calls.items)) (drop k calls.items) (drop k answers.items) line.new →
        AreFirstOffers (drop k calls.items) (line_after_all line.old (take k calls.items)).expected (items_handed_on (drop k answers.items))) }
    ensures err { OnErr result (line.new ≡ line.old) }
{
    let mut answers = Vec::with_capacity(alloc, calls.len())?;
    let mut rest = VecDeque::from_vec(calls);
    while let Some(call) = rest.pop_front() {
        answers.push(make_call(line, call)).unwrap();
    }
    Ok(answers)
}

fn make_call<T: Drop>(line: &mut Expect<T>, call: Call<T>) -> Answer<T>
    requires { IsAllowed line.old call }
    ensures answer { result ≡ answer_to line.old call }
    ensures line { line.new ≡ line_after line.old call }
{
    match call {
        Call::Offer { number, item } => return Answer::ToOffer(line.offer(number, item)),
        Call::TakeReady => return Answer::Taken(line.take_ready()),
        Call::Fill { to } => line.fill(to),
        Call::Clear => line.clear(),
        Call::Restart => line.restart(),
    }
    Answer::Done
}
