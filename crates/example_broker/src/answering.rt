//! A message that a poll handed out is answered.

ghost use Rattle.std.specs.Prelude.{◌≡◌, false, true, IfOk, OnErr};
ghost use Rattle.library_api.specs.Ends.{belongings};
ghost use Rattle.example_broker.specs.Answers.{AnswersAsking, AnswersMessage, AnswersNothing, AnswersOrder, SendsAnswer, SendsNone, SendsOnce, is_gone};
ghost use Rattle.example_broker.specs.Orders.{asking_of, ordered_by};

use crate::books::Book;
use crate::calling::{Try, try_send};
use crate::floor::Floor;
use crate::orders::{Asked, Order, asked_of};
use crate::reports::{cancel_reject_text, fill_text, misfit_text};
use crate::resting::rest;
use fix_fields::{FieldError, Fields};
use gate_io::{Lack, NoMemory};
use library_api::{Library, Links};
use std::alloc::Global;
use std::rt;
use std::sync::Wait;

/// What became of a message.
#[derive(Clone, Copy, Debug, PartialEq, Eq)]
pub enum Answer {
    /// The order was filled.
    Filled,
    /// It was answered otherwise, or wants no answer.
    Passed,
    /// No answer was sent: the library lost the session, or its lease is spent. Whoever has it next reads the message
    /// again.
    Gone,
}

/// The library with this number answers the message at position `pos` of session `s`, over the session's book.
pub(crate) fn answer_message<R: Wait + rt::Clock>(
    rt: &R,
    alloc: Global,
    library: &mut Library,
    links: &Links,
    floor: &Floor,
    trader: u8,
    s: u16,
    pos: u64,
    bytes: &[u8],
    book: &mut Book,
) -> Result<Answer, NoMemory>
    requires table { library.old.ends.seat.table ≡ links.now.leases.now }
    ensures answers { IfOk result (λ answer. AnswersMessage s pos bytes.now answer book.old book.new library.old library.new) }
    ensures short { OnErr result (AnswersNothing book.old book.new library.old library.new) }
    ensures belongings { belongings library.new.ends ≡ belongings library.old.ends }
{
    // The other library has answered it.
    if pos < book.next {
        return Ok(Answer::Passed);
    }
    let answer = answer_unread(rt, alloc, library, links, floor, trader, s, bytes, book)?;
    if is_gone(answer) {
        return Ok(answer);
    }
    book.next = pos.saturating_add(1);
    Ok(answer)
}

/// Whether no answer was sent.
fn is_gone(answer: Answer) -> bool
    ensures { result ≡ is_gone answer }
{
    matches!(answer, Answer::Gone)
}

/// Answers a message that nobody has answered.
fn answer_unread<R: Wait + rt::Clock>(
    rt: &R,
    alloc: Global,
    library: &mut Library,
    links: &Links,
    floor: &Floor,
    trader: u8,
    s: u16,
    bytes: &[u8],
    book: &mut Book,
) -> Result<Answer, NoMemory>
    requires table { library.old.ends.seat.table ≡ links.now.leases.now }
    ensures answers { IfOk result (λ answer. AnswersAsking s (asking_of bytes.now) answer book.old book.new library.old library.new) }
    ensures next { book.new.next ≡ book.old.next }
    ensures short { OnErr result (AnswersNothing book.old book.new library.old library.new) }
    ensures belongings { belongings library.new.ends ≡ belongings library.old.ends }
{
    let fields = match Fields::read(alloc, bytes) {
        Ok(fields) => fields,
        Err(FieldError::OutOfMemory) => return Err(NoMemory::OutOfMemory),
        Err(_other) => return Ok(Answer::Passed),
    };
    match asked_of(&fields) {
        Asked::Order(order) => fill(rt, alloc, library, links, floor, trader, s, &order, book),
        Asked::Cancel(cancel) => {
            let fill = book.fill_of(cancel.original);
            let text = cancel_reject_text(alloc, s, &cancel, fill)?;
            Ok(pass(rt, library, links, floor, trader, s, text))
        }
        Asked::Misfit(misfit) => {
            let text = misfit_text(alloc, &misfit)?;
            Ok(pass(rt, library, links, floor, trader, s, text))
        }
        Asked::Nothing => Ok(Answer::Passed),
    }
}

/// Fills an order, unless one with its ClOrdID (11) was filled before.
fn fill<R: Wait + rt::Clock>(
    rt: &R,
    alloc: Global,
    library: &mut Library,
    links: &Links,
    floor: &Floor,
    trader: u8,
    s: u16,
    order: &Order<'_>,
    book: &mut Book,
) -> Result<Answer, NoMemory>
    requires table { library.old.ends.seat.table ≡ links.now.leases.now }
    ensures answers { IfOk result (λ answer. AnswersOrder s (ordered_by order.now) answer book.old book.new library.old library.new) }
    ensures next { book.new.next ≡ book.old.next }
    ensures short { OnErr result (AnswersNothing book.old book.new library.old library.new) }
    ensures belongings { belongings library.new.ends ≡ belongings library.old.ends }
{
    if book.fill_of(order.id).is_some() {
        return Ok(Answer::Passed);
    }
    let number = book.next_fill();
    let text = fill_text(alloc, s, number, order)?;
    let id = Vec::from_slice(alloc, order.id)?;
    // All memory is there before the report goes out.
    book.make_room()?;
    if send_until(rt, library, links, floor, trader, s, text) {
        book.note(id, number);
        Ok(Answer::Filled)
    } else {
        Ok(Answer::Gone)
    }
}

/// Sends an answer that fills nothing.
fn pass<R: Wait + rt::Clock>(
    rt: &R,
    library: &mut Library,
    links: &Links,
    floor: &Floor,
    trader: u8,
    s: u16,
    text: Vec<u8>,
) -> Answer
    requires table { library.old.ends.seat.table ≡ links.now.leases.now }
    ensures sends { SendsAnswer s text.items result library.old library.new }
    ensures belongings { belongings library.new.ends ≡ belongings library.old.ends }
{
    if send_until(rt, library, links, floor, trader, s, text) {
        Answer::Passed
    } else {
        Answer::Gone
    }
}

/// Sends a text, again while the lane is full and the engine makes turns. Answers whether it was sent.
fn send_until<R: Wait + rt::Clock>(
    rt: &R,
    library: &mut Library,
    links: &Links,
    floor: &Floor,
    trader: u8,
    s: u16,
    text: Vec<u8>,
) -> bool
    requires table { library.old.ends.seat.table ≡ links.now.leases.now }
    ensures sent { result ≡ true → SendsOnce s text.items library.old library.new }
    ensures unsent { result ≡ false → SendsNone s text.items library.old library.new }
    ensures belongings { belongings library.new.ends ≡ belongings library.old.ends }
{
    let mut text = text;
    'sending: for _sends in rt.forever() {
        match try_send(library, links, s, text) {
            Try::Sent => return true,
            Try::Refused => return false,
            Try::Full(back) => {
                if floor.has_stopped() {
                    return false;
                }
                text = back;
            }
        }
        rest(rt, floor, trader, Lack::Room);
    }
    unreachable!()
}
