//! A session goes on behind what was read back of it, and its journal is closed.

ghost use Rattle.std.specs.Prelude.{◌≡◌, ◌+◌, ◌≤◌, false, None, IfOk, IfSome, OnOk, length};
ghost use Rattle.engine_config.specs.Config.{AreNames, IsDial};
ghost use Rattle.engine_start.specs.Closing.{after_leaving, after_taking_back};
ghost use Rattle.engine_start.specs.Restarts.{closing_noted, restarted_book};
ghost use Rattle.engine_start.specs.Starts.{heart_of};
ghost use Rattle.lease_core.specs.Runs.{owes_hold};
ghost use Rattle.lease_core.specs.State.{owner_of, state_of};
ghost use Rattle.session_book.specs.Records.{HasNotedAll};
ghost use Rattle.session_book.specs.Reviving.{after_resume};
ghost use Rattle.switchboard.specs.Sound.{bound_of};

use crate::reviving::Revived;
use connection_core::Outbox;
use engine_config::DialTo;
use gate_io::NoMemory;
use lease_core::laws::{entries_decide_one_by_one, lines_tell_the_owner};
use seq_gaps::MAX_NUMBER;
use session_book::{SessionBook, Unkept};
use session_core::Names;
use std::alloc::Global;
use std::collections::VecDeque;

/// The session, which the engine has and which is bound to no connection, and what of its journal wasn't
/// handed out: the entries that close it. An heir whose hold was missing is waited for until the moment
/// `until`.
pub(crate) fn restart(
    alloc: Global,
    names: &Names,
    dialled: &Option<DialTo>,
    until: u64,
    revived: Revived,
) -> Result<(SessionBook, Unkept), NoMemory>
    requires names { AreNames names.now }
    requires dialled { IfSome dialled.now IsDial }
    requires from { 1 ≤ revived.expected }
    requires to { revived.expected ≤ MAX_NUMBER + 1 }
    ensures book { IfOk result (λ made. made.0.book ≡ restarted_book names.now dialled.now until revived.revival revived.expected) }
    ensures owned { IfOk result (λ made. owner_of (state_of made.0.book.entries) ≡ 0) }
    ensures unbound { IfOk result (λ made. bound_of made.0.book ≡ None) }
    ensures noted { IfOk result (λ made. made.1 ≡ closing_noted (length revived.revival.entries) made.0.book) }
    ensures all { IfOk result (λ made. HasNotedAll made.1 made.0.book) }
{
    entries_decide_one_by_one();
    let recovered = revived.revival.entries().len();
    let mut book = resume(alloc, names, dialled, until, revived)?;
    let unkept = close(alloc, &mut book, recovered)?;
    Ok((book, unkept))
}

// What a run left open is closed. Of the entries behind that, so many were handed out, and the others are
// noted.
fn close(alloc: Global, book: &mut SessionBook, recovered: usize) -> Result<Unkept, NoMemory>
    requires { recovered ≤ length (after_leaving (after_taking_back book.old.book)).entries }
    ensures book { OnOk result (book.new.book ≡ after_leaving (after_taking_back book.old.book)) }
    ensures noted { IfOk result (λ unkept. unkept ≡ closing_noted recovered book.new.book) }
    ensures all { IfOk result (λ unkept. HasNotedAll unkept book.new.book) }
{
    take_back(alloc, book)?;
    leave(book)?;
    let mut unkept = Unkept::new(alloc, recovered);
    unkept.note(book)?;
    Ok(unkept)
}

// The session as the run before left it.
fn resume(
    alloc: Global,
    names: &Names,
    dialled: &Option<DialTo>,
    until: u64,
    revived: Revived,
) -> Result<SessionBook, NoMemory>
    requires names { AreNames names.now }
    requires dialled { IfSome dialled.now IsDial }
    requires from { 1 ≤ revived.expected }
    requires to { revived.expected ≤ MAX_NUMBER + 1 }
    ensures { IfOk result (λ made. made.book ≡ after_resume names.now.us names.now.them (heart_of dialled.now) revived.expected until revived.revival) }
{
    let Revived { revival, expected } = revived;
    let us = Vec::from_slice(alloc, names.us.as_slice())?;
    let them = Vec::from_slice(alloc, names.them.as_slice())?;
    let dials = heart(dialled);
    SessionBook::resume(alloc, revival, us, them, dials, expected, until)
}

// The HeartBtInt with which a session dials, in seconds, if it does.
fn heart(dialled: &Option<DialTo>) -> Option<u32>
    ensures { result ≡ heart_of dialled.now }
{
    match dialled {
        None => None,
        Some(dial) => Some(dial.heart),
    }
}

// An active lease is taken back. By its word nothing is missing, so neither moment is looked at.
fn take_back(alloc: Global, book: &mut SessionBook) -> Result<(), NoMemory>
    ensures { OnOk result (book.new.book ≡ after_taking_back book.old.book) }
{
    lines_tell_the_owner();
    let (owner, _) = book.owner();
    if owner == 0 {
        return Ok(());
    }
    is_settled(book);
    book.reserve(alloc, 2)?;
    let word = book.word();
    let mut none = VecDeque::new(alloc);
    let mut nowhere = Outbox::new(alloc);
    book.time_out(alloc, word, &mut none, 0, 0, &mut nowhere);
    Ok(())
}

// What holds of every session holds of this one.
fn is_settled(book: &SessionBook)
    ensures { owes_hold (state_of book.now.book.entries).latest ≡ false }
{
    let _ = book.entries();
}

// The connection of the run before is left.
fn leave(book: &mut SessionBook) -> Result<(), NoMemory>
    ensures { OnOk result (book.new.book ≡ after_leaving book.old.book) }
{
    match book.bound() {
        None => Ok(()),
        Some(c) => book.leave(c),
    }
}
