//! What can be asked of the sessions and connections.

ghost use Rattle.std.specs.Prelude.{◌<◌, length};

use crate::texts::T;
use connection_core::Connection;
use gate_io::NoMemory;
use library_desk::LibraryDesk;
use row_text::{Words, legible, said, shown};
use session_book::SessionBook;
use std::alloc::Global;
use switchboard::Switchboard;

/// What is asked. Sessions and connections are named by their places.
#[derive(Clone, Copy)]
pub enum Fact {
    /// `connection K`: which session the connection names, and why it ended.
    Connection(usize),
    /// `waits K`: how many items wait on the connection.
    Waits(usize),
    Session(usize, SessionFact),
    /// `strays`: the requests that were for sessions that aren't there.
    Strays,
}

/// What is asked of a session.
#[derive(Clone, Copy)]
pub enum SessionFact {
    /// `place S`: the place of the connection to which it is bound.
    Place,
    /// `owner S`: which library has it, or 0, and by which lease, which is the last one.
    Owner,
    /// `reserved S`: for which library it waits, until so many milliseconds past the morning's beginning.
    Reserved,
    /// `inbound S`: how many messages were accepted.
    Inbound,
    /// `outbound S NUMBER`: the body with this number of its first series, with its moment, in milliseconds
    /// past the morning's beginning, and how many there are.
    Outbound(u64),
}

pub fn fact_of(name: &str, words: &mut Words<'_>) -> Option<Fact> {
    Some(match name {
        "connection" => Fact::Connection(words.place()?),
        "waits" => Fact::Waits(words.place()?),
        "strays" => Fact::Strays,
        "place" => Fact::Session(words.place()?, SessionFact::Place),
        "owner" => Fact::Session(words.place()?, SessionFact::Owner),
        "reserved" => Fact::Session(words.place()?, SessionFact::Reserved),
        "inbound" => Fact::Session(words.place()?, SessionFact::Inbound),
        "outbound" => Fact::Session(words.place()?, SessionFact::Outbound(words.number()?)),
        _ => return None,
    })
}

/// What is so.
pub fn what_is(alloc: Global, desk: &LibraryDesk, fact: Fact) -> Result<Option<String>, NoMemory> {
    let board = &desk.desk.board;
    match fact {
        Fact::Connection(k) if k < board.connections() => connection(alloc, board.connection(k)),
        Fact::Waits(k) if k < board.connections() => {
            shown(alloc, &board.connection(k).waiting_items())
        }
        Fact::Connection(_) | Fact::Waits(_) => said(alloc, "no such connection"),
        Fact::Session(s, fact) if s < board.sessions() => session(alloc, board, s, fact),
        Fact::Session(..) => said(alloc, "no such session"),
        Fact::Strays => shown(alloc, &desk.strays.as_slice()),
    }
}

fn connection(alloc: Global, connection: &Connection) -> Result<Option<String>, NoMemory> {
    let (session, cause) = (connection.session(), connection.cause());
    Ok(Some(format!(in alloc; "session {session:?}, cause {cause:?}")?))
}

fn session(
    alloc: Global,
    board: &Switchboard,
    s: usize,
    fact: SessionFact,
) -> Result<Option<String>, NoMemory>
    requires { s < length board.now.sessions }
{
    let book = board.session(s);
    match fact {
        SessionFact::Place => shown(alloc, &board.place(s)),
        SessionFact::Owner => {
            let (library, lease) = book.owner();
            Ok(Some(format!(in alloc; "library {library}, lease {lease}")?))
        }
        SessionFact::Reserved => reserved(alloc, book),
        SessionFact::Inbound => shown(alloc, &book.inbound().len()),
        SessionFact::Outbound(number) => outbound(alloc, book, number),
    }
}

// A moment is told by how far it is behind the morning's beginning.
fn reserved(alloc: Global, book: &SessionBook) -> Result<Option<String>, NoMemory> {
    let Some((library, until)) = book.reserved() else {
        return said(alloc, "for nobody");
    };
    let past = until.wrapping_sub(T);
    Ok(Some(format!(in alloc; "for library {library} until {past}")?))
}

fn outbound(alloc: Global, book: &SessionBook, number: u64) -> Result<Option<String>, NoMemory> {
    let log = book.outbound();
    let (Some(entry), Some(count)) = (log.entry(1, number), log.len_of(1)) else {
        return said(alloc, "no such body");
    };
    let past = entry.at.wrapping_sub(T);
    let body = legible(alloc, entry.body.as_slice())?;
    Ok(Some(format!(in alloc; "at {past}, of {count}: {body}")?))
}
