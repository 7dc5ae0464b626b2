//! What can be asked of the engine, its last turn and its wire, with what is so.

ghost use Rattle.std.specs.Prelude.{◌≡◌};

use crate::gateway::Gateway;
use crate::tapped_wire::TappedWire;
use crate::texts::{frames, soh};
use crate::told::{Instead, unless_bytes, unless_so, unless_told};
use engine_loop::{Engine, Turn};
use gate_io::NoMemory;
use std::alloc::Global;

/// What is so.
#[derive(Clone, Copy)]
pub(crate) enum Fact<'a> {
    // Of the last turn.
    /// The accept had this answer.
    Accepts(&'a str),
    /// The reads of these connections, and no others, had these answers. Its name is `reads_are`.
    Reads(&'a str),
    /// This became of the libraries' commands.
    Serves(&'a str),
    /// So many bytes were written.
    Writes(&'a str),
    // Of the engine.
    /// The session is bound to the connection with this number.
    Bound(u16, &'a str),
    /// A library has the session by this lease, or nobody behind that lease.
    Owner(u16, &'a str),
    /// The connection at this place has this number and this cause.
    Connection(usize, &'a str),
    /// So many connections came.
    Connections(&'a str),
    /// The last turn was at so many milliseconds since 1970.
    Moment(&'a str),
    // Of the wire.
    /// These connections were closed, in this order.
    Closed(&'a str),
    /// So often a connection was asked for, and so often one was dialled.
    Asked(&'a str),
    /// This address was dialled last.
    Dialled(&'a str),
    /// The frames of these bodies were written to a connection, and nothing else, since it was told.
    Took(u32, &'a str),
    /// Nothing was written to a connection since it was told.
    TookNothing(u32),
    /// This text was written to a connection, and nothing else, since it was told.
    TookText(u32, &'a str),
}

/// What is so in place of a fact.
pub(crate) fn instead_of(
    alloc: Global,
    gateway: &mut Gateway,
    fact: Fact<'_>,
) -> Result<Instead, NoMemory>
    ensures engine { gateway.new.engine ≡ gateway.old.engine }
    ensures wire { gateway.new.wire.wire ≡ gateway.old.wire.wire }
{
    match fact {
        Fact::Accepts(_) | Fact::Reads(_) | Fact::Serves(_) | Fact::Writes(_) => {
            match &gateway.turn {
                Some(turn) => of_a_turn(alloc, turn, fact),
                None => unless_so(alloc, false, "no turn"),
            }
        }
        Fact::Bound(..) | Fact::Owner(..) | Fact::Connection(..) => {
            of_a_place(alloc, &gateway.engine, fact)
        }
        Fact::Connections(wanted) => unless_told(alloc, wanted, &gateway.engine.connections()),
        Fact::Moment(wanted) => unless_told(alloc, wanted, &gateway.engine.moment()),
        _ => of_a_wire(alloc, &mut gateway.wire, fact),
    }
}

fn of_a_turn(alloc: Global, turn: &Turn, fact: Fact<'_>) -> Result<Instead, NoMemory> {
    match fact {
        Fact::Accepts(wanted) => unless_told(alloc, wanted, &turn.accepted),
        Fact::Reads(wanted) => unless_told(alloc, wanted, &turn.reads.as_slice()),
        Fact::Serves(wanted) => unless_told(alloc, wanted, &turn.libs.as_slice()),
        Fact::Writes(wanted) => unless_told(alloc, wanted, &turn.written),
        _ => unless_so(alloc, false, "no fact of a turn"),
    }
}

// Of a session or a connection, if it is there.
fn of_a_place(alloc: Global, engine: &Engine, fact: Fact<'_>) -> Result<Instead, NoMemory> {
    match fact {
        Fact::Bound(s, wanted) if usize::from(s) < engine.sessions() => {
            unless_told(alloc, wanted, &engine.bound(s))
        }
        Fact::Owner(s, wanted) if usize::from(s) < engine.sessions() => {
            unless_told(alloc, wanted, &engine.owner(s))
        }
        Fact::Connection(k, wanted) if k < engine.connections() => {
            unless_told(alloc, wanted, &engine.connection(k))
        }
        _ => unless_so(alloc, false, "no such place"),
    }
}

fn of_a_wire(alloc: Global, wire: &mut TappedWire, fact: Fact<'_>) -> Result<Instead, NoMemory>
    ensures { wire.new.wire ≡ wire.old.wire }
{
    match fact {
        Fact::Closed(wanted) => unless_told(alloc, wanted, &wire.closed()),
        Fact::Asked(wanted) => unless_told(alloc, wanted, &wire.asked()),
        Fact::Dialled(wanted) => unless_bytes(alloc, wanted.as_bytes(), wire.address()),
        Fact::Took(c, texts) => unless_taken(alloc, wire, c, frames(alloc, texts)?.as_slice()),
        Fact::TookNothing(c) => unless_taken(alloc, wire, c, b""),
        Fact::TookText(c, text) => unless_taken(alloc, wire, c, soh(alloc, text)?.as_slice()),
        _ => unless_so(alloc, false, "no fact of a wire"),
    }
}

// What was written to a connection in place of these bytes.
fn unless_taken(
    alloc: Global,
    wire: &mut TappedWire,
    c: u32,
    wanted: &[u8],
) -> Result<Instead, NoMemory>
    ensures { wire.new.wire ≡ wire.old.wire }
{
    if wire.has_lost() {
        return unless_so(alloc, false, "no memory for what was written");
    }
    let written = wire.written(alloc, c)?;
    unless_bytes(alloc, wanted, written.as_slice())
}
