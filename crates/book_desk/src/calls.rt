//! Calls on a session's book, each with what it leaves of what waits: that can be written, on this
//! connection and on any other.
ghost use Rattle.std.specs.Prelude.{◌≡◌, ◌≢◌, ◌≤◌, ◌+◌, List, true, None, Some, IfOk, OnOk, IsSome, IsTrue, length};
ghost use Rattle.std.specs.List.{All};
ghost use Rattle.connection_core.specs.Outgoing.{Outgoing};
ghost use Rattle.lease_core.specs.Lines.{lines_of, missing_sends};
ghost use Rattle.lease_core.specs.Showable.{CanTimeOut, IsOwned, IsShowable};
ghost use Rattle.lease_core.specs.State.{state_of};
ghost use Rattle.lease_core.specs.Steps.{IsLibrary};
ghost use Rattle.resend_plan.specs.Fit.{IsFit};
ghost use Rattle.session_core.specs.Runs.{binds};
ghost use Rattle.session_core.specs.declared.names.Names.{Names};
ghost use Rattle.session_core.specs.declared.phases.Phase.TheVariants as Phase;
ghost use Rattle.session_book.specs.Acts.{IsBoundIn};
ghost use Rattle.session_book.specs.Book.{IsSameSession};
ghost use Rattle.session_book.specs.Waiting.{CanBeWritten};

use connection_core::{Connection, Outbox};
use gate_io::{Bytes, LAST_MOMENT, NoMemory};
use lease_core::{Reply, Shown, Word};
use session_book::SessionBook;
use session_book::laws::what_waits_can_be_written;
use session_core::Cause;
use std::alloc::Global;
use std::collections::VecDeque;

/// A connection's first message, a Logon that was routed to the session.
pub fn bind(
    alloc: Global,
    book: &mut SessionBook,
    out: &mut Outbox,
    c: u32,
    body: Vec<u8>,
    at: u64,
) -> Result<Option<Cause>, NoMemory>
    requires moment { at ≤ LAST_MOMENT }
    requires free { (state_of book.old.book.entries).bound ≡ None }
    requires accepts { book.old.book.machine.dials ≡ None }
    requires written { CanBeWritten book.old.book out.old.outgoing }
    ensures written { CanBeWritten book.new.book out.new.outgoing }
    ensures stays { (o : Outgoing) → CanBeWritten book.old.book o → CanBeWritten book.new.book o }
    ensures session { IsSameSession book.old.book book.new.book }
    ensures bound { OnOk result (IsBoundIn book.new.book) }
    ensures on { IfOk result (λ end. (names : List Names) → binds names body.items ≡ true → end ≡ None → book.new.book.machine.phase ≢ Phase.Off) }
{
    what_waits_can_be_written();
    let _expected = book.expected();
    let end = book.bind(alloc, c, body, at, out)?;
    Ok(end)
}

/// The session is bound to a connection that it dialled, and asks for a Logon.
pub fn dial(
    alloc: Global,
    book: &mut SessionBook,
    out: &mut Outbox,
    c: u32,
    at: u64,
) -> Result<(), NoMemory>
    requires moment { at ≤ LAST_MOMENT }
    requires dials { IsSome book.old.book.machine.dials }
    requires free { (state_of book.old.book.entries).bound ≡ None }
    requires written { CanBeWritten book.old.book out.old.outgoing }
    ensures written { CanBeWritten book.new.book out.new.outgoing }
    ensures stays { (o : Outgoing) → CanBeWritten book.old.book o → CanBeWritten book.new.book o }
    ensures session { IsSameSession book.old.book book.new.book }
    ensures bound { OnOk result (IsBoundIn book.new.book) }
    ensures on { OnOk result (book.new.book.machine.phase ≢ Phase.Off) }
{
    what_waits_can_be_written();
    let _expected = book.expected();
    book.dial(alloc, c, at, out)?;
    Ok(())
}

/// A message on the bound connection.
pub fn receive(
    alloc: Global,
    book: &mut SessionBook,
    out: &mut Outbox,
    body: Vec<u8>,
    at: u64,
) -> Result<Option<Cause>, NoMemory>
    requires moment { at ≤ LAST_MOMENT }
    requires bound { IsBoundIn book.old.book }
    requires on { book.old.book.machine.phase ≢ Phase.Off }
    requires written { CanBeWritten book.old.book out.old.outgoing }
    ensures written { CanBeWritten book.new.book out.new.outgoing }
    ensures stays { (o : Outgoing) → CanBeWritten book.old.book o → CanBeWritten book.new.book o }
    ensures session { IsSameSession book.old.book book.new.book }
    ensures bound { (state_of book.new.book.entries).bound ≡ (state_of book.old.book.entries).bound }
    ensures on { book.new.book.machine.phase ≢ Phase.Off }
{
    what_waits_can_be_written();
    let _expected = book.expected();
    let end = book.receive(alloc, body, at, out)?;
    Ok(end)
}

/// The clock stands at a moment.
pub fn tick(
    alloc: Global,
    book: &mut SessionBook,
    out: &mut Outbox,
    at: u64,
) -> Result<Option<Cause>, NoMemory>
    requires moment { at ≤ LAST_MOMENT }
    requires written { CanBeWritten book.old.book out.old.outgoing }
    ensures written { CanBeWritten book.new.book out.new.outgoing }
    ensures stays { (o : Outgoing) → CanBeWritten book.old.book o → CanBeWritten book.new.book o }
    ensures session { IsSameSession book.old.book book.new.book }
    ensures bound { (state_of book.new.book.entries).bound ≡ (state_of book.old.book.entries).bound }
    ensures phase { book.new.book.machine.phase ≡ book.old.book.machine.phase }
{
    what_waits_can_be_written();
    let _expected = book.expected();
    let end = book.tick(alloc, at, out)?;
    Ok(end)
}

/// The connection ended.
pub fn leave(book: &mut SessionBook, c: u32) -> Result<(), NoMemory>
    requires { (state_of book.old.book.entries).bound ≡ Some c }
    ensures stays { (o : Outgoing) → CanBeWritten book.old.book o → CanBeWritten book.new.book o }
    ensures session { IsSameSession book.old.book book.new.book }
    ensures bound { OnOk result ((state_of book.new.book.entries).bound ≡ None) }
{
    book.leave(c)
}

/// A library asks for the session.
pub fn request(book: &mut SessionBook, library: u8, nr: u32, from: u64) -> Result<Reply, NoMemory>
    requires { IsLibrary library }
    ensures stays { (o : Outgoing) → CanBeWritten book.old.book o → CanBeWritten book.new.book o }
    ensures session { IsSameSession book.old.book book.new.book }
    ensures bound { (state_of book.new.book.entries).bound ≡ (state_of book.old.book.entries).bound }
    ensures phase { book.new.book.machine.phase ≡ book.old.book.machine.phase }
{
    book.request(library, nr, from)
}

/// The heir didn't come.
pub fn lapse(book: &mut SessionBook) -> Result<(), NoMemory>
    requires { IsSome (state_of book.old.book.entries).reserved }
    ensures stays { (o : Outgoing) → CanBeWritten book.old.book o → CanBeWritten book.new.book o }
    ensures session { IsSameSession book.old.book book.new.book }
    ensures bound { (state_of book.new.book.entries).bound ≡ (state_of book.old.book.entries).bound }
    ensures phase { book.new.book.machine.phase ≡ book.old.book.machine.phase }
{
    book.lapse()
}

/// Makes room for what a word shows: so many sends, and its end.
pub fn reserve(
    alloc: Global,
    book: &mut SessionBook,
    out: &mut Outbox,
    sends: u32,
) -> Result<(), NoMemory>
    ensures book { book.new.book ≡ book.old.book }
    ensures outgoing { out.new.outgoing ≡ out.old.outgoing }
    ensures room { OnOk result (sends + 2 ≤ book.new.spare) }
    ensures outbox { OnOk result (sends ≤ out.new.spare) }
{
    let sends = sends as usize;
    book.reserve(alloc, sends + 2)?;
    out.reserve(sends)
}

/// Records what a word shows of the lease of a library that has the session.
pub fn show(
    alloc: Global,
    book: &mut SessionBook,
    out: &mut Outbox,
    w: Word,
    bodies: &mut VecDeque<Bytes>,
    at: u64,
    until: u64,
) -> Shown
    requires moment { at ≤ LAST_MOMENT }
    requires showable { IsShowable (lines_of book.old.book.entries) w }
    requires owned { IsOwned (lines_of book.old.book.entries) }
    requires bodies { length bodies.old.items ≡ missing_sends (lines_of book.old.book.entries) w }
    requires fit { All IsFit bodies.old.items }
    requires room { length bodies.old.items + 2 ≤ book.old.spare }
    requires outbox { length bodies.old.items ≤ out.old.spare }
    requires written { CanBeWritten book.old.book out.old.outgoing }
    ensures written { CanBeWritten book.new.book out.new.outgoing }
    ensures stays { (o : Outgoing) → CanBeWritten book.old.book o → CanBeWritten book.new.book o }
    ensures session { IsSameSession book.old.book book.new.book }
    ensures bound { (state_of book.new.book.entries).bound ≡ (state_of book.old.book.entries).bound }
    ensures phase { book.new.book.machine.phase ≡ book.old.book.machine.phase }
{
    what_waits_can_be_written();
    let _expected = book.expected();
    book.show(alloc, w, bodies, at, until, out)
}

/// Records that the session was taken back, behind what the old word shows.
pub fn time_out(
    alloc: Global,
    book: &mut SessionBook,
    out: &mut Outbox,
    old: Word,
    bodies: &mut VecDeque<Bytes>,
    at: u64,
    until: u64,
) -> Shown
    requires moment { at ≤ LAST_MOMENT }
    requires can { CanTimeOut (lines_of book.old.book.entries) old }
    requires bodies { length bodies.old.items ≡ missing_sends (lines_of book.old.book.entries) old }
    requires fit { All IsFit bodies.old.items }
    requires room { length bodies.old.items + 2 ≤ book.old.spare }
    requires outbox { length bodies.old.items ≤ out.old.spare }
    requires written { CanBeWritten book.old.book out.old.outgoing }
    ensures written { CanBeWritten book.new.book out.new.outgoing }
    ensures stays { (o : Outgoing) → CanBeWritten book.old.book o → CanBeWritten book.new.book o }
    ensures session { IsSameSession book.old.book book.new.book }
    ensures bound { (state_of book.new.book.entries).bound ≡ (state_of book.old.book.entries).bound }
    ensures phase { book.new.book.machine.phase ≡ book.old.book.machine.phase }
{
    what_waits_can_be_written();
    let _expected = book.expected();
    book.time_out(alloc, old, bodies, at, until, out)
}

/// Makes texts of what waits, as `Connection::prepare` does.
pub fn prepare(
    book: &SessionBook,
    connection: &mut Connection,
    limit: usize,
) -> Result<(), NoMemory>
    requires written { CanBeWritten book.now.book connection.old.out.outgoing }
    ensures written { CanBeWritten book.now.book connection.new.out.outgoing }
    ensures out { connection.new ≡ record connection.old { out = connection.new.out } }
{
    what_waits_can_be_written();
    connection.prepare(book.outbound(), book.written_names(), limit)
}

/// At most n bytes of what waits were written. Answers how many.
pub fn write(book: &SessionBook, connection: &mut Connection, n: usize) -> usize
    requires written { CanBeWritten book.now.book connection.old.out.outgoing }
    ensures written { CanBeWritten book.now.book connection.new.out.outgoing }
    ensures out { connection.new ≡ record connection.old { out = connection.new.out } }
{
    let _number = book.expected();
    let out = connection.outbox();
    let count = out.waiting(n).len();
    out.wrote(count);
    count
}
