//! The records of the entries that the last gathering added.

ghost use Rattle.std.specs.Prelude.{◌≡◌, ◌<◌, ◌≤◌, ◌++◌, length, slice_set, IfOk, OnOk};
ghost use Rattle.engine_end.specs.Finishing.{all_records, records_at};
ghost use Rattle.session_book.specs.Records.{HasNoted};
ghost use Rattle.session_desk.specs.Steps.{AreNoted, pending_at};
ghost use Rattle.switchboard.specs.Board.{book_at};

use gate_io::NoMemory;
use lease_core::Record;
use session_book::Unkept;
use session_core::MOST_SESSIONS;
use std::alloc::Global;
use switchboard::Switchboard;

/// Hands out the record of each entry that wasn't handed out before, by session and in order. Those that
/// weren't noted have the number that their session expects now.
pub(crate) fn hand_out_all(
    alloc: Global,
    board: &Switchboard,
    unkept: &mut Vec<Unkept>,
) -> Result<Vec<Record>, NoMemory>
    requires noted { AreNoted unkept.old.items board.now }
    requires few { length board.now.sessions ≤ MOST_SESSIONS }
    ensures { IfOk result (λ added. added.items ≡ all_records board.now unkept.old.items) }
{
    let mut added = Vec::new(alloc);
    for s in 0..board.sessions() {
        hand_out(alloc, board, unkept, s, &mut added)?;
    }
    Ok(added)
}

/// Hands out those of a session, behind the others.
fn hand_out(
    alloc: Global,
    board: &Switchboard,
    unkept: &mut Vec<Unkept>,
    s: usize,
    added: &mut Vec<Record>,
) -> Result<(), NoMemory>
    requires session { s < length board.now.sessions }
    requires few { length board.now.sessions ≤ MOST_SESSIONS }
    requires count { length unkept.old.items ≡ length board.now.sessions }
    requires noted { HasNoted (pending_at unkept.old.items s) (book_at board.now s) }
    ensures added { OnOk result (added.new.items ≡ added.old.items ++ records_at board.now unkept.old.items s) }
    ensures others { OnOk result (unkept.new.items ≡ slice_set unkept.old.items s (pending_at unkept.new.items s)) }
{
    let book = board.session(s);
    let pending = &mut unkept[s];
    pending.note(book)?;
    let mut records = pending.records(alloc, s as u16, book)?;
    added.append(&mut records)?;
    Ok(())
}
