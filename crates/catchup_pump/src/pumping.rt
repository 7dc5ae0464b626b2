//! The pump: messages of a log pushed to a library from a cursor on.
ghost use Rattle.std.specs.Prelude.{◌≡◌, ◌+◌, ◌-◌, ◌^◌, ◌<◌, ◌≤◌, ◌∷◌, [], ◌++◌, length, OnErr, IfOk, MatchOption};
ghost use Rattle.catchup_pump.specs.Pump.{messages_from, message_at, cursor_after, OnLogEnd, OnRingFull, FoundFull};

use crate::cursor::{Cursor, Pumped, Stop};
use gate_io::{Bytes, NoMemory};
use lease_core::Notice;
use message_log::{InLog, Steps};
use ring_links::{Ring, Tail};
use std::alloc::Global;
use std::marker::Brand;
use std::sync::ledger::{Blank, Ledger};

/// Pushes the messages of a log from the cursor on, in order, until the log's end or until the
/// ring has no room. After `OutOfMemory` what was pushed stays pushed, and the cursor stands behind
/// it. Each message is copied once, for the ring, and only where the ring has room.
pub fn pump(
    alloc: Global,
    log: &InLog,
    cursor: &mut Cursor,
    ring: &Ring<Notice>,
    tail: &mut Tail<Notice>,
) -> Result<Pumped, NoMemory>
    requires ring { tail.old.ring ≡ ring.now }
    requires cursor { cursor.old.at ≤ length log.now.items }

    // What was pushed are the messages that the cursor passed.
    ensures cursor { cursor.new ≡ record cursor.old { at = cursor.new.at } }
    ensures forward { cursor.old.at ≤ cursor.new.at }
    ensures within { cursor.new.at ≤ length log.now.items }
    ensures pushed { tail.new.pushed ≡ tail.old.pushed ++ messages_from cursor.old log.now.items (cursor.new.at - cursor.old.at) }
    ensures count { IfOk result (λ p. p.pushed ≡ cursor.new.at - cursor.old.at) }

    ensures log_end { IfOk result (λ p. OnLogEnd p.stop (cursor.new.at ≡ length log.now.items)) }
    ensures before_end { IfOk result (λ p. OnRingFull p.stop (λ pushed taken. cursor.new.at < length log.now.items)) }
    ensures ring_full { IfOk result (λ p. OnRingFull p.stop (FoundFull tail.old tail.new)) }

    // What a tail knows of its ring.
    ensures ring { tail.new.ring ≡ tail.old.ring }
    ensures told { tail.new.told ≡ tail.old.told }
    ensures later { tail.old.taken ≤ tail.new.taken }
    ensures loads { tail.old.loads ≤ tail.new.loads }
    ensures heard { tail.old.loads < tail.new.loads → tail.old.told ≤ tail.new.taken }
{
    pump_in::<Brand>(alloc, log, cursor, ring, tail, Blank::new(1))
}

fn pump_in<L: Ledger>(
    alloc: Global,
    log: &InLog,
    cursor: &mut Cursor,
    ring: &Ring<Notice>,
    tail: &mut Tail<Notice>,
    blank: Blank,
) -> Result<Pumped, NoMemory>
    requires name { blank.name ≡ L.name }
    requires parts { blank.parts ≡ L.parts }
    requires some { 0 < blank.parts }
    requires ring { tail.old.ring ≡ ring.now }
    requires cursor { cursor.old.at ≤ length log.now.items }
    ensures cursor { cursor.new ≡ record cursor.old { at = cursor.new.at } }
    ensures forward { cursor.old.at ≤ cursor.new.at }
    ensures within { cursor.new.at ≤ length log.now.items }
    ensures pushed { tail.new.pushed ≡ tail.old.pushed ++ messages_from cursor.old log.now.items (cursor.new.at - cursor.old.at) }
    ensures count { IfOk result (λ p. p.pushed ≡ cursor.new.at - cursor.old.at) }
    ensures log_end { IfOk result (λ p. OnLogEnd p.stop (cursor.new.at ≡ length log.now.items)) }
    ensures before_end { IfOk result (λ p. OnRingFull p.stop (λ pushed taken. cursor.new.at < length log.now.items)) }
    ensures ring_full { IfOk result (λ p. OnRingFull p.stop (FoundFull tail.old tail.new)) }
    ensures ring { tail.new.ring ≡ tail.old.ring }
    ensures told { tail.new.told ≡ tail.old.told }
    ensures later { tail.old.taken ≤ tail.new.taken }
    ensures loads { tail.old.loads ≤ tail.new.loads }
    ensures heard { tail.old.loads < tail.new.loads → tail.old.told ≤ tail.new.taken }
{
    let mut steps = Steps::<L>::new(blank);
    let first = cursor.at;
    for pos in first..log.len() {
        match push_next(alloc, log, cursor, ring, tail, &mut steps)? {
            None => {}
            Some(stop) => {
                let pushed = pos - first;
                return Ok(Pumped { pushed, stop });
            }
        }
    }
    Ok(Pumped {
        pushed: cursor.at - first,
        stop: Stop::LogEnd,
    })
}

// Pushes the message at the cursor, or says that the ring has no room.
fn push_next<L: Ledger>(
    alloc: Global,
    log: &InLog,
    cursor: &mut Cursor,
    ring: &Ring<Notice>,
    tail: &mut Tail<Notice>,
    steps: &mut Steps<L>,
) -> Result<Option<Stop>, NoMemory>
    requires ring { tail.old.ring ≡ ring.now }
    requires cursor { cursor.old.at < length log.now.items }
    requires few { length log.now.items ≤ 2 ^ 63 }
    ensures pushed { IfOk result (λ stop. MatchOption stop (tail.new.pushed ≡ tail.old.pushed ++ message_at cursor.old log.now.items 0 ∷ []) (λ why. tail.new.pushed ≡ tail.old.pushed)) }
    ensures moved { IfOk result (λ stop. MatchOption stop (cursor.new ≡ cursor_after cursor.old 1) (λ why. cursor.new ≡ cursor.old)) }
    ensures full { IfOk result (λ stop. MatchOption stop (Unit {0}) (λ why. OnLogEnd why ⊥)) }
    ensures ring_full { IfOk result (λ stop. MatchOption stop (Unit {0}) (λ why. OnRingFull why (FoundFull tail.old tail.new))) }
    ensures err { OnErr result ((tail.new.pushed ≡ tail.old.pushed) × (cursor.new ≡ cursor.old)) }
    ensures ring { tail.new.ring ≡ tail.old.ring }
    ensures told { tail.new.told ≡ tail.old.told }
    ensures later { tail.old.taken ≤ tail.new.taken }
    ensures loads { tail.old.loads < tail.new.loads }
    ensures heard { tail.old.told ≤ tail.new.taken }
{
    let room = ring.room(tail);
    if room.pushed - room.taken == ring.capacity() || room.pushed == u64::MAX {
        return Ok(Some(Stop::RingFull {
            pushed: room.pushed,
            taken: room.taken,
        }));
    }
    let message = copy_of(alloc, log, cursor, steps)?;
    let Ok(()) = ring.push(tail, message) else {
        unreachable!()
    };
    cursor.at += 1;
    Ok(None)
}

// A copy of the message at the cursor, with what a library is told of it.
fn copy_of<L: Ledger>(
    alloc: Global,
    log: &InLog,
    cursor: &Cursor,
    steps: &mut Steps<L>,
) -> Result<Notice, NoMemory>
    requires { cursor.now.at < length log.now.items }
    ensures { IfOk result (λ notice. notice ≡ message_at cursor.now log.now.items 0) }
{
    let body = log.get(cursor.at, steps).unwrap();
    Ok(Notice::Message {
        s: cursor.s,
        lease: cursor.lease,
        pos: cursor.at,
        bytes: Bytes::of(Vec::from_slice(alloc, body)?),
    })
}
