//! What was read back, session by session.

ghost use Rattle.std.specs.Prelude.{◌≡◌, IfOk, OnOk, length, replicate};
ghost use Rattle.engine_start.specs.Restarts.{AreRecordsOf};
ghost use Rattle.engine_start.specs.Revived.{AreRevived, CanGoOn, after_record, new_revived};
ghost use Rattle.lease_core.specs.Runs.{IsNext};
ghost use Rattle.lease_core.specs.State.{state_of};
ghost use Rattle.session_book.specs.Reviving.{CanBeSent};

use crate::sessions::FIRST_NUMBER;
use engine_config::Config;
use gate_io::NoMemory;
use lease_core::Record;
use lease_core::laws::entries_decide_one_by_one;
use session_book::Revival;
use std::alloc::Global;

/// What was read back of a session, and the number that it expected behind its last record.
#[derive(Drop)]
pub(crate) struct Revived {
    pub(crate) revival: Revival,
    pub(crate) expected: u32,
}

/// What the records tell of each session of the configuration. It takes time in proportion to them, and
/// moves their bodies.
pub(crate) fn revive(
    alloc: Global,
    config: &Config,
    records: Vec<Record>,
) -> Result<Vec<Revived>, NoMemory>
    requires { AreRecordsOf config.now records.items }
    ensures records { IfOk result (λ made. AreRevived config.now.leases (length config.now.names) records.items made.items) }
    ensures numbers { IfOk result (λ made. CanGoOn (length config.now.names) made.items) }
{
    entries_decide_one_by_one();
    let count = config.names.as_slice().len();
    let mut revived = nothing_read(alloc, count, config.leases)?;
    for next in records {
        take(alloc, &mut revived[next.s as usize], next)?;
    }
    Ok(revived)
}

// As many sessions of which nothing was read yet.
#[tactic(auto, using(crate::proofs::Reading::one_new_more))]
fn nothing_read(alloc: Global, count: usize, leases: u32) -> Result<Vec<Revived>, NoMemory>
    ensures { IfOk result (λ made. made.items ≡ replicate count (new_revived leases)) }
{
    let mut revived = Vec::new(alloc);
    for _s in 0..count {
        revived.push(Revived {
            revival: Revival::new(alloc, leases)?,
            expected: FIRST_NUMBER,
        })?;
    }
    Ok(revived)
}

// Takes the next record of a session.
fn take(alloc: Global, revived: &mut Revived, next: Record) -> Result<(), NoMemory>
    requires follows { IsNext revived.old.revival.leases (state_of revived.old.revival.entries) next.entry }
    requires body { CanBeSent next.entry next.body }
    ensures { OnOk result (revived.new ≡ after_record next revived.old) }
{
    let Record {
        entry,
        at,
        body,
        expected,
        ..
    } = next;
    revived.revival.take(alloc, entry, at, body)?;
    revived.expected = expected;
    Ok(())
}
