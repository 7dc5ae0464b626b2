//! The journals from which a table goes on.
ghost use Rattle.std.specs.Prelude.{◌≡◌, IfOk};
ghost use Rattle.lease_core.specs.Lines.{lines_of};
ghost use Rattle.lease_words.specs.Leases.{Each, is_running};
ghost use Rattle.lease_words.specs.Registries.{IsEndedJournal};

use anyhow::{Result, bail, ensure};
use lease_core::{Entry, MOST_LEASES, Recovery, Registry, Standing};
use std::alloc::Global;

// The nth send of lease 1, which has the session's nth number.
const fn nth_send(n: u32) -> Entry {
    Entry::Send {
        lease: 1,
        library: 1,
        ordinal: n,
        number: n as u64,
    }
}

/// Library 1 made three sends by lease 1, which was taken back.
pub(crate) fn taken_back() -> [Entry; 5] {
    [
        Entry::Granted {
            library: 1,
            nr: 1,
            lease: 1,
            from: 0,
            start: 0,
        },
        nth_send(1),
        nth_send(2),
        nth_send(3),
        Entry::Timeout {
            lease: 1,
            library: 1,
            count: 3,
        },
    ]
}

// Whether a lease is active.
fn has_lease(registry: &Registry) -> bool
    ensures { result ≡ is_running (lines_of registry.now.entries) }
{
    let word = registry.word();
    word.lease > 0 && matches!(word.standing, Standing::Active)
}

// Takes the entries, each of which has to be accepted.
fn record_all(recovery: &mut Recovery, entries: &[Entry]) -> Result<()> {
    for entry in entries {
        recovery.reserve(1)?;
        ensure!(recovery.accepts(entry), "an entry that can't follow");
        recovery.record(*entry);
    }
    Ok(())
}

/// The registry behind these entries, of which no lease may be active.
pub(crate) fn journal(alloc: Global, entries: &[Entry]) -> Result<Registry>
    ensures { IfOk result (λ registry. IsEndedJournal registry) }
{
    let mut recovery = Recovery::new(alloc, 10)?;
    record_all(&mut recovery, entries)?;
    recovery.reserve(1)?;
    let registry = Registry::resume(recovery, 0);
    if has_lease(&registry) || registry.word().lease > MOST_LEASES {
        bail!("an active lease");
    }
    Ok(registry)
}
