//! What messages carry.

use anyhow::{Result, bail, ensure};
use gate_io::Bytes;
use lease_core::{Command, Entry, Notice, Record};
use std::alloc::Global;

fn check_notice(alloc: Global) -> Result<()> {
    let notice = Notice::Message {
        s: 1,
        lease: 2,
        pos: 3,
        bytes: Bytes::of(Vec::from_slice(alloc, b"35=8|")?),
    };
    match notice {
        Notice::Message { bytes, .. } => ensure!(
            bytes.into_inner().as_slice() == b"35=8|".as_slice()
        ),
        Notice::Granted { .. } | Notice::Refused { .. } => bail!("another notice"),
    }
    Ok(())
}

fn check_record(alloc: Global) -> Result<()> {
    let record = Record {
        s: 1,
        entry: Entry::Arrive { pos: 3 },
        at: 4,
        body: Bytes::of(Vec::from_slice(alloc, b"35=8|")?),
        expected: 5,
    };
    ensure!(record.entry == Entry::Arrive { pos: 3 });
    ensure!(record.body.into_inner().as_slice() == b"35=8|".as_slice());
    Ok(())
}

/// Messages carry what was put in.
pub(crate) fn check(alloc: Global) -> Result<()> {
    check_notice(alloc)?;
    check_record(alloc)?;
    let done = Command::Done { finished: true };
    ensure!(done != Command::Done { finished: false });
    Ok(())
}
