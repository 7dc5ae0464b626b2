//! A file of the system, and disks that fail.

ghost use Rattle.std.specs.Prelude.{◌≡◌, None};

use crate::checks::same;
use crate::logons::append_logon;
use crate::recovering::{Recovery, records, recovery_of};
use crate::rows::{bind, logon, one_batch};
use durable_journal::{AppendError, Disk, DiskFault, FileDisk, MemDisk, RecoverError, recover};
use gate_io::NoMemory;
use std::alloc::{AllocError, Global};
use std::fmt::Display;
use std::fs;
use std::test::Fail;

/// Makes a journal, and writes a Logon to it. Whether the disk took that.
fn write_logon<D: Disk + Drop>(alloc: Global, disk: D) -> Result<bool, NoMemory>
    requires untold { (disk : D) → D.history disk ≡ None }
{
    let Ok((mut journal, _found)) = recover(alloc, disk, 1, 10) else {
        return Ok(false);
    };
    if append_logon(alloc, &mut journal, 30)?.is_err() {
        return Ok(false);
    }
    Ok(journal.sync().is_ok())
}

#[test]
fn a_file_is_made_written_and_recovered(rt: HostRuntime) -> Result<(), Fail> {
    let alloc = rt.alloc();
    let path = "journal_tests_file";
    let disk = FileDisk::new(rt, String::from_str(alloc, path)?);
    assert!(rt; write_logon(alloc, disk)?);
    let written = fs::read(&rt, path)?;
    same(&rt, &written, &one_batch(alloc, &[logon()])?);
    let disk = FileDisk::new(rt, String::from_str(alloc, path)?);
    same(&rt, &recovery_of(alloc, disk, 1, 10), &records(1));
    fs::write(&rt, path, one_batch(alloc, &[bind(1), logon()])?.as_slice())?;
    let disk = FileDisk::new(rt, String::from_str(alloc, path)?);
    same(&rt, &recovery_of(alloc, disk, 1, 10), &records(2));
    fs::remove_file(&rt, path)?;
    Ok(())
}

/// A sync, the length, the gate and a sync.
#[test]
fn each_call_of_recovery_fails_in_turn(rt: HostRuntime) -> Result<(), Fail> {
    let alloc = rt.alloc();
    for call in 0..5u64 {
        let mut fails = Vec::new(alloc);
        fails.push(call)?;
        let disk = MemDisk::new(alloc, Vec::new(alloc), 1, 8, fails)?;
        let wanted = if call < 4 {
            Recovery::Failed(RecoverError::DiskFault)
        } else {
            records(0)
        };
        same(&rt, &recovery_of(alloc, disk, 1, 10), &wanted);
    }
    Ok(())
}

/// What an error tells.
fn told(alloc: Global, error: &impl Display) -> Result<String, AllocError> {
    format!(in alloc; "{error}")
}

#[test]
fn errors_are_told(rt: HostRuntime) -> Result<(), Fail> {
    let alloc = rt.alloc();
    let errors = [
        (RecoverError::DiskFault, "the disk failed"),
        (
            RecoverError::TooLong { length: 5 },
            "a journal of 5 bytes is too long",
        ),
        (
            RecoverError::BadJournal { at: 7 },
            "the journal is damaged at 7",
        ),
        (RecoverError::OutOfMemory, "out of memory"),
    ];
    for (error, wanted) in errors {
        same(&rt, &told(alloc, &error)?.as_str(), &wanted);
    }
    let errors = [
        (
            AppendError::Full { length: 9 },
            "a journal of 9 bytes is too long",
        ),
        (AppendError::OutOfMemory, "out of memory"),
    ];
    for (error, wanted) in errors {
        same(&rt, &told(alloc, &error)?.as_str(), &wanted);
    }
    same(
        &rt,
        &told(alloc, &DiskFault::Failed)?.as_str(),
        &"the disk failed",
    );
    Ok(())
}
