//! What `recover` answers, as the plain reader has it.

use crate::reader::Answer;
use durable_journal::{Disk, MemDisk, RecoverError, recover};
use gate_io::NoMemory;
use std::alloc::Global;

/// What recovery answered: records or damage, or another error.
#[derive(Clone, Copy, Debug, PartialEq, Eq)]
pub enum Recovery {
    Read(Answer),
    Failed(RecoverError),
}

/// So many records.
pub fn records(count: usize) -> Recovery {
    Recovery::Read(Answer::Records(count))
}

/// Damage at a place.
pub fn damage(at: u64) -> Recovery {
    Recovery::Read(Answer::Damaged(at))
}

/// What is recovered from a disk, over so many sessions and leases.
pub fn recovery_of<D: Disk + Drop>(alloc: Global, disk: D, sessions: u16, leases: u32) -> Recovery {
    match recover(alloc, disk, sessions, leases) {
        Ok((_, found)) => records(found.len()),
        Err((RecoverError::BadJournal { at }, _)) => damage(at),
        Err((error, _)) => Recovery::Failed(error),
    }
}

/// What is recovered from a file, over so many sessions and leases.
pub fn recovered_over(
    alloc: Global,
    file: Vec<u8>,
    sessions: u16,
    leases: u32,
) -> Result<Recovery, NoMemory> {
    let disk = MemDisk::new(alloc, file, 1, 64, Vec::new(alloc))?;
    Ok(recovery_of(alloc, disk, sessions, leases))
}

/// What is recovered from a file of one session, over ten leases.
pub fn recovered(alloc: Global, file: Vec<u8>) -> Result<Recovery, NoMemory> {
    recovered_over(alloc, file, 1, 10)
}
