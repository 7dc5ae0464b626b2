//! Files that are too long, and a journal that is full, by disks that don't keep their bytes.

ghost use Rattle.std.specs.Prelude.{None};

use crate::checks::same;
use crate::logons::append_logon;
use crate::recovering::{Recovery, recovery_of};
use crate::rows::{Row, arrive, put_batch};
use durable_journal::{AppendError, Disk, DiskFault, LONGEST_JOURNAL, RecoverError, recover};
use std::alloc::{AllocError, Global};
use std::test::Fail;

/// A disk that says how long its file is, and has no bytes.
#[derive(Drop)]
struct Measured {
    length: u64,
}

impl Disk for Measured {
    ghost history = { λ _. None };

    ghost faults = { λ _. 18_446_744_073_709_551_615 };

    fn length(&mut self) -> Result<u64, DiskFault> {
        Ok(self.length)
    }

    fn read_at(&mut self, _at: u64, _buf: &mut [u8]) -> Result<(), DiskFault> {
        Err(DiskFault::Failed)
    }

    fn write_at(&mut self, _at: u64, _piece: &[u8]) -> Result<(), DiskFault> {
        Err(DiskFault::Failed)
    }

    fn sync(&mut self) -> Result<(), DiskFault> {
        Ok(())
    }
}

#[test]
fn a_file_past_the_limit_is_too_long(rt: HostRuntime) -> Result<(), Fail> {
    let past = 1_073_741_825;
    let cases = [
        (past, RecoverError::TooLong { length: past }),
        (LONGEST_JOURNAL, RecoverError::DiskFault),
    ];
    for (length, wanted) in cases {
        let got = recovery_of(rt.alloc(), Measured { length }, 1, 10);
        same(&rt, &got, &Recovery::Failed(wanted));
    }
    Ok(())
}

/// How many bytes the longest body has.
const LONGEST: usize = 65_511;

/// How many batches of one such body the file has.
const BATCHES: u64 = 16_374;

/// How many bytes such a batch has, with its gate.
const SIZE: u64 = 65_575;

/// How many bytes the body of the last batch has: the closed gate behind it stands 81 bytes before
/// the limit, which is where the batch of one Logon of 16 bytes, with its gates, ends.
const LAST: usize = 16_629;

/// A gate, and a batch of a message with a data field, of so many bytes in all.
fn batch_of(alloc: Global, length: usize) -> Result<Vec<u8>, AllocError> {
    let data = length.saturating_sub(18);
    let text = format!(in alloc; "35=B\u{1}95={data}\u{1}96=")?;
    let mut body = text.into_bytes();
    body.resize(length.saturating_sub(1), b'x')?;
    body.push(1)?;
    let row = Row {
        body: body.as_slice(),
        ..arrive(0)
    };
    let mut batch = Vec::new(alloc);
    batch.push(1)?;
    put_batch(alloc, &mut batch, &[row])?;
    Ok(batch)
}

/// Puts bytes over those at a place.
fn put_at(bytes: &mut [u8], place: usize, new: &[u8]) {
    for (behind, byte) in new.iter().enumerate() {
        if let Some(old) = bytes.get_mut(place.saturating_add(behind)) {
            *old = *byte;
        }
    }
}

/// A disk with a journal that is nearly full, each batch of which is made when it is read.
#[derive(Drop)]
struct Long {
    batch: Vec<u8>,
    last: Vec<u8>,
}

impl Long {
    fn end(&self) -> u64 {
        BATCHES
            .saturating_mul(SIZE)
            .saturating_add(self.last.len() as u64)
    }

    /// The batch at a place of the file, which has this position.
    fn batch_at(&mut self, position: u64) -> &[u8] {
        let batch = if position < BATCHES {
            &mut self.batch
        } else {
            &mut self.last
        };
        put_at(batch, 8, &position.to_be_bytes());
        batch.as_slice()
    }

    fn fill(&mut self, at: u64, buf: &mut [u8]) {
        let end = self.end();
        let position = at / SIZE;
        let start = (at % SIZE) as usize;
        let batch = self.batch_at(position);
        let size = buf.len().min(batch.len().saturating_sub(start));
        buf.fill(1);
        if let (Some(to), Some(from)) = (buf.get_mut(..size), batch.get(start..)) {
            to.copy_from_slice(from.get(..size).unwrap_or(&[]));
        }
        if at.saturating_add(buf.len() as u64) > end {
            if let Some(gate) = buf.last_mut() {
                *gate = 0;
            }
        }
    }
}

impl Disk for Long {
    ghost history = { λ _. None };

    ghost faults = { λ _. 18_446_744_073_709_551_615 };

    fn length(&mut self) -> Result<u64, DiskFault> {
        Ok(self.end().saturating_add(1))
    }

    fn read_at(&mut self, at: u64, buf: &mut [u8]) -> Result<(), DiskFault> {
        self.fill(at, buf);
        Ok(())
    }

    fn write_at(&mut self, _at: u64, _piece: &[u8]) -> Result<(), DiskFault> {
        Err(DiskFault::Failed)
    }

    fn sync(&mut self) -> Result<(), DiskFault> {
        Ok(())
    }
}

#[test]
fn a_journal_past_the_limit_is_full(rt: HostRuntime) -> Result<(), Fail> {
    let alloc = rt.alloc();
    let disk = Long {
        batch: batch_of(alloc, LONGEST)?,
        last: batch_of(alloc, LAST)?,
    };
    same(&rt, &(disk.batch.len() as u64), &SIZE);
    let Ok((mut journal, records)) = recover(alloc, disk, 1, 10) else {
        return Ok(assert!(rt; false));
    };
    same(&rt, &(records.len() as u64), &(BATCHES + 1));
    let full = AppendError::Full {
        length: 1_073_741_825,
    };
    same(&rt, &append_logon(alloc, &mut journal, 10)?, &Err(full));
    same(&rt, &append_logon(alloc, &mut journal, 9)?, &Ok(()));
    Ok(())
}
