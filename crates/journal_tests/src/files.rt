//! What `recover` answers for files of two batches, and for the shortest.

use crate::checks::same;
use crate::reader::read;
use crate::recovering::{Recovery, damage, records, recovered};
use crate::rows::{arrive, bind, leave, logon, put_batch};
use durable_journal::{MemDisk, recover};
use gate_io::NoMemory;
use std::alloc::{AllocError, Global};
use std::test::Fail;

/// Two batches of 369 and 59 bytes, with these gates before, between and behind them.
pub fn two_batches(alloc: Global, gates: [u8; 3]) -> Result<Vec<u8>, AllocError> {
    let mut file = Vec::new(alloc);
    file.extend_from_slice(&gates[..1])?;
    put_batch(alloc, &mut file, &[bind(1), logon(), arrive(0), arrive(1)])?;
    file.extend_from_slice(&gates[1..2])?;
    put_batch(alloc, &mut file, &[leave(1)])?;
    file.extend_from_slice(&gates[2..])?;
    Ok(file)
}

/// Where the gate between the two batches stands: behind one gate, four bytes and 369.
const SECOND_GATE: usize = 374;

#[test]
fn batches_behind_open_gates_count(rt: HostRuntime) -> Result<(), Fail> {
    let alloc = rt.alloc();
    let cases = [
        ([1, 1, 0], records(5)),
        ([1, 1, 7], records(5)),
        ([1, 0, 0], records(4)),
        ([1, 2, 1], records(4)),
        ([0, 1, 0], records(0)),
        ([255, 1, 1], records(0)),
        ([1, 1, 1], damage(438)),
    ];
    for (gates, wanted) in cases {
        let file = two_batches(alloc, gates)?;
        same(&rt, &file.len(), &439);
        same(&rt, &Recovery::Read(read(alloc, &file, 1, 10)?), &wanted);
        same(&rt, &recovered(alloc, file)?, &wanted);
    }
    Ok(())
}

#[test]
fn a_batch_that_was_cut_short_is_damage_behind_an_open_gate(rt: HostRuntime) -> Result<(), Fail> {
    let alloc = rt.alloc();
    let at = SECOND_GATE as u64;
    for (gate, wanted) in [(0, records(4)), (1, damage(at))] {
        let file = two_batches(alloc, [1, gate, 0])?;
        for end in SECOND_GATE + 1..file.len() {
            let part = file.as_slice()[..end].to_vec(alloc)?;
            same(&rt, &recovered(alloc, part)?, &wanted);
        }
    }
    Ok(())
}

/// The bytes behind a recovery that finds no record.
fn bytes_behind(alloc: Global, file: Vec<u8>) -> Result<Option<Vec<u8>>, NoMemory> {
    let disk = MemDisk::new(alloc, file, 1, 4, Vec::new(alloc))?;
    let Ok((journal, found)) = recover(alloc, disk, 1, 10) else {
        return Ok(None);
    };
    if !found.is_empty() {
        return Ok(None);
    }
    let disk = journal.into_disk();
    Ok(Some(disk.bytes().to_vec(alloc)?))
}

#[test]
fn files_of_at_most_one_byte_get_a_closed_gate(rt: HostRuntime) -> Result<(), Fail> {
    let alloc = rt.alloc();
    for byte in [None, Some(0u8), Some(1), Some(7)] {
        let mut file = Vec::new(alloc);
        if let Some(byte) = byte {
            file.push(byte)?;
        }
        let behind = bytes_behind(alloc, file)?;
        assert!(rt; behind.is_some_and(|bytes| bytes.as_slice() == [0].as_slice()));
    }
    Ok(())
}
