//! A disk in memory, which records what is done with it.

ghost use Rattle.std.specs.Prelude.{◌≡◌, if◌then◌else◌, ◌+◌, ◌-◌, ◌≤◌, ◌<◌, ◌↔◌, ◌++◌, [], ◌∷◌, length, take, drop, true, false, Some, Ok, Err, IfOk, OnOk, OnErr, IfSome, IsTrue};
ghost use Rattle.std.specs.Option.{option_map};
ghost use Rattle.std.specs.Vec.{vec_len, vec_capacity};
ghost use Rattle.gate_io.specs.Counts.{HasRisen};
ghost use Rattle.durable_journal.specs.Disk.{Write, Sync, History, bytes_of, after_step, with_piece, FailsToWrite};
ghost use Rattle.durable_journal.specs.Memory.{MemoryState, steps_of, fails_now, fails_to_write, after_call, after_fault, after_write, with_step};

use crate::disk::{Disk, DiskFault};
use crate::writing::write_over;
use gate_io::NoMemory;
use std::alloc::Global;
use std::marker::Model;

/// One step of a disk: a write of `size` bytes at `at`, of which `len` were written, or a sync.
#[derive(Clone, Copy, Debug, PartialEq, Eq)]
pub enum DiskStep {
    Wrote { at: u64, size: u64, len: usize },
    Synced,
}

/// A disk in memory. It records each write and each sync that succeeds, with the bytes that were
/// written, and so answers for what a crash at any moment leaves. A call fails where it is one of
/// those that are listed to fail or no room is left for a call, and a write also where it has more
/// bytes than there is room for. A write that fails writes nothing. One that is listed, with room for
/// the call, is recorded all the same, with no bytes: a crash may leave anything in its range. No
/// other call that fails is recorded: a crash leaves what it could leave before it.
#[derive(Debug)]
pub struct MemDisk {
    first: Vec<u8>,
    bytes: Vec<u8>,
    written: Vec<u8>,
    steps: Vec<DiskStep>,
    room: usize,
    spare: usize,
    fails: Vec<u64>,
    calls: u64,
    faults: u64,
}

impl Drop for MemDisk {
    fn drop(self) {
        let MemDisk {
            first: _,
            bytes: _,
            written: _,
            steps: _,
            room: _,
            spare: _,
            fails: _,
            calls: _,
            faults: _,
        } = self;
    }
}

impl Model for MemDisk {
    ghost use Rattle.std.specs.Prelude.{◌≤◌, ◌+◌, []};
    ghost use Rattle.std.specs.Vec.{vec_len, vec_capacity};
    ghost use Rattle.durable_journal.specs.Memory.{MemoryState, IsMemory, steps_of};

    ghost Value = { MemoryState };

    ghost view = { λ a. record { history = record { first = a.first.items; steps = steps_of [] a.steps.items a.written.items }; room = a.room; spare = a.spare; fails = a.fails.items; calls = a.calls; faults = a.faults } };

    ghost invariant = { λ a. IsMemory a.first.items a.bytes.items a.written.items a.steps.items × (vec_len a.steps + a.spare ≤ vec_capacity a.steps) × (vec_len a.written + a.room ≤ vec_capacity a.written) × (vec_len a.bytes + a.room ≤ vec_capacity a.bytes) };
}

impl MemDisk {
    /// A disk on which these bytes are. It has room for `calls` calls of any kind, those that fail
    /// among them, and its writes take `room` bytes in all. `fails` lists the calls, counted from 0,
    /// that fail.
    pub fn new(
        alloc: Global,
        bytes: Vec<u8>,
        room: usize,
        calls: usize,
        fails: Vec<u64>,
    ) -> Result<MemDisk, NoMemory>
        ensures { IfOk result (λ disk. disk ≡ record { history = record { first = bytes.items; steps = [] }; room = room; spare = calls; fails = fails.items; calls = 0; faults = 0 }) }
    {
        let mut bytes = bytes;
        let first = bytes.to_vec(alloc)?;
        bytes.reserve(room)?;
        Ok(MemDisk {
            first,
            bytes,
            written: Vec::with_capacity(alloc, room)?,
            steps: Vec::with_capacity(alloc, calls)?,
            room,
            spare: calls,
            fails,
            calls: 0,
            faults: 0,
        })
    }

    /// The bytes that are read.
    pub fn bytes(&self) -> &[u8]
        ensures { result.now ≡ bytes_of (self.now).history }
    {
        self.bytes.as_slice()
    }

    /// The bytes at first.
    pub fn first(&self) -> &[u8]
        ensures { result.now ≡ (self.now).history.first }
    {
        self.first.as_slice()
    }

    /// What was done, from the oldest step on, and the bytes that the steps wrote, one after the
    /// other.
    pub fn steps(&self) -> (&[DiskStep], &[u8])
        ensures { (self.now).history.steps ≡ steps_of [] result.0.now result.1.now }
    {
        (self.steps.as_slice(), self.written.as_slice())
    }

    /// How many calls failed.
    pub fn faults(&self) -> u64
        ensures { result ≡ (self.now).faults }
    {
        self.faults
    }

    /// Counts a call, and tells whether it fails.
    fn begin(&mut self) -> bool
        ensures fails { result ≡ fails_now self.old }
        ensures after { self.new ≡ (if fails_now self.old then after_fault self.old else after_call self.old) }
        ensures faults_kept { (self.old).faults ≤ (self.new).faults }
    {
        let fails = self.spare == 0 || self.fails.contains(&self.calls);
        self.calls = self.calls.saturating_add(1);
        self.spare = self.spare.saturating_sub(1);
        if fails {
            self.faults = self.faults.saturating_add(1);
        }
        fails
    }
}

impl Disk for MemDisk {
    ghost history = { λ d. Some d.history };

    ghost faults = { λ d. d.faults };

    fn length(&mut self) -> Result<u64, DiskFault>
        ensures answer { result ≡ (if fails_now self.old then Err DiskFault.Failed else Ok (length (bytes_of (self.old).history))) }
        ensures after { self.new ≡ (if fails_now self.old then after_fault self.old else after_call self.old) }
        ensures length { IfOk result (λ n. n ≡ length (bytes_of (self.old).history)) }
        ensures nothing_done { Some (self.new).history ≡ Some (self.old).history }
        ensures fault_counted { OnErr result (HasRisen (self.old).faults (self.new).faults) }
        ensures faults_kept { (self.old).faults ≤ (self.new).faults }
    {
        if self.begin() {
            return Err(DiskFault::Failed);
        }
        Ok(self.bytes.len() as u64)
    }

    fn read_at(&mut self, at: u64, buf: &mut [u8]) -> Result<(), DiskFault>
        requires inside { at + length buf.old ≤ length (bytes_of (self.old).history) }
        ensures answer { result ≡ (if fails_now self.old then Err DiskFault.Failed else Ok tt) }
        ensures after { self.new ≡ (if fails_now self.old then after_fault self.old else after_call self.old) }
        ensures bytes { OnOk result (buf.new ≡ take (length buf.old) (drop at (bytes_of (self.old).history))) }
        ensures nothing_done { Some (self.new).history ≡ Some (self.old).history }
        ensures fault_counted { OnErr result (HasRisen (self.old).faults (self.new).faults) }
        ensures faults_kept { (self.old).faults ≤ (self.new).faults }
    {
        if self.begin() {
            return Err(DiskFault::Failed);
        }
        let at = at as usize;
        buf.copy_from_slice(&self.bytes[at..at + buf.len()]);
        Ok(())
    }

    #[tactic(auto, using(crate::proofs::Steps::steps_torn, crate::proofs::Steps::steps_wrote, crate::proofs::Steps::memory_torn, crate::proofs::Steps::memory_wrote))]
    fn write_at(&mut self, at: u64, piece: &[u8]) -> Result<(), DiskFault>
        requires inside { at ≤ length (bytes_of (self.old).history) }
        ensures answer { result ≡ (if fails_to_write self.old (length piece.now) then Err DiskFault.Failed else Ok tt) }
        ensures after { self.new ≡ after_write self.old at piece.now }
        ensures written { OnOk result (Some (self.new).history ≡ Some (after_step (Write at (length piece.now) piece.now) (self.old).history)) }
        ensures torn { OnErr result (FailsToWrite at (length piece.now) (Some (self.old).history) (Some (self.new).history)) }
        ensures fault_counted { OnErr result (HasRisen (self.old).faults (self.new).faults) }
        ensures faults_kept { (self.old).faults ≤ (self.new).faults }
    {
        let fails = self.fails.contains(&self.calls);
        self.calls = self.calls.saturating_add(1);
        if self.spare == 0 {
            self.faults = self.faults.saturating_add(1);
            return Err(DiskFault::Failed);
        }
        self.spare -= 1;
        let size = piece.len();
        if fails {
            self.faults = self.faults.saturating_add(1);
            self.steps.push(wrote(at, size, 0)).unwrap();
            return Err(DiskFault::Failed);
        }
        if self.room < size {
            self.faults = self.faults.saturating_add(1);
            return Err(DiskFault::Failed);
        }
        self.room -= size;
        write_over(&mut self.bytes, at as usize, piece);
        self.written.extend_from_slice(piece).unwrap();
        self.steps.push(wrote(at, size, size)).unwrap();
        Ok(())
    }

    #[tactic(auto, using(crate::proofs::Steps::steps_synced, crate::proofs::Steps::memory_synced))]
    fn sync(&mut self) -> Result<(), DiskFault>
        ensures answer { result ≡ (if fails_now self.old then Err DiskFault.Failed else Ok tt) }
        ensures after { self.new ≡ (if fails_now self.old then after_fault self.old else with_step Sync (after_call self.old)) }
        ensures synced { OnOk result (Some (self.new).history ≡ Some (after_step Sync (self.old).history)) }
        ensures nothing_done { OnErr result (Some (self.new).history ≡ Some (self.old).history) }
        ensures fault_counted { OnErr result (HasRisen (self.old).faults (self.new).faults) }
        ensures faults_kept { (self.old).faults ≤ (self.new).faults }
    {
        let fails = self.fails.contains(&self.calls);
        self.calls = self.calls.saturating_add(1);
        if self.spare == 0 {
            self.faults = self.faults.saturating_add(1);
            return Err(DiskFault::Failed);
        }
        self.spare -= 1;
        if fails {
            self.faults = self.faults.saturating_add(1);
            return Err(DiskFault::Failed);
        }
        self.steps.push(DiskStep::Synced).unwrap();
        Ok(())
    }
}

fn wrote(at: u64, size: usize, len: usize) -> DiskStep
    ensures { result ≡ DiskStep.Wrote at size len }
{
    DiskStep::Wrote {
        at,
        size: size as u64,
        len,
    }
}
