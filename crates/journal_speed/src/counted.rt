//! A disk that keeps nothing, and counts what is asked of it.

ghost use Rattle.std.specs.Prelude.{None};

use durable_journal::{Disk, DiskFault};

#[derive(Drop)]
pub struct Counted {
    writes: u64,
    bytes: u64,
    syncs: u64,
}

impl Counted {
    pub fn new() -> Counted {
        Counted {
            writes: 0,
            bytes: 0,
            syncs: 0,
        }
    }

    /// How many writes of how many bytes in all, and how many syncs.
    pub fn counts(&self) -> (u64, u64, u64) {
        (self.writes, self.bytes, self.syncs)
    }
}

impl Disk for Counted {
    ghost history = { λ _. None };

    ghost faults = { λ _. 18_446_744_073_709_551_615 };

    fn length(&mut self) -> Result<u64, DiskFault> {
        Ok(0)
    }

    fn read_at(&mut self, _at: u64, _buf: &mut [u8]) -> Result<(), DiskFault> {
        Err(DiskFault::Failed)
    }

    fn write_at(&mut self, _at: u64, piece: &[u8]) -> Result<(), DiskFault> {
        self.writes = self.writes.saturating_add(1);
        self.bytes = self.bytes.saturating_add(piece.len() as u64);
        Ok(())
    }

    fn sync(&mut self) -> Result<(), DiskFault> {
        self.syncs = self.syncs.saturating_add(1);
        Ok(())
    }
}
