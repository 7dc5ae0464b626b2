//! What a turn writes on a connection.

use crate::links::Link;
use crate::world::World;
use gate_io::NoMemory;

/// The most bytes that are written on a connection in a turn.
const MOST_WRITTEN: u64 = 1_048_576;

/// The most items that may wait on a connection.
const MOST_WAITING: usize = 1_048_576;

impl Link {
    /// Where the texts end that are to be written now: before a Logon is answered that of the first item.
    fn writable(&self) -> u64 {
        if self.unanswered {
            self.ends.first().copied().unwrap_or(0)
        } else {
            self.texts.len() as u64
        }
    }

    /// Writes what waits, as far as the script and a turn let it. Answers whether the write failed.
    fn write(&mut self) -> bool {
        let all = self.writable();
        let most = self.written.saturating_add(MOST_WRITTEN);
        let fails_at = self.fails_at.unwrap_or(u64::MAX);
        let blocked_at = self.blocked_at.unwrap_or(u64::MAX);
        let to = all.min(most).min(fails_at).min(blocked_at);
        self.written = self.written.max(to);
        self.written < all && self.written < most && self.written == fails_at
    }

    /// How many items aren't written whole.
    fn waiting(&self) -> usize {
        let written = self.written;
        self.ends.iter().filter(|end| **end > written).count()
    }
}

impl World {
    /// Writes on a connection, and closes it if it has ended.
    pub(crate) fn write(&mut self, c: usize) -> Result<(), NoMemory> {
        let Some(link) = self.links.get_mut(c) else {
            return Ok(());
        };
        let failed = link.write();
        let waiting = link.waiting();
        if failed {
            self.end_link(c, "write-fault")?;
        } else if waiting > MOST_WAITING {
            let cause = format!(in self.alloc; "slow-consumer {waiting}")?;
            self.end_link(c, &cause)?;
        }
        if let Some(link) = self.links.get_mut(c) {
            link.closed = link.cause.is_some();
        }
        Ok(())
    }
}
