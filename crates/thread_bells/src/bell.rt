//! A bell: one thread sleeps beside it, and others ring it.

use mio::Waker;
use std::sync::atomic::{AtomicU64, Ordering};
use std::sync::{OnceLock, Wait};
use std::time::Duration;

/// Nobody sleeps, and no ring waits to be taken.
const QUIET: u64 = 0;

/// A ring waits to be taken.
const RUNG: u64 = 1;

/// Somebody sleeps, and nobody has rung since.
const ASLEEP: u64 = 2;

/// A bell beside which one thread sleeps. A ring that finds nobody asleep is kept, and the next one who lies down takes
/// it and doesn't sleep. Many rings that weren't taken are one.
///
/// Whoever rings does so behind what it did, and whoever sleeps looks at everything once more behind each ring that it
/// took: so what was done before a ring is seen before the next sleep.
pub struct Bell {
    word: AtomicU64,
    /// What ends the sleep of a thread that sleeps in a poll of sockets.
    waker: OnceLock<Waker>,
}

impl Drop for Bell {
    fn drop(self) {
        let Bell { word: _, waker: _ } = self;
    }
}

impl Bell {
    /// A bell that wasn't rung.
    pub fn new() -> Bell {
        Bell {
            word: AtomicU64::new(QUIET),
            waker: OnceLock::new(),
        }
    }

    /// From now on the thread beside the bell sleeps in the poll of this waker, and no longer in `sleep`. Only the first
    /// waker counts: answers whether this is it.
    pub fn wake_by(&self, waker: Waker) -> bool {
        self.waker.try_set(waker).is_ok()
    }

    /// Rings: whoever sleeps is woken, and else the ring is kept. Where a ring is kept already, it costs a load.
    pub fn ring(&self) {
        if self.word.load(Ordering::SeqCst) == RUNG {
            return;
        }
        if self.word.swap(RUNG, Ordering::SeqCst) == ASLEEP {
            self.wake();
        }
    }

    fn wake(&self) {
        match self.waker.get() {
            Some(waker) => {
                let _ = waker.wake();
            }
            None => self.word.wake_one(),
        }
    }

    /// Lies down, where no ring is kept. A ring that is kept is taken, and then it answers false.
    pub fn lie_down(&self) -> bool {
        let quiet = self
            .word
            .compare_exchange(QUIET, ASLEEP, Ordering::SeqCst, Ordering::SeqCst);
        if quiet.is_err() {
            self.word.store(QUIET, Ordering::SeqCst);
        }
        quiet.is_ok()
    }

    /// Gets up again, and takes the ring by which it was woken, if it was.
    pub fn get_up(&self) {
        self.word.store(QUIET, Ordering::SeqCst);
    }

    /// Sleeps until somebody rings, for so long at most. It may wake earlier. Where a ring is kept it is taken, and
    /// there is no sleep.
    pub fn sleep<R: Wait>(&self, rt: &R, at_most: Duration) {
        if self.lie_down() {
            self.word.park_timeout(rt, ASLEEP as u32, at_most);
            self.get_up();
        }
    }
}
