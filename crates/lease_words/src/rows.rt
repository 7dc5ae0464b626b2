//! The numbers that a seat keeps of each session.
ghost use Rattle.std.specs.Prelude.{◌≡◌, ◌+◌, ◌-◌, ◌^◌, ◌<◌, ◌≤◌};

/// What the engine's seat keeps of a session: the number of its leases, and of the last one the
/// library, the sends that were seen and how many of them weren't taken.
#[derive(Clone, Copy, Drop)]
pub struct EngineRow {
    pub(crate) lease: u32,
    pub(crate) library: u8,
    pub(crate) count: u32,
    pub(crate) pending: u64,
}

impl EngineRow {
    // Of a session that was never granted.
    pub(crate) const NEW: EngineRow = EngineRow {
        lease: 0,
        library: 0,
        count: 0,
        pending: 0,
    };

    /// The word of the last lease was seen with this count.
    pub(crate) fn see(&mut self, count: u32)
        requires more { self.old.count ≤ count }
        requires room { self.old.pending + (count - self.old.count) < 2 ^ 64 }
        ensures lease { self.new.lease ≡ self.old.lease }
        ensures library { self.new.library ≡ self.old.library }
        ensures count { self.new.count ≡ count }
        ensures pending { self.new.pending ≡ self.old.pending + (count - self.old.count) }
    {
        self.pending += u64::from(count - self.count);
        self.count = count;
    }
}

/// What a library's seat keeps of a session: the word of the lease that it holds, or 0, and how
/// many items it sent.
#[derive(Clone, Copy, Drop)]
pub struct LibraryRow {
    pub(crate) word: u64,
    pub(crate) committed: u64,
}

impl LibraryRow {
    // Of a session of which nothing is held.
    pub(crate) const NEW: LibraryRow = LibraryRow {
        word: 0,
        committed: 0,
    };
}
