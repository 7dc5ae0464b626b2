//! What a library does at a table.
ghost use Rattle.std.specs.Prelude.{◌≡◌, ◌≢◌, ◌<◌, ◌≤◌, true, if◌then◌else◌, OnOk, IfOk, IfErr};
ghost use Rattle.lease_core.specs.Lines.{opening_word, heir_named};
ghost use Rattle.lease_words.specs.Leases.{Each, AreBelow, IsNotOlder, held_lease, held_count, shows_lease};
ghost use Rattle.lease_words.specs.Views.{library_at, with_library_at};
ghost use Rattle.lease_words.specs.Sees.{after_see, after_arrival, after_loss, after_release, after_beat};
ghost use Rattle.lease_words.specs.Answers.{released_word, next_beat, IsLoss};

use crate::item::Lost;
use crate::layout::{beat_word, lease_word, published_word};
use crate::leases::Leases;
use crate::library_seat::LibrarySeat;
use crate::plays::{Arrive, Beat, GiveUp, See};
use lease_core::{Standing, Word, read_word, write_word};

// The word of a session that was never granted.
const OPENING: Word = Word {
    lease: 0,
    owner: 0,
    standing: Standing::Active,
    count: 0,
};

impl Leases {
    /// Loads the lease word of a session, and answers it. A word that shows an active lease of
    /// this library makes the seat hold that one; by any other the seat holds none. For a session
    /// that the table doesn't have it is the opening word, with no load.
    pub fn see(&self, seat: &mut LibrarySeat, s: u16) -> Word
        requires table { seat.old.table ≡ self.now }

        ensures seat { s < self.now.shape.sessions → seat.new ≡ with_library_at seat.old s (after_see seat.old.knows.number (library_at seat.old s) result) }
        ensures session { s < self.now.shape.sessions → library_at seat.new s ≡ after_see seat.old.knows.number (library_at seat.old s) result }
        ensures held { s < self.now.shape.sessions → held_lease (library_at seat.new s).leases ≡ (if shows_lease seat.old.knows.number result then result.lease else 0) }

        // A lease that it didn't hold before is above all that it ever had.
        ensures newer { s < self.now.shape.sessions → shows_lease seat.old.knows.number result ≡ true → held_lease (library_at seat.old s).leases ≢ result.lease → AreBelow result.lease (library_at seat.old s).leases }

        // No word is older than one that was seen or told of.
        ensures later { s < self.now.shape.sessions → Each (λ seen. IsNotOlder seen result) (library_at seat.old s).words }
        ensures elsewhere { self.now.shape.sessions ≤ s → (seat.new ≡ seat.old) × (result ≡ opening_word) }
    {
        if s as usize >= self.sessions {
            return OPENING;
        }
        let n = self.table.shared.load::<See>(&mut seat.seat, lease_word(s));
        let word = read_word(n);
        let held = if shows_lease(word, seat.number) { n } else { 0 };
        seat.rows[s as usize].word = held;
        word
    }

    /// The lease of a session that the seat holds, or 0. It makes no step; for a session that the
    /// table doesn't have it is 0.
    pub fn held(&self, seat: &LibrarySeat, s: u16) -> u32
        requires table { seat.now.table ≡ self.now }
        ensures lease { result ≡ held_lease (library_at seat.now s).leases }
        ensures session { 0 < result → s < self.now.shape.sessions }
    {
        let sessions = seat.rows.len();
        if s as usize >= sessions {
            return 0;
        }
        read_word(seat.rows[s as usize].word).lease
    }

    /// Loads the published count of a session, and answers it. For a session that the table
    /// doesn't have it is 0, with no load.
    pub fn arrived(&self, seat: &mut LibrarySeat, s: u16) -> u64
        requires table { seat.old.table ≡ self.now }
        ensures seat { s < self.now.shape.sessions → seat.new ≡ with_library_at seat.old s (after_arrival (library_at seat.old s) result) }
        ensures session { s < self.now.shape.sessions → library_at seat.new s ≡ after_arrival (library_at seat.old s) result }
        ensures later { s < self.now.shape.sessions → (library_at seat.old s).published ≤ result }
        ensures elsewhere { self.now.shape.sessions ≤ s → (seat.new ≡ seat.old) × (result ≡ 0) }
    {
        if s as usize >= self.sessions {
            return 0;
        }
        self.table
            .shared
            .load::<Arrive>(&mut seat.seat, published_word(s))
    }

    /// Raises the count of the library's beats by one, but where it is 2^64 - 1.
    pub fn beat(&self, seat: &mut LibrarySeat)
        requires table { seat.old.table ≡ self.now }
        ensures seat { seat.new ≡ record seat.old { knows = after_beat seat.old.knows (next_beat seat.old.knows.beats) } }
    {
        if seat.beats == u64::MAX {
            return;
        }
        let beats = seat.beats + 1;
        let word = beat_word(self.sessions, seat.number);
        self.table.shared.store::<Beat>(&mut seat.seat, word, beats);
        seat.beats = beats;
    }

    /// Gives a session back, and answers how many sends the lease made. `Lost` has the word that
    /// was found in the place of the lease's; the seat then holds the lease no longer.
    pub fn release(&self, seat: &mut LibrarySeat, s: u16, lease: u32) -> Result<u32, Lost>
        requires table { seat.old.table ≡ self.now }
        requires session { s < self.now.shape.sessions }
        requires held { (0 < lease) × (held_lease (library_at seat.old s).leases ≡ lease) }

        ensures count { IfOk result (λ n. n ≡ held_count (library_at seat.old s).leases) }
        ensures released { OnOk result (seat.new ≡ with_library_at seat.old s (after_release (library_at seat.old s) 0 (released_word lease seat.old.knows.number (held_count (library_at seat.old s).leases)))) }
        ensures lost { IfErr result (λ e. IsLoss (library_at seat.old s) e.seen) }
        ensures forgotten { IfErr result (λ e. seat.new ≡ with_library_at seat.old s (after_loss (library_at seat.old s) e.seen)) }
    {
        let owner = seat.number;
        self.give_back(seat, s, owner)
    }

    /// Gives a session back for another library to take, its heir, and answers how many sends the
    /// lease made. `Lost` has the word that was found in the place of the lease's; the seat then
    /// holds the lease no longer.
    pub fn release_to(
        &self,
        seat: &mut LibrarySeat,
        s: u16,
        lease: u32,
        heir: u8,
    ) -> Result<u32, Lost>
        requires table { seat.old.table ≡ self.now }
        requires session { s < self.now.shape.sessions }
        requires held { (0 < lease) × (held_lease (library_at seat.old s).leases ≡ lease) }
        requires heir { (1 ≤ heir) × (heir ≤ self.now.shape.libraries) × (heir ≢ seat.old.knows.number) }

        ensures count { IfOk result (λ n. n ≡ held_count (library_at seat.old s).leases) }
        ensures released { OnOk result (seat.new ≡ with_library_at seat.old s (after_release (library_at seat.old s) heir (released_word lease heir (held_count (library_at seat.old s).leases)))) }
        ensures lost { IfErr result (λ e. IsLoss (library_at seat.old s) e.seen) }
        ensures forgotten { IfErr result (λ e. seat.new ≡ with_library_at seat.old s (after_loss (library_at seat.old s) e.seen)) }
    {
        self.give_back(seat, s, heir)
    }

    // Gives the session back to whom the owner names, who is the library itself where there is no
    // heir.
    fn give_back(&self, seat: &mut LibrarySeat, s: u16, owner: u8) -> Result<u32, Lost>
        requires table { seat.old.table ≡ self.now }
        requires session { s < self.now.shape.sessions }
        requires held { 0 < held_lease (library_at seat.old s).leases }
        requires owner { (1 ≤ owner) × (owner ≤ self.now.shape.libraries) }

        ensures count { IfOk result (λ n. n ≡ held_count (library_at seat.old s).leases) }
        ensures released { OnOk result (seat.new ≡ with_library_at seat.old s (after_release (library_at seat.old s) (heir_named owner seat.old.knows.number) (released_word (held_lease (library_at seat.old s).leases) owner (held_count (library_at seat.old s).leases)))) }
        ensures lost { IfErr result (λ e. IsLoss (library_at seat.old s) e.seen) }
        ensures forgotten { IfErr result (λ e. seat.new ≡ with_library_at seat.old s (after_loss (library_at seat.old s) e.seen)) }
    {
        let shared = &self.table.shared;
        let word = seat.rows[s as usize].word;
        let held = read_word(word);
        let given = write_word(Word {
            owner,
            standing: Standing::Released,
            ..held
        });
        let found = shared.compare_exchange::<GiveUp>(&mut seat.seat, lease_word(s), word, given);
        seat.rows[s as usize].word = 0;
        if found == word {
            Ok(held.count)
        } else {
            Err(Lost {
                seen: read_word(found),
            })
        }
    }
}

// The word shows an active lease of this library.
fn shows_lease(word: Word, number: u8) -> bool
    ensures { result ≡ shows_lease number word }
{
    word.lease > 0 && matches!(word.standing, Standing::Active) && word.owner == number
}
