//! What the engine does at a table.
ghost use Rattle.std.specs.Prelude.{◌≡◌, ◌≢◌, ℕ, ◌+◌, ◌<◌, ◌≤◌, ◌↔◌, false, true, [], ◌∷◌, ◌++◌, length, IsNone, IfNone, IfSome};
ghost use mathlib.Core.List.{IsPrefix};
ghost use Rattle.lease_core.specs.declared.limits.TheConstants.{MOST_LEASES};
ghost use Rattle.lease_core.specs.Lines.{word_of, raised};
ghost use Rattle.lease_words.specs.Facts.{OthersTaken};
ghost use Rattle.lease_words.specs.Leases.{Each, AreLines, IsNotOlder, is_running};
ghost use Rattle.lease_core.specs.declared.limits.TheConstants.{MOST_LEASES};
ghost use Rattle.lease_core.specs.Lines.{missing_sends};
ghost use Rattle.lease_core.specs.Showable.{IsShowable, CanTimeOut};
ghost use Rattle.lease_words.specs.Views.{engine_at, with_engine_at, heard_of, with_heard, pending, last_library, taken_of, library_session};
ghost use Rattle.lease_words.specs.Sees.{after_look, after_grant, after_revoke, after_take, after_publish, after_beats};
ghost use Rattle.lease_words.specs.Tells.{IsSettled};

use crate::engine_seat::EngineSeat;
use crate::item::Item;
use crate::laws::word_laws;
use crate::layout::{beat_word, lease_word, published_word, slot_of, taken_word};
use crate::leases::Leases;
use crate::plays::{Fetch, Grant, Listen, Look, Publish, Revoke, Vacate};
use crate::rows::EngineRow;
use lease_core::{Standing, Word, read_word, write_word};

// The flag of a lease word by which the engine takes a session back.
const REVOKED: u64 = 1 << 33;

impl Leases {
    /// Loads the lease word of a session, and answers it. The seat's lines are raised by what the
    /// word shows.
    pub fn look(&self, seat: &mut EngineSeat, s: u16) -> Word
        requires table { seat.old.table ≡ self.now }
        requires session { s < self.now.shape.sessions }

        ensures seat { seat.new ≡ with_engine_at seat.old s (after_look (engine_at seat.old s) result) }
        ensures session { engine_at seat.new s ≡ after_look (engine_at seat.old s) result }
        ensures word { word_of (raised (engine_at seat.old s).lines result) ≡ result }

        // No word is older than one that was seen or told of.
        ensures later { Each (λ seen. IsNotOlder seen result) (engine_at seat.old s).words }
        ensures lines { AreLines (engine_at seat.old s).base self.now.shape.libraries (raised (engine_at seat.old s).lines result) }

        // A registry whose lines are the seat's can be shown the word, and the sends that it then
        // records are as many as wait here to be taken.
        ensures showable { IsShowable (engine_at seat.old s).lines result }
        ensures pending { pending (engine_at seat.new s) ≡ pending (engine_at seat.old s) + missing_sends (engine_at seat.old s).lines result }

        // At most as many sends as the lane is deep weren't taken, all of them by the last lease's
        // library.
        ensures within { pending (after_look (engine_at seat.old s) result) ≤ self.now.shape.depth }
        ensures others { OthersTaken self.now.shape.libraries (after_look (engine_at seat.old s) result) }
        ensures settled { Each (IsSettled s (after_look (engine_at seat.old s) result)) seat.old.settled }
    {
        let n = self
            .table
            .shared
            .load::<Look>(&mut seat.seat, lease_word(s));
        let word = read_word(n);
        seat.rows[s as usize].see(word.count);
        word_laws();
        word
    }

    /// Takes a session back of which a lease is active by the seat's lines, and answers the word as
    /// it was. The lines are raised by what that shows; then the last one is taken back where the
    /// word was still active, and stays given back where its library was faster. No lease is active
    /// then.
    pub fn revoke(&self, seat: &mut EngineSeat, s: u16) -> Word
        requires table { seat.old.table ≡ self.now }
        requires session { s < self.now.shape.sessions }
        requires active { is_running (engine_at seat.old s).lines ≡ true }

        ensures seat { seat.new ≡ with_engine_at seat.old s (after_revoke (engine_at seat.old s) result) }
        ensures session { engine_at seat.new s ≡ after_revoke (engine_at seat.old s) result }
        ensures word { word_of (raised (engine_at seat.old s).lines result) ≡ result }
        ensures later { Each (λ seen. IsNotOlder seen result) (engine_at seat.old s).words }
        ensures lines { AreLines (engine_at seat.old s).base self.now.shape.libraries (after_revoke (engine_at seat.old s) result).lines }

        ensures ended { is_running (engine_at seat.new s).lines ≡ false }

        // A registry whose lines are the seat's can record the timeout.
        ensures can_time_out { CanTimeOut (engine_at seat.old s).lines result }
        ensures pending { pending (engine_at seat.new s) ≡ pending (engine_at seat.old s) + missing_sends (engine_at seat.old s).lines result }
        ensures within { pending (after_revoke (engine_at seat.old s) result) ≤ self.now.shape.depth }
        ensures others { OthersTaken self.now.shape.libraries (after_revoke (engine_at seat.old s) result) }
        ensures settled { Each (IsSettled s (after_revoke (engine_at seat.old s) result)) seat.old.settled }
    {
        let n = self
            .table
            .shared
            .fetch_or::<Revoke>(&mut seat.seat, lease_word(s), REVOKED);
        let word = read_word(n);
        let sent = word.count;
        seat.rows[s as usize].see(sent);
        word_laws();
        word
    }

    /// Grants a session to a library of the table, and answers the new lease, which is the number
    /// of lines after the call. By the seat's lines no lease may be active, and fewer than
    /// `MOST_LEASES` may have been given; all sends that they show have to be taken.
    pub fn grant(&self, seat: &mut EngineSeat, s: u16, library: u8) -> u32
        requires table { seat.old.table ≡ self.now }
        requires session { s < self.now.shape.sessions }
        requires library { (1 ≤ library) × (library ≤ self.now.shape.libraries) }
        requires room { length (engine_at seat.old s).lines < MOST_LEASES }
        requires ended { is_running (engine_at seat.old s).lines ≡ false }
        requires taken { pending (engine_at seat.old s) ≡ 0 }

        ensures seat { seat.new ≡ with_engine_at seat.old s (after_grant (engine_at seat.old s) library) }
        ensures session { engine_at seat.new s ≡ after_grant (engine_at seat.old s) library }
        ensures lease { result ≡ length (engine_at seat.old s).lines + 1 }
        ensures pending { pending (engine_at seat.new s) ≡ 0 }
        ensures active { is_running (engine_at seat.new s).lines ≡ true }
        ensures lines { AreLines (engine_at seat.old s).base self.now.shape.libraries (after_grant (engine_at seat.old s) library).lines }
    {
        let shared = &self.table.shared;
        let lease = seat.rows[s as usize].lease + 1;
        let word = write_word(Word {
            lease,
            owner: library,
            standing: Standing::Active,
            count: 0,
        });
        shared.swap::<Grant>(&mut seat.seat, lease_word(s), word);
        seat.rows[s as usize] = EngineRow {
            lease,
            library,
            count: 0,
            pending: 0,
        };
        lease
    }

    /// Takes the next item that the last lease's library sent. It is `None` where every send that
    /// the last look or revoke of the session showed was taken.
    pub fn take(&self, seat: &mut EngineSeat, s: u16) -> Option<Item>
        requires table { seat.old.table ≡ self.now }
        requires session { s < self.now.shape.sessions }

        ensures none { IsNone result ↔ (pending (engine_at seat.old s) ≡ 0) }
        ensures same { IfNone result (seat.new ≡ seat.old) }
        ensures item { IfSome result (λ item. seat.new ≡ with_engine_at seat.old s (after_take (engine_at seat.old s) (last_library (engine_at seat.old s)) (item ∷ []))) }
        ensures session { IfSome result (λ item. engine_at seat.new s ≡ after_take (engine_at seat.old s) (last_library (engine_at seat.old s)) (item ∷ [])) }

        // What was taken of that library grew by the item, one item less waits, and what was taken
        // of the others is as it was.
        ensures taken { IfSome result (λ item. taken_of (engine_at seat.new s) (last_library (engine_at seat.old s)) ≡ taken_of (engine_at seat.old s) (last_library (engine_at seat.old s)) ++ item ∷ []) }
        ensures pending { IfSome result (λ item. pending (engine_at seat.old s) ≡ pending (engine_at seat.new s) + 1) }
        ensures lanes { IfSome result (λ item. (library : ℕ) → 1 ≤ library → library ≢ last_library (engine_at seat.old s) → taken_of (engine_at seat.new s) library ≡ taken_of (engine_at seat.old s) library) }

        ensures others { IfSome result (λ item. OthersTaken self.now.shape.libraries (engine_at seat.new s)) }

        // Of each library that was settled, what was taken begins what it sent, and its lane goes on
        // being told by the lines where a look said so.
        ensures settled { IfSome result (λ item. Each (λ k. IsPrefix (taken_of (after_take (engine_at seat.old s) (last_library (engine_at seat.old s)) (item ∷ [])) k.number) (library_session k s).items) seat.old.settled) }
        ensures told { IfSome result (λ item. Each (IsSettled s (engine_at seat.old s)) seat.old.settled → Each (IsSettled s (engine_at seat.new s)) seat.new.settled) }
    {
        let row = seat.rows[s as usize];
        if row.pending == 0 {
            return None;
        }
        let shared = &self.table.shared;
        let word = taken_word(s, row.library);
        let taken = shared.load::<Fetch>(&mut seat.seat, word);
        let slot = slot_of(self.libraries, s, row.library, taken);
        let item = shared.exchange(&mut seat.seat, slot, None);
        shared.store::<Vacate>(&mut seat.seat, word, taken + 1);
        seat.rows[s as usize].pending -= 1;
        item
    }

    /// Publishes the length of a session's inbound log, which mustn't be less than the one that was
    /// published last, 0 at first.
    pub fn publish(&self, seat: &mut EngineSeat, s: u16, count: u64)
        requires table { seat.old.table ≡ self.now }
        requires session { s < self.now.shape.sessions }
        requires more { (engine_at seat.old s).published ≤ count }
        ensures seat { seat.new ≡ with_engine_at seat.old s (after_publish (engine_at seat.old s) count) }
        ensures session { engine_at seat.new s ≡ after_publish (engine_at seat.old s) count }
    {
        self.table
            .shared
            .store::<Publish>(&mut seat.seat, published_word(s), count);
    }

    /// Loads the count of a library's beats, and answers it.
    pub fn beats(&self, seat: &mut EngineSeat, library: u8) -> u64
        requires table { seat.old.table ≡ self.now }
        requires library { (1 ≤ library) × (library ≤ self.now.shape.libraries) }
        ensures seat { seat.new ≡ record seat.old { knows = with_heard seat.old.knows library (after_beats (heard_of seat.old.knows library) result) } }
        ensures heard { heard_of seat.new.knows library ≡ after_beats (heard_of seat.old.knows library) result }
        ensures later { (heard_of seat.old.knows library).count ≤ result }
    {
        self.table
            .shared
            .load::<Listen>(&mut seat.seat, beat_word(self.sessions, library))
    }
}
