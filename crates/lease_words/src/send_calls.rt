//! How a library sends.
ghost use Rattle.std.specs.Prelude.{◌≡◌, ◌+◌, ◌^◌, ◌<◌, ◌≤◌, ◌≢◌, length, OnOk, IfOk, IfErr, [], ◌∷◌};
ghost use Rattle.lease_words.specs.Leases.{held_lease, held_count};
ghost use Rattle.lease_words.specs.Views.{library_at, with_library_at};
ghost use Rattle.lease_words.specs.Sees.{after_taken_load, after_send};
ghost use Rattle.lease_words.specs.Answers.{active_word, HasLoaded, IsRefusal, IsOffering, HasOffered, HasFailed};

use crate::item::{Item, SendError, Sent};
use crate::layout::{lease_word, slot_of, taken_word};
use crate::leases::Leases;
use crate::library_seat::LibrarySeat;
use crate::plays::{Claim, Commit, HandBack};
use crate::rows::LibraryRow;
use crate::view::View;
use atomic_table::Seat;
use lease_core::{MOST_LIBRARIES, read_word};

// The count is the lower half of a lease word's number.
const COUNTS: u64 = 1 << 32;

impl Leases {
    /// Sends an item by the lease that it names, which the seat has to hold. Where it isn't sent it
    /// comes back, with the first cause that applies: its lane is full by the taken count that is
    /// loaded, the lease has made all its sends, or the lease has ended, by another word that was
    /// found in the place of its own. In the last case the seat holds the lease no longer.
    pub fn send(
        &self,
        seat: &mut LibrarySeat,
        s: u16,
        item: Item,
    ) -> Result<Sent, (SendError, Item)>
        requires table { seat.old.table ≡ self.now }
        requires session { s < self.now.shape.sessions }
        requires held { (0 < item.lease) × (held_lease (library_at seat.old s).leases ≡ item.lease) }

        // The taken count of the lane is loaded, and no other session changes.
        ensures loaded { HasLoaded self.now.shape.depth (library_at seat.old s) (library_at seat.new s).taken }
        ensures others { seat.new ≡ with_library_at seat.old s (library_at seat.new s) }

        ensures sent { IfOk result (λ r. (r.lease ≡ item.lease) × (r.ordinal ≡ held_count (library_at seat.old s).leases + 1)) }
        ensures committed { OnOk result (library_at seat.new s ≡ after_send (after_taken_load (library_at seat.old s) (library_at seat.new s).taken) (item ∷ []) (active_word item.lease seat.old.knows.number (held_count (library_at seat.old s).leases + 1))) }
        ensures room { OnOk result (length (library_at seat.old s).items ≢ (library_at seat.new s).taken + self.now.shape.depth) }
        ensures left { OnOk result (held_count (library_at seat.old s).leases ≢ self.now.shape.sends) }
        ensures refused { IfErr result (λ e. IsRefusal self.now.shape (library_at seat.old s) (library_at seat.new s) (library_at seat.new s).taken e.0) }
        ensures back { IfErr result (λ e. e.1 ≡ item) }
    {
        let LibraryRow { word, committed } = seat.rows[s as usize];
        let lane = taken_word(s, seat.number);
        let taken = self.table.shared.load::<Claim>(&mut seat.seat, lane);
        let count = (word % COUNTS) as u32;
        if committed - taken == self.depth {
            return Err((SendError::LaneFull { committed, taken }, item));
        }
        if count == self.sends {
            return Err((SendError::SendsSpent { count }, item));
        }
        let slot = slot_of(self.libraries, s, seat.number, committed);
        let lease = item.lease;
        match self.offer(&mut seat.seat, s, seat.number, slot, word, item) {
            Ok(()) => {
                seat.rows[s as usize] = LibraryRow {
                    word: word + 1,
                    committed: committed + 1,
                };
                Ok(Sent {
                    lease,
                    ordinal: count + 1,
                })
            }
            Err((found, item)) => {
                seat.rows[s as usize].word = 0;
                let seen = read_word(found);
                Err((SendError::Lost { seen }, item))
            }
        }
    }

    // Fills the slot that is out with the seat, and publishes it by the one exchange that is also
    // the check of the lease. Where another word is found, the item is taken back, and the slot
    // given back.
    fn offer(
        &self,
        seat: &mut Seat<Option<Item>, View>,
        s: u16,
        number: u8,
        slot: usize,
        word: u64,
        item: Item,
    ) -> Result<(), (u64, Item)>
        requires table { seat.old.table_id ≡ self.now.table }
        requires session { s < self.now.shape.sessions }
        requires number { number ≤ MOST_LIBRARIES }
        requires word { word + 1 < 2 ^ 64 }
        requires offers { IsOffering self.now.shape s number slot word seat.old.me }
        ensures table { (seat.new.table_id ≡ seat.old.table_id) × (seat.new.id ≡ seat.old.id) }
        ensures sent { OnOk result (HasOffered self.now.shape s number word item seat.old.me seat.new.me) }
        ensures failed { IfErr result (λ e. HasFailed self.now.shape s number e.0 seat.old.me seat.new.me) }
        ensures back { IfErr result (λ e. e.1 ≡ item) }
    {
        let shared = &self.table.shared;
        let vacant = shared.exchange(seat, slot, Some(item));
        let None = vacant else { unreachable!() };
        let found = shared.compare_exchange::<Commit>(seat, lease_word(s), word, word + 1);
        if found == word {
            return Ok(());
        }
        let filled = shared.exchange(seat, slot, None);
        let Some(item) = filled else { unreachable!() };
        shared.load::<HandBack>(seat, taken_word(s, number));
        Err((found, item))
    }
}
