//! The clock: the moment, in milliseconds since 1970, and the most that it may be.

ghost use Rattle.std.specs.Prelude.{◌≡◌, ℕ, List, [], ◌∷◌, max};
ghost use Rattle.gate_io.specs.Clock.{TakesReadings, greatest_of, last_of};
ghost use Rattle.gate_io.specs.Counts.{HasRisen};

/// The last moment that the gateway knows, in milliseconds since 1970-01-01: the end of the year 9999.
/// A later reading is taken as this one.
pub const LAST_MOMENT: u64 = 253_402_300_799_999;

/// A clock that is read in milliseconds since 1970-01-01.
pub trait Clock {
    /// The last reading, 0 before the first.
    ghost last: { Self → ℕ };

    /// The greatest reading so far, 0 before the first.
    ghost greatest: { Self → ℕ };

    /// How many readings were taken.
    ghost readings: { Self → ℕ };

    /// The list of all readings so far, for contracts alone: which lists it may be.
    ghost has_read: { Self → List ℕ → Type 0 };

    /// What a reading gives, for a clock that fixes it: the clock before, the answer, the clock after.
    ghost now_gives: { Self → ℕ → Self → Type 0 } = { λ _ _ _. Unit {0} };

    /// A new reading.
    fn now(&mut self) -> u64
        ensures last { result ≡ last self.new }
        ensures exact { now_gives self.old result self.new }
        ensures greatest { greatest self.new ≡ max (greatest self.old) result }
        ensures counted { HasRisen (readings self.old) (readings self.new) }
        ensures told { TakesReadings has_read self.old (result ∷ []) self.new };

    /// The last and the greatest reading are those of the list.
    ghost figures: { (clock : Self) (taken : List ℕ) → has_read clock taken → (last clock ≡ last_of taken) × (greatest clock ≡ greatest_of taken) };
}
