//! Laws of logs that grow: what was logged is found again by its series and number. Each is the contract of a
//! function that does nothing.

ghost use Rattle.std.specs.Prelude.{◌≡◌, ℕ, ◌<◌, ◌≤◌, ◌⊎◌, List, [], ◌∷◌, ◌++◌, length, take, None, Some, IsSome};
ghost use Rattle.message_log.specs.declared.entry.OutEntry.{OutEntry};
ghost use Rattle.message_log.specs.Series.{entry_at, series_at, with_entry};
ghost use Rattle.message_log.specs.Growth.{GoesOn};

/// A log goes on from another by any number of pushes and turn-overs.
pub fn logs_go_on()
    ensures itself { (log : List (List OutEntry)) → GoesOn log log }
    ensures entry { (log : List (List OutEntry)) (entry : OutEntry) → GoesOn log (with_entry log entry) }
    ensures series { (log : List (List OutEntry)) → GoesOn log (log ++ [] ∷ []) }
    ensures further { (first second third : List (List OutEntry)) → GoesOn first second → GoesOn second third → GoesOn first third }
{}

/// What a log has stays as it is, whatever is pushed or turned over since.
pub fn entries_stay()
    // An entry that the earlier log names is the same in the later one.
    ensures entry { (earlier later : List (List OutEntry)) (series number : ℕ) → GoesOn earlier later
        → IsSome (entry_at earlier series number) → entry_at later series number ≡ entry_at earlier series number }
    ensures named { (earlier later : List (List OutEntry)) (series number : ℕ) → GoesOn earlier later
        → IsSome (entry_at earlier series number) → IsSome (entry_at later series number) }
    // A series of the later log begins with that of the earlier one.
    ensures beginning { (earlier later : List (List OutEntry)) (series : ℕ) → GoesOn earlier later
        → take (length (series_at earlier series)) (series_at later series) ≡ series_at earlier series }
    // A past series stays whole.
    ensures past { (earlier later : List (List OutEntry)) (series : ℕ) → GoesOn earlier later
        → series < length earlier → series_at later series ≡ series_at earlier series }
    ensures series { (earlier later : List (List OutEntry)) → GoesOn earlier later → length earlier ≤ length later }
{}

/// Each entry of a log was pushed.
pub fn entries_are_pushed()
    ensures none_at_first { (series number : ℕ) → entry_at {T = OutEntry} ([] ∷ []) series number ≡ None }
    // With one more entry a number names what it named, or the new entry, or nothing.
    ensures entry { (log : List (List OutEntry)) (entry : OutEntry) (series number : ℕ) → IsSome (entry_at (with_entry log entry) series number)
        → (entry_at (with_entry log entry) series number ≡ entry_at log series number) ⊎ (entry_at (with_entry log entry) series number ≡ Some entry) }
    ensures series { (log : List (List OutEntry)) (series number : ℕ) → entry_at (log ++ [] ∷ []) series number ≡ entry_at log series number }
{}
