//! Law of the end of a run: the last gathering is a list of happenings. It is the contract of a function that
//! does nothing.

ghost use Rattle.std.specs.Prelude.{◌≡◌, ℕ, ◌<◌, ◌≤◌, List, length};
ghost use Rattle.std.specs.List.{All};
ghost use Rattle.engine_end.specs.Finishing.{GathersAll, GathersSome};
ghost use Rattle.engine_end.specs.Happening.{IsOfGathering, RunsGathering};
ghost use Rattle.lease_core.specs.declared.entry.Entry.{Entry};
ghost use Rattle.lease_desk.specs.declared.desk.LeaseDesk.{LeaseDesk};
ghost use Rattle.switchboard.specs.Board.{Board, connection_at};
ghost use Rattle.switchboard.specs.Brought.{Brought, TakeWhatIsInHand, brought_over};
ghost use Rattle.switchboard.specs.Going.{GoesOnTo, KeepsBytes};
ghost use Rattle.switchboard.specs.Happenings.{Happening, Reaches};
ghost use Rattle.switchboard.specs.Ready.{IsReady};
ghost use Rattle.switchboard.specs.Told.{ComeInOrder, moment_over};

use switchboard::laws::{boards_go_on, boards_stay_ready};

/// The last gathering is a run of happenings at its moment, also where memory is wanting: room is made and
/// words are shown, and nothing else happens.
pub fn gathering_happens()
    ensures all { (at until : ℕ) (old new : LeaseDesk) → GathersAll at until old new → RunsGathering at until old.board new.board }
    ensures some { (at until : ℕ) (old new : LeaseDesk) → GathersSome at until old new → RunsGathering at until old.board new.board }
    // Such a run keeps a board ready, sessions and connections go on in it, and no bytes come or are written.
    ensures ready { (before : ℕ → List Entry) (at until : ℕ) (old new : Board) → RunsGathering at until old new → IsReady before old → IsReady before new }
    ensures goes_on { (at until : ℕ) (old new : Board) → RunsGathering at until old new → GoesOnTo old new }
    ensures bytes { (before : ℕ → List Entry) (at until : ℕ) (old new : Board) → RunsGathering at until old new → IsReady before old
        → (k : ℕ) → k < length old.connections → KeepsBytes (connection_at old k) (connection_at new k) }
    // Moments come in order in it, and nothing is handled.
    ensures in_order { (at until moment : ℕ) (happenings : List Happening) → moment ≤ at → All (IsOfGathering at until) happenings → ComeInOrder moment happenings × (moment_over happenings moment ≤ at) }
    ensures in_hand { (at until : ℕ) (happenings : List Happening) (old new : Board) (reached : Reaches happenings old new) (brought : ℕ → Brought) → All (IsOfGathering at until) happenings
        → TakeWhatIsInHand happenings old new reached brought × ((k : ℕ) → brought_over happenings old new reached brought k ≡ brought k) }
{
    boards_stay_ready();
    boards_go_on();
}
