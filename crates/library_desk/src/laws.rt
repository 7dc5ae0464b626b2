//! Laws of serving a library: cursors stay within their logs, and serving is a list of happenings. Each is the
//! contract of a function that does nothing.

ghost use Rattle.std.specs.Prelude.{◌≡◌, ℕ, ◌≤◌, List, false, length};
ghost use Rattle.std.specs.List.{All};
ghost use Rattle.catchup_pump.specs.declared.cursor.Cursor.{Cursor};
ghost use Rattle.lease_core.specs.declared.entry.Entry.{Entry};
ghost use Rattle.lease_desk.specs.Desk.{GoesOn, is_of_leases};
ghost use Rattle.library_desk.specs.declared.desk.LibraryDesk.{LibraryDesk};
ghost use Rattle.library_desk.specs.declared.serving.LibTurn.{LibTurn};
ghost use Rattle.library_desk.specs.Happening.{IsOfLibraries, RunsFor};
ghost use Rattle.library_desk.specs.Serving.{AreCursors, Serves};
ghost use Rattle.switchboard.specs.Board.{Board};
ghost use Rattle.switchboard.specs.Brought.{Brought, TakeWhatIsInHand, brought_over};
ghost use Rattle.switchboard.specs.Happenings.{Happening, Happens, Reaches};
ghost use Rattle.switchboard.specs.Ready.{IsReady};
ghost use Rattle.switchboard.specs.Told.{ComeInOrder, moment_over};

use lease_desk::laws::boards_stay_in_step;
use switchboard::laws::boards_stay_ready;

/// Each session's cursor goes on being its own while the session goes on by no new lease: so it does
/// whatever happens on connections and by the clock.
pub fn cursors_stay()
    ensures boards { (old new : Board) (cursors : List Cursor) → length new.sessions ≡ length old.sessions → ((s : ℕ) → GoesOn old new s) → AreCursors old cursors → AreCursors new cursors }
    ensures happening { (happening : Happening) (old new : Board) (cursors : List Cursor) → is_of_leases happening ≡ false → Happens happening old new → AreCursors old cursors → AreCursors new cursors }
{
    boards_stay_in_step();
}

/// What is done for a library in a turn is a run of happenings at its moment.
pub fn serving_happens()
    ensures serves { (library at until : ℕ) (old new : LibraryDesk) (turn : LibTurn) → Serves library at until old new turn → RunsFor at old.desk.board new.desk.board }
    // Such a run, and one behind another, keep a board ready; moments come in order in it, and nothing is handled.
    ensures none { (at : ℕ) (board : Board) → RunsFor at board board }
    ensures further { (at : ℕ) (first second third : Board) → RunsFor at first second → RunsFor at second third → RunsFor at first third }
    ensures ready { (before : ℕ → List Entry) (at : ℕ) (old new : Board) → RunsFor at old new → IsReady before old → IsReady before new }
    ensures in_order { (at moment : ℕ) (happenings : List Happening) → moment ≤ at → All (IsOfLibraries at) happenings → ComeInOrder moment happenings × (moment_over happenings moment ≤ at) }
    ensures in_hand { (at : ℕ) (happenings : List Happening) (old new : Board) (reached : Reaches happenings old new) (brought : ℕ → Brought) → All (IsOfLibraries at) happenings
        → TakeWhatIsInHand happenings old new reached brought × ((k : ℕ) → brought_over happenings old new reached brought k ≡ brought k) }
{
    boards_stay_ready();
}
