//! Laws of sessions and the seat at the lease table: journals and seat go on agreeing, whatever happens to
//! others. Each is the contract of a function that does nothing.

ghost use Rattle.std.specs.Prelude.{◌≡◌, ◌≢◌, ℕ, ◌≤◌, List, Option, false, length};
ghost use Rattle.lease_core.specs.Lines.{lines_of};
ghost use Rattle.lease_core.specs.declared.entry.Entry.{Entry};
ghost use Rattle.lease_desk.specs.Desk.{Agrees, GoesOn, IsInStep, is_of_leases};
ghost use Rattle.lease_words.specs.declared.view.EngineSession.{EngineSession};
ghost use Rattle.lease_words.specs.declared.view.Heard.{Heard};
ghost use Rattle.lease_words.specs.Views.{EngineView, with_engine_at, with_heard};
ghost use Rattle.switchboard.specs.Board.{Board, DeskChanges, PlugChanges, book_at, session_at, with_session};
ghost use Rattle.switchboard.specs.Happenings.{Happening, Happens};
ghost use Rattle.switchboard.specs.Ready.{IsReady};

use lease_core::laws::{lines_go_on, lines_tell_the_owner};
use switchboard::laws::{boards_stay_ready, leases_stay, sessions_go_on};

/// The journal of a session and the seat go on agreeing, whatever happens to others.
pub fn agreement_stays()
    // Another session is gathered, taken back, published or asked for.
    ensures other { (board : Board) (seat : EngineView) (s other : ℕ) (known : EngineSession) → s ≢ other → Agrees board seat s → Agrees board (with_engine_at seat other known) s }
    // The session goes on, and its lines don't.
    ensures session { (old new : Board) (seat : EngineView) (s : ℕ) → lines_of (book_at new s).entries ≡ lines_of (book_at old s).entries
        → length (book_at old s).inbound ≤ length (book_at new s).inbound → Agrees old seat s → Agrees new seat s }
    // A library's beats are loaded.
    ensures beats { (board : Board) (seat : EngineView) (s library : ℕ) (heard : Heard) → Agrees board seat s → Agrees board (record seat { knows = with_heard seat.knows library heard }) s }
{}

/// What happens to one session leaves the books of the others as they are.
pub fn others_stay()
    ensures desk { (s other : ℕ) (place : Option ℕ) (old new : Board) → other ≢ s → DeskChanges s place old new → book_at new other ≡ book_at old other }
    ensures plug { (s k other : ℕ) (place : Option ℕ) (old new : Board) → other ≢ s → PlugChanges s k place old new → book_at new other ≡ book_at old other }
    ensures session { (s other : ℕ) (old new : Board) → other ≢ s → new ≡ with_session s (session_at new s) old → book_at new other ≡ book_at old other }
{}

/// Whatever happens on connections and by the clock, sessions and seat stay in step, and each session goes
/// on by no new lease.
pub fn boards_stay_in_step()
    ensures step { (before : ℕ → List Entry) (happening : Happening) (old new : Board) (seat : EngineView) → is_of_leases happening ≡ false → Happens happening old new → IsReady before old
        → IsInStep old seat → IsInStep new seat }
    ensures goes_on { (happening : Happening) (old new : Board) → is_of_leases happening ≡ false → Happens happening old new → (s : ℕ) → GoesOn old new s }
    ensures sessions { (happening : Happening) (old new : Board) → is_of_leases happening ≡ false → Happens happening old new → length new.sessions ≡ length old.sessions }
{
    boards_stay_ready();
    leases_stay();
    sessions_go_on();
    lines_go_on();
    lines_tell_the_owner();
}
