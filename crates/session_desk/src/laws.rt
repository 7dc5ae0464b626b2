//! Laws of what sessions do in a turn: all go on, and no connection comes. Each is the contract of a function
//! that does nothing.

ghost use Rattle.std.specs.Prelude.{◌≡◌, ℕ, List, Option, Result, false, length, true};
ghost use Rattle.lease_core.specs.declared.entry.Entry.{Entry};
ghost use Rattle.lease_desk.specs.Desk.{is_of_leases};
ghost use Rattle.lease_desk.specs.declared.desk.LeaseDesk.{LeaseDesk};
ghost use Rattle.session_book.specs.Records.{Pending};
ghost use Rattle.session_core.specs.declared.causes.Cause.{Cause};
ghost use Rattle.session_desk.specs.Steps.{AreNoted, AreRoutes, GreetsAs, Hears, Proceeds, Ticks, parting};
ghost use Rattle.session_desk.specs.declared.routes.Routes.{Routes};
ghost use Rattle.switchboard.specs.Board.{Board};
ghost use Rattle.switchboard.specs.Going.{GoesOnTo, is_quiet};
ghost use Rattle.switchboard.specs.Happenings.{Happening, Happens};
ghost use Rattle.switchboard.specs.Ready.{IsReady};

use lease_desk::laws::boards_stay_in_step;
use switchboard::laws::boards_go_on;

/// What a session does in a turn lets all of them go on, by no new lease: so the routes stay those of
/// sessions that accept, and what was noted of the entries stays noted.
pub fn sessions_proceed()
    ensures itself { (board : Board) → Proceeds board board }
    ensures further { (first second third : Board) → Proceeds first second → Proceeds second third → Proceeds first third }
    // What happens on connections and by the clock, but for bytes that come, are cut or written.
    ensures happening { (before : ℕ → List Entry) (happening : Happening) (old new : Board) → is_of_leases happening ≡ false → is_quiet happening ≡ true → Happens happening old new → IsReady before old → Proceeds old new }
    ensures routes { (old new : Board) (routes : Routes) → GoesOnTo old new → AreRoutes old routes → AreRoutes new routes }
    ensures noted { (old new : Board) (unkept : List Pending) → GoesOnTo old new → AreNoted unkept old → AreNoted unkept new }
{
    boards_stay_in_step();
    boards_go_on();
}

/// Neither where a session hears a message or the clock, nor where one is greeted or a connection ends,
/// does a connection come.
pub fn none_comes()
    ensures greets { (found : Result ℕ Cause) (k : ℕ) (body : List ℕ) (at until : ℕ) (old new : LeaseDesk) (unkept_old unkept_new : List Pending) (end : Option Cause) → GreetsAs found k body at until old new unkept_old unkept_new end
        → length new.board.connections ≡ length old.board.connections }
    ensures hears { (s k : ℕ) (body : List ℕ) (at until : ℕ) (old new : LeaseDesk) (unkept_old unkept_new : List Pending) (end : Option Cause) → Hears s k body at until old new unkept_old unkept_new end
        → length new.board.connections ≡ length old.board.connections }
    ensures ticks { (s at until : ℕ) (old new : LeaseDesk) (end : Option Cause) → Ticks s at until old new end → length new.board.connections ≡ length old.board.connections }
    ensures parts { (session : Option ℕ) (k : ℕ) (cause : Cause) (old new : Board) → Happens (parting session k cause) old new → length new.connections ≡ length old.connections }
{
    boards_go_on();
}
