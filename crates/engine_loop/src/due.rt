//! For how long nothing is due, as long as nothing comes: no tick, no lapse of a reservation, no dial, no silence of a
//! library, and no end of a wait for a Logon.

ghost use Rattle.std.specs.List.{All};
ghost use Rattle.std.specs.Prelude.{◌≡◌, ◌+◌, ◌<◌, ◌≤◌, ◌↔◌, ℕ, length, slice_index_or, true};
ghost use Rattle.connection_core.specs.Connection.{IsLate};
ghost use Rattle.engine_loop.specs.Due.{HasNoLapse, IsQuietAt, IsSessionQuiet, IsSilentAt};
ghost use Rattle.gate_io.specs.declared.clocks.TheConstants.{LAST_MOMENT};
ghost use Rattle.lease_desk.specs.Desk.{owner_at};
ghost use Rattle.session_core.specs.Tick.{does_nothing_at};
ghost use Rattle.switchboard.specs.Board.{book_at, connection_at};
ghost use Rattle.wire_desk.specs.Dials.{IsDialDue, IsScheduled};
ghost use Rattle.wire_desk.specs.Places.{open_places};

use crate::engine::Engine;
use connection_core::LOGON_WAIT;

/// For how many milliseconds at most the wire is told to wait behind an idle turn, also where nothing is due: so a clock that
/// is set ahead is noticed within that.
pub const LONGEST_PAUSE: u32 = 1_000;

/// A moment behind all others, for what is never due.
const NEVER: u64 = u64::MAX;

impl Engine {
    /// For how many milliseconds nothing is due, from the moment of the last turn on and as long as nothing comes; at most
    /// `LONGEST_PAUSE`. What would be due behind `LAST_MOMENT` never is.
    pub fn quiet_for(&self) -> u32
        requires moment { self.now.moment ≤ LAST_MOMENT }
        requires watched { length self.now.sessions.ends.items ≤ length self.now.sessions.watch.kept }
        requires scheduled { IsScheduled self.now.sessions.desk.board self.now.dialler }
        requires open { All (λ k. k < length self.now.sessions.desk.board.connections) (open_places self.now.lines) }
        ensures most { result ≤ LONGEST_PAUSE }
        // Until then nothing is due.
        ensures quiet { (moment : ℕ) → self.now.moment ≤ moment → moment < self.now.moment + result → moment ≤ LAST_MOMENT → IsQuietAt self.now moment }
        // Then something is, where it isn't the longest pause.
        ensures due { result < LONGEST_PAUSE → self.now.moment + result ≤ LAST_MOMENT → IsQuietAt self.now (self.now.moment + result) → ⊥ }
    {
        let due = self.sessions_due().min(self.logons_due());
        let wait = due.saturating_sub(self.moment);
        if wait < u64::from(LONGEST_PAUSE) {
            wait as u32
        } else {
            LONGEST_PAUSE
        }
    }

    /// The least moment at which anything of a session is due.
    fn sessions_due(&self) -> u64
        requires watched { length self.now.sessions.ends.items ≤ length self.now.sessions.watch.kept }
        requires scheduled { IsScheduled self.now.sessions.desk.board self.now.dialler }
        ensures { (moment : ℕ) → moment ≤ LAST_MOMENT → (((s : ℕ) → s < length self.now.sessions.desk.board.sessions → IsSessionQuiet self.now s moment) ↔ (moment < result)) }
    {
        let mut least = NEVER;
        for s in 0..self.sessions.desk.board.sessions() {
            least = least.min(self.session_due(s));
        }
        least
    }

    /// The least moment at which a connection that isn't closed has waited too long for its Logon.
    fn logons_due(&self) -> u64
        requires open { All (λ k. k < length self.now.sessions.desk.board.connections) (open_places self.now.lines) }
        ensures { (moment : ℕ) → moment ≤ LAST_MOMENT → (((i : ℕ) → i < length (open_places self.now.lines) → IsLate (connection_at self.now.sessions.desk.board (slice_index_or (open_places self.now.lines) i 0)) moment → ⊥) ↔ (moment < result)) }
    {
        let mut least = NEVER;
        for i in 0..self.lines.open_count() {
            least = least.min(self.logon_due(self.lines.open_place(i)));
        }
        least
    }

    /// The least moment at which anything of a session is due: the least of four.
    fn session_due(&self, s: usize) -> u64
        requires session { s < length self.now.sessions.desk.board.sessions }
        requires watched { length self.now.sessions.ends.items ≤ length self.now.sessions.watch.kept }
        requires scheduled { IsScheduled self.now.sessions.desk.board self.now.dialler }
        ensures { (moment : ℕ) → moment ≤ LAST_MOMENT → (IsSessionQuiet self.now s moment ↔ (moment < result)) }
    {
        let tick = self.tick_due(s);
        let lapse = self.lapse_due(s);
        let dial = self.dial_due(s);
        let silence = self.silence_due(s);
        tick.min(lapse).min(dial).min(silence)
    }

    /// The least moment at which a tick of a session does something.
    fn tick_due(&self, s: usize) -> u64
        requires session { s < length self.now.sessions.desk.board.sessions }
        ensures { (moment : ℕ) → moment ≤ LAST_MOMENT → ((does_nothing_at (book_at self.now.sessions.desk.board s).machine moment ≡ true) ↔ (moment < result)) }
    {
        match self.sessions.desk.board.session(s).due() {
            Some(due) => due,
            None => NEVER,
        }
    }

    /// The moment at which the reservation of a session lapses, if it has one.
    fn lapse_due(&self, s: usize) -> u64
        requires session { s < length self.now.sessions.desk.board.sessions }
        ensures { (moment : ℕ) → moment ≤ LAST_MOMENT → (HasNoLapse self.now s moment ↔ (moment < result)) }
    {
        match self.sessions.desk.board.session(s).reserved() {
            Some((_, until)) => until,
            None => NEVER,
        }
    }

    /// The least moment at which a session dials, as long as it is bound to no connection.
    fn dial_due(&self, s: usize) -> u64
        requires session { s < length self.now.sessions.desk.board.sessions }
        requires scheduled { IsScheduled self.now.sessions.desk.board self.now.dialler }
        ensures { (moment : ℕ) → moment ≤ LAST_MOMENT → ((IsDialDue self.now.sessions.desk.board self.now.dialler s moment → ⊥) ↔ (moment < result)) }
    {
        let dials = self.dialler.plans[s].is_some()
            && self.sessions.desk.board.place(s).is_none()
            && self.dialler.made < self.dialler.most;
        if dials { self.dialler.next[s] } else { NEVER }
    }

    /// The moment at which the library that has a session has fallen silent, if one has it.
    fn silence_due(&self, s: usize) -> u64
        requires session { s < length self.now.sessions.desk.board.sessions }
        requires watched { length self.now.sessions.ends.items ≤ length self.now.sessions.watch.kept }
        ensures { (moment : ℕ) → moment ≤ LAST_MOMENT → ((IsSilentAt self.now (owner_at self.now.sessions.desk.board s) moment → ⊥) ↔ (moment < result)) }
    {
        let (library, _) = self.sessions.desk.board.session(s).owner();
        if library >= 1 && usize::from(library) <= self.sessions.ends.len() {
            self.sessions.watch.silent_at(library)
        } else {
            NEVER
        }
    }

    /// The moment at which a connection is late, if it was accepted and is bound to no session.
    fn logon_due(&self, k: usize) -> u64
        requires connection { k < length self.now.sessions.desk.board.connections }
        ensures { (moment : ℕ) → moment ≤ LAST_MOMENT → ((IsLate (connection_at self.now.sessions.desk.board k) moment → ⊥) ↔ (moment < result)) }
    {
        let connection = self.sessions.desk.board.connection(k);
        if connection.is_dialled() || connection.session().is_some() {
            NEVER
        } else {
            connection.since().saturating_add(LOGON_WAIT)
        }
    }
}
