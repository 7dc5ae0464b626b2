//! Which library has each session, looked up at once.

ghost use Rattle.std.specs.Prelude.{◌≡◌, ◌<◌, ◌≤◌, length, slice_index_or, IfNone, IfSome};
ghost use Rattle.library_desk.specs.Owners.{AreOwners, HasNone};

use session_core::MOST_SESSIONS;
use std::marker::Model;
use switchboard::Switchboard;

/// How many numbers of libraries there can be, 0 for the engine among them.
const NUMBERS: usize = 256;

/// Which library has each session, or 0 for the engine, by the sessions' numbers: so that a turn
/// needn't look each session's journal up for each library.
#[derive(Debug, Drop)]
pub struct Owners {
    owners: [u8; MOST_SESSIONS],
    /// Of each number whether a session has it: a library that has none is passed over at once.
    marks: [bool; NUMBERS],
}

impl Model for Owners {
    ghost use Rattle.std.specs.Prelude.{ℕ, List};
    ghost use Rattle.library_desk.specs.Owners.{AreMarked};

    ghost Value = { List ℕ };

    ghost view = { λ o. o.owners };

    ghost invariant = { λ o. AreMarked o.owners o.marks };
}

impl Owners {
    /// Who has each session of a board.
    pub fn of(board: &Switchboard) -> Owners
        requires few { length board.now.sessions ≤ MOST_SESSIONS }
        ensures { AreOwners board.now result }
    {
        let mut owners = [0; MOST_SESSIONS];
        let mut marks = [false; NUMBERS];
        marks[0] = true;
        for s in 0..board.sessions() {
            let (owner, _) = board.session(s).owner();
            owners[s] = owner;
            marks[owner as usize] = true;
        }
        Owners { owners, marks }
    }

    /// The first session from one on, of so many, that a library has.
    pub fn next(&self, library: u8, from: usize, sessions: usize) -> Option<usize>
        requires { sessions ≤ MOST_SESSIONS }
        ensures found { IfSome result (λ s. (from ≤ s) × (s < sessions) × (slice_index_or self.now s 0 ≡ library)) }
        ensures first { IfSome result (λ s. HasNone library from s self.now) }
        ensures none { IfNone result (HasNone library from sessions self.now) }
    {
        if !self.marks[library as usize] {
            return None;
        }
        for s in from..sessions {
            if self.owners[s] == library {
                return Some(s);
            }
        }
        None
    }
}
