//! What a run waits for before it ends.

ghost use Rattle.std.specs.Prelude.{◌≡◌, ◌<◌, ◌≤◌, ℕ, [], ◌∷◌, ◌++◌, false, true, IfNone, IfSome, None, List, length, slice_get, slice_index_or};
ghost use Rattle.engine_loop.specs.declared.records.Turn.{Turn as TheTurn};
ghost use Rattle.serve_run.specs.Ended.{AllHaveSaid, Awaits, HaveEnded, IsOver, has_said, or_ended};
ghost use Rattle.switchboard.specs.Board.{connection_at};

use engine_loop::Engine;
use library_desk::LibTurn;

// A run has at most so many libraries.
const LIBRARIES: usize = 16;

/// What a run waits for: so many connections, each to its end, and the word of so many libraries that all is done.
#[derive(Drop)]
pub struct Awaited {
    pub(crate) connections: usize,
    pub(crate) libraries: usize,
    /// By the libraries' places, which of them said it.
    pub(crate) said: [bool; LIBRARIES],
    /// A connection that stood when it was last looked for one.
    pub(crate) standing: usize,
}

impl Awaited {
    /// Nothing has come yet.
    pub(crate) fn new(connections: usize, libraries: usize) -> Awaited
        requires few { libraries ≤ 16 }
        ensures awaits { Awaits connections libraries [] result }
    {
        Awaited {
            connections,
            libraries,
            said: [false; LIBRARIES],
            standing: 0,
        }
    }

    /// Whether all that the run waits for has come.
    pub(crate) fn is_over(&mut self, engine: &Engine) -> bool
        ensures over { (turns : List TheTurn) → Awaits self.old.connections self.old.libraries turns self.old → result ≡ true → IsOver self.old.connections self.old.libraries engine.now turns }
        ensures open { (turns : List TheTurn) → Awaits self.old.connections self.old.libraries turns self.old → result ≡ false → IsOver self.old.connections self.old.libraries engine.now turns → ⊥ }
        ensures awaits { (turns : List TheTurn) → Awaits self.old.connections self.old.libraries turns self.old → Awaits self.old.connections self.old.libraries turns self.new }
    {
        if engine.connections() != self.connections {
            return false;
        }
        if let Some(k) = standing(engine, self.standing) {
            self.standing = k;
            return false;
        }
        self.have_all_said()
    }

    /// Whether each library said that all is done.
    fn have_all_said(&self) -> bool
        ensures said { result ≡ true → (place : ℕ) → place < self.now.libraries → slice_index_or self.now.said place false ≡ true }
        ensures unsaid { result ≡ false → ((place : ℕ) → place < self.now.libraries → slice_index_or self.now.said place false ≡ true) → ⊥ }
    {
        for place in 0..self.libraries {
            if place >= LIBRARIES || !self.said[place] {
                return false;
            }
        }
        true
    }

    /// Hears what became of the libraries' commands in a turn.
    pub(crate) fn hear(&mut self, libs: &[LibTurn])
        ensures said { (place : ℕ) → place < length self.old.said → slice_index_or self.new.said place false ≡ or_ended (slice_index_or self.old.said place false) (slice_get libs.now place) }
        ensures rest { self.new ≡ record self.old { said = self.new.said } }
        ensures length { length self.new.said ≡ length self.old.said }
    {
        let count = libs.len().min(LIBRARIES);
        for place in 0..count {
            if let LibTurn::Ended { .. } = libs[place] {
                self.said[place] = true;
            }
        }
    }
}

/// A connection that stands: the one that is asked first, or else the first of all.
fn standing(engine: &Engine, asked: usize) -> Option<usize>
    ensures none { IfNone result (HaveEnded engine.now) }
    ensures some { IfSome result (λ k. HaveEnded engine.now → ⊥) }
{
    let count = engine.connections();
    if asked < count && engine.connection(asked).1.is_none() {
        return Some(asked);
    }
    for k in 0..count {
        if engine.connection(k).1.is_none() {
            return Some(k);
        }
    }
    None
}
