//! Numbers that look random and are the same in each run, for generated cases of tests.
//!
//! Stands on `rand_pcg` (the generator) and `rand_core` (its next word). Told in docs/tests.md.
#![tactic(auto)]

ghost use Rattle.std.specs.Prelude.{◌<◌};

use rand_core::utils::NextWord;
use rand_pcg::Pcg32;

/// Draws numbers that look random and are the same for a seed.
#[derive(Drop)]
pub struct Draw {
    words: Pcg32,
}

impl Draw {
    pub fn new(seed: u64) -> Draw {
        Draw {
            words: Pcg32::new(seed, 54),
        }
    }

    pub fn below(&mut self, bound: u32) -> u32
        requires { 0 < bound }
        ensures { result < bound }
    {
        self.words.next_word() % bound
    }

    pub fn byte(&mut self) -> u8 {
        self.below(256) as u8
    }

    /// Whether something happens that happens once in so many times.
    pub fn is_one_in(&mut self, bound: u32) -> bool
        requires { 0 < bound }
    {
        self.below(bound) == 0
    }

    /// A number round this one.
    pub fn near(&mut self, n: u32) -> u32 {
        let above = n.saturating_add(self.below(7));
        above.saturating_sub(self.below(4))
    }

    /// A number from the least to the most.
    pub fn between(&mut self, least: usize, most: usize) -> usize {
        let room = most.saturating_sub(least).min(1_000_000) as u32;
        least.saturating_add(self.below(room.saturating_add(1)) as usize)
    }

    /// Whether something happens that happens so often in a hundred.
    pub fn chance(&mut self, percent: u32) -> bool {
        self.below(100) < percent
    }

    /// One of a few values, 0 where there is none.
    pub fn one_of(&mut self, values: &[u32]) -> u32 {
        let place = self.words.next_word() as usize % values.len().max(1);
        values.get(place).copied().unwrap_or(0)
    }

    /// One of a few texts.
    pub fn text_of(&mut self, texts: &[&'static str]) -> &'static str {
        let place = self.words.next_word() as usize % texts.len().max(1);
        texts.get(place).copied().unwrap_or("")
    }
}
