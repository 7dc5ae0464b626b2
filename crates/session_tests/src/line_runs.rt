//! `Expect` beside the plain list of pairs, over generated calls.
ghost use Rattle.std.specs.Prelude.{◌<◌};
ghost use Rattle.seq_gaps.specs.Line.{IsNumber};

use crate::plain_line::PlainLine;
use crate::unlike::{Unlike, same};
use draws::Draw;
use gate_io::NoMemory;
use seq_gaps::{Expect, MAX_NUMBER};
use std::alloc::Global;

/// The seed of all draws.
const SEED: u64 = 2026;

/// How many lists of calls are drawn.
const LISTS: u32 = 300;

/// The fast line and the plain one, which get the same calls, and how many they got.
#[derive(Drop)]
struct Both {
    fast: Expect<u32>,
    plain: PlainLine,
    made: u32,
}

impl Both {
    fn new(alloc: Global) -> Result<Both, NoMemory> {
        Ok(Both {
            fast: Expect::new(alloc)?,
            plain: PlainLine::new(alloc),
            made: 0,
        })
    }

    fn offer(&mut self, alloc: Global, n: u32) -> Result<(), Unlike>
        requires { IsNumber n }
    {
        self.made = self.made.wrapping_add(1);
        let plain = self.plain.offer(n, self.made)?;
        let found = self.fast.offer(n, self.made);
        same(alloc, &found, &plain, &("call", self.made, "of", n))
    }

    fn take_ready(&mut self, alloc: Global) -> Result<(), Unlike> {
        self.made = self.made.wrapping_add(1);
        let plain = self.plain.take_ready();
        let found = self.fast.take_ready();
        same(alloc, &found, &plain, &("call", self.made))
    }

    /// The number that is expected next.
    fn next(&self, alloc: Global) -> Result<(), Unlike> {
        let plain = self.plain.next_number();
        let found = self.fast.next_number();
        same(alloc, &found, &plain, &("next behind", self.made))
    }

    /// Fills up to so many numbers past the expected one, and not past the end.
    fn fill(&mut self, alloc: Global, by: u32) -> Result<(), Unlike> {
        self.made = self.made.wrapping_add(1);
        self.next(alloc)?;
        let next = self.fast.next_number();
        let to = next + by.min(MAX_NUMBER + 1 - next);
        self.fast.fill(to);
        self.plain.fill(to);
        Ok(())
    }

    fn clear(&mut self) {
        self.fast.clear();
        self.plain.clear();
    }

    fn restart(&mut self) {
        self.fast.restart();
        self.plain.restart();
    }

    /// An offer round the expected number, within the window.
    fn draw_offer(&mut self, alloc: Global, draw: &mut Draw, window: u32) -> Result<(), Unlike>
        requires { 0 < window }
    {
        let above = self.fast.next_number().saturating_add(draw.below(window));
        let n = above.saturating_sub(draw.below(4));
        self.offer(alloc, n.max(1).min(MAX_NUMBER))
    }

    /// One call, drawn: mostly offers.
    fn draw_call(&mut self, alloc: Global, draw: &mut Draw, window: u32) -> Result<(), Unlike>
        requires { 0 < window }
    {
        self.next(alloc)?;
        match draw.below(40) {
            0 => self.clear(),
            1 => self.restart(),
            2 | 3 => return self.fill(alloc, draw.below(window)),
            4 => return self.offer(alloc, 1),
            5 => return self.offer(alloc, MAX_NUMBER),
            6..=15 => return self.take_ready(alloc),
            _ => return self.draw_offer(alloc, draw, window),
        }
        Ok(())
    }

    fn draw_calls(
        &mut self,
        alloc: Global,
        draw: &mut Draw,
        window: u32,
        calls: u32,
    ) -> Result<(), Unlike>
        requires { 0 < window }
    {
        for _ in 0..calls {
            self.draw_call(alloc, draw, window)?;
        }
        Ok(())
    }

    /// Holds 256 numbers, which rise or fall.
    fn hold_many(&mut self, alloc: Global, rising: bool) -> Result<(), Unlike> {
        for k in 0..256u32 {
            let n = if rising { 2 + 2 * k } else { 1000 - 2 * k };
            self.offer(alloc, n)?;
        }
        Ok(())
    }

    /// Offers a number, and takes what is ready then.
    fn offer_and_take(&mut self, alloc: Global, n: u32) -> Result<(), Unlike>
        requires { IsNumber n }
    {
        self.offer(alloc, n)?;
        self.take_ready(alloc)
    }

    fn offer_and_take_each(&mut self, alloc: Global) -> Result<(), Unlike> {
        for n in 2..1100u32 {
            self.offer_and_take(alloc, n)?;
        }
        Ok(())
    }
}

/// Drawn calls: from the beginning on, from the middle or close to the end.
fn play_list(alloc: Global, both: &mut Both, draw: &mut Draw, list: u32) -> Result<(), Unlike> {
    match list % 3 {
        0 => {}
        1 => both.fill(alloc, draw.below(1_000_000))?,
        _ => both.fill(alloc, MAX_NUMBER - draw.below(40))?,
    }
    if list % 5 == 0 {
        both.draw_calls(alloc, draw, 600, 700)
    } else {
        both.draw_calls(alloc, draw, 12, 80)
    }
}

fn try_list(alloc: Global, draw: &mut Draw, list: u32) -> Result<(), Unlike> {
    let mut both = Both::new(alloc)?;
    play_list(alloc, &mut both, draw, list)
}

/// Holds 256 numbers and offers more, which find no room until some are handed on.
fn play_full(alloc: Global, both: &mut Both, rising: bool) -> Result<(), Unlike> {
    both.hold_many(alloc, rising)?;
    for n in [3, 999, 2000, 512, 1000, 1, MAX_NUMBER] {
        both.offer_and_take(alloc, n)?;
    }
    both.offer_and_take_each(alloc)
}

fn try_full(alloc: Global, rising: bool) -> Result<(), Unlike> {
    let mut both = Both::new(alloc)?;
    play_full(alloc, &mut both, rising)
}

/// Makes lists of calls, and compares the answers of both. Says how many lists it made.
pub fn compare_all(alloc: Global) -> Result<u32, Unlike> {
    let mut draw = Draw::new(SEED);
    for list in 0..LISTS {
        try_list(alloc, &mut draw, list)?;
    }
    try_full(alloc, true)?;
    try_full(alloc, false)?;
    Ok(LISTS + 2)
}
