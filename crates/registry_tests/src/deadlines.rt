//! Deadlines against a plain scan, over generated calls.
ghost use Rattle.std.specs.Prelude.{◌≡◌, ◌<◌, length};

use anyhow::{Result, ensure};
use draws::Draw;
use gate_io::NoMemory;
use library_clock::Deadlines;
use std::alloc::Global;

const SESSIONS: u16 = 64;

/// Deadlines, and the same as a list that is scanned whole. Both get the same calls.
#[derive(Drop)]
struct Both {
    fast: Deadlines,
    plain: Vec<Option<u64>>,
    ghost fast_all: { length fast ≡ 64 },
}

impl Both {
    fn new(alloc: Global) -> Result<Both, NoMemory> {
        Ok(Both {
            fast: Deadlines::new(alloc, SESSIONS)?,
            plain: vec![in alloc; None; usize::from(SESSIONS)]?,
        })
    }

    fn set(&mut self, alloc: Global, s: u16, at: Option<u64>) -> Result<(), NoMemory>
        requires { s < 64 }
    {
        self.fast.set(alloc, s, at)?;
        put(&mut self.plain, usize::from(s), at);
        Ok(())
    }

    // Asks both for what is due until nothing is, and says whether they answer alike.
    fn are_alike(&mut self, moment: u64) -> bool {
        for _ in 0..=SESSIONS {
            let want = take_first(&mut self.plain, moment);
            if self.fast.due(moment).map(usize::from) != want {
                return false;
            }
            if want.is_none() {
                return true;
            }
        }
        false
    }
}

fn put(list: &mut Vec<Option<u64>>, s: usize, at: Option<u64>) {
    if let Some(place) = list.get_mut(s) {
        *place = at;
    }
}

/// The first session of the list whose deadline has come. It is taken away.
fn take_first(list: &mut Vec<Option<u64>>, moment: u64) -> Option<usize> {
    let s = list
        .iter()
        .position(|at| matches!(*at, Some(at) if at <= moment))?;
    put(list, s, None);
    Some(s)
}

fn draw_deadline(draw: &mut Draw, moment: u64) -> Option<u64> {
    let ahead = u64::from(draw.below(30));
    match draw.below(5) {
        0 => None,
        _ => Some(moment.saturating_add(ahead).saturating_sub(5)),
    }
}

// Sets a deadline, and says whether both answer alike where they are then asked.
fn play(
    alloc: Global,
    both: &mut Both,
    draw: &mut Draw,
    moment: &mut u64,
) -> Result<bool, NoMemory> {
    let s = draw.below(64) as u16;
    let at = draw_deadline(draw, *moment);
    both.set(alloc, s, at)?;
    if draw.below(4) > 0 {
        return Ok(true);
    }
    *moment = moment.saturating_add(u64::from(draw.below(8)));
    Ok(both.are_alike(*moment))
}

fn play_list(alloc: Global, draw: &mut Draw, from: u64) -> Result<bool, NoMemory> {
    let mut both = Both::new(alloc)?;
    let mut moment = from;
    for _ in 0..60u32 {
        if !play(alloc, &mut both, draw, &mut moment)? {
            return Ok(false);
        }
    }
    Ok(both.are_alike(u64::MAX))
}

/// Generated deadlines come alike.
pub(crate) fn play_lists(alloc: Global) -> Result<()> {
    let mut draw = Draw::new(2026);
    for list in 0..300u64 {
        ensure!(play_list(alloc, &mut draw, list)?, "list {list}");
    }
    Ok(())
}
