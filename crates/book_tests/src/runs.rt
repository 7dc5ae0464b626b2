//! Generated runs, each beside the plain telling of all that happened in it.
ghost use Rattle.std.specs.Prelude.{IfOk};
ghost use Rattle.std.specs.List.{All};
ghost use Rattle.resend_plan.specs.Fit.{IsFit};

use crate::comparing::{Difference, told_to_wait, what_differs};
use crate::desk::{Desk, Left};
use crate::draw_text::{draw_bytes, draw_logon, draw_message};
use crate::plain_run::{Happening, PlainRun};
use crate::tally::Tally;
use crate::texts::T;
use anyhow::bail;
use book_desk::put_body;
use draws::Draw;
use gate_io::{Bytes, NoMemory};
use lease_core::{Standing, Word};
use session_core::Cause;
use std::alloc::Global;
use std::collections::VecDeque;

/// How many runs are made, each of so many steps.
const RUNS: u32 = 200;

const STEPS: u32 = 200;

/// The seed of all draws.
const SEED: u64 = 23;

/// How often the session can be granted.
const LEASES: u32 = 6;

/// More bytes than ever wait.
const ALL: usize = 1_048_576;

/// A desk, what happened at it, the bytes that are still to come, the number that the next message
/// has, and how many bytes were written on the last connection.
#[derive(Drop)]
struct Run {
    desk: Desk,
    happened: Vec<(u64, Happening)>,
    coming: Vec<u8>,
    next: u32,
    past: u64,
    written: usize,
    asked: u32,
}

impl Run {
    fn new(alloc: Global) -> Result<Run, NoMemory> {
        Ok(Run {
            desk: Desk::new(alloc, LEASES)?,
            happened: Vec::new(alloc),
            coming: Vec::new(alloc),
            next: 1,
            past: 0,
            written: 0,
            asked: 0,
        })
    }

    fn note(&mut self, happening: Happening) -> Result<(), NoMemory> {
        self.happened
            .push((T.saturating_add(self.past), happening))?;
        Ok(())
    }

    fn connect(&mut self, alloc: Global) -> Result<(), NoMemory> {
        if self.desk.connect(alloc)? {
            self.note(Happening::Connects)?;
            self.coming.clear();
            self.written = 0;
        }
        Ok(())
    }

    /// A message more is to come.
    fn draw(&mut self, alloc: Global, draw: &mut Draw) -> Result<(), NoMemory> {
        let is_first = self.desk.book().bound().is_none();
        if self.coming.is_empty() {
            self.next = self.desk.book().expected();
        }
        let text = if is_first {
            draw_logon(alloc, draw, self.next)?
        } else {
            draw_message(alloc, draw, self.next)?
        };
        self.next = self.next.saturating_add(1);
        let bytes = draw_bytes(alloc, draw, &text)?;
        self.coming.extend_from_slice(&bytes)?;
        Ok(())
    }

    /// Some of the bytes come.
    fn come(&mut self, alloc: Global, draw: &mut Draw) -> Result<(), NoMemory> {
        let most = draw.below(300) as usize;
        let (now, later) = self.coming.split_at(most.min(self.coming.len()));
        let bytes = Vec::from_slice(alloc, now)?;
        let later = Vec::from_slice(alloc, later)?;
        self.coming = later;
        if self.desk.take(alloc, &bytes)? {
            self.note(Happening::Comes(bytes))?;
        }
        Ok(())
    }

    fn tick(&mut self, alloc: Global) -> Result<(), NoMemory> {
        self.desk.tick(alloc)?;
        self.note(Happening::Ticks)
    }

    fn end(&mut self, draw: &mut Draw) -> Result<(), NoMemory> {
        let cause = if draw.is_one_in(2) {
            Cause::End
        } else {
            Cause::ReadFault
        };
        self.desk.end(cause)?;
        self.note(Happening::Ends(cause))
    }

    fn request(&mut self, draw: &mut Draw) -> Result<(), NoMemory> {
        let library = draw.below(3) as u8 + 1;
        let nr = self.asked;
        let from = self.desk.book().inbound().len().saturating_add(1);
        let from = from.saturating_sub(u64::from(draw.below(4)));
        self.asked = nr.wrapping_add(1);
        self.desk.request(library, nr, from)?;
        self.note(Happening::Requests { library, nr, from })
    }

    fn lapse(&mut self) -> Result<(), NoMemory> {
        if self.desk.lapse()? {
            self.note(Happening::Lapses)?;
        }
        Ok(())
    }

    /// A word that the library that has the session may have left, and how many sends it shows.
    fn draw_word(&mut self, draw: &mut Draw) -> (Word, u32) {
        let last = self.desk.book().word();
        let more = draw.below(4);
        let count = last.count.saturating_add(more);
        let (standing, owner) = match draw.below(6) {
            0 => (Standing::Released, last.owner),
            1 => (Standing::Released, draw.below(3) as u8 + 1),
            _ => (Standing::Active, last.owner),
        };
        let word = Word {
            standing,
            owner,
            count,
            ..last
        };
        (word, more)
    }

    /// What a library did is shown, or it loses the session.
    fn word(&mut self, alloc: Global, draw: &mut Draw) -> Result<(), NoMemory> {
        if self.desk.book().owner().0 == 0 {
            return self.request(draw);
        }
        let (w, more) = self.draw_word(draw);
        let bodies = draw_bodies(alloc, draw, more)?;
        let copies = copies_of(alloc, bodies.as_slice())?;
        if draw.is_one_in(8) {
            self.desk.time_out(alloc, w, copies)?;
            return self.note(Happening::TimesOut { old: w, bodies });
        }
        self.desk.show(alloc, w, copies)?;
        self.note(Happening::Shows { w, bodies })
    }

    fn write(&mut self, alloc: Global, draw: &mut Draw) -> Result<(), NoMemory> {
        let bytes = self.desk.write(alloc, draw.below(500) as usize)?;
        self.written = self.written.saturating_add(bytes.len());
        Ok(())
    }

    fn step(&mut self, alloc: Global, draw: &mut Draw) -> Result<(), NoMemory> {
        if self.desk.connection().has_ended() && draw.is_one_in(4) {
            return self.connect(alloc);
        }
        match draw.below(24) {
            0..=7 => self.draw(alloc, draw),
            8..=13 => self.come(alloc, draw),
            14 | 15 => {
                self.past = self.past.saturating_add(u64::from(draw.below(5_000)));
                self.desk.set(self.past);
                self.tick(alloc)
            }
            16..=18 => self.word(alloc, draw),
            19 => self.request(draw),
            20 => self.lapse(),
            21 if draw.is_one_in(6) => self.end(draw),
            _ => self.write(alloc, draw),
        }
    }

    fn go(&mut self, alloc: Global, draw: &mut Draw) -> Result<(), NoMemory> {
        self.connect(alloc)?;
        for _ in 0..STEPS {
            self.step(alloc, draw)?;
        }
        Ok(())
    }
}

fn draw_bodies(alloc: Global, draw: &mut Draw, count: u32) -> Result<Vec<Vec<u8>>, NoMemory> {
    let mut bodies = Vec::new(alloc);
    for _ in 0..count {
        let body = format!(in alloc; "35=8\x0137=O{}\x01", draw.below(1_000))?;
        bodies.push(Vec::from_slice(alloc, body.as_bytes())?)?;
    }
    Ok(bodies)
}

fn copies_of(alloc: Global, bodies: &[Vec<u8>]) -> Result<VecDeque<Bytes>, NoMemory>
    ensures { IfOk result (λ copies. All IsFit copies.items) }
{
    let mut copies = VecDeque::new(alloc);
    for body in bodies {
        put_body(&mut copies, Vec::from_slice(alloc, body.as_slice())?)?;
    }
    Ok(copies)
}

/// What happened, told plainly.
fn tell(alloc: Global, happened: &[(u64, Happening)]) -> Result<PlainRun, NoMemory> {
    let mut plain = PlainRun::new(alloc, LEASES)?;
    plain.tell(alloc, happened)?;
    Ok(plain)
}

/// Makes the steps of a run, writes what still waits then, and tells plainly what happened. Says besides how
/// many items waited.
fn play(alloc: Global, draw: &mut Draw, run: &mut Run) -> Result<(PlainRun, u64), NoMemory> {
    run.go(alloc, draw)?;
    let waiting = run.desk.connection().waiting_items();
    run.desk.write(alloc, ALL)?;
    let plain = tell(alloc, run.happened.as_slice())?;
    Ok((plain, waiting))
}

/// Makes a run, adds its entries to the tally, and says what of it isn't as it is told plainly.
fn try_run(
    alloc: Global,
    draw: &mut Draw,
    tally: &mut Tally,
) -> Result<Option<Difference>, NoMemory> {
    let mut run = Run::new(alloc)?;
    let told = play(alloc, draw, &mut run);
    let written = run.written;
    let left = run.desk.finish();
    tally.add(left.book.entries());
    compare(&left, written, told)
}

// Where so many bytes of the last connection were written, and this is told.
fn compare(
    left: &Left,
    written: usize,
    told: Result<(PlainRun, u64), NoMemory>,
) -> Result<Option<Difference>, NoMemory> {
    let (plain, waiting) = told?;
    if waiting != told_to_wait(&plain, written) {
        return Ok(Some(Difference::Waiting));
    }
    Ok(what_differs(left, &plain))
}

/// Makes the runs and compares each with a plain telling of it. Answers what they left.
pub fn compare_all(alloc: Global) -> anyhow::Result<Tally> {
    let mut draw = Draw::new(SEED);
    let mut tally = Tally::new();
    for run in 0..RUNS {
        if let Some(difference) = try_run(alloc, &mut draw, &mut tally)? {
            bail!("run {run} isn't told alike: {difference:?}");
        }
    }
    Ok(tally)
}
