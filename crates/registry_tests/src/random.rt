//! The registry against the plain program, over generated calls.
use crate::acts::{Act, Answer, play};
use crate::draw::{some_library, some_place};
use crate::plain::{GiveUp, PlainState, lines_of, state_of, step, word_of};
use anyhow::{Result, ensure};
use draws::Draw;
use lease_core::{Entry, Event, Line, Registry, Reply, Shown, Standing, Why, Word};
use std::alloc::Global;

fn draw_standing(draw: &mut Draw) -> Standing {
    match draw.below(6) {
        0 | 1 | 2 => Standing::Released,
        3 => Standing::Revoked,
        _ => Standing::Active,
    }
}

/// The registry and the plain program, which get the same calls.
#[derive(Drop)]
pub struct Both {
    alloc: Global,
    limit: u32,
    pub registry: Registry,
    pub entries: Vec<Entry>,
}

impl Both {
    pub fn new(alloc: Global, limit: u32) -> Result<Both, GiveUp> {
        Ok(Both {
            alloc,
            limit,
            registry: Registry::new(alloc, limit)?,
            entries: Vec::new(alloc),
        })
    }

    /// The plain program's entry of an event.
    fn happens(&mut self, event: Event) -> Result<Entry, GiveUp> {
        let state = state_of(self.alloc, &self.entries)?;
        let entry = step(self.limit, &state, event)?;
        self.entries.push(entry)?;
        Ok(entry)
    }

    /// The plain program's entries of a word, and whether it shows an end.
    fn is_shown(&mut self, w: Word, until: u64) -> Result<Shown, GiveUp> {
        let state = state_of(self.alloc, &self.entries)?;
        let first = state.next_number()?;
        if !state.is_active() {
            return Ok(Shown {
                first,
                sends: 0,
                ended: false,
            });
        }
        let sends = state.missing(w);
        for _ in 0..sends {
            self.happens(Event::Sends)?;
        }
        let ended = w.standing == Standing::Released;
        if ended {
            let heir = if w.owner == state.owner() { 0 } else { w.owner };
            self.happens(Event::Releases { heir })?;
            if heir > 0 {
                self.happens(Event::Holds { until })?;
            }
        }
        Ok(Shown {
            first,
            sends,
            ended,
        })
    }

    /// What the plain program answers to a lawful call.
    fn expected(&mut self, act: Act) -> Result<Answer, GiveUp> {
        let event = match act {
            Act::Arrive => Event::Arrives,
            Act::Admin => Event::AdminSent,
            Act::Bind(c) => Event::Binds { c },
            Act::Plan(begin, last, at) => Event::Plans { begin, last, at },
            Act::Leave(c) => Event::Leaves { c },
            Act::Restart(c) => {
                self.happens(Event::Binds { c })?;
                Event::Resets
            }
            Act::Request(library, nr, from) => Event::Requests { library, nr, from },
            Act::Lapse => Event::Lapses,
            Act::Show(w, until) => return Ok(Answer::Of(self.is_shown(w, until)?)),
            Act::Timeout(w, until) => {
                let shown = self.is_shown(w, until)?;
                if !shown.ended {
                    self.happens(Event::TimesOut)?;
                }
                return Ok(Answer::Of(Shown {
                    ended: true,
                    ..shown
                }));
            }
        };
        Ok(match self.happens(event)? {
            Entry::Arrive { pos } => Answer::Place(pos),
            Entry::Admin { number } => Answer::Place(number),
            Entry::Reset { series } => Answer::Series(series),
            Entry::Granted { lease, start, .. } => Answer::To(Reply::Granted { lease, start }),
            Entry::Refused { why, .. } => Answer::To(Reply::Refused(why)),
            _ => Answer::Done,
        })
    }

    /// Makes a call of both, and says whether they answer it alike and are alike behind it.
    pub fn play(&mut self, act: Act) -> Result<bool, GiveUp> {
        let got = play(&mut self.registry, act)?;
        if got == Answer::Unlawful {
            return Ok(true);
        }
        let want = self.expected(act)?;
        Ok(got == want && self.are_alike()?)
    }

    // Whether the registry is as the plain program has it.
    fn are_alike(&self) -> Result<bool, GiveUp> {
        let state = state_of(self.alloc, &self.entries)?;
        let lines = lines_of(self.alloc, &self.entries)?;
        let word = word_of(&lines)?;
        Ok(
            self.has_entries(&state, &lines)
                && self.has_lengths(&state)
                && self.registry.word() == word,
        )
    }

    fn has_entries(&self, state: &PlainState, lines: &[Line]) -> bool {
        let registry = &self.registry;
        registry.entries() == self.entries.as_slice()
            && registry.holdings() == state.holdings()
            && registry.owner().0 == state.owner()
            && registry.owner().1 as usize == lines.len()
            && registry.reserved() == state.reserved()
            && registry.bound() == state.bound()
    }

    fn has_lengths(&self, state: &PlainState) -> bool {
        let registry = &self.registry;
        registry.series().0 as usize == state.series().len()
            && registry.series().1.checked_add(1) == state.next_number().ok()
            && registry.in_len() == state.inbound()
    }

    /// A call, drawn: mostly a lawful one.
    pub fn draw_act(&mut self, draw: &mut Draw) -> Act {
        let word = self.registry.word();
        match draw.below(30) {
            0 => Act::Bind(draw.below(3)),
            1 => Act::Leave(draw.below(3)),
            2 => Act::Plan(some_place(draw), some_place(draw), some_place(draw)),
            3 => Act::Restart(draw.below(3)),
            4 | 5 => Act::Admin,
            6 | 7 => Act::Lapse,
            8..=12 => Act::Arrive,
            13..=20 => Act::Request(some_library(draw), draw.below(9), some_place(draw)),
            21..=23 => Act::Timeout(draw_word(draw, word), some_place(draw)),
            _ => Act::Show(draw_word(draw, word), some_place(draw)),
        }
    }
}

/// A word that may come next.
fn draw_word(draw: &mut Draw, word: Word) -> Word {
    let owner = match draw.below(3) {
        0 => some_library(draw),
        _ => word.owner,
    };
    Word {
        owner,
        standing: draw_standing(draw),
        count: word.count.saturating_add(draw.below(4)),
        ..word
    }
}

/// Makes so many drawn calls of both, and says whether they stay alike.
pub fn play_drawn(both: &mut Both, draw: &mut Draw, count: u32) -> Result<bool, GiveUp> {
    for _ in 0..count {
        let act = both.draw_act(draw);
        if !both.play(act)? {
            return Ok(false);
        }
    }
    Ok(true)
}

// A list of calls. It says whether both stay alike.
fn play_list(alloc: Global, draw: &mut Draw, kinds: &mut Kinds) -> Result<bool, GiveUp> {
    let limit = 1 + draw.below(6);
    let mut both = Both::new(alloc, limit)?;
    let are_alike = play_drawn(&mut both, draw, 70)?;
    kinds.note_all(&both.entries);
    Ok(are_alike)
}

/// Generated calls are answered alike, and among them is every kind of entry and of refusal.
pub fn play_lists(alloc: Global) -> Result<()> {
    let mut draw = Draw::new(2026);
    let mut kinds = Kinds::default();
    for list in 0..300u32 {
        ensure!(play_list(alloc, &mut draw, &mut kinds)?, "list {list}");
    }
    ensure!(kinds.all_seen(), "{kinds:?}");
    Ok(())
}

/// Which of the rarer entries were made.
#[derive(Clone, Copy, Debug, Default)]
struct Kinds {
    granted: bool,
    other_owner: bool,
    reserved: bool,
    spent: bool,
    missing: bool,
    sent: bool,
    released: bool,
    handed: bool,
    timed_out: bool,
    lapsed: bool,
    reset: bool,
    planned: bool,
}

impl Kinds {
    fn note(&mut self, entry: Entry) {
        match entry {
            Entry::Granted { .. } => self.granted = true,
            Entry::Refused { why, .. } => self.note_why(why),
            Entry::Send { .. } => self.sent = true,
            Entry::Release { heir: 0, .. } => self.released = true,
            Entry::Release { .. } => self.handed = true,
            Entry::Timeout { .. } => self.timed_out = true,
            Entry::Lapse { .. } => self.lapsed = true,
            Entry::Reset { .. } => self.reset = true,
            Entry::Plan { .. } => self.planned = true,
            _ => {}
        }
    }

    fn note_all(&mut self, entries: &[Entry]) {
        for entry in entries {
            self.note(*entry);
        }
    }

    fn note_why(&mut self, why: Why) {
        match why {
            Why::OtherOwner { .. } => self.other_owner = true,
            Why::Reserved { .. } => self.reserved = true,
            Why::LeasesSpent { .. } => self.spent = true,
            Why::MissingMessages { .. } => self.missing = true,
            Why::UnknownSession { .. } => {}
        }
    }

    fn all_seen(&self) -> bool {
        let answers = self.granted
            && self.other_owner
            && self.reserved
            && self.spent
            && self.missing;
        let ends = self.released && self.handed && self.timed_out && self.lapsed;
        answers && ends && self.sent && self.reset && self.planned
    }
}
