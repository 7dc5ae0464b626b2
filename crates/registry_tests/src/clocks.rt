//! Rows of deadlines, of silent libraries, and of lease words as numbers.
ghost use Rattle.std.specs.Prelude.{◌≡◌, ◌<◌, ◌≤◌, length};

use crate::parts::word_of;
use crate::rows::Played;
use gate_io::NoMemory;
use lease_core::{Word, read_word, write_word};
use library_clock::{Deadlines, Watch};
use row_text::Words;
use row_text::answers::{Answer, made, shown, text};
use std::alloc::Global;

/// What is done to deadlines.
#[derive(Clone, Copy)]
enum Setting {
    Set(u16, u64),
    Clear(u16),
    Due(u64),
}

fn setting_of(words: &mut Words<'_>) -> Option<Setting> {
    Some(match words.word()? {
        "set" => Setting::Set(words.u16()?, words.number()?),
        "clear" => Setting::Clear(words.u16()?),
        "due" => Setting::Due(words.number()?),
        _ => return None,
    })
}

/// The deadlines of so many sessions.
#[derive(Drop)]
pub(crate) struct Timers {
    deadlines: Deadlines,
    sessions: u16,
    ghost sessions_are: { length deadlines ≡ sessions },
}

impl Timers {
    pub(crate) fn new(alloc: Global, sessions: u16) -> Result<Timers, NoMemory> {
        Ok(Timers {
            deadlines: Deadlines::new(alloc, sessions)?,
            sessions,
        })
    }

    // Whether there is such a session.
    fn set(&mut self, alloc: Global, s: u16, at: Option<u64>) -> Result<bool, NoMemory> {
        if s >= self.sessions {
            return Ok(false);
        }
        self.deadlines.set(alloc, s, at)?;
        Ok(true)
    }
}

impl Played for Timers {
    fn answer(&mut self, alloc: Global, command: &str) -> Option<Answer> {
        let mut words = Words::of(command);
        let setting = setting_of(&mut words)?;
        if !words.is_over() {
            return None;
        }
        let done = match setting {
            Setting::Set(s, at) => self.set(alloc, s, Some(at)),
            Setting::Clear(s) => self.set(alloc, s, None),
            Setting::Due(moment) => return Some(shown(alloc, &self.deadlines.due(moment))),
        };
        Some(match done {
            Ok(is_done) => made(alloc, is_done),
            Err(error) => Err(error),
        })
    }
}

/// What is watched of so many libraries.
#[derive(Drop)]
pub(crate) struct Beats {
    watch: Watch,
    libraries: u8,
    ghost libraries_are: { length watch.kept ≡ libraries },
}

impl Beats {
    /// Libraries that may be silent for so long, from a moment on.
    pub(crate) fn new(
        alloc: Global,
        libraries: u8,
        timeout: u64,
        moment: u64,
    ) -> Result<Beats, NoMemory> {
        Ok(Beats {
            watch: Watch::new(alloc, libraries, timeout, moment)?,
            libraries,
        })
    }

    fn note(&mut self, alloc: Global, library: u8, beat: u64, moment: u64) -> Answer {
        if library == 0 || library > self.libraries {
            return text(alloc, "no library");
        }
        shown(alloc, &self.watch.note(library, beat, moment))
    }
}

// `note LIBRARY BEAT MOMENT`.
fn note_of(words: &mut Words<'_>) -> Option<(u8, u64, u64)> {
    if words.word()? != "note" {
        return None;
    }
    Some((words.u8()?, words.number()?, words.number()?))
}

impl Played for Beats {
    fn answer(&mut self, alloc: Global, command: &str) -> Option<Answer> {
        let mut words = Words::of(command);
        let (library, beat, moment) = note_of(&mut words)?;
        if !words.is_over() {
            return None;
        }
        Some(self.note(alloc, library, beat, moment))
    }
}

/// Lease words and their numbers.
#[derive(Drop)]
pub(crate) struct Numbers {}

/// What is asked of them.
#[derive(Clone, Copy)]
enum Asked {
    Read(u64),
    Written(Word),
}

fn asked_of(words: &mut Words<'_>) -> Option<Asked> {
    Some(match words.word()? {
        "read" => Asked::Read(words.number()?),
        "written" => Asked::Written(word_of(words)?),
        _ => return None,
    })
}

fn written(alloc: Global, word: Word) -> Answer {
    if word.lease >= 1 << 24 || word.owner >= 64 {
        return text(alloc, "no number");
    }
    shown(alloc, &write_word(word))
}

impl Played for Numbers {
    fn answer(&mut self, alloc: Global, command: &str) -> Option<Answer> {
        let mut words = Words::of(command);
        let asked = asked_of(&mut words)?;
        if !words.is_over() {
            return None;
        }
        Some(match asked {
            Asked::Read(number) => shown(alloc, &read_word(number)),
            Asked::Written(word) => written(alloc, word),
        })
    }
}
