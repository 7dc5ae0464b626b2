//! What a table begins with: the leases that its sessions had before, in its words and in the
//! engine's rows.
ghost use Rattle.std.specs.Prelude.{◌≡◌, ◌+◌, ◌^◌, ◌<◌, ◌≤◌, [], ◌∷◌, ◌++◌, length, OnOk, IfOk};
ghost use Rattle.lease_core.specs.Runs.{IsRun};
ghost use Rattle.lease_words.specs.Layout.{word_count};
ghost use Rattle.lease_words.specs.Registries.{kept_lines, ended_line, ended_lines, IsEndedJournal, AreCounted};
ghost use Rattle.lease_core.specs.Lines.{last_line};
ghost use Rattle.lease_words.specs.Tokens.{IsOutset};

use crate::layout::{STRETCH, beat_word, lease_word};
use crate::rows::EngineRow;
use gate_io::NoMemory;
use lease_core::{Ending, Entry, Line, MOST_LIBRARIES, Registry, write_word};
use std::alloc::Global;
use std::collections::LinkedList;

/// The lines of the sessions so far, and the rows and words that follow from them.
#[derive(Drop)]
pub(crate) struct Outset {
    pub(crate) sessions: u16,
    pub(crate) libraries: u8,
    pub(crate) before: LinkedList<LinkedList<Line>>,
    pub(crate) rows: Vec<EngineRow>,
    pub(crate) words: Vec<u64>,
}

impl Outset {
    /// No session had a lease.
    pub(crate) fn new(alloc: Global, sessions: u16, libraries: u8) -> Result<Outset, NoMemory>
        requires sessions { sessions ≤ 64 }
        requires libraries { libraries ≤ MOST_LIBRARIES }
        ensures outset { IfOk result (λ o. IsOutset o) }
        ensures before { IfOk result (λ o. o.before ≡ []) }
        ensures sizes { IfOk result (λ o. (o.sessions ≡ sessions) × (o.libraries ≡ libraries)) }
    {
        let rows = vec![in alloc; EngineRow::NEW; sessions as usize]?;
        let words = vec![in alloc; 0u64; word_count(sessions, libraries)]?;
        Ok(Outset {
            sessions,
            libraries,
            before: LinkedList::new(alloc),
            rows,
            words,
        })
    }

    /// The next session, which has this number, had the leases of a journal.
    pub(crate) fn add(&mut self, alloc: Global, s: u16, journal: &Registry) -> Result<(), NoMemory>
        requires outset { IsOutset self.old }
        requires next { s ≡ length self.old.before }
        requires room { s < self.old.sessions }
        requires journal { IsEndedJournal journal.now }
        ensures outset { OnOk result (IsOutset self.new) }
        ensures before { OnOk result (self.new.before ≡ self.old.before ++ kept_lines journal.now ∷ []) }
        ensures sizes { (self.new.sessions ≡ self.old.sessions) × (self.new.libraries ≡ self.old.libraries) }
    {
        let past = Past::of(alloc, journal.entries())?;
        let word = journal.word();
        self.rows[s as usize] = EngineRow {
            lease: word.lease,
            library: past.last.library,
            count: word.count,
            pending: 0,
        };
        self.words[lease_word(s)] = write_word(word);
        self.before.push_back(past.lines)?;
        Ok(())
    }
}

/// The lines of the leases that a journal ends, and the last of them.
#[derive(Drop)]
struct Past {
    lines: LinkedList<Line>,
    last: Line,
}

impl Past {
    fn of(alloc: Global, entries: &[Entry]) -> Result<Past, NoMemory>
        ensures lines { IfOk result (λ past. past.lines ≡ ended_lines entries.now) }
        ensures last { IfOk result (λ past. past.last ≡ last_line past.lines) }
        ensures counted { IfOk result (λ past. AreCounted past.lines) }
    {
        let mut lines = LinkedList::new(alloc);
        let mut last = NO_LINE;
        for entry in entries {
            if let Some(line) = ended_line(entry) {
                lines.push_back(line)?;
                last = line;
            }
        }
        Ok(Past { lines, last })
    }
}

// What stands for the last line where there is none.
const NO_LINE: Line = Line {
    library: 0,
    sends: 0,
    ending: Ending::Running,
};

// The line of the lease that an entry ends.
fn ended_line(entry: &Entry) -> Option<Line>
    ensures { result ≡ ended_line entry.now }
{
    match *entry {
        Entry::Release {
            library,
            count,
            heir,
            ..
        } => Some(Line {
            library,
            sends: count,
            ending: Ending::GivenBack { heir },
        }),
        Entry::Timeout { library, count, .. } => Some(Line {
            library,
            sends: count,
            ending: Ending::TakenBack,
        }),
        _ => None,
    }
}

// How many words the table has.
fn word_count(sessions: u16, libraries: u8) -> usize
    requires { sessions ≤ 64 }
    ensures { result ≡ word_count sessions libraries }
{
    beat_word(sessions as usize, libraries) + STRETCH
}
