//! Rows of one session's registry, or of its entries as they are read back.
ghost use Rattle.std.specs.Prelude.{◌≡◌};
ghost use Rattle.std.specs.Option.{ForSome};

use crate::acts::{Act, play};
use crate::parts::{entry_of, word_of};
use crate::rows::Played;
use gate_io::NoMemory;
use lease_core::{Entry, Recovery, Registry};
use row_text::Words;
use row_text::answers::{Answer, made, shown, shown_some, text};
use std::alloc::Global;

/// What is asked of the registry, or of the entries that were read.
#[derive(Clone, Copy)]
enum Fact {
    Entry(usize),
    Entries,
    Holding(usize),
    Holdings,
    Owner,
    Inbound,
    Outbound,
    Series,
    Reserved,
    Bound,
    Word,
}

/// What is done in a row.
#[derive(Clone, Copy)]
enum Deed {
    Acts(Act),
    Is(Fact),
    // The next entry that is read back, which has to be accepted; and whether one may be the next.
    Reads(Entry),
    Accepts(Entry),
    // A registry goes on behind what was read; and its entries are read back.
    Resumes(u64),
    Reopens,
}

fn act_of(name: &str, words: &mut Words<'_>) -> Option<Act> {
    Some(match name {
        "arrive" => Act::Arrive,
        "admin" => Act::Admin,
        "lapse" => Act::Lapse,
        "bind" => Act::Bind(words.u32()?),
        "leave" => Act::Leave(words.u32()?),
        "restart" => Act::Restart(words.u32()?),
        "plan" => Act::Plan(words.number()?, words.number()?, words.number()?),
        "request" => Act::Request(words.u8()?, words.u32()?, words.number()?),
        "show" => Act::Show(word_of(words)?, words.number()?),
        "timeout" => Act::Timeout(word_of(words)?, words.number()?),
        _ => return None,
    })
}

fn fact_of(name: &str, words: &mut Words<'_>) -> Option<Fact> {
    Some(match name {
        "entry" => Fact::Entry(words.place()?),
        "entries" => Fact::Entries,
        "holding" => Fact::Holding(words.place()?),
        "holdings" => Fact::Holdings,
        "owner" => Fact::Owner,
        "in_len" => Fact::Inbound,
        "out_len" => Fact::Outbound,
        "series" => Fact::Series,
        "reserved" => Fact::Reserved,
        "bound" => Fact::Bound,
        "word" => Fact::Word,
        _ => return None,
    })
}

fn deed_of(name: &str, words: &mut Words<'_>) -> Option<Deed> {
    Some(match name {
        "reads" => Deed::Reads(entry_of(words)?),
        "accepts" => Deed::Accepts(entry_of(words)?),
        "resumes" => Deed::Resumes(words.number()?),
        "reopens" => Deed::Reopens,
        "arrive"
        | "admin"
        | "lapse"
        | "bind"
        | "leave"
        | "restart"
        | "plan"
        | "request"
        | "show"
        | "timeout" => Deed::Acts(act_of(name, words)?),
        _ => Deed::Is(fact_of(name, words)?),
    })
}

/// A registry, or a journal that is being read back, of a session that can be granted so many times.
#[derive(Drop)]
pub(crate) struct Journal {
    limit: u32,
    registry: Option<Registry>,
    recovery: Option<Recovery>,
    ghost runs: { ForSome registry (λ r. r.leases ≡ limit) },
    ghost reads: { ForSome recovery (λ r. r.leases ≡ limit) },
}

// Whether the entry is accepted, and then recorded.
fn read(recovery: &mut Recovery, entry: Entry) -> Result<bool, NoMemory>
    ensures { recovery.new.leases ≡ recovery.old.leases }
{
    recovery.reserve(1)?;
    let is_next = recovery.accepts(&entry);
    if is_next {
        recovery.record(entry);
    }
    Ok(is_next)
}

fn run_fact(alloc: Global, registry: &Registry, fact: Fact) -> Answer {
    match fact {
        Fact::Entry(place) => shown_some(alloc, registry.entries().get(place)),
        Fact::Entries => shown(alloc, &registry.entries().len()),
        Fact::Holding(place) => shown_some(alloc, registry.holdings().get(place)),
        Fact::Holdings => shown(alloc, &registry.holdings().len()),
        Fact::Owner => shown(alloc, &registry.owner()),
        Fact::Inbound => shown(alloc, &registry.in_len()),
        Fact::Outbound => shown(alloc, &registry.out_len()),
        Fact::Series => shown(alloc, &registry.series()),
        Fact::Reserved => shown(alloc, &registry.reserved()),
        Fact::Bound => shown(alloc, &registry.bound()),
        Fact::Word => shown(alloc, &registry.word()),
    }
}

// The facts of entries that are read back.
fn read_fact(alloc: Global, recovery: &Recovery, fact: Fact) -> Answer {
    match fact {
        Fact::Entry(place) => shown_some(alloc, recovery.entries().get(place)),
        Fact::Entries => shown(alloc, &recovery.entries().len()),
        _ => text(alloc, "no registry"),
    }
}

impl Journal {
    /// A registry to which nothing happened yet.
    pub(crate) fn running(alloc: Global, limit: u32) -> Result<Journal, NoMemory> {
        Ok(Journal {
            limit,
            registry: Some(Registry::new(alloc, limit)?),
            recovery: None,
        })
    }

    /// A journal of which nothing was read yet.
    pub(crate) fn reading(alloc: Global, limit: u32) -> Result<Journal, NoMemory> {
        Ok(Journal {
            limit,
            registry: None,
            recovery: Some(Recovery::new(alloc, limit)?),
        })
    }

    fn act(&mut self, alloc: Global, act: Act) -> Answer {
        let Some(mut registry) = self.registry.take() else {
            return text(alloc, "no registry");
        };
        let answer = play(&mut registry, act)?;
        self.registry = Some(registry);
        shown(alloc, &answer)
    }

    fn is(&self, alloc: Global, asked: Fact) -> Answer {
        match (&self.registry, &self.recovery) {
            (Some(registry), _) => run_fact(alloc, registry, asked),
            (None, Some(recovery)) => read_fact(alloc, recovery, asked),
            (None, None) => text(alloc, "nothing"),
        }
    }

    // Whether the entry could be read.
    fn read(&mut self, entry: Entry) -> Result<bool, NoMemory> {
        let Some(mut recovery) = self.recovery.take() else {
            return Ok(false);
        };
        let is_next = read(&mut recovery, entry)?;
        self.recovery = Some(recovery);
        Ok(is_next)
    }

    fn accepts(&self, alloc: Global, entry: Entry) -> Answer {
        match &self.recovery {
            Some(recovery) => shown(alloc, &recovery.accepts(&entry)),
            None => text(alloc, "nothing"),
        }
    }

    // Whether something was read.
    fn resume(&mut self, until: u64) -> Result<bool, NoMemory> {
        let Some(mut recovery) = self.recovery.take() else {
            return Ok(false);
        };
        recovery.reserve(1)?;
        self.registry = Some(Registry::resume(recovery, until));
        Ok(true)
    }

    // Whether there is a registry.
    fn reopen(&mut self, alloc: Global) -> Result<bool, NoMemory> {
        let Some(registry) = self.registry.take() else {
            return Ok(false);
        };
        self.recovery = Some(Recovery::of(alloc, self.limit, registry.entries())?);
        Ok(true)
    }

    fn does(&mut self, alloc: Global, deed: Deed) -> Answer {
        match deed {
            Deed::Acts(act) => self.act(alloc, act),
            Deed::Is(fact) => self.is(alloc, fact),
            Deed::Reads(entry) => made(alloc, self.read(entry)?),
            Deed::Accepts(entry) => self.accepts(alloc, entry),
            Deed::Resumes(until) => made(alloc, self.resume(until)?),
            Deed::Reopens => made(alloc, self.reopen(alloc)?),
        }
    }
}

impl Played for Journal {
    fn answer(&mut self, alloc: Global, command: &str) -> Option<Answer> {
        let mut words = Words::of(command);
        let name = words.word()?;
        let deed = deed_of(name, &mut words)?;
        if !words.is_over() {
            return None;
        }
        Some(self.does(alloc, deed))
    }
}
