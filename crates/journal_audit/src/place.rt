//! Where in a report the auditor is, and the journal of the session whose lines come.

ghost use Rattle.std.specs.Prelude.{◌≡◌, ◌↔◌, IfOk, IsTrue};
ghost use Rattle.lease_core.specs.State.{state_of};
ghost use Rattle.journal_audit.specs.Seen.{place_seen, logs_place, header_of};
ghost use Rattle.journal_audit.specs.Rules.{IsNextEntry, place_with_entry, place_with_logs};

use crate::line::Header;
use gate_io::NoMemory;
use lease_core::{Entry, Holding, Recovery, Registry};

/// The part of a report to which the last line belongs.
#[derive(Clone, Copy, Debug)]
pub(crate) enum Part {
    Start,
    Head,
    Entries,
    Logs,
    Strays,
    Connections,
    Calls,
    Done,
}

/// The same, with the journal of the session whose lines come.
#[derive(Drop)]
pub(crate) enum Place {
    /// Before the first line.
    Start,
    /// Behind the first line.
    Head,
    /// Behind the head of a session, or behind an entry.
    Entries(Recovery),
    /// Behind a holding, a message or a series.
    Logs(Registry),
    Strays,
    Connections,
    Calls,
    /// Behind the last line.
    Done,
}

impl Place {
    pub(crate) fn part(&self) -> Part
        ensures { result ≡ (place_seen self.now).part }
    {
        match self {
            Place::Start => Part::Start,
            Place::Head => Part::Head,
            Place::Entries(_) => Part::Entries,
            Place::Logs(_) => Part::Logs,
            Place::Strays => Part::Strays,
            Place::Connections => Part::Connections,
            Place::Calls => Part::Calls,
            Place::Done => Part::Done,
        }
    }

    /// Appends an entry if it may stand next.
    pub(crate) fn put_entry(&mut self, entry: Entry) -> Result<bool, NoMemory>
        ensures right { IfOk result (λ right. IsTrue right ↔ IsNextEntry (place_seen self.old) entry) }
        ensures after { IfOk result (λ right. IsTrue right → place_seen self.new ≡ place_with_entry entry (place_seen self.old)) }
    {
        let Place::Entries(journal) = self else {
            return Ok(false);
        };
        if !journal.accepts(&entry) {
            return Ok(false);
        }
        journal.reserve(1)?;
        journal.record(entry);
        Ok(true)
    }

    /// The entries are all told.
    pub(crate) fn end_entries(self) -> Result<Place, NoMemory>
        ensures { IfOk result (λ place. place_seen place ≡ place_with_logs (place_seen self)) }
    {
        match self {
            Place::Entries(journal) => {
                let journal = ended(journal)?;
                Ok(Place::Logs(journal))
            }
            place => Ok(place),
        }
    }

    /// The holdings, once the entries are all told.
    pub(crate) fn holdings(&self) -> &[Holding]
        ensures { result.now ≡ (place_seen self.now).holdings }
    {
        match self {
            Place::Logs(journal) => journal.holdings(),
            _ => &[],
        }
    }

    /// What the entries come to, once they are all told.
    pub(crate) fn summary(&self) -> Header
        ensures { result ≡ (place_seen self.now).summary }
    {
        match self {
            Place::Logs(journal) => summary_of(journal),
            _ => Header {
                owner: 0,
                lease: 0,
                inbound: 0,
                outbound: 0,
            },
        }
    }
}

/// The journal whose entries are all told. A hold that is missing behind the last one changes nothing
/// of what is looked at.
fn ended(journal: Recovery) -> Result<Registry, NoMemory>
    ensures { IfOk result (λ registry. logs_place registry.entries ≡ logs_place journal.entries) }
{
    let mut journal = journal;
    journal.reserve(1)?;
    Ok(Registry::resume(journal, 0))
}

#[tactic(auto, unfolding(crate::specs::Seen::header_of))]
fn summary_of(journal: &Registry) -> Header
    ensures { result ≡ header_of (state_of (journal.now).entries) }
{
    let (owner, lease) = journal.owner();
    Header {
        owner,
        lease,
        inbound: journal.in_len(),
        outbound: journal.out_len(),
    }
}
