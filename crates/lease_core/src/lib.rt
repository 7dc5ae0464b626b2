//! The registry of a session: who owns it, by which lease, and all that happened to it, in order.
//!
//! The journal of a session is a list of entries, and what it comes to follows from the entries alone.
//! The engine owns the session at first, and grants it to one library after another by leases. A lease
//! ends as its library gives the session back, for anybody or for an heir to take, or as the engine
//! takes it back. `Registry` keeps the journal; `Word` is the one number in which the engine and the
//! libraries share how the last lease stands.
//!
//! Stands on `gate_io` (bytes, and the error of want of memory). Its rules are told in
//! docs/registry-and-leases.md.
//!
//! Read `limits` (the most libraries and leases), `entry` (a journal's entries, and holdings), `event`
//! (what can happen to a session), `lease` (a lease, its line, its deeds), `word` (the lease word and
//! its number), `messages` (what libraries ask and are told) and `record` (an entry as it is kept);
//! then `totals` (what entries come to), `accepts` (whether an entry may stand next), `journal` (the
//! entries, and one more), `news` (what sends and ends add), `registry` (a call for each event) and
//! `recovery` (a journal that is read back); and `laws` last.
//!
//! Clauses to know first:
//!
//! - `run` of `Registry::entries`: the entries are a lawful journal: each is, numbers included, what
//!   follows from an event that can happen and the entries before it, and stands where it may;
//! - `granted` of `Registry::request`: a request is granted, with the next lease, exactly where no
//!   library has the session, it is reserved for no other library, the last lease isn't the limit, and
//!   the replay doesn't begin past the inbound log;
//! - `adjoining` of `Registry::holdings`: the spans of ownership are the engine's and a library's in
//!   turns, the first from position 0 on, each from the end of the one before it, and the last to the
//!   inbound log's length.
#![tactic(auto)]

mod accepts;
mod entry;
mod event;
mod journal;
pub mod laws;
mod lease;
mod limits;
mod messages;
mod news;
mod record;
mod recovery;
mod registry;
mod totals;
mod word;

pub use entry::{Entry, Holding, Why};
pub use event::Event;
pub use lease::{Deed, Ending, Lease, Line};
pub use limits::{MOST_LEASES, MOST_LIBRARIES};
pub use messages::{Command, Notice, Reply};
pub use record::Record;
pub use recovery::Recovery;
pub use registry::{Registry, Shown};
pub use word::{Standing, Word, read_word, write_word};
