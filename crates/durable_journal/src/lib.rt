//! The journal of all sessions in one file, which a crash at any moment leaves readable.
//!
//! Each event of a session is a `Record`. Records wait in a batch, and a sync puts the batch on the
//! disk as a whole: whatever moment a crash comes at, the file stands for the records before the batch,
//! or for these and all of the batch. `recover` reads it back.
//!
//! Stands on `gate_io` (bytes, moments, counts of faults, want of memory), `fix_frame` and `fix_fields`
//! (which bodies can have come or be sent), `session_core` (the bodies of session messages) and
//! `lease_core` (entries, records, and journals that are read back). Its rules are told in
//! docs/durable-journal.md.
//!
//! Read `limits` (the most bytes and numbers), `errors` (why a call fails), `disk` (what a journal is
//! kept on), `memory` (a disk in memory) and `file` (one of the system); then `numbers` (an entry as
//! numbers), `head` (what stands before a body), `admins` (bodies of session messages) and `records`
//! (what makes a record one); to write, `writing` (the two writes of a batch) and `journal` (the
//! waiting batch, and its sync); to read back, `recovered` (what was read so far), `reading` (the text
//! of records), `batches` (the batches of a file) and `recovery` (the whole file); and `laws` last.
//!
//! Clauses to know first:
//!
//! - `any_moment` of `Journal::sync`: where the disk tells its bytes, whenever a crash comes in a sync
//!   that succeeds, it leaves a file that stands for the records that were kept before, or for these
//!   and the whole batch;
//! - `kept` of `Journal::sync`: behind a sync that succeeds the bytes that the disk tells stand for the
//!   records that were kept before and the batch behind them;
//! - `stands` of `recover`: the records that are read back are those for which the file stands, where
//!   the disk tells its bytes.
#![tactic(auto)]

mod admins;
mod batches;
mod disk;
mod errors;
mod file;
mod head;
mod journal;
pub mod laws;
mod limits;
mod memory;
mod numbers;
mod reading;
mod records;
mod recovered;
mod recovery;
mod writing;

pub use disk::{Disk, DiskFault};
pub use errors::{AppendError, RecoverError};
pub use file::FileDisk;
pub use head::RECORD_HEAD;
pub use journal::Journal;
pub use limits::{LAST_EXPECTED, LONGEST_JOURNAL, LONGEST_TEXT};
pub use memory::{DiskStep, MemDisk};
pub use recovery::recover;
