//! An entry with what a file of records needs beside it.

use crate::Entry;
use gate_io::Bytes;

/// An entry as it is kept for recovery: of session `s`, made at the moment `at`, which is 0 but for
/// an `Admin`, a `Send` and a `Plan`, with the body that was accepted or sent, if one was.
/// `expected` is the session's expected number behind the call that made the entry; of the `Bind`
/// of an accepted connection it is the number before that call.
#[derive(Debug, Drop)]
pub struct Record {
    pub s: u16,
    pub entry: Entry,
    pub at: u64,
    pub body: Bytes,
    pub expected: u32,
}
