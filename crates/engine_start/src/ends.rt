//! What a library's thread is handed at the start.

use lease_core::{Command, Notice};
use lease_words::LibrarySeat;
use ring_links::{Head, Tail};

/// A library's ends: its number, its seat at the lease table, the end at which it pushes commands and the
/// end at which it pops notices.
#[derive(Debug, Drop)]
pub struct LibraryEnds {
    pub number: u8,
    pub seat: LibrarySeat,
    pub tail: Tail<Command>,
    pub head: Head<Notice>,
}
