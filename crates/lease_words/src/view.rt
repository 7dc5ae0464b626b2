//! What the seats of a table know. No value of these types but `Shape` is made outside proofs.
use crate::item::Item;
use lease_core::{Ending, Line, Word};
use std::collections::LinkedList;

/// What a table is made for: how many sessions and libraries, how deep each lane is, how many
/// sends a lease can make, and each session's leases from before the table was made.
#[derive(Drop)]
pub struct Shape {
    pub sessions: u64,
    pub libraries: u64,
    pub depth: u64,
    pub sends: u64,
    pub before: LinkedList<LinkedList<Line>>,
}

/// A lease as its library has it.
pub struct LibraryLease {
    pub lease: u64,
    pub count: u64,
    pub ending: Ending,
}

/// What the engine knows of a session: the number of leases before the table was made, the lines
/// of all its leases, the words that it saw, made or was told of, the number of its looks, the
/// items that it took of each library, and the count that it published. The words are the latest
/// first until a meeting, and in no order from then on. A look and a revoke each load the lease
/// word once, and count as one look; a grant and a meeting count for none.
pub struct EngineSession {
    pub base: u64,
    pub lines: LinkedList<Line>,
    pub words: LinkedList<Word>,
    pub looks: u64,
    pub taken: LinkedList<LinkedList<Item>>,
    pub published: u64,
}

/// What the engine knows of a library's beats: the count that it loaded or was told of, and the
/// number of its loads.
pub struct Heard {
    pub count: u64,
    pub loads: u64,
}

/// What the engine knows. `taking` says of which lane a slot is out, 0 being none.
pub struct EngineKnows {
    pub sessions: LinkedList<EngineSession>,
    pub beats: LinkedList<Heard>,
    pub taking: u64,
}

/// What a library knows of a session: its leases, the latest first, the items that it sent, the
/// words that it saw, made or was told of, the number of its looks, and the counts that it loaded
/// or was told of, with the number of their loads. The words are the latest first until a meeting,
/// and in no order from then on. A `see`, and an exchange that finds another word than the
/// lease's, each count as one look; an exchange that succeeds makes its word, and counts for none.
pub struct LibrarySession {
    pub leases: LinkedList<LibraryLease>,
    pub items: LinkedList<Item>,
    pub words: LinkedList<Word>,
    pub looks: u64,
    pub taken: u64,
    pub takes: u64,
    pub published: u64,
    pub arrivals: u64,
}

/// What a library knows. `sending` says of which session's lane a slot is out, 0 being none.
pub struct LibraryKnows {
    pub number: u64,
    pub sessions: LinkedList<LibrarySession>,
    pub beats: u64,
    pub sending: u64,
}

/// What a seat knows: the table's shape, and as the engine, as a library, or as both while they
/// meet. From a settling on the engine's seat has the library's knowledge too.
pub struct View {
    pub shape: Shape,
    pub engine: bool,
    pub knows: EngineKnows,
    pub libraries: LinkedList<LibraryKnows>,
}
