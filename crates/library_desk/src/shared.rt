//! What engine and libraries share: the lease table and both rings of each library.

use lease_core::{Command, Notice};
use lease_words::Leases;
use ring_links::Ring;

/// What the engine and its libraries share: the lease table, and for each library, in the order of their
/// numbers from 1, the ring of its commands and the ring of its notices. Each of their calls takes it by
/// a shared reference.
#[derive(Debug, Drop)]
pub struct Shared {
    pub leases: Leases,
    pub commands: Vec<Ring<Command>>,
    pub notices: Vec<Ring<Notice>>,
}
