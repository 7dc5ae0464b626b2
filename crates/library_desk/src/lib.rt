//! What the engine does for its libraries, one library after another: it hears their beats, takes
//! sessions back from those that fell silent, answers what they ask, and pumps the messages of the
//! sessions that they have.
//!
//! It stands on no wire and no clock: moments are handed in.
//!
//! Stands on `lease_desk` (requests and takings back), `switchboard` (the sessions, what happens to
//! them), `lease_words` (the lease table), `lease_core` (commands, notices and replies),
//! `library_clock` (the watch over beats), `ring_links` (rings and their ends), `catchup_pump` (the
//! pump and its cursors), `session_core` (the most sessions) and `gate_io` (moments, want of memory).
//! Its rules are told in docs/engine.md.
//!
//! Read `shared` (the table and the rings), `ends` (the engine's ends of two rings), `desk` (what is
//! kept of the libraries) and `owners` (who has each session); then `hearing` (beats and silence),
//! `answering` (requests), `pumping` (messages to a library) and `serving` (one library in a turn); at
//! last `laws` (cursors stay, serving as happenings).
//!
//! Clauses to know first:
//!
//! - `serves` of `LibraryDesk::serve`: behind Ok, these were done in this order: the library's beat is
//!   noted, its sessions are taken back if it fell silent, its next command is popped if there is room
//!   for a notice, and answered if it is a request, and each session that it has is pumped;
//! - `silent` of `LibraryDesk::hear`: the library fell silent just where the beat that was loaded is
//!   the kept one, and that has stood still for the timeout;
//! - `serves` of `serving_happens`: what is done for a library in a turn is a list of happenings in
//!   which room is made, sessions are asked for, or leases time out at the turn's moment, and nothing
//!   else.
#![tactic(auto)]

mod answering;
mod desk;
mod ends;
mod hearing;
pub mod laws;
mod owners;
mod pumping;
mod serving;
mod shared;

pub use desk::{LibraryDesk, Stray};
pub use ends::EngineEnds;
pub use owners::Owners;
pub use serving::LibTurn;
pub use shared::Shared;
