//! Where the threads of a run sleep, and by which they wake each other: a bell for the engine's thread, and one for each
//! library's.
//!
//! Stands on `gate_io` (what a library lacks whose call was in vain, and the gate at which it waits), `mio` (what ends the
//! poll of sockets in which a thread sleeps) and `crossbeam_utils` (values that share no line of memory). Its rules are
//! told in docs/threads.md.
//!
//! Read `pace` (whether to look again or to sleep), `bell` (one bell), `bells` (those of a run) and `gate` (the gate at
//! which libraries wait beside them).
//!
//! Clauses to know first:
//!
//! - `soon` of `Pace::found_nothing`: a thread looks again only where it last found something less than `LOOKS`
//!   microseconds ago;
//! - `pace` of `Pace::found_nothing`: what is counted then, and when looks turn into a rest, twice as long as the one
//!   before it, and a rest into looks;
//! - `answer` of `Pace::found_nothing`: whether it looks again is what the pace knows then.
//!
//! What the words of bells hold at a moment no clause says, since any thread may change them: that no wake is lost is
//! tested, in `bell_tests`.
#![tactic(auto)]

mod bell;
mod bells;
mod gate;
mod pace;

pub use bell::Bell;
pub use bells::{Bells, LONGEST_SLEEP, PARTS};
pub use gate::BellGate;
pub use pace::{LEAST_REST, LOOKS, MOST_REST, Pace, STRETCH, micros};
