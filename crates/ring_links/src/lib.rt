//! Rings: bounded queues between two threads, of which one pushes and one pops.
//!
//! A ring hands its items over in order. Its two ends are tokens: whoever has the `Tail` pushes,
//! whoever has the `Head` pops, each in a thread of its own, and no call waits for the other end or
//! takes memory but `ring` and `Ring::finish`. Contracts see a tail as the list of all that it pushed
//! and a head as the list of all that it popped. What one end knows of the other is what it loaded, and
//! what it was told where both ends met.
//!
//! Stands on `gate_io` (the error of want of memory) and `atomic_table` (words and slots that change by
//! atomic steps under a rule). Its rules are told in docs/threads.md.
//!
//! Read `view` (the rule, and what ends know), `plays` (what each step tells) and `ends` (the tail and
//! the head); then `queue` (the ring and its calls), `making` (how a ring begins) and `finish` (how it
//! ends).
//!
//! Clauses to know first:
//!
//! - `full` of `Ring::push`: an item is refused exactly where the pushed count is the taken count
//!   loaded in this call and the capacity together, or is 2^64 - 1;
//! - `none` of `Ring::pop`: there is no item exactly where the pushed count loaded in this call is the
//!   number of those that were popped before;
//! - `pushed` of `Ring::meet`: what the head popped, and then what it is told of, is all that the tail
//!   pushed, in order.
#![tactic(auto)]

mod ends;
mod finish;
mod making;
mod plays;
mod queue;
mod view;

pub use ends::{Head, Tail};
pub use making::ring;
pub use queue::{Full, Ring, Room};
