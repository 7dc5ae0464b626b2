//! The lease table between threads: leases, send lanes, published counts and beats, each over single
//! atomic steps.
//!
//! Stands on `gate_io` (the bytes of a body, and want of memory), `fix_fields` (which bodies an
//! application may send), `lease_core` (words, lines and registries) and `atomic_table` (words and
//! slots that change by atomic steps under a rule). Its rules are told in docs/threads.md.
//!
//! Read `item` (what is sent, and refusals), `layout` (where words and slots lie), `view` (what the
//! seats know), `rows` (the numbers that seats keep), `rule` (what holds between steps) and `plays`
//! (what each step tells); then `leases` (the table), `engine_seat` and `library_seat` (its two kinds
//! of seats), `outset` (leases from before the table) and `making` (how a table begins); then
//! `engine_calls` (what the engine does), `library_calls` (what a library does), `send_calls` (how it
//! sends) and `meeting` (how seats meet and are settled); and `laws` last.
//!
//! Clauses to know first:
//!
//! - `showable` of `Leases::look`: a registry whose lines are those that the seat had can be shown the
//!   word that is loaded: it names the last lease and a fitting owner, and its count isn't below that
//!   lease's sends;
//! - `refused` of `Leases::send`: a send is refused only where, by the taken count loaded in this call,
//!   its lane was full, or the lease has made all its sends, or another word was found than the
//!   lease's: one of a later lease, or this lease as taken back;
//! - `met` of `Leases::meet`: what the engine took of the library's lanes begins what the library sent,
//!   the library's leases stand in the engine's lines as far as the engine has seen them, and what
//!   either side knew of the other is no newer than what that one has done.
#![tactic(auto)]

mod engine_calls;
mod engine_seat;
mod item;
mod laws;
mod layout;
mod leases;
mod library_calls;
mod library_seat;
mod making;
mod meeting;
mod outset;
mod plays;
mod rows;
mod rule;
mod send_calls;
mod view;

pub use engine_seat::EngineSeat;
pub use item::{Item, Lost, SendError, Sent};
pub use laws::settled_lanes_are_taken;
pub use layout::LANE_SLOTS;
pub use leases::Leases;
pub use library_seat::LibrarySeat;
