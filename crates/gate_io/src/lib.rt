//! What the gateway is handed from outside, and the plain values that cross its crates.
//!
//! `Bytes`, `Label` and `Rows` are lists for the fields of public types: a contract sees a list where the code has
//! a vector or a string. `NoMemory` is the error of a call whose only failure is want of memory.
//!
//! Stands on no other crate. Its rules are told in docs/outside.md.
//!
//! Read `lists` (bytes, texts and values in fields) and `no_memory` (the error of want of memory); then the traits
//! `sources` (bytes to read), `sinks` (bytes to write), `wires` (connections, by their numbers), `dials` (a wire
//! that also dials), `clocks` (the moment) and `gates` (whether a library may go on, and where threads wait for each other). Their forms in memory are
//! `mem_source`, `mem_sink`, `step_clock` and, for the wire, `places` (scripted places of a write), `mem_link` (one
//! connection) and `mem_wire` (all of them); the adapters are `file_source`, `std_sink` and `real_clock`; `whole`
//! (a source or bytes to their end) comes last.
//!
//! Clauses to know first:
//!
//! - `content` of `Wire::read`: where the wire tells which bytes are left, a read puts the first of them at the
//!   buffer's front and leaves the others, End comes only with none left, and Blocked and Failed take nothing;
//! - `cause` of `Wire::write`: Blocked and Failed each come only where their own count of the connection rose, or
//!   stands at the end of its type;
//! - `all` of `read_all`: on Ok the bytes are all that were left, where the source tells which those are.
#![tactic(auto)]

mod clocks;
mod dials;
mod file_source;
mod gates;
mod lists;
mod mem_link;
mod mem_sink;
mod mem_source;
mod mem_wire;
mod no_memory;
mod places;
mod real_clock;
mod sinks;
mod sources;
mod std_sink;
mod step_clock;
mod whole;
mod wires;

pub use clocks::{Clock, LAST_MOMENT};
pub use dials::{Dial, Dialled};
pub use file_source::FileSource;
pub use gates::{Gate, Lack, OpenGate};
pub use lists::{Bytes, Label, Rows};
pub use mem_sink::MemSink;
pub use mem_source::MemSource;
pub use mem_wire::MemWire;
pub use no_memory::NoMemory;
pub use real_clock::RealClock;
pub use sinks::{Sink, Wrote};
pub use sources::{Got, Source};
pub use std_sink::StdSink;
pub use step_clock::StepClock;
pub use whole::{ReadAll, WriteFault, read_all, write_all};
pub use wires::{
    Accepted, FIRST_DIALLED, Listened, MOST_CONNECTIONS, MOST_DIALLED, Wire, WireGot, WireWrote,
};
