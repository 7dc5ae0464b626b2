//! Tests of gate_io by its public calls alone.
//!
//! Stands on `gate_io` (all that is tried). Told in docs/tests.md.
//!
//! Read `checks` (comparisons as calls) and `open_wire` (a wire with one connection) first; then `clocks`, `files`,
//! `whole` (sources read whole, and sinks), `wires`, `dials`, `scripted` (failures and blocks) and `refusals`
//! (memory that is refused).
#![tactic(auto)]

#[cfg(test)]
mod checks;
#[cfg(test)]
mod clocks;
#[cfg(test)]
mod dials;
#[cfg(test)]
mod files;
#[cfg(test)]
mod open_wire;
#[cfg(test)]
mod refusals;
#[cfg(test)]
mod scripted;
#[cfg(test)]
mod whole;
#[cfg(test)]
mod wires;
