//! Tests of wire_edge over the loopback interface, by its public calls alone. Their figures are those of the
//! system, and no clause has them.
//!
//! Stands on `wire_edge` (what is tried), `thread_bells` (the bell beside which a wire sleeps) and `gate_io` (a wire's
//! calls and answers). Told in docs/outside.md.
//!
//! Read `checks` (comparisons as calls) and `sides` (a wire that listens); then `listening`, `talking` and
//! `closing`.
#![tactic(auto)]

#[cfg(test)]
mod checks;
#[cfg(test)]
mod closing;
#[cfg(test)]
mod listening;
#[cfg(test)]
mod sides;
#[cfg(test)]
mod talking;
