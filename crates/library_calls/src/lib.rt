//! A call of a library as a script's step has it, made and kept with its answer, and how many messages calls gave.
//!
//! Stands on `library_api` (a library, its calls and what it knows), `script_text` (the step that says which call),
//! `run_report` (the call as it is kept), `lease_words` and `ring_links` (an item that was sent, a full ring) and
//! `gate_io` (bytes, and want of memory). Its rules are told in docs/runs.md.
//!
//! Clauses to know first:
//!
//! - `makes` of `make_call`: the call that is answered is the one that the step says, with its answer, and the
//!   library knows behind it what such a call with that answer leaves;
//! - `err` of `make_call`: where memory was wanting, the library is as it was;
//! - `sends` of `send_body`: a send that is answered Sent put one item with the body into the lane, by the lease
//!   that the library held and with the next ordinal, and one that is refused has its cause.
#![tactic(auto)]

mod counting;
mod making;

pub use counting::reads_of;
pub use making::make_call;
