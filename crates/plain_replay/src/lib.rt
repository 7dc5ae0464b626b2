//! What report a recorded script has, told plainly and slowly.
//!
//! A second telling of the whole, beside the engine and the libraries: it goes over the script once, keeps every
//! byte and every message, looks things up by going over lists, and writes the lines of the report as things
//! happen. Of the gateway's work it takes only the script that was read. It shows something by being run beside
//! the gateway over the same scripts.
//!
//! Stands on `script_text` (the script that was read) and `gate_io` (want of memory, and a script's lists). Told in
//! docs/tests.md.
//!
//! Read `texts`, `fields` and `frames` (bytes); `links`, `sessions`, `libraries` and `world` (what is kept);
//! `ownership` and `requests` (leases); `sending`, `logons`, `carrying` and `protocol` (the session rules);
//! `polls`, `posts` and `calls` (a library's calls); `arrivals`, `writes` and `turns`; last `script` and `report`.
#![tactic(auto)]

mod arrivals;
mod calls;
mod carrying;
mod fields;
mod frames;
mod libraries;
mod links;
mod logons;
mod ownership;
mod polls;
mod posts;
mod protocol;
mod report;
mod requests;
mod script;
mod sending;
mod sessions;
mod texts;
mod turns;
mod world;
mod writes;

pub use script::plain_report;
