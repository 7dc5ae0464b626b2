//! A program of one's own around the engine and two trading libraries: they fill NewOrderSingles, and the sessions
//! move from one library to the other. Without words it trades with a counterparty in memory.
//!
//! Stands on `engine_config`, `engine_start`, `engine_loop` and `engine_end` (the engine, from its configuration to
//! its record), `library_api` and `library_calls` (a library, and what its calls come to), `library_desk`,
//! `lease_words`, `lease_core` and `ring_links` (what engine and libraries share: seats, commands, rings),
//! `script_text` (the configuration, read as lines of a script), `run_report` (the record and its report),
//! `session_core` (names, and why a connection ended), `fix_frame` and `fix_fields` (frames and fields), `itoa`
//! (decimal numbers), `thread_bells` (how the threads wake each other), `wire_edge` (the wire over TCP) and `gate_io`
//! (wire and clock in memory, the system's clock, standard output). Its rules are told in docs/libraries.md.
//!
//! Read `words` (the configuration), `orders` and `reports` (a message and its answer), `books` and `floor` (what
//! the threads share), `calling`, `resting`, `answering` and `trading` (a library's thread), `watching` and
//! `driving` (the engine's thread), `starting`, `running` and `leaving` (a run), `counterparty` (one on a wire in
//! memory) and `printing` (what is printed, the exit status).
//!
//! Clauses to know first:
//!
//! - `answers` of `answer_message`: a message that was answered before gets no call, and a new order that isn't in
//!   the session's book is filled by just one send that is answered Sent and is in the book from then on, or none
//!   is answered so and the book says what it said;
//! - `trades` of `trade_all`: a library's loop is rounds, one behind another: calls that send nothing, one poll,
//!   what follows on its event, and whether the session is then kept, handed over or given back;
//! - `runs` of `serve`: engine and libraries began as configured, the engine made turns and nothing else, each
//!   library traded, and the record is what they left.
#![tactic(auto)]

mod answering;
mod books;
mod calling;
mod counterparty;
mod driving;
mod floor;
mod leaving;
mod orders;
mod printing;
mod reports;
mod resting;
mod running;
mod starting;
mod trading;
mod watching;
mod words;

use crate::floor::Floor;
use crate::printing::{Ended, all_words, end, print_counts, print_report};
use crate::running::{serve, show};
use crate::words::{Words, words_of};
use gate_io::RealClock;
use std::process::ExitCode;
use wire_edge::NetWire;

fn main(rt: HostRuntime) -> ExitCode {
    let alloc = rt.alloc();
    let words = match all_words(&rt) {
        Ok(words) => words,
        Err(ended) => return end(&rt, ended),
    };
    let ended = match words_of(alloc, words.as_slice()) {
        Ok(Words::None { config }) => match show(&rt, alloc, rt, config) {
            Ok((record, reports)) => print_counts(&rt, &record, reports),
            Err(_) => Ended::OutOfMemory,
        },
        Ok(Words::Serve { address, config }) => match Floor::of(alloc, &config) {
            Ok(floor) => {
                let mut wire = NetWire::new(rt, alloc, floor.bells().engine());
                let mut clock = RealClock::new(rt);
                let outcome = serve(&rt, alloc, address, config, &floor, &mut wire, &mut clock);
                wire.finish();
                match outcome {
                    Ok(record) => print_report(&rt, &record),
                    Err(why) => Ended::of_run(why),
                }
            }
            Err(_) => Ended::OutOfMemory,
        },
        Err(why) => Ended::of_words(why),
    };
    end(&rt, ended)
}
