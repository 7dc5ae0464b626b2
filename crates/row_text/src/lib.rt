//! What programs of tests share: rows of steps as text, with what plays them; bytes of messages as text; and checks
//! that are no rows.
//!
//! A line `row NAME` begins a row, and each further line is a step of it: words that are apart by one
//! blank. A line `wrong NAME` begins one of which a step comes to something else than it says: it shows that
//! the program looks. An empty line and one that begins with `#` are for the reader alone.
//!
//! Stands on `gate_io` (want of memory) and `anyhow` (errors). Told in docs/tests.md.
//!
//! Read `words` (the words of a line), `rows` (the rows of a text), `playing` (files of rows), `finding` and
//! `answers` (what steps come to), `texts` (bytes as text) and `checks` (checks that are no rows).
#![tactic(auto)]

pub mod answers;
mod checks;
mod finding;
mod playing;
mod rows;
mod texts;
mod words;

pub use checks::{Checks, holds, same};
pub use finding::{done, fault_of, said, shown};
pub use playing::{Course, Fault, Player, end, play_file};
pub use rows::{Row, Step, rows_of};
pub use texts::{BUYER, Sign, legible, put_legible, put_signed, signed, soh};
pub use words::Words;
