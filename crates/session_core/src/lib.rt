//! The session machine: what a message, the clock and a connection's end mean for one session, of the
//! accepting side or of the side that dials.
//!
//! FIX 4.4, volume 2, "Session Protocol". The machine sends nothing itself: it takes bodies and
//! moments, and answers with acts, in order, and with the cause by which a connection ends.
//!
//! Stands on `gate_io` (lists in fields, the last moment, the error of want of memory), `fix_fields` (fields and
//! numbers read, fields written), `seq_gaps` (the number line) and `itoa` (numbers in decimal digits). Its rules
//! are told in docs/session-protocol.md.
//!
//! Read `names` (the two CompIDs), `causes` (why a connection ends), `acts` (what the machine answers), `phases`
//! (how far the Logons came), `tasks` (what is left to do) and `ticks` (what the clock asks); then `said` (what
//! fields say), `routing` (the first message), `replies` (what session messages ask for), `steps` (which rule
//! applies) and `reading` (a body read once); then `inbound` (the number line with tasks), `carry` (a step carried
//! out), `logons` (Logons that bind or answer), `session` (the machine itself) and `admin_text` (bodies of session
//! messages); last `laws` (of the definitions).
//!
//! Clauses to know first:
//!
//! - `effects` of `Session::receive`: on Ok the acts and the end are exactly those that the rules give for this
//!   session and this body;
//! - `effects` of `Session::tick`: on Ok the acts and the end are exactly those that the clock's rules give for
//!   this session at this moment: nothing, a Heartbeat, a TestRequest, or the end as Silent;
//! - `state` of `Session::expected`: what holds of every session, among others that the expected number is never
//!   held, and that nothing is held before a Logon is answered.
#![tactic(auto)]

mod acts;
mod admin_text;
mod carry;
mod causes;
mod inbound;
pub mod laws;
mod logons;
mod names;
mod phases;
mod reading;
mod replies;
mod routing;
mod said;
mod session;
mod steps;
mod tasks;
mod ticks;

pub use acts::{Act, Admin, Effects, is_session_entry};
pub use admin_text::{LONGEST_ADMIN, LONGEST_KIND, admin_body};
pub use causes::Cause;
pub use names::Names;
pub use replies::{LONGEST_LOGOUT_TEXT, LONGEST_TEST};
pub use routing::{MOST_SESSIONS, route, session_of};
pub use said::LONGEST_HEARTBEAT;
pub use session::Session;
pub use ticks::ANSWER_WAIT;
