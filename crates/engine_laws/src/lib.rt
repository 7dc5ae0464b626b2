//! What turns of the engine come to, whatever happens in them.
//!
//! - `laws`: the account of a turn. Each session's journal tells exactly the acts of the messages that were handled
//!   of its connections, and those are the good pieces that were cut of what came. Where a turn stops for want of
//!   memory a journal may tell a beginning of the last acts.
//! - `libraries`: each request that was popped is answered once and in order, the replies are those that the
//!   sessions' journals and the strays have, of each lease what is pushed is the session's inbound log from the
//!   replay's position on, and what the outbound logs have of a library is what was taken of its lane at the
//!   lease table.
//! - `texts`: a connection that has ended took its outbound text whole, unless the wire counted that a write of it
//!   failed or was blocked, or more waited on it than a turn writes at most.
//! - `walks`: of which steps a turn is made, and of which moves a read and what is written to connections. What
//!   each of those keeps a turn keeps, and the other laws follow it along that.
//!
//! It has no code, only laws of the definitions of the crates below.
//!
//! Stands on `engine_loop`, `engine_end`, `library_desk`, `session_desk`, `lease_desk` and `wire_desk` (what turns,
//! meetings and the end of a run are made of), `switchboard`, `session_book` and `connection_core` (sessions,
//! connections and the laws of what happens to them), `session_core` (session machines), `lease_core`,
//! `lease_words` and `library_clock` (journals, the seats at the lease table, beats), `message_log`, `resend_plan`,
//! `fix_frame` and `fix_fields` (logs, texts, frames, fields), `ring_links`, `catchup_pump` and `library_api` (ends
//! of rings, what is pushed, the order of what is read), `engine_config` (the configuration) and `gate_io` (the
//! wire's answers and counts). Its rules are told in docs/laws.md.
//!
//! Read `walks` (how a turn is made), `laws` (the account of a turn), `libraries` (requests, messages and sends)
//! and `texts` (what connections take).
//!
//! Clauses to know first:
//!
//! - `account` of `turns_are_accounted_for`: where sessions and connections are ready and it was so before a turn,
//!   behind it each journal tells the acts of the messages that its session handled of its connections, and no
//!   others, and those are the good pieces that were handed out of what came on the connections that name it;
//! - `turn` of `messages_are_in_order`: where it was so before a turn, behind it what was pushed to a library of a
//!   session is of each lease the grant, once, and then the messages of the inbound log from the grant's position
//!   on, in order and without a gap;
//! - `turn` of `texts_are_taken`: where it was so before a turn of an engine at work over its wire, behind it each
//!   connection that has ended took its outbound text, or the first item alone where it was dialled and its Logon
//!   wasn't answered, or the wire counted that a write of it failed or was blocked, or at least as much as a turn
//!   writes at most is written and some is left.
#![tactic(auto)]

pub mod laws;
pub mod libraries;
pub mod texts;
pub mod walks;
