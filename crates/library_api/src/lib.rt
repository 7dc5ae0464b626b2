//! What an application calls: a library of the gateway requests sessions, reads their messages, sends,
//! and gives sessions back.
//!
//! A `Library` is polled. It holds its seat at the lease table and its ends of the two rings, and is
//! lent the table and the rings in each call, so it runs in a thread of its own beside the engine. No
//! call takes memory, and none waits: `waited` tells a caller how many calls in a row had to be made
//! again later.
//!
//! Stands on `gate_io` (bytes), `fix_fields` (which bodies an application may send), `lease_core`
//! (commands, notices and words), `lease_words` (the lease table and a library's seat) and `ring_links`
//! (both rings and their ends). Its rules are told in docs/libraries.md.
//!
//! Read `ends` (what a library has, and is lent), `event` (what a poll answers), `refusal` (why a call
//! is refused), `reading` (what is read next, and kept) and `waited` (what the last calls waited for);
//! then `library` (the library as an application has it), `seeing` (what it loads of a session),
//! `requesting`, `polling`, `sending` and `releasing` (the calls, by what they do); and `laws` (what
//! holds over all calls) last.
//!
//! Clauses to know first:
//!
//! - `numbers` of `requests_are_numbered`: over any list of calls a library's requests go on being
//!   numbered 1, 2 and so on, and one that is unanswered is the last;
//! - `reads` of `reads_have_no_gap`: where the grant and messages of a lease, of a session below 64,
//!   are in order among the notices, and the library's record of the session agrees with its seat to
//!   begin with, the messages of the lease that polls hand on have the positions from the next one on
//!   (its grant's, where that is still to come), in order and without a gap;
//! - `item` of `Library::send`: where a send succeeds, just one item went out of the session, by the
//!   lease that the library held and with the body that was handed in.
#![tactic(auto)]

mod ends;
mod event;
mod laws;
mod library;
mod polling;
mod reading;
mod refusal;
mod releasing;
mod requesting;
mod seeing;
mod sending;
mod waited;

pub use ends::{LibraryEnds2, Links};
pub use event::Event;
pub use laws::{
    deeds_are_answered, posts_are_sent, readings_follow_events, reads_have_no_gap,
    replies_close_requests, requests_are_numbered,
};
pub use library::Library;
pub use refusal::{AskError, HandRefusal, ReleaseRefusal, Released, SendRefusal};
pub use waited::{WaitKind, Waited};
