//! The lines of a library.

ghost use Rattle.std.specs.Prelude.{◌≡◌, ◌++◌, OnOk};
ghost use Rattle.std.specs.List.{flat_map};
ghost use Rattle.run_report.specs.Calls.{answer_words, asked_words, call_line, called_words, event_words, handed_words, lease_lost_words, library_line, library_text, lost_words, message_words, released_words, seen_words, sent_words, stale_words, standing_word};
ghost use Rattle.run_report.specs.Lines.{indented_line, spaced_words};

use crate::calls::Call;
use crate::journal_lines::{put_granted, put_refused};
use crate::records::LibReport;
use crate::words::ReportWord::{Number, Printed, Word};
use crate::words::{put_indented, put_line, put_named, put_spaced};
use gate_io::NoMemory;
use lease_core::{Standing, Word as LeaseWord};
use lease_words::Sent;
use library_api::{AskError, Event, HandRefusal, ReleaseRefusal, Released, SendRefusal};

/// All lines of a library.
pub fn put_library(out: &mut Vec<u8>, library: &LibReport) -> Result<(), NoMemory>
    ensures { OnOk result (out.new.items ≡ out.old.items ++ library_text library.now) }
{
    put_head(out, library)?;
    put_calls(out, library.calls.as_slice())
}

#[tactic(auto, unfolding(crate::specs::Calls::library_line))]
fn put_head(out: &mut Vec<u8>, library: &LibReport) -> Result<(), NoMemory>
    ensures { OnOk result (out.new.items ≡ out.old.items ++ library_line library.now) }
{
    put_line(
        out,
        "library",
        &[
            Number(u64::from(library.number)),
            Word("reads"),
            Number(library.reads),
        ],
    )
}

fn put_calls(out: &mut Vec<u8>, calls: &[Call]) -> Result<(), NoMemory>
    ensures { OnOk result (out.new.items ≡ out.old.items ++ flat_map call_line calls.now) }
{
    for call in calls {
        put_call(out, call)?;
    }
    Ok(())
}

fn put_call(out: &mut Vec<u8>, call: &Call) -> Result<(), NoMemory>
    ensures { OnOk result (out.new.items ≡ out.old.items ++ call_line call.now) }
{
    put_called(out, call)?;
    out.push(b':')?;
    put_answer(out, call)
}

/// What was called.
#[tactic(auto, unfolding(crate::specs::Calls::called_words))]
fn put_called(out: &mut Vec<u8>, call: &Call) -> Result<(), NoMemory>
    ensures { OnOk result (out.new.items ≡ out.old.items ++ spaced_words (called_words call.now)) }
{
    match call {
        Call::Request { s, from, .. } => put_spaced(
            out,
            &[Word("request"), Number(u64::from(*s)), Number(*from)],
        ),
        Call::Poll { .. } => put_spaced(out, &[Word("poll")]),
        Call::Send { s, body, .. } => put_spaced(
            out,
            &[
                Word("send"),
                Number(u64::from(*s)),
                Printed(body.as_slice()),
            ],
        ),
        Call::Release { s, .. } => put_spaced(out, &[Word("release"), Number(u64::from(*s))]),
        Call::Hand { s, heir, .. } => put_spaced(
            out,
            &[
                Word("hand"),
                Number(u64::from(*s)),
                Number(u64::from(*heir)),
            ],
        ),
        Call::Beat => put_spaced(out, &[Word("beat")]),
    }
}

/// What it answered.
#[tactic(auto, unfolding(crate::specs::Calls::answer_words))]
fn put_answer(out: &mut Vec<u8>, call: &Call) -> Result<(), NoMemory>
    ensures { OnOk result (out.new.items ≡ out.old.items ++ indented_line (answer_words call.now)) }
{
    match call {
        Call::Request { answer, .. } => put_asked(out, answer),
        Call::Poll { event } => put_event(out, event),
        Call::Send { answer, .. } => put_sent(out, answer),
        Call::Release { answer, .. } => put_released(out, answer),
        Call::Hand { answer, .. } => put_handed(out, answer),
        Call::Beat => put_named(out, "beaten", &[]),
    }
}

#[tactic(auto, unfolding(crate::specs::Calls::asked_words))]
fn put_asked(out: &mut Vec<u8>, answer: &Result<u32, AskError>) -> Result<(), NoMemory>
    ensures { OnOk result (out.new.items ≡ out.old.items ++ indented_line (asked_words answer.now)) }
{
    match answer {
        Ok(nr) => put_named(out, "asked", &[Number(u64::from(*nr))]),
        Err(AskError::Outstanding { nr }) => {
            put_named(out, "outstanding", &[Number(u64::from(*nr))])
        }
        Err(AskError::AsksSpent { count }) => {
            put_named(out, "asks-spent", &[Number(u64::from(*count))])
        }
        Err(AskError::RingFull { pushed, taken }) => {
            put_named(out, "ring-full", &[Number(*pushed), Number(*taken)])
        }
    }
}

#[tactic(auto, unfolding(crate::specs::Calls::event_words))]
fn put_event(out: &mut Vec<u8>, event: &Event) -> Result<(), NoMemory>
    ensures { OnOk result (out.new.items ≡ out.old.items ++ indented_line (event_words event.now)) }
{
    match event {
        Event::Nothing => put_named(out, "nothing", &[]),
        Event::NotYet { s, pos, published } => put_named(
            out,
            "not-yet",
            &[Number(u64::from(*s)), Number(*pos), Number(*published)],
        ),
        Event::Granted {
            nr,
            s,
            lease,
            from,
            start,
        } => put_granted(out, u64::from(*nr), u64::from(*s), *lease, *from, *start),
        Event::Refused { nr, s, why } => { put_refused(out, u64::from(*nr), u64::from(*s), why) }
        Event::Message {
            s,
            lease,
            pos,
            bytes,
        } => put_message(out, *s, *lease, *pos, bytes.as_slice()),
        Event::Stale { s, lease, pos } => put_stale(out, *s, *lease, *pos),
        Event::LeaseLost { s, lease, seen } => put_lease_lost(out, *s, *lease, seen),
    }
}

/// A message that a poll gave.
#[tactic(auto, unfolding(crate::specs::Calls::message_words))]
fn put_message(
    out: &mut Vec<u8>,
    s: u16,
    lease: u32,
    pos: u64,
    bytes: &[u8],
) -> Result<(), NoMemory>
    ensures { OnOk result (out.new.items ≡ out.old.items ++ indented_line (message_words s lease pos bytes.now)) }
{
    put_indented(
        out,
        &[
            Word("message"),
            Number(u64::from(s)),
            Word("lease"),
            Number(u64::from(lease)),
            Word("pos"),
            Number(pos),
            Printed(bytes),
        ],
    )
}

/// A message that a poll dropped.
#[tactic(auto, unfolding(crate::specs::Calls::stale_words))]
fn put_stale(out: &mut Vec<u8>, s: u16, lease: u32, pos: u64) -> Result<(), NoMemory>
    ensures { OnOk result (out.new.items ≡ out.old.items ++ indented_line (stale_words s lease pos)) }
{
    put_indented(
        out,
        &[
            Word("stale"),
            Number(u64::from(s)),
            Word("lease"),
            Number(u64::from(lease)),
            Word("pos"),
            Number(pos),
        ],
    )
}

/// A lease that a poll found ended, with the word that it saw.
fn put_lease_lost(out: &mut Vec<u8>, s: u16, lease: u32, seen: &LeaseWord) -> Result<(), NoMemory>
    ensures { OnOk result (out.new.items ≡ out.old.items ++ indented_line (lease_lost_words s lease seen.now)) }
{
    put_spaced(
        out,
        &[
            Word("lease-lost"),
            Number(u64::from(s)),
            Word("lease"),
            Number(u64::from(lease)),
        ],
    )?;
    put_seen(out, seen)?;
    Ok(())
}

#[tactic(auto, unfolding(crate::specs::Calls::sent_words))]
fn put_sent(out: &mut Vec<u8>, answer: &Result<Sent, SendRefusal>) -> Result<(), NoMemory>
    ensures { OnOk result (out.new.items ≡ out.old.items ++ indented_line (sent_words answer.now)) }
{
    match answer {
        Ok(Sent { lease, ordinal }) => put_named(
            out,
            "sent",
            &[Number(u64::from(*lease)), Number(u64::from(*ordinal))],
        ),
        Err(SendRefusal::NotHeld) => put_named(out, "not-held", &[]),
        Err(SendRefusal::TooLong { length }) => {
            put_named(out, "too-long", &[Number(*length as u64)])
        }
        Err(SendRefusal::BadBody { at }) => put_named(out, "bad-body", &[Number(*at as u64)]),
        Err(SendRefusal::LaneFull { committed, taken }) => {
            put_named(out, "lane-full", &[Number(*committed), Number(*taken)])
        }
        Err(SendRefusal::SendsSpent { count }) => {
            put_named(out, "sends-spent", &[Number(u64::from(*count))])
        }
        Err(SendRefusal::Lost { seen }) => put_lost(out, seen),
    }
}

#[tactic(auto, unfolding(crate::specs::Calls::released_words))]
fn put_released(
    out: &mut Vec<u8>,
    answer: &Result<Released, ReleaseRefusal>,
) -> Result<(), NoMemory>
    ensures { OnOk result (out.new.items ≡ out.old.items ++ indented_line (released_words answer.now)) }
{
    match answer {
        Ok(Released { lease, count }) => put_named(
            out,
            "released",
            &[Number(u64::from(*lease)), Number(u64::from(*count))],
        ),
        Err(ReleaseRefusal::NotHeld) => put_named(out, "not-held", &[]),
        Err(ReleaseRefusal::Lost { seen }) => put_lost(out, seen),
    }
}

#[tactic(auto, unfolding(crate::specs::Calls::handed_words))]
fn put_handed(out: &mut Vec<u8>, answer: &Result<Released, HandRefusal>) -> Result<(), NoMemory>
    ensures { OnOk result (out.new.items ≡ out.old.items ++ indented_line (handed_words answer.now)) }
{
    match answer {
        Ok(Released { lease, count }) => put_named(
            out,
            "handed",
            &[Number(u64::from(*lease)), Number(u64::from(*count))],
        ),
        Err(HandRefusal::NotHeld) => put_named(out, "not-held", &[]),
        Err(HandRefusal::BadHeir { heir }) => {
            put_named(out, "bad-heir", &[Number(u64::from(*heir))])
        }
        Err(HandRefusal::Lost { seen }) => put_lost(out, seen),
    }
}

/// A lease had ended, by the word that was seen.
fn put_lost(out: &mut Vec<u8>, seen: &LeaseWord) -> Result<(), NoMemory>
    ensures { OnOk result (out.new.items ≡ out.old.items ++ indented_line (lost_words seen.now)) }
{
    put_spaced(out, &[Word("lost")])?;
    put_seen(out, seen)
}

/// A lease word that a library saw, at the end of a line.
#[tactic(auto, unfolding(crate::specs::Calls::seen_words))]
fn put_seen(out: &mut Vec<u8>, seen: &LeaseWord) -> Result<(), NoMemory>
    ensures { OnOk result (out.new.items ≡ out.old.items ++ indented_line (seen_words seen.now)) }
{
    put_indented(
        out,
        &[
            Number(u64::from(seen.lease)),
            Number(u64::from(seen.owner)),
            Word(standing_text(seen.standing)),
            Number(u64::from(seen.count)),
        ],
    )
}

#[tactic(auto, unfolding(crate::specs::Calls::standing_word))]
fn standing_text(standing: Standing) -> &'static str
    ensures { result.now ≡ standing_word standing }
{
    match standing {
        Standing::Active => "active",
        Standing::Released => "released",
        Standing::Revoked => "revoked",
    }
}
