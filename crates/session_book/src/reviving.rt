//! A session that goes on from what was read back.

ghost use Rattle.std.specs.Prelude.{◌≡◌, ◌≢◌, ℕ, ◌≤◌, ◌<◌, ◌+◌, ◌↔◌, IfOk, IfSome, OnErr, OnOk, IsTrue, length};
ghost use Rattle.lease_core.specs.Lines.{lines_of};
ghost use Rattle.lease_core.specs.Runs.{IsNext};
ghost use Rattle.lease_core.specs.State.{state_of};
ghost use Rattle.seq_gaps.specs.Line.{after_fill, fresh_line};
ghost use Rattle.session_core.specs.Admin.{admin_text, is_session_entry};
ghost use Rattle.session_core.specs.State.{IsDialHeart, new_state};
ghost use Rattle.session_core.specs.declared.acts.Admin.{Admin};
ghost use Rattle.session_book.specs.Reviving.{CanBeSent, IsReadBack, LeavesSeries, after_read, inbound_with, is_session_text, nothing_read, outbound_with, after_resume};

use crate::book::SessionBook;
use fix_fields::LONGEST_NAME;
use gate_io::{Bytes, NoMemory};
use lease_core::laws::entries_decide_one_by_one;
use lease_core::{Entry, Recovery, Registry};
use message_log::{InLog, OutEntry, OutLog};
use resend_plan::{Names2, logs_stay_fit};
use seq_gaps::MAX_NUMBER;
use session_core::Session;
use std::alloc::Global;
use std::marker::Model;

/// The type field of a Reject.
const REJECT_TYPE: &[u8] = b"35=3\x01";

/// What was read back of a session, one record after another: its journal, and the logs that go with
/// it. `SessionBook::resume` goes on behind it.
#[derive(Debug)]
pub struct Revival {
    recovery: Recovery,
    inbound: InLog,
    outbound: OutLog,
}

impl Drop for Revival {
    fn drop(self) {
        let Revival {
            recovery: _,
            inbound: _,
            outbound: _,
        } = self;
    }
}

impl Model for Revival {
    ghost use Rattle.session_book.specs.Reviving.{IsReadBack, ReadBack};

    ghost Value = { ReadBack };

    ghost view = { λ r. record { leases = r.recovery.leases; entries = r.recovery.entries; inbound = r.inbound.items; outbound = r.outbound.series } };

    ghost invariant = { λ r. IsReadBack (record { leases = r.recovery.leases; entries = r.recovery.entries; inbound = r.inbound.items; outbound = r.outbound.series }) };
}

impl Revival {
    /// Nothing was read yet. The session can be granted `leases` times.
    #[tactic(auto, unfolding(lease_core::specs::State::state_of))]
    pub fn new(alloc: Global, leases: u32) -> Result<Revival, NoMemory>
        ensures { IfOk result (λ revival. revival ≡ nothing_read leases) }
    {
        logs_stay_fit();
        Ok(Revival {
            recovery: Recovery::new(alloc, leases)?,
            inbound: InLog::new(alloc),
            outbound: OutLog::new(alloc),
        })
    }

    /// Whether the entry follows from those that were read. It looks at no older ones.
    pub fn accepts(&self, entry: &Entry) -> bool
        ensures { IsTrue result ↔ IsNext self.now.leases (state_of self.now.entries) entry.now }
    {
        self.recovery.accepts(entry)
    }

    /// The entries that were read, in order.
    pub fn entries(&self) -> &[Entry]
        ensures { result.now ≡ self.now.entries }
    {
        self.recovery.entries()
    }

    /// Takes the next record: an entry that `accepts` takes, with its moment and its body. The body of
    /// an Arrive goes to the inbound log, and that of an Admin or of a Send, which has to be one that
    /// can be written, with the moment to the outbound log, where a Reset begins the next series. Any
    /// other moment and body are dropped. Without memory all stays as it was.
    pub fn take(
        &mut self,
        alloc: Global,
        entry: Entry,
        at: u64,
        body: Bytes,
    ) -> Result<(), NoMemory>
        requires next { IsNext self.old.leases (state_of self.old.entries) entry }
        requires fit { CanBeSent entry body }
        ensures ok { OnOk result (self.new ≡ after_read entry at body self.old) }
        ensures err { OnErr result (self.new ≡ self.old) }
    {
        entries_decide_one_by_one();
        logs_stay_fit();
        self.recovery.reserve(1)?;
        log_body(
            alloc,
            &mut self.inbound,
            &mut self.outbound,
            entry,
            at,
            body,
        )?;
        self.recovery.record(entry);
        Ok(())
    }

    /// What was read, in its parts, with room for one more entry of the journal.
    fn with_room(self) -> Result<(Recovery, InLog, OutLog), NoMemory>
        ensures is { IsReadBack self }
        ensures entries { IfOk result (λ parts. parts.0.entries ≡ self.entries) }
        ensures leases { IfOk result (λ parts. parts.0.leases ≡ self.leases) }
        ensures room { IfOk result (λ parts. 1 ≤ parts.0.spare) }
        ensures inbound { IfOk result (λ parts. parts.1.items ≡ self.inbound) }
        ensures outbound { IfOk result (λ parts. parts.2.series ≡ self.outbound) }
    {
        let Revival {
            mut recovery,
            inbound,
            outbound,
        } = self;
        recovery.reserve(1)?;
        Ok((recovery, inbound, outbound))
    }
}

/// Puts the body of an entry where it belongs.
fn log_body(
    alloc: Global,
    inbound: &mut InLog,
    outbound: &mut OutLog,
    entry: Entry,
    at: u64,
    body: Bytes,
) -> Result<(), NoMemory>
    requires { LeavesSeries entry outbound.old.series }
    ensures inbound { OnOk result (inbound.new.items ≡ inbound_with entry body inbound.old.items) }
    ensures outbound { OnOk result (outbound.new.series ≡ outbound_with entry at body outbound.old.series) }
    ensures err_inbound { OnErr result (inbound.new.items ≡ inbound.old.items) }
    ensures err_outbound { OnErr result (outbound.new.series ≡ outbound.old.series) }
{
    match entry {
        Entry::Arrive { .. } => {
            inbound.push(alloc, body.into_inner())?;
        }
        Entry::Admin { .. } => {
            let admin = is_session_text(body.as_slice());
            outbound.push(alloc, OutEntry { at, admin, body })?;
        }
        Entry::Send { .. } => {
            let admin = false;
            outbound.push(alloc, OutEntry { at, admin, body })?;
        }
        Entry::Reset { .. } => {
            outbound.turn_over(alloc)?;
        }
        _ => {}
    }
    Ok(())
}

/// Whether the body of a session message is that of a session entry.
fn is_session_text(body: &[u8]) -> bool
    ensures { result ≡ is_session_text body.now }
{
    !body.starts_with(REJECT_TYPE)
}

/// The body of a session message tells whether it is a session entry.
pub fn texts_tell_session_entries()
    ensures { (message : Admin) (number : ℕ) → is_session_text (admin_text message number) ≡ is_session_entry message }
{}

impl SessionBook {
    /// The session behind what was read back, off, and expecting this number. It dials with the
    /// HeartBtInt of `dials`, in seconds, where that is given. Where the last entry is a release whose
    /// hold is missing, that follows, and the session waits for the heir until the moment `until`. The
    /// journal may still bind the session to a connection of the run before; `leave` ends that. The
    /// names have at most 32 bytes each.
    pub fn resume(
        alloc: Global,
        revival: Revival,
        us: Vec<u8>,
        them: Vec<u8>,
        dials: Option<u32>,
        expected: u32,
        until: u64,
    ) -> Result<SessionBook, NoMemory>
        requires us { length us.items ≤ LONGEST_NAME }
        requires them { length them.items ≤ LONGEST_NAME }
        requires dials { IfSome dials IsDialHeart }
        requires from { 1 ≤ expected }
        requires to { expected ≤ MAX_NUMBER + 1 }
        ensures book { IfOk result (λ made. made.book ≡ after_resume us.items them.items dials expected until revival) }
        ensures lines { IfOk result (λ made. lines_of made.book.entries ≡ lines_of revival.entries) }
        // What the next call asks for.
        ensures bound { IfOk result (λ made. (state_of made.book.entries).bound ≡ (state_of revival.entries).bound) }
    {
        entries_decide_one_by_one();
        let (machine, names) = machine_and_names(alloc, us, them, dials, expected)?;
        let (recovery, inbound, outbound) = revival.with_room()?;
        Ok(SessionBook {
            machine,
            names,
            registry: Registry::resume(recovery, until),
            inbound,
            outbound,
        })
    }
}

/// A session machine that is off and expects this number, and the names once more, for what is sent again.
fn machine_and_names(
    alloc: Global,
    us: Vec<u8>,
    them: Vec<u8>,
    dials: Option<u32>,
    expected: u32,
) -> Result<(Session, Names2), NoMemory>
    requires us { length us.items ≤ LONGEST_NAME }
    requires them { length them.items ≤ LONGEST_NAME }
    requires dials { IfSome dials IsDialHeart }
    requires from { 1 ≤ expected }
    requires to { expected ≤ MAX_NUMBER + 1 }
    ensures machine { IfOk result (λ made. made.0 ≡ new_state us.items them.items dials (after_fill fresh_line expected)) }
    ensures us { IfOk result (λ made. made.1.us ≡ us.items) }
    ensures them { IfOk result (λ made. made.1.them ≡ them.items) }
{
    let names = Names2 {
        us: Bytes::of(Vec::from_slice(alloc, us.as_slice())?),
        them: Bytes::of(Vec::from_slice(alloc, them.as_slice())?),
    };
    let machine = machine_expecting(alloc, us, them, dials, expected)?;
    Ok((machine, names))
}

/// A session machine that is off and expects this number.
fn machine_expecting(
    alloc: Global,
    us: Vec<u8>,
    them: Vec<u8>,
    dials: Option<u32>,
    expected: u32,
) -> Result<Session, NoMemory>
    requires dials { IfSome dials IsDialHeart }
    requires from { 1 ≤ expected }
    requires to { expected ≤ MAX_NUMBER + 1 }
    ensures { IfOk result (λ machine. machine ≡ new_state us.items them.items dials (after_fill fresh_line expected)) }
{
    match dials {
        Some(heart) => Session::dialling(alloc, us, them, heart, expected),
        None => Session::resume(alloc, us, them, expected),
    }
}
