//! What can be read of a session, and what a run leaves of it.

ghost use Rattle.std.specs.Prelude.{◌≡◌, ◌≤◌, nat_lt, true, false, ℕ, IfNone, IfSome};
ghost use Rattle.gate_io.specs.declared.clocks.TheConstants.{LAST_MOMENT};
ghost use Rattle.lease_core.specs.Holdings.{AreAdjoining, holdings_of};
ghost use Rattle.lease_core.specs.Lines.{lines_of, word_of};
ghost use Rattle.lease_core.specs.Runs.{IsRun, owes_hold};
ghost use Rattle.lease_core.specs.State.{lease_of, owner_of, state_of};
ghost use Rattle.resend_plan.specs.Fit.{AreShort, HasFitBodies};
ghost use Rattle.session_core.specs.State.{IsState};
ghost use Rattle.session_core.specs.Tick.{does_nothing_at};
ghost use Rattle.session_book.specs.Kept.{AreNamesOf, IsBook};

use crate::book::SessionBook;
use gate_io::Bytes;
use lease_core::{Entry, Holding, Registry, Word};
use message_log::{InLog, OutLog};
use resend_plan::Names2;
use session_core::Names;

/// What a run leaves of a session.
#[derive(Debug, Drop)]
pub struct SessionRecord {
    pub names: Names,
    pub registry: Registry,
    pub inbound: InLog,
    pub outbound: OutLog,
}

impl SessionBook {
    /// The session's names: the gateway's own and the counterparty's.
    pub fn names(&self) -> &Names
        ensures { result.now ≡ self.now.book.machine.names }
    {
        self.machine.names()
    }

    /// The names as what is written wants them. Each has at most 32 bytes.
    pub fn written_names(&self) -> &Names2
        ensures names { AreNamesOf self.now.book.machine.names result.now }
        ensures short { AreShort result.now }
    {
        &self.names
    }

    /// The number that is expected next.
    pub fn expected(&self) -> u32
        ensures number { result ≡ self.now.book.machine.line.expected }
        // What holds of every session.
        ensures book { IsBook self.now.book }
        ensures machine { IsState self.now.book.machine }
    {
        self.machine.expected()
    }

    /// The least moment at which a tick does something, as long as nothing else happens.
    pub fn due(&self) -> Option<u64>
        ensures some { IfSome result (λ due. (moment : ℕ) → does_nothing_at self.now.book.machine moment ≡ nat_lt moment due) }
        ensures none { IfNone result ((moment : ℕ) → moment ≤ LAST_MOMENT → does_nothing_at self.now.book.machine moment ≡ true) }
        ensures limit { IfSome result (λ due. due ≤ LAST_MOMENT) }
    {
        self.machine.due()
    }

    /// The connection to which the session is bound.
    pub fn bound(&self) -> Option<u32>
        ensures { result ≡ (state_of self.now.book.entries).bound }
    {
        self.registry.bound()
    }

    /// The library that has the session, or 0 for the engine, and the last lease.
    pub fn owner(&self) -> (u8, u32)
        ensures owner { result.0 ≡ owner_of (state_of self.now.book.entries) }
        ensures lease { result.1 ≡ lease_of (state_of self.now.book.entries) }
    {
        self.registry.owner()
    }

    /// The library for which the session waits, and until when.
    pub fn reserved(&self) -> Option<(u8, u64)>
        ensures { result ≡ (state_of self.now.book.entries).reserved }
    {
        self.registry.reserved()
    }

    /// The word that the journal comes to.
    pub fn word(&self) -> Word
        ensures { result ≡ word_of (lines_of self.now.book.entries) }
    {
        self.registry.word()
    }

    /// The journal. It is lawful: each entry follows from those before it, and no hold is missing.
    pub fn entries(&self) -> &[Entry]
        ensures entries { result.now ≡ self.now.book.entries }
        ensures run { IsRun self.now.book.leases self.now.book.entries }
        ensures settled { owes_hold (state_of self.now.book.entries).latest ≡ false }
    {
        self.registry.entries()
    }

    /// The spans of ownership in order. They are adjoining, and end at the inbound log's length.
    pub fn holdings(&self) -> &[Holding]
        ensures holdings { result.now ≡ holdings_of self.now.book.entries }
        ensures adjoining { AreAdjoining result.now (state_of self.now.book.entries).inbound }
    {
        self.registry.holdings()
    }

    /// The messages that were accepted.
    pub fn inbound(&self) -> &InLog
        ensures { result.now.items ≡ self.now.book.inbound }
    {
        &self.inbound
    }

    /// The messages that were numbered. Each body is one that can be written.
    pub fn outbound(&self) -> &OutLog
        ensures series { result.now.series ≡ self.now.book.outbound }
        ensures fit { HasFitBodies result.now.series }
    {
        &self.outbound
    }
}
