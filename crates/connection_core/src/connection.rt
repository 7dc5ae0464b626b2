//! One connection as the engine keeps it.

ghost use Rattle.std.specs.Prelude.{◌≡◌, ◌+◌, ◌<◌, ◌≤◌, ◌↔◌, ◌⊎◌, ◌∷◌, [], ◌++◌, List, Some, length, option_map, is_some, take, true, false, All, IfOk, OnOk, OnErr, IfNone, IfSome, IsNone, IsTrue, MatchOption};
ghost use Rattle.std.specs.Borrow.{Lends, sem};
ghost use Rattle.fix_frame.specs.Cut.{CutPiece, IsPiece, cut, piece_at};
ghost use Rattle.resend_plan.specs.declared.item.WireItem.{WireItem};
ghost use Rattle.resend_plan.specs.Wire.{NamesEntry};
ghost use Rattle.resend_plan.specs.Fit.{AreShort, HasFitBodies};
ghost use Rattle.connection_core.specs.Outgoing.{HasMore, after_preparing, after_preparing_first, no_outgoing, waiting_count, waiting_text};
ghost use Rattle.connection_core.specs.Items.{AreItemsOf};
ghost use Rattle.connection_core.specs.Connection.{IsGiven, IsLate, after_end, after_next, after_taking, fresh, fresh_dial, room, slow_cause};
ghost use Rattle.fix_frame.specs.Owned.{cut_piece};
ghost use Rattle.connection_core.specs.Record.{record_of};
ghost use Rattle.connection_core.specs.contracts.connection.Connection.{the_row as connection_row};
ghost use Rattle.connection_core.specs.contracts.outbox.Outbox.{the_row as outbox_row};

use crate::limits::{LOGON_WAIT, MOST_READ, MOST_WAITING};
use crate::outbox::Outbox;
use crate::records::ConnRecord;
use fix_frame::{Cutter, LONGEST_FRAME, OwnedPiece};
use gate_io::{Bytes, NoMemory};
use message_log::OutLog;
use resend_plan::Names2;
use session_core::Cause;
use std::alloc::Global;
use std::marker::Model;

/// A connection: what came of it, what is to be written on it, the session to which it is bound, and
/// its end. It stands until it has a cause.
pub struct Connection {
    number: u32,
    since: u64,
    dialled: bool,
    answered: bool,
    taken: Vec<u8>,
    cutter: Cutter,
    garbled: u64,
    session: Option<u16>,
    out: Outbox,
    cause: Option<Cause>,
}

impl Drop for Connection {
    fn drop(self) {
        let Connection {
            number: _,
            since: _,
            dialled: _,
            answered: _,
            taken: _,
            cutter: _,
            garbled: _,
            session: _,
            out: _,
            cause: _,
        } = self;
    }
}

impl Model for Connection {
    ghost use Rattle.std.specs.Prelude.{◌≡◌, ◌+◌, ◌≤◌, length};
    ghost use Rattle.fix_frame.specs.declared.layout.TheConstants.{LONGEST_FRAME};
    ghost use Rattle.connection_core.specs.Connection.{ConnectionState};

    ghost Value = { ConnectionState };

    ghost view = { λ c. record {
      number = c.number;
      since = c.since;
      dialled = c.dialled;
      answered = c.answered;
      taken = c.taken.items;
      held = c.cutter.held;
      garbled = c.garbled;
      session = c.session;
      out = c.out;
      cause = c.cause;
    } };

    ghost invariant = { λ c. (c.cutter.limit ≡ LONGEST_FRAME) × (c.garbled + length c.cutter.held ≤ length c.taken.items) };
}

impl Connection {
    /// A connection that was accepted, with its number and the moment of its acceptance in
    /// milliseconds.
    pub fn accepted(alloc: Global, number: u32, since: u64) -> Result<Connection, NoMemory>
        ensures fresh { IfOk result (λ connection. connection ≡ fresh number since connection.out) }
        ensures none_waits { IfOk result (λ connection. connection.out.outgoing ≡ no_outgoing) }
        // Nothing was handed out, and there is room for a read.
        ensures given { IfOk result (λ connection. IsGiven connection []) }
        ensures room { IfOk result (λ connection. MOST_READ ≤ room connection) }
    {
        Ok(Connection {
            number,
            since,
            dialled: false,
            answered: true,
            taken: Vec::new(alloc),
            cutter: Cutter::new(alloc, LONGEST_FRAME)?,
            garbled: 0,
            session: None,
            out: Outbox::new(alloc),
            cause: None,
        })
    }

    /// A connection that was dialled for a session, with its number and the moment of the dial in
    /// milliseconds. Its first item is to be the Logon.
    pub fn dialled(
        alloc: Global,
        number: u32,
        since: u64,
        session: u16,
    ) -> Result<Connection, NoMemory>
        ensures fresh { IfOk result (λ connection. connection ≡ fresh_dial number since session connection.out) }
        ensures none_waits { IfOk result (λ connection. connection.out.outgoing ≡ no_outgoing) }
        // Nothing was handed out, and there is room for a read.
        ensures given { IfOk result (λ connection. IsGiven connection []) }
        ensures room { IfOk result (λ connection. MOST_READ ≤ room connection) }
    {
        let mut connection = Connection::accepted(alloc, number, since)?;
        connection.dialled = true;
        connection.answered = false;
        connection.session = Some(session);
        Ok(connection)
    }

    /// Its number at the wire, which counts accepted connections from 0 on, and dialled ones from
    /// `FIRST_DIALLED` on.
    pub fn number(&self) -> u32
        ensures { result ≡ self.now.number }
    {
        self.number
    }

    /// The moment of its acceptance or of its dial.
    pub fn since(&self) -> u64
        ensures { result ≡ self.now.since }
    {
        self.since
    }

    /// Whether it was dialled.
    pub fn is_dialled(&self) -> bool
        ensures { result ≡ self.now.dialled }
    {
        self.dialled
    }

    /// The session to which it is bound, by its number from 0.
    pub fn session(&self) -> Option<u16>
        ensures { result ≡ self.now.session }
    {
        self.session
    }

    /// Why it ended.
    pub fn cause(&self) -> Option<Cause>
        ensures { result ≡ self.now.cause }
    {
        self.cause
    }

    /// Whether it ended.
    pub fn has_ended(&self) -> bool
        ensures { result ≡ is_some self.now.cause }
    {
        self.cause.is_some()
    }

    /// How many bytes `take_in` takes now.
    pub fn room(&self) -> usize
        ensures { result ≡ room self.now }
    {
        self.cutter.room()
    }

    /// Takes the next bytes that came.
    pub fn take_in(&mut self, bytes: &[u8]) -> Result<(), NoMemory>
        requires stands { IsNone self.old.cause }
        requires room { length bytes.now ≤ room self.old }
        ensures taken { OnOk result (self.new ≡ after_taking bytes.now self.old) }
        // The pieces that were handed out are still those of the cut.
        ensures given { (pieces : List CutPiece) → IsGiven self.old pieces → IsGiven self.new pieces }
        ensures err { OnErr result (self.new ≡ self.old) }
    {
        self.taken.extend_from_slice(bytes)?;
        self.cutter.feed(bytes);
        Ok(())
    }

    /// The next piece of what was taken, or None where more bytes are wanted. Garbled bytes are
    /// counted. Without memory for its body a good piece waits to be asked for again.
    pub fn next(&mut self, alloc: Global) -> Result<Option<OwnedPiece>, NoMemory>
        requires stands { IsNone self.old.cause }
        ensures after { OnOk result (self.new ≡ after_next self.old) }
        // What stands at the beginning of what is held.
        ensures piece { IfOk result (λ given. option_map cut_piece given ≡ option_map (λ found. found.piece) (piece_at LONGEST_FRAME self.old.held)) }
        ensures none { IfOk result (λ given. IsNone given ↔ ((cut LONGEST_FRAME self.old.held).pieces ≡ [])) }
        ensures lawful { IfOk result (λ given. IfSome given (λ piece. IsPiece LONGEST_FRAME (cut_piece piece))) }
        ensures room { IfOk result (λ given. IfNone given (MOST_READ ≤ room self.new)) }
        // Fewer bytes are held behind a piece, so that asking for all of them comes to an end.
        ensures fewer { IfOk result (λ given. IfSome given (λ piece. length self.new.held < length self.old.held)) }
        // One piece more was handed out; where there is none, all pieces of what was taken were.
        ensures given { (pieces : List CutPiece) → IsGiven self.old pieces → IfOk result (λ given. MatchOption given
            (IsGiven self.new pieces × ((cut LONGEST_FRAME self.old.taken).pieces ≡ pieces))
            (λ piece. IsGiven self.new (pieces ++ cut_piece piece ∷ []))) }
        ensures err { OnErr result (self.new ≡ self.old) }
    {
        let piece = self.cutter.take_next(alloc)?;
        if let Some(OwnedPiece::Garbled { length }) = &piece {
            self.garbled += *length as u64;
        }
        Ok(piece)
    }

    /// Binds it to a session.
    pub fn bind(&mut self, session: u16)
        requires unbound { IsNone self.old.session }
        ensures { self.new ≡ record self.old { session = Some session } }
    {
        self.session = Some(session);
    }

    /// The Logon of a dialled connection is answered: until then its first item alone is written. An
    /// answer that ends it by a low number is an answer too.
    pub fn answer(&mut self)
        ensures { self.new ≡ record self.old { answered = true } }
    {
        self.answered = true;
    }

    /// Lends what is to be written on it, so that items can be queued and bytes can be written.
    pub fn outbox(&mut self) -> &mut Outbox
        ensures* lent { sem 𝓛 (Lends connection_row outbox_row self.entry result (λ w. record self.old { out = w })) }
        ensures out { result.now ≡ self.old.out }
    {
        &mut self.out
    }

    /// The next bytes that are to be written, at most `limit`, of those whose text is made.
    pub fn waiting(&self, limit: usize) -> &[u8]
        ensures { result.now ≡ take limit (waiting_text self.now.out.outgoing) }
    {
        self.out.waiting(limit)
    }

    /// How many items aren't written whole.
    pub fn waiting_items(&self) -> u64
        ensures { result ≡ waiting_count self.now.out.outgoing }
    {
        self.out.waiting_items()
    }

    /// Makes the texts of items in order until at least `limit` bytes wait, or each item has one; of
    /// a dialled connection whose Logon isn't answered, that of the first item alone. Without memory
    /// the texts that were made stay.
    pub fn prepare(&mut self, log: &OutLog, names: &Names2, limit: usize) -> Result<(), NoMemory>
        requires named { All (NamesEntry log.now.series) self.old.out.outgoing.unmade }
        requires short { AreShort names.now }
        requires fit { HasFitBodies log.now.series }
        ensures out { self.new ≡ record self.old { out = self.new.out } }
        ensures answered { self.old.answered ≡ true → OnOk result (self.new.out.outgoing ≡ after_preparing names.now log.now.series limit self.old.out.outgoing) }
        ensures unanswered { self.old.answered ≡ false → OnOk result (self.new.out.outgoing ≡ after_preparing_first names.now log.now.series self.old.out.outgoing) }
        // Without memory no text is made that wasn't asked for: before the answer none at all, and behind it
        // what is made comes to the same once it is done again.
        ensures unanswered_err { self.old.answered ≡ false → OnErr result (self.new.out.outgoing ≡ self.old.out.outgoing) }
        ensures again { self.old.answered ≡ true
            → after_preparing names.now log.now.series limit self.new.out.outgoing ≡ after_preparing names.now log.now.series limit self.old.out.outgoing }
        ensures enough { self.old.answered ≡ true
            → OnOk result ((limit ≤ length (waiting_text self.new.out.outgoing)) ⊎ (self.new.out.outgoing.unmade ≡ [])) }
        ensures more { HasMore names.now log.now.series self.old.out.outgoing self.new.out.outgoing }
        ensures spare { self.old.out.spare ≤ self.new.out.spare }
        ensures items { (items : List WireItem) → AreItemsOf names.now log.now.series items self.old.out.outgoing
            → AreItemsOf names.now log.now.series items self.new.out.outgoing }
    {
        if self.answered {
            self.out.prepare(log, names, limit)
        } else {
            self.out.prepare_first(log, names)
        }
    }

    /// Ends it by a cause. Where it ended before, the first cause stays.
    pub fn end(&mut self, cause: Cause)
        ensures { self.new ≡ after_end cause self.old }
    {
        if self.cause.is_none() {
            self.cause = Some(cause);
        }
    }

    /// Whether it was accepted `LOGON_WAIT` ago or longer and isn't bound at this moment.
    pub fn is_late(&self, moment: u64) -> bool
        ensures { IsTrue result ↔ IsLate self.now moment }
    {
        !self.dialled && self.session.is_none() && moment.saturating_sub(self.since) >= LOGON_WAIT
    }

    /// The cause by which it ends where more than `MOST_WAITING` items wait.
    pub fn slow_cause(&self) -> Option<Cause>
        ensures { result ≡ slow_cause self.now }
    {
        let waiting = self.waiting_items();
        if waiting > MOST_WAITING {
            Some(Cause::SlowConsumer { waiting })
        } else {
            None
        }
    }

    /// What it leaves.
    pub fn into_record(self) -> ConnRecord
        ensures { result ≡ record_of self }
    {
        let Connection {
            number: _,
            since: _,
            dialled: _,
            answered: _,
            taken,
            cutter: _,
            garbled,
            session,
            out,
            cause,
        } = self;
        ConnRecord {
            session,
            taken: Bytes::of(taken),
            garbled,
            written: out.into_written(),
            cause,
        }
    }
}
