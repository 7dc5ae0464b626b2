//! A session's log and names, with a connection on which items of it wait.

ghost use Rattle.std.specs.Prelude.{◌≡◌, IfOk, true};
ghost use Rattle.resend_plan.specs.Wire.{NamesEntry};
ghost use Rattle.connection_core.specs.Outgoing.{no_outgoing};

use crate::texts::MORNING;
use connection_core::{ConnRecord, Connection, items_have_text, items_stay_queued};
use fix_frame::is_body;
use gate_io::{Bytes, NoMemory};
use message_log::{LAST_SERIES, OutEntry, OutLog};
use resend_plan::{LONGEST_APPLICATION_BODY, Names2, WireItem, logs_stay_fit};
use row_text::soh;
use session_core::Cause;
use std::alloc::Global;
use std::marker::Model;

/// The log of a session, its names, and a connection on which items of the log wait.
#[derive(Drop)]
pub struct Desk {
    log: OutLog,
    names: Names2,
    connection: Connection,
}

impl Model for Desk {
    ghost use Rattle.connection_core.specs.Connection.{ConnectionState};
    ghost use Rattle.connection_tests.specs.Desk.{IsDesk};

    ghost Value = { ConnectionState };

    ghost view = { λ d. d.connection };

    ghost invariant = { λ d. IsDesk d.log.series d.names d.connection };
}

impl Desk {
    /// An empty log between GATE and BUYER, and a connection on which nothing waits.
    pub fn new(alloc: Global, connection: Connection) -> Result<Desk, NoMemory>
        requires { connection.out.outgoing ≡ no_outgoing }
        ensures { IfOk result (λ desk. desk ≡ connection) }
    {
        logs_stay_fit();
        items_stay_queued();
        let us = Bytes::of(Vec::from_slice(alloc, b"GATE")?);
        let them = Bytes::of(Vec::from_slice(alloc, b"BUYER")?);
        Ok(Desk {
            log: OutLog::new(alloc),
            names: Names2 { us, them },
            connection,
        })
    }

    /// Pushes an entry of this morning to the log, if its body is fit.
    pub fn push(&mut self, alloc: Global, admin: bool, body: &str) -> Result<(), NoMemory>
        ensures { self.new ≡ self.old }
    {
        logs_stay_fit();
        items_stay_queued();
        let body = soh(alloc, body)?;
        if !is_body(&body) || body.len() > LONGEST_APPLICATION_BODY {
            return Ok(());
        }
        let entry = OutEntry {
            at: MORNING,
            admin,
            body: Bytes::of(body),
        };
        self.log.push(alloc, entry)?;
        Ok(())
    }

    /// Begins the next series of the log.
    pub fn turn_over(&mut self, alloc: Global) -> Result<(), NoMemory>
        ensures { self.new ≡ self.old }
    {
        logs_stay_fit();
        items_stay_queued();
        if self.log.series() < LAST_SERIES {
            self.log.turn_over(alloc)?;
        }
        Ok(())
    }

    /// Queues an item, if it names an entry of the log.
    pub fn queue(&mut self, item: WireItem) -> Result<(), NoMemory>
        ensures { self.new ≡ record self.old { out = self.new.out } }
    {
        if names_entry(&self.log, &item) {
            let out = self.connection.outbox();
            out.reserve(1)?;
            out.queue(item);
        }
        Ok(())
    }

    /// The text that waits once it is prepared up to a limit.
    pub fn waiting(&mut self, alloc: Global, limit: usize) -> Result<Vec<u8>, NoMemory>
        ensures { self.new ≡ record self.old { out = self.new.out } }
    {
        items_have_text();
        self.connection.prepare(&self.log, &self.names, limit)?;
        Ok(Vec::from_slice(alloc, self.connection.outbox().waiting(limit))?)
    }

    /// At most n bytes were written.
    pub fn write(&mut self, n: usize)
        ensures { self.new ≡ record self.old { out = self.new.out } }
    {
        let out = self.connection.outbox();
        let most = out.waiting(n).len();
        out.wrote(most);
    }

    /// How many items wait.
    pub fn waiting_items(&self) -> u64 {
        self.connection.waiting_items()
    }

    /// The Logon of the connection is answered.
    pub fn answer(&mut self)
        ensures { self.new ≡ record self.old { answered = true } }
    {
        self.connection.answer();
    }

    /// The connection ends by a cause.
    pub fn end(&mut self, cause: Cause) {
        self.connection.end(cause);
    }

    /// What the connection leaves.
    pub fn into_record(self) -> ConnRecord {
        self.connection.into_record()
    }
}

/// Whether an item is a gap fill, or names an entry of the log.
fn names_entry(log: &OutLog, item: &WireItem) -> bool
    ensures { result ≡ true → NamesEntry log.now.series item.now }
{
    match *item {
        WireItem::New { series, number } => log.entry(series, number).is_some(),
        WireItem::Again { series, number, .. } => log.entry(series, number).is_some(),
        WireItem::GapFill { .. } => true,
    }
}
