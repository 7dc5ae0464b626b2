//! Records of Heartbeats, one behind the other.

ghost use Rattle.std.specs.Prelude.{◌≡◌};
ghost use Rattle.durable_journal.specs.Records.{IsRecord};

use durable_journal::laws::session_texts_are_bodies;
use gate_io::{Bytes, NoMemory};
use lease_core::{Entry, Record};
use session_core::{Admin, admin_body};
use std::alloc::Global;
use std::marker::Model;

/// A record of the format's table.
#[derive(Drop)]
pub struct Event {
    record: Record,
}

impl Model for Event {
    ghost use Rattle.lease_core.specs.declared.record.Record.{Record};
    ghost use Rattle.durable_journal.specs.Records.{IsRecord};

    ghost Value = { Record };

    ghost view = { λ e. e.record };

    ghost invariant = { λ e. IsRecord e.record };
}

impl Event {
    /// A Heartbeat that was sent under this number.
    fn new(alloc: Global, number: u64) -> Result<Event, NoMemory> {
        session_texts_are_bodies();
        let body = admin_body(alloc, &Admin::Heartbeat { test: None }, number)?;
        let record = Record {
            s: 0,
            entry: Entry::Admin { number },
            at: 1_767_605_400_000,
            body: Bytes::of(body),
            expected: 1,
        };
        Ok(Event { record })
    }

    pub fn into_record(self) -> Record
        ensures record { result ≡ self }
        ensures is_record { IsRecord result }
    {
        self.record
    }
}

/// So many of them.
pub fn events(alloc: Global, count: u64) -> Result<Vec<Event>, NoMemory> {
    let mut events = Vec::new(alloc);
    for before in 0..count {
        events.push(Event::new(alloc, before.saturating_add(1))?)?;
    }
    Ok(events)
}
