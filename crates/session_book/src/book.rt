//! The session's book: its parts, and what of it can be looked at.

ghost use Rattle.std.specs.Prelude.{◌≡◌, ◌≤◌, ◌+◌, [], ◌∷◌, IfOk, OnOk, length, None, Some};
ghost use Rattle.seq_gaps.specs.Line.{fresh_line};
ghost use Rattle.lease_core.specs.State.{state_of};
ghost use Rattle.session_core.specs.State.{new_state, IsDialHeart};
ghost use Rattle.session_book.specs.Kept.{IsBook};

use crate::reads::SessionRecord;
use fix_fields::LONGEST_NAME;
use gate_io::{Bytes, NoMemory};
use lease_core::Registry;
use message_log::{InLog, OutLog};
use resend_plan::{Names2, logs_stay_fit};
use session_core::{Names, Session};
use std::alloc::Global;
use std::marker::Model;

/// A session with its journal and its logs. Contracts see them as one book, and for how many more
/// entries there is room.
#[derive(Debug)]
pub struct SessionBook {
    pub(crate) machine: Session,
    pub(crate) names: Names2,
    pub(crate) registry: Registry,
    pub(crate) inbound: InLog,
    pub(crate) outbound: OutLog,
}

impl Drop for SessionBook {
    fn drop(self) {
        let SessionBook {
            machine: _,
            names: _,
            registry: _,
            inbound: _,
            outbound: _,
        } = self;
    }
}

impl Model for SessionBook {
    ghost use Rattle.std.specs.Prelude.{min};
    ghost use Rattle.session_book.specs.Kept.{Kept, IsBook, AreNamesOf};
    ghost use Rattle.std.specs.Coded.{codes};
    ghost use Rattle.seq_gaps.specs.Line.{line_code};
    ghost use Rattle.session_core.specs.contracts.tasks.Task as task;

    ghost Value = { Kept };

    ghost coded = { Prim.hlevel (codes, line_code task.the_row.coded) };

    ghost view = { λ b. record { book = record { machine = b.machine; leases = b.registry.leases; entries = b.registry.entries; inbound = b.inbound.items; outbound = b.outbound.series }; spare = min b.registry.spare b.outbound.spare } };

    ghost invariant = { λ b. IsBook (record { machine = b.machine; leases = b.registry.leases; entries = b.registry.entries; inbound = b.inbound.items; outbound = b.outbound.series }) × AreNamesOf b.machine.names b.names };
}

impl SessionBook {
    /// A session that accepts connections, of which nothing was heard. It can be granted `leases`
    /// times. The names have at most 32 bytes each.
    #[tactic(auto, unfolding(lease_core::specs::State::state_of))]
    pub fn new(
        alloc: Global,
        us: Vec<u8>,
        them: Vec<u8>,
        leases: u32,
    ) -> Result<SessionBook, NoMemory>
        requires us { length us.items ≤ LONGEST_NAME }
        requires them { length them.items ≤ LONGEST_NAME }
        ensures book { IfOk result (λ made. made.book ≡ record { machine = new_state us.items them.items None fresh_line; leases = leases; entries = []; inbound = []; outbound = [] ∷ [] }) }
        // What the next call asks for.
        ensures unbound { IfOk result (λ made. (state_of made.book.entries).bound ≡ None) }
    {
        logs_stay_fit();
        let names = Names2 {
            us: Bytes::of(Vec::from_slice(alloc, us.as_slice())?),
            them: Bytes::of(Vec::from_slice(alloc, them.as_slice())?),
        };
        Ok(SessionBook {
            machine: Session::new(alloc, us, them)?,
            names,
            registry: Registry::new(alloc, leases)?,
            inbound: InLog::new(alloc),
            outbound: OutLog::new(alloc),
        })
    }

    /// Makes room for n more entries of the journal, and as many of the outbound log.
    pub fn reserve(&mut self, alloc: Global, n: usize) -> Result<(), NoMemory>
        ensures book { self.new.book ≡ self.old.book }
        ensures kept { self.old.spare ≤ self.new.spare }
        ensures room { OnOk result (n ≤ self.new.spare) }
    {
        self.registry.reserve(n)?;
        self.outbound.reserve(alloc, n)
    }

    /// What the run leaves.
    pub fn into_record(self) -> SessionRecord
        ensures names { result.names ≡ self.book.machine.names }
        ensures entries { result.registry.entries ≡ self.book.entries }
        ensures leases { result.registry.leases ≡ self.book.leases }
        ensures inbound { result.inbound.items ≡ self.book.inbound }
        ensures outbound { result.outbound.series ≡ self.book.outbound }
    {
        let SessionBook {
            machine: _,
            names,
            registry,
            inbound,
            outbound,
        } = self;
        let Names2 { us, them } = names;
        SessionRecord {
            names: Names { us, them },
            registry,
            inbound,
            outbound,
        }
    }
}
