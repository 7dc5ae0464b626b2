//! How a table is made.
ghost use Rattle.std.specs.Prelude.{◌≡◌, ℕ, ◌*◌, ◌<◌, ◌≤◌, [], length, slice_get, Some, IfOk, OnOk};
ghost use Rattle.lease_core.specs.Kept.{Kept};
ghost use Rattle.lease_words.specs.Leases.{Each};
ghost use Rattle.lease_words.specs.Registries.{kept_lines, lines_of_each, IsEndedJournal};
ghost use Rattle.lease_words.specs.Views.{engine_at, pending, first_library, other_libraries, new_library, new_libraries};
ghost use Rattle.lease_words.specs.Tokens.{IsOutset, new_engine_seat, new_library_seat, new_library_seats};

use crate::engine_seat::EngineSeat;
use crate::layout::LANE_SLOTS;
use crate::leases::Leases;
use crate::library_seat::LibrarySeat;
use crate::outset::Outset;
use crate::plays::LibraryMoves;
use crate::rows::LibraryRow;
use crate::view::Shape;
use atomic_table::Table;
use gate_io::NoMemory;
use lease_core::{MOST_LIBRARIES, Registry};
use std::alloc::Global;

impl Leases {
    /// A table for as many sessions, at most 64, and libraries, at most 16, whose lanes are
    /// `depth` items deep, from 1 to 16, and whose leases make at most `sends` sends, at least 1.
    /// With it come the seat of the engine and those of the libraries, in the order of their
    /// numbers from 1.
    pub fn new(
        alloc: Global,
        sessions: u16,
        libraries: u8,
        depth: u8,
        sends: u32,
    ) -> Result<(Leases, EngineSeat, Vec<LibrarySeat>), NoMemory>
        requires sessions { sessions ≤ 64 }
        requires libraries { libraries ≤ MOST_LIBRARIES }
        requires depth { (1 ≤ depth) × (depth ≤ LANE_SLOTS) }
        requires sends { 1 ≤ sends }
        ensures shape { IfOk result (λ r. r.0.shape ≡ record { sessions = sessions; libraries = libraries; depth = depth; sends = sends; before = [] }) }
        ensures engine { IfOk result (λ r. r.1 ≡ new_engine_seat r.0) }
        ensures libraries { IfOk result (λ r. r.2.items ≡ new_library_seats r.0 1 libraries) }
    {
        Leases::make(alloc, sessions, &[], libraries, depth, sends)
    }

    /// A table like `new`, for as many sessions as there are journals, at most 64, of which none
    /// has an active lease and none more than 16,777,215 leases. The engine's lines of each session
    /// are those of its journal, their sends count as taken, and the next grant gives the number
    /// behind the last of them. What is sent and taken from now on is counted from 0.
    pub fn resume(
        alloc: Global,
        journals: &[Registry],
        libraries: u8,
        depth: u8,
        sends: u32,
    ) -> Result<(Leases, EngineSeat, Vec<LibrarySeat>), NoMemory>
        requires sessions { length journals.now ≤ 64 }
        requires journals { Each IsEndedJournal journals.now }
        requires libraries { libraries ≤ MOST_LIBRARIES }
        requires depth { (1 ≤ depth) × (depth ≤ LANE_SLOTS) }
        requires sends { 1 ≤ sends }
        ensures shape { IfOk result (λ r. r.0.shape ≡ record { sessions = length journals.now; libraries = libraries; depth = depth; sends = sends; before = lines_of_each journals.now }) }
        ensures engine { IfOk result (λ r. r.1 ≡ new_engine_seat r.0) }
        ensures libraries { IfOk result (λ r. r.2.items ≡ new_library_seats r.0 1 libraries) }

        // By session: the lines are the journal's, and nothing waits to be taken.
        ensures lines { IfOk result (λ r. (s : ℕ) (journal : Kept) → slice_get journals.now s ≡ Some journal → (engine_at r.1 s).lines ≡ kept_lines journal) }
        ensures base { IfOk result (λ r. (s : ℕ) → (engine_at r.1 s).base ≡ length (engine_at r.1 s).lines) }
        ensures taken { IfOk result (λ r. (s : ℕ) → pending (engine_at r.1 s) ≡ 0) }
    {
        let sessions = journals.len() as u16;
        Leases::make(alloc, sessions, journals, libraries, depth, sends)
    }

    // A table for as many sessions, of which the first had the leases of these journals before.
    fn make(
        alloc: Global,
        sessions: u16,
        journals: &[Registry],
        libraries: u8,
        depth: u8,
        sends: u32,
    ) -> Result<(Leases, EngineSeat, Vec<LibrarySeat>), NoMemory>
        requires sessions { (sessions ≤ 64) × (length journals.now ≤ sessions) }
        requires journals { Each IsEndedJournal journals.now }
        requires libraries { libraries ≤ MOST_LIBRARIES }
        requires depth { (1 ≤ depth) × (depth ≤ LANE_SLOTS) }
        requires sends { 1 ≤ sends }
        ensures shape { IfOk result (λ r. r.0.shape ≡ record { sessions = sessions; libraries = libraries; depth = depth; sends = sends; before = lines_of_each journals.now }) }
        ensures engine { IfOk result (λ r. r.1 ≡ new_engine_seat r.0) }
        ensures libraries { IfOk result (λ r. r.2.items ≡ new_library_seats r.0 1 libraries) }
        ensures lines { IfOk result (λ r. (s : ℕ) (journal : Kept) → slice_get journals.now s ≡ Some journal → (engine_at r.1 s).lines ≡ kept_lines journal) }
        ensures base { IfOk result (λ r. (s : ℕ) → (engine_at r.1 s).base ≡ length (engine_at r.1 s).lines) }
        ensures taken { IfOk result (λ r. (s : ℕ) → pending (engine_at r.1 s) ≡ 0) }
    {
        let outset = Leases::gather(alloc, sessions, journals, libraries)?;
        let (leases, mut engine) = Leases::lay_out(alloc, outset, depth, sends)?;
        let mut seats = Vec::with_capacity(alloc, libraries as usize)?;
        for number in 1..libraries + 1 {
            seats.push_reserved(leases.deal(alloc, &mut engine, number)?);
        }
        Ok((leases, engine, seats))
    }

    // What the table begins with.
    fn gather(
        alloc: Global,
        sessions: u16,
        journals: &[Registry],
        libraries: u8,
    ) -> Result<Outset, NoMemory>
        requires sessions { (sessions ≤ 64) × (length journals.now ≤ sessions) }
        requires journals { Each IsEndedJournal journals.now }
        requires libraries { libraries ≤ MOST_LIBRARIES }
        ensures outset { IfOk result (λ o. IsOutset o) }
        ensures before { IfOk result (λ o. o.before ≡ lines_of_each journals.now) }
        ensures sizes { IfOk result (λ o. (o.sessions ≡ sessions) × (o.libraries ≡ libraries)) }
    {
        let mut outset = Outset::new(alloc, sessions, libraries)?;
        for (s, journal) in journals.iter().enumerate() {
            outset.add(alloc, s as u16, journal)?;
        }
        Ok(outset)
    }

    // The table, with a seat that is the engine's and all libraries'.
    fn lay_out(
        alloc: Global,
        outset: Outset,
        depth: u8,
        sends: u32,
    ) -> Result<(Leases, EngineSeat), NoMemory>
        requires outset { IsOutset outset }
        requires sessions { outset.sessions ≤ 64 }
        requires libraries { outset.libraries ≤ MOST_LIBRARIES }
        requires depth { (1 ≤ depth) × (depth ≤ LANE_SLOTS) }
        requires sends { 1 ≤ sends }
        ensures shape { IfOk result (λ r. r.0.shape ≡ record { sessions = outset.sessions; libraries = outset.libraries; depth = depth; sends = sends; before = outset.before }) }
        ensures engine { IfOk result (λ r. r.1 ≡ record (new_engine_seat r.0) { settled = new_libraries r.0.shape 1 outset.libraries }) }
    {
        let Outset {
            sessions,
            libraries,
            before,
            rows,
            words,
        } = outset;
        let shape = Shape {
            sessions: u64::from(sessions),
            libraries: u64::from(libraries),
            depth: u64::from(depth),
            sends: u64::from(sends),
            before,
        };
        let slots = sessions as usize * libraries as usize * LANE_SLOTS;
        let (table, seat) = Table::vacant(alloc, words.as_slice(), slots, &shape)?;
        let leases = Leases {
            table,
            sessions: sessions as usize,
            libraries: libraries as usize,
            depth: u64::from(depth),
            sends,
        };
        Ok((leases, EngineSeat { seat, rows }))
    }

    // Cuts the first library off the engine's seat.
    fn deal(
        &self,
        alloc: Global,
        engine: &mut EngineSeat,
        number: u8,
    ) -> Result<LibrarySeat, NoMemory>
        requires table { engine.old.table ≡ self.now }
        requires some { 0 < length engine.old.settled }
        requires first { first_library engine.old.settled ≡ new_library self.now.shape number }
        requires number { (1 ≤ number) × (number ≤ self.now.shape.libraries) }
        ensures seat { IfOk result (λ l. l ≡ new_library_seat self.now number) }
        ensures engine { OnOk result (engine.new ≡ record engine.old { settled = other_libraries engine.old.settled }) }
        ensures table { engine.new.table ≡ engine.old.table }
    {
        let rows = vec![in alloc; LibraryRow::NEW; self.sessions]?;
        let seat = self
            .table
            .shared
            .split_seat::<LibraryMoves>(&mut engine.seat);
        Ok(LibrarySeat {
            seat,
            number,
            beats: 0,
            rows,
        })
    }

    /// How many libraries the table is for.
    pub fn libraries(&self) -> u8
        ensures { result ≡ self.now.shape.libraries }
    {
        self.libraries as u8
    }
}
