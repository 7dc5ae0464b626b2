//! Room for what libraries leave.

ghost use Rattle.std.specs.Prelude.{◌≡◌, ◌<◌, ◌≤◌, ◌++◌, ◌∷◌, [], IfOk, length};
ghost use Rattle.run_report.specs.Room.{IsRoomFor};

use crate::LibReport;
use gate_io::{NoMemory, Rows};
use lease_words::LibrarySeat;
use std::alloc::Global;
use std::marker::Model;

/// Room for what the libraries of a run leave: their seats at the lease table, and their reports. It is made as
/// a run begins, so that it takes no memory to hand out what they leave.
#[derive(Drop)]
pub struct LibraryRoom {
    seats: Vec<LibrarySeat>,
    reports: Vec<LibReport>,
}

impl Model for LibraryRoom {
    ghost use Rattle.std.specs.Prelude.{◌≡◌, length, min, vec_capacity};
    ghost use Rattle.run_report.specs.Room.{LeftSoFar};

    ghost Value = { LeftSoFar };

    ghost view = { λ r. record { seats = r.seats.items; reports = r.reports.items; holds = min (vec_capacity r.seats) (vec_capacity r.reports) } };

    ghost invariant = { λ r. length r.seats.items ≡ length r.reports.items };
}

impl LibraryRoom {
    /// Room for so many libraries, of which none has left anything.
    pub fn new(alloc: Global, libraries: usize) -> Result<LibraryRoom, NoMemory>
        ensures { IfOk result (IsRoomFor libraries) }
    {
        Ok(LibraryRoom {
            seats: Vec::with_capacity(alloc, libraries)?,
            reports: Vec::with_capacity(alloc, libraries)?,
        })
    }

    /// Puts down what one more library leaves.
    pub fn put(&mut self, seat: LibrarySeat, report: LibReport)
        requires room { length self.old.seats < self.old.holds }
        ensures seats { self.new.seats ≡ self.old.seats ++ seat ∷ [] }
        ensures reports { self.new.reports ≡ self.old.reports ++ report ∷ [] }
        ensures holds { self.old.holds ≤ self.new.holds }
    {
        self.seats.push(seat).unwrap();
        self.reports.push(report).unwrap();
    }

    /// The seats and the reports, each in the order in which they were put down.
    pub fn into_lists(self) -> (Vec<LibrarySeat>, Rows<LibReport>)
        ensures seats { result.0.items ≡ self.seats }
        ensures reports { result.1 ≡ self.reports }
    {
        let LibraryRoom { seats, reports } = self;
        (seats, Rows::of(reports))
    }
}
