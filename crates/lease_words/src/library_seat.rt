//! A library's seat.
use crate::item::Item;
use crate::rows::LibraryRow;
use crate::view::View;
use atomic_table::Seat;
use std::fmt;
use std::marker::Model;

/// A library's side of a table: whoever has it sees lease words and published counts, sends by
/// the leases that it holds, gives sessions back, and beats. It may move to another thread.
#[derive(Drop)]
pub struct LibrarySeat {
    pub(crate) seat: Seat<Option<Item>, View>,
    pub(crate) number: u8,
    pub(crate) beats: u64,
    pub(crate) rows: Vec<LibraryRow>,
}

impl Model for LibrarySeat {
    ghost use Rattle.lease_words.specs.Views.{LibraryView, first_library};

    ghost Value = { LibraryView };

    ghost use Rattle.lease_words.specs.Tokens.{IsLibrary};

    ghost view = { λ s. record { table = record { shape = s.seat.me.0.shape; table = s.seat.table_id }; knows = first_library s.seat.me.0.libraries } };

    ghost invariant = { λ s. IsLibrary s.seat s.number s.beats s.rows.items };
}

impl LibrarySeat {
    ghost use Rattle.std.specs.Prelude.{◌≡◌, ◌≤◌};

    /// The number of the library whose seat it is, which is one of its table's, from 1.
    pub fn number(&self) -> u8
        ensures number { result ≡ self.now.knows.number }
        ensures range { (1 ≤ result) × (result ≤ self.now.table.shape.libraries) }
    {
        self.number
    }
}

impl fmt::Debug for LibrarySeat {
    fn fmt<W: fmt::Write>(&self, f: &mut fmt::Formatter<W>) -> fmt::Result {
        f.pad("LibrarySeat { .. }")
    }
}
