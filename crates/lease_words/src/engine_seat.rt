//! The engine's seat.
use crate::item::Item;
use crate::rows::EngineRow;
use crate::view::View;
use atomic_table::Seat;
use std::fmt;
use std::marker::Model;

/// The engine's side of a table: whoever has it grants and takes back sessions, takes what
/// libraries sent, and publishes counts. It may move to another thread.
#[derive(Drop)]
pub struct EngineSeat {
    pub(crate) seat: Seat<Option<Item>, View>,
    pub(crate) rows: Vec<EngineRow>,
}

impl Model for EngineSeat {
    ghost use Rattle.lease_words.specs.Views.{EngineView};

    ghost Value = { EngineView };

    ghost use Rattle.lease_words.specs.Tokens.{IsEngine};

    ghost view = { λ s. record { table = record { shape = s.seat.me.0.shape; table = s.seat.table_id }; knows = s.seat.me.0.knows; settled = s.seat.me.0.libraries } };

    ghost invariant = { λ s. IsEngine s.seat s.rows.items };
}

impl fmt::Debug for EngineSeat {
    fn fmt<W: fmt::Write>(&self, f: &mut fmt::Formatter<W>) -> fmt::Result {
        f.pad("EngineSeat { .. }")
    }
}
