//! The table of leases as its seats see it.
use crate::item::Item;
use crate::rule::OneOwner;
use crate::view::{Shape, View};
use atomic_table::Table;
use std::alloc::Global;
use std::fmt;
use std::marker::Model;

/// The leases, lanes, published counts and beats that an engine and its libraries share. `new` and
/// `resume` alone take memory. Every other call takes `&self` and the seat of whoever makes it,
/// `meet` and `settle` those of both sides, and `libraries` none. None waits.
#[derive(Drop)]
pub struct Leases {
    pub(crate) table: Table<Option<Item>, View, Shape, OneOwner, Global>,
    pub(crate) sessions: usize,
    pub(crate) libraries: usize,
    pub(crate) depth: u64,
    pub(crate) sends: u32,
}

impl Model for Leases {
    ghost use Rattle.lease_words.specs.Views.{TableRef};

    ghost Value = { TableRef };

    ghost use Rattle.lease_words.specs.Tokens.{IsTable};

    ghost view = { λ t. record { shape = t.table.shared.key; table = t.table.shared.table_id } };

    ghost invariant = { λ t. IsTable t.table.shared.key t.table.shared.table_id t.sessions t.libraries t.depth t.sends };
}

impl fmt::Debug for Leases {
    fn fmt<W: fmt::Write>(&self, f: &mut fmt::Formatter<W>) -> fmt::Result {
        f.pad("Leases { .. }")
    }
}
