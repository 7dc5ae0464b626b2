//! The rule of a table. It is for proofs alone.
use crate::item::Item;
use crate::view::{Shape, View};
use atomic_table::TableRule;

/// The rule, for each shape. The first seat is the engine's and all libraries'.
pub struct OneOwner;

impl TableRule<Option<Item>, View, Shape> for OneOwner {
    ghost use Rattle.lease_words.specs.Rule.{Ruled};
    ghost use Rattle.lease_words.specs.Views.{engine_view, new_engine, new_libraries};

    ghost holds = { λ k. Ruled k };

    ghost first = { λ k. engine_view k (new_engine k) (new_libraries k 1 k.libraries) };
}
