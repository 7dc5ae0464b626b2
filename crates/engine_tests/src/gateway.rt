//! The engine with its wire and its clock.

ghost use Rattle.std.specs.Prelude.{◌≡◌};

use crate::tapped_wire::TappedWire;
use engine_loop::{Engine, Turn};
use gate_io::StepClock;
use lease_core::Record;

/// The engine, what it is handed from outside, and what it told.
#[derive(Drop)]
pub(crate) struct Gateway {
    pub(crate) engine: Engine,
    pub(crate) wire: TappedWire,
    pub(crate) clock: StepClock,
    pub(crate) turn: Option<Turn>,
    /// The records that were handed out and not looked at yet.
    pub(crate) records: Vec<Record>,
}

impl Gateway {
    /// The engine, without what it was handed.
    pub(crate) fn into_engine(self) -> Engine
        ensures { result ≡ self.engine }
    {
        let Gateway { engine, .. } = self;
        engine
    }
}
