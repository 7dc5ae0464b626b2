//! A wire that also dials: connections to counterparties that listen.

ghost use Rattle.std.specs.Prelude.{◌≡◌, ◌+◌, ℕ, List};
ghost use Rattle.gate_io.specs.Wire.{DoorGoesOn, LinkGoesOn, OthersStay, Dials, DialsAsPlanned};

use crate::wires::{FIRST_DIALLED, Wire};

/// What came of a dial.
#[derive(Clone, Copy, Debug, PartialEq, Eq)]
pub enum Dialled {
    /// A connection, under `FIRST_DIALLED` and on top of it the number of those that were dialled
    /// before it.
    New(u32),
    /// The dial failed.
    Failed,
}

/// A wire that also calls counterparties up.
pub trait Dial: Wire {
    ghost use Rattle.gate_io.specs.declared.dials.Dialled.{Dialled};

    /// What a dial gives, for a wire that fixes it: the wire before, the address, the answer, the
    /// wire after.
    ghost dial_gives: { Self → List ℕ → Dialled → Self → Type 0 } = { λ _ _ _ _. Unit {0} };

    /// Calls up an address, an IP address or host name with a port.
    fn dial(&mut self, address: &str) -> Dialled
        ensures dials { Dials (Self.door self.old) (Self.door self.new) (Self.link self.new) result }
        ensures exact { dial_gives self.old address.now result self.new }
        ensures planned { DialsAsPlanned (Self.door self.old) (Self.door self.new) (Self.link self.old) (Self.link self.new) result }
        ensures door_goes_on { DoorGoesOn (Self.door self.old) (Self.door self.new) }
        ensures goes_on { LinkGoesOn (Self.link self.old (FIRST_DIALLED + (Self.door self.old).dialled)) (Self.link self.new (FIRST_DIALLED + (Self.door self.old).dialled)) }
        ensures others_stay { OthersStay (Self.link self.old) (Self.link self.new) (FIRST_DIALLED + (Self.door self.old).dialled) };
}
