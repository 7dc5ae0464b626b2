//! Texts that are kept for the messages of a connection.

ghost use Rattle.std.specs.Prelude.{◌≡◌, []};
ghost use Rattle.resend_plan.specs.Wire.{stamp};

use crate::names::KeptNames;
use crate::stamps::KeptStamp;
use std::alloc::Global;
use std::marker::Model;

/// What the messages of a connection mostly have in common, as it is written: the names, and the moment of
/// a turn. Contracts see both texts.
#[derive(Debug)]
pub struct KeptTexts {
    pub(crate) names: KeptNames,
    pub(crate) stamp: KeptStamp,
}

impl Drop for KeptTexts {
    fn drop(self) {
        let KeptTexts { names: _, stamp: _ } = self;
    }
}

impl Model for KeptTexts {
    ghost use Rattle.resend_plan.specs.Wire.{Kept};

    ghost Value = { Kept };

    ghost view = { λ k. record { parties = k.names; stamp = k.stamp } };
}

impl KeptTexts {
    /// At first it has no names, and the text of the moment 0. It takes no memory.
    pub fn new(alloc: Global) -> KeptTexts
        ensures { result ≡ record { parties = []; stamp = stamp 0 } }
    {
        KeptTexts {
            names: KeptNames::new(alloc),
            stamp: KeptStamp::new(),
        }
    }
}
