//! The text of a moment, kept for the messages that are sent at the same one.

ghost use Rattle.std.specs.Prelude.{◌≡◌};
ghost use Rattle.resend_plan.specs.Wire.{stamp};

use fix_fields::stamp_text;
use gate_io::LAST_MOMENT;
use std::marker::Model;

/// The UTCTimestamp of the moment that was asked for last, so that it isn't made again for each message
/// of a turn. Contracts see its text.
#[derive(Debug, Drop)]
pub struct KeptStamp {
    at: u64,
    text: [u8; 21],
}

impl Model for KeptStamp {
    ghost use Rattle.std.specs.Prelude.{◌≡◌, ℕ, List};
    ghost use Rattle.resend_plan.specs.Wire.{stamp};

    ghost Value = { List ℕ };

    ghost view = { λ k. k.text };

    ghost invariant = { λ k. k.text ≡ stamp k.at };
}

impl KeptStamp {
    /// At first it has the text of the moment 0.
    pub fn new() -> KeptStamp
        ensures { result ≡ stamp 0 }
    {
        KeptStamp {
            at: 0,
            text: text_at(0),
        }
    }

    /// The text of a moment.
    pub(crate) fn at(&mut self, at: u64) -> [u8; 21]
        ensures { result ≡ stamp at }
    {
        if self.at != at {
            self.text = text_at(at);
            self.at = at;
        }
        self.text
    }
}

#[tactic(auto, unfolding(crate::specs::Wire::stamp))]
fn text_at(at: u64) -> [u8; 21]
    ensures { result ≡ stamp at }
{
    stamp_text(at.min(LAST_MOMENT))
}
