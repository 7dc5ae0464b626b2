//! The names of a header as they are written, kept for the messages of the same session.

ghost use Rattle.std.specs.Prelude.{◌≡◌, [], IsTrue, OnErr, OnOk};
ghost use Rattle.resend_plan.specs.Wire.{parties};

use crate::item::Names2;
use fix_fields::put_tagged;
use gate_io::NoMemory;
use std::alloc::Global;
use std::marker::Model;

/// SenderCompID (49) and TargetCompID (56) as they are written, and the tag of MsgSeqNum (34) behind
/// them, of the names that were asked for last: a connection writes under the same names always. Contracts
/// see that text, which is empty where there is none.
#[derive(Debug, Drop)]
pub struct KeptNames {
    us: Vec<u8>,
    them: Vec<u8>,
    text: Vec<u8>,
}

impl Model for KeptNames {
    ghost use Rattle.std.specs.Prelude.{◌≡◌, ◌⊎◌, ℕ, List, []};
    ghost use Rattle.resend_plan.specs.Wire.{parties};

    ghost Value = { List ℕ };

    ghost view = { λ k. k.text.items };

    ghost invariant = { λ k. (k.text.items ≡ []) ⊎ (k.text.items ≡ parties (record { us = k.us.items; them = k.them.items })) };
}

impl KeptNames {
    /// At first it has none, and takes no memory.
    pub fn new(alloc: Global) -> KeptNames
        ensures { result ≡ [] }
    {
        KeptNames {
            us: Vec::new(alloc),
            them: Vec::new(alloc),
            text: Vec::new(alloc),
        }
    }

    /// It has the text of these names from now on.
    pub(crate) fn keep(&mut self, names: &Names2) -> Result<(), NoMemory>
        ensures { OnOk result (self.new ≡ parties names.now) }
    {
        if self.is_of(names) {
            return Ok(());
        }
        self.make(names)
    }

    pub(crate) fn text(&self) -> &[u8]
        ensures { result.now ≡ self.now }
    {
        self.text.as_slice()
    }

    /// Whether it has the text of these names.
    fn is_of(&self, names: &Names2) -> bool
        ensures { IsTrue result → self.now ≡ parties names.now }
    {
        !self.text.is_empty()
            && self.us.as_slice() == names.us.as_slice()
            && self.them.as_slice() == names.them.as_slice()
    }

    fn make(&mut self, names: &Names2) -> Result<(), NoMemory>
        ensures { OnOk result (self.new ≡ parties names.now) }
    {
        self.text.clear();
        self.us.clear();
        self.them.clear();
        self.us.extend_from_slice(names.us.as_slice())?;
        self.them.extend_from_slice(names.them.as_slice())?;
        put_parties(&mut self.text, names)
    }
}

/// The text of these names in an empty text. Without memory it stays empty.
fn put_parties(text: &mut Vec<u8>, names: &Names2) -> Result<(), NoMemory>
    requires { text.old.items ≡ [] }
    ensures ok { OnOk result (text.new.items ≡ parties names.now) }
    ensures err { OnErr result (text.new.items ≡ []) }
{
    let made = push_parties(text, names);
    if made.is_err() {
        text.clear();
    }
    made
}

/// The same, but that without memory it may have a part of it.
fn push_parties(text: &mut Vec<u8>, names: &Names2) -> Result<(), NoMemory>
    requires { text.old.items ≡ [] }
    ensures { OnOk result (text.new.items ≡ parties names.now) }
{
    put_tagged(text, b"49", names.us.as_slice())?;
    put_tagged(text, b"56", names.them.as_slice())?;
    text.extend_from_slice(b"34=")?;
    Ok(())
}
