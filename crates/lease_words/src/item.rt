//! What a library sends, and how a send is answered.
ghost use Rattle.std.specs.Prelude.{◌≡◌, ◌≤◌, length, None};
ghost use Rattle.fix_fields.specs.Fit.{unfit_at};
ghost use Rattle.fix_fields.specs.declared.limits.TheConstants.{LONGEST_APPLICATION_BODY};

use gate_io::Bytes;
use lease_core::Word;

/// A message on its way from a library to the engine: the lease by which it is sent, and its
/// body, which an application may send and which has at most `LONGEST_APPLICATION_BODY` bytes.
#[derive(Drop)]
pub struct Item {
    pub lease: u32,
    pub body: Bytes,
    ghost fit: { unfit_at body ≡ None },
    ghost short: { length body ≤ LONGEST_APPLICATION_BODY },
}

/// A send that was made: the lease, and the number of the send on that lease, from 1.
#[derive(Clone, Copy, Debug, PartialEq, Eq)]
pub struct Sent {
    pub lease: u32,
    pub ordinal: u32,
}

/// The lease had ended: another word was found than that of the lease.
#[derive(Clone, Copy, Debug, PartialEq, Eq)]
pub struct Lost {
    pub seen: Word,
}

/// Why a send was refused.
#[derive(Clone, Copy, Debug, PartialEq, Eq)]
pub enum SendError {
    /// By the taken count that was loaded, as many items as the lane is deep were sent and not yet
    /// taken.
    LaneFull { committed: u64, taken: u64 },
    /// The lease made as many sends as it can.
    SendsSpent { count: u32 },
    /// The lease had ended: another word was found than that of the lease.
    Lost { seen: Word },
}
