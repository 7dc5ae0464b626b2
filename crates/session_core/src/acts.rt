//! What the session machine answers: acts, in order, and the cause of an end.

ghost use Rattle.std.specs.Prelude.{◌≡◌};
ghost use Rattle.session_core.specs.Admin.{is_session_entry};

use crate::causes::Cause;
use gate_io::{Bytes, Rows};

/// A session message that is sent.
#[derive(Debug, Drop)]
pub enum Admin {
    /// HeartBtInt (108) in seconds, and whether the numbers of both sides begin again at 1.
    Logon {
        heart: u32,
        reset: bool,
    },
    /// With the TestReqID (112) of the TestRequest that it answers.
    Heartbeat {
        test: Option<Bytes>,
    },
    /// Its TestReqID is its own number.
    TestRequest,
    /// Asks for the messages from `begin` to `last` again.
    ResendRequest {
        begin: u32,
        last: u32,
    },
    /// Session-level reject of the message with the number `seq` and the type `kind`, for its field
    /// `tag`, by SessionRejectReason (373).
    Reject {
        seq: u32,
        tag: u32,
        kind: Bytes,
        reason: u8,
    },
    Logout {
        text: Option<Bytes>,
    },
}

/// Whether a session message that stands in the outbound log is passed over by a gap fill as it is
/// asked for again: each one but a Reject, which is sent again as an application's message is.
pub fn is_session_entry(admin: &Admin) -> bool
    ensures { result ≡ is_session_entry admin.now }
{
    match admin {
        Admin::Reject { .. } => false,
        Admin::Logon { .. } | Admin::Heartbeat { .. } | Admin::TestRequest => true,
        Admin::ResendRequest { .. } | Admin::Logout { .. } => true,
    }
}

/// What follows from a message or from the clock.
#[derive(Debug, Drop)]
pub enum Act {
    /// An application message is carried out: its body goes to the inbound log.
    Accept(Bytes),
    /// A session message is sent with the next number.
    Send(Admin),
    /// A ResendRequest with these numbers as BeginSeqNo (7) and EndSeqNo (16) is answered.
    Resend { begin: u64, last: u64 },
    /// The next number that is sent is 1.
    Reset,
}

/// What a call asks for: the acts in order, and the cause by which the connection ends behind them.
#[derive(Debug, Drop)]
pub struct Effects {
    pub acts: Rows<Act>,
    pub end: Option<Cause>,
}
