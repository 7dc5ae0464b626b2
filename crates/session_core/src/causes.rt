//! The causes by which a connection ends.

/// Why a connection ended.
#[derive(Clone, Copy, Debug, PartialEq, Eq)]
pub enum Cause {
    /// The counterparty's input is read to its end.
    End,
    /// A read failed.
    ReadFault,
    /// A write failed.
    WriteFault,
    /// The first message can't be read or is no Logon.
    NotLogon,
    /// No session has this counterparty and this gateway (fields 49 and 56).
    NoSuchSession,
    /// The session is bound to that connection.
    Duplicate { connection: u32 },
    /// A field of the Logon isn't as it must be: EncryptMethod (98), HeartBtInt (108),
    /// ResetSeqNumFlag (141), or MsgSeqNum (34), which is 1 where the numbers begin again.
    BadLogon { tag: u32 },
    /// MsgSeqNum (34) isn't a number from 1 to 999,999,999.
    NoNumber,
    /// MsgSeqNum is lower than the expected one.
    LowNumber { expected: u32, got: u32 },
    /// SenderCompID (49) or TargetCompID (56) isn't the session's.
    CompId { tag: u32 },
    /// Silence since that moment, in milliseconds since 1970-01-01. On a session whose Logon
    /// was answered it is that of the last message that could be read, behind which a
    /// TestRequest waited for HeartBtInt in vain; on one that dialled, that of its own Logon,
    /// which had no answer in time; and on an accepted connection without a session, that of
    /// its acceptance, behind which no Logon bound it in time.
    Silent { since: u64 },
    /// The session logged out.
    LoggedOut,
    /// So many items wait to be written.
    SlowConsumer { waiting: u64 },
}
