//! How far the Logons of a bound connection have come.

/// How far the Logons of a connection that stands have come.
#[derive(Clone, Copy, Debug, PartialEq, Eq)]
pub(crate) enum Phase {
    Off,
    /// The session dialled, and its own Logon with this HeartBtInt isn't answered yet.
    Asked { heart: u32 },
    /// A Logon was answered, with this HeartBtInt, in seconds.
    On { heart: u32 },
}
