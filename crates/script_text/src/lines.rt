//! What a line of a script is, before it is put to the others.

use crate::steps::Step;
use engine_config::DialTo;
use session_core::Names;

/// What a line says.
#[derive(Debug, Drop)]
pub(crate) enum Line {
    /// Nothing: it is empty, or a comment.
    Blank,
    /// Something of the configuration.
    Config(Setting),
    Step(Step),
}

/// What a line of the configuration sets.
#[derive(Debug, Drop)]
pub(crate) enum Setting {
    /// The next session, and to where it dials, if it does.
    Session(Names, Option<DialTo>),
    Libraries(u8),
    Connections(u32),
    Dials(u32),
    Lane(u8),
    Leases(u32),
    Sends(u32),
    Asks(u32),
    Timeout(u64),
    Hold(u64),
}

/// The first word of a line, by what the line is about.
#[derive(Clone, Copy, Debug)]
pub(crate) enum Opening {
    Configures(ConfigWord),
    Replays(EventWord),
    Library,
}

/// The first word of a line of the configuration.
#[derive(Clone, Copy, Debug)]
pub(crate) enum ConfigWord {
    Session,
    Dial,
    Libraries,
    Connections,
    Dials,
    Limit,
}

/// The second word of an `option` line.
#[derive(Clone, Copy, Debug)]
pub(crate) enum LimitWord {
    Lane,
    Leases,
    Sends,
    Asks,
    Timeout,
    Hold,
}

/// The first word of a line of `replay`.
#[derive(Clone, Copy, Debug)]
pub(crate) enum EventWord {
    At,
    Connect,
    Take,
    Bytes,
    Frame,
    Finish,
    FailRead,
    FailWrite,
    Block,
    Unblock,
    Turn,
}

/// The third word of a `lib` line.
#[derive(Clone, Copy, Debug)]
pub(crate) enum LibWord {
    Request,
    Poll,
    Send,
    Release,
    Beat,
    Hand,
    Answer,
    Read,
}
