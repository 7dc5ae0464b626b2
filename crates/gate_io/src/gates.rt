//! The gate: what a library asks before each call of its plan, and where the threads of a run wait for each other.

ghost use Rattle.std.specs.Prelude.{◌≡◌, Bool, true};

/// What a library lacks whose call was in vain.
#[derive(Clone, Copy, Debug, PartialEq, Eq)]
pub enum Lack {
    /// A notice, or a published count that has risen.
    News,
    /// Room in its ring of commands, or in a lane.
    Room,
}

/// What a library asks before each call of its plan, so that a test can hold it back; and what the threads of a run
/// tell on the way, so that one that has nothing to do may sleep until another has something for it. Each of these
/// calls may do nothing: a library that isn't kept waiting makes its call again at once.
pub trait Gate {
    /// Whether the gate lets everyone pass.
    ghost open_wide: { Self → Bool };

    /// Whether this library may make its next call. `turn` is how often it asked before, also where
    /// it wasn't let pass.
    fn pass(&self, lib: u32, turn: u64) -> bool
        ensures { open_wide self.now ≡ true → result ≡ true };

    /// A run begins, in which a library that makes no call for so many milliseconds counts as silent. The engine's
    /// thread tells it, before its first turn.
    fn begin(&self, _silence: u64) {}

    /// This library made a call that wasn't in vain, so the engine may have something to do. The library's thread
    /// tells it.
    fn acted(&self, _lib: u32) {}

    /// This library made a call in vain, and is about to make it again: its thread may wait here, until the engine
    /// has done something for it, and no longer than it may be silent.
    fn wait(&self, _lib: u32, _lack: Lack) {}

    /// The engine made a turn, and has told this library so many notices in all. The engine's thread tells it.
    fn turned(&self, _lib: u32, _notices: u64) {}

    /// The engine makes no further turn. The engine's thread tells it, and nobody is to wait for it any more.
    fn end(&self) {}
}

/// The gate that lets everyone pass, and at which nobody waits.
#[derive(Clone, Copy, Debug, PartialEq, Eq)]
pub struct OpenGate {}

impl OpenGate {
    pub fn new() -> OpenGate
        ensures { result ≡ record {} }
    {
        OpenGate {}
    }
}

impl Gate for OpenGate {
    ghost open_wide = { λ _. true };

    fn pass(&self, _lib: u32, _turn: u64) -> bool {
        true
    }
}
