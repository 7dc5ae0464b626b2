//! The gate at which libraries wait beside their bells.

ghost use Rattle.std.specs.Prelude.{true};

use crate::bells::Bells;
use gate_io::{Gate, Lack};
use std::rt;
use std::sync::Wait;

/// The gate that lets everyone pass, and at which a library that finds nothing to do sleeps until the engine has done
/// something for it.
pub struct BellGate<'a, R: Wait + rt::Clock> {
    rt: &'a R,
    bells: &'a Bells,
}

impl<'a, R: Wait + rt::Clock> BellGate<'a, R> {
    /// The gate of these bells.
    pub fn new(rt: &'a R, bells: &'a Bells) -> BellGate<'a, R> {
        BellGate { rt, bells }
    }
}

impl<'a, R: Wait + rt::Clock> Drop for BellGate<'a, R> {
    fn drop(self) {
        let BellGate { rt: _, bells: _ } = self;
    }
}

impl<'a, R: Wait + rt::Clock> Gate for BellGate<'a, R> {
    ghost open_wide = { λ _. true };

    fn pass(&self, _lib: u32, _turn: u64) -> bool {
        true
    }

    fn begin(&self, silence: u64) {
        self.bells.begin(silence);
    }

    fn acted(&self, lib: u32) {
        self.bells.acted(self.rt, lib);
    }

    fn wait(&self, lib: u32, lack: Lack) {
        self.bells.wait(self.rt, lib, lack);
    }

    fn turned(&self, lib: u32, notices: u64) {
        self.bells.turned(lib, notices);
    }

    fn end(&self) {
        self.bells.end();
    }
}
