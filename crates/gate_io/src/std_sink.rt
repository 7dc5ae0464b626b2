//! A sink over the standard output.

ghost use Rattle.std.specs.Prelude.{◌≡◌, None};

use crate::sinks::{Sink, Wrote};
use std::io;
use std::io::Write;
use std::marker::Model;

/// Standard output as a sink. Nothing is known of its bytes.
#[derive(Drop)]
pub struct StdSink<R: Print> {
    rt: R,
    faults: u64,
}

impl<R: Print> Model for StdSink<R> {
    ghost use Rattle.std.specs.Prelude.{ℕ};

    ghost Value = { ℕ };

    ghost view = { λ s. s.faults };
}

impl<R: Print> StdSink<R> {
    /// A sink of which no write failed yet. Contracts see the number of those that did.
    pub fn new(rt: R) -> StdSink<R>
        ensures { result ≡ 0 }
    {
        StdSink { rt, faults: 0 }
    }
}

impl<R: Print> Sink for StdSink<R> {
    ghost held = { λ _. None };

    ghost faults = { λ s. s };

    fn write(&mut self, piece: &[u8]) -> Wrote {
        match io::writer(&self.rt).write(piece) {
            Ok(n) if n > 0 => Wrote::Bytes(n),
            _ => {
                self.faults = self.faults.saturating_add(1);
                Wrote::Failed
            }
        }
    }
}
