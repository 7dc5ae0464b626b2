//! Checks that a program makes by itself, how it tells them, and the comparisons that they make.

ghost use Rattle.std.specs.Prelude.{◌≡◌, ◌≤◌, ◌<◌, IfOk, IsErr, true};

use anyhow::{Result, bail};
use std::fmt::Debug;
use std::rt::Runtime;

/// Fails where what was found isn't what is wanted, with both.
pub fn same<T: PartialEq + Debug>(what: &str, found: &T, wanted: &T) -> Result<()>
    ensures { IfOk result (λ _. T.eq found.now wanted.now ≡ true) }
{
    if found == wanted {
        return Ok(());
    }
    bail!("{what}: wanted {wanted:?}, found {found:?}")
}

/// Fails where something isn't so.
pub fn holds(what: &str, is_so: bool) -> Result<()>
    ensures { IfOk result (λ _. is_so ≡ true) }
{
    if is_so {
        return Ok(());
    }
    bail!("not so: {what}")
}

/// The checks of a program: how many of them failed.
#[derive(Clone, Copy, Debug)]
pub struct Checks {
    failed: u64,
}

impl Checks {
    pub fn new() -> Checks {
        Checks { failed: 0 }
    }

    /// A check has ended: prints its name, and why it failed if it did.
    pub fn tell(&mut self, rt: &impl Runtime, name: &str, ended: Result<()>) -> Result<()>
        ensures kept { self.old.failed ≤ self.new.failed }
        ensures counted { IfOk result (λ _. IsErr ended → 0 < self.new.failed) }
    {
        match ended {
            Ok(()) => println!(rt; "{name}: as expected")?,
            Err(why) => {
                self.failed = self.failed.saturating_add(1);
                println!(rt; "{name}: {why:#}")?;
            }
        }
        Ok(())
    }

    /// How many failed.
    pub fn failed(&self) -> u64
        ensures { result ≡ self.now.failed }
    {
        self.failed
    }
}
