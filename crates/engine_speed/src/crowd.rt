//! A gateway with many sessions, each on a connection of its own, and with libraries that do nothing.

ghost use Rattle.std.specs.Prelude.{◌≡◌, ◌≤◌, ◌<◌, ◌+◌, ℕ, IfOk, OnOk, length};
ghost use Rattle.engine_config.specs.Config.{IsConfig};
ghost use Rattle.engine_speed.specs.Over.{IsOver, IsUntouched};

use crate::gateway::{Gateway, begin};
use crate::texts::{logon, name_of, script};
use engine_config::Config;
use engine_start::LibraryEnds;
use gate_io::{MOST_CONNECTIONS, MemWire};
use library_desk::Shared;
use script_text::{Script, read_script};
use std::alloc::Global;

/// How many libraries there are.
const LIBRARIES: u8 = 16;

/// Room for what is written on a connection.
const ROOM: usize = 4_096;

/// A gateway that made no turn, with so many sessions, whose Logons wait on connections of their own; what it
/// shares with its libraries, and their ends.
pub fn open_crowd(
    alloc: Global,
    sessions: u32,
) -> Result<(Gateway, Shared, Vec<LibraryEnds>), anyhow::Error>
    requires few { sessions ≤ MOST_CONNECTIONS }
    ensures over { IfOk result (λ made. IsOver made.1 made.0.engine made.0.wire) }
{
    let config = config(alloc, sessions)?;
    let wire = wire(alloc, sessions)?;
    Ok(begin(alloc, config, wire)?)
}

/// So many sessions, and the libraries. It is read from a script, so that what holds of scripts holds of it.
fn config(alloc: Global, sessions: u32) -> Result<Config, anyhow::Error>
    ensures { IfOk result IsConfig }
{
    let text = script(alloc, sessions, LIBRARIES)?;
    let Script { config, .. } = read_script(alloc, text.as_bytes(), true)?;
    Ok(config)
}

/// A connection for each of so many sessions.
fn wire(alloc: Global, sessions: u32) -> Result<MemWire, anyhow::Error>
    requires few { sessions ≤ MOST_CONNECTIONS }
    ensures { IfOk result IsUntouched }
{
    let mut wire = MemWire::new(alloc);
    for session in 0..sessions {
        connect(alloc, &mut wire, session)?;
    }
    wire.reserve(alloc, ROOM)?;
    Ok(wire)
}

/// One more connection, with the Logon of this session.
fn connect(alloc: Global, wire: &mut MemWire, session: u32) -> Result<(), anyhow::Error>
    requires room { length wire.old.links < MOST_CONNECTIONS }
    requires untouched { IsUntouched wire.old }
    ensures untouched { OnOk result (IsUntouched wire.new) }
    ensures count { OnOk result (length wire.new.links ≡ length wire.old.links + 1) }
{
    let name = name_of(alloc, session)?;
    let logon = logon(alloc, name.as_str())?;
    let c = wire.connect(alloc)?;
    wire.give(alloc, c, logon.as_slice())?;
    Ok(())
}
