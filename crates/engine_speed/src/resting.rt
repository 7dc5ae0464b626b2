//! Turns in which connections, sessions and libraries rest.

ghost use Rattle.std.specs.Prelude.{◌≡◌, ◌<◌, ◌≤◌};
ghost use Rattle.engine_speed.specs.Over.{IsOver};

use crate::crowd::open_crowd;
use crate::gateway::{Gateway, open};
use anyhow::bail;
use engine_loop::Engine;
use gate_io::MOST_CONNECTIONS;
use library_desk::Shared;
use session_core::MOST_SESSIONS;
use std::alloc::Global;
use std::time::{Clock, Instant};

const RESTING_TURNS: u64 = 1_000;

/// How many nanoseconds a thousand turns take with one session, one library and so many connections that rest.
pub fn rest<R: Clock>(rt: &R, alloc: Global, connections: u32) -> Result<u128, anyhow::Error>
    requires some { 0 < connections }
    requires few { connections ≤ MOST_CONNECTIONS }
{
    let (mut gateway, shared, _ends) = open(alloc, connections, b"", 0)?;
    time_rest(rt, alloc, &mut gateway, &shared, connections)
}

// How many nanoseconds the resting turns take, once so many connections came.
fn time_rest<R: Clock>(
    rt: &R,
    alloc: Global,
    gateway: &mut Gateway,
    shared: &Shared,
    connections: u32,
) -> Result<u128, anyhow::Error>
    requires over { IsOver shared.now gateway.old.engine gateway.old.wire }
{
    gateway.turns(alloc, shared, u64::from(connections))?;
    let start = Instant::now(rt)?;
    gateway.turns(alloc, shared, RESTING_TURNS)?;
    Ok(start.elapsed(rt)?.as_nanos())
}

/// How many nanoseconds a thousand turns take with so many sessions, each logged on over a connection of its own,
/// and the libraries of a crowd, all of which rest.
pub fn rest_in_crowd<R: Clock>(rt: &R, alloc: Global, sessions: u32) -> Result<u128, anyhow::Error>
    requires few { sessions ≤ MOST_SESSIONS }
{
    let (mut gateway, shared, _ends) = open_crowd(alloc, sessions)?;
    time_crowd(rt, alloc, &mut gateway, &shared, sessions)
}

// How many nanoseconds the resting turns take, once so many sessions were logged on.
fn time_crowd<R: Clock>(
    rt: &R,
    alloc: Global,
    gateway: &mut Gateway,
    shared: &Shared,
    sessions: u32,
) -> Result<u128, anyhow::Error>
    requires few { sessions ≤ MOST_SESSIONS }
    requires over { IsOver shared.now gateway.old.engine gateway.old.wire }
{
    // Each of these turns accepts a connection, and answers its Logon.
    gateway.turns(alloc, shared, u64::from(sessions))?;
    if !are_bound(&gateway.engine, sessions) {
        bail!("some sessions were not logged on");
    }
    let start = Instant::now(rt)?;
    let written = gateway.turns(alloc, shared, RESTING_TURNS)?;
    let time = start.elapsed(rt)?;
    if written > 0 {
        bail!("some sessions did not rest");
    }
    Ok(time.as_nanos())
}

// Whether there are so many sessions, each bound to a connection of its own.
fn are_bound(engine: &Engine, sessions: u32) -> bool
    requires { sessions ≤ MOST_SESSIONS }
{
    if engine.sessions() != sessions as usize {
        return false;
    }
    for session in 0..sessions {
        if engine.bound(session as u16) != Some(session) {
            return false;
        }
    }
    true
}
