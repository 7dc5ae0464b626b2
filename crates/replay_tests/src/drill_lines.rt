//! The lines of a drill, as a plain program writes them.

ghost use Rattle.std.specs.Prelude.{◌<◌, ◌^◌};

use anyhow::Result;
use std::alloc::Global;
use std::fmt::Write;

const STAMP: &str = "20260105-09:30:00.000";

/// The text of the drill of so many rounds.
pub(crate) fn drill_lines(alloc: Global, rounds: u16) -> Result<String> {
    let mut text = String::new(alloc);
    put_beginning(&mut text)?;
    for round in 0..rounds {
        put_round(&mut text, u32::from(round))?;
    }
    put_end(&mut text)?;
    Ok(text)
}

/// Up to the turns in which the counterparties are logged on.
fn put_beginning(text: &mut String) -> Result<()> {
    put_sessions(text)?;
    writeln!(text, "libraries 4\nat {STAMP}")?;
    put_times(text, "connect", 8)?;
    put_logons(text)?;
    put_times(text, "turn", 8)
}

fn put_sessions(text: &mut String) -> Result<()> {
    for session in 0..8u8 {
        writeln!(text, "session GATE P{session}")?;
    }
    Ok(())
}

fn put_logons(text: &mut String) -> Result<()> {
    for them in 0..8u8 {
        writeln!(
            text,
            "frame {them} 35=A|49=P{them}|56=GATE|34=1|52={STAMP}|98=0|108=30|"
        )?;
    }
    Ok(())
}

fn put_round(text: &mut String, round: u32) -> Result<()>
    requires { round < 2 ^ 16 }
{
    put_requests(text, round)?;
    put_times(text, "turn", 1)?;
    put_orders(text, round)?;
    put_times(text, "turn", 1)?;
    put_works(text, round)?;
    put_times(text, "turn", 1)
}

fn put_requests(text: &mut String, round: u32) -> Result<()>
    requires { round < 2 ^ 16 }
{
    let first = round / 2;
    for library in 1..5u32 {
        let session = (round + library) % 8;
        writeln!(text, "lib {library} request {session} {first}")?;
    }
    Ok(())
}

/// The orders of a round. Behind the Logon, that of round 0 is message 2.
fn put_orders(text: &mut String, round: u32) -> Result<()>
    requires { round < 2 ^ 16 }
{
    let number = round + 2;
    for them in 0..8u8 {
        writeln!(
            text,
            "frame {them} 35=D|49=P{them}|56=GATE|34={number}|52={STAMP}|11={round}|"
        )?;
    }
    Ok(())
}

fn put_works(text: &mut String, round: u32) -> Result<()>
    requires { round < 2 ^ 16 }
{
    for library in 1..5u32 {
        put_work(text, round, library, (round + library) % 8)?;
    }
    Ok(())
}

/// What a library does in a round with a session: behind the grant it reads the later half of the messages and the
/// one of the round.
fn put_work(text: &mut String, round: u32, library: u32, session: u32) -> Result<()>
    requires { round < 2 ^ 16 }
{
    for _poll in 0..round.div_ceil(2) + 2 {
        writeln!(text, "lib {library} poll")?;
    }
    writeln!(text, "lib {library} send {session} 35=8|37={round}|")?;
    writeln!(text, "lib {library} release {session}")?;
    Ok(())
}

/// The counterparties end, and the last turn comes.
fn put_end(text: &mut String) -> Result<()> {
    for connection in 0..8u8 {
        writeln!(text, "finish {connection}")?;
    }
    put_times(text, "turn", 1)
}

fn put_times(text: &mut String, line: &str, times: u32) -> Result<()> {
    for _time in 0..times {
        writeln!(text, "{line}")?;
    }
    Ok(())
}
