//! The script of a morning: BUYER sends forty orders, which two libraries answer, one behind the other with twenty
//! each; DESK sends a TestRequest; both log out.

ghost use Rattle.std.specs.Prelude.{◌≤◌};

use anyhow::Result;
use std::alloc::Global;
use std::fmt::Write;

/// How many turns the morning has.
pub(crate) const TURNS: u32 = 22;

const STAMP: &str = "20260105-09:30:00.000";

/// How many orders come between two turns.
const FEW: u32 = 5;

/// DESK's TestRequest comes with the orders from this one on.
const TEST_REQUEST: u32 = 11;

/// A read of a connection that fails.
#[derive(Clone, Copy, Debug)]
pub(crate) struct Fault {
    /// The turn in which it is read, from 1.
    pub(crate) turn: u32,
    pub(crate) connection: u32,
}

/// A script as it is written line by line.
#[derive(Drop)]
struct Lines {
    text: String,
    turns: u32,
    fault: Option<Fault>,
}

impl Lines {
    fn put(&mut self, line: &str) -> Result<()> {
        writeln!(self.text, "{line}")?;
        Ok(())
    }

    fn turn(&mut self) -> Result<()> {
        self.turns = self.turns.saturating_add(1);
        if let Some(Fault { turn, connection }) = self.fault
            && turn == self.turns
        {
            writeln!(self.text, "failread {connection}")?;
        }
        self.put("turn")
    }

    /// The message of a counterparty: its type, its number, and what stands behind the header.
    fn frame(&mut self, from: Counterparty, kind: &str, number: u32, rest: &str) -> Result<()> {
        let (c, name) = from;
        writeln!(
            self.text,
            "frame {c} 35={kind}|49={name}|56=GATE|34={number}|52={STAMP}|{rest}"
        )?;
        Ok(())
    }

    /// A library answers the orders that came.
    fn answers(&mut self, library: u32, first: u32) -> Result<()>
        requires { first ≤ 1000 }
    {
        for _ in 0..FEW {
            writeln!(self.text, "lib {library} poll")?;
        }
        for order in first..first + FEW {
            writeln!(self.text, "lib {library} send 0 35=8|37=O{order}|")?;
        }
        self.turn()
    }

    /// Some orders come, from this one on.
    fn orders(&mut self, first: u32) -> Result<()>
        requires { first ≤ 1000 }
    {
        for order in first..first + FEW {
            self.order(order)?;
        }
        Ok(())
    }

    /// Orders are counted from 1. Behind the Logon, order 1 is message 2.
    fn order(&mut self, order: u32) -> Result<()>
        requires { order ≤ 2000 }
    {
        writeln!(
            self.text,
            "frame 0 35=D|49=BUYER|56=GATE|34={}|52={STAMP}|11=A{order}|",
            order + 1
        )?;
        Ok(())
    }
}

/// A connection and the counterparty's name on it.
type Counterparty = (u32, &'static str);

const BUYER: Counterparty = (0, "BUYER");

const DESK: Counterparty = (1, "DESK");

fn log_on(lines: &mut Lines) -> Result<()> {
    lines.put("session GATE BUYER\nsession GATE DESK\nlibraries 2")?;
    lines.put("at 20260105-09:30:00.000\nconnect\nconnect")?;
    lines.frame(BUYER, "A", 1, "98=0|108=30|")?;
    lines.frame(DESK, "A", 1, "98=0|108=30|")?;
    lines.turn()?;
    lines.turn()
}

/// A library asks for BUYER's session, and gets it.
fn request(lines: &mut Lines, library: u32, from: u32) -> Result<()> {
    writeln!(lines.text, "lib {library} request 0 {from}")?;
    lines.turn()?;
    writeln!(lines.text, "lib {library} poll")?;
    Ok(())
}

/// Orders come, and a library answers them.
fn round(lines: &mut Lines, library: u32, first: u32) -> Result<()>
    requires { first ≤ 1000 }
{
    lines.orders(first)?;
    if first == TEST_REQUEST {
        lines.frame(DESK, "1", 2, "112=PING|")?;
    }
    lines.turn()?;
    lines.answers(library, first)
}

/// The morning, with a fault or without.
pub(crate) fn morning(alloc: Global, fault: Option<Fault>) -> Result<String> {
    let mut lines = Lines {
        text: String::new(alloc),
        turns: 0,
        fault,
    };
    log_on(&mut lines)?;
    request(&mut lines, 1, 0)?;
    for first in [1, 6, 11, 16] {
        round(&mut lines, 1, first)?;
    }
    lines.put("lib 1 release 0")?;
    request(&mut lines, 2, 20)?;
    for first in [21, 26, 31, 36] {
        round(&mut lines, 2, first)?;
    }
    lines.put("lib 2 release 0")?;
    lines.turn()?;
    lines.frame(BUYER, "5", 42, "")?;
    lines.frame(DESK, "5", 3, "")?;
    lines.turn()?;
    Ok(lines.text)
}
