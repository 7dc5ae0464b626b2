//! Orders through one session and one connection in memory, in one thread: their bytes are taken in and
//! cut, what they ask for is carried out, a report is queued for each, and the texts are made and
//! written. It checks that each order is logged and each report written. With two arguments it does so
//! with as many orders as the first says, behind as many others as the second says, and prints how many
//! nanoseconds it took.
//!
//! Stands on `switchboard`, `session_book` and `connection_core`, which are measured, `book_desk` (when a word may
//! be shown), `session_core` (routing, names, causes), `lease_core` (words and replies), `resend_plan` and
//! `fix_frame` (which bodies are fit), `fix_fields` (fields), `gate_io` (bytes, want of memory) and `anyhow`
//! (errors). Told in docs/sessions.md.
//!
//! Read `texts` (what both sides say), `trouble` (why no answer comes) and `market` (an order's steps).
#![tactic(auto)]

ghost use Rattle.std.specs.Prelude.{OnOk};
ghost use Rattle.session_speed.specs.Market.{IsOpen};

mod market;
mod texts;
mod trouble;

use anyhow::{Context, bail};
use market::{Answerer, open, take_session};
use std::alloc::Global;
use std::env;
use std::time::{Clock, Instant};
use switchboard::Switchboard;
use texts::{LOGON, ORDER, REPORT, put_message};
use trouble::Trouble;

const FEW: u64 = 2_000;

/// How many bytes come at once.
const READ: usize = 4_096;

/// So many orders, each in a frame of its own, of which the first has this number.
fn orders(alloc: Global, first: u64, count: u64) -> Result<Vec<u8>, anyhow::Error> {
    let mut input = Vec::new(alloc);
    for k in 0..count {
        put_message(alloc, &mut input, "D", first.saturating_add(k), ORDER)?;
    }
    Ok(input)
}

/// All of the input comes, and what it asks for is carried out, answered and written.
fn bring(
    alloc: Global,
    board: &mut Switchboard,
    answerer: &mut Answerer,
    input: &[u8],
) -> Result<(), Trouble>
    requires market { IsOpen board.old }
    ensures market { OnOk result (IsOpen board.new) }
{
    let mut rest = input;
    for _read in 0..input.len() {
        if rest.is_empty() {
            break;
        }
        let (piece, behind) = rest.split_at(READ.min(rest.len()));
        answerer.bring(alloc, board, piece)?;
        rest = behind;
    }
    Ok(())
}

/// How many nanoseconds it takes to carry out and to answer so many orders, behind so many others.
fn answer<R: Clock>(rt: &R, alloc: Global, count: u64, before: u64) -> Result<u128, anyhow::Error> {
    let mut board = open(alloc)?;
    let mut answerer = Answerer::new(alloc)?;
    answer_on(rt, alloc, &mut board, &mut answerer, count, before)
}

// The same, on a board of which nothing was heard.
fn answer_on<R: Clock>(
    rt: &R,
    alloc: Global,
    board: &mut Switchboard,
    answerer: &mut Answerer,
    count: u64,
    before: u64,
) -> Result<u128, anyhow::Error>
    requires market { IsOpen board.old }
{
    let mut logon = Vec::new(alloc);
    put_message(alloc, &mut logon, "A", 1, LOGON)?;
    bring(alloc, board, answerer, &logon)?;
    take_session(board)?;
    let earlier = orders(alloc, 2, before)?;
    bring(alloc, board, answerer, &earlier)?;
    let input = orders(alloc, before.saturating_add(2), count)?;
    let start = Instant::now(rt)?;
    bring(alloc, board, answerer, &input)?;
    let time = start.elapsed(rt)?;
    let all = before.saturating_add(count);
    let book = board.session(0);
    if book.inbound().len() != all || book.outbound().len() != all.saturating_add(1) {
        bail!("some orders were not carried out or not answered");
    }
    if board.connection(0).waiting_items() > 0 || answerer.written < all {
        bail!("some reports were not written");
    }
    Ok(time.as_nanos())
}

/// How many orders are asked for, and behind how many others, where the words say so.
fn asked(rt: &HostRuntime) -> Result<Option<(u64, u64)>, anyhow::Error> {
    let mut words = env::args(rt)?;
    let _program = words.next();
    let Some(count) = words.next() else {
        return Ok(None);
    };
    let before = words.next().context("say behind how many")?;
    Ok(Some((count.as_str().parse()?, before.as_str().parse()?)))
}

fn main(rt: HostRuntime) -> Result<(), anyhow::Error> {
    if let Some((count, before)) = asked(&rt)? {
        let time = answer(&rt, rt.alloc(), count, before)?;
        println!(rt; "{time}")?;
        return Ok(());
    }
    answer(&rt, rt.alloc(), FEW, FEW)?;
    println!(rt; "{FEW} orders were answered behind {FEW}")?;
    Ok(())
}
