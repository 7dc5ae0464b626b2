//! A counterparty takes nothing, and asks again and again for all that it was sent.

use crate::reports::left_by_text;
use anyhow::{Context, Result};
use row_text::same;
use session_core::Cause;
use std::alloc::Global;
use std::fmt::Write;

const STAMP: &str = "20260105-09:30:00.000";

/// How many reports it was sent. Each of its requests is answered with as many items.
const REPORTS: u32 = 1_024;

/// How many sends a lane has room for between two turns.
const LANE: u32 = 16;

/// How many requests a turn reads at once.
const REQUESTS: u32 = 40;

/// BUYER logs on, and library 1 gets the session.
fn put_beginning(text: &mut String) -> Result<()> {
    text.push_str("session GATE BUYER\nlibraries 1\nat 20260105-09:30:00.000\nconnect\n")?;
    writeln!(
        text,
        "frame 0 35=A|49=BUYER|56=GATE|34=1|52={STAMP}|98=0|108=30|"
    )?;
    text.push_str("turn\nlib 1 request 0 0\nturn\nlib 1 poll\n")?;
    Ok(())
}

/// All reports are sent and written.
fn put_reports(text: &mut String) -> Result<()> {
    for report in 1..=REPORTS {
        writeln!(text, "lib 1 send 0 35=8|37=O{report}|")?;
        if report % LANE == 0 {
            text.push_str("turn\n")?;
        }
    }
    Ok(())
}

/// The message of this number asks for all of them.
fn put_request(text: &mut String, number: u32) -> Result<()> {
    writeln!(
        text,
        "frame 0 35=2|49=BUYER|56=GATE|34={number}|52={STAMP}|7=2|16=0|"
    )?;
    if number % REQUESTS == 0 {
        text.push_str("turn\n")?;
    }
    Ok(())
}

/// The script in which the connection blocks, and so many requests come.
fn script_of(alloc: Global, requests: u32) -> Result<String> {
    let mut text = String::new(alloc);
    put_beginning(&mut text)?;
    put_reports(&mut text)?;
    text.push_str("block 0 0\n")?;
    for before in 0..requests {
        put_request(&mut text, before.saturating_add(2))?;
    }
    text.push_str("turn\nturn\n")?;
    Ok(text)
}

/// Why the connection ended then.
fn cause_behind(alloc: Global, requests: u32) -> Result<Option<Cause>> {
    let text = script_of(alloc, requests)?;
    let left = left_by_text(alloc, text.as_bytes())?;
    let connection = left.engine.connections.as_slice().first();
    Ok(connection.context("a connection")?.cause)
}

pub(crate) fn a_connection_ends_where_too_many_items_wait(alloc: Global) -> Result<()> {
    // 1,048,576 items may wait.
    let waiting = 1_025 * 1_024;
    let rows = [
        (1_024, None),
        (1_025, Some(Cause::SlowConsumer { waiting })),
    ];
    for (requests, cause) in rows {
        let found = cause_behind(alloc, requests)?;
        same("cause", &found, &cause).context(format_args!("{requests} requests"))?;
    }
    Ok(())
}
