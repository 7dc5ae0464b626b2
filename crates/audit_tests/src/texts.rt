//! Texts that are cut off, that are long, and that are no reports.

use crate::verdicts::names;
use anyhow::{Context, Result};
use draws::Draw;
use std::alloc::{AllocError, Global};

/// A report of one session, whose inbound message has this body.
fn report_with(alloc: Global, body: &[u8]) -> Result<Vec<u8>, AllocError> {
    let mut text = Vec::new(alloc);
    text.extend_from_slice(b"fixgate report 1\nsession 0 GATE BUYER owner 0 lease 0 in 1 out 0\n")?;
    text.extend_from_slice(b" arrive 0\n holding 0 0 from 0 start 0 end 1 sends 0\n in 0 ")?;
    text.extend_from_slice(body)?;
    text.extend_from_slice(b"\nlibrary 1 reads 0\n poll: nothing\nend\n")?;
    Ok(text)
}

/// How many LF a text has.
fn line_ends(text: &[u8]) -> u32 {
    let mut ends = 0u32;
    for b in text {
        if *b == b'\n' {
            ends = ends.saturating_add(1);
        }
    }
    ends
}

pub(crate) fn a_report_is_right(alloc: Global) -> Result<()> {
    let text = report_with(alloc, b"35=D|11=A1|")?;
    names(alloc, text.as_slice(), 0)
}

pub(crate) fn a_report_that_is_cut_off_has_no_end(alloc: Global) -> Result<()> {
    let text = report_with(alloc, b"35=D|11=A1|")?;
    for length in 0..text.len() {
        let cut = &text[..length];
        let named = names(alloc, cut, line_ends(cut).saturating_add(1));
        named.context(format_args!("{length} bytes"))?;
    }
    Ok(())
}

pub(crate) fn a_line_may_be_long(alloc: Global) -> Result<()> {
    let body = vec![in alloc; b'x'; 1_000_000]?;
    let text = report_with(alloc, body.as_slice())?;
    names(alloc, text.as_slice(), 0)?;
    names(alloc, body.as_slice(), 1)
}

pub(crate) fn a_long_line_may_be_wrong(alloc: Global) -> Result<()> {
    let mut body = vec![in alloc; b'9'; 1_000_000]?;
    body.push(200)?;
    let text = report_with(alloc, body.as_slice())?;
    names(alloc, text.as_slice(), 5)
}

/// Bytes that look random and are the same in each run.
fn noise(alloc: Global, draw: &mut Draw) -> Result<Vec<u8>, AllocError> {
    let mut bytes = Vec::new(alloc);
    for _ in 0..300 {
        bytes.push(draw.byte())?;
    }
    Ok(bytes)
}

/// A report's first line, with bytes behind it.
fn begun(alloc: Global, bytes: &[u8]) -> Result<Vec<u8>, AllocError> {
    let mut text = Vec::from_slice(alloc, b"fixgate report 1\n")?;
    text.extend_from_slice(bytes)?;
    Ok(text)
}

pub(crate) fn bytes_at_random_are_no_report(alloc: Global) -> Result<()> {
    let mut draw = Draw::new(7);
    for _ in 0..200 {
        let bytes = noise(alloc, &mut draw)?;
        names(alloc, bytes.as_slice(), 1)?;
        let text = begun(alloc, bytes.as_slice())?;
        names(alloc, text.as_slice(), 2)?;
    }
    Ok(())
}
