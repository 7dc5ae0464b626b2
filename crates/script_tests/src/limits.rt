//! Scripts at their limits, and one beyond.

use crate::answers::{error_of, fault};
use crate::checks::same;
use script_text::{LONGEST_SCRIPT, ScriptKind, read_script};
use std::alloc::Global;
use std::test::Fail;

#[test]
fn the_longest_script_and_one_byte_more(rt: HostRuntime) -> Result<(), Fail> {
    let alloc = rt.alloc();
    let mut text = vec![in alloc; b'\n'; LONGEST_SCRIPT]?;
    let script = read_script(alloc, &text, false)?;
    same(&rt, &script.steps.as_slice().len(), &0);
    text.push(b'\r')?;
    same(
        &rt,
        &error_of(&rt, &text, false),
        &fault(0, ScriptKind::TooLong),
    );
    Ok(())
}

/// The script `connect` and a frame with a body of so many bytes.
fn frame_script(alloc: Global, length: usize) -> Result<Vec<u8>, Fail> {
    let mut text = Vec::from_slice(alloc, b"connect\nframe 0 35=D|")?;
    for _ in 5..length {
        text.push(b'|')?;
    }
    Ok(text)
}

#[test]
fn the_longest_frame_and_one_byte_more(rt: HostRuntime) -> Result<(), Fail> {
    // `8=FIX.4.4|9=65511|`, the body, and `10=ccc|` are 65,536 bytes.
    let script = read_script(rt.alloc(), &frame_script(rt.alloc(), 65_511)?, false)?;
    same(&rt, &script.steps.as_slice().len(), &2);
    let longer = frame_script(rt.alloc(), 65_512)?;
    same(
        &rt,
        &error_of(&rt, &longer, false),
        &fault(2, ScriptKind::BadText),
    );
    Ok(())
}

/// Of even places a session that accepts, and of odd ones a session that dials.
fn session_line(alloc: Global, i: u32) -> Result<String, Fail> {
    if i % 2 == 0 {
        Ok(format!(in alloc; "session GATE P{i}\n")?)
    } else {
        Ok(format!(in alloc; "dial GATE P{i} hub:1 30 1000\n")?)
    }
}

/// The lines of as many sessions as there may be.
fn most_sessions(alloc: Global) -> Result<Vec<u8>, Fail> {
    let mut text = Vec::new(alloc);
    for i in 0..64 {
        text.extend_from_slice(session_line(alloc, i)?.as_bytes())?;
    }
    Ok(text)
}

#[test]
fn connections_at_their_limit(rt: HostRuntime) -> Result<(), Fail> {
    let alloc = rt.alloc();
    let mut text = most_sessions(alloc)?;
    for _ in 0..1_024 {
        text.extend_from_slice(b"connect\n")?;
    }
    let script = read_script(alloc, &text, false)?;
    same(&rt, &script.config.names.as_slice().len(), &64);
    same(&rt, &script.steps.as_slice().len(), &1_024);
    text.extend_from_slice(b"finish 1023\nconnect\n")?;
    let second = fault(1_090, ScriptKind::OutOfRange);
    same(&rt, &error_of(&rt, &text, false), &second);
    Ok(())
}

#[test]
fn sessions_at_their_limit(rt: HostRuntime) -> Result<(), Fail> {
    let most = most_sessions(rt.alloc())?;
    let one_more = fault(65, ScriptKind::OutOfRange);
    for more in [
        b"session GATE Q\n".as_slice(),
        b"dial GATE Q hub:1 30 1000\n",
    ] {
        let mut text = Vec::from_slice(rt.alloc(), &most)?;
        text.extend_from_slice(more)?;
        same(&rt, &error_of(&rt, &text, false), &one_more);
    }
    Ok(())
}
