//! Each line is read as it is written.

use crate::checks::same;
use fix_fields::stamp_text;
use gate_io::LAST_MOMENT;
use script_text::{LibStep, Script, Step, push_printed, read_script};
use std::alloc::Global;
use std::test::Fail;

/// Puts what a library does behind `out` as it stands in a script.
fn push_act(out: &mut Vec<u8>, act: &LibStep, alloc: Global) -> Result<(), Fail> {
    let text = match act {
        LibStep::Request { s, from } => format!(in alloc; "request {s} {from}"),
        LibStep::Poll => format!(in alloc; "poll"),
        LibStep::Send { s, .. } => format!(in alloc; "send {s} "),
        LibStep::Release { s } => format!(in alloc; "release {s}"),
        LibStep::Beat => format!(in alloc; "beat"),
        LibStep::Hand { s, heir } => format!(in alloc; "hand {s} {heir}"),
        LibStep::Answer => format!(in alloc; "answer"),
        LibStep::Read { count } => format!(in alloc; "read {count}"),
    }?;
    out.extend_from_slice(text.as_bytes())?;
    if let LibStep::Send { body, .. } = act {
        push_printed(out, body.as_slice())?;
    }
    Ok(())
}

/// Puts a step behind `out` as it stands in a script.
fn push_step(out: &mut Vec<u8>, step: &Step, alloc: Global) -> Result<(), Fail> {
    let text = match step {
        Step::At { .. } => format!(in alloc; "at "),
        Step::Connect => format!(in alloc; "connect"),
        Step::Take => format!(in alloc; "take"),
        Step::Bytes { c, .. } => format!(in alloc; "bytes {c} "),
        Step::Frame { c, .. } => format!(in alloc; "frame {c} "),
        Step::Finish { c } => format!(in alloc; "finish {c}"),
        Step::FailRead { c } => format!(in alloc; "failread {c}"),
        Step::FailWrite { c, after } => format!(in alloc; "failwrite {c} {after}"),
        Step::Block { c, after } => format!(in alloc; "block {c} {after}"),
        Step::Unblock { c } => format!(in alloc; "unblock {c}"),
        Step::Turn => format!(in alloc; "turn"),
        Step::Lib { library, .. } => format!(in alloc; "lib {library} "),
    }?;
    out.extend_from_slice(text.as_bytes())?;
    match step {
        Step::At { moment } => out.extend_from_slice(&stamp_text((*moment).min(LAST_MOMENT)))?,
        Step::Bytes { bytes, .. } => push_printed(out, bytes.as_slice())?,
        Step::Frame { body, .. } => push_printed(out, body.as_slice())?,
        Step::Lib { act, .. } => push_act(out, act, alloc)?,
        _ => {}
    }
    out.push(b'\n')?;
    Ok(())
}

/// The steps as they stand in a script.
fn steps_text(alloc: Global, script: &Script) -> Result<Vec<u8>, Fail> {
    let mut out = Vec::new(alloc);
    for step in script.steps.as_slice() {
        push_step(&mut out, step, alloc)?;
    }
    Ok(out)
}

#[test]
fn each_line_of_replay_is_read_as_it_is_written(rt: HostRuntime) -> Result<(), Fail> {
    let steps =
        "at 20260105-09:30:00.000\nconnect\nconnect\nbytes 1  x |\\7c\\5c\\00\\ff \nbytes 0 \n\
        frame 0 35=A|49=BUYER|56=GATE|34=1|52=20260105-09:30:00.000|98=0|108=30|\n\
        take\nbytes 1024 y\nfailread 1024\ntake\nfinish 1025\n\
        finish 0\nfailread 1\nfailwrite 0 18446744073709551615\nblock 1 7\nunblock 1\nturn\n\
        lib 1 request 65535 18446744073709551615\nlib 2 poll\nlib 1 send 0 35=8|37=O1|\nlib 1 send 1 \n\
        lib 2 release 3\nlib 16 beat\nlib 1 hand 0 255\nlib 1 hand 0 0\n";
    let mut text = Vec::from_slice(rt.alloc(), b"# all lines of replay\n\nlibraries 16\n")?;
    text.extend_from_slice(steps.as_bytes())?;
    let script = read_script(rt.alloc(), &text, false)?;
    same(
        &rt,
        &steps_text(rt.alloc(), &script)?.as_slice(),
        &steps.as_bytes(),
    );
    let lines = script.step_lines.as_slice();
    same(&rt, &lines.first().copied(), &Some(4));
    same(&rt, &lines.last().copied(), &Some(28));
    Ok(())
}

#[test]
fn each_line_of_serve_is_read_as_it_is_written(rt: HostRuntime) -> Result<(), Fail> {
    let steps = "lib 1 request 0 0\nlib 1 answer\nlib 1 read 0\nlib 2 poll\nlib 2 hand 7 1\n";
    let mut text = Vec::from_slice(rt.alloc(), b"connections 1024\ndials 1024\nlibraries 2\n")?;
    text.extend_from_slice(steps.as_bytes())?;
    let script = read_script(rt.alloc(), &text, true)?;
    same(
        &rt,
        &(script.config.connections, script.config.dials),
        &(1_024, 1_024),
    );
    same(
        &rt,
        &steps_text(rt.alloc(), &script)?.as_slice(),
        &steps.as_bytes(),
    );
    Ok(())
}

#[test]
fn the_last_line_may_lack_its_end(rt: HostRuntime) -> Result<(), Fail> {
    for (text, count) in [("", 0), ("turn", 1), ("turn\n", 1), ("turn\nturn", 2)] {
        let script = read_script(rt.alloc(), text.as_bytes(), false)?;
        same(&rt, &script.steps.as_slice().len(), &count);
    }
    Ok(())
}
