//! Which connections a line may name.

use crate::answers::{error_of, fault};
use crate::checks::{same, same_at};
use script_text::{ScriptKind, read_script};
use std::alloc::Global;
use std::test::Fail;

/// So many `connect` lines, so many `take` lines, and a line that names connection C.
fn text_of(alloc: Global, connects: u32, takes: u32, c: u32) -> Result<Vec<u8>, Fail> {
    let mut text = Vec::new(alloc);
    for _ in 0..connects {
        text.extend_from_slice(b"connect\n")?;
    }
    for _ in 0..takes {
        text.extend_from_slice(b"take\n")?;
    }
    text.extend_from_slice(format!(in alloc; "bytes {c} x\n")?.as_bytes())?;
    Ok(text)
}

#[test]
fn dialled_connections_are_numbered_from_1024(rt: HostRuntime) -> Result<(), Fail> {
    let made = [
        (1, 0, 0, 2),
        (1_024, 0, 1_023, 1_025),
        (0, 1, 1_024, 2),
        (1, 2, 1_024, 4),
        (1_024, 2, 1_025, 1_027),
        (0, 1_024, 2_047, 1_025),
    ];
    for (connects, takes, c, line) in made {
        let text = text_of(rt.alloc(), connects, takes, c)?;
        let script = read_script(rt.alloc(), &text, false)?;
        same(
            &rt,
            &script.step_lines.as_slice().last().copied(),
            &Some(line),
        );
    }
    let not_made = [
        (0, 0, 0, 1),
        (0, 2, 0, 3),
        (1_023, 2, 1_023, 1_026),
        (0, 1, 1_023, 2),
        (1_024, 0, 1_024, 1_025),
        (1_024, 0, 1_025, 1_025),
        (2, 1, 1_025, 4),
        (0, 2, 1_026, 3),
        (1_024, 1_024, 2_048, 2_049),
        (0, 0, 4_294_967_295, 1),
    ];
    for (connects, takes, c, line) in not_made {
        let text = text_of(rt.alloc(), connects, takes, c)?;
        same(
            &rt,
            &error_of(&rt, &text, false),
            &fault(line, ScriptKind::OutOfRange),
        );
    }
    Ok(())
}

#[test]
fn each_fault_of_a_take(rt: HostRuntime) -> Result<(), Fail> {
    let cases: [(&str, bool, u32, ScriptKind); 9] = [
        ("take\r", false, 1, ScriptKind::BadByte),
        ("takes", false, 1, ScriptKind::UnknownWord),
        ("take ", false, 1, ScriptKind::BadShape),
        ("take 1024", true, 1, ScriptKind::BadShape),
        ("take", true, 1, ScriptKind::Misplaced),
        // A connection is there behind the line that makes it.
        ("finish 1024\ntake", false, 1, ScriptKind::OutOfRange),
        ("take\nfinish 0", false, 2, ScriptKind::OutOfRange),
        ("take\nfinish 5120", false, 2, ScriptKind::OutOfRange),
        ("take\nfinish 4294968320", false, 2, ScriptKind::OutOfRange),
    ];
    for (text, serving, line, kind) in cases {
        same_at(
            &rt,
            &error_of(&rt, text.as_bytes(), serving),
            &fault(line, kind),
            &text,
        );
    }
    let text = text_of(rt.alloc(), 0, 1_025, 0)?;
    same(
        &rt,
        &error_of(&rt, &text, false),
        &fault(1_025, ScriptKind::OutOfRange),
    );
    Ok(())
}
