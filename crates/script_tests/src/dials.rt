//! Sessions that dial.

use crate::answers::{error_of, fault};
use crate::checks::{holds, same, same_at};
use script_text::{DialTo, ScriptKind, read_script};
use std::test::Fail;

#[test]
fn each_fault_of_a_dial(rt: HostRuntime) {
    let cases: [(&str, ScriptKind); 27] = [
        ("dial GATE HUB hub:1 30 1000\r", ScriptKind::BadByte),
        ("dialled GATE HUB hub:1 30 1000", ScriptKind::UnknownWord),
        ("Dial GATE HUB hub:1 30 1000", ScriptKind::UnknownWord),
        (" dial GATE HUB hub:1 30 1000", ScriptKind::UnknownWord),
        ("dial", ScriptKind::BadShape),
        ("dial GATE HUB hub:1 30", ScriptKind::BadShape),
        ("dial GATE HUB hub:1 30 1000 1", ScriptKind::BadShape),
        ("dial GATE HUB hub:1 30 1000 ", ScriptKind::BadShape),
        ("dial GATE HUB  30 1000", ScriptKind::BadShape),
        ("dial GATE HUB hub:1 30s 1000", ScriptKind::BadNumber),
        ("dial GATE HUB hub:1 30 -1", ScriptKind::BadNumber),
        ("dial GATE HU=B hub:1 30 1000", ScriptKind::BadText),
        ("dial GATE HUB hub=1 30 1000", ScriptKind::BadText),
        ("dial GATE HUB hub\\7c 30 1000", ScriptKind::BadText),
        ("dial GATE HUB hub:1 0 1000", ScriptKind::OutOfRange),
        ("dial GATE HUB hub:1 86401 1000", ScriptKind::OutOfRange),
        ("dial GATE HUB hub:1 30 0", ScriptKind::OutOfRange),
        ("dial GATE HUB hub:1 30 3600001", ScriptKind::OutOfRange),
        // Of two faults on the line the least.
        ("dial GATE HUB hub:1 30 1000\t 1", ScriptKind::BadByte),
        ("dial GATE HUB hub:1 30s", ScriptKind::BadShape),
        ("dial GATE HU=B hub:1 30 x", ScriptKind::BadNumber),
        ("dial GA|TE HUB hub:1 x 0", ScriptKind::BadNumber),
        ("dial GATE HUB hub=1 0 1000", ScriptKind::BadText),
        ("dial GATE HUB hub:1 0 x", ScriptKind::BadNumber),
        ("dials", ScriptKind::BadShape),
        ("dials 1x", ScriptKind::BadNumber),
        ("dials 1025", ScriptKind::OutOfRange),
    ];
    for (text, kind) in cases {
        for serving in [false, true] {
            same_at(
                &rt,
                &error_of(&rt, text.as_bytes(), serving),
                &fault(1, kind),
                &text,
            );
        }
    }
}

#[test]
fn a_dial_is_one_session_more(rt: HostRuntime) {
    let cases: [(&str, u32, ScriptKind); 7] = [
        (
            "session A B\ndial A B hub:1 30 1000\n",
            2,
            ScriptKind::OutOfRange,
        ),
        (
            "dial A B hub:1 30 1000\nsession A B\n",
            2,
            ScriptKind::OutOfRange,
        ),
        (
            "dial A B hub:1 30 1000\ndial A B hub:2 30 1000\n",
            2,
            ScriptKind::OutOfRange,
        ),
        (
            "session A B\ndial A B hub=1 30 1000\n",
            2,
            ScriptKind::BadText,
        ),
        ("turn\ndial A B hub:1 30 1000\n", 2, ScriptKind::Misplaced),
        ("take\nsession A B\n", 2, ScriptKind::Misplaced),
        (
            "session A B\nturn\ndial A B hub:1 30 1000\n",
            3,
            ScriptKind::OutOfRange,
        ),
    ];
    for (text, line, kind) in cases {
        same_at(
            &rt,
            &error_of(&rt, text.as_bytes(), false),
            &fault(line, kind),
            &text,
        );
    }
}

/// Whether a session dials to this address, with these times.
fn dials(to: &Option<DialTo>, address: &str, heart: u32, wait: u64) -> bool {
    match to {
        Some(to) => to.address.as_str() == address && to.heart == heart && to.wait == wait,
        None => false,
    }
}

#[test]
fn a_dial_is_read_as_it_is_written(rt: HostRuntime) -> Result<(), Fail> {
    let text = b"dial GATE HUB hub:1 1 1\nsession GATE BUYER\n\
        dial A23456789012345678901234567890b2 B23456789012345678901234567890b2 \
        C23456789012345678901234567890b2 86400 3600000\n";
    let script = read_script(rt.alloc(), text, false)?;
    let [first, second, third] = script.config.dialled.as_slice() else {
        holds(&rt, false, &"three sessions");
        return Ok(());
    };
    assert!(rt; dials(first, "hub:1", 1, 1));
    assert!(rt; second.is_none());
    let address = "C23456789012345678901234567890b2";
    assert!(rt; dials(third, address, 86_400, 3_600_000));
    same(&rt, &script.session_lines.as_slice(), &[1, 2, 3].as_slice());
    let [names, _, _] = script.config.names.as_slice() else {
        holds(&rt, false, &"three sessions");
        return Ok(());
    };
    same(
        &rt,
        &(names.us.as_slice(), names.them.as_slice()),
        &(b"GATE".as_slice(), b"HUB".as_slice()),
    );
    Ok(())
}

#[test]
fn names_and_addresses_have_32_bytes_at_most(rt: HostRuntime) {
    let texts = [
        "dial A23456789012345678901234567890b23 HUB hub:1 30 1000",
        "dial GATE B23456789012345678901234567890b23 hub:1 30 1000",
        "dial GATE HUB C23456789012345678901234567890b23 30 1000",
    ];
    for text in texts {
        same_at(
            &rt,
            &error_of(&rt, text.as_bytes(), false),
            &fault(1, ScriptKind::BadText),
            &text,
        );
    }
}

#[test]
fn dials_are_for_serve_alone(rt: HostRuntime) -> Result<(), Fail> {
    for (text, dials) in [("", 0), ("dials 0", 0), ("dials 7\ndials 1024", 1_024)] {
        let script = read_script(rt.alloc(), text.as_bytes(), true)?;
        same(&rt, &script.config.dials, &dials);
        same(&rt, &script.config.connections, &0);
    }
    for text in ["dials 0", "dials 1024"] {
        same(
            &rt,
            &error_of(&rt, text.as_bytes(), false),
            &fault(1, ScriptKind::Misplaced),
        );
    }
    let script = read_script(rt.alloc(), b"connect\ntake\nconnect\n", false)?;
    same(
        &rt,
        &(script.config.dials, script.config.connections),
        &(1_024, 2),
    );
    Ok(())
}
