//! Each kind of fault, and which of several counts.

use crate::answers::{error_of, fault};
use crate::checks::same_at;
use script_text::ScriptKind;

#[test]
fn each_kind_of_fault(rt: HostRuntime) {
    let cases: [(&str, u32, ScriptKind); 40] = [
        ("turn\r\n", 1, ScriptKind::BadByte),
        ("turn\x7f", 1, ScriptKind::BadByte),
        ("\nturns\n", 2, ScriptKind::UnknownWord),
        (" turn\n", 1, ScriptKind::UnknownWord),
        (" \n", 1, ScriptKind::UnknownWord),
        ("Turn\n", 1, ScriptKind::UnknownWord),
        ("dialed 0\n", 1, ScriptKind::UnknownWord),
        ("libraries 1\nlib 1 take 0\n", 2, ScriptKind::UnknownWord),
        ("libraries 1\nlib 1 \n", 2, ScriptKind::UnknownWord),
        ("libraries 1\nlib  \n", 2, ScriptKind::UnknownWord),
        ("option \n", 1, ScriptKind::UnknownWord),
        ("option futures 1\n", 1, ScriptKind::UnknownWord),
        ("libraries\n", 1, ScriptKind::BadShape),
        ("libraries 1 2\n", 1, ScriptKind::BadShape),
        ("turn \n", 1, ScriptKind::BadShape),
        ("connect\nfinish  0\n", 2, ScriptKind::BadShape),
        ("connect\nbytes 0\n", 2, ScriptKind::BadShape),
        ("connect\nframe 0\n", 2, ScriptKind::BadShape),
        ("libraries 1\nlib 1\n", 2, ScriptKind::BadShape),
        ("lib\n", 1, ScriptKind::BadShape),
        ("option\n", 1, ScriptKind::BadShape),
        ("session GATE\n", 1, ScriptKind::BadShape),
        ("libraries x\n", 1, ScriptKind::BadNumber),
        ("libraries 18446744073709551616\n", 1, ScriptKind::BadNumber),
        (
            "libraries 000000000000000000001\n",
            1,
            ScriptKind::BadNumber,
        ),
        ("at 20260105-09:30:60\n", 1, ScriptKind::BadNumber),
        ("connect\nbytes 0 \\7C\n", 2, ScriptKind::BadText),
        ("connect\nbytes 0 \\7\n", 2, ScriptKind::BadText),
        ("connect\nframe 0 \n", 2, ScriptKind::BadText),
        ("connect\nframe 0 35=D\n", 2, ScriptKind::BadText),
        ("session GATE A=B\n", 1, ScriptKind::BadText),
        ("session GATE A\\7c\n", 1, ScriptKind::BadText),
        ("libraries 17\n", 1, ScriptKind::OutOfRange),
        (
            "libraries 18446744073709551615\n",
            1,
            ScriptKind::OutOfRange,
        ),
        ("option hold 3600001\n", 1, ScriptKind::OutOfRange),
        ("finish 0\n", 1, ScriptKind::OutOfRange),
        ("libraries 1\nlib 2 poll\n", 2, ScriptKind::OutOfRange),
        ("session A B\nsession A B\n", 2, ScriptKind::OutOfRange),
        ("turn\nlibraries 1\n", 2, ScriptKind::Misplaced),
        (
            "at 20260105-09:30:00\nat 20260105-09:29:59.999\n",
            2,
            ScriptKind::Backward,
        ),
    ];
    for (text, line, kind) in cases {
        same_at(
            &rt,
            &error_of(&rt, text.as_bytes(), false),
            &fault(line, kind),
            &text,
        );
    }
}

#[test]
fn of_two_faults_the_least_and_the_first(rt: HostRuntime) {
    let cases: [(&str, bool, u32, ScriptKind); 18] = [
        // On one line.
        ("turns\r\n", false, 1, ScriptKind::BadByte),
        ("libraries x y\n", false, 1, ScriptKind::BadShape),
        (
            "libraries 1\nlib x fly\n",
            false,
            2,
            ScriptKind::UnknownWord,
        ),
        ("libraries 1\nlib  fly\n", false, 2, ScriptKind::UnknownWord),
        ("bytes x \\zz\n", false, 1, ScriptKind::BadNumber),
        ("frame 0 35=D\n", false, 1, ScriptKind::BadText),
        (
            "libraries 1\nlib 9 send 70000 \\\n",
            false,
            2,
            ScriptKind::BadText,
        ),
        ("lib 9 request 70000 x\n", false, 1, ScriptKind::BadNumber),
        (
            "libraries 1\nlib 9 answer\n",
            false,
            2,
            ScriptKind::OutOfRange,
        ),
        ("connections 1025\n", false, 1, ScriptKind::OutOfRange),
        (
            "session A B\nturn\nsession A B\n",
            false,
            3,
            ScriptKind::OutOfRange,
        ),
        ("finish 0\n", true, 1, ScriptKind::OutOfRange),
        ("turn\nlibraries 17\n", false, 2, ScriptKind::OutOfRange),
        // On two lines.
        (
            "lib 1 poll\nlibraries 1\r\n",
            false,
            1,
            ScriptKind::OutOfRange,
        ),
        ("turn 1\nturns\n", false, 1, ScriptKind::BadShape),
        (
            "# \r\nat 20260105\nturns\r\n",
            false,
            2,
            ScriptKind::BadNumber,
        ),
        (
            "turn\n\nconnections 1\nlib x\n",
            false,
            3,
            ScriptKind::Misplaced,
        ),
        ("\n\nturns", false, 3, ScriptKind::UnknownWord),
    ];
    for (text, serving, line, kind) in cases {
        same_at(
            &rt,
            &error_of(&rt, text.as_bytes(), serving),
            &fault(line, kind),
            &text,
        );
    }
}

#[test]
fn lines_of_the_other_command_are_misplaced(rt: HostRuntime) {
    let cases: [(&str, bool, u32); 6] = [
        ("connections 1\n", false, 1),
        ("libraries 1\nlib 1 answer\n", false, 2),
        ("libraries 1\nlib 1 read 0\n", false, 2),
        ("at 20260105-09:30:00\n", true, 1),
        ("connect\n", true, 1),
        ("turn\n", true, 1),
    ];
    for (text, serving, line) in cases {
        same_at(
            &rt,
            &error_of(&rt, text.as_bytes(), serving),
            &fault(line, ScriptKind::Misplaced),
            &text,
        );
    }
}
