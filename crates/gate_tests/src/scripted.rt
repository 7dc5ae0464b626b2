//! Failures and blocks as they are scripted.

use crate::checks::same_at;
use crate::open_wire::Step::{
    Block, FailRead, FailWrite, Finish, Give, Read, Reserve, Unblock, Write,
};
use crate::open_wire::{OpenWire, Step};
use gate_io::WireWrote::Bytes;
use gate_io::{WireGot, WireWrote};
use std::alloc::Global;
use std::test::Fail;

const FAILED: WireWrote = WireWrote::Failed;

const BLOCKED: WireWrote = WireWrote::Blocked;

/// Writes to a connection that has room for all of them.
const WRITES: [(&str, &[Step]); 19] = [
    (
        "a failure at once is met once",
        &[FailWrite(0), Write("abcd", FAILED), Write("abcd", Bytes(4))],
    ),
    (
        "a failure in the middle of a piece",
        &[
            FailWrite(3),
            Write("abcde", Bytes(3)),
            Write("ab", FAILED),
            Write("ab", Bytes(2)),
        ],
    ),
    (
        "a failure behind a piece",
        &[
            FailWrite(5),
            Write("abcde", Bytes(5)),
            Write("a", FAILED),
            Write("a", Bytes(1)),
        ],
    ),
    (
        "a block at once stays",
        &[
            Block(0),
            Write("abcd", BLOCKED),
            Write("abcd", BLOCKED),
            Unblock,
            Write("abcd", Bytes(4)),
        ],
    ),
    (
        "a block in the middle of a piece",
        &[
            Block(3),
            Write("abcde", Bytes(3)),
            Write("ab", BLOCKED),
            Write("ab", BLOCKED),
            Unblock,
            Write("ab", Bytes(2)),
        ],
    ),
    (
        "both at one place: the failure, and then the block",
        &[
            FailWrite(2),
            Block(2),
            Write("abcde", Bytes(2)),
            Write("abc", FAILED),
            Write("abc", BLOCKED),
            Unblock,
            Write("abc", Bytes(3)),
        ],
    ),
    (
        "both at one place, said the other way round",
        &[
            Block(2),
            FailWrite(2),
            Write("abcde", Bytes(2)),
            Write("abc", FAILED),
            Write("abc", BLOCKED),
            Unblock,
            Write("abc", Bytes(3)),
        ],
    ),
    (
        "both at once",
        &[
            Block(0),
            FailWrite(0),
            Write("abc", FAILED),
            Write("abc", BLOCKED),
            Unblock,
            Write("abc", Bytes(3)),
        ],
    ),
    (
        "a block before a failure",
        &[
            FailWrite(3),
            Block(1),
            Write("abcde", Bytes(1)),
            Write("abcd", BLOCKED),
            Unblock,
            Write("abcd", Bytes(2)),
            Write("ab", FAILED),
            Write("ab", Bytes(2)),
        ],
    ),
    (
        "a failure before a block",
        &[
            Block(3),
            FailWrite(1),
            Write("abcde", Bytes(1)),
            Write("abcd", FAILED),
            Write("abcd", Bytes(2)),
            Write("ab", BLOCKED),
            Unblock,
            Write("ab", Bytes(2)),
        ],
    ),
    (
        "a later failure replaces an earlier",
        &[
            FailWrite(1),
            FailWrite(4),
            Write("abcde", Bytes(4)),
            Write("a", FAILED),
            Write("a", Bytes(1)),
        ],
    ),
    (
        "also by a nearer one",
        &[
            FailWrite(4),
            FailWrite(1),
            Write("abcde", Bytes(1)),
            Write("abcd", FAILED),
            Write("abcd", Bytes(4)),
        ],
    ),
    (
        "a later block replaces an earlier",
        &[
            Block(1),
            Block(4),
            Write("abcde", Bytes(4)),
            Write("a", BLOCKED),
            Unblock,
            Write("a", Bytes(1)),
        ],
    ),
    (
        "also one that is met",
        &[
            Block(0),
            Write("abcde", BLOCKED),
            Block(2),
            Write("abcde", Bytes(2)),
            Write("abc", BLOCKED),
            Unblock,
            Write("abc", Bytes(3)),
        ],
    ),
    (
        "what was written before doesn't count",
        &[
            Write("abc", Bytes(3)),
            FailWrite(2),
            Write("abcd", Bytes(2)),
            Write("ab", FAILED),
            Write("ab", Bytes(2)),
        ],
    ),
    (
        "nor for a block",
        &[
            Write("abc", Bytes(3)),
            Block(2),
            Write("abcd", Bytes(2)),
            Write("ab", BLOCKED),
            Unblock,
            Write("ab", Bytes(2)),
        ],
    ),
    (
        "a block that is ended before it is reached",
        &[Block(3), Unblock, Write("abcde", Bytes(5))],
    ),
    ("no block to end", &[Unblock, Write("abcde", Bytes(5))]),
    (
        "the end of a block leaves the failure",
        &[
            Block(2),
            FailWrite(2),
            Unblock,
            Write("abcde", Bytes(2)),
            Write("abc", FAILED),
            Write("abc", Bytes(3)),
        ],
    ),
];

/// Writes to a connection that has the room that it is given.
const ROOMS: [(&str, &[Step]); 4] = [
    (
        "a write takes what there is room for, and then fails",
        &[
            Reserve(3),
            Write("abcde", Bytes(3)),
            Write("d", FAILED),
            Write("d", FAILED),
        ],
    ),
    (
        "with no room a block isn't met",
        &[
            Reserve(2),
            Block(2),
            Write("abcde", Bytes(2)),
            Write("c", FAILED),
            Reserve(1),
            Write("c", BLOCKED),
        ],
    ),
    (
        "a want of room isn't the scripted failure",
        &[
            Reserve(2),
            FailWrite(3),
            Write("abcde", Bytes(2)),
            Write("c", FAILED),
            Reserve(9),
            Write("cde", Bytes(1)),
            Write("d", FAILED),
            Write("d", Bytes(1)),
        ],
    ),
    (
        "room is kept where less is asked for",
        &[
            Reserve(5),
            Reserve(1),
            Write("abcde", Bytes(5)),
            Write("f", FAILED),
        ],
    ),
];

/// Reads into four bytes.
const READS: [(&str, &[Step]); 6] = [
    (
        "nothing waits, then bytes, then the end",
        &[
            Read(WireGot::Blocked),
            Give("in the"),
            Read(WireGot::Bytes(4)),
            Read(WireGot::Bytes(2)),
            Read(WireGot::Blocked),
            Finish,
            Read(WireGot::End),
        ],
    ),
    (
        "a failure takes nothing and is met once",
        &[
            Give("in the"),
            FailRead,
            Read(WireGot::Failed),
            Read(WireGot::Bytes(4)),
            Read(WireGot::Bytes(2)),
        ],
    ),
    (
        "a failure between two reads",
        &[
            Give("in the"),
            Read(WireGot::Bytes(4)),
            FailRead,
            Read(WireGot::Failed),
            Read(WireGot::Bytes(2)),
        ],
    ),
    (
        "two of them before a read are one",
        &[
            FailRead,
            FailRead,
            Read(WireGot::Failed),
            Read(WireGot::Blocked),
        ],
    ),
    (
        "a failure before the end",
        &[Finish, FailRead, Read(WireGot::Failed), Read(WireGot::End)],
    ),
    (
        "bytes behind the end are dropped",
        &[
            Give("in"),
            Finish,
            Give("out"),
            Read(WireGot::Bytes(2)),
            Read(WireGot::End),
        ],
    ),
];

/// The first of these steps that isn't answered as it must be, made on a connection with so much
/// room.
fn first_other(
    alloc: Global,
    dialled: bool,
    room: usize,
    steps: &[Step],
) -> Result<Option<usize>, Fail> {
    let made = if dialled {
        OpenWire::dialled(alloc)?
    } else {
        OpenWire::accepted(alloc)?
    };
    let Some(mut wire) = made else {
        return Ok(Some(0));
    };
    wire.keeps_to(alloc, Reserve(room))?;
    for (at, step) in steps.iter().enumerate() {
        if !wire.keeps_to(alloc, *step)? {
            return Ok(Some(at));
        }
    }
    Ok(None)
}

#[test]
fn writes(rt: HostRuntime) -> Result<(), Fail> {
    for (name, steps) in WRITES {
        same_at(
            &rt,
            &first_other(rt.alloc(), false, 100, steps)?,
            &None,
            &name,
        );
        same_at(
            &rt,
            &first_other(rt.alloc(), true, 100, steps)?,
            &None,
            &name,
        );
    }
    Ok(())
}

#[test]
fn rooms(rt: HostRuntime) -> Result<(), Fail> {
    for (name, steps) in ROOMS {
        same_at(
            &rt,
            &first_other(rt.alloc(), false, 0, steps)?,
            &None,
            &name,
        );
        same_at(&rt, &first_other(rt.alloc(), true, 0, steps)?, &None, &name);
    }
    Ok(())
}

#[test]
fn reads(rt: HostRuntime) -> Result<(), Fail> {
    for (name, steps) in READS {
        same_at(
            &rt,
            &first_other(rt.alloc(), false, 0, steps)?,
            &None,
            &name,
        );
        same_at(&rt, &first_other(rt.alloc(), true, 0, steps)?, &None, &name);
    }
    Ok(())
}
