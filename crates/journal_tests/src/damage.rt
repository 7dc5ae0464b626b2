//! Files of which one byte was changed: what is recovered is what the format says for these bytes.

use crate::checks::{holds, same_at};
use crate::files::two_batches;
use crate::reader::{Answer, read};
use crate::recovering::{Recovery, recovered_over};
use crate::rows::{MOMENT, Row, bind, one_batch, plain};
use std::alloc::{AllocError, Global};
use std::process::Abort;
use std::test::Fail;

/// The rows of a session that a library has, hands on and gets refused.
fn leased(alloc: Global) -> Result<Vec<u8>, AllocError> {
    let sent = Row {
        at: MOMENT,
        body: b"35=8\x0137=GO\x01",
        ..plain(8, [1, 3, 1, 1, 0])
    };
    let test = Row {
        at: MOMENT,
        body: b"35=1\x01112=2\x01",
        ..plain(2, [2, 0, 0, 0, 0])
    };
    let plan = Row {
        at: MOMENT,
        ..plain(4, [1, 0, 0, 0, 0])
    };
    let rows = [
        bind(1),
        plain(6, [3, 1, 1, 0, 0]),
        sent,
        test,
        plan,
        plain(7, [4, 1, 1, 3, 1]),
        plain(9, [1, 3, 1, 2, 0]),
        plain(11, [1, MOMENT, 0, 0, 0]),
        plain(12, [1, 0, 0, 0, 0]),
    ];
    one_batch(alloc, &rows)
}

/// How a byte is changed: each bit, and some of them together.
const CHANGES: [u8; 10] = [1, 2, 4, 8, 16, 32, 64, 128, 3, 255];

/// Changes the byte at a place, and compares what is recovered with what the plain reader says.
/// Whether it is damaged.
fn compare(
    rt: &impl Abort,
    alloc: Global,
    file: &[u8],
    place: usize,
    by: u8,
) -> Result<bool, Fail> {
    let mut changed = file.to_vec(alloc)?;
    if let Some(byte) = changed.get_mut(place) {
        *byte ^= by;
    }
    let plainly = read(alloc, &changed, 2, 3)?;
    let got = recovered_over(alloc, changed, 2, 3)?;
    same_at(rt, &got, &Recovery::Read(plainly), &(place, by));
    Ok(matches!(plainly, Answer::Damaged(_)))
}

/// Changes each byte in turn. How often the file is damaged then.
fn damages(rt: &impl Abort, alloc: Global, file: &[u8]) -> Result<u64, Fail> {
    let mut damages = 0u64;
    for place in 0..file.len() {
        for by in CHANGES {
            if compare(rt, alloc, file, place, by)? {
                damages = damages.saturating_add(1);
            }
        }
    }
    Ok(damages)
}

#[test]
fn each_changed_byte_of_two_batches_is_answered_as_the_format_says(
    rt: HostRuntime,
) -> Result<(), Fail> {
    let file = two_batches(rt.alloc(), [1, 1, 0])?;
    let damages = damages(&rt, rt.alloc(), &file)?;
    holds(&rt, 1_000 < damages && damages < 4_390, &damages);
    Ok(())
}

#[test]
fn each_changed_byte_of_a_leased_session_is_answered_as_the_format_says(
    rt: HostRuntime,
) -> Result<(), Fail> {
    let file = leased(rt.alloc())?;
    let damages = damages(&rt, rt.alloc(), &file)?;
    holds(&rt, 1_000 < damages && damages < 5_000, &damages);
    Ok(())
}
