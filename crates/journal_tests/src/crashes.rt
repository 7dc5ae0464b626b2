//! Made journals that are written batch by batch, with a crash at each moment: what is recovered of
//! each image is a prefix, of which no synced batch is missing.

ghost use Rattle.std.specs.Prelude.{◌≤◌, length};
ghost use Rattle.durable_journal.specs.Disk.{bytes_of};

use crate::checks::{holds, same, same_at};
use crate::encoded::text_of;
use crate::images::image_at;
use crate::made::{Batch, LEASES, SESSIONS, count_of, file_of, make, texts_of};
use crate::reader::{Answer, read};
use crate::rows::{arrive, bind, leave, logon, put_row};
use crate::writer::{Writer, records_of};
use draws::Draw;
use durable_journal::{MemDisk, recover};
use std::alloc::{AllocError, Global};
use std::process::Abort;
use std::test::Fail;

/// The steps of a recovery that makes the file: a sync, a write and a sync.
const OPENING: usize = 3;

/// The steps of a batch: a write, a sync, the gate, a sync.
const EACH: usize = 4;

/// The first batches.
fn front(batches: &[Batch], count: usize) -> &[Batch] {
    batches.get(..count).unwrap_or(batches)
}

/// How many batches are kept for sure behind so many steps, and how many may be.
fn kept_behind(moment: usize) -> (usize, usize) {
    let steps = moment.saturating_sub(OPENING);
    let kept = steps / EACH;
    let opened = usize::from(steps % EACH == EACH - 1);
    (kept, kept.saturating_add(opened))
}

/// What is recovered of an image, and compared: the records of the first batches, so many or so many.
fn check_image(
    rt: &impl Abort,
    alloc: Global,
    batches: &[Batch],
    image: Vec<u8>,
    kept: (usize, usize),
) -> Result<(), Fail> {
    let plainly = read(alloc, &image, SESSIONS, LEASES)?;
    let disk = MemDisk::new(alloc, image, 1, 32, Vec::new(alloc))?;
    let Ok((_, found)) = recover(alloc, disk, SESSIONS, LEASES) else {
        return Ok(assert!(rt; false, "{plainly:?} of {kept:?}"));
    };
    same(rt, &plainly, &Answer::Records(found.len()));
    let least = front(batches, kept.0);
    let most = front(batches, kept.1);
    let whole = if found.len() == count_of(least) {
        least
    } else {
        most
    };
    same_at(rt, &found.len(), &count_of(whole), &kept);
    same_at(
        rt,
        &text_of(alloc, &found)?,
        &texts_of(alloc, whole)?,
        &kept,
    );
    Ok(())
}

/// Crashes at each moment, in three images each.
fn crash(
    rt: &impl Abort,
    alloc: Global,
    draw: &mut Draw,
    batches: &[Batch],
    disk: &MemDisk,
) -> Result<(), Fail> {
    let count = disk.steps().0.len();
    for moment in 0..=count {
        for _ in 0..3u32 {
            let image = image_at(alloc, draw, disk, moment)?;
            check_image(rt, alloc, batches, image, kept_behind(moment))?;
        }
    }
    Ok(())
}

/// Writes batches on a disk of no byte, up to its first fault. The disk then.
fn write_all(alloc: Global, batches: &[Batch], disk: MemDisk) -> Result<Option<MemDisk>, Fail>
    requires { length (bytes_of disk.history) ≤ 1 }
{
    let texts = texts_of(alloc, batches)?;
    let Some(records) = records_of(alloc, &texts, SESSIONS, LEASES)? else {
        return Ok(None);
    };
    let mut writer = match Writer::new(alloc, disk, records, SESSIONS, LEASES) {
        Ok(writer) => writer,
        Err(disk) => return Ok(Some(disk)),
    };
    for batch in batches {
        writer = match writer.write(batch.count) {
            Ok(writer) => writer,
            Err(disk) => return Ok(Some(disk)),
        };
    }
    Ok(Some(writer.into_disk()))
}

/// Writes batches on a disk of which a call fails, and crashes at each moment. Whether all were
/// written.
fn write_and_crash(
    rt: &impl Abort,
    alloc: Global,
    draw: &mut Draw,
    batches: &[Batch],
    fails: u64,
) -> Result<bool, Fail> {
    let file = file_of(alloc, batches)?;
    let mut list = Vec::new(alloc);
    list.push(fails)?;
    let room = file.len().saturating_add(batches.len()).saturating_add(1);
    let disk = MemDisk::new(alloc, Vec::new(alloc), room, 64, list)?;
    let Some(disk) = write_all(alloc, batches, disk)? else {
        holds(rt, false, &file);
        return Ok(false);
    };
    if disk.faults() == 0 {
        same(rt, &disk.bytes(), &file.as_slice());
    }
    crash(rt, alloc, draw, batches, &disk)?;
    Ok(disk.faults() == 0)
}

/// The batches of a Logon with what follows, and of the end of its connection.
fn two_batches(alloc: Global) -> Result<[Batch; 2], AllocError> {
    let mut first = Vec::new(alloc);
    for row in [bind(1), logon(), arrive(0), arrive(1)] {
        put_row(&mut first, &row)?;
    }
    let mut second = Vec::new(alloc);
    put_row(&mut second, &leave(1))?;
    let first = Batch {
        texts: first,
        count: 4,
    };
    let second = Batch {
        texts: second,
        count: 1,
    };
    Ok([first, second])
}

/// The calls are those of recovery, four, and four of each batch.
#[test]
fn each_of_twelve_calls_fails_in_turn(rt: HostRuntime) -> Result<(), Fail> {
    let batches = two_batches(rt.alloc())?;
    let lengths = [batches[0].texts.len(), batches[1].texts.len()];
    same(&rt, &lengths, &[369, 59]);
    same(&rt, &file_of(rt.alloc(), &batches)?.len(), &439);
    let mut draw = Draw::new(10);
    for call in 0..13u64 {
        let whole = write_and_crash(&rt, rt.alloc(), &mut draw, &batches, call)?;
        same_at(&rt, &whole, &(call == 12), &call);
    }
    Ok(())
}

#[test]
fn whatever_moment_a_crash_comes_at_a_prefix_is_recovered(rt: HostRuntime) -> Result<(), Fail> {
    let mut draw = Draw::new(11);
    for _ in 0..2_000u32 {
        let batches = make(rt.alloc(), &mut draw, 3)?;
        let whole = write_and_crash(&rt, rt.alloc(), &mut draw, &batches, u64::MAX)?;
        assert!(rt; whole);
    }
    Ok(())
}

#[test]
fn whichever_call_fails_a_prefix_is_recovered(rt: HostRuntime) -> Result<(), Fail> {
    let mut draw = Draw::new(12);
    let mut whole = 0u32;
    for _ in 0..2_000u32 {
        let call = u64::from(draw.below(16));
        let batches = make(rt.alloc(), &mut draw, 3)?;
        if write_and_crash(&rt, rt.alloc(), &mut draw, &batches, call)? {
            whole = whole.saturating_add(1);
        }
    }
    holds(&rt, 200 < whole && whole < 1_200, &whole);
    Ok(())
}
