//! Plans, in words and beside the plain ones.

use crate::both::Both;
use crate::plain::plain_plan;
use gate_io::NoMemory;
use message_log::{OutEntry, OutLog};
use resend_plan::{WireItem, plan};
use std::alloc::Global;
use std::fmt::Write;

/// The numbers that are asked for, of a series. They end with the series where `last` is 0.
#[derive(Clone, Copy, Debug)]
pub struct Asked {
    pub series: u32,
    pub begin: u64,
    pub last: u64,
}

/// What is planned, to be sent at this moment, if the log has the series.
fn planned(
    alloc: Global,
    log: &OutLog,
    asked: Asked,
    at: u64,
) -> Result<Option<Vec<WireItem>>, NoMemory> {
    let Asked {
        series,
        begin,
        last,
    } = asked;
    if series == 0 || series > log.series() {
        return Ok(None);
    }
    Ok(Some(plan(alloc, log, series, begin, last, at)?))
}

/// A plan in words: `1:2` for number 2 of series 1, sent again, and `1:3-4` for a gap fill from 3 up to
/// 4. It is None where the log hasn't the series.
pub fn plan_text(alloc: Global, log: &OutLog, asked: Asked) -> Result<Option<String>, NoMemory> {
    let Some(items) = planned(alloc, log, asked, 0)? else {
        return Ok(None);
    };
    let mut text = String::new(alloc);
    for item in &items {
        if !text.is_empty() {
            text.push(' ')?;
        }
        push_item(&mut text, *item)?;
    }
    Ok(Some(text))
}

fn push_item(text: &mut String, item: WireItem) -> Result<(), NoMemory> {
    match item {
        WireItem::New { number, .. } => write!(text, "new {number}")?,
        WireItem::Again { series, number, .. } => write!(text, "{series}:{number}")?,
        WireItem::GapFill {
            series,
            number,
            to,
            ..
        } => write!(text, "{series}:{number}-{to}")?,
    }
    Ok(())
}

// Whether the plan is as the plain one, of these entries.
fn is_alike(
    alloc: Global,
    log: &OutLog,
    entries: &[OutEntry],
    asked: Asked,
) -> Result<bool, NoMemory> {
    let Some(got) = planned(alloc, log, asked, 5)? else {
        return Ok(false);
    };
    let want = plain_plan(alloc, entries, asked.series, asked.begin, asked.last, 5)?;
    Ok(got.as_slice() == want.as_slice())
}

// The range of this place in a square of ranges that begin and end all over a series of so many entries,
// and beyond its end.
fn range_at(series: u32, count: u64, place: u64) -> Asked {
    let step = (count / 7).max(1);
    let (i, j) = (place / 10, place % 10);
    Asked {
        series,
        begin: i.saturating_mul(step).saturating_add(j / 5),
        last: j.saturating_mul(step).saturating_add(i / 3),
    }
}

// The first range of a series whose plan differs from the plain one.
fn differing(
    alloc: Global,
    log: &OutLog,
    series: u32,
    entries: &[OutEntry],
) -> Result<Option<Asked>, NoMemory> {
    for place in 0..100 {
        let asked = range_at(series, entries.len() as u64, place);
        if !is_alike(alloc, log, entries, asked)? {
            return Ok(Some(asked));
        }
    }
    Ok(None)
}

/// Plans all over each series. Answers the first range whose plan differs from the plain one.
pub fn first_differing(alloc: Global, both: &Both) -> Result<Option<Asked>, NoMemory> {
    let mut series = 1u32;
    for entries in &both.past {
        let found = differing(alloc, &both.log, series, entries.as_slice())?;
        if found.is_some() {
            return Ok(found);
        }
        series = series.saturating_add(1);
    }
    differing(alloc, &both.log, series, both.present.as_slice())
}
