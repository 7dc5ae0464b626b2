//! The plan of a resend.

ghost use Rattle.std.specs.Prelude.{◌≡◌, ◌<◌, ◌≤◌, ◌↔◌, [], length, flat_map, All, IfOk};
ghost use Rattle.message_log.specs.Series.{series_at};
ghost use Rattle.resend_plan.specs.Plan.{AsksNothing, IsAnswer, asked_numbers, last_asked, numbers_of, plan_of};
ghost use Rattle.resend_plan.specs.Wire.{NamesEntry};

use crate::item::WireItem;
use gate_io::NoMemory;
use message_log::{OutLog, Steps};
use std::alloc::Global;
use std::marker::Brand;
use std::sync::ledger::{Blank, Ledger};

/// The items that answer a ResendRequest for the numbers from `begin` to `last` of a series, sent at
/// a moment. A `last` of 0, or past the end, stands for the end. For each item the log is asked once
/// where a stretch ends (`stretch_end` says how many look-ups that takes), so a run of session
/// entries costs what one entry does. No clause counts that.
pub fn plan(
    alloc: Global,
    log: &OutLog,
    series: u32,
    begin: u64,
    last: u64,
    at: u64,
) -> Result<Vec<WireItem>, NoMemory>
    requires from_one { 1 ≤ series }
    requires of_log { series ≤ length log.now.series }
    ensures items { IfOk result (λ items. items.items ≡ plan_of (series_at log.now.series series) series begin last at) }
    // `wire_body` takes each item.
    ensures named { IfOk result (λ items. All (NamesEntry log.now.series) items.items) }
    ensures answers { IfOk result (λ items. All (IsAnswer log.now.series series at) items.items) }
    // Each number that is asked for is in one item.
    ensures numbers { IfOk result (λ items. flat_map numbers_of items.items ≡ asked_numbers (length (series_at log.now.series series)) begin last) }
    ensures none { IfOk result (λ items. (items.items ≡ []) ↔ AsksNothing (length (series_at log.now.series series)) begin last) }
{
    plan_in::<Brand>(alloc, log, series, begin, last, at, Blank::new(1))
}

fn plan_in<L: Ledger>(
    alloc: Global,
    log: &OutLog,
    series: u32,
    begin: u64,
    last: u64,
    at: u64,
    blank: Blank,
) -> Result<Vec<WireItem>, NoMemory>
    requires from_one { 1 ≤ series }
    requires of_log { series ≤ length log.now.series }
    requires name { blank.name ≡ L.name }
    requires parts { blank.parts ≡ L.parts }
    requires some { 0 < blank.parts }
    ensures { IfOk result (λ items. items.items ≡ plan_of (series_at log.now.series series) series begin last at) }
{
    let mut steps = Steps::<L>::new(blank);
    let mut items = Vec::new(alloc);
    let count = log.len_of(series).unwrap();
    if begin == 0 {
        return Ok(items);
    }
    let last = end_of_range(count, last);
    let mut number = begin;
    while number <= last {
        match log.stretch_end(series, number, &mut steps) {
            Some(end) => {
                let to = end.min(last) + 1;
                items.push(WireItem::GapFill {
                    series,
                    number,
                    to,
                    at,
                })?;
                number = to;
            }
            None => {
                items.push(WireItem::Again { series, number, at })?;
                number += 1;
            }
        }
    }
    Ok(items)
}

/// The last number that is asked for, of so many.
fn end_of_range(count: u64, last: u64) -> u64
    ensures { result ≡ last_asked count last }
{
    if last == 0 || last > count {
        count
    } else {
        last
    }
}
