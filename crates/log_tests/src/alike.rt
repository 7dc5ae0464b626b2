//! Look-ups beside those in plain lists.
ghost use Rattle.std.specs.Prelude.{◌≡◌, ◌<◌};

use crate::both::Both;
use crate::plain::{plain_entry, plain_stretch_end};
use message_log::{OutEntry, OutLog, Steps};
use std::marker::Brand;
use std::sync::ledger::{Blank, Ledger};

/// Whether every look-up in every series gives the same as in the plain lists, and two series and two
/// numbers beyond give nothing.
pub fn are_looked_up_alike(both: &Both) -> bool {
    agree::<Brand>(both, Blank::new(1))
}

fn agree<L: Ledger>(both: &Both, blank: Blank) -> bool
    requires name { blank.name ≡ L.name }
    requires parts { blank.parts ≡ L.parts }
    requires some { 0 < blank.parts }
{
    let mut steps = Steps::<L>::new(blank);
    let mut series = 1u32;
    for entries in &both.past {
        if !agree_in(&both.log, series, entries.as_slice(), &mut steps) {
            return false;
        }
        series = series.wrapping_add(1);
    }
    series == both.log.series()
        && agree_in(&both.log, series, both.present.as_slice(), &mut steps)
        && nothing_in(&both.log, 0, &mut steps)
        && nothing_in(&both.log, series.wrapping_add(1), &mut steps)
}

fn agree_in<L: Ledger>(
    log: &OutLog,
    series: u32,
    entries: &[OutEntry],
    steps: &mut Steps<L>,
) -> bool {
    if log.len_of(series) != Some(entries.len() as u64) {
        return false;
    }
    for number in 0..(entries.len() as u64).saturating_add(3) {
        if !agree_at(log, series, entries, number, steps) {
            return false;
        }
    }
    true
}

fn agree_at<L: Ledger>(
    log: &OutLog,
    series: u32,
    entries: &[OutEntry],
    number: u64,
    steps: &mut Steps<L>,
) -> bool {
    let entry = plain_entry(entries, number);
    are_alike(log.entry(series, number), entry)
        && are_alike(log.get(series, number, steps), entry)
        && log.stretch_end(series, number, steps) == plain_stretch_end(entries, number)
}

fn nothing_in<L: Ledger>(log: &OutLog, series: u32, steps: &mut Steps<L>) -> bool {
    log.len_of(series).is_none()
        && log.entry(series, 1).is_none()
        && log.get(series, 1, steps).is_none()
        && log.stretch_end(series, 1, steps).is_none()
}

fn are_alike(a: Option<&OutEntry>, b: Option<&OutEntry>) -> bool {
    match (a, b) {
        (Some(a), Some(b)) => {
            a.at == b.at && a.admin == b.admin && a.body.as_slice() == b.body.as_slice()
        }
        (None, None) => true,
        _ => false,
    }
}
