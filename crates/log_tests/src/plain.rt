//! Look-ups and plans by going over each entry of a plain list: slow, and plainly what is meant. No
//! clause ties them to the definitions.

use gate_io::NoMemory;
use message_log::OutEntry;
use resend_plan::WireItem;
use std::alloc::Global;

/// The entry with a number: the place in the list, from 1.
pub fn plain_entry(entries: &[OutEntry], number: u64) -> Option<&OutEntry> {
    let mut here = 0u64;
    for entry in entries {
        here = here.saturating_add(1);
        if here == number {
            return Some(entry);
        }
    }
    None
}

/// The last number of the run of session entries that a number is in.
pub fn plain_stretch_end(entries: &[OutEntry], number: u64) -> Option<u64> {
    let mut here = 0u64;
    let mut end = None;
    for entry in entries {
        here = here.saturating_add(1);
        if here < number {
            continue;
        }
        if !entry.admin {
            return end;
        }
        if here == number || end.is_some() {
            end = Some(here);
        }
    }
    end
}

/// The plan for the numbers from `begin` to `last`, which walks over all entries and keeps the first
/// number of the run of session entries that it is in.
pub fn plain_plan(
    alloc: Global,
    entries: &[OutEntry],
    series: u32,
    begin: u64,
    last: u64,
    at: u64,
) -> Result<Vec<WireItem>, NoMemory> {
    let mut items = Vec::new(alloc);
    let mut run = None;
    let mut here = 0u64;
    for entry in entries {
        here = here.saturating_add(1);
        if begin == 0 || here < begin || (last != 0 && here > last) {
            continue;
        }
        if entry.admin {
            run = Some(run.unwrap_or(here));
            continue;
        }
        if let Some(number) = run {
            items.push(gap_fill(series, number, here, at))?;
        }
        run = None;
        items.push(WireItem::Again {
            series,
            number: here,
            at,
        })?;
    }
    if let Some(number) = run {
        let end = if last == 0 { here } else { here.min(last) };
        items.push(gap_fill(series, number, end.saturating_add(1), at))?;
    }
    Ok(items)
}

fn gap_fill(series: u32, number: u64, to: u64, at: u64) -> WireItem {
    WireItem::GapFill {
        series,
        number,
        to,
        at,
    }
}
