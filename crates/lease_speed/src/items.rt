//! Items that say which they are.
ghost use Rattle.std.specs.Prelude.{◌≡◌, IfSome};

use fix_fields::{LONGEST_APPLICATION_BODY, check_body};
use gate_io::Bytes;
use lease_words::Item;
use std::alloc::Global;

// A library's number and an item's are told apart by this in a body.
const NUMBERS: u64 = 100_000_000;

/// An item whose body names the library and the number, where there is memory for it.
fn new_item(alloc: Global, lease: u32, library: u8, number: u32) -> Option<Item> {
    let tag = u64::from(library) * NUMBERS + u64::from(number);
    let body = format!(in alloc; "35=8\x0137={tag}\x01").ok()?.into_bytes();
    if body.len() > LONGEST_APPLICATION_BODY || check_body(body.as_slice()).is_err() {
        return None;
    }
    let body = Bytes::of(body);
    Some(Item { lease, body })
}

/// As many items, numbered from 0, of a library's lease.
pub fn new_items(alloc: Global, lease: u32, library: u8, count: u32) -> Option<Vec<Item>> {
    let mut items = Vec::with_capacity(alloc, count as usize).ok()?;
    for number in 0..count {
        items.push(new_item(alloc, lease, library, number)?).ok()?;
    }
    Some(items)
}

fn tag_of(item: &Item) -> Option<u64> {
    let text = std::str::from_utf8(item.body.as_slice()).ok()?;
    let tag = text.strip_prefix("35=8\x0137=")?.strip_suffix("\x01")?;
    tag.parse::<u64>().ok()
}

/// Whether all items of this library are there, in order.
pub fn are_in_order(items: &[Item], library: u8, count: u32) -> bool {
    let mut next = 0;
    for item in items {
        let Some(tag) = tag_of(item) else {
            return false;
        };
        if tag / NUMBERS != u64::from(library) {
            continue;
        }
        if tag % NUMBERS != next {
            return false;
        }
        next = tag % NUMBERS + 1;
    }
    next == u64::from(count)
}
