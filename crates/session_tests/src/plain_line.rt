//! The number line as a list of pairs that is scanned: slow, and plainly what is meant.

use gate_io::NoMemory;
use seq_gaps::{Gap, HELD_LIMIT, Offered, Place};
use std::alloc::Global;

#[derive(Drop)]
pub struct PlainLine {
    expected: u32,
    horizon: u32,
    held: Vec<(u32, u32)>,
}

impl PlainLine {
    pub fn new(alloc: Global) -> PlainLine {
        PlainLine {
            expected: 1,
            horizon: 0,
            held: Vec::new(alloc),
        }
    }

    pub fn next_number(&self) -> u32 {
        self.expected
    }

    pub fn offer(&mut self, n: u32, item: u32) -> Result<Offered<u32>, NoMemory> {
        if n < self.expected {
            return Ok(without_gap(Place::Known(item)));
        }
        if item_of(&self.held, n).is_some() {
            return Ok(without_gap(Place::Known(item)));
        }
        if n == self.expected {
            self.expected = self.expected.saturating_add(1);
            return Ok(without_gap(Place::Now(item)));
        }
        if self.held.len() >= HELD_LIMIT {
            return Ok(without_gap(Place::NoRoom(item)));
        }
        self.held.push((n, item))?;
        let from = self.expected.max(self.horizon.saturating_add(1));
        let gap = (from < n).then_some(Gap {
            from,
            to: n.wrapping_sub(1),
        });
        self.horizon = self.horizon.max(n);
        Ok(Offered {
            place: Place::Held,
            gap,
        })
    }

    pub fn take_ready(&mut self) -> Option<u32> {
        let item = item_of(&self.held, self.expected)?;
        drop_number(&mut self.held, self.expected);
        self.expected = self.expected.saturating_add(1);
        Some(item)
    }

    pub fn fill(&mut self, to: u32) {
        drop_below(&mut self.held, to);
        self.expected = to;
    }

    pub fn clear(&mut self) {
        self.held.clear();
        self.horizon = 0;
    }

    pub fn restart(&mut self) {
        self.held.clear();
        self.horizon = 0;
        self.expected = 1;
    }
}

fn without_gap(place: Place<u32>) -> Offered<u32> {
    Offered { place, gap: None }
}

fn item_of(pairs: &[(u32, u32)], n: u32) -> Option<u32> {
    for pair in pairs {
        if pair.0 == n {
            return Some(pair.1);
        }
    }
    None
}

fn drop_number(pairs: &mut Vec<(u32, u32)>, n: u32) {
    pairs.retain(|pair| pair.0 != n);
}

fn drop_below(pairs: &mut Vec<(u32, u32)>, to: u32) {
    pairs.retain(|pair| to <= pair.0);
}
