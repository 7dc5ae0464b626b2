//! Items that can be told apart, and what a library sent and an engine took of them.

use draws::Draw;
use lease_words::Item;
use std::alloc::{AllocError, Global};

// A library's number and an item's are told apart by this in a body.
const NUMBERS: u64 = 100_000_000;

/// An item that was sent or taken: its library, and its number among those that the library tried
/// to send.
#[derive(Clone, Copy, Debug, PartialEq, Eq)]
pub(crate) struct Mark {
    pub(crate) session: u16,
    pub(crate) lease: u32,
    pub(crate) library: u8,
    pub(crate) number: u32,
}

impl Mark {
    pub(crate) fn body(&self, alloc: Global) -> Result<String, AllocError> {
        let tag = u64::from(self.library) * NUMBERS + u64::from(self.number);
        format!(in alloc; "35=8\x0137={tag}\x01")
    }

    /// The mark of an item that has such a body.
    pub(crate) fn of(session: u16, item: &Item) -> Option<Mark> {
        let text = std::str::from_utf8(item.body.as_slice()).ok()?;
        let tag = text.strip_prefix("35=8\x0137=")?.strip_suffix("\x01")?;
        let tag = tag.parse::<u64>().ok()?;
        Some(Mark {
            session,
            lease: item.lease,
            library: (tag / NUMBERS % 256) as u8,
            number: (tag % NUMBERS) as u32,
        })
    }
}

/// What a library did.
#[derive(Drop)]
pub(crate) struct Sender {
    pub(crate) draw: Draw,
    pub(crate) tried: u32,
    pub(crate) sent: Vec<Mark>,
}

impl Sender {
    pub(crate) fn new(alloc: Global, seed: u64) -> Sender {
        Sender {
            draw: Draw::new(seed),
            tried: 0,
            sent: Vec::new(alloc),
        }
    }

    /// The mark of the next item.
    pub(crate) fn next(&mut self, session: u16, lease: u32, library: u8) -> Mark {
        self.tried = self.tried.wrapping_add(1);
        Mark {
            session,
            lease,
            library,
            number: self.tried,
        }
    }
}

/// What the engine did. `last` has how many items were taken of each session's last lease. `wrong`
/// counts the items of another lease, and the leases that ended with another count.
#[derive(Drop)]
pub(crate) struct Taker {
    pub(crate) draw: Draw,
    last: [u32; 3],
    pub(crate) wrong: u32,
    pub(crate) taken: Vec<Mark>,
}

impl Taker {
    pub(crate) fn new(alloc: Global, seed: u64) -> Taker {
        Taker {
            draw: Draw::new(seed),
            last: [0; 3],
            wrong: 0,
            taken: Vec::new(alloc),
        }
    }

    /// An item was taken while this was the last lease. It is None where its body is none of a mark.
    pub(crate) fn note(&mut self, s: u16, item: &Item, lease: u32) -> Option<()> {
        let mark = Mark::of(s, item)?;
        self.taken.push(mark).ok()?;
        if let Some(last) = self.last.get_mut(usize::from(s)) {
            *last = last.saturating_add(1);
        }
        if mark.lease != lease {
            self.wrong = self.wrong.saturating_add(1);
        }
        Some(())
    }

    /// A lease ended with this count.
    pub(crate) fn end(&mut self, s: u16, count: u32) {
        let Some(last) = self.last.get_mut(usize::from(s)) else {
            return;
        };
        if *last != count {
            self.wrong = self.wrong.saturating_add(1);
        }
        *last = 0;
    }
}

// Whether what was taken of a library in a session is what it sent there, in order.
fn are_taken(sent: &[Mark], taken: &[Mark], session: u16, library: u8) -> bool {
    let mut rest = taken
        .iter()
        .filter(|m| m.session == session && m.library == library);
    for mark in sent {
        if mark.session == session && rest.next() != Some(mark) {
            return false;
        }
    }
    rest.next().is_none()
}

/// Whether all that a library sent was taken, in order, and no more.
pub(crate) fn all_are_taken(sender: &Sender, taker: &Taker, library: u8) -> bool {
    let (sent, taken) = (sender.sent.as_slice(), taker.taken.as_slice());
    are_taken(sent, taken, 0, library)
        && are_taken(sent, taken, 1, library)
        && are_taken(sent, taken, 2, library)
}
