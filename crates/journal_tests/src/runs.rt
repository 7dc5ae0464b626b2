//! Which rows may stand behind those of the same session. No contract ties it to the definition.

use crate::rows::Row;

/// What the rows of a session came to.
#[derive(Clone, Copy, Debug)]
pub struct Run {
    limit: u64,
    pub bound: Option<u64>,
    just_bound: bool,
    owes_hold: bool,
    pub inbound: u64,
    pub sent: u64,
    pub series: u64,
    pub lease: u64,
    pub owner: u64,
    pub library: u64,
    pub sends: u64,
    heir: u64,
    pub reserved: Option<(u64, u64)>,
}

impl Run {
    /// Before the first row of a session that can be granted so many times.
    pub fn new(limit: u32) -> Run {
        Run {
            limit: u64::from(limit),
            bound: None,
            just_bound: false,
            owes_hold: false,
            inbound: 0,
            sent: 0,
            series: 1,
            lease: 0,
            owner: 0,
            library: 0,
            sends: 0,
            heir: 0,
            reserved: None,
        }
    }

    /// The cause that refuses a library whatever it asks for, and its two numbers.
    pub fn refusal(&self, library: u64) -> Option<[u64; 3]> {
        if self.owner > 0 {
            return Some([1, self.owner, self.lease]);
        }
        match self.reserved {
            Some((heir, until)) if heir != library => Some([2, heir, until]),
            _ if self.lease == self.limit => Some([3, self.lease, 0]),
            _ => None,
        }
    }

    fn may_refuse(&self, library: u64, why: [u64; 3]) -> bool {
        let [cause, asked, logged] = why;
        match self.refusal(library) {
            Some(first) => why == first,
            None => cause == 4 && asked > self.inbound && logged == self.inbound,
        }
    }

    fn is_by_owner(&self, lease: u64, library: u64) -> bool {
        self.owner > 0 && lease == self.lease && library == self.library
    }

    /// Whether a row of the table may stand next.
    pub fn may_follow(&self, row: &Row) -> bool {
        let [a, b, c, d, e] = row.numbers;
        if self.owes_hold != (row.kind == 11) {
            return false;
        }
        match row.kind {
            1 => a == self.inbound,
            2 => Some(a) == self.sent.checked_add(1),
            3 => self.bound.is_none(),
            4 => self.bound.is_some(),
            5 => self.bound == Some(a),
            6 => {
                let granted = self.refusal(a).is_none() && d <= self.inbound;
                granted && Some(c) == self.lease.checked_add(1) && e == self.inbound
            }
            7 => self.may_refuse(a, [c, d, e]),
            8 => {
                let counted = Some(c) == self.sends.checked_add(1);
                self.is_by_owner(a, b) && counted && Some(d) == self.sent.checked_add(1)
            }
            9 => self.is_by_owner(a, b) && c == self.sends && d != b,
            10 => self.is_by_owner(a, b) && c == self.sends,
            11 => a == self.lease,
            12 => self.reserved.is_some() && a == self.lease,
            13 => self.just_bound && Some(a) == self.series.checked_add(1),
            _ => false,
        }
    }

    /// A row that may stand next stands there.
    pub fn take(&mut self, row: &Row) {
        let [a, b, _, d, _] = row.numbers;
        match row.kind {
            1 => self.inbound = self.inbound.saturating_add(1),
            2 => self.sent = self.sent.saturating_add(1),
            3 => self.bound = Some(a),
            5 => self.bound = None,
            6 => self.grant(a),
            8 => {
                self.sends = self.sends.saturating_add(1);
                self.sent = self.sent.saturating_add(1);
            }
            9 => self.give_back(d),
            10 => self.give_back(0),
            11 => self.reserved = Some((self.heir, b)),
            12 => self.reserved = None,
            13 => {
                self.series = self.series.saturating_add(1);
                self.sent = 0;
            }
            _ => {}
        }
        self.just_bound = row.kind == 3;
        self.owes_hold = row.kind == 9 && d > 0;
    }

    fn grant(&mut self, library: u64) {
        self.lease = self.lease.saturating_add(1);
        self.owner = library;
        self.library = library;
        self.sends = 0;
        self.reserved = None;
    }

    fn give_back(&mut self, heir: u64) {
        self.owner = 0;
        self.heir = heir;
    }
}
