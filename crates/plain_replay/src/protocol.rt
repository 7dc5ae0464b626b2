//! A message on a bound session.

use crate::fields::{Fields, read_fields};
use crate::sessions::{Early, Session};
use gate_io::NoMemory;

/// The most early messages that are held.
const MOST_EARLY: usize = 256;

impl Session {
    pub(crate) fn receive(&mut self, body: &[u8], moment: u64) -> Result<(), NoMemory> {
        let fields = read_fields(self.alloc, body)?;
        if !self.is_on && self.dials.is_some() {
            return self.take_answer(&fields, moment);
        }
        if fields.fault.is_some() {
            return Ok(());
        }
        self.last_receipt = moment;
        self.tested = None;
        let Some(n) = fields.sequence(34) else {
            self.send("35=5|58=MsgSeqNum missing|", moment)?;
            return self.end("no-number");
        };
        if let Some(tag) = self.wrong_name(&fields) {
            return self.refuse_name(&fields, n, tag, moment);
        }
        if fields.is(35, b"4") && !fields.is(123, b"Y") {
            let least = self.expected;
            if self.move_on(&fields, n, least, moment)? {
                self.carry_early(moment)?;
            }
            return Ok(());
        }
        self.receive_number(body, &fields, n, moment)
    }

    /// The name that isn't the session's, if one isn't.
    pub(crate) fn wrong_name(&self, fields: &Fields) -> Option<u64> {
        if !fields.is(49, &self.them) {
            return Some(49);
        }
        if !fields.is(56, &self.us) {
            return Some(56);
        }
        None
    }

    fn refuse_name(
        &mut self,
        fields: &Fields,
        n: u64,
        tag: u64,
        moment: u64,
    ) -> Result<(), NoMemory> {
        self.reject(fields, n, tag, 9, moment)?;
        if n == self.expected {
            self.expected = n.saturating_add(1);
        }
        self.send("35=5|", moment)?;
        let cause = format!(in self.alloc; "comp-id {tag}")?;
        self.end(&cause)
    }

    fn receive_number(
        &mut self,
        body: &[u8],
        fields: &Fields,
        n: u64,
        moment: u64,
    ) -> Result<(), NoMemory> {
        if n < self.expected {
            if fields.is(43, b"Y") {
                return Ok(());
            }
            return self.end_low(n, moment);
        }
        if n > self.expected {
            return self.receive_early(body, fields, n, moment);
        }
        self.expected = n.saturating_add(1);
        self.carry(body, fields, n, moment)?;
        self.carry_early(moment)
    }

    /// A number below the expected one.
    pub(crate) fn end_low(&mut self, n: u64, moment: u64) -> Result<(), NoMemory> {
        let e = self.expected;
        let text = format!(in self.alloc;
            "35=5|58=MsgSeqNum too low, expecting {e} but received {n}|"
        )?;
        self.send(&text, moment)?;
        let cause = format!(in self.alloc; "low-number {e} {n}")?;
        self.end(&cause)
    }

    fn receive_early(
        &mut self,
        body: &[u8],
        fields: &Fields,
        n: u64,
        moment: u64,
    ) -> Result<(), NoMemory> {
        if fields.is(35, b"5") {
            self.send("35=5|", moment)?;
            return self.end("logged-out");
        }
        if fields.is(35, b"2") {
            self.answer_resend(fields, n, moment)?;
            return self.hold(b"", n, moment);
        }
        self.hold(body, n, moment)
    }

    /// Holds an early message, and asks for the gap before it once.
    pub(crate) fn hold(&mut self, body: &[u8], n: u64, moment: u64) -> Result<(), NoMemory> {
        if self.early.len() >= MOST_EARLY || self.is_held(n) {
            return Ok(());
        }
        let body = Vec::from_slice(self.alloc, body)?;
        self.early.push(Early { number: n, body })?;
        if n <= self.horizon {
            return Ok(());
        }
        let from = self.expected.max(self.horizon.saturating_add(1));
        let last = n.saturating_sub(1);
        self.horizon = n;
        if from > last {
            return Ok(());
        }
        let text = format!(in self.alloc; "35=2|7={from}|16={last}|")?;
        self.send(&text, moment)
    }

    fn is_held(&self, n: u64) -> bool {
        for early in &self.early {
            if early.number == n {
                return true;
            }
        }
        false
    }
}
