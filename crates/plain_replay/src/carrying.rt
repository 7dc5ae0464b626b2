//! What a message asks for, once its number is the expected one.

use crate::fields::{Fields, read_fields};
use crate::sessions::{Early, Session};
use gate_io::NoMemory;

/// The longest TestReqID.
const LONGEST_TEST: usize = 256;

/// The longest type that a Reject names.
const LONGEST_TYPE: usize = 32;

impl Session {
    pub(crate) fn carry(
        &mut self,
        body: &[u8],
        fields: &Fields,
        n: u64,
        moment: u64,
    ) -> Result<(), NoMemory> {
        match fields.first(35) {
            Some(b"0") | Some(b"3") | Some(b"A") => Ok(()),
            Some(b"1") => self.answer_test(fields, n, moment),
            Some(b"2") => self.answer_resend(fields, n, moment),
            Some(b"4") => {
                let _moved = self.move_on(fields, n, n.saturating_add(1), moment)?;
                Ok(())
            }
            Some(b"5") => {
                self.send("35=5|", moment)?;
                self.end("logged-out")
            }
            _ => self.accept(body),
        }
    }

    /// Carries out what is held, while its number is the expected one.
    pub(crate) fn carry_early(&mut self, moment: u64) -> Result<(), NoMemory> {
        for _ in 0..self.early.len() {
            if self.ends.is_some() {
                return Ok(());
            }
            let Some(early) = self.take_early() else {
                return Ok(());
            };
            self.expected = early.number.saturating_add(1);
            if !early.body.is_empty() {
                let fields = read_fields(self.alloc, &early.body)?;
                self.carry(&early.body, &fields, early.number, moment)?;
            }
        }
        Ok(())
    }

    /// The held message with the expected number.
    fn take_early(&mut self) -> Option<Early> {
        let expected = self.expected;
        let found = self.early.iter().position(|early| early.number == expected);
        match found {
            Some(i) if i < self.early.len() => Some(self.early.remove(i)),
            _ => None,
        }
    }

    fn answer_test(&mut self, fields: &Fields, n: u64, moment: u64) -> Result<(), NoMemory> {
        let Some(test) = fields.first(112) else {
            return self.reject(fields, n, 112, 1, moment);
        };
        if test.len() > LONGEST_TEST {
            return self.reject(fields, n, 112, 5, moment);
        }
        let mut body = Vec::from_slice(self.alloc, b"35=0\x01112=")?;
        body.extend_from_slice(test)?;
        body.push(1)?;
        self.send_body(body, moment)
    }

    pub(crate) fn answer_resend(
        &mut self,
        fields: &Fields,
        n: u64,
        moment: u64,
    ) -> Result<(), NoMemory> {
        for tag in [7, 16] {
            if fields.first(tag).is_none() {
                return self.reject(fields, n, tag, 1, moment);
            }
        }
        let Some(begin) = fields.number(7) else {
            return self.reject(fields, n, 7, 6, moment);
        };
        let Some(last) = fields.number(16) else {
            return self.reject(fields, n, 16, 6, moment);
        };
        self.resend(begin, last, moment)
    }

    /// Moves the expected number to NewSeqNo, which is to be at least `least`. Answers whether it did.
    pub(crate) fn move_on(
        &mut self,
        fields: &Fields,
        n: u64,
        least: u64,
        moment: u64,
    ) -> Result<bool, NoMemory> {
        let reason = if fields.first(36).is_none() {
            1
        } else {
            match fields.sequence(36) {
                None => 6,
                Some(to) if to < least => 5,
                Some(to) => {
                    self.expected = to;
                    self.early.retain(|early| early.number >= to);
                    return Ok(true);
                }
            }
        };
        self.reject(fields, n, 36, reason, moment)?;
        Ok(false)
    }

    pub(crate) fn reject(
        &mut self,
        fields: &Fields,
        n: u64,
        tag: u64,
        reason: u64,
        moment: u64,
    ) -> Result<(), NoMemory> {
        let kind = fields.first(35).unwrap_or(b"");
        let text = format!(in self.alloc; "35=3\x0145={n}\x01371={tag}\x01")?;
        let mut body = Vec::from_slice(self.alloc, text.as_bytes())?;
        if kind.len() <= LONGEST_TYPE {
            body.extend_from_slice(b"372=")?;
            body.extend_from_slice(kind)?;
            body.push(1)?;
        }
        let text = format!(in self.alloc; "373={reason}\x01")?;
        body.extend_from_slice(text.as_bytes())?;
        self.send_body(body, moment)
    }
}
