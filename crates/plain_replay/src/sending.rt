//! What a session sends.

use crate::frames::frame_of;
use crate::sessions::{Logged, Session};
use crate::texts::{fields_text, stamp};
use gate_io::NoMemory;

impl Session {
    /// Numbers a message, and answers its number.
    pub(crate) fn log(&mut self, body: Vec<u8>, moment: u64) -> Result<u64, NoMemory> {
        self.numbered = self.numbered.saturating_add(1);
        let number = self.numbered;
        self.outbound.push(Logged {
            series: self.series,
            number,
            at: moment,
            body,
        })?;
        Ok(number)
    }

    /// Queues a frame for the connection, if there is one.
    fn queue(&mut self, frame: Vec<u8>, moment: u64) -> Result<(), NoMemory> {
        if self.bound.is_some() {
            self.queued.push(frame)?;
            self.last_sending = moment;
        }
        Ok(())
    }

    /// The frame of a body. One that is sent again has the moment at which it was sent first.
    fn frame(
        &self,
        body: &[u8],
        number: u64,
        first: Option<u64>,
        moment: u64,
    ) -> Result<Vec<u8>, NoMemory> {
        let mut kinds = body.splitn(2, |byte| *byte == 1);
        let mut text = Vec::new(self.alloc);
        text.extend_from_slice(kinds.next().unwrap_or(b""))?;
        text.extend_from_slice(b"\x0149=")?;
        text.extend_from_slice(&self.us)?;
        text.extend_from_slice(b"\x0156=")?;
        text.extend_from_slice(&self.them)?;
        let header = self.header(number, first, moment)?;
        text.extend_from_slice(&header)?;
        text.extend_from_slice(kinds.next().unwrap_or(b""))?;
        frame_of(self.alloc, &text)
    }

    /// The header from the number on.
    fn header(&self, number: u64, first: Option<u64>, moment: u64) -> Result<Vec<u8>, NoMemory> {
        let now = stamp(self.alloc, moment)?;
        let Some(first) = first else {
            let header = format!(in self.alloc; "|34={number}|52={now}|")?;
            return fields_text(self.alloc, &header);
        };
        let before = stamp(self.alloc, first)?;
        let header = format!(in self.alloc; "|34={number}|43=Y|52={now}|122={before}|")?;
        fields_text(self.alloc, &header)
    }

    /// Logs a message and queues it. Answers its number.
    pub(crate) fn send_new(&mut self, body: Vec<u8>, moment: u64) -> Result<u64, NoMemory> {
        let number = self.numbered.saturating_add(1);
        let frame = self.frame(&body, number, None, moment)?;
        self.queue(frame, moment)?;
        self.log(body, moment)
    }

    /// Sends a session message.
    pub(crate) fn send_body(&mut self, body: Vec<u8>, moment: u64) -> Result<(), NoMemory> {
        let number = self.send_new(body, moment)?;
        let line = format!(in self.alloc; "admin {number}")?;
        self.note(&line)
    }

    /// Sends a session message, in which `|` stands for byte 1.
    pub(crate) fn send(&mut self, text: &str, moment: u64) -> Result<(), NoMemory> {
        let body = fields_text(self.alloc, text)?;
        self.send_body(body, moment)
    }

    /// Answers a ResendRequest.
    pub(crate) fn resend(&mut self, begin: u64, last: u64, moment: u64) -> Result<(), NoMemory> {
        let at = stamp(self.alloc, moment)?;
        let line = format!(in self.alloc; "plan {begin} {last} {at}")?;
        self.note(&line)?;
        let all = self.numbered;
        let last = if last == 0 || last > all { all } else { last };
        if begin == 0 || begin > last {
            return Ok(());
        }
        // The first number of the gap that is open, or 0.
        let mut gap = 0u64;
        for number in begin..last.saturating_add(1) {
            match self.frame_again(number, moment)? {
                None if gap == 0 => gap = number,
                None => {}
                Some(frame) => {
                    self.fill_gap(gap, number, moment)?;
                    gap = 0;
                    self.queue(frame, moment)?;
                }
            }
        }
        self.fill_gap(gap, last.saturating_add(1), moment)
    }

    /// The frame by which a number of the present series is sent again. None where a gap fill passes over it.
    fn frame_again(&self, number: u64, moment: u64) -> Result<Option<Vec<u8>>, NoMemory> {
        for entry in &self.outbound {
            let named = entry.series == self.series && entry.number == number;
            if named && !entry.is_passed_over() {
                let frame = self.frame(&entry.body, number, Some(entry.at), moment)?;
                return Ok(Some(frame));
            }
        }
        Ok(None)
    }

    /// Fills the gap that is open, if one is, up to a number.
    fn fill_gap(&mut self, gap: u64, to: u64, moment: u64) -> Result<(), NoMemory> {
        if gap == 0 {
            return Ok(());
        }
        let text = format!(in self.alloc; "35=4|123=Y|36={to}|")?;
        let body = fields_text(self.alloc, &text)?;
        let frame = self.frame(&body, gap, Some(moment), moment)?;
        self.queue(frame, moment)
    }
}
