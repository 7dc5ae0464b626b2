//! How a session's connection begins, and what the clock asks of it.

use crate::fields::Fields;
use crate::sessions::Session;
use crate::texts::stamp;
use gate_io::NoMemory;

/// For how long a Logon is waited for, in milliseconds.
pub(crate) const LOGON_WAIT: u64 = 10_000;

impl Session {
    /// The Logon by which a connection bound the session.
    pub(crate) fn log_on(&mut self, fields: &Fields, moment: u64) -> Result<(), NoMemory> {
        let n = fields.sequence(34).unwrap_or(0);
        let heart = fields.number(108).unwrap_or(0);
        let resets = fields.is(141, b"Y");
        self.last_receipt = moment;
        if resets {
            self.reset()?;
        }
        if n < self.expected {
            return self.end_low(n, moment);
        }
        self.is_on = true;
        self.heart = heart;
        let end = if resets { "141=Y|" } else { "" };
        let text = format!(in self.alloc; "35=A|98=0|108={heart}|{end}")?;
        self.send(&text, moment)?;
        self.begin_with(n, moment)
    }

    fn reset(&mut self) -> Result<(), NoMemory> {
        self.expected = 1;
        self.horizon = 0;
        self.early.clear();
        self.series = self.series.saturating_add(1);
        self.numbered = 0;
        let series = self.series;
        let line = format!(in self.alloc; "reset {series}")?;
        self.note(&line)
    }

    /// The number of a Logon is counted, or held.
    fn begin_with(&mut self, n: u64, moment: u64) -> Result<(), NoMemory> {
        if n == self.expected {
            self.expected = n.saturating_add(1);
            return Ok(());
        }
        self.hold(b"", n, moment)
    }

    /// The Logon of a session that dialled.
    pub(crate) fn ask(&mut self, heart: u64, moment: u64) -> Result<(), NoMemory> {
        self.heart = heart;
        self.last_receipt = moment;
        let text = format!(in self.alloc; "35=A|98=0|108={heart}|")?;
        self.send(&text, moment)
    }

    /// The first message that comes on a connection that the session dialled.
    pub(crate) fn take_answer(&mut self, fields: &Fields, moment: u64) -> Result<(), NoMemory> {
        if fields.fault.is_some() || !fields.is(35, b"A") {
            return self.end("not-logon");
        }
        if let Some(tag) = self.wrong_name(fields) {
            let cause = format!(in self.alloc; "comp-id {tag}")?;
            return self.end(&cause);
        }
        if !fields.is(98, b"0") {
            return self.end("bad-logon 98");
        }
        if fields.number(108) != Some(self.heart) {
            return self.end("bad-logon 108");
        }
        if fields.first(141).is_some() && !fields.is(141, b"N") {
            return self.end("bad-logon 141");
        }
        let Some(n) = fields.sequence(34) else {
            return self.end("no-number");
        };
        self.is_on = true;
        self.last_receipt = moment;
        if n < self.expected {
            return self.end_low(n, moment);
        }
        self.begin_with(n, moment)
    }

    /// The clock stands at a moment.
    pub(crate) fn tick(&mut self, moment: u64) -> Result<(), NoMemory> {
        if self.bound.is_none() {
            return Ok(());
        }
        if !self.is_on {
            return self.tick_unanswered(moment);
        }
        if self.heart == 0 {
            return Ok(());
        }
        let interval = self.heart.saturating_mul(1000);
        let patience = self.heart.saturating_mul(1200);
        if let Some(since) = self.tested {
            if moment >= since.saturating_add(interval) {
                return self.end_silent();
            }
        } else if moment >= self.last_receipt.saturating_add(patience) {
            let own = self.numbered.saturating_add(1);
            let text = format!(in self.alloc; "35=1|112={own}|")?;
            self.tested = Some(moment);
            return self.send(&text, moment);
        }
        if moment >= self.last_sending.saturating_add(interval) {
            return self.send("35=0|", moment);
        }
        Ok(())
    }

    fn tick_unanswered(&mut self, moment: u64) -> Result<(), NoMemory> {
        if moment >= self.last_receipt.saturating_add(LOGON_WAIT) {
            return self.end_silent();
        }
        Ok(())
    }

    fn end_silent(&mut self) -> Result<(), NoMemory> {
        let since = stamp(self.alloc, self.last_receipt)?;
        let cause = format!(in self.alloc; "silent {since}")?;
        self.end(&cause)
    }
}
