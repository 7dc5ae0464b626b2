//! The rules told once more, slowly and in another way: bodies are kept whole and read again as they
//! are carried out, and what follows is written down as text at once.

use fix_fields::{Fields, read_number};
use gate_io::NoMemory;
use row_text::legible;
use std::alloc::Global;
use std::fmt::Write;

#[derive(Drop)]
pub struct PlainSession {
    pub expected: u32,
    on: bool,
    heart: u64,
    horizon: u32,
    held: Vec<(u32, Vec<u8>)>,
    received: u64,
    sent: u64,
    waiting: Option<u64>,
    last_number: u64,
    said: String,
    over: bool,
}

impl PlainSession {
    pub fn new(alloc: Global) -> PlainSession {
        PlainSession {
            expected: 1,
            on: false,
            heart: 0,
            horizon: 0,
            held: Vec::new(alloc),
            received: 0,
            sent: 0,
            waiting: None,
            last_number: 0,
            said: String::new(alloc),
            over: false,
        }
    }

    /// What was said since the last call, and whether the connection ended.
    pub fn told(&mut self, alloc: Global) -> Result<(String, bool), NoMemory> {
        let mut said = String::new(alloc);
        said.push_str(self.said.as_str())?;
        self.said.clear();
        Ok((said, self.over))
    }

    pub fn leave(&mut self) {
        self.on = false;
        self.over = false;
        self.waiting = None;
        self.horizon = 0;
        self.held.clear();
    }

    /// Whether a tick at this moment does something.
    pub fn is_due(&self, moment: u64) -> bool {
        let ms = self.heart.wrapping_mul(1000);
        let late = self.received.wrapping_add(self.heart.wrapping_mul(1200));
        let silent = match self.waiting {
            Some(since) => moment >= since.wrapping_add(ms),
            None => moment >= late,
        };
        self.on && self.heart > 0 && (silent || moment >= self.sent.wrapping_add(ms))
    }

    pub fn is_on(&self) -> bool {
        self.on
    }

    fn send(&mut self, text: &str, moment: u64) -> Result<(), NoMemory> {
        self.last_number = self.last_number.wrapping_add(1);
        self.sent = moment;
        write!(self.said, "[send {text}]")?;
        Ok(())
    }

    fn end(&mut self, cause: &str) -> Result<(), NoMemory> {
        self.over = true;
        write!(self.said, "[end {cause}]")?;
        Ok(())
    }

    pub fn tick(&mut self, alloc: Global, moment: u64) -> Result<(), NoMemory> {
        if !self.on || self.heart == 0 {
            return Ok(());
        }
        let ms = self.heart.wrapping_mul(1000);
        let late = self.received.wrapping_add(self.heart.wrapping_mul(1200));
        match self.waiting {
            Some(since) if moment >= since.wrapping_add(ms) => {
                let since = self.received;
                let cause = format!(in alloc; "Silent {{ since: {since} }}")?;
                return self.end(&cause);
            }
            None if moment >= late => {
                let own = self.last_number.wrapping_add(1);
                let text = format!(in alloc; "35=1|112={own}|")?;
                self.waiting = Some(moment);
                return self.send(&text, moment);
            }
            _ => {}
        }
        if moment >= self.sent.wrapping_add(ms) {
            return self.send("35=0|", moment);
        }
        Ok(())
    }

    /// A body with `|` for SOH that can be read.
    pub fn receive(&mut self, alloc: Global, body: &[u8], moment: u64) -> Result<(), NoMemory> {
        let Ok(fields) = Fields::read(alloc, body) else {
            return Ok(());
        };
        self.received = moment;
        self.waiting = None;
        if !self.on {
            return self.log_on(alloc, &fields, moment);
        }
        let n = number(&fields, 34);
        let e = self.expected;
        if n < 1 || n > 999_999_999 {
            self.send("35=5|58=MsgSeqNum missing|", moment)?;
            return self.end("NoNumber");
        }
        if let Some(tag) = wrong_name(&fields) {
            return self.turn_away(alloc, &fields, n, tag, moment);
        }
        if is(&fields, 35, b"4") && !is(&fields, 123, b"Y") {
            if self.moves(alloc, &fields, n, e, moment)? {
                return self.carry_held(alloc, moment);
            }
            return Ok(());
        }
        self.place(alloc, &fields, body, n, moment)
    }

    /// What becomes of a message by its number.
    fn place(
        &mut self,
        alloc: Global,
        fields: &Fields<'_>,
        body: &[u8],
        n: u32,
        moment: u64,
    ) -> Result<(), NoMemory> {
        if n < self.expected {
            if is(fields, 43, b"Y") {
                return Ok(());
            }
            return self.too_low(alloc, n, moment);
        }
        if n > self.expected {
            return self.early(alloc, fields, body, n, moment);
        }
        self.expected = n.wrapping_add(1);
        self.carry(alloc, fields, body, n, moment)?;
        if self.over {
            return Ok(());
        }
        self.carry_held(alloc, moment)
    }

    /// A message has another's name in this field.
    fn turn_away(
        &mut self,
        alloc: Global,
        fields: &Fields<'_>,
        n: u32,
        tag: u32,
        moment: u64,
    ) -> Result<(), NoMemory> {
        self.reject(alloc, fields, n, tag, 9, moment)?;
        if n == self.expected {
            self.expected = n.wrapping_add(1);
        }
        self.send("35=5|", moment)?;
        let cause = format!(in alloc; "CompId {{ tag: {tag} }}")?;
        self.end(&cause)
    }

    fn log_on(&mut self, alloc: Global, fields: &Fields<'_>, moment: u64) -> Result<(), NoMemory> {
        let n = number(fields, 34);
        let heart = number(fields, 108);
        if is(fields, 141, b"Y") {
            self.expected = 1;
            self.horizon = 0;
            self.last_number = 0;
            self.held.clear();
            self.said.push_str("[reset]")?;
        }
        if n < self.expected {
            return self.too_low(alloc, n, moment);
        }
        self.on = true;
        self.heart = heart as u64;
        let mut text = format!(in alloc; "35=A|98=0|108={heart}|")?;
        if is(fields, 141, b"Y") {
            text.push_str("141=Y|")?;
        }
        self.send(&text, moment)?;
        if n == self.expected {
            self.expected = n.wrapping_add(1);
            return Ok(());
        }
        self.hold(alloc, b"35=0|", n, moment)
    }

    fn too_low(&mut self, alloc: Global, n: u32, moment: u64) -> Result<(), NoMemory> {
        let e = self.expected;
        let text = format!(in alloc; "35=5|58=MsgSeqNum too low, expecting {e} but received {n}|")?;
        self.send(&text, moment)?;
        let cause = format!(in alloc; "LowNumber {{ expected: {e}, got: {n} }}")?;
        self.end(&cause)
    }

    fn early(
        &mut self,
        alloc: Global,
        fields: &Fields<'_>,
        body: &[u8],
        n: u32,
        moment: u64,
    ) -> Result<(), NoMemory> {
        if is(fields, 35, b"5") {
            self.send("35=5|", moment)?;
            return self.end("LoggedOut");
        }
        if is(fields, 35, b"2") {
            self.resend(alloc, fields, n, moment)?;
            return self.hold(alloc, b"35=0|", n, moment);
        }
        self.hold(alloc, body, n, moment)
    }

    fn hold(&mut self, alloc: Global, body: &[u8], n: u32, moment: u64) -> Result<(), NoMemory> {
        if self.held.len() >= 256 {
            return Ok(());
        }
        for pair in &self.held {
            if pair.0 == n {
                return Ok(());
            }
        }
        let copy = Vec::from_slice(alloc, body)?;
        self.held.push((n, copy))?;
        if n > self.horizon {
            let from = self.expected.max(self.horizon.wrapping_add(1));
            let to = n.wrapping_sub(1);
            self.horizon = n;
            if from <= to {
                let text = format!(in alloc; "35=2|7={from}|16={to}|")?;
                self.send(&text, moment)?;
            }
        }
        Ok(())
    }

    /// The body that is held of the expected number, or an empty one.
    fn take_held(&mut self, alloc: Global) -> Vec<u8> {
        let mut at = self.held.len();
        for (i, pair) in self.held.iter().enumerate() {
            if pair.0 == self.expected {
                at = i;
            }
        }
        if at < self.held.len() {
            let (_, body) = self.held.remove(at);
            return body;
        }
        Vec::new(alloc)
    }

    fn carry_held(&mut self, alloc: Global, moment: u64) -> Result<(), NoMemory> {
        for _ in 0..256 {
            let body = self.take_held(alloc);
            if body.is_empty() {
                return Ok(());
            }
            let n = self.expected;
            self.expected = n.wrapping_add(1);
            if let Ok(fields) = Fields::read(alloc, body.as_slice()) {
                self.carry(alloc, &fields, body.as_slice(), n, moment)?;
            }
        }
        Ok(())
    }

    fn carry(
        &mut self,
        alloc: Global,
        fields: &Fields<'_>,
        body: &[u8],
        n: u32,
        moment: u64,
    ) -> Result<(), NoMemory> {
        match fields.first(35) {
            Some(b"0") | Some(b"3") | Some(b"A") => Ok(()),
            Some(b"1") => self.answer_test(alloc, fields, n, moment),
            Some(b"2") => self.resend(alloc, fields, n, moment),
            Some(b"4") => {
                self.moves(alloc, fields, n, n.wrapping_add(1), moment)?;
                Ok(())
            }
            Some(b"5") => {
                self.send("35=5|", moment)?;
                self.end("LoggedOut")
            }
            _ => self.accept(alloc, body),
        }
    }

    fn accept(&mut self, alloc: Global, body: &[u8]) -> Result<(), NoMemory> {
        let body = legible(alloc, body)?;
        write!(self.said, "[accept {body}]")?;
        Ok(())
    }

    fn answer_test(
        &mut self,
        alloc: Global,
        fields: &Fields<'_>,
        n: u32,
        moment: u64,
    ) -> Result<(), NoMemory> {
        match fields.first(112) {
            None => self.reject(alloc, fields, n, 112, 1, moment),
            Some(test) if test.len() > 256 => self.reject(alloc, fields, n, 112, 5, moment),
            Some(test) => {
                let test = legible(alloc, test)?;
                let text = format!(in alloc; "35=0|112={test}|")?;
                self.send(&text, moment)
            }
        }
    }

    fn resend(
        &mut self,
        alloc: Global,
        fields: &Fields<'_>,
        n: u32,
        moment: u64,
    ) -> Result<(), NoMemory> {
        if let Some((tag, reason)) = fault_of_request(fields) {
            return self.reject(alloc, fields, n, tag, reason, moment);
        }
        let begin = number(fields, 7);
        let last = number(fields, 16);
        write!(self.said, "[resend {begin} {last}]")?;
        Ok(())
    }

    /// Whether NewSeqNo takes the expected number to `least` or beyond.
    fn moves(
        &mut self,
        alloc: Global,
        fields: &Fields<'_>,
        n: u32,
        least: u32,
        moment: u64,
    ) -> Result<bool, NoMemory> {
        let to = number(fields, 36);
        let reason = if fields.first(36).is_none() {
            1
        } else if to < 1 || to > 999_999_999 {
            6
        } else if to < least {
            5
        } else {
            0
        };
        if reason > 0 {
            self.reject(alloc, fields, n, 36, reason, moment)?;
            return Ok(false);
        }
        self.expected = to;
        self.held.retain(|pair| pair.0 >= to);
        Ok(true)
    }

    fn reject(
        &mut self,
        alloc: Global,
        fields: &Fields<'_>,
        n: u32,
        tag: u32,
        reason: u8,
        moment: u64,
    ) -> Result<(), NoMemory> {
        let kind = named_kind(alloc, fields)?;
        let text = format!(in alloc; "35=3|45={n}|371={tag}|{kind}373={reason}|")?;
        self.send(&text, moment)
    }
}

/// The field of a ResendRequest that is missing, or else the one that is no number, and why it is rejected.
fn fault_of_request(fields: &Fields<'_>) -> Option<(u32, u8)> {
    for tag in [7, 16] {
        if fields.first(tag).is_none() {
            return Some((tag, 1));
        }
    }
    first_without_number(fields)
}

fn first_without_number(fields: &Fields<'_>) -> Option<(u32, u8)> {
    for tag in [7, 16] {
        if !is_number(fields, tag) {
            return Some((tag, 6));
        }
    }
    None
}

/// The field that has another name than the session's.
fn wrong_name(fields: &Fields<'_>) -> Option<u32> {
    if !is(fields, 49, b"BUYER") {
        return Some(49);
    }
    if !is(fields, 56, b"GATE") {
        return Some(56);
    }
    None
}

/// The field that names the type of a message that is rejected, unless that is too long.
fn named_kind(alloc: Global, fields: &Fields<'_>) -> Result<String, NoMemory> {
    match fields.first(35) {
        Some(kind) if kind.len() < 33 => {
            let kind = legible(alloc, kind)?;
            Ok(format!(in alloc; "372={kind}|")?)
        }
        _ => Ok(String::new(alloc)),
    }
}

fn is(fields: &Fields<'_>, tag: u32, value: &[u8]) -> bool {
    fields.first(tag) == Some(value)
}

/// The number that the field is, 0 where it is none.
fn number(fields: &Fields<'_>, tag: u32) -> u32 {
    match fields.first(tag) {
        Some(bytes) => match read_number(bytes) {
            Some(n) => n,
            None => 0,
        },
        None => 0,
    }
}

fn is_number(fields: &Fields<'_>, tag: u32) -> bool {
    match fields.first(tag) {
        Some(bytes) => read_number(bytes).is_some(),
        None => false,
    }
}
