//! Scripts that are made from a seed.
//!
//! A script has the lines of a day that goes on at random: counterparties log on, mostly with the numbers that the
//! gateway expects, orders, requests and repairs of every kind come, connections fail, the clock jumps, and libraries
//! call what they can.

use draws::Draw;
use std::alloc::{AllocError, Global};

/// The counterparties of the sessions.
const NAMES: [&str; 3] = ["BUYER", "DESK", "HUB"];

/// The gateway's end of a session, as its counterparty takes it to be.
#[derive(Drop)]
pub(crate) struct Side {
    pub(crate) them: &'static str,
    /// The HeartBtInt of one that dials.
    pub(crate) dials: Option<u32>,
    /// Its last connection.
    pub(crate) link: Option<u32>,
    /// The number that the counterparty sends next.
    pub(crate) next: u32,
    /// The numbers that it sent before their time.
    pub(crate) early: Vec<u32>,
}

impl Side {
    /// The next number was sent.
    pub(crate) fn advance(&mut self) {
        self.next = self.next.saturating_add(1);
        for _ in 0..self.early.len() {
            if self.early.contains(&self.next) {
                self.next = self.next.saturating_add(1);
            }
        }
    }
}

#[derive(Drop)]
pub(crate) struct Maker {
    pub(crate) alloc: Global,
    pub(crate) draw: Draw,
    pub(crate) text: String,
    pub(crate) sides: Vec<Side>,
    pub(crate) libraries: u32,
    /// The moment, in milliseconds of the day.
    moment: u32,
    /// The connections that come next.
    accepted: u32,
    dialled: u32,
}

/// The script of a seed.
pub(crate) fn script_of(alloc: Global, seed: u64) -> Result<String, AllocError> {
    let mut maker = Maker {
        alloc,
        draw: Draw::new(seed),
        text: String::new(alloc),
        sides: Vec::new(alloc),
        libraries: 0,
        moment: 34_200_000,
        accepted: 0,
        dialled: 1024,
    };
    maker.configure()?;
    for s in 0..maker.sides.len() {
        if maker.draw.chance(85) {
            maker.log_on(s)?;
        }
    }
    let acts = maker.draw.one_of(&[20, 60, 120, 250]);
    for _ in 0..acts {
        maker.act()?;
    }
    maker.put("turn")?;
    Ok(maker.text)
}

impl Maker {
    pub(crate) fn put(&mut self, line: &str) -> Result<(), AllocError> {
        self.text.push_str(line)?;
        self.text.push('\n')?;
        Ok(())
    }

    fn configure(&mut self) -> Result<(), AllocError> {
        let sessions = self.draw.one_of(&[1, 1, 2, 3]) as usize;
        for them in NAMES.iter().take(sessions) {
            self.add_side(them)?;
        }
        self.libraries = self.draw.one_of(&[0, 1, 2, 2, 3]);
        let libraries = self.libraries;
        let line = format!(in self.alloc; "libraries {libraries}")?;
        self.put(&line)?;
        self.option("lane", &[1, 2, 16])?;
        self.option("leases", &[1, 3, 1000])?;
        self.option("sends", &[1, 2, 100])?;
        self.option("asks", &[2, 5, 1000])?;
        self.option("timeout", &[1, 900, 4000, 30_000])?;
        self.option("hold", &[1, 700, 6000])?;
        self.put_clock()
    }

    fn option(&mut self, word: &str, values: &[u32]) -> Result<(), AllocError> {
        if self.draw.chance(40) {
            let value = self.draw.one_of(values);
            let line = format!(in self.alloc; "option {word} {value}")?;
            self.put(&line)?;
        }
        Ok(())
    }

    /// One more session.
    fn add_side(&mut self, them: &'static str) -> Result<(), AllocError> {
        let mut dials = None;
        let mut line = format!(in self.alloc; "session GATE {them}")?;
        if self.draw.chance(25) {
            let heart = self.draw.one_of(&[1, 2, 30]);
            let wait = self.draw.one_of(&[1, 400, 2500]);
            line = format!(in self.alloc; "dial GATE {them} hub:1 {heart} {wait}")?;
            dials = Some(heart);
        }
        self.put(&line)?;
        self.sides.push(Side {
            them,
            dials,
            link: None,
            next: 1,
            early: Vec::new(self.alloc),
        })?;
        Ok(())
    }

    fn put_clock(&mut self) -> Result<(), AllocError> {
        let hours = self.moment / 3_600_000;
        let minutes = self.moment / 60_000 % 60;
        let seconds = self.moment / 1000 % 60;
        let ms = self.moment % 1000;
        let line = format!(in self.alloc;
            "at 20260105-{hours:02}:{minutes:02}:{seconds:02}.{ms:03}"
        )?;
        self.put(&line)
    }

    fn act(&mut self) -> Result<(), AllocError> {
        let s = self.any_side();
        match self.draw.below(100) {
            0..25 => self.put("turn"),
            25..33 => self.move_clock(),
            33..55 => self.send_message(s),
            55..58 => self.send_oddity(s),
            58..61 => self.give_bytes(s),
            61..65 => self.log_on(s),
            65..69 => self.script_link(s),
            _ => self.call_library(),
        }
    }

    fn any_side(&mut self) -> usize {
        self.draw.below(3) as usize % self.sides.len().max(1)
    }

    fn move_clock(&mut self) -> Result<(), AllocError> {
        let step = self
            .draw
            .one_of(&[1, 300, 700, 1000, 1300, 2600, 6000, 10_000]);
        self.moment = self.moment.saturating_add(step);
        if self.moment < 86_400_000 {
            self.put_clock()?;
        }
        Ok(())
    }

    /// The next connection of a session: it is accepted or dialled, and a Logon comes.
    fn log_on(&mut self, s: usize) -> Result<(), AllocError> {
        if self.draw.chance(80) {
            self.finish(s)?;
        }
        let dials = match self.sides.get(s) {
            Some(side) => side.dials.is_some(),
            None => false,
        };
        let link = self.next_link(dials);
        if let Some(side) = self.sides.get_mut(s) {
            side.early.clear();
            side.link = Some(link);
        }
        self.put(if dials { "take" } else { "connect" })?;
        if self.draw.chance(8) {
            self.send_oddity(s)?;
        } else {
            self.send_logon(s)?;
        }
        self.put("turn")
    }

    /// The number of the connection that comes next.
    fn next_link(&mut self, dials: bool) -> u32 {
        if dials {
            let link = self.dialled;
            self.dialled = link.saturating_add(1);
            return link;
        }
        let link = self.accepted;
        self.accepted = link.saturating_add(1);
        link
    }

    /// The last connection of a session.
    pub(crate) fn link(&self, s: usize) -> Option<u32> {
        match self.sides.get(s) {
            Some(side) => side.link,
            None => None,
        }
    }

    /// The input of a session's last connection ends.
    fn finish(&mut self, s: usize) -> Result<(), AllocError> {
        let Some(link) = self.link(s) else {
            return Ok(());
        };
        let line = format!(in self.alloc; "finish {link}")?;
        self.put(&line)
    }
}
