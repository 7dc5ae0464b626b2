//! What counterparties send.

use crate::maker::Maker;
use std::alloc::AllocError;

const STAMP: &str = "20260105-09:30:00.000";

impl Maker {
    /// A frame's line, with a number and what stands behind the header.
    fn put_frame(
        &mut self,
        s: usize,
        kind: &str,
        number: u32,
        rest: &str,
    ) -> Result<(), AllocError> {
        let Some((them, link)) = self.named_link(s) else {
            return Ok(());
        };
        let line = format!(in self.alloc;
            "frame {link} 35={kind}|49={them}|56=GATE|34={number}|52={STAMP}|{rest}"
        )?;
        self.put(&line)
    }

    /// The counterparty of a session and its last connection.
    fn named_link(&self, s: usize) -> Option<(&'static str, u32)> {
        match self.sides.get(s) {
            Some(side) => match side.link {
                Some(link) => Some((side.them, link)),
                None => None,
            },
            None => None,
        }
    }

    /// The number that comes next, which is then sent.
    fn next_number(&mut self, s: usize) -> u32 {
        match self.sides.get_mut(s) {
            Some(side) => {
                let number = side.next;
                side.advance();
                number
            }
            None => 1,
        }
    }

    pub(crate) fn send_logon(&mut self, s: usize) -> Result<(), AllocError> {
        let heart = match self.sides.get(s) {
            Some(side) => side.dials,
            None => None,
        };
        let heart = heart.unwrap_or(self.draw.one_of(&[0, 1, 2, 30, 30]));
        let mut end = "";
        let mut encryption = 0;
        match self.draw.below(24) {
            0 => end = "141=X|",
            1..4 => {
                end = "141=Y|";
                self.restart(s);
            }
            4 => end = "141=N|",
            5 => encryption = 1,
            6 => end = "108=86401|",
            _ => {}
        }
        let number = self.number(s)?;
        let rest = format!(in self.alloc; "{end}98={encryption}|108={heart}|")?;
        self.put_frame(s, "A", number, &rest)
    }

    /// The numbers of a session begin again.
    fn restart(&mut self, s: usize) {
        if let Some(side) = self.sides.get_mut(s) {
            side.next = 1;
        }
    }

    /// A number, which is mostly the next one.
    fn number(&mut self, s: usize) -> Result<u32, AllocError> {
        match self.draw.below(30) {
            0..3 => {
                let ahead = self.draw.below(4).saturating_add(1);
                match self.sides.get_mut(s) {
                    Some(side) => {
                        let number = side.next.saturating_add(ahead);
                        side.early.push(number)?;
                        Ok(number)
                    }
                    None => Ok(ahead),
                }
            }
            3 => Ok(self.draw.below(4)),
            _ => Ok(self.next_number(s)),
        }
    }

    /// A message of some type.
    pub(crate) fn send_message(&mut self, s: usize) -> Result<(), AllocError> {
        let number = self.number(s)?;
        let a = self.draw.below(9);
        let b = self.draw.below(9);
        let repeated = if self.draw.chance(10) { "43=Y|" } else { "" };
        match self.draw.below(40) {
            0..20 => {
                let rest = format!(in self.alloc; "{repeated}11=A{number}|58=a\\7c{a}|")?;
                self.put_frame(s, "D", number, &rest)
            }
            20 => self.put_frame(s, "0", number, repeated),
            21 => self.put_frame(s, "3", number, "45=1|"),
            22 => self.put_frame(s, "AE", number, repeated),
            23..27 => {
                let rest = format!(in self.alloc; "112=T{a}|")?;
                self.put_frame(s, "1", number, &rest)
            }
            27..33 => {
                let rest = format!(in self.alloc; "7={a}|16={b}|")?;
                self.put_frame(s, "2", number, &rest)
            }
            33..35 => self.put_frame(s, "2", number, "7=1|16=0|"),
            35..37 => self.fill_gap(s, number),
            37..39 => self.reset_numbers(s),
            _ => self.put_frame(s, "5", number, ""),
        }
    }

    /// A gap fill with a number, up to a few numbers later.
    fn fill_gap(&mut self, s: usize, number: u32) -> Result<(), AllocError> {
        let to = number.saturating_add(self.draw.below(4));
        if let Some(side) = self.sides.get_mut(s) {
            side.next = side.next.max(to);
        }
        let rest = format!(in self.alloc; "123=Y|36={to}|")?;
        self.put_frame(s, "4", number, &rest)
    }

    /// A reset, mostly beyond all numbers that came early.
    fn reset_numbers(&mut self, s: usize) -> Result<(), AllocError> {
        let ahead = self.draw.below(8);
        let Some(side) = self.sides.get_mut(s) else {
            return Ok(());
        };
        let to = side.next.saturating_add(ahead);
        side.next = to;
        side.early.clear();
        let rest = format!(in self.alloc; "36={to}|")?;
        self.put_frame(s, "4", 1, &rest)
    }

    /// A message with something wrong.
    pub(crate) fn send_oddity(&mut self, s: usize) -> Result<(), AllocError> {
        let Some((them, link)) = self.named_link(s) else {
            return Ok(());
        };
        let next = self.next_number(s);
        let alloc = self.alloc;
        let header = format!(in alloc; "49={them}|56=GATE|34={next}|")?;
        let odd = self.draw.text_of(&[
            "35=D|49=SOME|56=GATE|34=2|11=A|",
            "35=D|11=A|",
            "35=D|34=x|49=BUYER|56=GATE|",
            "35=A|49=NOBODY|56=GATE|34=1|98=0|108=30|",
            "35=D|11|",
            "35=|",
            "35=B|95=3|96=a|b|",
        ]);
        let wrong = self.draw.text_of(&[
            "35=D|49=OTHER|",
            "35=D|56=OTHER|",
            "35=1|",
            "35=2|7=1|",
            "35=2|16=1|",
            "35=2|7=x|16=1|",
            "35=2|7=1|16=y|",
            "35=4|",
            "35=4|123=Y|",
            "35=4|36=0|",
            "35=4|123=Y|36=1|",
            "35=4|36=1|",
            "35=D|56=|",
            "35=B|95=3|96=a|b|",
            "35=B|95=4|96=a|b|",
            "35=B|95=z|96=a|",
            "35=D|0=a|",
            "35=D|00|",
        ]);
        let line = if self.draw.chance(15) {
            format!(in alloc; "frame {link} {odd}")?
        } else {
            format!(in alloc; "frame {link} {wrong}{header}")?
        };
        self.put(&line)
    }

    /// Bytes that are no whole frame, or one in two parts.
    pub(crate) fn give_bytes(&mut self, s: usize) -> Result<(), AllocError> {
        let Some(link) = self.link(s) else {
            return Ok(());
        };
        let bytes = self.draw.text_of(&[
            "",
            "xyz",
            "\\00\\ff\\7c|",
            "8=FIX.4.4|9=",
            "8=FIX.4.4|9=5|35=0|10=000|",
            "8=FIX.4.4|9=5|35=0|10=163|",
            "8=FIX.4.4|9=00005|35=0|10=",
            "8=FIX.4.4|9=65512",
            "8=FIX.4.4|9=30|35=D|",
            "163|",
        ]);
        let line = format!(in self.alloc; "bytes {link} {bytes}")?;
        self.put(&line)
    }

    /// Something becomes of a connection.
    pub(crate) fn script_link(&mut self, s: usize) -> Result<(), AllocError> {
        let Some(link) = self.link(s) else {
            return Ok(());
        };
        let place = self.draw.one_of(&[0, 1, 40, 86, 100, 172, 1000]);
        let line = match self.draw.below(12) {
            0 => format!(in self.alloc; "failread {link}")?,
            1 => format!(in self.alloc; "failwrite {link} {place}")?,
            2..6 => format!(in self.alloc; "block {link} {place}")?,
            6..11 => format!(in self.alloc; "unblock {link}")?,
            _ => format!(in self.alloc; "finish {link}")?,
        };
        self.put(&line)
    }
}
