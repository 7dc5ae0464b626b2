//! What libraries call.

use crate::maker::Maker;
use std::alloc::AllocError;

impl Maker {
    /// What a library does, with a turn behind it now and then.
    pub(crate) fn call_library(&mut self) -> Result<(), AllocError> {
        if self.libraries == 0 {
            return self.put("turn");
        }
        let library = (self.draw.below(3) % self.libraries.max(1)).saturating_add(1);
        let known = self.draw.below(3) as usize % self.sides.len().max(1);
        let s = if self.draw.chance(2) { 64 } else { known };
        if self.draw.chance(12) {
            return self.take_session(library, s);
        }
        let act = self.act_of(s)?;
        self.put_call(library, &act)?;
        if self.draw.chance(15) {
            return self.put("turn");
        }
        Ok(())
    }

    fn put_call(&mut self, library: u32, act: &str) -> Result<(), AllocError> {
        let line = format!(in self.alloc; "lib {library} {act}")?;
        self.put(&line)
    }

    /// A library asks for a session, sends, and now and then gives it back.
    fn take_session(&mut self, library: u32, s: usize) -> Result<(), AllocError> {
        let request = format!(in self.alloc; "request {s} 0")?;
        self.put_call(library, &request)?;
        self.put("turn")?;
        self.put_call(library, "poll")?;
        for _ in 0..self.draw.below(4) {
            let send = self.send_of(s)?;
            self.put_call(library, &send)?;
        }
        let heir = self.draw.below(5);
        let end = match self.draw.below(4) {
            0 => format!(in self.alloc; "release {s}")?,
            1 => format!(in self.alloc; "hand {s} {heir}")?,
            _ => return Ok(()),
        };
        self.put_call(library, &end)
    }

    fn act_of(&mut self, s: usize) -> Result<String, AllocError> {
        let a = self.draw.below(5);
        match self.draw.below(40) {
            0..10 => format!(in self.alloc; "request {s} {a}"),
            10..24 => String::from_str(self.alloc, "poll"),
            24..34 => self.send_of(s),
            34..36 => format!(in self.alloc; "release {s}"),
            36..38 => format!(in self.alloc; "hand {s} {a}"),
            _ => String::from_str(self.alloc, "beat"),
        }
    }

    fn send_of(&mut self, s: usize) -> Result<String, AllocError> {
        if self.draw.chance(1) {
            return self.long_send(s);
        }
        let body = self.body();
        format!(in self.alloc; "send {s} {body}")
    }

    /// A send of one byte more than a body may have.
    fn long_send(&mut self, s: usize) -> Result<String, AllocError> {
        let mut line = format!(in self.alloc; "send {s} 35=8|58=")?;
        for _ in 0..8184 {
            line.push('x')?;
        }
        line.push('|')?;
        Ok(line)
    }

    /// A body, which is mostly fit.
    fn body(&mut self) -> &'static str {
        if self.draw.chance(80) {
            return self.draw.text_of(&[
                "35=8|37=O1|",
                "35=8|37=O2|39=0|",
                "35=AE|571=a\\7cb|",
                "35=B|95=3|96=a|b|",
            ]);
        }
        self.draw.text_of(&[
            "",
            "35=0|",
            "35=8|34=1|",
            "35=8|11|",
            "11=A|35=8|",
            "35=8|122=x|",
            "35=8|58=|",
            "35=8|58=a",
        ])
    }
}
