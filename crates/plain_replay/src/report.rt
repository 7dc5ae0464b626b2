//! The report of all that a run has, line by line.

use crate::links::Link;
use crate::sessions::Session;
use crate::texts::{push_printed, stamp};
use crate::world::World;
use gate_io::NoMemory;
use std::alloc::Global;

impl World {
    pub(crate) fn report(&self) -> Result<String, NoMemory> {
        let alloc = self.alloc;
        let mut text = String::from_str(alloc, "fixgate report 1\n")?;
        for (s, session) in self.sessions.iter().enumerate() {
            session.report(&mut text, s)?;
        }
        text.push_str(&self.strays)?;
        for dialled in [false, true] {
            for link in &self.links {
                if link.came && link.is_dialled() == dialled {
                    link.report(alloc, &mut text)?;
                }
            }
        }
        for library in &self.libraries {
            let number = library.number;
            let reads = library.reads;
            let line = format!(in alloc; "library {number} reads {reads}\n")?;
            text.push_str(&line)?;
            text.push_str(&library.calls)?;
        }
        text.push_str("end\n")?;
        Ok(text)
    }
}

impl Session {
    fn report(&self, text: &mut String, s: usize) -> Result<(), NoMemory> {
        let line = format!(in self.alloc; "session {s} ")?;
        text.push_str(&line)?;
        push_printed(text, &self.us)?;
        text.push(' ')?;
        push_printed(text, &self.them)?;
        let owner = self.owned.owner();
        let lease = self.owned.lease;
        let inbound = self.inbound.len();
        let outbound = self.outbound.len();
        let line = format!(in self.alloc;
            " owner {owner} lease {lease} in {inbound} out {outbound}\n"
        )?;
        text.push_str(&line)?;
        text.push_str(&self.journal)?;
        self.report_holdings(text)?;
        self.report_inbound(text)?;
        self.report_outbound(text)
    }

    fn report_holdings(&self, text: &mut String) -> Result<(), NoMemory> {
        for holding in &self.owned.holdings {
            let library = holding.library;
            let lease = holding.lease;
            let from = holding.from;
            let start = holding.start;
            let end = holding.end;
            let sends = holding.sends;
            let who = format!(in self.alloc; " holding {library} {lease} from {from}")?;
            text.push_str(&who)?;
            let what = format!(in self.alloc; " start {start} end {end} sends {sends}\n")?;
            text.push_str(&what)?;
        }
        Ok(())
    }

    fn report_inbound(&self, text: &mut String) -> Result<(), NoMemory> {
        for (pos, body) in self.inbound.iter().enumerate() {
            let head = format!(in self.alloc; " in {pos} ")?;
            text.push_str(&head)?;
            push_printed(text, body)?;
            text.push('\n')?;
        }
        Ok(())
    }

    fn report_outbound(&self, text: &mut String) -> Result<(), NoMemory> {
        for series in 1..self.series.saturating_add(1) {
            if series > 1 {
                let line = format!(in self.alloc; " series {series}\n")?;
                text.push_str(&line)?;
            }
            self.report_series(text, series)?;
        }
        Ok(())
    }

    fn report_series(&self, text: &mut String, series: u64) -> Result<(), NoMemory> {
        for entry in &self.outbound {
            if entry.series == series {
                let number = entry.number;
                let at = stamp(self.alloc, entry.at)?;
                let head = format!(in self.alloc; " out {number} {at} ")?;
                text.push_str(&head)?;
                push_printed(text, &entry.body)?;
                text.push('\n')?;
            }
        }
        Ok(())
    }
}

impl Link {
    fn report(&self, alloc: Global, text: &mut String) -> Result<(), NoMemory> {
        let number = self.number;
        let line = format!(in alloc; "connection {number} session ")?;
        text.push_str(&line)?;
        match self.session {
            Some(s) => text.push_str(&format!(in alloc; "{s}")?)?,
            None => text.push('-')?,
        }
        let taken = self.taken.len();
        let garbled = self.garbled;
        let written = self.written;
        let counts = format!(in alloc; " taken {taken} garbled {garbled} written {written}")?;
        text.push_str(&counts)?;
        text.push_str(" cause ")?;
        match &self.cause {
            Some(cause) => text.push_str(cause)?,
            None => text.push_str("none")?,
        }
        text.push('\n')?;
        if written > 0 {
            text.push_str(" wrote ")?;
            push_printed(text, self.texts.get(..written as usize).unwrap_or(b""))?;
            text.push('\n')?;
        }
        Ok(())
    }
}
