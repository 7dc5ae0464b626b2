//! What happens to a session or to its connection, as data.

ghost use Rattle.std.specs.Prelude.{IfOk};
ghost use Rattle.std.specs.List.{All};
ghost use Rattle.resend_plan.specs.Fit.{IsFit};

use crate::desk::Desk;
use crate::texts::{frame, soh};
use book_desk::put_body;
use connection_core::OwnedPiece;
use gate_io::{Bytes, NoMemory};
use lease_core::Word;
use std::alloc::Global;
use std::collections::VecDeque;

/// What each send says.
const REPORT: &str = "35=8|37=O1|";

/// An event, with what it is handed and, where it hands out something, what that is.
#[derive(Clone, Copy)]
pub enum Event {
    /// These bytes come on the connection; the frame of this body.
    Take(&'static str),
    TakeFrame(&'static str),
    /// A piece is handed out, which is good and has this body, or has so many garbled bytes.
    Good(&'static str),
    Garbled(usize),
    /// The texts of what waits are made, and are these.
    Prepare(&'static str),
    /// A Logon binds the session to the connection; the session asks for one there.
    Bind(&'static str),
    Dial,
    /// A message comes; the clock stands so many milliseconds past the morning's beginning.
    Receive(&'static str),
    Tick(u64),
    /// The connection ends.
    Leave,
    /// A library asks for the session.
    Request(u8),
    /// What a word shows, with so many sends; the session is taken back behind that.
    Show(Word, usize),
    TimeOut(Word, usize),
    /// The heir didn't come.
    Lapse,
    /// The records of all entries are made.
    Keep,
}

impl Event {
    /// Whether a refused allocation may leave a beginning of what it does, so that it can't happen again.
    pub fn may_begin(self) -> bool {
        matches!(
            self,
            Event::Bind(_) | Event::Dial | Event::Receive(_) | Event::Tick(_)
        )
    }
}

impl Desk {
    /// The event happens. Says whether it could, and handed out what it should.
    pub fn happen(&mut self, alloc: Global, event: Event) -> Result<bool, NoMemory> {
        match event {
            Event::Bind(text) => self.bind(alloc, soh(alloc, text)?),
            Event::Receive(text) => self.receive(alloc, soh(alloc, text)?),
            Event::Dial => self.dial(alloc),
            Event::Tick(past) => self.tick(alloc, past),
            Event::Leave => self.leave(),
            Event::Keep => self.keep(alloc),
            _ => self.lease(alloc, event),
        }
    }

    /// What the leases do.
    fn lease(&mut self, alloc: Global, event: Event) -> Result<bool, NoMemory> {
        match event {
            Event::Request(library) => self.request(library),
            Event::Lapse => self.lapse(),
            Event::Show(w, sends) => self.show(alloc, w, reports(alloc, sends)?),
            Event::TimeOut(old, sends) => self.time_out(alloc, old, reports(alloc, sends)?),
            _ => self.connect(alloc, event),
        }
    }

    /// What the connection alone does.
    fn connect(&mut self, alloc: Global, event: Event) -> Result<bool, NoMemory> {
        match event {
            Event::Take(text) => self.take_in(soh(alloc, text)?.as_slice()),
            Event::TakeFrame(text) => self.take_in(frame(alloc, text)?.as_slice()),
            Event::Good(text) => {
                let body = soh(alloc, text)?;
                let piece = self.next(alloc)?;
                Ok(matches!(piece, Some(OwnedPiece::Good(found)) if found == body))
            }
            Event::Garbled(count) => {
                let piece = self.next(alloc)?;
                Ok(matches!(piece, Some(OwnedPiece::Garbled { length }) if length == count))
            }
            Event::Prepare(text) => {
                let wanted = soh(alloc, text)?;
                self.prepare()?;
                Ok(self.waiting() == wanted.as_slice())
            }
            _ => Ok(false),
        }
    }
}

/// So many bodies of a report.
fn reports(alloc: Global, count: usize) -> Result<VecDeque<Bytes>, NoMemory>
    ensures { IfOk result (λ bodies. All IsFit bodies.items) }
{
    let mut bodies = VecDeque::new(alloc);
    for _report in 0..count {
        put_body(&mut bodies, soh(alloc, REPORT)?)?;
    }
    Ok(bodies)
}
