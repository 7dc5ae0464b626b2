//! A session at its clock, whose acts are told as text.
ghost use Rattle.std.specs.Prelude.{◌≡◌, ◌+◌, ◌≤◌, IsSome, true};
ghost use Rattle.gate_io.specs.declared.clocks.TheConstants.{LAST_MOMENT};
ghost use Rattle.seq_gaps.specs.declared.offered.TheConstants.{MAX_NUMBER};
ghost use Rattle.session_core.specs.declared.phases.Phase.TheVariants.{Off};

use crate::texts::{T, soh};
use gate_io::{LAST_MOMENT, NoMemory};
use row_text::legible;
use session_core::{Act, Admin, Effects, Names, Session, admin_body};
use std::alloc::Global;
use std::fmt::Write;

/// The HeartBtInt of a session that dials, in seconds.
const HEART: u32 = 30;

/// The session GATE/BUYER, the moment at which its clock stands, and the number of what it sent last.
#[derive(Drop)]
pub struct Desk {
    session: Session,
    dials: bool,
    is_off: bool,
    moment: u64,
    last_number: u64,
    ghost asks: { dials ≡ true → IsSome session.dials },
    ghost off: { is_off ≡ true → session.phase ≡ Off },
    ghost within: { moment ≤ LAST_MOMENT },
}

impl Desk {
    /// A session that accepts connections, and expects 1.
    pub fn new(alloc: Global) -> Result<Desk, NoMemory> {
        let session = Session::new(alloc, soh(alloc, "GATE")?, soh(alloc, "BUYER")?)?;
        Ok(Desk::of(session))
    }

    /// A session that accepts connections, and goes on from a record.
    pub fn resuming(alloc: Global, expected: u32) -> Result<Desk, NoMemory>
        requires from { 1 ≤ expected }
        requires to { expected ≤ MAX_NUMBER + 1 }
    {
        let us = soh(alloc, "GATE")?;
        let them = soh(alloc, "BUYER")?;
        let session = Session::resume(alloc, us, them, expected)?;
        Ok(Desk::of(session))
    }

    /// A session that dials, and expects this number.
    pub fn dialling(alloc: Global, expected: u32) -> Result<Desk, NoMemory>
        requires from { 1 ≤ expected }
        requires to { expected ≤ MAX_NUMBER + 1 }
    {
        let us = soh(alloc, "GATE")?;
        let them = soh(alloc, "BUYER")?;
        let session = Session::dialling(alloc, us, them, HEART, expected)?;
        Ok(Desk {
            session,
            dials: true,
            is_off: true,
            moment: T,
            last_number: 0,
        })
    }

    fn of(session: Session) -> Desk {
        Desk {
            session,
            dials: false,
            is_off: false,
            moment: T,
            last_number: 0,
        }
    }

    pub fn expected(&self) -> u32 {
        self.session.expected()
    }

    pub fn due(&self) -> Option<u64> {
        self.session.due()
    }

    pub fn names(&self) -> &Names {
        self.session.names()
    }

    pub fn moment(&self) -> u64 {
        self.moment
    }

    /// The clock stands at this moment, or at the last one.
    pub fn set(&mut self, moment: u64) {
        self.moment = moment.min(LAST_MOMENT);
    }

    /// An item for the connection is queued.
    pub fn sent(&mut self) {
        self.session.sent(self.moment);
    }

    /// The connection ended.
    pub fn leave(&mut self) {
        self.session.leave();
        self.is_off = true;
    }

    /// The session dialled, if it is one that dials and is off.
    pub fn ask(&mut self, alloc: Global) -> Result<Option<Effects>, NoMemory> {
        if !self.dials || !self.is_off {
            return Ok(None);
        }
        self.is_off = false;
        let effects = self.session.ask(alloc, self.moment)?;
        Ok(Some(effects))
    }

    /// A message comes. Answers what follows.
    pub fn receive(&mut self, alloc: Global, text: &str) -> Result<String, NoMemory> {
        let body = soh(alloc, text)?;
        self.is_off = false;
        let effects = self.session.receive(alloc, body, self.moment)?;
        self.tell(alloc, &effects)
    }

    /// The clock asks the session what is due. Answers what follows.
    pub fn tick(&mut self, alloc: Global) -> Result<String, NoMemory> {
        self.is_off = false;
        let effects = self.session.tick(alloc, self.moment)?;
        self.tell(alloc, &effects)
    }

    /// Effects as text: what is sent stands as it is written with its number.
    pub fn tell(&mut self, alloc: Global, effects: &Effects) -> Result<String, NoMemory> {
        let mut text = String::new(alloc);
        for act in effects.acts.as_slice() {
            put_act(alloc, &mut text, &mut self.last_number, act)?;
        }
        if let Some(cause) = effects.end {
            write!(text, "[end {cause:?}]")?;
        }
        Ok(text)
    }
}

// Writes an act, behind which the number of what was sent last is as it says.
fn put_act(
    alloc: Global,
    text: &mut String,
    last_number: &mut u64,
    act: &Act,
) -> Result<(), NoMemory> {
    match act {
        Act::Accept(body) => put_bytes(alloc, text, "accept", body.as_slice()),
        Act::Send(admin) => {
            *last_number = last_number.wrapping_add(1);
            put_admin(alloc, text, admin, *last_number)
        }
        Act::Resend { begin, last } => Ok(write!(text, "[resend {begin} {last}]")?),
        Act::Reset => {
            *last_number = 0;
            Ok(text.push_str("[reset]")?)
        }
    }
}

fn put_admin(alloc: Global, text: &mut String, admin: &Admin, number: u64) -> Result<(), NoMemory> {
    let body = admin_body(alloc, admin, number)?;
    put_bytes(alloc, text, "send", body.as_slice())
}

fn put_bytes(alloc: Global, text: &mut String, word: &str, bytes: &[u8]) -> Result<(), NoMemory> {
    let bytes = legible(alloc, bytes)?;
    Ok(write!(text, "[{word} {bytes}]")?)
}
