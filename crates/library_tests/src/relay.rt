//! An engine and a library in threads of their own: messages go one way and sends the other, while
//! the engine takes sessions back and the library gives them back at random.
use crate::engine::Engine;
use crate::shared::{Limits, Shared};
use anyhow::{Context, Result, bail};
use draws::Draw;
use gate_io::Bytes;
use lease_core::{Command, Why};
use lease_words::Item;
use library_api::SendRefusal;
use library_play::{Application, Seen};
use std::alloc::Global;
use std::thread;
use std::thread::Threads;

// How many messages arrive, and how often a thread tries at most.
const MESSAGES: u64 = 10_000;

const MOST: u32 = 50_000_000;

/// A send: its lease, and its number among those that the library tried.
#[derive(Clone, Copy, Debug, PartialEq, Eq)]
struct Mark {
    lease: u32,
    number: u64,
}

impl Mark {
    // The mark of an item that has such a body.
    fn of(item: &Item) -> Option<Mark> {
        let text = std::str::from_utf8(item.body.as_slice()).ok()?;
        let number = text.strip_prefix("35=8\x0137=")?.strip_suffix("\x01")?;
        Some(Mark {
            lease: item.lease,
            number: number.parse::<u64>().ok()?,
        })
    }
}

fn body(alloc: Global, number: u64) -> Option<String> {
    format!(in alloc; "35=8\x0137={number}\x01").ok()
}

/// The engine, what it draws, the lease that it pumps for or 0, and what it took.
#[derive(Drop)]
struct Giver<'a> {
    engine: Engine<'a>,
    draw: Draw,
    lease: u32,
    taken: Vec<Mark>,
}

impl<'a> Giver<'a> {
    // Takes all that was sent, and says whether a lease is active.
    fn drain(&mut self) -> Option<bool> {
        let (_word, active) = self.engine.look();
        for _ in 0..17u32 {
            let Some(item) = self.engine.take() else {
                return Some(active);
            };
            self.taken.push(Mark::of(&item)?).ok()?;
        }
        None
    }

    // The session is granted from a position on, where it can be.
    fn grant(&mut self, nr: u32, from: u64) -> Option<()> {
        let active = self.drain()?;
        if active || !self.engine.point(self.lease, from) {
            let (word, _active) = self.engine.look();
            let why = Why::OtherOwner {
                owner: word.owner,
                lease: word.lease,
            };
            self.engine.tell_refused(nr, 0, why);
            return Some(());
        }
        self.lease = self.engine.grant(1)?;
        self.engine.point(self.lease, from);
        self.engine.tell_granted(nr, 0, self.lease, from);
        Some(())
    }

    // Whether the ring of notices has room for an answer.
    fn has_room(&mut self) -> bool {
        let room = self.engine.room();
        room.pushed.saturating_sub(room.taken) < 256
    }

    // Does what the next command says, and says whether the library is done.
    fn obey(&mut self) -> Option<bool> {
        if !self.has_room() {
            return Some(false);
        }
        match self.engine.command() {
            None => {}
            Some(Command::Done { .. }) => return Some(true),
            Some(Command::Request { nr, from, .. }) => self.grant(nr, from)?,
        }
        Some(false)
    }

    // Some messages arrive, and are pumped and then published.
    fn arrive(&mut self, alloc: Global) -> Option<()> {
        let count = self.draw.below(8);
        for _ in 0..count {
            let number = self.engine.log().len();
            if number < MESSAGES {
                self.engine
                    .arrive(alloc, body(alloc, number)?.as_bytes())
                    .ok()?;
            }
        }
        if self.lease > 0 {
            self.engine.pump(alloc).ok()?;
        }
        self.engine.publish();
        Some(())
    }

    // One turn of the engine. It says whether the library is done.
    fn turn(&mut self, alloc: Global) -> Option<bool> {
        if self.obey()? {
            return Some(true);
        }
        self.arrive(alloc)?;
        let active = self.drain()?;
        if active && self.draw.is_one_in(200) {
            self.engine.revoke();
        }
        if !active {
            self.lease = 0;
        }
        Some(false)
    }

    fn run(mut self, alloc: Global) -> Giver<'a> {
        for _ in 0..MOST {
            match self.turn(alloc) {
                Some(false) => {}
                Some(true) | None => break,
            }
            if self.draw.is_one_in(4) {
                thread::yield_now();
            }
        }
        self
    }
}

/// The library, what it draws, the lease that it was granted or 0, how many sends it tried, what
/// it sent, and the messages that it read.
#[derive(Drop)]
struct Reader<'a> {
    library: Application<'a>,
    draw: Draw,
    lease: u32,
    tried: u64,
    sent: Vec<Mark>,
    read: Vec<Bytes>,
    jumps: u32,
}

impl<'a> Reader<'a> {
    fn next(&self) -> u64 {
        self.read.len() as u64
    }

    // A poll, and a request where there is no lease. It says whether it waits.
    fn read(&mut self, alloc: Global) -> Option<bool> {
        match self.library.poll() {
            Seen::Nothing | Seen::NotYet { .. } => return Some(true),
            Seen::Granted { lease, .. } => self.lease = lease,
            Seen::Message { pos, .. } => {
                if pos != self.next() {
                    self.jumps = self.jumps.saturating_add(1);
                }
                let bytes = Vec::from_slice(alloc, self.library.bytes()).ok()?;
                self.read.push(Bytes::of(bytes)).ok()?;
            }
            Seen::LeaseLost { .. } => self.lease = 0,
            Seen::Refused { .. } | Seen::Stale { .. } => {}
        }
        Some(false)
    }

    // Requests the session where no lease is known and no request is open.
    fn ask(&mut self) {
        if self.lease == 0 && self.library.asking().is_none() {
            let from = self.next();
            let _answer = self.library.request(0, from);
        }
    }

    // Sends a few messages, until one is refused.
    fn send(&mut self, alloc: Global) -> Option<()> {
        let count = 1 + self.draw.below(6);
        for _ in 0..count {
            self.tried = self.tried.saturating_add(1);
            let number = self.tried;
            let body = body(alloc, number)?;
            match self.library.send(alloc, 0, body.as_bytes()).ok()?? {
                Ok(sent) => {
                    let lease = sent.lease;
                    self.sent.push(Mark { lease, number }).ok()?;
                }
                Err(why) => {
                    self.give_up(why);
                    break;
                }
            }
        }
        Some(())
    }

    // A send was refused. A lease that makes no more sends is given back.
    fn give_up(&mut self, why: SendRefusal) {
        match why {
            SendRefusal::LaneFull { .. } => {}
            SendRefusal::SendsSpent { .. } => self.release(),
            _ => self.lease = 0,
        }
    }

    // Gives the session back, or hands it on.
    fn release(&mut self) {
        if self.draw.is_one_in(2) {
            let _answer = self.library.release(0);
        } else {
            let _answer = self.library.release_to(0, 2);
        }
        self.lease = 0;
    }

    // One step of the library. It says whether it waits.
    fn step(&mut self, alloc: Global) -> Option<bool> {
        self.ask();
        match self.draw.below(300) {
            0 => {
                self.release();
                Some(false)
            }
            1..60 => {
                self.send(alloc)?;
                Some(false)
            }
            _ => self.read(alloc),
        }
    }

    // Tells the engine that all is done.
    fn end(&mut self) {
        for _ in 0..MOST {
            if self.library.done(true).is_ok() {
                return;
            }
            thread::yield_now();
        }
    }

    fn run(mut self, alloc: Global) -> Reader<'a> {
        for _ in 0..MOST {
            match self.step(alloc) {
                Some(false) => {}
                Some(true) => thread::yield_now(),
                None => break,
            }
            if self.next() >= MESSAGES {
                break;
            }
        }
        self.end();
        self
    }
}

// Whether what was read begins the log.
fn is_prefix(read: &[Bytes], engine: &Engine) -> bool {
    for (pos, bytes) in read.iter().enumerate() {
        if engine.log().body(pos as u64) != Some(bytes.as_slice()) {
            return false;
        }
    }
    true
}

// Whether all came whole and in order: the messages that were read, and the sends that were taken.
fn is_whole(giver: &Giver, reader: &Reader) -> bool {
    reader.next() == MESSAGES
        && reader.jumps == 0
        && is_prefix(reader.read.as_slice(), &giver.engine)
        && giver.taken.as_slice() == reader.sent.as_slice()
        && !reader.sent.is_empty()
}

/// Lets the two run until all messages are read, and fails where not all came whole and in order.
pub(crate) fn relay(rt: &impl Threads, alloc: Global) -> Result<()> {
    let limits = Limits {
        asks: u32::MAX,
        sends: 500,
        notices: 256,
    };
    let (shared, ends) = Shared::new(alloc, &limits)?;
    let (engine, library) = shared.sides(alloc, ends, limits.asks);
    let giver = Giver {
        engine,
        draw: Draw::new(2026),
        lease: 0,
        taken: Vec::new(alloc),
    };
    let reader = Reader {
        library,
        draw: Draw::new(11),
        lease: 0,
        tried: 0,
        sent: Vec::new(alloc),
        read: Vec::new(alloc),
        jumps: 0,
    };
    let (mut giver, reader) = thread::join(rt, move || giver.run(alloc), move || reader.run(alloc));
    giver.drain().context("an end")?;
    if !is_whole(&giver, &reader) {
        bail!("not all came whole and in order");
    }
    Ok(())
}
