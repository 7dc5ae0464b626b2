//! What the engine's thread and the libraries' threads tell each other.

ghost use Rattle.std.specs.Prelude.{◌≡◌, ◌≤◌, IfOk, length, min};
ghost use Rattle.example_broker.specs.Floors.{place_at};

use crate::books::Book;
use engine_config::Config;
use gate_io::NoMemory;
use std::alloc::Global;
use std::sync::Mutex;
use std::sync::atomic::{AtomicU64, Ordering};
use thread_bells::Bells;

/// How many libraries there are.
pub(crate) const LIBRARIES: u8 = 2;

/// Behind so many fills of a session the library that doesn't have it asks for it.
pub(crate) const SHIFT: u64 = 1_000;

/// How a library parted with a lease.
#[derive(Clone, Copy, Debug, PartialEq, Eq)]
pub enum Parting {
    HandedOver,
    GivenBack,
    /// It fell silent.
    TakenBack,
}

/// A session, as the libraries share it.
pub struct Place {
    pub(crate) book: Mutex<Book>,
    /// How many orders were filled.
    fills: AtomicU64,
    /// How often the other library asked for the session.
    asked: AtomicU64,
    /// How often the session was let go for it, and had been asked for when a library last took it.
    let_go: AtomicU64,
    taken: AtomicU64,
    /// The last lease that a library handed to the other, and the last one that it gave back for nobody.
    handed: AtomicU64,
    given_back: AtomicU64,
}

impl Drop for Place {
    fn drop(self) {
        let Place {
            book: _,
            fills: _,
            asked: _,
            let_go: _,
            taken: _,
            handed: _,
            given_back: _,
        } = self;
    }
}

impl Place {
    fn new(alloc: Global) -> Place {
        Place {
            book: Mutex::new(Book::new(alloc)),
            fills: AtomicU64::new(0),
            asked: AtomicU64::new(0),
            let_go: AtomicU64::new(0),
            taken: AtomicU64::new(0),
            handed: AtomicU64::new(0),
            given_back: AtomicU64::new(0),
        }
    }

    /// An order was filled.
    pub(crate) fn count_fill(&self) {
        self.fills.fetch_add(1, Ordering::SeqCst);
    }

    pub(crate) fn fills(&self) -> u64 {
        self.fills.load(Ordering::SeqCst)
    }

    /// How often the session went from one library to the other.
    pub(crate) fn moves(&self) -> u64 {
        self.let_go.load(Ordering::SeqCst)
    }

    /// The number of the library that is to have session `s`: at first they take turns.
    pub(crate) fn keeper(&self, s: u16) -> u8
        ensures first { 1 ≤ result }
        ensures last { result ≤ LIBRARIES }
    {
        let turn = (u64::from(s) % 2 + self.asked.load(Ordering::SeqCst) % 2) % 2;
        if turn == 0 { 1 } else { 2 }
    }

    /// Whether there were enough fills for the library that isn't to have the session to ask for it: but not while it is
    /// on its way to the other, for which it is reserved.
    pub(crate) fn is_due(&self) -> bool {
        let asked = self.asked.load(Ordering::SeqCst);
        self.fills() / SHIFT > asked && self.taken.load(Ordering::SeqCst) == asked
    }

    /// A library has taken the session.
    pub(crate) fn take(&self) {
        let asked = self.asked.load(Ordering::SeqCst);
        self.taken.store(asked, Ordering::SeqCst);
    }

    /// The library that isn't to have the session asks for it, once there were enough fills. No two of them do so at
    /// a time, since whoever asked is the one that is to have it.
    pub(crate) fn ask_if_due(&self) {
        if self.is_due() {
            let asked = self.asked.load(Ordering::SeqCst);
            self.asked.store(asked.saturating_add(1), Ordering::SeqCst);
        }
    }

    /// The library that isn't to have the session has let it go.
    pub(crate) fn let_go(&self) {
        let asked = self.asked.load(Ordering::SeqCst);
        self.let_go.store(asked, Ordering::SeqCst);
    }

    /// Whether the library that is to have the session may request it.
    pub(crate) fn is_free(&self) -> bool {
        self.let_go.load(Ordering::SeqCst) == self.asked.load(Ordering::SeqCst)
    }

    /// A library is about to hand this lease to the other.
    pub(crate) fn hand(&self, lease: u32) {
        self.handed.store(u64::from(lease), Ordering::SeqCst);
    }

    /// A library is about to give this lease back.
    pub(crate) fn give_back(&self, lease: u32) {
        self.given_back.store(u64::from(lease), Ordering::SeqCst);
    }

    /// How a library parted with this lease.
    pub(crate) fn parting(&self, lease: u32) -> Parting {
        let lease = u64::from(lease);
        if self.handed.load(Ordering::SeqCst) == lease {
            Parting::HandedOver
        } else if self.given_back.load(Ordering::SeqCst) == lease {
            Parting::GivenBack
        } else {
            Parting::TakenBack
        }
    }
}

/// All sessions, and how far the run is.
#[derive(Drop)]
pub struct Floor {
    places: Vec<Place>,
    /// The place of every session that isn't configured: there is none of which a message comes.
    nowhere: Place,
    /// By which the threads wake each other.
    bells: Bells,
    /// Each connection has ended: the libraries are to finish.
    closing: AtomicU64,
    /// The engine makes no turn any more.
    stopped: AtomicU64,
}

impl Floor {
    /// A floor of so many sessions.
    pub(crate) fn new(alloc: Global, sessions: usize) -> Result<Floor, NoMemory>
        ensures { IfOk result (λ floor. length floor.places.items ≡ sessions) }
    {
        let mut places = Vec::with_capacity(alloc, sessions)?;
        for _s in 0..sessions {
            places.push(Place::new(alloc))?;
        }
        Ok(Floor {
            places,
            nowhere: Place::new(alloc),
            bells: Bells::new(alloc, usize::from(LIBRARIES))?,
            closing: AtomicU64::new(0),
            stopped: AtomicU64::new(0),
        })
    }

    /// A floor of the sessions of a configuration.
    pub(crate) fn of(alloc: Global, config: &Config) -> Result<Floor, NoMemory>
        ensures { IfOk result (λ floor. length floor.places.items ≡ length config.now.names) }
    {
        Floor::new(alloc, config.names.as_slice().len())
    }

    /// How many sessions there are.
    pub(crate) fn sessions(&self) -> u16
        ensures { result ≡ min (length self.now.places.items) 65535 }
    {
        self.places.len().min(usize::from(u16::MAX)) as u16
    }

    /// The place of a session.
    pub(crate) fn place(&self, s: u16) -> &Place
        ensures { result.now ≡ place_at self.now s }
    {
        match self.places.get(usize::from(s)) {
            Some(place) => place,
            None => &self.nowhere,
        }
    }

    pub(crate) fn bells(&self) -> &Bells {
        &self.bells
    }

    /// The library with this number did something for the other one.
    pub(crate) fn wake_other(&self, number: u8) {
        self.bells.wake(if number == 1 { 2 } else { 1 });
    }

    pub(crate) fn close(&self) {
        if !self.is_closing() {
            self.closing.store(1, Ordering::SeqCst);
            self.bells.wake(1);
            self.bells.wake(2);
        }
    }

    pub(crate) fn is_closing(&self) -> bool {
        self.closing.load(Ordering::SeqCst) > 0
    }

    pub(crate) fn stop(&self) {
        self.stopped.store(1, Ordering::SeqCst);
        self.bells.end();
    }

    pub(crate) fn has_stopped(&self) -> bool {
        self.stopped.load(Ordering::SeqCst) > 0
    }
}
