//! The bells of a run: the engine's, and one for each library.

ghost use Rattle.std.specs.Prelude.{◌≡◌, IfOk, length};

use crate::bell::Bell;
use crate::pace::{Pace, micros};
use crossbeam_utils::CachePadded;
use gate_io::{Lack, NoMemory};
use std::alloc::Global;
use std::rt;
use std::sync::atomic::{AtomicU64, Ordering};
use std::sync::{Mutex, Wait};
use std::time::Duration;

/// How long a library sleeps at most, in milliseconds.
pub const LONGEST_SLEEP: u64 = 1_000;

/// A library sleeps for at most one of so many parts of the time for which it may be silent.
pub const PARTS: u64 = 4;

/// What the engine's thread and a library's share beside their rings.
struct Place {
    bell: Bell,
    /// How many notices the library had been told when its bell was last rung for them.
    told: AtomicU64,
    /// The library lacks room in its ring of commands or in a lane.
    lacks_room: AtomicU64,
    /// Of the library's thread, which alone takes it: its last call was in vain, and when it looks again.
    is_idle: AtomicU64,
    pace: Mutex<Pace>,
}

impl Drop for Place {
    fn drop(self) {
        let Place {
            bell: _,
            told: _,
            lacks_room: _,
            is_idle: _,
            pace: _,
        } = self;
    }
}

impl Place {
    fn new() -> Place {
        Place {
            bell: Bell::new(),
            told: AtomicU64::new(0),
            lacks_room: AtomicU64::new(0),
            is_idle: AtomicU64::new(0),
            pace: Mutex::new(Pace::new()),
        }
    }

    /// The engine made a turn, and has told the library so many notices in all: it is woken where there are new ones, or
    /// where it lacks room, of which a turn makes some.
    fn turned(&self, notices: u64) {
        let is_told = self.told.load(Ordering::SeqCst) != notices;
        if is_told {
            self.told.store(notices, Ordering::SeqCst);
        }
        let has_room = self.lacks_room.load(Ordering::SeqCst) > 0;
        if has_room {
            self.lacks_room.store(0, Ordering::SeqCst);
        }
        if is_told || has_room {
            self.bell.ring();
        }
    }

    /// The library's call wasn't in vain.
    fn acted<R: Wait + rt::Clock>(&self, rt: &R) {
        if self.is_idle.load(Ordering::SeqCst) == 0 {
            return;
        }
        self.is_idle.store(0, Ordering::SeqCst);
        let mut pace = self.pace.lock(rt);
        match micros(rt) {
            Some(now) => pace.found(now),
            None => *pace = Pace::new(),
        }
    }

    /// The library's call was in vain. Answers whether to make it again at once.
    fn looks_again<R: Wait + rt::Clock>(&self, rt: &R) -> bool {
        self.is_idle.store(1, Ordering::SeqCst);
        match micros(rt) {
            Some(now) => self.pace.lock(rt).found_nothing(now),
            None => false,
        }
    }
}

/// The bells by which the threads of a run wake each other: the engine's, and one for each of its libraries. All threads
/// share them by reference.
#[derive(Drop)]
pub struct Bells {
    engine: CachePadded<Bell>,
    libraries: Vec<CachePadded<Place>>,
    /// For how many milliseconds a library may be silent, or 0 where that wasn't told.
    silence: AtomicU64,
    /// The engine makes no further turn.
    over: AtomicU64,
}

impl Bells {
    /// The bells of an engine and so many libraries.
    pub fn new(alloc: Global, libraries: usize) -> Result<Bells, NoMemory> {
        let mut places = Vec::with_capacity(alloc, libraries)?;
        for _ in 0..libraries {
            places.push(CachePadded::new(Place::new()))?;
        }
        Ok(Bells {
            engine: CachePadded::new(Bell::new()),
            libraries: places,
            silence: AtomicU64::new(0),
            over: AtomicU64::new(0),
        })
    }

    /// The bell beside which the engine's thread sleeps.
    pub fn engine(&self) -> &Bell {
        &*self.engine
    }

    /// How many libraries have a bell.
    pub fn libraries(&self) -> usize {
        self.libraries.len()
    }

    /// The place of the library with this number, counted from 1.
    fn place(&self, library: u32) -> Option<&Place> {
        let place = (library as usize).checked_sub(1)?;
        match self.libraries.get(place) {
            Some(place) => Some(&**place),
            None => None,
        }
    }

    /// A run begins, in which a library that makes no call for so many milliseconds counts as silent. Told before any
    /// library waits.
    pub fn begin(&self, silence: u64) {
        self.silence.store(silence, Ordering::SeqCst);
    }

    /// For how long a library may sleep and still beat in time.
    fn longest_sleep(&self) -> Duration {
        let silence = self.silence.load(Ordering::SeqCst);
        let micros = silence.min(LONGEST_SLEEP * PARTS) * (1_000 / PARTS);
        Duration::from_micros(micros)
    }

    /// The engine made a turn, and has told the library with this number so many notices in all. The engine's thread
    /// tells it behind each turn.
    pub fn turned(&self, library: u32, notices: u64) {
        if let Some(place) = self.place(library) {
            place.turned(notices);
        }
    }

    /// The library with this number made a call that wasn't in vain: the engine is woken, where it sleeps. The library's
    /// thread tells it.
    pub fn acted<R: Wait + rt::Clock>(&self, rt: &R, library: u32) {
        if let Some(place) = self.place(library) {
            place.acted(rt);
        }
        self.engine.ring();
    }

    /// The library with this number made a call in vain, and is about to make it again: its thread may sleep here, until
    /// the engine has done something for it, another library wakes it, or it has to beat.
    pub fn wait<R: Wait + rt::Clock>(&self, rt: &R, library: u32, lack: Lack) {
        let Some(place) = self.place(library) else {
            return;
        };
        if self.is_over() || place.looks_again(rt) {
            return;
        }
        if let Lack::Room = lack {
            place.lacks_room.store(1, Ordering::SeqCst);
            self.engine.ring();
        }
        place.bell.sleep(rt, self.longest_sleep());
    }

    /// Wakes the library with this number, for which another one did something.
    pub fn wake(&self, library: u32) {
        if let Some(place) = self.place(library) {
            place.bell.ring();
        }
    }

    /// The engine makes no further turn: nobody waits for it any more.
    pub fn end(&self) {
        self.over.store(1, Ordering::SeqCst);
        for place in self.libraries.iter() {
            place.bell.ring();
        }
    }

    fn is_over(&self) -> bool {
        self.over.load(Ordering::SeqCst) > 0
    }
}
