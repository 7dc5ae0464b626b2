//! Rings in rows, whose two ends are called in turn.
ghost use Rattle.std.specs.Prelude.{◌≡◌, ◌≤◌, ◌<◌};

use crate::rows::Played;
use gate_io::NoMemory;
use ring_links::{Full, Head, Ring, Room, Tail, ring};
use row_text::Words;
use row_text::answers::{Answer, made, shown, text};
use std::alloc::Global;
use std::fmt::Debug;

/// What goes through a row's ring.
pub(crate) trait Load: Sized {
    /// What a word says.
    fn of(alloc: Global, word: &str) -> Result<Option<Self>, NoMemory>;
}

impl Load for u64 {
    fn of(_alloc: Global, word: &str) -> Result<Option<u64>, NoMemory> {
        Ok(word.parse::<u64>().ok())
    }
}

impl Load for String {
    fn of(alloc: Global, word: &str) -> Result<Option<String>, NoMemory> {
        Ok(Some(String::from_str(alloc, word)?))
    }
}

/// A ring and its ends.
#[derive(Drop)]
struct Ends<T> {
    ring: Ring<T>,
    tail: Tail<T>,
    head: Head<T>,
    ghost tail_is: { tail.ring ≡ ring },
    ghost head_is: { head.ring ≡ ring },
}

impl<T> Ends<T> {
    fn new(alloc: Global, capacity: u64) -> Result<Ends<T>, NoMemory>
        requires { (0 < capacity) × (capacity ≤ 256) }
    {
        let (ring, tail, head) = ring(alloc, capacity)?;
        Ok(Ends { ring, tail, head })
    }

    fn push(&mut self, item: T) -> Result<(), Full<T>> {
        self.ring.push(&mut self.tail, item)
    }

    fn pop(&mut self) -> Option<T> {
        self.ring.pop(&mut self.head)
    }

    fn room(&mut self) -> Room {
        self.ring.room(&mut self.tail)
    }

    fn meet(&mut self) {
        self.ring.meet(&mut self.tail, &mut self.head);
    }
}

impl<T: Drop> Ends<T> {
    // What is left in the ring.
    fn finish(self, alloc: Global) -> Result<Vec<T>, NoMemory> {
        let Ends { ring, tail, head } = self;
        match ring.finish(alloc, tail, head) {
            Ok(left) => Ok(left),
            Err((error, _, _, _)) => Err(error),
        }
    }
}

/// What is done in a row.
#[derive(Clone, Copy)]
enum Deed<'a> {
    Push(&'a str),
    Pop,
    // The numbers from 0 to before this one are pushed, or popped in order.
    Pushes(u64),
    Pops(u64),
    Room,
    Meet,
    Finish,
}

fn deed_of<'a>(words: &mut Words<'a>) -> Option<Deed<'a>> {
    Some(match words.word()? {
        "push" => Deed::Push(words.word()?),
        "pop" => Deed::Pop,
        "pushes" => Deed::Pushes(words.number()?),
        "pops" => Deed::Pops(words.number()?),
        "room" => Deed::Room,
        "meet" => Deed::Meet,
        "finish" => Deed::Finish,
        _ => return None,
    })
}

/// A ring, as long as it isn't finished.
#[derive(Drop)]
pub(crate) struct Queue<T> {
    ends: Option<Ends<T>>,
}

// The load of a number.
fn load_of<T: Load + Drop>(alloc: Global, number: u64) -> Result<Option<T>, NoMemory> {
    let word = format!(in alloc; "{number}")?;
    T::of(alloc, word.as_str())
}

fn push<T: Load + Debug + Drop>(alloc: Global, ends: &mut Ends<T>, word: &str) -> Answer {
    match T::of(alloc, word)? {
        Some(item) => shown(alloc, &ends.push(item)),
        None => text(alloc, "no item"),
    }
}

// Whether there was room for all the numbers.
fn pushes<T: Load + Drop>(alloc: Global, ends: &mut Ends<T>, count: u64) -> Result<bool, NoMemory> {
    for number in 0..count {
        let Some(item) = load_of(alloc, number)? else {
            return Ok(false);
        };
        if ends.push(item).is_err() {
            return Ok(false);
        }
    }
    Ok(true)
}

// Whether the numbers came in order.
fn pops<T: Load + PartialEq + Drop>(
    alloc: Global,
    ends: &mut Ends<T>,
    count: u64,
) -> Result<bool, NoMemory> {
    for number in 0..count {
        let wanted: Option<T> = load_of(alloc, number)?;
        if wanted.is_none() || ends.pop() != wanted {
            return Ok(false);
        }
    }
    Ok(true)
}

impl<T: Load + Debug + PartialEq + Drop> Queue<T> {
    /// An empty ring with room for so many items; None where there can't be one.
    pub(crate) fn new(alloc: Global, capacity: u64) -> Result<Option<Queue<T>>, NoMemory> {
        if capacity == 0 || capacity > 256 {
            return Ok(None);
        }
        let ends = Some(Ends::new(alloc, capacity)?);
        Ok(Some(Queue { ends }))
    }

    fn finish(&mut self, alloc: Global) -> Answer {
        match self.ends.take() {
            Some(ends) => shown(alloc, &ends.finish(alloc)?),
            None => text(alloc, NO_RING),
        }
    }

    fn does(&mut self, alloc: Global, deed: Deed<'_>) -> Answer {
        let Some(ends) = &mut self.ends else {
            return text(alloc, NO_RING);
        };
        match deed {
            Deed::Push(word) => push(alloc, ends, word),
            Deed::Pop => shown(alloc, &ends.pop()),
            Deed::Pushes(count) => made(alloc, pushes(alloc, ends, count)?),
            Deed::Pops(count) => made(alloc, pops(alloc, ends, count)?),
            Deed::Room => shown(alloc, &ends.room()),
            Deed::Meet => {
                ends.meet();
                made(alloc, true)
            }
            Deed::Finish => self.finish(alloc),
        }
    }
}

const NO_RING: &str = "no ring";

impl<T: Load + Debug + PartialEq + Drop> Played for Queue<T> {
    fn answer(&mut self, alloc: Global, command: &str) -> Option<Answer> {
        let mut words = Words::of(command);
        let deed = deed_of(&mut words)?;
        if !words.is_over() {
            return None;
        }
        Some(self.does(alloc, deed))
    }
}
