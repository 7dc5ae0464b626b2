//! An engine and four libraries in threads of their own, which grant, send, give back, take back
//! and take at random.
ghost use Rattle.std.specs.Prelude.{◌≡◌, IfSome};
ghost use Rattle.lease_words.specs.Tokens.{new_library_seats};

use crate::draw::{some_library, some_session};
use crate::engine::Engine;
use crate::library::{Library, Sending};
use crate::marks::{Mark, Sender, Taker, all_are_taken};
use anyhow::{Context, Result, ensure};
use lease_core::{MOST_LEASES, Word};
use lease_words::{EngineSeat, Leases, LibrarySeat};
use std::alloc::Global;
use std::thread;
use std::thread::Threads;

// How many items a library sends, and how often a thread tries at most.
const SENDS: usize = 25_000;

const MOST: u32 = 50_000_000;

// Takes until there is none, and says whether it came so far.
fn drain(engine: &mut Engine<'_>, taker: &mut Taker, s: u16, lease: u32) -> Option<()>
    ensures { engine.new.leases ≡ engine.old.leases }
{
    for _ in 0..17u32 {
        let Some(item) = engine.take(s) else {
            return Some(());
        };
        taker.note(s, &item, lease)?;
    }
    None
}

// Takes what this word showed. Before that an active lease may be taken back, and after one that ended the next is
// granted.
fn go_on(engine: &mut Engine<'_>, taker: &mut Taker, s: u16, word: Word) -> Option<()>
    ensures { engine.new.leases ≡ engine.old.leases }
{
    let is_active = engine.is_running(s);
    if is_active && taker.draw.below(40) == 0 {
        engine.revoke(s);
        return Some(());
    }
    drain(engine, taker, s, word.lease)?;
    if !is_active && word.lease < MOST_LEASES {
        taker.end(s, word.count);
        let library = some_library(&mut taker.draw);
        engine.grant(s, library)?;
    }
    Some(())
}

fn engine_step(engine: &mut Engine<'_>, taker: &mut Taker, s: u16) -> Option<()>
    ensures { engine.new.leases ≡ engine.old.leases }
{
    let word = engine.look(s)?;
    go_on(engine, taker, s, word)
}

// Whether each library has beaten, which it does as it ends.
fn have_ended(engine: &mut Engine<'_>) -> bool
    ensures { engine.new.leases ≡ engine.old.leases }
{
    for library in 1..5u8 {
        if engine.beats(library) == Some(0) {
            return false;
        }
    }
    true
}

// Goes on until all libraries have ended.
fn go_on_long(engine: &mut Engine<'_>, taker: &mut Taker)
    ensures { engine.new.leases ≡ engine.old.leases }
{
    for _ in 0..MOST {
        let s = some_session(&mut taker.draw);
        if engine_step(engine, taker, s).is_none() {
            break;
        }
        if taker.draw.below(16) == 0 {
            if have_ended(engine) {
                break;
            }
            thread::yield_now();
        }
    }
}

fn run_engine(leases: &Leases, seat: EngineSeat, mut taker: Taker) -> (EngineSeat, Taker)
    requires table { seat.table ≡ leases.now }
    requires sessions { leases.now.shape.sessions ≡ 3 }
    ensures table { result.0.table ≡ leases.now }
{
    let mut engine = Engine::of(leases, seat, 3);
    go_on_long(&mut engine, &mut taker);
    (engine.seat, taker)
}

// Sends an item, and says whether the next one may be tried.
fn send(alloc: Global, library: &mut Library<'_>, sender: &mut Sender, mark: Mark) -> Option<bool>
    ensures { library.new.leases ≡ library.old.leases }
{
    let body = mark.body(alloc).ok()?;
    match library.send(alloc, mark.session, body.as_bytes()).ok()? {
        Sending::Made(_) => {
            sender.sent.push(mark).ok()?;
            Some(true)
        }
        Sending::Refused(_) => Some(false),
        Sending::NotHeld | Sending::Unfit | Sending::AnotherBack => None,
    }
}

// Sends a few items by the lease that is held, until one is refused.
fn send_some(
    alloc: Global,
    library: &mut Library<'_>,
    sender: &mut Sender,
    s: u16,
    lease: u32,
) -> Option<()>
    ensures { library.new.leases ≡ library.old.leases }
{
    let count = 1 + sender.draw.below(6);
    for _ in 0..count {
        let mark = sender.next(s, lease, library.number());
        if !send(alloc, library, sender, mark)? {
            thread::yield_now();
            break;
        }
    }
    Some(())
}

// Does something with a lease that is held.
fn use_lease(
    alloc: Global,
    library: &mut Library<'_>,
    sender: &mut Sender,
    s: u16,
    lease: u32,
) -> Option<()>
    ensures { library.new.leases ≡ library.old.leases }
{
    let heir = library.number() % 4 + 1;
    match sender.draw.below(30) {
        0 => {
            let _count = library.release(s)?;
        }
        1 => {
            let _count = library.release_to(s, heir)?;
        }
        _ => send_some(alloc, library, sender, s, lease)?,
    }
    Some(())
}

// Does something with the lease that a look shows, and says whether there was one.
fn library_step(
    alloc: Global,
    library: &mut Library<'_>,
    sender: &mut Sender,
    s: u16,
) -> Option<bool>
    ensures { library.new.leases ≡ library.old.leases }
{
    let Some(lease) = library.hold(s) else {
        return Some(false);
    };
    use_lease(alloc, library, sender, s, lease)?;
    Some(true)
}

// Goes on until enough was sent, and beats.
fn send_long(alloc: Global, library: &mut Library<'_>, sender: &mut Sender)
    ensures { library.new.leases ≡ library.old.leases }
{
    for _ in 0..MOST {
        let s = some_session(&mut sender.draw);
        match library_step(alloc, library, sender, s) {
            Some(true) => {}
            Some(false) => thread::yield_now(),
            None => break,
        }
        if sender.sent.len() >= SENDS {
            break;
        }
    }
    library.beat();
}

fn run_library(
    alloc: Global,
    leases: &Leases,
    seat: LibrarySeat,
    mut sender: Sender,
) -> (LibrarySeat, Sender)
    requires { seat.table ≡ leases.now }
    ensures { result.0.table ≡ leases.now }
{
    let mut library = Library::new(leases, seat);
    send_long(alloc, &mut library, &mut sender);
    (library.seat, sender)
}

// Runs two libraries, each in a thread.
fn run_two<R: Threads + Sync>(
    rt: &R,
    alloc: Global,
    leases: &Leases,
    first: LibrarySeat,
    second: LibrarySeat,
    seed: u64,
) -> ((LibrarySeat, Sender), (LibrarySeat, Sender))
    requires tables { (first.table ≡ leases.now) × (second.table ≡ leases.now) }
    ensures tables { (result.0.0.table ≡ leases.now) × (result.1.0.table ≡ leases.now) }
{
    let one = Sender::new(alloc, seed);
    let two = Sender::new(alloc, seed ^ 77);
    thread::join(
        rt,
        move || -> (LibrarySeat, Sender)
            requires { first.table ≡ leases.now }
            ensures { result.0.table ≡ leases.entry.now }
        { run_library(alloc, leases, first, one) },
        move || -> (LibrarySeat, Sender)
            requires { second.table ≡ leases.now }
            ensures { result.0.table ≡ leases.entry.now }
        { run_library(alloc, leases, second, two) },
    )
}

/// The seats of four libraries.
#[derive(Drop)]
struct Seats {
    first: LibrarySeat,
    second: LibrarySeat,
    third: LibrarySeat,
    fourth: LibrarySeat,
    ghost two: { second.table ≡ first.table },
    ghost three: { third.table ≡ first.table },
    ghost four: { fourth.table ≡ first.table },
}

// Those of a new table for four.
fn seats_of(seats: Vec<LibrarySeat>, leases: &Leases) -> Option<Seats>
    requires { seats.items ≡ new_library_seats leases.now 1 4 }
    ensures { IfSome result (λ seats. seats.first.table ≡ leases.now) }
{
    let mut seats = seats.into_iter();
    let first = seats.next()?;
    let second = seats.next()?;
    let third = seats.next()?;
    let fourth = seats.next()?;
    Some(Seats {
        first,
        second,
        third,
        fourth,
    })
}

// Runs the four libraries, each in a thread.
fn run_four<R: Threads + Sync>(
    rt: &R,
    alloc: Global,
    leases: &Leases,
    seats: Seats,
) -> (Seats, [Sender; 4])
    requires { seats.first.table ≡ leases.now }
    ensures { result.0.first.table ≡ leases.now }
{
    let Seats {
        first,
        second,
        third,
        fourth,
    } = seats;
    let ((one, two), (three, four)) = thread::join(
        rt,
        move || -> ((LibrarySeat, Sender), (LibrarySeat, Sender))
            requires { (first.table ≡ leases.now) × (second.table ≡ leases.now) }
            ensures { (result.0.0.table ≡ leases.entry.now) × (result.1.0.table ≡ leases.entry.now) }
        { run_two(rt, alloc, leases, first, second, 1) },
        move || -> ((LibrarySeat, Sender), (LibrarySeat, Sender))
            requires { (third.table ≡ leases.now) × (fourth.table ≡ leases.now) }
            ensures { (result.0.0.table ≡ leases.entry.now) × (result.1.0.table ≡ leases.entry.now) }
        { run_two(rt, alloc, leases, third, fourth, 2) },
    );
    let seats = Seats {
        first: one.0,
        second: two.0,
        third: three.0,
        fourth: four.0,
    };
    (seats, [one.1, two.1, three.1, four.1])
}

// Takes the four seats in.
fn settle_all(leases: &Leases, engine: &mut EngineSeat, seats: Seats)
    requires { (engine.old.table ≡ leases.now) × (seats.first.table ≡ leases.now) }
    ensures { engine.new.table ≡ leases.now }
{
    let Seats {
        first,
        second,
        third,
        fourth,
    } = seats;
    leases.settle(engine, first);
    leases.settle(engine, second);
    leases.settle(engine, third);
    leases.settle(engine, fourth);
}

// Takes a session back where it is still active, and takes what was sent.
fn close(engine: &mut Engine<'_>, taker: &mut Taker, s: u16) -> Option<()>
    ensures { engine.new.leases ≡ engine.old.leases }
{
    let mut word = engine.look(s)?;
    if engine.is_running(s) {
        word = engine.revoke(s)?;
    }
    drain(engine, taker, s, word.lease)?;
    taker.end(s, word.count);
    Some(())
}

fn close_all(engine: &mut Engine<'_>, taker: &mut Taker) -> Option<()> {
    for s in 0..3u16 {
        close(engine, taker, s)?;
    }
    Some(())
}

// Runs the engine beside the four libraries, and settles them. What each did is answered, the engine's first.
fn run_all<R: Threads + Sync>(
    rt: &R,
    alloc: Global,
    leases: &Leases,
    engine: EngineSeat,
    seats: Seats,
) -> (EngineSeat, Taker, [Sender; 4])
    requires engine { engine.table ≡ leases.now }
    requires sessions { leases.now.shape.sessions ≡ 3 }
    requires seats { seats.first.table ≡ leases.now }
    ensures { result.0.table ≡ leases.now }
{
    let taker = Taker::new(alloc, 2026);
    let ((mut engine, taker), (seats, senders)) = thread::join(
        rt,
        move || -> (EngineSeat, Taker)
            requires { (engine.table ≡ leases.now) × (leases.now.shape.sessions ≡ 3) }
            ensures { result.0.table ≡ leases.entry.now }
        { run_engine(leases, engine, taker) },
        move || -> (Seats, [Sender; 4])
            requires { seats.first.table ≡ leases.now }
            ensures { result.0.first.table ≡ leases.entry.now }
        { run_four(rt, alloc, leases, seats) },
    );
    settle_all(leases, &mut engine, seats);
    (engine, taker, senders)
}

// How many items were sent, if those of each library were taken, in order and no more.
fn sent(senders: &[Sender], taker: &Taker) -> Result<usize> {
    let mut all = 0usize;
    for (place, sender) in senders.iter().enumerate() {
        let library = (place % 4) as u8 + 1;
        ensure!(all_are_taken(sender, taker, library), "library {library}");
        all = all.saturating_add(sender.sent.len());
    }
    Ok(all)
}

/// Lets them run until each library sent enough, and fails where something was lost or taken twice.
pub(crate) fn relay<R: Threads + Sync>(rt: &R, alloc: Global) -> Result<()> {
    let (leases, engine, seats) = Leases::new(alloc, 3, 4, 4, 60)?;
    let seats = seats_of(seats, &leases).context("a seat")?;
    let (engine, mut taker, senders) = run_all(rt, alloc, &leases, engine, seats);
    let mut engine = Engine::of(&leases, engine, 3);
    close_all(&mut engine, &mut taker).context("an end")?;
    let all = sent(&senders, &taker)?;
    ensure!(taker.wrong == 0, "{} are wrong", taker.wrong);
    ensure!(
        taker.taken.len() == all,
        "{} were taken of {all}",
        taker.taken.len()
    );
    ensure!(all >= 4 * SENDS, "{all} were sent");
    Ok(())
}
