//! The engine and the libraries, each in a thread.
ghost use Rattle.std.specs.Prelude.{◌≡◌, ◌<◌, ◌≤◌, true, IfSome};
ghost use Rattle.lease_words.specs.Leases.{held_lease};
ghost use Rattle.lease_words.specs.Views.{library_at};

use lease_core::Standing;
use lease_words::{EngineSeat, Item, Leases, LibrarySeat, SendError};
use std::sync::Wait;
use std::thread;
use std::thread::Threads;

// The lease that a look shows to be held by the library of this number.
fn hold(leases: &Leases, seat: &mut LibrarySeat, s: u16, number: u8) -> Option<u32>
    requires table { seat.old.table ≡ leases.now }
    requires session { s < leases.now.shape.sessions }
    requires number { seat.old.knows.number ≡ number }
    ensures table { seat.new.table ≡ seat.old.table }
    ensures held { IfSome result (λ n. (0 < n) × (held_lease (library_at seat.new s).leases ≡ n)) }
{
    let word = leases.see(seat, s);
    let active = word.lease > 0 && matches!(word.standing, Standing::Active);
    if active && word.owner == number {
        Some(word.lease)
    } else {
        None
    }
}

// Sends an item, and tries again while the lane is full. It says whether the item was sent.
fn send<R: Wait>(rt: &R, leases: &Leases, seat: &mut LibrarySeat, s: u16, mut item: Item) -> bool
    requires table { seat.old.table ≡ leases.now }
    requires session { s < leases.now.shape.sessions }
    requires held { (0 < item.lease) × (held_lease (library_at seat.old s).leases ≡ item.lease) }
    ensures table { seat.new.table ≡ seat.old.table }
    ensures held { result ≡ true → held_lease (library_at seat.new s).leases ≡ item.lease }
{
    for _ in rt.forever() {
        match leases.send(seat, s, item) {
            Ok(_) => return true,
            Err((SendError::LaneFull { .. }, back)) => {
                item = back;
                thread::yield_now();
            }
            Err(_) => return false,
        }
    }
    unreachable!()
}

/// Sends the items by the lease that the library holds, and says whether all were sent.
fn send_all<R: Wait>(
    rt: &R,
    leases: &Leases,
    mut seat: LibrarySeat,
    s: u16,
    number: u8,
    items: Vec<Item>,
) -> bool
    requires table { seat.table ≡ leases.now }
    requires session { s < leases.now.shape.sessions }
    requires number { seat.knows.number ≡ number }
{
    let Some(lease) = hold(leases, &mut seat, s, number) else {
        return false;
    };
    for item in items {
        if item.lease != lease || !send(rt, leases, &mut seat, s, item) {
            return false;
        }
    }
    true
}

// Takes what a look at a session shows, and says whether there was memory for it.
fn take_some(leases: &Leases, engine: &mut EngineSeat, s: u16, taken: &mut Vec<Item>) -> bool
    requires table { engine.old.table ≡ leases.now }
    requires session { s < leases.now.shape.sessions }
    ensures table { engine.new.table ≡ engine.old.table }
{
    leases.look(engine, s);
    for _ in 0..17u32 {
        let Some(item) = leases.take(engine, s) else {
            break;
        };
        if taken.push(item).is_err() {
            return false;
        }
    }
    true
}

// Takes what a look at each of the first sessions shows.
fn take_round(
    leases: &Leases,
    engine: &mut EngineSeat,
    sessions: u16,
    taken: &mut Vec<Item>,
) -> bool
    requires table { engine.old.table ≡ leases.now }
    requires sessions { sessions ≤ leases.now.shape.sessions }
    ensures table { engine.new.table ≡ engine.old.table }
{
    for s in 0..sessions {
        if !take_some(leases, engine, s, taken) {
            return false;
        }
    }
    true
}

/// Takes as many items from the first sessions.
fn take_all<R: Wait>(
    rt: &R,
    leases: &Leases,
    mut engine: EngineSeat,
    sessions: u16,
    total: usize,
    mut taken: Vec<Item>,
) -> Vec<Item>
    requires table { engine.table ≡ leases.now }
    requires sessions { sessions ≤ leases.now.shape.sessions }
{
    for _ in rt.forever() {
        let before = taken.len();
        if !take_round(leases, &mut engine, sessions, &mut taken) || taken.len() >= total {
            return taken;
        }
        if taken.len() == before {
            thread::yield_now();
        }
    }
    unreachable!()
}

/// A library with its number, the session that it holds, and what it sends.
#[derive(Drop)]
pub struct Job {
    pub seat: LibrarySeat,
    pub number: u8,
    pub s: u16,
    pub items: Vec<Item>,
    ghost numbered: { seat.knows.number ≡ number },
}

impl Job {
    fn run<R: Wait>(self, rt: &R, leases: &Leases) -> bool
        requires { (self.seat.table ≡ leases.now) × (self.s < leases.now.shape.sessions) }
    {
        send_all(rt, leases, self.seat, self.s, self.number, self.items)
    }
}

// Runs two libraries, and says whether both sent all.
fn run_two<R: Threads + Wait + Sync>(rt: &R, leases: &Leases, a: Job, b: Job) -> bool
    requires first { (a.seat.table ≡ leases.now) × (a.s < leases.now.shape.sessions) }
    requires second { (b.seat.table ≡ leases.now) × (b.s < leases.now.shape.sessions) }
{
    let (first, second) = thread::join(
        rt,
        move || -> bool
            requires { (a.seat.table ≡ leases.now) × (a.s < leases.now.shape.sessions) }
        { a.run(rt, leases) },
        move || -> bool
            requires { (b.seat.table ≡ leases.now) × (b.s < leases.now.shape.sessions) }
        { b.run(rt, leases) },
    );
    first && second
}

/// Four libraries' jobs.
#[derive(Drop)]
pub struct Jobs {
    pub first: Job,
    pub second: Job,
    pub third: Job,
    pub fourth: Job,
}

// Runs four libraries, and says whether all sent all.
fn run_jobs<R: Threads + Wait + Sync>(rt: &R, leases: &Leases, jobs: Jobs) -> bool
    requires first { (jobs.first.seat.table ≡ leases.now) × (jobs.first.s < leases.now.shape.sessions) }
    requires second { (jobs.second.seat.table ≡ leases.now) × (jobs.second.s < leases.now.shape.sessions) }
    requires third { (jobs.third.seat.table ≡ leases.now) × (jobs.third.s < leases.now.shape.sessions) }
    requires fourth { (jobs.fourth.seat.table ≡ leases.now) × (jobs.fourth.s < leases.now.shape.sessions) }
{
    let Jobs {
        first: a,
        second: b,
        third: c,
        fourth: d,
    } = jobs;
    let (first, second) = thread::join(
        rt,
        move || -> bool
            requires { (a.seat.table ≡ leases.now) × (a.s < leases.now.shape.sessions) × (b.seat.table ≡ leases.now) × (b.s < leases.now.shape.sessions) }
        { run_two(rt, leases, a, b) },
        move || -> bool
            requires { (c.seat.table ≡ leases.now) × (c.s < leases.now.shape.sessions) × (d.seat.table ≡ leases.now) × (d.s < leases.now.shape.sessions) }
        { run_two(rt, leases, c, d) },
    );
    first && second
}

/// Runs the first library alone beside the engine, and answers what the engine took.
pub fn run_one<R: Threads + Wait + Sync>(
    rt: &R,
    leases: &Leases,
    engine: EngineSeat,
    jobs: Jobs,
    total: usize,
    taken: Vec<Item>,
) -> Vec<Item>
    requires table { engine.table ≡ leases.now }
    requires sessions { 1 ≤ leases.now.shape.sessions }
    requires first { (jobs.first.seat.table ≡ leases.now) × (jobs.first.s < leases.now.shape.sessions) }
{
    let Jobs {
        first: job,
        second: _second,
        third: _third,
        fourth: _fourth,
    } = jobs;
    let (_sent, taken) = thread::join(
        rt,
        move || -> bool
            requires { (job.seat.table ≡ leases.now) × (job.s < leases.now.shape.sessions) }
        { job.run(rt, leases) },
        move || -> Vec<Item>
            requires { (engine.table ≡ leases.now) × (1 ≤ leases.now.shape.sessions) }
        { take_all(rt, leases, engine, 1, total, taken) },
    );
    taken
}

/// Runs four libraries beside the engine, and answers what the engine took.
pub fn run_four<R: Threads + Wait + Sync>(
    rt: &R,
    leases: &Leases,
    engine: EngineSeat,
    jobs: Jobs,
    total: usize,
    taken: Vec<Item>,
) -> Vec<Item>
    requires table { engine.table ≡ leases.now }
    requires sessions { 4 ≤ leases.now.shape.sessions }
    requires first { (jobs.first.seat.table ≡ leases.now) × (jobs.first.s < leases.now.shape.sessions) }
    requires second { (jobs.second.seat.table ≡ leases.now) × (jobs.second.s < leases.now.shape.sessions) }
    requires third { (jobs.third.seat.table ≡ leases.now) × (jobs.third.s < leases.now.shape.sessions) }
    requires fourth { (jobs.fourth.seat.table ≡ leases.now) × (jobs.fourth.s < leases.now.shape.sessions) }
{
    let (_sent, taken) = thread::join(
        rt,
        move || -> bool
            requires { (jobs.first.seat.table ≡ leases.now) × (jobs.first.s < leases.now.shape.sessions) × (jobs.second.seat.table ≡ leases.now) × (jobs.second.s < leases.now.shape.sessions) × (jobs.third.seat.table ≡ leases.now) × (jobs.third.s < leases.now.shape.sessions) × (jobs.fourth.seat.table ≡ leases.now) × (jobs.fourth.s < leases.now.shape.sessions) }
        { run_jobs(rt, leases, jobs) },
        move || -> Vec<Item>
            requires { (engine.table ≡ leases.now) × (4 ≤ leases.now.shape.sessions) }
        { take_all(rt, leases, engine, 4, total, taken) },
    );
    taken
}
