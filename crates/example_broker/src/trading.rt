//! A trading library: its thread's loop.

ghost use Rattle.std.specs.Prelude.{◌≡◌, ◌⊎◌, ℕ, IfOk, OnErr, OnOk, slice_index_or, slice_set};
ghost use Rattle.library_api.specs.Ends.{belongings};
ghost use Rattle.example_broker.specs.Traders.{HasTraded, IsTrader};
ghost use Rattle.example_broker.specs.Trades.{AnswersOver, BeginsRound, FollowsOn, GivesAllBack, GivesBack, HandsOver, Looks, LooksAt, PartsBehind, PartsWith, Round, TellsDone, Trades, TradesShort};

use crate::answering::{Answer, answer_message};
use crate::calling::{give_back, hand, poll, request, say_done};
use crate::floor::Floor;
use crate::resting::{NAP, rest};
use gate_io::{Lack, NoMemory};
use library_api::{Event, Library, Links};
use library_desk::Shared;
use std::alloc::Global;
use std::sync::Wait;
use std::time::Duration;
use std::{rt, thread};

/// Behind so many polls in a row that found nothing a library ends, where each connection has ended.
const QUIET: u64 = 200;

/// How many rounds a library makes at most before it looks at all sessions.
const ROUNDS: u32 = 64;

/// How often the word that all is done is tried.
const TELLINGS: u32 = 10_000;

/// A trading library.
#[derive(Drop)]
pub struct Trader {
    pub(crate) number: u8,
    pub(crate) library: Library,
    pub(crate) desk: Desk,
    /// Memory was wanting to its loop.
    pub(crate) short: bool,
}

/// What a library keeps of its own.
#[derive(Drop)]
pub struct Desk {
    pub(crate) number: u8,
    /// For each session the lease that it was granted, and hasn't lost or given back so far as it knows, or 0.
    pub(crate) leases: Vec<u32>,
    /// How many rounds there are to the next look at all sessions.
    pub(crate) rounds: u32,
    /// How many messages it read.
    pub(crate) reads: u64,
}

impl Trader {
    /// Trades until each connection has ended and nothing is left to read.
    pub(crate) fn trade<R: Wait + rt::Clock>(
        &mut self,
        rt: &R,
        alloc: Global,
        shared: &Shared,
        floor: &Floor,
    )
        requires trader { IsTrader shared.now self.old }
        ensures trades { HasTraded self.old self.new }
        ensures trader { IsTrader shared.now self.new }
    {
        let place = usize::from(self.number - 1);
        let links = Links {
            leases: &shared.leases,
            commands: &shared.commands[place],
            notices: &shared.notices[place],
        };
        let outcome = trade_all(rt, alloc, &mut self.library, &links, floor, &mut self.desk);
        self.short = outcome.is_err();
        give_all_back(&mut self.library, &links, floor, &mut self.desk);
        tell_done(rt, &mut self.library, &links, floor, !self.short);
    }
}

/// Trades, round by round, until each connection has ended and nothing is left to read.
pub(crate) fn trade_all<R: Wait + rt::Clock>(
    rt: &R,
    alloc: Global,
    library: &mut Library,
    links: &Links,
    floor: &Floor,
    desk: &mut Desk,
) -> Result<(), NoMemory>
    requires table { library.old.ends.seat.table ≡ links.now.leases.now }
    requires tail { library.old.ends.tail.ring ≡ links.now.commands.now }
    requires head { library.old.ends.head.ring ≡ links.now.notices.now }
    ensures trades { OnOk result (Trades desk.old.number library.old library.new) }
    ensures short { OnErr result (TradesShort desk.old.number library.old library.new) }
    ensures number { desk.new.number ≡ desk.old.number }
    ensures belongings { belongings library.new.ends ≡ belongings library.old.ends }
{
    'trading: for _round in rt.forever() {
        round(rt, alloc, library, links, floor, desk)?;
        if is_done(library, floor) {
            return Ok(());
        }
    }
    unreachable!()
}

/// Whether nothing more is to come.
fn is_done(library: &Library, floor: &Floor) -> bool {
    floor.has_stopped() || floor.is_closing() && library.waited().count() > QUIET
}

/// Looks at the sessions where that is due, polls once, and does what the event is about.
fn round<R: Wait + rt::Clock>(
    rt: &R,
    alloc: Global,
    library: &mut Library,
    links: &Links,
    floor: &Floor,
    desk: &mut Desk,
) -> Result<(), NoMemory>
    requires table { library.old.ends.seat.table ≡ links.now.leases.now }
    requires tail { library.old.ends.tail.ring ≡ links.now.commands.now }
    requires head { library.old.ends.head.ring ≡ links.now.notices.now }
    ensures round { OnOk result (Round desk.old.number library.old library.new) }
    ensures short { OnErr result (BeginsRound desk.old.number library.old library.new) }
    ensures number { desk.new.number ≡ desk.old.number }
    ensures belongings { belongings library.new.ends ≡ belongings library.old.ends }
{
    let looks = desk.rounds == 0;
    look_if_due(rt, library, links, floor, desk);
    let event = poll(library, links);
    let answered = follow(rt, alloc, library, links, floor, desk, &event)?;
    part(library, links, floor, desk, answered);
    if library.waited().count() == 0 {
        floor.bells().acted(rt, u32::from(desk.number));
        return Ok(());
    }
    desk.rounds = 0;
    // It waits only behind a look at all sessions: else it looks at them next.
    if looks {
        rest(rt, floor, desk.number, Lack::News);
    }
    Ok(())
}

/// Does what an event is about. Answers what became of a message, and of which session it was.
fn follow<R: Wait + rt::Clock>(
    rt: &R,
    alloc: Global,
    library: &mut Library,
    links: &Links,
    floor: &Floor,
    desk: &mut Desk,
    event: &Event,
) -> Result<Option<(u16, Answer)>, NoMemory>
    requires table { library.old.ends.seat.table ≡ links.now.leases.now }
    ensures follows { IfOk result (λ answered. FollowsOn event.now answered library.old library.new) }
    ensures short { OnErr result (library.new ≡ library.old) }
    ensures number { desk.new.number ≡ desk.old.number }
    ensures belongings { belongings library.new.ends ≡ belongings library.old.ends }
{
    match event {
        Event::Message { s, pos, bytes, .. } => {
            desk.reads = desk.reads.saturating_add(1);
            let answer = answer(
                rt,
                alloc,
                library,
                links,
                floor,
                desk.number,
                *s,
                *pos,
                bytes.as_slice(),
            )?;
            Ok(Some((*s, answer)))
        }
        Event::Granted { s, lease, .. } => {
            floor.place(*s).take();
            desk.set_lease(*s, *lease);
            Ok(None)
        }
        Event::LeaseLost { s, .. } => {
            desk.set_lease(*s, 0);
            Ok(None)
        }
        Event::Nothing | Event::NotYet { .. } | Event::Refused { .. } | Event::Stale { .. } => {
            Ok(None)
        }
    }
}

/// Answers a message over the book of its session, which is this library's alone until the answer is sent.
fn answer<R: Wait + rt::Clock>(
    rt: &R,
    alloc: Global,
    library: &mut Library,
    links: &Links,
    floor: &Floor,
    number: u8,
    s: u16,
    pos: u64,
    bytes: &[u8],
) -> Result<Answer, NoMemory>
    requires table { library.old.ends.seat.table ≡ links.now.leases.now }
    ensures answers { IfOk result (λ answer. AnswersOver s pos bytes.now answer library.old library.new) }
    ensures short { OnErr result (library.new ≡ library.old) }
    ensures belongings { belongings library.new.ends ≡ belongings library.old.ends }
{
    let place = floor.place(s);
    let mut guard = place.book.lock(rt);
    let book = &mut *guard;
    let answer = answer_message(
        rt, alloc, library, links, floor, number, s, pos, bytes, book,
    )?;
    if let Answer::Filled = answer {
        place.count_fill();
        if place.is_due() {
            floor.wake_other(number);
        }
    }
    Ok(answer)
}

/// Behind an event: parts with the session of its message, where that is due.
fn part(
    library: &mut Library,
    links: &Links,
    floor: &Floor,
    desk: &mut Desk,
    answered: Option<(u16, Answer)>,
)
    requires table { library.old.ends.seat.table ≡ links.now.leases.now }
    ensures parts { PartsWith desk.old.number answered library.old library.new }
    ensures number { desk.new.number ≡ desk.old.number }
    ensures belongings { belongings library.new.ends ≡ belongings library.old.ends }
{
    if let Some((s, answer)) = answered {
        part_if_due(library, links, floor, desk, s, answer);
    }
}

/// Behind a message: parts with its session, where that is to go, or where it couldn't be answered.
fn part_if_due(
    library: &mut Library,
    links: &Links,
    floor: &Floor,
    desk: &mut Desk,
    s: u16,
    answer: Answer,
)
    requires table { library.old.ends.seat.table ≡ links.now.leases.now }
    ensures parts { PartsBehind desk.old.number s answer library.old library.new }
    ensures number { desk.new.number ≡ desk.old.number }
    ensures belongings { belongings library.new.ends ≡ belongings library.old.ends }
{
    if let Answer::Gone = answer {
        floor.place(s).give_back(desk.lease_of(s));
        give_back(library, links, s);
        desk.set_lease(s, 0);
    } else if floor.place(s).keeper(s) != desk.number {
        hand_over(library, links, floor, desk, s);
    }
}

/// Looks at all sessions, where a poll found nothing or there were enough rounds.
fn look_if_due<R: Wait>(
    rt: &R,
    library: &mut Library,
    links: &Links,
    floor: &Floor,
    desk: &mut Desk,
)
    requires table { library.old.ends.seat.table ≡ links.now.leases.now }
    requires tail { library.old.ends.tail.ring ≡ links.now.commands.now }
    ensures looks { Looks desk.old.number library.old library.new }
    ensures number { desk.new.number ≡ desk.old.number }
    ensures belongings { belongings library.new.ends ≡ belongings library.old.ends }
{
    if desk.rounds > 0 {
        desk.rounds -= 1;
        return;
    }
    desk.rounds = ROUNDS;
    'looking: for s in 0..floor.sessions() {
        look_at(rt, library, links, floor, desk, s);
    }
}

/// Takes a session that this library is to have, or lets another one go.
fn look_at<R: Wait>(
    rt: &R,
    library: &mut Library,
    links: &Links,
    floor: &Floor,
    desk: &mut Desk,
    s: u16,
)
    requires table { library.old.ends.seat.table ≡ links.now.leases.now }
    requires tail { library.old.ends.tail.ring ≡ links.now.commands.now }
    ensures looks { LooksAt desk.old.number s library.old library.new }
    ensures number { desk.new.number ≡ desk.old.number }
    ensures belongings { belongings library.new.ends ≡ belongings library.old.ends }
{
    let place = floor.place(s);
    if place.keeper(s) != desk.number {
        if place.is_due() {
            place.ask_if_due();
            floor.wake_other(desk.number);
        }
        hand_over(library, links, floor, desk, s);
        return;
    }
    if desk.lease_of(s) == 0 && library.asking().is_none() && place.is_free() {
        // Behind the last message that was answered.
        let next = place.book.lock(rt).next;
        request(library, links, s, next);
        floor.bells().engine().ring();
    }
}

/// Hands a session to the library that is to have it, and tells that it was let go.
fn hand_over(library: &mut Library, links: &Links, floor: &Floor, desk: &mut Desk, s: u16)
    requires table { library.old.ends.seat.table ≡ links.now.leases.now }
    ensures hands { (library.new ≡ library.old) ⊎ HandsOver desk.old.number s library.old library.new }
    ensures number { desk.new.number ≡ desk.old.number }
    ensures belongings { belongings library.new.ends ≡ belongings library.old.ends }
{
    let place = floor.place(s);
    let heir = place.keeper(s);
    if heir == desk.number {
        return;
    }
    let lease = desk.lease_of(s);
    if lease == 0 {
        let_go(floor, desk, s);
        return;
    }
    place.hand(lease);
    hand(library, links, s, heir);
    desk.set_lease(s, 0);
    let_go(floor, desk, s);
    floor.bells().engine().ring();
}

/// The session was let go: the other library may request it, and is woken where it didn't know.
fn let_go(floor: &Floor, desk: &Desk, s: u16) {
    let place = floor.place(s);
    if !place.is_free() {
        place.let_go();
        floor.wake_other(desk.number);
    }
}

/// Gives every session back.
fn give_all_back(library: &mut Library, links: &Links, floor: &Floor, desk: &mut Desk)
    requires table { library.old.ends.seat.table ≡ links.now.leases.now }
    ensures gives { GivesAllBack library.old library.new }
    ensures belongings { belongings library.new.ends ≡ belongings library.old.ends }
{
    'giving: for s in 0..floor.sessions() {
        give_back_if_held(library, links, floor, desk, s);
    }
}

/// Gives a session back that the library has.
fn give_back_if_held(library: &mut Library, links: &Links, floor: &Floor, desk: &mut Desk, s: u16)
    requires table { library.old.ends.seat.table ≡ links.now.leases.now }
    ensures gives { (library.new ≡ library.old) ⊎ GivesBack s library.old library.new }
    ensures belongings { belongings library.new.ends ≡ belongings library.old.ends }
{
    let lease = desk.lease_of(s);
    if lease > 0 {
        floor.place(s).give_back(lease);
        give_back(library, links, s);
        desk.set_lease(s, 0);
    }
}

/// Tells the engine that nothing more comes, again while the ring of commands has no room.
fn tell_done<R: rt::Clock>(
    rt: &R,
    library: &mut Library,
    links: &Links,
    floor: &Floor,
    finished: bool,
)
    requires tail { library.old.ends.tail.ring ≡ links.now.commands.now }
    ensures tells { TellsDone finished library.old library.new }
    ensures belongings { belongings library.new.ends ≡ belongings library.old.ends }
{
    'telling: for _tries in 0..TELLINGS {
        if floor.has_stopped() {
            return;
        }
        if say_done(library, links, finished) {
            floor.bells().engine().ring();
            return;
        }
        thread::sleep(rt, Duration::from_micros(NAP));
    }
}

impl Desk {
    /// The lease of a session that this library has, so far as it knows, or 0.
    fn lease_of(&self, s: u16) -> u32
        ensures { result ≡ slice_index_or self.now.leases.items s 0 }
    {
        match self.leases.get(usize::from(s)) {
            Some(lease) => *lease,
            None => 0,
        }
    }

    fn set_lease(&mut self, s: u16, lease: u32)
        ensures leases { self.new.leases.items ≡ slice_set self.old.leases.items s lease }
        ensures number { self.new.number ≡ self.old.number }
    {
        if let Some(slot) = self.leases.get_mut(usize::from(s)) {
            *slot = lease;
        }
    }
}
