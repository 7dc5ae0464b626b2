//! How the sessions, the table, the rings and both their sides are made.

ghost use Rattle.std.specs.Prelude.{◌≡◌, ◌+◌, ◌<◌, ◌≤◌, [], None, Some, IfOk, IfSome, OnOk, length, map};
ghost use Rattle.desk_tests.specs.Outset.{AreEnds, IsFresh, dialler_of, outset_shape};
ghost use Rattle.desk_tests.specs.Begin.{AreForTwo, IsOutset, IsOutsetTable};
ghost use Rattle.desk_tests.specs.Running.{IsRunning};
ghost use Rattle.lease_core.specs.declared.limits.TheConstants.{MOST_LEASES};
ghost use Rattle.lease_words.specs.Tokens.{new_engine_seat};
ghost use Rattle.library_desk.specs.declared.ends.EngineEnds.{EngineEnds};
ghost use Rattle.session_core.specs.State.{IsDialHeart};
ghost use Rattle.session_desk.specs.Steps.{AreNoted, AreRoutes};
ghost use Rattle.switchboard.specs.Board.{Board, book_at};
ghost use Rattle.switchboard.specs.Sound.{bound_of};

use crate::engine_desk::EngineDesk;
use crate::outset::Outset;
use crate::texts::T;
use anyhow::{Context, Result};
use catchup_pump::Cursor;
use fix_fields::LONGEST_NAME;
use gate_io::{Bytes, NoMemory};
use lease_core::{Command, Notice};
use lease_desk::LeaseDesk;
use lease_words::{EngineSeat, LANE_SLOTS, Leases, LibrarySeat};
use library_api::LibraryEnds2;
use library_clock::Watch;
use library_desk::{EngineEnds, LibraryDesk, Shared};
use ring_links::{Head, Ring, Tail, ring};
use session_book::{Revival, SessionBook, Unkept};
use session_core::Names;
use session_desk::Routes;
use std::alloc::Global;
use switchboard::Switchboard;
use switchboard::laws::boards_stay_ready;

/// How long an heir is waited for, in milliseconds.
pub const HOLD: u64 = 2_000;

/// For how many notices a ring has room at most.
pub const MOST_NOTICES: u64 = 256;

// The HeartBtInt of a session that dials, in seconds.
const HEART: u32 = 30;

// How many libraries there are, and how long a beat may stand still, in milliseconds.
const LIBRARIES: u8 = 2;

const TIMEOUT: u64 = 5_000;

// How often a session can be granted, how many sends a lease makes, for how many of them a lane has
// room, and for how many commands a ring.
const LEASES: u32 = 2;

const SENDS: u32 = 9;

const DEPTH: u8 = 16;

const COMMANDS: u64 = 256;

/// The engine's side and those of the two libraries.
#[derive(Drop)]
pub struct Sides {
    pub desk: EngineDesk,
    pub first: LibraryEnds2,
    pub second: LibraryEnds2,
}

/// The two rings of a library with their ends.
#[derive(Drop)]
struct Rings {
    commands: Ring<Command>,
    notices: Ring<Notice>,
    engine: EngineEnds,
    tail: Tail<Command>,
    head: Head<Notice>,
    ghost engine_head: { engine.head.ring ≡ commands },
    ghost engine_tail: { engine.tail.ring ≡ notices },
    ghost library_tail: { tail.ring ≡ commands },
    ghost library_head: { head.ring ≡ notices },
}

/// The table, with the engine's seat and those of the two libraries.
#[derive(Drop)]
struct Table {
    leases: Leases,
    seat: EngineSeat,
    first: LibrarySeat,
    second: LibrarySeat,
}

/// The sessions as a row begins, with what the engine keeps of them and of its libraries.
#[derive(Drop)]
struct Sessions {
    board: Switchboard,
    routes: Routes,
    unkept: Vec<Unkept>,
    watch: Watch,
    cursors: Vec<Cursor>,
}

/// Room for the rings of the two libraries, and for the engine's ends of them.
#[derive(Drop)]
struct Lists {
    commands: Vec<Ring<Command>>,
    notices: Vec<Ring<Notice>>,
    ends: Vec<EngineEnds>,
}

/// A table and rings as the outset says, with sessions that nobody has yet, and their two sides. All that wants memory
/// comes first, each part by a call of its own: so little is to be let go where one is refused.
pub fn make(alloc: Global, outset: Outset) -> Result<(Shared, Sides)>
    ensures running { IfOk result (λ made. IsRunning made.0 made.1.desk) }
    ensures first { IfOk result (λ made. AreEnds made.0 0 made.1.first) }
    ensures second { IfOk result (λ made. AreEnds made.0 1 made.1.second) }
{
    let dials = heart_of(outset.is_dialling);
    let lists = make_lists(alloc)?;
    let first = make_rings(alloc, outset.notices)?;
    let second = make_rings(alloc, outset.notices)?;
    let table = make_table(alloc)?;
    let sessions = make_sessions(alloc, dials)?;
    Ok(put_together(alloc, lists, first, second, table, sessions, dials))
}

// The two sides of their parts.
fn put_together(
    alloc: Global,
    lists: Lists,
    first: Rings,
    second: Rings,
    table: Table,
    sessions: Sessions,
    dials: Option<u32>,
) -> (Shared, Sides)
    requires dials { IfSome dials IsDialHeart }
    requires lists { AreForTwo lists }
    requires table { IsOutsetTable table }
    requires sessions { IsOutset dials sessions }
    ensures running { IsRunning result.0 result.1.desk }
    ensures first { AreEnds result.0 0 result.1.first }
    ensures second { AreEnds result.0 1 result.1.second }
{
    let Lists {
        mut commands,
        mut notices,
        mut ends,
    } = lists;
    commands.push(first.commands).unwrap();
    commands.push(second.commands).unwrap();
    notices.push(first.notices).unwrap();
    notices.push(second.notices).unwrap();
    ends.push(first.engine).unwrap();
    ends.push(second.engine).unwrap();
    let shared = Shared {
        leases: table.leases,
        commands,
        notices,
    };
    let sides = Sides {
        desk: engine_desk(alloc, &shared, table.seat, ends, sessions, dials),
        first: library_ends(table.first, first.tail, first.head),
        second: library_ends(table.second, second.tail, second.head),
    };
    (shared, sides)
}

fn make_lists(alloc: Global) -> Result<Lists, NoMemory>
    ensures { IfOk result AreForTwo }
{
    Ok(Lists {
        commands: Vec::with_capacity(alloc, 2)?,
        notices: Vec::with_capacity(alloc, 2)?,
        ends: Vec::with_capacity(alloc, 2)?,
    })
}

// A library's end of the table and of its rings.
fn library_ends(seat: LibrarySeat, tail: Tail<Command>, head: Head<Notice>) -> LibraryEnds2
    ensures seat { result.seat ≡ seat }
    ensures tail { result.tail ≡ tail }
    ensures head { result.head ≡ head }
{
    LibraryEnds2 {
        number: seat.number(),
        seat,
        tail,
        head,
    }
}

// A table for two sessions and two libraries, before which nothing was.
fn make_table(alloc: Global) -> Result<Table>
    ensures { IfOk result IsOutsetTable }
{
    let (leases, seat, seats) = Leases::new(alloc, 2, LIBRARIES, DEPTH, SENDS)?;
    let mut seats = seats.into_iter();
    let first = seats.next().context("a seat")?;
    let second = seats.next().context("a seat")?;
    Ok(Table {
        leases,
        seat,
        first,
        second,
    })
}

// The HeartBtInt of the second session, if that dials.
fn heart_of(is_dialling: bool) -> Option<u32>
    ensures { IfSome result IsDialHeart }
{
    if is_dialling { Some(HEART) } else { None }
}

// The engine's side of a table that is new, with its ends of the rings.
fn engine_desk(
    alloc: Global,
    _shared: &Shared,
    seat: EngineSeat,
    ends: Vec<EngineEnds>,
    sessions: Sessions,
    dials: Option<u32>,
) -> EngineDesk
    requires dials { IfSome dials IsDialHeart }
    requires shape { _shared.now.leases.shape ≡ outset_shape _shared.now.leases.shape.depth _shared.now.leases.shape.sends }
    requires depth { _shared.now.leases.shape.depth ≤ LANE_SLOTS }
    requires seat { seat ≡ new_engine_seat _shared.now.leases }
    requires count { length ends.items ≡ 2 }
    requires commands { map (λ (e : EngineEnds). e.head.ring) ends.items ≡ _shared.now.commands.items }
    requires notices { map (λ (e : EngineEnds). e.tail.ring) ends.items ≡ _shared.now.notices.items }
    requires sessions { IsOutset dials sessions }
    ensures { IsRunning _shared.now result }
{
    boards_stay_ready();
    let Sessions {
        board,
        routes,
        unkept,
        watch,
        cursors,
    } = sessions;
    let desk = LeaseDesk::new(alloc, board, seat);
    let libraries = LibraryDesk {
        desk,
        watch,
        ends,
        cursors,
        strays: Vec::new(alloc),
    };
    EngineDesk {
        libraries,
        routes,
        unkept,
        dialler: dialler(dials),
    }
}

// The sessions of a row, before they have a seat at the table.
fn make_sessions(alloc: Global, dials: Option<u32>) -> Result<Sessions, NoMemory>
    requires { IfSome dials IsDialHeart }
    ensures { IfOk result (IsOutset dials) }
{
    let watch = Watch::new(alloc, LIBRARIES, TIMEOUT, T)?;
    let cursors = Vec::from_array(alloc, [cursor(0), cursor(1)])?;
    let unkept = unkept(alloc)?;
    let board = board(alloc, dials)?;
    let routes = routes(alloc, &board, dials)?;
    Ok(Sessions {
        board,
        routes,
        unkept,
        watch,
        cursors,
    })
}

fn make_rings(alloc: Global, notices: u64) -> Result<Rings, NoMemory>
    requires { (0 < notices) × (notices ≤ MOST_NOTICES) }
{
    let (commands, tail, engine_head) = ring(alloc, COMMANDS)?;
    let (notices, engine_tail, head) = ring(alloc, notices)?;
    let engine = EngineEnds {
        head: engine_head,
        tail: engine_tail,
    };
    Ok(Rings {
        commands,
        notices,
        engine,
        tail,
        head,
    })
}

fn cursor(s: u16) -> Cursor
    ensures { result ≡ record { s = s; lease = 0; at = 0 } }
{
    Cursor { s, lease: 0, at: 0 }
}

// The sessions GATE/BUYER and GATE/SELLER, with no connection, of which the second may dial.
fn board(alloc: Global, dials: Option<u32>) -> Result<Switchboard, NoMemory>
    requires { IfSome dials IsDialHeart }
    ensures { IfOk result (IsFresh dials) }
{
    boards_stay_ready();
    let mut board = Switchboard::new(alloc);
    let first = session(alloc, b"BUYER", None)?;
    board.add(first)?;
    let second = session(alloc, b"SELLER", dials)?;
    board.add(second)?;
    Ok(board)
}

// A session of which nothing was heard, and which dials where there is a HeartBtInt.
fn session(alloc: Global, them: &[u8], dials: Option<u32>) -> Result<SessionBook, NoMemory>
    requires them { length them.now ≤ LONGEST_NAME }
    requires dials { IfSome dials IsDialHeart }
    ensures entries { IfOk result (λ made. made.book.entries ≡ []) }
    ensures leases { IfOk result (λ made. made.book.leases ≤ MOST_LEASES) }
    ensures free { IfOk result (λ made. bound_of made.book ≡ None) }
    ensures dials { IfOk result (λ made. made.book.machine.dials ≡ dials) }
{
    let us = Vec::from_slice(alloc, b"GATE")?;
    let them = Vec::from_slice(alloc, them)?;
    match dials {
        None => SessionBook::new(alloc, us, them, LEASES),
        Some(heart) => dialling(alloc, us, them, heart),
    }
}

// A session of which nothing was heard, and which dials.
fn dialling(alloc: Global, us: Vec<u8>, them: Vec<u8>, heart: u32) -> Result<SessionBook, NoMemory>
    requires us { length us.items ≤ LONGEST_NAME }
    requires them { length them.items ≤ LONGEST_NAME }
    requires heart { IsDialHeart heart }
    ensures entries { IfOk result (λ made. made.book.entries ≡ []) }
    ensures leases { IfOk result (λ made. made.book.leases ≤ MOST_LEASES) }
    ensures free { IfOk result (λ made. bound_of made.book ≡ None) }
    ensures dials { IfOk result (λ made. made.book.machine.dials ≡ Some heart) }
{
    let nothing = Revival::new(alloc, LEASES)?;
    let made = SessionBook::resume(alloc, nothing, us, them, Some(heart), 1, 0)?;
    Ok(made)
}

// The session that dials, if one does.
fn dialler(dials: Option<u32>) -> Option<u16>
    ensures { result ≡ dialler_of dials }
{
    match dials {
        None => None,
        Some(_) => Some(1),
    }
}

// The routes of the sessions that accept, the last one first.
fn routes(alloc: Global, board: &Switchboard, dials: Option<u32>) -> Result<Routes, NoMemory>
    requires { IsFresh dials board.now }
    ensures routes { IfOk result (AreRoutes board.now) }
    ensures few { IfOk result (λ routes. length routes.names.items ≤ 2) }
{
    let mut routes = Routes {
        names: Vec::new(alloc),
        sessions: Vec::new(alloc),
    };
    add_second_route(alloc, board, &mut routes, dials)?;
    add_route(alloc, board, &mut routes, 0)?;
    Ok(routes)
}

// The route of the second session, if that accepts.
fn add_second_route(
    alloc: Global,
    board: &Switchboard,
    routes: &mut Routes,
    dials: Option<u32>,
) -> Result<(), NoMemory>
    requires fresh { IsFresh dials board.now }
    requires routes { AreRoutes board.now routes.old }
    ensures routes { OnOk result (AreRoutes board.now routes.new) }
    ensures count { OnOk result (length routes.new.names.items ≤ length routes.old.names.items + 1) }
{
    match dials {
        None => add_route(alloc, board, routes, 1),
        Some(_) => Ok(()),
    }
}

// The route of a session that accepts.
fn add_route(
    alloc: Global,
    board: &Switchboard,
    routes: &mut Routes,
    s: u16,
) -> Result<(), NoMemory>
    requires session { s < length board.now.sessions }
    requires accepts { (book_at board.now s).machine.dials ≡ None }
    requires routes { AreRoutes board.now routes.old }
    ensures routes { OnOk result (AreRoutes board.now routes.new) }
    ensures count { OnOk result (length routes.new.names.items ≡ length routes.old.names.items + 1) }
{
    let names = copy(alloc, board.session(s as usize).names())?;
    routes.names.push(names)?;
    routes.sessions.push(s)?;
    Ok(())
}

fn copy(alloc: Global, names: &Names) -> Result<Names, NoMemory>
    ensures { IfOk result (λ copied. copied ≡ names.now) }
{
    Ok(Names {
        us: Bytes::of(Vec::from_slice(alloc, names.us.as_slice())?),
        them: Bytes::of(Vec::from_slice(alloc, names.them.as_slice())?),
    })
}

// Nothing was noted of two sessions.
fn unkept(alloc: Global) -> Result<Vec<Unkept>, NoMemory>
    ensures { IfOk result (λ unkept. (board : Board) → length board.sessions ≡ 2 → AreNoted unkept.items board) }
{
    let unkept = Vec::from_array(alloc, [Unkept::new(alloc, 0), Unkept::new(alloc, 0)])?;
    Ok(unkept)
}
