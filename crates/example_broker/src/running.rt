//! A run of the broker: the engine in one thread, each library in one of its own, and what they leave.

ghost use Rattle.std.specs.Prelude.{◌≡◌, IfOk, OnErr, OnOk, false};
ghost use Rattle.std.specs.List.{All};
ghost use Rattle.std.specs.Thread.{IsSync};
ghost use Rattle.engine_config.specs.Config.{IsConfig};
ghost use Rattle.engine_end.specs.Records.{HasLawfulJournal};
ghost use Rattle.engine_loop.specs.Engines.{IsEngine};
ghost use Rattle.engine_loop.specs.Turns.{at_wire};
ghost use Rattle.example_broker.specs.Runs.{Runs};
ghost use Rattle.example_broker.specs.Traders.{AreTraders, HasTraded, HaveTraded, IsTrader};
ghost use Rattle.example_broker.specs.Turns.{Drives, DrivesShort};

use crate::counterparty::SpokenWire;
use crate::driving::drive;
use crate::floor::Floor;
use crate::leaving::leave;
use crate::starting::{Traders, make_traders};
use crate::trading::Trader;
use crate::watching::Watch;
use engine_config::Config;
use engine_loop::{Engine, start};
use gate_io::{Clock, Dial, LAST_MOMENT, Listened, NoMemory, StepClock};
use library_desk::Shared;
use run_report::RunRecord;
use std::alloc::Global;
use std::rt;
use std::sync::Wait;
use std::thread::{Threads, join_mut};

/// The moment of a run without a network: 20260105-09:30:00.000.
const MOMENT: u64 = 1_767_605_400_000;

/// Why a run left no record.
#[derive(Clone, Copy, Debug, PartialEq, Eq)]
pub enum NoRun {
    OutOfMemory,
    /// The wire doesn't listen.
    ListenFault,
}

impl From<NoMemory> for NoRun {
    fn from(_e: NoMemory) -> NoRun {
        NoRun::OutOfMemory
    }
}

/// Trades at an address.
pub(crate) fn serve<R: Threads + Wait + Eprint + rt::Clock + Sync, W: Dial + Send, C: Clock + Send>(
    rt: &R,
    alloc: Global,
    address: &str,
    config: Config,
    floor: &Floor,
    wire: &mut W,
    clock: &mut C,
) -> Result<RunRecord, NoRun>
    requires config { IsConfig config }
    requires accepted { (W.door wire.old).accepted ≡ 0 }
    requires dialled { (W.door wire.old).dialled ≡ 0 }
    ensures runs { IfOk result (Runs config) }
    ensures journals { IfOk result (λ left. All HasLawfulJournal left.engine.sessions) }
{
    match wire.listen(address) {
        Listened::Ready => {}
        Listened::OutOfMemory => return Err(NoRun::OutOfMemory),
        Listened::Failed => return Err(NoRun::ListenFault),
    }
    let record = run(rt, alloc, config, floor, wire, clock)?;
    Ok(record)
}

/// Trades with the counterparty in memory. Answers how many reports came to it too.
pub(crate) fn show<R: Threads + Wait + Eprint + rt::Clock + Sync, D: Wait + Drop + Send>(
    rt: &R,
    alloc: Global,
    sleeper: D,
    config: Config,
) -> Result<(RunRecord, u64), NoMemory>
    requires { IsConfig config }
    ensures runs { IfOk result (λ left. Runs config left.0) }
    ensures journals { IfOk result (λ left. All HasLawfulJournal left.0.engine.sessions) }
{
    let floor = Floor::new(alloc, config.names.as_slice().len())?;
    let mut wire = SpokenWire::new(alloc, sleeper, &floor)?;
    let mut clock = StepClock::new(MOMENT);
    let record = run(rt, alloc, config, &floor, &mut wire, &mut clock)?;
    Ok((record, wire.reports()))
}

/// Trades over a wire until as many connections as are configured came and have ended.
fn run<R: Threads + Wait + Eprint + rt::Clock + Sync, W: Dial + Send, C: Clock + Send>(
    rt: &R,
    alloc: Global,
    config: Config,
    floor: &Floor,
    wire: &mut W,
    clock: &mut C,
) -> Result<RunRecord, NoMemory>
    requires config { IsConfig config }
    requires accepted { (W.door wire.old).accepted ≡ 0 }
    requires dialled { (W.door wire.old).dialled ≡ 0 }
    ensures runs { IfOk result (Runs config) }
    ensures journals { IfOk result (λ left. All HasLawfulJournal left.engine.sessions) }
{
    let connections = config.connections as usize;
    let sessions = config.names.as_slice().len();
    let asks = config.asks;
    floor.bells().begin(config.timeout);
    let mut watch = Watch::new(alloc, sessions)?;
    let moment = clock.now().min(LAST_MOMENT);
    let (mut engine, shared, ends) = start(alloc, config, moment)?;
    let mut traders = make_traders(alloc, &shared, ends, asks, sessions)?;
    run_all(
        rt,
        alloc,
        &shared,
        floor,
        connections,
        &mut watch,
        &mut engine,
        wire,
        clock,
        &mut traders,
    )?;
    leave(alloc, engine, &shared, traders)
}

/// The engine makes its turns while the libraries trade.
fn run_all<R: Threads + Wait + Eprint + rt::Clock + Sync, W: Dial + Send, C: Clock + Send>(
    rt: &R,
    alloc: Global,
    shared: &Shared,
    floor: &Floor,
    connections: usize,
    watch: &mut Watch,
    engine: &mut Engine,
    wire: &mut W,
    clock: &mut C,
    traders: &mut Traders,
) -> Result<(), NoMemory>
    requires engine { IsEngine shared.now engine.old (W.door wire.old) (W.link wire.old) }
    requires stands { engine.old.failed ≡ false }
    requires traders { AreTraders shared.now traders.old }
    ensures drives { OnOk result (Drives (at_wire engine.old (W.door wire.old) (W.link wire.old)) (at_wire engine.new (W.door wire.new) (W.link wire.new))) }
    ensures short { OnErr result (DrivesShort (at_wire engine.old (W.door wire.old) (W.link wire.old)) (at_wire engine.new (W.door wire.new) (W.link wire.new))) }
    ensures engine { IsEngine shared.now engine.new (W.door wire.new) (W.link wire.new) }
    ensures traders { AreTraders shared.now traders.new }
    ensures trade { HaveTraded traders.old traders.new }
{
    let (outcome, ()) = join_mut(
        rt,
        &mut || -> Result<(), NoMemory>
            requires { IsEngine shared.now engine.now (W.door wire.now) (W.link wire.now) × (engine.now.failed ≡ false) }
            ensures { IsEngine shared.entry.now engine.exit.now (W.door wire.exit.now) (W.link wire.exit.now) × OnOk result (Drives (at_wire engine.entry.now (W.door wire.entry.now) (W.link wire.entry.now)) (at_wire engine.exit.now (W.door wire.exit.now) (W.link wire.exit.now))) × OnErr result (DrivesShort (at_wire engine.entry.now (W.door wire.entry.now) (W.link wire.entry.now)) (at_wire engine.exit.now (W.door wire.exit.now) (W.link wire.exit.now))) }
        {
            drive(
                rt,
                alloc,
                shared,
                floor,
                connections,
                watch,
                engine,
                wire,
                clock,
            )
        },
        &mut ||
            requires { IsSync R.row × AreTraders shared.now traders.now }
            ensures { AreTraders shared.entry.now traders.exit.now × HaveTraded traders.entry.now traders.exit.now }
        { trade_both(rt, alloc, shared, floor, traders) },
    );
    outcome
}

/// Both libraries trade, each in a thread of its own.
fn trade_both<R: Threads + Wait + rt::Clock + Sync>(
    rt: &R,
    alloc: Global,
    shared: &Shared,
    floor: &Floor,
    traders: &mut Traders,
)
    requires traders { AreTraders shared.now traders.old }
    ensures traders { AreTraders shared.now traders.new }
    ensures trade { HaveTraded traders.old traders.new }
{
    let first = &mut traders.first;
    let second = &mut traders.second;
    trade_beside(rt, alloc, shared, floor, first, second);
}

/// Two libraries trade, each in a thread of its own.
fn trade_beside<R: Threads + Wait + rt::Clock + Sync>(
    rt: &R,
    alloc: Global,
    shared: &Shared,
    floor: &Floor,
    first: &mut Trader,
    second: &mut Trader,
)
    requires first { IsTrader shared.now first.old }
    requires second { IsTrader shared.now second.old }
    ensures first { IsTrader shared.now first.new }
    ensures second { IsTrader shared.now second.new }
    ensures first_trades { HasTraded first.old first.new }
    ensures second_trades { HasTraded second.old second.new }
{
    let ((), ()) = join_mut(
        rt,
        &mut ||
            requires { IsTrader shared.now first.now }
            ensures { IsTrader shared.entry.now first.exit.now × HasTraded first.entry.now first.exit.now }
        { first.trade(rt, alloc, shared, floor) },
        &mut ||
            requires { IsTrader shared.now second.now }
            ensures { IsTrader shared.entry.now second.exit.now × HasTraded second.entry.now second.exit.now }
        { second.trade(rt, alloc, shared, floor) },
    );
}
