//! Plans that are carried out, and plans that are given up, beside an engine that does nothing.

ghost use Rattle.std.specs.Prelude.{◌≡◌, false};

use anyhow::{Context, Result};
use gate_io::{Gate, OpenGate};
use lease_core::Command;
use lease_words::Leases;
use library_api::{Event, Library, LibraryEnds2, Links, WaitKind, Waited};
use plan_runner::run_plan;
use ring_links::ring;
use row_text::{holds, same};
use run_report::{Call, LibReport};
use script_text::{LibStep, Step};
use std::alloc::Global;

// A gate that lets nobody pass.
#[derive(Drop)]
struct ShutGate {}

impl Gate for ShutGate {
    ghost open_wide = { λ _. false };

    fn pass(&self, _lib: u32, _turn: u64) -> bool {
        false
    }
}

/// What the engine was told that a library asks nothing more for: its plan was given up.
const GIVEN_UP: Option<Command> = Some(Command::Done { finished: false });

/// A plan's report, and the first two commands that the engine got.
type Told = (LibReport, Option<Command>, Option<Command>);

/// A library requests, polls, and waits for an answer.
fn tell_waiting(alloc: Global) -> Result<Told> {
    let (leases, _engine, seats) = Leases::new(alloc, 1, 1, 16, 9)?;
    let seat = seats.into_iter().next().context("a seat")?;
    let number = seat.number();
    let (commands, tail, mut engine_head) = ring(alloc, 4)?;
    let (notices, _engine_tail, head) = ring(alloc, 4)?;
    let links = Links {
        leases: &leases,
        commands: &commands,
        notices: &notices,
    };
    let ends = LibraryEnds2 {
        number,
        seat,
        tail,
        head,
    };
    let mut library = Library::new(ends, 3);
    let plan = [
        Step::Lib {
            library: number,
            act: LibStep::Request { s: 0, from: 0 },
        },
        Step::Lib {
            library: number,
            act: LibStep::Poll,
        },
        Step::Lib {
            library: number,
            act: LibStep::Answer,
        },
        Step::Lib {
            library: number,
            act: LibStep::Beat,
        },
    ];
    let gate = OpenGate::new();
    let outcome = run_plan(alloc, &mut library, &links, number, &plan, &gate, 5);
    let first = commands.pop(&mut engine_head);
    let second = commands.pop(&mut engine_head);
    match outcome {
        Ok(report) => Ok((report, first, second)),
        Err((why, _)) => Err(why.into()),
    }
}

/// The calls of a plan are a request that was made and a poll in which nothing came.
fn are_request_and_poll(calls: &[Call]) -> Result<()> {
    let are = matches!(
        calls,
        [
            Call::Request { answer: Ok(1), .. },
            Call::Poll {
                event: Event::Nothing
            }
        ]
    );
    holds("a request and a poll", are)
}

pub(crate) fn a_line_that_waits_gives_its_plan_up(alloc: Global) -> Result<()> {
    let (report, first, second) = tell_waiting(alloc)?;
    same("finished", &report.finished, &false)?;
    same("reads", &report.reads, &0)?;
    are_request_and_poll(report.calls.as_slice())?;
    is_waiting(&report.waited, WaitKind::Event, 6)?;
    let request = Some(Command::Request {
        nr: 1,
        s: 0,
        from: 0,
    });
    same("first command", &first, &request)?;
    same("second command", &second, &GIVEN_UP)
}

/// A library waited for this, and for so many calls.
fn is_waiting(waited: &Waited, kind: WaitKind, count: u64) -> Result<()> {
    same("what is waited for", &waited.kind(), &kind)?;
    same("calls", &waited.count(), &count)
}

/// A library's ring is full as it tells that all is done. Answers what it waited for then, too.
fn tell_full_ring(alloc: Global) -> Result<(LibReport, WaitKind, u64)> {
    let (leases, _engine, seats) = Leases::new(alloc, 1, 1, 16, 9)?;
    let seat = seats.into_iter().next().context("a seat")?;
    let number = seat.number();
    let (commands, tail, _engine_head) = ring(alloc, 1)?;
    let (notices, _engine_tail, head) = ring(alloc, 4)?;
    let links = Links {
        leases: &leases,
        commands: &commands,
        notices: &notices,
    };
    let ends = LibraryEnds2 {
        number,
        seat,
        tail,
        head,
    };
    let mut library = Library::new(ends, 3);
    let plan = [
        Step::Lib {
            library: number,
            act: LibStep::Read { count: 0 },
        },
        Step::Lib {
            library: number,
            act: LibStep::Request { s: 0, from: 0 },
        },
    ];
    let gate = OpenGate::new();
    let outcome = run_plan(alloc, &mut library, &links, number, &plan, &gate, 3);
    let waited = library.waited();
    let (kind, count) = (waited.kind(), waited.count());
    match outcome {
        Ok(report) => Ok((report, kind, count)),
        Err((why, _)) => Err(why.into()),
    }
}

pub(crate) fn a_full_ring_is_told_again(alloc: Global) -> Result<()> {
    let (report, kind, count) = tell_full_ring(alloc)?;
    same("finished", &report.finished, &true)?;
    same("calls", &report.calls.as_slice().len(), &1)?;
    same("calls that waited", &report.waited.count(), &0)?;
    same("what is waited for", &kind, &WaitKind::Done)?;
    same("calls at the end", &count, &3)
}

/// Nobody may pass.
fn tell_shut_gate(alloc: Global) -> Result<(LibReport, Option<Command>)> {
    let (leases, _engine, seats) = Leases::new(alloc, 1, 1, 16, 9)?;
    let seat = seats.into_iter().next().context("a seat")?;
    let number = seat.number();
    let (commands, tail, mut engine_head) = ring(alloc, 4)?;
    let (notices, _engine_tail, head) = ring(alloc, 4)?;
    let links = Links {
        leases: &leases,
        commands: &commands,
        notices: &notices,
    };
    let ends = LibraryEnds2 {
        number,
        seat,
        tail,
        head,
    };
    let mut library = Library::new(ends, 3);
    let plan = [Step::Lib {
        library: number,
        act: LibStep::Beat,
    }];
    let gate = ShutGate {};
    let outcome = run_plan(alloc, &mut library, &links, number, &plan, &gate, 2);
    let told = commands.pop(&mut engine_head);
    match outcome {
        Ok(report) => Ok((report, told)),
        Err((why, _)) => Err(why.into()),
    }
}

pub(crate) fn a_shut_gate_gives_a_plan_up(alloc: Global) -> Result<()> {
    let (report, told) = tell_shut_gate(alloc)?;
    same("finished", &report.finished, &false)?;
    same("calls", &report.calls.as_slice().len(), &0)?;
    same("command", &told, &GIVEN_UP)
}
