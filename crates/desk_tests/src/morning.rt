//! The libraries and the clock, and the steps that are played with them and the engine's side.

ghost use Rattle.std.specs.Prelude.{OnOk};
ghost use Rattle.desk_tests.specs.Outset.{AreEnds};
ghost use Rattle.desk_tests.specs.Running.{IsRunning};

use crate::calls::make_call;
use crate::comings::come;
use crate::deeds::perform;
use crate::engine;
use crate::engine_desk::EngineDesk;
use crate::facts::what_is;
use crate::steps::{Step, read_step};
use gate_io::NoMemory;
use lease_core::Entry;
use library_api::{LibraryEnds2, Links};
use library_desk::{LibraryDesk, Shared};
use library_play::Application;
use row_text::{Course, Fault, Step as Line, done, fault_of, said, shown};
use std::alloc::Global;

/// The two libraries, the clock, and how many entries of each session were told.
#[derive(Drop)]
pub struct Morning<'a> {
    first: Application<'a>,
    second: Application<'a>,
    past: u64,
    told: [usize; 2],
}

impl<'a> Morning<'a> {
    fn new(first: Application<'a>, second: Application<'a>) -> Morning<'a> {
        Morning {
            first,
            second,
            past: 0,
            told: [0; 2],
        }
    }

    fn library(&mut self, library: u8) -> Option<&mut Application<'a>> {
        match library {
            1 => Some(&mut self.first),
            2 => Some(&mut self.second),
            _ => None,
        }
    }

    // The entries of a session that came since the last call.
    fn news(
        &mut self,
        alloc: Global,
        desk: &EngineDesk,
        s: usize,
    ) -> Result<Option<String>, NoMemory> {
        if s >= 2 {
            return said(alloc, "no such session");
        }
        let Some(news) = entries_behind(&desk.libraries, s, self.told[s]) else {
            return said(alloc, "fewer entries than before");
        };
        self.told[s] = self.told[s].saturating_add(news.len());
        shown(alloc, &news)
    }
}

// The entries of a session's journal behind the first so many.
fn entries_behind(desk: &LibraryDesk, s: usize, count: usize) -> Option<&[Entry]> {
    let board = &desk.desk.board;
    if s >= board.sessions() {
        return None;
    }
    let entries = board.session(s).entries();
    if count > entries.len() {
        return None;
    }
    Some(&entries[count..])
}

/// The libraries' side of the table and of the rings.
pub fn begin<'a>(
    alloc: Global,
    shared: &'a Shared,
    first: LibraryEnds2,
    second: LibraryEnds2,
) -> Morning<'a>
    requires first { AreEnds shared.now 0 first }
    requires second { AreEnds shared.now 1 second }
{
    let first_links = Links {
        leases: &shared.leases,
        commands: &shared.commands[0],
        notices: &shared.notices[0],
    };
    let second_links = Links {
        leases: &shared.leases,
        commands: &shared.commands[1],
        notices: &shared.notices[1],
    };
    Morning::new(
        Application::new(alloc, first_links, first, u32::MAX),
        Application::new(alloc, second_links, second, u32::MAX),
    )
}

// The expected numbers with which the entries are kept that came to a session since the last call.
fn keeps(
    alloc: Global,
    shared: &Shared,
    desk: &mut EngineDesk,
    s: u16,
) -> Result<Option<String>, NoMemory>
    requires running { IsRunning shared.now desk.old }
    ensures running { OnOk result (IsRunning shared.now desk.new) }
{
    let Some(records) = engine::keep(alloc, shared, desk, s)? else {
        return said(alloc, "no such session");
    };
    let mut expected = Vec::new(alloc);
    for record in records.iter() {
        expected.push(record.expected)?;
    }
    shown(alloc, &expected)
}

// Makes a step. Answers what it comes to.
fn play(
    alloc: Global,
    shared: &Shared,
    desk: &mut EngineDesk,
    morning: &mut Morning<'_>,
    step: Step<'_>,
) -> Result<Option<String>, NoMemory>
    requires running { IsRunning shared.now desk.old }
    ensures running { OnOk result (IsRunning shared.now desk.new) }
{
    match step {
        Step::At(past) => {
            morning.past = past;
            Ok(None)
        }
        Step::Comes(coming) => {
            let is_done = come(alloc, shared, desk, morning.past, coming)?;
            done(alloc, is_done)
        }
        Step::Does(deed) => perform(alloc, shared, desk, morning.past, deed),
        Step::Calls(library, call) => match morning.library(library) {
            Some(library) => make_call(alloc, library, call),
            None => said(alloc, "no such library"),
        },
        Step::Tells(s) => morning.news(alloc, desk, s),
        Step::Keeps(s) => keeps(alloc, shared, desk, s),
        Step::Is(fact) => what_is(alloc, &desk.libraries, fact),
    }
}

// Makes the step on a line. Answers what isn't as it says.
fn follow<'a>(
    alloc: Global,
    shared: &Shared,
    desk: &mut EngineDesk,
    morning: &mut Morning<'_>,
    line: Line<'a>,
) -> Result<Option<Fault<'a>>, NoMemory>
    requires running { IsRunning shared.now desk.old }
    ensures running { OnOk result (IsRunning shared.now desk.new) }
{
    let Some((step, wanted)) = read_step(line.text) else {
        return Ok(Some(Fault::Unclear(line)));
    };
    let found = play(alloc, shared, desk, morning, step)?;
    Ok(fault_of(line.line, wanted, found))
}

/// Makes the steps in order, up to the first fault.
pub fn follow_on<'a>(
    alloc: Global,
    shared: &Shared,
    desk: &mut EngineDesk,
    morning: &mut Morning<'_>,
    lines: &[Line<'a>],
    course: &mut Course<'a>,
) -> Result<(), NoMemory>
    requires running { IsRunning shared.now desk.old }
    ensures running { OnOk result (IsRunning shared.now desk.new) }
{
    for line in lines {
        if let Some(fault) = follow(alloc, shared, desk, morning, *line)? {
            course.fault = Some(fault);
            return Ok(());
        }
        course.steps = course.steps.saturating_add(1);
    }
    Ok(())
}
