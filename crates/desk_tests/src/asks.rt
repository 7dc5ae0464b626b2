//! Requests past the rings.

ghost use Rattle.std.specs.Prelude.{OnOk};
ghost use Rattle.desk_tests.specs.Outset.{IsOpen};

use crate::engine;
use crate::steps::rest_of;
use gate_io::NoMemory;
use lease_desk::LeaseDesk;
use library_desk::Shared;
use row_text::{Course, Fault, Step as Line, Words, fault_of, said, shown};
use std::alloc::Global;

/// `asks LIBRARY NR S FROM`: a library's request, by its number, for a session from a position on.
#[derive(Clone, Copy)]
pub struct Ask {
    pub library: u8,
    pub nr: u32,
    pub s: u16,
    pub from: u64,
}

const NAME: &str = "asks";

/// The lines before the first request, and those from it on.
pub fn part_asks<'s, 'a>(lines: &'s [Line<'a>]) -> (&'s [Line<'a>], &'s [Line<'a>]) {
    for (i, line) in lines.iter().enumerate() {
        if Words::of(line.text).word() == Some(NAME) {
            return lines.split_at(i);
        }
    }
    (lines, &[])
}

// The request on a line, and how it has to be answered.
fn read_ask(line: &str) -> Option<(Ask, &str)> {
    let mut words = Words::of(line);
    if words.word()? != NAME {
        return None;
    }
    let ask = Ask {
        library: words.u8()?,
        nr: words.u32()?,
        s: words.u16()?,
        from: words.number()?,
    };
    Some((ask, rest_of(words)?))
}

// Makes the request on a line. Answers what isn't as it says.
fn follow_ask<'a>(
    alloc: Global,
    shared: &Shared,
    desk: &mut LeaseDesk,
    line: Line<'a>,
) -> Result<Option<Fault<'a>>, NoMemory>
    requires open { IsOpen shared.now desk.old }
    ensures open { OnOk result (IsOpen shared.now desk.new) }
{
    let Some((ask, wanted)) = read_ask(line.text) else {
        return Ok(Some(Fault::Unclear(line)));
    };
    let found = match engine::ask(shared, desk, ask)? {
        Some(reply) => shown(alloc, &reply)?,
        None => said(alloc, "no such session or library")?,
    };
    Ok(fault_of(line.line, Some(wanted), found))
}

/// Makes the requests in order, up to the first fault.
pub fn ask_on<'a>(
    alloc: Global,
    shared: &Shared,
    desk: &mut LeaseDesk,
    lines: &[Line<'a>],
    course: &mut Course<'a>,
) -> Result<(), NoMemory>
    requires open { IsOpen shared.now desk.old }
{
    for line in lines {
        if let Some(fault) = follow_ask(alloc, shared, desk, *line)? {
            course.fault = Some(fault);
            return Ok(());
        }
        course.steps = course.steps.saturating_add(1);
    }
    Ok(())
}
