//! The lines of `replay` for the clock, the wire and turns of the engine.

ghost use Rattle.std.specs.Prelude.{◌≡◌, IfOk};
ghost use Rattle.script_text.specs.Grammar.{bytes_line, connect_line, connection_line, connection_and_number_line, event_line, frame_line, moment_line, take_line};

use crate::args::Args;
use crate::kinds::ScriptKind;
use crate::lines::EventWord;
use crate::numbers::NextNumbers;
use crate::parts::{Part, both, demand};
use crate::steps::Step;
use gate_io::{FIRST_DIALLED, MOST_CONNECTIONS, MOST_DIALLED, NoMemory};
use std::alloc::Global;

/// What a line of `replay` says behind its first word. `present` is the present moment.
#[tactic(auto, unfolding(crate::specs::Grammar::event_line))]
pub(crate) fn read_event_line(
    alloc: Global,
    next: NextNumbers,
    present: u64,
    word: EventWord,
    args: Args<'_>,
) -> Result<Part<Step>, NoMemory>
    ensures { IfOk result (λ part. part ≡ event_line next present word args.entry) }
{
    let line = match word {
        EventWord::At => read_moment(present, args).map(|moment| Step::At { moment }),
        EventWord::Connect => read_connect_line(next, args),
        EventWord::Take => read_take_line(next, args),
        EventWord::Bytes => read_bytes_line(alloc, next, args)?,
        EventWord::Frame => read_frame_line(alloc, next, args)?,
        EventWord::Finish => read_connection(next, args).map(|c| Step::Finish { c }),
        EventWord::FailRead => read_connection(next, args).map(|c| Step::FailRead { c }),
        EventWord::FailWrite => read_connection_and_number(next, args).map(|(
            c,
            after,
        )| Step::FailWrite { c, after }),
        EventWord::Block => {
            read_connection_and_number(next, args).map(|(c, after)| Step::Block { c, after })
        }
        EventWord::Unblock => read_connection(next, args).map(|c| Step::Unblock { c }),
        EventWord::Turn => args.end(Ok(Step::Turn)),
    };
    Ok(line)
}

/// `STAMP`, not before the present moment.
#[tactic(auto, unfolding(crate::specs::Grammar::moment_line))]
fn read_moment(present: u64, mut args: Args<'_>) -> Part<u64>
    ensures { result ≡ moment_line present args.entry }
{
    let moment = match args.moment() {
        Ok(moment) if moment < present => Err(ScriptKind::Backward),
        moment => moment,
    };
    args.end(moment)
}

/// Nothing, where there may be one more connection.
#[tactic(auto, unfolding(crate::specs::Grammar::connect_line))]
fn read_connect_line(next: NextNumbers, args: Args<'_>) -> Part<Step>
    ensures { result ≡ connect_line next args.entry }
{
    let more = next.connect < MOST_CONNECTIONS;
    args.end(demand(more, ScriptKind::OutOfRange, Ok(Step::Connect)))
}

/// Nothing, where one more dial may succeed.
#[tactic(auto, unfolding(crate::specs::Grammar::take_line))]
fn read_take_line(next: NextNumbers, args: Args<'_>) -> Part<Step>
    ensures { result ≡ take_line next args.entry }
{
    let more = next.take < FIRST_DIALLED + MOST_DIALLED;
    args.end(demand(more, ScriptKind::OutOfRange, Ok(Step::Take)))
}

/// `C TEXT`.
#[tactic(auto, unfolding(crate::specs::Grammar::bytes_line))]
fn read_bytes_line(
    alloc: Global,
    next: NextNumbers,
    mut args: Args<'_>,
) -> Result<Part<Step>, NoMemory>
    ensures { IfOk result (λ part. part ≡ bytes_line next args.entry) }
{
    let c = args.connection(next);
    let bytes = args.text(alloc)?;
    Ok(both(c, bytes).map(|(c, bytes)| Step::Bytes { c, bytes }))
}

/// `C TEXT`, the text of a body.
#[tactic(auto, unfolding(crate::specs::Grammar::frame_line))]
fn read_frame_line(
    alloc: Global,
    next: NextNumbers,
    mut args: Args<'_>,
) -> Result<Part<Step>, NoMemory>
    ensures { IfOk result (λ part. part ≡ frame_line next args.entry) }
{
    let c = args.connection(next);
    let body = args.body(alloc)?;
    Ok(both(c, body).map(|(c, body)| Step::Frame { c, body }))
}

/// `C`.
#[tactic(auto, unfolding(crate::specs::Grammar::connection_line))]
fn read_connection(next: NextNumbers, mut args: Args<'_>) -> Part<u32>
    ensures { result ≡ connection_line next args.entry }
{
    let c = args.connection(next);
    args.end(c)
}

/// `C N`.
#[tactic(auto, unfolding(crate::specs::Grammar::connection_and_number_line))]
fn read_connection_and_number(next: NextNumbers, mut args: Args<'_>) -> Part<(u32, u64)>
    ensures { result ≡ connection_and_number_line next args.entry }
{
    let c = args.connection(next);
    let n = args.number();
    args.end(both(c, n))
}
