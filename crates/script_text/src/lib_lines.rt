//! The lines of libraries.

ghost use Rattle.std.specs.Prelude.{◌≡◌, IfOk};
ghost use Rattle.script_text.specs.Grammar.{act_line, hand_line, is_here, lib_line, read_line, release_line, request_line, send_line};

use crate::args::Args;
use crate::kinds::ScriptKind;
use crate::lines::LibWord;
use crate::parts::{Part, both, demand};
use crate::steps::{LibStep, Step};
use crate::words::lib_word_of;
use gate_io::NoMemory;
use std::alloc::Global;

impl LibWord {
    /// Whether it is a word of the command that reads the script: `answer` and `read` are words of
    /// `serve` alone.
    fn is_here(self, serving: bool) -> bool
        ensures { result ≡ is_here serving self }
    {
        match self {
            LibWord::Answer | LibWord::Read => serving,
            _ => true,
        }
    }
}

/// What follows `lib`: the library's number, the word of a call, and what the call needs.
#[tactic(auto, unfolding(crate::specs::Grammar::lib_line))]
pub(crate) fn read_lib_line(
    alloc: Global,
    serving: bool,
    libraries: u8,
    mut args: Args<'_>,
) -> Result<Part<Step>, NoMemory>
    ensures { IfOk result (λ part. part ≡ lib_line serving libraries args.entry) }
{
    let library = args.number_u8(1, libraries);
    let Some(word) = args.keyword() else {
        return Ok(Err(ScriptKind::BadShape));
    };
    let Some(word) = lib_word_of(word) else {
        return Ok(Err(ScriptKind::UnknownWord));
    };
    let act = read_act_line(alloc, word, args)?;
    let line = both(library, act).map(|(library, act)| Step::Lib { library, act });
    Ok(demand(word.is_here(serving), ScriptKind::Misplaced, line))
}

/// What stands from the third word of a `lib` line on.
#[tactic(auto, unfolding(crate::specs::Grammar::act_line))]
fn read_act_line(alloc: Global, word: LibWord, args: Args<'_>) -> Result<Part<LibStep>, NoMemory>
    ensures { IfOk result (λ part. part ≡ act_line word args.entry) }
{
    let line = match word {
        LibWord::Request => read_request_line(args),
        LibWord::Poll => args.end(Ok(LibStep::Poll)),
        LibWord::Send => read_send_line(alloc, args)?,
        LibWord::Release => read_release_line(args),
        LibWord::Beat => args.end(Ok(LibStep::Beat)),
        LibWord::Hand => read_hand_line(args),
        LibWord::Answer => args.end(Ok(LibStep::Answer)),
        LibWord::Read => read_count_line(args),
    };
    Ok(line)
}

/// `S FROM`.
#[tactic(auto, unfolding(crate::specs::Grammar::request_line))]
fn read_request_line(mut args: Args<'_>) -> Part<LibStep>
    ensures { result ≡ request_line args.entry }
{
    let s = args.session();
    let from = args.number();
    args.end(both(s, from))
        .map(|(s, from)| LibStep::Request { s, from })
}

/// `S TEXT`.
#[tactic(auto, unfolding(crate::specs::Grammar::send_line))]
fn read_send_line(alloc: Global, mut args: Args<'_>) -> Result<Part<LibStep>, NoMemory>
    ensures { IfOk result (λ part. part ≡ send_line args.entry) }
{
    let s = args.session();
    let body = args.text(alloc)?;
    Ok(both(s, body).map(|(s, body)| LibStep::Send { s, body }))
}

/// `S`.
#[tactic(auto, unfolding(crate::specs::Grammar::release_line))]
fn read_release_line(mut args: Args<'_>) -> Part<LibStep>
    ensures { result ≡ release_line args.entry }
{
    let s = args.session();
    args.end(s).map(|s| LibStep::Release { s })
}

/// `S H`.
#[tactic(auto, unfolding(crate::specs::Grammar::hand_line))]
fn read_hand_line(mut args: Args<'_>) -> Part<LibStep>
    ensures { result ≡ hand_line args.entry }
{
    let s = args.session();
    let heir = args.number_u8(0, 255);
    args.end(both(s, heir))
        .map(|(s, heir)| LibStep::Hand { s, heir })
}

/// `N`.
#[tactic(auto, unfolding(crate::specs::Grammar::read_line))]
fn read_count_line(mut args: Args<'_>) -> Part<LibStep>
    ensures { result ≡ read_line args.entry }
{
    let count = args.number();
    args.end(count).map(|count| LibStep::Read { count })
}
