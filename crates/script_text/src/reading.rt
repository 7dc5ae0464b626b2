//! Reading a whole script.

ghost use Rattle.std.specs.Prelude.{◌≡◌, ◌<◌, ◌∷◌, Ok, IfOk, IfErr, length};
ghost use Rattle.std.specs.List.{list_all};
ghost use Rattle.script_text.specs.Grammar.{is_skipped, line_of, opened_line};
ghost use Rattle.script_text.specs.Lawful.{IsLawful};
ghost use Rattle.script_text.specs.Meaning.{IsFaultOf, lines_of, script_of};
ghost use Rattle.script_text.specs.Printed.{is_printable};

use crate::args::Args;
use crate::config_lines::read_config_line;
use crate::draft::Draft;
use crate::event_lines::read_event_line;
use crate::kinds::{ScriptError, ScriptKind};
use crate::lib_lines::read_lib_line;
use crate::lines::{Line, Opening};
use crate::parts::{Part, demand};
use crate::printed::is_printable;
use crate::steps::Script;
use crate::words::{opening_of, split_word};
use fix_fields::laws::moments_have_a_bound;
use gate_io::NoMemory;
use std::alloc::Global;

/// The most bytes of a script.
pub const LONGEST_SCRIPT: usize = 16_777_216;

/// Reads a script, for `serve` or else for `replay`.
#[tactic(auto, unfolding(crate::specs::Meaning::script_of))]
pub fn read_script(alloc: Global, text: &[u8], serving: bool) -> Result<Script, ScriptError>
    ensures ok { IfOk result (λ script. script_of serving text.now ≡ Ok script) }
    // What holds of each script that is read.
    ensures lawful { IfOk result (IsLawful serving) }
    // Want of memory is no fault of the text's.
    ensures fault { IfErr result (IsFaultOf serving text.now) }
{
    if text.len() > LONGEST_SCRIPT {
        return Err(ScriptError::Fault {
            line: 0,
            kind: ScriptKind::TooLong,
        });
    }
    let mut draft = Draft::new(alloc);
    let mut number = 1;
    let mut rest = text;
    while !rest.is_empty() {
        let (line, behind) = split_line(rest);
        match read_line(alloc, serving, &draft, line)? {
            Ok(line) => draft.put(number, line)?,
            Err(kind) => return Err(ScriptError::Fault { line: number, kind }),
        }
        number += 1;
        rest = behind;
    }
    moments_have_a_bound();
    Ok(draft.finish(serving))
}

/// The first line, and what stands behind its end.
fn split_line(text: &[u8]) -> (&[u8], &[u8])
    requires { 0 < length text.now }
    ensures lines { lines_of text.now ≡ result.0.now ∷ lines_of result.1.now }
    ensures shorter { length result.1.now < length text.now }
{
    match memchr::memchr(b'\n', text) {
        Some(i) => (&text[..i], &text[i + 1..]),
        None => (text, &[]),
    }
}

/// What a line says behind the lines before it, or the fault that counts.
#[tactic(auto, unfolding(crate::specs::Grammar::line_of))]
fn read_line(
    alloc: Global,
    serving: bool,
    draft: &Draft,
    text: &[u8],
) -> Result<Part<Line>, NoMemory>
    ensures { IfOk result (λ part. part ≡ line_of serving draft.now text.now) }
{
    if is_skipped(text) {
        return Ok(Ok(Line::Blank));
    }
    let (word, behind) = split_word(text);
    let args = Args::of(behind);
    let line = read_opened_line(alloc, serving, draft, opening_of(word), args)?;
    Ok(demand(are_printable(text), ScriptKind::BadByte, line))
}

/// What a line says behind its first word.
#[tactic(auto, unfolding(crate::specs::Grammar::opened_line))]
fn read_opened_line(
    alloc: Global,
    serving: bool,
    draft: &Draft,
    opening: Option<Opening>,
    args: Args<'_>,
) -> Result<Part<Line>, NoMemory>
    ensures { IfOk result (λ part. part ≡ opened_line serving draft.now opening args.entry) }
{
    let Some(opening) = opening else {
        return Ok(Err(ScriptKind::UnknownWord));
    };
    let line = match opening {
        Opening::Configures(word) => {
            let line = read_config_line(alloc, serving, draft.names(), word, args)?;
            demand(draft.has_no_steps(), ScriptKind::Misplaced, line).map(Line::Config)
        }
        Opening::Replays(word) => {
            let line = read_event_line(alloc, draft.next(), draft.moment(), word, args)?;
            demand(!serving, ScriptKind::Misplaced, line).map(Line::Step)
        }
        Opening::Library => {
            let line = read_lib_line(alloc, serving, draft.libraries(), args)?;
            line.map(Line::Step)
        }
    };
    Ok(line)
}

/// Whether a line says nothing: it is empty, or a comment.
fn is_skipped(text: &[u8]) -> bool
    ensures { result ≡ is_skipped text.now }
{
    match text {
        [] => true,
        [first, ..] => *first == b'#',
    }
}

fn are_printable(text: &[u8]) -> bool
    ensures { result ≡ list_all is_printable text.now }
{
    text.iter().all(|b| is_printable(*b))
}
