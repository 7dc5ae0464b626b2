//! The lines of the configuration.

ghost use Rattle.std.specs.Prelude.{◌≡◌, IfOk, OnOk};
ghost use Rattle.std.specs.List.{list_any};
ghost use Rattle.script_text.specs.Args.{later, name_at};
ghost use Rattle.script_text.specs.Grammar.{config_line, dial_line, dial_to_at, limit_line, names_at, new_names_at, one_more, option_line, same_names, session_line};
ghost use Rattle.script_text.specs.Lent.{lent_names, names_of};

use crate::args::Args;
use crate::kinds::ScriptKind;
use crate::limits::MOST_COUNT;
use crate::lines::{ConfigWord, LimitWord, Setting};
use crate::parts::{Part, both, demand};
use crate::words::limit_word_of;
use engine_config::{DialTo, MOST_HOLD, MOST_TIMEOUT, MOST_WAIT};
use gate_io::{Bytes, Label, MOST_CONNECTIONS, MOST_DIALLED, NoMemory};
use lease_core::{MOST_LEASES, MOST_LIBRARIES};
use lease_words::LANE_SLOTS;
use session_core::{LONGEST_HEARTBEAT, MOST_SESSIONS, Names};
use std::alloc::Global;

/// What a line of the configuration sets, wherever it stands, behind its first word. `before` has
/// the sessions of the lines before.
#[tactic(auto, unfolding(crate::specs::Grammar::config_line))]
pub(crate) fn read_config_line(
    alloc: Global,
    serving: bool,
    before: &[Names],
    word: ConfigWord,
    args: Args<'_>,
) -> Result<Part<Setting>, NoMemory>
    ensures { IfOk result (λ part. part ≡ config_line serving before.now word args.entry) }
{
    match word {
        ConfigWord::Session => read_session_line(alloc, before, args),
        ConfigWord::Dial => read_dial_line(alloc, before, args),
        ConfigWord::Libraries => Ok(args.last_u8(0, MOST_LIBRARIES).map(Setting::Libraries)),
        ConfigWord::Connections => {
            let connections = args.last_u32(0, MOST_CONNECTIONS).map(Setting::Connections);
            Ok(demand(serving, ScriptKind::Misplaced, connections))
        }
        ConfigWord::Dials => {
            let dials = args.last_u32(0, MOST_DIALLED).map(Setting::Dials);
            Ok(demand(serving, ScriptKind::Misplaced, dials))
        }
        ConfigWord::Limit => Ok(read_option_line(args)),
    }
}

/// What follows `session`.
#[tactic(auto, unfolding(crate::specs::Grammar::session_line))]
fn read_session_line(
    alloc: Global,
    before: &[Names],
    mut args: Args<'_>,
) -> Result<Part<Setting>, NoMemory>
    ensures { IfOk result (λ part. part ≡ session_line before.now args.entry) }
{
    let names = read_new_names(alloc, before, &mut args)?;
    let line = args.end(names.map(|names| Setting::Session(names, None)));
    Ok(one_more(before, line))
}

/// What follows `dial`.
#[tactic(auto, unfolding(crate::specs::Grammar::dial_line))]
fn read_dial_line(
    alloc: Global,
    before: &[Names],
    mut args: Args<'_>,
) -> Result<Part<Setting>, NoMemory>
    ensures { IfOk result (λ part. part ≡ dial_line before.now args.entry) }
{
    let session = read_new_names(alloc, before, &mut args)?;
    let to = read_dial_to(alloc, &mut args)?;
    let line = args.end(both(session, to).map(|(names, to)| Setting::Session(names, Some(to))));
    Ok(one_more(before, line))
}

/// One more session, where those before it aren't the most yet.
fn one_more(before: &[Names], line: Part<Setting>) -> Part<Setting>
    ensures { result ≡ one_more before.now line }
{
    let more = before.len() < MOST_SESSIONS;
    demand(more, ScriptKind::OutOfRange, line)
}

/// Two words that are the names of no session before.
#[tactic(auto, unfolding(crate::specs::Grammar::new_names_at))]
fn read_new_names(
    alloc: Global,
    before: &[Names],
    args: &mut Args<'_>,
) -> Result<Part<Names>, NoMemory>
    ensures value { IfOk result (λ part. part ≡ new_names_at before.now args.old) }
    ensures rest { OnOk result (args.new ≡ later (later args.old)) }
{
    match read_names(args) {
        Ok((us, them)) if has_names(before, us, them) => Ok(Err(ScriptKind::OutOfRange)),
        Ok((us, them)) => Ok(Ok(Names {
            us: Bytes::of(Vec::from_slice(alloc, us)?),
            them: Bytes::of(Vec::from_slice(alloc, them)?),
        })),
        Err(kind) => Ok(Err(kind)),
    }
}

/// Two words that are names.
#[tactic(auto, unfolding(crate::specs::Grammar::names_at))]
fn read_names<'a>(args: &mut Args<'a>) -> Part<(&'a [u8], &'a [u8])>
    ensures value { lent_names result ≡ names_at args.old }
    ensures rest { args.new ≡ later (later args.old) }
{
    let us = args.name();
    let them = args.name();
    both(us, them)
}

/// `ADDRESS HEART WAIT`.
#[tactic(auto, unfolding(crate::specs::Grammar::dial_to_at))]
fn read_dial_to(alloc: Global, args: &mut Args<'_>) -> Result<Part<DialTo>, NoMemory>
    ensures value { IfOk result (λ part. part ≡ dial_to_at args.old) }
    ensures rest { OnOk result (args.new ≡ later (later (later args.old))) }
{
    let address = read_label(alloc, args)?;
    let heart = args.number_u32(1, LONGEST_HEARTBEAT);
    let wait = args.number_within(1, MOST_WAIT);
    let to = both(address, both(heart, wait)).map(|(address, (heart, wait))| DialTo {
        address,
        heart,
        wait,
    });
    Ok(to)
}

/// A word that is a name, as a text.
#[tactic(auto, using(crate::proofs::NameTexts::is_name_utf8))]
fn read_label(alloc: Global, args: &mut Args<'_>) -> Result<Part<Label>, NoMemory>
    ensures value { IfOk result (λ part. part ≡ name_at args.old) }
    ensures rest { OnOk result (args.new ≡ later args.old) }
{
    match args.name() {
        Ok(word) => Ok(Ok(Label::of(String::from_utf8_lossy(alloc, word)?))),
        Err(kind) => Ok(Err(kind)),
    }
}

/// Whether a session has these names.
fn has_names(before: &[Names], us: &[u8], them: &[u8]) -> bool
    ensures { result ≡ list_any (λ other. same_names other (names_of us.now them.now)) before.now }
{
    before.iter().any(|other| other.us.as_slice() == us && other.them.as_slice() == them)
}

/// What follows `option`: the word of a limit, and the number.
#[tactic(auto, unfolding(crate::specs::Grammar::option_line))]
fn read_option_line(mut args: Args<'_>) -> Part<Setting>
    ensures { result ≡ option_line args.entry }
{
    let Some(word) = args.keyword() else {
        return Err(ScriptKind::BadShape);
    };
    match limit_word_of(word) {
        Some(word) => read_limit_line(word, args),
        None => Err(ScriptKind::UnknownWord),
    }
}

/// What follows the word of a limit.
#[tactic(auto, unfolding(crate::specs::Grammar::limit_line))]
fn read_limit_line(word: LimitWord, args: Args<'_>) -> Part<Setting>
    ensures { result ≡ limit_line word args.entry }
{
    match word {
        LimitWord::Lane => args.last_u8(1, LANE_SLOTS as u8).map(Setting::Lane),
        LimitWord::Leases => args.last_u32(1, MOST_LEASES).map(Setting::Leases),
        LimitWord::Sends => args.last_u32(1, MOST_COUNT).map(Setting::Sends),
        LimitWord::Asks => args.last_u32(1, MOST_COUNT).map(Setting::Asks),
        LimitWord::Timeout => args.last_u64(1, MOST_TIMEOUT).map(Setting::Timeout),
        LimitWord::Hold => args.last_u64(1, MOST_HOLD).map(Setting::Hold),
    }
}
