//! Reading a whole line.

ghost use Rattle.std.specs.Prelude.{◌≡◌, IfOk, IsSome};
ghost use Rattle.script_text.specs.Args.{later};
ghost use Rattle.journal_audit.specs.EntryLines.{behind2};
ghost use Rattle.journal_audit.specs.Lines.{name_at, header_at, session_line, stray_line, cause_word_of, is_bare_cause, is_numbered_cause, is_cause, cause_at, cause_line, bound_at, connection_line, library_line, first_line, head_line, head_word_of, flush_line, holding_line, in_line, numbered_at, out_line, series_line, wrote_line, part_word_of, part_line, indented_line, line_of, named_call};

use crate::calls::{call_word_of, read_call};
use crate::entry_lines::read_entry;
use crate::line::{Header, Line};
use crate::words::{Words, read_small_number};
use gate_io::NoMemory;
use lease_core::Holding;
use script_text::is_name;
use std::alloc::Global;

/// The first word of a line that begins with no space.
#[derive(Clone, Copy, Debug)]
pub(crate) enum HeadWord {
    Head,
    Session,
    Stray,
    Connection,
    Library,
    End,
}

/// The first word of a line that begins with a space, but for entries and calls.
#[derive(Clone, Copy, Debug)]
pub(crate) enum PartWord {
    Holding,
    In,
    Out,
    Series,
    Wrote,
}

/// What follows the word of a cause for which a connection ended.
#[derive(Clone, Copy, Debug)]
pub(crate) enum CauseWord {
    /// Nothing.
    Bare,
    /// A number.
    Numbered,
    /// Two numbers.
    Doubled,
    /// A timestamp.
    Stamped,
    /// A number of 64 bits.
    Counted,
}

/// What a line says, if it has the form of one.
#[tactic(auto, unfolding(crate::specs::Lines::line_of))]
pub(crate) fn read_line(alloc: Global, line: &[u8]) -> Result<Option<Line>, NoMemory>
    ensures { IfOk result (λ read. read ≡ line_of line.now) }
{
    match line {
        [] => Ok(None),
        [b' ', text @ ..] => read_indented(alloc, line, text),
        _ => Ok(read_flush(line)),
    }
}

#[tactic(auto, unfolding(crate::specs::Lines::indented_line))]
fn read_indented(alloc: Global, line: &[u8], text: &[u8]) -> Result<Option<Line>, NoMemory>
    ensures { IfOk result (λ read. read ≡ indented_line line.now text.now) }
{
    let mut words = Words::of(text);
    let Some(word) = words.word() else {
        return Ok(None);
    };
    if let Some(word) = part_word_of(word) {
        return read_part(alloc, word, words);
    }
    if let Some(entry) = read_entry(line) {
        return Ok(Some(Line::Entry(entry)));
    }
    read_named_call(alloc, word, words)
}

/// What the line of a call says.
#[tactic(auto, unfolding(crate::specs::Lines::named_call))]
fn read_named_call(alloc: Global, word: &[u8], words: Words<'_>) -> Result<Option<Line>, NoMemory>
    ensures { IfOk result (λ read. read ≡ named_call word.now words.entry) }
{
    let Some(word) = call_word_of(word) else {
        return Ok(None);
    };
    let call = read_call(alloc, word, words)?;
    Ok(call.map(Line::Call))
}

#[tactic(auto, unfolding(crate::specs::Lines::part_word_of))]
fn part_word_of(word: &[u8]) -> Option<PartWord>
    ensures { result ≡ part_word_of word.now }
{
    if word == b"in".as_slice() {
        Some(PartWord::In)
    } else if word == b"out".as_slice() {
        Some(PartWord::Out)
    } else if word == b"wrote".as_slice() {
        Some(PartWord::Wrote)
    } else if word == b"holding".as_slice() {
        Some(PartWord::Holding)
    } else if word == b"series".as_slice() {
        Some(PartWord::Series)
    } else {
        None
    }
}

#[tactic(auto, unfolding(crate::specs::Lines::part_line))]
fn read_part(alloc: Global, word: PartWord, words: Words<'_>) -> Result<Option<Line>, NoMemory>
    ensures { IfOk result (λ read. read ≡ part_line word words.entry) }
{
    match word {
        PartWord::Holding => Ok(read_holding(words)),
        PartWord::In => read_in(alloc, words),
        PartWord::Out => read_out(alloc, words),
        PartWord::Series => Ok(read_series(words)),
        PartWord::Wrote => read_wrote(alloc, words),
    }
}

/// `LIBRARY LEASE from FROM start START end END sends SENDS`.
#[tactic(auto, unfolding(crate::specs::Lines::holding_line))]
fn read_holding(mut words: Words<'_>) -> Option<Line>
    ensures { result ≡ holding_line words.entry }
{
    let library = words.number_u8()?;
    let lease = words.number_u32()?;
    let from = words.named(b"from")?;
    let start = words.named(b"start")?;
    let end = words.named(b"end")?;
    let sends = words.named_u32(b"sends")?;
    words.end(Line::Holding(Holding {
        library,
        lease,
        from,
        start,
        end,
        sends,
    }))
}

/// `POS BODY`.
#[tactic(auto, unfolding(crate::specs::Lines::in_line))]
fn read_in(alloc: Global, mut words: Words<'_>) -> Result<Option<Line>, NoMemory>
    ensures { IfOk result (λ read. read ≡ in_line words.entry) }
{
    let Some(pos) = words.number() else {
        return Ok(None);
    };
    let body = words.printed(alloc)?;
    Ok(body.map(|body| Line::In { pos, body }))
}

/// `NUMBER STAMP`, behind which a body follows.
fn read_numbered(words: &mut Words<'_>) -> Option<u64>
    ensures value { result ≡ numbered_at words.old }
    ensures rest { IsSome result → words.new ≡ behind2 words.old }
{
    let number = words.number()?;
    let _at = words.stamp()?;
    Some(number)
}

/// `NUMBER STAMP BODY`.
#[tactic(auto, unfolding(crate::specs::Lines::out_line))]
fn read_out(alloc: Global, mut words: Words<'_>) -> Result<Option<Line>, NoMemory>
    ensures { IfOk result (λ read. read ≡ out_line words.entry) }
{
    let Some(number) = read_numbered(&mut words) else {
        return Ok(None);
    };
    let body = words.printed(alloc)?;
    Ok(body.map(|body| Line::Out { number, body }))
}

/// `R`.
#[tactic(auto, unfolding(crate::specs::Lines::series_line))]
fn read_series(mut words: Words<'_>) -> Option<Line>
    ensures { result ≡ series_line words.entry }
{
    let series = words.number_u32()?;
    words.end(Line::Series { series })
}

/// `BYTES`.
#[tactic(auto, unfolding(crate::specs::Lines::wrote_line))]
fn read_wrote(alloc: Global, words: Words<'_>) -> Result<Option<Line>, NoMemory>
    ensures { IfOk result (λ read. read ≡ wrote_line words.entry) }
{
    let bytes = words.printed(alloc)?;
    Ok(bytes.map(|bytes| Line::Wrote { bytes }))
}

#[tactic(auto, unfolding(crate::specs::Lines::head_word_of))]
fn head_word_of(word: &[u8]) -> Option<HeadWord>
    ensures { result ≡ head_word_of word.now }
{
    if word == b"connection".as_slice() {
        Some(HeadWord::Connection)
    } else if word == b"session".as_slice() {
        Some(HeadWord::Session)
    } else if word == b"stray".as_slice() {
        Some(HeadWord::Stray)
    } else if word == b"library".as_slice() {
        Some(HeadWord::Library)
    } else if word == b"fixgate".as_slice() {
        Some(HeadWord::Head)
    } else if word == b"end".as_slice() {
        Some(HeadWord::End)
    } else {
        None
    }
}

#[tactic(auto, unfolding(crate::specs::Lines::flush_line))]
fn read_flush(line: &[u8]) -> Option<Line>
    ensures { result ≡ flush_line line.now }
{
    let mut words = Words::of(line);
    let word = words.word()?;
    let word = head_word_of(word)?;
    read_head(word, words)
}

#[tactic(auto, unfolding(crate::specs::Lines::head_line))]
fn read_head(word: HeadWord, words: Words<'_>) -> Option<Line>
    ensures { result ≡ head_line word words.entry }
{
    match word {
        HeadWord::Head => read_first(words),
        HeadWord::Session => read_session(words),
        HeadWord::Stray => read_stray(words),
        HeadWord::Connection => read_connection(words),
        HeadWord::Library => read_library(words),
        HeadWord::End => words.end(Line::End),
    }
}

/// `report 1`.
#[tactic(auto, unfolding(crate::specs::Lines::first_line))]
fn read_first(mut words: Words<'_>) -> Option<Line>
    ensures { result ≡ first_line words.entry }
{
    let version = words.named_u8(b"report")?;
    if version == 1 {
        words.end(Line::Head)
    } else {
        None
    }
}

/// A name.
fn read_name(words: &mut Words<'_>) -> bool
    ensures value { result ≡ name_at words.old }
    ensures rest { words.new ≡ later words.old }
{
    match words.word() {
        Some(word) => is_name(word),
        None => false,
    }
}

/// `owner OWNER lease LEASE in LENGTH out LENGTH`.
#[tactic(auto, unfolding(crate::specs::Lines::header_at))]
fn read_header(mut words: Words<'_>) -> Option<Header>
    ensures { result ≡ header_at words.entry }
{
    let owner = words.named_u8(b"owner")?;
    let lease = words.named_u32(b"lease")?;
    let inbound = words.named(b"in")?;
    let outbound = words.named(b"out")?;
    words.end(Header {
        owner,
        lease,
        inbound,
        outbound,
    })
}

/// `S US THEM`, and then the header.
#[tactic(auto, unfolding(crate::specs::Lines::session_line))]
fn read_session(mut words: Words<'_>) -> Option<Line>
    ensures { result ≡ session_line words.entry }
{
    let s = words.number_u16()?;
    let us = read_name(&mut words);
    let them = read_name(&mut words);
    let header = read_header(words)?;
    if us && them {
        Some(Line::Session { s, header })
    } else {
        None
    }
}

/// `LIBRARY NR S`.
#[tactic(auto, unfolding(crate::specs::Lines::stray_line))]
fn read_stray(mut words: Words<'_>) -> Option<Line>
    ensures { result ≡ stray_line words.entry }
{
    let library = words.number_u8()?;
    let nr = words.number_u32()?;
    let s = words.number_u16()?;
    words.end(Line::Stray { library, nr, s })
}

/// `L reads N`.
#[tactic(auto, unfolding(crate::specs::Lines::library_line))]
fn read_library(mut words: Words<'_>) -> Option<Line>
    ensures { result ≡ library_line words.entry }
{
    let library = words.number_u8()?;
    let reads = words.named(b"reads")?;
    words.end(Line::Library { library, reads })
}

/// `session S`, or `session -` where the connection was never bound.
#[tactic(auto, unfolding(crate::specs::Lines::bound_at))]
fn read_bound(words: &mut Words<'_>) -> Option<Option<u16>>
    ensures value { result ≡ bound_at words.old }
    ensures rest { IsSome result → words.new ≡ behind2 words.old }
{
    if !words.label(b"session") {
        return None;
    }
    let word = words.word()?;
    if word == b"-".as_slice() {
        return Some(None);
    }
    let s = read_small_number(word)?;
    Some(Some(s))
}

/// `C session S taken BYTES garbled BYTES written BYTES cause CAUSE`.
#[tactic(auto, unfolding(crate::specs::Lines::connection_line))]
fn read_connection(mut words: Words<'_>) -> Option<Line>
    ensures { result ≡ connection_line words.entry }
{
    let c = words.number_u32()?;
    let s = read_bound(&mut words)?;
    let _taken = words.named(b"taken")?;
    let _garbled = words.named(b"garbled")?;
    let written = words.named(b"written")?;
    if words.label(b"cause") && is_cause(words) {
        Some(Line::Connection { c, s, written })
    } else {
        None
    }
}

#[tactic(auto, unfolding(crate::specs::Lines::cause_word_of))]
fn cause_word_of(word: &[u8]) -> Option<CauseWord>
    ensures { result ≡ cause_word_of word.now }
{
    if is_bare_cause(word) {
        Some(CauseWord::Bare)
    } else if is_numbered_cause(word) {
        Some(CauseWord::Numbered)
    } else if word == b"low-number".as_slice() {
        Some(CauseWord::Doubled)
    } else if word == b"silent".as_slice() {
        Some(CauseWord::Stamped)
    } else if word == b"slow-consumer".as_slice() {
        Some(CauseWord::Counted)
    } else {
        None
    }
}

fn is_bare_cause(word: &[u8]) -> bool
    ensures { result ≡ is_bare_cause word.now }
{
    word == b"end".as_slice()
        || word == b"none".as_slice()
        || word == b"read-fault".as_slice()
        || word == b"write-fault".as_slice()
        || word == b"not-logon".as_slice()
        || word == b"no-such-session".as_slice()
        || word == b"no-number".as_slice()
        || word == b"logged-out".as_slice()
}

fn is_numbered_cause(word: &[u8]) -> bool
    ensures { result ≡ is_numbered_cause word.now }
{
    word == b"duplicate".as_slice()
        || word == b"bad-logon".as_slice()
        || word == b"comp-id".as_slice()
}

/// `CAUSE`, with which the line ends.
fn is_cause(words: Words<'_>) -> bool
    ensures { result ≡ is_cause words.entry }
{
    read_cause(words).is_some()
}

#[tactic(auto, unfolding(crate::specs::Lines::cause_at))]
fn read_cause(mut words: Words<'_>) -> Option<CauseWord>
    ensures { result ≡ cause_at words.entry }
{
    let word = words.word()?;
    let word = cause_word_of(word)?;
    read_cause_line(word, words)
}

#[tactic(auto, unfolding(crate::specs::Lines::cause_line))]
fn read_cause_line(word: CauseWord, mut words: Words<'_>) -> Option<CauseWord>
    ensures { result ≡ cause_line word words.entry }
{
    match word {
        CauseWord::Bare => words.end(word),
        CauseWord::Numbered => {
            let _n = words.number_u32()?;
            words.end(word)
        }
        CauseWord::Doubled => {
            let _n = words.number_u32()?;
            let _m = words.number_u32()?;
            words.end(word)
        }
        CauseWord::Stamped => {
            let _at = words.stamp()?;
            words.end(word)
        }
        CauseWord::Counted => {
            let _n = words.number()?;
            words.end(word)
        }
    }
}
