//! The lines of a journal's entries.

ghost use Rattle.std.specs.Prelude.{◌≡◌, IsSome};
ghost use Rattle.journal_audit.specs.EntryLines.{why_word_of, why_line, why_at, entry_word_of, tally_at, behind3, plan_line, granted_line, refused_line, send_line, release_line, hand_line, timeout_line, hold_line, entry_line, entry_in};

use crate::words::Words;
use lease_core::{Entry, Why};

/// The first word of an entry's line.
#[derive(Clone, Copy, Debug)]
pub(crate) enum EntryWord {
    Arrive,
    Admin,
    Bind,
    Plan,
    Leave,
    Reset,
    Granted,
    Refused,
    Send,
    Release,
    Hand,
    Timeout,
    Hold,
    Lapse,
}

/// The first word of the cause for which a request was refused.
#[derive(Clone, Copy, Debug)]
pub(crate) enum WhyWord {
    UnknownSession,
    OtherOwner,
    Reserved,
    LeasesSpent,
    MissingMessages,
}

/// A lease, its library and a count of its sends.
#[derive(Clone, Copy, Debug)]
pub(crate) struct Tally {
    pub lease: u32,
    pub library: u8,
    pub count: u32,
}

/// The entry that a whole line is, if it has the form of one.
#[tactic(auto, unfolding(crate::specs::EntryLines::entry_in))]
pub(crate) fn read_entry(line: &[u8]) -> Option<Entry>
    ensures { result ≡ entry_in line.now }
{
    let [b' ', text @ ..] = line else {
        return None;
    };
    let mut words = Words::of(text);
    let word = words.word()?;
    let word = entry_word_of(word)?;
    read_entry_line(word, words)
}

#[tactic(auto, unfolding(crate::specs::EntryLines::entry_word_of))]
fn entry_word_of(word: &[u8]) -> Option<EntryWord>
    ensures { result ≡ entry_word_of word.now }
{
    if word == b"arrive".as_slice() {
        Some(EntryWord::Arrive)
    } else if word == b"admin".as_slice() {
        Some(EntryWord::Admin)
    } else if word == b"send".as_slice() {
        Some(EntryWord::Send)
    } else if word == b"granted".as_slice() {
        Some(EntryWord::Granted)
    } else if word == b"refused".as_slice() {
        Some(EntryWord::Refused)
    } else if word == b"release".as_slice() {
        Some(EntryWord::Release)
    } else if word == b"bind".as_slice() {
        Some(EntryWord::Bind)
    } else if word == b"leave".as_slice() {
        Some(EntryWord::Leave)
    } else if word == b"plan".as_slice() {
        Some(EntryWord::Plan)
    } else if word == b"reset".as_slice() {
        Some(EntryWord::Reset)
    } else if word == b"timeout".as_slice() {
        Some(EntryWord::Timeout)
    } else if word == b"hand".as_slice() {
        Some(EntryWord::Hand)
    } else if word == b"hold".as_slice() {
        Some(EntryWord::Hold)
    } else if word == b"lapse".as_slice() {
        Some(EntryWord::Lapse)
    } else {
        None
    }
}

/// The entry whose line has this word, by what follows it.
#[tactic(auto, unfolding(crate::specs::EntryLines::entry_line))]
fn read_entry_line(word: EntryWord, mut words: Words<'_>) -> Option<Entry>
    ensures { result ≡ entry_line word words.entry }
{
    match word {
        EntryWord::Arrive => {
            let pos = words.number()?;
            words.end(Entry::Arrive { pos })
        }
        EntryWord::Admin => {
            let number = words.number()?;
            words.end(Entry::Admin { number })
        }
        EntryWord::Bind => {
            let c = words.number_u32()?;
            words.end(Entry::Bind { c })
        }
        EntryWord::Plan => read_plan(words),
        EntryWord::Leave => {
            let c = words.number_u32()?;
            words.end(Entry::Leave { c })
        }
        EntryWord::Reset => {
            let series = words.number_u32()?;
            words.end(Entry::Reset { series })
        }
        EntryWord::Granted => read_granted(words),
        EntryWord::Refused => read_refused(words),
        EntryWord::Send => read_send(words),
        EntryWord::Release => read_release(words),
        EntryWord::Hand => read_hand(words),
        EntryWord::Timeout => read_timeout(words),
        EntryWord::Hold => read_hold(words),
        EntryWord::Lapse => {
            let lease = words.number_u32()?;
            words.end(Entry::Lapse { lease })
        }
    }
}

/// `BEGIN LAST STAMP`.
#[tactic(auto, unfolding(crate::specs::EntryLines::plan_line))]
fn read_plan(mut words: Words<'_>) -> Option<Entry>
    ensures { result ≡ plan_line words.entry }
{
    let begin = words.number()?;
    let last = words.number()?;
    let at = words.stamp()?;
    words.end(Entry::Plan { begin, last, at })
}

/// `LIBRARY NR lease LEASE from FROM start START`.
#[tactic(auto, unfolding(crate::specs::EntryLines::granted_line))]
fn read_granted(mut words: Words<'_>) -> Option<Entry>
    ensures { result ≡ granted_line words.entry }
{
    let library = words.number_u8()?;
    let nr = words.number_u32()?;
    let lease = words.named_u32(b"lease")?;
    let from = words.named(b"from")?;
    let start = words.named(b"start")?;
    words.end(Entry::Granted {
        library,
        nr,
        lease,
        from,
        start,
    })
}

/// `LIBRARY NR WHY`.
#[tactic(auto, unfolding(crate::specs::EntryLines::refused_line))]
fn read_refused(mut words: Words<'_>) -> Option<Entry>
    ensures { result ≡ refused_line words.entry }
{
    let library = words.number_u8()?;
    let nr = words.number_u32()?;
    let why = read_why(words)?;
    Some(Entry::Refused { library, nr, why })
}

#[tactic(auto, unfolding(crate::specs::EntryLines::why_word_of))]
fn why_word_of(word: &[u8]) -> Option<WhyWord>
    ensures { result ≡ why_word_of word.now }
{
    if word == b"unknown-session".as_slice() {
        Some(WhyWord::UnknownSession)
    } else if word == b"other-owner".as_slice() {
        Some(WhyWord::OtherOwner)
    } else if word == b"reserved".as_slice() {
        Some(WhyWord::Reserved)
    } else if word == b"leases-spent".as_slice() {
        Some(WhyWord::LeasesSpent)
    } else if word == b"missing-messages".as_slice() {
        Some(WhyWord::MissingMessages)
    } else {
        None
    }
}

/// `WHY`, with which the line ends.
#[tactic(auto, unfolding(crate::specs::EntryLines::why_at))]
pub(crate) fn read_why(mut words: Words<'_>) -> Option<Why>
    ensures { result ≡ why_at words.entry }
{
    let word = words.word()?;
    let word = why_word_of(word)?;
    read_why_line(word, words)
}

#[tactic(auto, unfolding(crate::specs::EntryLines::why_line))]
fn read_why_line(word: WhyWord, mut words: Words<'_>) -> Option<Why>
    ensures { result ≡ why_line word words.entry }
{
    match word {
        WhyWord::UnknownSession => {
            let s = words.number_u16()?;
            words.end(Why::UnknownSession { s })
        }
        WhyWord::OtherOwner => {
            let owner = words.number_u8()?;
            let lease = words.number_u32()?;
            words.end(Why::OtherOwner { owner, lease })
        }
        WhyWord::Reserved => {
            let for_library = words.number_u8()?;
            let until = words.stamp()?;
            words.end(Why::Reserved { for_library, until })
        }
        WhyWord::LeasesSpent => {
            let lease = words.number_u32()?;
            words.end(Why::LeasesSpent { lease })
        }
        WhyWord::MissingMessages => {
            let asked = words.number()?;
            let logged = words.number()?;
            words.end(Why::MissingMessages { asked, logged })
        }
    }
}

/// `LEASE LIBRARY COUNT`.
#[tactic(auto, unfolding(crate::specs::EntryLines::tally_at))]
fn read_tally(words: &mut Words<'_>) -> Option<Tally>
    ensures value { result ≡ tally_at words.old }
    ensures rest { IsSome result → words.new ≡ behind3 words.old }
{
    let lease = words.number_u32()?;
    let library = words.number_u8()?;
    let count = words.number_u32()?;
    Some(Tally {
        lease,
        library,
        count,
    })
}

/// `LEASE LIBRARY ORDINAL NUMBER`.
#[tactic(auto, unfolding(crate::specs::EntryLines::send_line))]
fn read_send(mut words: Words<'_>) -> Option<Entry>
    ensures { result ≡ send_line words.entry }
{
    let tally = read_tally(&mut words)?;
    let number = words.number()?;
    words.end(Entry::Send {
        lease: tally.lease,
        library: tally.library,
        ordinal: tally.count,
        number,
    })
}

/// `LEASE LIBRARY COUNT`.
#[tactic(auto, unfolding(crate::specs::EntryLines::release_line))]
fn read_release(mut words: Words<'_>) -> Option<Entry>
    ensures { result ≡ release_line words.entry }
{
    let tally = read_tally(&mut words)?;
    words.end(Entry::Release {
        lease: tally.lease,
        library: tally.library,
        count: tally.count,
        heir: 0,
    })
}

/// `LEASE LIBRARY COUNT HEIR`.
#[tactic(auto, unfolding(crate::specs::EntryLines::hand_line))]
fn read_hand(mut words: Words<'_>) -> Option<Entry>
    ensures { result ≡ hand_line words.entry }
{
    let tally = read_tally(&mut words)?;
    let heir = words.number_u8()?;
    if heir == 0 {
        return None;
    }
    words.end(Entry::Release {
        lease: tally.lease,
        library: tally.library,
        count: tally.count,
        heir,
    })
}

/// `LEASE LIBRARY COUNT`.
#[tactic(auto, unfolding(crate::specs::EntryLines::timeout_line))]
fn read_timeout(mut words: Words<'_>) -> Option<Entry>
    ensures { result ≡ timeout_line words.entry }
{
    let tally = read_tally(&mut words)?;
    words.end(Entry::Timeout {
        lease: tally.lease,
        library: tally.library,
        count: tally.count,
    })
}

/// `LEASE STAMP`.
#[tactic(auto, unfolding(crate::specs::EntryLines::hold_line))]
fn read_hold(mut words: Words<'_>) -> Option<Entry>
    ensures { result ≡ hold_line words.entry }
{
    let lease = words.number_u32()?;
    let until = words.stamp()?;
    words.end(Entry::Hold { lease, until })
}
