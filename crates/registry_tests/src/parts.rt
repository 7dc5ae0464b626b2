//! Entries, words and the like, as the words of a line say them.

use lease_core::{Entry, Standing, Why, Word};
use row_text::Words;

fn standing_of(word: &str) -> Option<Standing> {
    match word {
        "Active" => Some(Standing::Active),
        "Released" => Some(Standing::Released),
        "Revoked" => Some(Standing::Revoked),
        _ => None,
    }
}

/// `LEASE OWNER STANDING COUNT`.
pub(crate) fn word_of(words: &mut Words<'_>) -> Option<Word> {
    Some(Word {
        lease: words.u32()?,
        owner: words.u8()?,
        standing: standing_of(words.word()?)?,
        count: words.u32()?,
    })
}

/// Why a request was refused: `other_owner OWNER LEASE`, `reserved LIBRARY UNTIL`, `spent LEASE`, `missing ASKED LOGGED`
/// or `unknown SESSION`.
fn why_of(words: &mut Words<'_>) -> Option<Why> {
    Some(match words.word()? {
        "other_owner" => Why::OtherOwner {
            owner: words.u8()?,
            lease: words.u32()?,
        },
        "reserved" => Why::Reserved {
            for_library: words.u8()?,
            until: words.number()?,
        },
        "spent" => Why::LeasesSpent {
            lease: words.u32()?,
        },
        "missing" => Why::MissingMessages {
            asked: words.number()?,
            logged: words.number()?,
        },
        "unknown" => Why::UnknownSession { s: words.u16()? },
        _ => return None,
    })
}

// `LIBRARY NR LEASE FROM START`.
fn granted(words: &mut Words<'_>) -> Option<Entry> {
    Some(Entry::Granted {
        library: words.u8()?,
        nr: words.u32()?,
        lease: words.u32()?,
        from: words.number()?,
        start: words.number()?,
    })
}

// `LIBRARY NR` and why.
fn refused(words: &mut Words<'_>) -> Option<Entry> {
    Some(Entry::Refused {
        library: words.u8()?,
        nr: words.u32()?,
        why: why_of(words)?,
    })
}

// `LEASE LIBRARY ORDINAL NUMBER`.
fn send(words: &mut Words<'_>) -> Option<Entry> {
    Some(Entry::Send {
        lease: words.u32()?,
        library: words.u8()?,
        ordinal: words.u32()?,
        number: words.number()?,
    })
}

// `LEASE LIBRARY COUNT HEIR`.
fn release(words: &mut Words<'_>) -> Option<Entry> {
    Some(Entry::Release {
        lease: words.u32()?,
        library: words.u8()?,
        count: words.u32()?,
        heir: words.u8()?,
    })
}

// `LEASE UNTIL`.
fn hold(words: &mut Words<'_>) -> Option<Entry> {
    Some(Entry::Hold {
        lease: words.u32()?,
        until: words.number()?,
    })
}

/// An entry: its name, and its numbers in their order.
pub(crate) fn entry_of(words: &mut Words<'_>) -> Option<Entry> {
    Some(match words.word()? {
        "arrive" => Entry::Arrive {
            pos: words.number()?,
        },
        "admin" => Entry::Admin {
            number: words.number()?,
        },
        "bind" => Entry::Bind { c: words.u32()? },
        "leave" => Entry::Leave { c: words.u32()? },
        "reset" => Entry::Reset {
            series: words.u32()?,
        },
        "granted" => granted(words)?,
        "refused" => refused(words)?,
        "send" => send(words)?,
        "release" => release(words)?,
        "hold" => hold(words)?,
        "lapse" => Entry::Lapse {
            lease: words.u32()?,
        },
        _ => return None,
    })
}
