//! The words of the grammar.

ghost use Rattle.std.specs.Prelude.{◌≡◌};
ghost use Rattle.std.specs.List.{list_all};
ghost use Rattle.std.specs.Option.{option_map};
ghost use Rattle.script_text.specs.Words.{word_in, behind_word, config_word_of, limit_word_of, event_word_of, lib_word_of, opening_of, natural_of, is_name_byte, is_name};

use crate::lines::{ConfigWord, EventWord, LibWord, LimitWord, Opening};
use fix_fields::LONGEST_NAME;

/// The most digits of a number, leading zeros among them.
const MOST_DIGITS: usize = 20;

/// The bytes up to the first space, and what stands behind it, if there is one.
pub fn split_word(text: &[u8]) -> (&[u8], Option<&[u8]>)
    ensures word { result.0.now ≡ word_in text.now }
    ensures behind { option_map (λ rest. rest.now) result.1 ≡ behind_word text.now }
{
    for (i, b) in text.iter().enumerate() {
        if *b == b' ' {
            return (&text[..i], Some(&text[i + 1..]));
        }
    }
    (text, None)
}

/// What the first word of a line makes it, if it is a word of the grammar.
#[tactic(auto, unfolding(crate::specs::Words::opening_of))]
pub(crate) fn opening_of(word: &[u8]) -> Option<Opening>
    ensures { result ≡ opening_of word.now }
{
    if let Some(found) = config_word_of(word) {
        return Some(Opening::Configures(found));
    }
    if let Some(found) = event_word_of(word) {
        return Some(Opening::Replays(found));
    }
    if word == b"lib".as_slice() {
        Some(Opening::Library)
    } else {
        None
    }
}

#[tactic(auto, unfolding(crate::specs::Words::config_word_of))]
fn config_word_of(word: &[u8]) -> Option<ConfigWord>
    ensures { result ≡ config_word_of word.now }
{
    if word == b"session".as_slice() {
        Some(ConfigWord::Session)
    } else if word == b"dial".as_slice() {
        Some(ConfigWord::Dial)
    } else if word == b"libraries".as_slice() {
        Some(ConfigWord::Libraries)
    } else if word == b"connections".as_slice() {
        Some(ConfigWord::Connections)
    } else if word == b"dials".as_slice() {
        Some(ConfigWord::Dials)
    } else if word == b"option".as_slice() {
        Some(ConfigWord::Limit)
    } else {
        None
    }
}

/// The limit that an `option` line names.
#[tactic(auto, unfolding(crate::specs::Words::limit_word_of))]
pub(crate) fn limit_word_of(word: &[u8]) -> Option<LimitWord>
    ensures { result ≡ limit_word_of word.now }
{
    if word == b"lane".as_slice() {
        Some(LimitWord::Lane)
    } else if word == b"leases".as_slice() {
        Some(LimitWord::Leases)
    } else if word == b"sends".as_slice() {
        Some(LimitWord::Sends)
    } else if word == b"asks".as_slice() {
        Some(LimitWord::Asks)
    } else if word == b"timeout".as_slice() {
        Some(LimitWord::Timeout)
    } else if word == b"hold".as_slice() {
        Some(LimitWord::Hold)
    } else {
        None
    }
}

#[tactic(auto, unfolding(crate::specs::Words::event_word_of))]
fn event_word_of(word: &[u8]) -> Option<EventWord>
    ensures { result ≡ event_word_of word.now }
{
    if word == b"at".as_slice() {
        Some(EventWord::At)
    } else if word == b"connect".as_slice() {
        Some(EventWord::Connect)
    } else if word == b"take".as_slice() {
        Some(EventWord::Take)
    } else if word == b"bytes".as_slice() {
        Some(EventWord::Bytes)
    } else if word == b"frame".as_slice() {
        Some(EventWord::Frame)
    } else if word == b"finish".as_slice() {
        Some(EventWord::Finish)
    } else if word == b"failread".as_slice() {
        Some(EventWord::FailRead)
    } else if word == b"failwrite".as_slice() {
        Some(EventWord::FailWrite)
    } else if word == b"block".as_slice() {
        Some(EventWord::Block)
    } else if word == b"unblock".as_slice() {
        Some(EventWord::Unblock)
    } else if word == b"turn".as_slice() {
        Some(EventWord::Turn)
    } else {
        None
    }
}

/// The call that a `lib` line names.
#[tactic(auto, unfolding(crate::specs::Words::lib_word_of))]
pub(crate) fn lib_word_of(word: &[u8]) -> Option<LibWord>
    ensures { result ≡ lib_word_of word.now }
{
    if word == b"request".as_slice() {
        Some(LibWord::Request)
    } else if word == b"poll".as_slice() {
        Some(LibWord::Poll)
    } else if word == b"send".as_slice() {
        Some(LibWord::Send)
    } else if word == b"release".as_slice() {
        Some(LibWord::Release)
    } else if word == b"beat".as_slice() {
        Some(LibWord::Beat)
    } else if word == b"hand".as_slice() {
        Some(LibWord::Hand)
    } else if word == b"answer".as_slice() {
        Some(LibWord::Answer)
    } else if word == b"read".as_slice() {
        Some(LibWord::Read)
    } else {
        None
    }
}

/// The number that a word is: one to twenty digits with a value below 2^64.
pub fn read_natural(word: &[u8]) -> Option<u64>
    ensures { result ≡ natural_of word.now }
{
    if word.is_empty() || word.len() > MOST_DIGITS {
        return None;
    }
    let mut value = 0u64;
    for b in word {
        if !b.is_ascii_digit() {
            return None;
        }
        let digit = (*b - b'0') as u64;
        value = value.checked_mul(10)?.checked_add(digit)?;
    }
    Some(value)
}

/// Whether a word is a name: 1 to 32 printable bytes without space, `|`, `\` and `=`.
#[tactic(auto, unfolding(crate::specs::Words::is_name))]
pub fn is_name(word: &[u8]) -> bool
    ensures { result ≡ is_name word.now }
{
    !word.is_empty() && word.len() <= LONGEST_NAME && are_name_bytes(word)
}

fn are_name_bytes(word: &[u8]) -> bool
    ensures { result ≡ list_all is_name_byte word.now }
{
    word.iter().all(|b| is_name_byte(*b))
}

fn is_name_byte(b: u8) -> bool
    ensures { result ≡ is_name_byte b }
{
    match b {
        b'|' | b'\\' | b'=' => false,
        0x21..=0x7e => true,
        _ => false,
    }
}
