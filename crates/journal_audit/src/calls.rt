//! The lines of a library's calls, each with its answer.

ghost use Rattle.std.specs.Prelude.{◌≡◌, IfOk, IsSome};
ghost use Rattle.journal_audit.specs.CallLines.{call_word_of, answer_word_of, one_number, two_numbers, is_standing, seen_word, not_yet, stale, lease_lost, poll_granted, poll_refused, poll_message, poll_answer, poll_line, beat_answer, beat_line, asked, request_answer, sent, send_answer, given_back, release_answer, hand_answer, request_line, send_line, release_line, hand_line, answered_line, parted_line, call_line, answer_at, spaced_answer_at, place_at};
ghost use Rattle.journal_audit.specs.EntryLines.{behind2, behind4};
ghost use Rattle.script_text.specs.Args.{later};

use crate::entry_lines::read_why;
use crate::line::{Call, Outcome, Reply};
use crate::split::split_last_colon;
use crate::words::Words;
use gate_io::{Bytes, NoMemory};
use std::alloc::Global;

/// The greatest numbers of 8 and of 32 bits.
const MOST_U8: u64 = 255;

const MOST_U32: u64 = 4_294_967_295;

/// The first word of a call's line.
#[derive(Clone, Copy, Debug)]
pub(crate) enum CallWord {
    Poll,
    Send,
    Request,
    Release,
    Hand,
    Beat,
}

/// The first word of an answer.
#[derive(Clone, Copy, Debug)]
pub(crate) enum AnswerWord {
    Message,
    Nothing,
    Sent,
    Asked,
    Granted,
    Refused,
    Released,
    Handed,
    Beaten,
    NotYet,
    Stale,
    LeaseLost,
    Outstanding,
    AsksSpent,
    RingFull,
    NotHeld,
    TooLong,
    BadBody,
    LaneFull,
    SendsSpent,
    BadHeir,
    Lost,
}

/// The place of a message: its session, the lease that reads it, and its position.
#[derive(Clone, Copy, Debug)]
pub(crate) struct LeasePlace {
    pub s: u16,
    pub lease: u32,
    pub pos: u64,
}

#[tactic(auto, unfolding(crate::specs::CallLines::call_word_of))]
pub(crate) fn call_word_of(word: &[u8]) -> Option<CallWord>
    ensures { result ≡ call_word_of word.now }
{
    if word == b"poll:".as_slice() {
        Some(CallWord::Poll)
    } else if word == b"send".as_slice() {
        Some(CallWord::Send)
    } else if word == b"request".as_slice() {
        Some(CallWord::Request)
    } else if word == b"release".as_slice() {
        Some(CallWord::Release)
    } else if word == b"hand".as_slice() {
        Some(CallWord::Hand)
    } else if word == b"beat:".as_slice() {
        Some(CallWord::Beat)
    } else {
        None
    }
}

#[tactic(auto, unfolding(crate::specs::CallLines::answer_word_of))]
fn answer_word_of(word: &[u8]) -> Option<AnswerWord>
    ensures { result ≡ answer_word_of word.now }
{
    if word == b"message".as_slice() {
        Some(AnswerWord::Message)
    } else if word == b"nothing".as_slice() {
        Some(AnswerWord::Nothing)
    } else if word == b"sent".as_slice() {
        Some(AnswerWord::Sent)
    } else if word == b"asked".as_slice() {
        Some(AnswerWord::Asked)
    } else if word == b"granted".as_slice() {
        Some(AnswerWord::Granted)
    } else if word == b"refused".as_slice() {
        Some(AnswerWord::Refused)
    } else if word == b"released".as_slice() {
        Some(AnswerWord::Released)
    } else if word == b"handed".as_slice() {
        Some(AnswerWord::Handed)
    } else if word == b"beaten".as_slice() {
        Some(AnswerWord::Beaten)
    } else if word == b"not-yet".as_slice() {
        Some(AnswerWord::NotYet)
    } else if word == b"stale".as_slice() {
        Some(AnswerWord::Stale)
    } else if word == b"lease-lost".as_slice() {
        Some(AnswerWord::LeaseLost)
    } else if word == b"outstanding".as_slice() {
        Some(AnswerWord::Outstanding)
    } else if word == b"asks-spent".as_slice() {
        Some(AnswerWord::AsksSpent)
    } else if word == b"ring-full".as_slice() {
        Some(AnswerWord::RingFull)
    } else if word == b"not-held".as_slice() {
        Some(AnswerWord::NotHeld)
    } else if word == b"too-long".as_slice() {
        Some(AnswerWord::TooLong)
    } else if word == b"bad-body".as_slice() {
        Some(AnswerWord::BadBody)
    } else if word == b"lane-full".as_slice() {
        Some(AnswerWord::LaneFull)
    } else if word == b"sends-spent".as_slice() {
        Some(AnswerWord::SendsSpent)
    } else if word == b"bad-heir".as_slice() {
        Some(AnswerWord::BadHeir)
    } else if word == b"lost".as_slice() {
        Some(AnswerWord::Lost)
    } else {
        None
    }
}

/// A number up to the most.
#[tactic(auto, unfolding(crate::specs::CallLines::one_number))]
fn read_one_number(most: u64, mut words: Words<'_>) -> Option<Call>
    ensures { result ≡ one_number most words.entry }
{
    let _n = words.number_to(most)?;
    words.end(Call::Other)
}

/// Two numbers.
#[tactic(auto, unfolding(crate::specs::CallLines::two_numbers))]
fn read_two_numbers(mut words: Words<'_>) -> Option<Call>
    ensures { result ≡ two_numbers words.entry }
{
    let _n = words.number()?;
    let _m = words.number()?;
    words.end(Call::Other)
}

fn is_standing(word: &[u8]) -> bool
    ensures { result ≡ is_standing word.now }
{
    word == b"active".as_slice() || word == b"released".as_slice() || word == b"revoked".as_slice()
}

/// `LEASE OWNER STANDING COUNT`.
#[tactic(auto, unfolding(crate::specs::CallLines::seen_word))]
fn read_seen_word(mut words: Words<'_>) -> Option<Call>
    ensures { result ≡ seen_word words.entry }
{
    let _lease = words.number_u32()?;
    let _owner = words.number_u8()?;
    let standing = words.word()?;
    let _count = words.number_u32()?;
    if is_standing(standing) {
        words.end(Call::Other)
    } else {
        None
    }
}

/// `S POS PUBLISHED`.
#[tactic(auto, unfolding(crate::specs::CallLines::not_yet))]
fn read_not_yet(mut words: Words<'_>) -> Option<Call>
    ensures { result ≡ not_yet words.entry }
{
    let _s = words.number_u16()?;
    read_two_numbers(words)
}

/// `S lease LEASE pos POS`.
#[tactic(auto, unfolding(crate::specs::CallLines::stale))]
fn read_stale(mut words: Words<'_>) -> Option<Call>
    ensures { result ≡ stale words.entry }
{
    let _s = words.number_u16()?;
    let _lease = words.named_u32(b"lease")?;
    let _pos = words.named(b"pos")?;
    words.end(Call::Other)
}

/// `S lease LEASE WORD`.
#[tactic(auto, unfolding(crate::specs::CallLines::lease_lost))]
fn read_lease_lost(mut words: Words<'_>) -> Option<Call>
    ensures { result ≡ lease_lost words.entry }
{
    let _s = words.number_u16()?;
    let _lease = words.named_u32(b"lease")?;
    read_seen_word(words)
}

/// `NR S lease LEASE from FROM start START`.
#[tactic(auto, unfolding(crate::specs::CallLines::poll_granted))]
fn read_poll_granted(mut words: Words<'_>) -> Option<Call>
    ensures { result ≡ poll_granted words.entry }
{
    let nr = words.number_u32()?;
    let s = words.number_u16()?;
    let lease = words.named_u32(b"lease")?;
    let from = words.named(b"from")?;
    let start = words.named(b"start")?;
    let outcome = Outcome::Granted { lease, from, start };
    words.end(Call::Replied {
        nr,
        reply: Reply { s, outcome },
    })
}

/// `NR S WHY`.
#[tactic(auto, unfolding(crate::specs::CallLines::poll_refused))]
fn read_poll_refused(mut words: Words<'_>) -> Option<Call>
    ensures { result ≡ poll_refused words.entry }
{
    let nr = words.number_u32()?;
    let s = words.number_u16()?;
    let why = read_why(words)?;
    let outcome = Outcome::Refused(why);
    Some(Call::Replied {
        nr,
        reply: Reply { s, outcome },
    })
}

/// `S lease LEASE pos POS`, behind which a body follows.
fn read_place(words: &mut Words<'_>) -> Option<LeasePlace>
    ensures value { result ≡ place_at words.old }
    ensures rest { IsSome result → words.new ≡ later (behind4 words.old) }
{
    let s = words.number_u16()?;
    let lease = words.named_u32(b"lease")?;
    let pos = words.named(b"pos")?;
    Some(LeasePlace { s, lease, pos })
}

/// `S lease LEASE pos POS BODY`.
#[tactic(auto, unfolding(crate::specs::CallLines::poll_message))]
fn read_poll_message(alloc: Global, mut words: Words<'_>) -> Result<Option<Call>, NoMemory>
    ensures { IfOk result (λ call. call ≡ poll_message words.entry) }
{
    let Some(LeasePlace { s, lease, pos }) = read_place(&mut words) else {
        return Ok(None);
    };
    let body = words.printed(alloc)?;
    Ok(body.map(|body| Call::Read {
        s,
        lease,
        pos,
        body,
    }))
}

#[tactic(auto, unfolding(crate::specs::CallLines::poll_answer))]
fn read_poll_answer(
    alloc: Global,
    word: AnswerWord,
    words: Words<'_>,
) -> Result<Option<Call>, NoMemory>
    ensures { IfOk result (λ call. call ≡ poll_answer word words.entry) }
{
    let call = match word {
        AnswerWord::Message => read_poll_message(alloc, words)?,
        AnswerWord::Nothing => words.end(Call::Other),
        AnswerWord::NotYet => read_not_yet(words),
        AnswerWord::Granted => read_poll_granted(words),
        AnswerWord::Refused => read_poll_refused(words),
        AnswerWord::Stale => read_stale(words),
        AnswerWord::LeaseLost => read_lease_lost(words),
        _ => None,
    };
    Ok(call)
}

/// The first word of an answer, if it is one.
fn answer_word(words: &mut Words<'_>) -> Option<AnswerWord>
    ensures value { result ≡ answer_at words.old }
    ensures rest { words.new ≡ later words.old }
{
    let word = words.word()?;
    answer_word_of(word)
}

/// `ANSWER`.
#[tactic(auto, unfolding(crate::specs::CallLines::poll_line))]
fn read_poll(alloc: Global, mut words: Words<'_>) -> Result<Option<Call>, NoMemory>
    ensures { IfOk result (λ call. call ≡ poll_line words.entry) }
{
    let Some(word) = answer_word(&mut words) else {
        return Ok(None);
    };
    read_poll_answer(alloc, word, words)
}

/// `beaten`.
#[tactic(auto, unfolding(crate::specs::CallLines::beat_line))]
fn read_beat(mut words: Words<'_>) -> Option<Call>
    ensures { result ≡ beat_line words.entry }
{
    let word = answer_word(&mut words)?;
    read_beat_answer(word, words)
}

#[tactic(auto, unfolding(crate::specs::CallLines::beat_answer))]
fn read_beat_answer(word: AnswerWord, words: Words<'_>) -> Option<Call>
    ensures { result ≡ beat_answer word words.entry }
{
    match word {
        AnswerWord::Beaten => words.end(Call::Other),
        _ => None,
    }
}

/// `NR`.
#[tactic(auto, unfolding(crate::specs::CallLines::asked))]
fn read_asked(mut words: Words<'_>) -> Option<Call>
    ensures { result ≡ asked words.entry }
{
    let nr = words.number_u32()?;
    words.end(Call::Asked { nr })
}

#[tactic(auto, unfolding(crate::specs::CallLines::request_answer))]
fn read_request_answer(word: AnswerWord, words: Words<'_>) -> Option<Call>
    ensures { result ≡ request_answer word words.entry }
{
    match word {
        AnswerWord::Asked => read_asked(words),
        AnswerWord::Outstanding | AnswerWord::AsksSpent => read_one_number(MOST_U32, words),
        AnswerWord::RingFull => read_two_numbers(words),
        _ => None,
    }
}

/// `LEASE ORDINAL`.
#[tactic(auto, unfolding(crate::specs::CallLines::sent))]
fn read_sent(s: u16, body: Bytes, mut words: Words<'_>) -> Option<Call>
    ensures { result ≡ sent s body words.entry }
{
    let lease = words.number_u32()?;
    let ordinal = words.number_u32()?;
    words.end(Call::Sent {
        s,
        lease,
        ordinal,
        body,
    })
}

#[tactic(auto, unfolding(crate::specs::CallLines::send_answer))]
fn read_send_answer(s: u16, body: Bytes, word: AnswerWord, words: Words<'_>) -> Option<Call>
    ensures { result ≡ send_answer s body word words.entry }
{
    match word {
        AnswerWord::Sent => read_sent(s, body, words),
        AnswerWord::NotHeld => words.end(Call::Other),
        AnswerWord::TooLong | AnswerWord::BadBody => read_one_number(u64::MAX, words),
        AnswerWord::LaneFull => read_two_numbers(words),
        AnswerWord::SendsSpent => read_one_number(MOST_U32, words),
        AnswerWord::Lost => read_seen_word(words),
        _ => None,
    }
}

/// `LEASE COUNT`.
#[tactic(auto, unfolding(crate::specs::CallLines::given_back))]
fn read_given_back(s: u16, heir: u8, mut words: Words<'_>) -> Option<Call>
    ensures { result ≡ given_back s heir words.entry }
{
    let lease = words.number_u32()?;
    let count = words.number_u32()?;
    words.end(Call::GaveBack {
        s,
        lease,
        count,
        heir,
    })
}

#[tactic(auto, unfolding(crate::specs::CallLines::release_answer))]
fn read_release_answer(s: u16, word: AnswerWord, words: Words<'_>) -> Option<Call>
    ensures { result ≡ release_answer s word words.entry }
{
    match word {
        AnswerWord::Released => read_given_back(s, 0, words),
        AnswerWord::NotHeld => words.end(Call::Other),
        AnswerWord::Lost => read_seen_word(words),
        _ => None,
    }
}

#[tactic(auto, unfolding(crate::specs::CallLines::hand_answer))]
fn read_hand_answer(s: u16, heir: u8, word: AnswerWord, words: Words<'_>) -> Option<Call>
    ensures { result ≡ hand_answer s heir word words.entry }
{
    match word {
        AnswerWord::Handed if heir == 0 => None,
        AnswerWord::Handed => read_given_back(s, heir, words),
        AnswerWord::NotHeld => words.end(Call::Other),
        AnswerWord::BadHeir => read_one_number(MOST_U8, words),
        AnswerWord::Lost => read_seen_word(words),
        _ => None,
    }
}

/// `S FROM: ANSWER`.
#[tactic(auto, unfolding(crate::specs::CallLines::request_line))]
fn read_request(mut words: Words<'_>, word: AnswerWord, answer: Words<'_>) -> Option<Call>
    ensures { result ≡ request_line words.entry word answer.entry }
{
    let _s = words.number_u16()?;
    let from = words.number()?;
    let _from = words.end(from)?;
    read_request_answer(word, answer)
}

/// `S BODY: ANSWER`.
#[tactic(auto, unfolding(crate::specs::CallLines::send_line))]
fn read_send(
    alloc: Global,
    mut words: Words<'_>,
    word: AnswerWord,
    answer: Words<'_>,
) -> Result<Option<Call>, NoMemory>
    ensures { IfOk result (λ call. call ≡ send_line words.entry word answer.entry) }
{
    let Some(s) = words.number_u16() else {
        return Ok(None);
    };
    let Some(body) = words.printed(alloc)? else {
        return Ok(None);
    };
    Ok(read_send_answer(s, body, word, answer))
}

/// `S: ANSWER`.
#[tactic(auto, unfolding(crate::specs::CallLines::release_line))]
fn read_release(mut words: Words<'_>, word: AnswerWord, answer: Words<'_>) -> Option<Call>
    ensures { result ≡ release_line words.entry word answer.entry }
{
    let s = words.number_u16()?;
    let s = words.end(s)?;
    read_release_answer(s, word, answer)
}

/// `S H: ANSWER`.
#[tactic(auto, unfolding(crate::specs::CallLines::hand_line))]
fn read_hand(mut words: Words<'_>, word: AnswerWord, answer: Words<'_>) -> Option<Call>
    ensures { result ≡ hand_line words.entry word answer.entry }
{
    let s = words.number_u16()?;
    let heir = words.number_u8()?;
    let heir = words.end(heir)?;
    read_hand_answer(s, heir, word, answer)
}

/// The first word of an answer behind a space: behind an empty word.
fn answer_behind_space(words: &mut Words<'_>) -> Option<AnswerWord>
    ensures value { result ≡ spaced_answer_at words.old }
    ensures rest { IsSome result → words.new ≡ behind2 words.old }
{
    let empty = words.word()?;
    let word = answer_word(words)?;
    if empty.is_empty() { Some(word) } else { None }
}

#[tactic(auto, unfolding(crate::specs::CallLines::answered_line))]
fn read_answered(
    alloc: Global,
    called: CallWord,
    words: Words<'_>,
    word: AnswerWord,
    answer: Words<'_>,
) -> Result<Option<Call>, NoMemory>
    ensures { IfOk result (λ call. call ≡ answered_line called words.entry word answer.entry) }
{
    let line = match called {
        CallWord::Request => read_request(words, word, answer),
        CallWord::Send => read_send(alloc, words, word, answer)?,
        CallWord::Release => read_release(words, word, answer),
        CallWord::Hand => read_hand(words, word, answer),
        CallWord::Poll | CallWord::Beat => None,
    };
    Ok(line)
}

#[tactic(auto, unfolding(crate::specs::CallLines::parted_line))]
fn read_parted(alloc: Global, word: CallWord, words: Words<'_>) -> Result<Option<Call>, NoMemory>
    ensures { IfOk result (λ call. call ≡ parted_line word words.entry) }
{
    let Some(text) = words.text() else {
        return Ok(None);
    };
    let Some((call, answer)) = split_last_colon(text) else {
        return Ok(None);
    };
    let mut answer = Words::of(answer);
    let Some(kind) = answer_behind_space(&mut answer) else {
        return Ok(None);
    };
    read_answered(alloc, word, Words::of(call), kind, answer)
}

/// What follows the first word of a call's line.
#[tactic(auto, unfolding(crate::specs::CallLines::call_line))]
pub(crate) fn read_call(
    alloc: Global,
    word: CallWord,
    words: Words<'_>,
) -> Result<Option<Call>, NoMemory>
    ensures { IfOk result (λ call. call ≡ call_line word words.entry) }
{
    match word {
        CallWord::Poll => read_poll(alloc, words),
        CallWord::Beat => Ok(read_beat(words)),
        _ => read_parted(alloc, word, words),
    }
}
