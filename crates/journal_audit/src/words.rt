//! The words of a line, read one after the other.

ghost use Rattle.std.specs.Prelude.{◌≡◌, ◌≤◌, Some, IfOk, IfSome};
ghost use Rattle.script_text.specs.Args.{lent_args, keyword_at, later};
ghost use Rattle.journal_audit.specs.Words.{number_in, half_in, number_at, number_to, named_to, stamp_in, stamp_at, printed_in, printed_at, ending, label_at, BYTE, HALF, WORD, LONG};

use fix_fields::read_stamp;
use gate_io::{Bytes, NoMemory};
use script_text::{push_printed, read_natural, read_text, split_word};
use std::alloc::Global;
use std::marker::Model;

/// How many bytes a timestamp with milliseconds has.
pub(crate) const STAMP_LENGTH: usize = 21;

/// What is left of a line behind a word: nothing, or what follows its space.
#[derive(Drop)]
pub(crate) struct Words<'a> {
    rest: Option<&'a [u8]>,
}

impl<'a> Model for Words<'a> {
    ghost use Rattle.std.specs.Prelude.{ℕ, List, Option};
    ghost use Rattle.script_text.specs.Args.{lent_args};

    ghost Value = { Option (List ℕ) };

    ghost view = { λ f. lent_args f.rest };
}

impl<'a> Words<'a> {
    /// The words of a text.
    pub(crate) fn of(text: &'a [u8]) -> Words<'a>
        ensures { result ≡ Some text.now }
    {
        Words { rest: Some(text) }
    }

    /// The next word, which may be empty, if there is one.
    #[tactic(auto, unfolding(script_text::specs::Args::later))]
    pub(crate) fn word(&mut self) -> Option<&'a [u8]>
        ensures value { lent_args result ≡ keyword_at self.old }
        ensures rest { self.new ≡ later self.old }
    {
        let (word, behind) = split_word(self.rest?);
        self.rest = behind;
        Some(word)
    }

    /// Whether the next word is this one.
    pub(crate) fn label(&mut self, label: &[u8]) -> bool
        ensures value { result ≡ label_at label.now self.old }
        ensures rest { self.new ≡ later self.old }
    {
        match self.word() {
            Some(word) => word == label,
            None => false,
        }
    }

    /// The next word as a number.
    pub(crate) fn number(&mut self) -> Option<u64>
        ensures value { result ≡ number_at self.old }
        ensures rest { self.new ≡ later self.old }
    {
        let word = self.word()?;
        read_number(word)
    }

    /// The next word as a number up to the most.
    pub(crate) fn number_to(&mut self, most: u64) -> Option<u64>
        ensures value { result ≡ number_to most self.old }
        ensures rest { self.new ≡ later self.old }
        ensures bound { IfSome result (λ n. n ≤ most) }
    {
        let n = self.number()?;
        if n <= most { Some(n) } else { None }
    }

    pub(crate) fn number_u32(&mut self) -> Option<u32>
        ensures value { result ≡ number_to WORD self.old }
        ensures rest { self.new ≡ later self.old }
    {
        let n = self.number_to(u64::from(u32::MAX))?;
        Some(n as u32)
    }

    pub(crate) fn number_u16(&mut self) -> Option<u16>
        ensures value { result ≡ number_to HALF self.old }
        ensures rest { self.new ≡ later self.old }
    {
        let n = self.number_to(u64::from(u16::MAX))?;
        Some(n as u16)
    }

    pub(crate) fn number_u8(&mut self) -> Option<u8>
        ensures value { result ≡ number_to BYTE self.old }
        ensures rest { self.new ≡ later self.old }
    {
        let n = self.number_to(u64::from(u8::MAX))?;
        Some(n as u8)
    }

    /// The number behind the next word, which has to be this one.
    pub(crate) fn named(&mut self, label: &[u8]) -> Option<u64>
        ensures value { result ≡ named_to label.now LONG self.old }
        ensures rest { self.new ≡ later (later self.old) }
    {
        let is_label = self.label(label);
        let n = self.number_to(u64::MAX)?;
        if is_label { Some(n) } else { None }
    }

    pub(crate) fn named_u32(&mut self, label: &[u8]) -> Option<u32>
        ensures value { result ≡ named_to label.now WORD self.old }
        ensures rest { self.new ≡ later (later self.old) }
    {
        let is_label = self.label(label);
        let n = self.number_to(u64::from(u32::MAX))?;
        if is_label { Some(n as u32) } else { None }
    }

    pub(crate) fn named_u8(&mut self, label: &[u8]) -> Option<u8>
        ensures value { result ≡ named_to label.now BYTE self.old }
        ensures rest { self.new ≡ later (later self.old) }
    {
        let is_label = self.label(label);
        let n = self.number_to(u64::from(u8::MAX))?;
        if is_label { Some(n as u8) } else { None }
    }

    /// The next word as the moment of a timestamp with milliseconds.
    pub(crate) fn stamp(&mut self) -> Option<u64>
        ensures value { result ≡ stamp_at self.old }
        ensures rest { self.new ≡ later self.old }
    {
        let word = self.word()?;
        read_long_stamp(word)
    }

    /// All that follows, as the bytes for which it is printed.
    pub(crate) fn printed(&self, alloc: Global) -> Result<Option<Bytes>, NoMemory>
        ensures { IfOk result (λ bytes. bytes ≡ printed_at self.now) }
    {
        match self.rest {
            Some(text) => read_printed(alloc, text),
            None => Ok(None),
        }
    }

    /// All that follows.
    pub(crate) fn text(&self) -> Option<&'a [u8]>
        ensures { lent_args result ≡ self.now }
    {
        self.rest
    }

    /// The part, with which the line has to end.
    pub(crate) fn end<T: Drop>(&self, part: T) -> Option<T>
        ensures { result ≡ ending self.now part }
    {
        if self.rest.is_none() {
            Some(part)
        } else {
            None
        }
    }
}

/// The number that a word is, without leading zeros.
#[tactic(auto, unfolding(crate::specs::Words::number_in))]
fn read_number(word: &[u8]) -> Option<u64>
    ensures { result ≡ number_in word.now }
{
    if word.len() > 1 && word[0] == b'0' {
        None
    } else {
        read_natural(word)
    }
}

/// The number of 16 bits that a word is, without leading zeros.
pub(crate) fn read_small_number(word: &[u8]) -> Option<u16>
    ensures { result ≡ half_in word.now }
{
    let n = read_number(word)?;
    if n <= u64::from(u16::MAX) {
        Some(n as u16)
    } else {
        None
    }
}

#[tactic(auto, unfolding(crate::specs::Words::stamp_in))]
fn read_long_stamp(word: &[u8]) -> Option<u64>
    ensures { result ≡ stamp_in word.now }
{
    if word.len() == STAMP_LENGTH {
        read_stamp(word)
    } else {
        None
    }
}

/// The bytes that are printed as this text, if there are any.
#[tactic(auto, unfolding(crate::specs::Words::printed_in))]
fn read_printed(alloc: Global, text: &[u8]) -> Result<Option<Bytes>, NoMemory>
    ensures { IfOk result (λ bytes. bytes ≡ printed_in text.now) }
{
    let Some(bytes) = read_text(alloc, text)? else {
        return Ok(None);
    };
    let mut printed = Vec::with_capacity(alloc, text.len())?;
    push_printed(&mut printed, bytes.as_slice())?;
    if printed.as_slice() == text {
        Ok(Some(bytes))
    } else {
        Ok(None)
    }
}
