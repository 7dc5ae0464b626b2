//! What stands in a line behind its first word.

ghost use Rattle.std.specs.Prelude.{◌≡◌, ◌≤◌, true, IfOk};
ghost use Rattle.script_text.specs.Args.{body_at, ends, is_framed, keyword_at, later, lent_args, lent_word, moment_at, name_at, number_at, number_line, number_within, text_at, word_at};
ghost use Rattle.script_text.specs.Grammar.{connection_at, session_at};
ghost use Rattle.script_text.specs.Words.{is_name};

use crate::kinds::ScriptKind;
use crate::numbers::NextNumbers;
use crate::parts::{Part, demand};
use crate::printed::read_text;
use crate::words::{is_name, read_natural, split_word};
use fix_fields::read_stamp;
use fix_frame::{LONGEST_FRAME, frame_len, is_body};
use gate_io::{Bytes, NoMemory};
use std::alloc::Global;
use std::marker::Model;

/// What is left of a line behind a word: nothing, or what follows its space.
#[derive(Drop)]
pub(crate) struct Args<'a> {
    rest: Option<&'a [u8]>,
}

impl<'a> Model for Args<'a> {
    ghost use Rattle.std.specs.Prelude.{ℕ, List, Option};
    ghost use Rattle.script_text.specs.Args.{lent_args};

    ghost Value = { Option (List ℕ) };

    ghost view = { λ f. lent_args f.rest };
}

impl<'a> Args<'a> {
    /// What is left behind a word that was split off.
    pub(crate) fn of(rest: Option<&'a [u8]>) -> Args<'a>
        ensures { result ≡ lent_args rest.entry }
    {
        Args { rest }
    }

    /// The next word, which may be empty, if there is one.
    #[tactic(auto, unfolding(crate::specs::Args::later))]
    pub(crate) fn keyword(&mut self) -> Option<&'a [u8]>
        ensures value { lent_args result ≡ keyword_at self.old }
        ensures rest { self.new ≡ later self.old }
    {
        let (word, behind) = split_word(self.rest?);
        self.rest = behind;
        Some(word)
    }

    /// The next word, which has to be there and not be empty.
    #[tactic(auto, unfolding(crate::specs::Args::word_at, crate::specs::Args::later))]
    fn word(&mut self) -> Part<&'a [u8]>
        ensures value { lent_word result ≡ word_at self.old }
        ensures rest { self.new ≡ later self.old }
    {
        let Some(text) = self.rest else {
            return Err(ScriptKind::BadShape);
        };
        let (word, behind) = split_word(text);
        self.rest = behind;
        if word.is_empty() {
            Err(ScriptKind::BadShape)
        } else {
            Ok(word)
        }
    }

    /// The next word as a number.
    #[tactic(auto, unfolding(crate::specs::Args::number_at))]
    pub(crate) fn number(&mut self) -> Part<u64>
        ensures value { result ≡ number_at self.old }
        ensures rest { self.new ≡ later self.old }
    {
        let word = self.word()?;
        read_natural(word).ok_or(ScriptKind::BadNumber)
    }

    /// A number in a range.
    #[tactic(auto, unfolding(crate::specs::Args::number_within))]
    pub(crate) fn number_within(&mut self, low: u64, high: u64) -> Part<u64>
        ensures value { result ≡ number_within low high self.old }
        ensures rest { self.new ≡ later self.old }
        ensures bound { IfOk result (λ n. n ≤ high) }
    {
        let n = self.number()?;
        if low <= n && n <= high {
            Ok(n)
        } else {
            Err(ScriptKind::OutOfRange)
        }
    }

    /// A number of 32 bits in a range.
    pub(crate) fn number_u32(&mut self, low: u32, high: u32) -> Part<u32>
        ensures value { result ≡ number_within low high self.old }
        ensures rest { self.new ≡ later self.old }
    {
        let n = self.number_within(low as u64, high as u64)?;
        Ok(n as u32)
    }

    /// A number of 8 bits in a range.
    pub(crate) fn number_u8(&mut self, low: u8, high: u8) -> Part<u8>
        ensures value { result ≡ number_within low high self.old }
        ensures rest { self.new ≡ later self.old }
    {
        let n = self.number_within(low as u64, high as u64)?;
        Ok(n as u8)
    }

    /// A number of 64 bits in a range, with which the line ends.
    #[tactic(auto, unfolding(crate::specs::Args::number_line))]
    pub(crate) fn last_u64(mut self, low: u64, high: u64) -> Part<u64>
        ensures { result ≡ number_line low high self.entry }
    {
        let n = self.number_within(low, high);
        self.end(n)
    }

    /// A number of 32 bits in a range, with which the line ends.
    #[tactic(auto, unfolding(crate::specs::Args::number_line))]
    pub(crate) fn last_u32(mut self, low: u32, high: u32) -> Part<u32>
        ensures { result ≡ number_line low high self.entry }
    {
        let n = self.number_u32(low, high);
        self.end(n)
    }

    /// A number of 8 bits in a range, with which the line ends.
    #[tactic(auto, unfolding(crate::specs::Args::number_line))]
    pub(crate) fn last_u8(mut self, low: u8, high: u8) -> Part<u8>
        ensures { result ≡ number_line low high self.entry }
    {
        let n = self.number_u8(low, high);
        self.end(n)
    }

    /// The number of a session.
    #[tactic(auto, unfolding(crate::specs::Grammar::session_at))]
    pub(crate) fn session(&mut self) -> Part<u16>
        ensures value { result ≡ session_at self.old }
        ensures rest { self.new ≡ later self.old }
    {
        let n = self.number_within(0, 65_535)?;
        Ok(n as u16)
    }

    /// The number of a connection that is made.
    #[tactic(auto, unfolding(crate::specs::Grammar::connection_at))]
    pub(crate) fn connection(&mut self, next: NextNumbers) -> Part<u32>
        ensures value { result ≡ connection_at next self.old }
        ensures rest { self.new ≡ later self.old }
    {
        let c = self.number()?;
        if next.has(c) {
            Ok(c as u32)
        } else {
            Err(ScriptKind::OutOfRange)
        }
    }

    /// The next word as the moment of a timestamp.
    #[tactic(auto, unfolding(crate::specs::Args::moment_at))]
    pub(crate) fn moment(&mut self) -> Part<u64>
        ensures value { result ≡ moment_at self.old }
        ensures rest { self.new ≡ later self.old }
    {
        let word = self.word()?;
        read_stamp(word).ok_or(ScriptKind::BadNumber)
    }

    /// The next word as a name.
    #[tactic(auto, unfolding(crate::specs::Args::name_at))]
    pub(crate) fn name(&mut self) -> Part<&'a [u8]>
        ensures value { lent_word result ≡ name_at self.old }
        ensures rest { self.new ≡ later self.old }
        ensures name { IfOk result (λ word. is_name word.now ≡ true) }
    {
        let word = self.word()?;
        if is_name(word) {
            Ok(word)
        } else {
            Err(ScriptKind::BadText)
        }
    }

    /// All that follows, as the bytes that it stands for.
    #[tactic(auto, unfolding(crate::specs::Args::text_at))]
    pub(crate) fn text(&self, alloc: Global) -> Result<Part<Bytes>, NoMemory>
        ensures { IfOk result (λ part. part ≡ text_at self.now) }
    {
        let Some(text) = self.rest else {
            return Ok(Err(ScriptKind::BadShape));
        };
        let bytes = read_text(alloc, text)?;
        Ok(bytes.ok_or(ScriptKind::BadText))
    }

    /// All that follows, as the body of a frame.
    #[tactic(auto, unfolding(crate::specs::Args::body_at))]
    pub(crate) fn body(&self, alloc: Global) -> Result<Part<Bytes>, NoMemory>
        ensures { IfOk result (λ part. part ≡ body_at self.now) }
    {
        match self.text(alloc)? {
            Ok(bytes) if !is_framed(bytes.as_slice()) => Ok(Err(ScriptKind::BadText)),
            part => Ok(part),
        }
    }

    /// The part, with which the line has to end.
    pub(crate) fn end<T: Drop>(&self, part: Part<T>) -> Part<T>
        ensures { result ≡ ends self.now part }
    {
        demand(self.rest.is_none(), ScriptKind::BadShape, part)
    }
}

/// Whether the bytes are a body in a frame that isn't too long.
fn is_framed(bytes: &[u8]) -> bool
    ensures { result ≡ is_framed bytes.now }
{
    is_body(bytes) && frame_len(bytes) <= LONGEST_FRAME
}
