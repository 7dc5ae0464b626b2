//! The command that the words behind the program's name give.

ghost use Rattle.std.specs.Prelude.{◌≡◌, ◌↔◌, List, ℕ, [], ◌∷◌, IfOk, IsErrOf, IsTrue, Some, map, string_bytes};
ghost use Rattle.std.specs.List.{list_all};
ghost use Rattle.clap.specs.Words.{kind_of};
ghost use Rattle.clap.specs.declared.error.kind.ErrorKind.TheVariants as kind;
ghost use Rattle.command_words.specs.Words.{Gives, HasCommand, error_text, is_word};
ghost use Rattle.command_words.specs.declared.words.WordsError.TheVariants.{OutOfMemory};

use crate::numbers::number_up_to;
use crate::places::{Placed, places_of};
use clap::error::ErrorKind;
use drill_maker::MOST_ROUNDS;
use gate_io::Label;
use std::alloc::{AllocError, Global};
use std::error::Error;
use std::fmt;

/// The most turns that `serve` may be given. The least is 1.
pub const MOST_TURNS: u64 = 1_000_000_000_000;

/// A command.
#[derive(Debug, Drop)]
pub enum Chosen {
    /// Carry out the script in this file on one thread.
    Replay {
        path: Label,
    },
    /// Carry out the drill of `n` rounds, from 1 to 500.
    Drill {
        n: u32,
    },
    /// Serve the script in this file, listening at the address, for at most so many turns.
    Serve {
        path: Label,
        address: Label,
        turns: u64,
    },
}

/// Why the words give no command.
#[derive(Clone, Copy, Debug, PartialEq, Eq)]
pub enum WordsError {
    OutOfMemory,
    /// They are none of the commands.
    Usage,
}

impl fmt::Display for WordsError {
    ghost output = { λ e. Some (error_text e) };

    fn fmt<W: fmt::Write>(&self, f: &mut fmt::Formatter<W>) -> fmt::Result {
        match self {
            WordsError::OutOfMemory => write!(f, "out of memory"),
            WordsError::Usage => write!(f, "the words give no command"),
        }
    }
}

impl Error for WordsError {}

impl From<AllocError> for WordsError {
    ghost from_gives = { λ _ e. e ≡ OutOfMemory };

    fn from(_e: AllocError) -> WordsError {
        WordsError::OutOfMemory
    }
}

impl From<clap::Error> for WordsError {
    ghost from_gives = { λ e error. (kind_of e ≡ kind.OutOfMemory) ↔ (error ≡ OutOfMemory) };

    fn from(e: clap::Error) -> WordsError {
        match e.kind() {
            ErrorKind::OutOfMemory => WordsError::OutOfMemory,
            _ => WordsError::Usage,
        }
    }
}

/// The command that the words give, those behind the program's name: `replay` and a path, `drill` and a
/// number of rounds, or `serve`, a path, an address and a number of turns. No word may be empty or begin
/// with `-`.
#[tactic(auto, using(crate::proofs::Shapes::stand_mapped))]
pub fn command_of(alloc: Global, words: &[String]) -> Result<Chosen, WordsError>
    ensures chosen { IfOk result (Gives (map string_bytes words.now)) }
    ensures usage { IsErrOf result WordsError.Usage → HasCommand (map string_bytes words.now) → ⊥ }
    // A word that may not stand in a command is told without memory.
    ensures wanted { IsErrOf result WordsError.OutOfMemory → IsTrue (list_all is_word (map string_bytes words.now)) }
{
    if !may_stand(words) {
        return Err(WordsError::Usage);
    }
    match places_of(alloc, words)? {
        Placed {
            command: Some(command),
            subject: Some(subject),
            address: None,
            turns: None,
        } => of_two(alloc, command, subject),
        Placed {
            command: Some(command),
            subject: Some(path),
            address: Some(address),
            turns: Some(turns),
        } => of_four(alloc, command, path, address, turns),
        _ => Err(WordsError::Usage),
    }
}

/// The command that two words give: `replay` and a path, or `drill` and a number.
fn of_two(alloc: Global, command: &str, subject: &str) -> Result<Chosen, WordsError>
    requires { IsTrue (list_all is_word (command.now ∷ subject.now ∷ [])) }
    ensures chosen { IfOk result (Gives (command.now ∷ subject.now ∷ [])) }
    ensures usage { IsErrOf result WordsError.Usage → HasCommand (command.now ∷ subject.now ∷ []) → ⊥ }
{
    if command == "replay" {
        return Ok(Chosen::Replay {
            path: label(alloc, subject)?,
        });
    }
    if command != "drill" {
        return Err(WordsError::Usage);
    }
    match number_up_to(subject, MOST_ROUNDS as u64) {
        Some(n) => Ok(Chosen::Drill { n: n as u32 }),
        None => Err(WordsError::Usage),
    }
}

/// The command that four words give: `serve`, a path, an address and a number.
fn of_four(
    alloc: Global,
    command: &str,
    path: &str,
    address: &str,
    turns: &str,
) -> Result<Chosen, WordsError>
    requires { IsTrue (list_all is_word (command.now ∷ path.now ∷ address.now ∷ turns.now ∷ [])) }
    ensures chosen { IfOk result (Gives (command.now ∷ path.now ∷ address.now ∷ turns.now ∷ [])) }
    ensures usage { IsErrOf result WordsError.Usage → HasCommand (command.now ∷ path.now ∷ address.now ∷ turns.now ∷ []) → ⊥ }
{
    if command != "serve" {
        return Err(WordsError::Usage);
    }
    match number_up_to(turns, MOST_TURNS) {
        Some(turns) => Ok(Chosen::Serve {
            path: label(alloc, path)?,
            address: label(alloc, address)?,
            turns,
        }),
        None => Err(WordsError::Usage),
    }
}

fn label(alloc: Global, text: &str) -> Result<Label, AllocError>
    ensures { IfOk result (λ label. label ≡ text.now) }
{
    Ok(Label::of(String::from_str(alloc, text)?))
}

/// Whether each word may stand in a command.
fn may_stand(words: &[String]) -> bool
    ensures { result ≡ list_all (λ word. is_word (string_bytes word)) words.now }
{
    words.iter().all(|word| is_word(word.as_str()))
}

/// Whether a word may stand in a command: it isn't empty and doesn't begin with `-`.
fn is_word(word: &str) -> bool
    ensures { result ≡ is_word word.now }
{
    match word.as_bytes() {
        [] => false,
        [first, ..] => *first != b'-',
    }
}
