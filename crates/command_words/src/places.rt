//! The words by their places, as clap reads them.

ghost use Rattle.std.specs.Prelude.{◌≡◌, ◌≤◌, IfOk, IsErrOf, IsTrue, length, map, string_bytes};
ghost use Rattle.std.specs.List.{list_all};
ghost use Rattle.clap.specs.Words.{app_of};
ghost use Rattle.command_words.specs.Words.{is_word};
ghost use Rattle.command_words.specs.Places.{AreAt, line_of_four};

use crate::words::WordsError;
use clap::{Arg, Command};
use std::alloc::{AllocError, Global};

/// The words, each at its place.
#[derive(Clone, Copy, Debug)]
pub(crate) struct Placed<'a> {
    pub(crate) command: Option<&'a str>,
    /// The path of a script, or the number of a drill.
    pub(crate) subject: Option<&'a str>,
    pub(crate) address: Option<&'a str>,
    pub(crate) turns: Option<&'a str>,
}

/// The command line of the program: four positionals, none of them required, and no flag.
fn command_line<'a>(alloc: Global) -> Result<Command<'a>, AllocError>
    ensures { IfOk result (λ command. app_of command ≡ line_of_four) }
{
    Command::new(alloc, "fixgate")
        .no_binary_name(true)
        .disable_help_flag(true)
        .arg(Arg::new(alloc, "command"))?
        .arg(Arg::new(alloc, "subject"))?
        .arg(Arg::new(alloc, "address"))?
        .arg(Arg::new(alloc, "turns"))
}

/// The words by their places. They are refused where there are more than four.
pub(crate) fn places_of<'a>(alloc: Global, words: &'a [String]) -> Result<Placed<'a>, WordsError>
    requires { IsTrue (list_all is_word (map string_bytes words.now)) }
    ensures all { IfOk result (λ placed. AreAt placed (map string_bytes words.entry.now)) }
    ensures usage { IsErrOf result WordsError.Usage → length (map string_bytes words.entry.now) ≤ 4 → ⊥ }
{
    let command = command_line(alloc)?;
    let matches = command.try_get_matches_from(words)?;
    Ok(Placed {
        command: matches.get_str("command"),
        subject: matches.get_str("subject"),
        address: matches.get_str("address"),
        turns: matches.get_str("turns"),
    })
}
