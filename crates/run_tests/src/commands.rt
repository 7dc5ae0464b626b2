//! The command that words give, or that they give none.
//!
//! A row has words, each with `|` behind it, and then the command that they give; where they give none it ends with
//! them.

use crate::replayed::words;
use anyhow::{Context, Result};
use gateway_run::{Chosen, command_of};
use row_text::same;
use std::alloc::Global;

/// What stands between a row's words and its command.
const GIVES: &str = " gives ";

/// What words are answered with that give no command.
const NO_COMMAND: &str = "the words give no command";

/// A path may be any word that isn't empty and doesn't begin with `-`.
const REPLAYS: &str = "\
replay|a.script| gives replay [a.script]
replay|drill| gives replay [drill]
replay|replay| gives replay [replay]
replay|serve| gives replay [serve]
replay|help| gives replay [help]
replay|7| gives replay [7]
replay|a-b| gives replay [a-b]
replay|a=b| gives replay [a=b]
replay|two words| gives replay [two words]
replay| | gives replay [ ]
replay|+| gives replay [+]
replay|\u{2212}x| gives replay [\u{2212}x]
";

/// Leading zeros count among the twenty digits that a number may have.
const DRILLS: &str = "\
drill|1| gives drill [1]
drill|7| gives drill [7]
drill|499| gives drill [499]
drill|500| gives drill [500]
drill|007| gives drill [7]
drill|00000000000000000500| gives drill [500]
";

const SERVES: &str = "\
serve|a.script|127.0.0.1:9880|1| gives serve [a.script] [127.0.0.1:9880] [1]
serve|serve|replay|1000000000000| gives serve [serve] [replay] [1000000000000]
serve|a|b|999999999999| gives serve [a] [b] [999999999999]
serve|a|b|00000001000000000000| gives serve [a] [b] [1000000000000]
serve|a|b|00000000000000000001| gives serve [a] [b] [1]
serve|1|2|4294967296| gives serve [1] [2] [4294967296]
";

/// Too few words, or too many. The first row has none.
const COUNTS: &str = "
replay|
drill|
serve|
help|
a.script|
replay|a|b|
replay|a|b|1|
drill|7|7|
drill|7|7|7|
serve|a|
serve|a|1|
serve|a|b|
serve|a|b|1|1|
serve|a|b|1|1|1|
replay|a|b|c|d|e|f|g|
";

/// Other first words.
const FIRST_WORDS: &str = "\
Replay|a|
replay |a|
replays|a|
repla|a|
7|drill|
a.script|replay|
serve|7|
help|replay|
version|a|
replay|a|b|7|
drill|a|b|7|
";

/// Words that are empty, or begin with a dash.
const DASHES: &str = "\
|
-|
--|
-h|
--help|
-V|
--version|
|a|
replay||
drill||
drill|-7|
-drill|7|
--replay|a|
replay|-|
replay|-x|
replay|--|a|
--|replay|a|
replay|a|--|
replay|a||
serve||b|1|
serve|a||1|
serve|a|b||
serve|a|-b|1|
serve|a|b|-1|
";

/// What is no number of rounds. One of twenty-one digits is none, whatever its value.
const ROUNDS: &str = "\
drill|0|
drill|501|
drill|seven|
drill|7x|
drill| 7|
drill|7 |
drill|+7|
drill|7.0|
drill|0x7|
drill|1_0|
drill|\u{0667}|
drill|00000000000000000000|
drill|000000000000000000007|
drill|4294967297|
drill|18446744073709551615|
drill|18446744073709551616|
drill|18446744073709551623|
drill|99999999999999999999|
";

/// What is no number of turns, one of twenty-one digits among it.
const TURNS: &str = "\
serve|a|b|0|
serve|a|b|1000000000001|
serve|a|b|+1|
serve|a|b|1e3|
serve|a|b|turns|
serve|a|b|00000000000000000000|
serve|a|b|000000001000000000000|
serve|a|b|18446744073709551615|
serve|a|b|18446744073709551617|
serve|a|b|99999999999999999999|
";

pub(crate) fn words_that_give_a_command(alloc: Global) -> Result<()> {
    compare_all(alloc, REPLAYS)?;
    compare_all(alloc, DRILLS)?;
    compare_all(alloc, SERVES)
}

pub(crate) fn words_that_give_no_command(alloc: Global) -> Result<()> {
    compare_all(alloc, COUNTS)?;
    compare_all(alloc, FIRST_WORDS)?;
    compare_all(alloc, DASHES)?;
    compare_all(alloc, ROUNDS)?;
    compare_all(alloc, TURNS)
}

/// The words of each row are answered as it says.
fn compare_all(alloc: Global, rows: &str) -> Result<()> {
    for row in rows.lines() {
        compare(alloc, row).context(format_args!("{row:?}"))?;
    }
    Ok(())
}

fn compare(alloc: Global, row: &str) -> Result<()> {
    let (line, wanted) = row.split_once(GIVES).unwrap_or((row, NO_COMMAND));
    let words = words(alloc, line)?;
    let answer = answer_of(alloc, words.as_slice())?;
    same("answer", &answer.as_str(), &wanted)
}

/// What words are answered with: the command, as a text that begins with its kind, or the text of the error.
fn answer_of(alloc: Global, words: &[String]) -> Result<String> {
    let answer = match command_of(alloc, words) {
        Ok(Chosen::Replay { path }) => format!(in alloc; "replay [{}]", path.as_str()),
        Ok(Chosen::Drill { n }) => format!(in alloc; "drill [{n}]"),
        Ok(
            Chosen::Serve {
                path,
                address,
                turns,
            },
        ) => format!(in alloc;
            "serve [{}] [{}] [{turns}]",
            path.as_str(),
            address.as_str()
        ),
        Err(why) => format!(in alloc; "{why}"),
    };
    Ok(answer?)
}
