//! The words behind the program's name.

ghost use Rattle.std.specs.Prelude.{IfOk, true};
ghost use Rattle.example_broker.specs.Words.{HasConfig};
ghost use Rattle.script_text.specs.Lawful.{IsLawful};
ghost use Rattle.engine_config.specs.Config.{IsConfig};

use crate::floor::LIBRARIES;
use engine_config::Config;
use gate_io::NoMemory;
use script_text::{Script, ScriptError, read_script};
use std::alloc::Global;

/// The session of the counterparty in memory.
const SESSION: &str = "GATE/BUYER";

/// Why words give nothing to do.
#[derive(Clone, Copy, Debug, PartialEq, Eq)]
pub enum WordsError {
    OutOfMemory,
    Usage,
}

impl From<NoMemory> for WordsError {
    fn from(_e: NoMemory) -> WordsError {
        WordsError::OutOfMemory
    }
}

impl From<std::alloc::AllocError> for WordsError {
    fn from(_e: std::alloc::AllocError) -> WordsError {
        WordsError::OutOfMemory
    }
}

/// What the words say.
pub enum Words<'a> {
    /// Nothing: one connection of the counterparty in memory.
    None { config: Config },
    /// To serve at an address.
    Serve { address: &'a str, config: Config },
}

/// What the words behind the program's name say.
pub(crate) fn words_of<'a>(alloc: Global, words: &'a [String]) -> Result<Words<'a>, WordsError>
    ensures { IfOk result HasConfig }
{
    match words {
        [] => {
            let session = String::from_str(alloc, SESSION)?;
            let config = config_of(alloc, "1", &[session])?;
            Ok(Words::None { config })
        }
        [address, connections, sessions @ ..] if !sessions.is_empty() => {
            let config = config_of(alloc, connections.as_str(), sessions)?;
            let address = address.as_str();
            Ok(Words::Serve { address, config })
        }
        _ => Err(WordsError::Usage),
    }
}

/// The configuration that CONNECTIONS and the words SESSION.. give, each SESSION as `US/THEM`. It is written as the
/// lines of a script and read again, so a word is refused where the grammar of scripts refuses it.
pub(crate) fn config_of(
    alloc: Global,
    connections: &str,
    sessions: &[String],
) -> Result<Config, WordsError>
    ensures { IfOk result IsConfig }
{
    let mut text = format!(in alloc; "libraries {LIBRARIES}\n")?;
    put_line(&mut text, "connections ", connections)?;
    for session in sessions {
        let Some((us, them)) = session.as_str().split_once('/') else {
            return Err(WordsError::Usage);
        };
        let names = format!(in alloc; "{us} {them}")?;
        if us.as_bytes().contains(&b' ') {
            return Err(WordsError::Usage);
        }
        put_line(&mut text, "session ", names.as_str())?;
    }
    match read_script(alloc, text.as_bytes(), true) {
        Ok(script) => Ok(config_in(script)),
        Err(ScriptError::OutOfMemory) => Err(WordsError::OutOfMemory),
        Err(ScriptError::Fault { .. }) => Err(WordsError::Usage),
    }
}

fn config_in(script: Script) -> Config
    requires { IsLawful true script }
    ensures { IsConfig result }
{
    script.config
}

/// A line of the script. A word with a line's end in it would be two lines.
fn put_line(text: &mut String, head: &str, words: &str) -> Result<(), WordsError> {
    if words.as_bytes().contains(&b'\n') {
        return Err(WordsError::Usage);
    }
    text.push_str(head)?;
    text.push_str(words)?;
    text.push('\n')?;
    Ok(())
}
