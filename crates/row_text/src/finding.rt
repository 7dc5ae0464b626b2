//! What a step comes to, as text.

use crate::playing::Fault;
use gate_io::NoMemory;
use std::alloc::Global;
use std::fmt::Debug;

/// A value, as `Debug` prints it.
pub fn shown(alloc: Global, value: &impl Debug) -> Result<Option<String>, NoMemory> {
    Ok(Some(format!(in alloc; "{value:?}")?))
}

/// Words that say what it came to.
pub fn said(alloc: Global, words: &str) -> Result<Option<String>, NoMemory> {
    Ok(Some(String::from_str(alloc, words)?))
}

/// Nothing, if it was done.
pub fn done(alloc: Global, is_done: bool) -> Result<Option<String>, NoMemory> {
    if is_done {
        Ok(None)
    } else {
        said(alloc, "that it can't be done")
    }
}

/// The fault of a step that has come to this, if it was to come to something else.
pub fn fault_of<'a>(
    line: usize,
    wanted: Option<&'a str>,
    found: Option<String>,
) -> Option<Fault<'a>> {
    let is_as_wanted = match (&found, wanted) {
        (Some(found), Some(wanted)) => found.as_str() == wanted,
        (None, None) => true,
        _ => false,
    };
    if is_as_wanted {
        return None;
    }
    Some(Fault::Differs {
        line,
        wanted,
        found,
    })
}
