//! What acts came to, as words: for players whose steps say of each act what it comes to, `made` where no more is
//! to be said.

use crate::texts::{put_legible, soh};
use gate_io::NoMemory;
use std::alloc::Global;
use std::fmt::Debug;

/// What an act came to, in words.
pub type Answer = Result<String, NoMemory>;

/// What a step wants that says no more: the act was made.
pub const MADE: &str = "made";

const NOTHING: &str = "nothing";

// The word for no bytes.
const NO_BYTES: &str = "-";

pub fn text(alloc: Global, text: &str) -> Answer {
    Ok(String::from_str(alloc, text)?)
}

/// A value as `Debug` has it.
pub fn shown<T: Debug>(alloc: Global, value: &T) -> Answer {
    Ok(format!(in alloc; "{value:?}")?)
}

/// A value as `Debug` has it, where there is one.
pub fn shown_some<T: Debug>(alloc: Global, value: Option<&T>) -> Answer {
    match value {
        Some(value) => shown(alloc, value),
        None => text(alloc, NOTHING),
    }
}

pub fn made(alloc: Global, is_made: bool) -> Answer {
    text(alloc, if is_made { MADE } else { "not made" })
}

/// A lease's number, or that there is none.
pub fn lease(alloc: Global, lease: Option<u32>) -> Answer {
    match lease {
        Some(lease) => Ok(format!(in alloc; "lease {lease}")?),
        None => text(alloc, NOTHING),
    }
}

/// A body behind the words that come before it.
pub fn with_body(mut words: String, body: &[u8]) -> Answer {
    words.push(' ')?;
    put_legible(&mut words, body)?;
    Ok(words)
}

/// The body that a word says, which has `|` for SOH.
pub fn body_of(alloc: Global, word: &str) -> Result<Vec<u8>, NoMemory> {
    if word == NO_BYTES {
        return Ok(Vec::new(alloc));
    }
    soh(alloc, word)
}
