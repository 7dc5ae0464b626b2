//! What a step says, beside what is found.

use gate_io::NoMemory;
use std::alloc::Global;
use std::fmt::Debug;

/// What is found in place of what a step says; None where it comes to that.
pub(crate) type Instead = Option<String>;

/// A value that isn't told by this text.
pub(crate) fn unless_told<T: Debug>(
    alloc: Global,
    wanted: &str,
    value: &T,
) -> Result<Instead, NoMemory> {
    let found = format!(in alloc; "{value:?}")?;
    if found.as_str() == wanted {
        return Ok(None);
    }
    Ok(Some(found))
}

/// This text, unless it is so.
pub(crate) fn unless_so(alloc: Global, is_so: bool, found: &str) -> Result<Instead, NoMemory> {
    if is_so {
        return Ok(None);
    }
    Ok(Some(String::from_str(alloc, found)?))
}

/// Bytes that aren't these. They are told with `|` for SOH.
pub(crate) fn unless_bytes(
    alloc: Global,
    wanted: &[u8],
    found: &[u8],
) -> Result<Instead, NoMemory> {
    if found == wanted {
        return Ok(None);
    }
    let mut signs = Vec::new(alloc);
    for byte in found {
        signs.push(if *byte == 1 { b'|' } else { *byte })?;
    }
    Ok(Some(String::from_utf8_lossy(alloc, signs.as_slice())?))
}
