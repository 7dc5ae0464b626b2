//! Bodies that are long.

use gate_io::NoMemory;
use row_text::soh;
use std::alloc::Global;

/// `35=8|58=`, as many `x` as make the body so long, and SOH.
pub fn long_body(alloc: Global, length: usize) -> Result<Vec<u8>, NoMemory> {
    let mut body = soh(alloc, "35=8|58=")?;
    body.resize(length.saturating_sub(1), b'x')?;
    body.push(1)?;
    Ok(body)
}
