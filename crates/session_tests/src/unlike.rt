//! How a run isn't told alike.

use gate_io::NoMemory;
use std::alloc::{AllocError, Global};
use std::fmt::Debug;
use thiserror::Error;

/// Why a run stands.
#[derive(Debug, Drop, Error)]
pub enum Unlike {
    #[error(transparent)]
    NoMemory(#[from] NoMemory),
    #[error(transparent)]
    Memory(#[from(alloc)] AllocError),
    /// An answer isn't the plain one.
    #[error("{place}: {found}, and plainly {plain}")]
    Differs {
        place: String,
        found: String,
        plain: String,
    },
}

/// Nothing where an answer is the plain one. The place says where it came.
pub fn same<T: PartialEq + Debug, P: Debug>(
    alloc: Global,
    found: &T,
    plain: &T,
    place: &P,
) -> Result<(), Unlike> {
    if found == plain {
        return Ok(());
    }
    Err(Unlike::Differs {
        place: format!(in alloc; "{place:?}")?,
        found: format!(in alloc; "{found:?}")?,
        plain: format!(in alloc; "{plain:?}")?,
    })
}
