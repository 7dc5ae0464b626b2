//! What is left to do for a message on its number.

use crate::acts::Act;

/// What is left to do for a message on its number.
#[derive(Debug, Drop)]
pub(crate) enum Task {
    Nothing,
    Do(Act),
    /// A gap fill: the expected number becomes this one.
    Fill { to: u32 },
}
