//! What is kept of a library's beat.

/// A library's last beat, and the moment at which it was first seen.
#[derive(Clone, Copy, Debug, PartialEq, Eq)]
pub struct Kept {
    pub beat: u64,
    pub since: u64,
}
