//! The limits of bodies, names and tags.

/// The most bytes of a body that an application may send. `check_body` doesn't look at the length.
pub const LONGEST_APPLICATION_BODY: usize = 8_192;

/// The most bytes of a CompID (49 and 56).
pub const LONGEST_NAME: usize = 32;

/// The greatest tag: a tag has one to nine digits.
pub const LAST_TAG: u32 = 999_999_999;
