//! What tests hold, as a call: where a test has the macro in line, it is proved anew, with all that the test knows at
//! its place.

ghost use Rattle.std.specs.Prelude.{◌≡◌};

use std::process::Abort;

/// Holds that a text is as wanted.
pub fn same_text(rt: &impl Abort, got: &[u8], wanted: &str)
    ensures { got.now ≡ wanted.now }
{
    assert_eq!(rt; got, wanted.as_bytes());
}
