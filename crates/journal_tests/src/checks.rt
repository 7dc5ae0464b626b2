//! What tests hold, as calls: where a test has the macros in line, each of them is proved anew, with all that
//! the test knows at its place.

ghost use Rattle.std.specs.Prelude.{◌≡◌, true};

use std::fmt::Debug;
use std::process::Abort;

/// Holds that two values are the same.
pub fn same<T: PartialEq + Debug>(rt: &impl Abort, got: &T, wanted: &T)
    ensures { T.eq got.now wanted.now ≡ true }
{
    assert_eq!(rt; got, wanted);
}

/// Holds that two values are the same, at a place that is told where they aren't.
pub fn same_at<T: PartialEq + Debug, P: Debug>(rt: &impl Abort, got: &T, wanted: &T, place: &P)
    ensures { T.eq got.now wanted.now ≡ true }
{
    assert_eq!(rt; got, wanted, "{place:?}");
}

/// Holds what is so, at a place that is told where it isn't.
pub fn holds<P: Debug>(rt: &impl Abort, is_so: bool, place: &P)
    ensures { is_so ≡ true }
{
    assert!(rt; is_so, "{place:?}");
}
