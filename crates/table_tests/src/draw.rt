//! Sessions and libraries that look random.

ghost use Rattle.std.specs.Prelude.{◌<◌};

use draws::Draw;

/// A session of a table for three.
pub(crate) fn some_session(draw: &mut Draw) -> u16
    ensures { result < 3 }
{
    draw.below(3) as u16
}

/// A library of a table for four.
pub(crate) fn some_library(draw: &mut Draw) -> u8 {
    1 + draw.below(4) as u8
}
