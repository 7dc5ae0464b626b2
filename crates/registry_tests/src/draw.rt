//! Places and libraries that look random.

use draws::Draw;

/// A position or a moment.
pub fn some_place(draw: &mut Draw) -> u64 {
    u64::from(draw.below(6))
}

/// A library, or the engine.
pub fn some_library(draw: &mut Draw) -> u8 {
    draw.below(5) as u8
}
