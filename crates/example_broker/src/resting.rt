//! What a library does where it has to make a call again.

use crate::floor::Floor;
use gate_io::Lack;
use std::sync::Wait;
use std::time::Duration;
use std::{rt, thread};

/// For how many microseconds a library sleeps between two calls, while the run ends.
pub(crate) const NAP: u64 = 50;

/// The library with this number waits, since its call was in vain: until the engine has done something for it, the other
/// library wakes it, or it has to beat. While the run ends it naps.
pub(crate) fn rest<R: Wait + rt::Clock>(rt: &R, floor: &Floor, number: u8, lack: Lack) {
    if floor.is_closing() {
        thread::sleep(rt, Duration::from_micros(NAP));
    } else {
        floor.bells().wait(rt, u32::from(number), lack);
    }
}
