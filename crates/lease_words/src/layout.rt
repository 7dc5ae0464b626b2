//! Where the words and slots of a table lie.
ghost use Rattle.std.specs.Prelude.{◌≡◌, ◌<◌, ◌≤◌};
ghost use Rattle.lease_words.specs.Layout.{lease_word, published_word, taken_word, beat_word, slot_of};

use lease_core::MOST_LIBRARIES;

// The words of a session or of a library, so that no two that different threads write stand
// within a line of the cache.
pub(crate) const STRETCH: usize = 32;

// The words that the engine alone writes stand behind the first 8 of a session's.
const ENGINE: usize = 8;

/// How many slots a lane has, however deep it is: the greatest depth.
pub const LANE_SLOTS: usize = 16;

pub(crate) fn lease_word(s: u16) -> usize
    ensures { result ≡ lease_word s }
{
    STRETCH * s as usize + STRETCH
}

pub(crate) fn published_word(s: u16) -> usize
    ensures { result ≡ published_word s }
{
    lease_word(s) + ENGINE
}

pub(crate) fn taken_word(s: u16, library: u8) -> usize
    ensures { result ≡ taken_word s library }
{
    published_word(s) + library as usize
}

pub(crate) fn beat_word(sessions: usize, library: u8) -> usize
    requires { sessions ≤ 64 }
    ensures { result ≡ beat_word sessions library }
{
    STRETCH * sessions + STRETCH * library as usize
}

/// The slot of the item that was sent as number `count` of its lane, counted from 0.
pub(crate) fn slot_of(libraries: usize, s: u16, library: u8, count: u64) -> usize
    requires most { libraries ≤ MOST_LIBRARIES }
    requires library { (1 ≤ library) × (library ≤ MOST_LIBRARIES) }
    ensures { result ≡ slot_of libraries s library count }
{
    let lane = s as usize * libraries + (library as usize - 1);
    lane * LANE_SLOTS + (count % LANE_SLOTS as u64) as usize
}
