//! The framing of FIX 4.4 messages in the tag=value encoding.
//!
//! A connection brings bytes in pieces of any size. A `Cutter` cuts them into the frames that
//! they contain and the garbled bytes between these, and `write_frame` and `put_frame` put a body into a frame.
//! FIX 4.4, volume 1, "Message format", and volume 2, "Message recovery", on garbled messages.
//!
//! Stands on `gate_io` (the error of want of memory) and `itoa` (a length in decimal digits). Its rules are told in
//! docs/frames-and-fields.md.
//!
//! Read `layout` (fixed parts and limits of frames) and `write` (a body into its frame); then `two_slices` (bytes
//! that lie in two slices), `ring` (the buffer of bytes uncut), `look` (what stands at the beginning) and `cutter`
//! (bytes in, pieces out); last `laws` (what a cut is).
//!
//! Clauses to know first:
//!
//! - `good` of `pieces_are_told_by_frames`: a good piece with this body and size stands at the beginning of bytes
//!   exactly where a frame of that body, of this size and within the limit, begins them;
//! - `so_far` of `Cutter::take_next`: on Ok, if the pieces given before, and behind them the cut of what is held,
//!   are the cut of a text, they are so with the next one; where there is no next one, they are all pieces of that
//!   cut;
//! - `cut` of `write_frame`: whatever bytes stand behind the frame that is written, the cut of all begins with its
//!   body as a good piece and goes on with the cut of those bytes.
#![tactic(auto)]

mod cutter;
pub mod laws;
mod layout;
mod look;
mod ring;
mod two_slices;
mod write;

pub use cutter::{Cutter, OwnedPiece, Piece};
pub use layout::{FRAMING, LEAST_LIMIT, LEAST_ROOM, LONGEST_BODY, LONGEST_FRAME};
pub use write::{FrameError, frame_len, is_body, put_frame, write_frame};
