//! Laws of frames and cuts: which pieces a stream has, told by frames alone, in both directions. Each is the
//! contract of a function that does nothing.

ghost use Rattle.std.specs.Prelude.{◌≡◌, ℕ, ◌+◌, ◌<◌, ◌≤◌, ◌↔◌, List, [], ◌∷◌, ◌++◌, length, drop, codes, replicate, None, Some};
ghost use Rattle.fix_frame.specs.Frame.{BeginsFrame, BeginsMissummed, IsBody, IsFrame, IsProperPrefix, IsStray, frame_of};
ghost use Rattle.fix_frame.specs.Cut.{CutPiece, Found, IsCutSoFar, behind, cut, garbled, good, onto, piece_at};
ghost use Rattle.fix_frame.specs.Rows.{row_bytes};

use crate::layout::{FRAMING, LEAST_LIMIT, LONGEST_BODY, LONGEST_FRAME};

/// What stands at a place, in the words of frames. The limit is the most bytes of a frame.
pub fn pieces_are_told_by_frames()
    // A good piece: a frame of that body begins the bytes.
    ensures good { (limit : ℕ) (bytes body : List ℕ) (size : ℕ) →
        (piece_at limit bytes ≡ Some (record { piece = good body; size = size })) ↔ BeginsFrame limit bytes body size }
    // A stretch that is garbled as a whole: it has the form of a frame, and its checksum is wrong.
    ensures missummed { (limit : ℕ) (bytes : List ℕ) (size : ℕ) → 1 < size →
        ((piece_at limit bytes ≡ Some (record { piece = garbled size; size = size })) ↔ BeginsMissummed limit bytes size) }
    // The rest: the bytes are a proper prefix of some shaped stretch.
    ensures rest { (limit : ℕ) (bytes : List ℕ) → (piece_at limit bytes ≡ None) ↔ IsProperPrefix limit bytes }
    // One garbled byte: everywhere else.
    ensures stray { (limit : ℕ) (bytes : List ℕ) →
        (piece_at limit bytes ≡ Some (record { piece = garbled 1; size = 1 })) ↔ IsStray limit bytes }
{}

/// How a cut goes on, where a frame may have `LEAST_LIMIT` bytes at least.
pub fn cuts_go_on_behind_pieces()
    ensures rest { (limit : ℕ) (bytes : List ℕ) → piece_at limit bytes ≡ None → cut limit bytes ≡ record { pieces = []; rest = bytes } }
    ensures found { (limit : ℕ) (bytes : List ℕ) (found : Found) → LEAST_LIMIT ≤ limit → piece_at limit bytes ≡ Some found
        → cut limit bytes ≡ onto found.piece (cut limit (drop found.size bytes)) }
    ensures within { (limit : ℕ) (bytes : List ℕ) (found : Found) → LEAST_LIMIT ≤ limit → piece_at limit bytes ≡ Some found
        → (0 < found.size) × (found.size ≤ length bytes) }
{}

/// The pieces of a prefix are a prefix of the pieces: the cut goes on with the rest of the prefix.
pub fn cuts_of_prefixes_go_on()
    ensures { (limit : ℕ) (first second : List ℕ) →
        cut limit (first ++ second) ≡ behind (cut limit first).pieces (cut limit ((cut limit first).rest ++ second)) }
{}

/// Whatever the feeding was: once what is held has no piece, the pieces of the text were given.
pub fn feedings_give_the_same_pieces()
    ensures { (limit : ℕ) (text : List ℕ) (given : List CutPiece) (held : List ℕ) →
        IsCutSoFar limit text given held → (cut limit held).pieces ≡ [] → given ≡ (cut limit text).pieces }
{}

/// A frame is cut out as a good piece, and is the frame of one body.
pub fn frames_are_good_pieces()
    ensures cut { (limit : ℕ) (frame body more : List ℕ) → IsFrame limit frame body → cut limit (frame ++ more) ≡ onto (good body) (cut limit more) }
    ensures one_body { (limit : ℕ) (frame first second : List ℕ) → IsFrame limit frame first → IsFrame limit frame second → first ≡ second }
    // What is written of a body is a frame of it.
    ensures written { (limit : ℕ) (body : List ℕ) → limit ≤ LONGEST_FRAME → IsBody body → length (frame_of body) ≤ limit → IsFrame limit (frame_of body) body }
{}

/// How many bytes the frame that is written of a body has at most beside it, and which bodies have one that
/// isn't too long.
pub fn frames_have_bounds()
    ensures framing { (body : List ℕ) → length body ≤ LONGEST_FRAME → length (frame_of body) ≤ length body + FRAMING }
    ensures longest { (body : List ℕ) → (length (frame_of body) ≤ LONGEST_FRAME) ↔ (length body ≤ LONGEST_BODY) }
{}

/// Worked rows, in which `|` stands for byte 1.
pub fn worked_rows()
    ensures logon { frame_of (row_bytes (codes "35=A|49=BUYER|56=GATE|34=1|52=20260105-09:30:00.000|98=0|108=30|"))
        ≡ row_bytes (codes "8=FIX.4.4|9=64|35=A|49=BUYER|56=GATE|34=1|52=20260105-09:30:00.000|98=0|108=30|10=148|") }
    ensures leading_zeros { cut LONGEST_FRAME (row_bytes (codes "8=FIX.4.4|9=000064|35=A|49=BUYER|56=GATE|34=1|52=20260105-09:30:00.000|98=0|108=30|10=084|"))
        ≡ record { pieces = good (row_bytes (codes "35=A|49=BUYER|56=GATE|34=1|52=20260105-09:30:00.000|98=0|108=30|")) ∷ []; rest = [] } }
    ensures wrong_length { cut LONGEST_FRAME (row_bytes (codes "8=FIX.4.4|9=65|35=A|49=BUYER|56=GATE|34=1|52=20260105-09:30:00.000|98=0|108=30|10=149|"))
        ≡ record { pieces = replicate 86 (garbled 1); rest = [] } }
    ensures wrong_sum { cut LONGEST_FRAME (row_bytes (codes "8=FIX.4.4|9=58|35=D|49=BUYER|56=GATE|34=2|52=20260105-09:30:00.000|11=A1|10=149|"))
        ≡ record { pieces = garbled 80 ∷ []; rest = [] } }
    // The least that can't become a frame is garbled at once, and the most that can waits.
    ensures too_long { piece_at LONGEST_FRAME (row_bytes (codes "8=FIX.4.4|9=65512")) ≡ Some (record { piece = garbled 1; size = 1 }) }
    ensures longest { piece_at LONGEST_FRAME (row_bytes (codes "8=FIX.4.4|9=65511")) ≡ None }
    ensures too_short { piece_at LONGEST_FRAME (row_bytes (codes "8=FIX.4.4|9=3|")) ≡ Some (record { piece = garbled 1; size = 1 }) }
    ensures least { piece_at LONGEST_FRAME (row_bytes (codes "8=FIX.4.4|9=4|35=|10=")) ≡ None }
    ensures no_length { piece_at LONGEST_FRAME (row_bytes (codes "8=FIX.4.4|9=000000000")) ≡ Some (record { piece = garbled 1; size = 1 }) }
    ensures some_length { piece_at LONGEST_FRAME (row_bytes (codes "8=FIX.4.4|9=00000000")) ≡ None }
    ensures other_body { piece_at LONGEST_FRAME (row_bytes (codes "8=FIX.4.4|9=4|36")) ≡ Some (record { piece = garbled 1; size = 1 }) }
{}
