//! Laws of the number line: what it holds, how much, and which number it expects behind each call. Each is the
//! contract of a function that does nothing.

ghost use Rattle.seq_gaps.specs.Laws.{LinesStayLines, HeldItems, HeldCounts, ExpectedNumbers};

/// What holds of every line holds at first, and behind each call.
pub fn lines_stay_lines<T>()
    ensures { LinesStayLines T }
{}

/// Which items can be held behind each call: those that were held before, and the one that came.
pub fn held_items<T>()
    ensures { HeldItems T }
{}

/// How many items are held at most behind each call.
pub fn held_counts<T>()
    ensures { HeldCounts T }
{}

/// Where the expected number isn't held, an offer of it is carried out, and no other offer changes
/// that.
pub fn expected_numbers<T>()
    ensures { ExpectedNumbers T }
{}
