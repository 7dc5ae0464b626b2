//! Laws of items, plans and texts: what an item names stays, a plan answers its range, and texts are bodies.
//! Each is the contract of a function that does nothing.

ghost use Rattle.std.specs.Prelude.{◌≡◌, ℕ, ◌≤◌, ◌↔◌, List, [], ◌∷◌, ◌++◌, length, map, flat_map, All};
ghost use Rattle.fix_frame.specs.Frame.{IsBody, frame_of};
ghost use Rattle.message_log.specs.Growth.{GoesOn};
ghost use Rattle.message_log.specs.Series.{series_at, with_entry};
ghost use Rattle.message_log.specs.declared.entry.OutEntry.{OutEntry};
ghost use Rattle.resend_plan.specs.declared.item.Names2.{Names2};
ghost use Rattle.resend_plan.specs.declared.item.WireItem.{WireItem};
ghost use Rattle.resend_plan.specs.Plan.{AsksNothing, IsAnswer, asked_numbers, numbers_of, plan_of};
ghost use Rattle.resend_plan.specs.Wire.{NamesEntry, body_of};
ghost use Rattle.resend_plan.specs.Fit.{AreShort, HasFitBodies, HasFrameBody, HasNumbersInRange, IsFit, longest_text};

use fix_frame::LONGEST_FRAME;
use message_log::{entries_are_pushed, entries_stay};

/// What waits to be written stays the same, however the log grows meanwhile.
pub fn items_stay()
    ensures named { (earlier later : List (List OutEntry)) (item : WireItem) → GoesOn earlier later
        → NamesEntry earlier item → NamesEntry later item }
    ensures text { (earlier later : List (List OutEntry)) (names : Names2) (item : WireItem) → GoesOn earlier later
        → NamesEntry earlier item → body_of names later item ≡ body_of names earlier item }
    // The same of a list of items.
    ensures all_named { (earlier later : List (List OutEntry)) (items : List WireItem) → GoesOn earlier later
        → All (NamesEntry earlier) items → All (NamesEntry later) items }
    // With an item behind them that the later log names.
    ensures one_more { (earlier later : List (List OutEntry)) (items : List WireItem) (item : WireItem) → GoesOn earlier later
        → All (NamesEntry earlier) items → NamesEntry later item → All (NamesEntry later) (items ++ item ∷ []) }
    ensures all_texts { (earlier later : List (List OutEntry)) (names : Names2) (items : List WireItem) → GoesOn earlier later
        → All (NamesEntry earlier) items → map (body_of names later) items ≡ map (body_of names earlier) items }
{
    entries_stay();
}

/// What a plan is, of any series of any log.
pub fn plans_answer()
    ensures named { (log : List (List OutEntry)) (series begin last at : ℕ) → All (NamesEntry log) (plan_of (series_at log series) series begin last at) }
    ensures answers { (log : List (List OutEntry)) (series begin last at : ℕ) → All (IsAnswer log series at) (plan_of (series_at log series) series begin last at) }
    // Each number that is asked for is in one item.
    ensures numbers { (entries : List OutEntry) (series begin last at : ℕ) → flat_map numbers_of (plan_of entries series begin last at) ≡ asked_numbers (length entries) begin last }
    ensures none { (entries : List OutEntry) (series begin last at : ℕ) → (plan_of entries series begin last at ≡ []) ↔ AsksNothing (length entries) begin last }
{}

/// The text of an item is the body of a frame, if its entry's body is one or it is a gap fill. It has at most
/// `longest_text` bytes, where its numbers are of 64 bits.
pub fn texts_are_bodies()
    ensures is_body { (names : Names2) (log : List (List OutEntry)) (item : WireItem) → HasFrameBody log item → IsBody (body_of names log item) }
    ensures length { (names : Names2) (log : List (List OutEntry)) (item : WireItem) → HasNumbersInRange item → length (body_of names log item) ≤ longest_text names log item }
    // Within the limits of names and logged bodies its frame isn't too long.
    ensures frame { (names : Names2) (log : List (List OutEntry)) (item : WireItem) → AreShort names → HasFitBodies log → NamesEntry log item → HasNumbersInRange item
        → length (frame_of (body_of names log item)) ≤ LONGEST_FRAME }
{}

/// A log of fit bodies stays one while fit bodies are pushed.
pub fn logs_stay_fit()
    ensures first { HasFitBodies ([] ∷ []) }
    ensures entry { (log : List (List OutEntry)) (entry : OutEntry) → HasFitBodies log → IsFit entry.body → HasFitBodies (with_entry log entry) }
    ensures series { (log : List (List OutEntry)) → HasFitBodies log → HasFitBodies (log ++ [] ∷ []) }
{
    entries_are_pushed();
}
