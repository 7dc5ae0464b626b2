//! Laws of one connection: items wait and are written in their order, and the pieces handed out are those of
//! the cut. Each is the contract of a function that does nothing.

ghost use Rattle.std.specs.Prelude.{◌≡◌, ℕ, ◌+◌, ◌≤◌, List, [], ◌∷◌, ◌++◌, length, take, All};
ghost use Rattle.fix_frame.specs.Cut.{CutPiece, cut};
ghost use Rattle.message_log.specs.Growth.{GoesOn};
ghost use Rattle.message_log.specs.declared.entry.OutEntry.{OutEntry};
ghost use Rattle.resend_plan.specs.Wire.{NamesEntry};
ghost use Rattle.resend_plan.specs.declared.item.Names2.{Names2};
ghost use Rattle.resend_plan.specs.declared.item.WireItem.{WireItem};
ghost use Rattle.connection_core.specs.Outgoing.{Outgoing, after_making, after_makings, after_preparing, after_preparing_first, after_writing, no_outgoing, waiting_count, waiting_text, with_items, written_text};
ghost use Rattle.connection_core.specs.Items.{AreItemsOf, text_of, whole_items};
ghost use Rattle.connection_core.specs.Connection.{ConnectionState, IsGiven};

use fix_frame::LONGEST_FRAME;
use fix_frame::laws::{cuts_of_prefixes_go_on, feedings_give_the_same_pieces};
use resend_plan::items_stay;

/// What is so of the items of a connection goes on, whatever is done with them.
pub fn items_stay_queued()
    // No item was queued.
    ensures first { (names : Names2) (log : List (List OutEntry)) → AreItemsOf names log [] no_outgoing }
    // What is queued is at the end.
    ensures queue { (names : Names2) (log : List (List OutEntry)) (items more : List WireItem) (out : Outgoing) → AreItemsOf names log items out
        → All (NamesEntry log) more → AreItemsOf names log (items ++ more) (with_items more out) }
    // Making texts and writing them keep the items.
    ensures make { (names : Names2) (log : List (List OutEntry)) (items : List WireItem) (out : Outgoing) (count : ℕ) → AreItemsOf names log items out
        → AreItemsOf names log items (after_makings names log count out) }
    ensures prepare { (names : Names2) (log : List (List OutEntry)) (items : List WireItem) (out : Outgoing) (limit : ℕ) → AreItemsOf names log items out
        → AreItemsOf names log items (after_preparing names log limit out) }
    ensures prepare_first { (names : Names2) (log : List (List OutEntry)) (items : List WireItem) (out : Outgoing) → AreItemsOf names log items out
        → AreItemsOf names log items (after_preparing_first names log out) }
    ensures write { (names : Names2) (log : List (List OutEntry)) (items : List WireItem) (out : Outgoing) (n : ℕ) → AreItemsOf names log items out
        → n ≤ length (waiting_text out) → AreItemsOf names log items (after_writing n out) }
    // So does the log as it grows.
    ensures grow { (names : Names2) (earlier later : List (List OutEntry)) (items : List WireItem) (out : Outgoing) → AreItemsOf names earlier items out
        → GoesOn earlier later → AreItemsOf names later items out }
{
    items_stay();
}

/// What the items of a connection tell of what is written and of what waits.
pub fn items_have_text()
    // What is written begins the text of the items.
    ensures written { (names : Names2) (log : List (List OutEntry)) (items : List WireItem) (out : Outgoing) → AreItemsOf names log items out
        → written_text out ≡ take out.written (text_of names log items) }
    ensures within { (names : Names2) (log : List (List OutEntry)) (items : List WireItem) (out : Outgoing) → AreItemsOf names log items out
        → out.written ≤ length (text_of names log items) }
    // What waits of the texts that are made comes next in it.
    ensures next { (names : Names2) (log : List (List OutEntry)) (items : List WireItem) (out : Outgoing) → AreItemsOf names log items out
        → written_text out ++ waiting_text out ≡ take (length out.text) (text_of names log items) }
    // An item waits until its text is written whole.
    ensures waiting { (names : Names2) (log : List (List OutEntry)) (items : List WireItem) (out : Outgoing) → AreItemsOf names log items out
        → waiting_count out + whole_items names log out.written items ≡ length items }
    // Where none waits, the text of all is written.
    ensures whole { (names : Names2) (log : List (List OutEntry)) (items : List WireItem) (out : Outgoing) → AreItemsOf names log items out
        → waiting_count out ≡ 0 → written_text out ≡ text_of names log items }
    // Those that have no text name entries of the log, as `prepare` wants it.
    ensures unmade { (names : Names2) (log : List (List OutEntry)) (items : List WireItem) (out : Outgoing) → AreItemsOf names log items out
        → All (NamesEntry log) out.unmade }
{}

/// What was handed out of a connection tells of the cut of all that was taken.
pub fn pieces_are_those_of_the_cut()
    // Where there is no further piece, all were handed out.
    ensures all { (state : ConnectionState) (pieces : List CutPiece) → IsGiven state pieces → (cut LONGEST_FRAME state.held).pieces ≡ []
        → (cut LONGEST_FRAME state.taken).pieces ≡ pieces }
    // So it stays while nothing is taken and nothing is handed out.
    ensures same { (old new : ConnectionState) (pieces : List CutPiece) → IsGiven old pieces → new.taken ≡ old.taken → new.held ≡ old.held
        → new.garbled ≡ old.garbled → IsGiven new pieces }
    // They begin the pieces of the cut, whatever is taken behind.
    ensures begin { (state : ConnectionState) (pieces : List CutPiece) (more : List ℕ) → IsGiven state pieces
        → take (length pieces) (cut LONGEST_FRAME (state.taken ++ more)).pieces ≡ pieces }
{
    cuts_of_prefixes_go_on();
    feedings_give_the_same_pieces();
}
