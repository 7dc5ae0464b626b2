//! What lawful journals tell.

ghost use Rattle.std.specs.Prelude.{List};
ghost use Rattle.std.specs.List.{All};
ghost use Rattle.engine_end.specs.Records.{HasLawfulJournal};
ghost use Rattle.gateway_run.specs.Outcome.{HasAdjoiningHoldings};
ghost use Rattle.session_book.specs.declared.reads.SessionRecord.{SessionRecord};

use lease_core::laws::holdings_adjoin;

/// Where the journal of each session is lawful, the holdings of each adjoin.
#[tactic(auto, using(crate::proofs::Adjoining::all_adjoin))]
pub(crate) fn lawful_journals_adjoin()
    ensures { (left : List SessionRecord) → All HasLawfulJournal left → All HasAdjoiningHoldings left }
{
    holdings_adjoin();
}
