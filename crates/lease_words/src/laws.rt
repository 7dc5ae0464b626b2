//! What follows from what the calls tell, each law as the clause of a function that does nothing.
ghost use Rattle.lease_words.specs.Laws.{SettledLanesAreTaken, WordLaws};

use lease_core::laws::words_fit_their_lines;

/// Of a library that was settled, what was taken of a session's lane is all that it sent, once a
/// look told how its leases stand and `take` answered `None`.
pub fn settled_lanes_are_taken()
    ensures { SettledLanesAreTaken }
{}

/// What the proofs know of the words that lines stand for.
pub(crate) fn word_laws()
    ensures { WordLaws }
{
    words_fit_their_lines();
}
