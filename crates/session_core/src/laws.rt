//! Laws of the session machine: its states, its acts and their texts, and its runs over messages. Each is the
//! contract of a function that does nothing.

ghost use Rattle.session_core.specs.Laws.{StatesStayLawful, ExpectedIsCarriedOut, ActsOfMessages, ActsOfTicks, OnlyLogonsReset, PhasesFollow, TextsOfMessages, SamenessLaws, MomentsDontMatter, RunsFollowBodies, RunsInParts, HandledInParts, LeavesNoneReady, NumbersGoForward, RisesByWhatIsHeld, HandlesWhatCameFirst};
ghost use Rattle.session_core.specs.Lines.{LineLaws};

use crate::tasks::Task;
use seq_gaps::laws::{expected_numbers, held_counts, held_items, lines_stay_lines};

/// What holds of every session holds at first, and behind each call: among others that the expected
/// number isn't held, and that nothing is held before a Logon is answered.
pub fn states_stay_lawful()
    ensures { StatesStayLawful }
{
    line_laws();
}

/// A message with the expected number is counted and carried out.
pub fn expected_is_carried_out()
    ensures { ExpectedIsCarriedOut }
{
    line_laws();
}

/// The acts of a message send short texts and nothing that the clock alone sends, and a reset comes
/// first.
pub fn acts_of_messages()
    ensures { ActsOfMessages }
{
    line_laws();
}

/// The clock asks for at most one act, and for a Heartbeat only where nothing was sent for HeartBtInt.
pub fn acts_of_ticks()
    ensures { ActsOfTicks }
{}

/// A message on a session that asked for a Logon, or answered one, asks for no reset.
pub fn only_logons_reset()
    ensures { OnlyLogonsReset }
{
    line_laws();
}

/// A session whose connection stands isn't off: the Logon that binds it is answered, unless it ends the
/// connection, and no message that comes later turns it off or changes its HeartBtInt.
pub fn phases_follow()
    ensures { PhasesFollow }
{}

/// The text of a session message is the body of a frame, and tells whether the clock alone sends it.
pub fn texts_of_messages()
    ensures { TextsOfMessages }
{}

/// To be the same but for moments is an equivalence, and each call keeps it.
pub fn sameness_laws()
    ensures { SamenessLaws }
{}

/// What follows from a message depends on no moment, neither on its own nor on those that the
/// session keeps.
pub fn moments_dont_matter()
    ensures { MomentsDontMatter }
{}

/// Whatever messages, ticks and sendings a session meets, what follows is what follows from the
/// bodies alone.
pub fn runs_follow_bodies()
    ensures { RunsFollowBodies }
{}

/// What follows from two lists of messages, or of connections, one behind the other.
pub fn runs_in_parts()
    ensures { RunsInParts }
{}

/// What a bound connection handles is all that comes where nothing ends it; else the last that it
/// handles, and no other, ends it, and what comes later changes nothing.
pub fn handled_in_parts()
    ensures { HandledInParts }
{}

/// Behind a run over the held messages none is left with the expected number.
pub fn leaves_none_ready()
    ensures { LeavesNoneReady }
{
    line_laws();
}

/// On a bound session the expected number never falls, whatever comes.
pub fn numbers_go_forward()
    ensures { NumbersGoForward }
{}

/// Where neither a message nor one that is held is a gap fill, the expected number rises by one for the
/// message and one for each that is held, at most.
pub fn rises_by_what_is_held()
    ensures { RisesByWhatIsHeld }
{
    line_laws();
}

/// What a connection handles of the messages that it brings is what came first.
pub fn handles_what_came_first()
    ensures { HandlesWhatCameFirst }
{}

/// What the proofs know of the number line.
pub(crate) fn line_laws()
    ensures { LineLaws }
{
    lines_stay_lines::<Task>();
    held_items::<Task>();
    held_counts::<Task>();
    expected_numbers::<Task>();
}
