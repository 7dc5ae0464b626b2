//! Law of journals that are read back: a session can go on behind what a file stands for. It is the contract of
//! a function that does nothing.

ghost use Rattle.engine_start.specs.Recovered.{JournalsGoOn};

use durable_journal::laws::session_texts_are_short;
use fix_fields::laws::fit_bodies_are_bodies;
use session_core::laws::texts_of_messages;

/// What a journal's file stands for can be gone on from.
pub fn journals_go_on()
    ensures { JournalsGoOn }
{
    fit_bodies_are_bodies();
    texts_of_messages();
    session_texts_are_short();
}
