//! Law of drills: a replay can carry each of them out. It is the contract of a function that does nothing.

ghost use Rattle.std.specs.Prelude.{◌≤◌, ℕ, false};
ghost use Rattle.drill_maker.specs.Drill.{drill_of};
ghost use Rattle.drill_maker.specs.declared.limits.TheConstants.{MOST_ROUNDS};
ghost use Rattle.script_text.specs.Lawful.{IsLawful};

use fix_fields::laws::typed_texts_are_bodies;
use fix_frame::laws::frames_have_bounds;

/// A drill is as lawful as a script that is read: a replay can carry it out.
pub fn drills_are_lawful()
    ensures { (n : ℕ) → n ≤ MOST_ROUNDS → IsLawful false (drill_of n) }
{
    frames_have_bounds();
    typed_texts_are_bodies();
}
