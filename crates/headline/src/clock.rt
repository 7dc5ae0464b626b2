//! Laws of what the clock had told. Each is the contract of a function that does nothing.

ghost use Rattle.std.specs.Prelude.{ℕ, Bool, List, Option};
ghost use Rattle.headline.specs.clock.Kept.{KeepsTime};
ghost use Rattle.headline.specs.clock.Wrong.{IsCutOffEarly, IsRefuted, IsRefutedWith, IsSilentBefore, IsTakenBackAtOnce, IsTakenBackEarly, StandsStill};
ghost use Rattle.gate_io.specs.Wire.{Door, Link};
ghost use Rattle.run_report.specs.declared.records.RunRecord.{RunRecord};
ghost use Rattle.script_text.specs.declared.steps.Script.{Script};
ghost use Rattle.headline.specs.serving.Served.{AnyReadings};
ghost use Rattle.serve_run.specs.Serves.{Serves};

use crate::laws::accounts_are_kept;
use crate::runs::engines_are_accounted_for;
use crate::serving::served_scripts_are_accounted_for;
use engine_laws::laws::accounts_are_whole;

/// Whatever script is served: where a connection of its record ended since nothing came, the clock goes on, in all readings of the
/// run, for at least as long as that is waited for, and where a lease was taken back for its library's silence, for at least as
/// long as a library may be silent. That it had done so by then isn't said.
pub fn silences_are_waited_for()
    ensures { (script : Script) (turns : ℕ) (wide : Bool) (old new : Door) (old_links new_links : ℕ → Link) (left : RunRecord) (spent : Option ℕ)
        (serves : Serves script turns wide AnyReadings old new old_links new_links left spent) → KeepsTime script.config serves.reading serves.drives.last.readings left }
{
    accounts_are_kept();
    accounts_are_whole();
    engines_are_accounted_for();
    served_scripts_are_accounted_for();
}

/// Records are pinned down by the clock: each of these families of wrong ones is refuted.
pub fn early_ends_are_refuted()
    // No reading was greater than the first.
    ensures still { IsRefuted StandsStill }
    // Nothing came from a moment on that lies before the first reading.
    ensures before { IsRefuted IsSilentBefore }
    // A connection without a session ended before the time that a Logon may take.
    ensures early { IsRefuted IsCutOffEarly }
    // A lease was taken back, and no reading was greater than the first.
    ensures at_once { IsRefutedWith IsTakenBackAtOnce }
    // A lease was taken back before the time for which a library may be silent.
    ensures taken_early { IsRefutedWith IsTakenBackEarly }
{}
