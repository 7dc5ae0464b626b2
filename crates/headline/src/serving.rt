//! Laws of scripts that are served. Each is the contract of a function that does nothing.

ghost use Rattle.std.specs.Prelude.{◌≡◌, ℕ, Bool, List, Option};
ghost use Rattle.gate_io.specs.Wire.{Door, Link};
ghost use Rattle.lease_core.specs.declared.entry.Entry.{Entry};
ghost use Rattle.headline.specs.runs.Sides.{DeskGoesOn};
ghost use Rattle.run_report.specs.declared.records.RunRecord.{RunRecord};
ghost use Rattle.script_text.specs.declared.steps.Script.{Script};
ghost use Rattle.headline.specs.serving.Driven.{IsAccountedDrive};
ghost use Rattle.headline.specs.serving.Served.{AnyReadings, IsServedRecord};
ghost use Rattle.serve_run.specs.Drives.{Drive, DrivesFor, DrivesOnce};
ghost use Rattle.serve_run.specs.Serves.{Serves};
ghost use Rattle.session_core.specs.State.{State};

use crate::runs::{engines_are_accounted_for, lives_go_on, reports_are_borne_out, runs_go_on};
use engine_laws::texts::texts_are_taken;
use switchboard::laws::boards_go_on;

/// Over each turn that the engine of a run makes, and over all of them, it stays accounted for, its connections that have ended
/// took their texts, and nothing is lost of what came and was told.
pub fn drives_are_accounted_for()
    ensures once { (before : ℕ → List Entry) (start : ℕ → State) (old new : Drive) → DrivesOnce old new → IsAccountedDrive before start old → IsAccountedDrive before start new }
    ensures drives { (before : ℕ → List Entry) (start : ℕ → State) (connections libraries count : ℕ) (old new : Drive) → DrivesFor connections libraries count old new → IsAccountedDrive before start old
        → IsAccountedDrive before start new }
    ensures goes_on { (connections libraries count : ℕ) (old new : Drive) → DrivesFor connections libraries count old new → DeskGoesOn old.at.engine.sessions new.at.engine.sessions }
{
    boards_go_on();
    runs_go_on();
    texts_are_taken();
    engines_are_accounted_for();
}

/// What the record of a served script has of its sessions and libraries is accounted for: what it reports of each library is
/// borne out by the sessions' journals and logs.
pub fn served_scripts_are_accounted_for()
    ensures { (script : Script) (turns : ℕ) (wide : Bool) (old new : Door) (old_links new_links : ℕ → Link) (left : RunRecord) (spent : Option ℕ)
        (serves : Serves script turns wide AnyReadings old new old_links new_links left spent) → IsServedRecord script new_links serves.last left }
{
    boards_go_on();
    runs_go_on();
    texts_are_taken();
    engines_are_accounted_for();
    lives_go_on();
    reports_are_borne_out();
    drives_are_accounted_for();
}
