//! The top call that carries out a recorded script, or a drill, on one thread.

ghost use Rattle.std.specs.Prelude.{◌≡◌, ◌⊎◌, ◌≤◌, ℕ, false, Err, Ok, IfSome, map, string_bytes};
ghost use Rattle.std.specs.List.{All};
ghost use Rattle.command_words.specs.Words.{Gives, HasCommandFor, IsForReplay};
ghost use Rattle.command_words.specs.declared.words.Chosen.{Chosen as TheChosen};
ghost use Rattle.drill_maker.specs.Drill.{drill_of};
ghost use Rattle.drill_maker.specs.declared.limits.TheConstants.{MOST_ROUNDS};
ghost use Rattle.engine_end.specs.Records.{HasLawfulJournal};
ghost use Rattle.gate_io.specs.Counts.{HasRisen};
ghost use Rattle.gate_io.specs.Sink.{HasTaken, HasTakenPrefix};
ghost use Rattle.gate_io.specs.Source.{GaveWithin};
ghost use Rattle.gateway_run.specs.Outcome.{EndsSo, HasAdjoiningHoldings, IsScriptOf, IsTextOf, Leaves, RefusesSource, WritesNothing, text_for};
ghost use Rattle.run_report.specs.Report.{report_of};
ghost use Rattle.run_report.specs.Summary.{summary_of};
ghost use Rattle.run_report.specs.Records.{no_run};
ghost use Rattle.script_text.specs.Meaning.{script_of};
ghost use Rattle.script_text.specs.declared.kinds.ScriptKind.{ScriptKind};
ghost use Rattle.script_text.specs.declared.steps.Script.{Script as TheScript};

use crate::journals::lawful_journals_adjoin;
use crate::reading::script_in;
use crate::statuses::Status;
use crate::writing::{Printed, write};
use command_words::laws::words_give_one;
use command_words::{Chosen, WordsError, command_of};
use drill_maker::drill;
use drill_maker::laws::drills_are_lawful;
use gate_io::{NoMemory, Sink, Source};
use headline::carry_out;
use headline::laws::{headlines_hold, headlines_hold_in_part};
use headline::runs::scripts_are_accounted_for;
use run_report::RunRecord;
use script_text::{LONGEST_SCRIPT, ScriptError};
use std::alloc::Global;

/// Carries out the script that the source has, or the drill of so many rounds, as the words say, and writes
/// the report of the run, or the summary. The path of the words isn't looked at, and a drill doesn't read
/// the source.
///
/// Statuses are tested in the order `Usage`, `ReadFault`, `ScriptFault`, `WriteFault`. Where the source
/// tells the bytes that are left, they are the script. The record is empty where no run began; where memory
/// was wanting later it is what there was.
pub fn replay<So: Source, Si: Sink>(
    alloc: Global,
    words: &[String],
    script: &mut So,
    out: &mut Si,
) -> (Status, RunRecord)
    // The record is what the script means, all that it tells is accounted for, and the headline holds of it.
    ensures meant { (command : TheChosen) → Gives (map string_bytes words.now) command → Leaves (IsScriptOf command (So.left script.old)) result.0 result.1 }
    // The sink took the report of that record, or the summary.
    ensures reported { (command : TheChosen) → Gives (map string_bytes words.now) command → result.0 ≡ Status.Ok → HasTaken (Si.held out.old) (text_for command result.1) (Si.held out.new) }
    // A command of `serve` is none for `replay`.
    ensures usage { result.0 ≡ Status.Usage → HasCommandFor IsForReplay (map string_bytes words.now) → ⊥ }
    ensures no_command { (HasCommandFor IsForReplay (map string_bytes words.now) → ⊥) → (result.0 ≡ Status.Usage) ⊎ (result.0 ≡ Status.OutOfMemory) }
    ensures no_run { (HasCommandFor IsForReplay (map string_bytes words.now) → ⊥) → result.1 ≡ no_run }
    ensures untouched { (HasCommandFor IsForReplay (map string_bytes words.now) → ⊥) → script.new ≡ script.old }
    ensures drill_untouched { (n : ℕ) → Gives (map string_bytes words.now) (Chosen.Drill n) → script.new ≡ script.old }
    ensures read_fault { result.0 ≡ Status.ReadFault → HasRisen (So.faults script.old) (So.faults script.new) }
    // No fault is told once the script is known to be too long.
    ensures read_fault_within { result.0 ≡ Status.ReadFault → GaveWithin (So.left script.old) LONGEST_SCRIPT (So.left script.new) }
    ensures script_fault { (line : ℕ) (kind : ScriptKind) → result.0 ≡ Status.ScriptFault line kind
        → IfSome (So.left script.old) (λ text. script_of false text ≡ Err (ScriptError.Fault line kind)) }
    ensures write_fault { result.0 ≡ Status.WriteFault → HasRisen (Si.faults out.old) (Si.faults out.new) }
    // A beginning of it was taken.
    ensures cut_off { (command : TheChosen) → Gives (map string_bytes words.now) command → result.0 ≡ Status.WriteFault → HasTakenPrefix (Si.held out.old) (text_for command result.1) (Si.held out.new) }
    ensures nothing_written { WritesNothing result.0 → out.new ≡ out.old }
    // The journal of each session is lawful, and its holdings adjoin, also without memory.
    ensures journals { All HasLawfulJournal result.1.engine.sessions }
    ensures adjoining { All HasAdjoiningHoldings result.1.engine.sessions }
    // Where nothing stands in the way, the run is whole, unless memory is wanting.
    ensures complete { IfSome (So.left script.old) (λ text. (said : TheScript) → HasCommandFor IsForReplay (map string_bytes words.now) → script_of false text ≡ Ok said
        → (HasRisen (So.faults script.old) (So.faults script.new) → ⊥) → (HasRisen (Si.faults out.old) (Si.faults out.new) → ⊥)
        → (result.0 ≡ Status.Ok) ⊎ (result.0 ≡ Status.OutOfMemory)) }
    ensures drill_complete { (n : ℕ) → Gives (map string_bytes words.now) (Chosen.Drill n) → (HasRisen (Si.faults out.old) (Si.faults out.new) → ⊥)
        → (result.0 ≡ Status.Ok) ⊎ (result.0 ≡ Status.OutOfMemory) }
{
    words_give_one();
    lawful_journals_adjoin();
    match command_of(alloc, words) {
        Ok(Chosen::Replay { .. }) => replay_script(alloc, script, out),
        Ok(Chosen::Drill { n }) => replay_drill(alloc, n, out),
        Ok(Chosen::Serve { .. }) => (Status::Usage, RunRecord::none(alloc)),
        Err(WordsError::Usage) => (Status::Usage, RunRecord::none(alloc)),
        Err(WordsError::OutOfMemory) => (Status::OutOfMemory, RunRecord::none(alloc)),
    }
}

/// Carries out the script that a source has, and writes the report.
fn replay_script<So: Source, Si: Sink>(
    alloc: Global,
    source: &mut So,
    out: &mut Si,
) -> (Status, RunRecord)
    ensures meant { Leaves (IsTextOf false (So.left source.old)) result.0 result.1 }
    ensures ends { EndsSo (RefusesSource false (So.left source.old) (So.faults source.old) (So.faults source.new)) (report_of result.1) (Si.held out.old) (Si.held out.new) (HasRisen (Si.faults out.old) (Si.faults out.new)) (out.new ≡ out.old) result.0 }
    ensures read_fault_within { result.0 ≡ Status.ReadFault → GaveWithin (So.left source.old) LONGEST_SCRIPT (So.left source.new) }
    ensures journals { All HasLawfulJournal result.1.engine.sessions }
{
    let script = match script_in(alloc, source, false) {
        Ok(script) => script,
        Err(status) => return (status, RunRecord::none(alloc)),
    };
    scripts_are_accounted_for();
    headlines_hold();
    headlines_hold_in_part();
    match carry_out(alloc, script) {
        Ok(run) => {
            let status = write(alloc, &run, Printed::Report, out);
            (status, run)
        }
        Err((NoMemory::OutOfMemory, run)) => (Status::OutOfMemory, run),
    }
}

/// Carries out the drill of so many rounds, and writes the summary.
fn replay_drill<Si: Sink>(alloc: Global, n: u32, out: &mut Si) -> (Status, RunRecord)
    requires rounds { (1 ≤ n) × (n ≤ MOST_ROUNDS) }
    ensures meant { Leaves (λ script. script ≡ drill_of n) result.0 result.1 }
    ensures ends { EndsSo (λ _. ⊥) (summary_of n result.1) (Si.held out.old) (Si.held out.new) (HasRisen (Si.faults out.old) (Si.faults out.new)) (out.new ≡ out.old) result.0 }
    ensures journals { All HasLawfulJournal result.1.engine.sessions }
{
    drills_are_lawful();
    scripts_are_accounted_for();
    headlines_hold();
    headlines_hold_in_part();
    let script = match drill(alloc, n) {
        Ok(script) => script,
        Err(NoMemory::OutOfMemory) => return (Status::OutOfMemory, RunRecord::none(alloc)),
    };
    match carry_out(alloc, script) {
        Ok(run) => {
            let status = write(alloc, &run, Printed::Summary { n }, out);
            (status, run)
        }
        Err((NoMemory::OutOfMemory, run)) => (Status::OutOfMemory, run),
    }
}
