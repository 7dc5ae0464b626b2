//! The top call that serves a script.

ghost use Rattle.std.specs.Prelude.{◌≡◌, ◌⊎◌, ◌≤◌, ℕ, List, true, Err, Ok, IfSome, map, string_bytes};
ghost use Rattle.std.specs.List.{All};
ghost use Rattle.command_words.specs.Words.{Gives, HasCommandFor, IsForServe};
ghost use Rattle.engine_end.specs.Records.{HasLawfulJournal};
ghost use Rattle.gate_io.specs.Clock.{TakesReadings};
ghost use Rattle.gate_io.specs.Counts.{HasRisen};
ghost use Rattle.gate_io.specs.Sink.{HasTaken, HasTakenPrefix};
ghost use Rattle.gate_io.specs.Source.{GaveWithin};
ghost use Rattle.gateway_run.specs.Outcome.{HasAdjoiningHoldings, IsTextOf, RefusesSource, WritesNothing};
ghost use Rattle.run_report.specs.Records.{no_run};
ghost use Rattle.gateway_run.specs.Served.{Anyhow, EndsServing, IsServedInPart, IsSpent, IsUnasked, ListensAt, ServesSo, WireServes, with_spent};
ghost use Rattle.run_report.specs.Report.{report_of};
ghost use Rattle.script_text.specs.Lawful.{IsLawful};
ghost use Rattle.script_text.specs.Meaning.{script_of};
ghost use Rattle.script_text.specs.declared.kinds.ScriptKind.{ScriptKind};
ghost use Rattle.script_text.specs.declared.steps.Script.{Script as TheScript};

use crate::journals::lawful_journals_adjoin;
use crate::reading::script_in;
use crate::statuses::Status;
use crate::writing::{Printed, write};
use command_words::laws::words_give_one;
use command_words::{Chosen, WordsError, command_of};
use gate_io::{Clock, Dial, Gate, Listened, NoMemory, Sink, Source};
use headline::clock::silences_are_waited_for;
use headline::laws::{headlines_hold_in_part, served_headlines_hold};
use headline::{Served, serve_script};
use run_report::RunRecord;
use script_text::{LONGEST_SCRIPT, Script, ScriptError};
use std::alloc::Global;
use std::thread::Threads;

/// Serves the script that the source has, at the address that the words name, whose path isn't looked at: the engine
/// takes connections and dials over the wire, and each library carries out its lines, in threads of their own. It ends
/// where as many connections as are configured were accepted and have ended, as many as `dials` says were dialled and
/// have ended, and each library said that all its work is done; or where the engine made as many turns as the words
/// say. A library gives its work up at a line that had as many waiting turns. Then the report of it all is written.
///
/// Statuses are tested in the order `Usage`, `ReadFault`, `ScriptFault`, `ListenFault`, `WriteFault`, `TurnsSpent`.
/// The record is empty where no run began; where memory was wanting later it is what there was.
pub fn serve<
    R: Threads + Sync,
    W: Dial + Send,
    C: Clock + Send,
    G: Gate + Sync,
    So: Source,
    Si: Sink,
>(
    rt: &R,
    alloc: Global,
    words: &[String],
    script: &mut So,
    wire: &mut W,
    clock: &mut C,
    gate: &G,
    out: &mut Si,
) -> (Status, RunRecord)
    // No connection was accepted or dialled over the wire before.
    requires accepted { (W.door wire.old).accepted ≡ 0 }
    requires dialled { (W.door wire.old).dialled ≡ 0 }
    // The wire came to listen at the address; the record is what engine and libraries left that served the script, side by
    // side; and the headline holds of it.
    ensures served { (path address : List ℕ) (turns : ℕ) → Gives (map string_bytes words.now) (Chosen.Serve path address turns)
        → ServesSo (IsTextOf true (So.left script.old)) turns (WireServes (ListensAt W.listen_gives W.link wire.old address) (G.open_wide gate.now) (λ readings. TakesReadings C.has_read clock.old readings clock.new) (W.door wire.old) (W.door wire.new) (W.link wire.old) (W.link wire.new)) (IsServedInPart (IsTextOf true (So.left script.old)) turns (G.open_wide gate.now) (W.door wire.old)) (IsUnasked (W.door wire.old) (W.door wire.new) (W.link wire.old) (W.link wire.new)) result.0 result.1 }
    // The sink took the report of that record, also where turns were spent.
    ensures reported { result.0 ≡ Status.Ok → HasTaken (Si.held out.old) (report_of result.1) (Si.held out.new) }
    ensures reported_spent { IsSpent result.0 → HasTaken (Si.held out.old) (report_of result.1) (Si.held out.new) }
    ensures usage { result.0 ≡ Status.Usage → HasCommandFor IsForServe (map string_bytes words.now) → ⊥ }
    ensures no_command { (HasCommandFor IsForServe (map string_bytes words.now) → ⊥) → (result.0 ≡ Status.Usage) ⊎ (result.0 ≡ Status.OutOfMemory) }
    ensures no_run { (HasCommandFor IsForServe (map string_bytes words.now) → ⊥) → result.1 ≡ no_run }
    ensures untouched { (HasCommandFor IsForServe (map string_bytes words.now) → ⊥) → (script.new ≡ script.old) × ((wire.new ≡ wire.old) × (clock.new ≡ clock.old)) }
    ensures read_fault { result.0 ≡ Status.ReadFault → HasRisen (So.faults script.old) (So.faults script.new) }
    // No fault is told once the script is known to be too long.
    ensures read_fault_within { result.0 ≡ Status.ReadFault → GaveWithin (So.left script.old) LONGEST_SCRIPT (So.left script.new) }
    ensures script_fault { (line : ℕ) (kind : ScriptKind) → result.0 ≡ Status.ScriptFault line kind
        → IfSome (So.left script.old) (λ text. script_of true text ≡ Err (ScriptError.Fault line kind)) }
    ensures listen_fault { result.0 ≡ Status.ListenFault → HasRisen (W.door wire.old).listen_faults (W.door wire.new).listen_faults }
    ensures write_fault { result.0 ≡ Status.WriteFault → HasRisen (Si.faults out.old) (Si.faults out.new) }
    // A beginning of it was taken.
    ensures cut_off { result.0 ≡ Status.WriteFault → HasTakenPrefix (Si.held out.old) (report_of result.1) (Si.held out.new) }
    ensures nothing_written { WritesNothing result.0 → out.new ≡ out.old }
    // The journal of each session is lawful, and its holdings adjoin, also without memory.
    ensures journals { All HasLawfulJournal result.1.engine.sessions }
    ensures adjoining { All HasAdjoiningHoldings result.1.engine.sessions }
    // Where nothing stands in the way, the run is whole, unless turns were spent or memory was wanting.
    ensures complete { IfSome (So.left script.old) (λ text. (said : TheScript) → HasCommandFor IsForServe (map string_bytes words.now) → script_of true text ≡ Ok said
        → (HasRisen (So.faults script.old) (So.faults script.new) → ⊥) → (HasRisen (W.door wire.old).listen_faults (W.door wire.new).listen_faults → ⊥)
        → (HasRisen (Si.faults out.old) (Si.faults out.new) → ⊥)
        → (result.0 ≡ Status.Ok) ⊎ (IsSpent result.0 ⊎ (result.0 ≡ Status.OutOfMemory))) }
{
    words_give_one();
    lawful_journals_adjoin();
    match command_of(alloc, words) {
        Ok(Chosen::Serve { address, turns, .. }) => {
            let address = address.into_inner();
            serve_at(
                rt,
                alloc,
                script,
                address.as_str(),
                turns,
                wire,
                clock,
                gate,
                out,
            )
        }
        Ok(Chosen::Replay { .. }) => (Status::Usage, RunRecord::none(alloc)),
        Ok(Chosen::Drill { .. }) => (Status::Usage, RunRecord::none(alloc)),
        Err(WordsError::Usage) => (Status::Usage, RunRecord::none(alloc)),
        Err(WordsError::OutOfMemory) => (Status::OutOfMemory, RunRecord::none(alloc)),
    }
}

/// Serves the script that a source has, at an address, and writes the report.
fn serve_at<
    R: Threads + Sync,
    W: Dial + Send,
    C: Clock + Send,
    G: Gate + Sync,
    So: Source,
    Si: Sink,
>(
    rt: &R,
    alloc: Global,
    source: &mut So,
    address: &str,
    turns: u64,
    wire: &mut W,
    clock: &mut C,
    gate: &G,
    out: &mut Si,
) -> (Status, RunRecord)
    requires turns { 1 ≤ turns }
    requires accepted { (W.door wire.old).accepted ≡ 0 }
    requires dialled { (W.door wire.old).dialled ≡ 0 }
    ensures served { ServesSo (IsTextOf true (So.left source.old)) turns (WireServes (ListensAt W.listen_gives W.link wire.old address.now) (G.open_wide gate.now) (λ readings. TakesReadings C.has_read clock.old readings clock.new) (W.door wire.old) (W.door wire.new) (W.link wire.old) (W.link wire.new)) (IsServedInPart (IsTextOf true (So.left source.old)) turns (G.open_wide gate.now) (W.door wire.old)) (IsUnasked (W.door wire.old) (W.door wire.new) (W.link wire.old) (W.link wire.new)) result.0 result.1 }
    ensures ends { EndsServing (RefusesSource true (So.left source.old) (So.faults source.old) (So.faults source.new)) (HasRisen (W.door wire.old).listen_faults (W.door wire.new).listen_faults) (report_of result.1) (Si.held out.old) (Si.held out.new) (HasRisen (Si.faults out.old) (Si.faults out.new)) (out.new ≡ out.old) result.0 }
    ensures read_fault_within { result.0 ≡ Status.ReadFault → GaveWithin (So.left source.old) LONGEST_SCRIPT (So.left source.new) }
    ensures journals { All HasLawfulJournal result.1.engine.sessions }
{
    let script = match script_in(alloc, source, true) {
        Ok(script) => script,
        Err(status) => return (status, RunRecord::none(alloc)),
    };
    match wire.listen(address) {
        Listened::Ready => serve_out(rt, alloc, script, turns, wire, clock, gate, out),
        Listened::Failed => (Status::ListenFault, RunRecord::none(alloc)),
        Listened::OutOfMemory => (Status::OutOfMemory, RunRecord::none(alloc)),
    }
}

/// Serves a script over a wire that listens, and writes the report.
fn serve_out<R: Threads + Sync, W: Dial + Send, C: Clock + Send, G: Gate + Sync, Si: Sink>(
    rt: &R,
    alloc: Global,
    script: Script,
    turns: u64,
    wire: &mut W,
    clock: &mut C,
    gate: &G,
    out: &mut Si,
) -> (Status, RunRecord)
    requires lawful { IsLawful true script }
    requires turns { 1 ≤ turns }
    requires accepted { (W.door wire.old).accepted ≡ 0 }
    requires dialled { (W.door wire.old).dialled ≡ 0 }
    ensures served { ServesSo (λ said. said ≡ script) turns (WireServes Anyhow (G.open_wide gate.now) (λ readings. TakesReadings C.has_read clock.old readings clock.new) (W.door wire.old) (W.door wire.new) (W.link wire.old) (W.link wire.new)) (IsServedInPart (λ said. said ≡ script) turns (G.open_wide gate.now) (W.door wire.old)) (IsUnasked (W.door wire.old) (W.door wire.new) (W.link wire.old) (W.link wire.new)) result.0 result.1 }
    ensures ends { EndsServing (λ _. ⊥) ⊥ (report_of result.1) (Si.held out.old) (Si.held out.new) (HasRisen (Si.faults out.old) (Si.faults out.new)) (out.new ≡ out.old) result.0 }
    ensures journals { All HasLawfulJournal result.1.engine.sessions }
{
    served_headlines_hold();
    headlines_hold_in_part();
    silences_are_waited_for();
    match serve_script(rt, alloc, script, turns, wire, clock, gate) {
        Ok(Served { run, spent }) => {
            let status = write(alloc, &run, Printed::Report, out);
            (with_spent(status, turns, spent), run)
        }
        Err((NoMemory::OutOfMemory, run)) => (Status::OutOfMemory, run),
    }
}

/// How serving ends, by how the writing of its report ended and whose turns were spent.
fn with_spent(status: Status, turns: u64, spent: Option<u8>) -> Status
    ensures { result ≡ with_spent status turns spent }
{
    match (status, spent) {
        (Status::Ok, Some(library)) => Status::TurnsSpent { turns, library },
        (status, _) => status,
    }
}
