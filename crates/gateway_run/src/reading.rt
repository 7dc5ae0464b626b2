//! How the script is read.

ghost use Rattle.std.specs.Prelude.{◌≡◌, IfErr, IfOk};
ghost use Rattle.gate_io.specs.Source.{GaveWithin, IsAllOf};
ghost use Rattle.gateway_run.specs.Outcome.{IsTextOf, RefusesSource};
ghost use Rattle.script_text.specs.Lawful.{IsLawful};

use crate::statuses::Status;
use gate_io::{ReadAll, Source, read_all};
use script_text::{LONGEST_SCRIPT, Script, ScriptError, ScriptKind, read_script};
use std::alloc::Global;

/// The script that a source has: one of `serve`, or of `replay`.
pub(crate) fn script_in<So: Source>(
    alloc: Global,
    source: &mut So,
    serving: bool,
) -> Result<Script, Status>
    ensures script { IfOk result (IsTextOf serving (So.left source.old)) }
    ensures lawful { IfOk result (IsLawful serving) }
    ensures refused { IfErr result (RefusesSource serving (So.left source.old) (So.faults source.old) (So.faults source.new)) }
    ensures read_fault_within { IfErr result (λ status. status ≡ Status.ReadFault → GaveWithin (So.left source.old) LONGEST_SCRIPT (So.left source.new)) }
{
    let text = text_of(alloc, source, serving)?;
    match read_script(alloc, text.as_slice(), serving) {
        Ok(script) => Ok(script),
        Err(ScriptError::OutOfMemory) => Err(Status::OutOfMemory),
        Err(ScriptError::Fault { line, kind }) => Err(Status::ScriptFault { line, kind }),
    }
}

/// The bytes of the script.
fn text_of<So: Source>(alloc: Global, source: &mut So, serving: bool) -> Result<Vec<u8>, Status>
    ensures all { IfOk result (λ text. IsAllOf (So.left source.old) text.items) }
    ensures refused { IfErr result (RefusesSource serving (So.left source.old) (So.faults source.old) (So.faults source.new)) }
    ensures read_fault_within { IfErr result (λ status. status ≡ Status.ReadFault → GaveWithin (So.left source.old) LONGEST_SCRIPT (So.left source.new)) }
{
    match read_all(alloc, source, LONGEST_SCRIPT) {
        Ok(text) => Ok(text),
        Err(ReadAll::OutOfMemory) => Err(Status::OutOfMemory),
        Err(ReadAll::ReadFault) => Err(Status::ReadFault),
        Err(ReadAll::TooLong) => Err(Status::ScriptFault {
            line: 0,
            kind: ScriptKind::TooLong,
        }),
    }
}
