//! What is written of a run.

ghost use Rattle.std.specs.Prelude.{◌≡◌, IfOk};
ghost use Rattle.gate_io.specs.Counts.{HasRisen};
ghost use Rattle.gateway_run.specs.Outcome.{Writes, printed_text};

use crate::statuses::Status;
use gate_io::{NoMemory, Sink, write_all};
use run_report::{RunRecord, report_text, summary_text};
use std::alloc::Global;

/// What is written of a run.
#[derive(Clone, Copy, Debug)]
pub(crate) enum Printed {
    /// Its whole report.
    Report,
    /// The summary of a drill of `n` rounds.
    Summary { n: u32 },
}

/// Writes the report of a record, or its summary.
pub(crate) fn write<Si: Sink>(
    alloc: Global,
    run: &RunRecord,
    print: Printed,
    out: &mut Si,
) -> Status
    ensures { Writes (printed_text print run.now) (Si.held out.old) (Si.held out.new) (HasRisen (Si.faults out.old) (Si.faults out.new)) (out.new ≡ out.old) result }
{
    match print_text(alloc, run, print) {
        Err(NoMemory::OutOfMemory) => Status::OutOfMemory,
        Ok(text) => match write_all(out, text.as_slice()) {
            Ok(()) => Status::Ok,
            Err(_) => Status::WriteFault,
        },
    }
}

/// The report of a record, or its summary.
fn print_text(alloc: Global, run: &RunRecord, print: Printed) -> Result<Vec<u8>, NoMemory>
    ensures { IfOk result (λ text. text.items ≡ printed_text print run.now) }
{
    match print {
        Printed::Report => report_text(alloc, run),
        Printed::Summary { n } => summary_text(alloc, n, run),
    }
}
