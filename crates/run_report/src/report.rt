//! The report of a run.

ghost use Rattle.std.specs.Prelude.{◌≡◌, ◌++◌, IfOk, OnOk};
ghost use Rattle.std.specs.List.{flat_map};
ghost use Rattle.run_report.specs.Calls.{library_text};
ghost use Rattle.run_report.specs.Lines.{numbered_texts};
ghost use Rattle.run_report.specs.Report.{report_of};
ghost use Rattle.run_report.specs.Sessions.{session_text};

use crate::call_lines::put_library;
use crate::connection_lines::{put_connections, put_strays};
use crate::records::{LibReport, RunRecord};
use crate::session_lines::put_session;
use crate::words::ReportWord::{Number, Word};
use crate::words::put_line;
use gate_io::NoMemory;
use session_book::SessionRecord;
use std::alloc::Global;

/// The report of a run. It takes time in proportion to its length.
pub fn report_text(alloc: Global, run: &RunRecord) -> Result<Vec<u8>, NoMemory>
    ensures { IfOk result (λ text. text.items ≡ report_of run.now) }
{
    let engine = &run.engine;
    let mut out = Vec::new(alloc);
    put_line(&mut out, "fixgate", &[Word("report"), Number(1)])?;
    put_sessions(&mut out, engine.sessions.as_slice())?;
    put_strays(&mut out, engine.strays.as_slice())?;
    put_connections(&mut out, engine.accepted, engine.connections.as_slice())?;
    put_libraries(&mut out, run.libraries.as_slice())?;
    put_line(&mut out, "end", &[])?;
    Ok(out)
}

fn put_sessions(out: &mut Vec<u8>, sessions: &[SessionRecord]) -> Result<(), NoMemory>
    ensures { OnOk result (out.new.items ≡ out.old.items ++ numbered_texts session_text 0 sessions.now) }
{
    for (s, session) in sessions.iter().enumerate() {
        put_session(out, s as u64, session)?;
    }
    Ok(())
}

fn put_libraries(out: &mut Vec<u8>, libraries: &[LibReport]) -> Result<(), NoMemory>
    ensures { OnOk result (out.new.items ≡ out.old.items ++ flat_map library_text libraries.now) }
{
    for library in libraries {
        put_library(out, library)?;
    }
    Ok(())
}
