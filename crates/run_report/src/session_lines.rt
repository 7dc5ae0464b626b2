//! The lines of a session.

ghost use Rattle.std.specs.Prelude.{◌≡◌, ◌++◌, OnOk};
ghost use Rattle.run_report.specs.Sessions.{session_line, session_text};

use crate::journal_lines::{put_entries, put_holdings};
use crate::log_lines::{put_inbound, put_outbound};
use crate::words::ReportWord::{Number, Printed, Word};
use crate::words::put_line;
use gate_io::NoMemory;
use session_book::SessionRecord;

/// All lines of a session.
pub fn put_session(out: &mut Vec<u8>, s: u64, session: &SessionRecord) -> Result<(), NoMemory>
    ensures { OnOk result (out.new.items ≡ out.old.items ++ session_text s session.now) }
{
    put_head(out, s, session)?;
    put_entries(out, session.registry.entries())?;
    put_holdings(out, session.registry.holdings())?;
    put_inbound(out, &session.inbound)?;
    put_outbound(out, &session.outbound)
}

/// The session's names, its owner, its last lease, and the lengths of its logs.
#[tactic(auto, unfolding(crate::specs::Sessions::session_line))]
fn put_head(out: &mut Vec<u8>, s: u64, session: &SessionRecord) -> Result<(), NoMemory>
    ensures { OnOk result (out.new.items ≡ out.old.items ++ session_line s session.now) }
{
    let (owner, lease) = session.registry.owner();
    put_line(
        out,
        "session",
        &[
            Number(s),
            Printed(session.names.us.as_slice()),
            Printed(session.names.them.as_slice()),
            Word("owner"),
            Number(u64::from(owner)),
            Word("lease"),
            Number(u64::from(lease)),
            Word("in"),
            Number(session.inbound.len()),
            Word("out"),
            Number(session.outbound.len()),
        ],
    )
}
