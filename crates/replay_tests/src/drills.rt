//! Drills, carried out whole, and their summaries.

ghost use Rattle.std.specs.Prelude.{◌≤◌};

use crate::reports::left_by;
use anyhow::Result;
use drill_maker::laws::drills_are_lawful;
use drill_maker::{MOST_ROUNDS, drill};
use row_text::same;
use run_report::summary_text;
use std::alloc::Global;

/// The summary of the drill of so many rounds.
fn summary_of(alloc: Global, rounds: u32) -> Result<String>
    requires least { 1 ≤ rounds }
    requires most { rounds ≤ MOST_ROUNDS }
{
    drills_are_lawful();
    let left = left_by(alloc, drill(alloc, rounds)?)?;
    Ok(String::from_utf8(summary_text(alloc, rounds, &left)?)?)
}

// In each round eight orders are accepted, and four leases each send once. Each session has a Logon beside. A
// lease reads the order of its round and the later half of those before: 1, 2, 2, 3, 3, 4, 4 of them and so on.

pub(crate) fn seven_rounds(alloc: Global) -> Result<()> {
    let expected = "fixgate drill 7\nsessions 8 libraries 4 connections 8\n\
        accepted 56 entries 36 leases 28 reads 76 sends 28\nend\n";
    same("summary", &summary_of(alloc, 7)?.as_str(), &expected)
}

pub(crate) fn the_longest_drill(alloc: Global) -> Result<()> {
    let expected = "fixgate drill 500\nsessions 8 libraries 4 connections 8\n\
        accepted 4000 entries 2008 leases 2000 reads 252000 sends 2000\nend\n";
    same(
        "summary",
        &summary_of(alloc, MOST_ROUNDS)?.as_str(),
        &expected,
    )
}
