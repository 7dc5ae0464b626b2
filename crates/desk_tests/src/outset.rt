//! What a row says of its beginning.

ghost use Rattle.std.specs.Prelude.{◌<◌, ◌≤◌, IfSome};
ghost use Rattle.desk_tests.specs.declared.making.TheConstants.{MOST_NOTICES};

use crate::making::MOST_NOTICES;
use row_text::{Step as Line, Words};

/// How a row begins. `notices` comes before `dialling`. Without them each ring of notices has room for
/// `MOST_NOTICES`, and both sessions accept.
#[derive(Clone, Copy)]
pub struct Outset {
    /// `notices COUNT`: for how many notices a ring has room.
    pub notices: u64,
    /// `dialling`: the second session dials, with a HeartBtInt of 30 seconds.
    pub is_dialling: bool,
    ghost room: { (0 < notices) × (notices ≤ MOST_NOTICES) },
}

/// The outset that the first lines say, and the lines behind them.
pub fn part_outset<'s, 'a>(lines: &'s [Line<'a>]) -> (Outset, &'s [Line<'a>]) {
    let (notices, behind) = part_notices(lines);
    let (is_dialling, behind) = part_dialling(behind);
    let outset = Outset {
        notices,
        is_dialling,
    };
    (outset, behind)
}

fn part_notices<'s, 'a>(lines: &'s [Line<'a>]) -> (u64, &'s [Line<'a>])
    ensures { (0 < result.0) × (result.0 ≤ MOST_NOTICES) }
{
    if let Some((first, behind)) = lines.split_first()
        && let Some(notices) = notices_of(first.text)
    {
        return (notices, behind);
    }
    (MOST_NOTICES, lines)
}

fn part_dialling<'s, 'a>(lines: &'s [Line<'a>]) -> (bool, &'s [Line<'a>]) {
    match lines.split_first() {
        Some((first, behind)) if first.text == "dialling" => (true, behind),
        _ => (false, lines),
    }
}

// For how many notices a line says that there is room.
fn notices_of(line: &str) -> Option<u64>
    ensures { IfSome result (λ count. (0 < count) × (count ≤ MOST_NOTICES)) }
{
    let mut words = Words::of(line);
    if words.word()? != "notices" {
        return None;
    }
    let count = words.number()?;
    if count == 0 || count > MOST_NOTICES || !words.is_over() {
        return None;
    }
    Some(count)
}
