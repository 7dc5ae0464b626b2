//! The steps for all counterparties.

ghost use Rattle.std.specs.Prelude.{◌≡◌, ◌++◌, OnOk};
ghost use Rattle.drill_maker.specs.Drill.{connect_steps, finish_steps, for_counterparties, logon_steps, turn_steps};

use crate::bodies::logon;
use crate::limits::COUNTERPARTIES;
use gate_io::NoMemory;
use script_text::Step;
use std::alloc::Global;

/// A connection of each waits to be accepted.
pub fn push_connects(steps: &mut Vec<Step>) -> Result<(), NoMemory>
    ensures { OnOk result (steps.new.items ≡ steps.old.items ++ for_counterparties connect_steps) }
{
    for _c in 0..COUNTERPARTIES {
        steps.push(Step::Connect)?;
    }
    Ok(())
}

/// The Logon of each can be read.
pub fn push_logons(alloc: Global, steps: &mut Vec<Step>) -> Result<(), NoMemory>
    ensures { OnOk result (steps.new.items ≡ steps.old.items ++ for_counterparties logon_steps) }
{
    for c in 0..COUNTERPARTIES {
        let body = logon(alloc, c)?;
        steps.push(Step::Frame { c, body })?;
    }
    Ok(())
}

/// A turn for each.
pub fn push_turns(steps: &mut Vec<Step>) -> Result<(), NoMemory>
    ensures { OnOk result (steps.new.items ≡ steps.old.items ++ for_counterparties turn_steps) }
{
    for _c in 0..COUNTERPARTIES {
        steps.push(Step::Turn)?;
    }
    Ok(())
}

/// The input of each ends.
pub fn push_finishes(steps: &mut Vec<Step>) -> Result<(), NoMemory>
    ensures { OnOk result (steps.new.items ≡ steps.old.items ++ for_counterparties finish_steps) }
{
    for c in 0..COUNTERPARTIES {
        steps.push(Step::Finish { c })?;
    }
    Ok(())
}
