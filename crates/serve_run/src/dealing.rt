//! A script's lines are dealt to the libraries.

ghost use Rattle.std.specs.Prelude.{◌≡◌, IfOk, OnOk, [], ◌∷◌, ◌++◌, length};
ghost use Rattle.serve_run.specs.Plans.{library_of};
ghost use Rattle.serve_run.specs.Workers.{StartsWorkers};
ghost use Rattle.library_desk.specs.declared.shared.Shared.{Shared as TheShared};
ghost use Rattle.std.specs.Prelude.{ℕ, List};
ghost use Rattle.script_text.specs.declared.steps.Step.{Step as TheStep};

use crate::workers::Worker;
use gate_io::NoMemory;
use script_text::Step;

/// Deals the steps to the libraries: each library's plan has its lines, in their order.
pub(crate) fn deal_all(workers: &mut Vec<Worker>, steps: Vec<Step>) -> Result<(), NoMemory>
    ensures dealt { OnOk result ((asks count : ℕ) (shared : TheShared) → StartsWorkers asks count shared [] workers.old.items → StartsWorkers asks count shared steps.items workers.new.items) }
    ensures count { length workers.new.items ≡ length workers.old.items }
{
    for step in steps {
        deal(workers, step)?;
    }
    Ok(())
}

// Deals one step more.
fn deal(workers: &mut Vec<Worker>, step: Step) -> Result<(), NoMemory>
    ensures dealt { OnOk result ((asks count : ℕ) (shared : TheShared) (before : List TheStep) → StartsWorkers asks count shared before workers.old.items → StartsWorkers asks count shared (before ++ step ∷ []) workers.new.items) }
    ensures count { length workers.new.items ≡ length workers.old.items }
{
    let number = usize::from(library_of(&step));
    if 0 < number && number <= workers.len() {
        let worker = &mut workers[number - 1];
        worker.plan.push(step)?;
    }
    Ok(())
}

// The library whose line a step is, or 0.
fn library_of(step: &Step) -> u8
    ensures { result ≡ library_of step.now }
{
    match step {
        Step::Lib { library, .. } => *library,
        _ => 0,
    }
}
