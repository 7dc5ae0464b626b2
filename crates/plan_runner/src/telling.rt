//! The word that all is done.

ghost use Rattle.std.specs.Prelude.{◌≡◌, ◌≤◌, false, true};
ghost use Rattle.library_api.specs.Ends.{belongings};
ghost use Rattle.library_api.specs.Waits.{waits_after};
ghost use Rattle.library_api.specs.declared.waited.WaitKind.TheVariants.{Done};
ghost use Rattle.plan_runner.specs.Ends.{EndsTold, FindsFull, HasTold, Tells, TellsDone};

use gate_io::{Gate, Lack};
use library_api::{Library, Links};

/// Tells the engine that the library does nothing more, and whether it carried out its whole plan. Where the ring has
/// no room it is told again, at most so many times in all.
pub(crate) fn tell_done<G: Gate>(
    library: &mut Library,
    links: &Links,
    number: u8,
    finished: bool,
    gate: &G,
    turns: u64,
)
    requires tail { library.old.ends.tail.ring ≡ links.now.commands.now }
    requires some { 1 ≤ turns }
    ensures tells { TellsDone finished turns library.old library.new }
    ensures told { EndsTold finished turns library.new }
    ensures belongings { belongings library.new.ends ≡ belongings library.old.ends }
{
    'telling: for _fulls in 0..turns {
        if tell(library, links, finished) {
            gate.acted(u32::from(number));
            return;
        }
        gate.wait(u32::from(number), Lack::Room);
    }
}

// Tells the engine so, where the ring of commands has room. Answers whether it has.
fn tell(library: &mut Library, links: &Links, finished: bool) -> bool
    requires tail { library.old.ends.tail.ring ≡ links.now.commands.now }
    ensures tells { result ≡ true → Tells finished library.old library.new }
    ensures full { result ≡ false → FindsFull finished library.old library.new }
    ensures told { result ≡ true → HasTold finished library.new }
    ensures waits { result ≡ false → library.new.waited ≡ waits_after Done library.old.waited }
    ensures belongings { belongings library.new.ends ≡ belongings library.old.ends }
{
    library.done(links, finished).is_ok()
}
