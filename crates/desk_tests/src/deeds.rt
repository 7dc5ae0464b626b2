//! What the engine does.

ghost use Rattle.std.specs.Prelude.{OnOk};
ghost use Rattle.desk_tests.specs.Running.{IsRunning};

use crate::engine;
use crate::engine_desk::EngineDesk;
use crate::making::HOLD;
use crate::texts::moment;
use gate_io::NoMemory;
use library_desk::Shared;
use row_text::{Words, done, said, shown};
use std::alloc::Global;

/// Sessions are named by their numbers, 0 and 1.
#[derive(Clone, Copy)]
pub enum Deed {
    /// `gathers S`
    Gathers(u16),
    /// `ticks S`: a session hears the clock, which ends its connection by a cause or doesn't.
    Ticks(u16),
    /// `dials NUMBER`: the session that dials is bound to the next connection, which has this number.
    Dials(u32),
    /// `takes_back S`
    TakesBack(u16),
    /// `publishes S`
    Publishes(u16),
    /// `serves LIBRARY`: what became of the library's command.
    Serves(u8),
}

pub fn deed_of(name: &str, words: &mut Words<'_>) -> Option<Deed> {
    Some(match name {
        "gathers" => Deed::Gathers(words.u16()?),
        "ticks" => Deed::Ticks(words.u16()?),
        "dials" => Deed::Dials(words.u32()?),
        "takes_back" => Deed::TakesBack(words.u16()?),
        "publishes" => Deed::Publishes(words.u16()?),
        "serves" => Deed::Serves(words.u8()?),
        _ => return None,
    })
}

/// Does it. Answers what it comes to.
pub fn perform(
    alloc: Global,
    shared: &Shared,
    desk: &mut EngineDesk,
    past: u64,
    deed: Deed,
) -> Result<Option<String>, NoMemory>
    requires running { IsRunning shared.now desk.old }
    ensures running { OnOk result (IsRunning shared.now desk.new) }
{
    let at = moment(past);
    let until = at.saturating_add(HOLD);
    let is_done = match deed {
        Deed::Gathers(s) => engine::gather(alloc, shared, desk, s, at, until)?,
        Deed::TakesBack(s) => engine::take_back(alloc, shared, desk, s, at, until)?,
        Deed::Dials(number) => engine::dial(alloc, shared, desk, number, at, until)?,
        Deed::Publishes(s) => engine::publish(shared, desk, s),
        Deed::Ticks(s) => {
            return match engine::tick(alloc, shared, desk, s, at, until)? {
                Some(cause) => shown(alloc, &cause),
                None => said(alloc, "no such session"),
            };
        }
        Deed::Serves(library) => {
            return match engine::serve(alloc, shared, desk, library, at, until)? {
                Some(turn) => shown(alloc, &turn),
                None => said(alloc, "no such library"),
            };
        }
    };
    done(alloc, is_done)
}
