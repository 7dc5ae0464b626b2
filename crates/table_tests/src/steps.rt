//! The engine's calls at a table, each with the little that is asked of it here: what they all tell is met in this
//! place alone.
ghost use Rattle.std.specs.Prelude.{◌≡◌, ◌<◌, ◌≤◌, false, true, length, IsNone};
ghost use Rattle.lease_core.specs.declared.limits.TheConstants.{MOST_LEASES};
ghost use Rattle.lease_words.specs.Leases.{is_running};
ghost use Rattle.lease_words.specs.Views.{engine_at, pending};

use lease_core::{Standing, Word};
use lease_words::{EngineSeat, Item, Leases, LibrarySeat};

/// Looks, and says whether a lease is active.
pub(crate) fn look(leases: &Leases, seat: &mut EngineSeat, s: u16) -> (Word, bool)
    requires table { seat.old.table ≡ leases.now }
    requires session { s < leases.now.shape.sessions }
    ensures table { seat.new.table ≡ seat.old.table }
    ensures active { is_running (engine_at seat.new s).lines ≡ result.1 }
    ensures leases { length (engine_at seat.new s).lines ≡ result.0.lease }
{
    let word = leases.look(seat, s);
    let active = word.lease > 0 && matches!(word.standing, Standing::Active);
    (word, active)
}

/// Takes back a session of which a lease is active.
pub(crate) fn revoke(leases: &Leases, seat: &mut EngineSeat, s: u16) -> Word
    requires table { seat.old.table ≡ leases.now }
    requires session { s < leases.now.shape.sessions }
    requires active { is_running (engine_at seat.old s).lines ≡ true }
    ensures table { seat.new.table ≡ seat.old.table }
{
    leases.revoke(seat, s)
}

/// Grants a session of which no lease is active, and from which all is taken.
pub(crate) fn grant(leases: &Leases, seat: &mut EngineSeat, s: u16, library: u8) -> u32
    requires table { seat.old.table ≡ leases.now }
    requires session { s < leases.now.shape.sessions }
    requires library { (1 ≤ library) × (library ≤ leases.now.shape.libraries) }
    requires room { length (engine_at seat.old s).lines < MOST_LEASES }
    requires ended { is_running (engine_at seat.old s).lines ≡ false }
    requires taken { pending (engine_at seat.old s) ≡ 0 }
    ensures table { seat.new.table ≡ seat.old.table }
    ensures active { is_running (engine_at seat.new s).lines ≡ true }
{
    leases.grant(seat, s, library)
}

/// Takes the next item that the last look or revoke showed.
pub(crate) fn take(leases: &Leases, seat: &mut EngineSeat, s: u16) -> Option<Item>
    requires table { seat.old.table ≡ leases.now }
    requires session { s < leases.now.shape.sessions }
    ensures table { seat.new.table ≡ seat.old.table }
    ensures lines { (engine_at seat.new s).lines ≡ (engine_at seat.old s).lines }
    ensures none { IsNone result → pending (engine_at seat.new s) ≡ 0 }
{
    leases.take(seat, s)
}

/// Publishes a count that is no lower than the one before.
pub(crate) fn publish(leases: &Leases, seat: &mut EngineSeat, s: u16, count: u64)
    requires table { seat.old.table ≡ leases.now }
    requires session { s < leases.now.shape.sessions }
    requires more { (engine_at seat.old s).published ≤ count }
    ensures table { seat.new.table ≡ seat.old.table }
{
    leases.publish(seat, s, count);
}

/// How often a library has beaten.
pub(crate) fn beats(leases: &Leases, seat: &mut EngineSeat, library: u8) -> u64
    requires table { seat.old.table ≡ leases.now }
    requires library { (1 ≤ library) × (library ≤ leases.now.shape.libraries) }
    ensures table { seat.new.table ≡ seat.old.table }
{
    leases.beats(seat, library)
}

/// Tells the engine and a library what the other has done. What the engine knows of a session's leases stays.
pub(crate) fn meet(leases: &Leases, engine: &mut EngineSeat, library: &mut LibrarySeat, s: u16)
    requires tables { (engine.old.table ≡ leases.now) × (library.old.table ≡ leases.now) }
    ensures tables { (engine.new.table ≡ leases.now) × (library.new.table ≡ leases.now) }
    ensures lines { s < leases.now.shape.sessions → (engine_at engine.new s).lines ≡ (engine_at engine.old s).lines }
{
    leases.meet(engine, library);
}

/// Takes a library's seat in. What the engine knows of a session's leases stays.
pub(crate) fn settle(leases: &Leases, engine: &mut EngineSeat, library: LibrarySeat, s: u16)
    requires tables { (engine.old.table ≡ leases.now) × (library.table ≡ leases.now) }
    ensures table { engine.new.table ≡ leases.now }
    ensures lines { (engine_at engine.new s).lines ≡ (engine_at engine.old s).lines }
{
    leases.settle(engine, library);
}
