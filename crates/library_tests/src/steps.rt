//! The engine's steps at a table for session 0 and two libraries, where they can be made.
ghost use Rattle.std.specs.Prelude.{◌≡◌, ◌<◌, length, true};
ghost use Rattle.lease_words.specs.Leases.{is_running};
ghost use Rattle.lease_words.specs.Views.{engine_at};

use crate::shared::LIBRARIES;
use lease_core::{MOST_LEASES, Standing, Word};
use lease_words::{EngineSeat, Item, Leases};

/// Looks, and says whether a lease is active.
pub fn look(leases: &Leases, seat: &mut EngineSeat) -> (Word, bool)
    requires table { seat.old.table ≡ leases.now }
    requires session { leases.now.shape.sessions ≡ 1 }
    ensures table { seat.new.table ≡ seat.old.table }
    ensures published { (engine_at seat.new 0).published ≡ (engine_at seat.old 0).published }
    ensures active { is_running (engine_at seat.new 0).lines ≡ result.1 }
    ensures leases { length (engine_at seat.new 0).lines ≡ result.0.lease }
{
    let word = leases.look(seat, 0);
    let active = word.lease > 0 && matches!(word.standing, Standing::Active);
    (word, active)
}

/// Grants the session, where no lease is active and all is taken.
pub fn grant(leases: &Leases, seat: &mut EngineSeat, library: u8) -> Option<u32>
    requires table { seat.old.table ≡ leases.now }
    requires session { leases.now.shape.sessions ≡ 1 }
    requires libraries { leases.now.shape.libraries ≡ 2 }
    ensures table { seat.new.table ≡ seat.old.table }
    ensures published { (engine_at seat.new 0).published ≡ (engine_at seat.old 0).published }
{
    let (word, active) = look(leases, seat);
    if active || word.lease >= MOST_LEASES || library == 0 || library > LIBRARIES {
        return None;
    }
    if leases.take(seat, 0).is_some() {
        return None;
    }
    Some(leases.grant(seat, 0, library))
}

/// Takes the session back, where a lease is active.
pub fn revoke(leases: &Leases, seat: &mut EngineSeat) -> Option<Word>
    requires table { seat.old.table ≡ leases.now }
    requires session { leases.now.shape.sessions ≡ 1 }
    ensures table { seat.new.table ≡ seat.old.table }
    ensures published { (engine_at seat.new 0).published ≡ (engine_at seat.old 0).published }
{
    let (_word, active) = look(leases, seat);
    if !active {
        return None;
    }
    Some(leases.revoke(seat, 0))
}

/// Takes the next item that was sent by the last look.
pub fn take(leases: &Leases, seat: &mut EngineSeat) -> Option<Item>
    requires table { seat.old.table ≡ leases.now }
    requires session { leases.now.shape.sessions ≡ 1 }
    ensures table { seat.new.table ≡ seat.old.table }
    ensures published { (engine_at seat.new 0).published ≡ (engine_at seat.old 0).published }
{
    leases.take(seat, 0)
}
