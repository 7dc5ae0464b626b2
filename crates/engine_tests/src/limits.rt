//! What a run may have.

ghost use Rattle.std.specs.Prelude.{◌≤◌, IfSome};

use gate_io::{MOST_CONNECTIONS, MOST_DIALLED};
use lease_core::MOST_LEASES;
use row_text::Words;

/// How many connections are accepted, how many are dialled, how often a session can be granted, and how
/// many sends a lease makes.
#[derive(Clone, Copy)]
pub(crate) struct Limits {
    pub(crate) connections: u32,
    pub(crate) dials: u32,
    pub(crate) leases: u32,
    pub(crate) sends: u32,
}

/// Eight connections and no dial, and nine leases of 99 sends.
pub(crate) const FEW: Limits = Limits {
    connections: 8,
    dials: 0,
    leases: 9,
    sends: 99,
};

/// The usual limits but for those that are named, each with its number; None where one isn't understood or can't
/// be.
pub(crate) fn limits_of(words: Words<'_>) -> Option<Limits>
    ensures connections { IfSome result (λ limits. limits.connections ≤ MOST_CONNECTIONS) }
    ensures dials { IfSome result (λ limits. limits.dials ≤ MOST_DIALLED) }
    ensures leases { IfSome result (λ limits. (1 ≤ limits.leases) × (limits.leases ≤ MOST_LEASES)) }
    ensures sends { IfSome result (λ limits. 1 ≤ limits.sends) }
{
    let limits = named(words)?;
    if limits.connections > MOST_CONNECTIONS || limits.dials > MOST_DIALLED {
        return None;
    }
    if limits.leases < 1 || limits.leases > MOST_LEASES || limits.sends < 1 {
        return None;
    }
    Some(limits)
}

// The usual limits but for those that are named.
fn named(mut words: Words<'_>) -> Option<Limits> {
    let mut limits = FEW;
    for _limit in 0..4 {
        let Some(name) = words.word() else {
            break;
        };
        let number = words.u32()?;
        match name {
            "connections" => limits.connections = number,
            "dials" => limits.dials = number,
            "leases" => limits.leases = number,
            "sends" => limits.sends = number,
            _ => return None,
        }
    }
    if words.is_over() { Some(limits) } else { None }
}
