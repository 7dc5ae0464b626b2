//! What the fields of a message say.

ghost use Rattle.std.specs.Prelude.{◌≡◌, ◌≤◌, IfSome};
ghost use Rattle.seq_gaps.specs.Line.{IsNumber};
ghost use Rattle.session_core.specs.Said.{has_value, has_names, heart_of, seq_num_of, new_seq_no_of, type_of};

use crate::names::Names;
use fix_fields::{Fields, read_number};
use seq_gaps::MAX_NUMBER;

/// The greatest HeartBtInt (108) that is taken, in seconds.
pub const LONGEST_HEARTBEAT: u32 = 86_400;

/// Whether the field has this value.
pub(crate) fn has_value(fields: &Fields<'_>, tag: u32, value: &[u8]) -> bool
    ensures { result ≡ has_value tag value.now fields.now }
{
    match fields.first(tag) {
        Some(found) => found == value,
        None => false,
    }
}

/// Whether SenderCompID (49) is the counterparty's name and TargetCompID (56) the gateway's.
pub(crate) fn has_names(fields: &Fields<'_>, names: &Names) -> bool
    ensures { result ≡ has_names names.now fields.now }
{
    has_value(fields, 49, names.them.as_slice()) && has_value(fields, 56, names.us.as_slice())
}

/// HeartBtInt (108) in its range.
#[tactic(auto, unfolding(crate::specs::Said::heart_of))]
pub(crate) fn heart_of(fields: &Fields<'_>) -> Option<u32>
    ensures number { result ≡ heart_of fields.now }
    ensures range { IfSome result (λ heart. heart ≤ LONGEST_HEARTBEAT) }
{
    let heart = read_number(fields.first(108)?)?;
    if heart <= LONGEST_HEARTBEAT {
        Some(heart)
    } else {
        None
    }
}

/// MsgSeqNum (34) in its range.
#[tactic(auto, unfolding(crate::specs::Said::seq_num_of))]
pub(crate) fn seq_num_of(fields: &Fields<'_>) -> Option<u32>
    ensures number { result ≡ seq_num_of fields.now }
    ensures range { IfSome result IsNumber }
{
    let number = read_number(fields.first(34)?)?;
    if number >= 1 && number <= MAX_NUMBER {
        Some(number)
    } else {
        None
    }
}

/// NewSeqNo (36) in its range.
#[tactic(auto, unfolding(crate::specs::Said::new_seq_no_of))]
pub(crate) fn new_seq_no_of(fields: &Fields<'_>) -> Option<u32>
    ensures { result ≡ new_seq_no_of fields.now }
{
    let number = read_number(fields.first(36)?)?;
    if number >= 1 && number <= MAX_NUMBER {
        Some(number)
    } else {
        None
    }
}

/// MsgType (35).
pub(crate) fn type_of<'a>(fields: &Fields<'a>) -> &'a [u8]
    ensures { result.now ≡ type_of fields.now }
{
    match fields.first(35) {
        Some(kind) => kind,
        None => &[],
    }
}
