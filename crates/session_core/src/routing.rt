//! The first message of an unbound connection.

ghost use Rattle.std.specs.Prelude.{◌≡◌, ◌≤◌, ◌<◌, length, IfOk, IfSome};
ghost use Rattle.seq_gaps.specs.Line.{IsNumber};
ghost use Rattle.session_core.specs.Route.{asks_reset, has_lawful_reset, has_no_reset, has_heart, answer_of, terms_of, AreTerms, session_of, route};

use crate::causes::Cause;
use crate::names::Names;
use crate::said::{has_names, has_value, heart_of, seq_num_of};
use fix_fields::Fields;

/// The most sessions that are configured.
pub const MOST_SESSIONS: usize = 64;

/// What a Logon asks for: HeartBtInt in seconds, its MsgSeqNum, and whether the numbers of both
/// sides begin again at 1.
#[derive(Clone, Copy, Debug, PartialEq, Eq)]
pub(crate) struct Terms {
    pub(crate) heart: u32,
    pub(crate) number: u32,
    pub(crate) reset: bool,
}

/// The session to which an unbound connection is bound by its first message, as a place in `names`,
/// or the cause by which the connection ends with nothing sent: the first in the order NotLogon,
/// NoSuchSession, BadLogon for 98, 108 and 141, NoNumber, and BadLogon for 34, which comes where
/// ResetSeqNumFlag (141) is Y and the number isn't 1. Whether the session is bound already is the
/// caller's to see. FIX 4.4, volume 2, "Logon".
pub fn route(fields: &Fields<'_>, names: &[Names]) -> Result<u16, Cause>
    requires { length names.now ≤ MOST_SESSIONS }
    ensures { result ≡ route fields.now names.now }
{
    if !has_value(fields, 35, b"A") {
        return Err(Cause::NotLogon);
    }
    let Some(s) = session_of(fields, names) else {
        return Err(Cause::NoSuchSession);
    };
    match terms_of(fields) {
        Ok(_) => Ok(s),
        Err(cause) => Err(cause),
    }
}

/// The first session whose counterparty is the message's SenderCompID (49) and whose gateway is its
/// TargetCompID (56), as a place in `names`.
pub fn session_of(fields: &Fields<'_>, names: &[Names]) -> Option<u16>
    requires { length names.now ≤ MOST_SESSIONS }
    ensures session { result ≡ session_of fields.now names.now }
    ensures place { IfSome result (λ s. s < length names.now) }
{
    match place_of(fields, names) {
        Some(place) => Some(place as u16),
        None => None,
    }
}

fn place_of(fields: &Fields<'_>, names: &[Names]) -> Option<usize>
    ensures session { result ≡ session_of fields.now names.now }
    ensures place { IfSome result (λ s. s < length names.now) }
{
    names.iter().position(|pair| has_names(fields, pair))
}

/// What a Logon with a session's names asks for, or the first field that refuses it.
#[tactic(auto, unfolding(crate::specs::Route::terms_of))]
pub(crate) fn terms_of(fields: &Fields<'_>) -> Result<Terms, Cause>
    ensures terms { result ≡ terms_of fields.now }
    ensures lawful { IfOk result AreTerms }
{
    if !has_value(fields, 98, b"0") {
        return Err(Cause::BadLogon { tag: 98 });
    }
    let Some(heart) = heart_of(fields) else {
        return Err(Cause::BadLogon { tag: 108 });
    };
    if !has_lawful_reset(fields) {
        return Err(Cause::BadLogon { tag: 141 });
    }
    let Some(number) = seq_num_of(fields) else {
        return Err(Cause::NoNumber);
    };
    let reset = asks_reset(fields);
    if reset && number != 1 {
        return Err(Cause::BadLogon { tag: 34 });
    }
    Ok(Terms {
        heart,
        number,
        reset,
    })
}

/// The MsgSeqNum of the Logon that answers the session's own with this HeartBtInt, or the first cause
/// that refuses it: NotLogon, CompId for 49 and 56, BadLogon for 98, 108 and 141, NoNumber. FIX 4.4,
/// volume 2, "Logon".
#[tactic(auto, unfolding(crate::specs::Route::answer_of))]
pub(crate) fn answer_of(names: &Names, heart: u32, fields: &Fields<'_>) -> Result<u32, Cause>
    ensures answer { result ≡ answer_of names.now heart fields.now }
    ensures number { IfOk result IsNumber }
{
    if !has_value(fields, 35, b"A") {
        return Err(Cause::NotLogon);
    }
    if !has_value(fields, 49, names.them.as_slice()) {
        return Err(Cause::CompId { tag: 49 });
    }
    if !has_value(fields, 56, names.us.as_slice()) {
        return Err(Cause::CompId { tag: 56 });
    }
    if !has_value(fields, 98, b"0") {
        return Err(Cause::BadLogon { tag: 98 });
    }
    if !has_heart(heart, fields) {
        return Err(Cause::BadLogon { tag: 108 });
    }
    if !has_no_reset(fields) {
        return Err(Cause::BadLogon { tag: 141 });
    }
    match seq_num_of(fields) {
        Some(number) => Ok(number),
        None => Err(Cause::NoNumber),
    }
}

/// Whether HeartBtInt (108) is this number.
#[tactic(auto, unfolding(crate::specs::Route::has_heart))]
fn has_heart(heart: u32, fields: &Fields<'_>) -> bool
    ensures { result ≡ has_heart heart fields.now }
{
    match heart_of(fields) {
        Some(found) => found == heart,
        None => false,
    }
}

/// Whether ResetSeqNumFlag (141) is missing or N.
#[tactic(auto, unfolding(crate::specs::Route::has_no_reset))]
fn has_no_reset(fields: &Fields<'_>) -> bool
    ensures { result ≡ has_no_reset fields.now }
{
    fields.first(141).is_none() || has_value(fields, 141, b"N")
}

/// Whether ResetSeqNumFlag (141) is Y.
#[tactic(auto, unfolding(crate::specs::Route::asks_reset))]
fn asks_reset(fields: &Fields<'_>) -> bool
    ensures { result ≡ asks_reset fields.now }
{
    has_value(fields, 141, b"Y")
}

/// Whether ResetSeqNumFlag (141) is missing, N or Y.
#[tactic(auto, unfolding(crate::specs::Route::has_lawful_reset))]
fn has_lawful_reset(fields: &Fields<'_>) -> bool
    ensures { result ≡ has_lawful_reset fields.now }
{
    fields.first(141).is_none() || has_value(fields, 141, b"N") || asks_reset(fields)
}
