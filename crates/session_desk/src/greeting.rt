//! The first message of a connection.

ghost use Rattle.std.specs.Prelude.{◌≡◌, ◌<◌, ◌≤◌, length, slice_index_or, IfOk, IsNone, None, Some, OnErr, OnOk, ◌⊎◌, Option};
ghost use Rattle.std.specs.Result.{result_ok};
ghost use Rattle.session_core.specs.declared.causes.Cause.{Cause as TheCause};
ghost use Rattle.session_desk.specs.Stops.{HappensLast, StopsBinding, StopsGreeting};
ghost use Rattle.fix_fields.specs.Reading.{fields_of};
ghost use Rattle.lease_desk.specs.Desk.{AllAgree};
ghost use Rattle.session_core.specs.Receive.{receive};
ghost use Rattle.session_core.specs.Route.{route as route_of, session_of as session_of_names};
ghost use Rattle.session_core.specs.declared.routing.TheConstants.{MOST_SESSIONS};
ghost use Rattle.session_desk.specs.Steps.{AreNoted, AreRoutes, BindsBy, Greets, IsLogon, IsSteady, Proceeds, bind_noted, binding, greeting};
ghost use Rattle.switchboard.specs.Board.{book_at, connection_at, place_at};
ghost use Rattle.switchboard.specs.Happenings.{BindsTo, Happens, binds, ends_bound};
ghost use Rattle.switchboard.specs.Sound.{bound_of};
ghost use Rattle.switchboard.specs.Stops.{NothingIsTold, StopsIn};

use crate::laws::sessions_proceed;
use crate::parting::end_alone;
use crate::routes::Routes;
use crate::steps::{gather, note};
use fix_fields::{FieldError, Fields};
use gate_io::{LAST_MOMENT, NoMemory};
use lease_desk::LeaseDesk;
use lease_desk::laws::{agreement_stays, boards_stay_in_step, others_stay};
use lease_words::{LANE_SLOTS, Leases};
use session_book::Unkept;
use session_book::laws::{leases_stay, sessions_go_on};
use session_core::{Cause, route, session_of};
use std::alloc::Global;
use switchboard::laws::{boards_stay_ready, stops_are_told};

/// The first message of a connection that stands binds the session to which it is routed, behind what
/// the session's library did: that is gathered. Or it has a cause by which the connection ends with
/// nothing sent. Answers the cause by which the connection ended, if it did. A hold that the gathering
/// makes lapses at the moment `until`.
pub fn greet(
    alloc: Global,
    desk: &mut LeaseDesk,
    leases: &Leases,
    unkept: &mut Vec<Unkept>,
    routes: &Routes,
    k: usize,
    body: Vec<u8>,
    at: u64,
    until: u64,
) -> Result<Option<Cause>, NoMemory>
    requires table { desk.old.seat.table ≡ leases.now }
    requires depth { leases.now.shape.depth ≤ LANE_SLOTS }
    requires moment { at ≤ LAST_MOMENT }
    requires seated { length desk.old.board.sessions ≡ leases.now.shape.sessions }
    requires few { leases.now.shape.sessions ≤ MOST_SESSIONS }
    requires connection { k < length desk.old.board.connections }
    requires stands { IsNone (connection_at desk.old.board k).cause }
    requires unbound { IsNone (connection_at desk.old.board k).session }
    requires routes { AreRoutes desk.old.board routes.now }
    requires few_routes { length routes.now.names.items ≤ MOST_SESSIONS }
    requires noted { AreNoted unkept.old.items desk.old.board }
    requires steady { IsSteady desk.old.board desk.old.seat }
    ensures stops { OnErr result (StopsGreeting k body.items at until desk.old desk.new) }
    ensures greets { IfOk result (λ end. Greets routes.now k body.items at until desk.old desk.new unkept.old.items unkept.new.items end) }
    ensures steady { OnOk result (IsSteady desk.new.board desk.new.seat) }
    ensures noted { OnOk result (AreNoted unkept.new.items desk.new.board) }
    ensures proceeds { OnOk result (Proceeds desk.old.board desk.new.board) }
    ensures agree { AllAgree desk.new.board desk.new.seat }
    ensures table { desk.new.seat.table ≡ desk.old.seat.table }
    ensures sessions { length desk.new.board.sessions ≡ length desk.old.board.sessions }
    ensures none_comes { length desk.new.board.connections ≡ length desk.old.board.connections }
{
    stops_are_told();
    match destination(alloc, desk, routes, body.as_slice())? {
        Err(cause) => {
            end_alone(desk, k, cause);
            Ok(Some(cause))
        }
        Ok(s) => admit(alloc, desk, leases, unkept, s, k, body, at, until),
    }
}

/// A session that accepts and is bound to no connection is bound by its Logon, behind what its library
/// did: that is gathered. Answers the cause by which the connection ended, if it did.
fn admit(
    alloc: Global,
    desk: &mut LeaseDesk,
    leases: &Leases,
    unkept: &mut Vec<Unkept>,
    s: u16,
    k: usize,
    body: Vec<u8>,
    at: u64,
    until: u64,
) -> Result<Option<Cause>, NoMemory>
    requires table { desk.old.seat.table ≡ leases.now }
    requires depth { leases.now.shape.depth ≤ LANE_SLOTS }
    requires moment { at ≤ LAST_MOMENT }
    requires seated { length desk.old.board.sessions ≡ leases.now.shape.sessions }
    requires session { s < length desk.old.board.sessions }
    requires connection { k < length desk.old.board.connections }
    requires stands { IsNone (connection_at desk.old.board k).cause }
    requires unbound { IsNone (connection_at desk.old.board k).session }
    requires accepts { (book_at desk.old.board s).machine.dials ≡ None }
    requires free { bound_of (book_at desk.old.board s) ≡ None }
    requires logon { IsLogon body.items }
    requires noted { AreNoted unkept.old.items desk.old.board }
    requires steady { IsSteady desk.old.board desk.old.seat }
    ensures stops { OnErr result (StopsBinding s k body.items at until desk.old desk.new) }
    ensures binds { IfOk result (λ end. BindsBy s k body.items at until desk.old desk.new unkept.old.items unkept.new.items end) }
    ensures steady { OnOk result (IsSteady desk.new.board desk.new.seat) }
    ensures noted { OnOk result (AreNoted unkept.new.items desk.new.board) }
    ensures proceeds { OnOk result (Proceeds desk.old.board desk.new.board) }
    ensures agree { AllAgree desk.new.board desk.new.seat }
    ensures table { desk.new.seat.table ≡ desk.old.seat.table }
    ensures sessions { length desk.new.board.sessions ≡ length desk.old.board.sessions }
    ensures none_comes { length desk.new.board.connections ≡ length desk.old.board.connections }
{
    sessions_proceed();
    stops_are_told();
    gather(alloc, desk, leases, s, at, until)?;
    note(desk, unkept, s)?;
    let end = bind(alloc, desk, unkept, s, k, body, at)?;
    Ok(end)
}

/// The session to which a first message binds its connection, or the cause by which the connection ends.
fn destination(
    alloc: Global,
    desk: &LeaseDesk,
    routes: &Routes,
    body: &[u8],
) -> Result<Result<u16, Cause>, NoMemory>
    requires routes { AreRoutes desk.now.board routes.now }
    requires few { length routes.now.names.items ≤ MOST_SESSIONS }
    ensures greeting { IfOk result (λ found. found ≡ greeting desk.now.board routes.now (result_ok (fields_of body.now))) }
    ensures within { IfOk result (λ found. IfOk found (λ s. s < length desk.now.board.sessions)) }
    ensures accepts { IfOk result (λ found. IfOk found (λ s. (book_at desk.now.board s).machine.dials ≡ None)) }
    ensures free { IfOk result (λ found. IfOk found (λ s. bound_of (book_at desk.now.board s) ≡ None)) }
    ensures logon { IfOk result (λ found. OnOk found (IsLogon body.now)) }
{
    let fields = match Fields::read(alloc, body) {
        Ok(fields) => fields,
        Err(FieldError::OutOfMemory) => return Err(NoMemory::OutOfMemory),
        Err(_) => return Ok(Err(Cause::NotLogon)),
    };
    let routed = routed(&fields, routes);
    if let Some(j) = session_of(&fields, routes.names.as_slice()) {
        let s = accepting(desk, routes, j);
        if let (Some(connection), false) = (
            desk.board.session(s as usize).bound(),
            matches!(routed, Err(Cause::NotLogon)),
        ) {
            return Ok(Err(Cause::Duplicate { connection }));
        }
    }
    Ok(match routed {
        Ok(j) => Ok(accepting(desk, routes, j)),
        Err(cause) => Err(cause),
    })
}

/// The route by which a first message goes, or the cause that refuses it.
fn routed(fields: &Fields<'_>, routes: &Routes) -> Result<u16, Cause>
    requires few { length routes.now.names.items ≤ MOST_SESSIONS }
    ensures route { result ≡ route_of fields.now routes.now.names.items }
    ensures names { IfOk result (λ j. session_of_names fields.now routes.now.names.items ≡ Some j) }
{
    route(fields, routes.names.as_slice())
}

/// The session that a route belongs to, which accepts.
fn accepting(_desk: &LeaseDesk, routes: &Routes, j: u16) -> u16
    requires routes { AreRoutes _desk.now.board routes.now }
    requires within { j < length routes.now.names.items }
    ensures session { result ≡ slice_index_or routes.now.sessions.items j 0 }
    ensures within { result < length _desk.now.board.sessions }
    ensures accepts { (book_at _desk.now.board result).machine.dials ≡ None }
{
    routes.sessions[j as usize]
}

/// The session is bound to the connection. Where its Logon ends the connection, the session leaves it at
/// once. Its new entries are noted.
fn bind(
    alloc: Global,
    desk: &mut LeaseDesk,
    unkept: &mut Vec<Unkept>,
    s: u16,
    k: usize,
    body: Vec<u8>,
    at: u64,
) -> Result<Option<Cause>, NoMemory>
    requires moment { at ≤ LAST_MOMENT }
    requires session { s < length desk.old.board.sessions }
    requires connection { k < length desk.old.board.connections }
    requires stands { IsNone (connection_at desk.old.board k).cause }
    requires unbound { IsNone (connection_at desk.old.board k).session }
    requires accepts { (book_at desk.old.board s).machine.dials ≡ None }
    requires free { bound_of (book_at desk.old.board s) ≡ None }
    requires logon { IsLogon body.items }
    requires noted { AreNoted unkept.old.items desk.old.board }
    requires steady { IsSteady desk.old.board desk.old.seat }
    ensures end { IfOk result (λ end. end ≡ (receive (book_at desk.old.board s).machine body.items at).end) }
    ensures binds { IfOk result (λ end. Happens (binding s k body.items at end) desk.old.board desk.new.board) }
    ensures stops { OnErr result (StopsIn (binds s k body.items at) desk.old.board desk.new.board ⊎ ((end : Option TheCause) × HappensLast (binding s k body.items at end) desk.old.board desk.new.board)) }
    ensures notes { OnOk result (unkept.new.items ≡ bind_noted s (book_at desk.old.board s).machine.line.expected desk.new.board unkept.old.items) }
    ensures steady { OnOk result (IsSteady desk.new.board desk.new.seat) }
    ensures noted { OnOk result (AreNoted unkept.new.items desk.new.board) }
    ensures proceeds { OnOk result (Proceeds desk.old.board desk.new.board) }
    ensures agree { AllAgree desk.new.board desk.new.seat }
    ensures sessions { length desk.new.board.sessions ≡ length desk.old.board.sessions }
    ensures none_comes { length desk.new.board.connections ≡ length desk.old.board.connections }
    ensures seat { desk.new.seat ≡ desk.old.seat }
{
    sessions_proceed();
    stops_are_told();
    let before = desk.board.session(s as usize).expected();
    let end = take_logon(alloc, desk, s, k, body, at)?;
    let s = s as usize;
    unkept[s].note_bind(desk.board.session(s), before)?;
    Ok(end)
}

/// A Logon binds the session to the connection, which the session leaves at once where the Logon ends it.
fn take_logon(
    alloc: Global,
    desk: &mut LeaseDesk,
    s: u16,
    k: usize,
    body: Vec<u8>,
    at: u64,
) -> Result<Option<Cause>, NoMemory>
    requires moment { at ≤ LAST_MOMENT }
    requires session { s < length desk.old.board.sessions }
    requires connection { k < length desk.old.board.connections }
    requires stands { IsNone (connection_at desk.old.board k).cause }
    requires unbound { IsNone (connection_at desk.old.board k).session }
    requires accepts { (book_at desk.old.board s).machine.dials ≡ None }
    requires free { bound_of (book_at desk.old.board s) ≡ None }
    requires logon { IsLogon body.items }
    requires steady { IsSteady desk.old.board desk.old.seat }
    ensures end { IfOk result (λ end. end ≡ (receive (book_at desk.old.board s).machine body.items at).end) }
    ensures stops { OnErr result (StopsIn (binds s k body.items at) desk.old.board desk.new.board) }
    ensures binds { IfOk result (λ end. Happens (binding s k body.items at end) desk.old.board desk.new.board) }
    ensures steady { OnOk result (IsSteady desk.new.board desk.new.seat) }
    ensures proceeds { OnOk result (Proceeds desk.old.board desk.new.board) }
    ensures agree { AllAgree desk.new.board desk.new.seat }
    ensures sessions { length desk.new.board.sessions ≡ length desk.old.board.sessions }
    ensures none_comes { length desk.new.board.connections ≡ length desk.old.board.connections }
    ensures seat { desk.new.seat ≡ desk.old.seat }
{
    boards_stay_ready();
    boards_stay_in_step();
    sessions_proceed();
    stops_are_told();
    let end = open(alloc, desk, s, k, body, at)?;
    match end {
        None => Ok(None),
        Some(cause) => {
            leave(desk, s, k, cause)?;
            Ok(Some(cause))
        }
    }
}

/// A Logon binds the session to the connection.
fn open(
    alloc: Global,
    desk: &mut LeaseDesk,
    s: u16,
    k: usize,
    body: Vec<u8>,
    at: u64,
) -> Result<Option<Cause>, NoMemory>
    requires moment { at ≤ LAST_MOMENT }
    requires session { s < length desk.old.board.sessions }
    requires connection { k < length desk.old.board.connections }
    requires stands { IsNone (connection_at desk.old.board k).cause }
    requires unbound { IsNone (connection_at desk.old.board k).session }
    requires accepts { (book_at desk.old.board s).machine.dials ≡ None }
    requires free { bound_of (book_at desk.old.board s) ≡ None }
    requires logon { IsLogon body.items }
    requires steady { IsSteady desk.old.board desk.old.seat }
    ensures end { IfOk result (λ end. end ≡ (receive (book_at desk.old.board s).machine body.items at).end) }
    ensures stops { OnErr result (StopsIn (binds s k body.items at) desk.old.board desk.new.board) }
    ensures binds { OnOk result (BindsTo s k body.items at desk.old.board desk.new.board) }
    ensures happens { IfOk result (λ end. end ≡ None → Happens (binds s k body.items at) desk.old.board desk.new.board) }
    ensures placed { OnOk result (place_at desk.new.board s ≡ Some k) }
    ensures agree { AllAgree desk.new.board desk.new.seat }
    ensures sessions { length desk.new.board.sessions ≡ length desk.old.board.sessions }
    ensures none_comes { length desk.new.board.connections ≡ length desk.old.board.connections }
    ensures seat { desk.new.seat ≡ desk.old.seat }
{
    agreement_stays();
    others_stay();
    leases_stay();
    sessions_go_on();
    let end = desk.board.bind(alloc, s as usize, k, body, at)?;
    Ok(end)
}

/// The session leaves the connection, which its Logon ended.
fn leave(desk: &mut LeaseDesk, s: u16, k: usize, cause: Cause) -> Result<(), NoMemory>
    requires session { s < length desk.old.board.sessions }
    requires connection { k < length desk.old.board.connections }
    requires placed { place_at desk.old.board s ≡ Some k }
    requires bound { bound_of (book_at desk.old.board s) ≡ Some (connection_at desk.old.board k).number }
    requires agree { AllAgree desk.old.board desk.old.seat }
    ensures nothing { OnErr result (NothingIsTold desk.old.board desk.new.board) }
    ensures happens { OnOk result (Happens (ends_bound s k cause) desk.old.board desk.new.board) }
    ensures agree { OnErr result (AllAgree desk.new.board desk.new.seat) }
    ensures sessions { length desk.new.board.sessions ≡ length desk.old.board.sessions }
    ensures none_comes { length desk.new.board.connections ≡ length desk.old.board.connections }
    ensures seat { desk.new.seat ≡ desk.old.seat }
{
    agreement_stays();
    others_stay();
    desk.board.end_bound(s as usize, k, cause)?;
    Ok(())
}
