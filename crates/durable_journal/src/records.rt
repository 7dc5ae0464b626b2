//! What makes a record one of the table.

ghost use Rattle.std.specs.Prelude.{◌≡◌, ◌≢◌, ◌≤◌, ◌↔◌, IsTrue, IfOk};
ghost use Rattle.lease_core.specs.Steps.{IsLibrary};
ghost use Rattle.durable_journal.specs.Records.{IsMoment, IsLawfulWhy, HasLawfulNumbers, IsInboundBody, IsSentBody, HasNone, HasParts, IsRecord};

use crate::admins::is_admin_body;
use crate::limits::LAST_EXPECTED;
use fix_fields::{FieldError, Fields, LONGEST_APPLICATION_BODY, check_body};
use fix_frame::{LONGEST_FRAME, frame_len, is_body};
use gate_io::{LAST_MOMENT, NoMemory};
use lease_core::{Entry, MOST_LIBRARIES, Record, Why};
use std::alloc::Global;

/// Whether a record that was read is one: its numbers are in their ranges, and it has the moment
/// and the body that its kind has, and else 0 and no bytes.
pub(crate) fn is_record(alloc: Global, event: &Record) -> Result<bool, NoMemory>
    ensures { IfOk result (λ is. IsTrue is ↔ IsRecord event.now) }
{
    let in_range = 1 <= event.expected && event.expected <= LAST_EXPECTED;
    let has_parts = has_parts(alloc, event.entry, event.at, event.body.as_slice())?;
    Ok(in_range && has_lawful_numbers(event.entry) && has_parts)
}

fn has_lawful_numbers(entry: Entry) -> bool
    ensures { IsTrue result ↔ HasLawfulNumbers entry }
{
    match entry {
        Entry::Granted { library, .. } => is_library(library),
        Entry::Refused { library, why, .. } => is_library(library) && is_lawful_why(why),
        Entry::Send { library, .. } => is_library(library),
        Entry::Release { library, heir, .. } => is_library(library) && heir <= MOST_LIBRARIES,
        Entry::Timeout { library, .. } => is_library(library),
        Entry::Hold { until, .. } => until <= LAST_MOMENT,
        Entry::Arrive { .. } | Entry::Admin { .. } | Entry::Bind { .. } => true,
        Entry::Plan { .. } | Entry::Leave { .. } | Entry::Reset { .. } => true,
        Entry::Lapse { .. } => true,
    }
}

fn is_lawful_why(why: Why) -> bool
    ensures { IsTrue result ↔ IsLawfulWhy why }
{
    match why {
        Why::UnknownSession { .. } => false,
        Why::OtherOwner { owner, .. } => is_library(owner),
        Why::Reserved { for_library, until } => is_library(for_library) && until <= LAST_MOMENT,
        Why::LeasesSpent { .. } | Why::MissingMessages { .. } => true,
    }
}

fn is_library(library: u8) -> bool
    ensures { IsTrue result ↔ IsLibrary library }
{
    1 <= library && library <= MOST_LIBRARIES
}

fn has_parts(alloc: Global, entry: Entry, at: u64, body: &[u8]) -> Result<bool, NoMemory>
    ensures { IfOk result (λ has. IsTrue has ↔ HasParts entry at body.now) }
{
    match entry {
        Entry::Arrive { .. } => {
            let is_inbound = is_inbound_body(alloc, body)?;
            Ok(at == 0 && is_inbound)
        }
        Entry::Admin { number } => {
            let is_admin = is_admin_body(alloc, number, body)?;
            Ok(at <= LAST_MOMENT && is_admin)
        }
        Entry::Plan { at: own, .. } => { Ok(at <= LAST_MOMENT && own == at && body.is_empty()) }
        Entry::Send { .. } => Ok(at <= LAST_MOMENT && is_sent_body(body)),
        Entry::Bind { .. } | Entry::Leave { .. } | Entry::Reset { .. } => Ok(has_none(at, body)),
        Entry::Granted { .. } | Entry::Refused { .. } => Ok(has_none(at, body)),
        Entry::Release { .. } | Entry::Timeout { .. } => Ok(has_none(at, body)),
        Entry::Hold { .. } | Entry::Lapse { .. } => Ok(has_none(at, body)),
    }
}

fn has_none(at: u64, body: &[u8]) -> bool
    ensures { IsTrue result ↔ HasNone at body.now }
{
    at == 0 && body.is_empty()
}

fn is_sent_body(body: &[u8]) -> bool
    ensures { IsTrue result ↔ IsSentBody body.now }
{
    body.len() <= LONGEST_APPLICATION_BODY && check_body(body).is_ok()
}

fn is_inbound_body(alloc: Global, body: &[u8]) -> Result<bool, NoMemory>
    ensures { IfOk result (λ is. IsTrue is ↔ IsInboundBody body.now) }
{
    if !is_body(body) || frame_len(body) > LONGEST_FRAME {
        return Ok(false);
    }
    match Fields::read(alloc, body) {
        Ok(_) => Ok(true),
        Err(FieldError::OutOfMemory) => Err(NoMemory::OutOfMemory),
        Err(_) => Ok(false),
    }
}
