//! A message's body, read once.

ghost use Rattle.std.specs.Prelude.{◌≡◌, IfOk, IfSome};
ghost use Rattle.std.specs.Result.{result_ok};
ghost use Rattle.fix_fields.specs.Reading.{fields_of};
ghost use Rattle.session_core.specs.Carry.{IsNumbered};
ghost use Rattle.session_core.specs.Receive.{terms_in, step_in};
ghost use Rattle.seq_gaps.specs.Line.{IsNumber};
ghost use Rattle.session_core.specs.Route.{AreTerms, answer_in};

use crate::causes::Cause;
use crate::names::Names;
use crate::routing::{Terms, answer_of, terms_of};
use crate::steps::{Step, step_of};
use fix_fields::{FieldError, Fields};
use gate_io::NoMemory;
use std::alloc::Global;

/// The fields of a body; None where they can't be read.
fn read_fields(alloc: Global, body: &[u8]) -> Result<Option<Fields<'_>>, NoMemory>
    ensures { IfOk result (λ fields. fields ≡ result_ok (fields_of body.now)) }
{
    match Fields::read(alloc, body) {
        Ok(fields) => Ok(Some(fields)),
        Err(FieldError::OutOfMemory) => Err(NoMemory::OutOfMemory),
        Err(FieldError::NoEquals { .. }) => Ok(None),
        Err(FieldError::BadTag { .. }) => Ok(None),
        Err(FieldError::BadDataLength { .. }) => Ok(None),
        Err(FieldError::NoEnd { .. }) => Ok(None),
        Err(FieldError::EmptyValue { .. }) => Ok(None),
    }
}

/// What a first message asks for, taken for a Logon; None where its fields can't be read,
/// or where 98, 108, 141 or 34 refuses it.
pub(crate) fn read_terms(alloc: Global, body: &[u8]) -> Result<Option<Terms>, NoMemory>
    ensures terms { IfOk result (λ terms. terms ≡ terms_in (result_ok (fields_of body.now))) }
    ensures lawful { IfOk result (λ terms. IfSome terms AreTerms) }
{
    let Some(fields) = read_fields(alloc, body)? else {
        return Ok(None);
    };
    match terms_of(&fields) {
        Ok(terms) => Ok(Some(terms)),
        Err(_) => Ok(None),
    }
}

/// The MsgSeqNum of the answer to the session's own Logon, or the cause that refuses it.
pub(crate) fn read_answer(
    alloc: Global,
    names: &Names,
    heart: u32,
    body: &[u8],
) -> Result<Result<u32, Cause>, NoMemory>
    ensures answer { IfOk result (λ answer. answer ≡ answer_in names.now heart (result_ok (fields_of body.now))) }
    ensures number { IfOk result (λ answer. IfOk answer IsNumber) }
{
    match read_fields(alloc, body)? {
        Some(fields) => Ok(answer_of(names, heart, &fields)),
        None => Ok(Err(Cause::NotLogon)),
    }
}

/// The step of a message on a bound session; None where its fields can't be read.
pub(crate) fn read_step(
    alloc: Global,
    names: &Names,
    expected: u32,
    body: &[u8],
) -> Result<Option<Step>, NoMemory>
    ensures step { IfOk result (λ step. step ≡ step_in names.now expected (result_ok (fields_of body.now))) }
    ensures numbered { IfOk result (λ step. IfSome step IsNumbered) }
{
    let Some(fields) = read_fields(alloc, body)? else {
        return Ok(None);
    };
    let step = step_of(alloc, names, expected, &fields)?;
    Ok(Some(step))
}
