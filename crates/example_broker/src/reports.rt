//! The texts of the answers.

ghost use Rattle.std.specs.Prelude.{◌≡◌, IfOk, map};
ghost use Rattle.example_broker.specs.Orders.{cancelled_by, misfitted_by, ordered_by};
ghost use Rattle.example_broker.specs.Reports.{cancel_reject_text, fields_text, fill_fields, fill_name, fill_text, misfit_text, put_field, reject_fields};

use crate::orders::{Cancel, Misfit, Order};
use fix_fields::put_field;
use gate_io::NoMemory;
use itoa::Buffer;
use std::alloc::Global;

/// Room for a text, so that most don't grow as they are written.
const TEXT_ROOM: usize = 128;

/// Room for an OrderID (37): a session, a line and a number.
const NAME_ROOM: usize = 32;

/// A field that is to be written.
#[derive(Clone, Copy)]
pub struct Put<'a>(u32, &'a [u8]);

/// The ExecutionReport (35=8) that fills an order of session `s`: the `number`-th fill of the session.
pub(crate) fn fill_text(
    alloc: Global,
    s: u16,
    number: u64,
    order: &Order<'_>,
) -> Result<Vec<u8>, NoMemory>
    ensures { IfOk result (λ text. text.items ≡ fill_text s number (ordered_by order.now)) }
{
    let name = fill_name(alloc, s, number)?;
    named_fill_text(alloc, name.as_slice(), order)
}

/// The same, with its OrderID (37) and ExecID (17).
fn named_fill_text<'a>(
    alloc: Global,
    name: &'a [u8],
    order: &'a Order<'a>,
) -> Result<Vec<u8>, NoMemory>
    ensures { IfOk result (λ text. text.items ≡ fields_text (fill_fields name.now (ordered_by order.now))) }
{
    text_of(
        alloc,
        &[
            Put(35, b"8"),
            Put(37, name),
            Put(17, name),
            Put(150, b"F"),
            Put(39, b"2"),
            Put(11, order.id),
            Put(55, order.symbol),
            Put(54, order.side),
            Put(38, order.quantity),
            Put(32, order.quantity),
            Put(31, order.price),
            Put(151, b"0"),
            Put(14, order.quantity),
            Put(6, order.price),
        ],
    )
}

/// The text of these fields.
fn text_of(alloc: Global, fields: &[Put<'_>]) -> Result<Vec<u8>, NoMemory>
    ensures { IfOk result (λ text. text.items ≡ fields_text (map put_field fields.now)) }
{
    let mut text = Vec::with_capacity(alloc, TEXT_ROOM)?;
    for field in fields {
        put_field(&mut text, field.0, field.1)?;
    }
    Ok(text)
}

/// The OrderID (37) and ExecID (17) of a fill: session and number. No two of a run are the same.
fn fill_name(alloc: Global, s: u16, number: u64) -> Result<Vec<u8>, NoMemory>
    ensures { IfOk result (λ name. name.items ≡ fill_name s number) }
{
    let mut name = Vec::with_capacity(alloc, NAME_ROOM)?;
    name.extend_from_slice(Buffer::new().format(s).as_bytes())?;
    name.push(b'-')?;
    name.extend_from_slice(Buffer::new().format(number).as_bytes())?;
    Ok(name)
}

/// The OrderCancelReject (35=9) of a cancel request: the order was filled by this fill, and it is too late to cancel
/// it (102=0), or it is unknown (102=1).
pub(crate) fn cancel_reject_text(
    alloc: Global,
    s: u16,
    cancel: &Cancel<'_>,
    fill: Option<u64>,
) -> Result<Vec<u8>, NoMemory>
    ensures { IfOk result (λ text. text.items ≡ cancel_reject_text s (cancelled_by cancel.now) fill) }
{
    match fill {
        Some(number) => {
            let name = fill_name(alloc, s, number)?;
            reject_text(alloc, cancel, name.as_slice(), b"2", b"0")
        }
        None => reject_text(alloc, cancel, b"NONE", b"8", b"1"),
    }
}

/// The same, with its OrderID (37), OrdStatus (39) and CxlRejReason (102).
fn reject_text<'a>(
    alloc: Global,
    cancel: &'a Cancel<'a>,
    name: &'a [u8],
    status: &'a [u8],
    reason: &'a [u8],
) -> Result<Vec<u8>, NoMemory>
    ensures { IfOk result (λ text. text.items ≡ fields_text (reject_fields name.now (cancelled_by cancel.now) status.now reason.now)) }
{
    text_of(
        alloc,
        &[
            Put(35, b"9"),
            Put(37, name),
            Put(11, cancel.id),
            Put(41, cancel.original),
            Put(39, status),
            Put(434, b"1"),
            Put(102, reason),
        ],
    )
}

/// The BusinessMessageReject (35=j) of a message that lacks a field (380=5).
pub(crate) fn misfit_text<'a>(alloc: Global, misfit: &'a Misfit<'a>) -> Result<Vec<u8>, NoMemory>
    ensures { IfOk result (λ text. text.items ≡ misfit_text (misfitted_by misfit.now)) }
{
    text_of(
        alloc,
        &[
            Put(35, b"j"),
            Put(45, misfit.number),
            Put(372, misfit.kind),
            Put(380, b"5"),
            Put(58, b"a field is missing or too long"),
        ],
    )
}
