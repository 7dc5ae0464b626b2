//! What a counterparty's message asks for.

ghost use Rattle.std.specs.Prelude.{◌≡◌, Some, option_copied};
ghost use Rattle.std.specs.Option.{option_map};
ghost use Rattle.example_broker.specs.Orders.{asking_by, asking_in, cancel_fields, cancelled_by, has_kind, misfit_in, order_fields, ordered_by, price_in, short_value, value_in};

use fix_fields::Fields;

/// The most bytes of a value of an order that a report tells again.
const LONGEST_VALUE: usize = 256;

/// The price (44) of an order without one: a market order is filled at it.
const MARKET_PRICE: &[u8] = b"100";

/// What a message asks for.
#[derive(Clone, Copy)]
pub enum Asked<'a> {
    /// A NewOrderSingle (35=D) with all that a report of it needs.
    Order(Order<'a>),
    /// An OrderCancelRequest (35=F).
    Cancel(Cancel<'a>),
    /// A message of one of these two kinds without a field that it has to have.
    Misfit(Misfit<'a>),
    /// Nothing that this program answers.
    Nothing,
}

/// A NewOrderSingle (35=D), with the values that its report tells again.
#[derive(Clone, Copy)]
pub struct Order<'a> {
    /// ClOrdID (11).
    pub id: &'a [u8],
    /// Symbol (55).
    pub symbol: &'a [u8],
    /// Side (54).
    pub side: &'a [u8],
    /// OrderQty (38).
    pub quantity: &'a [u8],
    /// Price (44), or that of the market.
    pub price: &'a [u8],
}

/// An OrderCancelRequest (35=F).
#[derive(Clone, Copy)]
pub struct Cancel<'a> {
    /// ClOrdID (11): its own.
    pub id: &'a [u8],
    /// OrigClOrdID (41): that of the order which is to be cancelled.
    pub original: &'a [u8],
}

/// A message that can't be answered as it wants.
#[derive(Clone, Copy)]
pub struct Misfit<'a> {
    /// MsgType (35).
    pub kind: &'a [u8],
    /// MsgSeqNum (34).
    pub number: &'a [u8],
}

/// What a message with these fields asks for. Whether it is sent again (PossDupFlag, 43) doesn't matter: an order
/// that was lost and comes again wasn't filled, and one that was filled is known by its ClOrdID (11).
pub(crate) fn asked_of<'a>(fields: &Fields<'a>) -> Asked<'a>
    ensures { asking_by result ≡ asking_in fields.now }
{
    if has_kind(fields, b"D") {
        return match order_of(fields) {
            Some(order) => Asked::Order(order),
            None => misfit_of(fields, b"D"),
        };
    }
    if has_kind(fields, b"F") {
        return match cancel_of(fields) {
            Some(cancel) => Asked::Cancel(cancel),
            None => misfit_of(fields, b"F"),
        };
    }
    Asked::Nothing
}

/// Whether the MsgType (35) is this one.
fn has_kind(fields: &Fields<'_>, kind: &[u8]) -> bool
    ensures { result ≡ has_kind kind.now fields.now }
{
    match fields.first(35) {
        Some(found) => found == kind,
        None => false,
    }
}

fn order_of<'a>(fields: &Fields<'a>) -> Option<Order<'a>>
    ensures { option_map ordered_by result ≡ order_fields fields.now }
{
    Some(Order {
        id: value_of(fields, 11)?,
        symbol: value_of(fields, 55)?,
        side: value_of(fields, 54)?,
        quantity: value_of(fields, 38)?,
        price: price_of(fields)?,
    })
}

fn cancel_of<'a>(fields: &Fields<'a>) -> Option<Cancel<'a>>
    ensures { option_map cancelled_by result ≡ cancel_fields fields.now }
{
    Some(Cancel {
        id: value_of(fields, 11)?,
        original: value_of(fields, 41)?,
    })
}

/// What a message of this kind asks for that lacks a field.
fn misfit_of<'a>(fields: &Fields<'a>, kind: &'a [u8]) -> Asked<'a>
    ensures { asking_by result ≡ misfit_in kind.now fields.now }
{
    match value_of(fields, 34) {
        Some(number) => Asked::Misfit(Misfit { kind, number }),
        None => Asked::Nothing,
    }
}

/// The value of a field, unless it is too long for a report.
fn value_of<'a>(fields: &Fields<'a>, tag: u32) -> Option<&'a [u8]>
    ensures { option_copied result ≡ value_in tag fields.now }
{
    short(fields.first(tag)?)
}

/// A value, unless it is too long for a report.
fn short(value: &[u8]) -> Option<&[u8]>
    ensures { option_copied result ≡ short_value (Some value.now) }
{
    if value.len() <= LONGEST_VALUE {
        Some(value)
    } else {
        None
    }
}

/// The price at which an order is filled.
fn price_of<'a>(fields: &Fields<'a>) -> Option<&'a [u8]>
    ensures { option_copied result ≡ price_in fields.now }
{
    match fields.first(44) {
        Some(price) => short(price),
        None => Some(MARKET_PRICE),
    }
}
