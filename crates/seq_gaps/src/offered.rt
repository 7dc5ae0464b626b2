//! Where an offered item stands, and the limits of numbers and of held items.

/// The largest MsgSeqNum of a message. The expected number is at most one more.
pub const MAX_NUMBER: u32 = 999_999_999;

/// How many early items a line holds at most.
pub const HELD_LIMIT: usize = 256;

/// Numbers that are missing, from the first to the last.
#[derive(Clone, Copy, Debug, PartialEq, Eq)]
pub struct Gap {
    pub from: u32,
    pub to: u32,
}

/// Where an item stands that was offered with its number. All but `Held` hand it back.
#[derive(Debug, PartialEq, Eq, Drop)]
pub enum Place<T> {
    /// Its number is the expected one: it is to be carried out.
    Now(T),
    /// It came early, and waits for its number.
    Held,
    /// Its number was counted or is held already.
    Known(T),
    /// It came early, and as many as can be are held already.
    NoRoom(T),
}

/// The answer to an offer: where the item stands, and the gap that it shows for the first time.
#[derive(Debug, PartialEq, Eq, Drop)]
pub struct Offered<T> {
    pub place: Place<T>,
    pub gap: Option<Gap>,
}
