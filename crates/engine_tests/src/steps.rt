//! What happens in a row, with what each step comes to.
//!
//! In a file a step has the name of its variant, in small letters and with `_` between the words; behind it
//! stand its values in their order, in what a library does the library's number before them. The last may be
//! a text, up to the end of the line. What a step comes to is told as `Debug` prints it.

use crate::facts::Fact;

/// Something happens, and comes to what is said.
#[derive(Clone, Copy)]
pub(crate) enum Step<'a> {
    /// The clock stands at so many milliseconds past the morning's beginning.
    At(u64),
    // At the wire, on connections by their numbers.
    /// A connection comes of itself.
    Connect,
    /// A counterparty comes that answers a dial.
    Answers,
    /// The frame of this body comes.
    Hears(u32, &'a str),
    /// The frames of this body come, in which `#` stands for a number, from one to another.
    HearsEach(u32, u64, u64, &'a str),
    /// So do BUYER's orders.
    Orders(u32, u64, u64),
    /// The input ends.
    Finishes(u32),
    FailsRead(u32),
    FailsWrite(u32, u64),
    FailsAccept,
    Blocks(u32, u64),
    Unblocks(u32),
    // Of the engine.
    Turn,
    Turns(u32),
    /// The frames of these bodies come, one byte before each turn.
    Trickles(u32, &'a str),
    /// These entries came to the session's journal since the last of these steps.
    Tells(u16, &'a str),
    /// A library does this.
    OfLibrary(u8, Act<'a>),
    /// This is so.
    Is(Fact<'a>),
}

/// What a library does.
#[derive(Clone, Copy)]
pub(crate) enum Act<'a> {
    /// It requests a session from a position on, which comes to this.
    Requests(u16, u64, &'a str),
    /// It polls this.
    Polls(&'a str),
    /// It polls BUYER's orders by this lease, from one position to before another. The order with number 2
    /// has position 0.
    Reads(u32, u64, u64),
    /// It polls messages that its lease doesn't read any more, from one position to before another.
    Passes(u32, u64, u64),
    /// The message that it polled last has this body.
    Holds(&'a str),
    /// It sends this body, which comes to this.
    Sends(u16, &'a str, &'a str),
    /// It sends the longest body that it may by this lease, from one time to another.
    SendsLongest(u16, u32, u32, u32),
    /// It gives a session back, which comes to this.
    GivesBack(u16, &'a str),
    /// It hands a session on to a library, which comes to this.
    HandsOn(u16, u8, &'a str),
    Beats,
    /// It asks nothing more, and says whether all its work was done, which comes to this.
    IsDone(bool, &'a str),
}
