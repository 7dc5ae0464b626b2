//! Laws of fields, timestamps and numbers: what was written is read again, and which texts are bodies. Each is
//! the contract of a function that does nothing.

ghost use Rattle.fix_fields.specs.Laws.{ReadsAsSpelled, FaultsAsFirst, HasOneOfBoth, HasNoTwo, StampsAsSpelled, MomentsHaveABound, StampsReadAgain, CountsBothWays, NumbersReadAgain, TextsArePlain, TypedTextsAreBodies, ReadableBodiesEnd, FitBodiesAreBodies};

/// A body is read as a list of fields just where it is their texts, one after the other, and the
/// fields are lawful.
pub fn reads_as_spelled()
    ensures { ReadsAsSpelled }
{}

/// A body is refused with a fault just where the fault stands behind the lawful fields at its front.
pub fn faults_as_first()
    ensures { FaultsAsFirst }
{}

/// Each body has a list of fields or a first fault, and never both.
pub fn has_one_of_both()
    ensures { HasOneOfBoth }
{}

/// No body has two lists of fields or two first faults.
pub fn has_no_two()
    ensures { HasNoTwo }
{}

/// A text is read as a moment just where it is a real date from 1970 to 9999, a dash and a time of
/// day, with three decimals or none, and the moment is counted by calendar days.
pub fn stamps_as_spelled()
    ensures { StampsAsSpelled }
{}

/// What is read as a moment is at most `LAST_MOMENT`.
pub fn moments_have_a_bound()
    ensures { MomentsHaveABound }
{}

/// What is written for a moment is read as that moment.
pub fn stamps_read_again()
    ensures { StampsReadAgain }
{}

/// The date of a day number has that number, and the day number of a date has that date.
pub fn counts_both_ways()
    ensures { CountsBothWays }
{}

/// What is written for a number of 32 bits, in decimal without leading zeros, is read as that number.
pub fn numbers_read_again()
    ensures { NumbersReadAgain }
{}

/// The text of a number or of a moment has no SOH, so it may be the value of any field.
pub fn texts_are_plain()
    ensures { TextsArePlain }
{}

/// Fields of which the first is a message type (35) are, as text, a body that can be put into a frame.
pub fn typed_texts_are_bodies()
    ensures { TypedTextsAreBodies }
{}

/// A body whose fields can be read is empty or ends with SOH.
pub fn readable_bodies_end()
    ensures { ReadableBodiesEnd }
{}

/// A body that may be sent for an application can be put into a frame.
pub fn fit_bodies_are_bodies()
    ensures { FitBodiesAreBodies }
{}
