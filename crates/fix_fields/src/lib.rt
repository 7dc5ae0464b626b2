//! The fields of a FIX 4.4 message in the tag=value encoding: reading a body's fields, writing them,
//! and the two kinds of value that the gateway reads itself, numbers and UTC timestamps.
//!
//! A body is what stands between a frame's BodyLength (9) and its CheckSum (10): fields
//! `tag=value`, each closed by the byte SOH. FIX 4.4, volume 1, "Message format".
//!
//! Stands on `fix_frame` (which bytes can be a frame's body), `gate_io` (the last moment, the error of want of
//! memory), `itoa` (tags in decimal digits), `jiff` and `jiff_core` (the calendar's dates and day numbers). Its
//! rules are told in docs/frames-and-fields.md.
//!
//! Read `limits` (of bodies, names and tags), `error` (why fields can't be read), `pairs` (length fields and their
//! data fields), `number` (numbers in fields), `calendar` (days and their dates) and `stamp` (UTC timestamps); then
//! `entry` (one field), `reading` (one field read), `fields` (a body's fields, by tag), `writing` (one field
//! written), `builder` (a body field by field) and `fit` (what an application may send); last `laws` (of the
//! definitions).
//!
//! Clauses to know first:
//!
//! - `spelled` of `Fields::read`: on Ok the body is the texts of the fields that are read, one after the other, and
//!   each of them may follow the one before it;
//! - `read` of `Builder::finish`: the bytes are read as the fields that were put in, where each data field directly
//!   behind its length field has just the length that this says;
//! - `ok` of `check_body`: on Ok the fields can be read, the first is the type of a message that isn't a session
//!   message, and no later one is a field that the gateway writes itself.
#![tactic(auto)]

mod builder;
mod calendar;
mod entry;
mod error;
mod fields;
mod fit;
pub mod laws;
mod limits;
mod number;
mod pairs;
mod reading;
mod stamp;
mod writing;

pub use builder::Builder;
pub use error::FieldError;
pub use fields::Fields;
pub use fit::{check_body, is_session_type};
pub use limits::{LAST_TAG, LONGEST_APPLICATION_BODY, LONGEST_NAME};
pub use number::read_number;
pub use pairs::{data_tag_of, is_paired};
pub use stamp::{read_stamp, stamp_text};
pub use writing::{put_field, put_tagged};
