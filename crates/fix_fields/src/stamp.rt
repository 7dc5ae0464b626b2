//! UTC timestamps, read and written.

ghost use Rattle.std.specs.Prelude.{◌≡◌, ◌+◌, ◌%◌, ◌^◌, ◌≤◌, ◌<◌, length, IfSome};
ghost use Rattle.fix_fields.specs.Stamp.{stamp_of, moment_of, day_in, second_in, fraction_in};

use crate::calendar::{LAST_DAY, date_of, day_of};
use crate::number::read_number;
use gate_io::LAST_MOMENT;

/// The seconds of a day.
const DAY_SECONDS: u64 = 86_400;

/// The milliseconds of a day.
const DAY_MS: u64 = 86_400_000;

/// The text of a moment, in milliseconds since 1970-01-01 UTC and at most `LAST_MOMENT`, as
/// `YYYYMMDD-HH:MM:SS.sss`: a UTCTimestamp of FIX 4.4.
pub fn stamp_text(ms: u64) -> [u8; 21]
    requires { ms ≤ LAST_MOMENT }
    ensures { result ≡ stamp_of ms }
{
    let (year, month, day) = date_of((ms / DAY_MS) as u32);
    let second = (ms / 1_000 % DAY_SECONDS) as u32;
    let (hour, minute, second) = (second / 3_600, second / 60 % 60, second % 60);
    let millisecond = (ms % 1_000) as u32;
    [
        digit(year / 1_000),
        digit(year / 100),
        digit(year / 10),
        digit(year),
        digit(month / 10),
        digit(month),
        digit(day / 10),
        digit(day),
        b'-',
        digit(hour / 10),
        digit(hour),
        b':',
        digit(minute / 10),
        digit(minute),
        b':',
        digit(second / 10),
        digit(second),
        b'.',
        digit(millisecond / 100),
        digit(millisecond / 10),
        digit(millisecond),
    ]
}

/// The moment of a timestamp, in milliseconds since 1970-01-01 UTC: `YYYYMMDD-HH:MM:SS`, or the
/// same with `.sss`, of a real date from 1970 to 9999, hours from 00 to 23, and minutes and
/// seconds from 00 to 59. Of any other text there is none.
#[tactic(auto, unfolding(crate::specs::Stamp::moment_of))]
pub fn read_stamp(bytes: &[u8]) -> Option<u64>
    ensures { result ≡ moment_of bytes.now }
{
    if bytes.len() < 17 || bytes[8] != b'-' {
        return None;
    }
    let day = read_day(&bytes[..8])?;
    let second = read_second(&bytes[9..17])?;
    let millisecond = read_fraction(&bytes[17..])?;
    Some((day * DAY_SECONDS + second) * 1_000 + millisecond)
}

/// The last decimal digit of a number, as a character.
fn digit(n: u32) -> u8
    ensures { result ≡ 48 + n % 10 }
{
    b'0' + (n % 10) as u8
}

/// The days from 1970-01-01 to a date `YYYYMMDD` from there to 9999-12-31, if the calendar has it.
#[tactic(auto, unfolding(crate::specs::Stamp::day_in))]
fn read_day(text: &[u8]) -> Option<u64>
    requires { length text.now ≡ 8 }
    ensures value { result ≡ day_in text.now }
    ensures bound { IfSome result (λ day. day ≤ LAST_DAY) }
{
    let year = read_number(&text[..4])?;
    let month = read_number(&text[4..6])?;
    let day = read_number(&text[6..])?;
    let day = day_of(year, month, day)?;
    Some(day as u64)
}

/// The seconds from midnight to a time `HH:MM:SS`, from 00:00:00 to 23:59:59.
#[tactic(auto, unfolding(crate::specs::Stamp::second_in))]
fn read_second(text: &[u8]) -> Option<u64>
    requires { length text.now ≡ 8 }
    ensures value { result ≡ second_in text.now }
    ensures bound { IfSome result (λ second. second < DAY_SECONDS) }
{
    if text[2] != b':' || text[5] != b':' {
        return None;
    }
    let hour = read_number(&text[..2])?;
    let minute = read_number(&text[3..5])?;
    let second = read_number(&text[6..])?;
    if hour > 23 || minute > 59 || second > 59 {
        return None;
    }
    Some((hour * 3_600 + minute * 60 + second) as u64)
}

/// The milliseconds of what stands behind the seconds: nothing, or `.sss`.
#[tactic(auto, unfolding(crate::specs::Stamp::fraction_in))]
fn read_fraction(text: &[u8]) -> Option<u64>
    ensures value { result ≡ fraction_in text.now }
    ensures bound { IfSome result (λ millisecond. millisecond < 2 ^ 32) }
{
    match text {
        [] => Some(0),
        [b'.', digits @ ..] if digits.len() == 3 => read_number(digits).map(u64::from),
        _ => None,
    }
}
