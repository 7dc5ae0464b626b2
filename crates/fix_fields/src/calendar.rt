//! Days since 1970, and their dates.

ghost use Rattle.std.specs.Prelude.{◌≡◌, ◌≤◌, IfSome};
ghost use Rattle.fix_fields.specs.Calendar.{day_of_date};
ghost use Rattle.fix_fields.specs.Stamp.{date_of_day};

use jiff::civil::{Date, date};

/// The days from 1970-01-01 to 9999-12-31.
pub(crate) const LAST_DAY: u32 = 2_932_896;

/// The year, the month and the day of the month of the date that many days after 1970-01-01.
pub(crate) fn date_of(day: u32) -> (u32, u32, u32)
    requires { day ≤ LAST_DAY }
    ensures { date_of_day day ≡ record { year = result.0; month = result.1; day = result.2 } }
{
    let first = date(1970, 1, 1).to_plain();
    let date = first.checked_add(day as i64).unwrap();
    (date.year as u32, date.month as u32, date.day as u32)
}

/// The days from 1970-01-01 to a date from there to 9999-12-31, if the calendar has it.
pub(crate) fn day_of(year: u32, month: u32, day: u32) -> Option<u32>
    ensures value { result ≡ day_of_date (record { year = year; month = month; day = day }) }
    ensures bound { IfSome result (λ n. n ≤ LAST_DAY) }
{
    if year < 1970 || year > 9999 || month > 12 || day > 31 {
        return None;
    }
    let Ok(date) = Date::new(year as i16, month as i8, day as i8) else {
        return None;
    };
    Some(date.to_plain().to_unix_epoch_day() as u32)
}
