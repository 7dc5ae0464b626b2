//! Moments and bytes as text.

use gate_io::NoMemory;
use std::alloc::Global;

/// The milliseconds of a day.
const DAY: u64 = 86_400_000;

fn is_leap(year: u64) -> bool {
    year % 4 == 0 && (year % 100 != 0 || year % 400 == 0)
}

fn days_of_month(year: u64, month: u64) -> u64 {
    match month {
        2 if is_leap(year) => 29,
        2 => 28,
        4 | 6 | 9 | 11 => 30,
        _ => 31,
    }
}

/// The year, month and day that begin so many days behind the first of January 1970.
fn date_of(days: u64) -> (u64, u64, u64) {
    let mut left = days;
    for year in 1970..10_000u64 {
        for month in 1..13u64 {
            let length = days_of_month(year, month);
            if left < length {
                return (year, month, left.saturating_add(1));
            }
            left = left.saturating_sub(length);
        }
    }
    (9999, 12, 31)
}

/// A moment as `YYYYMMDD-HH:MM:SS.sss`.
pub(crate) fn stamp(alloc: Global, moment: u64) -> Result<String, NoMemory> {
    let (year, month, day) = date_of(moment / DAY);
    let ms = moment % DAY;
    let date = format!(in alloc; "{year:04}{month:02}{day:02}-")?;
    let time = time_of(alloc, ms)?;
    let mut text = date;
    text.push_str(&time)?;
    Ok(text)
}

fn time_of(alloc: Global, ms: u64) -> Result<String, NoMemory> {
    let hours = ms / 3_600_000;
    let minutes = ms / 60_000 % 60;
    let seconds = ms / 1000 % 60;
    let thousandths = ms % 1000;
    Ok(format!(in alloc; "{hours:02}:{minutes:02}:{seconds:02}.{thousandths:03}")?)
}

/// Writes bytes as they are printed.
pub(crate) fn push_printed(text: &mut String, bytes: &[u8]) -> Result<(), NoMemory> {
    for byte in bytes {
        let b = *byte;
        if b == 1 {
            text.push('|')?;
        } else if b < 0x20 || b > 0x7e || b == b'|' || b == b'\\' {
            text.push('\\')?;
            text.push(hex_digit(b / 16))?;
            text.push(hex_digit(b % 16))?;
        } else {
            text.push(char::from(b))?;
        }
    }
    Ok(())
}

fn hex_digit(value: u8) -> char {
    if value < 10 {
        char::from(b'0'.wrapping_add(value))
    } else {
        char::from(b'a'.wrapping_add(value.wrapping_sub(10)))
    }
}

/// The bytes of a text in which `|` stands for byte 1.
pub(crate) fn fields_text(alloc: Global, text: &str) -> Result<Vec<u8>, NoMemory> {
    let mut bytes = Vec::new(alloc);
    for byte in text.as_bytes() {
        bytes.push(if *byte == b'|' { 1 } else { *byte })?;
    }
    Ok(bytes)
}
