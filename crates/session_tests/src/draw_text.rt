//! The texts that the generated runs draw.

use draws::Draw;
use gate_io::NoMemory;
use std::alloc::Global;

/// A Logon, whose number is near the expected one.
pub fn draw_logon(alloc: Global, draw: &mut Draw, expected: u32) -> Result<String, NoMemory> {
    let heart = draw.below(3) * 7;
    if draw.below(5) == 0 {
        return format!(in alloc; "35=A|(1)98=0|108={heart}|141=Y|").map_err(NoMemory::from);
    }
    let n = draw.near(expected).max(1);
    let flag = if draw.below(2) == 0 { "43=Y|" } else { "" };
    format!(in alloc; "35=A|({n}){flag}98=0|108={heart}|141=N|").map_err(NoMemory::from)
}

// What follows the header of a ResendRequest.
fn rest_of_request(alloc: Global, k: u32, to: u32) -> Result<String, NoMemory> {
    let faulty = match k {
        0 => "7=1|",
        1 => "16=0|",
        2 => "7=x|16=1|",
        3 => "7=1|16=-1|",
        _ => return format!(in alloc; "7={k}|16={to}|").map_err(NoMemory::from),
    };
    Ok(String::from_str(alloc, faulty)?)
}

// What follows the header of a SequenceReset.
fn rest_of_reset(alloc: Global, k: u32, to: u32) -> Result<String, NoMemory> {
    let first = match k {
        0 => "123=Y|",
        1 => "36=z|",
        2 => "",
        3 => "123=N|",
        _ => "123=Y|",
    };
    if k < 2 {
        return Ok(String::from_str(alloc, first)?);
    }
    Ok(format!(in alloc; "{first}36={to}|")?)
}

/// What follows the header of a message of this type.
fn draw_rest(
    alloc: Global,
    draw: &mut Draw,
    kind: &str,
    expected: u32,
) -> Result<String, NoMemory> {
    let k = draw.below(9);
    let to = draw.near(expected.saturating_add(1));
    match kind {
        "1" if k == 0 => Ok(String::new(alloc)),
        "1" => format!(in alloc; "112=Q{k}|").map_err(NoMemory::from),
        "2" => rest_of_request(alloc, k, to),
        "4" => rest_of_reset(alloc, k, to),
        _ => format!(in alloc; "11=A{k}|").map_err(NoMemory::from),
    }
}

// The names and the number of a message, which are now and then wrong.
fn header(alloc: Global, fault: u32, n: u32) -> Result<String, NoMemory> {
    let (names, end) = match fault {
        0 => ("49=GATE|56=GATE|34=", "|"),
        1 => ("49=BUYER|56=BUYER|34=", "|"),
        2 => return Ok(String::from_str(alloc, "49=BUYER|56=GATE|")?),
        _ => ("(", ")"),
    };
    Ok(format!(in alloc; "{names}{n}{end}")?)
}

fn draw_kind(draw: &mut Draw) -> &'static str {
    match draw.below(40) {
        0 => "5",
        1 | 2 => "0",
        3 | 4 => "3",
        5 | 6 => "A",
        7..=10 => "1",
        11..=14 => "2",
        15..=20 => "4",
        21..=23 => "ABCDEFGHIJKLMNOPQRSTUVWXYZ1234567",
        _ => "D",
    }
}

/// A message on a bound session, whose number is near the expected one.
pub fn draw_message(alloc: Global, draw: &mut Draw, expected: u32) -> Result<String, NoMemory> {
    let kind = draw_kind(draw);
    let rest = draw_rest(alloc, draw, kind, expected)?;
    let n = draw.near(expected);
    let flag = if draw.below(6) > 0 { "43=Y|" } else { "" };
    let fault = draw.below(60);
    let header = header(alloc, fault, n)?;
    // Two SOH at the end are a field without a tag.
    let end = if fault == 3 { "||" } else { "" };
    Ok(format!(in alloc; "35={kind}|{header}{flag}{rest}{end}")?)
}
