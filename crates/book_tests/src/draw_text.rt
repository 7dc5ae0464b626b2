//! Messages that look random: most of them with the number that comes next, some garbled.

use crate::texts::{frame, soh};
use draws::Draw;
use gate_io::NoMemory;
use std::alloc::Global;

/// A Logon, whose number is most often the next one.
pub fn draw_logon(alloc: Global, draw: &mut Draw, next: u32) -> Result<String, NoMemory> {
    let heart = draw.below(3) * 7;
    let text = match draw.below(12) {
        0 | 1 => format!(in alloc; "35=A|(1)98=0|108={heart}|141=Y|"),
        2 => format!(in alloc; "35=A|({})98=0|108={heart}|", draw.near(next).max(1)),
        3 => format!(in alloc; "35=A|({next})98=1|108={heart}|"),
        _ => format!(in alloc; "35=A|({next})98=0|108={heart}|"),
    }?;
    Ok(text)
}

/// A message on a bound session that isn't a plain order.
fn draw_other(alloc: Global, draw: &mut Draw, n: u32) -> Result<String, NoMemory> {
    let k = draw.below(9);
    let to = n.saturating_add(draw.below(4));
    let text = match draw.below(14) {
        0..=2 => format!(in alloc; "35=1|({n})112=Q{k}|"),
        3 => format!(in alloc; "35=1|({n})"),
        4..=6 => format!(in alloc; "35=2|({n})7={k}|16=0|"),
        7 => format!(in alloc; "35=2|({n})7={k}|16={to}|"),
        8 => format!(in alloc; "35=2|({n})7=x|16={to}|"),
        9 => format!(in alloc; "35=4|({n})123=Y|36={to}|"),
        10 => format!(in alloc; "35=4|({n})36={to}|"),
        11 => format!(in alloc; "35=0|({n})x|"),
        12 => format!(in alloc; "35=0|({n})"),
        _ => format!(in alloc; "35=5|({n})"),
    }?;
    Ok(text)
}

/// A message on a bound session, with this number or one round it.
pub fn draw_message(alloc: Global, draw: &mut Draw, next: u32) -> Result<String, NoMemory> {
    let n = if draw.is_one_in(9) {
        draw.near(next)
    } else {
        next
    };
    let k = draw.below(99);
    let text = match draw.below(30) {
        0..=17 => format!(in alloc; "35=D|({n})11=A{k}|"),
        18 => format!(in alloc; "35=D|49=OTHER|56=GATE|34={n}|11=A{k}|"),
        19..=21 => format!(in alloc; "35=D|({})43=Y|11=A{k}|", draw.near(next).max(1)),
        _ => return draw_other(alloc, draw, n),
    }?;
    Ok(text)
}

/// The bytes of a message: its frame, or what is garbled of it, or something before it.
pub fn draw_bytes(alloc: Global, draw: &mut Draw, text: &str) -> Result<Vec<u8>, NoMemory> {
    let mut bytes = frame(alloc, soh(alloc, text)?.as_slice())?;
    match draw.below(24) {
        // with a wrong sum
        0 => {
            let at = bytes.len().saturating_sub(2);
            if let Some(digit) = bytes.get_mut(at) {
                *digit = if *digit == b'7' { b'8' } else { b'7' };
            }
        }
        // with a wrong length, so that each of its bytes is garbled
        1 => {
            if let Some(digit) = bytes.get_mut(12) {
                *digit = if *digit == b'9' { b'8' } else { b'9' };
            }
        }
        // cut off
        2 => bytes.truncate(draw.below(40) as usize),
        3 => {
            let mut longer = soh(alloc, "8=FIX.4.4|9=")?;
            longer.extend_from_slice(&bytes)?;
            return Ok(longer);
        }
        4 => bytes.extend_from_slice(b"8=FIX")?,
        _ => {}
    }
    Ok(bytes)
}
