//! Random streams, cut in parts of random lengths and plainly.

use crate::checks::{same, same_at};
use crate::feeding::{OwnedPiece, cut_parts};
use crate::plain_cut::{LIMIT, cut_plainly, forms};
use crate::texts::row_bytes;
use rand_core::utils::NextWord;
use rand_pcg::Pcg32;
use std::alloc::{AllocError, Global};
use std::test::Fail;

const SNIPPETS: [&str; 16] = [
    "8=FIX.4.4|9=5|35=0|10=163|",
    "8=FIX.4.4|9=05|35=0|10=211|",
    "8=FIX.4.4|9=4|35=|10=114|",
    "8=FIX.4.4|9=10|35=0|58=x|10=242|",
    "8=FIX.4.4|9=11|35=0|58=xx|10=107|",
    "8=FIX.4.4|9=",
    "8=FIX.4.4|",
    "9=5|35=0|10=",
    "8=FIX.4.4|9=5|35=0|10=",
    "8=FIX.4.4|9=000000004|",
    "5|35=0|",
    "10=163|",
    "35=",
    "8",
    "|",
    "0",
];

/// Some snippets, one behind the other.
fn stream(alloc: Global, random: &mut Pcg32) -> Result<Vec<u8>, AllocError> {
    let mut stream = Vec::new(alloc);
    for _ in 0..6 {
        let snippet = SNIPPETS[(random.next_word() % 16) as usize];
        stream.extend_from_slice(&row_bytes(alloc, snippet)?)?;
    }
    Ok(stream)
}

/// The bytes in parts of 0 to 12 bytes each, and the last part with what is left.
fn parts_of(alloc: Global, bytes: &[u8], random: &mut Pcg32) -> Result<Vec<Vec<u8>>, AllocError> {
    let mut parts = Vec::new(alloc);
    let mut left = bytes;
    for _ in 0..20 {
        let count = (random.next_word() % 13) as usize;
        let (part, behind) = left.split_at(count.min(left.len()));
        parts.push(Vec::from_slice(alloc, part)?)?;
        left = behind;
    }
    parts.push(Vec::from_slice(alloc, left)?)?;
    Ok(parts)
}

/// The pieces of all parts, printed.
fn printed(alloc: Global, given: Vec<Vec<OwnedPiece>>) -> Result<String, AllocError> {
    let mut pieces = Vec::new(alloc);
    for some in given {
        for piece in some {
            pieces.push(piece)?;
        }
    }
    format!(in alloc; "{pieces:?}")
}

#[test]
fn random_streams_are_cut_as_the_rules_say(rt: HostRuntime) -> Result<(), Fail> {
    let alloc = rt.alloc();
    let forms = forms(alloc)?;
    let mut random = Pcg32::new(7, 1);
    for _ in 0..200 {
        let bytes = stream(alloc, &mut random)?;
        let parts = parts_of(alloc, &bytes, &mut random)?;
        let given = cut_parts(alloc, LIMIT, &parts)?;
        let (wanted, _) = cut_plainly(alloc, &forms, &bytes)?;
        same_at(
            &rt,
            &printed(alloc, given)?,
            &format!(in alloc; "{wanted:?}")?,
            &bytes,
        );
    }
    Ok(())
}

#[test]
fn each_prefix_gives_its_pieces(rt: HostRuntime) -> Result<(), Fail> {
    let alloc = rt.alloc();
    let forms = forms(alloc)?;
    let mut random = Pcg32::new(8, 1);
    for _ in 0..3 {
        let bytes = stream(alloc, &mut random)?;
        for end in 0..bytes.len() {
            let part = Vec::from_slice(alloc, &bytes[..end])?;
            let given = cut_parts(alloc, LIMIT, &[part])?;
            let (wanted, _) = cut_plainly(alloc, &forms, &bytes[..end])?;
            same(
                &rt,
                &printed(alloc, given)?,
                &format!(in alloc; "{wanted:?}")?,
            );
        }
    }
    Ok(())
}
