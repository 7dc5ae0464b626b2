//! What a crash may leave of a disk, by a plain program that no contract ties to the definition.

use draws::Draw;
use durable_journal::{DiskStep, MemDisk};
use std::alloc::{AllocError, Global};

/// Writes a piece at a place, over what is there.
fn write_over(bytes: &mut Vec<u8>, at: usize, piece: &[u8]) -> Result<(), AllocError> {
    let end = at.saturating_add(piece.len());
    if bytes.len() < end {
        bytes.resize(end, 0)?;
    }
    for (place, byte) in piece.iter().enumerate() {
        if let Some(old) = bytes.get_mut(at.saturating_add(place)) {
            *old = *byte;
        }
    }
    Ok(())
}

/// A write as it is torn: some of its bytes are there, or any others, and the file is as long as
/// before, or longer, up to the write's end.
fn scramble(
    draw: &mut Draw,
    image: &mut Vec<u8>,
    at: usize,
    size: usize,
    piece: &[u8],
) -> Result<(), AllocError> {
    let end = at.saturating_add(size);
    let longest = image.len().max(end);
    let length = draw.between(image.len(), longest);
    image.resize(length, draw.byte())?;
    for place in at..end.min(length) {
        let new = match draw.below(4) {
            0 => Some(draw.byte()),
            1 => Some(1),
            2 => piece.get(place.saturating_sub(at)).copied(),
            _ => None,
        };
        if let (Some(old), Some(new)) = (image.get_mut(place), new) {
            *old = new;
        }
    }
    Ok(())
}

fn tear(
    draw: &mut Draw,
    image: &mut Vec<u8>,
    at: usize,
    size: usize,
    piece: &[u8],
) -> Result<(), AllocError> {
    match draw.below(4) {
        0 => Ok(()),
        1 => write_over(image, at, piece),
        _ => scramble(draw, image, at, size, piece),
    }
}

/// An image that a crash behind the first steps may leave.
pub fn image_at(
    alloc: Global,
    draw: &mut Draw,
    disk: &MemDisk,
    moment: usize,
) -> Result<Vec<u8>, AllocError> {
    let (steps, written) = disk.steps();
    let mut bytes = disk.first().to_vec(alloc)?;
    let mut image = disk.first().to_vec(alloc)?;
    let mut rest = written;
    for step in steps.get(..moment).unwrap_or(steps) {
        match step {
            DiskStep::Synced => image = bytes.as_slice().to_vec(alloc)?,
            DiskStep::Wrote { at, size, len } => {
                let piece = rest.get(..*len).unwrap_or(&[]);
                rest = rest.get(*len..).unwrap_or(&[]);
                let at = usize::try_from(*at).unwrap_or(0);
                write_over(&mut bytes, at, piece)?;
                tear(
                    draw,
                    &mut image,
                    at,
                    usize::try_from(*size).unwrap_or(0),
                    piece,
                )?;
            }
        }
    }
    Ok(image)
}
