//! What a file may be where a write to it was stopped.

use pg_base::Bytes;
use pg_rows::Answer;
use std::alloc::{AllocError, Global};

/// What stands behind the new bytes that came: in the range of the write the bytes from before it,
/// or this one everywhere.
const RESTS: [Option<u8>; 5] = [None, Some(0), Some(1), Some(7), Some(255)];

/// The file, of this length, with so many of the new bytes from a place on, and in the rest of the
/// range of the write what `rest` says.
fn image(
    alloc: Global,
    file: &[u8],
    at: usize,
    new: &[u8],
    length: usize,
    came: usize,
    rest: Option<u8>,
) -> Result<Vec<u8>, AllocError> {
    let mut image = Vec::new(alloc);
    for place in 0..length {
        let was = *file.get(place).unwrap_or(&0);
        image.push(match place.checked_sub(at) {
            Some(index) if index < came => *new.get(index).unwrap_or(&was),
            Some(index) if index < new.len() => rest.unwrap_or(was),
            _ => was,
        })?;
    }
    Ok(image)
}

/// What the file may be where these bytes were written to it from a place on and the write was
/// stopped: of each length between those before and behind the write, with the first of the new
/// bytes, however many, and something else in the rest of their range.
pub fn images(
    alloc: Global,
    file: &[u8],
    at: usize,
    new: &[u8],
) -> Result<Vec<Vec<u8>>, AllocError> {
    let mut images = Vec::new(alloc);
    let longest = at.saturating_add(new.len()).max(file.len());
    for length in file.len()..=longest {
        for came in 0..=new.len() {
            for rest in RESTS {
                images.push(image(alloc, file, at, new, length, came, rest)?)?;
            }
        }
    }
    Ok(images)
}

/// Adds the text, if it is not among these yet.
pub fn note(texts: &mut Vec<Bytes>, text: Bytes) -> Result<(), AllocError> {
    if !texts
        .iter()
        .any(|known| known.as_slice() == text.as_slice())
    {
        texts.push(text)?;
    }
    Ok(())
}

/// How many images there were, and each text that came of one.
pub fn tell(count: usize, texts: &[Bytes], out: &mut Answer) {
    write!(out, "{} images", count);
    for text in texts {
        out.put(b", ");
        out.put(text.as_slice());
    }
}
