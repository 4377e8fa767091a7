//! The pieces of a row.

use crate::answer::Answer;
use crate::words::words_of;
use std::alloc::{AllocError, Global};

/// What the pieces of a row change, one after another.
pub trait Stage {
    /// Does what the words of a piece say, and writes what it answers at the end.
    fn step(&mut self, words: &[&[u8]], out: &mut Answer) -> Result<(), AllocError>;
}

/// Does what the pieces say, one after another.
pub fn play<S: Stage>(
    alloc: Global,
    stage: &mut S,
    row: &[u8],
    out: &mut Answer,
) -> Result<(), AllocError> {
    let mut between = b"".as_slice();
    for piece in row.split(|byte| *byte == b'|') {
        out.put(between);
        between = b"|";
        let words = words_of(alloc, piece)?;
        stage.step(&words, out)?;
    }
    Ok(())
}
