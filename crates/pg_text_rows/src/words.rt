//! Words and items.

use crate::row::{put, text, unread};
use pg_base::{SharedBytes, cut_at, number_u32};
use pg_rows::Answer;
use pg_words::{first_words, is_same, items_of, read_hex, read_hex_word};
use std::alloc::{AllocError, Global};

/// The bytes, or that there are none.
fn put_found(found: Option<SharedBytes>, out: &mut Answer) {
    match found {
        Some(bytes) => {
            out.put(b"bytes ");
            put(bytes.as_slice(), out);
        }
        None => out.put(b"no bytes"),
    }
}

/// `hex MOST WORD`: the bytes that the word spells, at most so many, and those where a dash may
/// spell none.
pub fn hex(alloc: Global, row: &[u8], out: &mut Answer) -> Result<(), AllocError> {
    let (most, word) = cut_at(row, b' ').unwrap_or((row, b""));
    let Some(most) = number_u32(most) else {
        unread(out);
        return Ok(());
    };
    put_found(read_hex(alloc, word, most as usize)?, out);
    out.put(b"; ");
    put_found(read_hex_word(alloc, word, most as usize)?, out);
    Ok(())
}

/// `words TEXT`: how many words of three there are, whether the first two are one, and how many
/// items.
pub fn words(alloc: Global, row: &[u8], out: &mut Answer) -> Result<(), AllocError> {
    let text = text(alloc, row)?;
    let mut room = [b"".as_slice(); 3];
    let count = first_words(text.as_slice(), &mut room);
    write!(out, "{count} words, the first two ");
    out.put(if is_same(room[0], room[1]) {
        b"the same"
    } else {
        b"apart"
    });
    write!(out, "; {} items", items_of(alloc, text.as_slice())?.len());
    Ok(())
}
