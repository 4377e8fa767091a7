//! States of servers.

use crate::row::{put, text};
use pg_base::Bytes;
use pg_rows::Answer;
use pg_state::{fits, write};
use pg_state_read::{StateError, read};
use pg_store::Store;
use std::alloc::{AllocError, Global};

/// The first beginning of the bytes that does not just end too early.
fn whole_beginning(alloc: Global, bytes: &[u8]) -> Option<usize> {
    for count in 0..bytes.len() {
        if read(alloc, &bytes[..count]).err() != Some(StateError::Short(count)) {
            return Some(count);
        }
    }
    None
}

/// What a byte behind the bytes is told to be.
fn show_more(alloc: Global, bytes: &[u8], out: &mut Answer) -> Result<(), AllocError> {
    let mut more = Bytes::new(alloc);
    more.extend(bytes)?;
    more.push(0)?;
    match read(alloc, more.as_slice()) {
        Ok(_) => out.put(b"a byte more is read"),
        Err(fault) => write!(out, "{fault} with a byte more"),
    }
    Ok(())
}

/// Whether the store is written as these bytes again.
fn show_again(
    alloc: Global,
    bytes: &[u8],
    store: &Store,
    out: &mut Answer,
) -> Result<(), AllocError> {
    if !fits(store) {
        out.put(b"no spelling");
        return Ok(());
    }
    let mut written = Bytes::new(alloc);
    write(store, &mut written)?;
    if written.as_slice() == bytes {
        write!(out, "the same {} bytes", bytes.len());
    } else {
        out.put(b"other bytes ");
        put(written.as_slice(), out);
    }
    Ok(())
}

/// `state TEXT`: whether the state is written as these bytes again, which of its beginnings is read
/// otherwise than as one that ends too early, and what is told of a byte more; or the place of the
/// first fault.
pub fn state(alloc: Global, row: &[u8], out: &mut Answer) -> Result<(), AllocError> {
    let bytes = text(alloc, row)?;
    match read(alloc, bytes.as_slice()) {
        Ok(store) => {
            show_again(alloc, bytes.as_slice(), &store, out)?;
            out.put(b", ");
            if let Some(count) = whole_beginning(alloc, bytes.as_slice()) {
                write!(out, "with a beginning of {count}, ");
            }
            show_more(alloc, bytes.as_slice(), out)
        }
        Err(fault) => {
            write!(out, "{fault}");
            Ok(())
        }
    }
}
