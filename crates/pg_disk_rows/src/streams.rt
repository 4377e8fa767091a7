//! Bytes that are read and written, two a call.

use pg_io::{Failed, MemorySink, MemorySource, read_all, write_all};
use pg_rows::{Answer, narrow, wide, word, words_from, words_of};
use std::alloc::{AllocError, Global};

/// The numbers from this index on.
pub fn numbers(alloc: Global, words: &[&[u8]], index: usize) -> Result<Vec<u64>, AllocError> {
    let mut numbers = Vec::new(alloc);
    let words = words_from(words, index);
    for index in 0..words.len() {
        numbers.push(wide(words, index))?;
    }
    Ok(numbers)
}

/// `ok` or `failed` at the end.
pub fn tell_done(answer: Result<(), Failed>, out: &mut Answer) {
    out.put(if answer.is_ok() { b"ok" } else { b"failed" });
}

/// `source TEXT LIMIT FAILS..`: what all that is read is, or why it is not, what is left, and how
/// many calls failed.
pub fn source(alloc: Global, row: &[u8], out: &mut Answer) -> Result<(), AllocError> {
    let words = words_of(alloc, row)?;
    let bytes = Vec::from_slice(alloc, word(&words, 0))?;
    let mut source = MemorySource::new(bytes, numbers(alloc, &words, 2)?).with_chunk(2);
    match read_all(alloc, &mut source, narrow(&words, 1) as usize) {
        Ok(bytes) => out.put(&bytes),
        Err(error) => write!(out, "{}", error),
    }
    out.put(b"; ");
    out.put(source.bytes());
    write!(out, "; {}", source.faults());
    Ok(())
}

/// `sink TEXT FAILS..`: whether all is written, what was, and how many calls failed.
pub fn sink(alloc: Global, row: &[u8], out: &mut Answer) -> Result<(), AllocError> {
    let words = words_of(alloc, row)?;
    let mut sink = MemorySink::new(alloc, numbers(alloc, &words, 1)?).with_chunk(2);
    tell_done(write_all(&mut sink, word(&words, 0)), out);
    out.put(b"; ");
    out.put(sink.bytes());
    write!(out, "; {}", sink.faults());
    Ok(())
}
