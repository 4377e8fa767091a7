//! Fields of packets as bytes.

use pg_base::{Bytes, cut_at};
use pg_codec::{
    ReadError, Reader, write_bytes, write_file, write_flag, write_stamp, write_u8, write_u16,
    write_u32, write_u64,
};
use pg_rows::{Answer, Stage, id, narrow, play, stamp, wide, word};
use pg_words::{HexWord, read_hex_word};
use std::alloc::{AllocError, Global};
use std::fmt;

/// The field with this word for its kind, and this for its value.
fn write_field(words: &[&[u8]], out: &mut Bytes) -> Result<(), AllocError> {
    match word(words, 0) {
        b"u8" => write_u8(narrow(words, 1).min(255) as u8, out),
        b"u16" => write_u16(narrow(words, 1).min(65_535) as u16, out),
        b"u32" => write_u32(narrow(words, 1), out),
        b"u64" => write_u64(wide(words, 1), out),
        b"flag" => write_flag(word(words, 1) == b"yes".as_slice(), out),
        b"file" => write_file(id(words, 1), out),
        b"stamp" => write_stamp(stamp(words, 1), out),
        _ => write_bytes(word(words, 1), out),
    }
}

#[derive(Drop)]
struct Writing {
    alloc: Global,
}

impl Stage for Writing {
    fn step(&mut self, words: &[&[u8]], out: &mut Answer) -> Result<(), AllocError> {
        let mut field = Bytes::new(self.alloc);
        write_field(words, &mut field)?;
        write!(out, "{}", HexWord(field.as_slice()));
        Ok(())
    }
}

/// The value at the end.
fn put<T: fmt::Display + Drop>(value: T, out: &mut Answer) {
    write!(out, "{}", value);
}

/// The value, or why there is none.
fn show<T: fmt::Display + Drop>(answer: Result<T, ReadError>, out: &mut Answer) {
    match answer {
        Ok(value) => put(value, out),
        Err(error) => put(error, out),
    }
}

#[derive(Drop)]
struct Reading<'a> {
    reader: Reader<'a>,
}

impl Stage for Reading<'_> {
    fn step(&mut self, words: &[&[u8]], out: &mut Answer) -> Result<(), AllocError> {
        match word(words, 0) {
            b"u8" => show(self.reader.u8(), out),
            b"u16" => show(self.reader.u16(), out),
            b"u32" => show(self.reader.u32(), out),
            b"u64" => show(self.reader.u64(), out),
            b"flag" => show(self.reader.flag(), out),
            b"file" => show(self.reader.file(), out),
            b"stamp" => show(self.reader.stamp(), out),
            b"take" => match self.reader.take(narrow(words, 1) as usize) {
                Ok(bytes) => write!(out, "{}", HexWord(bytes)),
                Err(error) => write!(out, "{}", error),
            },
            _ => {
                write!(out, "at {}", self.reader.place());
                if self.reader.is_at_end() {
                    out.put(b", the end");
                }
            }
        }
        Ok(())
    }
}

/// `fields write|KIND VALUE|..`: each field in hexadecimal digits. `fields DIGITS|KIND|..`: the
/// fields that are read, one after another.
pub fn fields(alloc: Global, row: &[u8], out: &mut Answer) -> Result<(), AllocError> {
    let (digits, pieces) = cut_at(row, b'|').unwrap_or((row, b""));
    if digits == b"write".as_slice() {
        return play(alloc, &mut Writing { alloc }, pieces, out);
    }
    let Some(bytes) = read_hex_word(alloc, digits, 1000)? else {
        out.unread();
        return Ok(());
    };
    let mut reading = Reading {
        reader: Reader::new(bytes.as_slice()),
    };
    play(alloc, &mut reading, pieces, out)
}
