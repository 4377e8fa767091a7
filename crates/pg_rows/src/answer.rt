//! What is answered.

use pg_base::{Bytes, FileId};
use std::alloc::{AllocError, Global};
use std::fmt;

/// What a row answers. Where memory runs out nothing more is known of it, as `end` says: so whoever
/// writes to it has no error to hand on.
#[derive(Drop)]
pub struct Answer {
    text: Bytes,
    is_lost: bool,
}

impl Answer {
    /// Nothing yet.
    pub fn new(alloc: Global) -> Answer {
        Answer {
            text: Bytes::new(alloc),
            is_lost: false,
        }
    }

    /// Takes note of whether a write was done.
    fn note(&mut self, done: Result<(), AllocError>) {
        if done.is_err() {
            self.is_lost = true;
        }
    }

    /// The text at the end.
    pub fn put(&mut self, text: &[u8]) {
        let done = self.text.extend(text);
        self.note(done);
    }

    /// The byte at the end.
    pub fn push(&mut self, byte: u8) {
        let done = self.text.push(byte);
        self.note(done);
    }

    /// The value at the end, as it is printed. It is what `write!` calls.
    pub fn write_fmt<D: fmt::Display + Drop>(&mut self, value: D) {
        let done = self.text.write_fmt(value);
        self.note(done);
    }

    /// Says that nothing reads the row, or the piece.
    pub fn unread(&mut self) {
        self.put(b"nothing reads this");
    }

    /// The bytes at the end, each 0 as `\0`; of more than 64 how many they are.
    pub fn show(&mut self, bytes: &[u8]) {
        if bytes.len() > 64 {
            write!(self, "{} bytes", bytes.len());
            return;
        }
        for byte in bytes {
            match *byte {
                0 => self.put(b"\\0"),
                other => self.push(other),
            }
        }
    }

    /// `yes` or `no` at the end.
    pub fn tell(&mut self, is_so: bool) {
        self.put(if is_so { b"yes" } else { b"no" });
    }

    /// The number at the end, or `none`.
    pub fn tell_number(&mut self, number: Option<u64>) {
        match number {
            Some(number) => write!(self, "{}", number),
            None => self.put(b"none"),
        }
    }

    /// The id at the end, or `none`.
    pub fn tell_id(&mut self, id: Option<FileId>) {
        match id {
            Some(id) => write!(self, "{}", id),
            None => self.put(b"none"),
        }
    }

    /// What was answered, if memory lasted.
    pub fn end(self) -> Result<Bytes, AllocError> {
        if self.is_lost {
            return Err(AllocError);
        }
        Ok(self.text)
    }
}
