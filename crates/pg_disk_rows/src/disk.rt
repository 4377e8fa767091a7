//! Files of a disk in memory.

ghost use Rattle.std.specs.Prelude.{◌≤◌};

use crate::streams::{numbers, tell_done};
use pg_disk::{Disk, MemoryDisk, cut_synced, write_synced};
use pg_rows::{Answer, Stage, narrow, wide, word};
use std::alloc::{AllocError, Global};

/// The number of a file at this index.
pub fn file(words: &[&[u8]], index: usize) -> u8
    ensures { result ≤ 2 }
{
    narrow(words, index).min(2) as u8
}

/// A disk, and a room of three bytes for what is read of it.
#[derive(Drop)]
pub struct Files {
    alloc: Global,
    disk: MemoryDisk,
    room: [u8; 3],
}

impl Files {
    pub fn new(alloc: Global) -> Files {
        Files {
            alloc,
            disk: MemoryDisk::new(alloc, Vec::new(alloc)),
            room: [b'.'; 3],
        }
    }

    /// `write FILE AT TEXT`, `cut FILE LENGTH`, and the same with `-synced`; `sync FILE`; `choose
    /// NAME`, the name `n` or none.
    fn change(&mut self, words: &[&[u8]], out: &mut Answer) {
        let file = file(words, 1);
        let at = wide(words, 2);
        let disk = &mut self.disk;
        let answer = match word(words, 0) {
            b"write" => disk.write_at(file, at, word(words, 3)),
            b"write-synced" => write_synced(disk, file, at, word(words, 3)),
            b"cut" => disk.cut(file, at),
            b"cut-synced" => cut_synced(disk, file, at),
            b"sync" => disk.sync(file),
            _ => disk.choose(if word(words, 1).is_empty() { "" } else { "n" }),
        };
        tell_done(answer, out);
    }

    /// `read FILE AT`: how many bytes come, and what is in the room then.
    fn read(&mut self, words: &[&[u8]], out: &mut Answer) {
        match self
            .disk
            .read(file(words, 1), wide(words, 2), &mut self.room)
        {
            Ok(count) => {
                write!(out, "{} ", count);
                out.put(self.room.as_slice());
            }
            Err(failed) => tell_done(Err(failed), out),
        }
    }

    /// `length FILE`
    fn length(&mut self, words: &[&[u8]], out: &mut Answer) {
        match self.disk.length(file(words, 1)) {
            Ok(length) => write!(out, "{}", length),
            Err(failed) => tell_done(Err(failed), out),
        }
    }
}

impl Stage for Files {
    fn step(&mut self, words: &[&[u8]], out: &mut Answer) -> Result<(), AllocError> {
        match word(words, 0) {
            b"fails" => {
                self.disk = MemoryDisk::new(self.alloc, numbers(self.alloc, words, 1)?);
            }
            b"read" => self.read(words, out),
            b"length" => self.length(words, out),
            b"bytes" => out.show(&self.disk.bytes(file(words, 1))?),
            b"faults" => write!(out, "{}", self.disk.faults()),
            b"write" | b"write-synced" | b"cut" | b"cut-synced" | b"sync" | b"choose" => {
                self.change(words, out)
            }
            _ => out.unread(),
        }
        Ok(())
    }
}
