//! Checkpoints of a state on a disk in memory: two slots, the files 1 and 2.

use crate::disk::file;
use crate::log::hex;
use crate::stops::{images, note, tell};
use crate::streams::{numbers, tell_done};
use pg_base::Bytes;
use pg_checkpoint::{Saved, SnapError, load, save};
use pg_disk::{MemoryDisk, cut_synced, write_synced};
use pg_rows::{Answer, Stage, wide, word};
use pg_words::HexWord;
use std::alloc::{AllocError, Global};

/// How many entries are folded in what is loaded, and the state.
fn tell_loaded(loaded: &Result<Option<Saved>, SnapError>, out: &mut Answer) {
    match loaded {
        Ok(Some(saved)) => write!(out, "{} {}", saved.folded, HexWord(saved.bytes.as_slice())),
        Ok(None) => out.put(b"none"),
        Err(error) => write!(out, "{}", error),
    }
}

/// What is loaded of a slot in its file, and of the other one in the other.
fn found(alloc: Global, slot: u8, file: &[u8], other: &[u8]) -> Result<Bytes, AllocError> {
    let mut disk = MemoryDisk::new(alloc, Vec::new(alloc));
    let _ = write_synced(&mut disk, slot.min(2), 0, file);
    let _ = write_synced(&mut disk, if slot == 1 { 2 } else { 1 }, 0, other);
    let mut told = Answer::new(alloc);
    tell_loaded(&load(alloc, &mut disk), &mut told);
    told.end()
}

#[derive(Drop)]
pub struct Slots {
    alloc: Global,
    disk: MemoryDisk,
}

impl Slots {
    pub fn new(alloc: Global) -> Slots {
        Slots {
            alloc,
            disk: MemoryDisk::new(alloc, Vec::new(alloc)),
        }
    }

    /// Puts a slot at the start of its file.
    fn put(&mut self, slot: u8, bytes: &[u8], out: &mut Answer) {
        let file = slot.min(2);
        tell_done(write_synced(&mut self.disk, file, 0, bytes), out);
    }

    /// `save FOLDED DIGITS`
    fn save(&mut self, words: &[&[u8]], out: &mut Answer) -> Result<(), AllocError> {
        let state = hex(self.alloc, words, 2)?;
        if state.len() >= 1 << 32 {
            out.unread();
            return Ok(());
        }
        match save(self.alloc, &mut self.disk, wide(words, 1), state.as_slice()) {
            Ok(()) => out.put(b"ok"),
            Err(error) => write!(out, "{}", error),
        }
        Ok(())
    }

    /// `load`: how many entries are folded, and the state.
    fn load(&mut self, out: &mut Answer) {
        tell_loaded(&load(self.alloc, &mut self.disk), out);
    }

    /// `stop SLOT AT DIGITS`: what is loaded of each file that a stop within the write of these
    /// bytes may leave of the slot.
    fn stop(&mut self, words: &[&[u8]], out: &mut Answer) -> Result<(), AllocError> {
        let slot = file(words, 1);
        let other = self.disk.bytes(if slot == 1 { 2 } else { 1 })?;
        let file = self.disk.bytes(slot)?;
        let new = hex(self.alloc, words, 3)?;
        let images = images(self.alloc, &file, wide(words, 2) as usize, new.as_slice())?;
        let mut texts = Vec::new(self.alloc);
        for image in &images {
            note(&mut texts, found(self.alloc, slot, image, &other)?)?;
        }
        tell(images.len(), &texts, out);
        Ok(())
    }

    /// `again`: the slots as they are, on a disk that works.
    fn again(&mut self, out: &mut Answer) -> Result<(), AllocError> {
        let (first, second) = (self.disk.bytes(1)?, self.disk.bytes(2)?);
        self.disk = MemoryDisk::new(self.alloc, Vec::new(self.alloc));
        self.put(1, &first, out);
        self.put(2, &second, out);
        Ok(())
    }
}

impl Stage for Slots {
    fn step(&mut self, words: &[&[u8]], out: &mut Answer) -> Result<(), AllocError> {
        match word(words, 0) {
            b"fails" => {
                self.disk = MemoryDisk::new(self.alloc, numbers(self.alloc, words, 1)?);
            }
            b"first" => self.put(1, hex(self.alloc, words, 1)?.as_slice(), out),
            b"second" => self.put(2, hex(self.alloc, words, 1)?.as_slice(), out),
            b"save" => self.save(words, out)?,
            b"load" => self.load(out),
            b"stop" => self.stop(words, out)?,
            b"again" => self.again(out)?,
            b"bytes" => write!(out, "{}", HexWord(&self.disk.bytes(file(words, 1))?)),
            b"cut" => tell_done(
                cut_synced(&mut self.disk, file(words, 1), wide(words, 2)),
                out,
            ),
            _ => out.unread(),
        }
        Ok(())
    }
}
