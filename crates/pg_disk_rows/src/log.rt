//! A log on a disk in memory.

use crate::stops::{images, note, tell};
use crate::streams::{numbers, tell_done};
use pg_base::{Bytes, SharedBytes};
use pg_disk::{MemoryDisk, write_synced};
use pg_log::{Log, LogError, Records};
use pg_rows::{Answer, Stage, wide, word};
use pg_words::{HexWord, read_hex_word};
use std::alloc::{AllocError, Global};

/// The bytes that the digits at this index spell, or none.
pub fn hex(alloc: Global, words: &[&[u8]], index: usize) -> Result<SharedBytes, AllocError> {
    match read_hex_word(alloc, word(words, index), 1000)? {
        Some(bytes) => Ok(bytes),
        None => SharedBytes::from_slice(alloc, b""),
    }
}

/// What opens the file, and tells its entries, or why it does not open.
fn found(alloc: Global, file: &[u8]) -> Result<Bytes, AllocError> {
    let mut disk = MemoryDisk::new(alloc, Vec::new(alloc));
    let _ = write_synced(&mut disk, 0, 0, file);
    let mut told = Answer::new(alloc);
    tell_opened(&Log::open(alloc, &mut disk), &mut told);
    told.end()
}

/// The entries, or why there are none.
fn tell_opened(opened: &Result<(Log, Records), LogError>, out: &mut Answer) {
    match opened {
        Ok((_log, records)) => {
            write!(out, "{} entries", records.len());
            for entry in records.as_slice() {
                write!(out, " {}", HexWord(entry.as_slice()));
            }
        }
        Err(error) => write!(out, "{}", error),
    }
}

/// A disk, and the log that was opened on it.
#[derive(Drop)]
pub struct Opened {
    alloc: Global,
    disk: MemoryDisk,
    log: Option<Log>,
    /// How many appends answered Ok.
    appended: usize,
}

impl Opened {
    pub fn new(alloc: Global) -> Opened {
        Opened {
            alloc,
            disk: MemoryDisk::new(alloc, Vec::new(alloc)),
            log: None,
            appended: 0,
        }
    }

    /// `open`: the entries, or why it does not open.
    fn open(&mut self, out: &mut Answer) {
        let opened = Log::open(self.alloc, &mut self.disk);
        tell_opened(&opened, out);
        if let Ok((log, _records)) = opened {
            self.log = Some(log);
        }
    }

    /// `stop AT DIGITS`: what opens of each file that a stop within the write of these bytes may
    /// leave.
    fn stop(&mut self, words: &[&[u8]], out: &mut Answer) -> Result<(), AllocError> {
        let file = self.disk.bytes(0)?;
        let new = hex(self.alloc, words, 2)?;
        let images = images(self.alloc, &file, wide(words, 1) as usize, new.as_slice())?;
        let mut texts = Vec::new(self.alloc);
        for image in &images {
            note(&mut texts, found(self.alloc, image)?)?;
        }
        tell(images.len(), &texts, out);
        Ok(())
    }

    /// What the log answers to this entry; nothing where none is open.
    fn appended(&mut self, entry: &[u8]) -> Option<Result<(), LogError>> {
        if entry.len() > 65_536 {
            return None;
        }
        match &mut self.log {
            Some(log) => Some(log.append(&mut self.disk, entry)),
            None => None,
        }
    }

    /// `append DIGITS`
    fn append(&mut self, words: &[&[u8]], out: &mut Answer) -> Result<(), AllocError> {
        let entry = hex(self.alloc, words, 1)?;
        match self.appended(entry.as_slice()) {
            Some(Ok(())) => {
                self.appended = self.appended.saturating_add(1);
                out.put(b"ok");
            }
            Some(Err(error)) => write!(out, "{}", error),
            None => out.put(b"not open"),
        }
        Ok(())
    }

    /// `left`: whether what is on the disk opens to the entries whose appends answered Ok, and at
    /// most one more.
    fn left(&self, out: &mut Answer) -> Result<(), AllocError> {
        let mut disk = MemoryDisk::new(self.alloc, Vec::new(self.alloc));
        let _ = write_synced(&mut disk, 0, 0, &self.disk.bytes(0)?);
        match Log::open(self.alloc, &mut disk) {
            Ok((_log, records)) => {
                let more = records.len().checked_sub(self.appended);
                match more {
                    Some(0) | Some(1) => out.put(b"what was appended"),
                    _ => write!(out, "{} entries", records.len()),
                }
            }
            Err(error) => write!(out, "{}", error),
        }
        Ok(())
    }
}

impl Stage for Opened {
    fn step(&mut self, words: &[&[u8]], out: &mut Answer) -> Result<(), AllocError> {
        match word(words, 0) {
            b"fails" => {
                self.disk = MemoryDisk::new(self.alloc, numbers(self.alloc, words, 1)?);
            }
            b"file" => {
                let file = hex(self.alloc, words, 1)?;
                tell_done(write_synced(&mut self.disk, 0, 0, file.as_slice()), out);
            }
            b"open" => self.open(out),
            b"append" => self.append(words, out)?,
            b"bytes" => write!(out, "{}", HexWord(&self.disk.bytes(0)?)),
            b"size" => write!(out, "{}", self.disk.bytes(0)?.len()),
            b"left" => self.left(out)?,
            b"stop" => self.stop(words, out)?,
            _ => out.unread(),
        }
        Ok(())
    }
}
