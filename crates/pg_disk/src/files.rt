//! The system's files. What they hold, and what a crash leaves of them, is known to no clause.

ghost use Rattle.std.specs.Prelude.{◌≡◌, ◌<◌, ◌+◌, ◌^◌, length, OnOk};
ghost use Rattle.std.specs.Io.{ReadsAtMost};
ghost use Rattle.pg_disk.specs.Told.{untold};

use crate::disk::Disk;
use pg_io::Failed;
use std::alloc::Global;
use std::fs::{File, Files, OpenFile, OpenOptions};
use std::io;
use std::io::{ErrorKind, Read, Seek, SeekFrom, Write};
use std::path::Path;

/// Three files for each name: the name with `.log`, `.a` and `.b` behind it, which may begin with a
/// folder. A file is made where it is first spoken of, and its folder is synced then. Each error of
/// the system is a failure; so is a call that finds no memory, and a write that would end at 2^64
/// or behind it.
#[derive(Drop)]
pub struct FileDisk<R: Files> {
    alloc: Global,
    system: R,
    name: String,
    open: Option<(u8, R::File)>,
    faults: u64,
}

impl<R: Files> FileDisk<R> {
    /// The empty name is chosen.
    pub fn new(alloc: Global, system: R) -> Self
        ensures { result.faults ≡ 0 }
    {
        FileDisk {
            alloc,
            system,
            name: String::new(alloc),
            open: None,
            faults: 0,
        }
    }

    /// How many calls failed.
    pub fn faults(&self) -> u64
        ensures { result ≡ self.now.faults }
    {
        self.faults
    }

    /// Opens a file, and syncs its folder: from then on no crash takes the file's name.
    fn opened(&self, file: u8) -> io::Result<R::File> {
        let end = match file {
            0 => "log",
            1 => "a",
            _ => "b",
        };
        let path = format!(in self.alloc; "{}.{}", self.name, end)?;
        let mut options = OpenOptions::new();
        options.read(true).write(true).create(true);
        let opened = options.open(&self.system, path.as_str())?;
        let folder = match Path::new(path.as_str()).parent() {
            Some(folder) if !folder.as_str().is_empty() => folder,
            _ => Path::new("."),
        };
        File::open(&self.system, folder)?.sync_all()?;
        Ok(opened)
    }

    /// Takes the file, which stays open from one call to the next on it.
    fn taken(&mut self, file: u8) -> io::Result<R::File>
        ensures { self.new.faults ≡ self.old.faults }
    {
        if let Some((number, open)) = self.open.take() {
            if number == file {
                return Ok(open);
            }
        }
        self.opened(file)
    }

    fn size(&mut self, file: u8) -> io::Result<u64>
        ensures { self.new.faults ≡ self.old.faults }
    {
        let open = self.taken(file)?;
        let size = open.metadata()?.len();
        self.open = Some((file, open));
        Ok(size)
    }

    fn read_from(&mut self, file: u8, at: u64, buf: &mut [u8]) -> io::Result<usize>
        ensures bound { ReadsAtMost result buf.new }
        ensures faults { self.new.faults ≡ self.old.faults }
    {
        let mut open = self.taken(file)?;
        open.seek(SeekFrom::Start(at))?;
        let count = open.read(buf)?;
        self.open = Some((file, open));
        Ok(count)
    }

    fn write_to(&mut self, file: u8, at: u64, bytes: &[u8]) -> io::Result<()>
        ensures within { OnOk result (at + length bytes.now < 2 ^ 64) }
        ensures faults { self.new.faults ≡ self.old.faults }
    {
        if at.checked_add(bytes.len() as u64).is_none() {
            return Err(io::Error::from(ErrorKind::InvalidInput));
        }
        let mut open = self.taken(file)?;
        open.seek(SeekFrom::Start(at))?;
        open.write_all(bytes)?;
        self.open = Some((file, open));
        Ok(())
    }

    fn cut_to(&mut self, file: u8, longest: u64) -> io::Result<()>
        ensures { self.new.faults ≡ self.old.faults }
    {
        let open = self.taken(file)?;
        if longest < open.metadata()?.len() {
            open.set_len(longest)?;
        }
        self.open = Some((file, open));
        Ok(())
    }

    fn sync_all(&mut self, file: u8) -> io::Result<()>
        ensures { self.new.faults ≡ self.old.faults }
    {
        let open = self.taken(file)?;
        open.sync_all()?;
        self.open = Some((file, open));
        Ok(())
    }
}

impl<R: Files> Disk for FileDisk<R> {
    ghost tells = { ⊥ };

    ghost told = { λ _. untold };

    ghost faults = { λ d. d.faults };

    ghost reads_images = { λ t d. absurd t };

    fn choose(&mut self, name: &str) -> Result<(), Failed> {
        match String::from_str(self.alloc, name) {
            Ok(name) => {
                self.name = name;
                self.open = None;
                Ok(())
            }
            Err(_) => Err(Failed::counted(&mut self.faults)),
        }
    }

    fn length(&mut self, file: u8) -> Result<u64, Failed> {
        match self.size(file) {
            Ok(size) => Ok(size),
            Err(_) => Err(Failed::counted(&mut self.faults)),
        }
    }

    fn read(&mut self, file: u8, at: u64, buf: &mut [u8]) -> Result<usize, Failed> {
        match self.read_from(file, at, buf) {
            Ok(count) => Ok(count),
            Err(_) => Err(Failed::counted(&mut self.faults)),
        }
    }

    fn write_at(&mut self, file: u8, at: u64, bytes: &[u8]) -> Result<(), Failed> {
        match self.write_to(file, at, bytes) {
            Ok(()) => Ok(()),
            Err(_) => Err(Failed::counted(&mut self.faults)),
        }
    }

    fn cut(&mut self, file: u8, longest: u64) -> Result<(), Failed> {
        match self.cut_to(file, longest) {
            Ok(()) => Ok(()),
            Err(_) => Err(Failed::counted(&mut self.faults)),
        }
    }

    fn sync(&mut self, file: u8) -> Result<(), Failed> {
        match self.sync_all(file) {
            Ok(()) => Ok(()),
            Err(_) => Err(Failed::counted(&mut self.faults)),
        }
    }
}
