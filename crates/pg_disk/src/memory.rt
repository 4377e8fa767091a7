//! A disk in memory, with a list of the calls that are to fail.

ghost use Rattle.std.specs.Prelude.{◌≡◌, ◌≤◌, ◌<◌, ◌+◌, ◌^◌, [], ◌∷◌, List, ℕ, length, Contains, IfOk, IsErr, OnOk, OnErr};
ghost use Rattle.std.specs.Io.{ReadsAtMost};
ghost use Rattle.pg_io.specs.Causes.{HasCause};
ghost use Rattle.pg_disk.specs.Disk.{Write, Cut, Sync, contents};
ghost use Rattle.pg_disk.specs.Told.{IsRead, IsTried, given, steps_of, Event};
ghost use Rattle.pg_disk.specs.Memory.{Remembered, IsCounted, told_of, fresh, change_of, with_calls};
ghost use Rattle.pg_disk.specs.Images.{memory_reads_images};

use crate::call::{Call, add, replayed};
use crate::count::Count;
use crate::disk::Disk;
use crate::edit::{Edit, copied};
use pg_io::Failed;
use std::alloc::{AllocError, Global};
use std::marker::Model;

/// Files in memory. It keeps all calls that changed files, and so tells what was done at every
/// moment. A call that fails does nothing.
#[derive(Debug, Drop)]
pub struct MemoryDisk {
    alloc: Global,
    name: String,
    calls: Vec<Call>,
    count: Count,
}

impl Model for MemoryDisk {
    ghost use Rattle.std.specs.Prelude.{string_bytes};
    ghost use Rattle.pg_disk.specs.Memory.{Remembered};

    ghost Value = { Remembered };

    ghost view = { λ d. record {
      chosen = string_bytes d.name;
      made = d.calls.items;
      fails = d.count.fails.items;
      calls = d.count.made;
      faults = d.count.faults;
    } };
}

impl MemoryDisk {
    /// All files are empty, and the empty name is chosen. The calls whose numbers are in `fails`
    /// fail; the first call has number 0. A call that finds no memory fails too.
    pub fn new(alloc: Global, fails: Vec<u64>) -> Self
        ensures { result ≡ fresh fails.items }
    {
        MemoryDisk {
            alloc,
            name: String::new(alloc),
            calls: Vec::new(alloc),
            count: Count::new(fails),
        }
    }

    /// What a read gives of a file of the chosen name. It is no call.
    pub fn bytes(&self, file: u8) -> Result<Vec<u8>, AllocError>
        ensures { IfOk result (λ bytes. bytes.items ≡ given (told_of self.now) file) }
    {
        replayed(self.alloc, &self.calls, self.name.as_str(), file)
    }

    /// How many calls failed.
    pub fn faults(&self) -> u64
        ensures { result ≡ self.now.faults }
    {
        self.count.faults
    }

    /// A call that is counted, fails and does nothing.
    fn refuse(&mut self) -> Result<(), Failed>
        ensures failed { IsErr result }
        ensures told { told_of self.new ≡ told_of self.old }
        ensures counted { IsCounted self.old self.new result }
        ensures cause { HasCause self.old.faults self.new.faults result }
    {
        match self.count.begin() {
            Ok(()) => Err(Failed::counted(&mut self.count.faults)),
            Err(failed) => Err(failed),
        }
    }

    /// Makes a change of a file, if the call is not one of those that are to fail.
    fn change(&mut self, file: u8, edit: Edit) -> Result<(), Failed>
        ensures tried { IsTried result file (change_of edit) (told_of self.old) (told_of self.new) }
        ensures fails { Contains self.old.fails self.old.calls → IsErr result }
        ensures counted { IsCounted self.old self.new result }
        ensures cause { HasCause self.old.faults self.new.faults result }
    {
        let begun = self.count.begin();
        let name = self.name.as_str();
        match add(self.alloc, &mut self.calls, name, file, edit, begun.is_ok()) {
            Ok(()) => begun,
            Err(_) if begun.is_ok() => Err(Failed::counted(&mut self.count.faults)),
            Err(_) => begun,
        }
    }
}

impl Disk for MemoryDisk {
    ghost tells = { Unit {0} };

    ghost told = { λ d. told_of d };

    ghost faults = { λ d. d.faults };

    ghost reads_images = { λ t d. memory_reads_images d };

    fn choose(&mut self, name: &str) -> Result<(), Failed>
        ensures chosen { OnOk result (Unit {0}
            → told_of self.new
            ≡ record { chosen = name.now; history = (told_of self.old).history }) }
        ensures same { OnErr result (Unit {0} → told_of self.new ≡ told_of self.old) }
        ensures cause { HasCause self.old.faults self.new.faults result }
        ensures fails { Contains self.old.fails self.old.calls → IsErr result }
        ensures counted { IsCounted self.old self.new result }
    {
        self.count.begin()?;
        match String::from_str(self.alloc, name) {
            Ok(name) => {
                self.name = name;
                Ok(())
            }
            Err(_) => Err(Failed::counted(&mut self.count.faults)),
        }
    }

    fn length(&mut self, file: u8) -> Result<u64, Failed>
        requires { file ≤ 2 }
        ensures length { IfOk result (λ n. Unit {0} → n ≡ length (given (told_of self.old) file)) }
        ensures same { Unit {0} → told_of self.new ≡ told_of self.old }
        ensures cause { HasCause self.old.faults self.new.faults result }
        ensures fails { Contains self.old.fails self.old.calls → IsErr result }
        ensures counted { IsCounted self.old self.new result }
    {
        self.count.begin()?;
        match self.bytes(file) {
            Ok(bytes) => Ok(bytes.len() as u64),
            Err(_) => Err(Failed::counted(&mut self.count.faults)),
        }
    }

    fn read(&mut self, file: u8, at: u64, buf: &mut [u8]) -> Result<usize, Failed>
        requires { file ≤ 2 }
        ensures bound { ReadsAtMost result buf.new }
        ensures bytes { IfOk result (λ n.
            Unit {0} → IsRead (given (told_of self.old) file) at n buf.new) }
        ensures same { Unit {0} → told_of self.new ≡ told_of self.old }
        ensures cause { HasCause self.old.faults self.new.faults result }
        ensures fails { Contains self.old.fails self.old.calls → IsErr result }
        ensures counted { IsCounted self.old self.new result }
    {
        self.count.begin()?;
        match self.bytes(file) {
            Ok(bytes) => Ok(copied(&bytes, at as usize, buf)),
            Err(_) => Err(Failed::counted(&mut self.count.faults)),
        }
    }

    fn write_at(&mut self, file: u8, at: u64, bytes: &[u8]) -> Result<(), Failed>
        requires { file ≤ 2 }
        ensures written { Unit {0}
            → IsTried result file (Write at bytes.now) (told_of self.old) (told_of self.new) }
        ensures within { OnOk result (at + length bytes.now < 2 ^ 64) }
        ensures cause { HasCause self.old.faults self.new.faults result }
        ensures fails { Contains self.old.fails self.old.calls → IsErr result }
        ensures counted { IsCounted self.old self.new result }
    {
        match bytes.to_vec(self.alloc) {
            Ok(bytes) if at.checked_add(bytes.len() as u64).is_some() => {
                self.change(file, Edit::Write { at, bytes })
            }
            _ => self.refuse(),
        }
    }

    fn cut(&mut self, file: u8, longest: u64) -> Result<(), Failed>
        requires { file ≤ 2 }
        ensures cut { Unit {0}
            → IsTried result file (Cut longest) (told_of self.old) (told_of self.new) }
        ensures cause { HasCause self.old.faults self.new.faults result }
        ensures fails { Contains self.old.fails self.old.calls → IsErr result }
        ensures counted { IsCounted self.old self.new result }
    {
        self.change(file, Edit::Cut { longest })
    }

    fn sync(&mut self, file: u8) -> Result<(), Failed>
        requires { file ≤ 2 }
        ensures synced { Unit {0} → IsTried result file Sync (told_of self.old) (told_of self.new) }
        ensures cause { HasCause self.old.faults self.new.faults result }
        ensures fails { Contains self.old.fails self.old.calls → IsErr result }
        ensures counted { IsCounted self.old self.new result }
    {
        self.change(file, Edit::Sync)
    }
}
