//! The system's programs. What they do, and when they end, is known to no clause.

ghost use Rattle.std.specs.Prelude.{◌≡◌, ◌<◌, length, IsOk};
ghost use Rattle.pg_net.specs.Spawner.{untold};

use crate::spawner::Spawner;
use pg_io::Failed;
use std::alloc::Global;
use std::io;
use std::io::ErrorKind;
use std::process::{Child, Command, Processes, Stdio};

/// Child programs, which read no input and write where this program writes. Each error of the
/// system is a failure; so is a start with no words, one that finds no memory, and a wait for a
/// child that was not started.
#[derive(Drop)]
pub struct Programs<R: Processes> {
    alloc: Global,
    system: R,
    children: Vec<Child<R::Started>>,
    faults: u64,
}

impl<R: Processes> Programs<R> {
    pub fn new(alloc: Global, system: R) -> Self
        ensures { result.faults ≡ 0 }
    {
        Programs {
            alloc,
            system,
            children: Vec::new(alloc),
            faults: 0,
        }
    }

    /// How many calls failed.
    pub fn faults(&self) -> u64
        ensures { result ≡ self.now.faults }
    {
        self.faults
    }

    /// The child's number is how many were started before it.
    fn launch(&mut self, words: &[String]) -> io::Result<u32>
        ensures { self.new.faults ≡ self.old.faults }
    {
        let [program, arguments @ ..] = words else {
            return Err(io::Error::from(ErrorKind::InvalidInput));
        };
        let Ok(number) = u32::try_from(self.children.len()) else {
            return Err(io::Error::from(ErrorKind::OutOfMemory));
        };
        let mut command = Command::new(self.alloc, program.as_str())?;
        command.args(arguments)?;
        command.stdin(Stdio::null());
        self.children.push(command.spawn(&self.system)?)?;
        Ok(number)
    }

    /// Of a child that a signal ended the status is -1.
    fn ended(&mut self, child: u32) -> io::Result<i32>
        ensures { self.new.faults ≡ self.old.faults }
    {
        match self.children.get_mut(child as usize) {
            Some(child) => Ok(child.wait()?.code().unwrap_or(-1)),
            None => Err(io::Error::from(ErrorKind::NotFound)),
        }
    }
}

impl<R: Processes> Spawner for Programs<R> {
    ghost tells = { ⊥ };

    ghost told = { λ _. untold };

    ghost faults = { λ s. s.faults };

    fn start(&mut self, words: &[String]) -> Result<u32, Failed> {
        match self.launch(words) {
            Ok(child) => Ok(child),
            Err(_) => Err(Failed::counted(&mut self.faults)),
        }
    }

    fn wait(&mut self, child: u32) -> Result<i32, Failed> {
        match self.ended(child) {
            Ok(status) => Ok(status),
            Err(_) => Err(Failed::counted(&mut self.faults)),
        }
    }
}
