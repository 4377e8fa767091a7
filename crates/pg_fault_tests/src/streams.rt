//! Readers and writers of std as sources and sinks.

ghost use Rattle.std.specs.Prelude.{IfOk, ◌≤◌};

use pg_io::{Failed, ReadAllError, Reading, Source, Writing, read_all, write_all};
use std::alloc::Global;
use std::io;
use std::io::{ErrorKind, Read, Write};

/// A reader and writer of std that gives and takes one byte, and then fails.
#[derive(Drop)]
struct Breaking {
    is_broken: bool,
}

impl Breaking {
    fn step(&mut self, length: usize) -> io::Result<usize>
        ensures { IfOk result (λ n. n ≤ length) }
    {
        if self.is_broken {
            return Err(io::Error::from(ErrorKind::BrokenPipe));
        }
        self.is_broken = true;
        Ok(length.min(1))
    }
}

impl Read for Breaking {
    fn read(&mut self, buf: &mut [u8]) -> io::Result<usize> {
        self.step(buf.len())
    }
}

impl Write for Breaking {
    fn write(&mut self, buf: &[u8]) -> io::Result<usize> {
        self.step(buf.len())
    }

    fn flush(&mut self) -> io::Result<()> {
        Ok(())
    }
}

/// Whether all that comes is `abc`.
fn gives_abc<S: Source>(alloc: Global, source: &mut S) -> bool {
    match read_all(alloc, source, 3) {
        Ok(bytes) => bytes.as_slice() == b"abc".as_slice(),
        Err(_) => false,
    }
}

fn gives_a_fault<S: Source>(alloc: Global, source: &mut S) -> bool {
    matches!(read_all(alloc, source, 3), Err(ReadAllError::Fault))
}

#[test]
fn reads_from_std(rt: HostRuntime) {
    let mut whole = Reading::new(b"abc".as_slice());
    let mut broken = Reading::new(Breaking { is_broken: false });
    assert!(rt;
        gives_abc(rt.alloc(), &mut whole)
            && whole.faults() == 0
            && gives_a_fault(rt.alloc(), &mut broken)
            && broken.faults() == 1
    );
}

/// Whether a vector takes `abc`, and no failure is counted.
fn takes_abc(alloc: Global) -> bool {
    let mut whole = Writing::new(Vec::new(alloc));
    let is_written = write_all(&mut whole, b"abc") == Ok(()) && whole.faults() == 0;
    whole.into_inner().as_slice() == b"abc".as_slice() && is_written
}

/// Whether a writer that fails behind its first byte makes all fail, and is counted once.
fn breaks() -> bool {
    let mut broken = Writing::new(Breaking { is_broken: false });
    write_all(&mut broken, b"abc") == Err(Failed) && broken.faults() == 1
}

#[test]
fn writes_to_std(rt: HostRuntime) {
    assert!(rt; takes_abc(rt.alloc()) && breaks());
}
