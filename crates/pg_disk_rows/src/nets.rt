//! Packets, moments and programs in memory.

use crate::streams::{numbers, tell_done};
use pg_base::{cut_at, number_u32};
use pg_net::{Clock, Datagram, MemoryClock, MemoryNet, MemorySpawner, Net, Spawner, Taken};
use pg_rows::{Answer, Stage, narrow, word, words_from, words_of};
use std::alloc::{AllocError, Global};

/// The number at this index, as that of a port.
fn port(number: u32) -> u16 {
    number.min(65_535) as u16
}

#[derive(Drop)]
pub struct Packets {
    alloc: Global,
    net: MemoryNet,
}

impl Packets {
    pub fn new(alloc: Global) -> Packets {
        Packets {
            alloc,
            net: MemoryNet::new(alloc, Vec::new(alloc), Vec::new(alloc)),
        }
    }

    /// `has FAILING PORT=TEXT..`: a net whose call with this number fails, with these packets to
    /// take.
    fn begin(&mut self, words: &[&[u8]]) -> Result<(), AllocError> {
        let mut packets = Vec::new(self.alloc);
        for word in words_from(words, 2) {
            let (from, bytes) = cut_at(word, b'=').unwrap_or((word, b""));
            let bytes = Vec::from_slice(self.alloc, bytes)?;
            packets.push(Datagram::new(port(number_u32(from).unwrap_or(0)), bytes))?;
        }
        let fails = numbers(self.alloc, &words[..words.len().min(2)], 1)?;
        self.net = MemoryNet::new(self.alloc, packets, fails);
        Ok(())
    }

    /// `take`: the port and the length of the next packet.
    fn take(&mut self, out: &mut Answer) -> Result<(), AllocError> {
        let mut room = Vec::new(self.alloc);
        room.resize(40_001, 0u8)?;
        if room.len() < 40_001 {
            return Err(AllocError);
        }
        match self.net.take(room.as_mut_slice()) {
            Ok(Taken::Packet { port, length }) => write!(out, "{} bytes from {}", length, port),
            Ok(Taken::Idle) => out.put(b"idle"),
            Err(failed) => tell_done(Err(failed), out),
        }
        Ok(())
    }

    /// `counts`: how many takes answered, packets were sent and calls failed, and the port that was
    /// bound.
    fn counts(&self, out: &mut Answer) {
        let sent = self.net.sent().len();
        write!(
            out,
            "{} taken {} sent {} failed",
            self.net.takes(),
            sent,
            self.net.faults()
        );
        if let Some(port) = self.net.bound() {
            write!(out, " at {}", port);
        }
    }
}

impl Stage for Packets {
    fn step(&mut self, words: &[&[u8]], out: &mut Answer) -> Result<(), AllocError> {
        match word(words, 0) {
            b"has" => self.begin(words)?,
            b"take" => self.take(out)?,
            b"bind" => tell_done(self.net.bind(port(narrow(words, 1))), out),
            b"send" => tell_done(self.net.send(port(narrow(words, 1)), word(words, 2)), out),
            b"counts" => self.counts(out),
            _ => out.unread(),
        }
        Ok(())
    }
}

/// `clock MOMENT..|now|word|..`: what a clock with these moments, and no words, gives.
pub fn clock(alloc: Global, row: &[u8], out: &mut Answer) -> Result<(), AllocError> {
    let (moments, asked) = cut_at(row, b'|').unwrap_or((row, b""));
    let moments = numbers(alloc, &words_of(alloc, moments)?, 0)?;
    let mut clock = MemoryClock::new(moments, Vec::new(alloc));
    for piece in asked.split(|byte| *byte == b'|') {
        match piece {
            b"word" => write!(out, "{} ", clock.word()),
            _ => write!(out, "{} ", clock.now()),
        }
    }
    Ok(())
}

#[derive(Drop)]
pub struct Started {
    alloc: Global,
    spawner: MemorySpawner,
}

impl Started {
    pub fn new(alloc: Global) -> Started {
        Started {
            alloc,
            spawner: MemorySpawner::new(alloc, Vec::new(alloc), Vec::new(alloc)),
        }
    }

    /// `has STATUS FAILING..`: the first child ends with this status, and these calls fail.
    fn begin(&mut self, words: &[&[u8]]) -> Result<(), AllocError> {
        let mut statuses = Vec::new(self.alloc);
        statuses.push(narrow(words, 1).min(255) as i32)?;
        let fails = numbers(self.alloc, words, 2)?;
        self.spawner = MemorySpawner::new(self.alloc, statuses, fails);
        Ok(())
    }

    /// `start`: starts the program `a` with a word `b`, and gives the child's number.
    fn start(&mut self, out: &mut Answer) -> Result<(), AllocError> {
        let mut words = Vec::new(self.alloc);
        words.push(String::from_str(self.alloc, "a")?)?;
        words.push(String::from_str(self.alloc, "b")?)?;
        match self.spawner.start(&words) {
            Ok(child) => write!(out, "child {}", child),
            Err(failed) => tell_done(Err(failed), out),
        }
        Ok(())
    }

    /// `wait CHILD`: the status that it ended with.
    fn wait(&mut self, words: &[&[u8]], out: &mut Answer) {
        match self.spawner.wait(narrow(words, 1)) {
            Ok(status) => write!(out, "status {}", status),
            Err(failed) => tell_done(Err(failed), out),
        }
    }

    /// `counts`: of each program that was started its child and how many words it has; how many
    /// waits gave a status; and how many calls failed.
    fn counts(&self, out: &mut Answer) {
        for started in self.spawner.started() {
            write!(
                out,
                "child {} of {} words, ",
                started.child(),
                started.words().len()
            );
        }
        let waits = self.spawner.waits().len();
        write!(out, "{} waits {} failed", waits, self.spawner.faults());
    }
}

impl Stage for Started {
    fn step(&mut self, words: &[&[u8]], out: &mut Answer) -> Result<(), AllocError> {
        match word(words, 0) {
            b"has" => self.begin(words)?,
            b"start" => self.start(out)?,
            b"wait" => self.wait(words, out),
            b"counts" => self.counts(out),
            _ => out.unread(),
        }
        Ok(())
    }
}
