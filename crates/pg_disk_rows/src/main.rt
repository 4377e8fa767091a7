//! Rows: each line of the input is calls of things in memory that stand for the outside (bytes that
//! are read and written, disks, logs and checkpoints on them, nets, clocks and programs), and each
//! line of the output is what they answer.
//!
//! The things in memory are told which of their calls are to fail: the first call has number 0. A
//! row is a verb and pieces, with a bar between two of them, that are done one after another. The
//! answers are those of docs/FORMATS.md and of what a file may hold after a crash, and never this
//! program's own. The real things behind the same traits are tried in `pg_fault_tests`.
//!
//! `streams`, `disk`, `log`, `slots` and `nets` have the verbs, a module for each thing; `stops`
//! goes over what a write that is stopped may leave of a file; `main` reads lines and calls them.
//!
//! A verb more: a case of `answer`, and a module that plays its pieces (`pg_rows`); its rows with
//! what they must give join `stdin` and `stdout`. The rules: docs/RULES.md, "Sources and sinks",
//! "Disks", "Logs", "Checkpoints", "Nets, clocks and programs that are started".
#![tactic(auto)]

mod disk;
mod log;
mod nets;
mod slots;
mod stops;
mod streams;

use pg_base::cut_at;
use pg_rows::{Answer, play};
use std::alloc::{AllocError, Global};
use std::io;
use std::io::Write;

/// What the call of the row answers.
fn answer(alloc: Global, row: &[u8], out: &mut Answer) -> Result<(), AllocError> {
    let (verb, rest) = cut_at(row, b' ').unwrap_or((row, b""));
    match verb {
        b"source" => streams::source(alloc, rest, out),
        b"sink" => streams::sink(alloc, rest, out),
        b"disk" => play(alloc, &mut disk::Files::new(alloc), rest, out),
        b"log" => play(alloc, &mut log::Opened::new(alloc), rest, out),
        b"slots" => play(alloc, &mut slots::Slots::new(alloc), rest, out),
        b"net" => play(alloc, &mut nets::Packets::new(alloc), rest, out),
        b"clock" => nets::clock(alloc, rest, out),
        b"programs" => play(alloc, &mut nets::Started::new(alloc), rest, out),
        _ => {
            out.unread();
            Ok(())
        }
    }
}

fn main(rt: HostRuntime) -> io::Result<()> {
    for line in rt.lines(rt.alloc()) {
        let line = line?;
        let mut out = Answer::new(rt.alloc());
        answer(rt.alloc(), line.as_bytes(), &mut out)?;
        out.push(b'\n');
        rt.stdout().write_all(out.end()?.as_slice())?;
    }
    Ok(())
}
