//! Rows: each line of the input is a text, and each line of the output is what was read of it,
//! printed again, or why it is none.
//!
//! A row is a verb, as `call`, `journal`, `packet` or `state`, and a text: `row` says how it
//! spells bytes that a line cannot have, and the other modules which reader and which printer each
//! verb calls. Each row says what its text must be read and printed as: as itself (of a long text
//! only its length is shown), or not at all, with the cause and the place that docs/FORMATS.md
//! gives. What a packet says is shown as a journal would tell it.
//!
//! This crate stands above all readers and printers of texts and packets, and has no rules of its
//! own. It opens nothing but its own input and output. The lines are pairs, `stdin` and `stdout`: a
//! line that is added to the one has its answer, from docs/FORMATS.md and never from this program,
//! on the same line of the other.
//!
//! A new kind of text: how it is read and printed (`Spelled`) in the module of its subject, and one
//! line below. What needs a stream that fails in its middle, or memory that runs out, no line can
//! say: that is a test of `pg_fault_tests`.
#![tactic(auto)]

mod entry;
mod lines;
mod packet;
mod row;
mod state;
mod texts;
mod values;
mod words;

use crate::lines::Journal;
use crate::row::again;
use pg_base::cut_at;
use pg_call::{Call, Refusal, Reply};
use pg_event::Quiet;
use pg_rows::Answer;
use pg_sched::{Line, Schedule};
use std::alloc::{AllocError, Global};
use std::io;
use std::io::Write;

/// What is read of a text, printed again.
fn read_again(alloc: Global, verb: &[u8], text: &[u8], out: &mut Answer) -> Result<(), AllocError> {
    match verb {
        b"call" => again::<Call>(alloc, text, out),
        b"refusal" => again::<Refusal>(alloc, text, out),
        b"reply" => again::<Reply>(alloc, text, out),
        b"end" => again::<Quiet>(alloc, text, out),
        b"schedule" => again::<Schedule>(alloc, text, out),
        b"line" => again::<Line>(alloc, text, out),
        b"journal" => again::<Journal>(alloc, text, out),
        b"entry" => entry::entry(alloc, text, out),
        b"packet" => packet::packet(alloc, text, out),
        b"state" => state::state(alloc, text, out),
        b"hex" => words::hex(alloc, text, out),
        b"words" => words::words(alloc, text, out),
        _ => {
            row::unread(out);
            Ok(())
        }
    }
}

/// What the row answers.
fn answer(alloc: Global, row: &[u8], out: &mut Answer) -> Result<(), AllocError> {
    let (verb, rest) = cut_at(row, b' ').unwrap_or((row, b""));
    match verb {
        b"statuses" => values::statuses(out),
        b"slot" => values::slot(rest, out),
        b"back" => values::back(rest, out),
        b"work" => values::work(alloc, rest, out),
        _ => return read_again(alloc, verb, rest, out),
    }
    Ok(())
}

fn main(rt: HostRuntime) -> io::Result<()> {
    for line in rt.lines(rt.alloc()) {
        let line = line?;
        let mut out = Answer::new(rt.alloc());
        answer(rt.alloc(), line.as_bytes(), &mut out)?;
        out.push(b'\n');
        rt.stdout().write_all(out.end()?.as_slice())?;
    }
    Ok(())
}
