//! Rows: each line of the input is a call of a small library, or some, and the same line of the
//! output is what it answers.
//!
//! A row is a verb, as `flags`, `entries` or `edges`, and words behind it. Most have pieces, with a
//! bar between two of them, that are done one after another on one thing, and an answer for each
//! piece: so a row tells a short story of a list of flags or of what a server intends. The module
//! of each subject says which words a verb wants.
//!
//! The lines are pairs, `stdin` and `stdout`: a line that is added to the one has its answer, from
//! docs/RULES.md, docs/FORMATS.md or a computation outside and never from this program, on the same
//! line of the other. Only `make` answers with more than one line, a whole schedule and an empty
//! line.
//!
//! This crate stands above what pieces of replicas are made of, and has no rules of its own. What
//! contents are made of has `pg_content_rows`, what reads and prints texts `pg_text_rows`, what
//! stands for the outside `pg_disk_rows`; what no line can say is a test of `pg_fault_tests`.
//!
//! A new verb: a function of a row and an output in the module of its subject, and one line below.
#![tactic(auto)]

mod edges;
mod entries;
mod fields;
mod flags;
mod intents;
mod lookup;
mod path;
mod runs;

use pg_base::{Bytes, cut_at};
use pg_rows::{Answer, words_of};
use std::alloc::{AllocError, Global};
use std::io;
use std::io::Write;

/// What is answered of names, places, keys, intentions and walks.
fn small(alloc: Global, verb: &[u8], words: &[&[u8]], out: &mut Answer) -> Result<(), AllocError> {
    match verb {
        b"blank" => return path::blank(alloc, words, out),
        b"target" => return intents::target(alloc, words, out),
        b"tree" => return lookup::tree(alloc, words, out),
        b"make" => return runs::make(alloc, words, out),
        b"order" => edges::order(words, out),
        b"words" => runs::words(words, out),
        _ => out.unread(),
    }
    Ok(())
}

/// What the call of the row answers.
fn answer(alloc: Global, verb: &[u8], rest: &[u8], out: &mut Answer) -> Result<(), AllocError> {
    match verb {
        b"name" => path::name(alloc, rest, out),
        b"path" => path::path(alloc, rest, out),
        b"flags" => flags::flags(alloc, rest, out),
        b"entries" => entries::entries(alloc, rest, out),
        b"keys" => edges::keys(alloc, rest, out),
        b"edges" => edges::edges(alloc, rest, out),
        b"intents" => intents::intents(alloc, rest, out),
        b"kinds" => intents::kinds(alloc, rest, out),
        b"fields" => fields::fields(alloc, rest, out),
        b"meters" => runs::meters(alloc, rest, out),
        b"place" => {
            path::place(rest, out);
            Ok(())
        }
        _ => small(alloc, verb, &words_of(alloc, rest)?, out),
    }
}

/// The line that answers the row.
fn answer_line(alloc: Global, row: &[u8]) -> Result<Bytes, AllocError> {
    let (verb, rest) = cut_at(row, b' ').unwrap_or((row, b""));
    let mut out = Answer::new(alloc);
    answer(alloc, verb, rest, &mut out)?;
    out.push(b'\n');
    out.end()
}

fn main(rt: HostRuntime) -> io::Result<()> {
    for line in rt.lines(rt.alloc()) {
        let line = line?;
        let text = answer_line(rt.alloc(), line.as_bytes())?;
        rt.stdout().write_all(text.as_slice())?;
    }
    Ok(())
}
