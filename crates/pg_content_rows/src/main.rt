//! Rows: each line of the input is a call of what contents of files are made of, or some, and the
//! same line of the output is what it answers.
//!
//! A row is a verb, as `stamp`, `range` or `content`, and words behind it. Most have pieces, with a
//! bar between two of them, that are done one after another on one thing, and an answer for each
//! piece: so a row tells a short story of a content or of deltas that are kept. The module of each
//! subject says which words a verb wants.
//!
//! The lines are pairs, `stdin` and `stdout`: a line that is added to the one has its answer, from
//! docs/RULES.md, docs/FORMATS.md or a computation outside and never from this program, on the same
//! line of the other.
//!
//! This crate stands above ids, vectors, changes, contents and deltas, and has no rules of its own;
//! the other pieces of replicas have `pg_leaf_rows`. What no line can say is a test of
//! `pg_fault_tests`.
//!
//! A new verb: a function of a row and an output in the module of its subject, and one line below.
#![tactic(auto)]

mod base;
mod contents;
mod deltas;
mod patch;

use pg_base::cut_at;
use pg_rows::{Answer, words_of};
use std::alloc::{AllocError, Global};
use std::io;
use std::io::Write;

/// What the call of the row answers.
fn answer(alloc: Global, verb: &[u8], rest: &[u8], out: &mut Answer) -> Result<(), AllocError> {
    match verb {
        b"range" => return patch::range(alloc, rest, out),
        b"content" => return contents::content(alloc, rest, out),
        b"deltas" => return deltas::deltas(alloc, rest, out),
        b"id" => base::id(rest, out),
        _ => return small(alloc, verb, &words_of(alloc, rest)?, out),
    }
    Ok(())
}

/// What is answered of stamps, vectors, versions and bytes.
fn small(alloc: Global, verb: &[u8], words: &[&[u8]], out: &mut Answer) -> Result<(), AllocError> {
    match verb {
        b"vector" => return base::vector(alloc, words, out),
        b"version" => return base::version(alloc, words, out),
        b"bytes" => return base::bytes(alloc, words, out),
        b"stamp" => base::stamp(words, out),
        _ => out.unread(),
    }
    Ok(())
}

fn main(rt: HostRuntime) -> io::Result<()> {
    for line in rt.lines(rt.alloc()) {
        let line = line?;
        let mut out = Answer::new(rt.alloc());
        let (verb, rest) = cut_at(line.as_bytes(), b' ').unwrap_or((line.as_bytes(), b""));
        answer(rt.alloc(), verb, rest, &mut out)?;
        out.push(b'\n');
        rt.stdout().write_all(out.end()?.as_slice())?;
    }
    Ok(())
}
