//! A run as a picture.
//!
//! The program reads a journal in full form from standard input and writes an SVG picture of the
//! run to standard output: a line for each server, time downwards, an arrow for each message that
//! arrived. What is drawn, and with which statuses it ends, stands in `pg_draw`, whose `run` has
//! the contract; `pg_picture` says what a picture shows of a journal, `pg_svg` how it is written.
//!
//! Here stands `main` alone: it gathers the words, hands in the streams of the system, tells a
//! fault on standard error, and ends with the status. It takes no word.
//!
//! docs/FORMATS.md, "Pictures", has the statuses and what is drawn; `docs/pictures` has pictures of
//! the examples, which `examples/pictures` compares.
#![tactic(auto)]

use pg_draw::{Ending, run};
use pg_io::{Reading, Writing};
use std::alloc::AllocError;
use std::io::ErrorKind;
use std::process::ExitCode;
use std::{env, io};

fn words(rt: &HostRuntime) -> io::Result<Vec<String>> {
    let mut words = Vec::new(rt.alloc());
    for word in env::args(rt)? {
        words.push(word).map_err(AllocError::from)?;
    }
    Ok(words)
}

/// How the program ends where its words could not be had. Which word is no text is not known, so it
/// is told as word 1.
fn wordless(error: &io::Error) -> Ending {
    match error.kind() {
        ErrorKind::InvalidData => Ending::Usage(1),
        _ => Ending::OutOfMemory,
    }
}

fn main(rt: HostRuntime) -> ExitCode {
    let ending = match words(&rt) {
        Ok(words) => {
            let mut source = Reading::new(rt.stdin());
            let mut sink = Writing::new(rt.stdout());
            run(rt.alloc(), &words, &mut source, &mut sink)
        }
        Err(error) => wordless(&error),
    };
    if ending != Ending::Done {
        let _ = eprintln!(rt; "pangaea_draw: {ending}");
    }
    if let Ending::Usage(_) = ending {
        let _ = eprintln!(rt; "usage: pangaea_draw < JOURNAL");
    }
    ExitCode::from(ending.number())
}
