//! Pangaea: what its servers do, replayed from a schedule, and done by nodes that run.
//!
//! `command` has `run`, with all that is promised: what the words ask for is done by `pg_program`,
//! a module a command, and the laws of all runs are told with it. `citing` joins these: what each
//! stands on the others say. What words ask for, and which is at fault, `pg_command` says;
//! `pg_advice` says what to do about it.
//!
//! `main` alone touches the system: it gathers the words, hands in the streams, the net of this
//! machine, its files, its clock and one meter of each kind, and ends with the status. A node's
//! files stand in the folder where the program was called, under the node's name.
//!
//! Definitions: `specs/Promises` (what holds of every run), over `AllLaws` and `Joined`;
//! what commands write and do stands in `pg_program/specs`. A further law: see `citing`. A further
//! command: see `pg_program`, and a clause of `run` where it promises what the others do not.
#![tactic(auto)]

mod citing;
mod command;

pub use command::run;
use pg_advice::{advice, name, port};
use pg_disk::FileDisk;
use pg_event::{MeterKind, Status};
use pg_io::{Reading, Writing};
use pg_meter::{Counter, Meter};
use pg_net::{SystemClock, UdpNet};
use std::alloc::AllocError;
use std::io::ErrorKind;
use std::process::ExitCode;
use std::{env, io};

fn words(rt: &HostRuntime) -> io::Result<Vec<String>> {
    let mut words = Vec::new(rt.alloc());
    for word in env::args(rt)? {
        words.push(word).map_err(AllocError::from)?;
    }
    Ok(words)
}

/// How the program ends where its words could not be had. Which word is no text is not known, so
/// it is told as word 1.
fn wordless(error: &io::Error) -> Status {
    match error.kind() {
        ErrorKind::InvalidData => Status::Usage(1),
        _ => Status::OutOfMemory,
    }
}

/// Does what the words ask for, on this machine's net and files, with its clock and one meter of
/// each kind.
fn obey(rt: &HostRuntime, words: &Vec<String>) -> Result<Status, AllocError> {
    let alloc = rt.alloc();
    let mut meters: Vec<Box<dyn Meter>> = Vec::new(alloc);
    for kind in [MeterKind::Packets, MeterKind::Bodies, MeterKind::Repeats] {
        meters.push(Box::new(alloc, Counter::new(kind))?)?;
    }
    let mut source = Reading::new(rt.stdin());
    let mut sink = Writing::new(rt.stdout());
    let mut net = UdpNet::new(rt);
    let mut disk = FileDisk::new(alloc, rt);
    let mut clock = SystemClock::new(rt);
    Ok(run(
        alloc,
        words,
        &mut source,
        &mut sink,
        &mut net,
        &mut disk,
        &mut clock,
        meters,
    ))
}

/// Says on standard error how these words ended, and what to do about it.
fn tell(rt: &HostRuntime, words: &Vec<String>, status: Status) {
    if status != Status::Done {
        let _ = eprintln!(rt; "pangaea: {status}");
    }
    match status {
        Status::NetFault => {
            if let Some(port) = port(words) {
                let _ = eprintln!(rt; "at port {port} of 127.0.0.1");
            }
        }
        Status::DiskFault | Status::BadLog(_) | Status::OtherLog(_, _) => {
            if let Some(name) = name(words) {
                let _ = eprintln!(rt; "at the file {name}.log of this folder");
            }
        }
        _ => {}
    }
    if let Some(advice) = advice(words, status) {
        let _ = eprintln!(rt; "{advice}");
    }
    if let Status::Usage(_) = status {
        let _ = eprintln!(rt; "usage: pangaea replay [--meters] < SCHEDULE");
        let _ = eprintln!(rt; "       pangaea make SEED SERVERS EVENTS");
        let _ = eprintln!(rt; "       pangaea soak SEED SERVERS EVENTS");
        let _ = eprintln!(rt; "       pangaea node SERVER SERVERS PORT NAME TURNS");
        let _ = eprintln!(rt; "       pangaea call SERVER PORT ASKED ..");
        let _ = eprintln!(rt; "       pangaea [COMMAND] --help");
    }
}

fn main(rt: HostRuntime) -> ExitCode {
    let status = match words(&rt) {
        Ok(words) => {
            let status = obey(&rt, &words).unwrap_or(Status::OutOfMemory);
            tell(&rt, &words, status);
            status
        }
        Err(error) => {
            let status = wordless(&error);
            tell(&rt, &Vec::new(rt.alloc()), status);
            status
        }
    };
    ExitCode::from(status.number())
}
