//! Tests of what no line of a program of rows can say: streams that fail in their middle, how the
//! program that draws pictures ends, and files, sockets, the clock and programs of the system.
//!
//! The things in memory that stand for these are tried by `pg_disk_rows`, which has a line for each
//! call that fails. Here each real thing is called once through the same trait, and each of its
//! calls that can fail fails once.
//!
//! - `streams`: a source or a sink that fails in mid-stream, and what was taken and written then;
//! - `files`: the system's files behind `Disk`, in a folder of the test's own;
//! - `outside`: packets between two sockets of this machine, the clock, and programs that are
//!   started;
//! - `draw`: how drawing a picture ends, with each status;
//! - `commands`: what each command of the program does with streams, a net and a disk in memory,
//!   and with the meters that are handed in, of which each is dropped once.
//!
//! Nothing is proved here that a contract says: the adapters' contracts tell nothing of content, so
//! that they do what they are for is shown by these tests alone. The rules: docs/RULES.md, "Sources
//! and sinks", "Disks", "Nets, clocks and programs that are started".
#![tactic(auto)]

#[cfg(test)]
mod commands;
#[cfg(test)]
mod draw;
#[cfg(test)]
mod files;
#[cfg(test)]
mod outside;
#[cfg(test)]
mod streams;
