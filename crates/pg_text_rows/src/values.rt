//! Ends of commands, slots, the ends of edges, and what an event begins with.

use crate::row::unread;
use pg_base::{cut_at, number, number_u32};
use pg_call::Fault;
use pg_event::Status;
use pg_msg::{Ends, Slot, Work};
use pg_rows::Answer;
use pg_words::{first_words, read_id};
use std::alloc::Global;

/// How a command may end.
const STATUSES: [Status; 10] = [
    Status::Done,
    Status::Usage(2),
    Status::ReadFault,
    Status::WriteFault,
    Status::NetFault,
    Status::InputLong,
    Status::BadLine(7, Fault::Verb),
    Status::TurnsSpent,
    Status::Refused(3),
    Status::OutOfMemory,
];

/// `statuses`: how a command may end, each with its number.
pub fn statuses(out: &mut Answer) {
    for status in STATUSES {
        write!(out, "{} {status}; ", status.number());
    }
}

/// `DIR CHILD`
fn slot_of(words: &[&[u8]]) -> Option<Slot> {
    let [dir, child] = words else {
        return None;
    };
    Some(Slot {
        dir: read_id(dir)?,
        child: read_id(child)?,
    })
}

/// `slot DIR CHILD DIR CHILD`: whether the first stands before the second.
pub fn slot(row: &[u8], out: &mut Answer) {
    let mut room = [b"".as_slice(); 4];
    let count = first_words(row, &mut room);
    if count < 4 {
        unread(out);
        return;
    }
    match (slot_of(&room[..2]), slot_of(&room[2..])) {
        (Some(first), Some(second)) if first < second => out.put(b"before"),
        (Some(_), Some(_)) => out.put(b"not before"),
        _ => unread(out),
    }
}

/// `FILE SENDER RECEIVER`
fn ends_of(row: &[u8]) -> Option<Ends> {
    let (file, rest) = cut_at(row, b' ')?;
    let (sender, receiver) = cut_at(rest, b' ')?;
    Some(Ends {
        file: read_id(file)?,
        sender: number(sender)?,
        receiver: number(receiver)?,
    })
}

fn show(ends: &Ends, out: &mut Answer) {
    write!(out, "{} {} {}", ends.file, ends.sender, ends.receiver);
}

/// `back FILE SENDER RECEIVER`: the way back along the edge, and the way back along that.
pub fn back(row: &[u8], out: &mut Answer) {
    let Some(ends) = ends_of(row) else {
        unread(out);
        return;
    };
    show(&ends.back(), out);
    out.put(b"; ");
    show(&ends.back().back(), out);
}

/// `work MOMENT SERVER`: what an event at this moment of this server begins with.
pub fn work(alloc: Global, row: &[u8], out: &mut Answer) {
    let (moment, server) = cut_at(row, b' ').unwrap_or((row, b""));
    let (Some(moment), Some(server)) = (number(moment), number_u32(server)) else {
        unread(out);
        return;
    };
    let work = Work::new(alloc, moment, server);
    let nothing = work.linked.is_empty() && work.left.is_empty();
    let nothing = nothing && work.unsure.is_empty() && work.begun.is_empty();
    write!(out, "at {} of {}, ", work.now, work.from);
    out.put(if nothing {
        b"nothing yet"
    } else {
        b"something"
    });
}
