//! What a journal tells of one event.

use crate::packet::sent;
use crate::row::{put, text, unread};
use pg_base::{Bytes, Items, cut_at, number};
use pg_event::{Entry, Event, read_void};
use pg_journal_lines::read_reply;
use pg_msg::read_update;
use pg_packet_read::read_packet;
use pg_packet_write::Content;
use pg_rows::Answer;
use pg_sched::{Form, Line, read_line};
use pg_trace::{write_entry, write_head};
use pg_words::first_words;
use std::alloc::{AllocError, Global};

/// An entry of the event alone.
fn entry_of(alloc: Global, event: Event) -> Entry {
    Entry {
        event,
        void: None,
        reply: None,
        made: Items::new(alloc),
        sent: Items::new(alloc),
    }
}

/// The message that the packet carries.
fn add_sent(alloc: Global, row: &[u8], entry: &mut Entry) -> Result<(), AllocError> {
    let bytes = text(alloc, row)?;
    if let Ok(packet) = read_packet(alloc, bytes.as_slice()) {
        if let Content::Message(message) = &packet.content {
            entry.sent.push(sent(packet.from, packet.view, message)?)?;
        }
    }
    Ok(())
}

/// `void CAUSE`, `reply TEXT`, `made TEXT` or `sent PACKET`.
fn add(alloc: Global, part: &[u8], entry: &mut Entry) -> Result<(), AllocError> {
    let (what, rest) = cut_at(part, b' ').unwrap_or((part, b""));
    let mut room = [b"".as_slice(); 13];
    let count = first_words(rest, &mut room);
    let words = &room[..count];
    match what {
        b"void" => entry.void = read_void(rest),
        b"reply" => entry.reply = read_reply(alloc, words)?,
        b"made" => {
            if let Some(update) = read_update(alloc, words)? {
                entry.made.push(update)?;
            }
        }
        _ => add_sent(alloc, rest, entry)?,
    }
    Ok(())
}

/// The parts, with a bar between two of them.
fn add_all(alloc: Global, parts: &[u8], entry: &mut Entry) -> Result<(), AllocError> {
    for part in parts.split(|byte| *byte == b'|') {
        add(alloc, part, entry)?;
    }
    Ok(())
}

/// The number and the form.
fn head_of(row: &[u8]) -> Option<(u64, Form, &[u8])> {
    let (line, rest) = cut_at(row, b' ')?;
    let (form, rest) = cut_at(rest, b' ')?;
    let form = match form {
        b"full" => Form::Full,
        b"short" => Form::Short,
        _ => return None,
    };
    Some((number(line)?, form, rest))
}

/// What a journal in this form tells of the line with this number, and of what came of it.
fn write_told(
    number: u64,
    form: Form,
    line: &Line,
    entry: &Entry,
    text: &mut Bytes,
) -> Result<(), AllocError> {
    write_head(number, form, line, text)?;
    write_entry(number, form, entry, text)
}

/// The event of a schedule's line; nothing where the text spells no such line.
fn event_in(alloc: Global, text: &[u8]) -> Result<Option<Event>, AllocError> {
    match read_line(alloc, text)? {
        Some(Line::Happens(event)) => Ok(Some(event)),
        _ => Ok(None),
    }
}

/// An entry of the event, with these parts.
fn entry_with(alloc: Global, event: Event, parts: &[u8]) -> Result<Entry, AllocError> {
    let mut entry = entry_of(alloc, event);
    add_all(alloc, parts, &mut entry)?;
    Ok(entry)
}

/// What a journal in this form tells of the event with this number, and of these parts.
fn told(
    alloc: Global,
    number: u64,
    form: Form,
    event: Event,
    parts: &[u8],
) -> Result<Bytes, AllocError> {
    let entry = entry_with(alloc, event.copy()?, parts)?;
    let line = Line::Happens(event);
    let mut text = Bytes::new(alloc);
    write_told(number, form, &line, &entry, &mut text)?;
    Ok(text)
}

/// `entry NUMBER FORM LINE|PART|..`: what a journal in this form tells of the line with this
/// number, and of what came of it.
pub fn entry(alloc: Global, row: &[u8], out: &mut Answer) -> Result<(), AllocError> {
    let Some((number, form, rest)) = head_of(row) else {
        unread(out);
        return Ok(());
    };
    let (first, parts) = cut_at(rest, b'|').unwrap_or((rest, b""));
    let Some(event) = event_in(alloc, first)? else {
        unread(out);
        return Ok(());
    };
    let text = told(alloc, number, form, event, parts)?;
    put(text.as_slice(), out);
    Ok(())
}
