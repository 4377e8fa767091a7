//! Made schedules, and what is counted of runs.

use pg_base::{Bytes, cut_at};
use pg_event::read_meter_kind;
use pg_make::schedule;
use pg_meter::{Counter, Meter, Meters, Note, hand_in, read, see_all};
use pg_rows::{Answer, narrow, wide, words_of};
use rand_core::utils::NextWord;
use rand_pcg::Pcg32;
use std::alloc::{AllocError, Global};

/// `words STATE STREAM`: the first four words of the generator.
pub fn words(words: &[&[u8]], out: &mut Answer) {
    let mut generator = Pcg32::new(wide(words, 0), wide(words, 1));
    for _ in 0..4 {
        write!(out, "{} ", generator.next_word());
    }
}

/// `make SEED SERVERS EVENTS`: the made schedule, behind a line of its own.
pub fn make(alloc: Global, words: &[&[u8]], out: &mut Answer) -> Result<(), AllocError> {
    let servers = narrow(words, 1);
    let events = wide(words, 2);
    if servers < 1 || servers > 64 || events > 1_000_000 {
        out.unread();
        return Ok(());
    }
    let mut text = Bytes::new(alloc);
    schedule(alloc, wide(words, 0), servers, events, &mut text)?;
    out.put(b"schedule:\n");
    out.put(text.as_slice());
    Ok(())
}

/// What the words `PACKETS BODIES REPEATS` say of an event.
fn note(words: &[&[u8]]) -> Note {
    Note {
        packets: wide(words, 0),
        body_bytes: wide(words, 1),
        repeats: wide(words, 2),
    }
}

/// What each meter has counted.
fn show(meters: &Meters, out: &mut Answer) {
    for slot in meters.iter() {
        if let Some(meter) = slot {
            let reading = read(meter);
            write!(out, "{} {} ", reading.kind, reading.value);
        }
    }
}

/// `meters KIND..|PACKETS BODIES REPEATS|..`: what each meter counted behind each event.
pub fn meters(alloc: Global, row: &[u8], out: &mut Answer) -> Result<(), AllocError> {
    let (kinds, notes) = cut_at(row, b'|').unwrap_or((row, b""));
    let mut meters: Vec<Box<dyn Meter>> = Vec::new(alloc);
    for word in kinds.split(|byte| *byte == b' ') {
        if let Some(kind) = read_meter_kind(word) {
            meters.push(Box::new(alloc, Counter::new(kind))?)?;
        }
    }
    let mut meters = hand_in(alloc, meters)?;
    for piece in notes.split(|byte| *byte == b'|') {
        see_all(&mut meters, &note(&words_of(alloc, piece)?));
        show(&meters, out);
    }
    Ok(())
}
