//! What meters are shown of an event.

ghost use Rattle.std.specs.Prelude.{◌≡◌};
ghost use Rattle.pg_meter.specs.Note.{all_body_bytes, body_bytes, cell_bytes, note_of};

use pg_entries::Cell;
use pg_event::Entry;
use pg_msg::{Message, Sent};

/// What an event had of each thing that is counted.
#[derive(Clone, Copy, Debug, PartialEq, Eq)]
pub struct Note {
    /// The messages that were sent.
    pub packets: u64,
    /// The bytes of bodies in them.
    pub body_bytes: u64,
    /// The bodies that came where their version was covered before.
    pub repeats: u64,
}

impl Note {
    /// The note of an entry, in whose event so many bodies came where their version was covered
    /// before.
    pub fn new(entry: &Entry, repeats: u64) -> Note
        ensures { result ≡ note_of entry.now repeats }
    {
        let sent = entry.sent.as_slice();
        Note {
            packets: sent.len() as u64,
            body_bytes: all_body_bytes(sent),
            repeats,
        }
    }
}

fn cell_bytes(cell: &Cell) -> usize
    ensures { result ≡ cell_bytes cell.now }
{
    match cell {
        Cell::Version(version) => version.body().len(),
        Cell::Place(_) | Cell::Flag(_) | Cell::Entry(_, _) => 0,
    }
}

/// How many bytes of a body a message has.
fn body_bytes(message: &Message) -> usize
    ensures { result ≡ body_bytes message.now }
{
    match message {
        Message::Cell { cell, .. } => cell_bytes(cell),
        Message::Delta { delta, .. } => delta.get().ranges.bytes_of_parts(),
        Message::Piece { piece, .. } => piece.get().bytes.len(),
        _ => 0,
    }
}

/// How many bytes of bodies these messages have: where they are more, the greatest `u64`.
fn all_body_bytes(sent: &[Sent]) -> u64
    ensures { result ≡ all_body_bytes sent.now }
{
    let mut total = 0u64;
    for message in sent {
        total = total.saturating_add(body_bytes(&message.packet.message) as u64);
    }
    total
}
