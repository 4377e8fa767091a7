//! What is written at a message's way, and how wide texts are.

ghost use Rattle.std.specs.Prelude.{◌≡◌, ◌≤◌, IfOk};
ghost use Rattle.pg_svg.specs.Label.{label_len, label_text, note_len, widest_label, widest_note};

use pg_base::Bytes;
use pg_msg::Summary;
use pg_picture::{Leg, Note};
use std::alloc::{AllocError, Global};

/// The most signs that are counted of a message's label, and of a note.
const MOST_IN_LABEL: usize = 90;

const MOST_IN_NOTE: usize = 140;

/// The message's kind, its file and the detail.
pub(crate) fn label_text(alloc: Global, summary: &Summary) -> Result<Bytes, AllocError>
    ensures { IfOk result (λ t. t ≡ label_text summary.now) }
{
    let kind = summary.kind;
    let file = summary.file;
    let detail = summary.detail;
    let mut text = Bytes::new(alloc);
    write!(text, "{kind} {file} {detail}")?;
    Ok(text)
}

/// How many signs of it are counted.
pub(crate) fn label_len(alloc: Global, summary: &Summary) -> Result<u32, AllocError>
    ensures len { IfOk result (λ n. n ≡ label_len summary.now) }
    ensures most { IfOk result (λ n. n ≤ 90) }
{
    let text = label_text(alloc, summary)?;
    Ok(text.len().min(MOST_IN_LABEL) as u32)
}

/// The most signs of a label, or `least` where all have fewer.
pub(crate) fn widest_label(alloc: Global, least: u32, legs: &[Leg]) -> Result<u32, AllocError>
    requires { least ≤ 90 }
    ensures len { IfOk result (λ n. n ≡ widest_label least legs.now) }
    ensures most { IfOk result (λ n. n ≤ 90) }
{
    let mut widest = least;
    for leg in legs {
        widest = widest.max(label_len(alloc, &leg.message.summary)?);
    }
    Ok(widest)
}

fn note_len(note: &Note) -> u32
    ensures len { result ≡ note_len note.now }
    ensures most { result ≤ 140 }
{
    note.text.len().min(MOST_IN_NOTE) as u32
}

/// The most signs of a note.
pub(crate) fn widest_note(notes: &[Note]) -> u32
    ensures len { result ≡ widest_note 0 notes.now }
    ensures most { result ≤ 140 }
{
    let mut widest = 0;
    for note in notes {
        widest = widest.max(note_len(note));
    }
    widest
}
