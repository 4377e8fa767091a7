//! The parts of the picture as SVG.

ghost use Rattle.std.specs.Prelude.{◌≡◌, ◌++◌, OnOk};
ghost use Rattle.pg_svg.specs.Shapes.{end_label, end_word, kind_word, label_at, left_back, left_front, left_label, leg_label, leg_text, mark_text, note_front, note_text, note_word, right_back, right_front, right_label, row_line, row_number, row_text, server_line, server_name, server_text, text_end};

use crate::escaped::write_escaped;
use crate::label::{label_len, label_text};
use crate::scale::{Scale, leg_end, leg_start, x_of, y_of};
use pg_base::{Bytes, NodeId};
use pg_msg::Summary;
use pg_picture::{Leg, LegEnd, Mark, MarkKind, Note};
use std::alloc::{AllocError, Global};

fn end_word(end: LegEnd) -> &'static str
    ensures { result.now ≡ end_word end }
{
    match end {
        LegEnd::Delivered => "delivered",
        LegEnd::Lost => "lost",
        LegEnd::Fallen => "lost",
        LegEnd::Copied => "copied",
        LegEnd::UnderWay => "under-way",
    }
}

fn kind_word(kind: MarkKind) -> &'static str
    ensures { result.now ≡ kind_word kind }
{
    match kind {
        MarkKind::Call => "call",
        MarkKind::Refused => "refused",
        MarkKind::Tick => "tick",
        MarkKind::Deliver => "deliver",
        MarkKind::Lose => "lose",
        MarkKind::Repeat => "repeat",
        MarkKind::Restart => "restart",
        MarkKind::Remove => "remove",
        MarkKind::Void => "void",
        MarkKind::Asked => "asked",
    }
}

/// Writes a piece of a message's way.
#[tactic(auto, unfolding(crate::specs::Shapes::leg_text))]
pub(crate) fn write_leg(half: u16, leg: &Leg, out: &mut Bytes) -> Result<(), AllocError>
    ensures { OnOk result (out.new ≡ out.old ++ leg_text half leg.now) }
{
    let word = end_word(leg.end);
    let from = leg_start(half, leg);
    let to = leg_end(half, leg);
    let top = y_of(leg.message.since);
    let bottom = y_of(leg.until);
    write!(
        out,
        "<path class=\"{word}\" d=\"M{from} {top}L{to} {bottom}\"/>\n"
    )
}

/// Ends a text.
#[tactic(auto, unfolding(crate::specs::Shapes::text_end))]
fn write_text_end(out: &mut Bytes) -> Result<(), AllocError>
    ensures { OnOk result (out.new ≡ out.old ++ text_end) }
{
    out.extend(b"</text>\n")
}

/// Writes the white behind a label on the left.
#[tactic(auto, unfolding(crate::specs::Shapes::left_back))]
fn write_left_back(x: u64, y: u64, width: u64, out: &mut Bytes) -> Result<(), AllocError>
    ensures { OnOk result (out.new ≡ out.old ++ left_back x y width) }
{
    write!(
        out,
        "<path class=\"back\" d=\"M{x} {y}m-6-2h-{width}v-11h{width}z\"/>"
    )
}

/// Begins a label on the left.
#[tactic(auto, unfolding(crate::specs::Shapes::left_front))]
fn write_left_front(x: u64, y: u64, out: &mut Bytes) -> Result<(), AllocError>
    ensures { OnOk result (out.new ≡ out.old ++ left_front x y) }
{
    write!(
        out,
        "<text class=\"left\" dx=\"-8\" dy=\"-4\" x=\"{x}\" y=\"{y}\">"
    )
}

#[tactic(auto, unfolding(crate::specs::Shapes::left_label))]
fn write_left_label(
    x: u64,
    y: u64,
    width: u64,
    text: &[u8],
    out: &mut Bytes,
) -> Result<(), AllocError>
    ensures { OnOk result (out.new ≡ out.old ++ left_label x y width text.now) }
{
    write_left_back(x, y, width, out)?;
    write_left_front(x, y, out)?;
    write_escaped(text, out)?;
    write_text_end(out)
}

/// Writes the white behind a label on the right.
#[tactic(auto, unfolding(crate::specs::Shapes::right_back))]
fn write_right_back(x: u64, y: u64, width: u64, out: &mut Bytes) -> Result<(), AllocError>
    ensures { OnOk result (out.new ≡ out.old ++ right_back x y width) }
{
    write!(
        out,
        "<path class=\"back\" d=\"M{x} {y}m6-2h{width}v-11h-{width}z\"/>"
    )
}

/// Begins a label on the right.
#[tactic(auto, unfolding(crate::specs::Shapes::right_front))]
fn write_right_front(x: u64, y: u64, out: &mut Bytes) -> Result<(), AllocError>
    ensures { OnOk result (out.new ≡ out.old ++ right_front x y) }
{
    write!(out, "<text dx=\"8\" dy=\"-4\" x=\"{x}\" y=\"{y}\">")
}

#[tactic(auto, unfolding(crate::specs::Shapes::right_label))]
fn write_right_label(
    x: u64,
    y: u64,
    width: u64,
    text: &[u8],
    out: &mut Bytes,
) -> Result<(), AllocError>
    ensures { OnOk result (out.new ≡ out.old ++ right_label x y width text.now) }
{
    write_right_back(x, y, width, out)?;
    write_right_front(x, y, out)?;
    write_escaped(text, out)?;
    write_text_end(out)
}

/// Writes what a message is, on white, behind this place as seen from where the message comes.
fn write_label_at(
    alloc: Global,
    x: u64,
    y: u64,
    summary: &Summary,
    out: &mut Bytes,
) -> Result<(), AllocError>
    ensures { OnOk result (out.new ≡ out.old ++ label_at x y summary.now) }
{
    let text = label_text(alloc, summary)?;
    let width = 6 * u64::from(label_len(alloc, summary)?) + 4;
    if summary.to < summary.from {
        write_left_label(x, y, width, text.as_slice(), out)
    } else {
        write_right_label(x, y, width, text.as_slice(), out)
    }
}

/// Writes what the message is, at the end of a piece of its way that it does not go on from.
#[tactic(auto, unfolding(crate::specs::Shapes::leg_label))]
pub(crate) fn write_leg_label(
    alloc: Global,
    half: u16,
    leg: &Leg,
    out: &mut Bytes,
) -> Result<(), AllocError>
    ensures { OnOk result (out.new ≡ out.old ++ leg_label half leg.now) }
{
    match leg.end {
        LegEnd::Copied => Ok(()),
        _ => write_label_at(
            alloc,
            leg_end(half, leg),
            y_of(leg.until),
            &leg.message.summary,
            out,
        ),
    }
}

/// Writes the mark of an event.
#[tactic(auto, unfolding(crate::specs::Shapes::mark_text))]
pub(crate) fn write_mark(half: u16, mark: &Mark, out: &mut Bytes) -> Result<(), AllocError>
    ensures { OnOk result (out.new ≡ out.old ++ mark_text half mark.now) }
{
    let word = kind_word(mark.kind);
    let x = x_of(half, mark.server);
    let y = y_of(mark.height);
    write!(out, "<use href=\"#{word}\" x=\"{x}\" y=\"{y}\"/>\n")
}

#[tactic(auto, unfolding(crate::specs::Shapes::row_number))]
fn write_row_number(mark: &Mark, out: &mut Bytes) -> Result<(), AllocError>
    ensures { OnOk result (out.new ≡ out.old ++ row_number mark.now) }
{
    let line = mark.line;
    let y = y_of(mark.height);
    write!(
        out,
        "<text class=\"left\" dy=\"3\" x=\"42\" y=\"{y}\">{line}</text>"
    )
}

#[tactic(auto, unfolding(crate::specs::Shapes::row_line))]
fn write_row_line(notes: u64, y: u64, out: &mut Bytes) -> Result<(), AllocError>
    ensures { OnOk result (out.new ≡ out.old ++ row_line notes y) }
{
    write!(out, "<path class=\"row\" d=\"M46 {y}H{notes}\"/>\n")
}

/// Writes the row of an event.
#[tactic(auto, unfolding(crate::specs::Shapes::row_text))]
pub(crate) fn write_row(notes: u64, mark: &Mark, out: &mut Bytes) -> Result<(), AllocError>
    ensures { OnOk result (out.new ≡ out.old ++ row_text notes mark.now) }
{
    write_row_number(mark, out)?;
    write_row_line(notes, y_of(mark.height), out)
}

fn note_word(refused: bool) -> &'static str
    ensures { result.now ≡ note_word refused }
{
    if refused { "refused" } else { "told" }
}

/// Begins a note.
#[tactic(auto, unfolding(crate::specs::Shapes::note_front))]
fn write_note_front(word: &str, notes: u64, y: u64, out: &mut Bytes) -> Result<(), AllocError>
    ensures { OnOk result (out.new ≡ out.old ++ note_front word.now notes y) }
{
    write!(
        out,
        "<text dx=\"6\" dy=\"3\" class=\"{word}\" x=\"{notes}\" y=\"{y}\">"
    )
}

/// Writes a note.
#[tactic(auto, unfolding(crate::specs::Shapes::note_text))]
pub(crate) fn write_note(notes: u64, note: &Note, out: &mut Bytes) -> Result<(), AllocError>
    ensures { OnOk result (out.new ≡ out.old ++ note_text notes note.now) }
{
    write_note_front(note_word(note.refused), notes, y_of(note.height), out)?;
    write_escaped(note.text.as_slice(), out)?;
    write_text_end(out)
}

#[tactic(auto, unfolding(crate::specs::Shapes::server_name))]
fn write_server_name(x: u64, server: NodeId, out: &mut Bytes) -> Result<(), AllocError>
    ensures { OnOk result (out.new ≡ out.old ++ server_name x server) }
{
    write!(
        out,
        "<text class=\"middle\" y=\"118\" x=\"{x}\">server {server}</text>"
    )
}

#[tactic(auto, unfolding(crate::specs::Shapes::server_line))]
fn write_server_line(x: u64, height: u64, out: &mut Bytes) -> Result<(), AllocError>
    ensures { OnOk result (out.new ≡ out.old ++ server_line x height) }
{
    write!(out, "<path class=\"server\" d=\"M{x} 122V{height}\"/>\n")
}

/// Writes a server's line, with its name above.
#[tactic(auto, unfolding(crate::specs::Shapes::server_text))]
pub(crate) fn write_server(scale: &Scale, server: NodeId, out: &mut Bytes) -> Result<(), AllocError>
    ensures { OnOk result (out.new ≡ out.old ++ server_text scale.now server) }
{
    let x = x_of(scale.half, server);
    write_server_name(x, server, out)?;
    write_server_line(x, scale.height, out)
}
