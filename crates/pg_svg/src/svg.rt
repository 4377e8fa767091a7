//! The whole picture.

ghost use Rattle.std.specs.Prelude.{◌≡◌, ◌++◌, OnOk};
ghost use Rattle.pg_svg.specs.Svg.{close_text, head_text, labels_text, legend_text, legs_text, lines_text, marks_text, notes_text, open_text, paper_text, rows_text, servers_text, signs_text, style_text, svg_of, svg_text};

use crate::scale::Scale;
use crate::shapes::{write_leg, write_leg_label, write_mark, write_note, write_row, write_server};
use pg_base::{Bytes, NodeId};
use pg_picture::{Leg, Mark, Note, Sketch};
use std::alloc::{AllocError, Global};

/// How things look, and the signs of ends and marks.
const HEAD: &str = "<style>\
text{font-family:monospace;font-size:10px}\
path{fill:none;stroke:#000}\
.server{stroke:#888}.row{stroke:#ddd}\
.delivered{marker-end:url(#arrow)}\
.lost{stroke:#b00;stroke-dasharray:6 3;marker-end:url(#cross)}\
.copied{marker-end:url(#fork)}\
.under-way{stroke-dasharray:1 3;marker-end:url(#open)}\
.back{fill:#fff;stroke:none}\
.left{text-anchor:end}.middle{text-anchor:middle}\
.refused{fill:#b00;font-style:italic;font-weight:bold}\
.red{stroke:#b00}.solid{fill:#000}.hollow{fill:#fff}\
</style>\n\
<defs>\n\
<marker id=\"arrow\" markerWidth=\"9\" markerHeight=\"8\" refX=\"9\" refY=\"4\" orient=\"auto\" \
markerUnits=\"userSpaceOnUse\"><path class=\"solid\" d=\"M0 1L9 4L0 7Z\"/></marker>\n\
<marker id=\"cross\" markerWidth=\"12\" markerHeight=\"12\" refX=\"6\" refY=\"6\" \
markerUnits=\"userSpaceOnUse\"><path class=\"red\" stroke-width=\"2\" d=\"M2 2L10 10M2 10L10 2\"/></marker>\n\
<marker id=\"fork\" markerWidth=\"10\" markerHeight=\"10\" refX=\"5\" refY=\"5\" \
markerUnits=\"userSpaceOnUse\"><path class=\"hollow\" d=\"M5 1L9 5L5 9L1 5Z\"/></marker>\n\
<marker id=\"open\" markerWidth=\"10\" markerHeight=\"10\" refX=\"5\" refY=\"5\" \
markerUnits=\"userSpaceOnUse\"><path class=\"hollow\" d=\"M5 2A3 3 0 1 1 4.9 2Z\"/></marker>\n\
<path id=\"call\" class=\"solid\" d=\"M-4-4h8v8h-8z\"/>\n\
<path id=\"refused\" class=\"hollow\" style=\"stroke:#b00;stroke-width:1.5\" d=\"M-5-5h10v10h-10zM-5-5l10 10M-5 5l10-10\"/>\n\
<path id=\"tick\" class=\"hollow\" d=\"M-5-4h10l-5 9z\"/>\n\
<path id=\"deliver\" class=\"solid\" d=\"M0-2A2 2 0 1 1-.1-2Z\"/>\n\
<path id=\"lose\" style=\"stroke:#b00;stroke-width:2\" d=\"M-4-4l8 8M-4 4l8-8\"/>\n\
<path id=\"repeat\" class=\"hollow\" d=\"M0-4l4 4l-4 4l-4-4z\"/>\n\
<path id=\"restart\" class=\"hollow\" stroke-width=\"2\" d=\"M0-5A5 5 0 1 1-5 0M0-8v6l3-3z\"/>\n\
<path id=\"remove\" stroke-width=\"3\" d=\"M-9 0h18M-6 4h12\"/>\n\
<path id=\"void\" d=\"M-4 0h8\"/>\n\
<path id=\"asked\" d=\"M0-4v8M-4 0h8\"/>\n\
</defs>\n";

/// What the signs stand for.
const LEGEND: &str = "<use href=\"#call\" x=\"20\" y=\"20\"/>\
<text x=\"34\" y=\"23\">a client's call, with its reply</text>\
<use href=\"#refused\" x=\"330\" y=\"20\"/>\
<text x=\"344\" y=\"23\">refused; its note is bold and slanted</text>\n\
<use href=\"#tick\" x=\"20\" y=\"36\"/><text x=\"34\" y=\"39\">a tick</text>\
<use href=\"#restart\" x=\"110\" y=\"36\"/><text x=\"124\" y=\"39\">a restart</text>\
<use href=\"#remove\" x=\"214\" y=\"36\"/><text x=\"230\" y=\"39\">a removal</text>\
<use href=\"#void\" x=\"330\" y=\"36\"/><text x=\"344\" y=\"39\">void: nothing changes</text>\
<use href=\"#asked\" x=\"520\" y=\"36\"/><text x=\"534\" y=\"39\">what the run shows is asked</text>\n\
<path class=\"delivered\" d=\"M14 52H64\"/>\
<text x=\"74\" y=\"55\">a message, from where it was sent to where it was delivered</text>\n\
<path class=\"lost\" d=\"M14 68H60\"/><text x=\"74\" y=\"71\">lost</text>\
<path class=\"copied\" d=\"M134 68H170\"/>\
<text x=\"184\" y=\"71\">repeated: it goes on, and so does a copy</text>\
<path class=\"under-way\" d=\"M450 68H496\"/><text x=\"510\" y=\"71\">still under way at the end</text>\n\
\
<text x=\"14\" y=\"87\">On the left the number of the schedule's line; on the right what was asked, told, made and shown.</text>\n";

fn write_rows(notes: u64, marks: &[Mark], out: &mut Bytes) -> Result<(), AllocError>
    ensures { OnOk result (out.new ≡ out.old ++ rows_text notes marks.now) }
{
    for mark in marks {
        write_row(notes, mark, out)?;
    }
    Ok(())
}

fn write_servers(scale: &Scale, servers: NodeId, out: &mut Bytes) -> Result<(), AllocError>
    ensures { OnOk result (out.new ≡ out.old ++ servers_text scale.now servers) }
{
    for before in 0..servers {
        write_server(scale, before + 1, out)?;
    }
    Ok(())
}

fn write_legs(half: u16, legs: &[Leg], out: &mut Bytes) -> Result<(), AllocError>
    ensures { OnOk result (out.new ≡ out.old ++ legs_text half legs.now) }
{
    for leg in legs {
        write_leg(half, leg, out)?;
    }
    Ok(())
}

fn write_labels(alloc: Global, half: u16, legs: &[Leg], out: &mut Bytes) -> Result<(), AllocError>
    ensures { OnOk result (out.new ≡ out.old ++ labels_text half legs.now) }
{
    for leg in legs {
        write_leg_label(alloc, half, leg, out)?;
    }
    Ok(())
}

fn write_marks(half: u16, marks: &[Mark], out: &mut Bytes) -> Result<(), AllocError>
    ensures { OnOk result (out.new ≡ out.old ++ marks_text half marks.now) }
{
    for mark in marks {
        write_mark(half, mark, out)?;
    }
    Ok(())
}

fn write_notes(x: u64, notes: &[Note], out: &mut Bytes) -> Result<(), AllocError>
    ensures { OnOk result (out.new ≡ out.old ++ notes_text x notes.now) }
{
    for note in notes {
        write_note(x, note, out)?;
    }
    Ok(())
}

/// Writes how large the picture is.
#[tactic(auto, unfolding(crate::specs::Svg::open_text))]
fn write_open(scale: &Scale, out: &mut Bytes) -> Result<(), AllocError>
    ensures { OnOk result (out.new ≡ out.old ++ open_text scale.now) }
{
    let width = scale.width;
    let height = scale.height;
    write!(
        out,
        "<svg xmlns=\"http://www.w3.org/2000/svg\" width=\"{width}\" height=\"{height}\" viewBox=\"0 0 {width} {height}\">\n"
    )
}

#[tactic(auto, unfolding(crate::specs::Svg::style_text))]
fn write_style(out: &mut Bytes) -> Result<(), AllocError>
    ensures { OnOk result (out.new ≡ out.old ++ style_text) }
{
    out.extend(HEAD.as_bytes())
}

#[tactic(auto, unfolding(crate::specs::Svg::paper_text))]
fn write_paper(scale: &Scale, out: &mut Bytes) -> Result<(), AllocError>
    ensures { OnOk result (out.new ≡ out.old ++ paper_text scale.now) }
{
    let width = scale.width;
    let height = scale.height;
    write!(
        out,
        "<path class=\"back\" d=\"M0 0H{width}V{height}H0z\"/>\n"
    )
}

#[tactic(auto, unfolding(crate::specs::Svg::legend_text))]
fn write_legend(out: &mut Bytes) -> Result<(), AllocError>
    ensures { OnOk result (out.new ≡ out.old ++ legend_text) }
{
    out.extend(LEGEND.as_bytes())
}

#[tactic(auto, unfolding(crate::specs::Svg::head_text))]
fn write_head(scale: &Scale, out: &mut Bytes) -> Result<(), AllocError>
    ensures { OnOk result (out.new ≡ out.old ++ head_text scale.now) }
{
    write_open(scale, out)?;
    write_style(out)?;
    write_paper(scale, out)?;
    write_legend(out)
}

#[tactic(auto, unfolding(crate::specs::Svg::close_text))]
fn write_close(out: &mut Bytes) -> Result<(), AllocError>
    ensures { OnOk result (out.new ≡ out.old ++ close_text) }
{
    out.extend(b"</svg>\n")
}

#[tactic(auto, unfolding(crate::specs::Svg::lines_text))]
fn write_lines(scale: &Scale, sketch: &Sketch, out: &mut Bytes) -> Result<(), AllocError>
    ensures { OnOk result (out.new ≡ out.old ++ lines_text scale.now sketch.now) }
{
    write_rows(scale.notes, sketch.marks.as_slice(), out)?;
    write_servers(scale, sketch.servers, out)?;
    write_legs(scale.half, sketch.legs.as_slice(), out)
}

#[tactic(auto, unfolding(crate::specs::Svg::signs_text))]
fn write_signs(
    alloc: Global,
    scale: &Scale,
    sketch: &Sketch,
    out: &mut Bytes,
) -> Result<(), AllocError>
    ensures { OnOk result (out.new ≡ out.old ++ signs_text scale.now sketch.now) }
{
    write_labels(alloc, scale.half, sketch.legs.as_slice(), out)?;
    write_marks(scale.half, sketch.marks.as_slice(), out)?;
    write_notes(scale.notes, sketch.notes.as_slice(), out)
}

/// Writes the picture, where things stand so.
fn write_scaled(
    alloc: Global,
    scale: &Scale,
    sketch: &Sketch,
    out: &mut Bytes,
) -> Result<(), AllocError>
    ensures { OnOk result (out.new ≡ out.old ++ svg_of scale.now sketch.now) }
{
    write_head(scale, out)?;
    write_lines(scale, sketch, out)?;
    write_signs(alloc, scale, sketch, out)?;
    write_close(out)
}

/// Writes the picture as SVG.
pub fn write_svg(alloc: Global, sketch: &Sketch, out: &mut Bytes) -> Result<(), AllocError>
    ensures { OnOk result (out.new ≡ out.old ++ svg_text sketch.now) }
{
    let scale = Scale::of(alloc, sketch)?;
    write_scaled(alloc, &scale, sketch, out)
}
