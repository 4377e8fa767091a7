//! Where things stand in the picture, in pixels.

ghost use Rattle.std.specs.Prelude.{◌≡◌, ◌<◌, ◌^◌, IfOk};
ghost use Rattle.pg_svg.specs.Scale.{end_at, leg_end, leg_start, scale_of, short_of, x_of, y_of};

use crate::label::{widest_label, widest_note};
use pg_base::NodeId;
use pg_picture::{Leg, LegEnd, Sketch};
use std::alloc::{AllocError, Global};

/// Where the columns stand, and how large the picture is.
#[derive(Clone, Copy, Debug, PartialEq, Eq)]
pub struct Scale {
    /// From one column half of the way to the next.
    pub half: u16,
    /// Where notes begin.
    pub notes: u64,
    pub width: u64,
    pub height: u64,
}

/// The fewest signs for which a column has room.
const LEAST: u32 = 8;

/// The column of this server. Column 0 is that of events at no server.
#[tactic(auto, using(crate::proofs::Fits::columns_fit))]
pub(crate) fn x_of(half: u16, server: NodeId) -> u64
    ensures x { result ≡ x_of half server }
    ensures most { result < 2 ^ 50 }
{
    let steps = u64::from(half) * u64::from(server);
    60 + 2 * steps
}

/// In front of a receiver's column, as seen from the sender's.
fn short_of(half: u16, from: NodeId, to: NodeId) -> u64
    ensures x { result ≡ short_of half from to }
    ensures most { result < 2 ^ 51 }
{
    if from < to {
        x_of(half, to - 1) + u64::from(half)
    } else {
        x_of(half, to) + u64::from(half)
    }
}

/// Where something of this height stands.
pub(crate) fn y_of(height: u32) -> u64
    ensures y { result ≡ y_of height }
    ensures most { result < 2 ^ 40 }
{
    130 + 13 * u64::from(height)
}

/// Where a piece of a message's way begins.
pub(crate) fn leg_start(half: u16, leg: &Leg) -> u64
    ensures { result ≡ leg_start half leg.now }
{
    let summary = leg.message.summary;
    if leg.message.split {
        short_of(half, summary.from, summary.to)
    } else {
        x_of(half, summary.from)
    }
}

fn end_at(half: u16, leg: &Leg, end: LegEnd) -> u64
    ensures { result ≡ end_at half leg.now end }
{
    let summary = leg.message.summary;
    match end {
        LegEnd::Delivered => x_of(half, summary.to),
        _ => short_of(half, summary.from, summary.to),
    }
}

/// Where it ends.
pub(crate) fn leg_end(half: u16, leg: &Leg) -> u64
    ensures { result ≡ leg_end half leg.now }
{
    end_at(half, leg, leg.end)
}

impl Scale {
    /// The scale in which the picture fits.
    pub(crate) fn of(alloc: Global, sketch: &Sketch) -> Result<Scale, AllocError>
        ensures { IfOk result (λ s. s ≡ scale_of sketch.now) }
    {
        let label = widest_label(alloc, LEAST, sketch.legs.as_slice())?;
        let note = widest_note(sketch.notes.as_slice());
        let half = 14 + 3 * label as u16;
        let notes = x_of(half, sketch.servers) + 2 * u64::from(half);
        let width = notes + 6 * u64::from(note) + 20;
        Ok(Scale {
            half,
            notes,
            width: width.max(860),
            height: y_of(sketch.height) + 30,
        })
    }
}
