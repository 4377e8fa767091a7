//! How kept deltas are walked back from a version.

ghost use Rattle.std.specs.Prelude.{◌≡◌, IfOk, reverse};
ghost use Rattle.pg_patch.specs.Ranges.{IsRanges};
ghost use Rattle.pg_delta.specs.Chain.{IsStep, IsWalked, chain, is_worth_sending};

use crate::delta::KeptDelta;
use crate::kept::{MOST_BYTES, MOST_PARTS};
use pg_base::Stamp;
use pg_patch::{Ranges, compose};
use std::alloc::AllocError;

/// The ranges, in one, of the deltas that lead from these heads to the version of the stamp. It
/// goes back from that version, and so only composes where some lead there.
pub(crate) fn composed_chain(
    deltas: &[KeptDelta],
    from: &[Stamp],
    to: Stamp,
) -> Result<Option<Ranges>, AllocError>
    ensures { IfOk result (IsWalked (chain (reverse deltas.now) from.now to)) }
{
    let Some((last, earlier)) = deltas.split_last() else {
        return Ok(None);
    };
    if last.to != to {
        return composed_chain(earlier, from, to);
    }
    if last.from.as_slice() == from {
        return Ok(Some(last.ranges.copy()?));
    }
    let [before] = last.from.as_slice() else {
        return Ok(None);
    };
    match composed_chain(earlier, from, *before)? {
        Some(ranges) => Ok(Some(composed(&ranges, &last.ranges)?)),
        None => Ok(None),
    }
}

/// The ranges that do what the first and then the second do.
fn composed(first: &Ranges, second: &Ranges) -> Result<Ranges, AllocError>
    ensures { IfOk result (λ c. IsStep first.now second.now c) }
{
    let _first = first.parts();
    let _second = second.parts();
    compose(first, second)
}

/// Whether the ranges have few enough bytes and parts to be sent, and fewer bytes than a body of
/// that length.
pub(crate) fn is_worth_sending(ranges: &Ranges, length: u32) -> bool
    ensures test { result ≡ is_worth_sending ranges.now length }
    ensures ranges { IsRanges ranges.now }
{
    let parts = ranges.parts();
    let bytes = ranges.bytes_of_parts();
    bytes <= MOST_BYTES && parts.len() <= MOST_PARTS && bytes < length as usize
}
