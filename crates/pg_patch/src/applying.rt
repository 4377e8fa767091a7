//! What ranges make of a body.

ghost use Rattle.std.specs.Prelude.{◌≡◌, ◌≤◌, length, IfOk, OnOk};
ghost use Rattle.pg_patch.specs.Filling.{Fills};
ghost use Rattle.pg_patch.specs.Ranges.{applied};

use crate::ranges::{Ranges, kept_length, length_after};
use pg_base::Bytes;
use std::alloc::AllocError;

/// The body after the ranges. The time is linear in the parts and the bytes.
pub fn apply(body: &[u8], ranges: &Ranges) -> Result<Bytes, AllocError>
    ensures { IfOk result (λ b. b ≡ applied body.now ranges.now) }
{
    let len = length_after(body.len() as u64, ranges) as usize;
    let kept = kept_length(body.len() as u64, ranges.keep()) as usize;
    let kept = &body[..kept];
    let mut out = Vec::with_capacity(ranges.allocator(), len)?;
    for part in ranges.parts() {
        fill(&mut out, kept, part.offset as usize)?;
        out.extend_from_slice(part.bytes.as_slice())?;
    }
    fill(&mut out, kept, len)?;
    Ok(Bytes::from_vec(out))
}

/// Brings the bytes up to the length: with those that the body has there, and then with zeros.
fn fill(out: &mut Vec<u8>, body: &[u8], len: usize) -> Result<(), AllocError>
    requires { length out.old.items ≤ len }
    ensures { OnOk result (Fills out.old.items out.new.items body.now len) }
{
    let until = len.min(body.len());
    let from = out.len().min(until);
    out.extend_from_slice(&body[from..until])?;
    out.resize(len, 0)?;
    Ok(())
}
