//! How a version is taken as a delta.

ghost use Rattle.std.specs.Prelude.{◌≡◌, ◌<◌, ◌^◌, ◌↔◌, IfOk, IsTrue};
ghost use Rattle.pg_content.specs.Content.{next_length, shown_bytes};
ghost use Rattle.pg_patch.specs.Ranges.{applied};
ghost use Rattle.pg_delta.specs.Taking.{patched_version, stamps_of};

use pg_base::{Bytes, Head, SharedBytes, Stamp, Version};
use pg_content::Content;
use pg_patch::{Ranges, apply, length_after};
use std::alloc::{AllocError, Global};

/// Whether the heads have these stamps, in this order.
pub fn has_heads(content: &Content, stamps: &[Stamp]) -> bool
    ensures { IsTrue result ↔ (stamps_of content.now ≡ stamps.now) }
{
    let heads = content.heads();
    if heads.len() != stamps.len() {
        return false;
    }
    for index in 0..heads.len() {
        if heads[index].head().stamp != stamps[index] {
            return false;
        }
    }
    true
}

/// Whether the ranges make a body of that length of what is shown. It takes no memory.
pub fn makes_length(content: &Content, ranges: &Ranges, length: u32) -> bool
    ensures { IsTrue result ↔ (next_length content.now ranges.now ≡ length) }
{
    length_after(content.length(), ranges) == u64::from(length)
}

/// The version of the head, whose body is what the ranges make of what is shown. The only head's
/// body is not copied before.
pub fn patched(
    alloc: Global,
    content: &Content,
    head: Head,
    ranges: &Ranges,
) -> Result<Version, AllocError>
    requires long { next_length content.now ranges.now ≡ head.length }
    requires some { 0 < head.number }
    ensures { IfOk result (λ v. v ≡ patched_version content.now head ranges.now) }
{
    let body = patched_body(content, ranges)?.into_vec();
    Version::new(alloc, head, SharedBytes::from_vec(alloc, body)?)
}

/// What the ranges make of what is shown.
fn patched_body(content: &Content, ranges: &Ranges) -> Result<Bytes, AllocError>
    requires { next_length content.now ranges.now < 2 ^ 32 }
    ensures { IfOk result (λ b. b ≡ applied (shown_bytes content.now) ranges.now) }
{
    let _parts = ranges.parts();
    if let [only] = content.heads() {
        return Ok(apply(only.body().as_slice(), ranges)?);
    }
    Ok(apply(content.view(0, u32::MAX)?.as_slice(), ranges)?)
}
