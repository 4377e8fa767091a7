//! Ranges: a write or a cut of a body, or several of them in one.

ghost use Rattle.std.specs.Prelude.{◌≡◌, ◌≢◌, ◌<◌, ◌↔◌, ℕ, List, length, IfOk, IsErrOf, IsTrue, ◌≤◌};
ghost use Rattle.pg_patch.specs.Parts.{AreInOrder, bytes_of_parts};
ghost use Rattle.pg_patch.specs.Ranges.{written, write_end, cut_to, length_of, kept, applied, body_limit, IsRanges};

use crate::error::RangeError;
use crate::part::{Part, bytes_of};
use pg_base::{Items, SharedBytes};
use std::alloc::{AllocError, Global};
use std::marker::Model;

/// The most bytes that a body may have.
pub const LIMIT: u32 = 1_048_576;

/// The `keep` of ranges that cut nothing.
pub const ALL: u32 = u32::MAX;

/// What stays of a body, how long the body is at least, and the parts that are laid over it.
#[derive(Debug, Drop)]
pub struct Ranges {
    keep: u32,
    least: u32,
    parts: Vec<Part>,
}

impl Model for Ranges {
    ghost use Rattle.pg_patch.specs.Parts.{AreInOrder};
    ghost use Rattle.pg_patch.specs.Ranges.{RangesValue};

    ghost Value = { RangesValue };

    ghost view = { λ r. record { keep = r.keep; least = r.least; parts = r.parts.items } };

    ghost invariant = { λ r. AreInOrder 0 r.parts.items r.least };
}

impl Ranges {
    pub fn keep(&self) -> u32
        ensures { result ≡ self.now.keep }
    {
        self.keep
    }

    pub fn least(&self) -> u32
        ensures { result ≡ self.now.least }
    {
        self.least
    }

    pub fn parts(&self) -> &[Part]
        ensures parts { result.now ≡ self.now.parts }
        ensures ranges { IsRanges self.now }
    {
        let _keep = self.keep;
        let _least = self.least;
        self.parts.as_slice()
    }

    /// How many bytes the parts have together. It is no more than `least`.
    pub fn bytes_of_parts(&self) -> usize
        ensures bytes { result ≡ bytes_of_parts self.now.parts }
        ensures most { result ≤ self.now.least }
    {
        bytes_of(self.parts())
    }

    /// Copies the ranges. The bytes of the parts are shared.
    pub fn copy(&self) -> Result<Ranges, AllocError>
        ensures { IfOk result (λ r. r ≡ self.now) }
    {
        let mut parts = Vec::with_capacity(*self.parts.allocator(), self.parts.len())?;
        for part in self.parts.iter() {
            parts.push(part.copy()?)?;
        }
        Ok(Ranges {
            keep: self.keep,
            least: self.least,
            parts,
        })
    }

    /// Ranges of these numbers and parts. `are_in_order` is the test of what it asks for.
    pub fn from_parts(keep: u32, least: u32, parts: Items<Part>) -> Ranges
        requires { AreInOrder 0 parts least }
        ensures { result ≡ record { keep = keep; least = least; parts = parts } }
    {
        Ranges::new(keep, least, parts.into_vec())
    }

    pub(crate) fn allocator(&self) -> Global {
        *self.parts.allocator()
    }

    pub(crate) fn new(keep: u32, least: u32, parts: Vec<Part>) -> Ranges
        requires { AreInOrder 0 parts.items least }
        ensures { result ≡ record { keep = keep; least = least; parts = parts.items } }
    {
        Ranges { keep, least, parts }
    }
}

/// Whether the parts are in order, have bytes, neither overlap nor touch, and end at `least` or
/// before it.
pub fn are_in_order(parts: &[Part], least: u32) -> bool
    ensures { IsTrue result ↔ AreInOrder 0 parts.now least }
{
    let least = least as usize;
    let mut from = 0;
    for part in parts {
        let offset = part.offset as usize;
        let len = part.bytes.len();
        if offset < from || len == 0 || least < offset || least - offset < len {
            return false;
        }
        from = offset + len + 1;
    }
    true
}

/// A write of the bytes at the offset.
pub fn make(alloc: Global, offset: u32, bytes: &[u8]) -> Result<Ranges, RangeError>
    ensures made { IfOk result (λ r. r ≡ written offset bytes.now) }
    ensures too_long { IsErrOf result RangeError.TooLong
        ↔ (body_limit < write_end offset bytes.now) }
{
    if bytes.is_empty() {
        return Ok(Ranges::new(ALL, 0, Vec::new(alloc)));
    }
    let limit = LIMIT as usize;
    let start = offset as usize;
    if start > limit || bytes.len() > limit - start {
        return Err(RangeError::TooLong);
    }
    let least = offset + bytes.len() as u32;
    let mut parts = Vec::with_capacity(alloc, 1)?;
    parts.push(Part {
        offset,
        bytes: SharedBytes::from_slice(alloc, bytes)?,
    })?;
    Ok(Ranges::new(ALL, least, parts))
}

/// A cut to the length, or the zeros that bring a shorter body to it. It takes no memory.
pub fn cut(alloc: Global, length: u32) -> Result<Ranges, RangeError>
    ensures cut { IfOk result (λ r. r ≡ cut_to length) }
    ensures too_long { IsErrOf result RangeError.TooLong ↔ (body_limit < length) }
    ensures no_memory { result ≢ Err RangeError.OutOfMemory }
{
    if length > LIMIT {
        return Err(RangeError::TooLong);
    }
    Ok(Ranges::new(length, length, Vec::new(alloc)))
}

/// The length of a body of `n` bytes to which the ranges were applied. It takes no memory.
pub fn length_after(n: u64, ranges: &Ranges) -> u64
    ensures length { result ≡ length_of n ranges.now }
    ensures of_the_result { (body : List ℕ) → length body ≡ n
        → length (applied body ranges.now) ≡ result }
{
    kept_length(n, ranges.keep).max(u64::from(ranges.least))
}

/// How much of a body of `n` bytes stays.
pub(crate) fn kept_length(n: u64, keep: u32) -> u64
    ensures { result ≡ kept keep n }
{
    if keep == ALL {
        n
    } else {
        n.min(u64::from(keep))
    }
}
