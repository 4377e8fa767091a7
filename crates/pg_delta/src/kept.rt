//! Which deltas are kept.

ghost use Rattle.std.specs.Prelude.{◌≡◌, ◌<◌, ◌↔◌, [], IfOk, IsTrue, OnOk, OnErr, if◌then◌else◌, min, ◌-◌, ◌^◌};
ghost use Rattle.pg_content.specs.Content.{joined_content, next_length};
ghost use Rattle.pg_delta.specs.Chain.{IsDelta};
ghost use Rattle.pg_delta.specs.Kept.{bytes_together, is_small, is_within, longest_end, with_delta};
ghost use Rattle.pg_delta.specs.Taking.{delta_to, stamps_of, with_patched};
ghost use Rattle.pg_delta.specs.Whole.{delta_of};

use crate::delta::KeptDelta;
use crate::taking::{has_heads, patched};
use crate::walking::{composed_chain, is_worth_sending};
use pg_base::{Head, Items, Stamp, Version};
use pg_content::Content;
use pg_patch::Ranges;
use std::alloc::{AllocError, Global};
use std::marker::Model;

/// The most deltas that are kept.
const MOST_DELTAS: usize = 8;

/// The most bytes that the parts of all kept deltas have together.
const MOST_BYTES_TOGETHER: usize = 65_536;

/// The most bytes that the parts of a delta have that is kept, or sent.
pub const MOST_BYTES: usize = 30_000;

/// The most parts of a delta that is sent.
pub const MOST_PARTS: usize = 200;

/// The latest deltas that a replica made or took, the oldest first.
#[derive(Debug, Drop)]
pub struct KeptDeltas {
    deltas: Vec<KeptDelta>,
}

impl Model for KeptDeltas {
    ghost use Rattle.std.specs.Prelude.{List};
    ghost use Rattle.pg_delta.specs.declared.delta.KeptDelta.{KeptDelta};

    ghost Value = { List KeptDelta };

    ghost view = { λ k. k.deltas.items };
}

impl KeptDeltas {
    /// No delta. It takes no memory.
    pub fn new(alloc: Global) -> KeptDeltas
        ensures { result ≡ [] }
    {
        KeptDeltas {
            deltas: Vec::new(alloc),
        }
    }

    /// Exactly these deltas, the oldest first, whether or not they are within the limits.
    pub fn from_parts(deltas: Items<KeptDelta>) -> KeptDeltas
        ensures { result ≡ deltas }
    {
        KeptDeltas {
            deltas: deltas.into_vec(),
        }
    }

    /// The deltas, the oldest first.
    pub fn as_slice(&self) -> &[KeptDelta]
        ensures { result.now ≡ self.now }
    {
        self.deltas.as_slice()
    }

    /// Keeps one more, unless it has too many bytes. The oldest go as far as the limits ask for it.
    /// After a refusal all is as before.
    pub fn keep(&mut self, delta: KeptDelta) -> Result<(), AllocError>
        ensures kept { OnOk result (self.new ≡ with_delta self.old delta) }
        ensures err { OnErr result (self.new ≡ self.old) }
    {
        if !is_small(&delta) {
            return Ok(());
        }
        self.deltas.push(delta)?;
        drop_oldest(&mut self.deltas);
        Ok(())
    }

    /// Takes a version as a delta, where it starts from exactly the heads of the content, and tells
    /// whether it did: then the content has what the ranges make of what it shows as the version of
    /// the head, and the delta is kept. Else, and after a refusal, all is as before.
    pub fn take_delta(
        &mut self,
        content: &mut Content,
        head: Head,
        from: &[Stamp],
        ranges: &Ranges,
    ) -> Result<bool, AllocError>
        requires long { stamps_of content.old ≡ from.now
            → next_length content.old ranges.now ≡ head.length }
        requires some { 0 < head.number }
        ensures test { IfOk result (λ taken. IsTrue taken ↔ (stamps_of content.old ≡ from.now)) }
        ensures content { IfOk result (λ taken. content.new
            ≡ (if taken then with_patched content.old head ranges.now else content.old)) }
        ensures kept { IfOk result (λ taken. self.new
            ≡ (if taken then with_delta self.old (delta_to from.now head.stamp ranges.now)
            else self.old)) }
        ensures err { OnErr result (content.new ≡ content.old) }
        ensures kept_err { OnErr result (self.new ≡ self.old) }
    {
        if !has_heads(content, from) {
            return Ok(false);
        }
        let alloc = *self.deltas.allocator();
        let delta = KeptDelta::new(alloc, from, head.stamp, ranges)?;
        let version = patched(alloc, content, head, ranges)?;
        self.keep_with(delta, content, version)?;
        Ok(true)
    }

    /// Joins the version, and keeps the delta. After a refusal all is as before.
    fn keep_with(
        &mut self,
        delta: KeptDelta,
        content: &mut Content,
        version: Version,
    ) -> Result<(), AllocError>
        ensures content { OnOk result (content.new ≡ joined_content content.old version) }
        ensures kept { OnOk result (self.new ≡ with_delta self.old delta) }
        ensures err { OnErr result (content.new ≡ content.old) }
        ensures kept_err { OnErr result (self.new ≡ self.old) }
    {
        if !is_small(&delta) {
            content.join_version(version)?;
            return Ok(());
        }
        self.deltas.reserve(1)?;
        content.join_version(version)?;
        self.deltas.push(delta)?;
        drop_oldest(&mut self.deltas);
        Ok(())
    }

    /// What is sent in place of the version of the head to a server that has the heads `from`: the
    /// ranges of the kept deltas that lead there, in one. There is nothing to send where `from` is
    /// empty, where no kept deltas lead there, and where the ranges have more than 30,000 bytes or
    /// more than 200 parts, or not fewer bytes than the body.
    pub fn delta(&self, from: &[Stamp], head: &Head) -> Result<Option<Ranges>, AllocError>
        ensures sent { IfOk result (IsDelta self.now from.now head.now.stamp head.now.length) }
        ensures computed { IfOk result
            (λ r. r ≡ delta_of self.now from.now head.now.stamp head.now.length) }
    {
        if from.is_empty() {
            return Ok(None);
        }
        match composed_chain(&self.deltas, from, head.stamp)? {
            Some(ranges) if is_worth_sending(&ranges, head.length) => Ok(Some(ranges)),
            _ => Ok(None),
        }
    }
}

/// Whether the delta has few enough bytes to be kept.
fn is_small(delta: &KeptDelta) -> bool
    ensures { result ≡ is_small delta.now }
{
    delta.ranges.bytes_of_parts() <= MOST_BYTES
}

/// The oldest go until the others are within the limits.
fn drop_oldest(deltas: &mut Vec<KeptDelta>)
    ensures { deltas.new.items ≡ longest_end deltas.old.items }
{
    while !is_within(deltas) {
        deltas.remove(0);
    }
}

/// Whether there are few enough, with few enough bytes together.
fn is_within(deltas: &[KeptDelta]) -> bool
    ensures { result ≡ is_within deltas.now }
{
    deltas.len() <= MOST_DELTAS && bytes_together(deltas) <= MOST_BYTES_TOGETHER
}

/// How many bytes the parts of all of them have. Where they are more, the greatest `usize`.
fn bytes_together(deltas: &[KeptDelta]) -> usize
    ensures { result ≡ min (bytes_together deltas.now) (2 ^ 64 - 1) }
{
    let mut bytes: usize = 0;
    for delta in deltas {
        bytes = bytes.saturating_add(delta.ranges.bytes_of_parts());
    }
    bytes
}
