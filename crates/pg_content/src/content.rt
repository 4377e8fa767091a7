//! The heads of a file, and what is shown of them.

ghost use Rattle.std.specs.Prelude.{ℕ, ◌≡◌, ◌≢◌, ◌<◌, ◌≤◌, ◌^◌, ◌-◌, ◌↔◌, [], ◌∷◌, All, IfOk, IfNone, IfSome, IsErrOf, OnOk, OnErr, IsTrue, drop, false, length, min, nat_lt, not, option_copied, take};
ghost use Rattle.std.specs.List.{list_any};
ghost use Rattle.pg_base.specs.declared.vector.Actor.{Actor};
ghost use Rattle.pg_base.specs.Stamp.{clock_end};
ghost use Rattle.pg_base.specs.Vector.{number_at};
ghost use Rattle.pg_base.specs.Version.{actor_of};
ghost use Rattle.pg_content.specs.Content.{HasFewActors, HasManyActors, InStampOrder, IsCovered, IsShort, IsTooLong, actor_limit, bodies_of, body_limit, covers_version, head_at, is_covered, join_of, joined_content, next_length, next_vector, next_version, put_version, shown_bytes, with_heads, written};
ghost use Rattle.pg_content.specs.Index.{IsSound};

use crate::error::WriteError;
use crate::index::{Index, index_of_many, index_or_new, index_with};
use crate::joining::{actor_count, join_of};
use crate::writing::{
    head_at, insert_version, is_covered, is_some_covered, put_version, write_over,
};
use pg_base::{Actor, Bytes, Head, Policy, Stamp, Vector, Version};
use pg_patch::{LIMIT, Ranges, length_after};
use std::alloc::{AllocError, Global};
use std::marker::Model;

/// The versions that are ancestors of no other version that was brought in, in the order of their
/// stamps.
#[derive(Debug, Drop)]
pub struct Content {
    policy: Policy,
    heads: Vec<Version>,
    /// The index of many heads. There is none of few, and none where memory ran out: then the heads
    /// are gone over.
    index: Option<Index>,
}

impl Model for Content {
    ghost use Rattle.pg_content.specs.Content.{ContentValue};

    ghost Value = { ContentValue };

    ghost use Rattle.pg_content.specs.Indexed.{IsIndexed};

    ghost view = { λ c. record { policy = c.policy; heads = c.heads.items } };

    ghost invariant = { IsIndexed };
}

/// The most actors that a vector may have.
const MOST_ACTORS: usize = 256;

impl Content {
    /// No version. It takes no memory.
    pub fn new(alloc: Global, policy: Policy) -> Content
        ensures { result ≡ record { policy = policy; heads = [] } }
    {
        Content {
            policy,
            heads: Vec::new(alloc),
            index: None,
        }
    }

    /// The content with exactly these heads. It takes no memory of its own.
    pub fn from_parts(policy: Policy, heads: Vec<Version>) -> Content
        requires { InStampOrder heads.items }
        ensures { result ≡ record { policy = policy; heads = heads.items } }
    {
        let index = index_of_many(*heads.allocator(), &heads);
        Content {
            policy,
            heads,
            index,
        }
    }

    pub fn policy(&self) -> Policy
        ensures { result ≡ self.now.policy }
    {
        self.policy
    }

    /// The heads by their stamps.
    pub fn heads(&self) -> &[Version]
        ensures heads { result.now ≡ self.now.heads }
        ensures order { InStampOrder self.now.heads }
    {
        self.heads.as_slice()
    }

    /// Whether the actor's versions up to the number were brought in: some head's vector has at
    /// least that number.
    pub fn covers(&self, actor: Actor, number: u64) -> bool
        ensures test { result ≡ is_covered self.now.heads actor number }
        ensures covers { IsTrue result ↔ IsCovered self.now.heads actor number }
    {
        match &self.index {
            Some(index) => !self.heads.is_empty() && number <= index.join().get(actor),
            None => is_covered(&self.heads, actor, number),
        }
    }

    /// Whether the version's vector covers some head. Such a head goes where the version is brought
    /// in.
    pub fn replaces(&self, version: &Version) -> bool
        ensures { result ≡ list_any (covers_version version.now.head.vector) self.now.heads }
    {
        let vector = &version.head().vector;
        match &self.index {
            Some(index) => index.is_some_covered(vector),
            None => is_some_covered(&self.heads, vector),
        }
    }

    /// The first head of the stamp.
    pub fn at(&self, stamp: Stamp) -> Option<&Version>
        ensures { option_copied result ≡ head_at self.now.heads stamp }
    {
        head_at(&self.heads, stamp)
    }

    /// How many bytes are shown. Where they are more, the greatest `u64`.
    pub fn length(&self) -> u64
        ensures { result ≡ min (length (shown_bytes self.now)) (2 ^ 64 - 1) }
    {
        let mut length: u64 = 0;
        for version in self.shown_versions() {
            length = length.saturating_add(version.body().len() as u64);
        }
        length
    }

    /// Brings in a version with all that its vector covers, and tells whether it is a head now. A
    /// version that is covered changes nothing. After a refusal all is as before. No body is
    /// copied.
    pub fn join_version(&mut self, v: Version) -> Result<bool, AllocError>
        ensures joined { OnOk result (self.new ≡ joined_content self.old v) }
        ensures changed { IfOk result (λ changed.
            changed ≡ not (is_covered self.old.heads (actor_of v.head) v.head.number)) }
        ensures err { OnErr result (self.new ≡ self.old) }
    {
        let head = v.head();
        if self.covers(head.actor(), head.number) {
            return Ok(false);
        }
        self.put_head(v)?;
        Ok(true)
    }

    /// Brings in a version without asking whether it is covered: the heads that its vector covers
    /// go, and the version is a head, whatever is known of it.
    pub fn put_head(&mut self, v: Version) -> Result<(), AllocError>
        ensures put { OnOk result (self.new ≡ with_heads self.old (put_version self.old.heads v)) }
        ensures err { OnErr result (self.new ≡ self.old) }
    {
        if self.replaces(&v) {
            self.put_over(v)
        } else {
            self.put_beside(v)
        }
    }

    /// The heads that the version's vector covers go, and the version is a head.
    fn put_over(&mut self, v: Version) -> Result<(), AllocError>
        ensures put { OnOk result (self.new ≡ with_heads self.old (put_version self.old.heads v)) }
        ensures err { OnErr result (self.new ≡ self.old) }
    {
        let alloc = *self.heads.allocator();
        put_version(&mut self.heads, v)?;
        self.index = index_of_many(alloc, &self.heads);
        Ok(())
    }

    /// The version is a head beside the others, none of which its vector covers.
    fn put_beside(&mut self, v: Version) -> Result<(), AllocError>
        requires { list_any (covers_version v.head.vector) self.old.heads ≡ false }
        ensures put { OnOk result (self.new ≡ with_heads self.old (put_version self.old.heads v)) }
        ensures err { OnErr result (self.new ≡ self.old) }
    {
        let alloc = *self.heads.allocator();
        let index = index_with(self.index.take(), &v);
        insert_version(&mut self.heads, v)?;
        self.index = index_or_new(index, alloc, &self.heads);
        Ok(())
    }

    /// The version is the only head.
    pub fn put_alone(&mut self, v: Version) -> Result<(), AllocError>
        ensures put { OnOk result (self.new ≡ with_heads self.old (v ∷ [])) }
        ensures err { OnErr result (self.new ≡ self.old) }
    {
        let mut heads = Vec::with_capacity(*self.heads.allocator(), 1)?;
        heads.push(v)?;
        self.heads = heads;
        self.index = None;
        Ok(())
    }

    /// Whether all numbers of the actor that the heads know are below `Stamp::CLOCK_END`. Then
    /// `write` has room at the actor.
    pub fn has_room(&self, actor: Actor) -> bool
        ensures test { result ≡ not (is_covered self.now.heads actor clock_end) }
        ensures room { IsTrue result
            → All (λ v. number_at v.head.vector actor < 2 ^ 63) self.now.heads }
    {
        !self.covers(actor, Stamp::CLOCK_END)
    }

    /// Whether what the ranges make of what is shown is longer than a body may be, so that `write`
    /// refuses it.
    pub fn is_too_long(&self, ranges: &Ranges) -> bool
        ensures { result ≡ nat_lt body_limit (next_length self.now ranges.now) }
    {
        self.next_length(ranges).is_none()
    }

    /// The test of what `write` asks for: no head has the stamp, and each head's vector has room at
    /// the actor.
    pub fn can_write(&self, actor: Actor, stamp: Stamp) -> bool
        ensures { IsTrue result ↔ (All (λ v. v.head.stamp ≢ stamp) self.now.heads
            × All (λ v. number_at v.head.vector actor < 2 ^ 63) self.now.heads) }
    {
        self.at(stamp).is_none() && !self.covers(actor, 1 << 63)
    }

    /// Makes a version of what the ranges make of what is shown, with all heads as its bases. It is
    /// the only head then. After a refusal all is as before.
    pub fn write(&mut self, actor: Actor, stamp: Stamp, ranges: &Ranges) -> Result<(), WriteError>
        requires server { stamp.server ≡ actor.server }
        requires room { All (λ v. number_at v.head.vector actor < 2 ^ 63) self.old.heads }
        ensures written { OnOk result (self.new ≡ written self.old actor stamp ranges.now) }
        ensures too_long { IsErrOf result WriteError.TooLong ↔ IsTooLong self.old ranges.now }
        ensures many_actors { IsErrOf result WriteError.ManyActors
            ↔ (IsShort self.old ranges.now × HasManyActors self.old.heads actor) }
        ensures short { OnOk result (IsShort self.old ranges.now) }
        ensures few_actors { OnOk result (HasFewActors self.old.heads actor) }
        ensures err { OnErr result (self.new ≡ self.old) }
    {
        let version = self.next_version(actor, stamp, ranges)?;
        self.put_alone(version)?;
        Ok(())
    }

    /// What is shown from the offset on, so many bytes of it or what there is.
    pub fn view(&self, offset: u64, count: u32) -> Result<Bytes, AllocError>
        ensures { IfOk result (λ b. b ≡ take count (drop offset (shown_bytes self.now))) }
    {
        let mut out = Vec::new(*self.heads.allocator());
        let mut skip = offset;
        let mut left = count as usize;
        for version in self.shown_versions() {
            let body = version.body().as_slice();
            let start = skip.min(body.len() as u64);
            let rest = &body[start as usize..];
            let piece = &rest[..left.min(rest.len())];
            out.extend_from_slice(piece)?;
            skip -= start;
            left -= piece.len();
        }
        Ok(Bytes::from_vec(out))
    }

    /// Copies the content. The bodies are shared.
    pub fn copy(&self) -> Result<Content, AllocError>
        ensures { IfOk result (λ c. c ≡ self.now) }
    {
        let mut heads = Vec::with_capacity(*self.heads.allocator(), self.heads.len())?;
        for version in self.heads.iter() {
            heads.push(version.copy()?)?;
        }
        let index = match &self.index {
            Some(index) => Some(index.copy()?),
            None => None,
        };
        Ok(Content {
            policy: self.policy,
            heads,
            index,
        })
    }

    /// The versions whose bodies are shown, one after another.
    fn shown_versions(&self) -> &[Version]
        ensures { bodies_of result.now ≡ shown_bytes self.now }
    {
        match self.policy {
            Policy::Last => &self.heads[self.heads.len().saturating_sub(1)..],
            Policy::Join => self.heads.as_slice(),
        }
    }

    /// The length of what the ranges make of what is shown, where a body may have it.
    fn next_length(&self, ranges: &Ranges) -> Option<u32>
        ensures length { IfSome result
            (λ n. (n ≡ next_length self.now ranges.now) × (n ≤ body_limit)) }
        ensures too_long { IfNone result (IsTooLong self.now ranges.now) }
    {
        let length = length_after(self.length(), ranges);
        if length > u64::from(LIMIT) {
            return None;
        }
        Some(length as u32)
    }

    /// The version that a write makes: of what the ranges make of what is shown, with all heads as
    /// its bases.
    pub fn next_version(
        &self,
        actor: Actor,
        stamp: Stamp,
        ranges: &Ranges,
    ) -> Result<Version, WriteError>
        requires server { stamp.server ≡ actor.server }
        requires room { All (λ v. number_at v.head.vector actor < 2 ^ 63) self.now.heads }
        ensures next { IfOk result (λ v. v ≡ next_version self.now actor stamp ranges.now) }
        ensures too_long { IsErrOf result WriteError.TooLong ↔ IsTooLong self.now ranges.now }
        ensures many_actors { IsErrOf result WriteError.ManyActors
            ↔ (IsShort self.now ranges.now × HasManyActors self.now.heads actor) }
        ensures short { OnOk result (IsShort self.now ranges.now) }
        ensures few_actors { OnOk result (HasFewActors self.now.heads actor) }
    {
        let Some(length) = self.next_length(ranges) else {
            return Err(WriteError::TooLong);
        };
        if self.has_many_actors(actor) {
            return Err(WriteError::ManyActors);
        }
        Ok(self.version_with(actor, stamp, ranges, length)?)
    }

    /// The version that a write makes, where nothing refuses it. Its body has that length.
    fn version_with(
        &self,
        actor: Actor,
        stamp: Stamp,
        ranges: &Ranges,
        length: u32,
    ) -> Result<Version, AllocError>
        requires server { stamp.server ≡ actor.server }
        requires room { All (λ v. number_at v.head.vector actor < 2 ^ 63) self.now.heads }
        requires length { length ≡ next_length self.now ranges.now }
        ensures { IfOk result (λ v. v ≡ next_version self.now actor stamp ranges.now) }
    {
        let alloc = *self.heads.allocator();
        let vector = self.next_vector(actor)?;
        let body = write_over(alloc, self.shown_versions(), ranges)?;
        let head = Head {
            stamp,
            birth: actor.birth,
            number: vector.get(actor),
            vector,
            length,
        };
        Version::new(alloc, head, body)
    }

    /// Whether the next version of the actor would know more actors than a vector may have.
    fn has_many_actors(&self, actor: Actor) -> bool
        ensures { result ≡ nat_lt actor_limit (length (next_vector self.now.heads actor)) }
    {
        let count = self.actor_count();
        if self.covers(actor, 1) {
            count > MOST_ACTORS
        } else {
            count >= MOST_ACTORS
        }
    }

    /// How many actors the heads know. This takes no memory.
    fn actor_count(&self) -> usize
        ensures count { result ≡ min (length (join_of self.now.heads)) (2 ^ 64 - 1) }
        ensures sound { All IsSound self.now.heads }
    {
        match &self.index {
            Some(index) => index.join().len(),
            None => actor_count(&self.heads),
        }
    }

    /// What all heads know, and one more of the actor.
    fn next_vector(&self, actor: Actor) -> Result<Vector, AllocError>
        requires { All (λ v. number_at v.head.vector actor < 2 ^ 63) self.now.heads }
        ensures { IfOk result (λ v. v ≡ next_vector self.now.heads actor) }
    {
        let mut vector = self.join_of_heads()?;
        let number = vector.get(actor) + 1;
        vector.raise(actor, number)?;
        Ok(vector)
    }

    /// What all heads know. At no actor is it more than one of them knows.
    fn join_of_heads(&self) -> Result<Vector, AllocError>
        ensures all { IfOk result (λ v. v ≡ join_of self.now.heads) }
        ensures most { IfOk result (λ v. (a : Actor) (n : ℕ) → 0 < n
            → All (λ h. number_at h.head.vector a < n) self.now.heads → number_at v a < n) }
    {
        match &self.index {
            Some(index) => index.join().copy(),
            None => join_of(*self.heads.allocator(), &self.heads),
        }
    }
}
