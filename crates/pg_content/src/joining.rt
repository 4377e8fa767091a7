//! What versions know together.

ghost use Rattle.std.specs.Prelude.{◌≡◌, ◌<◌, ◌-◌, ◌^◌, All, IfOk, ℕ, count_by, length, min, not};
ghost use Rattle.pg_base.specs.declared.vector.Actor.{Actor};
ghost use Rattle.pg_base.specs.Vector.{IsVector, number_at};
ghost use Rattle.pg_content.specs.Content.{is_covered, join_of};
ghost use Rattle.pg_content.specs.Index.{IsSound};

use crate::writing::is_covered;
use pg_base::{Vector, Version};
use std::alloc::{AllocError, Global};

/// What all of them know. At no actor is it more than one of them knows.
pub(crate) fn join_of(alloc: Global, versions: &[Version]) -> Result<Vector, AllocError>
    ensures all { IfOk result (λ v. v ≡ join_of versions.now) }
    ensures most { IfOk result (λ v. (a : Actor) (n : ℕ) → 0 < n
        → All (λ h. number_at h.head.vector a < n) versions.now → number_at v a < n) }
{
    let mut all = Vector::new(alloc);
    for version in versions {
        all.join(&version.head().vector)?;
    }
    Ok(all)
}

/// How many actors they know. This takes no memory.
pub(crate) fn actor_count(versions: &[Version]) -> usize
    ensures count { result ≡ min (length (join_of versions.now)) (2 ^ 64 - 1) }
    ensures sound { All IsSound versions.now }
{
    let mut count: usize = 0;
    for index in 0..versions.len() {
        let vector = &versions[index].head().vector;
        count = count.saturating_add(new_actor_count(&versions[..index], vector));
    }
    count
}

/// How many actors the vector has that none of them knows.
fn new_actor_count(versions: &[Version], vector: &Vector) -> usize
    ensures count { result ≡ count_by (λ e. not (is_covered versions.now e.0 1)) vector.now }
    ensures vector { IsVector vector.now }
{
    let entries = vector.entries();
    entries
        .iter()
        .filter(|entry| !is_covered(versions, entry.0, 1))
        .count()
}
