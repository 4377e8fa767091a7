//! The steps of a join and of a write.

ghost use Rattle.std.specs.Prelude.{◌≡◌, ◌<◌, ◌≤◌, IfOk, IsOk, OnOk, OnErr, not, option_copied, vec_capacity, vec_len};
ghost use Rattle.std.specs.List.{filter, list_any, position_or_len};
ghost use Rattle.pg_base.specs.Stamp.{is_before};
ghost use Rattle.pg_patch.specs.Ranges.{applied};
ghost use Rattle.pg_base.specs.Version.{stamp_of};
ghost use Rattle.pg_content.specs.Content.{InStampOrder, bodies_of, covers_version, head_at, is_covered, put_version};
ghost use Rattle.pg_content.specs.Shown.{inserted};

use pg_base::{Actor, Bytes, SharedBytes, Stamp, Vector, Version};
use pg_patch::{Ranges, apply};
use std::alloc::{AllocError, Global};

/// Whether some head's vector has at least that number at the actor.
pub(crate) fn is_covered(heads: &[Version], actor: Actor, number: u64) -> bool
    ensures { result ≡ is_covered heads.now actor number }
{
    heads.iter().any(|v| number <= v.head().vector.get(actor))
}

/// Whether the vector covers some head.
pub(crate) fn is_some_covered(heads: &[Version], vector: &Vector) -> bool
    ensures { result ≡ list_any (covers_version vector.now) heads.now }
{
    heads.iter().any(|head| covers_version(vector, head))
}

/// The heads that the version's vector covers go, and the version is a head, in the order of the
/// stamps.
pub(crate) fn put_version(heads: &mut Vec<Version>, v: Version) -> Result<(), AllocError>
    requires { InStampOrder heads.old.items }
    ensures ok { OnOk result (heads.new.items ≡ put_version heads.old.items v) }
    ensures err { OnErr result (heads.new.items ≡ heads.old.items) }
{
    heads.reserve(1)?;
    drop_covered(heads, &v);
    insert_version(heads, v)?;
    Ok(())
}

/// The heads that the version's vector covers go. Their room stays.
fn drop_covered(heads: &mut Vec<Version>, v: &Version)
    ensures heads { heads.new.items
        ≡ filter (λ h. not (covers_version v.now.head.vector h)) heads.old.items }
    ensures len { vec_len heads.new ≤ vec_len heads.old }
    ensures room { vec_capacity heads.new ≡ vec_capacity heads.old }
{
    let vector = &v.head().vector;
    heads.retain(|h| !covers_version(vector, h));
}

/// The version is a head, in the order of the stamps. With room for it this does not fail.
pub(crate) fn insert_version(heads: &mut Vec<Version>, v: Version) -> Result<(), AllocError>
    requires { InStampOrder heads.old.items }
    ensures ok { OnOk result (heads.new.items ≡ inserted stamp_of v heads.old.items) }
    ensures err { OnErr result (heads.new.items ≡ heads.old.items) }
    ensures room { vec_len heads.old < vec_capacity heads.old → IsOk result }
{
    let index = index_of(heads, v.head().stamp);
    heads.insert(index, v)?;
    Ok(())
}

/// Whether the vector has the version's number at its actor.
fn covers_version(vector: &Vector, v: &Version) -> bool
    ensures { result ≡ covers_version vector.now v.now }
{
    let head = v.head();
    head.number <= vector.get(head.actor())
}

/// The first head of the stamp.
pub(crate) fn head_at(heads: &[Version], stamp: Stamp) -> Option<&Version>
    requires { InStampOrder heads.now }
    ensures { option_copied result ≡ head_at heads.now stamp }
{
    let head = heads.get(index_of(heads, stamp))?;
    if head.head().stamp == stamp {
        Some(head)
    } else {
        None
    }
}

/// Where a version of the stamp stands, or would stand.
fn index_of(heads: &[Version], stamp: Stamp) -> usize
    requires { InStampOrder heads.now }
    ensures { result ≡ position_or_len (λ v. not (is_before v.head.stamp stamp)) heads.now }
{
    heads.partition_point(|v| v.head().stamp.is_before(stamp))
}

/// What the ranges make of the bodies one after another. One body alone is not copied before.
pub(crate) fn write_over(
    alloc: Global,
    versions: &[Version],
    ranges: &Ranges,
) -> Result<SharedBytes, AllocError>
    ensures { IfOk result (λ b. b ≡ applied (bodies_of versions.now) ranges.now) }
{
    let body = match versions {
        [only] => apply(only.body().as_slice(), ranges)?,
        _ => apply(bodies(alloc, versions)?.as_slice(), ranges)?,
    };
    SharedBytes::from_vec(alloc, body.into_vec())
}

/// The bodies one after another.
fn bodies(alloc: Global, versions: &[Version]) -> Result<Bytes, AllocError>
    ensures { IfOk result (λ b. b ≡ bodies_of versions.now) }
{
    let mut all = Bytes::new(alloc);
    for version in versions {
        all.extend(version.body().as_slice())?;
    }
    Ok(all)
}
