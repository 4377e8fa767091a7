//! What is looked up of the heads, so that a version that comes need not be held against each of
//! them.

ghost use Rattle.std.specs.Prelude.{◌≡◌, ◌++◌, ◌∷◌, [], List, IfOk, IfSome, OnOk, ℕ, ◌+◌, ◌||◌, drop};
ghost use Rattle.std.specs.List.{list_any};
ghost use Rattle.pg_base.specs.declared.vector.Actor.{Actor};
ghost use Rattle.pg_base.specs.Vector.{IsVector, joined};
ghost use Rattle.pg_base.specs.Version.{VersionValue};
ghost use Rattle.pg_content.specs.Index.{IsIndex, covers_least, is_from};

use pg_base::{Actor, Vector, Version};
use std::alloc::{AllocError, Global};
use std::collections::BTreeMap;
use std::marker::Model;

/// What all heads know, and the least number of each actor's heads.
#[derive(Debug, Drop)]
pub(crate) struct Index {
    known: Vector,
    least: BTreeMap<Actor, u64>,
}

impl Model for Index {
    ghost use Rattle.pg_content.specs.Index.{IndexValue};

    ghost Value = { IndexValue };

    ghost view = { λ i. record { known = i.known; least = i.least.entries } };
}

impl Index {
    /// Of no version. It takes no memory.
    pub(crate) fn new(alloc: Global) -> Index
        ensures { IsIndex result [] }
    {
        Index {
            known: Vector::new(alloc),
            least: BTreeMap::new(alloc),
        }
    }

    /// The index of these versions.
    pub(crate) fn of(alloc: Global, heads: &[Version]) -> Result<Index, AllocError>
        ensures { IfOk result (λ i. IsIndex i heads.now) }
    {
        let mut index = Index::new(alloc);
        for head in heads {
            index.add(head)?;
        }
        Ok(index)
    }

    /// A version more, wherever it stands. After a refusal a part may be done.
    pub(crate) fn add(&mut self, version: &Version) -> Result<(), AllocError>
        ensures { OnOk result ((front back : List VersionValue) → IsIndex self.old (front ++ back)
            → IsIndex self.new (front ++ version.now ∷ back)) }
    {
        let head = version.head();
        raise_all(&mut self.known, &head.vector)?;
        lower(&mut self.least, head.actor(), head.number)?;
        Ok(())
    }

    /// What all versions know.
    pub(crate) fn join(&self) -> &Vector
        ensures { result.now ≡ self.now.known }
    {
        &self.known
    }

    /// Whether some entry of the vector covers a version.
    pub(crate) fn is_some_covered(&self, vector: &Vector) -> bool
        ensures some { result ≡ list_any (covers_least self.now.least) vector.now }
        ensures vector { IsVector vector.now }
    {
        let entries = vector.entries();
        entries
            .iter()
            .any(|&(actor, number)| self.covers_least(actor, number))
    }

    /// Whether such an entry covers a version.
    fn covers_least(&self, actor: Actor, number: u64) -> bool
        ensures { result ≡ covers_least self.now.least (actor, number) }
    {
        match self.least.get(&actor) {
            Some(least) => *least <= number,
            None => false,
        }
    }

    /// Copies the index.
    pub(crate) fn copy(&self) -> Result<Index, AllocError>
        ensures { IfOk result (λ i. i ≡ self.now) }
    {
        Ok(Index {
            known: self.known.copy()?,
            least: self.least.clone()?,
        })
    }
}

/// The most heads that are gone over without an index.
const FEW: usize = 8;

/// The index of these versions where they are many, if there is memory for it.
pub(crate) fn index_of_many(alloc: Global, versions: &[Version]) -> Option<Index>
    ensures { IfSome result (λ i. IsIndex i versions.now) }
{
    if versions.len() <= FEW {
        return None;
    }
    Index::of(alloc, versions).ok()
}

/// The index if there is one, else that of these versions where they are many, if there is memory
/// for it.
pub(crate) fn index_or_new(
    index: Option<Index>,
    alloc: Global,
    versions: &[Version],
) -> Option<Index>
    requires { IfSome index (λ i. IsIndex i versions.now) }
    ensures { IfSome result (λ i. IsIndex i versions.now) }
{
    match index {
        Some(index) => Some(index),
        None => index_of_many(alloc, versions),
    }
}

/// The index with a version more, wherever it stands, if there was one and there is memory for it.
pub(crate) fn index_with(index: Option<Index>, version: &Version) -> Option<Index>
    ensures { (front back : List VersionValue) → IfSome index (λ i. IsIndex i (front ++ back))
        → IfSome result (λ i. IsIndex i (front ++ version.now ∷ back)) }
{
    let mut index = index?;
    match index.add(version) {
        Ok(()) => Some(index),
        Err(_) => None,
    }
}

/// Raises the numbers of all that the vector names. After a refusal a part may be done.
fn raise_all(known: &mut Vector, vector: &Vector) -> Result<(), AllocError>
    ensures known { OnOk result (known.new ≡ joined vector.now known.old) }
    ensures vector { IsVector vector.now }
{
    for index in (0..vector.len()).rev() {
        raise_at(known, vector, index)?;
    }
    Ok(())
}

/// Raises the number of the actor that the vector names at the index, if there is one.
fn raise_at(known: &mut Vector, vector: &Vector, index: usize) -> Result<(), AllocError>
    ensures { OnOk result ((rest : List (Actor × ℕ))
        → known.old ≡ joined (drop (index + 1) vector.now) rest
        → known.new ≡ joined (drop index vector.now) rest) }
{
    match vector.at(index) {
        Some((actor, number)) => {
            known.raise(actor, number)?;
            Ok(())
        }
        None => Ok(()),
    }
}

/// Lowers the actor's number to this one, where it has a greater one or none.
fn lower(least: &mut BTreeMap<Actor, u64>, actor: Actor, number: u64) -> Result<(), AllocError>
    ensures { OnOk result ((e : Actor × ℕ) → covers_least least.new.entries e
        ≡ (is_from actor number e || covers_least least.old.entries e)) }
{
    let number = match least.get(&actor) {
        Some(old) => number.min(*old),
        None => number,
    };
    least.insert(actor, number)?;
    Ok(())
}
