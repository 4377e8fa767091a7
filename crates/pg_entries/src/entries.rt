//! What a directory knows of its children.

ghost use Rattle.std.specs.Prelude.{◌≡◌, ◌≢◌, ◌↔◌, [], Some, IfOk, OnOk, OnErr, IsTrue, length, slice_get, true, IfSome, IfNone};
ghost use Rattle.std.specs.Option.{option_copied, option_map};
ghost use Rattle.pg_base.specs.declared.id.FileId.{FileId};
ghost use Rattle.pg_index.specs.Ids.{is_one_of};
ghost use Rattle.pg_entries.specs.declared.entry.Entry.{Entry};
ghost use Rattle.pg_entries.specs.Entry.{IsByChild, brings, count_listed, covers_entry, entry_of, is_listed, join_entry, lists, lists_any, put_entry};
ghost use Rattle.pg_entries.specs.Shown.{claim_of, find_of, first_claim, is_beaten, is_hidden, is_rival, lesser, shows};
ghost use Rattle.pg_entries.specs.Names.{same_name};
ghost use Rattle.pg_entries.specs.Slots.{AreFit, lesser_of, shown_by, take_listed};

use crate::claim::Claim;
use crate::entry::Entry;
use crate::named::{enter, index_of, leave, slots_of_join, slots_of_put};
use crate::slot::slot_of;
use crate::tilde::{id_behind, is_with_id};
use pg_base::FileId;
use pg_index::Lists;
use std::alloc::{AllocError, Global};
use std::collections::BTreeMap;
use std::marker::Model;

/// The entries of a directory, one for each child, by child, and an index of them by name.
#[derive(Debug, Drop)]
pub struct Entries {
    pub(crate) alloc: Global,
    pub(crate) entries: BTreeMap<FileId, Entry>,
    pub(crate) named: Lists,
}

impl Model for Entries {
    ghost use Rattle.std.specs.Prelude.{List};
    ghost use Rattle.pg_base.specs.declared.id.FileId.{FileId};
    ghost use Rattle.pg_entries.specs.declared.entry.Entry.{Entry};

    ghost Value = { List (FileId × Entry) };

    ghost use Rattle.pg_entries.specs.EntriesInside.{IsIndexed};

    ghost view = { λ s. s.entries.entries };

    ghost invariant = { IsIndexed };
}

impl Entries {
    /// No entry. It takes no memory.
    pub fn new(alloc: Global) -> Entries
        ensures { result ≡ [] }
    {
        Entries {
            alloc,
            entries: BTreeMap::new(alloc),
            named: Lists::new(alloc),
        }
    }

    pub fn count(&self) -> usize
        ensures count { result ≡ length self.now }
        ensures by_child { IsByChild self.now }
    {
        self.entries.len()
    }

    /// The entry of a child.
    pub fn get(&self, child: FileId) -> Option<&Entry>
        ensures { option_copied result ≡ entry_of self.now child }
    {
        self.entries.get(&child)
    }

    /// The entry at index `k`, by child.
    pub fn at(&self, k: usize) -> Option<&Entry>
        ensures entry { option_copied result ≡ option_map (λ e. e.1) (slice_get self.now k) }
        ensures by_child { IsByChild self.now }
    {
        self.entries.values().nth(k)
    }

    /// The entries, to go through them by child.
    pub fn as_map(&self) -> &BTreeMap<FileId, Entry>
        ensures entries { result.now.entries ≡ self.now }
        ensures by_child { IsByChild self.now }
    {
        let _count = self.count();
        &self.entries
    }

    /// Whether the directory lists a child.
    pub fn lists_any(&self, dir: FileId) -> bool
        ensures { result ≡ lists_any self.now dir }
    {
        self.entries.values().any(|entry| entry.is_listed(dir))
    }

    /// How many children the directory lists.
    pub fn count_listed(&self, dir: FileId) -> usize
        ensures { result ≡ count_listed self.now dir }
    {
        self.entries
            .values()
            .filter(|entry| entry.is_listed(dir))
            .count()
    }

    /// Whether to join the entry would change nothing.
    pub fn covers(&self, entry: &Entry) -> bool
        ensures covers { result ≡ covers_entry self.now entry.now }
        ensures no_change { IsTrue result ↔ (join_entry self.now entry.now ≡ self.now) }
    {
        let _count = self.count();
        match self.get(entry.child) {
            Some(held) => held.covers(entry),
            None => false,
        }
    }

    /// Whether the directory lists the child.
    pub fn lists(&self, dir: FileId, child: FileId) -> bool
        ensures { result ≡ lists self.now dir child }
    {
        match self.get(child) {
            Some(entry) => entry.is_listed(dir),
            None => false,
        }
    }

    /// Takes what is newer in the entry, or the whole entry of a new child. Tells whether something
    /// changed. After out of memory a part may be taken.
    pub fn join_cell(&mut self, entry: Entry) -> Result<bool, AllocError>
        ensures joined { OnOk result (self.new ≡ join_entry self.old entry) }
        ensures news { IfOk result (λ new. new ≡ brings (entry_of self.old entry.child) entry) }
        ensures changed { IfOk result (λ changed. IsTrue changed ↔ (self.new ≢ self.old)) }
    {
        let child = entry.child;
        let slots = slots_of_join(&self.entries, &entry);
        enter(&mut self.named, slots.next, child)?;
        match self.entries.get_mut(&child) {
            Some(held) => {
                let changed = held.take(entry)?;
                leave(&mut self.named, &slots, &child);
                Ok(changed)
            }
            None => {
                self.entries.insert(child, entry)?;
                Ok(true)
            }
        }
    }

    /// Makes this entry the one of its child.
    pub fn put(&mut self, entry: Entry) -> Result<(), AllocError>
        ensures ok { OnOk result (self.new ≡ put_entry self.old entry) }
        ensures err { OnErr result (self.new ≡ self.old) }
    {
        let child = entry.child;
        let slots = slots_of_put(&self.entries, &entry);
        enter(&mut self.named, slots.next, child)?;
        self.entries.insert(child, entry)?;
        leave(&mut self.named, &slots, &child);
        Ok(())
    }

    /// The child that shows this name in the directory.
    pub fn find(&self, dir: FileId, shown: &[u8]) -> Option<FileId>
        ensures { result ≡ find_of self.now dir shown.now }
    {
        self.keeps();
        let first = self.first_claim(dir, shown);
        let plain = self.showing(dir, shown, &first, claimant(&first));
        let tilde = self.showing(dir, shown, &first, id_behind(shown));
        lesser_id(plain, tilde)
    }

    /// Copies the entries.
    pub fn copy(&self) -> Result<Entries, AllocError>
        ensures { IfOk result (λ entries. entries ≡ self.now) }
    {
        Ok(Entries {
            alloc: self.alloc,
            entries: self.entries.clone()?,
            named: index_of(self.alloc, &self.entries)?,
        })
    }

    /// The first claim on this name, among the children of the directory that have it.
    pub(crate) fn first_claim(&self, dir: FileId, name: &[u8]) -> Option<Claim>
        ensures { result ≡ first_claim self.now dir name.now }
    {
        self.keeps();
        let mut first = None;
        for child in self.listed(dir, name) {
            first = self.earlier(dir, name, first, *child);
        }
        first
    }

    /// The claim that goes first, of the one so far and the child's, if it has this name there.
    fn earlier(
        &self,
        dir: FileId,
        name: &[u8],
        first: Option<Claim>,
        child: FileId,
    ) -> Option<Claim>
        ensures { result ≡ take_listed self.now dir name.now first child }
    {
        match self.get(child) {
            Some(entry) => {
                if is_rival(entry, dir, name) {
                    Some(lesser(&first, Claim::of(entry)))
                } else {
                    first
                }
            }
            None => first,
        }
    }

    /// The children at the slot of a name, among which are all in the directory that have it.
    fn listed(&self, dir: FileId, name: &[u8]) -> &[FileId]
        ensures { (child : FileId) (e : Entry) → entry_of self.now child ≡ Some e
            → is_rival dir name.now e ≡ true → is_one_of child result.now ≡ true }
    {
        self.named.get(&slot_of(dir, name)).as_slice()
    }

    /// What holds of all entries.
    fn keeps(&self)
        ensures by_child { IsByChild self.now }
        ensures fit { AreFit self.now }
    {
        let _count = self.entries.len();
    }

    /// The child, if it shows this name, where `first` is the first claim on it.
    fn showing(
        &self,
        dir: FileId,
        shown: &[u8],
        first: &Option<Claim>,
        child: Option<FileId>,
    ) -> Option<FileId>
        requires { first.now ≡ first_claim self.now dir shown.now }
        ensures { result ≡ shown_by self.now dir shown.now child }
    {
        let child = child?;
        let entry = self.get(child)?;
        if self.shows(dir, entry, shown, first) {
            Some(child)
        } else {
            None
        }
    }

    /// Whether the entry's child shows this name, where `first` is the first claim on it.
    fn shows(&self, dir: FileId, entry: &Entry, shown: &[u8], first: &Option<Claim>) -> bool
        requires { first.now ≡ first_claim self.now dir shown.now }
        ensures { result ≡ shows self.now dir shown.now entry.now }
    {
        let name = entry.place.name.as_slice();
        if !entry.is_listed(dir) {
            false
        } else if name.cmp(shown).is_eq() {
            !is_beaten(first, &Claim::of(entry))
        } else {
            is_with_id(shown, name, entry.child)
                && is_beaten(&self.first_claim(dir, name), &Claim::of(entry))
        }
    }
}

/// Whether the entry's child stands in the directory with this name.
pub(crate) fn is_rival(entry: &Entry, dir: FileId, name: &[u8]) -> bool
    ensures { result ≡ is_rival dir name.now entry.now }
{
    entry.is_listed(dir) && entry.place.name.as_slice().cmp(name).is_eq()
}

/// The child that has the claim.
fn claimant(first: &Option<Claim>) -> Option<FileId>
    ensures { result ≡ option_map (λ c. c.child) first.now }
{
    match first {
        Some(claim) => Some(claim.child),
        None => None,
    }
}

/// The lesser of two ids, where there are two.
fn lesser_id(id: Option<FileId>, other: Option<FileId>) -> Option<FileId>
    ensures { result ≡ lesser_of id other }
{
    let Some(a) = id else {
        return other;
    };
    match other {
        Some(b) if b.compare(&a).is_lt() => Some(b),
        _ => Some(a),
    }
}

/// The claim that goes first.
pub(crate) fn lesser(first: &Option<Claim>, claim: Claim) -> Claim
    ensures { result ≡ lesser first.now claim }
{
    match first {
        Some(held) if !claim.goes_first(held) => *held,
        _ => claim,
    }
}

/// Whether a claim goes before this one.
pub(crate) fn is_beaten(first: &Option<Claim>, claim: &Claim) -> bool
    ensures { result ≡ is_beaten first.now claim.now }
{
    match first {
        Some(held) => held.goes_first(claim),
        None => false,
    }
}
