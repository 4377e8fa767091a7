//! What a directory knows of one child.

ghost use Rattle.std.specs.Prelude.{◌≡◌, ◌≢◌, ◌↔◌, IfOk, OnOk, IsTrue};
ghost use Rattle.pg_register.specs.Place.{newer_place};
ghost use Rattle.pg_entries.specs.Entry.{brings_change, covers, is_listed, joined};

use pg_base::FileId;
use pg_register::{GoldFlags, Place};
use std::alloc::AllocError;

/// A copy of the place and the flags of a child.
#[derive(Debug, Drop)]
pub struct Entry {
    pub child: FileId,
    pub place: Place,
    pub flags: GoldFlags,
}

impl Entry {
    /// Whether the child stands in this directory.
    pub fn is_listed(&self, dir: FileId) -> bool
        ensures { result ≡ is_listed dir self.now }
    {
        self.place.live && self.place.parent.compare(&dir).is_eq()
    }

    /// Whether to join the other would change nothing.
    pub fn covers(&self, other: &Entry) -> bool
        ensures covers { result ≡ covers self.now other.now }
        ensures no_change { IsTrue result ↔ (joined self.now other.now ≡ self.now) }
    {
        !self.place.stamp.is_before(other.place.stamp) && self.flags.covers_all(&other.flags)
    }

    /// Takes the newer place and the newer flags. Tells whether something changed. After want of
    /// memory a part of it may be taken.
    pub fn join(&mut self, other: Entry) -> Result<bool, AllocError>
        ensures joined { OnOk result (self.new ≡ joined self.old other) }
        ensures news { IfOk result (λ changed. changed ≡ brings_change self.old other) }
        ensures changed { IfOk result (λ changed. IsTrue changed ↔ (self.new ≢ self.old)) }
        ensures child { self.new.child ≡ self.old.child }
    {
        Ok(self.take(other)?)
    }

    /// The same, of which the place is known also after want of memory.
    pub(crate) fn take(&mut self, other: Entry) -> Result<bool, AllocError>
        ensures joined { OnOk result (self.new ≡ joined self.old other) }
        ensures news { IfOk result (λ changed. changed ≡ brings_change self.old other) }
        ensures changed { IfOk result (λ changed. IsTrue changed ↔ (self.new ≢ self.old)) }
        ensures child { self.new.child ≡ self.old.child }
        ensures place { self.new.place ≡ newer_place self.old.place other.place }
    {
        let moved = self.place.join(other.place);
        let flagged = self.flags.join_all(&other.flags)?;
        Ok(moved || flagged)
    }

    /// Copies the entry.
    pub fn copy(&self) -> Result<Entry, AllocError>
        ensures { IfOk result (λ entry. entry ≡ self.now) }
    {
        Ok(Entry {
            child: self.child,
            place: self.place.copy()?,
            flags: self.flags.copy()?,
        })
    }
}

impl Clone for Entry {
    ghost use Rattle.std.specs.Prelude.{◌≡◌};

    ghost is_clone = { λ held copy. copy ≡ held };

    ghost is_infallible = { λ _. ⊥ };

    fn clone(&self) -> Result<Entry, AllocError> {
        self.copy()
    }
}
