//! What a server holds of one file or directory.

ghost use Rattle.std.specs.Prelude.{◌≡◌, IfOk, OnOk, OnErr};
ghost use Rattle.std.specs.Option.{option_copied};
ghost use Rattle.pg_register.specs.Flag as flags;
ghost use Rattle.pg_register.specs.Flag.{flag_of};
ghost use Rattle.pg_base.specs.Stamp.{is_before};
ghost use Rattle.pg_entries.specs.Entry.{brings, entry_of, joined_to};
ghost use Rattle.pg_names.specs.Names.{filled, new_held, with_entry, with_flag, with_own, with_place};

use crate::attributes::Attributes;
use pg_entries::{Entries, Entry};
use pg_register::{Flag, Place};
use std::alloc::{AllocError, Global};
use std::marker::Model;

/// The own place and flags of a thing, and the entries of a directory.
#[derive(Debug, Drop)]
pub struct Inode {
    /// Whether it is full: it has all that the replica had from which it was filled. Else it is
    /// filling, and no call is answered from it.
    full: bool,
    own: Attributes,
    entries: Entries,
}

impl Model for Inode {
    ghost use Rattle.pg_names.specs.Names.{InodeValue};

    ghost Value = { InodeValue };

    ghost view = { λ s. record { full = s.full; own = s.own; entries = s.entries } };
}

impl Inode {
    /// A thing with this place and these flags, and no entry. It takes no memory.
    pub(crate) fn new(alloc: Global, own: Attributes, full: bool) -> Inode
        ensures { result ≡ new_held own full }
    {
        Inode {
            full,
            own,
            entries: Entries::new(alloc),
        }
    }

    /// Whether it is full, and not filling.
    pub fn is_full(&self) -> bool
        ensures { result ≡ self.now.full }
    {
        self.full
    }

    /// The inode is full from now on.
    pub(crate) fn fill(&mut self)
        ensures { self.new ≡ filled self.old }
    {
        self.full = true;
    }

    pub fn own(&self) -> &Attributes
        ensures { result.now ≡ self.now.own }
    {
        &self.own
    }

    pub fn entries(&self) -> &Entries
        ensures { result.now ≡ self.now.entries }
    {
        &self.entries
    }

    pub(crate) fn set_own(&mut self, own: Attributes)
        ensures { self.new ≡ with_own own self.old }
    {
        self.own = own;
    }

    pub(crate) fn set_entry(&mut self, entry: Entry) -> Result<(), AllocError>
        ensures ok { OnOk result (self.new ≡ with_entry entry self.old) }
        ensures err { OnErr result (self.new ≡ self.old) }
    {
        self.entries.put(entry)?;
        Ok(())
    }

    /// Takes the newer place. Tells whether it changed.
    pub(crate) fn join_place(&mut self, place: Place) -> bool
        ensures joined { self.new ≡ with_place place self.old }
        ensures news { result ≡ is_before self.old.own.place.stamp place.stamp }
    {
        self.own.place.join(place)
    }

    /// Takes the newer flag of its server. Tells whether it changed.
    pub(crate) fn join_flag(&mut self, flag: Flag) -> Result<bool, AllocError>
        ensures joined { OnOk result (self.new ≡ with_flag flag self.old) }
        ensures err { OnErr result (self.new ≡ self.old) }
        ensures news { IfOk result
            (λ news. news ≡ flags.is_new (flag_of self.old.own.flags flag.server) flag) }
    {
        Ok(self.own.flags.join(flag)?)
    }

    /// The cell for a child after this one came, and whether it brings something.
    pub(crate) fn joined(&self, entry: Entry) -> Result<(Entry, bool), AllocError>
        ensures cell { IfOk result
            (λ r. r.0 ≡ joined_to (entry_of self.now.entries entry.child) entry) }
        ensures child { IfOk result (λ r. r.0.child ≡ entry.child) }
        ensures news { IfOk result
            (λ r. r.1 ≡ brings (entry_of self.now.entries entry.child) entry) }
    {
        let _by_child = self.entries.as_map();
        match self.entries.get(entry.child) {
            Some(held) => {
                let mut joined = held.copy()?;
                let news = joined.join(entry)?;
                Ok((joined, news))
            }
            None => Ok((entry, true)),
        }
    }
}
