//! What a server knows of names, without indexes.

ghost use Rattle.std.specs.Prelude.{◌≡◌, ◌<◌, ◌^◌, max, IfOk, OnErr, OnOk};
ghost use Rattle.std.specs.Option.{option_copied};
ghost use Rattle.std.specs.List.Sorted.{IsStrictlySortedBy};
ghost use Rattle.std.specs.Map.{keys_of};
ghost use Rattle.pg_base.specs.Id.{file_cmp};
ghost use Rattle.pg_base.specs.Stamp.{next_stamp};
ghost use Rattle.pg_names.specs.Names.{begin, cell_at, fill, is_flag_new, is_place_new, join_flag, join_place, known, let_go, new_names, own_at, raise, remove_server, set_entry, set_own, with_last};

use crate::attributes::Attributes;
use crate::inode::Inode;
use pg_base::{FileId, Items, NodeId, Stamp};
use pg_entries::Entry;
use pg_register::{Flag, Place};
use std::alloc::{AllocError, Global};
use std::collections::BTreeMap;
use std::marker::Model;

/// What a server holds of files and directories, by id. Beside them the greatest time of a stamp
/// that it made or took, and the servers that were removed in its view.
#[derive(Debug, Drop)]
pub(crate) struct Held {
    alloc: Global,
    server: NodeId,
    last: u64,
    removed: Items<NodeId>,
    held: BTreeMap<FileId, Inode>,
}

impl Model for Held {
    ghost use Rattle.pg_names.specs.Names.{NamesValue};

    ghost Value = { NamesValue };

    ghost view = { λ s. record {
      server = s.server;
      last = s.last;
      removed = s.removed;
      held = s.held.entries;
    } };
}

impl Held {
    /// A server that holds nothing. It takes no memory.
    pub(crate) fn new(alloc: Global, server: NodeId) -> Held
        ensures { result ≡ new_names server }
    {
        Held {
            alloc,
            server,
            last: 0,
            removed: Items::new(alloc),
            held: BTreeMap::new(alloc),
        }
    }

    pub(crate) fn allocator(&self) -> Global {
        self.alloc
    }

    pub(crate) fn server(&self) -> NodeId
        ensures { result ≡ self.now.server }
    {
        self.server
    }

    /// The greatest time of a stamp that the server made or took.
    pub(crate) fn last(&self) -> u64
        ensures { result ≡ self.now.last }
    {
        self.last
    }

    /// The servers that were removed in this view.
    pub(crate) fn removed(&self) -> &[NodeId]
        ensures { result.now ≡ self.now.removed }
    {
        self.removed.as_slice()
    }

    /// One server more is removed in this view.
    pub(crate) fn remove_server(&mut self, server: NodeId) -> Result<(), AllocError>
        ensures ok { OnOk result (self.new ≡ remove_server self.old server) }
        ensures err { OnErr result (self.new ≡ self.old) }
    {
        self.removed.push(server)?;
        Ok(())
    }

    /// What is held, to go through it by id.
    pub(crate) fn as_map(&self) -> &BTreeMap<FileId, Inode>
        ensures held { result.now.entries ≡ self.now.held }
        ensures sorted { IsStrictlySortedBy file_cmp (keys_of self.now.held) }
    {
        let _count = self.held.len();
        &self.held
    }

    pub(crate) fn get(&self, file: &FileId) -> Option<&Inode>
        ensures { option_copied result ≡ known self.now file.now }
    {
        self.held.get(file)
    }

    /// The own place and flags of a thing.
    pub(crate) fn own(&self, file: &FileId) -> Option<&Attributes>
        ensures { option_copied result ≡ own_at self.now file.now }
    {
        match self.get(file) {
            Some(held) => Some(held.own()),
            None => None,
        }
    }

    /// The cell for a child in a directory.
    pub(crate) fn entry(&self, dir: &FileId, child: &FileId) -> Option<&Entry>
        ensures { option_copied result ≡ cell_at self.now dir.now child.now }
    {
        match self.get(dir) {
            Some(held) => held.entries().get(*child),
            None => None,
        }
    }

    /// One thing more is held, full or filling, with this place and these flags, and no entry.
    pub(crate) fn begin(
        &mut self,
        file: FileId,
        own: Attributes,
        full: bool,
    ) -> Result<(), AllocError>
        ensures ok { OnOk result (self.new ≡ begin self.old file own full) }
        ensures err { OnErr result (self.new ≡ self.old) }
    {
        let held = Inode::new(self.alloc, own, full);
        self.held.insert(file, held)?;
        Ok(())
    }

    /// A thing is held no longer.
    pub(crate) fn let_go(&mut self, file: &FileId)
        ensures { self.new ≡ let_go self.old file.now }
    {
        let _held = self.held.len();
        self.held.remove(file);
    }

    /// A held thing is full from now on.
    pub(crate) fn fill(&mut self, file: &FileId)
        ensures { self.new ≡ fill self.old file.now }
    {
        let Some(held) = self.held.get_mut(file) else {
            return;
        };
        held.fill();
    }

    /// The own place and flags of a held thing are these from now on.
    pub(crate) fn set_own(&mut self, file: &FileId, own: Attributes)
        ensures { self.new ≡ set_own self.old file.now own }
    {
        let Some(held) = self.held.get_mut(file) else {
            return;
        };
        held.set_own(own);
    }

    /// A held directory's cell for a child is this one from now on, whole.
    pub(crate) fn set_entry(&mut self, dir: &FileId, entry: Entry) -> Result<(), AllocError>
        ensures ok { OnOk result (self.new ≡ set_entry self.old dir.now entry) }
        ensures err { OnErr result (self.new ≡ self.old) }
    {
        let Some(held) = self.held.get_mut(dir) else {
            return Ok(());
        };
        held.set_entry(entry)?;
        Ok(())
    }

    /// A place came to a held thing, which takes it where it is newer. Tells whether the place
    /// changed.
    pub(crate) fn join_place(&mut self, file: &FileId, place: Place) -> bool
        ensures joined { self.new ≡ join_place self.old file.now place }
        ensures news { result ≡ is_place_new (own_at self.old file.now) place }
    {
        let Some(held) = self.held.get_mut(file) else {
            return false;
        };
        held.join_place(place)
    }

    /// A flag came to a held thing, which takes it where it is newer. Tells whether the flag of
    /// that server changed.
    pub(crate) fn join_flag(&mut self, file: &FileId, flag: Flag) -> Result<bool, AllocError>
        ensures joined { OnOk result (self.new ≡ join_flag self.old file.now flag) }
        ensures err { OnErr result (self.new ≡ self.old) }
        ensures news { IfOk result (λ news. news ≡ is_flag_new (own_at self.old file.now) flag) }
    {
        let Some(held) = self.held.get_mut(file) else {
            return Ok(false);
        };
        Ok(held.join_flag(flag)?)
    }

    /// A stamp of this time was taken.
    pub(crate) fn raise(&mut self, time: u64)
        ensures { self.new ≡ raise self.old time }
    {
        self.last = self.last.max(time);
    }

    /// The stamp of the next place or version.
    pub(crate) fn draw_stamp(&mut self, moment: u64) -> Stamp
        requires { self.old.last < 2 ^ 63 }
        ensures stamp { result ≡ next_stamp moment self.old.last self.old.server }
        ensures last { self.new ≡ with_last self.old result.time }
    {
        let stamp = Stamp::next(moment, self.last, self.server);
        self.last = stamp.time;
        stamp
    }
}
