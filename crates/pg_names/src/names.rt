//! What a server knows of names.

ghost use Rattle.std.specs.Prelude.{◌≡◌, ◌<◌, ◌^◌, max, length, IfOk, OnErr, OnOk};
ghost use Rattle.std.specs.Option.{option_copied};
ghost use Rattle.std.specs.List.Sorted.{IsStrictlySortedBy};
ghost use Rattle.std.specs.Map.{keys_of};
ghost use Rattle.pg_base.specs.Id.{file_cmp};
ghost use Rattle.pg_register.specs.Flag.{is_removed};
ghost use Rattle.pg_base.specs.Stamp.{next_stamp};
ghost use Rattle.pg_names.specs.Calm.{AllCome, AreCalm, children, holders};
ghost use Rattle.pg_names.specs.Names.{begin, cell_at, directories, fill, is_entry_new, is_flag_new, is_full, is_held, is_place_new, join_entry, join_flag, join_place, known, let_go, new_names, own_at, own_or_blank, raise, remove_server, set_entry, set_own, with_last};

use crate::attributes::Attributes;
use crate::calm::is_calm;
use crate::held::Held;
use crate::inode::Inode;
use crate::marks::{enter, leave, mark_all, mark_each, put_cell};
use crate::spots::{Spot, Spots, newer_spot};
use pg_base::{FileId, Items, NodeId, Stamp};
use pg_entries::Entry;
use pg_index::{Ids, Lists};
use pg_register::{Flag, Place, is_removed};
use std::alloc::{AllocError, Global};
use std::collections::BTreeMap;
use std::marker::Model;

/// What a server holds of files and directories, apart from contents and edges: places, flags and
/// entries, by id. Beside them the greatest time of a stamp that it made or took, and the servers
/// that were removed in its view. It is kept which things stand in a directory, which have a cell
/// for a thing, and which may not be calm.
#[derive(Debug, Drop)]
pub struct Names {
    held: Held,
    dirty: Ids,
    dirs: Ids,
    spots: Spots,
    holders: Lists,
}

impl Model for Names {
    ghost use Rattle.pg_names.specs.Names.{NamesValue};

    ghost Value = { NamesValue };

    ghost use Rattle.pg_names.specs.Indexed.{IsIndexed};

    ghost view = { λ s. s.held };

    ghost invariant = { λ s. IsIndexed s.held s.dirty s.dirs s.spots s.holders };
}

impl Names {
    /// A server that holds nothing. It takes no memory.
    pub fn new(alloc: Global, server: NodeId) -> Names
        ensures { result ≡ new_names server }
    {
        Names {
            held: Held::new(alloc, server),
            dirty: Ids::new(alloc),
            dirs: Ids::new(alloc),
            spots: Spots::new(alloc),
            holders: Lists::new(alloc),
        }
    }

    pub fn allocator(&self) -> Global {
        self.held.allocator()
    }

    pub fn server(&self) -> NodeId
        ensures { result ≡ self.now.server }
    {
        self.held.server()
    }

    /// The greatest time of a stamp that the server made or took.
    pub fn last(&self) -> u64
        ensures { result ≡ self.now.last }
    {
        self.held.last()
    }

    /// The servers that were removed in this view.
    pub fn removed(&self) -> &[NodeId]
        ensures { result.now ≡ self.now.removed }
    {
        self.held.removed()
    }

    /// Whether a server was removed in this view.
    pub fn is_removed(&self, server: NodeId) -> bool
        ensures { result ≡ is_removed self.now.removed server }
    {
        is_removed(self.removed(), server)
    }

    /// One server more is removed in this view. No held thing is taken to be calm then.
    pub fn remove_server(&mut self, server: NodeId) -> Result<(), AllocError>
        ensures { OnOk result (self.new ≡ remove_server self.old server) }
    {
        mark_all(&mut self.dirty, &self.held)?;
        self.held.remove_server(server)?;
        Ok(())
    }

    /// What is held, to go through it by id.
    pub fn as_map(&self) -> &BTreeMap<FileId, Inode>
        ensures held { result.now.entries ≡ self.now.held }
        ensures sorted { IsStrictlySortedBy file_cmp (keys_of self.now.held) }
    {
        self.held.as_map()
    }

    /// The ids of the directories that are held, in order.
    pub fn directories(&self) -> Result<Items<FileId>, AllocError>
        ensures { IfOk result (λ dirs. dirs ≡ directories self.now) }
    {
        self.dirs().copy(self.allocator())
    }

    /// The same, to go through them.
    pub fn dirs(&self) -> &Ids
        ensures { result.now ≡ directories self.now }
    {
        let _held = self.held.as_map();
        let _dirs = self.dirs.as_slice();
        &self.dirs
    }

    /// How many directories are held.
    pub fn directory_count(&self) -> usize
        ensures { result ≡ length (directories self.now) }
    {
        self.dirs().len()
    }

    /// The held things other than the root whose live place is in this directory.
    pub fn children(&self, dir: &FileId) -> &Ids
        ensures { result.now ≡ children self.now dir.now }
    {
        let _held = self.held.as_map();
        let found = self.spots.at(true, dir);
        let _found = found.as_slice();
        found
    }

    /// The held things that have a cell for this one.
    pub fn holders(&self, child: &FileId) -> &Ids
        ensures { result.now ≡ holders self.now child.now }
    {
        let _held = self.held.as_map();
        let found = self.holders.get(child);
        let _found = found.as_slice();
        found
    }

    /// The things that may not be calm: what is held and not among them is, and stands in no cycle
    /// unless one of them does.
    pub fn dirty(&self) -> &Ids
        ensures calm { AreCalm self.now result.now }
        ensures come { AllCome self.now result.now }
    {
        &self.dirty
    }

    /// Looks which of the things that may not be calm are calm, to go through fewer from now on.
    pub fn settle(&mut self) -> Result<(), AllocError>
        ensures { self.new ≡ self.old }
    {
        let files = self.dirty.copy(self.held.allocator())?;
        // From the last on: one that goes moves only those that stay behind it.
        for file in files.as_slice().iter().rev() {
            self.settle_one(file);
        }
        Ok(())
    }

    /// The thing is marked no longer, if it is calm.
    fn settle_one(&mut self, file: &FileId)
        ensures { self.new ≡ self.old }
    {
        if is_calm(&self.held, self.holders.get(file), self.dirs.len(), file) {
            self.dirty.remove(file);
        }
    }

    pub fn get(&self, file: &FileId) -> Option<&Inode>
        ensures { option_copied result ≡ known self.now file.now }
    {
        self.held.get(file)
    }

    /// The own place and flags of a thing.
    pub fn own(&self, file: &FileId) -> Option<&Attributes>
        ensures { option_copied result ≡ own_at self.now file.now }
    {
        self.held.own(file)
    }

    /// A copy of the own place and flags of a thing: where it is not held the blank place, and no
    /// flag.
    pub fn own_or_blank(&self, file: FileId) -> Result<Attributes, AllocError>
        ensures { IfOk result (λ own. own ≡ own_or_blank self.now file) }
    {
        match self.own(&file) {
            Some(own) => own.copy(),
            None => Attributes::blank(self.allocator(), file),
        }
    }

    /// The place alone.
    pub fn place_or_blank(&self, file: FileId) -> Result<Place, AllocError>
        ensures { IfOk result (λ place. place ≡ (own_or_blank self.now file).place) }
    {
        match self.own(&file) {
            Some(own) => own.place.copy(),
            None => Place::blank(self.allocator(), file),
        }
    }

    /// The cell for a child in a directory.
    pub fn entry(&self, dir: &FileId, child: &FileId) -> Option<&Entry>
        ensures { option_copied result ≡ cell_at self.now dir.now child.now }
    {
        self.held.entry(dir, child)
    }

    /// Whether the thing is held, full or filling.
    pub fn is_held(&self, file: &FileId) -> bool
        ensures { result ≡ is_held self.now file.now }
    {
        self.get(file).is_some()
    }

    /// Whether the thing is held and full.
    pub fn is_full(&self, file: &FileId) -> bool
        ensures { result ≡ is_full self.now file.now }
    {
        match self.get(file) {
            Some(held) => held.is_full(),
            None => false,
        }
    }

    /// One thing more is held, full or filling, with this place and these flags, and no entry.
    pub fn begin(&mut self, file: FileId, own: Attributes, full: bool) -> Result<(), AllocError>
        ensures { OnOk result (self.new ≡ begin self.old file own full) }
    {
        let _held = self.as_map();
        self.let_go(&file)?;
        self.dirty.insert(file)?;
        mark_each(&mut self.dirty, self.spots.at(true, &file))?;
        mark_each(&mut self.dirty, self.spots.at(false, &file))?;
        enter(
            &mut self.held,
            &mut self.dirs,
            &mut self.spots,
            file,
            own,
            full,
        )?;
        Ok(())
    }

    /// A thing is held no longer. After a refusal all is as before.
    pub fn let_go(&mut self, file: &FileId) -> Result<(), AllocError>
        ensures ok { OnOk result (self.new ≡ let_go self.old file.now) }
        ensures err { OnErr result (self.new ≡ self.old) }
    {
        mark_each(&mut self.dirty, self.spots.at(true, file))?;
        leave(&self.held, &mut self.spots, &mut self.holders, file);
        self.dirs.remove(file);
        self.held.let_go(file);
        Ok(())
    }

    /// A held thing is full from now on.
    pub fn fill(&mut self, file: &FileId)
        ensures { self.new ≡ fill self.old file.now }
    {
        self.held.fill(file);
    }

    /// The own place and flags of a held thing are these from now on. After a refusal all is as
    /// before.
    pub fn set_own(&mut self, file: &FileId, own: Attributes) -> Result<(), AllocError>
        ensures ok { OnOk result (self.new ≡ set_own self.old file.now own) }
        ensures err { OnErr result (self.new ≡ self.old) }
    {
        let Some(before) = self.held.own(file) else {
            return Ok(());
        };
        self.dirty.insert(*file)?;
        let from = Spot::of(&before.place);
        let to = Spot::of(&own.place);
        self.spots.shift(*file, from, to)?;
        self.held.set_own(file, own);
        Ok(())
    }

    /// A held directory's cell for a child is this one from now on, whole. After a refusal all is
    /// as before.
    pub fn set_entry(&mut self, dir: &FileId, entry: Entry) -> Result<(), AllocError>
        ensures ok { OnOk result (self.new ≡ set_entry self.old dir.now entry) }
        ensures err { OnErr result (self.new ≡ self.old) }
    {
        if self.held.get(dir).is_none() {
            return Ok(());
        }
        self.dirty.insert(*dir)?;
        self.dirty.insert(entry.child)?;
        put_cell(&mut self.held, &mut self.holders, dir, entry)?;
        Ok(())
    }

    /// A place came to a held thing, which takes it where it is newer. Tells whether the place
    /// changed. After a refusal all is as before.
    pub fn join_place(&mut self, file: &FileId, place: Place) -> Result<bool, AllocError>
        ensures joined { OnOk result (self.new ≡ join_place self.old file.now place) }
        ensures news { IfOk result (λ news. news ≡ is_place_new (own_at self.old file.now) place) }
        ensures err { OnErr result (self.new ≡ self.old) }
    {
        let Some(before) = self.held.own(file) else {
            return Ok(false);
        };
        self.dirty.insert(*file)?;
        let from = Spot::of(&before.place);
        let to = newer_spot(&before.place, &place);
        self.spots.shift(*file, from, to)?;
        Ok(self.held.join_place(file, place))
    }

    /// A flag came to a held thing, which takes it where it is newer. Tells whether the flag of
    /// that server changed. After a refusal all is as before.
    pub fn join_flag(&mut self, file: &FileId, flag: Flag) -> Result<bool, AllocError>
        ensures joined { OnOk result (self.new ≡ join_flag self.old file.now flag) }
        ensures news { IfOk result (λ news. news ≡ is_flag_new (own_at self.old file.now) flag) }
        ensures err { OnErr result (self.new ≡ self.old) }
    {
        if self.held.get(file).is_none() {
            return Ok(false);
        }
        self.dirty.insert(*file)?;
        Ok(self.held.join_flag(file, flag)?)
    }

    /// A cell came to a held directory, which takes what is newer in it. Tells whether the cell for
    /// the child changed. After a refusal all is as before.
    pub fn join_entry(&mut self, dir: &FileId, entry: Entry) -> Result<bool, AllocError>
        ensures joined { OnOk result (self.new ≡ join_entry self.old dir.now entry) }
        ensures news { IfOk result (λ news. news ≡ is_entry_new (known self.old dir.now) entry) }
        ensures err { OnErr result (self.new ≡ self.old) }
    {
        let Some(held) = self.held.get(dir) else {
            return Ok(false);
        };
        let (joined, news) = held.joined(entry)?;
        self.set_entry(dir, joined)?;
        Ok(news)
    }

    /// A stamp of this time was taken.
    pub fn raise(&mut self, time: u64)
        ensures { self.new ≡ raise self.old time }
    {
        self.held.raise(time);
    }

    /// The stamp of the next place or version.
    pub fn draw_stamp(&mut self, moment: u64) -> Stamp
        requires { self.old.last < 2 ^ 63 }
        ensures stamp { result ≡ next_stamp moment self.old.last self.old.server }
        ensures last { self.new ≡ with_last self.old result.time }
    {
        self.held.draw_stamp(moment)
    }
}
