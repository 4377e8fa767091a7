//! What clients asked for that is not held.

ghost use Rattle.std.specs.Prelude.{◌≡◌, ◌++◌, [], IfOk, OnErr, OnOk, option_copied};
ghost use Rattle.std.specs.List.Sorted.{IsStrictlySortedBy};
ghost use Rattle.std.specs.Map.{keys_of};
ghost use Rattle.pg_base.specs.Id.{file_cmp};
ghost use Rattle.pg_store.specs.Wishes.{aim_each, aim_wish, aimed_at, put_wish, wish_in, wished_at, wished_of, without_wish};

use pg_base::{FileId, Items, NodeId};
use std::alloc::{AllocError, Global};
use std::collections::BTreeMap;
use std::marker::Model;

/// A thing is to be fetched, since a client asked for it: the birth that its replica will have, and
/// the server that is asked.
#[derive(Clone, Copy, Debug, PartialEq, Eq)]
pub struct Wish {
    pub birth: u64,
    pub target: NodeId,
}

impl Wish {
    fn aim(&mut self, target: NodeId)
        ensures { self.new ≡ aimed_at target self.old }
    {
        self.target = target;
    }
}

/// The wishes of a server, at most one for each thing.
#[derive(Debug, Drop)]
pub struct Wishes {
    alloc: Global,
    by_file: BTreeMap<FileId, Wish>,
}

impl Model for Wishes {
    ghost use Rattle.pg_store.specs.Wishes.{WishesValue};

    ghost Value = { WishesValue };

    ghost view = { λ w. w.by_file.entries };

    ghost use Rattle.std.specs.List.Sorted.{IsStrictlySortedBy};
    ghost use Rattle.std.specs.Map.{keys_of};
    ghost use Rattle.pg_base.specs.Id.{file_cmp};

    ghost invariant = { λ w. IsStrictlySortedBy file_cmp (keys_of w.by_file.entries) };
}

impl Wishes {
    /// No wish. It takes no memory.
    pub fn new(alloc: Global) -> Wishes
        ensures { result ≡ [] }
    {
        Wishes {
            alloc,
            by_file: BTreeMap::new(alloc),
        }
    }

    /// The wishes, to go through them by file.
    pub fn as_map(&self) -> &BTreeMap<FileId, Wish>
        ensures wishes { result.now.entries ≡ self.now }
        ensures by_file { IsStrictlySortedBy file_cmp (keys_of self.now) }
    {
        &self.by_file
    }

    /// The wish for a thing.
    pub fn get(&self, file: &FileId) -> Option<&Wish>
        ensures { option_copied result ≡ wish_in self.now file.now }
    {
        self.by_file.get(file)
    }

    /// The wish for the thing is this one from now on.
    pub fn put(&mut self, file: FileId, wish: Wish) -> Result<(), AllocError>
        ensures ok { OnOk result (self.new ≡ put_wish self.old file wish) }
        ensures err { OnErr result (self.new ≡ self.old) }
    {
        self.by_file.insert(file, wish)?;
        Ok(())
    }

    /// The wish for the thing ends, if there is one.
    pub fn take(&mut self, file: &FileId) -> Option<Wish>
        ensures taken { result ≡ wish_in self.old file.now }
        ensures wishes { self.new ≡ without_wish self.old file.now }
    {
        self.by_file.remove(file)
    }

    /// The wish for the thing asks this server from now on, if there is one.
    pub fn aim(&mut self, file: &FileId, target: NodeId)
        ensures { self.new ≡ aim_wish self.old file.now target }
    {
        let Some(wish) = self.by_file.get_mut(file) else {
            return;
        };
        wish.aim(target);
    }

    /// The things whose wishes ask this server, by id.
    fn of_target(&self, server: NodeId) -> Result<Items<FileId>, AllocError>
        ensures { IfOk result (λ files. files ≡ wished_of server self.now) }
    {
        let mut files = Items::new(self.alloc);
        for (file, wish) in self.by_file.iter() {
            push_if_asks(server, *file, wish, &mut files)?;
        }
        Ok(files)
    }

    /// The wishes for these things ask this server from now on.
    fn aim_each(&mut self, files: &[FileId], to: NodeId)
        ensures { self.new ≡ aim_each self.old files.now to }
    {
        for file in files {
            self.aim(file, to);
        }
    }

    /// The wishes that ask one server ask the other from now on.
    pub fn turn(&mut self, from: NodeId, to: NodeId) -> Result<(), AllocError>
        ensures { OnOk result (self.new ≡ aim_each self.old (wished_of from self.old) to) }
    {
        let files = self.of_target(from)?;
        self.aim_each(files.as_slice(), to);
        Ok(())
    }

    /// All wishes are lost.
    pub fn clear(&mut self)
        ensures { self.new ≡ [] }
    {
        self.by_file = BTreeMap::new(self.alloc);
    }
}

/// The thing, where the wish for it asks this server.
fn push_if_asks(
    server: NodeId,
    file: FileId,
    wish: &Wish,
    files: &mut Items<FileId>,
) -> Result<(), AllocError>
    ensures { OnOk result (files.new ≡ files.old ++ wished_at server file wish.now) }
{
    if wish.target == server {
        files.push(file)?;
    }
    Ok(())
}
