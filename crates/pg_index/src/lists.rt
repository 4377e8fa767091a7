//! Sets of ids, by id.

ghost use Rattle.std.specs.Prelude.{◌≡◌, ◌||◌, ◌&&◌, not, [], IfOk, OnErr, OnOk};
ghost use Rattle.pg_base.specs.declared.id.FileId.{FileId};
ghost use Rattle.pg_base.specs.Id.{is_same_file};
ghost use Rattle.pg_index.specs.Ids.{has, ids_at};

use crate::ids::Ids;
use pg_base::FileId;
use std::alloc::{AllocError, Global};
use std::collections::BTreeMap;
use std::marker::Model;

/// A set of ids for each id.
#[derive(Debug, Drop)]
pub struct Lists {
    alloc: Global,
    by: BTreeMap<FileId, Ids>,
    none: Ids,
}

impl Model for Lists {
    ghost use Rattle.pg_index.specs.Ids.{ListsValue};

    ghost Value = { ListsValue };

    ghost use Rattle.std.specs.Prelude.{◌≡◌, []};

    ghost view = { λ s. s.by.entries };

    ghost invariant = { λ s. s.none ≡ [] };
}

impl Lists {
    /// An empty set for each id. It takes no memory.
    pub fn new(alloc: Global) -> Lists
        ensures { result ≡ [] }
    {
        Lists {
            alloc,
            by: BTreeMap::new(alloc),
            none: Ids::new(alloc),
        }
    }

    /// The set of an id.
    pub fn get(&self, key: &FileId) -> &Ids
        ensures { result.now ≡ ids_at self.now key.now }
    {
        match self.by.get(key) {
            Some(ids) => ids,
            None => &self.none,
        }
    }

    /// Whether the set of an id has this one.
    pub fn has(&self, key: &FileId, file: &FileId) -> bool
        ensures { result ≡ has self.now key.now file.now }
    {
        self.get(key).contains(file)
    }

    /// The set of an id has this one from now on. After a refusal the sets are as before.
    pub fn insert(&mut self, key: FileId, file: FileId) -> Result<(), AllocError>
        ensures ok { OnOk result ((k q : FileId) → has self.new k q
            ≡ ((is_same_file key k && is_same_file file q) || has self.old k q)) }
        ensures err { OnErr result ((k q : FileId) → has self.new k q ≡ has self.old k q) }
    {
        match self.by.get_mut(&key) {
            Some(ids) => {
                ids.insert(file)?;
                Ok(())
            }
            None => {
                let mut ids = Ids::new(self.alloc);
                ids.insert(file)?;
                self.by.insert(key, ids)?;
                Ok(())
            }
        }
    }

    /// The set of an id has this one no longer. An empty set takes no memory.
    pub fn remove(&mut self, key: &FileId, file: &FileId)
        ensures { (k q : FileId) → has self.new k q
            ≡ (not (is_same_file key.now k && is_same_file file.now q) && has self.old k q) }
    {
        let Some(ids) = self.by.get_mut(key) else {
            return;
        };
        ids.remove(file);
        if ids.is_empty() {
            self.by.remove(key);
        }
    }
}
