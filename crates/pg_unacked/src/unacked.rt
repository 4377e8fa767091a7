//! The dues of all peers.

ghost use Rattle.std.specs.Prelude.{ℕ, ◌≡◌, ◌==◌, ◌||◌, ◌&&◌, not, [], OnErr, OnOk};
ghost use Rattle.std.specs.List.Sorted.{IsStrictlySortedBy};
ghost use Rattle.pg_base.specs.Id.{is_same_file};
ghost use Rattle.pg_unacked.specs.declared.due.Due.{Due};
ghost use Rattle.pg_unacked.specs.Due.{due_cmp, is_same_due, dues_to, has_due};

use crate::due::Due;
use crate::list::DueList;
use pg_base::{FileId, NodeId};
use std::alloc::{AllocError, Global};
use std::collections::BTreeMap;
use std::marker::Model;

/// For each peer the keys that it has not acknowledged, by file and then by key.
#[derive(Debug, Drop)]
pub struct Unacked {
    alloc: Global,
    by: BTreeMap<NodeId, DueList>,
    none: DueList,
}

impl Model for Unacked {
    ghost use Rattle.pg_unacked.specs.Due.{UnackedValue};

    ghost Value = { UnackedValue };

    ghost use Rattle.std.specs.Prelude.{◌≡◌, []};

    ghost view = { λ s. s.by.entries };

    ghost invariant = { λ s. s.none ≡ [] };
}

impl Unacked {
    /// No due for any peer. It takes no memory.
    pub fn new(alloc: Global) -> Unacked
        ensures { result ≡ [] }
    {
        Unacked {
            alloc,
            by: BTreeMap::new(alloc),
            none: DueList::new(alloc),
        }
    }

    /// The dues of the peer, in order.
    pub fn get(&self, peer: NodeId) -> &[Due]
        ensures dues { result.now ≡ dues_to self.now peer }
        ensures sorted { IsStrictlySortedBy due_cmp (dues_to self.now peer) }
    {
        match self.by.get(&peer) {
            Some(dues) => dues.as_slice(),
            None => self.none.as_slice(),
        }
    }

    /// Whether the peer has the due.
    pub fn has(&self, peer: NodeId, due: &Due) -> bool
        ensures { result ≡ has_due self.now peer due.now }
    {
        match self.by.get(&peer) {
            Some(dues) => dues.contains(due),
            None => false,
        }
    }

    /// The peer has the due from now on. After a refusal all is as before.
    pub fn insert(&mut self, peer: NodeId, due: Due) -> Result<(), AllocError>
        ensures ok { OnOk result ((p : ℕ) (d : Due) → has_due self.new p d
            ≡ ((peer == p && is_same_due due d) || has_due self.old p d)) }
        ensures err { OnErr result ((p : ℕ) (d : Due)
            → has_due self.new p d ≡ has_due self.old p d) }
    {
        match self.by.get_mut(&peer) {
            Some(dues) => {
                dues.insert(due)?;
                Ok(())
            }
            None => {
                let mut dues = DueList::new(self.alloc);
                dues.insert(due)?;
                self.by.insert(peer, dues)?;
                Ok(())
            }
        }
    }

    /// The peer has the due no longer. It takes no memory.
    pub fn remove(&mut self, peer: NodeId, due: &Due)
        ensures { (p : ℕ) (d : Due) → has_due self.new p d
            ≡ (not (peer == p && is_same_due due.now d) && has_due self.old p d) }
    {
        let Some(dues) = self.by.get_mut(&peer) else {
            return;
        };
        dues.remove(due);
        if dues.is_empty() {
            self.by.remove(&peer);
        }
    }

    /// The peer has no due of the file any more. It takes no memory.
    pub fn remove_file(&mut self, peer: NodeId, file: &FileId)
        ensures { (p : ℕ) (d : Due) → has_due self.new p d
            ≡ (not (peer == p && is_same_file file.now d.file) && has_due self.old p d) }
    {
        let Some(dues) = self.by.get_mut(&peer) else {
            return;
        };
        dues.remove_file(file);
        if dues.is_empty() {
            self.by.remove(&peer);
        }
    }

    /// No peer has a due of the file any more. It takes no memory.
    pub fn forget(&mut self, file: &FileId)
        ensures { (p : ℕ) (d : Due) → has_due self.new p d
            ≡ (not (is_same_file file.now d.file) && has_due self.old p d) }
    {
        self.by.retain(|_, dues| {
            dues.remove_file(file);
            !dues.is_empty()
        });
    }
}
