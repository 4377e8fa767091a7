//! Several keys with their tags.

ghost use Rattle.std.specs.Prelude.{◌≡◌, [], OnOk, OnErr, IfOk, IfErr, IsTrue, ◌↔◌, Some, if◌then◌else◌, length, nat_eq};
ghost use Rattle.std.specs.BTreeMap.{insert_entry};
ghost use Rattle.std.specs.Option.{option_eq};
ghost use Rattle.std.specs.List.Sorted.{IsStrictlySortedBy};
ghost use Rattle.std.specs.Map.{keys_of};
ghost use Rattle.pg_edges.specs.Key.{key_cmp};
ghost use Rattle.pg_edges.specs.Keys.{tag_in, without, IsAt, IsGap};

use crate::key::Key;
use std::alloc::{AllocError, Global};
use std::marker::Model;

/// Keys, each with its tag, by key, in memory of their own.
#[derive(Debug, Drop)]
pub(crate) struct Many {
    tags: Vec<(Key, u64)>,
}

impl Model for Many {
    ghost use Rattle.std.specs.Prelude.{List, ℕ};
    ghost use Rattle.std.specs.List.Sorted.{IsStrictlySortedBy};
    ghost use Rattle.std.specs.Map.{keys_of};
    ghost use Rattle.pg_edges.specs.declared.key.Key.{Key};
    ghost use Rattle.pg_edges.specs.Key.{key_cmp};

    ghost Value = { List (Key × ℕ) };

    ghost view = { λ k. k.tags.items };

    ghost invariant = { λ k. IsStrictlySortedBy key_cmp (keys_of k.tags.items) };
}

impl Many {
    /// No key. It takes no memory.
    pub(crate) fn new(alloc: Global) -> Self
        ensures { result ≡ [] }
    {
        Many {
            tags: Vec::new(alloc),
        }
    }

    /// Puts the tag at the key.
    pub(crate) fn set(&mut self, key: Key, tag: u64) -> Result<(), AllocError>
        ensures ok { OnOk result (self.new ≡ insert_entry key_cmp self.old key tag) }
        ensures err { OnErr result (self.new ≡ self.old) }
        ensures ordered { IsStrictlySortedBy key_cmp (keys_of self.new) }
    {
        match self.search(&key) {
            Ok(at) => {
                self.tags[at] = (key, tag);
                Ok(())
            }
            Err(at) => {
                self.tags.insert(at, (key, tag))?;
                Ok(())
            }
        }
    }

    /// The tag of the key.
    pub(crate) fn get(&self, key: &Key) -> Option<u64>
        ensures { result ≡ tag_in self.now key.now }
    {
        match self.search(key) {
            Ok(at) => Some(self.tags[at].1),
            Err(_) => None,
        }
    }

    /// Takes the key off.
    pub(crate) fn remove(&mut self, key: &Key)
        ensures { self.new ≡ without self.old key.now }
    {
        match self.search(key) {
            Ok(at) => {
                self.tags.remove(at);
            }
            Err(_) => {}
        }
    }

    pub(crate) fn is_empty(&self) -> bool
        ensures empty { IsTrue result ↔ (self.now ≡ []) }
        ensures ordered { IsStrictlySortedBy key_cmp (keys_of self.now) }
    {
        self.tags.is_empty()
    }

    /// The keys and tags, by key.
    pub(crate) fn as_slice(&self) -> &[(Key, u64)]
        ensures keys { result.now ≡ self.now }
        ensures ordered { IsStrictlySortedBy key_cmp (keys_of self.now) }
    {
        self.tags.as_slice()
    }

    /// Copies the keys and tags.
    pub(crate) fn copy(&self) -> Result<Self, AllocError>
        ensures { IfOk result (λ k. k ≡ self.now) }
    {
        Ok(Many {
            tags: self.tags.clone()?,
        })
    }

    /// Where the key stands, or where it would go.
    fn search(&self, key: &Key) -> Result<usize, usize>
        ensures found { IfOk result (IsAt self.now key.now) }
        ensures missing { IfErr result (IsGap self.now key.now) }
    {
        self.tags.binary_search_by_key(key, |e| e.0)
    }
}
