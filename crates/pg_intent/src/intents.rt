//! The intentions of a server.

ghost use Rattle.std.specs.Prelude.{◌≡◌, ◌++◌, ◌==◌, [], IfOk, OnErr, OnOk, length, not, slice_get};
ghost use Rattle.std.specs.List.{find};
ghost use Rattle.std.specs.Map.Iter.{ShowsInOrder, deref};
ghost use Rattle.std.specs.Option.{option_copied};
ghost use Rattle.pg_intent.specs.Intent.{is_about, key_of};
ghost use Rattle.pg_intent.specs.declared.intent.Intent.{Intent};
ghost use Rattle.pg_intent.specs.Intents.{HaveOwnKeys, aimed, begun, ended, intent_at, key_to, keys_to, stands, turned, turned_each};

use crate::intent::Intent;
use crate::key::IntentKey;
use indexmap::IndexMap;
use indexmap::map::Values;
use pg_base::{FileId, Items, NodeId};
use std::alloc::{AllocError, Global};
use std::marker::Model;

/// Intentions in the order in which they began, at most one with each key.
#[derive(Debug, Drop)]
pub struct Intents {
    by_key: IndexMap<IntentKey, Intent>,
}

impl Model for Intents {
    ghost use Rattle.std.specs.Prelude.{List};
    ghost use Rattle.pg_intent.specs.declared.intent.Intent.{Intent};

    ghost Value = { List Intent };

    ghost use Rattle.std.specs.Map.{values_of};
    ghost use Rattle.pg_intent.specs.IntentsInside.{AreByKey};

    ghost view = { λ r. values_of r.by_key.entries };

    ghost invariant = { AreByKey };
}

impl Intents {
    /// No intention. It takes no memory.
    pub fn new(alloc: Global) -> Intents
        ensures { result ≡ [] }
    {
        Intents {
            by_key: IndexMap::new(alloc),
        }
    }

    pub fn len(&self) -> usize
        ensures len { result ≡ length self.now }
        ensures keys { HaveOwnKeys self.now }
    {
        self.by_key.len()
    }

    pub fn is_empty(&self) -> bool
        ensures { result ≡ (length self.now == 0) }
    {
        self.by_key.is_empty()
    }

    /// The intention at index `k`, in the order in which they began.
    pub fn at(&self, k: usize) -> Option<&Intent>
        ensures intent { option_copied result ≡ slice_get self.now k }
        ensures keys { HaveOwnKeys self.now }
    {
        match self.by_key.get_index(k) {
            Some((_, intent)) => Some(intent),
            None => None,
        }
    }

    /// The intentions, in the order in which they began.
    pub fn iter(&self) -> Values<'_, IntentKey, Intent>
        ensures all { result ≡ self.now }
        ensures runs { ShowsInOrder (deref {X = Intent}) }
        ensures keys { HaveOwnKeys self.now }
    {
        self.by_key.values()
    }

    /// The intention with this key.
    pub fn get(&self, key: &IntentKey) -> Option<&Intent>
        ensures intent { option_copied result ≡ intent_at self.now key.now }
        ensures keys { HaveOwnKeys self.now }
    {
        self.by_key.get(key)
    }

    /// The first intention that is about this file or directory, or about this child of a
    /// directory.
    pub fn first_about(&self, id: FileId) -> Option<&Intent>
        ensures { option_copied result ≡ find (is_about id) self.now }
    {
        self.iter().find(|intent| intent.is_about(id))
    }

    /// Begins the intention, behind the others. Where one with its key stands it stays in its
    /// place, and a Patch joins the entry. Tells whether none stood.
    pub fn begin(&mut self, intent: Intent) -> Result<bool, AllocError>
        ensures begun { OnOk result (self.new ≡ begun self.old intent) }
        ensures news { IfOk result (λ news. news ≡ not (stands self.old (key_of intent))) }
        ensures err { OnErr result (self.new ≡ self.old) }
    {
        let key = intent.key();
        match self.by_key.get_mut(&key) {
            Some(held) => {
                held.rejoin(intent)?;
                Ok(false)
            }
            None => {
                self.by_key.insert(key, intent)?;
                Ok(true)
            }
        }
    }

    /// Takes the intention with this key out. The others keep their order.
    pub fn take(&mut self, key: &IntentKey) -> Option<Intent>
        ensures taken { result ≡ intent_at self.old key.now }
        ensures ended { self.new ≡ ended self.old key.now }
    {
        self.by_key.shift_remove(key)
    }

    /// Ends the intention with this key, and tells whether it stood. The others keep their order.
    pub fn end(&mut self, key: &IntentKey) -> bool
        ensures ended { self.new ≡ ended self.old key.now }
        ensures stood { result ≡ stands self.old key.now }
    {
        self.take(key).is_some()
    }

    /// Asks this server from now on, where the intention with this key stands. A Bye and a Leave
    /// stay with their peer.
    pub fn aim(&mut self, key: &IntentKey, target: NodeId)
        ensures { self.new ≡ aimed self.old key.now target }
    {
        let Some(intent) = self.by_key.get_mut(key) else {
            return;
        };
        intent.aim(target);
    }

    /// The keys of the intentions that ask this server, in the order in which they began.
    pub fn keys_to(&self, alloc: Global, server: NodeId) -> Result<Items<IntentKey>, AllocError>
        ensures { IfOk result (λ keys. keys ≡ keys_to server self.now) }
    {
        let mut keys = Items::new(alloc);
        for intent in self.iter() {
            push_if_to(server, intent, &mut keys)?;
        }
        Ok(keys)
    }

    /// An intention that asks a server which is removed asks this one from now on; a Bye and a
    /// Leave end.
    fn turn(&mut self, key: &IntentKey, to: NodeId)
        ensures { self.new ≡ turned self.old key.now to }
    {
        if key.is_for_peer() {
            self.end(key);
        } else {
            self.aim(key, to);
        }
    }

    /// The intentions with these keys that ask a server which is removed ask this one from now on,
    /// one behind another; a Bye and a Leave end.
    pub fn turn_each(&mut self, keys: &[IntentKey], to: NodeId)
        ensures { self.new ≡ turned_each self.old keys.now to }
    {
        for key in keys {
            self.turn(key, to);
        }
    }
}

/// The key of an intention, where it asks this server.
fn push_if_to(
    server: NodeId,
    intent: &Intent,
    keys: &mut Items<IntentKey>,
) -> Result<(), AllocError>
    ensures { OnOk result (keys.new ≡ keys.old ++ key_to server intent.now) }
{
    if intent.target() == server {
        keys.push(intent.key())?;
    }
    Ok(())
}
